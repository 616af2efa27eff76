//! A line of a list: its words, and what each has to be.
//!
//! A test of bytes looks at all of them and does not branch, so that several bytes are tested at once.

ghost use Rattle.std.specs.Prelude.{◌≡◌, ◌==◌, ◌<◌, ◌&&◌, min, nat_lt, nat_le, slice_index, true, length, map, IfOk};
ghost use Rattle.std.specs.Char.{is_ascii_digit};
ghost use Rattle.std.specs.List.{list_any, list_all};
ghost use Rattle.sums.specs.Lines.{word, words, has_words, is_lower_hex, is_digest, is_size, is_tab, greatest_size};
ghost use Rattle.sums.specs.Views.{IsSplit, line_form, with_line, any_failed};
ghost use Rattle.std.specs.Str.Parse.{digits_value};

use crate::file_name::is_file_name;
use std::alloc::{AllocError, Global};
use std::marker::Model;

/// The most bytes that a file may have if a configuration says nothing else: 4 MiB (own rule of this archive).
pub const MOST_SIZE: u64 = 4_194_304;

/// The most bytes that a file may have in any archive: 1 GiB (own rule of this archive).
pub const GREATEST_SIZE: u64 = 1_073_741_824;

/// What the lines of a list are like.
#[derive(Clone, Copy)]
pub struct Form {
    /// How many words a line has.
    pub words: usize,
    /// How many bytes the digest has.
    pub digest: usize,
}

/// Which checks some of the lines so far fail.
#[derive(Clone, Copy)]
pub struct Failed {
    pub words: bool,
    pub digest: bool,
    pub size: bool,
    pub name: bool,
}

pub const NONE_FAILED: Failed = Failed {
    words: false,
    digest: false,
    size: false,
    name: false,
};

/// A line of a list, split at each space. Contracts see its bytes.
#[derive(Drop)]
pub struct Line<'a> {
    text: &'a str,
    words: Vec<&'a str>,
}

impl<'a> Model for Line<'a> {
    ghost use Rattle.std.specs.Prelude.{◌≡◌, ℕ, List, map};
    ghost use Rattle.sums.specs.Lines as split;

    ghost Value = { List ℕ };

    ghost view = { λ l. l.text.now };

    ghost invariant = { λ l. map (λ w. w.now) l.words.items ≡ split.words l.text.now };
}

impl<'a> Line<'a> {
    /// Splits a line, with room for `room` words at once.
    fn new(alloc: Global, room: usize, text: &'a str) -> Result<Line<'a>, AllocError>
        ensures { IfOk result (λ line. line ≡ text.now) }
    {
        let mut words = Vec::with_capacity(alloc, room)?;
        words.extend(text.split(' '))?;
        Ok(Line { text, words })
    }
}

/// A word of a line, or an empty text if the line has fewer words.
pub fn word<'a>(line: &Line<'a>, index: usize) -> &'a str
    ensures { result.now ≡ word line.now index }
{
    match line.words.get(index) {
        Some(word) => *word,
        None => "",
    }
}

fn count_words(line: &Line<'_>) -> usize
    ensures { result ≡ length (words line.now) }
{
    line.words.len()
}

fn has_empty_word(line: &Line<'_>) -> bool
    ensures { result ≡ list_any (λ w. length w == 0) (words line.now) }
{
    line.words.iter().any(|w| w.is_empty())
}

fn has_tab(line: &Line<'_>) -> bool
    ensures { result ≡ list_any is_tab line.now }
{
    let mut found = false;
    for c in line.text.as_bytes() {
        found |= *c == b'\t';
    }
    found
}

fn has_words(form: Form, line: &Line<'_>) -> bool
    ensures { result ≡ has_words (line_form form) line.now }
{
    let count = count_words(line);
    let empty = has_empty_word(line);
    let tab = has_tab(line);
    count == form.words && !empty && !tab
}

fn is_lower_hex(c: u8) -> bool
    ensures { result ≡ is_lower_hex c }
{
    c.is_ascii_digit() | (b'a'..=b'f').contains(&c)
}

/// Whether a word is a digest of `bytes` bytes.
fn is_digest(bytes: usize, word: &str) -> bool
    ensures { result ≡ is_digest bytes word.now }
{
    let lower_hex = is_lower_hex_text(word);
    let length = word.len();
    length / 2 == bytes && length % 2 == 0 && lower_hex
}

fn is_lower_hex_text(word: &str) -> bool
    ensures { result ≡ list_all is_lower_hex word.now }
{
    let mut all = true;
    for c in word.as_bytes() {
        all &= is_lower_hex(*c);
    }
    all
}

fn is_digits(word: &str) -> bool
    ensures { result ≡ list_all is_ascii_digit word.now }
{
    let mut all = true;
    for c in word.as_bytes() {
        all &= c.is_ascii_digit();
    }
    all
}

/// Whether the size of a file is at most `most` bytes, and at most `GREATEST_SIZE`.
fn is_small(most: u64, digits: &str) -> bool
    requires { list_all is_ascii_digit digits.now ≡ true }
    ensures { result ≡ (nat_lt 0 (length digits.now) && nat_le (digits_value 10 digits.now) (min most greatest_size)) }
{
    match digits.parse::<u32>() {
        Ok(size) => u64::from(size) <= most.min(GREATEST_SIZE),
        Err(_) => false,
    }
}

fn begins_with_zero(digits: &str) -> bool
    ensures { result ≡ (slice_index digits.now 0 == 48) }
{
    match digits.as_bytes().first() {
        Some(first) => *first == b'0',
        None => false,
    }
}

/// Whether a word is the size of a file of at most `most` bytes.
fn is_size(most: u64, word: &str) -> bool
    ensures { result ≡ is_size most word.now }
{
    if !is_digits(word) {
        return false;
    }
    let small = is_small(most, word);
    let zero = begins_with_zero(word);
    (word.len() == 1 || !zero) && small
}

/// The checks that failed before, or that a line fails.
fn with_line(most: u64, failed: Failed, form: Form, line: &Line<'_>) -> Failed
    requires { 0 < form.words }
    ensures { result ≡ with_line most failed (line_form form) line.now }
{
    let words = has_words(form, line);
    let digest = is_digest(form.digest, word(line, 0));
    let size = is_size(most, word(line, 1));
    let name = is_file_name(word(line, form.words - 1));
    Failed {
        words: failed.words || !words,
        digest: failed.digest || !digest,
        size: failed.size || !size,
        name: failed.name || !name,
    }
}

fn any_failed(failed: Failed) -> bool
    ensures { result ≡ any_failed failed }
{
    failed.words || failed.digest || failed.size || failed.name
}

/// The lines of a list, and the checks that failed before, or that some of them fail.
#[derive(Drop)]
pub struct SplitList<'a> {
    pub lines: Vec<Line<'a>>,
    pub failed: Failed,
}

/// Splits the lines of a list of files of at most `most` bytes, and tries them. Lines are kept while no check has failed, so that those of a list that is
/// refused take little memory.
pub fn split_list<'a>(
    alloc: Global,
    most: u64,
    form: Form,
    texts: &[&'a str],
    before: Failed,
) -> Result<SplitList<'a>, AllocError>
    requires { 0 < form.words }
    ensures { IfOk result (λ list. IsSplit most before (line_form form) (map (λ text. text.now) texts.now) list.failed list.lines.items) }
{
    let mut failed = before;
    let mut lines = Vec::new(alloc);
    for text in texts {
        let line = Line::new(alloc, form.words, text)?;
        failed = with_line(most, failed, form, &line);
        if !any_failed(failed) {
            lines.push(line)?;
        }
    }
    Ok(SplitList { lines, failed })
}
