//! The join of the three lists.

ghost use Rattle.std.specs.Prelude.{◌≡◌, ◌<◌, [], None, true, IfOk, IfErr, unwrap_or, Contains};
ghost use Rattle.std.specs.List.{find};
ghost use Rattle.std.specs.Option.{option_map};
ghost use Rattle.std.specs.Str.{bytes_eq};
ghost use Rattle.std.specs.Str.Parse.{digits_value};
ghost use Rattle.sums.specs.Lines.{is_digest, is_size, digest_word, name_word, greatest_size};
ghost use Rattle.sums.specs.Lists.{files_form, unhexed, digest_named, section_word, priority_word, entry_of_line, entries_of};
ghost use Rattle.sums.specs.Views.{line_form, lines_in, fault_of_lines};

use crate::entries::{Entry, ListKind};
use crate::fault::ListFault;
use crate::lines::{Form, Line, word};
use crate::print::Print;
use hex::FromHex;
use para::Text;
use std::alloc::Global;

pub const SHA1_FORM: Form = Form {
    words: 3,
    digest: 20,
};

pub const SHA256_FORM: Form = Form {
    words: 3,
    digest: 32,
};

const DSC_FORM: Form = Form {
    words: 3,
    digest: 16,
};

const CHANGES_FORM: Form = Form {
    words: 5,
    digest: 16,
};

/// The lines of the three lists.
#[derive(Clone, Copy)]
pub struct Lists<'a> {
    pub sha1: &'a [Line<'a>],
    pub sha256: &'a [Line<'a>],
    pub files: &'a [Line<'a>],
    pub kind: ListKind,
    /// The most bytes of a file.
    pub most: u64,
}

/// What the lines of `Files` are like.
pub fn files_form(kind: ListKind) -> Form
    ensures { line_form result ≡ files_form kind }
{
    match kind {
        ListKind::Dsc => DSC_FORM,
        ListKind::Changes => CHANGES_FORM,
    }
}

/// The digest that a word writes.
fn digest<const N: usize>(word: &str) -> [u8; N]
    requires { is_digest N word.now ≡ true }
    ensures { result ≡ unhexed word.now }
{
    <[u8; N]>::from_hex(word).unwrap()
}

/// The size that a word writes.
fn size(word: &str) -> u64
    requires { is_size greatest_size word.now ≡ true }
    ensures { result ≡ digits_value 10 word.now }
{
    word.parse::<u64>().unwrap()
}

/// The first line whose name this is.
fn line_named<'l, 'a>(form: Form, lines: &'l [Line<'a>], name: &str) -> Option<&'l Line<'a>>
    requires { 0 < form.words }
    ensures { option_map (λ line. line.now) result ≡ find (λ line. bytes_eq (name_word (line_form form) line) name.now) lines.now }
{
    for line in lines {
        if word(line, form.words - 1) == name {
            return Some(line);
        }
    }
    None
}

/// The digest in the first line of that name.
fn digest_named<const N: usize>(form: Form, lines: &[Line<'_>], name: &str) -> [u8; N]
    requires words { 0 < form.words }
    requires there { is_digest N (digest_word (unwrap_or (find (λ line. bytes_eq (name_word (line_form form) line) name.now) lines.now) [])) ≡ true }
    ensures { result ≡ digest_named (line_form form) lines.now name.now }
{
    match line_named(form, lines, name) {
        Some(line) => digest(word(line, 0)),
        None => digest(""),
    }
}

fn section<'a>(kind: ListKind, line: &Line<'a>) -> &'a str
    ensures { result.now ≡ section_word kind line.now }
{
    match kind {
        ListKind::Dsc => "",
        ListKind::Changes => word(line, 2),
    }
}

fn priority<'a>(kind: ListKind, line: &Line<'a>) -> &'a str
    ensures { result.now ≡ priority_word kind line.now }
{
    match kind {
        ListKind::Dsc => "",
        ListKind::Changes => word(line, 3),
    }
}

/// The join of a line of `Files` with the lines of its name.
fn joined_entry(alloc: Global, lists: Lists<'_>, line: &Line<'_>) -> Result<Entry, ListFault>
    requires faultless { fault_of_lines lists.most lists.kind (lines_in lists) ≡ None }
    requires listed { Contains (lines_in lists).files line.now }
    ensures joined { IfOk result (λ entry. entry ≡ entry_of_line lists.entry.kind (lines_in lists.entry) line.now) }
    ensures memory { IfErr result (λ fault. fault ≡ ListFault.OutOfMemory) }
{
    let name = word(line, files_form(lists.kind).words - 1);
    let print = Print {
        size: size(word(line, 1)),
        md5: digest(word(line, 0)),
        sha1: digest_named(SHA1_FORM, lists.sha1, name),
        sha256: digest_named(SHA256_FORM, lists.sha256, name),
    };
    Ok(Entry {
        name: Text::new(alloc, name)?,
        print,
        section: Text::new(alloc, section(lists.kind, line))?,
        priority: Text::new(alloc, priority(lists.kind, line))?,
    })
}

/// The entries of lists without a fault, in the order of `Files`.
pub fn entries(alloc: Global, lists: Lists<'_>) -> Result<Vec<Entry>, ListFault>
    requires { fault_of_lines lists.most lists.kind (lines_in lists) ≡ None }
    ensures joined { IfOk result (λ entries. entries.items ≡ entries_of lists.entry.kind (lines_in lists.entry)) }
    ensures memory { IfErr result (λ fault. fault ≡ ListFault.OutOfMemory) }
{
    let mut entries = Vec::new(alloc);
    for line in lists.files {
        entries.push(joined_entry(alloc, lists, line)?)?;
    }
    Ok(entries)
}
