//! Lists of commands: what each line asks for.

ghost use Rattle.std.specs.Prelude.{◌≡◌, ◌⊎◌, Some, None, map, is_some, IfOk, IfErr};
ghost use Rattle.std.specs.Option.{option_map};
ghost use Rattle.std.specs.List.{list_any};
ghost use Rattle.sums.specs.Lines.{is_space};
ghost use Rattle.lists.specs.Lists.{asked, asked_by_lines, asked_by_list, bytes_of, command_in, command_of, copy_of, fault_behind, is_bad, is_one_word, is_passed_over, lines_in, list_fault, lone, parted, promotion_of, put_of, removal_of, two_words, worded};
ghost use Rattle.lists.specs.declared.list.BatchFault.TheVariants.{OutOfMemory};

use crate::request::{ListRequest, Request};
use std::alloc::{AllocError, Global};
use std::str;

/// Why a list is not read.
#[derive(Clone, Copy, Debug, PartialEq, Eq)]
pub enum BatchFault {
    /// No memory was left.
    OutOfMemory,
    /// The first bad line has this number, from 1.
    Line(usize),
}

impl From<AllocError> for BatchFault {
    ghost from_gives = { λ _ fault. fault ≡ OutOfMemory };

    fn from(_error: AllocError) -> BatchFault {
        BatchFault::OutOfMemory
    }
}

/// What stands before the first space of a text, and what stands after it, if the text has a space.
fn parted(text: &str) -> Option<(&str, &str)>
    ensures { option_map (λ parts. (parts.0.now, parts.1.now)) result ≡ parted text.now }
{
    text.split_once(' ')
}

fn has_space(text: &str) -> bool
    ensures { result ≡ list_any is_space text.now }
{
    text.bytes().any(|byte| byte == b' ')
}

/// Whether a text is a word: one byte or more, none of them a space.
#[tactic(auto, unfolding(crate::specs::Lists::is_one_word))]
fn is_one_word(text: &str) -> bool
    ensures { result ≡ is_one_word text.now }
{
    let empty = text.is_empty();
    let space = has_space(text);
    !empty && !space
}

/// The two words of a text that is two words with one space between.
#[tactic(auto, unfolding(crate::specs::Lists::two_words))]
fn two_words(text: &str) -> Option<(&str, &str)>
    ensures { option_map (λ words. (words.0.now, words.1.now)) result ≡ two_words text.now }
{
    let (first, second) = parted(text)?;
    if is_one_word(first) && is_one_word(second) {
        Some((first, second))
    } else {
        None
    }
}

/// `PATH`, which may hold spaces.
#[tactic(auto, unfolding(crate::specs::Lists::put_of))]
fn put_of(path: &str) -> Option<ListRequest<'_>>
    ensures { option_map bytes_of result ≡ put_of path.now }
{
    if path.is_empty() {
        None
    } else {
        Some(Request::Put { path })
    }
}

/// `FROM TO SOURCE`.
#[tactic(auto, unfolding(crate::specs::Lists::copy_of))]
fn copy_of(text: &str) -> Option<ListRequest<'_>>
    ensures { option_map bytes_of result ≡ copy_of text.now }
{
    let (from, rest) = parted(text)?;
    let (to, source) = two_words(rest)?;
    if is_one_word(from) {
        Some(Request::Copy { from, to, source })
    } else {
        None
    }
}

/// `FROM TO`.
#[tactic(auto, unfolding(crate::specs::Lists::promotion_of))]
fn promotion_of(text: &str) -> Option<ListRequest<'_>>
    ensures { option_map bytes_of result ≡ promotion_of text.now }
{
    let (from, to) = two_words(text)?;
    Some(Request::Promote {
        from,
        to,
        sources: (),
    })
}

/// `SUITE PACKAGE`.
#[tactic(auto, unfolding(crate::specs::Lists::removal_of))]
fn removal_of(text: &str) -> Option<ListRequest<'_>>
    ensures { option_map bytes_of result ≡ removal_of text.now }
{
    let (suite, name) = two_words(text)?;
    Some(Request::Remove { suite, name })
}

/// A command with what stands after its space.
#[tactic(auto, unfolding(crate::specs::Lists::worded))]
fn worded<'a>(command: &str, rest: &'a str) -> Option<ListRequest<'a>>
    ensures { option_map bytes_of result ≡ worded command.now rest.now }
{
    if command == "put" {
        put_of(rest)
    } else if command == "copy" {
        copy_of(rest)
    } else if command == "promote" {
        promotion_of(rest)
    } else if command == "remove" {
        removal_of(rest)
    } else {
        None
    }
}

/// A command that is one word.
#[tactic(auto, unfolding(crate::specs::Lists::lone))]
fn lone(line: &str) -> Option<ListRequest<'_>>
    ensures { option_map bytes_of result ≡ lone line.now }
{
    if line == "run" {
        Some(Request::Run)
    } else if line == "clean" {
        Some(Request::Clean)
    } else if line == "waiting" {
        Some(Request::Waiting)
    } else if line == "verdicts" {
        Some(Request::Verdicts)
    } else {
        None
    }
}

/// The command that a text is, if it is one.
#[tactic(auto, unfolding(crate::specs::Lists::command_of))]
fn command_of(text: &str) -> Option<ListRequest<'_>>
    ensures { option_map bytes_of result ≡ command_of text.now }
{
    match parted(text) {
        Some((command, rest)) => worded(command, rest),
        None => lone(text),
    }
}

/// The command that bytes are, if they are UTF-8 and a command.
fn command_in(line: &[u8]) -> Option<ListRequest<'_>>
    ensures { option_map bytes_of result ≡ command_in line.now }
{
    match str::from_utf8(line) {
        Ok(text) => command_of(text),
        Err(_) => None,
    }
}

/// Whether bytes are a command.
fn is_command(line: &[u8]) -> bool
    ensures { result ≡ is_some (command_in line.now) }
{
    command_in(line).is_some()
}

/// Whether a line is passed over: an empty one, and one that begins with a number sign.
fn is_passed_over(line: &[u8]) -> bool
    ensures { result ≡ is_passed_over line.now }
{
    match line {
        [first, ..] => *first == b'#',
        [] => true,
    }
}

/// What a line of a list asks for, if it is not passed over.
#[tactic(auto, unfolding(crate::specs::Lists::asked))]
fn asked(line: &[u8]) -> Option<ListRequest<'_>>
    ensures { option_map bytes_of result ≡ asked line.now }
{
    if is_passed_over(line) {
        None
    } else {
        command_in(line)
    }
}

/// Whether a line is neither passed over nor a command.
#[tactic(auto, unfolding(crate::specs::Lists::is_bad))]
fn is_bad(line: &[u8]) -> bool
    ensures { result ≡ is_bad line.now }
{
    let passed = is_passed_over(line);
    let command = is_command(line);
    !passed && !command
}

/// The pieces between the newlines of a list.
fn lines_of(alloc: Global, list: &[u8]) -> Result<Vec<&[u8]>, AllocError>
    ensures { IfOk result (λ found. map (λ line. line.now) found.items ≡ lines_in list.now) }
{
    list.split(|byte| *byte == b'\n').collect(alloc)
}

/// The number of the first of these lines that is bad.
fn lines_fault(lines: &[&[u8]]) -> Option<BatchFault>
    ensures { result ≡ fault_behind 0 (map (λ line. line.now) lines.now) }
{
    for (index, line) in lines.iter().enumerate() {
        if is_bad(line) {
            return Some(BatchFault::Line(index + 1));
        }
    }
    None
}

/// What these lines ask for.
fn requests_of<'a>(alloc: Global, lines: &[&'a [u8]]) -> Result<Vec<ListRequest<'a>>, AllocError>
    ensures { IfOk result (λ requests. map bytes_of requests.items ≡ asked_by_lines (map (λ line. line.now) lines.now)) }
{
    let mut requests = Vec::new(alloc);
    for line in lines {
        if let Some(request) = asked(line) {
            requests.push(request)?;
        }
    }
    Ok(requests)
}

/// What these lines ask for, if none of them is bad.
fn read_lines<'a>(alloc: Global, lines: &[&'a [u8]]) -> Result<Vec<ListRequest<'a>>, BatchFault>
    ensures good { IfOk result (λ _. fault_behind 0 (map (λ line. line.now) lines.now) ≡ None) }
    ensures read { IfOk result (λ requests. map bytes_of requests.items ≡ asked_by_lines (map (λ line. line.now) lines.now)) }
    ensures refused { IfErr result (λ e. (e ≡ OutOfMemory) ⊎ (fault_behind 0 (map (λ line. line.now) lines.now) ≡ Some e)) }
{
    if let Some(fault) = lines_fault(lines) {
        return Err(fault);
    }
    Ok(requests_of(alloc, lines)?)
}

/// Reads a list of commands, one a line, each as one of
///
/// ```text
/// put PATH
/// run
/// copy FROM TO SOURCE
/// promote FROM TO
/// remove SUITE PACKAGE
/// clean
/// waiting
/// verdicts
/// ```
///
/// with one space between the words. PATH is all that stands after `put` and its space, so that it may hold spaces; no
/// other word may. A line that is empty or begins with `#` is passed over. A last line needs no newline. A list with any
/// other line, or with a command that is not UTF-8, is refused with the number of the first of these lines, from 1.
pub fn read_list<'a>(alloc: Global, list: &'a [u8]) -> Result<Vec<ListRequest<'a>>, BatchFault>
    // A list that is read has no bad line.
    ensures good { IfOk result (λ _. list_fault list.now ≡ None) }
    // It gives what its lines ask for.
    ensures read { IfOk result (λ requests. map bytes_of requests.items ≡ asked_by_list list.now) }
    // A list is refused for its first bad line, or for want of memory.
    ensures refused { IfErr result (λ e. (e ≡ OutOfMemory) ⊎ (list_fault list.now ≡ Some e)) }
{
    let lines = lines_of(alloc, list)?;
    read_lines(alloc, &lines)
}
