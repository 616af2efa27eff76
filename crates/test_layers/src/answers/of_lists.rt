//! Lists of files, and names of files.

ghost use Rattle.std.specs.Prelude.{◌≡◌};
ghost use Rattle.sums.specs.Prints.{same_print};

use crate::out::Out;
use para::{Paragraph, read_one};
use sums::{Entry, ListKind, Print, Printer, is_file_name, print_of, read_lists};
use test_rows::Unread;

const LIMIT: usize = 1_048_576;

/// Adds a blank and the digits of a digest.
fn add_digest(out: &mut Out, digest: &[u8]) {
    match hex::encode(out.alloc, digest) {
        Ok(digits) => {
            out.say(" ");
            out.say(digits.as_str());
        }
        Err(_) => out.refuse(Unread::OutOfMemory),
    }
}

/// Adds a size and the digests.
fn add_print(out: &mut Out, print: &Print) {
    out.show(print.size);
    add_digest(out, &print.md5);
    add_digest(out, &print.sha1);
    add_digest(out, &print.sha256);
}

/// Adds a line for each file: its name, size and digests, and its section and priority.
pub fn add_entries(out: &mut Out, entries: &[Entry]) {
    for entry in entries {
        out.say("file ");
        out.say(entry.name.as_str());
        out.say(" ");
        add_print(out, &entry.print);
        out.say(" ");
        out.quote(entry.section.as_str(), " ");
        out.quote(entry.priority.as_str(), "\n");
    }
}

/// `print BODY`: its size and digests.
fn print(out: &mut Out, words: &[Vec<u8>]) {
    let body = out.only(words);
    add_print(out, &print_of(body));
}

/// `print-pieces [PIECE]..`: the size and digests of the body that comes in these pieces.
fn print_pieces(out: &mut Out, pieces: &[Vec<u8>]) {
    let mut printer = Printer::new();
    for piece in pieces {
        printer.update(piece.as_slice());
    }
    add_print(out, &printer.finish());
}

/// Whether two prints are equal. `==` compares the sizes and all three digests.
fn is_same(left: &Print, right: &Print) -> bool
    ensures { result ≡ same_print left.now right.now }
{
    left == right
}

/// `same-print BODY BODY`: `yes` or `no`.
fn same_print(out: &mut Out, words: &[Vec<u8>]) {
    match words {
        [left, right] => out.yes_or_no(is_same(&print_of(left), &print_of(right))),
        _ => out.refuse(Unread::BadWords),
    }
}

/// `file-name TEXT`: `yes` or `no`.
fn file_name(out: &mut Out, words: &[Vec<u8>]) {
    let [text] = words else {
        return out.refuse(Unread::BadWords);
    };
    let text = out.text_of(text);
    out.yes_or_no(is_file_name(text));
}

/// Adds the lists of a paragraph, or `read`, or the fault.
fn add_lists(out: &mut Out, paragraph: &Paragraph<'_>, kind: ListKind, tells: bool) {
    let read = read_lists(out.alloc, paragraph, kind);
    if let Some(entries) = out.read(read, tells) {
        add_entries(out, &entries);
    }
}

/// The kind of lists that a word names.
fn kind_of(out: &mut Out, word: &Vec<u8>) -> ListKind {
    match out.text_of(word) {
        "changes" => return ListKind::Changes,
        "dsc" => {}
        _ => out.refuse(Unread::BadWords),
    }
    ListKind::Dsc
}

/// `lists KIND TEXT [OLD NEW]..`: `read`, or the fault; with `told-` before the word, a line for each file.
fn lists(out: &mut Out, words: &[Vec<u8>], tells: bool) {
    let [kind, words @ ..] = words else {
        return out.refuse(Unread::BadWords);
    };
    let kind = kind_of(out, kind);
    let text = out.edited(words);
    match read_one(out.alloc, &text, LIMIT) {
        Ok(paragraph) => add_lists(out, &paragraph, kind, tells),
        Err(_) => out.refuse(Unread::BadWords),
    }
}

/// Answers a question on lists of files, and says whether the words are such a question.
pub fn answer(out: &mut Out, verb: &str, words: &[Vec<u8>]) -> bool {
    match verb {
        "print" => print(out, words),
        "print-pieces" => print_pieces(out, words),
        "same-print" => same_print(out, words),
        "file-name" => file_name(out, words),
        "lists" => lists(out, words, false),
        "told-lists" => lists(out, words, true),
        _ => return false,
    }
    true
}
