//! What the words of a command line say, and what the lines of a list of commands ask for.

use crate::out::Out;
use command_line::{BatchFault, LineFault, line, read_list};
use test_rows::Unread;

/// The texts of words.
fn texts_of<'a>(out: &mut Out, words: &'a [Vec<u8>]) -> Vec<&'a str> {
    let mut texts = Vec::new(out.alloc);
    for word in words {
        let is_had = texts.push(out.text_of(word)).is_ok();
        out.note(is_had);
    }
    texts
}

/// Adds a fault, and the text that the program prints for it.
fn add_fault(out: &mut Out, fault: &LineFault) {
    match fault {
        LineFault::OutOfMemory => out.refuse(Unread::OutOfMemory),
        LineFault::Help(text) | LineFault::Refused(text) => {
            out.show(fault);
            out.say("\n");
            out.show(text);
        }
    }
}

/// `words WORD..`: the command and its values; or the fault, and the text that is printed for it.
fn words_of(out: &mut Out, words: &[Vec<u8>]) {
    let texts = texts_of(out, words);
    match line(out.alloc, &texts) {
        Ok(found) => out.quote(found, "\n"),
        Err(fault) => add_fault(out, &fault),
    }
}

/// `batch LIST`: what a list of commands asks for, a line for each; or `line` and the number of its first bad line.
fn batch(out: &mut Out, words: &[Vec<u8>]) {
    let list = out.only(words);
    match read_list(out.alloc, list) {
        Ok(entries) => {
            for entry in &entries {
                out.quote(*entry, "\n");
            }
        }
        Err(BatchFault::OutOfMemory) => out.refuse(Unread::OutOfMemory),
        Err(BatchFault::Line(number)) => {
            out.say("line ");
            out.show(number);
        }
    }
}

/// Answers a question on a command line or on a list of commands, and says whether the words are such a question.
pub fn answer(out: &mut Out, verb: &str, words: &[Vec<u8>]) -> bool {
    match verb {
        "words" => words_of(out, words),
        "batch" => batch(out, words),
        _ => return false,
    }
    true
}
