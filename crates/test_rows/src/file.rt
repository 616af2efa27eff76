//! A file of rows.
//!
//! Empty lines, and lines that begin with `#`, are ignored. A row is a line of words: a question and its arguments. After the
//! word `=` follows the wanted answer, its words one blank apart. The lines after a row that begin with `|` are a text, each
//! with its end: the last word of a row that has an `=`, else its answer.

use crate::answers::Answers;
use crate::fault::Unread;
use crate::reader::Reader;
use std::io;

/// The number of bytes of a text that are printed (`SHOWN`), and the most of them that come before the first that differs
/// (`BEFORE`).
const SHOWN: usize = 160;

const BEFORE: usize = 80;

/// The number of equal bytes at the beginning of two texts.
fn alike(one: &[u8], other: &[u8]) -> usize {
    for (place, byte) in one.iter().enumerate() {
        if other.get(place) != Some(byte) {
            return place;
        }
    }
    one.len()
}

/// Up to `SHOWN` bytes of a text from a place on.
fn shown(text: &[u8], from: usize) -> &[u8] {
    let rest = text.get(from..).unwrap_or(b"");
    rest.get(..SHOWN).unwrap_or(rest)
}

/// Prints what was found and what is wanted, as escapes.
fn tell(rt: &impl Print, reader: &Reader, found: &[u8]) -> io::Result<()> {
    let (label, number) = (reader.label.as_str(), reader.number);
    let from = alike(found, &reader.word).saturating_sub(BEFORE);
    let found = shown(found, from).escape_ascii();
    let wanted = shown(&reader.word, from).escape_ascii();
    println!(rt; "{label}:{number}: found \"{found}\", wanted \"{wanted}\"")
}

/// Prints how the answer to the row differs, if it does.
fn compare(rt: &impl Print, reader: &mut Reader, found: &[u8]) {
    reader.rows = reader.rows.saturating_add(1);
    if found != reader.word.as_slice() {
        reader.differs = true;
        if tell(rt, reader, found).is_err() {
            reader.refuse(Unread::Failed);
        }
    }
}

/// Does the row that is open, if there is one.
fn finish<A: Answers<R>, R: Print + AllocGlobal>(rt: &R, reader: &mut Reader, answers: &mut A) {
    if reader.ends_question() {
        match answers.answer(rt, &reader.words) {
            Ok(found) => compare(rt, reader, &found),
            Err(fault) => reader.refuse(fault),
        }
    }
    reader.clear();
}

/// Does the rows of a file, up to one that can't be read.
pub fn do_rows<A: Answers<R>, R: Print + AllocGlobal>(
    rt: &R,
    reader: &mut Reader,
    answers: &mut A,
    file: &[u8],
) {
    for line in file.split(|byte| *byte == b'\n') {
        if !line.starts_with(b"|") {
            finish(rt, reader, answers);
        }
        if reader.fault.is_some() {
            return;
        }
        reader.take_line(line);
    }
    finish(rt, reader, answers);
}
