//! Paragraphs.

use crate::out::Out;
use para::{Field, Paragraph, fold, read_many, read_one, simple, write, write_field, write_line};
use test_rows::Unread;

/// The limit if a row gives none.
const LIMIT: usize = 1_048_576;

/// `paragraph LIMIT TEXT`: the paragraph as it is written, or the fault.
fn paragraph(out: &mut Out, words: &[Vec<u8>]) {
    let [limit, text] = words else {
        return out.refuse(Unread::BadWords);
    };
    let limit = out.number_of(limit) as usize;
    match read_one(out.alloc, text, limit) {
        Ok(paragraph) => {
            let is_had = write(&paragraph, &mut out.text).is_ok();
            out.note(is_had);
        }
        Err(fault) => out.show(&fault),
    }
}

/// Adds the folded lines of a field.
fn add_folded(out: &mut Out, field: &Field<'_>) {
    match fold(out.alloc, field) {
        Ok(folded) => out.quote(folded.as_slice(), "\n"),
        Err(_) => out.refuse(Unread::OutOfMemory),
    }
}

/// Adds what is read of a field: its name and first line, its other lines, its value if it has one line, and its folded
/// lines.
fn add_field(out: &mut Out, field: &Field<'_>) {
    out.quote(field.name, " ");
    out.quote(field.first, " ");
    out.quote(field.more.as_slice(), " ");
    out.quote(simple(field), " ");
    add_folded(out, field);
}

/// Adds a line for each field of a paragraph, and one after them.
fn add_fields(out: &mut Out, paragraph: &Paragraph<'_>) {
    for field in paragraph.fields() {
        add_field(out, field);
    }
    out.say("--\n");
}

/// `fields TEXT`: a line for each field of each paragraph, and one after each paragraph; or the fault.
fn fields(out: &mut Out, words: &[Vec<u8>]) {
    let text = out.only(words);
    match read_many(out.alloc, text, LIMIT) {
        Ok(paragraphs) => {
            for paragraph in &paragraphs {
                add_fields(out, paragraph);
            }
        }
        Err(fault) => out.show(&fault),
    }
}

/// Adds the first line of the field of a name.
fn add_first(out: &mut Out, paragraph: &Paragraph<'_>, name: &str) {
    match paragraph.get(name) {
        Some(field) => out.say(field.first),
        None => out.say("no field"),
    }
}

/// `field NAME TEXT`: the first line of that field, `no field`, or the fault.
fn field(out: &mut Out, words: &[Vec<u8>]) {
    let [name, text] = words else {
        return out.refuse(Unread::BadWords);
    };
    let name = out.text_of(name);
    match read_one(out.alloc, text, LIMIT) {
        Ok(paragraph) => add_first(out, &paragraph, name),
        Err(fault) => out.show(&fault),
    }
}

/// Adds a field. Its other lines are words.
fn add_written(out: &mut Out, name: &str, first: &str, lines: &[Vec<u8>]) {
    let mut more = Vec::new(out.alloc);
    for line in lines {
        let is_had = more.push(out.text_of(line)).is_ok();
        out.note(is_had);
    }
    let is_had = write_field(name, first, &more, &mut out.text).is_ok();
    out.note(is_had);
}

/// `write-field FRONT NAME FIRST [LINE]..`: the front, and a field after it.
fn field_behind(out: &mut Out, words: &[Vec<u8>]) {
    let [front, name, first, lines @ ..] = words else {
        return out.refuse(Unread::BadWords);
    };
    out.add(front);
    let (name, first) = (out.text_of(name), out.text_of(first));
    add_written(out, name, first, lines);
}

/// `write-line FRONT LINE`: the front, and a line of a field after it.
fn line_behind(out: &mut Out, words: &[Vec<u8>]) {
    let [front, line] = words else {
        return out.refuse(Unread::BadWords);
    };
    out.add(front);
    let line = out.text_of(line);
    let is_had = write_line(line, &mut out.text).is_ok();
    out.note(is_had);
}

/// Answers a question on paragraphs, and says whether the words are such a question.
pub fn answer(out: &mut Out, verb: &str, words: &[Vec<u8>]) -> bool {
    match verb {
        "paragraph" => paragraph(out, words),
        "fields" => fields(out, words),
        "field" => field(out, words),
        "write-field" => field_behind(out, words),
        "write-line" => line_behind(out, words),
        _ => return false,
    }
    true
}
