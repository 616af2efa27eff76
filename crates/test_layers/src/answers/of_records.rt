//! The records of uploads, and the names in them.

use super::of_lists::add_entries;
use crate::out::Out;
use records::{Changes, Dsc, Sidecar, is_architecture, is_package, is_plain};
use test_rows::Unread;

/// Adds a line of a word and a text.
fn add_line(out: &mut Out, word: &str, text: &str) {
    out.say(word);
    out.say(" ");
    out.say(text);
    out.say("\n");
}

/// Adds what is read of a .changes.
fn add_changes(out: &mut Out, changes: &Changes) {
    add_line(out, "source", changes.source());
    add_line(out, "version", changes.version().text());
    add_line(out, "distribution", changes.distribution());
    add_line(out, "person", changes.person());
    for architecture in changes.architectures() {
        add_line(out, "architecture", architecture.as_str());
    }
    add_entries(out, changes.entries());
}

/// Adds what is read of a .dsc.
fn add_dsc(out: &mut Out, dsc: &Dsc) {
    add_line(out, "source", dsc.source());
    add_line(out, "version", dsc.version().text());
    add_entries(out, dsc.entries());
}

/// Adds what is read of a sidecar.
fn add_sidecar(out: &mut Out, sidecar: &Sidecar) {
    add_line(out, "package", sidecar.package());
    add_line(out, "version", sidecar.version().text());
    add_line(out, "architecture", sidecar.architecture());
    add_line(out, "source", sidecar.source());
}

/// `changes TEXT [OLD NEW]..`: `read`, or the fault; with `told-` before the word, what is read.
fn changes(out: &mut Out, words: &[Vec<u8>], tells: bool) {
    let text = out.edited(words);
    let read = Changes::read(out.alloc, &text);
    if let Some(changes) = out.read(read, tells) {
        add_changes(out, &changes);
    }
}

/// `dsc TEXT [OLD NEW]..`: `read`, or the fault; with `told-` before the word, what is read.
fn dsc(out: &mut Out, words: &[Vec<u8>], tells: bool) {
    let text = out.edited(words);
    let read = Dsc::read(out.alloc, &text);
    if let Some(dsc) = out.read(read, tells) {
        add_dsc(out, &dsc);
    }
}

/// `changes-within MOST TEXT [OLD NEW]..`: `read`, or the fault, if a listed file may have at most MOST bytes.
fn changes_within(out: &mut Out, words: &[Vec<u8>]) {
    let Some((most, words)) = words.split_first() else {
        return out.refuse(Unread::BadWords);
    };
    let (most, text) = (out.number_of(most), out.edited(words));
    let read = Changes::read_within(out.alloc, &text, most);
    if let Some(changes) = out.read(read, false) {
        add_changes(out, &changes);
    }
}

/// `dsc-within MOST TEXT [OLD NEW]..`: `read`, or the fault, if a listed file may have at most MOST bytes.
fn dsc_within(out: &mut Out, words: &[Vec<u8>]) {
    let Some((most, words)) = words.split_first() else {
        return out.refuse(Unread::BadWords);
    };
    let (most, text) = (out.number_of(most), out.edited(words));
    let read = Dsc::read_within(out.alloc, &text, most);
    if let Some(dsc) = out.read(read, false) {
        add_dsc(out, &dsc);
    }
}

/// `sidecar TEXT [OLD NEW]..`: `read`, or the fault; with `told-` before the word, what is read.
fn sidecar(out: &mut Out, words: &[Vec<u8>], tells: bool) {
    let text = out.edited(words);
    let read = Sidecar::read(out.alloc, &text);
    if let Some(sidecar) = out.read(read, tells) {
        add_sidecar(out, &sidecar);
    }
}

/// `name TEXT`: whether the text is the name of a package, of an architecture and of a suite.
fn name(out: &mut Out, words: &[Vec<u8>]) {
    let [text] = words else {
        return out.refuse(Unread::BadWords);
    };
    let text = out.text_of(text);
    out.yes_or_no(is_package(text));
    out.say(" ");
    out.yes_or_no(is_architecture(text));
    out.say(" ");
    out.yes_or_no(is_plain(text));
}

/// Answers a question on records, and says whether the words are such a question.
pub fn answer(out: &mut Out, verb: &str, words: &[Vec<u8>]) -> bool {
    match verb {
        "changes" => changes(out, words, false),
        "told-changes" => changes(out, words, true),
        "dsc" => dsc(out, words, false),
        "told-dsc" => dsc(out, words, true),
        "changes-within" => changes_within(out, words),
        "dsc-within" => dsc_within(out, words),
        "sidecar" => sidecar(out, words, false),
        "told-sidecar" => sidecar(out, words, true),
        "name" => name(out, words),
        _ => return false,
    }
    true
}
