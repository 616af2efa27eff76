//! Versions.

use crate::out::Out;
use std::alloc::Global;
use std::cmp::Ordering;
use test_rows::Unread;
use vers::{Version, VersionFault};

/// `version TEXT`: `version`, or the fault.
fn version(out: &mut Out, words: &[Vec<u8>]) {
    let [text] = words else {
        return out.refuse(Unread::BadWords);
    };
    let text = out.text_of(text);
    match Version::parse(out.alloc, text) {
        Ok(_) => out.say("version"),
        Err(fault) => out.show(&fault),
    }
}

/// The versions of two texts.
fn both(alloc: Global, left: &str, right: &str) -> Result<(Version, Version), VersionFault> {
    let left = Version::parse(alloc, left)?;
    Ok((left, Version::parse(alloc, right)?))
}

/// How two versions compare, if both directions agree.
fn compared(left: &Version, right: &Version) -> &'static str {
    match (left.order(right), right.order(left)) {
        (Ordering::Less, Ordering::Greater) => "less",
        (Ordering::Equal, Ordering::Equal) => "equal",
        (Ordering::Greater, Ordering::Less) => "greater",
        _ => "other in the other direction",
    }
}

/// `compare LEFT RIGHT`: `less`, `equal` or `greater`, or the fault of one of them.
fn compare(out: &mut Out, words: &[Vec<u8>]) {
    let [left, right] = words else {
        return out.refuse(Unread::BadWords);
    };
    let (left, right) = (out.text_of(left), out.text_of(right));
    match both(out.alloc, left, right) {
        Ok((left, right)) => out.say(compared(&left, &right)),
        Err(fault) => out.show(&fault),
    }
}

/// Whether both are versions, and the first comes before the second.
fn is_before(alloc: Global, left: &str, right: &str) -> bool {
    match both(alloc, left, right) {
        Ok((left, right)) => compared(&left, &right) == "less",
        Err(_) => false,
    }
}

/// Adds a line if a version does not come before each of those after it.
fn note_not_before(out: &mut Out, first: &str, behind: &[Vec<u8>]) {
    for word in behind {
        let other = out.text_of(word);
        if !is_before(out.alloc, first, other) {
            out.say(first);
            out.say(" is not before ");
            out.say(other);
            out.say("\n");
        }
    }
}

/// `rising VERSION..`: each pair that does not rise; there is none.
fn rising(out: &mut Out, words: &[Vec<u8>]) {
    for (place, word) in words.iter().enumerate() {
        let first = out.text_of(word);
        if let Some(behind) = words.get(place.saturating_add(1)..) {
            note_not_before(out, first, behind);
        }
    }
}

/// Whether a version equals a copy of it.
fn equals_copy(version: &Version) -> bool {
    match version.try_clone() {
        Ok(copy) => copy == *version,
        Err(_) => false,
    }
}

/// Whether a version equals what is read of its text.
fn equals_reading(alloc: Global, version: &Version) -> bool {
    match Version::parse(alloc, version.text()) {
        Ok(read) => read == *version,
        Err(_) => false,
    }
}

/// Adds the text of a version, the text without its epoch, and whether a copy and a second reading of its text equal
/// it.
fn add_version(out: &mut Out, version: &Version) {
    let is_same = equals_copy(version) & equals_reading(out.alloc, version);
    out.say(version.text());
    out.say(" ");
    out.say(version.without_epoch());
    out.say(if is_same { " same" } else { " other" });
}

/// `kept TEXT`: the text, the text without its epoch, and `same`; or the fault.
fn kept(out: &mut Out, words: &[Vec<u8>]) {
    let [text] = words else {
        return out.refuse(Unread::BadWords);
    };
    let text = out.text_of(text);
    match Version::parse(out.alloc, text) {
        Ok(version) => add_version(out, &version),
        Err(fault) => out.show(&fault),
    }
}

/// `same LEFT RIGHT`: `yes` or `no`, or the fault of one of them.
fn same(out: &mut Out, words: &[Vec<u8>]) {
    let [left, right] = words else {
        return out.refuse(Unread::BadWords);
    };
    let (left, right) = (out.text_of(left), out.text_of(right));
    match both(out.alloc, left, right) {
        Ok((left, right)) => out.yes_or_no(left == right),
        Err(fault) => out.show(&fault),
    }
}

/// Answers a question on versions, and says whether the words are such a question.
pub fn answer(out: &mut Out, verb: &str, words: &[Vec<u8>]) -> bool {
    match verb {
        "version" => version(out, words),
        "compare" => compare(out, words),
        "rising" => rising(out, words),
        "kept" => kept(out, words),
        "same" => same(out, words),
        _ => return false,
    }
    true
}
