//! What is wrong with a configuration that is refused, in words: which field of which suite or paragraph.
//!
//! The rules are not written down a second time. A field, a word or a line is what is wrong if a configuration that has it, and else only
//! what is right, is refused for the same fault.

use crate::checking::claims::claimed_line;
use crate::checking::places::{paragraphs_of, place_of};
use para::{Field, Paragraph, fold, write_field};
use rules::{Config, ConfigFault};
use std::alloc::{AllocError, Global};
use std::collections::BTreeSet;

/// The fields that a suite has to have.
const REQUIRED: [&str; 3] = ["Codename", "Architectures", "Components"];

/// The most suites of a configuration.
const MOST_SUITES: usize = 16;

/// A configuration of one suite that has this field, and besides it only required ones, which are right.
fn text_with(alloc: Global, name: &str, first: &str, more: &[&str]) -> Result<Vec<u8>, AllocError> {
    let mut text = Vec::new(alloc);
    for required in REQUIRED {
        if !required.eq_ignore_ascii_case(name) {
            text.extend_from_slice(required.as_bytes())?;
            text.extend_from_slice(b": a\n")?;
        }
    }
    match write_field(name, first, more, &mut text) {
        Ok(()) => Ok(text),
        Err(_) => Err(AllocError),
    }
}

/// Whether a configuration with this field is refused for a fault.
fn is_refused(
    alloc: Global,
    name: &str,
    first: &str,
    more: &[&str],
    fault: ConfigFault,
) -> Result<bool, AllocError> {
    let text = text_with(alloc, name, first, more)?;
    match Config::read_strict(alloc, &text) {
        Ok(_) => Ok(false),
        Err(ConfigFault::OutOfMemory) => Err(AllocError),
        Err(found) => Ok(found == fault),
    }
}

/// The words of a field.
fn words_of<'a>(alloc: Global, field: &Field<'a>) -> Result<Vec<&'a str>, AllocError> {
    match fold(alloc, field) {
        Ok(words) => Ok(words),
        Err(_) => Err(AllocError),
    }
}

// ---- a field that is lacking

/// `no NAME` for a field that a paragraph has to have and lacks, and `no word in NAME` for one without a word.
fn lack_of(
    alloc: Global,
    paragraph: &Paragraph<'_>,
    name: &str,
) -> Result<Option<String>, AllocError> {
    let Some(field) = paragraph.get(name) else {
        return Ok(Some(format!(in alloc; "no {name}")?));
    };
    if words_of(alloc, field)?.is_empty() {
        return Ok(Some(format!(in alloc; "no word in {name}")?));
    }
    Ok(None)
}

/// What a paragraph lacks of the fields that it has to have, with ` and ` between each two. It is empty if nothing is lacking.
fn lacks_of(alloc: Global, paragraph: &Paragraph<'_>) -> Result<String, AllocError> {
    let mut lacks = String::new(alloc);
    for name in REQUIRED {
        if let Some(lack) = lack_of(alloc, paragraph, name)? {
            if !lacks.is_empty() {
                lacks.push_str(" and ")?;
            }
            lacks.push_str(lack.as_str())?;
        }
    }
    Ok(lacks)
}

/// `PLACE has no NAME`, of the first paragraph that lacks a field.
fn missing_line(alloc: Global, paragraphs: &[Paragraph<'_>]) -> Result<Option<String>, AllocError> {
    for (number, paragraph) in paragraphs.iter().enumerate() {
        let lacks = lacks_of(alloc, paragraph)?;
        if !lacks.is_empty() {
            let place = place_of(alloc, paragraph, number)?;
            return Ok(Some(format!(in alloc; "{place} has {lacks}")?));
        }
    }
    Ok(None)
}

// ---- a field that is wrong

/// Whether a field belongs to the first paragraph alone.
fn is_of_first(name: &str) -> bool {
    let days = name.eq_ignore_ascii_case("KeepDays");
    let size = name.eq_ignore_ascii_case("MaxFileSize");
    days || size
}

/// Whether a field has several words.
fn has_words(name: &str) -> bool {
    let architectures = name.eq_ignore_ascii_case("Architectures");
    let components = name.eq_ignore_ascii_case("Components");
    let also = name.eq_ignore_ascii_case("AlsoAcceptFor");
    architectures || components || also
}

/// What a field of one line has to be.
fn wanted(name: &str) -> &'static str {
    if name.eq_ignore_ascii_case("KeepDays") || name.eq_ignore_ascii_case("ValidDays") {
        return "a number of days from 1 to 3650";
    }
    if name.eq_ignore_ascii_case("MaxFileSize") {
        return "a number of MiB from 4 to 1024";
    }
    if name.eq_ignore_ascii_case("Codename") || name.eq_ignore_ascii_case("Suite") {
        return "one name of letters, digits and ._-";
    }
    "one line with a text"
}

/// The first word that stands among the words before it.
fn repeated<'a>(alloc: Global, words: &[&'a str]) -> Result<Option<&'a str>, AllocError> {
    let mut before = BTreeSet::new(alloc);
    for word in words {
        if before.contains(word) {
            return Ok(Some(*word));
        }
        before.insert(*word)?;
    }
    Ok(None)
}

/// The first of the words that may not stand in a field.
fn bad_word<'a>(
    alloc: Global,
    name: &str,
    words: &[&'a str],
) -> Result<Option<&'a str>, AllocError> {
    for word in words {
        if is_refused(alloc, name, word, &[], ConfigFault::BadValue)? {
            return Ok(Some(*word));
        }
    }
    Ok(None)
}

/// Which word of a field is wrong: one that may not stand there, or that stands there twice.
fn words_line(alloc: Global, field: &Field<'_>, place: &str) -> Result<String, AllocError> {
    let name = field.name;
    let words = words_of(alloc, field)?;
    if let Some(word) = bad_word(alloc, name, &words)? {
        return format!(in alloc; "{name} of {place} may not have the word {word}");
    }
    match repeated(alloc, &words)? {
        Some(word) => format!(in alloc; "{name} of {place} has the word {word} twice"),
        None => format!(in alloc; "{name} of {place} has no word"),
    }
}

/// What is wrong with the value of a field.
fn value_line(
    alloc: Global,
    field: &Field<'_>,
    number: usize,
    place: &str,
) -> Result<String, AllocError> {
    let name = field.name;
    if number > 0 && is_of_first(name) {
        return format!(in alloc; "{name} of {place} belongs to the first paragraph");
    }
    if has_words(name) {
        return words_line(alloc, field, place);
    }
    let wanted = wanted(name);
    format!(in alloc; "{name} of {place} is not {wanted}")
}

/// Which line of a field of rules is no rule.
fn rules_line(alloc: Global, field: &Field<'_>, place: &str) -> Result<String, AllocError> {
    let name = field.name;
    if !field.first.is_empty() {
        return format!(in alloc; "{name} of {place} has a text on its first line");
    }
    for (number, line) in field.more.iter().enumerate() {
        if is_refused(alloc, name, "", &[*line], ConfigFault::BadRule)? {
            let count = number.saturating_add(1);
            return format!(in alloc;
                "rule {count} in {name} of {place} is not SOURCE by PERSON: {line}"
            );
        }
    }
    format!(in alloc; "{name} of {place} is no list of rules")
}

/// The most that a field may have.
fn most_of(name: &str) -> &'static str {
    if name.eq_ignore_ascii_case("Architectures") {
        return "16 words";
    }
    if name.eq_ignore_ascii_case("Components") {
        return "8 words";
    }
    "256 lines"
}

/// What is wrong with a field of a paragraph for which a configuration is refused.
fn field_line(
    alloc: Global,
    paragraph: &Paragraph<'_>,
    number: usize,
    field: &Field<'_>,
    fault: ConfigFault,
) -> Result<String, AllocError> {
    let place = place_of(alloc, paragraph, number)?;
    match fault {
        ConfigFault::BadRule => rules_line(alloc, field, place.as_str()),
        ConfigFault::Limits => {
            let (name, most) = (field.name, most_of(field.name));
            format!(in alloc; "{name} of {place} has more than {most}")
        }
        _ => value_line(alloc, field, number, place.as_str()),
    }
}

/// Whether a configuration is refused for a fault because of a field of the paragraph of this number.
fn is_at_fault(
    alloc: Global,
    number: usize,
    field: &Field<'_>,
    fault: ConfigFault,
) -> Result<bool, AllocError> {
    if number > 0 && fault == ConfigFault::BadValue && is_of_first(field.name) {
        return Ok(true);
    }
    is_refused(alloc, field.name, field.first, &field.more, fault)
}

/// What is wrong with the first field of a paragraph for which a configuration is refused.
fn paragraph_line(
    alloc: Global,
    paragraph: &Paragraph<'_>,
    number: usize,
    fault: ConfigFault,
) -> Result<Option<String>, AllocError> {
    for field in paragraph.fields() {
        if is_at_fault(alloc, number, field, fault)? {
            return Ok(Some(field_line(alloc, paragraph, number, field, fault)?));
        }
    }
    Ok(None)
}

/// What is wrong with the first field for which a configuration is refused.
fn first_line(
    alloc: Global,
    paragraphs: &[Paragraph<'_>],
    fault: ConfigFault,
) -> Result<Option<String>, AllocError> {
    for (number, paragraph) in paragraphs.iter().enumerate() {
        if let Some(line) = paragraph_line(alloc, paragraph, number, fault)? {
            return Ok(Some(line));
        }
    }
    Ok(None)
}

/// What there is too much of in a configuration.
fn limits_line(alloc: Global, paragraphs: &[Paragraph<'_>]) -> Result<Option<String>, AllocError> {
    let count = paragraphs.len();
    if count > MOST_SUITES {
        return Ok(Some(format!(in alloc; "there are {count} suites, more than {MOST_SUITES}")?));
    }
    first_line(alloc, paragraphs, ConfigFault::Limits)
}

/// What is wrong with the text of a configuration that is refused for a fault: for the faults from `Missing` on a line without its end,
/// which has the field, and the suite or the number of the paragraph, of the first that is wrong. For other faults there is none.
pub fn fault_line(
    alloc: Global,
    text: &[u8],
    fault: ConfigFault,
) -> Result<Option<String>, AllocError> {
    let paragraphs = paragraphs_of(alloc, text)?;
    match fault {
        ConfigFault::OutOfMemory | ConfigFault::Paragraph(_) => Ok(None),
        ConfigFault::Missing => missing_line(alloc, &paragraphs),
        ConfigFault::ClaimedTwice => claimed_line(alloc, &paragraphs),
        ConfigFault::BadValue | ConfigFault::BadRule => first_line(alloc, &paragraphs, fault),
        ConfigFault::Limits => limits_line(alloc, &paragraphs),
    }
}
