//! What a configuration says, suite by suite, and which of its fields are passed over.

use crate::checking::fields::{likely_name, unknown_of};
use crate::checking::places::{name_of, numbered, paragraphs_of};
use para::{Paragraph, Text, read_many};
use rules::{Config, Days, MOST_CONFIG, Rule, SourcePattern, Suite};
use std::alloc::{AllocError, Global};
use suites::codename_at;

/// How many seconds a day has.
const DAY: u64 = 86_400;

/// How many bytes a MiB has.
const MEBIBYTE: u64 = 1_048_576;

/// The files that an export writes into the folder of a suite. A component has a folder there, which cannot have one of these names.
const FILES_OF_TREE: [&str; 4] = ["Release", "Release.gpg", "InRelease", "index.html"];

/// Appends a space and the text of each of these.
fn push_texts(line: &mut String, texts: &[Text]) -> Result<(), AllocError> {
    for text in texts {
        line.push(' ')?;
        line.push_str(text.as_str())?;
    }
    Ok(())
}

/// A line that begins with `begin`, then the text of each of these.
fn listed_line(alloc: Global, begin: &str, texts: &[Text]) -> Result<String, AllocError> {
    let mut line = String::from_str(alloc, begin)?;
    push_texts(&mut line, texts)?;
    Ok(line)
}

/// ` takes NAME..`: the distribution names that a suite takes uploads for, its codename first.
fn taken_line(alloc: Global, suite: &Suite) -> Result<String, AllocError> {
    let codename = suite.codename.as_str();
    let mut line = format!(in alloc; " takes {codename}")?;
    if let Some(other) = &suite.suite {
        line.push(' ')?;
        line.push_str(other.as_str())?;
    }
    push_texts(&mut line, suite.also_accept_for.as_slice())?;
    Ok(line)
}

/// ` uploads SOURCE by PERSON`: who may upload what, as the line of the configuration says it.
fn rule_line(alloc: Global, rule: &Rule) -> Result<String, AllocError> {
    let person = rule.person.as_str();
    match &rule.source {
        SourcePattern::Any => format!(in alloc; " uploads * by {person}"),
        SourcePattern::Front(front) => {
            let front = front.as_str();
            format!(in alloc; " uploads {front}* by {person}")
        }
        SourcePattern::Name(name) => {
            let name = name.as_str();
            format!(in alloc; " uploads {name} by {person}")
        }
    }
}

/// Adds a line for each of these rules, or one that says that there is none.
fn push_rules(alloc: Global, lines: &mut Vec<String>, rules: &[Rule]) -> Result<(), AllocError> {
    if rules.is_empty() {
        lines.push(String::from_str(alloc, " uploads nothing")?)?;
    }
    for rule in rules {
        lines.push(rule_line(alloc, rule)?)?;
    }
    Ok(())
}

/// Adds the lines on who may upload to a suite: anybody may if it has no such field.
fn push_uploaders(alloc: Global, lines: &mut Vec<String>, suite: &Suite) -> Result<(), AllocError> {
    match &suite.uploaders {
        Some(rules) => push_rules(alloc, lines, rules.as_slice()),
        None => {
            lines.push(String::from_str(alloc, " uploads * by anybody")?)?;
            Ok(())
        }
    }
}

/// `BEGIN for good`, or `BEGIN for N days`.
fn days_line(alloc: Global, begin: &str, days: Option<Days>) -> Result<String, AllocError> {
    match days {
        Some(days) => {
            let count = days.seconds() / DAY;
            format!(in alloc; "{begin} for {count} days")
        }
        None => format!(in alloc; "{begin} for good"),
    }
}

/// Whether the first of these paragraphs says how large a file may be.
fn have_size(paragraphs: &[Paragraph<'_>]) -> bool {
    match paragraphs.first() {
        Some(paragraph) => paragraph.get("MaxFileSize").is_some(),
        None => false,
    }
}

/// Whether a configuration says how large a file may be.
fn says_size(alloc: Global, config: &Config) -> Result<bool, AllocError> {
    match read_many(alloc, config.text(), MOST_CONFIG) {
        Ok(paragraphs) => Ok(have_size(&paragraphs)),
        // The text is that of a configuration, so only want of memory is left.
        Err(_) => Err(AllocError),
    }
}

/// Adds `files up to N MiB`, if a configuration says how large a file may be.
fn push_size(alloc: Global, lines: &mut Vec<String>, config: &Config) -> Result<(), AllocError> {
    if says_size(alloc, config)? {
        let count = config.largest_file() / MEBIBYTE;
        lines.push(format!(in alloc; "files up to {count} MiB")?)?;
    }
    Ok(())
}

/// Adds the lines on a suite.
fn push_suite(alloc: Global, lines: &mut Vec<String>, suite: &Suite) -> Result<(), AllocError> {
    let codename = suite.codename.as_str();
    lines.push(format!(in alloc; "suite {codename}")?)?;
    lines.push(taken_line(alloc, suite)?)?;
    lines.push(listed_line(alloc, " architectures", suite.architectures.as_slice())?)?;
    lines.push(listed_line(alloc, " components", suite.components.as_slice())?)?;
    push_uploaders(alloc, lines, suite)?;
    lines.push(days_line(alloc, " release valid", suite.valid_days)?)?;
    Ok(())
}

/// Whether a component has the name of a file of the tree that an export makes.
fn is_named_as_file(component: &str) -> bool {
    for file in FILES_OF_TREE {
        if component == file {
            return true;
        }
    }
    false
}

/// Whether a suite has a component with the name of a file of the tree.
fn has_unwritable(suite: &Suite) -> bool {
    for component in suite.components.as_slice() {
        if is_named_as_file(component.as_str()) {
            return true;
        }
    }
    false
}

/// Whether each component of a configuration is one that an export can write: none has the name of a file of the tree.
pub fn can_be_exported(config: &Config) -> bool {
    for suite in config.suites() {
        if has_unwritable(suite) {
            return false;
        }
    }
    true
}

/// `component NAME of CODENAME is named as a file of the tree: no export has it`.
fn unwritable_line(alloc: Global, name: &str, codename: &str) -> Result<String, AllocError> {
    format!(in alloc;
        "component {name} of {codename} is named as a file of the tree: no export has it"
    )
}

/// Adds a line for each component of a suite that no export can write.
fn push_unwritable(
    alloc: Global,
    lines: &mut Vec<String>,
    suite: &Suite,
) -> Result<(), AllocError> {
    let codename = suite.codename.as_str();
    for component in suite.components.as_slice() {
        let name = component.as_str();
        if is_named_as_file(name) {
            lines.push(unwritable_line(alloc, name, codename)?)?;
        }
    }
    Ok(())
}

/// `passed over NAME in PLACE`, followed by `, did you mean KNOWN` if a known name is near.
fn passed_line(alloc: Global, name: &str, place: &str) -> Result<String, AllocError> {
    match likely_name(alloc, name)? {
        Some(known) => format!(in alloc; "passed over {name} in {place}, did you mean {known}"),
        None => format!(in alloc; "passed over {name} in {place}"),
    }
}

/// `passed over NAME in PLACE` for an unknown field of the paragraph of this number, counted from 0.
fn passed_line_at(
    alloc: Global,
    paragraphs: &[Paragraph<'_>],
    number: usize,
    name: &str,
) -> Result<String, AllocError> {
    let place = match paragraphs.get(number) {
        Some(paragraph) => name_of(alloc, paragraph, number)?,
        None => numbered(alloc, number)?,
    };
    passed_line(alloc, name, place.as_str())
}

/// The fields that are passed over in the text of a configuration, which may be refused: `passed over NAME in CODENAME` for each, or in
/// `paragraph N` if that has no plain name as its codename, followed by `, did you mean KNOWN` if a known name is near. There is no line if
/// the text is no text of paragraphs.
pub fn passed_lines(alloc: Global, text: &[u8]) -> Result<Vec<String>, AllocError> {
    let paragraphs = paragraphs_of(alloc, text)?;
    let mut lines = Vec::new(alloc);
    for (number, name) in &unknown_of(alloc, &paragraphs)? {
        lines.push(passed_line_at(alloc, &paragraphs, *number, name.as_str())?)?;
    }
    Ok(lines)
}

/// The lines on a configuration. For each suite:
///
/// ```text
/// suite CODENAME
///  takes NAME..
///  architectures NAME..
///  components NAME..
///  uploads SOURCE by PERSON
///  release valid for good
/// ```
///
/// with a line for each rule on uploads, ` uploads * by anybody` if there is no such field, ` uploads nothing` if the field has no line,
/// and `for N days` if a Release is valid for that time. Then `files count for good`, or `for N days`; `files up to N MiB` if the first
/// paragraph has a MaxFileSize; for each component that has the name of a file of the tree, `component NAME of CODENAME is named as a file
/// of the tree: no export has it`; and for each field that is passed over, given with the position of its suite, `passed over NAME in
/// CODENAME`, followed by `, did you mean KNOWN` if a known name is near.
pub fn check_lines(
    alloc: Global,
    config: &Config,
    passed_over: &[(usize, Text)],
) -> Result<Vec<String>, AllocError> {
    let mut lines = Vec::new(alloc);
    for suite in config.suites() {
        push_suite(alloc, &mut lines, suite)?;
    }
    lines.push(days_line(alloc, "files count", config.keep_days())?)?;
    push_size(alloc, &mut lines, config)?;
    for suite in config.suites() {
        push_unwritable(alloc, &mut lines, suite)?;
    }
    for (position, name) in passed_over {
        let codename = codename_at(config.suites(), *position);
        lines.push(passed_line(alloc, name.as_str(), codename)?)?;
    }
    Ok(lines)
}
