//! Uploader lines: who may upload which source packages.

ghost use Rattle.std.specs.Prelude.{◌≡◌, not, ◌||◌, MatchOption, IfOk, IfErr, nat_eq, codes, map, true};
ghost use Rattle.std.specs.Option.{option_map, option_map_or};
ghost use Rattle.std.specs.List.{list_all, list_any, starts_with, ends_with};
ghost use Rattle.para.specs.Bytes.{begins_with_blank};
ghost use Rattle.records.specs.Names.{is_lower_or_digit, is_package_byte};
ghost use Rattle.rules.specs.Suites.{fits_source, rule_allows};
ghost use Rattle.rules.specs.Uploaders.{divided, before_star, is_front, is_pattern, pattern_of, ends_with_blank, is_person, rule_parts, rule_of, is_rule_line, rules_in};

use crate::without_memory::Allowing;
use para::{Listed, Text};
use records::is_package;
use std::alloc::{AllocError, Global};

/// Which source packages an uploader line speaks of (own rule of this archive).
#[derive(Drop)]
pub enum SourcePattern {
    /// `*`: each source package.
    Any,
    /// `FRONT*`: the source packages whose names begin with `FRONT`.
    Front(Text),
    /// The source package of this name.
    Name(Text),
}

/// An uploader line, `SOURCE by PERSON` (own rule of this archive): who may upload which source packages.
#[derive(Drop)]
pub struct Rule {
    /// The source packages.
    pub source: SourcePattern,
    /// The person as a .changes names it, or `anybody`.
    pub person: Text,
}

impl SourcePattern {
    /// Whether the line speaks of the source package.
    fn fits(&self, source: &str) -> bool
        ensures { result ≡ fits_source self.now source.now }
    {
        match self {
            SourcePattern::Any => true,
            SourcePattern::Front(front) => {
                source.as_bytes().starts_with(front.as_str().as_bytes())
            }
            SourcePattern::Name(name) => name.as_str() == source,
        }
    }
}

impl Allowing for Rule {
    ghost as_rule = { λ rule. rule };

    fn speaks_of(&self, source: &str) -> bool {
        self.source.fits(source)
    }

    fn named_person(&self) -> &str {
        self.person.as_str()
    }
}

/// Whether the line allows an upload of the source package by the person.
fn line_allows<L: Allowing>(line: &L, source: &str, person: &str) -> bool
    ensures { result ≡ rule_allows source.now person.now (L.as_rule line.now) }
{
    let named = line.named_person();
    line.speaks_of(source) && (named == "anybody" || named == person)
}

/// Whether some line allows an upload of the source package by the person.
fn some_allows<L: Allowing>(lines: &[L], source: &str, person: &str) -> bool
    ensures { result ≡ list_any (λ line. rule_allows source.now person.now (L.as_rule line)) lines.now }
{
    lines.iter().any(|line| line_allows(line, source, person))
}

/// Whether the uploader lines allow an upload of the source package by the person. If there is no such list, everybody
/// may upload.
pub fn lines_allow<L: Allowing>(uploaders: &Option<Listed<L>>, source: &str, person: &str) -> bool
    ensures { result ≡ option_map_or (list_any (λ line. rule_allows source.now person.now (L.as_rule line))) uploaders.now true }
{
    match uploaders {
        Some(lines) => some_allows(lines.as_slice(), source, person),
        None => true,
    }
}

/// The parts of a line before and after its first ` by `.
fn divide(line: &str) -> Option<(&str, &str)>
    ensures { option_map (λ parts. (parts.0.now, parts.1.now)) result ≡ divided line.now }
{
    line.split_once(" by ")
}

/// What stands before a star at the end.
#[tactic(auto, unfolding(crate::specs::Uploaders::before_star))]
fn strip_star(text: &str) -> Option<&str>
    ensures { option_map (λ front. front.now) result ≡ before_star text.now }
{
    text.strip_suffix('*')
}

fn is_package_byte(byte: u8) -> bool
    ensures { result ≡ is_package_byte byte }
{
    byte.is_ascii_lowercase()
        || byte.is_ascii_digit()
        || byte == b'+'
        || byte == b'-'
        || byte == b'.'
}

fn has_package_bytes(text: &str) -> bool
    ensures { result ≡ list_all is_package_byte text.now }
{
    text.bytes().all(is_package_byte)
}

/// Whether source names may begin with the text.
#[tactic(auto, unfolding(crate::specs::Uploaders::is_front))]
fn is_front(text: &str) -> bool
    ensures { result ≡ is_front text.now }
{
    match text.as_bytes() {
        [first, ..] => {
            (first.is_ascii_lowercase() || first.is_ascii_digit()) && has_package_bytes(text)
        }
        [] => false,
    }
}

#[tactic(auto, unfolding(crate::specs::Uploaders::is_pattern))]
fn is_pattern(text: &str) -> bool
    ensures { result ≡ is_pattern text.now }
{
    match strip_star(text) {
        Some(front) => front.is_empty() || is_front(front),
        None => is_package(text),
    }
}

fn begins_with_blank(text: &str) -> bool
    ensures { result ≡ begins_with_blank text.now }
{
    match text.as_bytes() {
        [first, ..] => *first == b' ' || *first == b'\t',
        [] => false,
    }
}

#[tactic(auto, unfolding(crate::specs::Uploaders::ends_with_blank))]
fn ends_with_blank(text: &str) -> bool
    ensures { result ≡ ends_with_blank text.now }
{
    text.as_bytes().ends_with(b" ") || text.as_bytes().ends_with(b"\t")
}

#[tactic(auto, unfolding(crate::specs::Uploaders::is_person))]
fn is_person(text: &str) -> bool
    ensures { result ≡ is_person text.now }
{
    !text.is_empty() && !begins_with_blank(text) && !ends_with_blank(text)
}

/// Source and person of an uploader line, or `None` if the line is not an uploader line.
#[tactic(auto, unfolding(crate::specs::Uploaders::rule_parts))]
pub fn rule_parts(line: &str) -> Option<(&str, &str)>
    ensures { option_map (λ parts. (parts.0.now, parts.1.now)) result ≡ rule_parts line.now }
{
    let (source, person) = divide(line)?;
    if is_pattern(source) && is_person(person) {
        Some((source, person))
    } else {
        None
    }
}

/// Whether each line is an uploader line.
pub fn are_rule_lines(lines: &[&str]) -> bool
    ensures { result ≡ list_all is_rule_line (map (λ line. line.now) lines.now) }
{
    lines.iter().all(|line| rule_parts(line).is_some())
}

#[tactic(auto, unfolding(crate::specs::Uploaders::pattern_of))]
fn pattern_of(alloc: Global, text: &str) -> Result<SourcePattern, AllocError>
    ensures { IfOk result (λ pattern. pattern ≡ pattern_of text.now) }
{
    match strip_star(text) {
        Some("") => Ok(SourcePattern::Any),
        Some(front) => Ok(SourcePattern::Front(Text::new(alloc, front)?)),
        None => Ok(SourcePattern::Name(Text::new(alloc, text)?)),
    }
}

fn rule_of(alloc: Global, source: &str, person: &str) -> Result<Rule, AllocError>
    ensures { IfOk result (λ rule. rule ≡ rule_of (source.now, person.now)) }
{
    Ok(Rule {
        source: pattern_of(alloc, source)?,
        person: Text::new(alloc, person)?,
    })
}

/// The rules of lines. A line that is not an uploader line is passed over.
pub fn rules_of(alloc: Global, lines: &[&str]) -> Result<Listed<Rule>, AllocError>
    ensures { IfOk result (λ rules. rules ≡ rules_in (map (λ line. line.now) lines.now)) }
{
    let mut rules = Vec::new(alloc);
    for line in lines {
        if let Some((source, person)) = rule_parts(line) {
            rules.push(rule_of(alloc, source, person)?)?;
        }
    }
    Ok(Listed::from_vec(rules))
}
