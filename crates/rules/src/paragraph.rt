//! The suite that a paragraph of the configuration describes.

ghost use Rattle.std.specs.Prelude.{◌≡◌, IfOk, IfErr, map, unwrap_or, codes};
ghost use Rattle.std.specs.Option.{option_map};
ghost use Rattle.para.specs.Field.{field_value};
ghost use Rattle.rules.specs.Paragraphs.{days, mebibytes, size_said, first_line, words, lines_behind, suite_of, names_claimed};
ghost use Rattle.rules.specs.Uploaders.{rules_in};

use crate::days::{Days, days_in};
use crate::fault::ConfigFault;
use crate::size::{Mebibytes, mebibytes_in};
use crate::suite::Suite;
use crate::uploader::{Rule, rules_of};
use para::{Field, Listed, Paragraph, Text, fold};
use records::texts_of;
use std::alloc::{AllocError, Global};

/// The first line of the field, if it is there.
#[tactic(auto, unfolding(crate::specs::Paragraphs::first_line))]
fn first_line<'a>(paragraph: &Paragraph<'a>, name: &str) -> Option<&'a str>
    ensures { option_map (λ line. line.now) result ≡ first_line name.now paragraph.now }
{
    match paragraph.get(name) {
        Some(field) => Some(field.first),
        None => None,
    }
}

/// The words of the field, or no words if it is absent.
#[tactic(auto, unfolding(crate::specs::Paragraphs::words))]
pub fn words_of<'a>(
    alloc: Global,
    paragraph: &Paragraph<'a>,
    name: &str,
) -> Result<Vec<&'a str>, ConfigFault>
    ensures found { IfOk result (λ found. map (λ word. word.now) found.items ≡ words name.now paragraph.now) }
    ensures refused { IfErr result (λ e. e ≡ ConfigFault.OutOfMemory) }
{
    match paragraph.get(name) {
        Some(field) => Ok(fold(alloc, field)?),
        None => Ok(Vec::new(alloc)),
    }
}

/// A copy of the first line of the field, if it is there.
fn text_of(alloc: Global, paragraph: &Paragraph<'_>, name: &str) -> Result<Option<Text>, AllocError>
    ensures { IfOk result (λ text. text ≡ first_line name.now paragraph.now) }
{
    match first_line(paragraph, name) {
        Some(line) => Ok(Some(Text::new(alloc, line)?)),
        None => Ok(None),
    }
}

/// The number of days of the field, if it is there and has one.
#[tactic(auto, unfolding(crate::specs::Paragraphs::days))]
pub fn days_of(paragraph: &Paragraph<'_>, name: &str) -> Option<Days>
    ensures { result ≡ days name.now paragraph.now }
{
    match first_line(paragraph, name) {
        Some(line) => days_in(line),
        None => None,
    }
}

/// The number of MiB that a field says: one line, 4 to 1024.
#[tactic(auto, unfolding(crate::specs::Paragraphs::size_said))]
pub fn size_said(field: &Field<'_>) -> Option<Mebibytes>
    ensures { result ≡ size_said (field_value field.now) }
{
    if !field.more.is_empty() {
        return None;
    }
    mebibytes_in(field.first)
}

/// The number of MiB of the field, if it is there and says one.
#[tactic(auto, unfolding(crate::specs::Paragraphs::mebibytes))]
pub fn mebibytes_of(paragraph: &Paragraph<'_>, name: &str) -> Option<Mebibytes>
    ensures { result ≡ mebibytes name.now paragraph.now }
{
    match paragraph.get(name) {
        Some(field) => size_said(field),
        None => None,
    }
}

/// The codename of a suite.
fn codename<'a>(paragraph: &Paragraph<'a>) -> &'a str
    ensures { result.now ≡ (suite_of paragraph.now).codename }
{
    first_line(paragraph, "Codename").unwrap_or("")
}

/// The uploader lines of a suite, if it has the field.
#[tactic(auto, unfolding(crate::specs::Paragraphs::lines_behind))]
fn uploaders_of(
    alloc: Global,
    paragraph: &Paragraph<'_>,
) -> Result<Option<Listed<Rule>>, AllocError>
    ensures { IfOk result (λ rules. rules ≡ (suite_of paragraph.now).uploaders) }
{
    match paragraph.get("Uploaders") {
        Some(field) => Ok(Some(rules_of(alloc, &field.more)?)),
        None => Ok(None),
    }
}

/// The distribution names that a suite claims.
#[tactic(auto, unfolding(crate::specs::Paragraphs::names_claimed))]
pub fn claimed_names<'a>(
    alloc: Global,
    paragraph: &Paragraph<'a>,
) -> Result<Vec<&'a str>, ConfigFault>
    ensures found { IfOk result (λ found. map (λ name. name.now) found.items ≡ names_claimed paragraph.now) }
    ensures refused { IfErr result (λ e. e ≡ ConfigFault.OutOfMemory) }
{
    let mut names = words_of(alloc, paragraph, "AlsoAcceptFor")?;
    if let Some(suite) = first_line(paragraph, "Suite") {
        names.insert(0, suite)?;
    }
    names.insert(0, codename(paragraph))?;
    Ok(names)
}

/// The words of the field, copied.
fn names_of(
    alloc: Global,
    paragraph: &Paragraph<'_>,
    name: &str,
) -> Result<Listed<Text>, ConfigFault>
    ensures found { IfOk result (λ names. names ≡ words name.now paragraph.now) }
    ensures refused { IfErr result (λ e. e ≡ ConfigFault.OutOfMemory) }
{
    Ok(texts_of(alloc, &words_of(alloc, paragraph, name)?)?)
}

/// What a suite says in one line each.
#[derive(Drop)]
struct Lines {
    codename: Text,
    suite: Option<Text>,
    origin: Option<Text>,
    label: Option<Text>,
    description: Option<Text>,
}

/// What a suite lists.
#[derive(Drop)]
struct Lists {
    architectures: Listed<Text>,
    components: Listed<Text>,
    also_accept_for: Listed<Text>,
    uploaders: Option<Listed<Rule>>,
}

/// What the suite of a paragraph says in one line each.
fn lines_of(alloc: Global, paragraph: &Paragraph<'_>) -> Result<Lines, AllocError>
    ensures { IfOk result (λ lines. lines ≡ record {
      codename = (suite_of paragraph.now).codename;
      suite = (suite_of paragraph.now).suite;
      origin = (suite_of paragraph.now).origin;
      label = (suite_of paragraph.now).label;
      description = (suite_of paragraph.now).description;
    }) }
{
    Ok(Lines {
        codename: Text::new(alloc, codename(paragraph))?,
        suite: text_of(alloc, paragraph, "Suite")?,
        origin: text_of(alloc, paragraph, "Origin")?,
        label: text_of(alloc, paragraph, "Label")?,
        description: text_of(alloc, paragraph, "Description")?,
    })
}

/// What the suite of a paragraph lists.
fn lists_of(alloc: Global, paragraph: &Paragraph<'_>) -> Result<Lists, ConfigFault>
    ensures found { IfOk result (λ lists. lists ≡ record {
      architectures = (suite_of paragraph.now).architectures;
      components = (suite_of paragraph.now).components;
      also_accept_for = (suite_of paragraph.now).also_accept_for;
      uploaders = (suite_of paragraph.now).uploaders;
    }) }
    ensures refused { IfErr result (λ e. e ≡ ConfigFault.OutOfMemory) }
{
    Ok(Lists {
        architectures: names_of(alloc, paragraph, "Architectures")?,
        components: names_of(alloc, paragraph, "Components")?,
        also_accept_for: names_of(alloc, paragraph, "AlsoAcceptFor")?,
        uploaders: uploaders_of(alloc, paragraph)?,
    })
}

/// The suite of these lines and lists.
fn suite_with(lines: Lines, lists: Lists, valid_days: Option<Days>) -> Suite
    ensures { result ≡ record {
      codename = lines.codename;
      suite = lines.suite;
      origin = lines.origin;
      label = lines.label;
      description = lines.description;
      architectures = lists.architectures;
      components = lists.components;
      also_accept_for = lists.also_accept_for;
      uploaders = lists.uploaders;
      valid_days = valid_days;
    } }
{
    Suite {
        codename: lines.codename,
        suite: lines.suite,
        origin: lines.origin,
        label: lines.label,
        description: lines.description,
        architectures: lists.architectures,
        components: lists.components,
        also_accept_for: lists.also_accept_for,
        uploaders: lists.uploaders,
        valid_days,
    }
}

/// The suite of a paragraph.
pub fn suite_of(alloc: Global, paragraph: &Paragraph<'_>) -> Result<Suite, ConfigFault>
    ensures found { IfOk result (λ suite. suite ≡ suite_of paragraph.now) }
    ensures refused { IfErr result (λ e. e ≡ ConfigFault.OutOfMemory) }
{
    let lines = lines_of(alloc, paragraph)?;
    let lists = lists_of(alloc, paragraph)?;
    Ok(suite_with(lines, lists, days_of(paragraph, "ValidDays")))
}

/// The suites of paragraphs.
pub fn suites_of(alloc: Global, paragraphs: &[Paragraph<'_>]) -> Result<Listed<Suite>, ConfigFault>
    ensures found { IfOk result (λ suites. suites ≡ map suite_of paragraphs.now) }
    ensures refused { IfErr result (λ e. e ≡ ConfigFault.OutOfMemory) }
{
    let mut suites = Vec::new(alloc);
    for paragraph in paragraphs {
        suites.push(suite_of(alloc, paragraph)?)?;
    }
    Ok(Listed::from_vec(suites))
}
