//! The faults of a configuration's paragraphs, each looked for in all of them.

ghost use Rattle.std.specs.Prelude.{codes, ◌≡◌, ◌⊎◌, ◌||◌, ◌++◌, not, nat_lt, drop, [], ◌∷◌, ℕ, List, IfOk, IfErr, OnOk, MatchResult, Some, None, map, length};
ghost use Rattle.std.specs.List.{list_any};
ghost use Rattle.para.specs.Field.{field_value};
ghost use Rattle.rules.specs.Paragraphs.{names_claimed, words, passes, is_without_word, lacks_field, is_days_line, is_filled_line, is_plain_line, are_plain_words, are_names, is_listed_architecture, has_good_lines, has_good_names, has_bad_value, has_keep_days, size_said, has_bad_size, has_size, are_rules, has_bad_rule, has_few_lines, is_over_limits};
ghost use Rattle.rules.specs.Configuration.{claims_again, config_fault, have_bad_value, have_bad_size, strict_fault};
ghost use Rattle.records.specs.Names.{is_plain_name};
ghost use Rattle.records.specs.Records.{is_among};
ghost use Rattle.rules.specs.Claimed.{holds};

use crate::days::days_in;
use crate::fault::ConfigFault;
use crate::names::{are_listed_architectures, are_plain};
use crate::paragraph::{claimed_names, size_said, words_of};
use crate::uploader::are_rule_lines;
use para::{Field, Paragraph, fold};
use records::{all_differ, is_plain};
use std::alloc::{AllocError, Global};
use std::collections::BTreeSet;

const MOST_SUITES: usize = 16;

const MOST_ARCHITECTURES: usize = 16;

const MOST_COMPONENTS: usize = 8;

const MOST_UPLOADER_LINES: usize = 256;

#[tactic(auto, unfolding(crate::specs::Paragraphs::is_without_word))]
fn is_without_word(
    alloc: Global,
    paragraph: &Paragraph<'_>,
    name: &str,
) -> Result<bool, ConfigFault>
    ensures found { IfOk result (λ without. without ≡ is_without_word name.now paragraph.now) }
    ensures refused { IfErr result (λ e. e ≡ ConfigFault.OutOfMemory) }
{
    Ok(words_of(alloc, paragraph, name)?.is_empty())
}

/// Whether a required field is absent or without a word.
#[tactic(auto, unfolding(crate::specs::Paragraphs::lacks_field))]
fn lacks_field(alloc: Global, paragraph: &Paragraph<'_>) -> Result<bool, ConfigFault>
    ensures found { IfOk result (λ lacks. lacks ≡ lacks_field paragraph.now) }
    ensures refused { IfErr result (λ e. e ≡ ConfigFault.OutOfMemory) }
{
    let codename = is_without_word(alloc, paragraph, "Codename")?;
    let architectures = is_without_word(alloc, paragraph, "Architectures")?;
    let components = is_without_word(alloc, paragraph, "Components")?;
    Ok(codename || architectures || components)
}

#[tactic(auto, unfolding(crate::specs::Paragraphs::is_filled_line))]
fn is_filled_line(field: &Field<'_>) -> bool
    ensures { result ≡ is_filled_line (field_value field.now) }
{
    field.more.is_empty() && !field.first.is_empty()
}

#[tactic(auto, unfolding(crate::specs::Paragraphs::is_plain_line))]
fn is_plain_line(field: &Field<'_>) -> bool
    ensures { result ≡ is_plain_line (field_value field.now) }
{
    field.more.is_empty() && is_plain(field.first)
}

/// Whether the field, if it is there, is one line that is not empty.
#[tactic(auto, unfolding(crate::specs::Paragraphs::passes))]
fn may_print(paragraph: &Paragraph<'_>, name: &str) -> bool
    ensures { result ≡ passes is_filled_line name.now paragraph.now }
{
    match paragraph.get(name) {
        Some(field) => is_filled_line(field),
        None => true,
    }
}

/// Whether the field, if it is there, is one line with a plain name.
#[tactic(auto, unfolding(crate::specs::Paragraphs::passes))]
fn may_name(paragraph: &Paragraph<'_>, name: &str) -> bool
    ensures { result ≡ passes is_plain_line name.now paragraph.now }
{
    match paragraph.get(name) {
        Some(field) => is_plain_line(field),
        None => true,
    }
}

#[tactic(auto, unfolding(crate::specs::Paragraphs::is_days_line, crate::specs::Days::days_in))]
fn is_days_line(field: &Field<'_>) -> bool
    ensures { result ≡ is_days_line (field_value field.now) }
{
    field.more.is_empty() && days_in(field.first).is_some()
}

/// Whether the field, if it is there, is one line with a number of days.
#[tactic(auto, unfolding(crate::specs::Paragraphs::passes))]
fn may_count(paragraph: &Paragraph<'_>, name: &str) -> bool
    ensures { result ≡ passes is_days_line name.now paragraph.now }
{
    match paragraph.get(name) {
        Some(field) => is_days_line(field),
        None => true,
    }
}

#[tactic(auto, unfolding(crate::specs::Paragraphs::has_good_lines))]
fn has_good_lines(paragraph: &Paragraph<'_>) -> bool
    ensures { result ≡ has_good_lines paragraph.now }
{
    let codename = may_name(paragraph, "Codename");
    let suite = may_name(paragraph, "Suite");
    let origin = may_print(paragraph, "Origin");
    let label = may_print(paragraph, "Label");
    let description = may_print(paragraph, "Description");
    let keep = may_count(paragraph, "KeepDays");
    let valid = may_count(paragraph, "ValidDays");
    codename && suite && origin && label && description && keep && valid
}

#[tactic(auto, unfolding(crate::specs::Paragraphs::are_plain_words))]
fn are_plain_words(alloc: Global, field: &Field<'_>) -> Result<bool, ConfigFault>
    ensures found { IfOk result (λ are. are ≡ are_plain_words (field_value field.now)) }
    ensures refused { IfErr result (λ e. e ≡ ConfigFault.OutOfMemory) }
{
    let words = fold(alloc, field)?;
    Ok(!words.is_empty() && are_plain(&words))
}

/// Whether the words of AlsoAcceptFor, if it is there, are one plain name or more.
#[tactic(auto, unfolding(crate::specs::Paragraphs::passes))]
fn accepts_plain_names(alloc: Global, paragraph: &Paragraph<'_>) -> Result<bool, ConfigFault>
    ensures found { IfOk result (λ accepts. accepts ≡ passes are_plain_words (codes "AlsoAcceptFor") paragraph.now) }
    ensures refused { IfErr result (λ e. e ≡ ConfigFault.OutOfMemory) }
{
    match paragraph.get("AlsoAcceptFor") {
        Some(field) => are_plain_words(alloc, field),
        None => Ok(true),
    }
}

#[tactic(auto, unfolding(crate::specs::Paragraphs::are_names))]
fn has_good_architectures(alloc: Global, paragraph: &Paragraph<'_>) -> Result<bool, ConfigFault>
    ensures found { IfOk result (λ good. good ≡ are_names is_listed_architecture (words (codes "Architectures") paragraph.now)) }
    ensures refused { IfErr result (λ e. e ≡ ConfigFault.OutOfMemory) }
{
    let words = words_of(alloc, paragraph, "Architectures")?;
    let differ = all_differ(alloc, &words)?;
    Ok(are_listed_architectures(&words) && differ)
}

#[tactic(auto, unfolding(crate::specs::Paragraphs::are_names))]
fn has_good_components(alloc: Global, paragraph: &Paragraph<'_>) -> Result<bool, ConfigFault>
    ensures found { IfOk result (λ good. good ≡ are_names is_plain_name (words (codes "Components") paragraph.now)) }
    ensures refused { IfErr result (λ e. e ≡ ConfigFault.OutOfMemory) }
{
    let words = words_of(alloc, paragraph, "Components")?;
    let differ = all_differ(alloc, &words)?;
    Ok(are_plain(&words) && differ)
}

#[tactic(auto, unfolding(crate::specs::Paragraphs::has_bad_value, crate::specs::Paragraphs::has_good_names))]
fn has_bad_value(alloc: Global, paragraph: &Paragraph<'_>) -> Result<bool, ConfigFault>
    ensures found { IfOk result (λ bad. bad ≡ has_bad_value paragraph.now) }
    ensures refused { IfErr result (λ e. e ≡ ConfigFault.OutOfMemory) }
{
    let lines = has_good_lines(paragraph);
    let architectures = has_good_architectures(alloc, paragraph)?;
    let components = has_good_components(alloc, paragraph)?;
    let accepted = accepts_plain_names(alloc, paragraph)?;
    Ok(!(lines && architectures && components && accepted))
}

#[tactic(auto, unfolding(crate::specs::Paragraphs::are_rules))]
fn are_rules(field: &Field<'_>) -> bool
    ensures { result ≡ are_rules (field_value field.now) }
{
    field.first.is_empty() && are_rule_lines(&field.more)
}

#[tactic(auto, unfolding(crate::specs::Paragraphs::has_bad_rule, crate::specs::Paragraphs::passes))]
fn has_bad_rule(paragraph: &Paragraph<'_>) -> bool
    ensures { result ≡ has_bad_rule paragraph.now }
{
    match paragraph.get("Uploaders") {
        Some(field) => !are_rules(field),
        None => false,
    }
}

#[tactic(auto, unfolding(crate::specs::Paragraphs::passes, crate::specs::Paragraphs::has_few_lines))]
fn has_few_uploader_lines(paragraph: &Paragraph<'_>) -> bool
    ensures { result ≡ passes has_few_lines (codes "Uploaders") paragraph.now }
{
    match paragraph.get("Uploaders") {
        Some(field) => field.more.len() <= MOST_UPLOADER_LINES,
        None => true,
    }
}

fn are_more_than(words: &[&str], most: usize) -> bool
    ensures { result ≡ nat_lt most (length (map (λ word. word.now) words.now)) }
{
    words.len() > most
}

#[tactic(auto, unfolding(crate::specs::Paragraphs::is_over_limits))]
fn is_over_limits(alloc: Global, paragraph: &Paragraph<'_>) -> Result<bool, ConfigFault>
    ensures found { IfOk result (λ over. over ≡ is_over_limits paragraph.now) }
    ensures refused { IfErr result (λ e. e ≡ ConfigFault.OutOfMemory) }
{
    let architectures = words_of(alloc, paragraph, "Architectures")?;
    let components = words_of(alloc, paragraph, "Components")?;
    let few_lines = has_few_uploader_lines(paragraph);
    let many_architectures = are_more_than(&architectures, MOST_ARCHITECTURES);
    let many_components = are_more_than(&components, MOST_COMPONENTS);
    Ok(many_architectures || many_components || !few_lines)
}

fn some_lacks_field(alloc: Global, paragraphs: &[Paragraph<'_>]) -> Result<bool, ConfigFault>
    ensures found { IfOk result (λ some. some ≡ list_any lacks_field paragraphs.now) }
    ensures refused { IfErr result (λ e. e ≡ ConfigFault.OutOfMemory) }
{
    for paragraph in paragraphs {
        if lacks_field(alloc, paragraph)? {
            return Ok(true);
        }
    }
    Ok(false)
}

fn some_has_bad_value(alloc: Global, paragraphs: &[Paragraph<'_>]) -> Result<bool, ConfigFault>
    ensures found { IfOk result (λ some. some ≡ list_any has_bad_value paragraphs.now) }
    ensures refused { IfErr result (λ e. e ≡ ConfigFault.OutOfMemory) }
{
    for paragraph in paragraphs {
        if has_bad_value(alloc, paragraph)? {
            return Ok(true);
        }
    }
    Ok(false)
}

#[tactic(auto, unfolding(crate::specs::Paragraphs::has_keep_days))]
fn has_keep_days(paragraph: &Paragraph<'_>) -> bool
    ensures { result ≡ has_keep_days paragraph.now }
{
    paragraph.get("KeepDays").is_some()
}

/// Whether a paragraph after the first says how long arrivals count.
fn some_keeps_late(paragraphs: &[Paragraph<'_>]) -> bool
    ensures { result ≡ list_any has_keep_days (drop 1 paragraphs.now) }
{
    match paragraphs.split_first() {
        Some((_, rest)) => rest.iter().any(has_keep_days),
        None => false,
    }
}

/// Whether a paragraph has a bad value, or one after the first says how long arrivals count.
#[tactic(auto, unfolding(crate::specs::Configuration::have_bad_value))]
fn have_bad_value(alloc: Global, paragraphs: &[Paragraph<'_>]) -> Result<bool, ConfigFault>
    ensures found { IfOk result (λ bad. bad ≡ have_bad_value paragraphs.now) }
    ensures refused { IfErr result (λ e. e ≡ ConfigFault.OutOfMemory) }
{
    let late = some_keeps_late(paragraphs);
    let bad = some_has_bad_value(alloc, paragraphs)?;
    Ok(bad || late)
}

fn some_has_bad_rule(paragraphs: &[Paragraph<'_>]) -> bool
    ensures { result ≡ list_any has_bad_rule paragraphs.now }
{
    paragraphs.iter().any(has_bad_rule)
}

fn are_too_many(paragraphs: &[Paragraph<'_>]) -> bool
    ensures { result ≡ nat_lt 16 (length paragraphs.now) }
{
    paragraphs.len() > MOST_SUITES
}

/// Whether there are too many suites, or one of them is over its limits.
fn are_over_limits(alloc: Global, paragraphs: &[Paragraph<'_>]) -> Result<bool, ConfigFault>
    ensures found { IfOk result (λ over. over ≡ (nat_lt 16 (length paragraphs.now) || list_any is_over_limits paragraphs.now)) }
    ensures refused { IfErr result (λ e. e ≡ ConfigFault.OutOfMemory) }
{
    if are_too_many(paragraphs) {
        return Ok(true);
    }
    for paragraph in paragraphs {
        if is_over_limits(alloc, paragraph)? {
            return Ok(true);
        }
    }
    Ok(false)
}

/// Whether one of the names is claimed.
fn is_any_claimed<'a>(claimed: &BTreeSet<&'a str>, names: &[&'a str]) -> bool
    ensures { result ≡ list_any (holds claimed.now) (map (λ name. name.now) names.now) }
{
    for name in names {
        if claimed.contains(name) {
            return true;
        }
    }
    false
}

/// Adds names to those that are claimed.
fn claim_all<'a>(claimed: &mut BTreeSet<&'a str>, names: &[&'a str]) -> Result<(), AllocError>
    ensures { OnOk result ((q : List ℕ) → holds claimed.new q ≡ (holds claimed.old q || is_among (map (λ name. name.now) names.now) q)) }
{
    for name in names {
        claimed.insert(*name)?;
    }
    Ok(())
}

/// Whether two suites claim the same distribution name.
fn two_claim_a_name(alloc: Global, paragraphs: &[Paragraph<'_>]) -> Result<bool, ConfigFault>
    ensures found { IfOk result (λ two. two ≡ claims_again [] (map names_claimed paragraphs.now)) }
    ensures refused { IfErr result (λ e. e ≡ ConfigFault.OutOfMemory) }
{
    let mut claimed = BTreeSet::new(alloc);
    for paragraph in paragraphs {
        let names = claimed_names(alloc, paragraph)?;
        if is_any_claimed(&claimed, &names) {
            return Ok(true);
        }
        claim_all(&mut claimed, &names)?;
    }
    Ok(false)
}

/// Refuses paragraphs to which a fault applies, with the one of lowest number.
#[tactic(auto, unfolding(crate::specs::Configuration::config_fault))]
pub fn check(alloc: Global, paragraphs: &[Paragraph<'_>]) -> Result<(), ConfigFault>
    ensures accepted { IfOk result (λ _. config_fault paragraphs.now ≡ None) }
    ensures refused { IfErr result (λ e. (e ≡ ConfigFault.OutOfMemory) ⊎ (config_fault paragraphs.now ≡ Some e)) }
{
    if some_lacks_field(alloc, paragraphs)? {
        return Err(ConfigFault::Missing);
    }
    if have_bad_value(alloc, paragraphs)? {
        return Err(ConfigFault::BadValue);
    }
    if two_claim_a_name(alloc, paragraphs)? {
        return Err(ConfigFault::ClaimedTwice);
    }
    if some_has_bad_rule(paragraphs) {
        return Err(ConfigFault::BadRule);
    }
    if are_over_limits(alloc, paragraphs)? {
        return Err(ConfigFault::Limits);
    }
    Ok(())
}

/// Whether the field of the largest file is there and says no number of MiB.
#[tactic(auto, unfolding(crate::specs::Paragraphs::has_bad_size, crate::specs::Paragraphs::passes))]
fn has_bad_size(paragraph: &Paragraph<'_>) -> bool
    ensures { result ≡ has_bad_size paragraph.now }
{
    match paragraph.get("MaxFileSize") {
        Some(field) => size_said(field).is_none(),
        None => false,
    }
}

#[tactic(auto, unfolding(crate::specs::Paragraphs::has_size))]
fn has_size(paragraph: &Paragraph<'_>) -> bool
    ensures { result ≡ has_size paragraph.now }
{
    paragraph.get("MaxFileSize").is_some()
}

/// Whether a paragraph says a size of another form.
fn some_say_bad_sizes(paragraphs: &[Paragraph<'_>]) -> bool
    ensures { result ≡ list_any has_bad_size paragraphs.now }
{
    paragraphs.iter().any(has_bad_size)
}

/// Whether a paragraph after the first says how large a file may be.
fn some_say_sizes_late(paragraphs: &[Paragraph<'_>]) -> bool
    ensures { result ≡ list_any has_size (drop 1 paragraphs.now) }
{
    match paragraphs.split_first() {
        Some((_, rest)) => rest.iter().any(has_size),
        None => false,
    }
}

/// Whether a paragraph says a size of another form, or one after the first says a size.
#[tactic(auto, unfolding(crate::specs::Configuration::have_bad_size))]
fn have_bad_size(paragraphs: &[Paragraph<'_>]) -> bool
    ensures { result ≡ have_bad_size paragraphs.now }
{
    let late = some_say_sizes_late(paragraphs);
    let bad = some_say_bad_sizes(paragraphs);
    bad || late
}

/// Refuses paragraphs of a new configuration to which a fault applies, with the one of lowest number: as `check`, and with
/// `BadValue` also for a size of another form.
pub fn check_strictly(alloc: Global, paragraphs: &[Paragraph<'_>]) -> Result<(), ConfigFault>
    ensures accepted { IfOk result (λ _. strict_fault paragraphs.now ≡ None) }
    ensures refused { IfErr result (λ e. (e ≡ ConfigFault.OutOfMemory) ⊎ (strict_fault paragraphs.now ≡ Some e)) }
{
    if have_bad_size(paragraphs) {
        if some_lacks_field(alloc, paragraphs)? {
            return Err(ConfigFault::Missing);
        }
        return Err(ConfigFault::BadValue);
    }
    check(alloc, paragraphs)
}
