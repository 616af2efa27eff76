//! The parts that records share: the source, the version, the architectures, the distribution and the listed files.

ghost use Rattle.std.specs.Prelude.{◌≡◌, ◌⊎◌, ◌&&◌, not, Some, None, IfOk, IfErr, MatchResult, map};
ghost use Rattle.std.specs.List.{list_all};
ghost use Rattle.para.specs.Bytes.{is_nil};
ghost use Rattle.records.specs.Names.{is_architecture_name};
ghost use Rattle.records.specs.Records.{words, value, is_parenthesized, is_source, first_of_words, are_different, are_architectures, bad_source, bad_name, bad_version, bad_architectures, bad_lists, entries_of};

use crate::checks::value_of;
use crate::fault::RecordFault;
use crate::field_name::FieldName;
use crate::names::{is_architecture, is_package};
use para::{Listed, Paragraph, Text, fold};
use std::alloc::{AllocError, Global};
use std::collections::BTreeSet;
use sums::{Entry, ListKind, read_lists_within};
use vers::Version;

/// The words of the field, or no words if it is absent.
#[tactic(auto, unfolding(crate::specs::Records::words))]
pub fn words_of<'a>(
    alloc: Global,
    paragraph: &Paragraph<'a>,
    name: FieldName,
) -> Result<Vec<&'a str>, RecordFault>
    ensures found { IfOk result (λ found. map (λ word. word.now) found.items ≡ words name paragraph.now) }
    ensures refused { IfErr result (λ e. e ≡ RecordFault.OutOfMemory) }
{
    match paragraph.get(name.name()) {
        Some(field) => Ok(fold(alloc, field)?),
        None => Ok(Vec::new(alloc)),
    }
}

#[tactic(auto, unfolding(crate::specs::Records::is_parenthesized))]
fn is_in_parentheses(word: &str) -> bool
    ensures { result ≡ is_parenthesized word.now }
{
    let bytes = word.as_bytes();
    bytes.len() >= 3 && bytes.starts_with(b"(") && bytes.ends_with(b")")
}

/// Refuses a text that is not a source or package name.
#[tactic(auto, unfolding(crate::specs::Records::bad_name))]
pub fn check_name(name: &str) -> Result<(), RecordFault>
    ensures { MatchResult result (λ _. bad_name name.now ≡ None) (λ e. bad_name name.now ≡ Some e) }
{
    if is_package(name) {
        return Ok(());
    }
    Err(RecordFault::Name)
}

/// The source name in the words, which a version in parentheses may follow (Debian Policy 5.6.1).
#[tactic(auto, unfolding(crate::specs::Records::bad_source))]
pub fn source_of<'a>(words: &[&'a str]) -> Result<&'a str, RecordFault>
    ensures found { IfOk result (λ name. name.now ≡ first_of_words (map (λ word. word.now) words.now)) }
    ensures judged { MatchResult result (λ _. bad_source (map (λ word. word.now) words.now) ≡ None)
        (λ e. bad_source (map (λ word. word.now) words.now) ≡ Some e) }
{
    match words {
        [name] if is_package(name) => Ok(name),
        [name, version] if is_package(name) && is_in_parentheses(version) => Ok(name),
        _ => Err(RecordFault::Name),
    }
}

/// The version of the paragraph.
#[tactic(auto, unfolding(crate::specs::Records::bad_version))]
pub fn version_of(alloc: Global, paragraph: &Paragraph<'_>) -> Result<Version, RecordFault>
    ensures found { IfOk result (λ version. version ≡ value FieldName.Version paragraph.now) }
    ensures only { IfOk result (λ _. bad_version paragraph.now ≡ None) }
    ensures refused { IfErr result
        (λ e. (e ≡ RecordFault.OutOfMemory) ⊎ (bad_version paragraph.now ≡ Some e)) }
{
    Ok(Version::parse(alloc, value_of(paragraph, FieldName::Version))?)
}

fn all_are_architectures(words: &[&str]) -> bool
    ensures { result ≡ list_all is_architecture_name (map (λ word. word.now) words.now) }
{
    words.iter().all(|word| is_architecture(word))
}

/// Whether no word stands twice.
pub fn all_differ(alloc: Global, words: &[&str]) -> Result<bool, AllocError>
    ensures { IfOk result (λ differ. differ ≡ are_different (map (λ word. word.now) words.now)) }
{
    let mut seen = BTreeSet::new(alloc);
    for word in words {
        if !seen.insert(*word)? {
            return Ok(false);
        }
    }
    Ok(true)
}

/// Copies of the words, in their order. It is refused for want of memory alone.
pub fn texts_of(alloc: Global, words: &[&str]) -> Result<Listed<Text>, AllocError>
    ensures { IfOk result (λ texts. texts ≡ map (λ word. word.now) words.now) }
{
    let mut texts = Vec::new(alloc);
    for word in words {
        texts.push(Text::new(alloc, word)?)?;
    }
    Ok(Listed::from_vec(texts))
}

#[tactic(auto, unfolding(crate::specs::Records::are_architectures))]
fn are_architecture_names(alloc: Global, words: &[&str]) -> Result<bool, AllocError>
    ensures { IfOk result (λ are. are ≡ are_architectures (map (λ word. word.now) words.now)) }
{
    if words.is_empty() || !all_are_architectures(words) {
        return Ok(false);
    }
    all_differ(alloc, words)
}

/// The architectures of the paragraph (Debian Policy 5.6.8).
#[tactic(auto, unfolding(crate::specs::Records::bad_architectures))]
pub fn architectures_of(
    alloc: Global,
    paragraph: &Paragraph<'_>,
) -> Result<Listed<Text>, RecordFault>
    ensures found { IfOk result (λ names. names ≡ words FieldName.Architecture paragraph.now) }
    ensures only { IfOk result (λ _. bad_architectures paragraph.now ≡ None) }
    ensures refused { IfErr result
        (λ e. (e ≡ RecordFault.OutOfMemory) ⊎ (bad_architectures paragraph.now ≡ Some e)) }
{
    let words = words_of(alloc, paragraph, FieldName::Architecture)?;
    if !are_architecture_names(alloc, &words)? {
        return Err(RecordFault::Architecture);
    }
    Ok(texts_of(alloc, &words)?)
}

/// The listed files of the paragraph, each of at most `most` bytes.
#[tactic(auto, unfolding(crate::specs::Records::bad_lists, crate::specs::Records::entries_of))]
pub fn files_of(
    alloc: Global,
    paragraph: &Paragraph<'_>,
    kind: ListKind,
    most: u64,
) -> Result<Listed<Entry>, RecordFault>
    ensures found { IfOk result (λ entries. entries ≡ entries_of most kind paragraph.now) }
    ensures only { IfOk result (λ _. bad_lists most kind paragraph.now ≡ None) }
    ensures refused { IfErr result
        (λ e. (e ≡ RecordFault.OutOfMemory) ⊎ (bad_lists most kind paragraph.now ≡ Some e)) }
{
    Ok(Listed::from_vec(read_lists_within(alloc, paragraph, kind, most)?))
}
