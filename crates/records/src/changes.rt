//! A .changes (Debian Policy 5.5).

ghost use Rattle.std.specs.Prelude.{◌≡◌, ◌⊎◌, List, [], ◌∷◌, Option, Some, None, Ok, Err, IfOk, IfErr, MatchResult};
ghost use Rattle.records.specs.Records.{changes_in, changes_within, changes_fault, changes_of, changes_required, changes_simple, changes_formats, first_of, missing, not_simple, unknown_format, bad_source, bad_architectures, bad_distribution, bad_lists, first_of_words, person_of, value, words, entries_of};
ghost use Rattle.records.specs.declared.fault.RecordFault.{RecordFault};

use crate::checks::{check_required, check_simple, is_there, value_of};
use crate::fault::RecordFault;
use crate::field_name::FieldName;
use crate::names::is_plain;
use crate::parts::{architectures_of, files_of, source_of, version_of, words_of};
use para::{Listed, Paragraph, Text, read_one};
use std::alloc::{AllocError, Global};
use std::marker::Model;
use sums::{Entry, GREATEST_SIZE, ListKind};
use vers::Version;

/// A .changes: which files an upload has, for which distribution and from whom.
pub struct Changes {
    source: Text,
    version: Version,
    architectures: Listed<Text>,
    distribution: Text,
    person: Text,
    entries: Listed<Entry>,
}

// Written out, so that a caller does not prove again how each part is dropped.
impl Drop for Changes {
    fn drop(self) {
        let Changes {
            source: _,
            version: _,
            architectures: _,
            distribution: _,
            person: _,
            entries: _,
        } = self;
    }
}

impl Model for Changes {
    ghost use Rattle.records.specs.Values.{ChangesValue};

    ghost Value = { ChangesValue };

    ghost view = { λ c. record {
      source = c.source;
      version = c.version;
      architectures = c.architectures;
      distribution = c.distribution;
      person = c.person;
      entries = c.entries;
    } };
}

/// The most bytes of a .changes that is read (own rule of this archive).
pub const MOST_CHANGES: usize = 1_048_576;

/// The required fields, in the order in which the first that is missing is named.
const REQUIRED: [FieldName; 11] = [
    FieldName::Format,
    FieldName::Date,
    FieldName::Source,
    FieldName::Version,
    FieldName::Architecture,
    FieldName::Distribution,
    FieldName::Maintainer,
    FieldName::Changes,
    FieldName::ChecksumsSha1,
    FieldName::ChecksumsSha256,
    FieldName::Files,
];

/// The fields that have one line.
const SIMPLE: [FieldName; 8] = [
    FieldName::Format,
    FieldName::Date,
    FieldName::Source,
    FieldName::Version,
    FieldName::Architecture,
    FieldName::Distribution,
    FieldName::Maintainer,
    FieldName::ChangedBy,
];

/// Refuses a format other than 1.8 (Debian Policy 5.6.15).
#[tactic(auto, unfolding(crate::specs::Records::unknown_format))]
fn check_format(paragraph: &Paragraph<'_>) -> Result<(), RecordFault>
    ensures { MatchResult result (λ _. unknown_format changes_formats paragraph.now ≡ None)
        (λ e. unknown_format changes_formats paragraph.now ≡ Some e) }
{
    if value_of(paragraph, FieldName::Format) == "1.8" {
        return Ok(());
    }
    Err(RecordFault::Format)
}

/// The source name of the paragraph.
fn source_name<'a>(alloc: Global, paragraph: &Paragraph<'a>) -> Result<&'a str, RecordFault>
    ensures found { IfOk result (λ name. name.now ≡ first_of_words (words FieldName.Source paragraph.now)) }
    ensures only { IfOk result (λ _. bad_source (words FieldName.Source paragraph.now) ≡ None) }
    ensures refused { IfErr result
        (λ e. (e ≡ RecordFault.OutOfMemory) ⊎ (bad_source (words FieldName.Source paragraph.now) ≡ Some e)) }
{
    let words = words_of(alloc, paragraph, FieldName::Source)?;
    source_of(&words)
}

/// The distribution of the paragraph, which has exactly one.
#[tactic(auto, unfolding(crate::specs::Records::bad_distribution))]
fn distribution_of<'a>(paragraph: &Paragraph<'a>) -> Result<&'a str, RecordFault>
    ensures found { IfOk result (λ name. name.now ≡ value FieldName.Distribution paragraph.now) }
    ensures judged { MatchResult result (λ _. bad_distribution paragraph.now ≡ None)
        (λ e. bad_distribution paragraph.now ≡ Some e) }
{
    let name = value_of(paragraph, FieldName::Distribution);
    if is_plain(name) {
        return Ok(name);
    }
    Err(RecordFault::Distribution)
}

/// Who is responsible for the upload: Changed-By, else Maintainer (Debian Policy 5.6.4).
#[tactic(auto, unfolding(crate::specs::Records::person_of))]
fn responsible_person<'a>(paragraph: &Paragraph<'a>) -> &'a str
    ensures { result.now ≡ person_of paragraph.now }
{
    if is_there(paragraph, FieldName::ChangedBy) {
        value_of(paragraph, FieldName::ChangedBy)
    } else {
        value_of(paragraph, FieldName::Maintainer)
    }
}

/// The checks before that of the source.
fn check_front(paragraph: &Paragraph<'_>) -> Result<(), RecordFault>
    ensures only { IfOk result (λ _. (rest : List (Option RecordFault)) →
        first_of (missing changes_required paragraph.now ∷ not_simple changes_simple paragraph.now
        ∷ unknown_format changes_formats paragraph.now ∷ rest) ≡ first_of rest) }
    ensures refused { IfErr result (λ e. (rest : List (Option RecordFault)) →
        first_of (missing changes_required paragraph.now ∷ not_simple changes_simple paragraph.now
        ∷ unknown_format changes_formats paragraph.now ∷ rest) ≡ Some e) }
{
    check_required(paragraph, &REQUIRED)?;
    check_simple(paragraph, &SIMPLE)?;
    check_format(paragraph)
}

/// What an upload is made of, and for which distribution.
#[derive(Drop)]
struct Listing {
    architectures: Listed<Text>,
    distribution: Text,
    entries: Listed<Entry>,
}

/// What the paragraph lists. The checks after that of the version are made here.
fn listing_of(alloc: Global, paragraph: &Paragraph<'_>, most: u64) -> Result<Listing, RecordFault>
    ensures found { IfOk result (λ l. l ≡ record {
      architectures = words FieldName.Architecture paragraph.now;
      distribution = value FieldName.Distribution paragraph.now;
      entries = entries_of most ListKind.Changes paragraph.now;
    }) }
    ensures only { IfOk result (λ _. first_of (bad_architectures paragraph.now ∷ bad_distribution paragraph.now
        ∷ bad_lists most ListKind.Changes paragraph.now ∷ []) ≡ None) }
    ensures refused { IfErr result
        (λ e. (e ≡ RecordFault.OutOfMemory) ⊎ (first_of (bad_architectures paragraph.now ∷ bad_distribution paragraph.now
        ∷ bad_lists most ListKind.Changes paragraph.now ∷ []) ≡ Some e)) }
{
    let architectures = architectures_of(alloc, paragraph)?;
    let distribution = Text::new(alloc, distribution_of(paragraph)?)?;
    let entries = files_of(alloc, paragraph, ListKind::Changes, most)?;
    Ok(Listing {
        architectures,
        distribution,
        entries,
    })
}

/// The .changes of a paragraph with this version and this listing.
fn made_of(
    alloc: Global,
    paragraph: &Paragraph<'_>,
    source: &str,
    version: Version,
    listing: Listing,
) -> Result<Changes, AllocError>
    ensures { IfOk result (λ c. c ≡ record {
      source = source.now;
      version = version;
      architectures = listing.architectures;
      distribution = listing.distribution;
      person = person_of paragraph.now;
      entries = listing.entries;
    }) }
{
    let source = Text::new(alloc, source)?;
    let person = Text::new(alloc, responsible_person(paragraph))?;
    let Listing {
        architectures,
        distribution,
        entries,
    } = listing;
    Ok(Changes {
        source,
        version,
        architectures,
        distribution,
        person,
        entries,
    })
}

/// The .changes that a paragraph is.
fn changes_from(alloc: Global, paragraph: &Paragraph<'_>, most: u64) -> Result<Changes, RecordFault>
    ensures only { IfOk result (λ _. changes_fault most paragraph.now ≡ None) }
    ensures read { IfOk result (λ c. c ≡ changes_of most paragraph.now) }
    ensures refused { IfErr result
        (λ e. (e ≡ RecordFault.OutOfMemory) ⊎ (changes_fault most paragraph.now ≡ Some e)) }
{
    check_front(paragraph)?;
    let source = source_name(alloc, paragraph)?;
    let version = version_of(alloc, paragraph)?;
    let listing = listing_of(alloc, paragraph, most)?;
    Ok(made_of(alloc, paragraph, source, version, listing)?)
}

impl Changes {
    /// Reads a .changes (Debian Policy 5.5): one paragraph of at most 1,048,576 bytes, in format 1.8, with the fields
    /// Format, Date, Source, Version, Architecture, Distribution, Maintainer, Changes, Checksums-Sha1, Checksums-Sha256
    /// and Files, and one distribution, which lists files of at most `most` bytes (never more than 1 GiB). If several faults
    /// apply, the answer is the one of lowest number.
    pub fn read_within(alloc: Global, text: &[u8], most: u64) -> Result<Changes, RecordFault>
        ensures read { IfOk result (λ c. changes_within most text.now ≡ Ok c) }
        ensures refused { IfErr result
            (λ e. (e ≡ RecordFault.OutOfMemory) ⊎ (changes_within most text.now ≡ Err e)) }
    {
        let paragraph = read_one(alloc, text, MOST_CHANGES)?;
        changes_from(alloc, &paragraph, most)
    }

    /// Reads a .changes as `read_within` does, with files of at most 1 GiB.
    pub fn read(alloc: Global, text: &[u8]) -> Result<Changes, RecordFault>
        ensures read { IfOk result (λ c. changes_in text.now ≡ Ok c) }
        ensures refused { IfErr result
            (λ e. (e ≡ RecordFault.OutOfMemory) ⊎ (changes_in text.now ≡ Err e)) }
    {
        Changes::read_within(alloc, text, GREATEST_SIZE)
    }

    /// The name of the source package.
    pub fn source(&self) -> &str
        ensures { result.now ≡ self.now.source }
    {
        self.source.as_str()
    }

    /// The version of the source package.
    pub fn version(&self) -> &Version
        ensures { result.now ≡ self.now.version }
    {
        &self.version
    }

    /// The architectures, `all` and `source` among them.
    pub fn architectures(&self) -> &[Text]
        ensures { result.now ≡ self.now.architectures }
    {
        self.architectures.as_slice()
    }

    /// The distribution that the upload is for.
    pub fn distribution(&self) -> &str
        ensures { result.now ≡ self.now.distribution }
    {
        self.distribution.as_str()
    }

    /// Who is responsible for the upload: its Changed-By, or its Maintainer if it has no such field.
    pub fn person(&self) -> &str
        ensures { result.now ≡ self.now.person }
    {
        self.person.as_str()
    }

    /// The listed files, in the order of the field Files.
    pub fn entries(&self) -> &[Entry]
        ensures { result.now ≡ self.now.entries }
    {
        self.entries.as_slice()
    }
}
