//! A .dsc, the control file of a source package (Debian Policy 5.4).

ghost use Rattle.std.specs.Prelude.{◌≡◌, ◌⊎◌, List, ◌∷◌, Option, Some, None, Ok, Err, IfOk, IfErr, MatchResult};
ghost use Rattle.records.specs.Records.{dsc_in, dsc_within, dsc_fault, dsc_of, dsc_required, dsc_simple, dsc_formats, first_of, missing, not_simple, unknown_format, bad_name, value};
ghost use Rattle.records.specs.declared.fault.RecordFault.{RecordFault};

use crate::changes::MOST_CHANGES;
use crate::checks::{check_own, check_required, check_simple, value_of};
use crate::fault::RecordFault;
use crate::field_name::FieldName;
use crate::parts::{check_name, files_of, version_of};
use para::{Listed, Paragraph, Text, read_one};
use std::alloc::Global;
use std::marker::Model;
use sums::{Entry, GREATEST_SIZE, ListKind};
use vers::Version;

/// A .dsc: a source package and the files that it is made of.
pub struct Dsc {
    source: Text,
    version: Version,
    entries: Listed<Entry>,
}

// Written out, so that a caller does not prove again how each part is dropped.
impl Drop for Dsc {
    fn drop(self) {
        let Dsc {
            source: _,
            version: _,
            entries: _,
        } = self;
    }
}

impl Model for Dsc {
    ghost use Rattle.records.specs.Values.{DscValue};

    ghost Value = { DscValue };

    ghost view = { λ d. record {
      source = d.source;
      version = d.version;
      entries = d.entries;
    } };
}

/// The most bytes of a .dsc that is read, as many as of a .changes (own rule of this archive).
pub const MOST_DSC: usize = MOST_CHANGES;

/// The required fields, in the order in which the first that is missing is named.
const REQUIRED: [FieldName; 7] = [
    FieldName::Format,
    FieldName::Source,
    FieldName::Version,
    FieldName::Maintainer,
    FieldName::ChecksumsSha1,
    FieldName::ChecksumsSha256,
    FieldName::Files,
];

/// The fields that have one line.
const SIMPLE: [FieldName; 4] = [
    FieldName::Format,
    FieldName::Source,
    FieldName::Version,
    FieldName::Maintainer,
];

/// The fields that the archive writes itself.
const OWN: [FieldName; 2] = [FieldName::Package, FieldName::Directory];

/// Refuses a format other than 1.0, 3.0 (native) and 3.0 (quilt) (Debian Policy 5.6.16).
#[tactic(auto, unfolding(crate::specs::Records::unknown_format))]
fn check_format(paragraph: &Paragraph<'_>) -> Result<(), RecordFault>
    ensures { MatchResult result (λ _. unknown_format dsc_formats paragraph.now ≡ None)
        (λ e. unknown_format dsc_formats paragraph.now ≡ Some e) }
{
    match value_of(paragraph, FieldName::Format) {
        "1.0" | "3.0 (native)" | "3.0 (quilt)" => Ok(()),
        _ => Err(RecordFault::Format),
    }
}

/// The checks before that of the version.
fn check_front(paragraph: &Paragraph<'_>) -> Result<(), RecordFault>
    ensures only { IfOk result (λ _. (rest : List (Option RecordFault)) →
        first_of (missing dsc_required paragraph.now ∷ not_simple dsc_simple paragraph.now
        ∷ unknown_format dsc_formats paragraph.now ∷ bad_name (value FieldName.Source paragraph.now) ∷ rest) ≡ first_of rest) }
    ensures refused { IfErr result (λ e. (rest : List (Option RecordFault)) →
        first_of (missing dsc_required paragraph.now ∷ not_simple dsc_simple paragraph.now
        ∷ unknown_format dsc_formats paragraph.now ∷ bad_name (value FieldName.Source paragraph.now) ∷ rest) ≡ Some e) }
{
    check_required(paragraph, &REQUIRED)?;
    check_simple(paragraph, &SIMPLE)?;
    check_format(paragraph)?;
    check_name(value_of(paragraph, FieldName::Source))
}

/// The .dsc that a paragraph is.
fn dsc_from(alloc: Global, paragraph: &Paragraph<'_>, most: u64) -> Result<Dsc, RecordFault>
    ensures only { IfOk result (λ _. dsc_fault most paragraph.now ≡ None) }
    ensures read { IfOk result (λ d. d ≡ dsc_of most paragraph.now) }
    ensures refused { IfErr result
        (λ e. (e ≡ RecordFault.OutOfMemory) ⊎ (dsc_fault most paragraph.now ≡ Some e)) }
{
    check_front(paragraph)?;
    let version = version_of(alloc, paragraph)?;
    let entries = files_of(alloc, paragraph, ListKind::Dsc, most)?;
    check_own(paragraph, &OWN)?;
    Ok(Dsc {
        source: Text::new(alloc, value_of(paragraph, FieldName::Source))?,
        version,
        entries,
    })
}

impl Dsc {
    /// Reads a .dsc (Debian Policy 5.4): one paragraph of at most 1,048,576 bytes, in format 1.0, 3.0 (native) or
    /// 3.0 (quilt), with the fields Format, Source, Version, Maintainer, Checksums-Sha1, Checksums-Sha256 and Files, and
    /// without Package and Directory, which lists files of at most `most` bytes (never more than 1 GiB). If several faults
    /// apply, the answer is the one of lowest number.
    pub fn read_within(alloc: Global, text: &[u8], most: u64) -> Result<Dsc, RecordFault>
        ensures read { IfOk result (λ d. dsc_within most text.now ≡ Ok d) }
        ensures refused { IfErr result
            (λ e. (e ≡ RecordFault.OutOfMemory) ⊎ (dsc_within most text.now ≡ Err e)) }
    {
        let paragraph = read_one(alloc, text, MOST_DSC)?;
        dsc_from(alloc, &paragraph, most)
    }

    /// Reads a .dsc as `read_within` does, with files of at most 1 GiB.
    pub fn read(alloc: Global, text: &[u8]) -> Result<Dsc, RecordFault>
        ensures read { IfOk result (λ d. dsc_in text.now ≡ Ok d) }
        ensures refused { IfErr result
            (λ e. (e ≡ RecordFault.OutOfMemory) ⊎ (dsc_in text.now ≡ Err e)) }
    {
        Dsc::read_within(alloc, text, GREATEST_SIZE)
    }

    /// The name of the source package.
    pub fn source(&self) -> &str
        ensures { result.now ≡ self.now.source }
    {
        self.source.as_str()
    }

    /// The version of the source package.
    pub fn version(&self) -> &Version
        ensures { result.now ≡ self.now.version }
    {
        &self.version
    }

    /// The listed files, in the order of the field Files.
    pub fn entries(&self) -> &[Entry]
        ensures { result.now ≡ self.now.entries }
    {
        self.entries.as_slice()
    }
}
