//! A sidecar, the control paragraph of a binary package that is delivered beside it (Debian Policy 5.3).

ghost use Rattle.std.specs.Prelude.{◌≡◌, ◌⊎◌, List, [], ◌∷◌, Option, Some, None, Ok, Err, IfOk, IfErr, MatchResult, map};
ghost use Rattle.records.specs.Records.{sidecar_in, sidecar_fault, sidecar_of as sidecar_in_fields, sidecar_source, sidecar_required, sidecar_simple, sidecar_own, first_of, first_of_words, missing, not_simple, has_own_field, bad_name, bad_source, is_binary_architecture, bad_architecture, value};
ghost use Rattle.records.specs.declared.fault.RecordFault.{RecordFault};

use crate::checks::{check_own, check_required, check_simple, is_there, value_of};
use crate::fault::RecordFault;
use crate::field_name::FieldName;
use crate::names::is_architecture;
use crate::parts::{check_name, source_of, version_of, words_of};
use para::{Paragraph, Text, read_one};
use std::alloc::{AllocError, Global};
use std::marker::Model;
use vers::Version;

/// A sidecar: what its binary package is, and of which source.
pub struct Sidecar {
    package: Text,
    version: Version,
    architecture: Text,
    source: Text,
}

// Written out, so that a caller does not prove again how each part is dropped.
impl Drop for Sidecar {
    fn drop(self) {
        let Sidecar {
            package: _,
            version: _,
            architecture: _,
            source: _,
        } = self;
    }
}

impl Model for Sidecar {
    ghost use Rattle.records.specs.Values.{SidecarValue};

    ghost Value = { SidecarValue };

    ghost view = { λ s. record {
      name = s.«package»;
      version = s.version;
      architecture = s.architecture;
      source = s.source;
    } };
}

/// The most bytes of a sidecar that is read (own rule of this archive).
const MOST_SIDECAR: usize = 65_536;

/// The required fields, in the order in which the first that is missing is named.
const REQUIRED: [FieldName; 5] = [
    FieldName::Package,
    FieldName::Version,
    FieldName::Architecture,
    FieldName::Maintainer,
    FieldName::Description,
];

/// The fields that have one line.
const SIMPLE: [FieldName; 5] = [
    FieldName::Package,
    FieldName::Source,
    FieldName::Version,
    FieldName::Architecture,
    FieldName::Maintainer,
];

/// The fields that the archive writes itself.
const OWN: [FieldName; 5] = [
    FieldName::Filename,
    FieldName::Size,
    FieldName::Md5Sum,
    FieldName::Sha1,
    FieldName::Sha256,
];

/// The words that name the source: the package's name if there is no field Source (Debian Policy 5.6.1).
#[tactic(auto, unfolding(crate::specs::Records::sidecar_source))]
fn source_words<'a>(alloc: Global, paragraph: &Paragraph<'a>) -> Result<Vec<&'a str>, RecordFault>
    ensures found { IfOk result (λ found. map (λ word. word.now) found.items ≡ sidecar_source paragraph.now) }
    ensures refused { IfErr result (λ e. e ≡ RecordFault.OutOfMemory) }
{
    if is_there(paragraph, FieldName::Source) {
        return words_of(alloc, paragraph, FieldName::Source);
    }
    let mut words = Vec::new(alloc);
    words.push(value_of(paragraph, FieldName::Package))?;
    Ok(words)
}

#[tactic(auto, unfolding(crate::specs::Records::is_binary_architecture))]
fn is_of_binary(name: &str) -> bool
    ensures { result ≡ is_binary_architecture name.now }
{
    is_architecture(name) && name != "source"
}

/// Refuses the paragraph unless it has exactly one architecture, other than `source` (Debian Policy 5.6.8).
#[tactic(auto, unfolding(crate::specs::Records::bad_architecture))]
fn check_architecture(paragraph: &Paragraph<'_>) -> Result<(), RecordFault>
    ensures { MatchResult result (λ _. bad_architecture paragraph.now ≡ None)
        (λ e. bad_architecture paragraph.now ≡ Some e) }
{
    if is_of_binary(value_of(paragraph, FieldName::Architecture)) {
        return Ok(());
    }
    Err(RecordFault::Architecture)
}

/// The source that the paragraph names.
fn source_name<'a>(alloc: Global, paragraph: &Paragraph<'a>) -> Result<&'a str, RecordFault>
    ensures found { IfOk result (λ name. name.now ≡ first_of_words (sidecar_source paragraph.now)) }
    ensures only { IfOk result (λ _. bad_source (sidecar_source paragraph.now) ≡ None) }
    ensures refused { IfErr result
        (λ e. (e ≡ RecordFault.OutOfMemory) ⊎ (bad_source (sidecar_source paragraph.now) ≡ Some e)) }
{
    let words = source_words(alloc, paragraph)?;
    source_of(&words)
}

/// The checks before those of the source.
fn check_front(paragraph: &Paragraph<'_>) -> Result<(), RecordFault>
    ensures only { IfOk result (λ _. (rest : List (Option RecordFault)) →
        first_of (missing sidecar_required paragraph.now ∷ not_simple sidecar_simple paragraph.now
        ∷ bad_name (value FieldName.Package paragraph.now) ∷ rest) ≡ first_of rest) }
    ensures refused { IfErr result (λ e. (rest : List (Option RecordFault)) →
        first_of (missing sidecar_required paragraph.now ∷ not_simple sidecar_simple paragraph.now
        ∷ bad_name (value FieldName.Package paragraph.now) ∷ rest) ≡ Some e) }
{
    check_required(paragraph, &REQUIRED)?;
    check_simple(paragraph, &SIMPLE)?;
    check_name(value_of(paragraph, FieldName::Package))
}

/// The checks after that of the version.
fn check_rest(paragraph: &Paragraph<'_>) -> Result<(), RecordFault>
    ensures { MatchResult result
        (λ _. first_of (bad_architecture paragraph.now ∷ has_own_field sidecar_own paragraph.now ∷ []) ≡ None)
        (λ e. first_of (bad_architecture paragraph.now ∷ has_own_field sidecar_own paragraph.now ∷ []) ≡ Some e) }
{
    check_architecture(paragraph)?;
    check_own(paragraph, &OWN)
}

/// The sidecar that a paragraph is, of this version.
fn sidecar_of(
    alloc: Global,
    paragraph: &Paragraph<'_>,
    source: &str,
    version: Version,
) -> Result<Sidecar, AllocError>
    requires source { source.now ≡ first_of_words (sidecar_source paragraph.now) }
    requires version { version ≡ value FieldName.Version paragraph.now }
    ensures { IfOk result (λ s. s ≡ sidecar_in_fields paragraph.now) }
{
    Ok(Sidecar {
        package: Text::new(alloc, value_of(paragraph, FieldName::Package))?,
        version,
        architecture: Text::new(alloc, value_of(paragraph, FieldName::Architecture))?,
        source: Text::new(alloc, source)?,
    })
}

/// The sidecar that a paragraph is.
fn sidecar_from(alloc: Global, paragraph: &Paragraph<'_>) -> Result<Sidecar, RecordFault>
    ensures only { IfOk result (λ _. sidecar_fault paragraph.now ≡ None) }
    ensures read { IfOk result (λ s. s ≡ sidecar_in_fields paragraph.now) }
    ensures refused { IfErr result
        (λ e. (e ≡ RecordFault.OutOfMemory) ⊎ (sidecar_fault paragraph.now ≡ Some e)) }
{
    check_front(paragraph)?;
    let source = source_name(alloc, paragraph)?;
    let version = version_of(alloc, paragraph)?;
    check_rest(paragraph)?;
    Ok(sidecar_of(alloc, paragraph, source, version)?)
}

impl Sidecar {
    /// Reads a sidecar (Debian Policy 5.3): one paragraph of at most 65,536 bytes, with the fields Package, Version,
    /// Architecture, Maintainer and Description, of one architecture that is not `source`, and without Filename, Size,
    /// MD5sum, SHA1 and SHA256. If several faults apply, the answer is the one of lowest number.
    pub fn read(alloc: Global, text: &[u8]) -> Result<Sidecar, RecordFault>
        ensures read { IfOk result (λ s. sidecar_in text.now ≡ Ok s) }
        ensures refused { IfErr result
            (λ e. (e ≡ RecordFault.OutOfMemory) ⊎ (sidecar_in text.now ≡ Err e)) }
    {
        let paragraph = read_one(alloc, text, MOST_SIDECAR)?;
        sidecar_from(alloc, &paragraph)
    }

    /// The name of the binary package.
    pub fn package(&self) -> &str
        ensures { result.now ≡ self.now.name }
    {
        self.package.as_str()
    }

    /// The version of the binary package.
    pub fn version(&self) -> &Version
        ensures { result.now ≡ self.now.version }
    {
        &self.version
    }

    /// The architecture of the binary package.
    pub fn architecture(&self) -> &str
        ensures { result.now ≡ self.now.architecture }
    {
        self.architecture.as_str()
    }

    /// The name of the source package: that of the field Source, else the name of the binary package.
    pub fn source(&self) -> &str
        ensures { result.now ≡ self.now.source }
    {
        self.source.as_str()
    }
}
