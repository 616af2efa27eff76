//! The verdict on an upload.

ghost use Rattle.std.specs.Prelude.{◌≡◌, true, false, ◌∷◌, [], map, IfOk, MatchOption, MatchResult};
ghost use Rattle.std.specs.FinMap.{get};
ghost use Rattle.std.specs.List.{list_any};
ghost use Rattle.std.specs.Option.{option_map_or};
ghost use Rattle.rules.specs.Judgement.{component as component_of_upload};
ghost use Rattle.rules.specs.Verdicts.{first_row};
ghost use Rattle.suites.specs.Judging.{IsJudged, IsSource, IsSourcePart, IsBinaryPart, AreBinaryParts, AreBinaries, is_bad_dsc, is_bad_sidecar, part_of};
ghost use Rattle.suites.specs.Shelves.{pool};
ghost use Rattle.suites.specs.Verdict.{by_print, path_of, has_bad_listing as has_bad_listing_of, has_bad_dsc, has_bad_sidecar, is_same_package as is_same, have_twins as twins, is_missing_file, is_taken as is_taken_by};

use crate::items::{BinaryPart, SourcePart};
use crate::listing::has_bad_listing;
use crate::paths::pool_path;
use crate::readings::{dsc_within, sidecar_in};
use crate::shelves::Shelves;
use crate::source::{differs_from_dsc, differs_from_sidecar, is_same_package};
use crate::upload::{Part, Upload, entry_named, has_suffix};
use records::Changes;
use rules::Verdict;
use std::alloc::{AllocError, Global};
use sums::{Entry, Print};

/// The records that an accepted upload has beside its .changes.
pub struct Parts<'a> {
    pub source: Option<SourcePart<'a>>,
    pub binaries: Vec<BinaryPart<'a>>,
}

// Written out, so that a caller does not prove again how each part is dropped.
impl<'a> Drop for Parts<'a> {
    fn drop(self) {
        let Parts {
            source: _,
            binaries: _,
        } = self;
    }
}

/// What judging an upload gives: its records, or the verdict by which it is refused.
#[derive(Drop)]
pub enum Judged<'a> {
    Accepted(Parts<'a>),
    Refused(Verdict),
}

/// The .dsc of the upload, if this part is the one that the .changes is about and lists files of at most `most` bytes.
fn source_part<'a>(
    alloc: Global,
    changes: &Changes,
    part: Part<'a>,
    most: u64,
) -> Result<Option<SourcePart<'a>>, AllocError>
    ensures { IfOk result (λ found. MatchOption found (is_bad_dsc most changes.now (part_of part.entry) ≡ true) (IsSourcePart most changes.now (part_of part.entry))) }
{
    let Some(dsc) = dsc_within(alloc, part.text, most)? else {
        return Ok(None);
    };
    if differs_from_dsc(alloc, changes, part.entry.name.as_str(), &dsc)? {
        return Ok(None);
    }
    Ok(Some(SourcePart { part, dsc }))
}

/// A sidecar of the upload, if this part is one that the .changes may have.
fn binary_part<'a>(
    alloc: Global,
    changes: &Changes,
    part: Part<'a>,
) -> Result<Option<BinaryPart<'a>>, AllocError>
    ensures { IfOk result (λ found. MatchOption found (is_bad_sidecar changes.now (part_of part.entry) ≡ true) (IsBinaryPart changes.now (part_of part.entry))) }
{
    let Some(sidecar) = sidecar_in(alloc, part.text)? else {
        return Ok(None);
    };
    if differs_from_sidecar(alloc, changes, part.entry.name.as_str(), &sidecar)? {
        return Ok(None);
    }
    Ok(Some(BinaryPart { part, sidecar }))
}

/// The sidecars that these parts are, or nothing if one of them is not a sidecar that the .changes may have.
fn binary_parts<'a>(
    alloc: Global,
    changes: &Changes,
    parts: &[Part<'a>],
) -> Result<Option<Vec<BinaryPart<'a>>>, AllocError>
    ensures { IfOk result (λ found. MatchOption found (list_any (is_bad_sidecar changes.now) (map part_of parts.now) ≡ true)
        (λ binaries. AreBinaryParts changes.now (map part_of parts.now) binaries.items)) }
{
    let mut binaries = Vec::new(alloc);
    for part in parts {
        match binary_part(alloc, changes, *part)? {
            Some(binary) => binaries.push(binary)?,
            None => return Ok(None),
        }
    }
    Ok(Some(binaries))
}

/// Whether one of the others has the same package and architecture.
fn has_twin(binary: &BinaryPart<'_>, others: &[BinaryPart<'_>]) -> bool
    ensures { result ≡ list_any (is_same binary.now.sidecar) (map (λ b. b.sidecar) others.now) }
{
    others
        .iter()
        .any(|other| is_same_package(&binary.sidecar, &other.sidecar))
}

/// Whether two of the sidecars have the same package and architecture.
fn have_twins(binaries: &[BinaryPart<'_>]) -> bool
    ensures { result ≡ twins (map (λ b. b.sidecar) binaries.now) }
{
    for (index, binary) in binaries.iter().enumerate() {
        if has_twin(binary, &binaries[index + 1..]) {
            return true;
        }
    }
    false
}

/// The .dsc of an upload with a good listing, if it has one; or the verdict by which that is refused, as it is if it lists
/// a file of more than `most` bytes.
fn source_of<'a>(
    alloc: Global,
    upload: &'a Upload,
    most: u64,
) -> Result<Result<Option<SourcePart<'a>>, Verdict>, AllocError>
    requires { has_bad_listing_of upload.now.changes ≡ false }
    ensures { IfOk result (λ found. MatchResult found (IsSource most upload.now)
        (λ v. (v ≡ Verdict.BadDsc) × (has_bad_dsc most upload.now ≡ true))) }
{
    let parts = upload.parts(alloc, ".dsc")?;
    match parts.first() {
        Some(part) => match source_part(alloc, upload.changes(), *part, most)? {
            Some(source) => Ok(Ok(Some(source))),
            None => Ok(Err(Verdict::BadDsc)),
        },
        None => Ok(Ok(None)),
    }
}

/// The sidecars of an upload, or the verdict by which one of them is refused.
fn binaries_of<'a>(
    alloc: Global,
    upload: &'a Upload,
) -> Result<Result<Vec<BinaryPart<'a>>, Verdict>, AllocError>
    ensures { IfOk result (λ found. MatchResult found (λ binaries. AreBinaries upload.now binaries.items)
        (λ v. (v ≡ Verdict.BadSidecar) × (has_bad_sidecar upload.now ≡ true))) }
{
    let parts = upload.parts(alloc, ".control")?;
    let Some(binaries) = binary_parts(alloc, upload.changes(), &parts)? else {
        return Ok(Err(Verdict::BadSidecar));
    };
    if have_twins(&binaries) {
        return Ok(Err(Verdict::BadSidecar));
    }
    Ok(Ok(binaries))
}

/// The print of what the pool holds at the path of an entry's file.
fn print_in_pool(
    alloc: Global,
    component: &str,
    shelves: &Shelves,
    changes: &Changes,
    entry: &Entry,
) -> Result<Option<Print>, AllocError>
    requires { component.now ≡ component_of_upload changes.now }
    ensures { IfOk result (λ found. found ≡ get (pool shelves.now) (path_of changes.now entry.now)) }
{
    let path = pool_path(alloc, component, changes.source(), entry.name.as_str())?;
    Ok(shelves.file(path.as_str()))
}

/// Whether a file that the .dsc lists is neither in the .changes nor in the pool, at its path with that print.
#[tactic(auto, unfolding(crate::specs::Verdict::is_missing_file))]
pub fn is_missing(
    alloc: Global,
    component: &str,
    shelves: &Shelves,
    changes: &Changes,
    entry: &Entry,
) -> Result<bool, AllocError>
    requires { component.now ≡ component_of_upload changes.now }
    ensures { IfOk result (λ missing. missing ≡ is_missing_file by_print (pool shelves.now) changes.now entry.now) }
{
    if entry_named(changes.entries(), entry.name.as_str()).is_some() {
        return Ok(false);
    }
    match print_in_pool(alloc, component, shelves, changes, entry)? {
        Some(print) => Ok(print != entry.print),
        None => Ok(true),
    }
}

/// Whether some of these files of the .dsc is missing.
fn lacks_a_file(
    alloc: Global,
    component: &str,
    shelves: &Shelves,
    changes: &Changes,
    listed: &[Entry],
) -> Result<bool, AllocError>
    requires { component.now ≡ component_of_upload changes.now }
    ensures { IfOk result (λ lacks. lacks ≡ list_any (is_missing_file by_print (pool shelves.now) changes.now) listed.now) }
{
    for entry in listed {
        if is_missing(alloc, component, shelves, changes, entry)? {
            return Ok(true);
        }
    }
    Ok(false)
}

/// Whether the pool holds other contents at the path of the entry's file.
#[tactic(auto, unfolding(crate::specs::Verdict::is_taken))]
pub fn is_taken(
    alloc: Global,
    component: &str,
    shelves: &Shelves,
    changes: &Changes,
    entry: &Entry,
) -> Result<bool, AllocError>
    requires { component.now ≡ component_of_upload changes.now }
    ensures { IfOk result (λ taken. taken ≡ is_taken_by by_print (pool shelves.now) changes.now entry.now) }
{
    if has_suffix(entry.name.as_str(), ".control") {
        return Ok(false);
    }
    match print_in_pool(alloc, component, shelves, changes, entry)? {
        Some(print) => Ok(print != entry.print),
        None => Ok(false),
    }
}

/// Whether the pool holds other contents at the path of some of these entries.
fn some_path_is_taken(
    alloc: Global,
    component: &str,
    shelves: &Shelves,
    changes: &Changes,
    entries: &[Entry],
) -> Result<bool, AllocError>
    requires { component.now ≡ component_of_upload changes.now }
    ensures { IfOk result (λ taken. taken ≡ list_any (is_taken_by by_print (pool shelves.now) changes.now) entries.now) }
{
    for entry in entries {
        if is_taken(alloc, component, shelves, changes, entry)? {
            return Ok(true);
        }
    }
    Ok(false)
}

/// The verdict that follows from the pool, for an upload to the component: a source file is nowhere, or a path
/// holds other contents.
fn pool_verdict(
    alloc: Global,
    component: &str,
    shelves: &Shelves,
    changes: &Changes,
    source: &Option<SourcePart<'_>>,
) -> Result<Verdict, AllocError>
    requires { component.now ≡ component_of_upload changes.now }
    ensures { IfOk result (λ verdict. verdict ≡ first_row (
        (option_map_or (λ s. list_any (is_missing_file by_print (pool shelves.now) changes.now) s.dsc.entries) source.now false, Verdict.NotInPool)
        ∷ (list_any (is_taken_by by_print (pool shelves.now) changes.now) changes.now.entries, Verdict.OtherContents)
        ∷ [])) }
{
    if let Some(source) = source {
        if lacks_a_file(alloc, component, shelves, changes, source.dsc.entries())? {
            return Ok(Verdict::NotInPool);
        }
    }
    if some_path_is_taken(alloc, component, shelves, changes, changes.entries())? {
        return Ok(Verdict::OtherContents);
    }
    Ok(Verdict::Accepted)
}

/// The records of an upload that is for the component, or the lowest verdict from 5 to 9 by which it is refused. Its .dsc
/// may list files of at most `most` bytes.
pub fn judge_parts<'a>(
    alloc: Global,
    component: &str,
    shelves: &Shelves,
    upload: &'a Upload,
    most: u64,
) -> Result<Judged<'a>, AllocError>
    requires { component.now ≡ component_of_upload upload.now.changes }
    ensures { IfOk result (IsJudged most shelves.now upload.now) }
{
    let changes = upload.changes();
    if has_bad_listing(changes) {
        return Ok(Judged::Refused(Verdict::BadListing));
    }
    let source = match source_of(alloc, upload, most)? {
        Ok(source) => source,
        Err(verdict) => return Ok(Judged::Refused(verdict)),
    };
    let binaries = match binaries_of(alloc, upload)? {
        Ok(binaries) => binaries,
        Err(verdict) => return Ok(Judged::Refused(verdict)),
    };
    match pool_verdict(alloc, component, shelves, changes, &source)? {
        Verdict::Accepted => Ok(Judged::Accepted(Parts { source, binaries })),
        refused => Ok(Judged::Refused(refused)),
    }
}
