//! What the verdicts 6 to 8 are about: what the .dsc and the sidecars of an upload say, each as it is read.

ghost use Rattle.std.specs.Prelude.{◌≡◌, Ok, IfOk, option_map};
ghost use Rattle.records.specs.Records.{dsc_in, dsc_within, sidecar_in};
ghost use Rattle.suites.specs.Upload.{dsc_parts, sidecar_parts};
ghost use Rattle.reasons.specs.Named.{twins};
ghost use Rattle.reasons.specs.Reasons.{bad_among, dsc_among, missing_among, named_dsc, named_missing, named_sidecar, of_twins, sidecar_among, sidecars_of};

use crate::about::Named;
use crate::differences::{dsc_difference, own_name, sidecar_difference};
use crate::found::missing_file;
use crate::naming::in_pool;
use crate::sidecars::twins;
use para::Text;
use records::{Changes, Dsc, RecordFault, Sidecar};
use std::alloc::{AllocError, Global};
use suites::{Shelves, Upload};
use sums::{Entry, GREATEST_SIZE};

/// The .dsc of files of at most `most` bytes that a text is, or its fault.
fn dsc_within(alloc: Global, text: &[u8], most: u64) -> Result<Result<Dsc, RecordFault>, AllocError>
    ensures { IfOk result (λ read. read ≡ dsc_within most text.now) }
{
    match Dsc::read_within(alloc, text, most) {
        Ok(dsc) => Ok(Ok(dsc)),
        Err(RecordFault::OutOfMemory) => Err(AllocError),
        Err(fault) => Ok(Err(fault)),
    }
}

/// The sidecar that a text is, or its fault.
fn sidecar_in(alloc: Global, text: &[u8]) -> Result<Result<Sidecar, RecordFault>, AllocError>
    ensures { IfOk result (λ read. read ≡ sidecar_in text.now) }
{
    match Sidecar::read(alloc, text) {
        Ok(sidecar) => Ok(Ok(sidecar)),
        Err(RecordFault::OutOfMemory) => Err(AllocError),
        Err(fault) => Ok(Err(fault)),
    }
}

/// Verdict 6: what is wrong with a .dsc of this text, which may list files of at most `most` bytes.
fn of_dsc(
    alloc: Global,
    changes: &Changes,
    entry: &Entry,
    text: &[u8],
    most: u64,
) -> Result<Option<Named>, AllocError>
    ensures { IfOk result (λ found. found ≡ named_dsc changes.now entry.now.name (dsc_within most text.now)) }
{
    let file = entry.name.try_clone()?;
    let dsc = match dsc_within(alloc, text, most)? {
        Ok(dsc) => dsc,
        Err(fault) => return Ok(Some(Named::UnreadDsc { file, fault })),
    };
    match dsc_difference(alloc, changes, entry.name.as_str(), &dsc)? {
        Some(difference) => Ok(Some(Named::Dsc { file, difference })),
        None => Ok(None),
    }
}

/// Verdict 6: a .dsc of the upload, which may list files of at most `most` bytes.
pub fn bad_dsc(alloc: Global, upload: &Upload, most: u64) -> Result<Option<Named>, AllocError>
    ensures { IfOk result (λ found. found ≡ dsc_among most upload.now.changes (dsc_parts upload.now)) }
{
    let parts = upload.parts(alloc, ".dsc")?;
    for part in &parts {
        if let Some(named) = of_dsc(alloc, upload.changes(), part.entry, part.text, most)? {
            return Ok(Some(named));
        }
    }
    Ok(None)
}

/// Verdict 7: what is wrong with a sidecar of this text by itself.
fn of_sidecar(
    alloc: Global,
    changes: &Changes,
    entry: &Entry,
    text: &[u8],
) -> Result<Option<Named>, AllocError>
    ensures { IfOk result (λ found. found ≡ named_sidecar changes.now entry.now.name (sidecar_in text.now)) }
{
    let file = entry.name.try_clone()?;
    let sidecar = match sidecar_in(alloc, text)? {
        Ok(sidecar) => sidecar,
        Err(fault) => return Ok(Some(Named::UnreadSidecar { file, fault })),
    };
    match sidecar_difference(alloc, changes, entry.name.as_str(), &sidecar)? {
        Some(difference) => Ok(Some(Named::Sidecar { file, difference })),
        None => Ok(None),
    }
}

/// Verdict 7: a sidecar of the upload that is wrong by itself.
fn wrong_sidecar(alloc: Global, upload: &Upload) -> Result<Option<Named>, AllocError>
    ensures { IfOk result (λ found. found ≡ sidecar_among upload.now.changes (sidecar_parts upload.now)) }
{
    let parts = upload.parts(alloc, ".control")?;
    for part in &parts {
        if let Some(named) = of_sidecar(alloc, upload.changes(), part.entry, part.text)? {
            return Ok(Some(named));
        }
    }
    Ok(None)
}

/// The sidecars of an upload that are read.
fn sidecars_of(alloc: Global, upload: &Upload) -> Result<Vec<Sidecar>, AllocError>
    ensures { IfOk result (λ sidecars. sidecars.items ≡ sidecars_of (sidecar_parts upload.now)) }
{
    let parts = upload.parts(alloc, ".control")?;
    let mut sidecars = Vec::new(alloc);
    for part in &parts {
        if let Ok(sidecar) = sidecar_in(alloc, part.text)? {
            sidecars.push(sidecar)?;
        }
    }
    Ok(sidecars)
}

/// The finding that two sidecars are of the same package and architecture, with the names that they have by their own fields.
fn of_twins(alloc: Global, first: &Sidecar, second: &Sidecar) -> Result<Named, AllocError>
    ensures { IfOk result (λ named. named ≡ of_twins (first.now, second.now)) }
{
    let package = Text::new(alloc, first.package())?;
    let architecture = Text::new(alloc, first.architecture())?;
    let first = own_name(alloc, first)?;
    let second = own_name(alloc, second)?;
    Ok(Named::Twins {
        package,
        architecture,
        first,
        second,
    })
}

/// Verdict 7: two of these sidecars that are of the same package and architecture.
fn twins_among(alloc: Global, sidecars: &[Sidecar]) -> Result<Option<Named>, AllocError>
    ensures { IfOk result (λ found. found ≡ option_map of_twins (twins sidecars.now)) }
{
    match twins(sidecars) {
        Some((first, second)) => Ok(Some(of_twins(alloc, first, second)?)),
        None => Ok(None),
    }
}

/// Verdict 7: a sidecar of the upload that is wrong by itself, else two of the same package and architecture.
pub fn bad_sidecar(alloc: Global, upload: &Upload) -> Result<Option<Named>, AllocError>
    ensures { IfOk result (λ found. found ≡ bad_among upload.now.changes (sidecar_parts upload.now)) }
{
    if let Some(named) = wrong_sidecar(alloc, upload)? {
        return Ok(Some(named));
    }
    let sidecars = sidecars_of(alloc, upload)?;
    twins_among(alloc, &sidecars)
}

/// Verdict 8: a file of a .dsc of this text.
fn missing_of(
    alloc: Global,
    shelves: &Shelves,
    changes: &Changes,
    entry: &Entry,
    text: &[u8],
) -> Result<Option<Named>, AllocError>
    ensures { IfOk result (λ found. found ≡ named_missing shelves.now changes.now entry.now.name (dsc_in text.now)) }
{
    let dsc = match dsc_within(alloc, text, GREATEST_SIZE)? {
        Ok(dsc) => dsc,
        Err(fault) => {
            return Ok(Some(Named::UnreadDsc {
                file: entry.name.try_clone()?,
                fault,
            }));
        }
    };
    match missing_file(alloc, shelves, changes, &dsc)? {
        Some(missing) => Ok(Some(in_pool(alloc, shelves, changes, missing)?)),
        None => Ok(None),
    }
}

/// Verdict 8: a file of a .dsc of the upload.
pub fn missing(
    alloc: Global,
    shelves: &Shelves,
    upload: &Upload,
) -> Result<Option<Named>, AllocError>
    ensures { IfOk result (λ found. found ≡ missing_among shelves.now upload.now.changes (dsc_parts upload.now)) }
{
    let parts = upload.parts(alloc, ".dsc")?;
    for part in &parts {
        if let Some(named) = missing_of(alloc, shelves, upload.changes(), part.entry, part.text)? {
            return Ok(Some(named));
        }
    }
    Ok(None)
}
