//! Whether an item is the source that its .dsc describes.

ghost use Rattle.std.specs.Prelude.{◌≡◌, ◌↔◌, ◌∷◌, map, Ok, IfOk, IsTrue};
ghost use Rattle.records.specs.Records.{dsc_in};
ghost use Rattle.records.specs.Values.{DscValue};
ghost use Rattle.sums.specs.Prints.{print as print_in};
ghost use Rattle.suites.specs.Told.{IsSourceOf, listed_file, path_in};
ghost use Rattle.suites.specs.Verdict.{dsc_file};
ghost use Rattle.tables_audit.specs.Columns.{has_source_columns};

use crate::as_recorded::paths::path_of;
use para::Text;
use records::{Dsc, RecordFault};
use std::alloc::{AllocError, Global};
use suites::{Item, PoolFile, are_same_files, dsc_name};
use sums::{Entry, print_of};

/// Whether an item has the package, the source, the architecture and the version of a .dsc.
#[tactic(auto, unfolding(crate::specs::Columns::has_source_columns))]
fn has_columns(item: &Item, dsc: &Dsc) -> bool
    ensures { result ≡ has_source_columns item.now dsc.now }
{
    let same_package = item.package.as_str() == dsc.source();
    let same_source = item.source.as_str() == dsc.source();
    let is_source = item.architecture.as_str() == "source";
    let same_version = item.version.text() == dsc.version().text();
    same_package && same_source && is_source && same_version
}

/// The .dsc itself, as a file at its path in the pool.
fn dsc_of(alloc: Global, item: &Item, dsc: &Dsc) -> Result<PoolFile, AllocError>
    ensures { IfOk result (λ file. file ≡ record { path = path_in item.now (dsc_file dsc.now); print = print_in item.now.paragraph }) }
{
    let name = dsc_name(alloc, dsc)?;
    let path = path_of(alloc, item, name.as_str())?;
    Ok(PoolFile {
        path: Text::from_string(path),
        print: print_of(item.paragraph.as_str().as_bytes()),
    })
}

/// A file that a .dsc lists, at its path in the pool.
fn listed(alloc: Global, item: &Item, entry: &Entry) -> Result<PoolFile, AllocError>
    ensures { IfOk result (λ file. file ≡ listed_file item.now entry.now) }
{
    let path = path_of(alloc, item, entry.name.as_str())?;
    Ok(PoolFile {
        path: Text::from_string(path),
        print: entry.print,
    })
}

/// The files that an item has by its .dsc: the .dsc itself, and all that it lists.
fn files_of(alloc: Global, item: &Item, dsc: &Dsc) -> Result<Vec<PoolFile>, AllocError>
    ensures { IfOk result (λ files. files.items ≡ record { path = path_in item.now (dsc_file dsc.now); print = print_in item.now.paragraph } ∷ map (listed_file item.now) dsc.now.entries) }
{
    let mut files = Vec::new(alloc);
    files.push(dsc_of(alloc, item, dsc)?)?;
    for entry in dsc.entries() {
        files.push(listed(alloc, item, entry)?)?;
    }
    Ok(files)
}

/// Whether an item is the source of the .dsc that its paragraph is.
fn is_source_of(alloc: Global, item: &Item, dsc: &Dsc) -> Result<bool, AllocError>
    requires { dsc_in item.now.paragraph ≡ Ok dsc.now }
    ensures { IfOk result (λ is. IsTrue is ↔ IsSourceOf item.now dsc.now) }
{
    if !has_columns(item, dsc) {
        return Ok(false);
    }
    let files = files_of(alloc, item, dsc)?;
    Ok(are_same_files(item.files.as_slice(), &files))
}

/// Whether an item is the source that its paragraph describes.
pub fn is_source(alloc: Global, item: &Item) -> Result<bool, AllocError>
    ensures { IfOk result (λ is. IsTrue is ↔ (d : DscValue) × IsSourceOf item.now d) }
{
    match Dsc::read(alloc, item.paragraph.as_str().as_bytes()) {
        Ok(dsc) => is_source_of(alloc, item, &dsc),
        Err(RecordFault::OutOfMemory) => Err(AllocError),
        Err(_) => Ok(false),
    }
}
