//! Whether an item is the package that its sidecar describes.

ghost use Rattle.std.specs.Prelude.{◌≡◌, ◌↔◌, Ok, IfOk, IsTrue};
ghost use Rattle.records.specs.Records.{sidecar_in};
ghost use Rattle.records.specs.Values.{SidecarValue};
ghost use Rattle.suites.specs.Told.{IsBinaryOf};
ghost use Rattle.tables_audit.specs.Columns.{has_binary_columns, has_one_at};

use crate::as_recorded::paths::path_of;
use records::{RecordFault, Sidecar};
use std::alloc::{AllocError, Global};
use suites::{Item, PoolFile, deb_name};

/// Whether an item has the package, the source, the architecture and the version of a sidecar.
#[tactic(auto, unfolding(crate::specs::Columns::has_binary_columns))]
fn has_columns(item: &Item, sidecar: &Sidecar) -> bool
    ensures { result ≡ has_binary_columns item.now sidecar.now }
{
    let same_package = item.package.as_str() == sidecar.package();
    let same_source = item.source.as_str() == sidecar.source();
    let same_architecture = item.architecture.as_str() == sidecar.architecture();
    let same_version = item.version.text() == sidecar.version().text();
    same_package && same_source && same_architecture && same_version
}

/// Whether there is one file, at this path.
fn is_one_at(files: &[PoolFile], path: &str) -> bool
    ensures { result ≡ has_one_at path.now files.now }
{
    if files.len() != 1 {
        return false;
    }
    files[0].path.as_str() == path
}

/// Whether an item is the package of the sidecar that its paragraph is.
fn is_binary_of(alloc: Global, item: &Item, sidecar: &Sidecar) -> Result<bool, AllocError>
    requires { sidecar_in item.now.paragraph ≡ Ok sidecar.now }
    ensures { IfOk result (λ is. IsTrue is ↔ IsBinaryOf item.now sidecar.now) }
{
    if !has_columns(item, sidecar) {
        return Ok(false);
    }
    let name = deb_name(alloc, sidecar)?;
    let path = path_of(alloc, item, name.as_str())?;
    Ok(is_one_at(item.files.as_slice(), path.as_str()))
}

/// Whether an item is the package that its paragraph describes.
pub fn is_binary(alloc: Global, item: &Item) -> Result<bool, AllocError>
    ensures { IfOk result (λ is. IsTrue is ↔ (s : SidecarValue) × IsBinaryOf item.now s) }
{
    match Sidecar::read(alloc, item.paragraph.as_str().as_bytes()) {
        Ok(sidecar) => is_binary_of(alloc, item, &sidecar),
        Err(RecordFault::OutOfMemory) => Err(AllocError),
        Err(_) => Ok(false),
    }
}
