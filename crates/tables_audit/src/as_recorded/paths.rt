//! The paths in the pool of the files of an item.

ghost use Rattle.std.specs.Prelude.{◌≡◌, IfOk, string_bytes};
ghost use Rattle.suites.specs.Told.{path_in};

use std::alloc::{AllocError, Global};
use suites::{Item, directory};

/// The path of a file of an item in the pool.
pub fn path_of(alloc: Global, item: &Item, name: &str) -> Result<String, AllocError>
    ensures { IfOk result (λ path. string_bytes path ≡ path_in item.now name.now) }
{
    let directory = directory(alloc, item.component.as_str(), item.source.as_str())?;
    format!(in alloc; "{directory}/{name}")
}
