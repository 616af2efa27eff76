//! Whether all that suites show is as its records say.
//!
//! Items have to be as their records say: that is part of what the rows of an archive are. So a change has to keep it (`told` of
//! `IsSound`), and an opening reads each paragraph as a .dsc or a sidecar again.

mod binary;
mod paths;
mod source;

ghost use Rattle.std.specs.Prelude.{◌≡◌, ◌↔◌, IfOk, IsTrue};
ghost use Rattle.suites.specs.Told.{AreTold, IsTold};
ghost use Rattle.tables_audit.specs.Columns.{StandsTold};

use crate::as_recorded::binary::is_binary;
use crate::as_recorded::source::is_source;
use rules::{Config, Suite};
use std::alloc::{AllocError, Global};
use suites::{Item, Kind, ShelfKey, Shelves, is_kept_by};

/// Whether an item is as its paragraph says.
fn is_told(alloc: Global, item: &Item) -> Result<bool, AllocError>
    ensures { IfOk result (λ told. IsTrue told ↔ IsTold item.now) }
{
    match item.kind {
        Kind::Source => is_source(alloc, item),
        Kind::Binary => is_binary(alloc, item),
    }
}

/// Whether an item is as its paragraph says, on a shelf of a suite that keeps it.
fn stands_told(
    alloc: Global,
    suites: &[Suite],
    key: &ShelfKey,
    item: &Item,
) -> Result<bool, AllocError>
    ensures { IfOk result (λ told. IsTrue told ↔ StandsTold suites.now (key.now, item.now)) }
{
    if !is_kept_by(suites, key, item) {
        return Ok(false);
    }
    is_told(alloc, item)
}

/// Whether each item that the suites of a configuration show is as its paragraph says, and the suite in which it stands keeps
/// its component and its architecture. A source has the columns of the .dsc (Debian Policy 5.4) that its paragraph is, and as
/// its files the .dsc and all that it lists. A package has the columns of its sidecar (5.3), and as its file the package
/// file.
pub fn are_told(alloc: Global, config: &Config, shelves: &Shelves) -> Result<bool, AllocError>
    ensures { IfOk result (λ told. IsTrue told ↔ AreTold config.now.suites shelves.now) }
{
    for (key, item) in shelves.items() {
        if !stands_told(alloc, config.suites(), key, item)? {
            return Ok(false);
        }
    }
    Ok(true)
}
