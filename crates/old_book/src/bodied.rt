//! Whether what arrived, and each file of the pool, has a body.
//!
//! In an older layout an arrival or a file may name a body that is not whole, and the query of the layout passes such a
//! body over.

ghost use Rattle.std.specs.Prelude.{◌≡◌, ◌&&◌, IfOk, map, nat_eq};
ghost use Rattle.std.specs.List.{list_all, list_any};
ghost use Rattle.tables_read.specs.All.{tables_with};
ghost use Rattle.old_book.specs.Bodied.{have_bodies};

use crate::numbers::{Numbers, in_order};
use std::alloc::{AllocError, Global};
use tables::rows::{ArrivalRow, BodyRow, File};
use tables_read::AllRows;

/// The numbers of the bodies, in the order of their rows.
fn numbers_of(alloc: Global, bodies: &[(u64, BodyRow)]) -> Result<Vec<u64>, AllocError>
    ensures { IfOk result (λ ids. ids.items ≡ map (λ x. x.0) bodies.now) }
{
    let mut ids = Vec::new(alloc);
    for row in bodies {
        ids.push(row.0)?;
    }
    Ok(ids)
}

/// Whether the body of each arrival has one of these numbers.
fn have_arrivals(ids: &Numbers, arrivals: &[(u64, ArrivalRow)]) -> bool
    ensures { result ≡ list_all (λ x. list_any (λ n. nat_eq n x.1.body) ids.now.rising.items) arrivals.now }
{
    arrivals.iter().all(|row| ids.contain(row.1.body))
}

/// Whether the body of each file of the pool has one of these numbers.
fn have_files(ids: &Numbers, files: &[(u64, File)]) -> bool
    ensures { result ≡ list_all (λ x. list_any (λ n. nat_eq n x.1.body) ids.now.rising.items) files.now }
{
    files.iter().all(|row| ids.contain(row.1.body))
}

/// Whether both hold.
fn both(one: bool, other: bool) -> bool
    ensures { result ≡ (one && other) }
{
    one && other
}

/// Whether each arrival and each file of the pool has a body.
pub fn have_bodies(alloc: Global, all: &AllRows) -> Result<bool, AllocError>
    ensures { IfOk result (λ have. have ≡ have_bodies (tables_with all.now)) }
{
    let ids = in_order(numbers_of(alloc, &all.bodies)?);
    let arrivals = have_arrivals(&ids, &all.arrivals);
    let files = have_files(&ids, &all.files);
    Ok(both(arrivals, files))
}
