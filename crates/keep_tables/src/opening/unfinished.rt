//! Bodies that are not whole, among the rows.

ghost use Rattle.std.specs.Prelude.{◌≡◌, is_some, IfOk};
ghost use Rattle.std.specs.List.{list_any};
ghost use Rattle.tables.specs.Rows.{rows_of, without};
ghost use Rattle.tables_read.specs.All.{tables_with};
ghost use Rattle.tables_meaning.specs.Finished.{finished, is_unfinished};
ghost use Rattle.keep_tables.specs.Finishing.{are_named, is_among, unfinished_ids};

use std::alloc::{AllocError, Global};
use tables::rows::{ArrivalRow, BodyRow, File, Piece};
use tables_read::AllRows;

/// The numbers of the bodies that have no print.
pub fn unfinished_among(alloc: Global, bodies: &[(u64, BodyRow)]) -> Result<Vec<u64>, AllocError>
    ensures { IfOk result (λ ids. ids.items ≡ unfinished_ids bodies.now) }
{
    let mut ids = Vec::new(alloc);
    for row in bodies {
        if row.1.print.is_none() {
            ids.push(row.0)?;
        }
    }
    Ok(ids)
}

/// Whether a number is one of these.
fn is_among(ids: &[u64], id: u64) -> bool
    ensures { result ≡ is_among ids.now id }
{
    for one in ids {
        if id == *one {
            return true;
        }
    }
    false
}

/// Whether some arrival is one of these bodies.
fn arrivals_name(arrivals: &[(u64, ArrivalRow)], ids: &[u64]) -> bool
    ensures { result ≡ list_any (λ a. is_among ids.now a.body) (rows_of arrivals.now) }
{
    for row in arrivals {
        if is_among(ids, row.1.body) {
            return true;
        }
    }
    false
}

/// Whether some file of the pool is one of these bodies.
fn files_name(files: &[(u64, File)], ids: &[u64]) -> bool
    ensures { result ≡ list_any (λ f. is_among ids.now f.body) (rows_of files.now) }
{
    for row in files {
        if is_among(ids, row.1.body) {
            return true;
        }
    }
    false
}

/// Whether an arrival or a file is one of these bodies.
pub fn are_named(all: &AllRows, ids: &[u64]) -> bool
    ensures { result ≡ are_named (tables_with all.now) ids.now }
{
    let arrived = arrivals_name(&all.arrivals, ids);
    let filed = files_name(&all.files, ids);
    arrived || filed
}

/// Takes out the bodies that have no print.
fn retain_whole(bodies: &mut Vec<(u64, BodyRow)>)
    ensures { bodies.new.items ≡ without is_unfinished bodies.old.items }
{
    bodies.retain(|row| row.1.print.is_some());
}

/// Takes out the pieces of these bodies.
fn retain_others(pieces: &mut Vec<(u64, Piece)>, ids: &[u64])
    ensures { pieces.new.items ≡ without (λ p. is_among ids.now p.1.body) pieces.old.items }
{
    pieces.retain(|row| !is_among(ids, row.1.body));
}

/// The rows without the bodies that have no print, whose numbers these are, and without their pieces.
pub fn finished_rows(mut all: AllRows, ids: &[u64]) -> AllRows
    requires { ids.now ≡ unfinished_ids (tables_with all).bodies }
    ensures { tables_with result ≡ finished (tables_with all) }
{
    retain_whole(&mut all.bodies);
    retain_others(&mut all.pieces, ids);
    all
}
