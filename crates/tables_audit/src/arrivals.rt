//! What has arrived: whether each arrival is one that may be kept.

ghost use Rattle.std.specs.Prelude.{◌≡◌, ◌↔◌, ◌≤◌, All, true, Ok, IsTrue, IfOk, length};
ghost use Rattle.sums.specs.FileNames.{is_changes_name};
ghost use Rattle.sums.specs.Lines.{greatest_size};
ghost use Rattle.book.specs.Keeping.{IsDeliverable};
ghost use Rattle.records.specs.Records.{changes_in};
ghost use Rattle.records.specs.Values.{ChangesValue};
ghost use Rattle.tables_read.specs.All.{tables_with};
ghost use Rattle.tables_meaning.specs.Kept.{bytes_of};
ghost use Rattle.tables_audit.specs.Arrivals.{IsArrivalFit};
ghost use Rattle.tables_audit.specs.Parts.{ArrivalsFit};

use crate::bodies::{bytes_of, size_of};
use crate::pieces::Pieces;
use book::LATEST;
use records::{Changes, RecordFault};
use std::alloc::{AllocError, Global};
use sums::{GREATEST_SIZE, is_changes_name, is_file_name};
use tables::rows::ArrivalRow;
use tables_read::AllRows;

/// Whether a text is the record of an upload.
fn is_record(alloc: Global, text: &[u8]) -> Result<bool, AllocError>
    ensures { IfOk result (λ is. IsTrue is ↔ (c : ChangesValue) × changes_in text.now ≡ Ok c) }
{
    match Changes::read(alloc, text) {
        Ok(_) => Ok(true),
        Err(RecordFault::OutOfMemory) => Err(AllocError),
        Err(_) => Ok(false),
    }
}

/// Whether a body has no more bytes than an arrival may have in any archive. What came before the limit was lowered stays.
fn is_small(pieces: &Pieces<'_>, id: u64) -> bool
    ensures { IsTrue result ↔ (length (bytes_of (tables_with pieces.now.all.now) id) ≤ greatest_size) }
{
    size_of(pieces, id) as u64 <= GREATEST_SIZE
}

/// Whether a body is the record of an upload. Only a body whose name is that of a .changes has to be one.
fn is_record_if_named(
    alloc: Global,
    pieces: &Pieces<'_>,
    name: &str,
    id: u64,
) -> Result<bool, AllocError>
    ensures { IfOk result (λ is. IsTrue is
        ↔ (is_changes_name name.now ≡ true → (c : ChangesValue) × changes_in (bytes_of (tables_with pieces.now.all.now) id) ≡ Ok c)) }
{
    // Only the bytes of a .changes are needed in one list.
    if !is_changes_name(name) {
        return Ok(true);
    }
    let body = bytes_of(alloc, pieces, id)?;
    is_record(alloc, &body)
}

/// Whether a body that arrives under this name may be kept.
fn is_deliverable(
    alloc: Global,
    pieces: &Pieces<'_>,
    name: &str,
    id: u64,
) -> Result<bool, AllocError>
    ensures { IfOk result (λ may. IsTrue may ↔ IsDeliverable name.now (bytes_of (tables_with pieces.now.all.now) id)) }
{
    if !is_file_name(name) {
        return Ok(false);
    }
    if !is_small(pieces, id) {
        return Ok(false);
    }
    is_record_if_named(alloc, pieces, name, id)
}

/// Whether the arrival is one that may be kept.
fn is_arrival_deliverable(
    alloc: Global,
    pieces: &Pieces<'_>,
    arrival: &ArrivalRow,
) -> Result<bool, AllocError>
    ensures { IfOk result (λ may. IsTrue may ↔ IsArrivalFit (tables_with pieces.now.all.now) arrival.now) }
{
    if arrival.moment > LATEST {
        return Ok(false);
    }
    is_deliverable(alloc, pieces, arrival.name.as_str(), arrival.body)
}

/// Whether each of these arrivals is one that may be kept.
fn are_deliverable(
    alloc: Global,
    pieces: &Pieces<'_>,
    rows: &[(u64, ArrivalRow)],
) -> Result<bool, AllocError>
    ensures { IfOk result (λ may. IsTrue may ↔ All (λ x. IsArrivalFit (tables_with pieces.now.all.now) x.1) rows.now) }
{
    for row in rows {
        if !is_arrival_deliverable(alloc, pieces, &row.1)? {
            return Ok(false);
        }
    }
    Ok(true)
}

/// Whether each arrival is one that may be kept.
pub fn are_arrivals_deliverable(alloc: Global, all: &AllRows) -> Result<bool, AllocError>
    ensures { IfOk result (λ may. IsTrue may ↔ ArrivalsFit (tables_with all.now)) }
{
    are_deliverable(alloc, &Pieces::new(all), &all.arrivals)
}
