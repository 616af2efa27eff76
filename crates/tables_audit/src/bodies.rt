//! The bodies of an archive and their pieces.
//!
//! A body has to be that of an arrival, or that of a file of the pool.

ghost use Rattle.std.specs.Prelude.{◌≡◌, ◌↔◌, ◌≤◌, ℕ, All, filter, length, map, min, IsTrue, IfOk};
ghost use Rattle.tables.specs.Pieces.{is_of};
ghost use Rattle.tables.specs.Rows.{rows_of};
ghost use Rattle.tables_read.specs.All.{tables_with};
ghost use Rattle.tables_meaning.specs.Kept.{bytes_of};
ghost use Rattle.tables_audit.specs.Bodies.{ArePieces, AreUsed, IsBodyFit, IsNext, bytes_in};
ghost use Rattle.tables_audit.specs.Parts.{BodiesFit};

use crate::pieces::Pieces;
use book::PIECE_SIZE;
use std::alloc::{AllocError, Global};
use sums::{Print, Printer};
use tables::rows::{ArrivalRow, BodyRow, File, Piece};
use tables_meaning::is_among;
use tables_read::AllRows;

/// How many bytes the pieces of a body have, or the most that can be counted.
fn count_of_bytes(pieces: &[(u64, Piece)], id: u64) -> usize
    ensures { result ≡ min (length (bytes_in (filter (is_of id) (rows_of pieces.now)))) 18_446_744_073_709_551_615 }
{
    let mut count = 0usize;
    for row in pieces {
        if row.1.body == id {
            count = count.saturating_add(row.1.bytes.as_slice().len());
        }
    }
    count
}

/// How many bytes a body has, or the most that can be counted.
pub fn size_of(pieces: &Pieces<'_>, id: u64) -> usize
    ensures { result ≡ min (length (bytes_of (tables_with pieces.now.all.now) id)) 18_446_744_073_709_551_615 }
{
    count_of_bytes(pieces.about(id), id)
}

/// The bytes of these pieces, one after another. `size` is their number.
fn joined(alloc: Global, pieces: &[&Piece], size: usize) -> Result<Vec<u8>, AllocError>
    ensures { IfOk result (λ bytes. bytes.items ≡ bytes_in (map (λ p. p.now) pieces.now)) }
{
    let mut bytes = Vec::with_capacity(alloc, size)?;
    for piece in pieces {
        bytes.extend_from_slice(piece.bytes.as_slice())?;
    }
    Ok(bytes)
}

/// The bytes of a body.
#[tactic(auto, unfolding(tables_meaning::specs::Kept::bytes_of))]
pub fn bytes_of(alloc: Global, pieces: &Pieces<'_>, id: u64) -> Result<Vec<u8>, AllocError>
    ensures { IfOk result (λ bytes. bytes.items ≡ bytes_of (tables_with pieces.now.all.now) id) }
{
    let found = pieces.pieces_of(alloc, id)?;
    joined(alloc, &found, size_of(pieces, id))
}

/// Whether the piece is the next one of a body of `whole` bytes, after the first `size` of them.
fn is_next(piece: &Piece, size: u64, whole: u64) -> bool
    requires { size ≤ whole }
    ensures { IsTrue result ↔ IsNext size whole piece.now }
{
    if size == whole {
        return false;
    }
    if piece.number != size / PIECE_SIZE as u64 + 1 {
        return false;
    }
    let left = whole - size;
    piece.bytes.as_slice().len() as u64 == left.min(PIECE_SIZE as u64)
}

/// Whether these pieces of a body are those of its bytes, and this is the print of these bytes. They are read one by one and never
/// joined.
fn are_pieces_of(pieces: &[&Piece], print: &Print) -> bool
    ensures { (id : ℕ) → All (λ p. p.body ≡ id) (map (λ p. p.now) pieces.now) → (IsTrue result ↔ ArePieces id print.now (map (λ p. p.now) pieces.now)) }
{
    let mut printer = Printer::new();
    let mut size = 0;
    for piece in pieces {
        if !is_next(piece, size, print.size) {
            return false;
        }
        let bytes = piece.bytes.as_slice();
        size += bytes.len() as u64;
        printer.update(bytes);
    }
    *print == printer.finish()
}

/// The numbers of the bodies of the arrivals.
fn bodies_of(alloc: Global, arrivals: &[(u64, ArrivalRow)]) -> Result<Vec<u64>, AllocError>
    ensures { IfOk result (λ numbers. numbers.items ≡ map (λ a. a.body) (rows_of arrivals.now)) }
{
    let mut numbers = Vec::new(alloc);
    for row in arrivals {
        numbers.push(row.1.body)?;
    }
    Ok(numbers)
}

/// The numbers of the bodies of the files.
fn bodies_of_files(alloc: Global, files: &[(u64, File)]) -> Result<Vec<u64>, AllocError>
    ensures { IfOk result (λ numbers. numbers.items ≡ map (λ f. f.body) (rows_of files.now)) }
{
    let mut numbers = Vec::new(alloc);
    for row in files {
        numbers.push(row.1.body)?;
    }
    Ok(numbers)
}

/// The numbers of the bodies of arrivals and of files, in rising order.
fn used_in(
    alloc: Global,
    arrivals: &[(u64, ArrivalRow)],
    files: &[(u64, File)],
) -> Result<Vec<u64>, AllocError>
    ensures { IfOk result (λ numbers. AreUsed arrivals.now files.now numbers.items) }
{
    let mut numbers = bodies_of(alloc, arrivals)?;
    let filed = bodies_of_files(alloc, files)?;
    numbers.extend_from_slice(&filed)?;
    numbers.sort_unstable();
    Ok(numbers)
}

/// Whether a body is whole, in pieces, with the print of its bytes, and has arrived under some name or is that of a file.
fn is_body_whole(
    alloc: Global,
    pieces: &Pieces<'_>,
    used: &[u64],
    row: &(u64, BodyRow),
) -> Result<bool, AllocError>
    requires { AreUsed pieces.now.all.now.arrivals.items pieces.now.all.now.files.items used.now }
    ensures { IfOk result (λ fits. IsTrue fits ↔ IsBodyFit (tables_with pieces.now.all.now) row.now) }
{
    if !is_among(used, row.0) {
        return Ok(false);
    }
    let Some(print) = &row.1.print else {
        return Ok(false);
    };
    let found = pieces.pieces_of(alloc, row.0)?;
    Ok(are_pieces_of(&found, print))
}

/// Whether each of these bodies is whole, in pieces, with the print of its bytes, and has arrived under some name or is that of a file.
fn are_whole(
    alloc: Global,
    pieces: &Pieces<'_>,
    used: &[u64],
    rows: &[(u64, BodyRow)],
) -> Result<bool, AllocError>
    requires { AreUsed pieces.now.all.now.arrivals.items pieces.now.all.now.files.items used.now }
    ensures { IfOk result (λ fit. IsTrue fit ↔ All (IsBodyFit (tables_with pieces.now.all.now)) rows.now) }
{
    for row in rows {
        if !is_body_whole(alloc, pieces, used, row)? {
            return Ok(false);
        }
    }
    Ok(true)
}

/// Whether each body is whole, in pieces, with the print of its bytes, and has arrived under some name or is that of a file.
pub fn are_bodies_whole(alloc: Global, all: &AllRows) -> Result<bool, AllocError>
    ensures { IfOk result (λ fit. IsTrue fit ↔ BodiesFit (tables_with all.now)) }
{
    let used = used_in(alloc, &all.arrivals, &all.files)?;
    are_whole(alloc, &Pieces::new(all), &used, &all.bodies)
}
