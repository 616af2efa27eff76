//! The pieces of the bodies that are not whole.
//!
//! A body without a print is one whose delivery was cut short. An opening takes it away with its pieces, but only once the rest has passed
//! as an archive. If an arrival or a file of the pool names it, the database is not an archive. Nor is it one if the body's pieces are not
//! numbered from 1, each but the last of 65,536 bytes.

ghost use Rattle.std.specs.Prelude.{◌≡◌, ◌↔◌, ◌<◌, ℕ, All, map, IfOk, IsTrue};
ghost use Rattle.tables_read.specs.All.{tables_with};
ghost use Rattle.tables_meaning.specs.Finished.{AreUnderWay};
ghost use Rattle.tables_audit.specs.Bodies.{AreInPieces, IsBehind, IsInPieces};

use crate::pieces::Pieces;
use book::PIECE_SIZE;
use std::alloc::{AllocError, Global};
use tables::rows::{BodyRow, Piece};
use tables_read::AllRows;

/// Whether the piece may be the next one of a body, after `count` full ones.
fn is_behind(piece: &Piece, count: u64) -> bool
    requires { count < 18_446_744_073_709_551_615 }
    ensures { IsTrue result ↔ IsBehind count piece.now }
{
    if piece.number != count + 1 {
        return false;
    }
    let size = piece.bytes.as_slice().len() as u64;
    size != 0 && size <= PIECE_SIZE as u64
}

/// Whether these pieces of a body are those of its bytes: numbered from 1, each full but the last. They are read one by one and never
/// joined.
fn are_in_pieces(pieces: &[&Piece]) -> bool
    ensures { (id : ℕ) → All (λ p. p.body ≡ id) (map (λ p. p.now) pieces.now) → (IsTrue result ↔ AreInPieces id (map (λ p. p.now) pieces.now)) }
{
    let mut count = 0;
    let mut is_full = true;
    for piece in pieces {
        if !is_full {
            return false;
        }
        if !is_behind(piece, count) {
            return false;
        }
        count += 1;
        is_full = piece.bytes.as_slice().len() as u64 == PIECE_SIZE as u64;
    }
    true
}

/// Whether a body is whole, or its pieces are as those of a whole one.
fn is_in_pieces(
    alloc: Global,
    pieces: &Pieces<'_>,
    row: &(u64, BodyRow),
) -> Result<bool, AllocError>
    ensures { IfOk result (λ fits. IsTrue fits ↔ IsInPieces (tables_with pieces.now.all.now) row.now) }
{
    if row.1.print.is_some() {
        return Ok(true);
    }
    let found = pieces.pieces_of(alloc, row.0)?;
    Ok(are_in_pieces(&found))
}

/// Whether each of these bodies is whole, or its pieces are as those of a whole one.
fn are_all_in_pieces(
    alloc: Global,
    pieces: &Pieces<'_>,
    rows: &[(u64, BodyRow)],
) -> Result<bool, AllocError>
    ensures { IfOk result (λ fit. IsTrue fit ↔ All (IsInPieces (tables_with pieces.now.all.now)) rows.now) }
{
    for row in rows {
        if !is_in_pieces(alloc, pieces, row)? {
            return Ok(false);
        }
    }
    Ok(true)
}

/// Whether the pieces of each body that is not whole are as those of a whole one: numbered from 1, each full but the last.
pub fn are_under_way(alloc: Global, all: &AllRows) -> Result<bool, AllocError>
    ensures { IfOk result (λ fit. IsTrue fit ↔ AreUnderWay (tables_with all.now)) }
{
    are_all_in_pieces(alloc, &Pieces::new(all), &all.bodies)
}
