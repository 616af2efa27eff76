//! Two bodies of one print: the one that came and the one that is stored are compared piece by piece.
//!
//! A body whose print is that of a stored body of other bytes is refused as a failure of the disk. So no premise about prints is
//! needed for what is kept.

ghost use Rattle.std.specs.Prelude.{◌≡◌, ◌<◌, true, false, None, Some, option_map, OnOk};
ghost use Rattle.sqlite.specs.State.{IsUnchanged};
ghost use Rattle.tables_bodies.specs.AtOnce.{IsOnePiece};
ghost use Rattle.tables_meaning.specs.Coming.{HasSamePieces, IsNoOther, IsSameAs, bytes_at};
ghost use Rattle.tables.specs.Calls.{CommitsNothing, GoesOnInside, IsSame, KeepsCommitted, Looks, OverRowsInside};

use crate::reading::differ;
use sqlite::{Alter, Error, ErrorCode, Transaction};
use std::alloc::Global;
use sums::Print;
use tables::bodies::body_with_print_inside;
use tables::pieces::piece_inside;
use tables::rows::Piece;

/// Whether both are there with the same bytes, or neither is there.
fn are_same(one: &Option<Piece>, other: &Option<Piece>) -> bool
    ensures { result ≡ true → option_map (λ p. p.bytes) one.now ≡ option_map (λ p. p.bytes) other.now }
{
    match (one, other) {
        (Some(piece), Some(there)) => !differ(piece.bytes.as_slice(), there.bytes.as_slice()),
        (None, None) => true,
        _ => false,
    }
}

/// Whether two bodies have the same piece under a number.
fn has_same_piece<S: Alter>(
    alloc: Global,
    tx: &mut Transaction<'_, S>,
    body: u64,
    other: u64,
    number: u64,
) -> Result<bool, Error>
    ensures same_reference { IsSame tx.old tx.new }
    ensures ok { Looks S.Store tx.old tx.new result (λ t same. same ≡ true → bytes_at t body number ≡ bytes_at t other number) }
    ensures goes_on { GoesOnInside S.Store tx.old tx.new result }
    ensures kept { KeepsCommitted S.Store tx.old tx.new result }
    ensures survives { CommitsNothing S.Store tx.old tx.new }
{
    let one = piece_inside(alloc, tx, body, number)?;
    let there = piece_inside(alloc, tx, other, number)?;
    Ok(are_same(&one, &there))
}

/// Whether two bodies have the same first `count` pieces, and neither has another piece after these.
fn have_same_pieces<S: Alter>(
    alloc: Global,
    tx: &mut Transaction<'_, S>,
    body: u64,
    other: u64,
    pieces: u64,
) -> Result<bool, Error>
    requires { pieces < 18_446_744_073_709_551_615 }
    ensures same_reference { IsSame tx.old tx.new }
    ensures ok { Looks S.Store tx.old tx.new result (λ t same. same ≡ true → HasSamePieces t body other pieces) }
    ensures goes_on { GoesOnInside S.Store tx.old tx.new result }
    ensures kept { KeepsCommitted S.Store tx.old tx.new result }
    ensures survives { CommitsNothing S.Store tx.old tx.new }
{
    let behind = has_same_piece(alloc, tx, body, other, pieces + 1)?;
    if !behind {
        return Ok(false);
    }
    for at in 0..pieces {
        let same = has_same_piece(alloc, tx, body, other, at + 1)?;
        if !same {
            return Ok(false);
        }
    }
    Ok(true)
}

/// Whether a body has no piece.
fn has_no_piece<S: Alter>(
    alloc: Global,
    tx: &mut Transaction<'_, S>,
    body: u64,
) -> Result<bool, Error>
    ensures same_reference { IsSame tx.old tx.new }
    ensures ok { Looks S.Store tx.old tx.new result (λ t none. none ≡ true → bytes_at t body 1 ≡ None) }
    ensures goes_on { GoesOnInside S.Store tx.old tx.new result }
    ensures kept { KeepsCommitted S.Store tx.old tx.new result }
    ensures survives { CommitsNothing S.Store tx.old tx.new }
{
    let first = piece_inside(alloc, tx, body, 1)?;
    Ok(first.is_none())
}

/// Whether the body that was found has the pieces of the one that came, which has `count` pieces.
fn is_same<S: Alter>(
    alloc: Global,
    tx: &mut Transaction<'_, S>,
    body: Option<u64>,
    pieces: u64,
    found: u64,
) -> Result<bool, Error>
    requires { pieces < 18_446_744_073_709_551_615 }
    ensures same_reference { IsSame tx.old tx.new }
    ensures ok { Looks S.Store tx.old tx.new result (λ t same. same ≡ true → IsSameAs body pieces found t) }
    ensures goes_on { GoesOnInside S.Store tx.old tx.new result }
    ensures kept { KeepsCommitted S.Store tx.old tx.new result }
    ensures survives { CommitsNothing S.Store tx.old tx.new }
{
    match body {
        Some(id) => have_same_pieces(alloc, tx, id, found, pieces),
        None => has_no_piece(alloc, tx, found),
    }
}

/// Refuses a body that came, of `count` pieces, if another body of its print is stored.
pub(crate) fn refuse_other<S: Alter>(
    alloc: Global,
    tx: &mut Transaction<'_, S>,
    body: Option<u64>,
    pieces: u64,
    print: &Print,
) -> Result<(), Error>
    requires { pieces < 18_446_744_073_709_551_615 }
    ensures same_reference { IsSame tx.old tx.new }
    ensures ok { OverRowsInside S.Store tx.old tx.new (λ t old new. OnOk result (IsNoOther body pieces print.now t × IsUnchanged old new)) }
    ensures goes_on { GoesOnInside S.Store tx.old tx.new result }
    ensures kept { KeepsCommitted S.Store tx.old tx.new result }
    ensures survives { CommitsNothing S.Store tx.old tx.new }
{
    let found = body_with_print_inside(alloc, tx, print)?;
    let Some(stored) = found else {
        return Ok(());
    };
    let same = is_same(alloc, tx, body, pieces, stored)?;
    if !same {
        return Err(Error::SqliteFailure(ErrorCode::DatabaseCorrupt));
    }
    Ok(())
}

/// Whether a piece is there with these bytes.
fn is_piece_of(piece: &Option<Piece>, bytes: &[u8]) -> bool
    ensures { result ≡ true → option_map (λ p. p.bytes) piece.now ≡ Some bytes.now }
{
    match piece {
        Some(piece) => !differ(piece.bytes.as_slice(), bytes),
        None => false,
    }
}

/// Whether a body is one piece, of these bytes.
fn is_one_piece<S: Alter>(
    alloc: Global,
    tx: &mut Transaction<'_, S>,
    body: u64,
    bytes: &[u8],
) -> Result<bool, Error>
    ensures same_reference { IsSame tx.old tx.new }
    ensures ok { Looks S.Store tx.old tx.new result (λ t one. one ≡ true → IsOnePiece t body bytes.now) }
    ensures goes_on { GoesOnInside S.Store tx.old tx.new result }
    ensures kept { KeepsCommitted S.Store tx.old tx.new result }
    ensures survives { CommitsNothing S.Store tx.old tx.new }
{
    let first = piece_inside(alloc, tx, body, 1)?;
    let last = piece_inside(alloc, tx, body, 2)?;
    if last.is_some() {
        return Ok(false);
    }
    Ok(is_piece_of(&first, bytes))
}

/// Refuses these bytes if the body of their print that is stored, under this number, is another one.
pub(crate) fn refuse_other_bytes<S: Alter>(
    alloc: Global,
    tx: &mut Transaction<'_, S>,
    stored: u64,
    bytes: &[u8],
) -> Result<(), Error>
    ensures same_reference { IsSame tx.old tx.new }
    ensures ok { OverRowsInside S.Store tx.old tx.new (λ t old new. OnOk result (IsOnePiece t stored bytes.now × IsUnchanged old new)) }
    ensures goes_on { GoesOnInside S.Store tx.old tx.new result }
    ensures kept { KeepsCommitted S.Store tx.old tx.new result }
    ensures survives { CommitsNothing S.Store tx.old tx.new }
{
    let same = is_one_piece(alloc, tx, stored, bytes)?;
    if !same {
        return Err(Error::SqliteFailure(ErrorCode::DatabaseCorrupt));
    }
    Ok(())
}
