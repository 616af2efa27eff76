//! The bodies of files, which lie in pieces.
//!
//! The rows of pieces stand in any order, so those of a body are put in the order of their numbers before they are joined.

ghost use Rattle.std.specs.Prelude.{◌≡◌, ◌≢◌, false, IfOk, MatchBool, option_map};
ghost use Rattle.std.specs.List.{flat_map};
ghost use Rattle.tables_meaning.specs.Kept.{bytes_of, files_in, piece_order};
ghost use Rattle.tables_meaning.specs.Reads.{sorted_by};
ghost use Rattle.tables.specs.Calls.{CommitsNoRows, CommitsNothing, CommitsNothingOfOurs, GoesOnInside, IsSame, KeepsCommitted, Looks, ReadFails, Reads};
ghost use Rattle.tables_meaning.specs.Calls.{ReadUndone};

use sqlite::{Alter, Connection, Error, Transaction};
use std::alloc::{AllocError, Global};
use tables::files::file_at;
use tables::pieces::{pieces_of, pieces_of_inside};
use tables::rows::Piece;
use tables_meaning::piece_order;

/// Pieces in their order.
fn in_order(mut pieces: Vec<Piece>) -> Result<Vec<Piece>, AllocError>
    ensures { IfOk result (λ sorted. sorted.items ≡ sorted_by piece_order pieces.items) }
{
    pieces.sort_by(|a, b| piece_order(a, b))?;
    Ok(pieces)
}

/// How many bytes pieces have together, which says how much room to take at once. Nothing that is answered rests on it.
fn room_for(pieces: &[Piece]) -> usize {
    let mut room: usize = 0;
    for piece in pieces {
        room = room.saturating_add(piece.bytes.as_slice().len());
    }
    room
}

/// The bytes of pieces, one after another.
pub fn joined(alloc: Global, pieces: &[Piece]) -> Result<Vec<u8>, AllocError>
    ensures { IfOk result (λ bytes. bytes.items ≡ flat_map (λ p. p.bytes) pieces.now) }
{
    let mut bytes = Vec::with_capacity(alloc, room_for(pieces))?;
    for piece in pieces {
        bytes.extend_from_slice(piece.bytes.as_slice())?;
    }
    Ok(bytes)
}

/// The bytes of a body.
pub fn read_body<S: Alter>(
    alloc: Global,
    conn: &mut Connection<S>,
    id: u64,
) -> Result<Vec<u8>, Error>
    ensures idle { conn.old.in_transaction ≡ false → conn.new.in_transaction ≡ false }
    ensures ok { Reads S.Store conn.old conn.new result (λ t bytes. bytes.items ≡ bytes_of t id) }
    ensures err { ReadFails S.Store conn.old conn.new result }
    ensures survives { CommitsNothingOfOurs S.Store conn.old conn.new }
{
    let pieces = in_order(pieces_of(alloc, conn, id)?)?;
    Ok(joined(alloc, &pieces)?)
}

/// The bytes of the file at a path.
pub fn file_body<S: Alter>(
    alloc: Global,
    conn: &mut Connection<S>,
    path: &str,
) -> Result<Option<Vec<u8>>, Error>
    ensures idle { conn.old.in_transaction ≡ false → conn.new.in_transaction ≡ false }
    ensures ok { Reads S.Store conn.old conn.new result (λ t found. option_map (λ bytes. bytes.items) found ≡ files_in t path.now) }
    ensures err { ReadUndone S.Store conn.old conn.new result }
    ensures survives { CommitsNoRows S.Store conn.old conn.new }
{
    let found = file_at(alloc, conn, path)?;
    match found {
        Some(file) => {
            let bytes = read_body(alloc, conn, file.body)?;
            Ok(Some(bytes))
        }
        None => Ok(None),
    }
}

/// Whether two bodies are not the same.
pub fn differ(body: &[u8], other: &[u8]) -> bool
    ensures { MatchBool result (body.now ≢ other.now) (body.now ≡ other.now) }
{
    body != other
}

/// The bytes of a body, inside a transaction.
pub(crate) fn read_body_inside<S: Alter>(
    alloc: Global,
    tx: &mut Transaction<'_, S>,
    id: u64,
) -> Result<Vec<u8>, Error>
    ensures same_reference { IsSame tx.old tx.new }
    ensures ok { Looks S.Store tx.old tx.new result (λ t bytes. bytes.items ≡ bytes_of t id) }
    ensures goes_on { GoesOnInside S.Store tx.old tx.new result }
    ensures kept { KeepsCommitted S.Store tx.old tx.new result }
    ensures survives { CommitsNothing S.Store tx.old tx.new }
{
    let pieces = in_order(pieces_of_inside(alloc, tx, id)?)?;
    Ok(joined(alloc, &pieces)?)
}
