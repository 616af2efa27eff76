//! The bytes of the bodies, in pieces.

ghost use Rattle.std.specs.Prelude.{◌≡◌, filter, find, false};
ghost use Rattle.std.specs.List.{list_any};
ghost use Rattle.tables.specs.Rows.{with_piece, piece_of, rows_of};
ghost use Rattle.tables.specs.Pieces.{is_of, is_piece, without_piece, without_pieces};
ghost use Rattle.tables.specs.Calls.{CommitsNothing, CommitsNothingOfOurs, FailsInside, GoesOnInside, IsSame, KeepsCommitted, LookFails, Looks, ReadFails, Reads, Writes, WritesAnd};

use crate::number::{as_id, whole};
use crate::read::{
    FromRow, bytes_at, id_at, select, select_first, select_first_inside, select_inside, whole_at,
};
use crate::rows::Piece;
use sqlite::{Alter, Connection, Error, Row, Transaction, params};
use std::alloc::Global;

const INSERT_PIECE: &str = "INSERT INTO pieces (body, number, bytes) VALUES (?1, ?2, ?3)";

const SELECT_PIECES_OF: &str =
    "SELECT rowid, body, number, bytes FROM pieces WHERE body = ?1 ORDER BY rowid";

const SELECT_PIECE: &str =
    "SELECT rowid, body, number, bytes FROM pieces WHERE body = ?1 AND number = ?2 ORDER BY rowid";

const DELETE_PIECE: &str = "DELETE FROM pieces WHERE body = ?1 AND number = ?2";

const DELETE_PIECES: &str = "DELETE FROM pieces WHERE body = ?1";

impl FromRow for Piece {
    ghost of_row = { piece_of };

    fn from_row(row: &Row) -> Result<Piece, Error> {
        Ok(Piece {
            body: id_at(row, 1)?,
            number: whole_at(row, 2)?,
            bytes: bytes_at(row, 3)?,
        })
    }
}

/// Adds a piece of a body.
pub fn insert_piece<S: Alter>(
    tx: &mut Transaction<'_, S>,
    body: u64,
    number: u64,
    bytes: &[u8],
) -> Result<(), Error>
    ensures same_reference { IsSame tx.old tx.new }
    ensures ok { Writes S.Store tx.old tx.new result (with_piece (record { body = body; number = number; bytes = bytes.now })) }
    ensures err { FailsInside S.Store tx.old tx.new result }
    ensures survives { CommitsNothing S.Store tx.old tx.new }
{
    let body = as_id(body);
    let number = whole(number)?;
    tx.execute(INSERT_PIECE, params![body, number, bytes])?;
    Ok(())
}

/// The pieces of a body, in the order in which they were added.
pub fn pieces_of<S: Alter>(
    alloc: Global,
    conn: &mut Connection<S>,
    body: u64,
) -> Result<Vec<Piece>, Error>
    ensures idle { conn.old.in_transaction ≡ false → conn.new.in_transaction ≡ false }
    ensures ok { Reads S.Store conn.old conn.new result (λ t all. all.items ≡ filter (is_of body) (rows_of t.pieces)) }
    ensures err { ReadFails S.Store conn.old conn.new result }
    ensures survives { CommitsNothingOfOurs S.Store conn.old conn.new }
{
    let body = as_id(body);
    select(alloc, conn, SELECT_PIECES_OF, params![body])
}

/// The pieces of a body, in the order in which they were added, inside a transaction.
pub fn pieces_of_inside<S: Alter>(
    alloc: Global,
    tx: &mut Transaction<'_, S>,
    body: u64,
) -> Result<Vec<Piece>, Error>
    ensures same_reference { IsSame tx.old tx.new }
    ensures ok { Looks S.Store tx.old tx.new result (λ t all. all.items ≡ filter (is_of body) (rows_of t.pieces)) }
    ensures err { LookFails S.Store tx.old tx.new result }
    ensures goes_on { GoesOnInside S.Store tx.old tx.new result }
    ensures kept { KeepsCommitted S.Store tx.old tx.new result }
    ensures survives { CommitsNothing S.Store tx.old tx.new }
{
    let body = as_id(body);
    select_inside(alloc, tx, SELECT_PIECES_OF, params![body])
}

/// The piece of a body at a place, from 1.
pub fn piece<S: Alter>(
    alloc: Global,
    conn: &mut Connection<S>,
    body: u64,
    number: u64,
) -> Result<Option<Piece>, Error>
    ensures idle { conn.old.in_transaction ≡ false → conn.new.in_transaction ≡ false }
    ensures ok { Reads S.Store conn.old conn.new result (λ t found. found ≡ find (is_piece body number) (rows_of t.pieces)) }
    ensures err { ReadFails S.Store conn.old conn.new result }
    ensures survives { CommitsNothingOfOurs S.Store conn.old conn.new }
{
    let body = as_id(body);
    let number = whole(number)?;
    select_first(alloc, conn, SELECT_PIECE, params![body, number])
}

/// The piece of a body at a place, from 1, inside a transaction.
pub fn piece_inside<S: Alter>(
    alloc: Global,
    tx: &mut Transaction<'_, S>,
    body: u64,
    number: u64,
) -> Result<Option<Piece>, Error>
    ensures same_reference { IsSame tx.old tx.new }
    ensures ok { Looks S.Store tx.old tx.new result (λ t found. found ≡ find (is_piece body number) (rows_of t.pieces)) }
    ensures err { LookFails S.Store tx.old tx.new result }
    ensures goes_on { GoesOnInside S.Store tx.old tx.new result }
    ensures kept { KeepsCommitted S.Store tx.old tx.new result }
    ensures survives { CommitsNothing S.Store tx.old tx.new }
{
    let body = as_id(body);
    let number = whole(number)?;
    select_first_inside(alloc, tx, SELECT_PIECE, params![body, number])
}

/// Removes the piece of a body at a place, from 1, and answers whether there was one. It is found by the key of the table, so no
/// other row is read.
pub fn delete_piece<S: Alter>(
    tx: &mut Transaction<'_, S>,
    body: u64,
    number: u64,
) -> Result<bool, Error>
    ensures same_reference { IsSame tx.old tx.new }
    ensures ok { WritesAnd S.Store tx.old tx.new result (without_piece body number) (λ taken t. taken ≡ list_any (is_piece body number) (rows_of t.pieces)) }
    ensures err { FailsInside S.Store tx.old tx.new result }
    ensures survives { CommitsNothing S.Store tx.old tx.new }
{
    let body = as_id(body);
    let number = whole(number)?;
    let taken = tx.execute(DELETE_PIECE, params![body, number])?;
    Ok(taken > 0)
}

/// Removes the pieces of a body.
pub fn delete_pieces_of<S: Alter>(tx: &mut Transaction<'_, S>, body: u64) -> Result<(), Error>
    ensures same_reference { IsSame tx.old tx.new }
    ensures ok { Writes S.Store tx.old tx.new result (without_pieces body) }
    ensures err { FailsInside S.Store tx.old tx.new result }
    ensures survives { CommitsNothing S.Store tx.old tx.new }
{
    let body = as_id(body);
    tx.execute(DELETE_PIECES, params![body])?;
    Ok(())
}
