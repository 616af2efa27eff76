//! One piece of a file of the pool, read without the others.
//!
//! How many bytes the file has stands in the print of its body. So a piece costs three rows, whatever the size of the file.

ghost use Rattle.std.specs.Prelude.{◌≡◌, [], false, Some, unwrap_or};
ghost use Rattle.std.specs.Option.{option_map};
ghost use Rattle.book.specs.Pieces.{piece_value};
ghost use Rattle.tables.specs.Calls.{CommitsNoRows, Reads};
ghost use Rattle.tables_bodies.specs.FilePieces.{piece_in, stored_piece};
ghost use Rattle.tables_meaning.specs.Calls.{ReadUndone};
ghost use Rattle.tables_meaning.specs.Kept.{print_at};

use book::FilePiece;
use sqlite::{Alter, Connection, Error, ErrorCode};
use std::alloc::Global;
use sums::Print;
use tables::bodies::body_numbered;
use tables::files::file_at;
use tables::pieces::piece;
use tables::rows::Piece;

/// The print of the body of a number. A body that is not there or not whole cannot be that of an arrival or of a file, and
/// is refused.
pub fn print_numbered<S: Alter>(
    alloc: Global,
    conn: &mut Connection<S>,
    id: u64,
) -> Result<Print, Error>
    ensures idle { conn.old.in_transaction ≡ false → conn.new.in_transaction ≡ false }
    ensures ok { Reads S.Store conn.old conn.new result (λ t print. print_at t id ≡ Some print) }
    ensures err { ReadUndone S.Store conn.old conn.new result }
    ensures survives { CommitsNoRows S.Store conn.old conn.new }
{
    let Some(found) = body_numbered(alloc, conn, id)? else {
        return Err(Error::SqliteFailure(ErrorCode::DatabaseCorrupt));
    };
    let Some(print) = found.1.print else {
        return Err(Error::SqliteFailure(ErrorCode::DatabaseCorrupt));
    };
    Ok(print)
}

/// The bytes of a piece, or no bytes if there is no such piece.
fn piece_bytes(alloc: Global, found: Option<Piece>) -> Vec<u8>
    ensures { result.items ≡ unwrap_or (option_map (λ p. p.bytes) found) [] }
{
    match found {
        Some(piece) => piece.bytes.into_vec(),
        None => Vec::new(alloc),
    }
}

/// The piece of a body at a place, from 0.
fn body_piece<S: Alter>(
    alloc: Global,
    conn: &mut Connection<S>,
    id: u64,
    number: u32,
) -> Result<FilePiece, Error>
    ensures idle { conn.old.in_transaction ≡ false → conn.new.in_transaction ≡ false }
    ensures ok { Reads S.Store conn.old conn.new result (λ t piece. stored_piece t number id ≡ Some (piece_value piece)) }
    ensures err { ReadUndone S.Store conn.old conn.new result }
    ensures survives { CommitsNoRows S.Store conn.old conn.new }
{
    let print = print_numbered(alloc, conn, id)?;
    let found = piece(alloc, conn, id, u64::from(number) + 1)?;
    Ok(FilePiece {
        size: print.size,
        bytes: piece_bytes(alloc, found),
    })
}

/// The piece at a place, from 0, of the file at a path.
pub fn file_piece<S: Alter>(
    alloc: Global,
    conn: &mut Connection<S>,
    path: &str,
    number: u32,
) -> Result<Option<FilePiece>, Error>
    ensures idle { conn.old.in_transaction ≡ false → conn.new.in_transaction ≡ false }
    ensures ok { Reads S.Store conn.old conn.new result (λ t found. option_map piece_value found ≡ piece_in t path.now number) }
    ensures err { ReadUndone S.Store conn.old conn.new result }
    ensures survives { CommitsNoRows S.Store conn.old conn.new }
{
    let found = file_at(alloc, conn, path)?;
    match found {
        Some(file) => {
            let piece = body_piece(alloc, conn, file.body, number)?;
            Ok(Some(piece))
        }
        None => Ok(None),
    }
}
