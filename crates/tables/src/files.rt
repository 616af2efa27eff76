//! The files of the pool, and their bodies.

ghost use Rattle.std.specs.Prelude.{◌≡◌, find, false, map};
ghost use Rattle.tables.specs.Rows.{with_file, file_of, rows_of};
ghost use Rattle.tables.specs.Files.{is_file_at, without_file};
ghost use Rattle.tables.specs.Calls.{CommitsNothing, CommitsNothingOfOurs, FailsInside, GoesOnInside, IsSame, KeepsCommitted, LookFails, Looks, ReadFails, Reads, Writes};

use crate::number::as_id;
use crate::read::{FromRow, id_at, select_first, select_inside, text_at};
use crate::rows::File;
use sqlite::{Alter, Connection, Error, Row, Transaction, params};
use std::alloc::Global;

const INSERT_FILE: &str = "INSERT INTO files (path, body) VALUES (?1, ?2)";

const SELECT_FILE: &str = "SELECT rowid, path, body FROM files WHERE path = ?1 ORDER BY rowid";

const SELECT_BODIES: &str = "SELECT body FROM files ORDER BY rowid";

const DELETE_FILE: &str = "DELETE FROM files WHERE path = ?1";

impl FromRow for File {
    ghost of_row = { file_of };

    fn from_row(row: &Row) -> Result<File, Error> {
        Ok(File {
            path: text_at(row, 1)?,
            body: id_at(row, 2)?,
        })
    }
}

/// Adds a file of the pool. A path that is there already is refused.
pub fn insert_file<S: Alter>(
    tx: &mut Transaction<'_, S>,
    path: &str,
    body: u64,
) -> Result<(), Error>
    ensures same_reference { IsSame tx.old tx.new }
    ensures ok { Writes S.Store tx.old tx.new result (with_file (record { path = path.now; body = body })) }
    ensures err { FailsInside S.Store tx.old tx.new result }
    ensures survives { CommitsNothing S.Store tx.old tx.new }
{
    let body = as_id(body);
    tx.execute(INSERT_FILE, params![path, body])?;
    Ok(())
}

/// The file of a path.
pub fn file_at<S: Alter>(
    alloc: Global,
    conn: &mut Connection<S>,
    path: &str,
) -> Result<Option<File>, Error>
    ensures idle { conn.old.in_transaction ≡ false → conn.new.in_transaction ≡ false }
    ensures ok { Reads S.Store conn.old conn.new result (λ t found. found ≡ find (is_file_at path.now) (rows_of t.files)) }
    ensures err { ReadFails S.Store conn.old conn.new result }
    ensures survives { CommitsNothingOfOurs S.Store conn.old conn.new }
{
    select_first(alloc, conn, SELECT_FILE, params![path])
}

/// The number of the body of each file, inside a transaction.
pub fn filed_bodies_inside<S: Alter>(
    alloc: Global,
    tx: &mut Transaction<'_, S>,
) -> Result<Vec<u64>, Error>
    ensures same_reference { IsSame tx.old tx.new }
    ensures ok { Looks S.Store tx.old tx.new result (λ t all. all.items ≡ map (λ f. f.body) (rows_of t.files)) }
    ensures err { LookFails S.Store tx.old tx.new result }
    ensures goes_on { GoesOnInside S.Store tx.old tx.new result }
    ensures kept { KeepsCommitted S.Store tx.old tx.new result }
    ensures survives { CommitsNothing S.Store tx.old tx.new }
{
    select_inside(alloc, tx, SELECT_BODIES, &[])
}

/// Removes the file of a path, if there is one.
pub fn delete_file<S: Alter>(tx: &mut Transaction<'_, S>, path: &str) -> Result<(), Error>
    ensures same_reference { IsSame tx.old tx.new }
    ensures ok { Writes S.Store tx.old tx.new result (without_file path.now) }
    ensures err { FailsInside S.Store tx.old tx.new result }
    ensures survives { CommitsNothing S.Store tx.old tx.new }
{
    tx.execute(DELETE_FILE, params![path])?;
    Ok(())
}
