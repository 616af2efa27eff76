//! The texts of the indices.

ghost use Rattle.std.specs.Prelude.{◌≡◌, find, false};
ghost use Rattle.tables.specs.Rows.{with_text, text_of, rows_of};
ghost use Rattle.tables.specs.Texts.{has_path, with_new_text, without_texts};
ghost use Rattle.tables.specs.Calls.{CommitsNothing, CommitsNothingOfOurs, FailsInside, IsSame, ReadFails, Reads, Writes};

use crate::read::{FromRow, bytes_at, select_first, text_at};
use crate::rows::TextRow;
use sqlite::{Alter, Connection, Error, Row, Transaction, params};
use std::alloc::Global;

const INSERT_TEXT: &str = "INSERT INTO texts (path, body) VALUES (?1, ?2)";

const SELECT_TEXT: &str = "SELECT rowid, path, body FROM texts WHERE path = ?1 ORDER BY rowid";

const UPDATE_TEXT: &str = "UPDATE texts SET body = ?2 WHERE path = ?1";

const DELETE_TEXTS: &str = "DELETE FROM texts";

impl FromRow for TextRow {
    ghost of_row = { text_of };

    fn from_row(row: &Row) -> Result<TextRow, Error> {
        Ok(TextRow {
            path: text_at(row, 1)?,
            body: bytes_at(row, 2)?,
        })
    }
}

/// Adds a text.
pub fn insert_text<S: Alter>(
    tx: &mut Transaction<'_, S>,
    path: &str,
    body: &[u8],
) -> Result<(), Error>
    ensures same_reference { IsSame tx.old tx.new }
    ensures ok { Writes S.Store tx.old tx.new result (with_text (record { path = path.now; body = body.now })) }
    ensures err { FailsInside S.Store tx.old tx.new result }
    ensures survives { CommitsNothing S.Store tx.old tx.new }
{
    tx.execute(INSERT_TEXT, params![path, body])?;
    Ok(())
}

/// The text of a path.
pub fn select_text<S: Alter>(
    alloc: Global,
    conn: &mut Connection<S>,
    path: &str,
) -> Result<Option<TextRow>, Error>
    ensures idle { conn.old.in_transaction ≡ false → conn.new.in_transaction ≡ false }
    ensures ok { Reads S.Store conn.old conn.new result (λ t found. found ≡ find (has_path path.now) (rows_of t.texts)) }
    ensures err { ReadFails S.Store conn.old conn.new result }
    ensures survives { CommitsNothingOfOurs S.Store conn.old conn.new }
{
    select_first(alloc, conn, SELECT_TEXT, params![path])
}

/// Replaces the text of a path.
pub fn update_text<S: Alter>(
    tx: &mut Transaction<'_, S>,
    path: &str,
    body: &[u8],
) -> Result<(), Error>
    ensures same_reference { IsSame tx.old tx.new }
    ensures ok { Writes S.Store tx.old tx.new result (with_new_text path.now body.now) }
    ensures err { FailsInside S.Store tx.old tx.new result }
    ensures survives { CommitsNothing S.Store tx.old tx.new }
{
    tx.execute(UPDATE_TEXT, params![path, body])?;
    Ok(())
}

/// Removes all texts.
pub fn delete_texts<S: Alter>(tx: &mut Transaction<'_, S>) -> Result<(), Error>
    ensures same_reference { IsSame tx.old tx.new }
    ensures ok { Writes S.Store tx.old tx.new result without_texts }
    ensures err { FailsInside S.Store tx.old tx.new result }
    ensures survives { CommitsNothing S.Store tx.old tx.new }
{
    tx.execute(DELETE_TEXTS, &[])?;
    Ok(())
}
