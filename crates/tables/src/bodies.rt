//! The bodies of files, each by its print.

ghost use Rattle.std.specs.Prelude.{◌≡◌, Some, None, false, find, map, nat_eq};
ghost use Rattle.tables.specs.Rows.{with_body, body_of, next_in};
ghost use Rattle.tables.specs.Bodies.{body_with, with_print, without_body};
ghost use Rattle.tables.specs.Calls.{CommitsNothing, CommitsNothingOfOurs, FailsInside, GoesOnInside, IsSame, KeepsCommitted, LookFails, Looks, ReadFails, Reads, Writes, WritesAnd};

use crate::cells::{row_number, some_print_at};
use crate::number::{as_id, whole};
use crate::read::{FromRow, select_first, select_first_inside, select_inside};
use crate::rows::BodyRow;
use sqlite::{Alter, Connection, Error, Row, Transaction, params};
use std::alloc::Global;
use sums::Print;

const INSERT_BODY: &str = "INSERT INTO bodies (size, md5, sha1, sha256) VALUES (?1, ?2, ?3, ?4)";

const INSERT_BEGUN: &str =
    "INSERT INTO bodies (size, md5, sha1, sha256) VALUES (NULL, NULL, NULL, NULL)";

const UPDATE_PRINT: &str =
    "UPDATE bodies SET size = ?2, md5 = ?3, sha1 = ?4, sha256 = ?5 WHERE id = ?1";

const SELECT_BODY: &str =
    "SELECT rowid FROM bodies WHERE size = ?1 AND md5 = ?2 AND sha1 = ?3 AND sha256 = ?4 ORDER BY rowid";

const SELECT_NUMBERED: &str =
    "SELECT rowid, id, size, md5, sha1, sha256 FROM bodies WHERE id = ?1 ORDER BY rowid";

const SELECT_NUMBERS: &str = "SELECT rowid FROM bodies ORDER BY rowid";

const DELETE_BODY: &str = "DELETE FROM bodies WHERE id = ?1";

impl FromRow for BodyRow {
    ghost of_row = { body_of };

    fn from_row(row: &Row) -> Result<BodyRow, Error> {
        Ok(BodyRow {
            print: some_print_at(row, 2)?,
        })
    }
}

/// Adds a whole body, and answers its number.
pub fn insert_body<S: Alter>(tx: &mut Transaction<'_, S>, print: &Print) -> Result<u64, Error>
    ensures same_reference { IsSame tx.old tx.new }
    ensures ok { WritesAnd S.Store tx.old tx.new result (with_body (record { print = Some print.now })) (λ id t. id ≡ next_in t.bodies) }
    ensures err { FailsInside S.Store tx.old tx.new result }
    ensures survives { CommitsNothing S.Store tx.old tx.new }
{
    let size = whole(print.size)?;
    let md5: &[u8] = &print.md5;
    let sha1: &[u8] = &print.sha1;
    let sha256: &[u8] = &print.sha256;
    tx.execute(INSERT_BODY, params![size, md5, sha1, sha256])?;
    Ok(row_number(tx.last_insert_rowid()))
}

/// Adds a body that is not whole yet, and answers its number.
pub fn insert_begun<S: Alter>(tx: &mut Transaction<'_, S>) -> Result<u64, Error>
    ensures same_reference { IsSame tx.old tx.new }
    ensures ok { WritesAnd S.Store tx.old tx.new result (with_body (record { print = None })) (λ id t. id ≡ next_in t.bodies) }
    ensures err { FailsInside S.Store tx.old tx.new result }
    ensures survives { CommitsNothing S.Store tx.old tx.new }
{
    tx.execute(INSERT_BEGUN, &[])?;
    Ok(row_number(tx.last_insert_rowid()))
}

/// Makes a body whole: sets its print.
pub fn set_print<S: Alter>(tx: &mut Transaction<'_, S>, id: u64, print: &Print) -> Result<(), Error>
    ensures same_reference { IsSame tx.old tx.new }
    ensures ok { Writes S.Store tx.old tx.new result (with_print id print.now) }
    ensures err { FailsInside S.Store tx.old tx.new result }
    ensures survives { CommitsNothing S.Store tx.old tx.new }
{
    let id = as_id(id);
    let size = whole(print.size)?;
    let md5: &[u8] = &print.md5;
    let sha1: &[u8] = &print.sha1;
    let sha256: &[u8] = &print.sha256;
    tx.execute(UPDATE_PRINT, params![id, size, md5, sha1, sha256])?;
    Ok(())
}

/// The number of the body with a print.
pub fn body_with_print<S: Alter>(
    alloc: Global,
    conn: &mut Connection<S>,
    print: &Print,
) -> Result<Option<u64>, Error>
    ensures idle { conn.old.in_transaction ≡ false → conn.new.in_transaction ≡ false }
    ensures ok { Reads S.Store conn.old conn.new result (λ t found. found ≡ body_with print.now t.bodies) }
    ensures err { ReadFails S.Store conn.old conn.new result }
    ensures survives { CommitsNothingOfOurs S.Store conn.old conn.new }
{
    let size = whole(print.size)?;
    let md5: &[u8] = &print.md5;
    let sha1: &[u8] = &print.sha1;
    let sha256: &[u8] = &print.sha256;
    select_first(alloc, conn, SELECT_BODY, params![size, md5, sha1, sha256])
}

/// The number of the body with a print, inside a transaction.
pub fn body_with_print_inside<S: Alter>(
    alloc: Global,
    tx: &mut Transaction<'_, S>,
    print: &Print,
) -> Result<Option<u64>, Error>
    ensures same_reference { IsSame tx.old tx.new }
    ensures ok { Looks S.Store tx.old tx.new result (λ t found. found ≡ body_with print.now t.bodies) }
    ensures err { LookFails S.Store tx.old tx.new result }
    ensures goes_on { GoesOnInside S.Store tx.old tx.new result }
    ensures kept { KeepsCommitted S.Store tx.old tx.new result }
    ensures survives { CommitsNothing S.Store tx.old tx.new }
{
    let size = whole(print.size)?;
    let md5: &[u8] = &print.md5;
    let sha1: &[u8] = &print.sha1;
    let sha256: &[u8] = &print.sha256;
    select_first_inside(alloc, tx, SELECT_BODY, params![size, md5, sha1, sha256])
}

/// The body of a number, with the number.
pub fn body_numbered<S: Alter>(
    alloc: Global,
    conn: &mut Connection<S>,
    id: u64,
) -> Result<Option<(u64, BodyRow)>, Error>
    ensures idle { conn.old.in_transaction ≡ false → conn.new.in_transaction ≡ false }
    ensures ok { Reads S.Store conn.old conn.new result (λ t found. found ≡ find (λ x. nat_eq x.0 id) t.bodies) }
    ensures err { ReadFails S.Store conn.old conn.new result }
    ensures survives { CommitsNothingOfOurs S.Store conn.old conn.new }
{
    let id = as_id(id);
    select_first(alloc, conn, SELECT_NUMBERED, params![id])
}

/// The body of a number, with the number, inside a transaction.
pub fn body_numbered_inside<S: Alter>(
    alloc: Global,
    tx: &mut Transaction<'_, S>,
    id: u64,
) -> Result<Option<(u64, BodyRow)>, Error>
    ensures same_reference { IsSame tx.old tx.new }
    ensures ok { Looks S.Store tx.old tx.new result (λ t found. found ≡ find (λ x. nat_eq x.0 id) t.bodies) }
    ensures err { LookFails S.Store tx.old tx.new result }
    ensures goes_on { GoesOnInside S.Store tx.old tx.new result }
    ensures kept { KeepsCommitted S.Store tx.old tx.new result }
    ensures survives { CommitsNothing S.Store tx.old tx.new }
{
    let id = as_id(id);
    select_first_inside(alloc, tx, SELECT_NUMBERED, params![id])
}

/// The numbers of all bodies, in their order, inside a transaction.
pub fn body_numbers_inside<S: Alter>(
    alloc: Global,
    tx: &mut Transaction<'_, S>,
) -> Result<Vec<u64>, Error>
    ensures same_reference { IsSame tx.old tx.new }
    ensures ok { Looks S.Store tx.old tx.new result (λ t all. all.items ≡ map (λ x. x.0) t.bodies) }
    ensures err { LookFails S.Store tx.old tx.new result }
    ensures goes_on { GoesOnInside S.Store tx.old tx.new result }
    ensures kept { KeepsCommitted S.Store tx.old tx.new result }
    ensures survives { CommitsNothing S.Store tx.old tx.new }
{
    select_inside(alloc, tx, SELECT_NUMBERS, &[])
}

/// Removes the body of a number. Its pieces go first, and no arrival and no file may name it: a body that still has some is refused.
pub fn delete_body<S: Alter>(tx: &mut Transaction<'_, S>, id: u64) -> Result<(), Error>
    ensures same_reference { IsSame tx.old tx.new }
    ensures ok { Writes S.Store tx.old tx.new result (without_body id) }
    ensures err { FailsInside S.Store tx.old tx.new result }
    ensures survives { CommitsNothing S.Store tx.old tx.new }
{
    let id = as_id(id);
    tx.execute(DELETE_BODY, params![id])?;
    Ok(())
}
