//! The entries of the uploads, and whether their bodies have arrived.
//!
//! `wants` has a second key, of name, print and upload. Its primary key implies it already: it is there as the index by which an arrival
//! finds which uploads wait for it. A row is looked up by a print's four columns together.
//!
//! SQLite finds rows whose place is NULL, or is not, by reading `uploads` to its end. So the uploads without a verdict are found through
//! `wants`, by its key, one after the other: each of them has entries here, since a .changes lists a file at least, and no judged one has.
//! A run and a waiting list look at as many uploads as wait, however many were judged.

ghost use Rattle.std.specs.Prelude.{◌≡◌, filter, false};
ghost use Rattle.tables.specs.Rows.{with_want, want_of, rows_of};
ghost use Rattle.tables.specs.Wants.{IsNextWanting, is_wanted_by, with_away, with_here, without_wants};
ghost use Rattle.tables.specs.Calls.{CommitsNothing, CommitsNothingOfOurs, FailsInside, IsSame, ReadFails, Reads, Writes};

use crate::cells::{flag_at, print_at};
use crate::number::{as_id, whole};
use crate::read::{FromRow, id_at, select, select_first, text_at};
use crate::rows::Want;
use sqlite::{Alter, Connection, Error, Row, Transaction, params};
use std::alloc::Global;
use sums::Print;

const INSERT_WANT: &str =
    "INSERT INTO wants (upload, name, size, md5, sha1, sha256, here) VALUES (?1, ?2, ?3, ?4, ?5, ?6, ?7)";

const SELECT_WANTS_OF: &str =
    "SELECT rowid, upload, name, size, md5, sha1, sha256, here FROM wants WHERE upload = ?1 ORDER BY rowid";

const SELECT_FIRST: &str = "SELECT upload FROM wants ORDER BY upload LIMIT 1";

const SELECT_NEXT: &str = "SELECT upload FROM wants WHERE upload > ?1 ORDER BY upload LIMIT 1";

const UPDATE_HERE: &str =
    "UPDATE wants SET here = 1 WHERE name = ?1 AND size = ?2 AND md5 = ?3 AND sha1 = ?4 AND sha256 = ?5";

const UPDATE_AWAY: &str =
    "UPDATE wants SET here = 0 WHERE name = ?1 AND size = ?2 AND md5 = ?3 AND sha1 = ?4 AND sha256 = ?5";

const DELETE_WANTS: &str = "DELETE FROM wants WHERE upload = ?1";

impl FromRow for Want {
    ghost of_row = { want_of };

    fn from_row(row: &Row) -> Result<Want, Error> {
        Ok(Want {
            upload: id_at(row, 1)?,
            name: text_at(row, 2)?,
            print: print_at(row, 3)?,
            here: flag_at(row, 7)?,
        })
    }
}

/// Adds an entry of an upload.
pub fn insert_want<S: Alter>(
    tx: &mut Transaction<'_, S>,
    upload: u64,
    name: &str,
    print: &Print,
    here: bool,
) -> Result<(), Error>
    ensures same_reference { IsSame tx.old tx.new }
    ensures ok { Writes S.Store tx.old tx.new result (with_want (record { upload = upload; name = name.now; print = print.now; here = here })) }
    ensures err { FailsInside S.Store tx.old tx.new result }
    ensures survives { CommitsNothing S.Store tx.old tx.new }
{
    let upload = as_id(upload);
    let size = whole(print.size)?;
    let md5: &[u8] = &print.md5;
    let sha1: &[u8] = &print.sha1;
    let sha256: &[u8] = &print.sha256;
    tx.execute(
        INSERT_WANT,
        params![upload, name, size, md5, sha1, sha256, here],
    )?;
    Ok(())
}

/// Notes in every upload that a body of a name and a print has arrived.
pub fn mark_here<S: Alter>(
    tx: &mut Transaction<'_, S>,
    name: &str,
    print: &Print,
) -> Result<(), Error>
    ensures same_reference { IsSame tx.old tx.new }
    ensures ok { Writes S.Store tx.old tx.new result (with_here name.now print.now) }
    ensures err { FailsInside S.Store tx.old tx.new result }
    ensures survives { CommitsNothing S.Store tx.old tx.new }
{
    let size = whole(print.size)?;
    let md5: &[u8] = &print.md5;
    let sha1: &[u8] = &print.sha1;
    let sha256: &[u8] = &print.sha256;
    tx.execute(UPDATE_HERE, params![name, size, md5, sha1, sha256])?;
    Ok(())
}

/// Notes in every upload that no body of a name and a print is there.
pub fn mark_away<S: Alter>(
    tx: &mut Transaction<'_, S>,
    name: &str,
    print: &Print,
) -> Result<(), Error>
    ensures same_reference { IsSame tx.old tx.new }
    ensures ok { Writes S.Store tx.old tx.new result (with_away name.now print.now) }
    ensures err { FailsInside S.Store tx.old tx.new result }
    ensures survives { CommitsNothing S.Store tx.old tx.new }
{
    let size = whole(print.size)?;
    let md5: &[u8] = &print.md5;
    let sha1: &[u8] = &print.sha1;
    let sha256: &[u8] = &print.sha256;
    tx.execute(UPDATE_AWAY, params![name, size, md5, sha1, sha256])?;
    Ok(())
}

/// The entries of an upload, in the order in which they were added.
pub fn wants_of<S: Alter>(
    alloc: Global,
    conn: &mut Connection<S>,
    upload: u64,
) -> Result<Vec<Want>, Error>
    ensures idle { conn.old.in_transaction ≡ false → conn.new.in_transaction ≡ false }
    ensures ok { Reads S.Store conn.old conn.new result (λ t all. all.items ≡ filter (is_wanted_by upload) (rows_of t.wants)) }
    ensures err { ReadFails S.Store conn.old conn.new result }
    ensures survives { CommitsNothingOfOurs S.Store conn.old conn.new }
{
    let upload = as_id(upload);
    select(alloc, conn, SELECT_WANTS_OF, params![upload])
}

/// The number of the first upload after this one that has entries, or of the first of all.
pub fn next_wanting<S: Alter>(
    alloc: Global,
    conn: &mut Connection<S>,
    after: Option<u64>,
) -> Result<Option<u64>, Error>
    ensures idle { conn.old.in_transaction ≡ false → conn.new.in_transaction ≡ false }
    ensures ok { Reads S.Store conn.old conn.new result (λ t found. IsNextWanting after (rows_of t.wants) found) }
    ensures err { ReadFails S.Store conn.old conn.new result }
    ensures survives { CommitsNothingOfOurs S.Store conn.old conn.new }
{
    match after {
        Some(after) => {
            let after = as_id(after);
            select_first(alloc, conn, SELECT_NEXT, params![after])
        }
        None => select_first(alloc, conn, SELECT_FIRST, &[]),
    }
}

/// Removes the entries of an upload.
pub fn delete_wants<S: Alter>(tx: &mut Transaction<'_, S>, upload: u64) -> Result<(), Error>
    ensures same_reference { IsSame tx.old tx.new }
    ensures ok { Writes S.Store tx.old tx.new result (without_wants upload) }
    ensures err { FailsInside S.Store tx.old tx.new result }
    ensures survives { CommitsNothing S.Store tx.old tx.new }
{
    let upload = as_id(upload);
    tx.execute(DELETE_WANTS, params![upload])?;
    Ok(())
}
