//! The .changes that arrived or were judged.

ghost use Rattle.std.specs.Prelude.{◌≡◌, find, nat_eq, None, false};
ghost use Rattle.tables.specs.Rows.{with_upload, upload_of, next_in};
ghost use Rattle.tables.specs.Uploads.{is_upload, with_verdict, without_upload};
ghost use Rattle.tables.specs.Calls.{CommitsNothing, CommitsNothingOfOurs, FailsInside, GoesOnInside, IsSame, KeepsCommitted, LookFails, Looks, ReadFails, Reads, Writes, WritesAnd};

use crate::cells::{print_at, row_number, some_whole_at};
use crate::number::{as_id, whole};
use crate::read::{FromRow, select_first, select_first_inside, text_at};
use crate::rows::UploadRow;
use sqlite::{Alter, Connection, Error, Row, Transaction, params};
use std::alloc::Global;
use sums::Print;

const INSERT_UPLOAD: &str =
    "INSERT INTO uploads (name, size, md5, sha1, sha256) VALUES (?1, ?2, ?3, ?4, ?5)";

const SELECT_UPLOAD: &str =
    "SELECT rowid, id, name, size, md5, sha1, sha256, place, verdict FROM uploads WHERE name = ?1 AND size = ?2 AND md5 = ?3 AND sha1 = ?4 AND sha256 = ?5 ORDER BY rowid";

const SELECT_NUMBERED: &str =
    "SELECT rowid, id, name, size, md5, sha1, sha256, place, verdict FROM uploads WHERE id = ?1 ORDER BY rowid";

const UPDATE_VERDICT: &str = "UPDATE uploads SET place = ?2, verdict = ?3 WHERE id = ?1";

const DELETE_UPLOAD: &str = "DELETE FROM uploads WHERE id = ?1";

impl FromRow for UploadRow {
    ghost of_row = { upload_of };

    fn from_row(row: &Row) -> Result<UploadRow, Error> {
        Ok(UploadRow {
            name: text_at(row, 2)?,
            print: print_at(row, 3)?,
            place: some_whole_at(row, 7)?,
            verdict: some_whole_at(row, 8)?,
        })
    }
}

/// Adds an upload that is not judged, and answers its number.
pub fn insert_upload<S: Alter>(
    tx: &mut Transaction<'_, S>,
    name: &str,
    print: &Print,
) -> Result<u64, Error>
    ensures same_reference { IsSame tx.old tx.new }
    ensures ok { WritesAnd S.Store tx.old tx.new result (with_upload (record { name = name.now; print = print.now; place = None; verdict = None })) (λ id t. id ≡ next_in t.uploads) }
    ensures err { FailsInside S.Store tx.old tx.new result }
    ensures survives { CommitsNothing S.Store tx.old tx.new }
{
    let size = whole(print.size)?;
    let md5: &[u8] = &print.md5;
    let sha1: &[u8] = &print.sha1;
    let sha256: &[u8] = &print.sha256;
    tx.execute(INSERT_UPLOAD, params![name, size, md5, sha1, sha256])?;
    Ok(row_number(tx.last_insert_rowid()))
}

/// The upload of a name and a print, with its number.
pub fn upload_of<S: Alter>(
    alloc: Global,
    tx: &mut Transaction<'_, S>,
    name: &str,
    print: &Print,
) -> Result<Option<(u64, UploadRow)>, Error>
    ensures same_reference { IsSame tx.old tx.new }
    ensures ok { Looks S.Store tx.old tx.new result (λ t found. found ≡ find (λ x. is_upload name.now print.now x.1) t.uploads) }
    ensures err { LookFails S.Store tx.old tx.new result }
    ensures goes_on { GoesOnInside S.Store tx.old tx.new result }
    ensures kept { KeepsCommitted S.Store tx.old tx.new result }
    ensures survives { CommitsNothing S.Store tx.old tx.new }
{
    let size = whole(print.size)?;
    let md5: &[u8] = &print.md5;
    let sha1: &[u8] = &print.sha1;
    let sha256: &[u8] = &print.sha256;
    select_first_inside(
        alloc,
        tx,
        SELECT_UPLOAD,
        params![name, size, md5, sha1, sha256],
    )
}

/// The upload of a number, with the number.
pub fn upload_numbered<S: Alter>(
    alloc: Global,
    conn: &mut Connection<S>,
    id: u64,
) -> Result<Option<(u64, UploadRow)>, Error>
    ensures idle { conn.old.in_transaction ≡ false → conn.new.in_transaction ≡ false }
    ensures ok { Reads S.Store conn.old conn.new result (λ t found. found ≡ find (λ x. nat_eq x.0 id) t.uploads) }
    ensures err { ReadFails S.Store conn.old conn.new result }
    ensures survives { CommitsNothingOfOurs S.Store conn.old conn.new }
{
    let id = as_id(id);
    select_first(alloc, conn, SELECT_NUMBERED, params![id])
}

/// Judges an upload: sets its place in the order of judging and its verdict.
pub fn set_verdict<S: Alter>(
    tx: &mut Transaction<'_, S>,
    id: u64,
    place: u64,
    verdict: u64,
) -> Result<(), Error>
    ensures same_reference { IsSame tx.old tx.new }
    ensures ok { Writes S.Store tx.old tx.new result (with_verdict id place verdict) }
    ensures err { FailsInside S.Store tx.old tx.new result }
    ensures survives { CommitsNothing S.Store tx.old tx.new }
{
    let id = as_id(id);
    let place = whole(place)?;
    let verdict = whole(verdict)?;
    tx.execute(UPDATE_VERDICT, params![id, place, verdict])?;
    Ok(())
}

/// Removes the upload of a number. Its entries go first: one that still has some is refused.
pub fn delete_upload<S: Alter>(tx: &mut Transaction<'_, S>, id: u64) -> Result<(), Error>
    ensures same_reference { IsSame tx.old tx.new }
    ensures ok { Writes S.Store tx.old tx.new result (without_upload id) }
    ensures err { FailsInside S.Store tx.old tx.new result }
    ensures survives { CommitsNothing S.Store tx.old tx.new }
{
    let id = as_id(id);
    tx.execute(DELETE_UPLOAD, params![id])?;
    Ok(())
}
