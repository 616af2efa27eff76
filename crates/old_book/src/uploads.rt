//! Uploads under the numbers that they have.

ghost use Rattle.old_book.specs.Placed.{with_upload_at};
ghost use Rattle.tables.specs.Calls.{CommitsNothing, FailsInside, IsSame, Writes};

use crate::number::some_whole;
use sqlite::{Alter, Error, Transaction, params};
use tables::number::{as_id, whole};
use tables::rows::UploadRow;

const COPY_UPLOAD: &str =
    "INSERT INTO uploads (id, name, size, md5, sha1, sha256, place, verdict) VALUES (?1, ?2, ?3, ?4, ?5, ?6, ?7, ?8)";

/// Adds an upload under its number, with its place and its verdict.
pub(crate) fn insert_upload<S: Alter>(
    tx: &mut Transaction<'_, S>,
    id: u64,
    upload: &UploadRow,
) -> Result<(), Error>
    ensures same_reference { IsSame tx.old tx.new }
    ensures ok { Writes S.Store tx.old tx.new result (with_upload_at (id, upload.now)) }
    ensures err { FailsInside S.Store tx.old tx.new result }
    ensures survives { CommitsNothing S.Store tx.old tx.new }
{
    let id = as_id(id);
    let name = upload.name.as_str();
    let size = whole(upload.print.size)?;
    let md5: &[u8] = &upload.print.md5;
    let sha1: &[u8] = &upload.print.sha1;
    let sha256: &[u8] = &upload.print.sha256;
    let place = some_whole(upload.place)?;
    let verdict = some_whole(upload.verdict)?;
    tx.execute(
        COPY_UPLOAD,
        params![id, name, size, md5, sha1, sha256, place, verdict],
    )?;
    Ok(())
}
