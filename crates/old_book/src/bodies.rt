//! Bodies under the numbers that they have.

ghost use Rattle.std.specs.Prelude.{Some, None};
ghost use Rattle.old_book.specs.Placed.{with_body_at};
ghost use Rattle.tables.specs.Calls.{CommitsNothing, FailsInside, IsSame, Writes};

use sqlite::{Alter, Error, Transaction, params};
use sums::Print;
use tables::number::{as_id, whole};
use tables::rows::BodyRow;

const COPY_BODY: &str =
    "INSERT INTO bodies (id, size, md5, sha1, sha256) VALUES (?1, ?2, ?3, ?4, ?5)";

const COPY_BEGUN: &str = "INSERT INTO bodies (id) VALUES (?1)";

/// Adds a whole body under its number.
fn insert_whole<S: Alter>(tx: &mut Transaction<'_, S>, id: u64, print: &Print) -> Result<(), Error>
    ensures same_reference { IsSame tx.old tx.new }
    ensures ok { Writes S.Store tx.old tx.new result (with_body_at (id, record { print = Some print.now })) }
    ensures err { FailsInside S.Store tx.old tx.new result }
    ensures survives { CommitsNothing S.Store tx.old tx.new }
{
    let id = as_id(id);
    let size = whole(print.size)?;
    let md5: &[u8] = &print.md5;
    let sha1: &[u8] = &print.sha1;
    let sha256: &[u8] = &print.sha256;
    tx.execute(COPY_BODY, params![id, size, md5, sha1, sha256])?;
    Ok(())
}

/// Adds a body that is not whole yet under its number.
fn insert_begun<S: Alter>(tx: &mut Transaction<'_, S>, id: u64) -> Result<(), Error>
    ensures same_reference { IsSame tx.old tx.new }
    ensures ok { Writes S.Store tx.old tx.new result (with_body_at (id, record { print = None })) }
    ensures err { FailsInside S.Store tx.old tx.new result }
    ensures survives { CommitsNothing S.Store tx.old tx.new }
{
    let id = as_id(id);
    tx.execute(COPY_BEGUN, params![id])?;
    Ok(())
}

/// Adds a body under its number.
pub(crate) fn insert_body<S: Alter>(
    tx: &mut Transaction<'_, S>,
    id: u64,
    body: &BodyRow,
) -> Result<(), Error>
    ensures same_reference { IsSame tx.old tx.new }
    ensures ok { Writes S.Store tx.old tx.new result (with_body_at (id, body.now)) }
    ensures err { FailsInside S.Store tx.old tx.new result }
    ensures survives { CommitsNothing S.Store tx.old tx.new }
{
    match &body.print {
        Some(print) => insert_whole(tx, id, print),
        None => insert_begun(tx, id),
    }
}
