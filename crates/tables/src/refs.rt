//! The files of the items.

ghost use Rattle.std.specs.Prelude.{◌≡◌, filter, false};
ghost use Rattle.tables.specs.Rows.{with_ref, ref_of, rows_of};
ghost use Rattle.tables.specs.Refs.{is_ref_of, without_refs};
ghost use Rattle.tables.specs.Calls.{CommitsNothing, CommitsNothingOfOurs, FailsInside, IsSame, ReadFails, Reads, Writes};

use crate::cells::print_at;
use crate::number::{as_id, whole};
use crate::read::{FromRow, id_at, select, text_at, whole_at};
use crate::rows::Ref;
use sqlite::{Alter, Connection, Error, Row, Transaction, params};
use std::alloc::Global;

const INSERT_REF: &str =
    "INSERT INTO refs (item, number, path, size, md5, sha1, sha256) VALUES (?1, ?2, ?3, ?4, ?5, ?6, ?7)";

const SELECT_REFS_OF: &str =
    "SELECT rowid, item, number, path, size, md5, sha1, sha256 FROM refs WHERE item = ?1 ORDER BY rowid";

const DELETE_REFS: &str = "DELETE FROM refs WHERE item = ?1";

impl FromRow for Ref {
    ghost of_row = { ref_of };

    fn from_row(row: &Row) -> Result<Ref, Error> {
        Ok(Ref {
            item: id_at(row, 1)?,
            number: whole_at(row, 2)?,
            path: text_at(row, 3)?,
            print: print_at(row, 4)?,
        })
    }
}

/// Adds a file of an item. A place in the item that is taken already is refused.
pub fn insert_ref<S: Alter>(tx: &mut Transaction<'_, S>, reference: &Ref) -> Result<(), Error>
    ensures same_reference { IsSame tx.old tx.new }
    ensures ok { Writes S.Store tx.old tx.new result (with_ref reference.now) }
    ensures err { FailsInside S.Store tx.old tx.new result }
    ensures survives { CommitsNothing S.Store tx.old tx.new }
{
    let item = as_id(reference.item);
    let number = whole(reference.number)?;
    let path = reference.path.as_str();
    let size = whole(reference.print.size)?;
    let md5: &[u8] = &reference.print.md5;
    let sha1: &[u8] = &reference.print.sha1;
    let sha256: &[u8] = &reference.print.sha256;
    tx.execute(
        INSERT_REF,
        params![item, number, path, size, md5, sha1, sha256],
    )?;
    Ok(())
}

/// The files of an item, in the order in which they were added.
pub fn refs_of<S: Alter>(
    alloc: Global,
    conn: &mut Connection<S>,
    item: u64,
) -> Result<Vec<Ref>, Error>
    ensures idle { conn.old.in_transaction ≡ false → conn.new.in_transaction ≡ false }
    ensures ok { Reads S.Store conn.old conn.new result (λ t all. all.items ≡ filter (is_ref_of item) (rows_of t.refs)) }
    ensures err { ReadFails S.Store conn.old conn.new result }
    ensures survives { CommitsNothingOfOurs S.Store conn.old conn.new }
{
    let item = as_id(item);
    select(alloc, conn, SELECT_REFS_OF, params![item])
}

/// Removes the files of an item.
pub fn delete_refs<S: Alter>(tx: &mut Transaction<'_, S>, item: u64) -> Result<(), Error>
    ensures same_reference { IsSame tx.old tx.new }
    ensures ok { Writes S.Store tx.old tx.new result (without_refs item) }
    ensures err { FailsInside S.Store tx.old tx.new result }
    ensures survives { CommitsNothing S.Store tx.old tx.new }
{
    let item = as_id(item);
    tx.execute(DELETE_REFS, params![item])?;
    Ok(())
}
