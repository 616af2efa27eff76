//! What the suites show.

ghost use Rattle.std.specs.Prelude.{◌≡◌, find, false};
ghost use Rattle.tables.specs.Rows.{with_item, item_of, next_in};
ghost use Rattle.tables.specs.Items.{is_item, without_item};
ghost use Rattle.tables.specs.Calls.{CommitsNothing, CommitsNothingOfOurs, FailsInside, GoesOnInside, IsSame, KeepsCommitted, LookFails, Looks, ReadFails, Reads, Writes, WritesAnd};

use crate::cells::row_number;
use crate::number::{as_id, whole};
use crate::read::{FromRow, bytes_at, select, select_first_inside, text_at, whole_at};
use crate::rows::ItemRow;
use sqlite::{Alter, Connection, Error, Row, Transaction, params};
use std::alloc::Global;

const INSERT_ITEM: &str =
    "INSERT INTO items (suite, kind, package, architecture, version, component, source, paragraph) VALUES (?1, ?2, ?3, ?4, ?5, ?6, ?7, ?8)";

const SELECT_ITEMS: &str =
    "SELECT rowid, id, suite, kind, package, architecture, version, component, source, paragraph FROM items ORDER BY rowid";

const SELECT_ITEM: &str =
    "SELECT rowid, id, suite, kind, package, architecture, version, component, source, paragraph FROM items WHERE suite = ?1 AND kind = ?2 AND package = ?3 AND architecture = ?4 ORDER BY rowid";

const DELETE_ITEM: &str = "DELETE FROM items WHERE id = ?1";

impl FromRow for ItemRow {
    ghost of_row = { item_of };

    fn from_row(row: &Row) -> Result<ItemRow, Error> {
        Ok(ItemRow {
            suite: text_at(row, 2)?,
            kind: whole_at(row, 3)?,
            package: text_at(row, 4)?,
            architecture: text_at(row, 5)?,
            version: text_at(row, 6)?,
            component: text_at(row, 7)?,
            source: text_at(row, 8)?,
            paragraph: bytes_at(row, 9)?,
        })
    }
}

/// Adds an item, and answers its number. It is refused if the suite already shows one under its kind, package and
/// architecture.
pub fn insert_item<S: Alter>(tx: &mut Transaction<'_, S>, item: &ItemRow) -> Result<u64, Error>
    ensures same_reference { IsSame tx.old tx.new }
    ensures ok { WritesAnd S.Store tx.old tx.new result (with_item item.now) (λ id t. id ≡ next_in t.items) }
    ensures err { FailsInside S.Store tx.old tx.new result }
    ensures survives { CommitsNothing S.Store tx.old tx.new }
{
    let suite = item.suite.as_str();
    let kind = whole(item.kind)?;
    let package = item.package.as_str();
    let architecture = item.architecture.as_str();
    let version = item.version.as_str();
    let component = item.component.as_str();
    let source = item.source.as_str();
    let paragraph = item.paragraph.as_slice();
    tx.execute(
        INSERT_ITEM,
        params![
            suite,
            kind,
            package,
            architecture,
            version,
            component,
            source,
            paragraph
        ],
    )?;
    Ok(row_number(tx.last_insert_rowid()))
}

/// What a suite shows under a kind, a package and an architecture, with its number.
pub fn item_on<S: Alter>(
    alloc: Global,
    tx: &mut Transaction<'_, S>,
    suite: &str,
    kind: u64,
    package: &str,
    architecture: &str,
) -> Result<Option<(u64, ItemRow)>, Error>
    ensures same_reference { IsSame tx.old tx.new }
    ensures ok { Looks S.Store tx.old tx.new result (λ t found. found ≡ find (λ x. is_item suite.now kind «package».now architecture.now x.1) t.items) }
    ensures err { LookFails S.Store tx.old tx.new result }
    ensures goes_on { GoesOnInside S.Store tx.old tx.new result }
    ensures kept { KeepsCommitted S.Store tx.old tx.new result }
    ensures survives { CommitsNothing S.Store tx.old tx.new }
{
    let kind = whole(kind)?;
    select_first_inside(
        alloc,
        tx,
        SELECT_ITEM,
        params![suite, kind, package, architecture],
    )
}

/// Removes the item of a number. Its files go first: an item that still has some is refused.
pub fn delete_item<S: Alter>(tx: &mut Transaction<'_, S>, id: u64) -> Result<(), Error>
    ensures same_reference { IsSame tx.old tx.new }
    ensures ok { Writes S.Store tx.old tx.new result (without_item id) }
    ensures err { FailsInside S.Store tx.old tx.new result }
    ensures survives { CommitsNothing S.Store tx.old tx.new }
{
    let id = as_id(id);
    tx.execute(DELETE_ITEM, params![id])?;
    Ok(())
}

/// The items with their numbers, in the order of these.
pub fn select_items<S: Alter>(
    alloc: Global,
    conn: &mut Connection<S>,
) -> Result<Vec<(u64, ItemRow)>, Error>
    ensures idle { conn.old.in_transaction ≡ false → conn.new.in_transaction ≡ false }
    ensures ok { Reads S.Store conn.old conn.new result (λ t all. all.items ≡ t.items) }
    ensures err { ReadFails S.Store conn.old conn.new result }
    ensures survives { CommitsNothingOfOurs S.Store conn.old conn.new }
{
    select(alloc, conn, SELECT_ITEMS, &[])
}
