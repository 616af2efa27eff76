//! Items under the numbers that they have.

ghost use Rattle.old_book.specs.Placed.{with_item_at};
ghost use Rattle.tables.specs.Calls.{CommitsNothing, FailsInside, IsSame, Writes};

use sqlite::{Alter, Error, Transaction, params};
use tables::number::{as_id, whole};
use tables::rows::ItemRow;

const COPY_ITEM: &str =
    "INSERT INTO items (id, suite, kind, package, architecture, version, component, source, paragraph) VALUES (?1, ?2, ?3, ?4, ?5, ?6, ?7, ?8, ?9)";

/// Adds an item under its number.
pub(crate) fn insert_item<S: Alter>(
    tx: &mut Transaction<'_, S>,
    id: u64,
    item: &ItemRow,
) -> Result<(), Error>
    ensures same_reference { IsSame tx.old tx.new }
    ensures ok { Writes S.Store tx.old tx.new result (with_item_at (id, item.now)) }
    ensures err { FailsInside S.Store tx.old tx.new result }
    ensures survives { CommitsNothing S.Store tx.old tx.new }
{
    let id = as_id(id);
    let suite = item.suite.as_str();
    let kind = whole(item.kind)?;
    let package = item.package.as_str();
    let architecture = item.architecture.as_str();
    let version = item.version.as_str();
    let component = item.component.as_str();
    let source = item.source.as_str();
    let paragraph = item.paragraph.as_slice();
    tx.execute(
        COPY_ITEM,
        params![
            id,
            suite,
            kind,
            package,
            architecture,
            version,
            component,
            source,
            paragraph
        ],
    )?;
    Ok(())
}
