//! What the suites show after a change, as rows.

ghost use Rattle.std.specs.Prelude.{◌≡◌, fold, IfOk, OnOk};
ghost use Rattle.tables.specs.Items.{without_item};
ghost use Rattle.tables.specs.Refs.{without_refs};
ghost use Rattle.tables.specs.Rows.{with_ref};
ghost use Rattle.tables_meaning.specs.Kept.{item_row, refs_for};
ghost use Rattle.tables_meaning.specs.Making.{with_refs, with_shown, without_shown};
ghost use Rattle.tables_meaning.specs.Amending.{Makes};
ghost use Rattle.tables.specs.Calls.{CommitsNothing, Inside, IsSame, KeepsCommitted};

use para::{Listed, Text};
use rules::Suite;
use sqlite::{Alter, Error, Transaction};
use std::alloc::{AllocError, Global};
use suites::{Item, Plan, PoolFile, ShelfKey, codename_at};
use tables::items::{delete_item, insert_item, item_on};
use tables::refs::{delete_refs, insert_ref};
use tables::rows::{ItemRow, Ref};

/// Removes the item of a number, and its files.
fn remove_item<S: Alter>(tx: &mut Transaction<'_, S>, id: u64) -> Result<(), Error>
    ensures same_reference { IsSame tx.old tx.new }
    ensures ok { Inside S.Store tx.old tx.new (λ old new. OnOk result (Makes old new (λ t. without_item id (without_refs id t)))) }
    ensures err { KeepsCommitted S.Store tx.old tx.new result }
    ensures survives { CommitsNothing S.Store tx.old tx.new }
{
    delete_refs(tx, id)?;
    delete_item(tx, id)
}

/// Empties a shelf.
fn take_down<S: Alter>(
    alloc: Global,
    tx: &mut Transaction<'_, S>,
    suites: &[Suite],
    entry: &(ShelfKey, Item),
) -> Result<(), Error>
    ensures same_reference { IsSame tx.old tx.new }
    ensures ok { Inside S.Store tx.old tx.new (λ old new. OnOk result (Makes old new (without_shown suites.now entry.now))) }
    ensures err { KeepsCommitted S.Store tx.old tx.new result }
    ensures survives { CommitsNothing S.Store tx.old tx.new }
{
    let key = &entry.0;
    let found = item_on(
        alloc,
        tx,
        codename_at(suites, key.suite),
        key.kind.number(),
        key.package.as_str(),
        key.architecture.as_str(),
    )?;
    match found {
        Some(found) => remove_item(tx, found.0),
        None => Ok(()),
    }
}

/// Empties the shelves of these entries.
fn take_down_all<S: Alter>(
    alloc: Global,
    tx: &mut Transaction<'_, S>,
    suites: &[Suite],
    entries: &[(ShelfKey, Item)],
) -> Result<(), Error>
    ensures same_reference { IsSame tx.old tx.new }
    ensures ok { Inside S.Store tx.old tx.new (λ old new. OnOk result (Makes old new (λ t. fold (λ now e. without_shown suites.now e now) t entries.now))) }
    ensures err { KeepsCommitted S.Store tx.old tx.new result }
    ensures survives { CommitsNothing S.Store tx.old tx.new }
{
    for entry in entries {
        take_down(alloc, tx, suites, entry)?;
    }
    Ok(())
}

/// The row of an item on its shelf.
fn item_row(
    alloc: Global,
    suites: &[Suite],
    entry: &(ShelfKey, Item),
) -> Result<ItemRow, AllocError>
    ensures { IfOk result (λ row. row ≡ item_row suites.now entry.now) }
{
    let key = &entry.0;
    let item = &entry.1;
    Ok(ItemRow {
        suite: Text::new(alloc, codename_at(suites, key.suite))?,
        kind: key.kind.number(),
        package: key.package.try_clone()?,
        architecture: key.architecture.try_clone()?,
        version: Text::new(alloc, item.version.text())?,
        component: item.component.try_clone()?,
        source: item.source.try_clone()?,
        paragraph: Listed::from_vec(item.paragraph.as_str().as_bytes().to_vec(alloc)?),
    })
}

/// Adds the row of a file of an item, under its number in the item.
fn put_file<S: Alter>(
    tx: &mut Transaction<'_, S>,
    id: u64,
    number: u64,
    file: &PoolFile,
) -> Result<(), Error>
    ensures same_reference { IsSame tx.old tx.new }
    ensures ok { Inside S.Store tx.old tx.new (λ old new. OnOk result (Makes old new (with_ref (record { item = id; number = number; path = file.now.path; print = file.now.print })))) }
    ensures err { KeepsCommitted S.Store tx.old tx.new result }
    ensures survives { CommitsNothing S.Store tx.old tx.new }
{
    let path = file.path.try_clone()?;
    let reference = Ref {
        item: id,
        number,
        path,
        print: file.print,
    };
    insert_ref(tx, &reference)
}

/// Adds the rows of the files of an item, numbered from 1.
fn put_files<S: Alter>(tx: &mut Transaction<'_, S>, id: u64, item: &Item) -> Result<(), Error>
    ensures same_reference { IsSame tx.old tx.new }
    ensures ok { Inside S.Store tx.old tx.new (λ old new. OnOk result (Makes old new (with_refs (refs_for id item.now)))) }
    ensures err { KeepsCommitted S.Store tx.old tx.new result }
    ensures survives { CommitsNothing S.Store tx.old tx.new }
{
    let files = item.files.as_slice();
    for at in 0..files.len() {
        let number = (at + 1) as u64;
        put_file(tx, id, number, &files[at])?;
    }
    Ok(())
}

/// Puts an item on its shelf.
fn put_up<S: Alter>(
    alloc: Global,
    tx: &mut Transaction<'_, S>,
    suites: &[Suite],
    entry: &(ShelfKey, Item),
) -> Result<(), Error>
    ensures same_reference { IsSame tx.old tx.new }
    ensures ok { Inside S.Store tx.old tx.new (λ old new. OnOk result (Makes old new (with_shown suites.now entry.now))) }
    ensures err { KeepsCommitted S.Store tx.old tx.new result }
    ensures survives { CommitsNothing S.Store tx.old tx.new }
{
    let row = item_row(alloc, suites, entry)?;
    let id = insert_item(tx, &row)?;
    put_files(tx, id, &entry.1)
}

/// Puts these items on their shelves.
fn put_up_all<S: Alter>(
    alloc: Global,
    tx: &mut Transaction<'_, S>,
    suites: &[Suite],
    entries: &[(ShelfKey, Item)],
) -> Result<(), Error>
    ensures same_reference { IsSame tx.old tx.new }
    ensures ok { Inside S.Store tx.old tx.new (λ old new. OnOk result (Makes old new (λ t. fold (λ now e. with_shown suites.now e now) t entries.now))) }
    ensures err { KeepsCommitted S.Store tx.old tx.new result }
    ensures survives { CommitsNothing S.Store tx.old tx.new }
{
    for entry in entries {
        put_up(alloc, tx, suites, entry)?;
    }
    Ok(())
}

/// Takes down the items that a plan drops, and puts up those that it puts.
pub(crate) fn change_items<S: Alter>(
    alloc: Global,
    tx: &mut Transaction<'_, S>,
    suites: &[Suite],
    plan: &Plan,
) -> Result<(), Error>
    ensures same_reference { IsSame tx.old tx.new }
    ensures ok { Inside S.Store tx.old tx.new (λ old new. OnOk result (Makes old new (λ t. fold (λ now e. with_shown suites.now e now) (fold (λ now e. without_shown suites.now e now) t plan.now.dropped) plan.now.put))) }
    ensures err { KeepsCommitted S.Store tx.old tx.new result }
    ensures survives { CommitsNothing S.Store tx.old tx.new }
{
    let dropped = plan.dropped.as_slice();
    let put = plan.put.as_slice();
    take_down_all(alloc, tx, suites, dropped)?;
    put_up_all(alloc, tx, suites, put)
}
