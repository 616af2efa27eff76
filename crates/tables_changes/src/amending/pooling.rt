//! The files of the pool after a change, as rows.

ghost use Rattle.std.specs.Prelude.{fold, is_some, IsTrue, OnOk};
ghost use Rattle.tables.specs.Bodies.{body_with};
ghost use Rattle.tables.specs.Files.{without_file};
ghost use Rattle.tables.specs.Rows.{Tables, Holds};
ghost use Rattle.tables_meaning.specs.Making.{with_pooled};
ghost use Rattle.tables_meaning.specs.Amending.{HasBodies, Makes};
ghost use Rattle.tables.specs.Calls.{CommitsNothing, Inside, IsSame, KeepsCommitted};

use sqlite::{Alter, Error, ErrorCode, Transaction};
use std::alloc::Global;
use suites::{Plan, PoolFile};
use tables::bodies::body_with_print_inside;
use tables::files::{delete_file, insert_file};

/// Removes the files at these paths.
fn remove_files<S: Alter>(tx: &mut Transaction<'_, S>, files: &[PoolFile]) -> Result<(), Error>
    ensures same_reference { IsSame tx.old tx.new }
    ensures ok { Inside S.Store tx.old tx.new (λ old new. OnOk result (Makes old new (λ t. fold (λ now f. without_file f.path now) t files.now))) }
    ensures err { KeepsCommitted S.Store tx.old tx.new result }
    ensures survives { CommitsNothing S.Store tx.old tx.new }
{
    for file in files {
        delete_file(tx, file.path.as_str())?;
    }
    Ok(())
}

/// Adds a file of the pool. It is refused if no body of its print has arrived.
fn add_file<S: Alter>(
    alloc: Global,
    tx: &mut Transaction<'_, S>,
    file: &PoolFile,
) -> Result<(), Error>
    ensures same_reference { IsSame tx.old tx.new }
    ensures ok { Inside S.Store tx.old tx.new (λ old new. OnOk result (Makes old new (with_pooled file.now))) }
    ensures err { KeepsCommitted S.Store tx.old tx.new result }
    ensures survives { CommitsNothing S.Store tx.old tx.new }
    ensures bodies { Inside S.Store tx.old tx.new (λ old new. OnOk result ((t : Tables) → Holds old.now t → IsTrue (is_some (body_with file.now.print t.bodies)))) }
{
    let found = body_with_print_inside(alloc, tx, &file.print)?;
    match found {
        Some(body) => insert_file(tx, file.path.as_str(), body),
        None => Err(Error::SqliteFailure(ErrorCode::DatabaseCorrupt)),
    }
}

/// Adds these files to the pool.
fn add_files<S: Alter>(
    alloc: Global,
    tx: &mut Transaction<'_, S>,
    files: &[PoolFile],
) -> Result<(), Error>
    ensures same_reference { IsSame tx.old tx.new }
    ensures ok { Inside S.Store tx.old tx.new (λ old new. OnOk result (Makes old new (λ t. fold (λ now f. with_pooled f now) t files.now))) }
    ensures err { KeepsCommitted S.Store tx.old tx.new result }
    ensures survives { CommitsNothing S.Store tx.old tx.new }
    ensures bodies { Inside S.Store tx.old tx.new (λ old new. OnOk result ((t : Tables) → Holds old.now t → HasBodies t files.now)) }
{
    for file in files {
        add_file(alloc, tx, file)?;
    }
    Ok(())
}

/// Removes the files that a plan removes, and adds those that it adds.
pub(crate) fn change_pool<S: Alter>(
    alloc: Global,
    tx: &mut Transaction<'_, S>,
    plan: &Plan,
) -> Result<(), Error>
    ensures same_reference { IsSame tx.old tx.new }
    ensures ok { Inside S.Store tx.old tx.new (λ old new. OnOk result (Makes old new (λ t. fold (λ now f. with_pooled f now) (fold (λ now f. without_file f.path now) t plan.now.files_removed) plan.now.files_added))) }
    ensures err { KeepsCommitted S.Store tx.old tx.new result }
    ensures survives { CommitsNothing S.Store tx.old tx.new }
    ensures bodies { Inside S.Store tx.old tx.new (λ old new. OnOk result ((t : Tables) → Holds old.now t → HasBodies t plan.now.files_added)) }
{
    let removed = plan.files_removed.as_slice();
    let added = plan.files_added.as_slice();
    remove_files(tx, removed)?;
    add_files(alloc, tx, added)
}
