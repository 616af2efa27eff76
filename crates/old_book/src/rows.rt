//! The rows of each table, one after another.

ghost use Rattle.std.specs.Prelude.{OnOk};
ghost use Rattle.tables_read.specs.All.{tables_with};
ghost use Rattle.old_book.specs.Copying.{AreRising, Copies};
ghost use Rattle.old_book.specs.Placed.{Writes, each, with_arrived, with_uploaded, with_shown};
ghost use Rattle.tables.specs.Calls.{CommitsNothing, Inside, IsSame, KeepsCommitted};

use crate::written::Written;
use sqlite::{Alter, Error, Transaction};
use tables_read::AllRows;

/// Adds the rows of a table, as of the moment.
fn write_all<S: Alter, T: Written>(
    tx: &mut Transaction<'_, S>,
    all: &[(u64, T)],
    moment: u64,
) -> Result<(), Error>
    ensures same_reference { IsSame tx.old tx.new }
    ensures ok { Inside S.Store tx.old tx.new (λ old new. OnOk result (Writes old new (each (T.change moment) all.now))) }
    ensures err { KeepsCommitted S.Store tx.old tx.new result }
    ensures survives { CommitsNothing S.Store tx.old tx.new }
{
    for row in all {
        row.1.insert(tx, row.0, moment)?;
    }
    Ok(())
}

/// Adds the bodies, their pieces, and the names under which they arrived, as of the moment.
fn write_arrived<S: Alter>(
    tx: &mut Transaction<'_, S>,
    all: &AllRows,
    moment: u64,
) -> Result<(), Error>
    ensures same_reference { IsSame tx.old tx.new }
    ensures ok { Inside S.Store tx.old tx.new (λ old new. OnOk result (Writes old new (with_arrived (tables_with all.now) moment))) }
    ensures err { KeepsCommitted S.Store tx.old tx.new result }
    ensures survives { CommitsNothing S.Store tx.old tx.new }
{
    write_all(tx, &all.bodies, moment)?;
    write_all(tx, &all.pieces, moment)?;
    write_all(tx, &all.arrivals, moment)
}

/// Adds the uploads and their entries.
fn write_uploaded<S: Alter>(
    tx: &mut Transaction<'_, S>,
    all: &AllRows,
    moment: u64,
) -> Result<(), Error>
    ensures same_reference { IsSame tx.old tx.new }
    ensures ok { Inside S.Store tx.old tx.new (λ old new. OnOk result (Writes old new (with_uploaded (tables_with all.now)))) }
    ensures err { KeepsCommitted S.Store tx.old tx.new result }
    ensures survives { CommitsNothing S.Store tx.old tx.new }
{
    write_all(tx, &all.uploads, moment)?;
    write_all(tx, &all.wants, moment)
}

/// Adds the items, their files, and the files of the pool.
fn write_shown<S: Alter>(
    tx: &mut Transaction<'_, S>,
    all: &AllRows,
    moment: u64,
) -> Result<(), Error>
    ensures same_reference { IsSame tx.old tx.new }
    ensures ok { Inside S.Store tx.old tx.new (λ old new. OnOk result (Writes old new (with_shown (tables_with all.now)))) }
    ensures err { KeepsCommitted S.Store tx.old tx.new result }
    ensures survives { CommitsNothing S.Store tx.old tx.new }
{
    write_all(tx, &all.items, moment)?;
    write_all(tx, &all.refs, moment)?;
    write_all(tx, &all.files, moment)
}

/// Copies the rows of bodies, pieces, arrivals, uploads, wants, items, refs and files into tables that have none of these, each
/// arrival as of the moment, in seconds since 1970-01-01 00:00:00 UTC.
pub fn write_rows<S: Alter>(
    tx: &mut Transaction<'_, S>,
    all: &AllRows,
    moment: u64,
) -> Result<(), Error>
    requires rising { AreRising (tables_with all.now) }
    ensures same_reference { IsSame tx.old tx.new }
    ensures ok { Inside S.Store tx.old tx.new (λ old new. OnOk result (Copies old new (tables_with all.now) moment)) }
    ensures err { KeepsCommitted S.Store tx.old tx.new result }
    ensures survives { CommitsNothing S.Store tx.old tx.new }
{
    write_arrived(tx, all, moment)?;
    write_uploaded(tx, all, moment)?;
    write_shown(tx, all, moment)
}
