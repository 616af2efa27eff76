//! The transaction of a migration.

ghost use Rattle.std.specs.Prelude.{◌≡◌, ◌≤◌, false, OnOk};
ghost use Rattle.sqlite.specs.State.{Survives};
ghost use Rattle.sqlite.specs.Held.{state};
ghost use Rattle.book.specs.Configured.{AreAlike};
ghost use Rattle.tables_meaning.specs.Founding.{Founds, IsFounded, MayFound};
ghost use Rattle.migrate.specs.Migrated.{migrated_rows, old_config};
ghost use Rattle.tables.specs.Calls.{CommitsNothing, Inside, IsSame, KeepsCommitted, OnCleanDisk};
ghost use Rattle.tables_meaning.specs.Calls.{Undoes};

use book::LATEST;
use old_book::{OldBook, write_rows};
use rules::Config;
use sqlite::{Alter, Connection, Error, Transaction};
use std::alloc::Global;
use tables_changes::{configure_inside, found_inside};

/// Makes the tables of an archive and its indexes in a database that has no table, and writes the rows of the old book into them,
/// each arrival as of the moment, with the configuration, and the texts and the dates under it.
fn migrate_inside<S: Alter>(
    alloc: Global,
    tx: &mut Transaction<'_, S>,
    old: &OldBook,
    config: &Config,
    moment: u64,
) -> Result<(), Error>
    requires alike { AreAlike (old_config old.now) config.now }
    requires moment { moment ≤ LATEST }
    ensures same_reference { IsSame tx.old tx.new }
    ensures ok { Inside S.Store tx.old tx.new (λ before after. OnOk result (Founds before after (migrated_rows old.now config.now moment))) }
    ensures err { KeepsCommitted S.Store tx.old tx.new result }
    ensures survives { CommitsNothing S.Store tx.old tx.new }
{
    found_inside(alloc, tx, config, moment)?;
    write_rows(tx, old.rows(), moment)?;
    configure_inside(alloc, tx, config, old.shelves(), old.dates())
}

/// Makes the archive of the old book under the configuration in a database that has no table. Either all of it is there or nothing,
/// also over a crash.
pub fn write_archive<S: Alter>(
    alloc: Global,
    conn: &mut Connection<S>,
    old: &OldBook,
    config: &Config,
    moment: u64,
) -> Result<(), Error>
    requires idle { conn.old.in_transaction ≡ false }
    requires alike { AreAlike (old_config old.now) config.now }
    requires moment { moment ≤ LATEST }
    ensures idle { conn.new.in_transaction ≡ false }
    ensures done { OnCleanDisk S.Store conn.old conn.new (λ before after. OnOk result (IsFounded before after (migrated_rows old.now config.now moment))) }
    ensures undone { Undoes S.Store conn.old conn.new result }
    ensures crash { Survives (state S.Store conn.old) (state S.Store conn.new) (MayFound (state S.Store conn.old) (migrated_rows old.now config.now moment)) }
{
    let mut tx = conn.transaction();
    migrate_inside(alloc, &mut tx, old, config, moment)?;
    tx.commit()
}
