//! Another configuration in the rows of an archive, as one transaction.
//!
//! All texts, all dates and the configuration are written anew, also those that stay as they are: their rows have to be in the order of the
//! configuration. To write the configuration that is there already is a commit that changes nothing.

ghost use Rattle.std.specs.Prelude.{◌≡◌, ◌≤◌, false, All, length, OnOk};
ghost use Rattle.sqlite.specs.State.{Survives};
ghost use Rattle.sqlite.specs.Held.{state};
ghost use Rattle.book.specs.Book.{latest};
ghost use Rattle.tables_meaning.specs.Configuring.{with_configured};
ghost use Rattle.tables_meaning.specs.Transactions.{IsDone, MayCommit};
ghost use Rattle.tables.specs.Calls.{CommitsNothing, IsSame, KeepsCommitted, OnCleanDisk, Writes};
ghost use Rattle.tables_meaning.specs.Calls.{Undoes};

use crate::founding::{insert_dates, insert_texts};
use rules::Config;
use sqlite::{Alter, Connection, Error, Transaction};
use std::alloc::Global;
use suites::Shelves;
use tables::dates::delete_dates;
use tables::meta::update_configuration;
use tables::texts::delete_texts;

/// Writes another configuration inside a transaction: its text, and all texts and dates anew. No other row is touched.
pub fn configure_inside<S: Alter>(
    alloc: Global,
    tx: &mut Transaction<'_, S>,
    config: &Config,
    shelves: &Shelves,
    dates: &[u64],
) -> Result<(), Error>
    requires dated { length dates.now ≡ length config.now.suites }
    requires in_range { All (λ date. date ≤ latest) dates.now }
    ensures same_reference { IsSame tx.old tx.new }
    ensures ok { Writes S.Store tx.old tx.new result (with_configured config.now shelves.now dates.now) }
    ensures err { KeepsCommitted S.Store tx.old tx.new result }
    ensures survives { CommitsNothing S.Store tx.old tx.new }
{
    update_configuration(tx, config.text())?;
    delete_texts(tx)?;
    delete_dates(tx)?;
    insert_texts(alloc, tx, config, shelves, dates)?;
    insert_dates(tx, config, dates)
}

/// Gives the archive of a database another configuration, whole or not at all, also over a crash.
pub fn configure<S: Alter>(
    alloc: Global,
    conn: &mut Connection<S>,
    config: &Config,
    shelves: &Shelves,
    dates: &[u64],
) -> Result<(), Error>
    requires idle { conn.old.in_transaction ≡ false }
    requires dated { length dates.now ≡ length config.now.suites }
    requires in_range { All (λ date. date ≤ latest) dates.now }
    ensures idle { conn.new.in_transaction ≡ false }
    ensures done { OnCleanDisk S.Store conn.old conn.new (λ old new. OnOk result (IsDone old new (with_configured config.now shelves.now dates.now))) }
    ensures undone { Undoes S.Store conn.old conn.new result }
    ensures crash { Survives (state S.Store conn.old) (state S.Store conn.new) (MayCommit (state S.Store conn.old) (with_configured config.now shelves.now dates.now)) }
{
    let mut tx = conn.transaction();
    configure_inside(alloc, &mut tx, config, shelves, dates)?;
    tx.commit()
}
