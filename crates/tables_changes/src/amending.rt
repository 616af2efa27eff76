//! A change of an archive, as one transaction.

ghost use Rattle.std.specs.Prelude.{◌≡◌, false, OnOk, OnErr};
ghost use Rattle.sqlite.specs.State.{HasCleanDisk, KeepsCommit, IsUnchanged, Survives};
ghost use Rattle.sqlite.specs.Held.{state};
ghost use Rattle.tables.specs.Rows.{Tables, Holds};
ghost use Rattle.tables_meaning.specs.Making.{with_new_dates, with_new_texts, with_written};
ghost use Rattle.tables_meaning.specs.Amending.{HasAllBodies, Makes};
ghost use Rattle.tables_meaning.specs.Transactions.{IsDone, MayCommit};
ghost use Rattle.tables_bodies.specs.Swept.{with_made};
ghost use Rattle.tables.specs.Calls.{CommitsNothing, Inside, IsSame, KeepsCommitted, OnCleanDisk, Writes};
ghost use Rattle.tables_meaning.specs.Calls.{Undoes};

mod judging;
mod pooling;
mod renewing;
mod showing;
mod stepping;

use crate::amending::renewing::{renew_dates, renew_texts};
use crate::amending::stepping::make_steps;
use book::Change;
use rules::Config;
use sqlite::{Alter, Connection, Error, Transaction};
use std::alloc::Global;
use tables_bodies::sweep;

/// Refuses a connection that an earlier failure of the disk has shut.
fn confirm_open<S: Alter>(tx: &mut Transaction<'_, S>) -> Result<(), Error>
    ensures same_reference { IsSame tx.old tx.new }
    ensures ok { HasCleanDisk (state S.Store tx.new.conn.now) → OnOk result (IsUnchanged (state S.Store tx.old.conn.now) (state S.Store tx.new.conn.now)) }
    ensures err { HasCleanDisk (state S.Store tx.new.conn.now) → OnErr result (KeepsCommit (state S.Store tx.old.conn.now) (state S.Store tx.new.conn.now)) }
    ensures survives { CommitsNothing S.Store tx.old tx.new }
{
    tx.prepare("SELECT 1")?;
    Ok(())
}

/// Renews the index texts and the dates that a change renews.
fn renew<S: Alter>(
    tx: &mut Transaction<'_, S>,
    config: &Config,
    change: &Change,
) -> Result<(), Error>
    ensures same_reference { IsSame tx.old tx.new }
    ensures ok { Inside S.Store tx.old tx.new (λ old new. OnOk result (Makes old new (λ t. with_new_dates config.now.suites change.now.moment change.now.steps (with_new_texts change.now.texts t)))) }
    ensures err { KeepsCommitted S.Store tx.old tx.new result }
    ensures survives { CommitsNothing S.Store tx.old tx.new }
{
    let suites = config.suites();
    let steps = change.steps.as_slice();
    let texts = change.texts.as_slice();
    renew_texts(tx, texts)?;
    renew_dates(tx, suites, change.moment, steps)
}

/// Writes a change after `judged` judgements, inside a transaction.
fn write_inside<S: Alter>(
    alloc: Global,
    tx: &mut Transaction<'_, S>,
    config: &Config,
    judged: u64,
    change: &Change,
) -> Result<(), Error>
    ensures same_reference { IsSame tx.old tx.new }
    ensures ok { Writes S.Store tx.old tx.new result (with_written config.now judged change.now) }
    ensures err { KeepsCommitted S.Store tx.old tx.new result }
    ensures survives { CommitsNothing S.Store tx.old tx.new }
    ensures bodies { Inside S.Store tx.old tx.new (λ old new. OnOk result ((t : Tables) → Holds old.now t → HasAllBodies t change.now.steps)) }
{
    let suites = config.suites();
    let steps = change.steps.as_slice();
    confirm_open(tx)?;
    make_steps(alloc, tx, suites, judged, steps)?;
    renew(tx, config, change)
}

/// Makes a change after `judged` judgements, inside a transaction. If it sweeps, bodies that nothing uses then are removed.
fn amend_inside<S: Alter>(
    alloc: Global,
    tx: &mut Transaction<'_, S>,
    config: &Config,
    judged: u64,
    sweeps: bool,
    change: &Change,
) -> Result<(), Error>
    ensures same_reference { IsSame tx.old tx.new }
    ensures ok { Writes S.Store tx.old tx.new result (with_made sweeps config.now judged change.now) }
    ensures err { KeepsCommitted S.Store tx.old tx.new result }
    ensures survives { CommitsNothing S.Store tx.old tx.new }
    ensures bodies { Inside S.Store tx.old tx.new (λ old new. OnOk result ((t : Tables) → Holds old.now t → HasAllBodies t change.now.steps)) }
{
    write_inside(alloc, tx, config, judged, change)?;
    if sweeps {
        return sweep(alloc, tx);
    }
    Ok(())
}

/// Makes a change after `judged` judgements, whole or not at all, also over a crash. It is refused if a file that it adds to the pool has
/// no body. If it sweeps, bodies that nothing uses then are removed.
pub fn amend<S: Alter>(
    alloc: Global,
    conn: &mut Connection<S>,
    config: &Config,
    judged: u64,
    sweeps: bool,
    change: &Change,
) -> Result<(), Error>
    requires idle { conn.old.in_transaction ≡ false }
    ensures idle { conn.new.in_transaction ≡ false }
    ensures done { OnCleanDisk S.Store conn.old conn.new (λ old new. OnOk result (IsDone old new (with_made sweeps config.now judged change.now))) }
    ensures bodies { OnCleanDisk S.Store conn.old conn.new (λ old new. OnOk result ((t : Tables) → Holds old.now t → HasAllBodies t change.now.steps)) }
    ensures undone { Undoes S.Store conn.old conn.new result }
    ensures crash { Survives (state S.Store conn.old) (state S.Store conn.new) (λ trees. MayCommit (state S.Store conn.old) (with_made sweeps config.now judged change.now) trees
        × ((t : Tables) → Holds (state S.Store conn.old).now t → HasAllBodies t change.now.steps)) }
{
    let mut tx = conn.transaction();
    amend_inside(alloc, &mut tx, config, judged, sweeps, change)?;
    tx.commit()
}
