//! A change of an archive: one that would put an item into no suite is refused.
//!
//! A change that puts an item into no suite, or a file without a body into the pool, is refused as a failure of the disk.

ghost use Rattle.std.specs.Prelude.{◌≡◌, ◌≤◌, true, false};
ghost use Rattle.std.specs.List.{list_all};
ghost use Rattle.book.specs.Book.{latest};
ghost use Rattle.tables.specs.Rows.{IsArchive};
ghost use Rattle.tables_meaning.specs.Changing.{is_within, puts_within};
ghost use Rattle.tables_meaning.specs.Calls.{CommitsOnly, StaysOpen, Undoes, WhileOpen};
ghost use Rattle.keep_tables.specs.ConnectionCalls.{EndsComing, HasChange, MakesChange, NothingComes, OnCommitted, SparesComing};

use book::{Change, Step};
use rules::Config;
use sqlite::{Alter, Connection, Error, ErrorCode};
use std::alloc::Global;
use suites::{Item, ShelfKey};
use tables_bodies::needs_sweep;
use tables_changes::amend;

/// Whether an item stands in one of the first `suites` suites.
#[tactic(auto, unfolding(tables_meaning::specs::Changing::is_within))]
fn is_inside(entry: &(ShelfKey, Item), suites: usize) -> bool
    ensures { result ≡ is_within suites entry.now }
{
    entry.0.suite < suites
}

/// Whether each of these items stands in one of the first `suites` suites.
fn are_inside(entries: &[(ShelfKey, Item)], suites: usize) -> bool
    ensures { result ≡ list_all (is_within suites) entries.now }
{
    for entry in entries {
        if !is_inside(entry, suites) {
            return false;
        }
    }
    true
}

/// Whether each item that a step puts stands in one of the first `suites` suites.
#[tactic(auto, unfolding(tables_meaning::specs::Changing::puts_within))]
fn puts_inside(step: &Step, suites: usize) -> bool
    ensures { result ≡ puts_within suites step.now }
{
    are_inside(step.plan.put.as_slice(), suites)
}

/// Whether each item that these steps put stands in one of the first `suites` suites.
fn stands_inside(steps: &[Step], suites: usize) -> bool
    ensures { result ≡ list_all (puts_within suites) steps.now }
{
    for step in steps {
        if !puts_inside(step, suites) {
            return false;
        }
    }
    true
}

/// Makes a change after `judged` judgements, whole or not at all, also over a crash. `whole` says that no body is coming: then
/// bodies that nothing uses are looked for only if there may be some. The change is refused if it would put an item into no
/// suite of the configuration, or a file into the pool that has no body.
pub(crate) fn make_change<S: Alter>(
    alloc: Global,
    conn: &mut Connection<S>,
    config: &Config,
    judged: usize,
    whole: bool,
    change: &Change,
) -> Result<(), Error>
    requires idle { conn.old.in_transaction ≡ false }
    requires in_time { change.now.moment ≤ latest }
    requires archive { WhileOpen S.Store conn.old (λ now. ∥ IsArchive now.committed ∥₁) }
    requires whole { whole ≡ true → WhileOpen S.Store conn.old (λ now. ∥ NothingComes now.committed ∥₁) }
    ensures idle { conn.new.in_transaction ≡ false }
    ensures open { StaysOpen S.Store conn.old conn.new result }
    ensures done { OnCommitted S.Store conn.old conn.new (MakesChange result config.now judged change.now) }
    // If it takes a file away nothing is coming afterwards, else what is coming stays.
    ensures ends { OnCommitted S.Store conn.old conn.new (EndsComing result config.now judged change.now) }
    ensures beside { OnCommitted S.Store conn.old conn.new (SparesComing result config.now change.now) }
    ensures undone { Undoes S.Store conn.old conn.new result }
    ensures crash { CommitsOnly S.Store conn.old conn.new (λ old db. HasChange config.now judged change.now old.committed db) }
{
    let steps = change.steps.as_slice();
    let inside = stands_inside(steps, config.suites().len());
    if !inside {
        return Err(Error::SqliteFailure(ErrorCode::DatabaseCorrupt));
    }
    let sweeps = needs_sweep(alloc, conn, whole, steps)?;
    // For the prover alone: outside a transaction the connection has what is committed.
    let _idle = conn.is_autocommit();
    amend(alloc, conn, config, judged as u64, sweeps, change)
}
