//! Opens an archive that a database keeps.
//!
//! The texts of the indices are made anew, to be compared with the rows, and those that Release lists are hashed. The keeper is handed
//! their prints, and what the suites show, so that the first run after an opening need not find them out again.

ghost use Rattle.std.specs.Prelude.{◌≡◌, ◌≢◌, None, false, IfOk, IfErr, OnErr};
ghost use Rattle.sqlite.specs.State.{HasCleanDisk, Survives};
ghost use Rattle.sqlite.specs.Held.{state};
ghost use Rattle.book.specs.declared.fault.KeepFault.TheVariants.{NoArchive};
ghost use Rattle.tables.specs.Causes.{IsCaused};
ghost use Rattle.tables.specs.Rows.{Fails, Rises, Stands, tables_in};
ghost use Rattle.tables.specs.Others.{IsArchiveSchema};
ghost use Rattle.tables_read.specs.All.{AreConstrained, tables_with};
ghost use Rattle.tables_meaning.specs.Kept.{AreReadable};
ghost use Rattle.tables_meaning.specs.Archives.{KeepsArchive};
ghost use Rattle.tables_meaning.specs.Finished.{AreUnderWay, finished};
ghost use Rattle.tables_meaning.specs.Shown.{shown_in};
ghost use Rattle.tables_meaning.specs.Transactions.{MayCommit};
ghost use Rattle.tables_audit.specs.Whole.{KeepsNone, KeepsSome};
ghost use Rattle.keep_tables.specs.Finishing.{unfinished_ids};
ghost use Rattle.keep_tables.specs.AtHand.{AreKnown};
ghost use Rattle.keep_tables.specs.Opened.{HasUnfinished, FindsArchive, HasPrintsFound, IfFound, IsFound, IsNoArchive, ShowsFound};
ghost use Rattle.tables.specs.Calls.{NeverCommits, OnCleanDisk};
ghost use Rattle.tables_meaning.specs.Calls.{WhileOpen};
ghost use Rattle.keep_tables.specs.Calls.{FaultLeaves, GivesBack, RefusesBusy, RefusesNoArchive, SaysWhy};
ghost use Rattle.keep_tables.specs.ConnectionCalls.{NothingComes};
ghost use Rattle.keep_tables.specs.KeeperCalls.{KeeperLeaves, OpensFinished};

mod unfinished;

use crate::keeper::TableKeeper;
use crate::opening::unfinished::{are_named, finished_rows, unfinished_among};
use book::KeepFault;
use sqlite::{Alter, Connection, Error};
use std::alloc::{AllocError, Global};
use tables_audit::{Held, archive_in, are_under_way, is_archive_schema};
use tables_bodies::remove_all;
use tables_meaning::fault_of;
use tables_read::{AllRows, InOrder, read_all};

/// An archive that was found: what a keeper holds of it, and the numbers of the bodies that are not whole.
#[derive(Drop)]
struct Found {
    held: Held,
    unfinished: Vec<u64>,
}

/// The archive with these rows, once the bodies that are not whole are removed, if the rows are those of one. The pieces of
/// these bodies have to be as those of whole ones.
fn found_in(alloc: Global, all: AllRows) -> Result<Option<Found>, AllocError>
    ensures some { AreConstrained (tables_with all) → IfFound result (λ found. KeepsSome (finished (tables_with all)) found.held.config found.held.judged.items found.held.dates.items
        × AreUnderWay (tables_with all) × (found.unfinished.items ≡ unfinished_ids (tables_with all).bodies)) }
    ensures shown { AreConstrained (tables_with all) → IfFound result (ShowsFound (tables_with all)) }
    ensures printed { IfFound result (HasPrintsFound (tables_with all)) }
    ensures none { AreConstrained (tables_with all) → Rises (tables_with all).bodies → IfOk result (λ o. o ≡ None → AreReadable (tables_with all) → AreUnderWay (tables_with all)
        → KeepsNone (finished (tables_with all))) }
{
    let unfinished = unfinished_among(alloc, &all.bodies)?;
    if are_named(&all, &unfinished) {
        return Ok(None);
    }
    if !are_under_way(alloc, &all)? {
        return Ok(None);
    }
    let whole = finished_rows(all, &unfinished);
    let Some(held) = archive_in(alloc, &whole)? else {
        return Ok(None);
    };
    Ok(Some(Found { held, unfinished }))
}

/// The archive of a database that has the tables of an archive, if its rows are those of one, as `found_in` finds it.
fn archive_of<S: InOrder>(alloc: Global, conn: &mut Connection<S>) -> Result<Option<Found>, Error>
    requires idle { conn.old.in_transaction ≡ false }
    requires archive { IsArchiveSchema (state S.Store conn.old).now.schema }
    ensures idle { conn.old.in_transaction ≡ false → conn.new.in_transaction ≡ false }
    ensures some { OnCleanDisk S.Store conn.old conn.new (λ old new. IfFound result (FindsArchive old new)) }
    ensures shown { OnCleanDisk S.Store conn.old conn.new (λ old new. IfFound result (ShowsFound (tables_in old.now))) }
    ensures printed { OnCleanDisk S.Store conn.old conn.new (λ old new. IfFound result (HasPrintsFound (tables_in old.now))) }
    ensures none { OnCleanDisk S.Store conn.old conn.new (λ old new. IfOk result (λ o. o ≡ None → Stands old new × IsNoArchive old.now)) }
    ensures err { OnCleanDisk S.Store conn.old conn.new (λ old new. OnErr result (Fails old new)) }
    ensures cause { OnCleanDisk S.Store conn.old conn.new (λ old new. IfErr result (IsCaused old new)) }
    ensures survives { NeverCommits S.Store conn.old conn.new }
{
    // For the prover alone: what the keys of the tables keep true holds of each open connection.
    let _ = conn.schema();
    let Some(all) = read_all(alloc, conn)? else {
        return Ok(None);
    };
    Ok(found_in(alloc, all)?)
}

/// The archive of a database, if it keeps one, as `found_in` finds it.
fn find_archive<S: InOrder>(alloc: Global, conn: &mut Connection<S>) -> Result<Option<Found>, Error>
    requires idle { conn.old.in_transaction ≡ false }
    ensures idle { conn.old.in_transaction ≡ false → conn.new.in_transaction ≡ false }
    ensures some { OnCleanDisk S.Store conn.old conn.new (λ old new. IfFound result (FindsArchive old new)) }
    ensures shown { OnCleanDisk S.Store conn.old conn.new (λ old new. IfFound result (ShowsFound (tables_in old.now))) }
    ensures printed { OnCleanDisk S.Store conn.old conn.new (λ old new. IfFound result (HasPrintsFound (tables_in old.now))) }
    ensures none { OnCleanDisk S.Store conn.old conn.new (λ old new. IfOk result (λ o. o ≡ None → Stands old new × IsNoArchive old.now)) }
    ensures err { OnCleanDisk S.Store conn.old conn.new (λ old new. OnErr result (Fails old new)) }
    ensures cause { OnCleanDisk S.Store conn.old conn.new (λ old new. IfErr result (IsCaused old new)) }
    ensures survives { NeverCommits S.Store conn.old conn.new }
{
    if !is_archive_schema(alloc, conn)? {
        return Ok(None);
    }
    archive_of(alloc, conn)
}

/// The keeper over the tables of an archive whose bodies are whole.
fn keeper_over<S: Alter + Drop>(connection: Connection<S>, held: Held) -> TableKeeper<S>
    requires idle { connection.in_transaction ≡ false }
    requires kept { WhileOpen S.Store connection (λ now. ∥ KeepsArchive now.committed held.config held.judged.items (shown_in held.config.suites (tables_in now.committed)) held.dates.items ∥₁) }
    requires whole { WhileOpen S.Store connection (λ now. NothingComes now.committed) }
    requires shown { WhileOpen S.Store connection (λ now. held.shelves ≡ shown_in held.config.suites (tables_in now.committed)) }
    requires known { WhileOpen S.Store connection (λ now. ∥ AreKnown held.config (shown_in held.config.suites (tables_in now.committed)) held.dates.items held.prints.items ∥₁) }
    ensures conn { result.conn ≡ connection }
    ensures held { (result.config ≡ held.config) × (result.judged ≡ held.judged) × (result.dates ≡ held.dates) }
{
    let Held {
        config,
        judged,
        dates,
        shelves,
        prints,
    } = held;
    TableKeeper::over(connection, config, judged, dates, Some(shelves), prints)
}

/// The keeper of an archive that was found. The bodies that are not whole are removed first.
fn keeper_of<S: Alter + Drop>(
    mut connection: Connection<S>,
    found: Found,
) -> Result<TableKeeper<S>, (Connection<S>, KeepFault)>
    requires idle { connection.in_transaction ≡ false }
    requires found { HasCleanDisk (state S.Store connection) → IsFound (state S.Store connection) found.held.config found.held.judged.items found.held.dates.items found.unfinished.items }
    requires shown { HasCleanDisk (state S.Store connection) → ShowsFound (tables_in (state S.Store connection).now) found }
    requires printed { HasCleanDisk (state S.Store connection) → HasPrintsFound (tables_in (state S.Store connection).now) found }
    ensures opened { OpensFinished S.Store connection result }
    ensures fault { IfErr result (λ e. e.1 ≢ NoArchive) }
    ensures told { IfErr result (λ e. HasCleanDisk (state S.Store e.0) → HasUnfinished (state S.Store connection).now) }
    ensures undone { GivesBack S.Store connection result }
    ensures crash { KeeperLeaves S.Store connection result (λ was. MayCommit was finished) }
    ensures crash_undone { FaultLeaves S.Store connection result (λ was. MayCommit was finished) }
{
    let Found { held, unfinished } = found;
    if unfinished.is_empty() {
        return Ok(keeper_over(connection, held));
    }
    match remove_all(&mut connection, &unfinished) {
        Ok(()) => Ok(keeper_over(connection, held)),
        Err(failure) => Err((connection, fault_of(failure))),
    }
}

impl<S: InOrder + Drop> TableKeeper<S> {
    /// The keeper over the tables of a database that keeps an archive, without the bodies that are not whole: an opening
    /// takes these away, with their pieces. A fault gives the connection back, and what was committed is as before. The fault
    /// is `KeepFault::NoArchive` only if a transaction is open or the database keeps no archive. Another fault comes only
    /// if memory is wanting, the store fails meanwhile, the connection was shut or has a limit on steps, or some body is not
    /// whole. A crash leaves what was there, or that without these bodies.
    pub fn open(
        alloc: Global,
        mut connection: Connection<S>,
    ) -> Result<TableKeeper<S>, (Connection<S>, KeepFault)>
        ensures opened { OpensFinished S.Store connection result }
        ensures refused { RefusesNoArchive S.Store connection result }
        ensures told { SaysWhy S.Store connection result }
        ensures busy { RefusesBusy S.Store connection result }
        ensures undone { GivesBack S.Store connection result }
        ensures crash { KeeperLeaves S.Store connection result (λ was. MayCommit was finished) }
        ensures crash_refused { IfErr result (λ e. e.1 ≡ NoArchive → Survives (state S.Store connection) (state S.Store e.0) (λ _. ⊥)) }
        ensures crash_undone { FaultLeaves S.Store connection result (λ was. MayCommit was finished) }
    {
        if !connection.is_autocommit() {
            return Err((connection, KeepFault::NoArchive));
        }
        match find_archive(alloc, &mut connection) {
            Ok(Some(found)) => keeper_of(connection, found),
            Ok(None) => Err((connection, KeepFault::NoArchive)),
            Err(error) => Err((connection, fault_of(error))),
        }
    }
}
