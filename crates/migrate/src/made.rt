//! The archive that a migration makes.

ghost use Rattle.std.specs.Prelude.{◌≡◌, ◌≤◌, false, IsTrue, IfOk, IfErr};
ghost use Rattle.sqlite.specs.State.{HasCleanDisk};
ghost use Rattle.sqlite.specs.Held.{state};
ghost use Rattle.book.specs.declared.fault.KeepFault.TheVariants.{Configuration as NotAlike};
ghost use Rattle.tables.specs.Schema.{no_schema};
ghost use Rattle.tables_meaning.specs.Founding.{MayFound};
ghost use Rattle.keep_tables.specs.Keepers.{connection_of, table_book};
ghost use Rattle.migrate.specs.Migrated.{HasItsSuites, migrated_book, migrated_rows};
ghost use Rattle.keep_tables.specs.Calls.{FaultLeaves, GivesBack, Refuses, RefusesOnlyTaken, RefusesTaken};
ghost use Rattle.keep_tables.specs.KeeperCalls.{KeeperLeaves};

use crate::alike::are_alike;
use crate::writing::write_archive;
use book::{KeepFault, LATEST, copied_judgements};
use keep_tables::TableKeeper;
use old_book::OldBook;
use rules::Config;
use sqlite::{Alter, Connection};
use std::alloc::Global;
use tables_changes::is_without_tables;
use tables_meaning::fault_of;

/// Makes the archive of an old book under another configuration, in a database that has no table, no index and no view. All arrivals are as
/// of the moment, in seconds since 1970-01-01 00:00:00 UTC. The configuration has the same suites in the same order: only KeepDays,
/// ValidDays and MaxFileSize may differ. A fault gives the connection back, and then what was committed is as before. It is
/// `KeepFault::NoArchive` exactly if the database has an object already or a transaction is begun, and else `KeepFault::Configuration`
/// exactly if the suites differ. A crash leaves what was there before or the whole archive.
pub fn migrate<S: Alter + Drop>(
    alloc: Global,
    mut to: Connection<S>,
    old: &OldBook,
    config: Config,
    moment: u64,
) -> Result<TableKeeper<S>, (Connection<S>, KeepFault)>
    requires { moment ≤ LATEST }
    ensures made { IfOk result (λ keeper. HasCleanDisk (connection_of keeper) → IsTrue (connection_of keeper).is_open × (table_book keeper ≡ migrated_book old.now config moment)) }
    ensures taken { RefusesTaken S.Store to result }
    ensures free { RefusesOnlyTaken S.Store to result }
    ensures unlike { to.in_transaction ≡ false → (state S.Store to).now.schema ≡ no_schema → ¬ HasItsSuites old.now config
        → Refuses S.Store to result NotAlike }
    ensures differs { IfErr result (λ e. e.1 ≡ NotAlike → ¬ HasItsSuites old.now config × (e.0 ≡ to)) }
    ensures alike { IfOk result (λ _. HasItsSuites old.now config) }
    ensures undone { GivesBack S.Store to result }
    ensures crash { KeeperLeaves S.Store to result (λ was. MayFound was (migrated_rows old.now config moment)) }
    ensures crash_undone { FaultLeaves S.Store to result (λ was. MayFound was (migrated_rows old.now config moment)) }
{
    let free = to.is_autocommit();
    let empty = is_without_tables(&to);
    if !free || !empty {
        return Err((to, KeepFault::NoArchive));
    }
    if !are_alike(old.config(), &config) {
        return Err((to, KeepFault::Configuration));
    }
    let Ok(judged) = copied_judgements(alloc, old.judged()) else {
        return Err((to, KeepFault::OutOfMemory));
    };
    let Ok(dates) = old.dates().to_vec(alloc) else {
        return Err((to, KeepFault::OutOfMemory));
    };
    // For the prover alone: the configuration is what its text spells.
    let _ = config.text();
    match write_archive(alloc, &mut to, old, &config, moment) {
        Ok(()) => Ok(TableKeeper::over(to, config, judged, dates, None, Vec::new(alloc))),
        Err(error) => Err((to, fault_of(error))),
    }
}
