//! An archive that is made in a database, and commands in order.

ghost use Rattle.std.specs.Prelude.{◌≡◌, ◌≤◌, IfOk, OnErr};
ghost use Rattle.sqlite.specs.State.{HasCleanDisk};
ghost use Rattle.book.specs.Book.{fresh_book};
ghost use Rattle.keep_tables.specs.Keepers.{connection_of, table_book};
ghost use Rattle.promise.specs.Lists.{IsCutAlong, RunsFrom};
ghost use Rattle.queue.specs.Commands.{AreOfKinds};
ghost use Rattle.queue.specs.Steps.{IsOpenBehind};
ghost use Rattle.keep_tables.specs.Calls.{GivesBack, RefusesOnlyTaken, RefusesTaken};
ghost use Rattle.keep_tables.specs.KeeperCalls.{IsShutByFailure, KeepsItsBook};

use crate::commands::make_commands;
use book::{KeepFault, Keeper, LATEST};
use keep_tables::TableKeeper;
use queue::{Archive, Command, Outcome, a_stop_leaves_a_part_of_a_list};
use rules::Config;
use sqlite::{Alter, Connection};
use std::alloc::{AllocError, Global};

/// Makes an archive of this configuration in a database that has no table, no index and no view, at a moment in seconds since 1970-01-01
/// 00:00:00 UTC, and then makes commands in order. It gives the archive and the outcome of each command. If there is no memory for the
/// outcomes it gives an `Err` instead of them, and no command was made. A fault is that of `TableKeeper::create`: it gives the connection
/// back, and what was committed is as before.
pub fn drive_created<S: Alter + Drop>(
    alloc: Global,
    connection: Connection<S>,
    config: Config,
    moment: u64,
    commands: &[Command],
) -> Result<(Archive<TableKeeper<S>>, Result<Vec<Outcome>, AllocError>), (Connection<S>, KeepFault)>
    requires in_time { moment ≤ LATEST }
    ensures kinds { IfOk result (λ r. IfOk r.1 (AreOfKinds commands.now)) }
    // If the disk returned what was written, and no two of the delivered bodies have one print, each outcome is the answer of the plain
    // archive at its place, or want of memory or a failure of the disk. While the connection is open its tables keep the book that these
    // calls leave.
    ensures once { IfOk result (λ r. RunsFrom r.0.keeper (fresh_book config moment) commands.now r.1) }
    // Only a counted failure shuts the connection.
    ensures open { IfOk result (λ r. IsShutByFailure r.0.keeper connection) }
    ensures kept { IfOk result (λ r. KeepsItsBook r.0.keeper config) }
    // If there is no memory for the outcomes, no command was made.
    ensures none { IfOk result (λ r. HasCleanDisk (connection_of r.0.keeper) → OnErr r.1 (table_book r.0.keeper ≡ fresh_book config moment)) }
    // If the last command is done the connection is open.
    ensures served { IfOk result (λ r. IfOk r.1 (IsOpenBehind ⟦<TableKeeper<S> as Keeper>⟧ r.0.keeper)) }
    // A crash during or after the list leaves what the archive and none, some or all of the commands leave, or also the whole of the next
    // command.
    ensures crash { IfOk result (λ r. IsCutAlong r.0.keeper (fresh_book config moment) commands.now r.1) }
    // The reasons for which a making is refused.
    ensures taken { RefusesTaken S.Store connection result }
    ensures free { RefusesOnlyTaken S.Store connection result }
    ensures undone { GivesBack S.Store connection result }
{
    // For the prover alone: what a stop in a list leaves.
    a_stop_leaves_a_part_of_a_list::<TableKeeper<S>>();
    match TableKeeper::create(alloc, connection, config, moment) {
        Ok(keeper) => {
            let archive = Archive::new(alloc, keeper);
            Ok(make_commands(alloc, archive, commands))
        }
        Err(refused) => Err(refused),
    }
}
