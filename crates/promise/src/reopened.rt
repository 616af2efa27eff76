//! An archive that a database keeps, and commands in order after the book that it has.

ghost use Rattle.std.specs.Prelude.{◌≡◌, IfOk, OnErr};
ghost use Rattle.sqlite.specs.Held.{state};
ghost use Rattle.sqlite.specs.State.{HasCleanDisk};
ghost use Rattle.book.specs.Book.{Book};
ghost use Rattle.tables_meaning.specs.Archives.{KeepsFinished};
ghost use Rattle.keep_tables.specs.Keepers.{config_in_use, connection_of, table_book};
ghost use Rattle.promise.specs.Lists.{GoesOn};
ghost use Rattle.queue.specs.Commands.{AreOfKinds};
ghost use Rattle.queue.specs.Steps.{IsOpenBehind};
ghost use Rattle.keep_tables.specs.Calls.{GivesBack, RefusesBusy, RefusesNoArchive, SaysWhy};
ghost use Rattle.keep_tables.specs.KeeperCalls.{IsShutByFailure, KeepsItsBook};

use crate::commands::make_commands;
use book::{KeepFault, Keeper};
use keep_tables::{InOrder, TableKeeper};
use queue::{Archive, Command, Outcome, a_stop_leaves_a_part_of_a_list};
use sqlite::Connection;
use std::alloc::{AllocError, Global};

/// Opens the archive that a database keeps, and makes commands in order after the book that it has. It gives the archive and the
/// outcome of each command. If there is no memory for the outcomes it gives an `Err` instead of them, and no command was made. A
/// fault is that of `TableKeeper::open`: it gives the connection back, and what was committed is as before.
pub fn drive_opened<S: InOrder + Drop>(
    alloc: Global,
    connection: Connection<S>,
    commands: &[Command],
) -> Result<(Archive<TableKeeper<S>>, Result<Vec<Outcome>, AllocError>), (Connection<S>, KeepFault)>
    ensures kinds { IfOk result (λ r. IfOk r.1 (AreOfKinds commands.now)) }
    // The database kept a book, after which the commands go on, also over a crash. If there is no memory for the outcomes, no
    // command was made.
    ensures once { IfOk result (λ r. HasCleanDisk (connection_of r.0.keeper) → (b : Book) × KeepsFinished (state S.Store connection).committed (config_in_use r.0.keeper) b
        × IfOk r.1 (GoesOn r.0.keeper b commands.now)
        × OnErr r.1 (table_book r.0.keeper ≡ b)) }
    // If the last command is done the connection is open.
    ensures served { IfOk result (λ r. IfOk r.1 (IsOpenBehind ⟦<TableKeeper<S> as Keeper>⟧ r.0.keeper)) }
    // Only a counted failure shuts the connection.
    ensures open { IfOk result (λ r. IsShutByFailure r.0.keeper connection) }
    ensures kept { IfOk result (λ r. KeepsItsBook r.0.keeper (config_in_use r.0.keeper)) }
    // The reasons for which an opening is refused.
    ensures refused { RefusesNoArchive S.Store connection result }
    ensures told { SaysWhy S.Store connection result }
    ensures busy { RefusesBusy S.Store connection result }
    ensures undone { GivesBack S.Store connection result }
{
    // For the prover alone: what a stop in a list leaves.
    a_stop_leaves_a_part_of_a_list::<TableKeeper<S>>();
    match TableKeeper::open(alloc, connection) {
        Ok(keeper) => {
            let archive = Archive::new(alloc, keeper);
            Ok(make_commands(alloc, archive, commands))
        }
        Err(refused) => Err(refused),
    }
}
