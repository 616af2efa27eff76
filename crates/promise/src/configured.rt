//! An archive that a database keeps, another configuration for it, and commands in order after that.

ghost use Rattle.std.specs.Prelude.{◌≡◌, ◌⊎◌, ◌≤◌, true, IfOk, IfErr};
ghost use Rattle.book.specs.Keeping.{MayAnswer};
ghost use Rattle.book.specs.declared.fault.KeepFault.TheVariants.{Configuration as NotKept};
ghost use Rattle.keep_tables.specs.Keepers.{config_in_use};
ghost use Rattle.promise.specs.Configured.{GoesOnConfigured, HasIfTaken, IfMade};
ghost use Rattle.queue.specs.Commands.{AreOfKinds};
ghost use Rattle.queue.specs.Steps.{IsOpenBehind};
ghost use Rattle.keep_tables.specs.Calls.{GivesBack, RefusesBusy, RefusesNoArchive, SaysWhy};
ghost use Rattle.keep_tables.specs.KeeperCalls.{IsShutByFailure, KeepsItsBook};

use crate::commands::make_commands;
use book::{KeepFault, Keeper, LATEST};
use keep_tables::{InOrder, TableKeeper};
use queue::{
    Archive, Command, Outcome, a_stop_in_a_configuration_leaves_a_book,
    a_stop_leaves_a_part_of_a_list,
};
use rules::Config;
use sqlite::Connection;
use std::alloc::{AllocError, Global};

/// Opens the archive that a database keeps, gives it another configuration from a moment on, in seconds since 1970-01-01 00:00:00 UTC,
/// and then makes commands in order. It gives the archive and the outcome of each command. If there is no memory for the outcomes it
/// gives an `Err` instead of them, and no command was made. If the configuration was refused it gives the fault instead, and the archive
/// is as it was: `KeepFault::Configuration` if something that is shown would not be kept, or a fault of the keeper. A fault of
/// `TableKeeper::open` gives the connection back, and what was committed is as before.
pub fn drive_configured<S: InOrder + Drop>(
    alloc: Global,
    connection: Connection<S>,
    config: Config,
    moment: u64,
    commands: &[Command],
) -> Result<
    (
        Archive<TableKeeper<S>>,
        Result<Result<Vec<Outcome>, AllocError>, KeepFault>,
    ),
    (Connection<S>, KeepFault),
>
    requires in_time { moment ≤ LATEST }
    ensures kinds { IfOk result (λ r. IfMade r.1 (AreOfKinds commands.now)) }
    // The database kept a book. The configuration is taken only if it keeps all that this book shows. Then the commands go on after the
    // configured book, also over a crash; if there is no memory for the outcomes no command was made, and the connection is open. If the
    // configuration is refused the book is as it was, and a crash leaves that book, or the configured one.
    ensures once { IfOk result (λ r. GoesOnConfigured r.0.keeper config moment connection commands.now r.1) }
    // A configuration is refused for what is shown, or for a fault of the keeper's own.
    ensures cause { IfOk result (λ r. IfErr r.1 (λ fault. (fault ≡ NotKept) ⊎ MayAnswer true fault)) }
    // If the last command is done the connection is open.
    ensures served { IfOk result (λ r. IfMade r.1 (IsOpenBehind ⟦<TableKeeper<S> as Keeper>⟧ r.0.keeper)) }
    // Only a counted failure shuts the connection.
    ensures open { IfOk result (λ r. IsShutByFailure r.0.keeper connection) }
    ensures kept { IfOk result (λ r. KeepsItsBook r.0.keeper (config_in_use r.0.keeper)) }
    ensures given { IfOk result (λ r. HasIfTaken r.0.keeper config r.1) }
    // The reasons for which an opening is refused.
    ensures refused { RefusesNoArchive S.Store connection result }
    ensures told { SaysWhy S.Store connection result }
    ensures busy { RefusesBusy S.Store connection result }
    ensures undone { GivesBack S.Store connection result }
{
    // For the prover alone: what a stop in a list leaves, and what a stop in a configuration leaves.
    a_stop_leaves_a_part_of_a_list::<TableKeeper<S>>();
    a_stop_in_a_configuration_leaves_a_book::<TableKeeper<S>>();
    match TableKeeper::open(alloc, connection) {
        Ok(keeper) => {
            let mut archive = Archive::new(alloc, keeper);
            match archive.configure(alloc, config, moment) {
                Ok(()) => {
                    let (archive, outcomes) = make_commands(alloc, archive, commands);
                    Ok((archive, Ok(outcomes)))
                }
                Err(fault) => Ok((archive, Err(fault))),
            }
        }
        Err(refused) => Err(refused),
    }
}
