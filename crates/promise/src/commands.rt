//! The commands that follow the making or the opening of an archive.

ghost use Rattle.std.specs.Prelude.{◌≡◌, IfOk, OnErr, map};
ghost use Rattle.queue.specs.Commands.{AreOfKinds, call_of, outcome_of};
ghost use Rattle.queue.specs.Steps.{DoesAll, IsOpenBehind, Lasts, LeavesRun};

use book::Keeper;
use queue::{Archive, Command, Outcome};
use std::alloc::{AllocError, Global};

/// Makes commands in order over an archive. It gives the archive, and the outcome of each command. If there is no memory for the
/// outcomes it gives an `Err` instead of them, and no command was made. All clauses are those of `Archive::drive`.
pub fn make_commands<K: Keeper>(
    alloc: Global,
    archive: Archive<K>,
    commands: &[Command],
) -> (Archive<K>, Result<Vec<Outcome>, AllocError>)
    ensures lasts { Lasts K.Keeper archive.keeper result.0.keeper }
    ensures kinds { IfOk result.1 (AreOfKinds commands.now) }
    ensures served { IfOk result.1 (IsOpenBehind K.Keeper result.0.keeper) }
    ensures once { IfOk result.1 (λ outcomes. DoesAll K.Keeper archive.keeper (map call_of commands.now) (map outcome_of outcomes.items) result.0.keeper) }
    ensures crash { IfOk result.1 (λ outcomes. LeavesRun K.Keeper archive.keeper (map call_of commands.now) (map outcome_of outcomes.items) result.0.keeper) }
    ensures err { OnErr result.1 (result.0 ≡ archive) }
{
    let mut archive = archive;
    let outcomes = archive.drive(alloc, commands);
    (archive, outcomes)
}
