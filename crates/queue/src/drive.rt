//! Lists of commands.
//!
//! `drive` answers an `Err` only before it has made a command. The archive is then unchanged.
//!
//! It makes all commands that it is handed, also those after one that failed for want of memory or because of the disk. So a caller who
//! needs their order hands over only deliveries that do not need each other and may be repeated.

ghost use Rattle.std.specs.Prelude.{◌≡◌, IfOk, OnErr, map};
ghost use Rattle.history.specs.Answers.{IsFaithful, IsKept, IsRun};
ghost use Rattle.history.specs.Commands.{AreOfKinds, call_of, kind_of_command, kind_of_outcome, outcome_of};
ghost use Rattle.history.specs.Histories.{History};
ghost use Rattle.history.specs.Steps.{Does, IsOpenBehind, IsServed, Lasts, LeavesCall, LeavesRun};

use crate::archive::Archive;
use book::Keeper;
use history::{Command, Outcome};
use std::alloc::{AllocError, Global};

impl<K: Keeper> Archive<K> {
    /// Makes one command.
    fn make(&mut self, alloc: Global, command: &Command) -> Outcome
        ensures kind { kind_of_outcome result ≡ kind_of_command command.now }
        ensures lasts { Lasts K.Keeper self.old.keeper self.new.keeper }
        ensures served { IsServed K.Keeper self.new.keeper (outcome_of result) }
        ensures step { Does K.Keeper self.old.keeper (call_of command.now) (outcome_of result) self.new.keeper }
        // A crash leaves what it would have left before, what the history left, or all that the command does.
        ensures crash { LeavesCall K.Keeper self.old.keeper (call_of command.now) self.new.keeper }
    {
        match command {
            Command::Deliver { name, body, moment } => {
                Outcome::Deliver(self.deliver(alloc, name, body, *moment))
            }
            Command::Run { moment } => Outcome::Run(self.run(alloc, *moment)),
            Command::Copy {
                from,
                to,
                source,
                moment,
            } => Outcome::Copy(self.copy(alloc, from, to, source, *moment)),
            Command::Fetch { path } => Outcome::Fetch(self.fetch(alloc, path)),
            Command::Waiting { moment } => Outcome::Waiting(self.waiting(alloc, *moment)),
            Command::Clean { moment } => Outcome::Clean(self.clean(alloc, *moment)),
            Command::Remove {
                suite,
                name,
                moment,
            } => Outcome::Remove(self.remove(alloc, suite, name, *moment)),
            Command::Promote {
                from,
                to,
                sources,
                moment,
            } => Outcome::Promote(self.promote(alloc, from, to, sources, *moment)),
            Command::Verdicts => Outcome::Verdicts(self.verdicts(alloc)),
        }
    }

    /// Makes commands in order, and gives the outcome of each. A command that is refused is an outcome, and the next is
    /// made. An `Err` means that none was made, for want of memory for the outcomes.
    pub fn drive(&mut self, alloc: Global, commands: &[Command]) -> Result<Vec<Outcome>, AllocError>
        ensures lasts { Lasts K.Keeper self.old.keeper self.new.keeper }
        ensures kinds { IfOk result (AreOfKinds commands.now) }
        // If the last command is done, the keeper is open.
        ensures served { IfOk result (IsOpenBehind K.Keeper self.new.keeper) }
        // If the keeper keeps what a history leaves, the outcomes are the answers of the plain archive, and the keeper then keeps what
        // the longer history leaves.
        ensures once { IfOk result (λ outcomes. (h : History) → IsKept (K.is_open self.old.keeper) (K.book self.old.keeper) h → IsFaithful h (map call_of commands.now)
            → K.is_clean self.new.keeper → IsRun K.may_fail h (map call_of commands.now) (map outcome_of outcomes.items) (K.is_open self.new.keeper) (K.book self.new.keeper)) }
        // A crash during or after the list leaves what it would have left before, or what the history leaves after none, some or all of
        // the commands, or also after the whole of the next command.
        ensures crash { IfOk result (λ outcomes. LeavesRun K.Keeper self.old.keeper (map call_of commands.now) (map outcome_of outcomes.items) self.new.keeper) }
        ensures err { OnErr result (self.new ≡ self.old) }
    {
        let mut outcomes = Vec::with_capacity(alloc, commands.len())?;
        for command in commands {
            let outcome = self.make(alloc, command);
            outcomes.push(outcome)?;
        }
        Ok(outcomes)
    }
}
