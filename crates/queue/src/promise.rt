//! The promise from the first call on, over a keeper in memory.

ghost use Rattle.std.specs.Prelude.{◌≡◌, ◌≤◌, ⊤, false, IfOk, map};
ghost use Rattle.book.specs.Keeping.{NoCollision};
ghost use Rattle.book.specs.Book.{fresh_book};
ghost use Rattle.keep.specs.Plain.{plain_book};
ghost use Rattle.history.specs.Answers.{IsRun};
ghost use Rattle.history.specs.Commands.{AreOfKinds, call_of, outcome_of};
ghost use Rattle.history.specs.Histories.{bodies_of, opened_with};

use crate::archive::Archive;
use book::LATEST;
use history::{Command, Outcome};
use keep::PlainKeeper;
use rules::Config;
use std::alloc::{AllocError, Global};

/// Makes an archive in memory, of this configuration, at a moment in seconds since 1970-01-01 00:00:00 UTC, and then makes
/// commands in order. It gives the outcome of each and the archive, or an `Err` if there is no memory for the archive or for the
/// outcomes.
pub fn drive_anew(
    alloc: Global,
    config: Config,
    moment: u64,
    commands: &[Command],
) -> Result<(Vec<Outcome>, Archive<PlainKeeper>), AllocError>
    requires in_time { moment ≤ LATEST }
    ensures kinds { IfOk result (λ r. AreOfKinds commands.now r.0) }
    // If no two of the delivered bodies have one print, each outcome is the answer of the plain archive at its place, or want of
    // memory. The book that is then kept is the one that these calls leave.
    ensures once { IfOk result (λ r. NoCollision (bodies_of (map call_of commands.now))
        → IsRun false (opened_with (fresh_book config moment)) (map call_of commands.now) (map outcome_of r.0.items) ⊤ (plain_book r.1.keeper)) }
{
    let Ok(keeper) = PlainKeeper::new(alloc, config, moment) else {
        return Err(AllocError);
    };
    let mut archive = Archive::new(alloc, keeper);
    let outcomes = archive.drive(alloc, commands)?;
    Ok((outcomes, archive))
}
