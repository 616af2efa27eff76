//! A step that is done while a disk stops, fails or is full.

use crate::account::{are_refused, is_answer, is_like};
use crate::failing::Kind;
use crate::image::Image;
use crate::steps::{Step, paths_of, told_of};
use crate::trial::{Left, Plan, SOUND, done};
use crate::work::{Work, told_fault};
use book::KeepFault;
use std::alloc::Global;
use test_rows::{Unread, said};
use test_story::{Pieces, Task, add_paths, difference, is_refused_line};

/// More calls than any step here makes to a file.
const MOST_CALLS: u64 = 4000;

/// A step that is interrupted, and what is wanted of it.
struct Interruption<'a> {
    before: &'a Image,
    plan: Plan,
    step: Step<'a>,
    paths: Pieces,
    /// The answer to the step. If the step is to make or to open an archive, and can't, it is the fault.
    answer: Result<Pieces, KeepFault>,
    /// What is shown if the step was not done, and if it was.
    undone: Pieces,
    done: Pieces,
}

// This is written out, so that a caller does not prove again how each part is dropped.
impl Drop for Interruption<'_> {
    fn drop(self) {
        let Interruption {
            before: _,
            plan: _,
            step: _,
            paths: _,
            answer: _,
            undone: _,
            done: _,
        } = self;
    }
}

/// The result of a step.
#[derive(Clone, Copy)]
enum Outcome {
    /// It was done, at once or when it was repeated.
    Done,
    /// All or some of it was refused, and it may have been done or not.
    Refused,
    /// There was no archive to do it with.
    Unopened,
    /// Something went wrong.
    Otherwise,
}

/// What was found after a number of calls.
#[derive(Drop)]
enum Found {
    /// The archive did not open.
    NotOpened,
    /// A call failed, and the step was done whole or not at all.
    Whole,
    /// No call failed.
    Through,
    /// Something went wrong.
    Otherwise(Vec<u8>),
}

/// What was last shown by files. Files with the same contents show the same, and are not opened again.
struct Last {
    image: Image,
    /// What was shown; it is empty if nothing was shown yet.
    told: Pieces,
}

// This is written out, so that a caller does not prove again how each part is dropped.
impl Drop for Last {
    fn drop(self) {
        let Last { image: _, told: _ } = self;
    }
}

impl Last {
    /// Files that have shown nothing yet.
    fn new(alloc: Global) -> Last {
        Last {
            image: Image::empty(alloc),
            told: Vec::new(alloc),
        }
    }

    /// Whether the last files that were shown have these contents.
    fn is_of(&self, image: &Image) -> bool {
        let is_same_log = self.image.log.as_slice() == image.log.as_slice();
        let is_same_database = self.image.database.as_slice() == image.database.as_slice();
        is_same_log && is_same_database && !self.told.is_empty()
    }

    /// Shows what is in files, if their contents differ from the last.
    fn tell(
        &mut self,
        alloc: Global,
        image: Image,
        interruption: &Interruption<'_>,
    ) -> Result<(), Unread> {
        if !self.is_of(&image) {
            let paths = interruption.paths.as_slice();
            self.told = told_of(alloc, &image, interruption.step, paths)?;
            self.image = image;
        }
        Ok(())
    }
}

/// What was last shown by files as they were, and as a crash left them.
struct Remains {
    stood: Last,
    crashed: Last,
}

// This is written out, so that a caller does not prove again how each part is dropped.
impl Drop for Remains {
    fn drop(self) {
        let Remains {
            stood: _,
            crashed: _,
        } = self;
    }
}

/// The paths of the archive before a step and of the one after it.
fn all_paths(alloc: Global, before: &Image, behind: &Image) -> Result<Pieces, Unread> {
    let mut paths = paths_of(alloc, before)?;
    let more = paths_of(alloc, behind)?;
    add_paths(alloc, more.as_slice(), &mut paths)?;
    Ok(paths)
}

impl<'a> Interruption<'a> {
    /// Does the step with disks that work, to find out what is wanted of it.
    fn new(
        alloc: Global,
        before: &'a Image,
        plan: Plan,
        step: Step<'a>,
    ) -> Result<Interruption<'a>, Unread> {
        let work = step.work(Task::Ask(step.question(&[], &[])));
        let left = done(alloc, before, SOUND, work)?;
        let paths = all_paths(alloc, before, &left.stood)?;
        let undone = told_of(alloc, before, step, paths.as_slice())?;
        let done = told_of(alloc, &left.stood, step, paths.as_slice())?;
        Ok(Interruption {
            before,
            plan,
            step,
            paths,
            answer: left.answer,
            undone,
            done,
        })
    }

    /// The right answer of the step, if there is one.
    fn right(&self) -> &[Vec<u8>] {
        match &self.answer {
            Ok(right) => right.as_slice(),
            Err(_) => &[],
        }
    }

    /// Whether an archive may refuse all or some after a step that was refused. If only one call fails, the archive refuses all or
    /// nothing, and nothing if the store does not need to read its files again.
    fn may_refuse(&self, left: &Left, is_all: bool) -> bool {
        match self.plan.kind {
            Kind::Fails => left.may_be_shut && is_all,
            Kind::Stops | Kind::Full => left.has_failed,
        }
    }

    /// The result of the step, from what the archive showed that refused it, compared with what is wanted.
    fn outcome_by(&self, left: &Left, found: &[Vec<u8>], wanted: &[Vec<u8>]) -> Outcome {
        if found == wanted {
            return Outcome::Done;
        }
        if !is_like(found, wanted) || !self.may_refuse(left, are_refused(found)) {
            return Outcome::Otherwise;
        }
        if is_answer(found, wanted) {
            return Outcome::Done;
        }
        Outcome::Refused
    }

    /// The result of the step, from what the archive showed and last answered. If it refused the step, it was asked again: the step
    /// was not done at first, and is done now, or is refused again. If a list of commands was refused in part, the other part may have
    /// been done.
    fn outcome_of(&self, left: &Left, pieces: &[Vec<u8>]) -> Outcome {
        if pieces == self.right() {
            return Outcome::Done;
        }
        let Some((answer, told)) = pieces.split_last() else {
            return Outcome::Otherwise;
        };
        match self.outcome_by(left, told, self.undone.as_slice()) {
            Outcome::Otherwise if !is_refused_line(answer.as_slice()) => {
                self.outcome_by(left, told, self.done.as_slice())
            }
            outcome => outcome,
        }
    }

    /// The result of the step.
    fn outcome(&self, left: &Left) -> Outcome {
        match (&left.answer, &self.answer) {
            (Ok(pieces), Ok(_)) => self.outcome_of(left, pieces.as_slice()),
            (Err(fault), Err(right)) if *fault == *right => Outcome::Done,
            (Err(KeepFault::Disk), _) => Outcome::Unopened,
            (_, _) => Outcome::Otherwise,
        }
    }

    /// Whether files show that the step was done whole or, if it was not answered, not at all.
    fn is_whole(&self, told: &[Vec<u8>], is_answered: bool) -> bool {
        told == self.done.as_slice() || !is_answered && told == self.undone.as_slice()
    }

    /// Says how what was shown differs from what is shown if the step was done.
    fn unlike(&self, alloc: Global, told: &[Vec<u8>]) -> Result<Found, Unread> {
        let text = difference(alloc, told, self.done.as_slice())?;
        Ok(Found::Otherwise(text))
    }

    /// Opens what is left of files, as it is and as a crash of the machine leaves it.
    fn found_behind(
        &self,
        alloc: Global,
        left: Left,
        is_answered: bool,
        remains: &mut Remains,
    ) -> Result<Found, Unread> {
        let has_failed = left.has_failed;
        remains.stood.tell(alloc, left.stood, self)?;
        remains.crashed.tell(alloc, left.crashed, self)?;
        let (stood, crashed) = (&remains.stood.told, &remains.crashed.told);
        if !self.is_whole(stood.as_slice(), is_answered) {
            return self.unlike(alloc, stood.as_slice());
        }
        if !self.is_whole(crashed.as_slice(), is_answered) {
            return self.unlike(alloc, crashed.as_slice());
        }
        Ok(if has_failed {
            Found::Whole
        } else {
            Found::Through
        })
    }

    /// Opens what is left of files in which no archive was opened or made. If the archive was opened for a question, what is left is
    /// as after the step `open`, and the database file is as it was.
    fn found_unopened(
        &self,
        alloc: Global,
        left: Left,
        remains: &mut Remains,
    ) -> Result<Found, Unread> {
        if self.step.words.is_empty() {
            return self.found_behind(alloc, left, false, remains);
        }
        if left.stood.database.as_slice() == self.before.database.as_slice() {
            return Ok(Found::NotOpened);
        }
        Ok(Found::Otherwise(said(alloc, "not opened, and other bytes")?))
    }

    /// Says what was shown by an archive that had to answer, or that had to stay closed.
    fn otherwise(&self, alloc: Global, left: &Left) -> Result<Found, Unread> {
        match &left.answer {
            Ok(pieces) => self.unlike(alloc, pieces.as_slice()),
            Err(fault) => Ok(Found::Otherwise(told_fault(alloc, *fault)?)),
        }
    }

    /// Does the step in files, one of which fails after `calls` calls, and opens what is left of them.
    fn found(&self, alloc: Global, calls: u64, remains: &mut Remains) -> Result<Found, Unread> {
        let plan = Plan { calls, ..self.plan };
        let question = self.step.question(self.paths.as_slice(), self.right());
        let left = done(
            alloc,
            self.before,
            plan,
            self.step.work(Task::Ask(question)),
        )?;
        match self.outcome(&left) {
            Outcome::Done => self.found_behind(alloc, left, true, remains),
            Outcome::Refused => self.found_behind(alloc, left, false, remains),
            Outcome::Unopened => self.found_unopened(alloc, left, remains),
            Outcome::Otherwise => self.otherwise(alloc, &left),
        }
    }

    /// The number of calls after which the step begins: 0 if it is to make or to open an archive, else the number of calls of an
    /// opening.
    fn first_call(&self, alloc: Global) -> Result<u64, Unread> {
        if self.step.words.is_empty() {
            return Ok(0);
        }
        let left = done(alloc, self.before, self.plan, Work::Open(Task::Nothing))?;
        Ok(left.calls)
    }

    /// Does the step with one more call passed on each time, until no call fails.
    fn verdict(&self, alloc: Global, remains: &mut Remains) -> Result<Vec<u8>, Unread> {
        let first = self.first_call(alloc)?;
        let mut has_failed = false;
        for calls in first..MOST_CALLS {
            match self.found(alloc, calls, remains)? {
                Found::NotOpened => {}
                Found::Whole => has_failed = true,
                Found::Through if has_failed => return said(alloc, "whole"),
                Found::Through => return said(alloc, "untouched"),
                Found::Otherwise(text) => return told_at(alloc, calls, text.as_slice()),
            }
        }
        said(alloc, "ever more calls")
    }
}

/// Says after how many calls something went wrong.
fn told_at(alloc: Global, calls: u64, text: &[u8]) -> Result<Vec<u8>, Unread> {
    let mut line = said(alloc, format!(in alloc; "{calls} calls, ")?.as_str())?;
    line.extend_from_slice(text)?;
    Ok(line)
}

/// The result of a step while one of the files fails as it is planned, for each number of calls.
pub fn interrupted(
    alloc: Global,
    image: &Image,
    plan: Plan,
    step: Step<'_>,
) -> Result<Vec<u8>, Unread> {
    let interruption = Interruption::new(alloc, image, plan, step)?;
    let mut remains = Remains {
        stood: Last::new(alloc),
        crashed: Last::new(alloc),
    };
    match &interruption.answer {
        Err(fault) if !step.words.is_empty() => told_fault(alloc, *fault),
        _ => interruption.verdict(alloc, &mut remains),
    }
}
