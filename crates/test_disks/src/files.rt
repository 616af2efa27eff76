//! An archive in files in memory, and the questions to it.

use crate::failing::Kind;
use crate::image::Image;
use crate::interrupted::interrupted;
use crate::steps::{Step, paths_of};
use crate::tampered::{changed, front, opening, opening_of, tampered, without_end};
use crate::trial::{Left, Plan, SOUND, Which, done, old_of};
use crate::work::{Work, told_fault, word_or_fault};
use book::KeepFault;
use old_book::OldBook;
use std::alloc::Global;
use test_rows::{Answers, Unread, said, text_of};
use test_story::{Pieces, Question, Task};

/// The files of an archive, which is opened for each step.
#[derive(Drop)]
pub struct Case {
    image: Image,
    /// The contents of an archive of an older layout, if one was read.
    old: Option<OldBook>,
}

/// The file that a word names.
fn which_of(word: &Vec<u8>) -> Result<Which, Unread> {
    match text_of(word)? {
        "log" => Ok(Which::Log),
        "database" => Ok(Which::Database),
        _ => Err(Unread::BadWords),
    }
}

/// How a disk fails, by a word.
fn kind_of(word: &Vec<u8>) -> Result<Kind, Unread> {
    match text_of(word)? {
        "stops" => Ok(Kind::Stops),
        "fails" => Ok(Kind::Fails),
        "full" => Ok(Kind::Full),
        _ => Err(Unread::BadWords),
    }
}

/// What was shown, or the fault if there was no archive or no database.
fn told(alloc: Global, answer: Result<Pieces, KeepFault>) -> Result<Vec<u8>, Unread> {
    match answer {
        Ok(pieces) => Ok(pieces.as_slice().concat(alloc)?),
        Err(fault) => told_fault(alloc, fault),
    }
}

/// `interrupted FILE HOW STEP..`: the result of a step while one of the files fails.
fn interrupted_by(
    alloc: Global,
    image: &Image,
    old: Option<&OldBook>,
    words: &[Vec<u8>],
) -> Result<Vec<u8>, Unread> {
    let [which, kind, step @ ..] = words else {
        return Err(Unread::BadWords);
    };
    let plan = Plan {
        which: which_of(which)?,
        kind: kind_of(kind)?,
        calls: u64::MAX,
    };
    interrupted(alloc, image, plan, Step::read(alloc, old, step)?)
}

/// `observed`: everything that an archive shows.
fn observed(alloc: Global, image: &Image) -> Result<Vec<u8>, Unread> {
    let paths = paths_of(alloc, image)?;
    let question = Question {
        words: &[],
        paths: paths.as_slice(),
        right: &[],
    };
    let left = done(alloc, image, SOUND, Work::Open(Task::Tell(question)))?;
    told(alloc, left.answer)
}

/// `count QUERY`: the number of rows of a query.
fn counted(alloc: Global, image: &Image, query: &Vec<u8>) -> Result<Vec<u8>, Unread> {
    let left = done(alloc, image, SOUND, Work::Count(text_of(query)?))?;
    if left.answer.is_err() {
        return said(alloc, "not run");
    }
    told(alloc, left.answer)
}

/// `transaction`: the result of opening the database in a transaction, and after its end.
fn in_transaction(alloc: Global, image: &Image) -> Result<Vec<u8>, Unread> {
    told(alloc, done(alloc, image, SOUND, Work::OpenTwice)?.answer)
}

/// Says that the archive of an older layout was read in files, or gives the fault, with a word if that changes the database file.
fn told_old(alloc: Global, image: &Image, left: &Left) -> Result<Vec<u8>, Unread> {
    let mut text = word_or_fault(alloc, "read", &left.answer)?;
    if left.stood.database.as_slice() != image.database.as_slice() {
        text.extend_from_slice(b" and other bytes")?;
    }
    Ok(text)
}

impl Case {
    /// Works with the files.
    fn works(
        &mut self,
        alloc: Global,
        work: Work<'_>,
    ) -> Result<Result<Pieces, KeepFault>, Unread> {
        let left = done(alloc, &self.image, SOUND, work)?;
        self.image = left.stood;
        Ok(left.answer)
    }

    /// Does a step.
    fn step(&mut self, alloc: Global, step: Step<'_>) -> Result<Vec<u8>, Unread> {
        let work = step.work(Task::Ask(step.question(&[], &[])));
        let answer = self.works(alloc, work)?;
        if step.making.is_some() {
            return word_or_fault(alloc, "made", &answer);
        }
        if step.words.is_empty() {
            return word_or_fault(alloc, "opened", &answer);
        }
        told(alloc, answer)
    }

    /// Does the step of these words.
    fn named_step(&mut self, alloc: Global, words: &[Vec<u8>]) -> Result<Vec<u8>, Unread> {
        let old = self.old.take();
        let answer = match Step::read(alloc, old.as_ref(), words) {
            Ok(step) => self.step(alloc, step),
            Err(unread) => Err(unread),
        };
        self.old = old;
        answer
    }

    /// Reads the archive of an older layout in files, and says so, or gives the fault.
    fn read_old_in(&mut self, alloc: Global, image: &Image) -> Result<Vec<u8>, Unread> {
        let (left, old) = old_of(alloc, image)?;
        self.old = old;
        told_old(alloc, image, &left)
    }

    /// `old SQL..`: reads the archive of an older layout that lists of statements make in empty files, and says so, or gives the fault,
    /// with a word if that changes the database file.
    fn read_old(&mut self, alloc: Global, lists: &[Vec<u8>]) -> Result<Vec<u8>, Unread> {
        self.old = None;
        match changed(alloc, &Image::empty(alloc), lists)? {
            Some(image) => self.read_old_in(alloc, &image),
            None => said(alloc, "not run"),
        }
    }

    /// `archive CONFIGURATION`: makes an archive in empty files.
    fn found(&mut self, alloc: Global, config: &[u8]) -> Result<Vec<u8>, Unread> {
        self.image = Image::empty(alloc);
        self.step(alloc, Step::making(alloc, config)?)
    }

    /// `reopen`: opens the archive, and copies the log into the database file.
    fn reopen(&mut self, alloc: Global) -> Result<Vec<u8>, Unread> {
        let answer = self.works(alloc, Work::Reopen)?;
        word_or_fault(alloc, "opened", &answer)
    }

    /// `changed SQL..`: runs lists of statements without the archive, and gives the result of opening the files.
    fn change(&mut self, alloc: Global, lists: &[Vec<u8>]) -> Result<Vec<u8>, Unread> {
        match changed(alloc, &self.image, lists)? {
            Some(image) => {
                self.image = image;
                opening(alloc, &self.image)
            }
            None => said(alloc, "not run"),
        }
    }

    /// The answer to words that change the files.
    fn changing(
        &mut self,
        alloc: Global,
        verb: &str,
        words: &[Vec<u8>],
        all: &[Vec<u8>],
    ) -> Result<Vec<u8>, Unread> {
        match (verb, words) {
            ("archive", [config]) => self.found(alloc, config.as_slice()),
            ("empty", []) => {
                self.image = Image::empty(alloc);
                said(alloc, "empty")
            }
            ("reopen", []) => self.reopen(alloc),
            ("changed", lists) => self.change(alloc, lists),
            ("old", lists) => self.read_old(alloc, lists),
            (_, _) => self.named_step(alloc, all),
        }
    }
}

impl<R: AllocGlobal> Answers<R> for Case {
    fn fresh(rt: &R) -> Case {
        Case {
            image: Image::empty(rt.alloc()),
            old: None,
        }
    }

    fn answer(&mut self, rt: &R, words: &[Vec<u8>]) -> Result<Vec<u8>, Unread> {
        let (alloc, image) = (rt.alloc(), &self.image);
        let Some((verb, rest)) = words.split_first() else {
            return Err(Unread::BadWords);
        };
        match (text_of(verb)?, rest) {
            ("observed", []) => observed(alloc, image),
            ("interrupted", words) => interrupted_by(alloc, image, self.old.as_ref(), words),
            ("tampered", lists) => tampered(alloc, image, lists),
            ("transaction", []) => in_transaction(alloc, image),
            ("count", [query]) => counted(alloc, image, query),
            ("opens", [bytes]) => opening_of(alloc, bytes.as_slice()),
            ("front", [count]) => front(alloc, image.database.as_slice(), count),
            ("without-end", [count]) => without_end(alloc, image.database.as_slice(), count),
            (verb, rest) => self.changing(alloc, verb, rest, words),
        }
    }
}
