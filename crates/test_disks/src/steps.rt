//! Steps of a story, and what files show of a step.

use crate::image::Image;
use crate::trial::{SOUND, done};
use crate::work::{Making, Work, told_fault};
use book::{KeepFault, LATEST};
use old_book::OldBook;
use rules::Config;
use std::alloc::Global;
use test_rows::{Unread, number_of, text_of};
use test_story::{Pieces, Question, Task};

/// A step of a story: a question to the archive that is there, or no question if the archive is only opened or made.
#[derive(Clone, Copy)]
pub struct Step<'a> {
    /// What an archive is made from, if one is made.
    pub making: Option<Making<'a>>,
    pub words: &'a [Vec<u8>],
}

impl<'a> Step<'a> {
    /// The step that makes an archive of a configuration that can be read.
    fn of(alloc: Global, config: &[u8], making: Making<'a>) -> Result<Step<'a>, Unread> {
        match Config::read(alloc, config) {
            Ok(_) => Ok(Step {
                making: Some(making),
                words: &[],
            }),
            Err(_) => Err(Unread::BadWords),
        }
    }

    /// The step that makes a new archive of a configuration.
    pub fn making(alloc: Global, config: &'a [u8]) -> Result<Step<'a>, Unread> {
        Step::of(alloc, config, Making::New(config))
    }

    /// The step that makes an archive from an older one, if there is one, under a configuration and at a moment.
    fn migrating(
        alloc: Global,
        old: Option<&'a OldBook>,
        config: &'a [u8],
        moment: u64,
    ) -> Result<Step<'a>, Unread> {
        match old {
            Some(old) if moment <= LATEST => {
                let making = Making::Migrated {
                    old,
                    config,
                    moment,
                };
                Step::of(alloc, config, making)
            }
            _ => Err(Unread::BadWords),
        }
    }

    /// The step of these words. `old` is the archive of an older layout that was last read, if there is one.
    pub fn read(
        alloc: Global,
        old: Option<&'a OldBook>,
        words: &'a [Vec<u8>],
    ) -> Result<Step<'a>, Unread> {
        let Some((verb, rest)) = words.split_first() else {
            return Err(Unread::BadWords);
        };
        let (making, words) = (None, words);
        match (text_of(verb)?, rest) {
            ("create", [config]) => Step::making(alloc, config.as_slice()),
            ("migrated", [config, moment]) => {
                Step::migrating(alloc, old, config.as_slice(), number_of(moment)?)
            }
            ("open", []) => Ok(Step { making, words: &[] }),
            _ => Ok(Step { making, words }),
        }
    }

    /// The question of the step, with everything that is shown at these paths, and its right answer.
    pub fn question(self, paths: &'a [Vec<u8>], right: &'a [Vec<u8>]) -> Question<'a> {
        Question {
            words: self.words,
            paths,
            right,
        }
    }

    /// The task with the archive that the step makes, or that is there.
    pub fn work(self, task: Task<'a>) -> Work<'a> {
        match self.making {
            Some(making) => Work::Make(making, task),
            None => Work::Open(task),
        }
    }
}

/// Adds what an archive showed, or the fault if there was no archive.
fn add_answer(
    alloc: Global,
    answer: Result<Pieces, KeepFault>,
    told: &mut Pieces,
) -> Result<(), Unread> {
    match answer {
        Ok(mut pieces) => told.append(&mut pieces)?,
        Err(fault) => told.push(told_fault(alloc, fault)?)?,
    }
    Ok(())
}

/// Adds what the archive in files shows, or the fault if there is no archive; and gives what is left of the files.
fn add_told(
    alloc: Global,
    image: &Image,
    work: Work<'_>,
    told: &mut Pieces,
) -> Result<Image, Unread> {
    let left = done(alloc, image, SOUND, work)?;
    add_answer(alloc, left.answer, told)?;
    Ok(left.stood)
}

/// What the archive in files shows of a step, which is done with it. If the step makes an archive, it is what was there before, and
/// then what is there.
pub fn told_of(
    alloc: Global,
    image: &Image,
    step: Step<'_>,
    paths: &[Vec<u8>],
) -> Result<Pieces, Unread> {
    let task = Task::Tell(step.question(paths, &[]));
    let mut told = Vec::new(alloc);
    let stood = add_told(alloc, image, Work::Open(task), &mut told)?;
    if step.making.is_some() {
        add_told(alloc, &stood, step.work(task), &mut told)?;
    }
    Ok(told)
}

/// The paths of the archive in files; there are none if there is no archive.
pub fn paths_of(alloc: Global, image: &Image) -> Result<Pieces, Unread> {
    let answer = done(alloc, image, SOUND, Work::Open(Task::Paths))?.answer;
    match answer {
        Ok(paths) => Ok(paths),
        Err(_) => Ok(Vec::new(alloc)),
    }
}
