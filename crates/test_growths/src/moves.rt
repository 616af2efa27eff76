//! Archives of older layouts that are read and migrated in memory, between two printed marks, as calls are made.

use crate::growths::{Marked, Marks, config_of, prints_marks};
use crate::keepers::{InMemory, Tables};
use book::{KeepFault, LATEST};
use keep_tables::TableKeeper;
use old_book::OldBook;
use queue::Archive;
use rules::Config;
use sqlite::Connection;
use std::alloc::Global;
use test_rows::{Answers, Unread, number_of, said, text_of};

/// A story over keepers over tables in memory, whose calls may be marked, and the archive of an older layout that was last read, if there
/// is one.
#[derive(Drop)]
pub struct Moves<S: InMemory + Drop> {
    old: Option<OldBook>,
    calls: Marked<TableKeeper<S>, Tables>,
}

/// A step of a migration.
#[derive(Clone, Copy)]
enum Step<'a> {
    /// `old SQL..`: reads the archive of an older layout that is made by lists of statements.
    Old(&'a [Vec<u8>]),
    /// `migrated CONFIGURATION MOMENT`: makes an archive from the one that was read.
    Migrated(&'a [u8], u64),
}

/// The step of these words, if they name one.
fn step_of(words: &[Vec<u8>]) -> Result<Option<Step<'_>>, Unread> {
    let Some((verb, rest)) = words.split_first() else {
        return Ok(None);
    };
    match (text_of(verb)?, rest) {
        ("old", lists) => Ok(Some(Step::Old(lists))),
        ("migrated", [config, moment]) => Ok(Some(Step::Migrated(
            config.as_slice(),
            number_of(moment)?,
        ))),
        _ => Ok(None),
    }
}

/// The configuration and the moment of a migration.
#[derive(Clone, Copy)]
struct Move<'a> {
    old: &'a OldBook,
    config: &'a [u8],
    moment: u64,
}

/// A database in memory, by lists of statements.
fn database<S: InMemory + Drop>(alloc: Global, lists: &[Vec<u8>]) -> Result<Connection<S>, Unread> {
    let mut connection = S::connect(alloc)?;
    for list in lists {
        if connection.execute_batch(text_of(list)?).is_err() {
            return Err(Unread::BadWords);
        }
    }
    Ok(connection)
}

/// Reads the archive of an older layout, at once or when it is read again.
fn read<S: InMemory + Drop, R: Print + AllocGlobal>(
    marks: Marks<'_, R>,
    connection: &mut Connection<S>,
) -> Result<Result<OldBook, KeepFault>, Unread> {
    let alloc = marks.rt.alloc();
    marks.begin()?;
    let old = OldBook::read(alloc, connection);
    marks.end(old.is_err())?;
    match old {
        Err(KeepFault::OutOfMemory) => Ok(OldBook::read(alloc, connection)),
        old => Ok(old),
    }
}

/// Makes an archive from an older one in a place.
fn made<S: InMemory + Drop>(
    alloc: Global,
    place: Connection<S>,
    step: Move<'_>,
    config: Config,
) -> Result<TableKeeper<S>, (Connection<S>, KeepFault)> {
    migrate::migrate(alloc, place, step.old, config, step.moment.min(LATEST))
}

/// Makes an archive from an older one again in its place, if memory was wanting.
fn made_again<S: InMemory + Drop>(
    alloc: Global,
    first: Result<TableKeeper<S>, (Connection<S>, KeepFault)>,
    step: Move<'_>,
    config: Config,
) -> Result<TableKeeper<S>, (Connection<S>, KeepFault)> {
    match first {
        Err((place, KeepFault::OutOfMemory)) => made(alloc, place, step, config),
        found => found,
    }
}

/// Makes an archive from an older one, at once or when it is made again.
fn migrated<S: InMemory + Drop, R: Print + AllocGlobal>(
    marks: Marks<'_, R>,
    step: Move<'_>,
) -> Result<Result<TableKeeper<S>, KeepFault>, Unread> {
    let alloc = marks.rt.alloc();
    let config = config_of(alloc, step.config)?;
    let other = config_of(alloc, step.config)?;
    let place = S::connect(alloc)?;
    marks.begin()?;
    let found = made(alloc, place, step, config);
    marks.end(found.is_err())?;
    match made_again(alloc, found, step, other) {
        Ok(keeper) => Ok(Ok(keeper)),
        Err((_, fault)) => Ok(Err(fault)),
    }
}

impl<S: InMemory + Drop> Moves<S> {
    /// Reads the archive of an older layout, and gives a word, or the fault.
    fn read<R: Print + AllocGlobal>(
        &mut self,
        marks: Marks<'_, R>,
        lists: &[Vec<u8>],
    ) -> Result<Vec<u8>, Unread> {
        let alloc = marks.rt.alloc();
        let mut connection = database::<S>(alloc, lists)?;
        match read(marks, &mut connection)? {
            Ok(old) => {
                self.old = Some(old);
                said(alloc, "read")
            }
            Err(fault) => Ok(fault.to_string(alloc)?.into_bytes()),
        }
    }

    /// Makes an archive from the one that was read, and gives a word, or the fault.
    fn migrated<R: Print + AllocGlobal>(
        &mut self,
        marks: Marks<'_, R>,
        config: &[u8],
        moment: u64,
    ) -> Result<Vec<u8>, Unread> {
        let alloc = marks.rt.alloc();
        let Some(old) = &self.old else {
            return Err(Unread::BadWords);
        };
        let step = Move {
            old,
            config,
            moment,
        };
        match migrated::<S, R>(marks, step)? {
            Ok(keeper) => {
                self.calls.put(Archive::new(alloc, keeper));
                said(alloc, "made")
            }
            Err(fault) => Ok(fault.to_string(alloc)?.into_bytes()),
        }
    }

    /// Does a step, with marks or without.
    fn moved<R: Print + AllocGlobal>(
        &mut self,
        marks: Marks<'_, R>,
        step: Step<'_>,
    ) -> Result<Vec<u8>, Unread> {
        match step {
            Step::Old(lists) => self.read(marks, lists),
            Step::Migrated(config, moment) => self.migrated(marks, config, moment),
        }
    }
}

impl<S: InMemory + Drop, R: Print + AllocGlobal> Answers<R> for Moves<S> {
    fn fresh(_rt: &R) -> Moves<S> {
        Moves {
            old: None,
            calls: Marked::new(),
        }
    }

    /// Does a step that follows `call` or `marked`; for other words it gives the answer of the story.
    fn answer(&mut self, rt: &R, words: &[Vec<u8>]) -> Result<Vec<u8>, Unread> {
        let Some((word, rest)) = words.split_first() else {
            return Err(Unread::BadWords);
        };
        if let Some(are_printed) = prints_marks(word)? {
            if let Some(step) = step_of(rest)? {
                return self.moved(Marks { rt, are_printed }, step);
            }
        }
        self.calls.answer(rt, words)
    }
}
