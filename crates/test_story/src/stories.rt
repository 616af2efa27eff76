//! A story: an archive, and the questions to it.

use crate::configurations::{configuration, configure};
use crate::drives::drive;
use crate::failures::{cut, writer_fails};
use crate::inquiries::{lacks, list, reason};
use crate::keepers::Makes;
use crate::numbers::numbers;
use crate::outcomes::printed;
use crate::questions;
use crate::reading::{status, wanted};
use crate::receptions::{receive, receive_fails, receive_fails_each};
use crate::requests::{left, request};
use crate::steps::{
    clean, copy, deliver, has, moment_of, piece, promote, remove, run, show, verdicts, waiting,
};
use book::{KeepFault, Keeper, LATEST};
use queue::Archive;
use rules::Config;
use std::alloc::Global;
use std::marker::PhantomData;
use test_rows::{Answers, Unread, said, text_of};

/// A story over keepers of one type, and what makes them. The archive is there after the row that makes it.
#[derive(Drop)]
pub struct Story<K: Keeper + Drop, M: Makes<K>> {
    archive: Option<Archive<K>>,
    makes: PhantomData<M>,
}

/// What an archive answers to a question on requests, and on bodies that a reader gives.
fn asked_by_reader<K: Keeper>(
    alloc: Global,
    archive: &mut Archive<K>,
    verb: &str,
    words: &[Vec<u8>],
) -> Result<Vec<u8>, Unread> {
    match verb {
        "request" => request(alloc, archive, words),
        "left" => left(alloc, archive, words),
        "cut" => cut(alloc, archive, words, false),
        "reader-fails" => cut(alloc, archive, words, true),
        "receive" => receive(alloc, archive, words),
        "receive-fails" => receive_fails(alloc, archive, words),
        "receive-fails-each" => receive_fails_each(alloc, archive, words),
        _ => Err(Unread::NoSuchQuestion),
    }
}

/// What an archive answers to a question on what it shows and on its uploads, or to one on requests and readers.
fn asked_of_uploads<K: Keeper>(
    alloc: Global,
    archive: &mut Archive<K>,
    verb: &str,
    words: &[Vec<u8>],
) -> Result<Vec<u8>, Unread> {
    match verb {
        "list" => list(alloc, archive, words),
        "piece" => piece(alloc, archive, words),
        "lacks" => lacks(alloc, archive, words),
        "reason" => reason(alloc, archive, words),
        "ask" => questions::ask(alloc, archive, words),
        _ => asked_by_reader(alloc, archive, verb, words),
    }
}

/// What an archive answers to a question: `deliver`, `run`, `waiting`, `verdicts`, `show`, `has`, `copy`, `promote`, `remove`,
/// `clean`, `configure`, `configuration`, `drive`, `list`, `piece`, `lacks`, `reason`, `ask` and those on requests and readers.
pub fn asked<K: Keeper>(
    alloc: Global,
    archive: &mut Archive<K>,
    verb: &str,
    words: &[Vec<u8>],
) -> Result<Vec<u8>, Unread> {
    match verb {
        "deliver" => deliver(alloc, archive, words),
        "run" => run(alloc, archive, words),
        "waiting" => waiting(alloc, archive, words),
        "verdicts" => verdicts(alloc, archive, words),
        "show" => show(alloc, archive, words),
        "has" => has(alloc, archive, words),
        "copy" => copy(alloc, archive, words),
        "promote" => promote(alloc, archive, words),
        "remove" => remove(alloc, archive, words),
        "clean" => clean(alloc, archive, words),
        "configure" => configure(alloc, archive, words),
        "configuration" => configuration(alloc, archive, words),
        "drive" => drive(alloc, archive, words),
        _ => asked_of_uploads(alloc, archive, verb, words),
    }
}

/// Keeps an archive over a keeper from here on, and says so; if there is no keeper, keeps none and says why.
fn keep<K: Keeper + Drop>(
    alloc: Global,
    archive: &mut Option<Archive<K>>,
    keeper: Result<K, KeepFault>,
    done: &str,
) -> Result<Vec<u8>, Unread> {
    match keeper {
        Ok(keeper) => {
            *archive = Some(Archive::new(alloc, keeper));
            said(alloc, done)
        }
        Err(fault) => {
            *archive = None;
            printed(alloc, &fault)
        }
    }
}

/// `archive CONFIG [MOMENT]`: `made`, or why there is no archive. With no moment it is made at 0.
fn make<K: Keeper + Drop, M: Makes<K>>(
    alloc: Global,
    archive: &mut Option<Archive<K>>,
    words: &[Vec<u8>],
) -> Result<Vec<u8>, Unread> {
    let Some((text, rest)) = words.split_first() else {
        return Err(Unread::BadWords);
    };
    let moment = moment_of(rest)?;
    if moment > LATEST {
        return Err(Unread::BadWords);
    }
    match Config::read(alloc, text) {
        Ok(config) => keep(alloc, archive, M::made(alloc, config, moment), "made"),
        Err(fault) => printed(alloc, &fault),
    }
}

/// `reopen`: the archive is closed and opened again; `opened`, or why it is not.
fn reopen<K: Keeper + Drop, M: Makes<K>>(
    alloc: Global,
    archive: &mut Option<Archive<K>>,
) -> Result<Vec<u8>, Unread> {
    match archive.take() {
        Some(old) => keep(
            alloc,
            archive,
            M::reopened(alloc, old.into_keeper()),
            "opened",
        ),
        None => Err(Unread::BadWords),
    }
}

/// The answer of the archive, which has to be there.
fn ask<K: Keeper + Drop, M: Makes<K>>(
    alloc: Global,
    archive: &mut Option<Archive<K>>,
    verb: &str,
    words: &[Vec<u8>],
) -> Result<Vec<u8>, Unread> {
    let Some(archive) = archive else {
        return Err(Unread::BadWords);
    };
    match verb {
        "writer-fails" => writer_fails::<K, M>(alloc, archive.keeper.config().text(), words),
        _ => asked(alloc, archive, verb, words),
    }
}

/// Does a row.
fn tell<K: Keeper + Drop, M: Makes<K>>(
    alloc: Global,
    archive: &mut Option<Archive<K>>,
    verb: &str,
    words: &[Vec<u8>],
) -> Result<Vec<u8>, Unread> {
    match verb {
        "archive" => make::<K, M>(alloc, archive, words),
        "reopen" => reopen::<K, M>(alloc, archive),
        "status" => status(alloc, words),
        "wanted" => wanted(alloc, words),
        "numbers" => numbers(alloc, words),
        verb => ask::<K, M>(alloc, archive, verb, words),
    }
}

impl<K: Keeper + Drop, M: Makes<K>> Story<K, M> {
    /// A story in which no archive is there yet.
    pub fn new() -> Story<K, M> {
        Story {
            archive: None,
            makes: PhantomData,
        }
    }

    /// Takes out the archive, if there is one.
    pub fn take(&mut self) -> Option<Archive<K>> {
        self.archive.take()
    }

    /// Keeps this archive from here on.
    pub fn put(&mut self, archive: Archive<K>) {
        self.archive = Some(archive);
    }

    /// The answer to the words of a row.
    pub fn answered(&mut self, alloc: Global, words: &[Vec<u8>]) -> Result<Vec<u8>, Unread> {
        match words {
            [verb, words @ ..] => tell::<K, M>(alloc, &mut self.archive, text_of(verb)?, words),
            [] => Err(Unread::BadWords),
        }
    }
}

impl<K: Keeper + Drop, M: Makes<K>, R: AllocGlobal> Answers<R> for Story<K, M> {
    fn fresh(_rt: &R) -> Story<K, M> {
        Story::new()
    }

    fn answer(&mut self, rt: &R, words: &[Vec<u8>]) -> Result<Vec<u8>, Unread> {
        self.answered(rt.alloc(), words)
    }
}
