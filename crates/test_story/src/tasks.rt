//! What is done with an archive, over any keeper, and everything that it shows.

use crate::named::paths_in;
use crate::refusals::is_refusal;
use crate::stories::asked;
use book::Keeper;
use queue::Archive;
use rules::Config;
use std::alloc::{AllocError, Global};
use std::slice::from_ref;
use test_rows::{Unread, text_of};

/// What an archive showed and answered, piece by piece.
pub type Pieces = Vec<Vec<u8>>;

/// A question to an archive.
#[derive(Clone, Copy)]
pub struct Question<'a> {
    /// The words of the question; there are none if nothing is asked.
    pub words: &'a [Vec<u8>],
    /// The paths of everything that the archive shows.
    pub paths: &'a [Vec<u8>],
    /// The right answer, if it is known.
    pub right: &'a [Vec<u8>],
}

/// What is done with an archive.
#[derive(Clone, Copy)]
pub enum Task<'a> {
    /// Nothing: the archive is only made or opened.
    Nothing,
    /// Asks the question. If it is refused, the archive first shows what `Tell` shows, and the answer to the question
    /// comes last.
    Ask(Question<'a>),
    /// Gives what the archive shows. If there is a question, it also gives the answer and what the archive then
    /// shows.
    Tell(Question<'a>),
    /// The paths of all indices, and of all files of the pool that they name.
    Paths,
}

/// The answer of an archive to a question; it is empty if there is no question.
fn answered<K: Keeper>(
    alloc: Global,
    archive: &mut Archive<K>,
    words: &[Vec<u8>],
) -> Result<Vec<u8>, Unread> {
    match words.split_first() {
        Some((verb, words)) => asked(alloc, archive, text_of(verb)?, words),
        None => Ok(Vec::new(alloc)),
    }
}

/// A piece of what is shown: its name and the bytes at it.
fn piece(alloc: Global, name: &[u8], bytes: &[u8]) -> Result<Vec<u8>, AllocError> {
    [name, b":\n".as_slice(), bytes, b"\n".as_slice()].concat(alloc)
}

/// Adds the answer to a question as a piece of this name.
fn add_piece<K: Keeper>(
    alloc: Global,
    archive: &mut Archive<K>,
    name: &[u8],
    question: (&str, &[Vec<u8>]),
    pieces: &mut Pieces,
) -> Result<(), Unread> {
    let (verb, words) = question;
    let found = asked(alloc, archive, verb, words)?;
    pieces.push(piece(alloc, name, found.as_slice())?)?;
    Ok(())
}

/// Adds everything that an archive shows: its configuration, the lists, and what is at these paths.
fn observe<K: Keeper>(
    alloc: Global,
    archive: &mut Archive<K>,
    paths: &[Vec<u8>],
    pieces: &mut Pieces,
) -> Result<(), Unread> {
    add_piece(
        alloc,
        archive,
        b"configuration",
        ("configuration", &[]),
        pieces,
    )?;
    add_piece(alloc, archive, b"waiting", ("waiting", &[]), pieces)?;
    add_piece(alloc, archive, b"verdicts", ("verdicts", &[]), pieces)?;
    for path in paths {
        add_piece(
            alloc,
            archive,
            path.as_slice(),
            ("show", from_ref(path)),
            pieces,
        )?;
    }
    Ok(())
}

/// What an archive shows and answers, as `Task::Tell` says.
fn told<K: Keeper>(
    alloc: Global,
    archive: &mut Archive<K>,
    question: Question<'_>,
) -> Result<Pieces, Unread> {
    let mut pieces = Vec::new(alloc);
    observe(alloc, archive, question.paths, &mut pieces)?;
    pieces.push(answered(alloc, archive, question.words)?)?;
    if !question.words.is_empty() {
        observe(alloc, archive, question.paths, &mut pieces)?;
    }
    Ok(pieces)
}

/// What an archive answers, as `Task::Ask` says.
fn tried<K: Keeper>(
    alloc: Global,
    archive: &mut Archive<K>,
    question: Question<'_>,
) -> Result<Pieces, Unread> {
    let answer = answered(alloc, archive, question.words)?;
    let mut pieces = match question.right {
        [right] if is_refusal(answer.as_slice(), right.as_slice()) => {
            told(alloc, archive, question)?
        }
        _ => Vec::new(alloc),
    };
    pieces.push(answer)?;
    Ok(pieces)
}

/// Adds the paths that are not in the list yet.
pub fn add_paths(alloc: Global, more: &[Vec<u8>], paths: &mut Pieces) -> Result<(), AllocError> {
    for path in more {
        if !paths.contains(path) {
            paths.push(Vec::from_slice(alloc, path.as_slice())?)?;
        }
    }
    Ok(())
}

/// Adds the paths that an index names.
fn add_named<K: Keeper>(
    alloc: Global,
    archive: &mut Archive<K>,
    index: &[Vec<u8>],
    paths: &mut Pieces,
) -> Result<(), Unread> {
    let text = asked(alloc, archive, "show", index)?;
    if let Ok(text) = str::from_utf8(text.as_slice()) {
        let named = paths_in(alloc, text)?;
        add_paths(alloc, named.as_slice(), paths)?;
    }
    Ok(())
}

/// The paths of the Release files of a configuration.
fn releases(alloc: Global, config: &Config) -> Result<Pieces, AllocError> {
    let mut paths = Vec::new(alloc);
    for suite in config.suites() {
        let codename = suite.codename.as_str();
        let path = ["dists/", codename, "/Release"].concat(alloc)?;
        paths.push(path.into_bytes())?;
    }
    Ok(paths)
}

/// The paths of all indices, each after its Release file, and then those of the files of the pool.
fn paths<K: Keeper>(alloc: Global, archive: &mut Archive<K>) -> Result<Pieces, Unread> {
    let releases = releases(alloc, archive.keeper.config())?;
    let mut indices = Vec::new(alloc);
    for release in releases.chunks(1) {
        add_paths(alloc, release, &mut indices)?;
        add_named(alloc, archive, release, &mut indices)?;
    }
    let mut files = Vec::new(alloc);
    for index in indices.chunks(1) {
        add_named(alloc, archive, index, &mut files)?;
    }
    add_paths(alloc, files.as_slice(), &mut indices)?;
    Ok(indices)
}

impl Task<'_> {
    /// Does a task, and gives what it answers.
    pub fn perform<K: Keeper>(
        self,
        alloc: Global,
        archive: &mut Archive<K>,
    ) -> Result<Pieces, Unread> {
        match self {
            Task::Nothing => Ok(Vec::new(alloc)),
            Task::Ask(question) => tried(alloc, archive, question),
            Task::Tell(question) => told(alloc, archive, question),
            Task::Paths => paths(alloc, archive),
        }
    }
}
