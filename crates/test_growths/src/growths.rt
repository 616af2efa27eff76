//! Calls of an archive between two printed marks. A growth between them may be refused from outside. Then the call is refused, or answers
//! all the same. If it is refused, the archive has to show what it showed before, and the call is made again.

use crate::keepers::Places;
use book::{KeepFault, Keeper};
use queue::Archive;
use rules::Config;
use std::alloc::Global;
use test_rows::{Answers, Unread, said, text_of};
use test_story::{Call, Pieces, Question, Story, Task, difference};

/// Room for the reply of a request.
const ROOM: usize = 65_536;

/// A story over keepers of one type, whose calls may be marked.
#[derive(Drop)]
pub struct Marked<K: Keeper + Drop, M: Places<K>> {
    story: Story<K, M>,
}

/// Where the marks are printed, if they are.
#[derive(Clone, Copy)]
pub struct Marks<'a, R> {
    pub rt: &'a R,
    pub are_printed: bool,
}

impl<R: Print + AllocGlobal> Marks<'_, R> {
    /// Prints a word, if marks are printed.
    fn print(&self, word: &str) -> Result<(), Unread> {
        if self.are_printed && println!(self.rt; "{word}").is_err() {
            return Err(Unread::Failed);
        }
        Ok(())
    }

    /// Growths count from here on.
    pub fn begin(&self) -> Result<(), Unread> {
        self.print("begin")
    }

    /// Growths do not count from here on.
    pub fn end(&self, is_refused: bool) -> Result<(), Unread> {
        self.print("end")?;
        self.print(if is_refused { "refused" } else { "at once" })
    }
}

/// Everything that an archive shows.
fn shown<K: Keeper>(alloc: Global, archive: &mut Archive<K>) -> Result<Pieces, Unread> {
    let paths = Task::Paths.perform(alloc, archive)?;
    let question = Question {
        words: &[],
        paths: paths.as_slice(),
        right: &[],
    };
    Task::Tell(question).perform(alloc, archive)
}

/// The change of what an archive shows, if there is one.
fn changed<K: Keeper>(
    alloc: Global,
    archive: &mut Archive<K>,
    before: &[Vec<u8>],
) -> Result<Option<Vec<u8>>, Unread> {
    let behind = shown(alloc, archive)?;
    if behind.as_slice() == before {
        return Ok(None);
    }
    Ok(Some(difference(alloc, behind.as_slice(), before)?))
}

/// The answer to a call that is made again, if the archive shows what it showed before.
fn again<K: Keeper>(
    alloc: Global,
    archive: &mut Archive<K>,
    call: &Call,
    before: &[Vec<u8>],
) -> Result<Vec<u8>, Unread> {
    match changed(alloc, archive, before)? {
        Some(text) => Ok(text),
        None => {
            let room = Vec::with_capacity(alloc, ROOM)?;
            call.make(alloc, archive, room).text(alloc)
        }
    }
}

/// The answer to a call, at once or when it is made again.
fn called<K: Keeper, R: Print + AllocGlobal>(
    marks: Marks<'_, R>,
    archive: &mut Archive<K>,
    words: &[Vec<u8>],
) -> Result<Vec<u8>, Unread> {
    let alloc = marks.rt.alloc();
    let call = Call::read(alloc, words)?;
    let before = shown(alloc, archive)?;
    let room = Vec::with_capacity(alloc, ROOM)?;
    marks.begin()?;
    let answered = call.make(alloc, archive, room);
    marks.end(answered.is_refused())?;
    if answered.is_refused() {
        return again(alloc, archive, &call, before.as_slice());
    }
    answered.text(alloc)
}

/// Keeps the keeper in the story and gives a word, or gives the fault.
fn kept<K: Keeper + Drop, M: Places<K>>(
    alloc: Global,
    story: &mut Story<K, M>,
    keeper: Result<K, (M::Place, KeepFault)>,
    word: &str,
) -> Result<Vec<u8>, Unread> {
    match keeper {
        Ok(keeper) => {
            story.put(Archive::new(alloc, keeper));
            said(alloc, word)
        }
        Err((_, fault)) => Ok(fault.to_string(alloc)?.into_bytes()),
    }
}

/// The configuration of a text.
pub fn config_of(alloc: Global, text: &[u8]) -> Result<Config, Unread> {
    match Config::read(alloc, text) {
        Ok(config) => Ok(config),
        Err(_) => Err(Unread::BadWords),
    }
}

/// Makes an archive again in its place, if memory was wanting.
fn created_again<K: Keeper + Drop, M: Places<K>>(
    alloc: Global,
    made: Result<K, (M::Place, KeepFault)>,
    config: Config,
) -> Result<K, (M::Place, KeepFault)> {
    match made {
        Ok(keeper) => Ok(keeper),
        Err((place, KeepFault::OutOfMemory)) => M::create(alloc, place, config),
        Err((place, fault)) => Err((place, fault)),
    }
}

/// Makes an archive in a place, at once or when it is made again.
fn created_in<K: Keeper + Drop, M: Places<K>, R: Print + AllocGlobal>(
    marks: Marks<'_, R>,
    story: &mut Story<K, M>,
    place: M::Place,
    config: Config,
    other: Config,
) -> Result<Vec<u8>, Unread> {
    let alloc = marks.rt.alloc();
    let begun = marks.begin();
    let made = M::create(alloc, place, config);
    let ended = marks.end(made.is_err());
    let made = created_again::<K, M>(alloc, made, other);
    let answer = kept(alloc, story, made, "made");
    begun?;
    ended?;
    answer
}

/// `create CONFIG`: makes an archive of a configuration.
fn created<K: Keeper + Drop, M: Places<K>, R: Print + AllocGlobal>(
    marks: Marks<'_, R>,
    story: &mut Story<K, M>,
    text: &[u8],
) -> Result<Vec<u8>, Unread> {
    let alloc = marks.rt.alloc();
    let config = config_of(alloc, text)?;
    let other = config_of(alloc, text)?;
    let place = M::place(alloc)?;
    created_in(marks, story, place, config, other)
}

/// Opens an archive again in its place, if memory was wanting.
fn opened_again<K: Keeper + Drop, M: Places<K>>(
    alloc: Global,
    there: Result<K, (M::Place, KeepFault)>,
) -> Result<K, (M::Place, KeepFault)> {
    match there {
        Ok(keeper) => Ok(keeper),
        Err((place, KeepFault::OutOfMemory)) => M::open(alloc, place),
        Err((place, fault)) => Err((place, fault)),
    }
}

/// Opens an archive, at once or when it is opened again in the same place.
fn opened<K: Keeper + Drop, M: Places<K>, R: Print + AllocGlobal>(
    marks: Marks<'_, R>,
    story: &mut Story<K, M>,
    archive: Archive<K>,
) -> Result<Vec<u8>, Unread> {
    let alloc = marks.rt.alloc();
    let place = M::leave(archive.into_keeper());
    let begun = marks.begin();
    let there = M::open(alloc, place);
    let ended = marks.end(there.is_err());
    let there = opened_again::<K, M>(alloc, there);
    let answer = kept(alloc, story, there, "opened");
    begun?;
    ended?;
    answer
}

/// The answer to a call of the archive, which stays in the story.
fn called_of<K: Keeper + Drop, M: Places<K>, R: Print + AllocGlobal>(
    marks: Marks<'_, R>,
    story: &mut Story<K, M>,
    words: &[Vec<u8>],
) -> Result<Vec<u8>, Unread> {
    let Some(mut archive) = story.take() else {
        return Err(Unread::BadWords);
    };
    let answer = called(marks, &mut archive, words)?;
    story.put(archive);
    Ok(answer)
}

/// `call CALL`: the answer to a call, or its fault; `call create CONFIG` and `call open`: whether an archive is made, or opened again. With
/// `marked` instead of `call` the marks are printed.
fn answered<K: Keeper + Drop, M: Places<K>, R: Print + AllocGlobal>(
    marks: Marks<'_, R>,
    story: &mut Story<K, M>,
    words: &[Vec<u8>],
) -> Result<Vec<u8>, Unread> {
    let Some((verb, rest)) = words.split_first() else {
        return Err(Unread::BadWords);
    };
    match (text_of(verb)?, rest) {
        ("create", [config]) => created(marks, story, config.as_slice()),
        ("open", []) => match story.take() {
            Some(archive) => opened(marks, story, archive),
            None => Err(Unread::BadWords),
        },
        _ => called_of(marks, story, words),
    }
}

/// Whether marks are printed, by the word before a call: `call` or `marked`. All other rows have neither word.
pub fn prints_marks(word: &Vec<u8>) -> Result<Option<bool>, Unread> {
    match text_of(word)? {
        "call" => Ok(Some(false)),
        "marked" => Ok(Some(true)),
        _ => Ok(None),
    }
}

impl<K: Keeper + Drop, M: Places<K>> Marked<K, M> {
    /// A story in which no archive is there yet.
    pub fn new() -> Marked<K, M> {
        Marked {
            story: Story::new(),
        }
    }

    /// Keeps this archive from here on.
    pub fn put(&mut self, archive: Archive<K>) {
        self.story.put(archive);
    }
}

impl<K: Keeper + Drop, M: Places<K>, R: Print + AllocGlobal> Answers<R> for Marked<K, M> {
    fn fresh(_rt: &R) -> Marked<K, M> {
        Marked::new()
    }

    fn answer(&mut self, rt: &R, words: &[Vec<u8>]) -> Result<Vec<u8>, Unread> {
        let Some((word, call)) = words.split_first() else {
            return Err(Unread::BadWords);
        };
        match prints_marks(word)? {
            Some(are_printed) => answered(Marks { rt, are_printed }, &mut self.story, call),
            None => self.story.answered(rt.alloc(), words),
        }
    }
}
