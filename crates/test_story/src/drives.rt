//! Lists of commands.

use crate::delivery::{Delivery, delivery_of};
use crate::outcomes::{arrived_text, found_text, number_text, promotion_text, report_text};
use crate::steps::{moment_of, owned, sources_of};
use book::Keeper;
use queue::{Archive, Command, Outcome};
use std::alloc::Global;
use test_rows::{Unread, number_of, text_of};

/// `deliver NAME [MOMENT] BODY [OLD NEW]..`.
fn delivery(alloc: Global, words: &[Vec<u8>]) -> Result<Command, Unread> {
    let Delivery { name, body, moment } = delivery_of(alloc, words)?;
    Ok(Command::Deliver { name, body, moment })
}

/// `copy FROM TO SOURCE MOMENT`.
fn copying(alloc: Global, words: &[Vec<u8>]) -> Result<Command, Unread> {
    let [from, to, source, moment] = words else {
        return Err(Unread::BadWords);
    };
    Ok(Command::Copy {
        moment: number_of(moment)?,
        from: owned(alloc, from)?,
        to: owned(alloc, to)?,
        source: owned(alloc, source)?,
    })
}

/// `promote FROM TO MOMENT [SOURCE..]`.
fn promoting(alloc: Global, words: &[Vec<u8>]) -> Result<Command, Unread> {
    let [from, to, moment, sources @ ..] = words else {
        return Err(Unread::BadWords);
    };
    Ok(Command::Promote {
        moment: number_of(moment)?,
        from: owned(alloc, from)?,
        to: owned(alloc, to)?,
        sources: sources_of(alloc, sources)?,
    })
}

/// `remove SUITE NAME MOMENT`.
fn removing(alloc: Global, words: &[Vec<u8>]) -> Result<Command, Unread> {
    let [suite, name, moment] = words else {
        return Err(Unread::BadWords);
    };
    Ok(Command::Remove {
        moment: number_of(moment)?,
        suite: owned(alloc, suite)?,
        name: owned(alloc, name)?,
    })
}

/// `fetch PATH`.
fn look_up(alloc: Global, words: &[Vec<u8>]) -> Result<Command, Unread> {
    match words {
        [path] => Ok(Command::Fetch {
            path: owned(alloc, path)?,
        }),
        _ => Err(Unread::BadWords),
    }
}

/// A command. Its words are those of a row, but with `fetch` instead of `show`.
pub fn command_of(alloc: Global, words: &[Vec<u8>]) -> Result<Command, Unread> {
    let Some((verb, words)) = words.split_first() else {
        return Err(Unread::BadWords);
    };
    match text_of(verb)? {
        "deliver" => delivery(alloc, words),
        "run" => Ok(Command::Run {
            moment: moment_of(words)?,
        }),
        "copy" => copying(alloc, words),
        "promote" => promoting(alloc, words),
        "remove" => removing(alloc, words),
        "fetch" => look_up(alloc, words),
        "waiting" => Ok(Command::Waiting {
            moment: moment_of(words)?,
        }),
        "clean" => Ok(Command::Clean {
            moment: moment_of(words)?,
        }),
        "verdicts" if words.is_empty() => Ok(Command::Verdicts),
        _ => Err(Unread::BadWords),
    }
}

/// Adds the commands of a list, with the word `;` between them.
pub fn add_commands(
    alloc: Global,
    commands: &mut Vec<Command>,
    words: &[Vec<u8>],
) -> Result<(), Unread> {
    if words.is_empty() {
        return Ok(());
    }
    for command in words.split(|word| word.as_slice() == b";".as_slice()) {
        commands.push(command_of(alloc, command)?)?;
    }
    Ok(())
}

/// What a command answered.
pub fn outcome_text(alloc: Global, outcome: Outcome) -> Result<Vec<u8>, Unread> {
    match outcome {
        Outcome::Deliver(done) => arrived_text(alloc, done),
        Outcome::Run(done) | Outcome::Waiting(done) | Outcome::Verdicts(done) => report_text(
            alloc, done,
        ),
        Outcome::Copy(done) | Outcome::Remove(done) | Outcome::Clean(done) => number_text(
            alloc, done,
        ),
        Outcome::Promote(done) => promotion_text(alloc, done),
        Outcome::Fetch(done) => found_text(alloc, done),
    }
}

/// Adds an answer, and a newline if it does not end in one.
fn add_answer(text: &mut Vec<u8>, answer: &[u8]) -> Result<(), Unread> {
    text.extend_from_slice(answer)?;
    if answer.last() != Some(&b'\n') {
        text.push(b'\n')?;
    }
    Ok(())
}

/// Adds the answer to a command.
fn add_outcome(alloc: Global, text: &mut Vec<u8>, outcome: Outcome) -> Result<(), Unread> {
    let answer = outcome_text(alloc, outcome)?;
    add_answer(text, &answer)
}

/// The answers to the commands of a list, each ended by a newline.
pub fn outcomes_text(alloc: Global, outcomes: Vec<Outcome>) -> Result<Vec<u8>, Unread> {
    let mut text = Vec::new(alloc);
    for outcome in outcomes {
        add_outcome(alloc, &mut text, outcome)?;
    }
    Ok(text)
}

/// `drive COMMAND ; COMMAND ..`: the answer to each command of the list, one after the other, each ended by a newline.
pub fn drive<K: Keeper>(
    alloc: Global,
    archive: &mut Archive<K>,
    words: &[Vec<u8>],
) -> Result<Vec<u8>, Unread> {
    let mut commands = Vec::new(alloc);
    add_commands(alloc, &mut commands, words)?;
    outcomes_text(alloc, archive.drive(alloc, &commands)?)
}
