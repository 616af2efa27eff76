//! Calls of an archive that are first read from a row, then made, and printed last: while a call is made nothing grows except by the
//! call itself.

use crate::configurations::{NotConfigured, configured, told};
use crate::drives::{add_commands, command_of, outcome_text, outcomes_text};
use crate::outcomes::{piece_text, printed};
use crate::readers::Pieces;
use crate::steps::{owned, place_of};
use book::{FilePiece, Keeper};
use desk::{DeskFault, Served, answer};
use queue::{Archive, Command, Fault, Outcome};
use std::alloc::{AllocError, Global};
use test_rows::{Unread, number_of, text_of};

/// The number of bytes that come in one read.
const MOST: usize = 4096;

/// The beginning of a reply that reports want of memory.
const NO_MEMORY: &[u8] = b"HTTP/1.1 507 ";

/// A call.
#[derive(Drop)]
pub enum Call {
    /// A single command.
    One(Command),
    /// A list of commands.
    List(Vec<Command>),
    /// A delivery whose body a reader gives.
    Receive(String, Vec<u8>),
    /// A request at a moment.
    Request(u64, Vec<u8>),
    /// The text of a configuration that the archive is given, and the moment.
    Configure(u64, Vec<u8>),
    /// The path of a file of the pool, and the place of one of its pieces.
    Piece(String, u32),
}

/// The answer to a call.
#[derive(Drop)]
pub enum Answered {
    One(Outcome),
    List(Result<Vec<Outcome>, AllocError>),
    /// How the request was served, and what was written.
    Reply(Result<Served, DeskFault>, Vec<u8>),
    Configured(Result<(), NotConfigured>),
    Piece(Result<Option<FilePiece>, Fault>),
}

/// Makes a single command.
fn one<K: Keeper>(alloc: Global, archive: &mut Archive<K>, command: &Command) -> Outcome {
    match command {
        Command::Deliver { name, body, moment } => {
            Outcome::Deliver(archive.deliver(alloc, name, body, *moment))
        }
        Command::Run { moment } => Outcome::Run(archive.run(alloc, *moment)),
        Command::Copy {
            from,
            to,
            source,
            moment,
        } => Outcome::Copy(archive.copy(alloc, from, to, source, *moment)),
        Command::Fetch { path } => Outcome::Fetch(archive.fetch(alloc, path)),
        Command::Waiting { moment } => Outcome::Waiting(archive.waiting(alloc, *moment)),
        Command::Clean { moment } => Outcome::Clean(archive.clean(alloc, *moment)),
        Command::Remove {
            suite,
            name,
            moment,
        } => Outcome::Remove(archive.remove(alloc, suite, name, *moment)),
        Command::Promote {
            from,
            to,
            sources,
            moment,
        } => Outcome::Promote(archive.promote(alloc, from, to, sources, *moment)),
        Command::Verdicts => Outcome::Verdicts(archive.verdicts(alloc)),
    }
}

/// Delivers a body that a reader gives, at 0.
fn received<K: Keeper>(
    alloc: Global,
    archive: &mut Archive<K>,
    name: &str,
    body: &[u8],
) -> Outcome {
    let mut reader = Pieces {
        bytes: body,
        most: MOST,
        fails: false,
    };
    Outcome::Deliver(archive.receive(alloc, name, body.len() as u64, &mut reader, 0))
}

/// Makes a request, and writes the reply into this room.
fn replied<K: Keeper>(
    alloc: Global,
    archive: &mut Archive<K>,
    moment: u64,
    bytes: &[u8],
    room: Vec<u8>,
) -> Answered {
    let mut writer = room;
    let mut reader = Pieces {
        bytes,
        most: MOST,
        fails: false,
    };
    let served = answer(alloc, archive, &mut reader, &mut writer, moment);
    Answered::Reply(served, writer)
}

/// A request: its words are a moment and its bytes.
fn request_of(alloc: Global, words: &[Vec<u8>]) -> Result<Call, Unread> {
    match words {
        [moment, bytes] => Ok(Call::Request(
            number_of(moment)?,
            Vec::from_slice(alloc, bytes.as_slice())?,
        )),
        _ => Err(Unread::BadWords),
    }
}

/// A configuration that the archive is given: its words are a moment and a text.
fn configuration_of(alloc: Global, words: &[Vec<u8>]) -> Result<Call, Unread> {
    match words {
        [moment, text] => Ok(Call::Configure(
            number_of(moment)?,
            Vec::from_slice(alloc, text.as_slice())?,
        )),
        _ => Err(Unread::BadWords),
    }
}

/// A delivery whose body a reader gives: its words are a name and a body.
fn receipt_of(alloc: Global, words: &[Vec<u8>]) -> Result<Call, Unread> {
    match words {
        [name, body] => Ok(Call::Receive(
            owned(alloc, name)?,
            Vec::from_slice(alloc, body.as_slice())?,
        )),
        _ => Err(Unread::BadWords),
    }
}

/// A piece of a file of the pool: its words are a path and a place.
fn asked_piece(alloc: Global, words: &[Vec<u8>]) -> Result<Call, Unread> {
    match words {
        [path, number] => Ok(Call::Piece(owned(alloc, path)?, place_of(number)?)),
        _ => Err(Unread::BadWords),
    }
}

/// The commands of a list.
fn list_of(alloc: Global, words: &[Vec<u8>]) -> Result<Call, Unread> {
    let mut commands = Vec::new(alloc);
    add_commands(alloc, &mut commands, words)?;
    Ok(Call::List(commands))
}

impl Call {
    /// The call of a row: `request MOMENT BYTES`, `receive NAME BODY`, `configure MOMENT CONFIG`, `piece PATH NUMBER`,
    /// `drive COMMAND ; COMMAND ..`, or a command as such a list has it.
    pub fn read(alloc: Global, words: &[Vec<u8>]) -> Result<Call, Unread> {
        let Some((verb, rest)) = words.split_first() else {
            return Err(Unread::BadWords);
        };
        match text_of(verb)? {
            "request" => request_of(alloc, rest),
            "receive" => receipt_of(alloc, rest),
            "configure" => configuration_of(alloc, rest),
            "piece" => asked_piece(alloc, rest),
            "drive" => list_of(alloc, rest),
            _ => Ok(Call::One(command_of(alloc, words)?)),
        }
    }

    /// Makes the call. A reply is written into the room.
    pub fn make<K: Keeper>(
        &self,
        alloc: Global,
        archive: &mut Archive<K>,
        room: Vec<u8>,
    ) -> Answered {
        match self {
            Call::One(command) => Answered::One(one(alloc, archive, command)),
            Call::List(commands) => Answered::List(archive.drive(alloc, commands)),
            Call::Receive(name, body) => Answered::One(received(alloc, archive, name, body)),
            Call::Request(moment, bytes) => replied(alloc, archive, *moment, bytes, room),
            Call::Configure(moment, text) => {
                Answered::Configured(configured(alloc, archive, text, *moment))
            }
            Call::Piece(path, number) => {
                Answered::Piece(archive.fetch_piece(alloc, path, *number))
            }
        }
    }
}

/// Whether a command was refused for want of memory.
fn is_refused(outcome: &Outcome) -> bool {
    matches!(
        outcome,
        Outcome::Deliver(Err(Fault::OutOfMemory))
            | Outcome::Run(Err(Fault::OutOfMemory))
            | Outcome::Copy(Err(Fault::OutOfMemory))
            | Outcome::Fetch(Err(Fault::OutOfMemory))
            | Outcome::Waiting(Err(Fault::OutOfMemory))
            | Outcome::Clean(Err(Fault::OutOfMemory))
            | Outcome::Remove(Err(Fault::OutOfMemory))
            | Outcome::Promote(Err(Fault::OutOfMemory))
            | Outcome::Verdicts(Err(Fault::OutOfMemory))
    )
}

/// Whether any of these commands was refused for want of memory.
fn has_refused(outcomes: &[Outcome]) -> bool {
    for outcome in outcomes {
        if is_refused(outcome) {
            return true;
        }
    }
    false
}

impl Answered {
    /// Whether the call, or one of its commands, was refused for want of memory.
    pub fn is_refused(&self) -> bool {
        match self {
            Answered::One(outcome) => is_refused(outcome),
            Answered::List(Ok(outcomes)) => has_refused(outcomes.as_slice()),
            Answered::List(Err(_)) => true,
            Answered::Reply(_, written) => written.as_slice().starts_with(NO_MEMORY),
            Answered::Configured(done) => matches!(done, Err(NotConfigured::OutOfMemory)),
            Answered::Piece(done) => matches!(done, Err(Fault::OutOfMemory)),
        }
    }

    /// The printed form of the answer.
    pub fn text(self, alloc: Global) -> Result<Vec<u8>, Unread> {
        match self {
            Answered::One(outcome) => outcome_text(alloc, outcome),
            Answered::List(outcomes) => outcomes_text(alloc, outcomes?),
            Answered::Reply(Ok(_), written) => Ok(written),
            Answered::Reply(Err(fault), _) => printed(alloc, &fault),
            Answered::Configured(done) => told(alloc, done),
            Answered::Piece(done) => piece_text(alloc, done),
        }
    }
}
