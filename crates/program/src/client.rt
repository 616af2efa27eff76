//! The client of one connection: what it sends, and what it is sent, for as long as the connection may last.

ghost use Rattle.std.specs.Prelude.{◌≡◌, ◌*◌, ◌-◌, ◌/◌};
ghost use Rattle.std.specs.Duration.{as_nanos};
ghost use Rattle.std.specs.Io.{ReadsAtMost, WritesAtMost};

use std::alloc::Global;
use std::cell::Cell;
use std::io::{self, BufReader, Read, Write};
use std::net::TcpStream;
use std::time::{Clock, Duration, Instant};

/// How long a connection may last.
#[derive(Clone, Copy)]
pub struct Patience {
    /// How long the client may take to its first byte.
    pub first: Duration,
    /// How long a read or a write may wait for the client.
    pub silence: Duration,
    /// How long a client may go on sending after its reply.
    pub parting: Duration,
    /// How long the whole connection may last, if it moves at most `MOST_FREE` bytes.
    pub whole: Duration,
}

/// The most bytes that a connection moves without more time.
const MOST_FREE: u64 = 4_194_304;

/// The bytes for which a connection has a second more: 1 MiB.
const MEBIBYTE: u64 = 1_048_576;

/// How much longer a connection may last that has moved this number of bytes: a second for each whole MiB beyond `MOST_FREE`.
fn longer(moved: u64) -> Duration
    ensures { as_nanos result ≡ (moved - MOST_FREE) / MEBIBYTE * 1_000_000_000 }
{
    Duration::from_secs(moved.saturating_sub(MOST_FREE) / MEBIBYTE)
}

/// The most bytes of a first line that are kept.
const MOST_LINE: usize = 1_024;

/// The most bytes that are handed to the system at once. It waits until it has taken all of them, or until the time is over.
const MOST_PIECE: usize = 65_536;

/// What a client has sent of the empty lines that may come before its first line.
#[derive(Clone, Copy)]
enum Before {
    /// Nothing, or an empty line that ended in LF alone.
    Line,
    /// A CR, whose LF is to come.
    Return,
    /// An empty line that ended in CR LF.
    WholeLine,
    /// An empty line that ended in CR LF, and the CR of another.
    SecondReturn,
}

impl Before {
    /// What there is after one byte more, if that goes on with empty lines. Empty lines are those that httparse, and so the desk, passes
    /// over before the head of a request: each ends in CR LF, or in LF alone. CR LF CR LF is not among them, since it ends a head.
    fn after(self, byte: u8) -> Option<Before> {
        match (self, byte) {
            (Before::Line, b'\r') => Some(Before::Return),
            (Before::WholeLine, b'\r') => Some(Before::SecondReturn),
            (Before::Return, b'\n') => Some(Before::WholeLine),
            (Before::Line | Before::WholeLine, b'\n') => Some(Before::Line),
            _ => None,
        }
    }

    /// Whether the line may begin here: each empty line has its end.
    fn is_ended(self) -> bool {
        matches!(self, Before::Line | Before::WholeLine)
    }
}

/// The first line that a client sends, for the log alone: what the request asks for is read by the desk. Empty lines before the line are
/// passed over, as the desk does. The log has the words of this line even if the desk refuses the request, or if it is cut short.
#[derive(Drop)]
pub struct FirstLine {
    before: Before,
    text: Vec<u8>,
    is_whole: bool,
}

impl FirstLine {
    /// A line of which nothing has come.
    pub fn new(alloc: Global) -> FirstLine {
        FirstLine {
            before: Before::Line,
            text: Vec::new(alloc),
            is_whole: false,
        }
    }

    /// Takes a byte of the line once it has begun, or its end. What there is no memory for is left out.
    fn take_more(&mut self, byte: u8) {
        if byte == b'\n' || byte == b'\r' || self.text.len() >= MOST_LINE {
            self.is_whole = true;
        } else if self.text.push(byte).is_err() {
            self.is_whole = true;
        }
    }

    /// Takes a byte if none of the line has come yet.
    fn begin(&mut self, byte: u8) {
        match self.before.after(byte) {
            Some(before) => self.before = before,
            None if self.before.is_ended() => self.take_more(byte),
            None => self.is_whole = true,
        }
    }

    /// Takes a byte.
    fn take(&mut self, byte: u8) {
        if self.text.is_empty() {
            self.begin(byte);
        } else {
            self.take_more(byte);
        }
    }

    /// Takes what came next.
    fn take_all(&mut self, bytes: &[u8]) {
        for byte in bytes {
            if self.is_whole {
                return;
            }
            self.take(*byte);
        }
    }

    /// The bytes of the line.
    pub fn as_bytes(&self) -> &[u8] {
        &self.text
    }
}

/// A client's stream, when it was accepted, and how long it may last.
#[derive(Drop)]
pub struct Client<'c, R> {
    pub rt: &'c R,
    pub stream: &'c TcpStream,
    pub accepted: Instant,
    pub patience: Patience,
    /// How many bytes the client has sent, and has been sent, so far.
    pub moved: Cell<u64>,
    /// Whether a write has failed, or was cut short. No other is tried then: it would wait for the client once more.
    pub is_lost: Cell<bool>,
}

impl<R: Clock> Client<'_, R> {
    /// Adds a number of bytes to those that were moved.
    fn add_moved(&self, count: usize) {
        self.moved
            .set(self.moved.get().saturating_add(count as u64));
    }

    /// How long the next call may wait: `most`, or what is left of the whole if that is less. The whole is longer if the connection has
    /// moved many bytes. Fails if nothing is left, or if the client is lost.
    fn wait(&self, most: Duration) -> io::Result<Duration> {
        let whole = self.patience.whole.saturating_add(longer(self.moved.get()));
        let left = whole.saturating_sub(self.accepted.elapsed(self.rt)?);
        if left.is_zero() || self.is_lost.get() {
            return Err(io::Error::from(io::ErrorKind::TimedOut));
        }
        Ok(left.min(most))
    }

    /// Reads what comes within `most`.
    pub fn read_within(&self, most: Duration, buf: &mut [u8]) -> io::Result<usize>
        ensures { ReadsAtMost result buf.new }
    {
        self.stream.set_read_timeout(Some(self.wait(most)?))?;
        let mut stream = self.stream;
        let count = stream.read(buf)?;
        self.add_moved(count);
        Ok(count)
    }

    /// Writes a piece, within the patience with the client's silence. A client that does not take all of a piece in that time is lost.
    fn write_within(&self, piece: &[u8]) -> io::Result<usize>
        ensures { WritesAtMost result piece.now }
    {
        let wait = self.wait(self.patience.silence)?;
        self.stream.set_write_timeout(Some(wait))?;
        let mut stream = self.stream;
        let written = stream.write(piece);
        if let Ok(count) = written {
            self.add_moved(count);
        }
        let is_whole = matches!(written, Ok(count) if count == piece.len());
        self.is_lost.set(!is_whole);
        written
    }
}

/// A reader that gives what a client sends, from its first byte on, and nothing else. Only the types that this module names are such
/// readers.
pub trait FromOutside {}

/// The stream of a client. Its first byte is waited for as long as `first` of the patience says, and each later read as long as `silence`
/// says.
#[derive(Drop)]
pub struct ClientStream<'s, 'c, R> {
    pub client: &'s Client<'c, R>,
    pub has_begun: bool,
}

impl<R: Clock> Read for ClientStream<'_, '_, R> {
    fn read(&mut self, buf: &mut [u8]) -> io::Result<usize> {
        let patience = self.client.patience;
        let most = if self.has_begun {
            patience.silence
        } else {
            patience.first
        };
        let count = self.client.read_within(most, buf)?;
        self.has_begun = true;
        Ok(count)
    }
}

/// What a client sends: what this source gives. Its first line is noted.
#[derive(Drop)]
pub struct FromClient<'l, S> {
    pub source: S,
    pub line: &'l mut FirstLine,
}

impl<S: Read> Read for FromClient<'_, S> {
    // The bytes are those of the source.
    ghost remaining = { λ reader. S.remaining reader.source };

    fn read(&mut self, buf: &mut [u8]) -> io::Result<usize> {
        let count = self.source.read(buf)?;
        self.line.take_all(buf.get(..count).unwrap_or(&[]));
        Ok(count)
    }
}

impl<R> FromOutside for FromClient<'_, ClientStream<'_, '_, R>> {}

impl<R> FromOutside for BufReader<&mut FromClient<'_, ClientStream<'_, '_, R>>> {}

impl<I: FromOutside> FromOutside for &mut I {}

/// What a client is sent, and how many bytes it has been sent so far.
#[derive_where(Clone, Copy)]
pub struct ToClient<'t, 'c, R> {
    pub client: &'t Client<'c, R>,
    pub sent: &'t Cell<u64>,
}

impl<R: Clock> Write for ToClient<'_, '_, R> {
    fn write(&mut self, buf: &[u8]) -> io::Result<usize> {
        let piece = buf.get(..MOST_PIECE).unwrap_or(buf);
        let count = self.client.write_within(piece)?;
        self.sent.set(self.sent.get().saturating_add(count as u64));
        Ok(count)
    }

    fn flush(&mut self) -> io::Result<()> {
        Ok(())
    }
}
