//! The archive served over HTTP, one connection after the other.
//!
//! The wait for the first byte is short, since browsers and health checks open connections that they do not use. After a reply the server
//! closes its side and reads on, up to 4 MiB and 2 seconds: a socket that is closed with bytes unread is reset, and its client then loses
//! the reply. Only these intervals, the milliseconds of the log and the wait for a lock are measured by a clock: no answer depends on it.
//!
//! If a connection can't be accepted for want of room, or because its network failed, `serve` waits a tenth of a second and tries again,
//! without end. These errors pass (accept(2)), and a service that ended would meet them again when it is started again. They count as no
//! connection. A client that left before it was accepted is reported by an error as well, and counts. Any other error ends `serve`, since
//! the listener is of no more use.
//!
//! 16 MiB are taken once, and given back at once. From then on the C library's allocator keeps up to 32 MiB. Otherwise it would give the
//! memory of each large reply back, and taking it anew costs more than the reply. A reply goes through a buffer, if there is memory for
//! one.

ghost use Rattle.std.specs.Prelude.{◌≡◌, ◌≤◌, ℕ, All, None, length};
ghost use Rattle.desk.specs.Connections.{HasServed, IsClientsWithin};
ghost use Rattle.desk.specs.Want.{no_rules};
ghost use Rattle.program.specs.Ends.{end_of, first_end};
ghost use Rattle.queue.specs.Steps.{Reads};

use crate::client::{Client, ClientStream, FirstLine, FromClient, FromOutside, Patience, ToClient};
use crate::fault::Stop;
use crate::log::{Ended, Log};
use crate::moments::Moments;
use crate::notes::Notes;
use book::{KeepFault, Keeper};
use desk::{Connection, Desk, DeskFault, Served, attend};
use http::StatusCode;
use queue::{Archive, Fault};
use std::alloc::Global;
use std::cell::Cell;
use std::io::{self, BufReader, BufWriter, Read, Write};
use std::net::{Shutdown, TcpListener, TcpStream};
use std::rt::Files;
use std::time::{Clock, Duration, Instant};
use std::{slice, thread};

/// The patience of the program.
pub fn patience() -> Patience {
    Patience {
        first: Duration::from_secs(5),
        silence: Duration::from_secs(30),
        parting: Duration::from_secs(2),
        whole: Duration::from_secs(120),
    }
}

/// The most bytes that are read after a reply.
const MOST_DRAINED: u32 = 4_194_304;

/// How many bytes the allocator is to keep between two replies: what the largest takes.
const ROOM: usize = 16_777_216;

/// The most bytes of a request that are read ahead. The buffer for them is filled with zeros, one by one, for each client, and a
/// larger one costs more than the calls that it spares: this one takes a head, and most bodies that follow one at once.
const MOST_AHEAD: usize = 2_048;

/// How long `serve` waits if no connection can be accepted for now, in milliseconds.
const BETWEEN_TRIES: u64 = 100;

/// The errors of Linux by which it says that no connection can be accepted for now: EMFILE, ENFILE, ENOBUFS and ENOMEM for want of room,
/// and those of a network that failed the connection, which accept(2) lists: ENETDOWN, EPROTO, ENOPROTOOPT, EHOSTDOWN, ENONET,
/// EHOSTUNREACH, EOPNOTSUPP and ENETUNREACH.
const PASSING: [i32; 12] = [24, 23, 105, 12, 100, 71, 92, 112, 64, 113, 95, 101];

/// Has the allocator keep the memory of a reply for the next. The allocator of the C library gives back what lies free at the end of its
/// memory, if that is more than twice the largest piece that was ever given back to it. To take it anew for each reply costs more than the
/// reply.
pub fn keep_room(alloc: Global) {
    let _ = Vec::<u8>::with_capacity(alloc, ROOM);
}

/// Answers `count` connections of a listener, one after the other, each as a list of it alone, at the moment, in seconds since 1970-01-01
/// 00:00:00 UTC. A client loses its connection if its first byte does not come within 5 seconds, if it is silent for 30, or if the
/// connection lasts for 120, and one second more for each whole MiB beyond 4 that it has read or written. A connection that fails counts,
/// and the next is answered. If none can be accepted for now, it waits a moment and tries again, however often. It ends early if none can
/// be accepted at all. If the keeper is shut it ends with the number of those that are left.
pub fn serve<'a, R: Clock + Files + AllocGlobal, K: Keeper>(
    rt: &R,
    archive: &mut Archive<K>,
    listener: &TcpListener,
    count: u64,
    moment: u64,
) -> Result<(), Stop<'a>>
    // Whatever clients send, and whenever they leave, the archive is as `attend` leaves it after some list of at most `count` connections
    // at the moment. That their readers give what a client sends and nothing else is said by their types (`FromOutside`), and by no clause.
    ensures served { HasServed K.Keeper count (IsClientsWithin no_rules moment moment) archive.old.keeper archive.new.keeper }
{
    keep_room(rt.alloc());
    let mut moments = Moments::new(moment, None);
    let mut unread = Vec::<u8>::new(rt.alloc());
    let mut notes = Notes::new(Log::new(&mut unread, None), false);
    let desk = Desk::new(rt.alloc())?;
    serve_at(
        rt,
        &desk,
        archive,
        listener,
        count,
        &mut moments,
        patience(),
        &mut notes,
    )
}

/// Answers `count` connections of a listener as `serve` does, but by this desk, at these moments, with this patience, and with notes of
/// each connection.
pub fn serve_at<'a, R: Clock + Files + AllocGlobal, K: Keeper, E: Write>(
    rt: &R,
    desk: &Desk,
    archive: &mut Archive<K>,
    listener: &TcpListener,
    count: u64,
    moments: &mut Moments<'_>,
    patience: Patience,
    notes: &mut Notes<'_, E>,
) -> Result<(), Stop<'a>>
    // Each connection has a moment that `moments` has now or had on the way, and none is before that of an earlier connection.
    ensures served { HasServed K.Keeper count (IsClientsWithin desk.now.rules moments.old.greatest moments.new.greatest) archive.old.keeper archive.new.keeper }
    ensures rises { moments.old.greatest ≤ moments.new.greatest }
    ensures still { moments.old.file ≡ None → moments.new.greatest ≡ moments.old.greatest }
    ensures file { moments.new.file ≡ moments.old.file }
{
    for served in 0..count {
        match accepted(rt, listener) {
            // How the connection ends concerns its client alone.
            Ok(stream) => {
                let moment = moments.next(rt);
                let visit = Visit {
                    rt,
                    desk,
                    stream: &stream,
                    moment,
                    patience,
                };
                if leaves_shut(&visit, archive, notes) {
                    return Err(Stop::Shut(count - served - 1));
                }
            }
            // The client left before its turn came.
            Err(error) if error.kind() == io::ErrorKind::ConnectionAborted => {}
            Err(_) => return Err(Stop::CannotListen),
        }
    }
    Ok(())
}

/// A connection that was accepted, and how it is answered.
#[derive_where(Clone, Copy)]
struct Visit<'v, R> {
    rt: &'v R,
    desk: &'v Desk,
    stream: &'v TcpStream,
    moment: u64,
    patience: Patience,
}

/// Whether an error says that no connection can be accepted for now, but perhaps later.
fn is_passing(error: &io::Error) -> bool {
    match error.raw_os_error() {
        Some(code) => PASSING.contains(&code),
        None => false,
    }
}

/// The next connection of a listener. If none can be accepted for now, it waits a moment and tries again.
fn accepted<R: Clock>(rt: &R, listener: &TcpListener) -> io::Result<TcpStream> {
    for _ in 0..u64::MAX {
        match listener.accept() {
            Ok((stream, _)) => return Ok(stream),
            Err(error) if is_passing(&error) => {
                thread::sleep(rt, Duration::from_millis(BETWEEN_TRIES));
            }
            Err(error) => return Err(error),
        }
    }
    Err(io::Error::from(io::ErrorKind::TimedOut))
}

/// Answers one connection, and says whether the keeper is shut after it.
fn leaves_shut<R: Clock + AllocGlobal, K: Keeper, E: Write>(
    visit: &Visit<'_, R>,
    archive: &mut Archive<K>,
    notes: &mut Notes<'_, E>,
) -> bool
    ensures served { HasServed K.Keeper 1 (IsClientsWithin visit.now.desk.now.rules visit.now.moment visit.now.moment) archive.old.keeper archive.new.keeper }
{
    let end = answer_client(visit, archive, notes);
    if !is_insufficient_storage(&end) {
        return false;
    }
    is_shut(visit.rt.alloc(), archive)
}

/// Whether a status is 507.
fn is_507(status: &StatusCode) -> bool {
    status.as_u16() == 507
}

/// Whether the reply was 507.
fn is_insufficient_storage(end: &io::Result<Result<Served, DeskFault>>) -> bool {
    match end {
        Ok(Ok(Served::Status(status))) => is_507(status),
        _ => false,
    }
}

/// Whether the keeper of an archive is shut, or can't be read.
fn is_shut<K: Keeper>(alloc: Global, archive: &mut Archive<K>) -> bool
    ensures reads { Reads K.Keeper archive.old.keeper archive.new.keeper }
{
    matches!(
        archive.fetch(alloc, ""),
        Err(Fault::Keeper(KeepFault::Disk))
    )
}

/// Answers one connection, lets its client read the reply, and notes it.
fn answer_client<R: Clock + AllocGlobal, K: Keeper, E: Write>(
    visit: &Visit<'_, R>,
    archive: &mut Archive<K>,
    notes: &mut Notes<'_, E>,
) -> io::Result<Result<Served, DeskFault>>
    ensures served { HasServed K.Keeper 1 (IsClientsWithin visit.now.desk.now.rules visit.now.moment visit.now.moment) archive.old.keeper archive.new.keeper }
{
    let rt = visit.rt;
    let client = Client {
        rt,
        stream: visit.stream,
        accepted: Instant::now(rt)?,
        patience: visit.patience,
        moved: Cell::new(0),
        is_lost: Cell::new(false),
    };
    let (mut line, sent) = (FirstLine::new(rt.alloc()), Cell::new(0));
    let end = answered(visit, archive, &client, &mut line, &sent);
    if let Ok(Served::Status(_)) = end {
        let _ = part(&client);
    }
    if visit.desk.takes_change() {
        notes.note_change();
    }
    if notes.is_logged() {
        let ended = Ended {
            moment: visit.moment,
            line: line.as_bytes(),
            end,
            sent: sent.get(),
            lasted: client.accepted.elapsed(rt)?,
        };
        notes.write_line(rt.alloc(), &ended);
    }
    Ok(end)
}

/// Answers the request of a client. The request and the reply go through a buffer each, if there is memory for it.
fn answered<R: Clock + AllocGlobal, K: Keeper>(
    visit: &Visit<'_, R>,
    archive: &mut Archive<K>,
    client: &Client<'_, R>,
    line: &mut FirstLine,
    sent: &Cell<u64>,
) -> Result<Served, DeskFault>
    ensures served { HasServed K.Keeper 1 (IsClientsWithin visit.now.desk.now.rules visit.now.moment visit.now.moment) archive.old.keeper archive.new.keeper }
{
    let source = ClientStream {
        client,
        has_begun: false,
    };
    let mut reader = FromClient { source, line };
    if let Ok(mut buffered) = BufReader::with_capacity(client.rt.alloc(), MOST_AHEAD, &mut reader) {
        return replied(visit, archive, client, &mut buffered, sent);
    }
    replied(visit, archive, client, &mut reader, sent)
}

/// Answers the request of this reader of a client. The reply goes through a buffer, if there is memory for one.
fn replied<R: Clock + AllocGlobal, K: Keeper, I: Read + FromOutside>(
    visit: &Visit<'_, R>,
    archive: &mut Archive<K>,
    client: &Client<'_, R>,
    reader: &mut I,
    sent: &Cell<u64>,
) -> Result<Served, DeskFault>
    requires foreign { I.remaining reader.old ≡ None }
    ensures served { HasServed K.Keeper 1 (IsClientsWithin visit.now.desk.now.rules visit.now.moment visit.now.moment) archive.old.keeper archive.new.keeper }
{
    let alloc = visit.rt.alloc();
    let writer = ToClient { client, sent };
    match BufWriter::new(alloc, writer) {
        Ok(buffered) => {
            let mut one = connection(reader, buffered, visit.moment);
            attended(alloc, visit.desk, archive, slice::from_mut(&mut one))
        }
        Err(_) => {
            let mut one = connection(reader, writer, visit.moment);
            attended(alloc, visit.desk, archive, slice::from_mut(&mut one))
        }
    }
}

/// A connection of this reader and this writer, which is to be answered.
fn connection<R, W>(reader: R, writer: W, moment: u64) -> Connection<R, W>
    ensures reader { result.reader ≡ reader }
    ensures moment { result.moment ≡ moment }
{
    Connection {
        reader,
        writer,
        moment,
        end: None,
    }
}

/// How a connection ended, or `Nothing` if it has not ended.
fn end_of(end: &Option<Result<Served, DeskFault>>) -> Result<Served, DeskFault>
    ensures { result ≡ end_of end.now }
{
    match end {
        Some(end) => *end,
        None => Ok(Served::Nothing),
    }
}

/// How the first of these connections ended, or `Nothing` if there is none.
fn first_end<R, W>(connections: &[Connection<R, W>]) -> Result<Served, DeskFault>
    ensures { result ≡ first_end connections.now }
{
    match connections.first() {
        Some(one) => end_of(&one.end),
        None => Ok(Served::Nothing),
    }
}

/// Answers connections of clients, and says how the first of them ended.
fn attended<K: Keeper, R: Read + FromOutside, W: Write>(
    alloc: Global,
    desk: &Desk,
    archive: &mut Archive<K>,
    connections: &mut [Connection<R, W>],
) -> Result<Served, DeskFault>
    ensures served { (moment : ℕ) → All (λ one. (R.remaining one.reader ≡ None) × (one.moment ≡ moment)) connections.old
        → HasServed K.Keeper (length connections.old) (IsClientsWithin desk.now.rules moment moment) archive.old.keeper archive.new.keeper }
    ensures end { result ≡ first_end connections.new }
{
    attend(alloc, desk, archive, connections);
    first_end(connections)
}

/// Reads what a client goes on to send, within what is left of the patience with its parting, and answers how many bytes came: 0 at the
/// end, or once that time is over.
fn drained<R: Clock>(
    client: &Client<'_, R>,
    begun: Instant,
    buffer: &mut [u8],
) -> io::Result<usize> {
    let passed = begun.elapsed(client.rt)?;
    let left = client.patience.parting.saturating_sub(passed);
    if left.is_zero() {
        return Ok(0);
    }
    client.read_within(left, buffer)
}

/// Ends what a client is sent, and reads what it goes on to send: to its end, until the patience with its parting is over, or until
/// `MOST_DRAINED` bytes have come. A stream that is closed with bytes unread is reset, and then a client that is still sending loses the
/// reply.
fn part<R: Clock>(client: &Client<'_, R>) -> io::Result<()> {
    client.stream.shutdown(Shutdown::Write)?;
    let begun = Instant::now(client.rt)?;
    let mut buffer = [0; 16_384];
    let mut all = 0usize;
    for _ in 0..MOST_DRAINED {
        let count = drained(client, begun, &mut buffer)?;
        all = all.saturating_add(count);
        if count == 0 || all >= MOST_DRAINED as usize {
            break;
        }
    }
    Ok(())
}
