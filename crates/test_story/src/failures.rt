//! Requests that are cut, and readers and writers that fail, at each byte.

use crate::keepers::Makes;
use crate::readers::{Full, Narrow, Pieces};
use crate::requests::reply_to;
use book::Keeper;
use desk::{DeskFault, answer};
use queue::Archive;
use rules::Config;
use std::alloc::Global;
use test_rows::{Unread, said};

/// The number of bytes that come in one read.
const MOST: usize = 7;

/// The moment of requests that are cut, or whose reply can't be written. The requests before them come at 0.
const LATER: u64 = 86_400;

/// The reply to each request that ends early.
const BAD_REQUEST: &[u8] =
    b"HTTP/1.1 400 Bad Request\r\nContent-Type: text/plain; charset=utf-8\r\nContent-Length: 16\r\nConnection: close\r\n\r\n400 Bad Request\n";

/// The request.
fn only_word(words: &[Vec<u8>]) -> Result<&[u8], Unread> {
    match words {
        [bytes] => Ok(bytes.as_slice()),
        _ => Err(Unread::BadWords),
    }
}

/// Says after how many bytes something went wrong, and what was written there.
fn otherwise(alloc: Global, place: usize, written: &[u8]) -> Result<Vec<u8>, Unread> {
    let mut text = format!(in alloc; "behind {place} bytes: ")?.into_bytes();
    text.extend_from_slice(written)?;
    Ok(text)
}

/// The reply to bytes after which nothing comes, if it is not the wanted one, or if some bytes are left unread.
fn beside_end<K: Keeper>(
    alloc: Global,
    archive: &mut Archive<K>,
    bytes: &[u8],
) -> Result<Option<Vec<u8>>, Unread> {
    let wanted = if bytes.is_empty() { b"" } else { BAD_REQUEST };
    let mut reader = Pieces {
        bytes,
        most: MOST,
        fails: false,
    };
    let reply = reply_to(alloc, archive, &mut reader, LATER)?;
    if reply.as_slice() == wanted && reader.bytes.is_empty() {
        return Ok(None);
    }
    Ok(Some(reply))
}

/// What is written in reply to bytes after which the reader fails, if that is not reported, or if something is written.
fn beside_failure<K: Keeper>(
    alloc: Global,
    archive: &mut Archive<K>,
    bytes: &[u8],
) -> Option<Vec<u8>> {
    let mut reader = Pieces {
        bytes,
        most: MOST,
        fails: true,
    };
    let mut writer = Vec::new(alloc);
    let served = answer(alloc, archive, &mut reader, &mut writer, LATER);
    if served == Err(DeskFault::ReaderFailed) && writer.is_empty() {
        return None;
    }
    Some(writer)
}

/// `cut BYTES`: `nothing delivered`, if a request that is cut after any number of its bytes is answered 400, and if no reply comes when no
/// byte does. `reader-fails BYTES`: `nothing delivered`, if a reader that fails at any byte of the request is answered with the fault H1,
/// and nothing is written. Otherwise both say where it went wrong.
pub fn cut<K: Keeper>(
    alloc: Global,
    archive: &mut Archive<K>,
    words: &[Vec<u8>],
    fails: bool,
) -> Result<Vec<u8>, Unread> {
    let bytes = only_word(words)?;
    for place in 0..bytes.len() {
        let front = bytes.get(..place).unwrap_or(b"");
        let found = if fails {
            beside_failure(alloc, archive, front)
        } else {
            beside_end(alloc, archive, front)?
        };
        if let Some(written) = found {
            return otherwise(alloc, place, &written);
        }
    }
    said(alloc, "nothing delivered")
}

/// A request that is made twice to a new archive, after others, and both replies.
#[derive(Drop)]
struct Twice<'a> {
    config: &'a [u8],
    before: &'a [Vec<u8>],
    bytes: &'a [u8],
    first: Vec<u8>,
    second: Vec<u8>,
}

/// A new archive of a configuration.
fn fresh<K: Keeper, M: Makes<K>>(alloc: Global, config: &[u8]) -> Result<Archive<K>, Unread> {
    let Ok(config) = Config::read(alloc, config) else {
        return Err(Unread::BadWords);
    };
    match M::made(alloc, config, 0) {
        Ok(keeper) => Ok(Archive::new(alloc, keeper)),
        Err(_) => Err(Unread::OutOfMemory),
    }
}

/// A new archive of a configuration, to which requests were made.
fn fresh_behind<K: Keeper + Drop, M: Makes<K>>(
    alloc: Global,
    config: &[u8],
    before: &[Vec<u8>],
) -> Result<Archive<K>, Unread> {
    let mut archive = fresh::<K, M>(alloc, config)?;
    for bytes in before {
        let _reply = whole_reply(alloc, &mut archive, bytes.as_slice(), 0)?;
    }
    Ok(archive)
}

/// The reply to the whole request.
fn whole_reply<K: Keeper>(
    alloc: Global,
    archive: &mut Archive<K>,
    bytes: &[u8],
    moment: u64,
) -> Result<Vec<u8>, Unread> {
    let mut reader = Pieces {
        bytes,
        most: MOST,
        fails: false,
    };
    reply_to(alloc, archive, &mut reader, moment)
}

/// The replies of a new archive to a request that is made twice.
fn asked_twice<'a, K: Keeper + Drop, M: Makes<K>>(
    alloc: Global,
    config: &'a [u8],
    words: &'a [Vec<u8>],
) -> Result<Twice<'a>, Unread> {
    let Some((bytes, before)) = words.split_last() else {
        return Err(Unread::BadWords);
    };
    let bytes = bytes.as_slice();
    let mut archive = fresh_behind::<K, M>(alloc, config, before)?;
    let first = whole_reply(alloc, &mut archive, bytes, LATER)?;
    let second = whole_reply(alloc, &mut archive, bytes, LATER)?;
    Ok(Twice {
        config,
        before,
        bytes,
        first,
        second,
    })
}

/// What is written if the writer of the first reply is full after `room` bytes, but only if that is not reported, or if other bytes than
/// these of the reply are written.
fn beside_full<K: Keeper>(
    alloc: Global,
    archive: &mut Archive<K>,
    twice: &Twice<'_>,
    room: usize,
    full: Full,
) -> Option<Vec<u8>> {
    let mut reader = twice.bytes;
    let mut writer = Narrow {
        taken: Vec::new(alloc),
        room,
        full,
    };
    let served = answer(alloc, archive, &mut reader, &mut writer, LATER);
    let front = twice.first.as_slice().get(..room);
    if served == Err(DeskFault::WriterFailed) && front == Some(writer.taken.as_slice()) {
        return None;
    }
    Some(writer.taken)
}

/// What is written by a new archive whose first reply can't be written, or else its second reply; only if it is not the wanted one.
fn beside_full_of<K: Keeper + Drop, M: Makes<K>>(
    alloc: Global,
    twice: &Twice<'_>,
    room: usize,
    full: Full,
) -> Result<Option<Vec<u8>>, Unread> {
    let mut archive = fresh_behind::<K, M>(alloc, twice.config, twice.before)?;
    if let Some(written) = beside_full(alloc, &mut archive, twice, room, full) {
        return Ok(Some(written));
    }
    let second = whole_reply(alloc, &mut archive, twice.bytes, LATER)?;
    if second.as_slice() == twice.second.as_slice() {
        return Ok(None);
    }
    Ok(Some(second))
}

/// Says where it went wrong with a writer that is full after `room` bytes, if it did.
fn told_full<K: Keeper + Drop, M: Makes<K>>(
    alloc: Global,
    twice: &Twice<'_>,
    room: usize,
    full: Full,
) -> Result<Option<Vec<u8>>, Unread> {
    match beside_full_of::<K, M>(alloc, twice, room, full)? {
        Some(found) => Ok(Some(otherwise(alloc, room, &found)?)),
        None => Ok(None),
    }
}

/// Says where it went wrong with a writer that is full after any number of bytes, or that can't flush the reply, if it did.
fn told_each<K: Keeper + Drop, M: Makes<K>>(
    alloc: Global,
    twice: &Twice<'_>,
) -> Result<Option<Vec<u8>>, Unread> {
    let length = twice.first.len();
    for room in 0..length {
        for full in [Full::Fails, Full::TakesNothing] {
            let found = told_full::<K, M>(alloc, twice, room, full)?;
            if found.is_some() {
                return Ok(found);
            }
        }
    }
    told_full::<K, M>(alloc, twice, length, Full::FailsToFlush)
}

/// `writer-fails [REQUEST..] REQUEST`: the reply to the last request can't be written from any of its bytes on, or can't be flushed. The
/// answer is `done` if a new archive, after the first requests, then answers with the fault H2, writes the bytes before, and answers the
/// request when it is repeated as if the reply had been written. Otherwise it says where it went wrong.
pub fn writer_fails<K: Keeper + Drop, M: Makes<K>>(
    alloc: Global,
    config: &[u8],
    words: &[Vec<u8>],
) -> Result<Vec<u8>, Unread> {
    let twice = asked_twice::<K, M>(alloc, config, words)?;
    match told_each::<K, M>(alloc, &twice)? {
        Some(found) => Ok(found),
        None => said(alloc, "done"),
    }
}
