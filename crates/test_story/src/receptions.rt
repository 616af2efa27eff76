//! Deliveries whose body a reader gives.

use crate::outcomes::arrived_text;
use crate::readers::Pieces;
use book::Keeper;
use queue::{Archive, Arrived, Fault};
use std::alloc::Global;
use test_rows::{Unread, number_of, said, text_of};

/// The most bytes of one read.
const MOST: u64 = 8_388_608;

/// The answer to a delivery whose body comes at most `most` bytes in one read, and the number of bytes that are left unread. After
/// these bytes the reader ends, or fails.
fn received<K: Keeper>(
    alloc: Global,
    archive: &mut Archive<K>,
    words: &[Vec<u8>],
    fails: bool,
) -> Result<Vec<u8>, Unread> {
    let [most, moment, name, size, bytes] = words else {
        return Err(Unread::BadWords);
    };
    let (name, size, moment) = (text_of(name)?, number_of(size)?, number_of(moment)?);
    let mut reader = Pieces {
        bytes: bytes.as_slice(),
        most: number_of(most)?.min(MOST) as usize,
        fails,
    };
    let mut text = arrived_text(
        alloc,
        archive.receive(alloc, name, size, &mut reader, moment),
    )?;
    let left = reader.bytes.len();
    text.extend_from_slice(format!(in alloc; " {left}")?.as_bytes())?;
    Ok(text)
}

/// `receive MOST MOMENT NAME SIZE BYTES`: `new`, `again`, or the fault, and the number of bytes that are left unread.
pub fn receive<K: Keeper>(
    alloc: Global,
    archive: &mut Archive<K>,
    words: &[Vec<u8>],
) -> Result<Vec<u8>, Unread> {
    received(alloc, archive, words, false)
}

/// `receive-fails MOST MOMENT NAME SIZE BYTES`: the answer as for `receive`, if the reader fails after these bytes.
pub fn receive_fails<K: Keeper>(
    alloc: Global,
    archive: &mut Archive<K>,
    words: &[Vec<u8>],
) -> Result<Vec<u8>, Unread> {
    received(alloc, archive, words, true)
}

/// The answer to a delivery whose reader fails after some bytes of the body, if it is not Q10, or if bytes are left.
fn beside_failure<K: Keeper>(
    alloc: Global,
    archive: &mut Archive<K>,
    name: &str,
    body: &[u8],
    place: usize,
) -> Option<Result<Arrived, Fault>> {
    let mut reader = Pieces {
        bytes: body.get(..place).unwrap_or(b""),
        most: 7,
        fails: true,
    };
    let done = archive.receive(alloc, name, body.len() as u64, &mut reader, 0);
    if matches!(done, Err(Fault::ReaderFailed)) && reader.bytes.is_empty() {
        return None;
    }
    Some(done)
}

/// `receive-fails-each NAME BODY`: `nothing delivered`, if a delivery whose reader fails after any number of bytes of its body, but not
/// all, is refused with Q10; otherwise the answer, and after how many bytes.
pub fn receive_fails_each<K: Keeper>(
    alloc: Global,
    archive: &mut Archive<K>,
    words: &[Vec<u8>],
) -> Result<Vec<u8>, Unread> {
    let [name, body] = words else {
        return Err(Unread::BadWords);
    };
    let (name, body) = (text_of(name)?, body.as_slice());
    for place in 0..body.len() {
        if let Some(done) = beside_failure(alloc, archive, name, body, place) {
            let mut text = arrived_text(alloc, done)?;
            text.extend_from_slice(format!(in alloc; " behind {place} bytes")?.as_bytes())?;
            return Ok(text);
        }
    }
    said(alloc, "nothing delivered")
}
