//! Requests and their replies.

use crate::outcomes::printed;
use crate::pieces::replace_pieces;
use crate::readers::Pieces;
use book::Keeper;
use desk::{Served, answer};
use queue::Archive;
use std::alloc::{AllocError, Global};
use test_rows::{Unread, number_of, said};

/// The most bytes of one read.
const MOST: u64 = 8_388_608;

/// Whether what was written is the reply that `served` names.
fn is_told(alloc: Global, served: Served, written: &[u8]) -> Result<bool, AllocError> {
    match served {
        Served::Nothing => Ok(written.is_empty()),
        Served::Status(status) => {
            let status = status.as_u16();
            let front = format!(in alloc; "HTTP/1.1 {status} ")?;
            Ok(written.starts_with(front.as_bytes()))
        }
    }
}

/// The reply to what a reader gives.
pub fn reply_to<K: Keeper>(
    alloc: Global,
    archive: &mut Archive<K>,
    reader: &mut Pieces<'_>,
    moment: u64,
) -> Result<Vec<u8>, Unread> {
    let mut writer = Vec::new(alloc);
    match answer(alloc, archive, reader, &mut writer, moment) {
        Ok(served) => {
            if !is_told(alloc, served, writer.as_slice())? {
                return said(alloc, "another reply than is told of");
            }
            Ok(writer)
        }
        Err(fault) => printed(alloc, &fault),
    }
}

/// `request MOST MOMENT BYTES [OLD NEW]..`: the reply to a request that comes at most MOST bytes in one read. Each OLD of the bytes
/// is replaced by its NEW.
pub fn request<K: Keeper>(
    alloc: Global,
    archive: &mut Archive<K>,
    words: &[Vec<u8>],
) -> Result<Vec<u8>, Unread> {
    let [most, moment, bytes, pairs @ ..] = words else {
        return Err(Unread::BadWords);
    };
    let mut bytes = Vec::from_slice(alloc, bytes.as_slice())?;
    replace_pieces(alloc, &mut Vec::new(alloc), &mut bytes, pairs)?;
    let mut reader = Pieces {
        bytes: bytes.as_slice(),
        most: number_of(most)?.min(MOST) as usize,
        fails: false,
    };
    reply_to(alloc, archive, &mut reader, number_of(moment)?)
}

/// `left MOST MOMENT BYTES`: the status of the reply to such a request, and the number of bytes after it that are left unread.
pub fn left<K: Keeper>(
    alloc: Global,
    archive: &mut Archive<K>,
    words: &[Vec<u8>],
) -> Result<Vec<u8>, Unread> {
    let [most, moment, bytes] = words else {
        return Err(Unread::BadWords);
    };
    let mut reader = Pieces {
        bytes: bytes.as_slice(),
        most: number_of(most)?.min(MOST) as usize,
        fails: false,
    };
    let reply = reply_to(alloc, archive, &mut reader, number_of(moment)?)?;
    let unread = reader.bytes.len();
    let status = reply.as_slice().get(9..12).unwrap_or(b"");
    let mut text = Vec::from_slice(alloc, status)?;
    text.extend_from_slice(format!(in alloc; " {unread}")?.as_bytes())?;
    Ok(text)
}
