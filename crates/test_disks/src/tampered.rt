//! Databases that are no archive, or no databases.

use crate::image::Image;
use crate::trial::{SOUND, done};
use crate::work::{Work, word_or_fault};
use std::alloc::Global;
use test_rows::{Unread, number_of, said, text_of};
use test_story::Task;

/// The result of opening files: `open`, or the fault, with a word if the opening has changed the database file. It may begin a log.
pub fn opening(alloc: Global, image: &Image) -> Result<Vec<u8>, Unread> {
    let left = done(alloc, image, SOUND, Work::Open(Task::Nothing))?;
    let mut text = word_or_fault(alloc, "open", &left.answer)?;
    if left.answer.is_err() && left.stood.database.as_slice() != image.database.as_slice() {
        text.extend_from_slice(b" and other bytes")?;
    }
    Ok(text)
}

/// The files after these lists of statements, if the lists can be run.
pub fn changed(alloc: Global, image: &Image, lists: &[Vec<u8>]) -> Result<Option<Image>, Unread> {
    let mut image = Image::of(alloc, image.log.as_slice(), image.database.as_slice())?;
    for list in lists {
        let left = done(alloc, &image, SOUND, Work::Run(text_of(list)?))?;
        if left.answer.is_err() {
            return Ok(None);
        }
        image = left.stood;
    }
    Ok(Some(image))
}

/// `tampered SQL..`: the result of opening a copy of the files after lists of statements; `not run` if they can't be run, and `no
/// change` if they change nothing.
pub fn tampered(alloc: Global, image: &Image, lists: &[Vec<u8>]) -> Result<Vec<u8>, Unread> {
    match changed(alloc, image, lists)? {
        Some(behind) if behind.database.as_slice() == image.database.as_slice() => {
            said(alloc, "no change")
        }
        Some(behind) => opening(alloc, &behind),
        None => said(alloc, "not run"),
    }
}

/// `opens BYTES`: the result of opening a database file with these bytes, and no log.
pub fn opening_of(alloc: Global, bytes: &[u8]) -> Result<Vec<u8>, Unread> {
    opening(alloc, &Image::of(alloc, b"", bytes)?)
}

/// The result of opening the first bytes of a database file.
fn opening_of_front(alloc: Global, bytes: &[u8], count: u64) -> Result<Vec<u8>, Unread> {
    let count = count.min(bytes.len() as u64) as usize;
    match bytes.get(..count) {
        Some(front) if count < bytes.len() => opening_of(alloc, front),
        _ => Err(Unread::BadWords),
    }
}

/// `front COUNT`: the result of opening the first COUNT bytes of a database file.
pub fn front(alloc: Global, bytes: &[u8], count: &Vec<u8>) -> Result<Vec<u8>, Unread> {
    opening_of_front(alloc, bytes, number_of(count)?)
}

/// `without-end COUNT`: the result of opening a database file without its last COUNT bytes.
pub fn without_end(alloc: Global, bytes: &[u8], count: &Vec<u8>) -> Result<Vec<u8>, Unread> {
    match (bytes.len() as u64).checked_sub(number_of(count)?) {
        Some(left) => opening_of_front(alloc, bytes, left),
        None => Err(Unread::BadWords),
    }
}
