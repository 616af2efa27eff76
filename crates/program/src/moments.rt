//! The moments of connections.
//!
//! Moments come from a file and not from a clock, so that they can be repeated.

ghost use Rattle.std.specs.Prelude.{◌≡◌, ◌≤◌, None};

use crate::database::length_of;
use book::LATEST;
use std::fs::File;
use std::io::{self, Read};
use std::rt::Files;

/// The most bytes that are read of a file of moments: ten digits, the end of a line, and one more.
const MOST_READ: u64 = 12;

/// The moments that connections have, one after the other, in seconds since 1970-01-01 00:00:00 UTC. They never fall.
#[derive(Clone, Copy)]
pub struct Moments<'p> {
    file: Option<&'p str>,
    greatest: u64,
}

/// The moment that a text has: a decimal number of one to ten digits, at most the latest moment. The end of a line may follow it.
fn moment_in(text: &[u8]) -> Option<u64> {
    let digits = text.strip_suffix(b"\n").unwrap_or(text);
    if digits.len() > 10 || !digits.iter().all(u8::is_ascii_digit) {
        return None;
    }
    let number = str::from_utf8(digits).ok()?.parse::<u64>().ok()?;
    (number <= LATEST).then_some(number)
}

/// The first bytes of a regular file. Any other file, as a pipe, is not opened: opening it may wait without end.
fn beginning_of<R: Files + AllocGlobal>(rt: &R, path: &str) -> io::Result<Vec<u8>> {
    if length_of(rt, path).is_none() {
        return Err(io::Error::from(io::ErrorKind::InvalidInput));
    }
    let mut text = Vec::new(rt.alloc());
    File::open(rt, path)?
        .take(MOST_READ)
        .read_to_end(&mut text)?;
    Ok(text)
}

impl<'p> Moments<'p> {
    /// The moments of connections, each the greatest of this moment and all numbers that the file has held so far. Without a file each
    /// connection has this moment.
    pub fn new(moment: u64, file: Option<&'p str>) -> Moments<'p>
        ensures still { file.entry ≡ None → result.file ≡ None }
        ensures greatest { result.greatest ≡ moment }
    {
        Moments {
            file,
            greatest: moment,
        }
    }

    /// The moment of the last connection.
    pub fn last(&self) -> u64
        ensures { result ≡ self.now.greatest }
    {
        self.greatest
    }

    /// The moment of the next connection. A file that can't be read, that holds no moment or that is not a regular file changes nothing.
    pub fn next<R: Files + AllocGlobal>(&mut self, rt: &R) -> u64
        ensures is { result ≡ self.new.greatest }
        ensures rises { self.old.greatest ≤ self.new.greatest }
        ensures still { self.old.file ≡ None → self.new.greatest ≡ self.old.greatest }
        ensures file { self.new.file ≡ self.old.file }
    {
        if let Some(path) = self.file
            && let Ok(text) = beginning_of(rt, path)
            && let Some(moment) = moment_in(&text)
        {
            self.greatest = self.greatest.max(moment);
        }
        self.greatest
    }
}
