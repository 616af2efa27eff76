//! Readers that give little at a time or fail, and writers that fail.

use std::io;
use std::io::{ErrorKind, Read, Write};

/// Bytes that come at most `most` in one read, with a failure after them if one is wanted.
#[derive(Drop)]
pub struct Pieces<'a> {
    pub bytes: &'a [u8],
    pub most: usize,
    pub fails: bool,
}

impl Read for Pieces<'_> {
    fn read(&mut self, buf: &mut [u8]) -> io::Result<usize> {
        if self.bytes.is_empty() && self.fails {
            return Err(ErrorKind::ConnectionReset.into());
        }
        let most = self.most.min(buf.len());
        let mut bytes = self.bytes;
        let count = bytes.read(&mut buf[..most])?;
        self.bytes = bytes;
        Ok(count)
    }
}

/// What a writer does once it is full.
#[derive(Clone, Copy, PartialEq, Eq)]
pub enum Full {
    Fails,
    TakesNothing,
    FailsToFlush,
}

/// A writer that takes `room` bytes, one at a time.
#[derive(Drop)]
pub struct Narrow {
    pub taken: Vec<u8>,
    pub room: usize,
    pub full: Full,
}

impl Write for Narrow {
    fn write(&mut self, buf: &[u8]) -> io::Result<usize> {
        if self.taken.len() >= self.room && self.full != Full::FailsToFlush {
            return if self.full == Full::Fails {
                Err(ErrorKind::BrokenPipe.into())
            } else {
                Ok(0)
            };
        }
        match buf.first() {
            Some(byte) => {
                self.taken.push(*byte)?;
                Ok(1)
            }
            None => Ok(0),
        }
    }

    fn flush(&mut self) -> io::Result<()> {
        if self.full == Full::FailsToFlush {
            Err(ErrorKind::BrokenPipe.into())
        } else {
            Ok(())
        }
    }
}
