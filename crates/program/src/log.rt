//! The log: a line for each connection.
//!
//! A line that can't be written at once is left out, and counted: a log must neither end the service nor hold it up. Standard error may be
//! shared with other processes, as a terminal is with its shell. So it is non-blocking only while a line is written. Without the descriptor
//! for that (if too many files are open when `serve` begins) a write waits.

use commands::escaped::escaped_bytes;
use desk::{DeskFault, Served};
use http::StatusCode;
use std::alloc::{AllocError, Global};
use std::io::Write;
use std::net::TcpStream;
use std::os::fd::OwnedFd;
use std::time::Duration;

/// What came of a connection.
#[derive(Clone, Copy)]
pub struct Ended<'l> {
    /// The moment that it had, in seconds since 1970-01-01 00:00:00 UTC.
    pub moment: u64,
    /// The first line that its client sent.
    pub line: &'l [u8],
    /// What it was answered.
    pub end: Result<Served, DeskFault>,
    /// How many bytes its client was sent.
    pub sent: u64,
    /// How long it lasted.
    pub lasted: Duration,
}

/// A word, or `-` if there is none or it is empty.
fn word_or_dash(word: Option<&str>) -> &str {
    match word {
        None | Some("") => "-",
        Some(word) => word,
    }
}

/// The number of a status.
fn number_text(alloc: Global, status: &StatusCode) -> Result<String, AllocError> {
    let number = status.as_u16();
    Ok(format!(in alloc; "{number}")?)
}

/// The status of a whole reply, or `-`.
fn status_text(alloc: Global, end: &Result<Served, DeskFault>) -> Result<String, AllocError> {
    match end {
        Ok(Served::Status(status)) => number_text(alloc, status),
        _ => String::from_str(alloc, "-"),
    }
}

/// The line of a connection: the moment that it had, the method and the path of its request, the status of its reply, how many bytes its
/// client was sent, and how many milliseconds it lasted.
fn line_of(alloc: Global, ended: &Ended<'_>) -> Result<String, AllocError> {
    let line = escaped_bytes(alloc, ended.line)?;
    let mut words = line.as_str().split(' ');
    let (method, path) = (word_or_dash(words.next()), word_or_dash(words.next()));
    let status = status_text(alloc, &ended.end)?;
    let (moment, sent, milliseconds) = (ended.moment, ended.sent, ended.lasted.as_millis());
    Ok(format!(in alloc; "{moment} {method} {path} {status} {sent} {milliseconds}\n")?)
}

/// A log, which never waits for whoever reads it.
#[derive(Drop)]
pub struct Log<'l, E> {
    out: &'l mut E,
    /// A second descriptor of the output's file. It need not be a socket: it only serves to set whether a write may wait.
    file: Option<TcpStream>,
    /// How many lines were left out since the last that was written.
    left_out: u64,
    /// Whether the last of them was written in part.
    is_cut: bool,
}

impl<'l, E: Write> Log<'l, E> {
    /// A log of which nothing is written yet, on an output that has this file. Without it, a write may wait.
    pub fn new(out: &'l mut E, file: Option<OwnedFd>) -> Log<'l, E> {
        let file = match file {
            Some(file) => Some(TcpStream::from(file)),
            None => None,
        };
        Log {
            out,
            file,
            left_out: 0,
            is_cut: false,
        }
    }

    /// Sets whether a write may wait.
    fn set_waiting(&self, may_wait: bool) {
        if let Some(file) = &self.file {
            let _ = file.set_nonblocking(!may_wait);
        }
    }

    /// Hands a text to the output, which takes what it can at once, and answers whether it took all. Others may have the same file open, so
    /// it is non-blocking only for this write.
    fn is_taken(&mut self, text: &[u8]) -> bool {
        self.set_waiting(false);
        let count = self.out.write(text).unwrap_or(0);
        self.set_waiting(true);
        let is_whole = count == text.len();
        self.is_cut = !is_whole && (count > 0 || self.is_cut);
        is_whole
    }

    /// Writes how many lines were left out. It answers whether that is written, or no line was left out.
    fn has_told(&mut self, alloc: Global) -> bool {
        if self.left_out == 0 {
            return true;
        }
        let (end, count) = (if self.is_cut { "\n" } else { "" }, self.left_out);
        let is_told = match format!(in alloc;
            "{end}archive: {count} lines of the log were left out\n"
        ) {
            Ok(text) => self.is_taken(text.as_bytes()),
            Err(_) => false,
        };
        if is_told {
            self.left_out = 0;
        }
        is_told
    }

    /// Writes a line, if there is memory for it. One that is not written is left out, and counted.
    fn write(&mut self, alloc: Global, line: Result<String, AllocError>) {
        let is_written = match line {
            Ok(line) => self.has_told(alloc) && self.is_taken(line.as_bytes()),
            Err(_) => false,
        };
        if !is_written {
            self.left_out = self.left_out.saturating_add(1);
        }
    }

    /// Writes the line of a connection. If there is no memory for it, or if it can't be written at once, it is left out. The next line that
    /// is written comes after one that says how many were left out.
    pub fn write_line(&mut self, alloc: Global, ended: &Ended<'_>) {
        self.write(alloc, line_of(alloc, ended));
    }

    /// Writes that the export at a moment failed, and why, in the words of the program. It may be left out, as the line of a connection
    /// may.
    pub fn write_failure(&mut self, alloc: Global, moment: u64, told: &str) {
        let why = told.strip_prefix("archive: ").unwrap_or(told);
        self.write(alloc, format!(in alloc; "{moment} export failed: {why}\n"));
    }

    /// Writes a text as a line, which may be left out, as that of a connection may.
    pub fn write_text(&mut self, alloc: Global, text: &str) {
        self.write(alloc, format!(in alloc; "{text}\n"));
    }
}
