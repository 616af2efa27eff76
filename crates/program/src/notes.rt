//! What is noted of connections: a line of the log for each, if that is wanted, whether one may have changed what suites show, and which
//! export after one failed.

use crate::log::{Ended, Log};
use std::alloc::Global;
use std::io::Write;

/// What is noted of connections.
#[derive(Drop)]
pub struct Notes<'l, E> {
    log: Log<'l, E>,
    is_logged: bool,
    has_change: bool,
}

impl<'l, E: Write> Notes<'l, E> {
    /// Notes of no connection yet. A line for each comes to the log, if that is wanted.
    pub fn new(log: Log<'l, E>, is_logged: bool) -> Notes<'l, E> {
        Notes {
            log,
            is_logged,
            has_change: false,
        }
    }

    /// Whether each connection has a line of the log.
    pub fn is_logged(&self) -> bool {
        self.is_logged
    }

    /// Notes that a connection may have changed what suites show.
    pub fn note_change(&mut self) {
        self.has_change = true;
    }

    /// Writes the line of a connection.
    pub fn write_line(&mut self, alloc: Global, ended: &Ended<'_>) {
        self.log.write_line(alloc, ended);
    }

    /// Writes why the export at a moment failed, in the words of the program. If connections have lines of the log, it writes one about
    /// that too.
    pub fn write_failure(&mut self, alloc: Global, moment: u64, told: &str) {
        self.log.write_text(alloc, told);
        if self.is_logged {
            self.log.write_failure(alloc, moment, told);
        }
    }

    /// Whether a connection may have changed what suites show, since this was asked last.
    pub fn takes_change(&mut self) -> bool {
        let has_change = self.has_change;
        self.has_change = false;
        has_change
    }
}
