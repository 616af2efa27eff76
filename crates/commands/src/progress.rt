//! Progress on standard error, if that is a terminal: how far a command is, in one line that is written over itself. The line is erased
//! before any other line and at the end. Elsewhere nothing is written. A line that can't be written changes nothing.

ghost use Rattle.std.specs.Prelude.{◌≡◌, ◌≤◌, IfOk, string_bytes};
ghost use Rattle.commands.specs.Progress.{line_of as line_of_command, percent as percent_of};

use crate::fault::Stop;
use std::alloc::{AllocError, Global};
use std::io::{self, IsTerminal, Write};
use std::time::Instant;

/// The least time between two lines, in milliseconds. A command that is done sooner has no line.
const BETWEEN_LINES: u128 = 100;

/// The fewest bytes of a database whose opening has a line: 32 MiB.
const LONG_OPENING: u64 = 33_554_432;

/// The part of all that is done, in percent, rounded down. It is 100 if there is nothing to do, or if more is done than was expected.
#[tactic(auto, unfolding(crate::specs::Progress::percent))]
fn percent(done: u64, all: u64) -> u128
    ensures { result ≡ percent_of done all }
{
    if all <= done {
        return 100;
    }
    done as u128 * 100 / all as u128
}

/// The line of a command: its name, the part that is done in percent, the number that is done of the number of all, and what is counted.
fn line_of(
    alloc: Global,
    command: &str,
    counted: &str,
    done: u64,
    all: u64,
) -> Result<String, AllocError>
    ensures { IfOk result (λ line. string_bytes line ≡ line_of_command command.now counted.now done all) }
{
    let share = percent(done, all);
    format!(in alloc; "{command}: {share}%, {done} of {all} {counted}")
}

/// How far a command is, and the line that says so.
#[derive(Drop)]
pub struct Progress<'p, E> {
    rt: &'p HostRuntime,
    err: &'p mut E,
    command: &'p str,
    counted: &'p str,
    done: u64,
    all: u64,
    /// When a line was last written, or when the command began. `None` if nothing is shown.
    last: Option<Instant>,
    /// Whether what is printed also goes to a terminal, so that no line can be there meanwhile.
    is_shared: bool,
    /// The number of bytes of the line that is shown.
    width: usize,
}

impl<'p, E: Write> Progress<'p, E> {
    /// Progress of a command that has done nothing of what is counted, on an output that is standard error.
    pub fn new(
        rt: &'p HostRuntime,
        err: &'p mut E,
        command: &'p str,
        counted: &'p str,
    ) -> Progress<'p, E> {
        let last = if rt.stderr().is_terminal() {
            Instant::now(rt).ok()
        } else {
            None
        };
        Progress {
            rt,
            err,
            command,
            counted,
            done: 0,
            all: 0,
            last,
            is_shared: rt.stdout().is_terminal(),
            width: 0,
        }
    }

    /// Whether a line may ever be written.
    pub fn is_shown(&self) -> bool {
        self.last.is_some()
    }

    /// Adds `more` to what is to be done.
    pub fn expect(&mut self, more: u64) {
        self.all = self.all.saturating_add(more);
    }

    /// Whether the line has been shown long enough.
    fn is_due(&self) -> bool {
        match self.last {
            Some(last) => match last.elapsed(self.rt) {
                Ok(passed) => passed.as_millis() >= BETWEEN_LINES,
                Err(_) => false,
            },
            None => false,
        }
    }

    /// Writes a line over the one that is shown. The new line is at least as long, since what it counts only grows. Without memory for it no
    /// line is written.
    fn show(&mut self, line: Result<String, AllocError>) {
        if let Ok(line) = line {
            let _ = write!(self.err, "\r{line}");
            self.width = line.len();
        }
        self.last = Instant::now(self.rt).ok();
    }

    /// Writes that one call has `count` to go through, if that is enough for it to take long.
    pub fn announce(&mut self, count: u64) {
        if self.is_shown() && count >= LONG_OPENING {
            let (command, counted) = (self.command, self.counted);
            self.show(format!(in self.rt.alloc(); "{command}: {count} {counted}"));
        }
    }

    /// Adds `more` to what is done.
    pub fn advance(&mut self, more: u64) {
        self.done = self.done.saturating_add(more);
        if self.is_due() {
            let (command, counted) = (self.command, self.counted);
            self.show(line_of(self.rt.alloc(), command, counted, self.done, self.all));
        }
    }

    /// Erases the line.
    pub fn clear(&mut self) {
        if self.width == 0 {
            return;
        }
        if let Ok(blanks) = " ".repeat(self.rt.alloc(), self.width) {
            let _ = write!(self.err, "\r{blanks}\r");
        }
        self.width = 0;
    }

    /// Erases the line, if what is printed next also goes to a terminal.
    pub fn give_way(&mut self) {
        if self.is_shared {
            self.clear();
        }
    }

    /// Writes why something is not done as a line of standard error.
    pub fn tell(&mut self, stop: &Stop<'_>) -> io::Result<()> {
        self.clear();
        writeln!(self.err, "{stop}")
    }
}
