//! What a command line says.

use clap::Error;
use clap::error::ErrorKind;
use lists::LineRequest;
use std::alloc::AllocError;
use std::fmt;

/// How an archive is asked.
#[derive(Clone, Copy, Debug)]
pub struct Manner {
    /// Whether an upload that the run refuses makes the exit status 1.
    pub strict: bool,
    /// Whether each line that is printed is one of JSON.
    pub json: bool,
}

/// How what the suites show is written into a folder.
#[derive(Clone, Copy, Debug)]
pub struct Exporting<'a> {
    /// The moment of the page on uploads, if one was given, in seconds since 1970-01-01 00:00:00 UTC.
    pub at: Option<u64>,
    pub dir: &'a str,
    /// Whether a suite is shown only once its new state is signed.
    pub signed: bool,
    /// Whether a suite that is shown signed is shown unsigned from now on.
    pub unsigned: bool,
    /// Whether each index text also stands under its SHA-256.
    pub by_hash: bool,
    /// The file of the key that the pages name, if another was given than box.gpg. It comes with `signed` alone.
    pub key: Option<&'a str>,
}

/// How an archive is served.
#[derive(Clone, Copy, Debug)]
pub struct Serving<'a> {
    /// The moment of the first connection, in seconds since 1970-01-01 00:00:00 UTC.
    pub at: u64,
    /// The file that the moments of later ones are read from: each has the greatest that it has held so far.
    pub moments: Option<&'a str>,
    /// Whether each connection has a line on standard error.
    pub log: bool,
    /// The folder that is exported to after each connection with a POST.
    pub export: Option<&'a str>,
    /// Whether the pages say that the Releases are signed. The export, if there is one, then shows a suite only once its new state is signed.
    pub signed: bool,
    /// Whether a suite that the export shows signed is shown unsigned from now on.
    pub unsigned: bool,
    /// Whether each index text also stands there under its SHA-256.
    pub by_hash: bool,
    /// The file of the key that the pages name, if another was given than box.gpg. It comes with `signed` alone.
    pub key: Option<&'a str>,
    /// Whether a PUT or POST that a page in a browser sends is refused.
    pub refuse_origin: bool,
    pub address: &'a str,
    /// How many connections are answered, one after the other.
    pub count: u64,
}

/// What a line asks for. Moments are in seconds since 1970-01-01 00:00:00 UTC.
#[derive(Debug, Drop)]
pub enum CommandLine<'a> {
    /// Delivers files to an archive of their own, runs its queue once, and prints the Packages of what was accepted.
    Try {
        paths: Vec<&'a str>,
    },
    /// Says how two versions compare.
    Compare {
        left: &'a str,
        right: &'a str,
    },
    /// Makes an archive in a database file, with the configuration of a file.
    Init {
        db: &'a str,
        at: u64,
        conf: &'a str,
    },
    /// Says what the configuration of a file says, and which of its fields are passed over.
    Check {
        conf: &'a str,
    },
    /// Asks the archive of a database file at a moment. For `verdicts`, which takes none, it is 0.
    Ask {
        db: &'a str,
        at: u64,
        request: LineRequest<'a>,
        manner: Manner,
    },
    /// Does the commands of a list, which is a file, or standard input if it is `-`.
    Batch {
        db: &'a str,
        at: u64,
        list: &'a str,
        /// Whether an upload that a run refuses makes the exit status 1.
        strict: bool,
    },
    /// Gives the archive of a database file the configuration of a file.
    Configure {
        db: &'a str,
        at: u64,
        conf: &'a str,
    },
    /// Makes an archive of the current layout in a database file, with the configuration of a file, from the archive of an older layout
    /// that another database file holds.
    Migrate {
        from: &'a str,
        db: &'a str,
        at: u64,
        conf: &'a str,
    },
    /// Prints an index or a file of the pool.
    Show {
        db: &'a str,
        path: &'a str,
    },
    /// Lists what a suite shows.
    List {
        db: &'a str,
        /// The codename of the suite. Without it, the command is about all suites.
        suite: Option<&'a str>,
        /// Whether each item is a line of JSON.
        json: bool,
    },
    /// Says why uploads have the verdicts that they have, and what waiting uploads lack.
    Why {
        db: &'a str,
        /// The moment at which they wait, if one was given.
        at: Option<u64>,
        /// The name of their .changes. Without it, the command is about all that wait.
        name: Option<&'a str>,
        /// Whether each upload is a line of JSON.
        json: bool,
    },
    /// Prints the configuration.
    Configuration {
        db: &'a str,
    },
    /// Prints figures of an archive at a moment.
    Status {
        db: &'a str,
        at: u64,
    },
    /// Writes what the suites show into a folder.
    Export {
        db: &'a str,
        exporting: Exporting<'a>,
    },
    /// Serves the archive of a database file over HTTP.
    Serve {
        db: &'a str,
        serving: Serving<'a>,
    },
}

/// Why a line asks for nothing.
#[derive(Debug, Drop)]
pub enum LineFault {
    /// No memory was left.
    OutOfMemory,
    /// Help or the version was asked for: this is its text.
    Help(Error),
    /// The words are not a line: this text says why.
    Refused(Error),
}

impl LineFault {
    ghost use Rattle.std.specs.Prelude.{◌≡◌};
    ghost use Rattle.command_line.specs.Fault.{fault_number};

    /// The number of the fault.
    pub fn number(&self) -> u8
        ensures { result ≡ fault_number self.now }
    {
        match self {
            LineFault::OutOfMemory => 0,
            LineFault::Help(_) => 1,
            LineFault::Refused(_) => 2,
        }
    }
}

impl fmt::Display for LineFault {
    ghost use Rattle.std.specs.Prelude.{Some};
    ghost use Rattle.command_line.specs.Fault.{fault_text};

    ghost output = { λ fault. Some (fault_text fault) };

    fn fmt<W: fmt::Write>(&self, f: &mut fmt::Formatter<W>) -> fmt::Result {
        write!(f, "L{}", self.number())
    }
}

impl From<AllocError> for LineFault {
    fn from(_: AllocError) -> LineFault {
        LineFault::OutOfMemory
    }
}

impl From<Error> for LineFault {
    fn from(error: Error) -> LineFault {
        match error.kind() {
            ErrorKind::OutOfMemory => LineFault::OutOfMemory,
            ErrorKind::DisplayHelp | ErrorKind::DisplayVersion => LineFault::Help(error),
            _ => LineFault::Refused(error),
        }
    }
}
