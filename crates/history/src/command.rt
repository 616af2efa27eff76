//! Commands, and what they answer.

ghost use Rattle.std.specs.Prelude.{◌≡◌, map};
ghost use Rattle.history.specs.Answers.{copy_line};
ghost use Rattle.history.specs.Reports.{copy_of, lines_of};

use crate::fault::Fault;

/// Whether a delivery is new.
#[derive(Clone, Copy, Debug, PartialEq, Eq)]
pub enum Arrived {
    /// No body of this print counted under this name.
    New,
    /// This name and print had arrived before, and still counted.
    Again,
}

/// Lines, without their newlines.
#[derive(Drop)]
pub struct Report {
    pub lines: Vec<String>,
}

/// What the copy of one source package of a promotion answered.
#[derive(Drop)]
pub struct SourceCopy {
    /// The name of the source package.
    pub source: String,
    /// The number of items that are new, or `None` if the suite that is copied from shows nothing of the source
    /// package.
    pub items: Option<u64>,
}

/// What a promotion answered: a copy for each of its source packages, in the order of the bytes of their names.
#[derive(Drop)]
pub struct Promotion {
    pub copies: Vec<SourceCopy>,
    /// A line for each: `COUNT SOURCE`, or `refused Q8 SOURCE` if nothing is shown of it.
    pub report: Report,
    pub ghost lines_of_copies: { lines_of report ≡ map copy_line (map copy_of copies.items) },
}

/// A call of the archive, with its arguments. Moments are in seconds since 1970-01-01 00:00:00 UTC.
#[derive(Drop)]
pub enum Command {
    Deliver {
        name: String,
        body: Vec<u8>,
        moment: u64,
    },
    Run {
        moment: u64,
    },
    Copy {
        from: String,
        to: String,
        source: String,
        moment: u64,
    },
    Fetch {
        path: String,
    },
    Waiting {
        moment: u64,
    },
    Clean {
        moment: u64,
    },
    Remove {
        suite: String,
        name: String,
        moment: u64,
    },
    Promote {
        from: String,
        to: String,
        /// The source packages, or `None` for all of which the suite `from` shows an item.
        sources: Option<Vec<String>>,
        moment: u64,
    },
    Verdicts,
}

/// What a command answered.
#[derive(Drop)]
pub enum Outcome {
    Deliver(Result<Arrived, Fault>),
    Run(Result<Report, Fault>),
    Copy(Result<u64, Fault>),
    Fetch(Result<Option<Vec<u8>>, Fault>),
    Waiting(Result<Report, Fault>),
    Clean(Result<u64, Fault>),
    Remove(Result<u64, Fault>),
    Promote(Result<Promotion, Fault>),
    Verdicts(Result<Report, Fault>),
}
