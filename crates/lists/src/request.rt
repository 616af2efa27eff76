//! What is asked of an archive.

/// What is asked of an archive, without the moment. `W` is the type of a word: a text here, and its bytes in definitions. `P` is the type
/// of what is delivered, and `S` of the sources of a promotion, since a command line says more there than a line of a list.
#[derive(Clone, Copy, Debug, Drop)]
pub enum Request<W, P, S> {
    /// Delivers the files at paths, or the file at one.
    Put { path: P },
    /// Runs the queue.
    Run,
    /// Copies a source's packages from a suite to another.
    Copy { from: W, to: W, source: W },
    /// Copies several sources from a suite to another in one change: those that are named, or else all that the suite shows.
    Promote { from: W, to: W, sources: S },
    /// Removes all items of a package's name from a suite.
    Remove { suite: W, name: W },
    /// Removes the arrivals that no longer count.
    Clean,
    /// Lists the uploads that have no verdict.
    Waiting,
    /// Lists the verdicts of all runs.
    Verdicts,
}

/// What a command line asks for: it has one path or more, and may name sources.
pub type LineRequest<'a> = Request<&'a str, Vec<&'a str>, Option<Vec<&'a str>>>;

/// What a line of a list asks for: it has one path, and names no sources.
pub type ListRequest<'a> = Request<&'a str, &'a str, ()>;
