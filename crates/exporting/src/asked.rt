//! What an export is asked for, and what its steps need.

use folders::Disk;
use suites::Shelves;
use tree_files::{Site, SuiteState};

/// What an export is asked for.
#[derive(Clone, Copy, Debug)]
pub struct Export<'a> {
    /// The folder of the tree. It and those above it are made, if they are not there.
    pub folder: &'a str,
    /// The moment at which uploads wait, in seconds since 1970-01-01 00:00:00 UTC. Nothing else depends on it.
    pub at: u64,
    /// Whether a suite shows a state only once an InRelease lies in its folder.
    pub signed: bool,
    /// Whether a suite that shows a signed state may show one without a signature, if `signed` does not hold.
    pub unsigned: bool,
    /// Whether a state has its texts, and those of the two states before, also by their digests.
    pub by_hash: bool,
    /// The file of the key that the pages name if `signed` holds.
    pub key: &'a str,
    /// The path of the archive's database file, empty if it has none. It and what SQLite makes beside it are never written or removed.
    pub database: &'a str,
}

/// Whoever watches how far an export is.
pub trait Watcher {
    /// The number of steps that are to be made. In each, a file of the pool is written or removed, or a suite is made to show another
    /// state.
    fn is_to_make(&mut self, steps: u64);

    /// One of the steps is made.
    fn has_made(&mut self);

    /// No more is made. What the export prints comes next.
    fn has_ended(&mut self);
}

/// A watcher that does nothing.
#[derive(Clone, Copy, Debug)]
pub struct Nobody;

impl Watcher for Nobody {
    fn is_to_make(&mut self, _steps: u64) {}

    fn has_made(&mut self) {}

    fn has_ended(&mut self) {}
}

/// What the steps of an export need.
#[derive(Drop)]
pub struct Job<'j, R: Disk> {
    pub site: &'j Site<R>,
    pub by_hash: bool,
    pub shelves: &'j Shelves,
    /// The suites in the order of the configuration.
    pub suites: &'j [SuiteState],
    /// Whether each file of the pool is on the disk before an index names it.
    pub is_synced: bool,
}
