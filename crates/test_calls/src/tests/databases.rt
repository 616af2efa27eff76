//! Checks over a database in memory. Only one function names its store, since each function that does so takes
//! the prover long.

use super::counted::{Counts, expect_counts_over_tables};
use super::promised::expect_created;
use super::wanting::expect_few_steps;
use promise::InOrder;
use sqlite::Connection;
use std::alloc::Global;
use std::process::Abort;
use std::test::Fail;

/// What is checked over a database that has no tables.
#[derive(Clone, Copy)]
pub enum Subject {
    /// The number of texts or pieces that a keeper is handed.
    Counts(Counts),
    /// The answers to commands.
    Commands,
    /// The number of steps that a search for uploads takes.
    Uploads,
}

/// Makes the check over any store.
fn expect_over<S: InOrder + Drop>(
    rt: &impl Abort,
    alloc: Global,
    subject: Subject,
    connection: Connection<S>,
) -> Result<(), Fail> {
    match subject {
        Subject::Counts(counts) => expect_counts_over_tables(rt, alloc, connection, counts),
        Subject::Commands => expect_created(rt, alloc, connection),
        Subject::Uploads => expect_few_steps(rt, alloc, connection),
    }
}

/// Makes the check over a database in memory.
pub fn expect_in_memory(rt: &impl Abort, alloc: Global, subject: Subject) -> Result<(), Fail> {
    expect_over(rt, alloc, subject, Connection::open_in_memory(alloc)?)
}
