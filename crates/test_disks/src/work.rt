//! What is done with a database, over any store. Each function that names the store of files takes the prover minutes.

use book::{KeepFault, LATEST};
use keep_tables::{InOrder, TableKeeper, fault_of};
use old_book::OldBook;
use queue::Archive;
use rules::Config;
use sqlite::{Alter, Connection};
use std::alloc::Global;
use test_rows::{Unread, said};
use test_story::{Pieces, Task};

/// The result of work: the pieces; the fault if there was no archive or no database; or why a row can't be read.
pub type Answer = Result<Result<Pieces, KeepFault>, Unread>;

/// What an archive is made from.
#[derive(Clone, Copy)]
pub enum Making<'a> {
    /// It is made new, from a configuration, at 0.
    New(&'a [u8]),
    /// It is made from the contents of an archive of an older layout, under a configuration, with all arrivals as of a
    /// moment.
    Migrated {
        old: &'a OldBook,
        config: &'a [u8],
        moment: u64,
    },
}

/// What is done with a database.
#[derive(Clone, Copy)]
pub enum Work<'a> {
    /// Does a task with the archive that is there.
    Open(Task<'a>),
    /// Does a task with an archive that is made.
    Make(Making<'a>, Task<'a>),
    /// Opens the archive, and copies the log into the database file.
    Reopen,
    /// Runs a list of statements without the archive, and copies the log.
    Run(&'a str),
    /// Counts the rows of a query.
    Count(&'a str),
    /// Opens the archive in a transaction, and again after its end.
    OpenTwice,
    /// Reads the archive of an older layout.
    ReadOld,
}

/// The result of a task with the archive of a keeper, if there is one; and the connection.
fn with_archive<S: Alter + Drop>(
    alloc: Global,
    keeper: Result<TableKeeper<S>, (Connection<S>, KeepFault)>,
    task: Task<'_>,
) -> (Connection<S>, Answer) {
    match keeper {
        Ok(keeper) => {
            let mut archive = Archive::new(alloc, keeper);
            let answer = match task.perform(alloc, &mut archive) {
                Ok(pieces) => Ok(Ok(pieces)),
                Err(unread) => Err(unread),
            };
            (archive.into_keeper().into_connection(), answer)
        }
        Err((connection, fault)) => (connection, Ok(Err(fault))),
    }
}

/// The result of a task with the archive that is there.
fn opened<S: InOrder + Drop>(
    alloc: Global,
    connection: Connection<S>,
    task: Task<'_>,
) -> (Connection<S>, Answer) {
    with_archive(alloc, TableKeeper::open(alloc, connection), task)
}

impl<'a> Making<'a> {
    /// The text of the configuration.
    fn config(self) -> &'a [u8] {
        match self {
            Making::New(config) | Making::Migrated { config, .. } => config,
        }
    }
}

/// The keeper of an archive that is made from a configuration that can be read.
fn made<S: Alter + Drop>(
    alloc: Global,
    connection: Connection<S>,
    making: Making<'_>,
) -> Result<TableKeeper<S>, (Connection<S>, KeepFault)> {
    let Ok(config) = Config::read(alloc, making.config()) else {
        return Err((connection, KeepFault::OutOfMemory));
    };
    match making {
        Making::New(_) => TableKeeper::create(alloc, connection, config, 0),
        Making::Migrated { old, moment, .. } => {
            migrate::migrate(alloc, connection, old, config, moment.min(LATEST))
        }
    }
}

/// Runs a list of statements.
fn run<S: Alter>(alloc: Global, connection: &mut Connection<S>, list: &str) -> Answer {
    match connection.execute_batch(list) {
        Ok(()) => Ok(Ok(Vec::new(alloc))),
        Err(error) => Ok(Err(fault_of(error))),
    }
}

/// The number of rows of a query.
fn counted<S: Alter>(alloc: Global, connection: &mut Connection<S>, query: &str) -> Answer {
    match connection.query_all(query, &[]) {
        Ok(rows) => number(alloc, rows.len()),
        Err(error) => Ok(Err(fault_of(error))),
    }
}

/// Reads the archive of an older layout.
fn read_old<S: Alter>(
    alloc: Global,
    connection: &mut Connection<S>,
    old: &mut Option<OldBook>,
) -> Answer {
    match OldBook::read(alloc, connection) {
        Ok(found) => {
            *old = Some(found);
            Ok(Ok(Vec::new(alloc)))
        }
        Err(fault) => Ok(Err(fault)),
    }
}

/// A number, as it is printed.
fn number(alloc: Global, number: usize) -> Answer {
    let text = said(alloc, number.to_string(alloc)?.as_str())?;
    Ok(Ok(vec![in alloc; text]?))
}

/// A fault of a keeper, as it is printed.
pub fn told_fault(alloc: Global, fault: KeepFault) -> Result<Vec<u8>, Unread> {
    match fault {
        KeepFault::OutOfMemory => Err(Unread::OutOfMemory),
        fault => said(alloc, fault.to_string(alloc)?.as_str()),
    }
}

/// A word if work was done, or the fault.
pub fn word_or_fault(
    alloc: Global,
    word: &str,
    answer: &Result<Pieces, KeepFault>,
) -> Result<Vec<u8>, Unread> {
    match answer {
        Ok(_) => said(alloc, word),
        Err(fault) => told_fault(alloc, *fault),
    }
}

/// The results of two openings.
fn both(alloc: Global, within: Answer, behind: Answer) -> Answer {
    let mut text = word_or_fault(alloc, "open", &within?)?;
    text.push(b' ')?;
    text.extend_from_slice(word_or_fault(alloc, "open", &behind?)?.as_slice())?;
    Ok(Ok(vec![in alloc; text]?))
}

/// Opens the archive in a transaction, and again after its end.
fn opened_twice<S: InOrder + Drop>(
    alloc: Global,
    connection: Connection<S>,
) -> (Connection<S>, Answer) {
    let mut connection = connection;
    let has_begun = connection.execute_batch("BEGIN").is_ok();
    let (mut connection, within) = opened(alloc, connection, Task::Nothing);
    if !has_begun || connection.execute_batch("COMMIT").is_err() {
        return (connection, Ok(Err(KeepFault::Disk)));
    }
    let (connection, behind) = opened(alloc, connection, Task::Nothing);
    (connection, both(alloc, within, behind))
}

impl Work<'_> {
    /// Whether the log is then copied into the database file.
    pub fn copies_log(self) -> bool {
        matches!(self, Work::Reopen | Work::Run(_))
    }

    /// Does the work, and gives the connection back. An archive of an older layout that is read is put into `old`.
    pub fn perform<S: InOrder + Drop>(
        self,
        alloc: Global,
        connection: Connection<S>,
        old: &mut Option<OldBook>,
    ) -> (Connection<S>, Answer) {
        let mut connection = connection;
        match self {
            Work::Open(task) => opened(alloc, connection, task),
            Work::Make(making, task) => with_archive(alloc, made(alloc, connection, making), task),
            Work::Reopen => opened(alloc, connection, Task::Nothing),
            Work::Run(list) => {
                let answer = run(alloc, &mut connection, list);
                (connection, answer)
            }
            Work::Count(query) => {
                let answer = counted(alloc, &mut connection, query);
                (connection, answer)
            }
            Work::OpenTwice => opened_twice(alloc, connection),
            Work::ReadOld => {
                let answer = read_old(alloc, &mut connection, old);
                (connection, answer)
            }
        }
    }
}
