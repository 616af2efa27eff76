//! A line of the command line, done over database files.

use command_line::CommandLine;
use database_file::DatabaseFile;
use keep_tables::{InOrder, TableKeeper};
use program::{FileArchives, InFile, act};
use sqlite::{FileFrom, FileStore, Wary};
use std::io::Write;
use std::marker::PhantomData;

/// Archives in tables on stores of this type, which `F` opens, makes and closes.
struct OnStores<S, F> {
    stores: PhantomData<(S, F)>,
}

impl<S: InOrder + Drop, F: InFile<TableKeeper<S>>> FileArchives for OnStores<S, F> {
    type Keeper = TableKeeper<S>;

    type File = F;
}

/// Does a line over keepers on stores of this type, and answers the exit status. The type of the store is a parameter here, so that the
/// prover has little to compare.
fn act_over<S: InOrder + Drop, F: InFile<TableKeeper<S>>, W: Write, E: Write>(
    rt: &HostRuntime,
    line: &CommandLine<'_>,
    out: &mut W,
    err: &mut E,
) -> u8 {
    act::<OnStores<S, F>, W, E>(rt, line, out, err)
}

/// Does a line over database files, and answers the exit status.
pub fn act_in_file<W: Write, E: Write>(
    rt: &HostRuntime,
    line: &CommandLine<'_>,
    out: &mut W,
    err: &mut E,
) -> u8 {
    act_over::<FileStore<FileFrom<Wary>>, DatabaseFile, W, E>(rt, line, out, err)
}
