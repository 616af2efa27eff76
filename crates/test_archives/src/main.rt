//! Archives as rows: stories over both keepers, and calls and migrations of which a growth may be refused from outside; and archives in
//! files in memory: whose disks stop, fail or are full, databases that are no archive, and archives of older layouts.
//!
//! A line is printed for each row that differs, and one for each file. The exit status is 0 if each file has rows, all rows can be
//! read, and none differs; 3 if the output fails; otherwise it is 1.
#![tactic(auto)]

use keep::PlainKeeper;
use sqlite::MemStore;
use std::io;
use std::process::ExitCode;
use std::rt::{Env, Files};
use test_disks::Case;
use test_growths::{Lists, Marked, Moves};
use test_rows::{Answers, report_files};

/// Stories over plain keepers, and calls of them.
type OverLists = Marked<PlainKeeper, Lists>;

/// Stories over keepers over tables in memory, their calls, and migrations. Only `main` names the type of their store, besides what
/// opens it.
type OverTables = Moves<MemStore>;

/// Makes the calls of which a growth may be refused, over lists and over tables, and migrations.
fn call<L: Answers<R>, T: Answers<R>, R: Files + Env + Print + AllocGlobal + Clone + Drop>(
    rt: &R,
) -> io::Result<bool> {
    let over_lists = report_files::<L, R>(rt, "over lists: ", ".growths")?;
    let over_tables = report_files::<T, R>(rt, "over tables: ", ".growths")?;
    let moved = report_files::<T, R>(rt, "of older ones: ", ".moves")?;
    Ok(over_lists && over_tables && moved)
}

/// Does the stories over lists and over tables, the calls, and the rows in files.
fn tell<
    L: Answers<R>,
    T: Answers<R>,
    F: Answers<R>,
    R: Files + Env + Print + AllocGlobal + Clone + Drop,
>(rt: &R) -> io::Result<bool> {
    let over_lists = report_files::<L, R>(rt, "over lists: ", ".rows")?;
    let over_tables = report_files::<T, R>(rt, "over tables: ", ".rows")?;
    let called = call::<L, T, R>(rt)?;
    let in_files = report_files::<F, R>(rt, "in files: ", ".disks")?;
    Ok(over_lists && over_tables && called && in_files)
}

fn main(rt: HostRuntime) -> ExitCode {
    match tell::<OverLists, OverTables, Case, HostRuntime>(&rt) {
        Ok(true) => ExitCode::from(0),
        Ok(false) => ExitCode::from(1),
        Err(_) => ExitCode::from(3),
    }
}
