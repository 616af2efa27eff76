//! The commands that ask the archive of a database file.

use crate::database::{InFile, Opening, close, open_shown};
use crate::fault::{Stop, all_taken};
use crate::print;
use crate::progress::Progress;
use crate::slips::{may_change, tell_early};
use crate::told::{of_suite, of_uploads, print_told};
use crate::words::Words;
use book::Keeper;
use command_line::{LineRequest, Manner, Request};
use queue::Archive;
use std::io::Write;
use telling::Question;

/// Delivers files, shows how many of their bytes are delivered, and says whether all were taken.
fn put<'a, K: Keeper, W: Write, E: Write>(
    rt: &HostRuntime,
    archive: &mut Archive<K>,
    opening: Opening<'_>,
    paths: &[&'a str],
    out: &mut W,
    err: &mut E,
) -> Result<bool, Stop<'a>> {
    let mut progress = Progress::new(rt, err, "put", "bytes");
    let done = print::put_files(rt, archive, opening, paths, out, &mut progress);
    progress.clear();
    done
}

/// Asks an archive, and says whether everything that was given was taken.
fn ask<'a, K: Keeper, W: Write, E: Write>(
    rt: &HostRuntime,
    archive: &mut Archive<K>,
    opening: Opening<'_>,
    request: &LineRequest<'a>,
    manner: Manner,
    out: &mut W,
    err: &mut E,
) -> Result<bool, Stop<'a>> {
    let (alloc, at) = (rt.alloc(), opening.at);
    match request {
        Request::Put { path } => put(rt, archive, opening, path, out, err),
        Request::Run => print::run(alloc, archive, at, manner.strict, out),
        Request::Copy { from, to, source } => {
            all_taken(print::copy(alloc, archive, at, from, to, source, out))
        }
        Request::Promote { from, to, sources } => {
            print::promote(alloc, archive, at, from, to, sources, out)
        }
        Request::Remove { suite, name } => {
            all_taken(print::remove(alloc, archive, at, suite, name, out))
        }
        Request::Clean => all_taken(print::clean(alloc, archive, at, out)),
        Request::Waiting => all_taken(print::waiting(alloc, archive, at, manner.json, out)),
        Request::Verdicts => all_taken(print::verdicts(alloc, archive, manner.json, out)),
    }
}

/// Asks the archive of a database file, and says whether everything that was given was taken. If the request may change something, the
/// suites with a date after its moment are named on `err` before. The progress of a `put` is shown on `err`, if that is a terminal. If the
/// request is refused, there may be words for the refusal.
pub fn ask_file<'a, K: Keeper + Drop, F: InFile<K>, W: Write, E: Write>(
    rt: &HostRuntime,
    opening: Opening<'_>,
    request: &LineRequest<'a>,
    manner: Manner,
    out: &mut W,
    err: &mut E,
    words: &mut Words,
) -> Result<bool, Stop<'a>> {
    let mut archive = open_shown::<K, F>(rt, opening.db)?;
    if may_change(request) {
        tell_early(rt.alloc(), &archive, opening.at, err);
    }
    let done = ask(rt, &mut archive, opening, request, manner, out, err);
    if let Err(stop) = &done {
        words.find_for_request(rt.alloc(), &mut archive, request, stop);
    }
    close::<K, F>(archive);
    done
}

/// Prints the bytes of the index or the file of the pool at a path in the archive of a database file.
pub fn show_file<'a, K: Keeper + Drop, F: InFile<K>, W: Write>(
    rt: &HostRuntime,
    db: &str,
    path: &str,
    out: &mut W,
) -> Result<(), Stop<'a>> {
    let mut archive = open_shown::<K, F>(rt, db)?;
    let done = print::show(rt.alloc(), &mut archive, path, out);
    close::<K, F>(archive);
    done
}

/// Prints what suites of the archive of a database file show, an item a line. If no suite has the codename, there are words for the refusal.
pub fn list_file<'a, K: Keeper + Drop, F: InFile<K>, W: Write>(
    rt: &HostRuntime,
    db: &str,
    suite: Option<&str>,
    json: bool,
    out: &mut W,
    words: &mut Words,
) -> Result<(), Stop<'a>> {
    let question = of_suite(rt.alloc(), suite, json)?;
    let mut archive = open_shown::<K, F>(rt, db)?;
    let done = print_told(rt.alloc(), &mut archive, &question, 0, out);
    if let (Some(suite), Err(stop)) = (suite, &done) {
        words.find_for_suite(rt.alloc(), &archive, suite, stop);
    }
    close::<K, F>(archive);
    done
}

/// Prints the answer of the archive of a database file at a moment, in seconds since 1970-01-01 00:00:00 UTC.
fn tell_file<'a, K: Keeper + Drop, F: InFile<K>, W: Write>(
    rt: &HostRuntime,
    opening: Opening<'_>,
    question: &Question,
    out: &mut W,
) -> Result<(), Stop<'a>> {
    let mut archive = open_shown::<K, F>(rt, opening.db)?;
    let done = print_told(rt.alloc(), &mut archive, question, opening.at, out);
    close::<K, F>(archive);
    done
}

/// Prints why uploads to the archive of a database file have their verdicts, and what the waiting uploads lack.
pub fn why_file<'a, K: Keeper + Drop, F: InFile<K>, W: Write>(
    rt: &HostRuntime,
    opening: Opening<'_>,
    name: Option<&str>,
    json: bool,
    out: &mut W,
) -> Result<(), Stop<'a>> {
    let question = of_uploads(rt.alloc(), name, json)?;
    tell_file::<K, F, W>(rt, opening, &question, out)
}

/// Prints the text of the configuration of the archive of a database file.
pub fn configuration_file<'a, K: Keeper + Drop, F: InFile<K>, W: Write>(
    rt: &HostRuntime,
    db: &str,
    out: &mut W,
) -> Result<(), Stop<'a>> {
    tell_file::<K, F, W>(rt, Opening { db, at: 0 }, &Question::Configuration, out)
}

/// Prints figures of the archive of a database file at a moment.
pub fn status_file<'a, K: Keeper + Drop, F: InFile<K>, W: Write>(
    rt: &HostRuntime,
    opening: Opening<'_>,
    out: &mut W,
) -> Result<(), Stop<'a>> {
    tell_file::<K, F, W>(rt, opening, &Question::Status, out)
}
