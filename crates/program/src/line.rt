//! What the program does for a line.

use crate::export::export_file;
use crate::serving_file::serve_file;
use book::Keeper;
use command_line::CommandLine;
use commands::database::InFile;
use commands::fault::{Stop, all_taken};
use commands::words::Words;
use in_file::FileArchives;
use std::io::Write;

/// Does a line over keepers of this type, and answers whether all that was given was taken and nothing was passed over. If it is refused,
/// there may be words for the refusal.
fn done<'a, K: Keeper + Drop, F: InFile<K>, W: Write, E: Write>(
    rt: &HostRuntime,
    line: &CommandLine<'a>,
    out: &mut W,
    err: &mut E,
    words: &mut Words,
) -> Result<bool, Stop<'a>> {
    match line {
        CommandLine::Export { db, exporting } => {
            all_taken(export_file::<K, F, W>(rt, db, *exporting, out))
        }
        CommandLine::Serve { db, serving } => {
            all_taken(serve_file::<K, F, E>(rt, db, *serving, err))
        }
        _ => commands::done::<K, F, W, E>(rt, line, out, err, words),
    }
}

/// Does a line as `done` does, and flushes its output.
fn finished<'a, K: Keeper + Drop, F: InFile<K>, W: Write, E: Write>(
    rt: &HostRuntime,
    line: &CommandLine<'a>,
    out: &mut W,
    err: &mut E,
    words: &mut Words,
) -> Result<bool, Stop<'a>> {
    let all = done::<K, F, W, E>(rt, line, out, err, words)?;
    out.flush()?;
    Ok(all)
}

/// The exit status of a line that was done or not, with a line on `err` that says why it was not, and the words for that, if there are any.
fn status_of<E: Write>(finished: Result<bool, Stop<'_>>, words: &Words, err: &mut E) -> u8 {
    match finished {
        Ok(true) => 0,
        Ok(false) => 1,
        Err(Stop::Unwritten) => 3,
        Err(stop) => match writeln!(err, "{stop}") {
            Ok(()) => {
                words.write(err);
                stop.status()
            }
            Err(_) => 3,
        },
    }
}

/// Does a line over archives in files, and answers the exit status: 0 if it is done; 1 if something is refused, a field of a configuration
/// is passed over or a file can't be read; 2 if a list has a bad line; 3 if memory runs out, a disk fails or is full, the address can't be
/// used, a path can't be written, or an output fails. What is refused has a line on `err`, or two if the archive is of another layout, or
/// if `err` is a terminal and there are words for the refusal. But the files of a `put`, the uploads of a run and the commands of a list
/// have their lines on `out`. If an output fails, nothing more is printed. The log of a `serve` is on `err` too, and so are slips in what
/// was given.
pub fn act<A: FileArchives, W: Write, E: Write>(
    rt: &HostRuntime,
    line: &CommandLine<'_>,
    out: &mut W,
    err: &mut E,
) -> u8 {
    let mut words = Words::new(rt);
    let finished = finished::<A::Keeper, A::File, W, E>(rt, line, out, err, &mut words);
    if let Err(stop) = &finished {
        words.find_for_line(rt, line, stop);
    }
    status_of(finished, &words, err)
}
