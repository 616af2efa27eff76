//! What the program does for a line that neither exports nor serves, and what it says if the words are no line.

use crate::ask::{ask_file, configuration_file, list_file, show_file, status_file, why_file};
use crate::batch::batch_file;
use crate::configured::{check, configure, init, migrate};
use crate::database::{InFile, Opening};
use crate::escaped::Escaped;
use crate::fault::{Stop, all_taken};
use crate::files::{body_of, most_read};
use crate::words::Words;
use book::Keeper;
use command_line::{CommandLine, LineFault, line};
use keep::PlainKeeper;
use queue::{Archive, Fault};
use rules::Config;
use std::alloc::{AllocError, Global};
use std::cmp::Ordering;
use std::io::{self, Write};
use std::rt::Files;
use texts::file_name;
use vers::Version;

/// The configuration of the archive that `try` makes.
const BOX: &[u8] = b"Codename: box\nArchitectures: amd64 source\nComponents: main\n";

/// The index that `try` prints.
const BOX_PACKAGES: &str = "dists/box/main/binary-amd64/Packages";

/// An archive of its own, with the configuration that `try` has.
fn box_archive(alloc: Global) -> Result<Archive<PlainKeeper>, Fault> {
    match Config::read(alloc, BOX) {
        Ok(config) => Ok(Archive::new(alloc, PlainKeeper::new(alloc, config, 0)?)),
        // The text is a configuration, so only want of memory is left.
        Err(_) => Err(Fault::OutOfMemory),
    }
}

/// Delivers a file at the moment 0, under the text after its path's last slash.
fn deliver_file<'a, R: Files + AllocGlobal, K: Keeper>(
    rt: &R,
    archive: &mut Archive<K>,
    path: &'a str,
) -> Result<(), Stop<'a>> {
    let body = body_of(rt, path, most_read(archive))?;
    archive.deliver(rt.alloc(), file_name(path), &body, 0)?;
    Ok(())
}

/// Prints the Packages of what was accepted.
fn print_packages<'a, K: Keeper, W: Write>(
    alloc: Global,
    archive: &mut Archive<K>,
    out: &mut W,
) -> Result<(), Stop<'a>> {
    if let Some(text) = archive.fetch(alloc, BOX_PACKAGES)? {
        out.write_all(&text)?;
    }
    Ok(())
}

/// Delivers the files to an archive, runs its queue, and prints the Packages of what was accepted.
fn try_files<'a, R: Files + AllocGlobal, K: Keeper, W: Write>(
    rt: &R,
    archive: &mut Archive<K>,
    paths: &[&'a str],
    out: &mut W,
) -> Result<(), Stop<'a>> {
    for path in paths {
        deliver_file(rt, archive, path)?;
    }
    archive.run(rt.alloc(), 0)?;
    print_packages(rt.alloc(), archive, out)
}

/// Delivers the files to an archive of their own, runs its queue, and prints the Packages of what was accepted.
fn try_upload<'a, R: Files + AllocGlobal, W: Write>(
    rt: &R,
    paths: &[&'a str],
    out: &mut W,
) -> Result<(), Stop<'a>> {
    let mut archive = box_archive(rt.alloc())?;
    try_files(rt, &mut archive, paths, out)
}

/// Prints how two versions compare.
fn compare<'a, W: Write>(
    alloc: Global,
    left: &str,
    right: &str,
    out: &mut W,
) -> Result<(), Stop<'a>> {
    let left = Version::parse(alloc, left)?;
    let right = Version::parse(alloc, right)?;
    let word: &[u8] = match left.order(&right) {
        Ordering::Less => b"less\n",
        Ordering::Equal => b"equal\n",
        Ordering::Greater => b"greater\n",
    };
    out.write_all(word)?;
    Ok(())
}

/// Carries out a line that asks the archive of a database file over keepers of this type, and says whether everything that was given was
/// taken. For another line it does nothing. If it is refused, there may be words for the refusal.
fn asked<'a, K: Keeper + Drop, F: InFile<K>, W: Write, E: Write>(
    rt: &HostRuntime,
    line: &CommandLine<'a>,
    out: &mut W,
    err: &mut E,
    words: &mut Words,
) -> Result<bool, Stop<'a>> {
    match line {
        CommandLine::Ask {
            db,
            at,
            request,
            manner,
        } => ask_file::<K, F, W, E>(
            rt,
            Opening { db, at: *at },
            request,
            *manner,
            out,
            err,
            words,
        ),
        CommandLine::Batch {
            db,
            at,
            list,
            strict,
        } => batch_file::<K, F, W, E>(rt, Opening { db, at: *at }, list, *strict, out, err),
        CommandLine::Show { db, path } => all_taken(show_file::<K, F, W>(rt, db, path, out)),
        CommandLine::List { db, suite, json } => {
            all_taken(list_file::<K, F, W>(rt, db, *suite, *json, out, words))
        }
        CommandLine::Why { db, at, name, json } => {
            // Without a moment, all that arrived and was not cleaned counts.
            let at = at.unwrap_or(0);
            all_taken(why_file::<K, F, W>(rt, Opening { db, at }, *name, *json, out))
        }
        CommandLine::Configuration { db } => {
            all_taken(configuration_file::<K, F, W>(rt, db, out))
        }
        CommandLine::Status { db, at } => {
            all_taken(status_file::<K, F, W>(rt, Opening { db, at: *at }, out))
        }
        _ => Ok(true),
    }
}

/// Carries out a line over keepers of this type, and says whether everything that was given was taken, and nothing passed over. For an
/// export and a service it does nothing. Slips in what was given are named on `err`. If the line is refused, there may be words for the
/// refusal.
pub fn done<'a, K: Keeper + Drop, F: InFile<K>, W: Write, E: Write>(
    rt: &HostRuntime,
    line: &CommandLine<'a>,
    out: &mut W,
    err: &mut E,
    words: &mut Words,
) -> Result<bool, Stop<'a>> {
    match line {
        CommandLine::Try { paths } => all_taken(try_upload(rt, paths, out)),
        CommandLine::Compare { left, right } => all_taken(compare(rt.alloc(), left, right, out)),
        CommandLine::Check { conf } => check(rt, conf, out, err, words),
        CommandLine::Init { db, at, conf } => {
            all_taken(init::<K, F, E>(rt, db, *at, conf, err, words))
        }
        CommandLine::Configure { db, at, conf } => {
            all_taken(configure::<K, F, E>(rt, db, *at, conf, err, words))
        }
        CommandLine::Migrate { from, db, at, conf } => {
            all_taken(migrate::<K, F, E>(rt, from, db, *at, conf, err, words))
        }
        _ => asked::<K, F, W, E>(rt, line, out, err, words),
    }
}

/// Prints why words are no line, and has it written out: the help or the version that was asked for on `out`, or what is wrong with the
/// words on `err`.
fn explained<W: Write, E: Write>(fault: &LineFault, out: &mut W, err: &mut E) -> io::Result<u8> {
    match fault {
        LineFault::OutOfMemory => {
            writeln!(err, "archive: {fault}")?;
            Ok(3)
        }
        LineFault::Help(text) => {
            write!(out, "{text}")?;
            out.flush()?;
            Ok(0)
        }
        LineFault::Refused(text) => {
            write!(err, "{text}")?;
            Ok(2)
        }
    }
}

/// Words as they are shown, as texts of their own.
fn shown_words(alloc: Global, words: &[&str]) -> Result<Vec<String>, AllocError> {
    let mut texts = Vec::new(alloc);
    for word in words {
        let word = Escaped(word);
        texts.push(format!(in alloc; "{word}")?)?;
    }
    Ok(texts)
}

/// The words of these texts.
fn words_of(alloc: Global, texts: &[String]) -> Result<Vec<&str>, AllocError> {
    let mut words = Vec::new(alloc);
    for text in texts {
        words.push(text.as_str())?;
    }
    Ok(words)
}

/// Reads words as they are shown, and keeps only why they are no line.
fn read_shown(alloc: Global, words: &[&str]) -> Result<(), LineFault> {
    let texts = shown_words(alloc, words)?;
    let shown = words_of(alloc, &texts)?;
    line(alloc, &shown)?;
    Ok(())
}

/// Prints why words that were refused are no line, and answers the exit status: 0 for the help or the version that was asked for, which
/// is printed on `out`; 2 for other words, with a text on `err` that says why; 3 if memory runs out or an output fails. The text quotes
/// what was given. So the words are read once more as they are shown, and the text is the one for these.
pub fn explain<W: Write, E: Write>(alloc: Global, words: &[&str], out: &mut W, err: &mut E) -> u8 {
    let told = match read_shown(alloc, words) {
        Err(shown) => explained(&shown, out, err),
        // A question mark never makes a bad word good. So if no fault is left, memory was wanting before.
        Ok(()) => explained(&LineFault::OutOfMemory, out, err),
    };
    told.unwrap_or(3)
}
