//! The commands that read a configuration: they make an archive, give it another configuration, or print what a configuration says.

ghost use Rattle.std.specs.Prelude.{◌≤◌};
ghost use Rattle.book.specs.Book.{latest};

use crate::database::{InFile, close, create_archive, migrate_archive, open_archive};
use crate::fault::Stop;
use crate::files::conf_body_of;
use crate::print;
use crate::slips::{tell_early, tell_passed_over};
use crate::words::Words;
use book::{Keeper, LATEST};
use output::checking::{can_be_exported, check_lines, unknown_fields};
use queue::{Archive, Fault};
use rules::{Config, ConfigFault};
use std::alloc::Global;
use std::io::Write;
use std::rt::Files;

/// The configuration of a text that is handed in. A MaxFileSize in it that says no size is refused, although the reading of a stored
/// configuration passes over it. If a field is lacking, the fields that are passed over are named on `err`, since one of them may be that
/// field.
fn config_in<'a, E: Write>(
    alloc: Global,
    text: &[u8],
    err: &mut E,
    words: &mut Words,
) -> Result<Config, Stop<'a>> {
    match Config::read_strict(alloc, text) {
        Ok(config) => Ok(config),
        Err(fault) => {
            if fault == ConfigFault::Missing {
                tell_passed_over(alloc, text, err);
            }
            words.find_for_text(alloc, text, fault);
            Err(Stop::NoConfig(fault))
        }
    }
}

/// Makes an archive in a database file at a moment, in seconds since 1970-01-01 00:00:00 UTC, with the configuration of
/// a file. The fields of that which are passed over are named on `err` afterwards.
pub fn init<'a, K: Keeper + Drop, F: InFile<K>, E: Write>(
    rt: &HostRuntime,
    db: &str,
    at: u64,
    conf: &'a str,
    err: &mut E,
    words: &mut Words,
) -> Result<(), Stop<'a>> {
    let text = conf_body_of(rt, conf)?;
    let config = config_in(rt.alloc(), &text, err, words)?;
    let archive = create_archive::<K, F>(rt, db, config, at)?;
    close::<K, F>(archive);
    tell_passed_over(rt.alloc(), &text, err);
    Ok(())
}

/// Prints what the configuration of a text says, which of its components no export can write, and which of its fields are passed over. It
/// says whether there are no such components and no such fields. It is refused as by `config_in`.
fn check_text<'a, W: Write, E: Write>(
    alloc: Global,
    text: &[u8],
    out: &mut W,
    err: &mut E,
    words: &mut Words,
) -> Result<bool, Stop<'a>> {
    let config = config_in(alloc, text, err, words)?;
    let passed_over = unknown_fields(alloc, text)?;
    let lines = check_lines(alloc, &config, &passed_over)?;
    print::print_lines(alloc, &lines, out)?;
    Ok(passed_over.is_empty() && can_be_exported(&config))
}

/// Checks the configuration of a file as `check_text` does.
pub fn check<'a, R: Files + AllocGlobal, W: Write, E: Write>(
    rt: &R,
    conf: &'a str,
    out: &mut W,
    err: &mut E,
    words: &mut Words,
) -> Result<bool, Stop<'a>> {
    let text = conf_body_of(rt, conf)?;
    check_text(rt.alloc(), &text, out, err, words)
}

/// Gives an archive the configuration of a text at a moment. If something that is shown would not be kept, words say what.
fn configure_archive<'a, K: Keeper>(
    alloc: Global,
    archive: &mut Archive<K>,
    config: Config,
    at: u64,
    text: &[u8],
    words: &mut Words,
) -> Result<(), Stop<'a>>
    requires in_time { at ≤ latest }
{
    let done = print::configure(alloc, archive, config, at);
    if let Err(stop) = &done {
        words.find_for_configuration(alloc, archive, text, stop);
    }
    done
}

/// Gives the archive of a database file the configuration of a file, at a moment, in seconds since 1970-01-01 00:00:00 UTC. The
/// configuration is read before the database is opened. The suites with a date after the moment are named on `err` before anything is done,
/// and the fields that are passed over afterwards.
pub fn configure<'a, K: Keeper + Drop, F: InFile<K>, E: Write>(
    rt: &HostRuntime,
    db: &str,
    at: u64,
    conf: &'a str,
    err: &mut E,
    words: &mut Words,
) -> Result<(), Stop<'a>> {
    if at > LATEST {
        return Err(Stop::Refused(Fault::Moment));
    }
    let text = conf_body_of(rt, conf)?;
    let config = config_in(rt.alloc(), &text, err, words)?;
    let mut archive = open_archive::<K, F>(rt, db)?;
    tell_early(rt.alloc(), &archive, at, err);
    let done = configure_archive(rt.alloc(), &mut archive, config, at, &text, words);
    close::<K, F>(archive);
    if done.is_ok() {
        tell_passed_over(rt.alloc(), &text, err);
    }
    done
}

/// Makes an archive in a database file, with the configuration of a file, from the archive of an older layout in another database file.
/// All arrivals are as of a moment, in seconds since 1970-01-01 00:00:00 UTC. The fields that are passed over are named on `err`
/// afterwards.
pub fn migrate<'a, K: Keeper + Drop, F: InFile<K>, E: Write>(
    rt: &HostRuntime,
    from: &str,
    db: &str,
    at: u64,
    conf: &'a str,
    err: &mut E,
    words: &mut Words,
) -> Result<(), Stop<'a>> {
    let text = conf_body_of(rt, conf)?;
    let config = config_in(rt.alloc(), &text, err, words)?;
    let archive = migrate_archive::<K, F>(rt, from, db, config, at)?;
    close::<K, F>(archive);
    tell_passed_over(rt.alloc(), &text, err);
    Ok(())
}
