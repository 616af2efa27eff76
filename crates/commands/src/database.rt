//! The archive of a database file.
//!
//! A database file that is not there is no archive (K4). Only `init` makes it: left to itself SQLite would make an empty file, and then
//! answer K4. A file without a byte, and without a log beside it, is also no archive, except for `init`, and is left as it is.
//!
//! An opening gives the log that it finds the mode of the database. SQLite gives a log this mode only when it makes the log, and a log
//! stays after a command, so it would keep the mode that the database had then. The mode is changed through a descriptor, and only if the
//! log is a regular file of one name. So nobody who may write in the folder can have the mode of another file changed. If this process may
//! not change the mode, as for a file of another owner, it stays.

use crate::fault::Stop;
use crate::progress::Progress;
use book::{KeepFault, Keeper, LATEST};
pub use in_file::{InFile, OpenFault};
use queue::{Archive, Fault};
use rules::Config;
use std::alloc::AllocError;
use std::fs::{File, Metadata, OpenFile, Permissions};
use std::os::unix::fs::{MetadataExt, PermissionsExt};
use std::rt::Files;
use std::{fs, io};

/// The database file whose archive is asked, and the moment of the request, in seconds since 1970-01-01 00:00:00 UTC.
#[derive(Clone, Copy)]
pub struct Opening<'o> {
    pub db: &'o str,
    pub at: u64,
}

/// The folder that a file at the path lies in.
fn folder_of(path: &str) -> &str {
    match path.rsplit_once('/') {
        Some(("", _)) => "/",
        Some((folder, _)) => folder,
        None => ".",
    }
}

/// Whether an open of the database would make its file: there is none at the path, its folder is there, and the path is not one of those
/// that never lead to a file.
fn would_make<R: Files>(rt: &R, path: &str) -> bool {
    if path.is_empty() || path == ":memory:" || path.starts_with("file:") {
        return false;
    }
    match fs::symlink_metadata(rt, path) {
        Err(error) if error.kind() == io::ErrorKind::NotFound => {
            fs::symlink_metadata(rt, folder_of(path)).is_ok()
        }
        _ => false,
    }
}

/// The number of bytes of the regular file at a path, if there is one.
pub fn length_of<R: Files>(rt: &R, path: &str) -> Option<u64> {
    match fs::metadata(rt, path) {
        Ok(found) if found.is_file() => Some(found.len()),
        _ => None,
    }
}

/// Whether the file at a path has no bytes, and none are in a log beside it.
fn is_blank<R: Files + AllocGlobal>(rt: &R, path: &str) -> Result<bool, AllocError> {
    let log = format!(in rt.alloc(); "{path}-wal")?;
    Ok(length_of(rt, path) == Some(0) && matches!(length_of(rt, log.as_str()), None | Some(0)))
}

/// Whether two look-ups found one file.
fn is_same(one: &Metadata, other: &Metadata) -> bool {
    one.dev() == other.dev() && one.ino() == other.ino()
}

/// Whether a path leads to the file that was looked up.
fn leads_to<R: Files>(rt: &R, path: &str, found: &Metadata) -> bool {
    match fs::metadata(rt, path) {
        Ok(named) => is_same(&named, found),
        Err(_) => false,
    }
}

/// Whether the file that was looked up is the one beside a database whose name has this ending.
fn is_beside<R: Files + AllocGlobal>(
    rt: &R,
    db: &str,
    end: &str,
    found: &Metadata,
) -> Result<bool, AllocError> {
    let own = format!(in rt.alloc(); "{db}{end}")?;
    Ok(leads_to(rt, own.as_str(), found))
}

/// Whether a path leads to the file of a database, or to a file that SQLite keeps beside it.
pub fn is_of_database<R: Files + AllocGlobal>(
    rt: &R,
    db: &str,
    path: &str,
) -> Result<bool, AllocError> {
    let Ok(found) = fs::metadata(rt, path) else {
        return Ok(false);
    };
    for end in ["", "-wal", "-journal", "-shm"] {
        if is_beside(rt, db, end, &found)? {
            return Ok(true);
        }
    }
    Ok(false)
}

/// The bits of a mode by which a file may be read, written and run.
const ACCESS: u32 = 0o777;

/// The path of the log that lies beside the database at a path.
fn log_of<R: Files + AllocGlobal>(rt: &R, path: &str) -> io::Result<String> {
    let real = fs::canonicalize(rt, path)?;
    Ok(format!(in rt.alloc(); "{}-wal", real.as_str())?)
}

/// Gives the file at a path the mode, if it is the file that was looked up.
fn set_mode<R: Files>(rt: &R, path: &str, named: &Metadata, mode: u32) -> io::Result<()> {
    let file = File::open(rt, path)?;
    if !is_same(&file.metadata()?, named) {
        return Ok(());
    }
    file.set_permissions(Permissions::from_mode(mode))
}

/// Whether a file is a regular file of one name, with another mode.
fn lacks_mode(named: &Metadata, mode: u32) -> bool {
    named.is_file() && named.nlink() == 1 && named.mode() & ACCESS != mode
}

/// Gives the log that lies beside a database the mode of the database, if this process may. A log stays after a command, so that it has the
/// mode which the database had once. Only a file with this one name is changed, and only the file that was looked up.
fn share_mode<R: Files + AllocGlobal>(rt: &R, path: &str) -> io::Result<()> {
    let mode = fs::metadata(rt, path)?.mode() & ACCESS;
    let log = log_of(rt, path)?;
    let named = fs::symlink_metadata(rt, log.as_str())?;
    if !lacks_mode(&named, mode) {
        return Ok(());
    }
    set_mode(rt, log.as_str(), &named, mode)
}

/// Whether the file of a database is not there, or has no bytes.
fn is_new<R: Files + AllocGlobal>(rt: &R, path: &str) -> Result<bool, AllocError> {
    if would_make(rt, path) {
        return Ok(true);
    }
    is_blank(rt, path)
}

/// Opens the archive of a database file. A file that is not there or has no bytes is no archive, and nothing is made. The log beside it
/// gets its mode, if that is possible.
pub fn open_archive<'a, K: Keeper + Drop, F: InFile<K>>(
    rt: &HostRuntime,
    path: &str,
) -> Result<Archive<K>, Stop<'a>> {
    if is_new(rt, path)? {
        return Err(Stop::NoArchive(KeepFault::NoArchive));
    }
    let _ = share_mode(rt, path);
    let keeper = F::opened(rt, path)?;
    Ok(Archive::new(rt.alloc(), keeper))
}

/// Opens the archive of a database file, for a command that shows that it is opening a large one. It shows that only if standard error is a
/// terminal.
pub fn open_shown<'a, K: Keeper + Drop, F: InFile<K>>(
    rt: &HostRuntime,
    path: &str,
) -> Result<Archive<K>, Stop<'a>> {
    let mut err = rt.stderr();
    let mut progress = Progress::new(rt, &mut err, "opening", "bytes");
    progress.announce(length_of(rt, path).unwrap_or(0));
    let opened = open_archive::<K, F>(rt, path);
    progress.clear();
    opened
}

/// Makes an archive of the configuration in a database file, at a moment, in seconds since 1970-01-01 00:00:00 UTC. The file is made if it
/// is not there.
pub fn create_archive<'a, K: Keeper + Drop, F: InFile<K>>(
    rt: &HostRuntime,
    path: &str,
    config: Config,
    moment: u64,
) -> Result<Archive<K>, Stop<'a>> {
    if moment > LATEST {
        return Err(Stop::Refused(Fault::Moment));
    }
    let keeper = F::made(rt, path, config, moment)?;
    Ok(Archive::new(rt.alloc(), keeper))
}

/// The contents of the archive of an older layout in a database file. The file has to differ from that at the path `to`, and from those
/// beside it.
fn old_archive<'a, K, F: InFile<K>>(
    rt: &HostRuntime,
    from: &str,
    to: &str,
) -> Result<F::Old, Stop<'a>> {
    if would_make(rt, from) || is_of_database(rt, from, to)? {
        return Err(Stop::NoArchive(KeepFault::NoArchive));
    }
    Ok(F::old(rt, from)?)
}

/// Makes an archive of the configuration in a database file, from the archive of an older layout in another file. All arrivals are as of a
/// moment, in seconds since 1970-01-01 00:00:00 UTC. The file is made if it is not there; a configuration that is not like the older one is
/// refused before that.
pub fn migrate_archive<'a, K: Keeper + Drop, F: InFile<K>>(
    rt: &HostRuntime,
    from: &str,
    path: &str,
    config: Config,
    moment: u64,
) -> Result<Archive<K>, Stop<'a>> {
    if moment > LATEST {
        return Err(Stop::Refused(Fault::Moment));
    }
    let old = old_archive::<K, F>(rt, from, path)?;
    if is_new(rt, path)? && !F::are_alike(&old, &config) {
        return Err(Stop::NoArchive(KeepFault::Configuration));
    }
    let keeper = F::migrated(rt, path, &old, config, moment)?;
    Ok(Archive::new(rt.alloc(), keeper))
}

/// Closes the archive of a database file. The log beside the file is copied into the file, so that this alone is the archive. If that fails
/// nothing is lost: the log stays, and the next open reads both.
pub fn close<K: Keeper + Drop, F: InFile<K>>(archive: Archive<K>) {
    F::closed(archive.into_keeper());
}
