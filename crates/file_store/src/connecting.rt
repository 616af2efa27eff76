//! Connections to the databases of files.
//!
//! If another process holds a database, opening it is tried again for 10 seconds, so that two timers that meet do not fail.
//!
//! Nothing is assumed about a write that a crash tears, so each commit syncs twice.
//!
//! During a command the log takes up to 64 MiB before the next change copies it into the database file first. SQLite's own limit is 4 MiB.
//! With that limit each upload after an index of 4 MiB would copy the whole index once more, and the first upload after a long run all that
//! the run wrote.
//!
//! A transaction holds up to 1 MiB of pages in memory before they go to the log. So the memory that a removal takes does not grow with the
//! file that goes: it writes some 11 KiB of pages for each MiB of it.
//!
//! At the end of a command the log is copied into the database file. If this fails it is no fault: all is kept in the log, and the next
//! open reads both.
//!
//! An opening begins a log beside the database file, also of a database that is then no archive. The database file itself stays as it was,
//! except an empty file and a file of a single byte: the store takes these for a database that it has begun, and makes a database without
//! tables of it.

use book::KeepFault;
use sqlite::{Connection, FileFrom, FileStore, Options, Wary};
use sqlite_disk::Disk;
use sqlite_std_file::OpenError;
use std::hash::{BuildHasher, RandomState};
use std::io::ErrorKind;
use std::time::Duration;
use std::{fs, thread};
use tables_meaning::fault_of;

/// The store of a database file.
pub type Store = FileStore<FileFrom<Wary>>;

/// The number of tries to open a database that another process holds.
pub const TRIES: u32 = 100;

/// The number of milliseconds to wait after each try: 10 seconds in all.
pub const BETWEEN_TRIES: u64 = 100;

/// The number of pages of 4,096 bytes that the log beside the database file takes before it is copied into that file: 64 MiB.
const LOG_PAGES: usize = 16_384;

/// The number of pages that a transaction writes before they go to the log: 1 MiB.
const WRITTEN_PAGES: usize = 256;

/// The number of bytes of a page of a database file.
const PAGE: u64 = 4_096;

/// The fewest and the most pages of a database that are held in memory to be read again: 1 MiB and 16 MiB.
const LEAST_CACHE: u64 = 256;

const MOST_CACHE: u64 = 4_096;

/// The number of bytes of the file at a path, 0 if there is none.
fn length_of(rt: &HostRuntime, path: &str) -> u64 {
    match fs::metadata(rt, path) {
        Ok(found) if found.is_file() => found.len(),
        _ => 0,
    }
}

/// The number of pages of the database at a path that are held in memory to be read again: as many as the file and the log beside it have, if
/// these are neither few nor many. An opening reads each page more than once, and fills the memory of each page with zeros before it reads
/// any.
fn cache_pages(rt: &HostRuntime, path: &str) -> Result<usize, KeepFault> {
    let Ok(log) = format!(in rt.alloc(); "{path}-wal") else {
        return Err(KeepFault::OutOfMemory);
    };
    let bytes = length_of(rt, path).saturating_add(length_of(rt, log.as_str()));
    Ok((bytes / PAGE).clamp(LEAST_CACHE, MOST_CACHE) as usize)
}

/// How the database file at a path is read and written, with a random number for its log.
fn options(rt: &HostRuntime, path: &str) -> Result<Options, KeepFault> {
    let Ok(random) = RandomState::new(rt) else {
        return Err(KeepFault::Disk);
    };
    Ok(Options {
        cache_pages: cache_pages(rt, path)?,
        spill_pages: WRITTEN_PAGES,
        checkpoint_frames: LOG_PAGES,
        ..Options::new(random.hash_one(&0u8))
    })
}

/// The connection to the database of a file, `None` while another process holds it, or why there is no connection. A path that SQLite does
/// not take for the name of a file is refused.
fn connect_once(rt: &HostRuntime, path: &str) -> Result<Option<Connection<Store>>, KeepFault> {
    if path == ":memory:" || path.starts_with("file:") {
        return Err(KeepFault::Disk);
    }
    let options = options(rt, path)?;
    let files = match sqlite_std_file::open(rt, path, Wary) {
        Ok(files) => files,
        Err(OpenError::Busy) => return Ok(None),
        Err(OpenError::OutOfMemory) => return Err(KeepFault::OutOfMemory),
        Err(OpenError::Io(error)) if error.kind() == ErrorKind::OutOfMemory => {
            return Err(KeepFault::OutOfMemory);
        }
        Err(_) => return Err(KeepFault::Disk),
    };
    match Connection::open_files(rt.alloc(), files, options) {
        Ok(connection) => Ok(Some(connection)),
        Err((error, _)) => Err(fault_of(error)),
    }
}

/// The connection to the database of a file. If another process holds the file, it waits for up to 10 seconds.
pub fn connect(rt: &HostRuntime, path: &str) -> Result<Connection<Store>, KeepFault> {
    for _ in 0..TRIES {
        if let Some(connection) = connect_once(rt, path)? {
            return Ok(connection);
        }
        thread::sleep(rt, Duration::from_millis(BETWEEN_TRIES));
    }
    match connect_once(rt, path)? {
        Some(connection) => Ok(connection),
        None => Err(KeepFault::Disk),
    }
}

/// Copies the log into the database file, unless that fails, and closes both.
pub fn disconnect<D: Disk + Drop>(connection: Connection<FileStore<D>>) {
    let _ = connection.close();
}
