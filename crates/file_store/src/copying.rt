//! A copy in memory of a database file and the log beside it. Both are only read: nothing is written to them or made beside them, so this
//! process need not be allowed to write them.
//!
//! While the older file is copied, SQLite's lock of readers keeps out whoever writes it.

use crate::connecting::{BETWEEN_TRIES, TRIES};
use book::KeepFault;
use os::RangeLock;
use sqlite::Files;
use sqlite_disk::{Disk, Memory};
use std::alloc::Global;
use std::fs::{self, File};
use std::io::{self, ErrorKind, Read};
use std::os::fd::AsRawFd;
use std::os::unix::fs::MetadataExt;
use std::thread;
use std::time::Duration;

/// The offset of the bytes of a database file that SQLite and this program lock.
const FIRST_LOCKED: u64 = 1 << 30;

/// The number of these bytes.
const LOCKED: u64 = 512;

/// Locks a file against whoever writes to it, until it is closed. It says whether the file is locked: it is not while another process holds
/// it.
fn is_locked(file: &File) -> io::Result<bool> {
    let shared = RangeLock::Shared;
    if os::try_lock_range(file.as_raw_fd(), shared, FIRST_LOCKED, LOCKED) == 0 {
        return Ok(true);
    }
    let error = io::Error::from_raw_os_error(os::errno());
    if error.kind() == ErrorKind::WouldBlock {
        return Ok(false);
    }
    Err(error)
}

/// Locks a file. If another process holds the file, it waits for up to 10 seconds.
fn lock(rt: &HostRuntime, file: &File) -> io::Result<()> {
    for _ in 0..TRIES {
        if is_locked(file)? {
            return Ok(());
        }
        thread::sleep(rt, Duration::from_millis(BETWEEN_TRIES));
    }
    Err(ErrorKind::WouldBlock.into())
}

/// A regular file with one name, open to be read. If a file had two names its log might lie beside the other.
fn opened(rt: &HostRuntime, path: &str) -> io::Result<File> {
    let named = fs::symlink_metadata(rt, path)?;
    if !named.is_file() || named.nlink() != 1 {
        return Err(ErrorKind::Unsupported.into());
    }
    File::open(rt, path)
}

/// The bytes of a file beside a database whose name has this ending. There are none if the file is not there.
fn beside(rt: &HostRuntime, path: &str, end: &str) -> io::Result<Vec<u8>> {
    let name = format!(in rt.alloc(); "{path}{end}")?;
    match opened(rt, name.as_str()) {
        Ok(mut file) => bytes_of(rt.alloc(), &mut file),
        Err(error) if error.kind() == ErrorKind::NotFound => Ok(Vec::new(rt.alloc())),
        Err(error) => Err(error),
    }
}

/// The bytes of a file that is open.
fn bytes_of(alloc: Global, file: &mut File) -> io::Result<Vec<u8>> {
    let mut bytes = Vec::new(alloc);
    file.read_to_end(&mut bytes)?;
    Ok(bytes)
}

/// A file in memory with these bytes.
fn file_of(alloc: Global, bytes: &[u8]) -> io::Result<Memory> {
    let mut file = Memory::new(alloc);
    file.write_at(0, bytes)?;
    Ok(file)
}

/// Whether SQLite left a journal beside a database, after a change that was cut short.
fn has_journal(rt: &HostRuntime, path: &str) -> io::Result<bool> {
    Ok(!matches!(beside(rt, path, "-journal")?.first(), None | Some(0)))
}

/// The files of a database in memory; `file` is its open file. A journal that SQLite left can be read by SQLite alone.
fn files_beside(rt: &HostRuntime, path: &str, file: &mut File) -> io::Result<Files<Memory>> {
    if has_journal(rt, path)? {
        return Err(ErrorKind::Unsupported.into());
    }
    let log = beside(rt, path, "-wal")?;
    let bytes = bytes_of(rt.alloc(), file)?;
    Ok(Files {
        log: file_of(rt.alloc(), &log)?,
        db: file_of(rt.alloc(), &bytes)?,
    })
}

/// The files of a database in memory.
fn files_of(rt: &HostRuntime, path: &str) -> io::Result<Files<Memory>> {
    let real = fs::canonicalize(rt, path)?;
    let mut file = opened(rt, real.as_str())?;
    lock(rt, &file)?;
    files_beside(rt, real.as_str(), &mut file)
}

/// The files of a database in memory, with the contents of the file at the path and of the log beside it. A path that SQLite does not take for
/// the name of a file is refused.
pub fn copied(rt: &HostRuntime, path: &str) -> Result<Files<Memory>, KeepFault> {
    if path == ":memory:" || path.starts_with("file:") {
        return Err(KeepFault::Disk);
    }
    match files_of(rt, path) {
        Ok(files) => Ok(files),
        Err(error) if error.kind() == ErrorKind::OutOfMemory => Err(KeepFault::OutOfMemory),
        Err(_) => Err(KeepFault::Disk),
    }
}
