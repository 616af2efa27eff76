//! Work with a database in two files in memory, one of which may stop, fail or be full. Before and after it the files are plain bytes, so
//! that few functions name a disk, and fewer the store of files.

use crate::failing::{Failing, Kind};
use crate::image::Image;
use crate::work::{Answer, Work};
use book::KeepFault;
use keep_tables::fault_of;
use old_book::OldBook;
use sqlite::{Connection, FileStore, Files, Options};
use sqlite_disk::{Crash, Disk, Memory};
use std::alloc::{AllocError, Global};
use test_rows::Unread;
use test_story::Pieces;

/// A disk in memory that may fail.
type Broken = Failing<Memory>;

/// Which of the two files fails.
#[derive(Clone, Copy)]
pub enum Which {
    Log,
    Database,
}

/// Which file fails, how, and how many of its calls are passed on before.
#[derive(Clone, Copy)]
pub struct Plan {
    pub which: Which,
    pub kind: Kind,
    pub calls: u64,
}

/// No file fails: the number of calls before is never reached.
pub const SOUND: Plan = Plan {
    which: Which::Log,
    kind: Kind::Stops,
    calls: u64::MAX,
};

/// The result of work.
#[derive(Drop)]
pub struct Left {
    /// The answer, or the fault if there was no archive or no database.
    pub answer: Result<Pieces, KeepFault>,
    /// The files as they are, and as a crash of the machine leaves them, which loses what was not synced.
    pub stood: Image,
    pub crashed: Image,
    /// Whether a call failed.
    pub has_failed: bool,
    /// Whether a call failed after which only reading the files again shows what was committed: a sync, or a write of the log's header,
    /// or the write of the one byte after which a commit counts.
    pub may_be_shut: bool,
    /// The number of calls that the failing file passed on.
    pub calls: u64,
}

/// The number of frames in the log at which a transaction copies it into the database file.
const CHECKPOINT_FRAMES: usize = 4;

/// The options of a connection: few pages stay in memory, so that a step also reads from the files.
fn options() -> Options {
    Options {
        cache_pages: 4,
        spill_pages: 8,
        checkpoint_frames: CHECKPOINT_FRAMES,
        seed: 1,
    }
}

/// The connection to the contents of files, or the files and why there is no connection.
fn connected<D: Disk + Drop>(
    alloc: Global,
    files: Files<D>,
) -> Result<Connection<FileStore<D>>, (Files<D>, KeepFault)> {
    if !files.may_be_used() {
        return Err((files, KeepFault::Disk));
    }
    match Connection::open_files(alloc, files, options()) {
        Ok(connection) => Ok(connection),
        Err((error, left)) => Err((left.into_files(), fault_of(error))),
    }
}

/// The files of a connection as they are. If it is asked for, the log is copied into the database file, unless that fails.
fn closed<D: Disk + Drop>(connection: Connection<FileStore<D>>, copies_log: bool) -> Files<D> {
    if !copies_log {
        return connection.into_store().close();
    }
    match connection.close_files() {
        Ok(files) => files,
        Err((_error, store)) => store.close(),
    }
}

/// Works with the database in files, and gives them back.
fn worked<D: Disk + Drop>(
    alloc: Global,
    files: Files<D>,
    work: Work<'_>,
    old: &mut Option<OldBook>,
) -> (Files<D>, Answer) {
    match connected(alloc, files) {
        Ok(connection) => {
            let (connection, answer) = work.perform(alloc, connection, old);
            (closed(connection, work.copies_log()), answer)
        }
        Err((files, fault)) => (files, Ok(Err(fault))),
    }
}

/// A disk with these bytes, which passes a number of calls on before it fails.
fn disk_of(alloc: Global, bytes: &[u8], kind: Kind, calls: u64) -> Result<Broken, AllocError> {
    let mut file = Memory::new(alloc);
    if file.write_at(0, bytes).is_err() {
        return Err(AllocError);
    }
    match file.sync() {
        Ok(()) => Ok(Failing {
            inner: file,
            kind,
            calls_left: calls,
            failed: 0,
            refused: 0,
            sync_failed: false,
            turn_failed: false,
        }),
        Err(_) => Err(AllocError),
    }
}

/// Files with the contents of an image, one of which is to fail.
fn files_of(alloc: Global, image: &Image, plan: Plan) -> Result<Files<Broken>, AllocError> {
    let (log, database) = match plan.which {
        Which::Log => (plan.calls, u64::MAX),
        Which::Database => (u64::MAX, plan.calls),
    };
    Ok(Files {
        log: disk_of(alloc, image.log.as_slice(), plan.kind, log)?,
        db: disk_of(alloc, image.database.as_slice(), plan.kind, database)?,
    })
}

/// The contents of files.
fn image_of(alloc: Global, files: &Files<Broken>) -> Result<Image, AllocError> {
    Image::of(alloc, files.log.inner.bytes(), files.db.inner.bytes())
}

/// The result of work with files.
fn left_of(
    alloc: Global,
    files: Files<Broken>,
    which: Which,
    answer: Result<Pieces, KeepFault>,
) -> Result<Left, Unread> {
    let mut files = files;
    let stood = image_of(alloc, &files)?;
    files.log.inner.crash();
    files.db.inner.crash();
    let calls_left = match which {
        Which::Log => files.log.calls_left,
        Which::Database => files.db.calls_left,
    };
    Ok(Left {
        answer,
        stood,
        crashed: image_of(alloc, &files)?,
        has_failed: files.log.failed > 0 || files.db.failed > 0,
        may_be_shut: files.log.sync_failed || files.log.turn_failed || files.db.sync_failed,
        calls: u64::MAX - calls_left,
    })
}

/// Works with the database in files with the contents of an image, one of which is to fail. An archive of an older layout that is read is
/// put into `old`. No other function names the store of these files.
fn done_with(
    alloc: Global,
    image: &Image,
    plan: Plan,
    work: Work<'_>,
    old: &mut Option<OldBook>,
) -> Result<Left, Unread> {
    let (files, answer) = worked::<Broken>(alloc, files_of(alloc, image, plan)?, work, old);
    match answer {
        Ok(answer) => left_of(alloc, files, plan.which, answer),
        Err(unread) => Err(unread),
    }
}

/// Works with the database in files with the contents of an image, one of which is to fail.
pub fn done(alloc: Global, image: &Image, plan: Plan, work: Work<'_>) -> Result<Left, Unread> {
    done_with(alloc, image, plan, work, &mut None)
}

/// Reads the archive of an older layout in files with the contents of an image. There is an archive if the answer is no fault.
pub fn old_of(alloc: Global, image: &Image) -> Result<(Left, Option<OldBook>), Unread> {
    let mut old = None;
    let left = done_with(alloc, image, SOUND, Work::ReadOld, &mut old)?;
    Ok((left, old))
}
