//! The keeper over the tables of a database file.
//!
//! Three failures shut a keeper: that of a sync, that of a write of the log's header, and that of the write of the one byte after which a
//! commit counts. Only reading the files again shows whether that byte is on the disk. Then each call answers K2, until the archive is
//! opened again. After any other write or read that failed the archive goes on. The store's clauses count failures and do not distinguish
//! them, so this is tested, over files that fail at each call.

ghost use Rattle.std.specs.Prelude.{◌≤◌};

use book::{KeepFault, LATEST};
use file_store::{Store, connect, copied, disconnect};
use in_file::{InFile, OpenFault};
use keep_tables::{InOrder, LAYOUT, TableKeeper, fault_of, layout_of};
use old_book::OldBook;
use rules::Config;
use sqlite::{Alter, Connection, Files, Options};
use sqlite_disk::Disk;
use std::alloc::Global;
use std::cmp::Ordering;

/// The keeper over the tables of a database file.
pub type FileKeeper = TableKeeper<Store>;

/// Opens, makes and closes archives in database files.
#[derive(Clone, Copy)]
pub struct DatabaseFile;

impl InFile<FileKeeper> for DatabaseFile {
    type Old = OldBook;

    fn opened(rt: &HostRuntime, path: &str) -> Result<FileKeeper, OpenFault> {
        opened_over(rt.alloc(), connect(rt, path))
    }

    fn made(
        rt: &HostRuntime,
        path: &str,
        config: Config,
        moment: u64,
    ) -> Result<FileKeeper, KeepFault> {
        made_over(rt.alloc(), connect(rt, path), config, moment)
    }

    fn old(rt: &HostRuntime, path: &str) -> Result<OldBook, KeepFault> {
        old_over(rt.alloc(), copied(rt, path))
    }

    fn are_alike(old: &OldBook, config: &Config) -> bool {
        migrate::are_alike(old.config(), config)
    }

    fn migrated(
        rt: &HostRuntime,
        path: &str,
        old: &OldBook,
        config: Config,
        moment: u64,
    ) -> Result<FileKeeper, KeepFault> {
        migrated_over(rt.alloc(), connect(rt, path), old, config, moment)
    }

    fn closed(keeper: FileKeeper) {
        disconnect(connection_of(keeper));
    }
}

/// The connection of a keeper.
fn connection_of<S: Alter + Drop>(keeper: TableKeeper<S>) -> Connection<S> {
    keeper.into_connection()
}

/// Why no archive is opened from tables that are not those of an archive, and say that they are of this layout. The first layout is 1.
fn fault_of_layout(layout: u64) -> OpenFault {
    match layout.cmp(&LAYOUT) {
        Ordering::Less if layout > 0 => OpenFault::Older(layout),
        Ordering::Less | Ordering::Equal => OpenFault::Keeper(KeepFault::NoArchive),
        Ordering::Greater => OpenFault::Later(layout),
    }
}

/// Why no archive of a database is opened, if the keeper has this fault. If the tables are not those of an archive, their layout is looked
/// up.
fn open_fault<S: Alter>(connection: &mut Connection<S>, fault: KeepFault) -> OpenFault {
    if fault != KeepFault::NoArchive {
        return OpenFault::Keeper(fault);
    }
    match layout_of(connection) {
        Some(layout) => fault_of_layout(layout),
        None => OpenFault::Keeper(fault),
    }
}

/// A keeper of the archive that a database keeps.
fn opened_over<S: InOrder + Drop>(
    alloc: Global,
    connection: Result<Connection<S>, KeepFault>,
) -> Result<TableKeeper<S>, OpenFault> {
    match connection {
        Ok(connection) => match TableKeeper::open(alloc, connection) {
            Ok(keeper) => Ok(keeper),
            Err((mut connection, fault)) => Err(open_fault(&mut connection, fault)),
        },
        Err(fault) => Err(OpenFault::Keeper(fault)),
    }
}

/// A keeper of a new archive of the configuration, made in a database at the moment.
fn made_over<S: Alter + Drop>(
    alloc: Global,
    connection: Result<Connection<S>, KeepFault>,
    config: Config,
    moment: u64,
) -> Result<TableKeeper<S>, KeepFault>
    requires { moment ≤ LATEST }
{
    match connection {
        Ok(connection) => match TableKeeper::create(alloc, connection, config, moment) {
            Ok(keeper) => Ok(keeper),
            Err((_, fault)) => Err(fault),
        },
        Err(fault) => Err(fault),
    }
}

/// The contents of the archive of an older layout in files that were copied.
fn old_over<D: Disk + Drop>(
    alloc: Global,
    files: Result<Files<D>, KeepFault>,
) -> Result<OldBook, KeepFault> {
    let files = files?;
    if !files.may_be_used() {
        return Err(KeepFault::Disk);
    }
    match Connection::open_files(alloc, files, Options::new(0)) {
        Ok(mut connection) => OldBook::read(alloc, &mut connection),
        Err((error, _)) => Err(fault_of(error)),
    }
}

/// A keeper of a new archive of the configuration, made in a database from the contents of an archive of an older layout.
fn migrated_over<S: Alter + Drop>(
    alloc: Global,
    connection: Result<Connection<S>, KeepFault>,
    old: &OldBook,
    config: Config,
    moment: u64,
) -> Result<TableKeeper<S>, KeepFault>
    requires { moment ≤ LATEST }
{
    match connection {
        Ok(connection) => match migrate::migrate(alloc, connection, old, config, moment) {
            Ok(keeper) => Ok(keeper),
            Err((_, fault)) => Err(fault),
        },
        Err(fault) => Err(fault),
    }
}
