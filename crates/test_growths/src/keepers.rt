//! The keepers that stories use.

ghost use Rattle.std.specs.Prelude.{◌≤◌};

use book::{KeepFault, LATEST};
use keep::PlainKeeper;
use keep_tables::{InOrder, TableKeeper};
use rules::Config;
use sqlite::{Connection, MemStore};
use std::alloc::{AllocError, Global};
use test_story::Makes;

/// Makes keepers in a place and opens them there, and gives the place back if it can't.
pub trait Places<K>: Makes<K> {
    /// What a keeper is made in.
    type Place: Drop;

    /// A new place.
    fn place(alloc: Global) -> Result<Self::Place, AllocError>;

    /// A keeper of the configuration's archive, made at 0.
    fn create(
        alloc: Global,
        place: Self::Place,
        config: Config,
    ) -> Result<K, (Self::Place, KeepFault)>;

    /// The place of a keeper.
    fn leave(keeper: K) -> Self::Place;

    /// The keeper of the archive that is there.
    fn open(alloc: Global, place: Self::Place) -> Result<K, (Self::Place, KeepFault)>;
}

/// Makes plain keepers.
#[derive(Clone, Copy)]
pub struct Lists;

impl Makes<PlainKeeper> for Lists {
    fn made(alloc: Global, config: Config, moment: u64) -> Result<PlainKeeper, KeepFault>
        requires { moment ≤ LATEST }
    {
        PlainKeeper::new(alloc, config, moment)
    }

    fn reopened(_alloc: Global, keeper: PlainKeeper) -> Result<PlainKeeper, KeepFault> {
        Ok(keeper)
    }
}

impl Places<PlainKeeper> for Lists {
    type Place = Option<PlainKeeper>;

    fn place(_alloc: Global) -> Result<Option<PlainKeeper>, AllocError> {
        Ok(None)
    }

    fn create(
        alloc: Global,
        place: Option<PlainKeeper>,
        config: Config,
    ) -> Result<PlainKeeper, (Option<PlainKeeper>, KeepFault)> {
        match PlainKeeper::new(alloc, config, 0) {
            Ok(keeper) => Ok(keeper),
            Err(fault) => Err((place, fault)),
        }
    }

    fn leave(keeper: PlainKeeper) -> Option<PlainKeeper> {
        Some(keeper)
    }

    fn open(
        _alloc: Global,
        place: Option<PlainKeeper>,
    ) -> Result<PlainKeeper, (Option<PlainKeeper>, KeepFault)> {
        match place {
            Some(keeper) => Ok(keeper),
            None => Err((None, KeepFault::NoArchive)),
        }
    }
}

/// A store of a database in memory. Only what opens it names its type, since each function that does so takes the prover
/// long.
pub trait InMemory: InOrder {
    /// A connection to a new database.
    fn connect(alloc: Global) -> Result<Connection<Self>, AllocError>;
}

impl InMemory for MemStore {
    fn connect(alloc: Global) -> Result<Connection<MemStore>, AllocError> {
        Connection::open_in_memory(alloc)
    }
}

/// A keeper over tables that are made in a place.
fn created<S: InMemory + Drop>(
    alloc: Global,
    place: Connection<S>,
    config: Config,
    moment: u64,
) -> Result<TableKeeper<S>, (Connection<S>, KeepFault)>
    requires { moment ≤ LATEST }
{
    TableKeeper::create(alloc, place, config, moment)
}

/// The keeper over the tables that are there.
fn opened<S: InMemory + Drop>(
    alloc: Global,
    place: Connection<S>,
) -> Result<TableKeeper<S>, (Connection<S>, KeepFault)> {
    TableKeeper::open(alloc, place)
}

/// Makes keepers over tables in memory.
#[derive(Clone, Copy)]
pub struct Tables;

impl<S: InMemory + Drop> Makes<TableKeeper<S>> for Tables {
    fn made(alloc: Global, config: Config, moment: u64) -> Result<TableKeeper<S>, KeepFault>
        requires { moment ≤ LATEST }
    {
        let Ok(connection) = S::connect(alloc) else {
            return Err(KeepFault::OutOfMemory);
        };
        match created(alloc, connection, config, moment) {
            Ok(keeper) => Ok(keeper),
            Err((_, fault)) => Err(fault),
        }
    }

    fn reopened(alloc: Global, keeper: TableKeeper<S>) -> Result<TableKeeper<S>, KeepFault> {
        match opened(alloc, keeper.into_connection()) {
            Ok(keeper) => Ok(keeper),
            Err((_, fault)) => Err(fault),
        }
    }
}

impl<S: InMemory + Drop> Places<TableKeeper<S>> for Tables {
    type Place = Connection<S>;

    fn place(alloc: Global) -> Result<Connection<S>, AllocError> {
        S::connect(alloc)
    }

    fn create(
        alloc: Global,
        place: Connection<S>,
        config: Config,
    ) -> Result<TableKeeper<S>, (Connection<S>, KeepFault)> {
        created(alloc, place, config, 0)
    }

    fn leave(keeper: TableKeeper<S>) -> Connection<S> {
        keeper.into_connection()
    }

    fn open(
        alloc: Global,
        place: Connection<S>,
    ) -> Result<TableKeeper<S>, (Connection<S>, KeepFault)> {
        opened(alloc, place)
    }
}
