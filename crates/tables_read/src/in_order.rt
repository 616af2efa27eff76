//! Stores that keep what was committed in order.
//!
//! An opening asks of each table for the rows by rowid, once. That a table is also stored in this order is a law of the store (`InOrder`):
//! the trees that it has committed are sound, and the rows of a sound table rise. It is proved of the two stores that the library has, the
//! one of files and the one in memory. So a keeper is opened over a store with this law, and nothing is read to learn the order.

ghost use Rattle.std.specs.Prelude.{IsTrue};
ghost use Rattle.tables_read.specs.InOrder.{IsInOrder};
ghost use Rattle.tables_read.specs.Stores.{file_in_order, memory_in_order};

use sqlite::{Alter, FileStore, MemStore};
use sqlite_disk::Disk;

/// A store that keeps what was committed in order, as the format of database files asks of its b-trees: while it is open, the
/// rows of each table rise by their rowids. Then a reader of all rows need not ask in which order they are stored.
pub trait InOrder: Alter {
    ghost in_order: { (s : Self) → IsTrue (Self.Store.view s).is_open → IsInOrder (Self.Store.view s) };
}

impl<D: Disk> InOrder for FileStore<D> {
    ghost in_order = { file_in_order };
}

impl InOrder for MemStore {
    ghost in_order = { λ s _. memory_in_order s };
}
