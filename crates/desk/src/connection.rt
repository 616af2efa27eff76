//! Many connections, one after the other.
//!
//! Faithfulness means that no two bodies have one print. It is required only of the calls that reached the archive, which are fewer
//! than all that were asked for.
ghost use Rattle.std.specs.Prelude.{◌≡◌};
ghost use Rattle.desk.specs.Connections.{AreServed, IsServed, visit, visits};
ghost use Rattle.queue.specs.Steps.{Lasts};

use crate::exchange::{DeskFault, Served};
use crate::routes::Desk;
use book::Keeper;
use queue::Archive;
use std::alloc::Global;
use std::io::{Read, Write};

/// A connection: what comes in, what goes out, the moment at which it is served, in seconds since 1970-01-01 00:00:00 UTC, and
/// how it ended, once it was served.
#[derive(Drop)]
pub struct Connection<R, W> {
    pub reader: R,
    pub writer: W,
    pub moment: u64,
    pub end: Option<Result<Served, DeskFault>>,
}

impl<R: Read, W: Write> Connection<R, W> {
    /// Answers the connection.
    pub fn serve<K: Keeper>(&mut self, alloc: Global, desk: &Desk, archive: &mut Archive<K>)
        ensures lasts { Lasts K.Keeper archive.old.keeper archive.new.keeper }
        ensures moment { self.new.moment ≡ self.old.moment }
        ensures served { IsServed K.Keeper (visit desk.now.rules R.remaining W.contents self.old self.new)
            archive.old.keeper archive.new.keeper }
    {
        self.end = Some(desk.answer(
            alloc,
            archive,
            &mut self.reader,
            &mut self.writer,
            self.moment,
        ));
    }
}

/// Answers connections, one after the other.
pub fn attend<K: Keeper, R: Read, W: Write>(
    alloc: Global,
    desk: &Desk,
    archive: &mut Archive<K>,
    connections: &mut [Connection<R, W>],
)
    ensures lasts { Lasts K.Keeper archive.old.keeper archive.new.keeper }
    ensures served { AreServed K.Keeper archive.old.keeper archive.new.keeper
        (visits desk.now.rules R.remaining W.contents connections.old connections.new) }
{
    for connection in connections.iter_mut() {
        connection.serve(alloc, desk, archive);
    }
}
