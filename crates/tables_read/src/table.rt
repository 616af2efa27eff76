//! The rows of one table.

ghost use Rattle.std.specs.Prelude.{◌≡◌, false, IsTrue, MatchOption};
ghost use Rattle.sqlite.specs.Held.{state};
ghost use Rattle.sqlite.specs.State.{IsLive};
ghost use Rattle.tables_read.specs.Reading.{Tells};
ghost use Rattle.tables_read.specs.Layout.{AreRead, IsNotRead, HasAnswer, IsTable, IsNoTable};

use crate::answer::answer;
use crate::in_order::InOrder;
use crate::stored::Stored;
use sqlite::{Alter, Connection, Error};
use std::alloc::Global;

/// The rows of a table by rowid, if all are of an archive.
fn rows<S: Alter, T: Stored>(
    alloc: Global,
    conn: &mut Connection<S>,
) -> Result<Option<Vec<(u64, T)>>, Error>
    ensures { Tells (state S.Store conn.old) (state S.Store conn.new) result (λ o. MatchOption o
        (HasAnswer T.layout (state S.Store conn.old) (state S.Store conn.new) (IsNotRead T.layout T.is_real))
        (λ all. HasAnswer T.layout (state S.Store conn.old) (state S.Store conn.new) (λ raw.
        AreRead T.layout raw all.items))) }
{
    answer(alloc, conn, T::rows_text())
}

/// An open connection has a sound database. Outside a transaction it is the committed one. For the prover alone: the law is the
/// contract.
fn settled<S: Alter>(conn: &Connection<S>)
    ensures live { IsLive (state S.Store conn.now) }
    ensures settled { conn.now.in_transaction ≡ false → IsTrue (state S.Store conn.now).is_open → (state S.Store conn.now).now ≡ (state S.Store conn.now).committed }
{
    let _schema = conn.schema();
    let _is_autocommit = conn.is_autocommit();
}

/// All rows of a table, if they are those of an archive. They are stored in the order of their rowids.
pub(crate) fn table<S: InOrder, T: Stored>(
    alloc: Global,
    conn: &mut Connection<S>,
) -> Result<Option<Vec<(u64, T)>>, Error>
    requires idle { conn.old.in_transaction ≡ false }
    ensures { Tells (state S.Store conn.old) (state S.Store conn.new) result (λ o. MatchOption o
        (IsNoTable T.layout T.is_real (state S.Store conn.old).now)
        (λ all. IsTable T.layout (state S.Store conn.old).now all.items)) }
{
    settled(conn);
    rows::<S, T>(alloc, conn)
}
