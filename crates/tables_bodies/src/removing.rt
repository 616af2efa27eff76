//! Takes bodies away that are not whole, with their pieces.
//!
//! Removing a body is a commit, which needs some room. So on a full disk each delivery after the file that did not fit may be refused
//! until there is room (Q4, 507), also a small one and one of what is there already. An opening may be refused too (K2), also for a
//! command that only reads. An archive that is open answers reads as before.
//!
//! A DELETE holds all rows that it takes, and a row holds the bytes of its piece. So a large body goes piece by piece, and one statement
//! takes what is left: with pieces numbered from 1 that is 512 KiB at most. This is about memory alone: whatever numbers the pieces have,
//! the last statement leaves none.

ghost use Rattle.std.specs.Prelude.{◌≡◌, ◌≢◌, [], false, IsTrue, OnOk};
ghost use Rattle.sqlite.specs.State.{Survives};
ghost use Rattle.sqlite.specs.Held.{state};
ghost use Rattle.tables_meaning.specs.Amending.{Makes};
ghost use Rattle.tables_meaning.specs.Finished.{without_all, without_whole};
ghost use Rattle.tables_meaning.specs.Transactions.{IsDone, MayCommit};
ghost use Rattle.tables.specs.Calls.{CommitsNothing, Inside, IsSame, KeepsCommitted, OnCleanDisk, Writes};
ghost use Rattle.tables_meaning.specs.Calls.{Undoes};
ghost use Rattle.tables_bodies.specs.Thinned.{Thins};

use sqlite::{Alter, Connection, Error, Transaction};
use tables::bodies::delete_body;
use tables::pieces::{delete_piece, delete_pieces_of};

/// The first piece that goes by itself. Those before it are 512 KiB at most, and go at once.
const FIRST_BY_ITSELF: u64 = 9;

/// Removes the pieces of a body one by one, from the ninth on, until none has the next number. Each is found by the key of the table.
fn remove_later_pieces<S: Alter>(tx: &mut Transaction<'_, S>, id: u64) -> Result<(), Error>
    ensures same_reference { IsSame tx.old tx.new }
    ensures ok { Inside S.Store tx.old tx.new (λ old new. OnOk result (Thins id old new)) }
    ensures err { KeepsCommitted S.Store tx.old tx.new result }
    ensures survives { CommitsNothing S.Store tx.old tx.new }
{
    for number in FIRST_BY_ITSELF..u64::MAX {
        let taken = delete_piece(tx, id, number)?;
        if !taken {
            return Ok(());
        }
    }
    Ok(())
}

/// Removes a body and its pieces.
pub(crate) fn remove_body<S: Alter>(tx: &mut Transaction<'_, S>, id: u64) -> Result<(), Error>
    ensures same_reference { IsSame tx.old tx.new }
    ensures ok { Writes S.Store tx.old tx.new result (without_whole id) }
    ensures err { KeepsCommitted S.Store tx.old tx.new result }
    ensures survives { CommitsNothing S.Store tx.old tx.new }
{
    remove_later_pieces(tx, id)?;
    delete_pieces_of(tx, id)?;
    delete_body(tx, id)
}

/// Removes the bodies of these numbers and their pieces. If there is any number, it succeeds only on a connection that is
/// open.
pub(crate) fn remove_bodies<S: Alter>(tx: &mut Transaction<'_, S>, ids: &[u64]) -> Result<(), Error>
    ensures same_reference { IsSame tx.old tx.new }
    ensures ok { Inside S.Store tx.old tx.new (λ old new. OnOk result (Makes old new (without_all ids.now))) }
    ensures opened { Inside S.Store tx.old tx.new (λ old new. ids.now ≢ [] → OnOk result (IsTrue old.is_open)) }
    ensures err { KeepsCommitted S.Store tx.old tx.new result }
    ensures survives { CommitsNothing S.Store tx.old tx.new }
{
    for id in ids {
        remove_body(tx, *id)?;
    }
    Ok(())
}

/// Removes the bodies of these numbers and their pieces: all of them or none, also over a crash.
pub fn remove_all<S: Alter>(conn: &mut Connection<S>, ids: &[u64]) -> Result<(), Error>
    requires idle { conn.old.in_transaction ≡ false }
    requires some { ids.now ≢ [] }
    ensures idle { conn.new.in_transaction ≡ false }
    ensures done { OnCleanDisk S.Store conn.old conn.new (λ old new. OnOk result (IsDone old new (without_all ids.now))) }
    ensures undone { Undoes S.Store conn.old conn.new result }
    ensures crash { Survives (state S.Store conn.old) (state S.Store conn.new) (MayCommit (state S.Store conn.old) (without_all ids.now)) }
{
    let mut tx = conn.transaction();
    remove_bodies(&mut tx, ids)?;
    tx.commit()
}
