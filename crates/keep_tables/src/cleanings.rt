//! A cleaning, over the connection alone.

ghost use Rattle.std.specs.Prelude.{◌≡◌, ◌≤◌, length, false, IfOk, OnOk};
ghost use Rattle.book.specs.Book.{ended, latest, span};
ghost use Rattle.tables_meaning.specs.Archives.{book_in_database};
ghost use Rattle.tables_meaning.specs.Calls.{CommitsOnly, StaysOpen, Undoes};
ghost use Rattle.keep_tables.specs.ConnectionCalls.{NothingComes, OnCommitted, OverSpan, TurnsTo};

use sqlite::{Alter, Connection, Error};
use std::alloc::Global;
use tables_bodies::clean;

/// Takes away each arrival that does not count at the moment, and the rows of a body that is coming. `seconds` says for how
/// long arrivals count, or nothing if they count for good. Answers how many arrivals were taken away.
pub(crate) fn clean_up<S: Alter>(
    alloc: Global,
    conn: &mut Connection<S>,
    seconds: Option<u64>,
    moment: u64,
) -> Result<u64, Error>
    requires idle { conn.old.in_transaction ≡ false }
    requires in_time { moment ≤ latest }
    ensures idle { conn.new.in_transaction ≡ false }
    ensures open { StaysOpen S.Store conn.old conn.new result }
    ensures done { OnCommitted S.Store conn.old conn.new (λ old new. OverSpan old seconds (λ config judged shown dates. OnOk result (TurnsTo moment old new config judged shown dates × NothingComes new))) }
    ensures count { OnCommitted S.Store conn.old conn.new (λ old new. OverSpan old seconds (λ config judged shown dates. IfOk result (λ count. count ≡ length (ended (span config) moment (book_in_database old config judged shown dates).arrivals)))) }
    ensures undone { Undoes S.Store conn.old conn.new result }
    ensures crash { CommitsOnly S.Store conn.old conn.new (λ old db. OverSpan old.committed seconds (TurnsTo moment old.committed db)) }
{
    // For the prover alone: outside a transaction the connection has what is committed.
    let _idle = conn.is_autocommit();
    clean(alloc, conn, seconds, moment)
}
