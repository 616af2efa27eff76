//! Another configuration of an archive, over the connection alone.

ghost use Rattle.std.specs.Prelude.{◌≡◌, ◌≤◌, All, length, false, OnOk};
ghost use Rattle.book.specs.Book.{latest};
ghost use Rattle.tables_meaning.specs.Calls.{CommitsOnly, StaysComing, StaysOpen, Undoes, WithBook};
ghost use Rattle.keep_tables.specs.ConnectionCalls.{Configures, HasConfiguration, OnCommitted};

use rules::Config;
use sqlite::{Alter, Connection, Error};
use std::alloc::Global;
use suites::Shelves;
use tables_changes::configure;

/// Gives the archive of a database another configuration, with what its suites show and their dates, whole or not at all, also
/// over a crash.
pub(crate) fn take_configuration<S: Alter>(
    alloc: Global,
    conn: &mut Connection<S>,
    config: &Config,
    shelves: &Shelves,
    dates: &[u64],
) -> Result<(), Error>
    requires idle { conn.old.in_transaction ≡ false }
    requires dated { length dates.now ≡ length config.now.suites }
    requires in_range { All (λ date. date ≤ latest) dates.now }
    ensures idle { conn.new.in_transaction ≡ false }
    ensures open { StaysOpen S.Store conn.old conn.new result }
    ensures done { OnCommitted S.Store conn.old conn.new (Configures result config.now shelves.now dates.now) }
    // What is coming stays.
    ensures beside { OnCommitted S.Store conn.old conn.new (λ old new. WithBook old (λ prior judged shown was. OnOk result (StaysComing old new))) }
    ensures undone { Undoes S.Store conn.old conn.new result }
    ensures crash { CommitsOnly S.Store conn.old conn.new (λ old db. HasConfiguration config.now shelves.now dates.now old.committed db) }
{
    // For the prover alone: the configuration is what its text spells; outside a transaction the connection has what is committed.
    let _ = config.text();
    let _idle = conn.is_autocommit();
    configure(alloc, conn, config, shelves, dates)
}
