//! A new archive in a database.
//!
//! A new archive is made in a database that holds no object at all, not even a view. So the archive's tables come first in each database
//! that has them, since VACUUM and a dump keep the order of tables. After other tables their places would be unknown, and what each
//! statement means would have to be proved of any places.

ghost use Rattle.std.specs.Prelude.{◌≡◌, ◌≤◌, ◌↔◌, false, IsTrue, OnOk};
ghost use Rattle.sqlite.specs.State.{Survives};
ghost use Rattle.sqlite.specs.Held.{state};
ghost use Rattle.tables.specs.Schema.{no_schema};
ghost use Rattle.tables_meaning.specs.Founding.{IsFounded, MayFound, founded};
ghost use Rattle.tables.specs.Calls.{OnCleanDisk};
ghost use Rattle.tables_meaning.specs.Calls.{Undoes};

use crate::founding::found_inside;
use book::LATEST;
use rules::Config;
use sqlite::{Alter, Connection, Error};
use std::alloc::Global;

/// Whether the database has no table, no index and no view.
pub fn is_without_tables<S: Alter>(conn: &Connection<S>) -> bool
    ensures { IsTrue result ↔ ((state S.Store conn.now).now.schema ≡ no_schema) }
{
    let schema = conn.schema();
    let tables = schema.tables.is_empty();
    let indexes = schema.indexes.is_empty();
    let views = schema.views.is_empty();
    tables && indexes && views
}

/// Makes an archive of the configuration in a database that has no table, at the moment, in seconds since 1970-01-01
/// 00:00:00 UTC. Either all of it is there or nothing, also over a crash.
pub fn create<S: Alter>(
    alloc: Global,
    conn: &mut Connection<S>,
    config: &Config,
    moment: u64,
) -> Result<(), Error>
    requires idle { conn.old.in_transaction ≡ false }
    requires moment { moment ≤ LATEST }
    ensures idle { conn.new.in_transaction ≡ false }
    ensures done { OnCleanDisk S.Store conn.old conn.new (λ old new. OnOk result (IsFounded old new (founded config.now moment))) }
    ensures undone { Undoes S.Store conn.old conn.new result }
    ensures crash { Survives (state S.Store conn.old) (state S.Store conn.new) (MayFound (state S.Store conn.old) (founded config.now moment)) }
{
    let mut tx = conn.transaction();
    found_inside(alloc, &mut tx, config, moment)?;
    tx.commit()
}
