//! Whether a database still serves.
//!
//! Each read of the keeper first asks the database for nothing of its own (`SELECT 1`). Each database that serves answers this,
//! whatever it holds. The contracts of the other reads speak only of the tables of an archive.

ghost use Rattle.std.specs.Prelude.{◌≡◌, false, OnOk, OnErr};
ghost use Rattle.sqlite.specs.State.{IsUnchanged};
ghost use Rattle.tables.specs.Rows.{Fails};
ghost use Rattle.tables.specs.Calls.{NeverCommits, OnCleanDisk};

use crate::read::select;
use sqlite::{Alter, Connection, Error};
use std::alloc::Global;

const SELECT_ONE: &str = "SELECT 1";

/// Asks the database for nothing of its own, whatever it holds. A database that a fault has shut refuses.
pub fn probe<S: Alter>(alloc: Global, conn: &mut Connection<S>) -> Result<(), Error>
    ensures idle { conn.old.in_transaction ≡ false → conn.new.in_transaction ≡ false }
    ensures ok { OnCleanDisk S.Store conn.old conn.new (λ old new. OnOk result (IsUnchanged old new)) }
    ensures err { OnCleanDisk S.Store conn.old conn.new (λ old new. OnErr result (Fails old new)) }
    ensures survives { NeverCommits S.Store conn.old conn.new }
{
    let _ones: Vec<u64> = select(alloc, conn, SELECT_ONE, &[])?;
    Ok(())
}
