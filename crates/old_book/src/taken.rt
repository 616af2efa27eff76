//! Whether the keys of today's tables hold of rows.

ghost use Rattle.std.specs.Prelude.{IfOk, IsTrue, OnOk};
ghost use Rattle.sqlite.specs.Held.{state};
ghost use Rattle.sqlite.specs.Steps.{over_memory};
ghost use Rattle.tables.specs.Rows.{Holds, no_rows};
ghost use Rattle.tables_read.specs.All.{AreConstrained, tables_with};
ghost use Rattle.old_book.specs.Copying.{AreRising, copied};

use crate::rows::write_rows;
use sqlite::{Connection, Error, MemStore};
use std::alloc::Global;
use tables::schema::create_tables;
use tables_read::AllRows;

/// A database in memory with these rows, each arrival at moment 0.
fn filled(alloc: Global, all: &AllRows) -> Result<Connection<MemStore>, Error>
    requires rising { AreRising (tables_with all.now) }
    ensures open { IfOk result (λ conn. IsTrue (state over_memory conn).is_open) }
    ensures held { IfOk result (λ conn. Holds (state over_memory conn).now (copied (tables_with all.now) 0 no_rows)) }
{
    let mut conn = Connection::open_in_memory(alloc)?;
    let mut tx = conn.transaction();
    create_tables(&mut tx)?;
    write_rows(&mut tx, all, 0)?;
    tx.commit()?;
    Ok(conn)
}

/// Writes the rows into a database in memory, whose tables take no row that breaks a key.
pub fn are_taken(alloc: Global, all: &AllRows) -> Result<(), Error>
    requires rising { AreRising (tables_with all.now) }
    ensures { OnOk result (AreConstrained (tables_with all.now)) }
{
    let conn = filled(alloc, all)?;
    // For the prover alone: what the keys of the tables keep true holds of each open connection.
    let _ = conn.schema();
    Ok(())
}
