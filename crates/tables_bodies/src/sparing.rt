//! Whether a change may leave bodies that nothing uses.
//!
//! Only the body of a file that leaves the pool can become one that nothing uses, and mostly its arrival is still there. So a change first
//! looks, for each of these files, for an arrival of its body under its name (`needs_sweep`). If each has one and no body is coming,
//! nothing is swept.

ghost use Rattle.std.specs.Prelude.{◌≡◌, false, IsTrue, IfOk};
ghost use Rattle.std.specs.List.{list_any};
ghost use Rattle.sqlite.specs.Held.{state};
ghost use Rattle.sqlite.specs.State.{HasCleanDisk};
ghost use Rattle.tables.specs.Rows.{IsArchive, tables_in};
ghost use Rattle.tables_meaning.specs.Making.{takes_file};
ghost use Rattle.tables_meaning.specs.Transactions.{IsUndone};
ghost use Rattle.tables_bodies.specs.Swept.{has_arrived, has_arrived_under, have_all_arrived, have_arrived, needs_sweep};
ghost use Rattle.tables.specs.Calls.{CommitsNoRows, NeverCommits, OnCleanDisk, Reads};
ghost use Rattle.tables_meaning.specs.Calls.{ReadUndone, ReadsAtRest, WithBook};

use book::Step;
use sqlite::{Alter, Connection, Error};
use std::alloc::Global;
use suites::PoolFile;
use tables::arrivals::arrival_at;
use tables::files::file_at;
use tables::probe::probe;
use texts::file_name;

/// Whether a step takes a file of the pool away.
fn takes_file(step: &Step) -> bool
    ensures { result ≡ takes_file step.now }
{
    !step.plan.files_removed.as_slice().is_empty()
}

/// Whether some of the steps takes a file of the pool away.
pub fn some_take_files(steps: &[Step]) -> bool
    ensures { result ≡ list_any takes_file steps.now }
{
    for step in steps {
        if takes_file(step) {
            return true;
        }
    }
    false
}

/// Whether a body has arrived under the name at the end of a path.
fn has_arrived_under<S: Alter>(
    alloc: Global,
    conn: &mut Connection<S>,
    path: &str,
    body: u64,
) -> Result<bool, Error>
    ensures idle { conn.old.in_transaction ≡ false → conn.new.in_transaction ≡ false }
    ensures ok { Reads S.Store conn.old conn.new result (λ t arrived. arrived ≡ has_arrived_under t path.now body) }
    ensures err { ReadUndone S.Store conn.old conn.new result }
    ensures survives { CommitsNoRows S.Store conn.old conn.new }
{
    let name = file_name(path);
    let found = arrival_at(alloc, conn, name, body)?;
    Ok(found.is_some())
}

/// Whether the body of the file at a path has arrived under the file's name. True if there is no such file.
fn has_arrived<S: Alter>(alloc: Global, conn: &mut Connection<S>, path: &str) -> Result<bool, Error>
    ensures idle { conn.old.in_transaction ≡ false → conn.new.in_transaction ≡ false }
    ensures ok { Reads S.Store conn.old conn.new result (λ t arrived. arrived ≡ has_arrived t path.now) }
    ensures err { ReadUndone S.Store conn.old conn.new result }
    ensures survives { CommitsNoRows S.Store conn.old conn.new }
{
    let Some(file) = file_at(alloc, conn, path)? else {
        return Ok(true);
    };
    has_arrived_under(alloc, conn, path, file.body)
}

/// Whether the body of each of these files has arrived under the file's name. Files that are not there are passed over.
fn have_arrived<S: Alter>(
    alloc: Global,
    conn: &mut Connection<S>,
    files: &[PoolFile],
) -> Result<bool, Error>
    ensures idle { conn.old.in_transaction ≡ false → conn.new.in_transaction ≡ false }
    ensures ok { ReadsAtRest S.Store conn.old conn.new result (λ t arrived. arrived ≡ have_arrived t files.now) }
    ensures err { ReadUndone S.Store conn.old conn.new result }
    ensures survives { CommitsNoRows S.Store conn.old conn.new }
{
    for file in files {
        let arrived = has_arrived(alloc, conn, file.path.as_str())?;
        if !arrived {
            return Ok(false);
        }
    }
    Ok(true)
}

/// Whether the body of each file that these steps take away has arrived under the file's name. Files that are not there
/// are passed over.
fn have_all_arrived<S: Alter>(
    alloc: Global,
    conn: &mut Connection<S>,
    steps: &[Step],
) -> Result<bool, Error>
    ensures idle { conn.old.in_transaction ≡ false → conn.new.in_transaction ≡ false }
    ensures ok { ReadsAtRest S.Store conn.old conn.new result (λ t arrived. arrived ≡ have_all_arrived t steps.now) }
    ensures err { ReadUndone S.Store conn.old conn.new result }
    ensures survives { CommitsNoRows S.Store conn.old conn.new }
{
    for step in steps {
        let arrived = have_arrived(alloc, conn, step.plan.files_removed.as_slice())?;
        if !arrived {
            return Ok(false);
        }
    }
    Ok(true)
}

/// Whether the body of each file that these steps take away has arrived under the file's name. The database is asked
/// first whether it serves.
fn look<S: Alter>(alloc: Global, conn: &mut Connection<S>, steps: &[Step]) -> Result<bool, Error>
    requires idle { conn.old.in_transaction ≡ false }
    requires archive { HasCleanDisk (state S.Store conn.old) → IsTrue (state S.Store conn.old).is_open → ∥ IsArchive (state S.Store conn.old).committed ∥₁ }
    ensures idle { conn.new.in_transaction ≡ false }
    ensures unchanged { OnCleanDisk S.Store conn.old conn.new (λ old new. IsUndone old new) }
    ensures arrived { OnCleanDisk S.Store conn.old conn.new (λ old new. WithBook old.committed (λ config judged shown dates. IfOk result (λ arrived. arrived ≡ have_all_arrived (tables_in old.committed) steps.now))) }
    ensures survives { NeverCommits S.Store conn.old conn.new }
{
    // For the prover alone: outside a transaction the connection has what is committed.
    let _settled = conn.is_autocommit();
    probe(alloc, conn)?;
    have_all_arrived(alloc, conn, steps)
}

/// Whether bodies that nothing uses may be there after these steps. They are not if the steps take no file away. Nor are they if no
/// body is coming, as `whole` says, and the body of each file that the steps take away has arrived under the file's name. The
/// arrivals are looked up only if they decide.
pub fn needs_sweep<S: Alter>(
    alloc: Global,
    conn: &mut Connection<S>,
    whole: bool,
    steps: &[Step],
) -> Result<bool, Error>
    requires idle { conn.old.in_transaction ≡ false }
    requires archive { HasCleanDisk (state S.Store conn.old) → IsTrue (state S.Store conn.old).is_open → ∥ IsArchive (state S.Store conn.old).committed ∥₁ }
    ensures idle { conn.new.in_transaction ≡ false }
    ensures unchanged { OnCleanDisk S.Store conn.old conn.new (λ old new. IsUndone old new) }
    ensures sweeps { OnCleanDisk S.Store conn.old conn.new (λ old new. WithBook old.committed (λ config judged shown dates. IfOk result (λ sweeps. sweeps ≡ needs_sweep (tables_in old.committed) whole steps.now))) }
    ensures survives { NeverCommits S.Store conn.old conn.new }
{
    let takes = some_take_files(steps);
    if !takes {
        return Ok(false);
    }
    if !whole {
        return Ok(true);
    }
    let arrived = look(alloc, conn, steps)?;
    Ok(!arrived)
}
