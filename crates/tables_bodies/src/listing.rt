//! What a file lists whose body came.
//!
//! A delivery reads its .changes once more after the check of the delivery: from its bytes if they come at once, else back from its pieces.
//! It has passed that check. So it can only be refused here for want of memory, or by a disk that returns other bytes, which is reported as
//! a failure of the disk.

ghost use Rattle.std.specs.Prelude.{◌≡◌, Ok, IsTrue, IfOk, OnOk, OnErr, option_map};
ghost use Rattle.sqlite.specs.State.{HasCleanDisk, IsUnchanged, KeepsCommit};
ghost use Rattle.sqlite.specs.Held.{state};
ghost use Rattle.records.specs.Records.{changes_in};
ghost use Rattle.tables.specs.Inside.{GoesOn};
ghost use Rattle.tables.specs.Rows.{Tables, Holds};
ghost use Rattle.tables_meaning.specs.Coming.{bytes_so_far};
ghost use Rattle.tables_meaning.specs.Taking.{listed_in};
ghost use Rattle.tables.specs.Calls.{CommitsNothing, Inside, IsSame, KeepsCommitted};

use crate::reading::read_body_inside;
use records::{Changes, RecordFault};
use sqlite::{Alter, Error, ErrorCode, Transaction};
use std::alloc::Global;
use sums::{Entry, is_changes_name};

/// The record that the body of a .changes is. A body that is no record cannot be in an archive, and is refused.
pub fn changes_of(alloc: Global, body: &[u8]) -> Result<Changes, Error>
    ensures { IfOk result (λ c. changes_in body.now ≡ Ok c) }
{
    match Changes::read(alloc, body) {
        Ok(changes) => Ok(changes),
        Err(RecordFault::OutOfMemory) => Err(Error::SqliteFailure(ErrorCode::OutOfMemory)),
        Err(_) => Err(Error::SqliteFailure(ErrorCode::DatabaseCorrupt)),
    }
}

/// The record that a file of these bytes is, if its name is that of a .changes.
pub(crate) fn record_of(alloc: Global, name: &str, bytes: &[u8]) -> Result<Option<Changes>, Error>
    ensures { IfOk result (λ found. option_map (λ c. c.entries) found ≡ listed_in name.now bytes.now) }
{
    if !is_changes_name(name) {
        return Ok(None);
    }
    let changes = changes_of(alloc, bytes)?;
    Ok(Some(changes))
}

/// The bytes of the body of this number, or no bytes if there is no number.
fn bytes_inside<S: Alter>(
    alloc: Global,
    tx: &mut Transaction<'_, S>,
    body: Option<u64>,
) -> Result<Vec<u8>, Error>
    ensures same_reference { IsSame tx.old tx.new }
    ensures ok { HasCleanDisk (state S.Store tx.new.conn.now) → IsTrue (state S.Store tx.old.conn.now).is_open → (t : Tables) → Holds (state S.Store tx.old.conn.now).now t
        → IfOk result (λ bytes. (bytes.items ≡ bytes_so_far t body) × IsUnchanged (state S.Store tx.old.conn.now) (state S.Store tx.new.conn.now)) }
    ensures goes_on { Inside S.Store tx.old tx.new (λ old new. IsTrue old.is_open → OnOk result (GoesOn old new)) }
    ensures kept { KeepsCommitted S.Store tx.old tx.new result }
    ensures survives { CommitsNothing S.Store tx.old tx.new }
{
    match body {
        Some(id) => read_body_inside(alloc, tx, id),
        None => Ok(Vec::new(alloc)),
    }
}

/// The record that a file is, if its name is that of a .changes. Its body is read back from its pieces.
pub(crate) fn record_inside<S: Alter>(
    alloc: Global,
    tx: &mut Transaction<'_, S>,
    name: &str,
    body: Option<u64>,
) -> Result<Option<Changes>, Error>
    ensures same_reference { IsSame tx.old tx.new }
    ensures ok { HasCleanDisk (state S.Store tx.new.conn.now) → IsTrue (state S.Store tx.old.conn.now).is_open → (t : Tables) → Holds (state S.Store tx.old.conn.now).now t
        → IfOk result (λ found. (option_map (λ c. c.entries) found ≡ listed_in name.now (bytes_so_far t body)) × IsUnchanged (state S.Store tx.old.conn.now) (state S.Store tx.new.conn.now)) }
    ensures goes_on { Inside S.Store tx.old tx.new (λ old new. IsTrue old.is_open → OnOk result (GoesOn old new)) }
    ensures kept { Inside S.Store tx.old tx.new (λ old new. IsTrue old.is_open → OnErr result (KeepsCommit old new)) }
    ensures survives { CommitsNothing S.Store tx.old tx.new }
{
    if !is_changes_name(name) {
        return Ok(None);
    }
    let bytes = bytes_inside(alloc, tx, body)?;
    record_of(alloc, name, bytes.as_slice())
}

/// The entries of a record.
pub(crate) fn entries_of(found: &Option<Changes>) -> Option<&[Entry]>
    ensures { option_map (λ entries. entries.now) result ≡ option_map (λ c. c.entries) found.now }
{
    match found {
        Some(changes) => Some(changes.entries()),
        None => None,
    }
}
