//! What a query shows of a database, whatever its schema is.

ghost use Rattle.std.specs.Prelude.{◌≡◌, IfOk, IfSome, IsTrue, MatchOption, None};
ghost use Rattle.std.specs.List.{AllZip};
ghost use Rattle.old_rows.specs.Failing.{is_fault};
ghost use Rattle.old_rows.specs.Shown.{IsNotShown, IsSelectText, IsShown, Says};
ghost use Rattle.sqlite.specs.Held.{state};
ghost use Rattle.tables_read.specs.Layout.{IsNotRead};
ghost use Rattle.tables_read.specs.Reading.{Spells};

use sqlite::{Alter, Connection, Error, ErrorCode, Row};
use std::alloc::Global;
use tables_read::{Stored, numbered};

/// The rows with their rowids, if all are of an archive.
fn all_numbered<T: Stored>(alloc: Global, rows: &[Row]) -> Result<Option<Vec<(u64, T)>>, Error>
    ensures some { IfOk result (λ o. IfSome o (λ all. AllZip (Spells T.layout.seen) rows.now all.items)) }
    ensures none { IfOk result (λ o. o ≡ None → IsNotRead T.layout T.is_real rows.now) }
{
    let mut all = Vec::new(alloc);
    for row in rows {
        match numbered(row)? {
            Some(one) => all.push(one)?,
            None => return Ok(None),
        }
    }
    Ok(Some(all))
}

/// Whether an error is one of memory, of the disk, of a size, or of a limit on steps. Other errors are of the query
/// itself.
fn is_fault_of_store(error: &Error) -> bool
    ensures { result ≡ is_fault error.now }
{
    match error {
        Error::SqliteFailure(code) => matches!(
            code,
            ErrorCode::OutOfMemory
                | ErrorCode::SystemIoFailure
                | ErrorCode::DatabaseCorrupt
                | ErrorCode::DiskFull
                | ErrorCode::Closed
                | ErrorCode::TooBig
                | ErrorCode::OperationInterrupted
        ),
        _ => false,
    }
}

/// The rows that a query shows, if the database understands it and all rows are of an archive.
pub(crate) fn shown_rows<S: Alter, T: Stored>(
    alloc: Global,
    conn: &mut Connection<S>,
    sql: &str,
) -> Result<Option<Vec<(u64, T)>>, Error>
    requires { IsSelectText sql.now }
    ensures { Says (state S.Store conn.old) (state S.Store conn.new) result (λ o. MatchOption o
        (IsNotShown T.layout T.is_real sql.now (state S.Store conn.old).now)
        (λ all. IsShown T.layout.seen sql.now (state S.Store conn.old).now all.items)) }
{
    match conn.query_all(sql, &[]) {
        Ok(rows) => all_numbered(alloc, &rows),
        Err(error) if is_fault_of_store(&error) => Err(error),
        Err(_) => Ok(None),
    }
}
