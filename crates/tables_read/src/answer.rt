//! The rows that a query gives, typed as they come.

ghost use Rattle.std.specs.Prelude.{◌≡◌, ◌<◌, ◌^◌, ◌⊎◌, ℕ, false};
ghost use Rattle.std.specs.Prelude.{IsTrue, IfErr, IfOk, IfSome, None, MatchOption};
ghost use Rattle.sqlite.specs.declared.error.Error.TheVariants.{SqliteFailure};
ghost use Rattle.sqlite.specs.declared.error.ErrorCode.TheVariants.{OutOfMemory};
ghost use Rattle.sqlite.specs.Held.{state};
ghost use Rattle.tables_read.specs.Reading.{AsksForRows, Spells, Tells};
ghost use Rattle.tables_read.specs.Layout.{AreRead, HasAnswer, IsNotRead, IsShort};
ghost use Rattle.tables_read.specs.Streams.{Adds, Steps};

use crate::cells::{Cell, Id};
use crate::stored::Stored;
use sqlite::{Alter, Connection, Error, ErrorCode, Row, Rows};
use std::alloc::Global;

/// A row with its rowid, if both are of an archive.
pub fn numbered<T: Stored>(row: &Row) -> Result<Option<(u64, T)>, Error>
    ensures some { IfOk result (λ o. IfSome o (λ x.
        (x.0 < 2 ^ 64) × Spells T.layout.seen row.now x)) }
    ensures none { IfOk result (λ o. o ≡ None
        → (x : ℕ × T) → T.is_real x.1 → ¬ Spells T.layout.seen row.now x) }
    ensures cause { IfErr result (λ e. (e ≡ SqliteFailure OutOfMemory) ⊎ IsShort T.layout row.now) }
{
    let Some(id) = Id::from_cell(row, 0)? else {
        return Ok(None);
    };
    match T::from_row(row)? {
        Some(typed) => Ok(Some((id.number, typed))),
        None => Ok(None),
    }
}

/// Adds a row with its rowid after those before it. Answers false if the row is not of an archive.
fn take_row<T: Stored>(row: &Row, all: &mut Vec<(u64, T)>) -> Result<bool, Error>
    ensures yes { IfOk result (λ taken. IsTrue taken → Adds T.layout row.now all.old.items all.new.items) }
    ensures no { IfOk result (λ taken. taken ≡ false
        → (x : ℕ × T) → T.is_real x.1 → ¬ Spells T.layout.seen row.now x) }
    ensures cause { IfErr result (λ e. (e ≡ SqliteFailure OutOfMemory) ⊎ IsShort T.layout row.now) }
{
    match numbered(row)? {
        Some(one) => {
            all.push(one)?;
            Ok(true)
        }
        None => Ok(false),
    }
}

/// Adds the next row of an answer after those before it, as `take_row` does. There is no next row after the last.
fn take_next<S: Alter, T: Stored>(
    rows: &mut Rows<'_, S>,
    all: &mut Vec<(u64, T)>,
) -> Result<Option<bool>, Error>
    ensures same_reference { rows.new.conn.ghost_name ≡ rows.old.conn.ghost_name }
    ensures steps { Steps S.Store T.layout T.is_real rows.old.conn.now rows.new.conn.now all.old.items all.new.items result }
{
    rows.advance()?;
    let Some(row) = rows.get() else {
        return Ok(None);
    };
    let taken = take_row(row, all)?;
    Ok(Some(taken))
}

/// The rows that a text asks for, if all are of an archive.
pub(crate) fn answer<S: Alter, T: Stored>(
    alloc: Global,
    conn: &mut Connection<S>,
    sql: &str,
) -> Result<Option<Vec<(u64, T)>>, Error>
    requires { AsksForRows T.layout.tree T.layout.columns sql.now }
    ensures { Tells (state S.Store conn.old) (state S.Store conn.new) result (λ o. MatchOption o
        (HasAnswer T.layout (state S.Store conn.old) (state S.Store conn.new) (IsNotRead T.layout T.is_real))
        (λ all. HasAnswer T.layout (state S.Store conn.old) (state S.Store conn.new) (λ raw.
        AreRead T.layout raw all.items))) }
{
    let mut all = Vec::new(alloc);
    let mut rows = conn.query(sql, &[])?;
    'rows: for _ in 0..u64::MAX {
        let Some(taken) = take_next::<S, T>(&mut rows, &mut all)? else {
            return Ok(Some(all));
        };
        if !taken {
            return Ok(None);
        }
    }
    // No memory holds as many rows as this loop counts.
    Err(Error::SqliteFailure(ErrorCode::OutOfMemory))
}
