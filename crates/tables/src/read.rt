//! Rows of an answer as typed rows.

ghost use Rattle.std.specs.Prelude.{◌≡◌, List, map, slice_get, false, IfOk, OnErr};
ghost use Rattle.sqlite.specs.declared.types.Value.{Value as SqlValue};
ghost use Rattle.sqlite.specs.Order.{column, bytes};
ghost use Rattle.sqlite.specs.State.{HasCleanDisk, Survives};
ghost use Rattle.sqlite.specs.Values.{bound};
ghost use Rattle.sqlite.specs.Held.{state};
ghost use Rattle.tables.specs.Rows.{id_of, nat_of, Fails};
ghost use Rattle.tables.specs.Reading.{IsPlainIn, IsRead, IsReadFirst};
ghost use Rattle.tables.specs.Calls.{CommitsNothing, GoesOnInside, IsSame, KeepsCommitted, OnCleanDisk};

use crate::cells::row_number;
use para::{Listed, Text};
use sqlite::types::ValueRef;
use sqlite::{Alter, Connection, Error, Row, Transaction};
use std::alloc::Global;

/// A typed row that a row of an answer spells. The rowid is in the first column, and what `of_row` reads is in the
/// columns after it.
pub(crate) trait FromRow: Sized + Drop {
    ghost of_row: { List SqlValue → Self };

    fn from_row(row: &Row) -> Result<Self, Error>
        ensures { IfOk result (λ x. x ≡ of_row row.now) };
}

/// The text in a column.
pub(crate) fn text_at(row: &Row, at: usize) -> Result<Text, Error>
    ensures { IfOk result (λ text. text ≡ bytes (column row.now at)) }
{
    Ok(Text::from_string(row.get(at)?))
}

/// The bytes in a column.
pub(crate) fn bytes_at(row: &Row, at: usize) -> Result<Listed<u8>, Error>
    ensures { IfOk result (λ all. all ≡ bytes (column row.now at)) }
{
    Ok(Listed::from_vec(row.get(at)?))
}

/// The number in a column.
pub(crate) fn whole_at(row: &Row, at: usize) -> Result<u64, Error>
    ensures { IfOk result (λ n. n ≡ nat_of (column row.now at)) }
{
    row.get(at)
}

/// The number of a row in a column, by its id.
pub(crate) fn id_at(row: &Row, at: usize) -> Result<u64, Error>
    ensures { IfOk result (λ n. n ≡ id_of (column row.now at)) }
{
    let id: i64 = row.get(at)?;
    Ok(row_number(id))
}

/// A row with its rowid.
impl<T: FromRow> FromRow for (u64, T) {
    ghost use Rattle.tables.specs.Rows.{row_of};

    ghost of_row = { row_of T.FromRow.of_row };

    fn from_row(row: &Row) -> Result<(u64, T), Error> {
        Ok((id_at(row, 0)?, T::from_row(row)?))
    }
}

/// The rows of an answer as typed rows.
pub(crate) fn typed<T: FromRow>(alloc: Global, rows: &[Row]) -> Result<Vec<T>, Error>
    ensures { IfOk result (λ all. all.items ≡ map T.FromRow.of_row rows.now) }
{
    let mut all = Vec::new(alloc);
    for row in rows {
        all.push(T::from_row(row)?)?;
    }
    Ok(all)
}

/// What a query answers outside a transaction.
pub(crate) fn select<S: Alter, T: FromRow>(
    alloc: Global,
    conn: &mut Connection<S>,
    sql: &str,
    params: &[ValueRef<'_>],
) -> Result<Vec<T>, Error>
    ensures idle { conn.old.in_transaction ≡ false → conn.new.in_transaction ≡ false }
    ensures ok { OnCleanDisk S.Store conn.old conn.new (λ old new. IsPlainIn old sql.now → IfOk result (λ all. IsRead T.FromRow.of_row sql.now (bound params.now) old new all.items)) }
    ensures err { OnCleanDisk S.Store conn.old conn.new (λ old new. IsPlainIn old sql.now → OnErr result (Fails old new)) }
    ensures survives { Survives (state S.Store conn.old) (state S.Store conn.new) (λ _. ¬ IsPlainIn (state S.Store conn.old) sql.now) }
{
    let rows = conn.query_all(sql, params)?;
    typed(alloc, &rows)
}

/// What a query answers inside a transaction.
pub(crate) fn select_inside<S: Alter, T: FromRow>(
    alloc: Global,
    tx: &mut Transaction<'_, S>,
    sql: &str,
    params: &[ValueRef<'_>],
) -> Result<Vec<T>, Error>
    ensures same_reference { IsSame tx.old tx.new }
    ensures ok { HasCleanDisk (state S.Store tx.new.conn.now) → IsPlainIn (state S.Store tx.old.conn.now) sql.now
        → IfOk result (λ all. IsRead T.FromRow.of_row sql.now (bound params.now) (state S.Store tx.old.conn.now) (state S.Store tx.new.conn.now) all.items) }
    ensures err { HasCleanDisk (state S.Store tx.new.conn.now) → IsPlainIn (state S.Store tx.old.conn.now) sql.now
        → OnErr result (Fails (state S.Store tx.old.conn.now) (state S.Store tx.new.conn.now)) }
    ensures goes_on { GoesOnInside S.Store tx.old tx.new result }
    ensures kept { KeepsCommitted S.Store tx.old tx.new result }
    ensures survives { CommitsNothing S.Store tx.old tx.new }
{
    let rows = tx.query_all(sql, params)?;
    typed(alloc, &rows)
}

/// The first of these.
fn first<T: Drop>(all: Vec<T>) -> Option<T>
    ensures { result ≡ slice_get all.items 0 }
{
    all.into_iter().next()
}

/// The first row that a query answers outside a transaction.
pub(crate) fn select_first<S: Alter, T: FromRow>(
    alloc: Global,
    conn: &mut Connection<S>,
    sql: &str,
    params: &[ValueRef<'_>],
) -> Result<Option<T>, Error>
    ensures idle { conn.old.in_transaction ≡ false → conn.new.in_transaction ≡ false }
    ensures ok { OnCleanDisk S.Store conn.old conn.new (λ old new. IsPlainIn old sql.now → IfOk result (IsReadFirst T.FromRow.of_row sql.now (bound params.now) old new)) }
    ensures err { OnCleanDisk S.Store conn.old conn.new (λ old new. IsPlainIn old sql.now → OnErr result (Fails old new)) }
    ensures survives { Survives (state S.Store conn.old) (state S.Store conn.new) (λ _. ¬ IsPlainIn (state S.Store conn.old) sql.now) }
{
    Ok(first(select(alloc, conn, sql, params)?))
}

/// The first row that a query answers inside a transaction.
pub(crate) fn select_first_inside<S: Alter, T: FromRow>(
    alloc: Global,
    tx: &mut Transaction<'_, S>,
    sql: &str,
    params: &[ValueRef<'_>],
) -> Result<Option<T>, Error>
    ensures same_reference { IsSame tx.old tx.new }
    ensures ok { HasCleanDisk (state S.Store tx.new.conn.now) → IsPlainIn (state S.Store tx.old.conn.now) sql.now
        → IfOk result (IsReadFirst T.FromRow.of_row sql.now (bound params.now) (state S.Store tx.old.conn.now) (state S.Store tx.new.conn.now)) }
    ensures err { HasCleanDisk (state S.Store tx.new.conn.now) → IsPlainIn (state S.Store tx.old.conn.now) sql.now
        → OnErr result (Fails (state S.Store tx.old.conn.now) (state S.Store tx.new.conn.now)) }
    ensures goes_on { GoesOnInside S.Store tx.old tx.new result }
    ensures kept { KeepsCommitted S.Store tx.old tx.new result }
    ensures survives { CommitsNothing S.Store tx.old tx.new }
{
    Ok(first(select_inside(alloc, tx, sql, params)?))
}
