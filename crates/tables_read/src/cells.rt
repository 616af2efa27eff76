//! Values of a row of an answer, if they are of the type that is asked for.

ghost use Rattle.std.specs.Prelude.{◌≡◌, ◌≢◌, ◌⊎◌, ◌≤◌, ◌<◌, ◌+◌, ℕ, pos, List, [], ◌∷◌, length, None, IfErr, IfOk, IfSome, IsUtf8, ⊤};
ghost use Rattle.sqlite.specs.declared.error.Error.TheVariants.{SqliteFailure};
ghost use Rattle.sqlite.specs.declared.error.ErrorCode.TheVariants.{OutOfMemory};
ghost use Rattle.sqlite.specs.declared.types.Value.{Value as SqlValue};
ghost use Rattle.sqlite.specs.declared.types.Value.TheVariants.{Int, Text as SqlText, Blob};
ghost use Rattle.sqlite.specs.Order.{column};
ghost use Rattle.sqlite.specs.Values.{or_null};
ghost use Rattle.tables.specs.Rows.{flag, id_cell, whole};
ghost use Rattle.tables_read.specs.Reading.{Agree};

use para::{Listed, Text};
use sqlite::types::{FromSql, ValueRef};
use sqlite::{Error, Row};
use tables::cells::array;

/// A value of one column.
pub(crate) trait Cell: Sized + Drop {
    ghost cell: { Self → SqlValue };

    // the values that code can hold
    ghost is_real: { Self → Type 0 };

    /// The value in a column, if it is of this type.
    fn from_cell(row: &Row, at: usize) -> Result<Option<Self>, Error>
        ensures some { IfOk result (λ o. IfSome o (λ x. column row.now at ≡ cell x)) }
        ensures none { IfOk result (λ o. o ≡ None → (x : Self) → is_real x → column row.now at ≢ cell x) }
        ensures cause { IfErr result (λ e. (e ≡ SqliteFailure OutOfMemory) ⊎ (length row.now ≤ at)) };
}

/// What a column reads as, if it can be read. An error is one of memory, or of a column that is not there.
fn readable<T: FromSql + Drop>(row: &Row, at: usize) -> Result<Option<T>, Error>
    ensures some { IfOk result (λ o. IfSome o (T.FromSql.reads_as (column row.now at))) }
    ensures none { IfOk result (λ o. o ≡ None → ¬ T.FromSql.is_readable (column row.now at)) }
    ensures cause { IfErr result (λ e. (e ≡ SqliteFailure OutOfMemory) ⊎ (length row.now ≤ at)) }
{
    match row.get(at) {
        Ok(value) => Ok(Some(value)),
        Err(Error::SqliteFailure(code)) => Err(Error::SqliteFailure(code)),
        Err(Error::InvalidColumnIndex(at)) => Err(Error::InvalidColumnIndex(at)),
        Err(_) => Ok(None),
    }
}

impl Cell for u64 {
    ghost cell = { whole };

    ghost is_real = { λ _. ⊤ };

    fn from_cell(row: &Row, at: usize) -> Result<Option<u64>, Error> {
        readable(row, at)
    }
}

/// The number of a row. Any integer is one.
#[derive(Drop)]
pub(crate) struct Id {
    pub(crate) number: u64,
}

/// The number of the row of an id.
fn row_id(id: i64) -> Id
    ensures { id_cell result.number ≡ Int id }
{
    Id {
        number: id.abs_diff(i64::MIN),
    }
}

impl Cell for Id {
    ghost cell = { λ id. id_cell id.number };

    ghost is_real = { λ _. ⊤ };

    fn from_cell(row: &Row, at: usize) -> Result<Option<Id>, Error> {
        match readable::<i64>(row, at)? {
            Some(id) => Ok(Some(row_id(id))),
            None => Ok(None),
        }
    }
}

impl Cell for Option<u64> {
    ghost cell = { or_null whole };

    ghost is_real = { λ _. ⊤ };

    fn from_cell(row: &Row, at: usize) -> Result<Option<Option<u64>>, Error> {
        readable(row, at)
    }
}

/// A flag is stored as 0 or 1.
impl Cell for bool {
    ghost cell = { flag };

    ghost is_real = { λ _. ⊤ };

    fn from_cell(row: &Row, at: usize) -> Result<Option<bool>, Error> {
        match readable::<u64>(row, at)? {
            Some(0) => Ok(Some(false)),
            Some(1) => Ok(Some(true)),
            _ => Ok(None),
        }
    }
}

impl Cell for Text {
    ghost cell = { SqlText };

    ghost is_real = { IsUtf8 };

    fn from_cell(row: &Row, at: usize) -> Result<Option<Text>, Error> {
        match readable(row, at)? {
            Some(text) => Ok(Some(Text::from_string(text))),
            None => Ok(None),
        }
    }
}

impl Cell for Listed<u8> {
    ghost cell = { Blob };

    ghost is_real = { λ _. ⊤ };

    fn from_cell(row: &Row, at: usize) -> Result<Option<Listed<u8>>, Error> {
        match readable(row, at)? {
            Some(bytes) => Ok(Some(Listed::from_vec(bytes))),
            None => Ok(None),
        }
    }
}

impl<const N: usize> Cell for [u8; N] {
    ghost cell = { Blob };

    ghost is_real = { λ d. length d ≡ N };

    fn from_cell(row: &Row, at: usize) -> Result<Option<[u8; N]>, Error> {
        match row.get_ref(at)? {
            ValueRef::Blob(bytes) => Ok(array(bytes)),
            _ => Ok(None),
        }
    }
}

/// An array that may be absent. If it is, NULL is stored.
impl<const N: usize> Cell for Option<[u8; N]> {
    ghost cell = { or_null Blob };

    ghost is_real = { λ o. IfSome o (λ d. length d ≡ N) };

    fn from_cell(row: &Row, at: usize) -> Result<Option<Option<[u8; N]>>, Error> {
        match row.get_ref(at)? {
            ValueRef::Null => Ok(Some(None)),
            ValueRef::Blob(bytes) => match array(bytes) {
                Some(all) => Ok(Some(Some(all))),
                None => Ok(None),
            },
            _ => Ok(None),
        }
    }
}

/// The values of columns one after another, as nested pairs of the first value and the others. The last is `()`.
pub(crate) trait Cells: Sized + Drop {
    ghost cells: { Self → List SqlValue };

    // the number of columns
    ghost width: { ℕ };

    // the values that code can hold
    ghost is_real: { Self → Type 0 };

    /// The values in the columns from this one on, if they are of these types.
    fn from_cells(row: &Row, at: usize) -> Result<Option<Self>, Error>
        ensures some { IfOk result (λ o. IfSome o (λ x. Agree row.now at (cells x))) }
        ensures none { IfOk result (λ o. o ≡ None → (x : Self) → is_real x → ¬ Agree row.now at (cells x)) }
        ensures cause { IfErr result (λ e. (e ≡ SqliteFailure OutOfMemory) ⊎ (length row.now < at + width)) };
}

impl Cells for () {
    ghost cells = { λ _. [] };

    ghost width = { 0 };

    ghost is_real = { λ _. ⊤ };

    fn from_cells(_row: &Row, _at: usize) -> Result<Option<()>, Error> {
        Ok(Some(()))
    }
}

impl<A: Cell, B: Cells> Cells for (A, B) {
    ghost cells = { λ p. A.cell p.0 ∷ B.cells p.1 };

    ghost width = { B.width + 1 };

    ghost is_real = { λ p. A.is_real p.0 × B.is_real p.1 };

    fn from_cells(row: &Row, at: usize) -> Result<Option<(A, B)>, Error> {
        if at >= row.column_count() {
            return Err(Error::InvalidColumnIndex(at));
        }
        let Some(first) = A::from_cell(row, at)? else {
            return Ok(None);
        };
        let Some(others) = B::from_cells(row, at + 1)? else {
            return Ok(None);
        };
        Ok(Some((first, others)))
    }
}
