//! Numbers as the tables take them.
//!
//! Numbers in Rust are `u64`, and SQLite's are signed: a size, a moment or a place from 2^63 on is refused as too big. The number of a row
//! may be any integer of SQLite. So it is counted from the least of these on: the id 1 is the number 2^63 + 1.

ghost use Rattle.std.specs.Prelude.{◌≡◌, ℕ, pos, unsigned_abs, IfOk};
ghost use Rattle.sqlite_value.specs.declared.value.Value.TheVariants.{Int};
ghost use Rattle.tables.specs.Rows.{id_cell, id_int, id_nat};

use sqlite::types::{ToSql, ValueRef};
use sqlite::{Error, ErrorCode};
use std::marker::Model;

/// A number that a table can hold, one below 2^63.
#[derive(Drop)]
pub struct Number {
    n: i64,
}

impl Model for Number {
    ghost Value = { ℕ };

    ghost view = { λ w. unsigned_abs w.n };

    ghost invariant = { λ w. w.n ≡ pos (unsigned_abs w.n) };
}

/// The number, refused as too big if a table cannot hold it.
pub fn whole(n: u64) -> Result<Number, Error>
    ensures { IfOk result (λ w. w ≡ n) }
{
    match i64::try_from(n) {
        Ok(n) => Ok(Number { n }),
        Err(_) => Err(Error::SqliteFailure(ErrorCode::TooBig)),
    }
}

impl<'a> ToSql<'a> for Number {
    ghost to_sql = { λ n. Int (pos n) };

    fn to_sql(self) -> ValueRef<'a> {
        ValueRef::Int(self.n)
    }
}

/// The number of a row, as its id, its rowid and the references to it hold it: counted from the least integer of SQLite on.
#[derive(Drop)]
pub struct Id {
    n: i64,
}

impl Model for Id {
    ghost Value = { ℕ };

    ghost view = { λ w. id_nat w.n };

    ghost invariant = { λ w. w.n ≡ id_int (id_nat w.n) };
}

/// The number as that of a row. Each number is the number of a row.
pub fn as_id(n: u64) -> Id
    ensures { result ≡ n }
{
    Id {
        n: i64::MIN.saturating_add_unsigned(n),
    }
}

impl<'a> ToSql<'a> for Id {
    ghost to_sql = { id_cell };

    fn to_sql(self) -> ValueRef<'a> {
        ValueRef::Int(self.n)
    }
}
