//! Numbers that may be absent, flags and prints, in the columns of an answer.

ghost use Rattle.std.specs.Prelude.{◌≡◌, ◌≢◌, None, ◌<◌, ◌+◌, ◌^◌, ◌==◌, not, length, IfOk, IfSome};
ghost use Rattle.sqlite.specs.Order.{column, bytes};
ghost use Rattle.tables.specs.Rows.{id_nat, id_of, nat_of, some_nat, some_print, print_at};

use crate::read::{FromRow, id_at, whole_at};
use sqlite::types::Type;
use sqlite::{Error, Row};
use std::alloc::Global;
use sums::Print;

/// The number of a row in the first column.
impl FromRow for u64 {
    ghost of_row = { λ row. id_of (column row 0) };

    fn from_row(row: &Row) -> Result<u64, Error> {
        id_at(row, 0)
    }
}

/// The number of a row, of its rowid.
pub(crate) fn row_number(rowid: i64) -> u64
    ensures { result ≡ id_nat rowid }
{
    rowid.abs_diff(i64::MIN)
}

/// The number in a column that may be NULL.
pub(crate) fn some_whole_at(row: &Row, at: usize) -> Result<Option<u64>, Error>
    ensures { IfOk result (λ n. n ≡ some_nat (column row.now at)) }
{
    row.get(at)
}

/// The flag in a column.
pub(crate) fn flag_at(row: &Row, at: usize) -> Result<bool, Error>
    ensures { IfOk result (λ b. b ≡ not (nat_of (column row.now at) == 0)) }
{
    Ok(whole_at(row, at)? != 0)
}

/// These bytes as an array of N, if they are N bytes.
pub fn array<const N: usize>(bytes: &[u8]) -> Option<[u8; N]>
    ensures some { IfSome result (λ all. all ≡ bytes.now) }
    ensures none { result ≡ None → length bytes.now ≢ N }
{
    if bytes.len() != N {
        return None;
    }
    let mut all = [0; N];
    all.copy_from_slice(bytes);
    Some(all)
}

/// The digest in a column.
fn digest_at<const N: usize>(row: &Row, at: usize) -> Result<[u8; N], Error>
    ensures { IfOk result (λ digest. digest ≡ bytes (column row.now at)) }
{
    let blob: Vec<u8> = row.get(at)?;
    match array(&blob) {
        Some(digest) => Ok(digest),
        None => Err(Error::InvalidColumnType(at, Type::Blob)),
    }
}

/// The print in four columns.
pub(crate) fn print_at(row: &Row, at: usize) -> Result<Print, Error>
    requires { at + 3 < 2 ^ 64 }
    ensures { IfOk result (λ print. print ≡ print_at row.now at) }
{
    Ok(Print {
        size: whole_at(row, at)?,
        md5: digest_at(row, at + 1)?,
        sha1: digest_at(row, at + 2)?,
        sha256: digest_at(row, at + 3)?,
    })
}

/// The print in four columns, unless the first is NULL.
pub(crate) fn some_print_at(row: &Row, at: usize) -> Result<Option<Print>, Error>
    requires { at + 3 < 2 ^ 64 }
    ensures { IfOk result (λ print. print ≡ some_print row.now at (some_nat (column row.now at))) }
{
    match some_whole_at(row, at)? {
        Some(_) => Ok(Some(print_at(row, at)?)),
        None => Ok(None),
    }
}
