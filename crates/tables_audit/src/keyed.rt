//! Rows that are looked up by a number: their own, or that of what they belong to.

ghost use Rattle.std.specs.Prelude.{◌≡◌, ◌↔◌, ◌<◌, ◌≤◌, ℕ, length, nat_le, IsTrue};
ghost use Rattle.std.specs.List.Sorted.{IsNonDecreasingBy, IsPartitionPoint};
ghost use Rattle.tables_audit.specs.Lookups.{rise_from, with_key};

use tables::rows::{BodyRow, Piece, Ref, UploadRow, Want};

/// A row that is looked up by a number.
pub trait Keyed {
    ghost key_of: { Self → ℕ };

    /// The number by which it is looked up.
    fn key(&self) -> u64
        ensures { result ≡ key_of self.now };
}

/// A body is looked up by its own number.
impl Keyed for (u64, BodyRow) {
    ghost key_of = { λ x. x.0 };

    fn key(&self) -> u64 {
        self.0
    }
}

/// A piece is looked up by its body.
impl Keyed for (u64, Piece) {
    ghost key_of = { λ x. x.1.body };

    fn key(&self) -> u64 {
        self.1.body
    }
}

/// A file of an item is looked up by the item.
impl Keyed for (u64, Ref) {
    ghost key_of = { λ x. x.1.item };

    fn key(&self) -> u64 {
        self.1.item
    }
}

/// An upload is looked up by its own number.
impl Keyed for (u64, UploadRow) {
    ghost key_of = { λ x. x.0 };

    fn key(&self) -> u64 {
        self.0
    }
}

/// What an upload wants is looked up by the upload.
impl Keyed for (u64, Want) {
    ghost key_of = { λ x. x.1.upload };

    fn key(&self) -> u64 {
        self.1.upload
    }
}

/// Whether a number is not below another.
fn is_from(low: u64, number: u64) -> bool
    ensures { result ≡ nat_le low number }
{
    low <= number
}

/// Whether no row's number is below that of the row before it.
fn do_rise<T: Keyed>(rows: &[T]) -> bool
    ensures { result ≡ rise_from T.key_of 0 rows.now }
{
    let mut last = 0;
    for row in rows {
        let key = row.key();
        if !is_from(last, key) {
            return false;
        }
        last = key;
    }
    true
}

/// Whether the rows stand in rising order of their numbers, some of which may be equal.
pub fn are_in_order<T: Keyed>(rows: &[T]) -> bool
    ensures { IsTrue result ↔ IsNonDecreasingBy T.key_of rows.now }
{
    do_rise(rows)
}

/// How many rows stand before those of a number. The rows stand in order.
fn count_below<T: Keyed>(rows: &[T], id: u64) -> usize
    requires { IsNonDecreasingBy T.key_of rows.now }
    ensures bound { result ≤ length rows.now }
    ensures parted { IsPartitionPoint (λ x. T.key_of x < id) (λ x. id ≤ T.key_of x) rows.now result }
{
    rows.partition_point(|row| row.key() < id)
}

/// How many rows stand before those of all greater numbers. The rows stand in order.
fn count_up_to<T: Keyed>(rows: &[T], id: u64) -> usize
    requires { IsNonDecreasingBy T.key_of rows.now }
    ensures bound { result ≤ length rows.now }
    ensures parted { IsPartitionPoint (λ x. T.key_of x ≤ id) (λ x. id < T.key_of x) rows.now result }
{
    rows.partition_point(|row| row.key() <= id)
}

/// The rows of a number. All rows stand in order.
pub fn part_of<T: Keyed>(rows: &[T], id: u64) -> &[T]
    requires { IsNonDecreasingBy T.key_of rows.now }
    ensures { with_key T.key_of id result.now ≡ with_key T.key_of id rows.now }
{
    let (_, rest) = rows.split_at(count_below(rows, id));
    let (part, _) = rest.split_at(count_up_to(rest, id));
    part
}

/// Rows, and whether they stand in rising order of their numbers.
#[derive(Drop)]
pub struct Rows<'a, T: Keyed> {
    pub all: &'a [T],
    is_in_order: bool,
    ghost in_order: { IsTrue is_in_order → IsNonDecreasingBy T.key_of all.now },
}

impl<'a, T: Keyed> Rows<'a, T> {
    /// These rows.
    pub fn new(all: &'a [T]) -> Rows<'a, T>
        ensures { result.all.now ≡ all.now }
    {
        let is_in_order = are_in_order(all);
        Rows { all, is_in_order }
    }

    /// Rows among which all those of a number are. If the rows stand in order there are no others among them.
    pub fn about(&self, id: u64) -> &[T]
        ensures { with_key T.key_of id result.now ≡ with_key T.key_of id self.now.all.now }
    {
        if self.is_in_order {
            part_of(self.all, id)
        } else {
            self.all
        }
    }
}
