//! Orders of rows.

ghost use Rattle.std.specs.Prelude.{◌≡◌};
ghost use Rattle.tables_meaning.specs.Kept.{piece_order};

use std::cmp::Ordering;
use tables::rows::Piece;

/// The order of the pieces of a body: by number.
pub fn piece_order(a: &Piece, b: &Piece) -> Ordering
    ensures { result ≡ piece_order a.now b.now }
{
    a.number.cmp(&b.number)
}
