//! Rows of what uploads want.

ghost use Rattle.std.specs.Prelude.{◌≡◌, MatchBool};
ghost use Rattle.tables_matching.specs.Rows.{listed_row, want_row};

use sums::Entry;
use tables::rows::Want;

/// Whether a row is that of a listed file: it has the name and the print, and its flag says whether a body of these has arrived.
pub fn is_want_row(want: &Want, entry: &Entry, here: bool) -> bool
    ensures { MatchBool result (want_row want.now ≡ listed_row entry.now here) (want_row want.now ≡ listed_row entry.now here → ⊥) }
{
    if want.print != entry.print {
        return false;
    }
    if want.name.as_str() != entry.name.as_str() {
        return false;
    }
    want.here == here
}
