//! Whether the numbers to which rows refer rise.

ghost use Rattle.std.specs.Prelude.{◌≡◌, None};
ghost use Rattle.tables_read.specs.All.{tables_with};
ghost use Rattle.old_book.specs.Rising.{is_above, is_rising, rise_behind};

use tables_read::AllRows;

/// Whether a number is above the last, if there is one.
fn is_above(last: Option<u64>, id: u64) -> bool
    ensures { result ≡ is_above last id }
{
    match last {
        Some(last) => last < id,
        None => true,
    }
}

/// Whether the numbers of the rows rise.
fn do_rise<T>(rows: &[(u64, T)]) -> bool
    ensures { result ≡ rise_behind None rows.now }
{
    let mut last = None;
    for row in rows {
        if !is_above(last, row.0) {
            return false;
        }
        last = Some(row.0);
    }
    true
}

/// Whether the numbers of bodies, of uploads and of items rise.
pub fn is_rising(all: &AllRows) -> bool
    ensures { result ≡ is_rising (tables_with all.now) }
{
    let bodies = do_rise(&all.bodies);
    let uploads = do_rise(&all.uploads);
    let items = do_rise(&all.items);
    bodies && uploads && items
}
