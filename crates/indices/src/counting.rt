//! How many items a suite shows.

ghost use Rattle.std.specs.Prelude.{◌≡◌, ◌==◌, IfOk, if◌then◌else◌, ◌+◌, true};
ghost use Rattle.std.specs.Option.{option_map_or};
ghost use Rattle.suites.specs.Keys.{kind_number};
ghost use Rattle.indices.specs.Counting.{is_counted, item_count};

use std::alloc::AllocError;
use suites::{Item, Kind, ShelfKey, Shelves};

/// The count, and one more if something counts. A count beyond a `u64` is refused like want of memory.
fn one_more_if(counts: bool, count: u64) -> Result<u64, AllocError>
    ensures { IfOk result (λ more. more ≡ (if counts then count + 1 else count)) }
{
    if !counts {
        return Ok(count);
    }
    match count.checked_add(1) {
        Some(more) => Ok(more),
        None => Err(AllocError),
    }
}

/// Whether a kind is the one that is given. If none is, each kind passes.
fn is_of_kind(kind: Kind, given: Option<Kind>) -> bool
    ensures { result ≡ option_map_or (λ k. kind_number kind == kind_number k) given true }
{
    match given {
        Some(given) => kind.number() == given.number(),
        None => true,
    }
}

/// Whether an item is of a suite, and of a kind if one is given.
fn is_counted(key: &ShelfKey, item: &Item, suite: usize, kind: Option<Kind>) -> bool
    ensures { result ≡ is_counted suite kind (key.now, item.now) }
{
    let is_of_kind = is_of_kind(item.kind, kind);
    is_of_kind && key.suite == suite
}

/// How many items the suite at a position shows: those of a kind if one is given, or else all.
pub fn item_count(shelves: &Shelves, suite: usize, kind: Option<Kind>) -> Result<u64, AllocError>
    ensures { IfOk result (λ count. count ≡ item_count shelves.now suite kind) }
{
    let mut count = 0;
    for (key, item) in shelves.items() {
        count = one_more_if(is_counted(key, item, suite, kind), count)?;
    }
    Ok(count)
}
