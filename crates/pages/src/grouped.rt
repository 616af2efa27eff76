//! What a suite shows, in the order of its rows.

ghost use Rattle.std.specs.Prelude.{◌≡◌, ◌++◌, ◌∷◌, [], if◌then◌else◌, IfOk, OnOk, map};
ghost use Rattle.book.specs.Sorted.{sorted_by};
ghost use Rattle.pages.specs.SuitePage.{is_of, items_of, listing_order, shown};

use std::alloc::{AllocError, Global};
use std::cmp::Ordering;
use suites::{Item, ShelfKey, Shelves};

/// Adds an item on its shelf, if the suite shows it.
fn push_shown<'s>(
    key: &ShelfKey,
    item: &'s Item,
    suite: usize,
    items: &mut Vec<&'s Item>,
) -> Result<(), AllocError>
    ensures { OnOk result (map (λ i. i.now) items.new.items ≡ map (λ i. i.now) items.old.items ++ (if is_of suite (key.now, item.now) then item.now ∷ [] else [])) }
{
    if key.suite == suite {
        items.push(item)?;
    }
    Ok(())
}

/// The items that a suite shows, in the order of the shelves.
fn items_of<'s>(
    alloc: Global,
    shelves: &'s Shelves,
    suite: usize,
) -> Result<Vec<&'s Item>, AllocError>
    ensures { IfOk result (λ items. map (λ i. i.now) items.items ≡ items_of shelves.now suite) }
{
    let mut items = Vec::new(alloc);
    for (key, item) in shelves.items() {
        push_shown(key, item, suite, &mut items)?;
    }
    Ok(items)
}

/// The order of rows: by the bytes of the source, and of one source the source itself before its packages.
#[tactic(auto, unfolding(crate::specs::SuitePage::listing_order))]
fn listing_order(a: &Item, b: &Item) -> Ordering
    ensures { result ≡ listing_order a.now b.now }
{
    a.source
        .as_str()
        .cmp(b.source.as_str())
        .then(a.kind.number().cmp(&b.kind.number()))
}

/// Items in the order of rows. The packages of one source keep the order that they had.
fn in_listing_order<'s>(mut items: Vec<&'s Item>) -> Result<Vec<&'s Item>, AllocError>
    ensures { IfOk result (λ sorted. map (λ i. i.now) sorted.items ≡ sorted_by listing_order (map (λ i. i.now) items.entry.items)) }
{
    items.sort_by(|a, b| listing_order(a, b))?;
    Ok(items)
}

/// The items that a suite shows, in the order of its rows.
pub fn shown_items<'s>(
    alloc: Global,
    shelves: &'s Shelves,
    suite: usize,
) -> Result<Vec<&'s Item>, AllocError>
    ensures { IfOk result (λ items. map (λ i. i.now) items.items ≡ shown shelves.now suite) }
{
    let items = items_of(alloc, shelves, suite)?;
    in_listing_order(items)
}
