//! The plan that admits items to a suite.

ghost use Rattle.std.specs.Prelude.{◌≡◌, ◌≢◌, [], ◌∷◌, ◌++◌, AllPairs, IfOk, T, map};
ghost use Rattle.std.specs.BTreeMap as tree;
ghost use Rattle.std.specs.FinMap.{find, is_sorted};
ghost use Rattle.rules.specs.declared.verdict.Verdict.TheVariants as verdict;
ghost use Rattle.suites.specs.Admission.{MayJoin, arriving, standing_at, replaced};
ghost use Rattle.suites.specs.Items.{standing};
ghost use Rattle.suites.specs.Keys.{key_order};
ghost use Rattle.suites.specs.Plan.{IsStep, references_of, references as references_to};
ghost use Rattle.suites.specs.PoolChange.{IsPlanOf};
ghost use Rattle.suites.specs.Shelves.{shown_after, version_of};
ghost use Rattle.suites.specs.declared.key.ShelfKey.{ShelfKey as ShelfKeyValue};

use crate::item::Item;
use crate::key::ShelfKey;
use crate::plan::{Plan, Reference};
use crate::pool::{FileChange, pool_changes};
use crate::shelves::Shelves;
use para::Listed;
use rules::Verdict;
use std::alloc::{AllocError, Global};
use std::collections::BTreeMap;

/// Adds the references that an item on its shelf has to its files, each by its number in the item, from 1.
fn push_references(
    references: &mut Vec<Reference>,
    key: &ShelfKey,
    item: &Item,
) -> Result<(), AllocError>
    ensures { IfOk result (λ _. references.new.items ≡ references.old.items ++ references_of (key.now, item.now)) }
{
    for (index, file) in item.files.as_slice().iter().enumerate() {
        references.push(Reference {
            key: key.try_clone()?,
            number: index.saturating_add(1),
            path: file.path.try_clone()?,
            print: file.print,
        })?;
    }
    Ok(())
}

/// The references that items have to their files.
fn references(alloc: Global, entries: &[(ShelfKey, Item)]) -> Result<Vec<Reference>, AllocError>
    ensures { IfOk result (λ made. made.items ≡ references_to entries.now) }
{
    let mut references = Vec::new(alloc);
    for (key, item) in entries {
        push_references(&mut references, key, item)?;
    }
    Ok(references)
}

/// What a change of the shelves puts and drops, each in the order of the shelves.
#[derive(Drop)]
struct ItemChange {
    put: Vec<(ShelfKey, Item)>,
    dropped: Vec<(ShelfKey, Item)>,
}

/// Items on their shelves in a suite.
fn by_shelf(
    alloc: Global,
    suite: usize,
    items: Vec<Item>,
) -> Result<BTreeMap<ShelfKey, Item>, AllocError>
    requires { AllPairs (λ a b. a.0 ≢ b.0) (map (standing suite) items.items) }
    ensures stand { IfOk result (λ shelves. (key : ShelfKeyValue) → tree.get key_order shelves key ≡ find key_order key (map (standing suite) items.items)) }
    ensures sorted { IfOk result (λ shelves. T (is_sorted key_order shelves.entries)) }
{
    let mut shelves = BTreeMap::new(alloc);
    for item in items {
        shelves.insert(item.shelf(suite)?, item)?;
    }
    Ok(shelves)
}

/// Adds a copy of the item that stands on the shelf, if one does.
fn add_standing(
    alloc: Global,
    shelves: &Shelves,
    key: &ShelfKey,
    items: &mut Vec<(ShelfKey, Item)>,
) -> Result<(), AllocError>
    ensures { IfOk result (λ _. items.new.items ≡ items.old.items ++ standing_at shelves.now key.now) }
{
    match shelves.get(key) {
        Some(item) => {
            items.push((key.try_clone()?, item.try_clone(alloc)?))?;
            Ok(())
        }
        None => Ok(()),
    }
}

/// Adds what comes and goes when an item comes to its shelf: nothing if a shown item covers it, else the item, and what
/// stood there.
fn add_arrival(
    alloc: Global,
    shelves: &Shelves,
    change: &mut ItemChange,
    key: ShelfKey,
    item: Item,
) -> Result<(), AllocError>
    ensures put { IfOk result (λ _. change.new.put.items ≡ change.old.put.items ++ arriving version_of shelves.now ((key, item) ∷ [])) }
    ensures dropped { IfOk result (λ _. change.new.dropped.items ≡ change.old.dropped.items ++ replaced shelves.now (arriving version_of shelves.now ((key, item) ∷ []))) }
{
    if shelves.covers(&key, &item) {
        return Ok(());
    }
    add_standing(alloc, shelves, &key, &mut change.dropped)?;
    change.put.push((key, item))?;
    Ok(())
}

/// What admitting items puts and drops.
fn item_change(
    alloc: Global,
    shelves: &Shelves,
    items: BTreeMap<ShelfKey, Item>,
) -> Result<ItemChange, AllocError>
    ensures put { IfOk result (λ change. change.put.items ≡ arriving version_of shelves.now items.entries) }
    ensures dropped { IfOk result (λ change. change.dropped.items ≡ replaced shelves.now (arriving version_of shelves.now items.entries)) }
{
    let mut change = ItemChange {
        put: Vec::new(alloc),
        dropped: Vec::new(alloc),
    };
    for (key, item) in items {
        add_arrival(alloc, shelves, &mut change, key, item)?;
    }
    Ok(change)
}

/// The plan that puts and drops these items, with what that changes of the references and of the pool.
pub fn plan_of(
    alloc: Global,
    shelves: &Shelves,
    put: Vec<(ShelfKey, Item)>,
    dropped: Vec<(ShelfKey, Item)>,
) -> Result<Plan, AllocError>
    ensures verdict { IfOk result (λ plan. plan.verdict ≡ verdict.Accepted) }
    ensures plan { IfOk result (IsPlanOf shelves.now put.items dropped.items) }
{
    let references_put = references(alloc, &put)?;
    let references_dropped = references(alloc, &dropped)?;
    let FileChange { added, removed } = pool_changes(
        alloc,
        shelves,
        &references_put,
        &references_dropped,
    )?;
    Ok(Plan {
        verdict: Verdict::Accepted,
        put: Listed::from_vec(put),
        dropped: Listed::from_vec(dropped),
        references_put: Listed::from_vec(references_put),
        references_dropped: Listed::from_vec(references_dropped),
        files_added: Listed::from_vec(added),
        files_removed: Listed::from_vec(removed),
    })
}

/// The plan that admits items to a suite: those that no shown item covers come, and what they replace goes.
pub fn plan_admission(
    alloc: Global,
    shelves: &Shelves,
    suite: usize,
    items: Vec<Item>,
) -> Result<Plan, AllocError>
    requires { MayJoin shelves.now (map (standing suite) items.items) }
    ensures verdict { IfOk result (λ plan. plan.verdict ≡ verdict.Accepted) }
    ensures step { IfOk result (IsStep shelves.now (shown_after version_of shelves.now (map (standing suite) items.items))) }
{
    // For the prover alone: the shelves are sound.
    shelves.agree();
    let items = by_shelf(alloc, suite, items)?;
    let ItemChange { put, dropped } = item_change(alloc, shelves, items)?;
    plan_of(alloc, shelves, put, dropped)
}
