//! The plan of a copy.

ghost use Rattle.std.specs.Prelude.{◌≡◌, ◌<◌, [], ◌∷◌, ◌++◌, IfOk, cond, filter, length, map};
ghost use Rattle.std.specs.FinMap.{entries, get};
ghost use Rattle.std.specs.List.{flat_map};
ghost use Rattle.rules.specs.declared.verdict.Verdict.TheVariants as verdict;
ghost use Rattle.suites.specs.Plan.{IsStep, after_copy, is_copied as copies, kept_by, shelves_of};
ghost use Rattle.suites.specs.Told.{AreTold};

use crate::admission::plan_admission;
use crate::item::Item;
use crate::key::ShelfKey;
use crate::plan::Plan;
use crate::shelves::Shelves;
use decisions::is_taken;
use rules::{Config, Suite};
use std::alloc::{AllocError, Global};

/// Whether a copy to the target takes the item: the other suite shows it, it is of the source package, and the target
/// keeps its component and its architecture.
#[tactic(auto, unfolding(crate::specs::Plan::is_copied))]
fn is_copied(from: usize, source: &str, target: &Suite, key: &ShelfKey, item: &Item) -> bool
    ensures { result ≡ copies from source.now target.now (key.now, item.now) }
{
    if key.suite != from || item.source.as_str() != source {
        return false;
    }
    is_taken(target, item.component.as_str(), item.architecture.as_str())
}

/// Adds a copy of an item, if it passes.
fn push_item_if(
    alloc: Global,
    items: &mut Vec<Item>,
    passes: bool,
    item: &Item,
) -> Result<(), AllocError>
    ensures { IfOk result (λ _. items.new.items ≡ items.old.items ++ cond passes (item.now ∷ []) []) }
{
    if passes {
        items.push(item.try_clone(alloc)?)?;
    }
    Ok(())
}

/// Copies of the items of a source package that the suite `from` shows and the target keeps.
fn copied_items(
    alloc: Global,
    shelves: &Shelves,
    from: usize,
    source: &str,
    target: &Suite,
) -> Result<Vec<Item>, AllocError>
    ensures { IfOk result (λ items. items.items ≡ map (λ a. a.1) (filter (copies from source.now target.now) (entries shelves.now))) }
{
    let mut items = Vec::new(alloc);
    for (key, item) in shelves.items() {
        let is_copied = is_copied(from, source, target, key, item);
        push_item_if(alloc, &mut items, is_copied, item)?;
    }
    Ok(items)
}

/// What a copy changes of the shelves: the items of a source package that the suite `from` shows and whose architecture
/// and component the suite `to` keeps are admitted to `to`. The suites are positions in the configuration.
pub fn plan_copy(
    alloc: Global,
    config: &Config,
    shelves: &Shelves,
    from: usize,
    to: usize,
    source: &str,
) -> Result<Plan, AllocError>
    requires from { from < length config.now.suites }
    requires to { to < length config.now.suites }
    ensures verdict { IfOk result (λ plan. plan.verdict ≡ verdict.Accepted) }
    ensures step { IfOk result (IsStep shelves.now (after_copy config.now shelves.now from to source.now)) }
    ensures told { AreTold config.now.suites shelves.now → AreTold config.now.suites (after_copy config.now shelves.now from to source.now) }
{
    // For the prover alone: the shelves are sound.
    shelves.agree();
    let target = &config.suites()[to];
    let items = copied_items(alloc, shelves, from, source, target)?;
    plan_admission(alloc, shelves, to, items)
}

/// Adds a copy of the item on a shelf, if the target keeps it.
fn push_kept(
    alloc: Global,
    shelves: &Shelves,
    target: &Suite,
    key: &ShelfKey,
    items: &mut Vec<Item>,
) -> Result<(), AllocError>
    ensures { IfOk result (λ _. items.new.items ≡ items.old.items ++ kept_by target.now (get shelves.now key.now)) }
{
    match shelves.get(key) {
        Some(item) => {
            let keeps = target.keeps(item.component.as_str(), item.architecture.as_str());
            push_item_if(alloc, items, keeps, item)
        }
        None => Ok(()),
    }
}

/// Copies of the items on these shelves that the target keeps.
fn kept_items(
    alloc: Global,
    shelves: &Shelves,
    target: &Suite,
    keys: &[ShelfKey],
) -> Result<Vec<Item>, AllocError>
    ensures { IfOk result (λ items. items.items ≡ flat_map (λ key. kept_by target.now (get shelves.now key)) keys.now) }
{
    let mut items = Vec::new(alloc);
    for key in keys {
        push_kept(alloc, shelves, target, key, &mut items)?;
    }
    Ok(items)
}

/// What a copy changes of the shelves, as `plan_copy` says it. It is given the shelves on which the items of the source package
/// stand in the suite `from`, in their order, and looks at no other shelf.
pub fn plan_copy_of(
    alloc: Global,
    config: &Config,
    shelves: &Shelves,
    from: usize,
    to: usize,
    source: &str,
    keys: &[ShelfKey],
) -> Result<Plan, AllocError>
    requires from { from < length config.now.suites }
    requires to { to < length config.now.suites }
    requires keys { keys.now ≡ shelves_of shelves.now from source.now }
    ensures verdict { IfOk result (λ plan. plan.verdict ≡ verdict.Accepted) }
    ensures step { IfOk result (IsStep shelves.now (after_copy config.now shelves.now from to source.now)) }
    ensures told { AreTold config.now.suites shelves.now → AreTold config.now.suites (after_copy config.now shelves.now from to source.now) }
{
    // What stands on these shelves is of this suite and this source.
    let _ = from;
    let _ = source;
    // For the prover alone: the shelves are sound.
    shelves.agree();
    let target = &config.suites()[to];
    let kept = kept_items(alloc, shelves, target, keys)?;
    plan_admission(alloc, shelves, to, kept)
}
