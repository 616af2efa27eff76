//! The plan of a removal.

ghost use Rattle.std.specs.Prelude.{◌≡◌, [], ◌∷◌, ◌++◌, IfOk, cond};
ghost use Rattle.rules.specs.declared.verdict.Verdict.TheVariants as verdict;
ghost use Rattle.suites.specs.Plan.{IsStep, after_removal, is_removed as removes, removed};
ghost use Rattle.suites.specs.Told.{AreTold};

use crate::admission::plan_of;
use crate::item::Item;
use crate::key::ShelfKey;
use crate::plan::Plan;
use crate::shelves::Shelves;
use rules::Config;
use std::alloc::{AllocError, Global};

/// Whether a removal takes what stands on the shelf: it is of the suite, and the package has the name.
#[tactic(auto, unfolding(crate::specs::Plan::is_removed))]
pub fn is_removed(suite: usize, name: &str, key: &ShelfKey, item: &Item) -> bool
    ensures { result ≡ removes suite name.now (key.now, item.now) }
{
    let _ = item;
    if key.suite != suite {
        return false;
    }
    key.package.as_str() == name
}

/// Adds a copy of what stands on a shelf, if it passes.
fn push_entry_if(
    alloc: Global,
    entries: &mut Vec<(ShelfKey, Item)>,
    passes: bool,
    key: &ShelfKey,
    item: &Item,
) -> Result<(), AllocError>
    ensures { IfOk result (λ _. entries.new.items ≡ entries.old.items ++ cond passes ((key.now, item.now) ∷ []) []) }
{
    if passes {
        entries.push((key.try_clone()?, item.try_clone(alloc)?))?;
    }
    Ok(())
}

/// Copies of what a removal takes, in the order of the shelves.
fn removed_entries(
    alloc: Global,
    shelves: &Shelves,
    suite: usize,
    name: &str,
) -> Result<Vec<(ShelfKey, Item)>, AllocError>
    ensures { IfOk result (λ entries. entries.items ≡ removed shelves.now suite name.now) }
{
    let mut entries = Vec::new(alloc);
    for (key, item) in shelves.items() {
        let is_removed = is_removed(suite, name, key, item);
        push_entry_if(alloc, &mut entries, is_removed, key, item)?;
    }
    Ok(entries)
}

/// What a removal changes of the shelves: all items of a package's name, sources and packages alike, leave the suite, which
/// is a position in the configuration. A suite that is not there shows nothing, and the plan then changes nothing.
pub fn plan_remove(
    alloc: Global,
    config: &Config,
    shelves: &Shelves,
    suite: usize,
    name: &str,
) -> Result<Plan, AllocError>
    ensures verdict { IfOk result (λ plan. plan.verdict ≡ verdict.Accepted) }
    ensures step { IfOk result (IsStep shelves.now (after_removal shelves.now suite name.now)) }
    ensures put { IfOk result (λ plan. plan.put ≡ []) }
    ensures dropped { IfOk result (λ plan. plan.dropped ≡ removed shelves.now suite name.now) }
    ensures told { AreTold config.now.suites shelves.now → AreTold config.now.suites (after_removal shelves.now suite name.now) }
{
    // Only the clause `told` speaks of the configuration.
    let _ = config;
    // For the prover alone: the shelves are sound.
    shelves.agree();
    let dropped = removed_entries(alloc, shelves, suite, name)?;
    plan_of(alloc, shelves, Vec::new(alloc), dropped)
}
