//! Copies of the items of a source package from suite to suite.

ghost use Rattle.std.specs.Prelude.{◌≡◌, ◌⊎◌, ◌∷◌, ◌<◌, [], false, Some, None, bytes_eq, IfOk, IfErr, OnOk, length};
ghost use Rattle.history.specs.Archives.{suite_named};
ghost use Rattle.suites.specs.Plan.{IsStep, applied, is_of_source};
ghost use Rattle.suites.specs.Shelves.{ShelvesValue};
ghost use Rattle.history.specs.Copies.{shows_source, suites_fault, AreSuites, IsCopy};

use crate::fault::Fault;
use book::Step;
use para::Listed;
use rules::Config;
use std::alloc::{AllocError, Global};
use suites::{Item, Plan, ShelfKey, Shelves, plan_copy};

/// The positions of two suites, by their codenames. It is refused if a suite is missing, or if both are one suite.
pub fn two_suites(config: &Config, from: &str, to: &str) -> Result<(usize, usize), Fault>
    ensures suites { IfOk result (λ places. AreSuites config.now from.now to.now places.0 places.1) }
    ensures refused { IfErr result (λ e. suites_fault (suite_named config.now from.now) (suite_named config.now to.now) ≡ Some e) }
{
    let Some(from) = config.suite_named(from) else {
        return Err(Fault::UnknownSuite);
    };
    let Some(to) = config.suite_named(to) else {
        return Err(Fault::UnknownSuite);
    };
    if from == to {
        return Err(Fault::SameSuite);
    }
    Ok((from, to))
}

/// Whether the item on the shelf belongs to the suite and to the source package.
#[tactic(auto, unfolding(suites::specs::Plan::is_of_source))]
fn is_of_source(suite: usize, source: &str, key: &ShelfKey, item: &Item) -> bool
    ensures { result ≡ is_of_source suite source.now (key.now, item.now) }
{
    if key.suite != suite {
        return false;
    }
    item.source.as_str() == source
}

/// Whether a suite, by its position, shows an item of the source package.
fn shows_source(shelves: &Shelves, suite: usize, source: &str) -> bool
    ensures { result ≡ shows_source shelves.now suite source.now }
{
    for (key, item) in shelves.items() {
        if is_of_source(suite, source, key, item) {
            return true;
        }
    }
    false
}

/// The plan of a copy of the items of a source package between two suites, by their positions. It is refused if the
/// first shows no such item.
pub fn copy_plan(
    alloc: Global,
    config: &Config,
    shelves: &Shelves,
    from: usize,
    to: usize,
    source: &str,
) -> Result<Plan, Fault>
    requires from { from < length config.now.suites }
    requires to { to < length config.now.suites }
    ensures plan { IfOk result (IsCopy config.now shelves.now from to source.now) }
    ensures refused { IfErr result (λ e. (e ≡ Fault.OutOfMemory) ⊎ ((e ≡ Fault.NothingToCopy) × (shows_source shelves.now from source.now ≡ false))) }
{
    // For the prover alone: the shelves are sound.
    shelves.agree();
    if !shows_source(shelves, from, source) {
        return Err(Fault::NothingToCopy);
    }
    Ok(plan_copy(alloc, config, shelves, from, to, source)?)
}

/// Applies a plan to the shelves that it was made for, and gives it as the only step of a change, without a judgement.
pub fn only_step(
    alloc: Global,
    shelves: &mut Shelves,
    plan: Plan,
) -> Result<Listed<Step>, AllocError>
    requires { (after : ShelvesValue) × IsStep shelves.old after plan }
    ensures steps { IfOk result (λ steps. steps ≡ record { judgement = None; plan = plan } ∷ []) }
    ensures shelves { OnOk result (shelves.new ≡ applied shelves.old plan) }
{
    shelves.apply(alloc, &plan)?;
    let mut steps = Vec::new(alloc);
    steps.push(Step {
        judgement: None,
        plan,
    })?;
    Ok(Listed::from_vec(steps))
}
