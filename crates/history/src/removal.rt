//! Removals of a package from a suite.

ghost use Rattle.std.specs.Prelude.{◌≡◌, ◌⊎◌, false, Some, IfOk, IfErr};
ghost use Rattle.history.specs.Archives.{suite_named};
ghost use Rattle.history.specs.Removals.{shows_package, suite_fault, IsRemoval};

use crate::fault::Fault;
use rules::Config;
use std::alloc::Global;
use suites::{Plan, Shelves, is_removed, plan_remove};

/// The position of a suite, by its codename. It is refused if there is no such suite.
pub fn suite_position(config: &Config, codename: &str) -> Result<usize, Fault>
    ensures suite { IfOk result (λ place. suite_named config.now codename.now ≡ Some place) }
    ensures refused { IfErr result (λ e. suite_fault (suite_named config.now codename.now) ≡ Some e) }
{
    let Some(place) = config.suite_named(codename) else {
        return Err(Fault::UnknownSuite);
    };
    Ok(place)
}

/// Whether a suite shows an item of the package.
fn shows_package(shelves: &Shelves, suite: usize, name: &str) -> bool
    ensures { result ≡ shows_package shelves.now suite name.now }
{
    for (key, item) in shelves.items() {
        if is_removed(suite, name, key, item) {
            return true;
        }
    }
    false
}

/// The plan of a removal of a package from a suite, by its position. It is refused if the suite shows nothing of
/// the package.
pub fn removal_plan(
    alloc: Global,
    config: &Config,
    shelves: &Shelves,
    suite: usize,
    name: &str,
) -> Result<Plan, Fault>
    ensures plan { IfOk result (IsRemoval shelves.now suite name.now) }
    ensures refused { IfErr result (λ e. (e ≡ Fault.OutOfMemory) ⊎ ((e ≡ Fault.NothingToRemove) × (shows_package shelves.now suite name.now ≡ false))) }
{
    // For the prover alone: the shelves are sound.
    shelves.agree();
    if !shows_package(shelves, suite, name) {
        return Err(Fault::NothingToRemove);
    }
    Ok(plan_remove(alloc, config, shelves, suite, name)?)
}
