//! What the suites show.

ghost use Rattle.std.specs.Prelude.{◌≡◌, ◌≤◌, ◌+◌, ◌++◌, All, IfOk, OnOk, map};
ghost use Rattle.std.specs.List.{enumerate_from, flat_map};
ghost use Rattle.indices.specs.Calendar.{latest};
ghost use Rattle.figures.specs.Families.{changed_family, changed_sample, items_family, items_sample, until_family, until_samples};
ghost use Rattle.figures.specs.Numbers.{date_at, end_at};

use crate::family::{Family, Figure, Sample, labelled, push_labelled_if};
use indices::item_count;
use rules::Suite;
use std::alloc::{AllocError, Global};
use suites::Shelves;

/// How many items a suite shows, with its codename.
fn items_sample(
    alloc: Global,
    shelves: &Shelves,
    position: usize,
    suite: &Suite,
) -> Result<Sample, AllocError>
    ensures { IfOk result (λ sample. sample ≡ items_sample shelves.now (position, suite.now)) }
{
    labelled(
        alloc,
        suite.codename.as_str(),
        item_count(shelves, position, None)?,
    )
}

/// How many items the suites show.
#[tactic(auto, unfolding(crate::specs::Families::items_family))]
pub fn items_family(
    alloc: Global,
    suites: &[Suite],
    shelves: &Shelves,
) -> Result<Family, AllocError>
    ensures { IfOk result (λ family. family ≡ items_family suites.now shelves.now) }
{
    let mut samples = Vec::new(alloc);
    for position in 0..suites.len() {
        samples.push(items_sample(alloc, shelves, position, &suites[position])?)?;
    }
    Ok(Family::new(Figure::Items, samples))
}

/// The date of the Release of the suite at a position.
fn date_at(dates: &[u64], position: usize) -> u64
    requires { ∥ All (λ date. date ≤ latest) dates.now ∥₁ }
    ensures date { result ≡ date_at dates.now position }
    ensures in_range { result ≤ latest }
{
    if position < dates.len() {
        dates[position]
    } else {
        0
    }
}

/// The date of a suite, with its codename.
fn changed_sample(
    alloc: Global,
    dates: &[u64],
    position: usize,
    suite: &Suite,
) -> Result<Sample, AllocError>
    requires { ∥ All (λ date. date ≤ latest) dates.now ∥₁ }
    ensures { IfOk result (λ sample. sample ≡ changed_sample dates.now (position, suite.now)) }
{
    labelled(alloc, suite.codename.as_str(), date_at(dates, position))
}

/// When what the suites show last changed.
#[tactic(auto, unfolding(crate::specs::Families::changed_family))]
pub fn changed_family(alloc: Global, suites: &[Suite], dates: &[u64]) -> Result<Family, AllocError>
    requires { ∥ All (λ date. date ≤ latest) dates.now ∥₁ }
    ensures { IfOk result (λ family. family ≡ changed_family suites.now dates.now) }
{
    let mut samples = Vec::new(alloc);
    for position in 0..suites.len() {
        samples.push(changed_sample(alloc, dates, position, &suites[position])?)?;
    }
    Ok(Family::new(Figure::Changed, samples))
}

/// Until when the Release of a suite is valid, if the suite says for how long.
#[tactic(auto, unfolding(crate::specs::Numbers::end_at))]
fn end_at(dates: &[u64], position: usize, suite: &Suite) -> Option<u64>
    requires { ∥ All (λ date. date ≤ latest) dates.now ∥₁ }
    ensures { result ≡ end_at dates.now position suite.now }
{
    match suite.valid_days {
        Some(days) => Some(date_at(dates, position) + days.seconds()),
        None => None,
    }
}

/// Until when the Releases of the suites are valid that say for how long.
#[tactic(auto, unfolding(crate::specs::Families::until_family))]
pub fn until_family(alloc: Global, suites: &[Suite], dates: &[u64]) -> Result<Family, AllocError>
    requires { ∥ All (λ date. date ≤ latest) dates.now ∥₁ }
    ensures { IfOk result (λ family. family ≡ until_family suites.now dates.now) }
{
    let mut samples = Vec::new(alloc);
    for position in 0..suites.len() {
        let suite = &suites[position];
        let end = end_at(dates, position, suite);
        push_labelled_if(alloc, suite.codename.as_str(), end, &mut samples)?;
    }
    Ok(Family::new(Figure::Until, samples))
}
