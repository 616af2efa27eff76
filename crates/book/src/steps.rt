//! What the steps of a change make of judgements and dates.

ghost use Rattle.std.specs.Prelude.{◌≡◌, ◌≤◌, ◌+◌, ◌++◌, All, IfOk, vec_capacity, vec_len};
ghost use Rattle.book.specs.Book.{dates_past, judgements, touches};
ghost use Rattle.book.specs.Scan.{is_put_in, some_touches};

use crate::change::{Judgement, Step};
use indices::LATEST;
use std::alloc::{AllocError, Global};
use suites::{Item, ShelfKey};

/// Another copy of a judgement.
fn copied_judgement(one: &Judgement) -> Result<Judgement, AllocError>
    ensures { IfOk result (λ copy. copy ≡ one.now) }
{
    Ok(Judgement {
        name: one.name.try_clone()?,
        print: one.print,
        verdict: one.verdict,
    })
}

/// A copy of the judgements.
pub fn copied_judgements(alloc: Global, judged: &[Judgement]) -> Result<Vec<Judgement>, AllocError>
    ensures { IfOk result (λ copies. copies.items ≡ judged.now) }
{
    let mut copies = Vec::new(alloc);
    for one in judged {
        copies.push(copied_judgement(one)?)?;
    }
    Ok(copies)
}

/// The judgements of a change.
fn judgements_of(alloc: Global, steps: &[Step]) -> Result<Vec<Judgement>, AllocError>
    ensures { IfOk result (λ more. more.items ≡ judgements steps.now) }
{
    let mut more = Vec::new(alloc);
    for step in steps {
        if let Some(one) = &step.judgement {
            more.push(copied_judgement(one)?)?;
        }
    }
    Ok(more)
}

/// The judgements of a change, and room for them after those so far, which stay.
pub fn room_for_judgements(
    alloc: Global,
    judged: &mut Vec<Judgement>,
    steps: &[Step],
) -> Result<Vec<Judgement>, AllocError>
    ensures more { IfOk result (λ more. more.items ≡ judgements steps.now) }
    ensures room { IfOk result (λ more. vec_len judged.new + vec_len more ≤ vec_capacity judged.new) }
    ensures same { judged.new.items ≡ judged.old.items }
{
    let more = judgements_of(alloc, steps)?;
    judged.reserve(more.len())?;
    Ok(more)
}

/// Appends judgements for which there is room.
pub fn append_judgements(judged: &mut Vec<Judgement>, mut more: Vec<Judgement>)
    requires { vec_len judged.old + vec_len more ≤ vec_capacity judged.old }
    ensures { judged.new.items ≡ judged.old.items ++ more.items }
{
    judged.append(&mut more).unwrap();
}

/// Whether one of the items stands in the suite.
fn some_in_suite(entries: &[(ShelfKey, Item)], suite: usize) -> bool
    ensures { result ≡ is_put_in suite entries.now }
{
    for entry in entries {
        if entry.0.suite == suite {
            return true;
        }
    }
    false
}

/// Whether a step changes what the suite shows.
#[tactic(auto, unfolding(crate::specs::Book::touches))]
fn changes_suite(step: &Step, suite: usize) -> bool
    ensures { result ≡ touches suite step.now.plan }
{
    let puts = some_in_suite(step.plan.put.as_slice(), suite);
    let drops = some_in_suite(step.plan.dropped.as_slice(), suite);
    puts || drops
}

/// Whether one of the steps puts or drops an item of the suite, which is a position in the configuration.
pub fn some_changes_suite(steps: &[Step], suite: usize) -> bool
    ensures { result ≡ some_touches suite steps.now }
{
    for step in steps {
        if changes_suite(step, suite) {
            return true;
        }
    }
    false
}

/// The dates after a change: its moment for each suite whose shown items it changes.
pub fn dates_after(
    alloc: Global,
    dates: &[u64],
    steps: &[Step],
    moment: u64,
) -> Result<Vec<u64>, AllocError>
    requires moment { moment ≤ LATEST }
    requires dates { All (λ date. date ≤ LATEST) dates.now }
    ensures in_range { IfOk result (λ after. All (λ date. date ≤ LATEST) after.items) }
    ensures after { IfOk result (λ after. after.items ≡ dates_past moment dates.now steps.now) }
{
    let mut after = Vec::new(alloc);
    for suite in 0..dates.len() {
        let date = if some_changes_suite(steps, suite) {
            moment
        } else {
            dates[suite]
        };
        after.push(date)?;
    }
    Ok(after)
}
