//! What was judged.

ghost use Rattle.std.specs.Prelude.{◌≡◌, IfOk, nat_eq};
ghost use Rattle.rules.specs.Verdicts.{number_of};
ghost use Rattle.figures.specs.Families.{verdict_sample, verdicts_family};
ghost use Rattle.figures.specs.Numbers.{judged_as};

use crate::family::{Family, Figure, Sample, labelled};
use book::Judgement;
use std::alloc::{AllocError, Global};

/// How many verdicts there are, with that of an accepted upload.
const VERDICTS: u64 = 10;

/// Whether the verdict has the number.
fn has_number(judgement: &Judgement, number: u64) -> bool
    ensures { result ≡ nat_eq (number_of judgement.now.verdict) number }
{
    judgement.verdict.number() as u64 == number
}

/// How many uploads have the verdict of a number.
#[tactic(auto, unfolding(crate::specs::Numbers::judged_as))]
fn judged_as(judged: &[Judgement], number: u64) -> u64
    ensures { result ≡ judged_as judged.now number }
{
    judged
        .iter()
        .filter(|judgement| has_number(judgement, number))
        .count() as u64
}

/// How many uploads have the verdict of a number, with the number.
fn verdict_sample(alloc: Global, judged: &[Judgement], number: u64) -> Result<Sample, AllocError>
    ensures { IfOk result (λ sample. sample ≡ verdict_sample judged.now number) }
{
    let label = format!(in alloc; "{number}")?;
    labelled(alloc, label.as_str(), judged_as(judged, number))
}

/// How many verdicts were given, by their numbers.
#[tactic(auto, unfolding(crate::specs::Families::verdicts_family))]
pub fn verdicts_family(alloc: Global, judged: &[Judgement]) -> Result<Family, AllocError>
    ensures { IfOk result (λ family. family ≡ verdicts_family judged.now) }
{
    let mut samples = Vec::new(alloc);
    for number in 0..VERDICTS {
        samples.push(verdict_sample(alloc, judged, number)?)?;
    }
    Ok(Family::new(Figure::Verdicts, samples))
}
