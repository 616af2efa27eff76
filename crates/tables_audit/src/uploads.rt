//! The uploads: whether their rows are those of judged ones in their order, and of the .changes that wait for a verdict.

mod arrived;
mod awaited;
mod judged;
mod lookups;
mod places;
mod signs;
mod wanted;

ghost use Rattle.std.specs.Prelude.{◌≡◌, None, IfOk, IfSome, List, MatchBool};
ghost use Rattle.book.specs.declared.change.Judgement.{Judgement as JudgementValue};
ghost use Rattle.tables_read.specs.All.{AreConstrained, tables_with};
ghost use Rattle.tables_audit.specs.Parts.{BodiesFit, UploadsFit};
ghost use Rattle.tables_audit.specs.Uploads.{AreApart, AreAsked, AreBesides};

use crate::keyed::Rows;
use crate::pieces::Pieces;
use arrived::{Arrived, arrived_among};
use awaited::{Awaited, awaited_among};
use book::Judgement;
use judged::{are_placed, judged_until, last_place};
use lookups::{There, Verdicts};
use std::alloc::{AllocError, Global};
use tables_read::AllRows;
use wanted::{are_owned, are_requests, have_places};

/// Whether the rows without a place are those of the .changes that wait, in some order, with what they want.
fn are_asked(
    alloc: Global,
    all: &AllRows,
    arrived: &[Arrived<'_>],
    awaited: Vec<Awaited<'_>>,
) -> Result<bool, AllocError>
    ensures { AreApart all.now.uploads.items → IfOk result (λ fit. MatchBool fit (AreAsked all.now.uploads.items all.now.wants.items arrived.now awaited.entry.items)
        (AreAsked all.now.uploads.items all.now.wants.items arrived.now awaited.entry.items → ⊥)) }
{
    // If none waits, nothing is looked up among what arrived.
    if awaited.is_empty() {
        return Ok(have_places(&all.uploads));
    }
    let there = There::new(alloc, arrived)?;
    let wants = Rows::new(&all.wants);
    are_requests(alloc, &all.uploads, &wants, &there, awaited)
}

/// Whether, beside these judged ones, the rows are those of the .changes that wait for a verdict, with what they want.
fn are_besides(alloc: Global, all: &AllRows, judged: &[Judgement]) -> Result<bool, AllocError>
    ensures { AreConstrained (tables_with all.now) → BodiesFit (tables_with all.now)
        → IfOk result (λ fit. MatchBool fit (AreBesides (tables_with all.now) judged.now)
        (AreBesides (tables_with all.now) judged.now → ⊥)) }
{
    let bodies = Rows::new(&all.bodies);
    let Some(arrived) = arrived_among(alloc, &all.arrivals, &bodies)? else {
        return Ok(false);
    };
    let pieces = Pieces::new(all);
    let verdicts = Verdicts::new(alloc, judged)?;
    let awaited = awaited_among(alloc, &pieces, &verdicts, &arrived)?;
    if !are_asked(alloc, all, &arrived, awaited)? {
        return Ok(false);
    }
    let uploads = Rows::new(&all.uploads);
    Ok(are_owned(&all.wants, &uploads))
}

/// The judged uploads in their order, if the rows of uploads and of what they want are those of an archive.
pub fn judgements_in(alloc: Global, all: &AllRows) -> Result<Option<Vec<Judgement>>, AllocError>
    ensures some { AreConstrained (tables_with all.now) → BodiesFit (tables_with all.now)
        → IfOk result (λ o. IfSome o (λ judged. UploadsFit (tables_with all.now) judged.items)) }
    ensures none { AreConstrained (tables_with all.now) → BodiesFit (tables_with all.now)
        → IfOk result (λ o. o ≡ None → (judged : List JudgementValue) → UploadsFit (tables_with all.now) judged → ⊥) }
{
    if !are_placed(&all.uploads) {
        return Ok(None);
    }
    let last = last_place(&all.uploads);
    let Some(judged) = judged_until(alloc, &all.uploads, last)? else {
        return Ok(None);
    };
    if !are_besides(alloc, all, &judged)? {
        return Ok(None);
    }
    Ok(Some(judged))
}
