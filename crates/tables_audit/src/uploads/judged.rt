//! The judged uploads, in the order of their places.

ghost use Rattle.std.specs.Prelude.{◌≡◌, Some, None, All, Contains, MatchBool, IfOk, IfSome, map};
ghost use Rattle.std.specs.List.{range_with_len};
ghost use Rattle.std.specs.Option.{option_and_then};
ghost use Rattle.tables.specs.Rows.{rows_of};
ghost use Rattle.tables_audit.specs.Places.{first_at, placed_view};
ghost use Rattle.tables_audit.specs.Uploads.{IsPlacedWell, judged_at, judgement_in, last_of, later as later_of};

use crate::keyed::Rows;
use crate::uploads::places::{Placed, by_place, upload_at};
use book::Judgement;
use rules::Verdict;
use std::alloc::{AllocError, Global};
use tables::rows::UploadRow;

/// Whether an upload without a place has no verdict, and one with a place does not have the place 0.
fn is_placed_well(upload: &UploadRow) -> bool
    ensures { MatchBool result (IsPlacedWell upload.now) (IsPlacedWell upload.now → ⊥) }
{
    match upload.place {
        Some(place) => place != 0,
        None => upload.verdict.is_none(),
    }
}

/// Whether each upload without a place has no verdict, and no upload has the place 0.
pub fn are_placed(uploads: &[(u64, UploadRow)]) -> bool
    ensures { MatchBool result (All IsPlacedWell (rows_of uploads.now)) (All IsPlacedWell (rows_of uploads.now) → ⊥) }
{
    for (_, upload) in uploads {
        if !is_placed_well(upload) {
            return false;
        }
    }
    true
}

/// The later of a place and the one that an upload has.
fn later(last: u64, place: Option<u64>) -> u64
    ensures { result ≡ later_of last place }
{
    match place {
        Some(place) => { if last < place { place } else { last } }
        None => last,
    }
}

/// The last place that an upload has, or 0 if no upload has a place.
pub fn last_place(uploads: &[(u64, UploadRow)]) -> u64
    ensures { result ≡ last_of uploads.now }
{
    let mut last = 0;
    for (_, upload) in uploads {
        last = later(last, upload.place);
    }
    last
}

/// The judgement that a row is, if the row has the number of a verdict.
#[tactic(auto, unfolding(crate::specs::Uploads::judgement_in))]
fn judgement_of(upload: &UploadRow) -> Result<Option<Judgement>, AllocError>
    ensures { IfOk result (λ judgement. judgement ≡ judgement_in upload.now) }
{
    let Some(number) = upload.verdict else {
        return Ok(None);
    };
    let Some(verdict) = Verdict::with_number(number) else {
        return Ok(None);
    };
    Ok(Some(Judgement {
        name: upload.name.try_clone()?,
        print: upload.print,
        verdict,
    }))
}

/// The judgement at a place, if there is one.
fn judgement_at(placed: &Rows<'_, Placed<'_>>, place: u64) -> Result<Option<Judgement>, AllocError>
    ensures { IfOk result (λ judgement. judgement ≡ option_and_then judgement_in (first_at (map placed_view placed.now.all.now) place)) }
{
    match upload_at(placed, place) {
        Some(upload) => judgement_of(upload),
        None => Ok(None),
    }
}

/// The judgements at the places from 1 to a last one, if each of them has one.
pub fn judged_until(
    alloc: Global,
    uploads: &[(u64, UploadRow)],
    last: u64,
) -> Result<Option<Vec<Judgement>>, AllocError>
    ensures some { IfOk result (λ o. IfSome o (λ judged. map Some judged.items ≡ map (judged_at uploads.now) (range_with_len 1 last))) }
    ensures none { IfOk result (λ o. o ≡ None → Contains (map (judged_at uploads.now) (range_with_len 1 last)) None) }
{
    let placed = by_place(alloc, uploads)?;
    let rows = Rows::new(&placed);
    let mut judged = Vec::new(alloc);
    for before in 0..last {
        let Some(judgement) = judgement_at(&rows, before + 1)? else {
            return Ok(None);
        };
        judged.push(judgement)?;
    }
    Ok(Some(judged))
}
