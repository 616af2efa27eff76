//! The .changes that arrived and wait for a verdict.

ghost use Rattle.std.specs.Prelude.{◌≡◌, IfOk, map};
ghost use Rattle.std.specs.List.{filter_map};
ghost use Rattle.tables_audit.specs.Uploads.{awaited_view, changes_awaited, found_awaited, has_judgement, printed};

use crate::bodies::bytes_of;
use crate::pieces::Pieces;
use crate::uploads::arrived::Arrived;
use crate::uploads::lookups::Verdicts;
use crate::uploads::signs::sign_of_arrived;
use records::Changes;
use std::alloc::{AllocError, Global};
use suites::changes_in;
use sums::{Print, is_changes_name};
use tables::rows::ArrivalRow;

/// A .changes that waits for a verdict: its arrival, its print, and the record that it is.
#[derive(Drop)]
pub struct Awaited<'a> {
    pub arrival: &'a ArrivalRow,
    pub print: Print,
    pub changes: Changes,
}

/// Whether what arrived has a verdict.
fn is_judged(judged: &Verdicts<'_>, arrived: &Arrived<'_>) -> bool
    ensures { result ≡ has_judgement judged.now.all.now (printed arrived.now) }
{
    let sign = sign_of_arrived(arrived);
    judged.has(&sign)
}

/// The record that waits for a verdict, if what arrived is one.
#[tactic(auto, unfolding(crate::specs::Uploads::changes_awaited, tables_meaning::specs::Kept::bytes_of))]
fn awaited_changes(
    alloc: Global,
    pieces: &Pieces<'_>,
    judged: &Verdicts<'_>,
    arrived: &Arrived<'_>,
) -> Result<Option<Changes>, AllocError>
    ensures { IfOk result (λ changes. changes ≡ changes_awaited pieces.now.all.now.pieces.items judged.now.all.now (printed arrived.now)) }
{
    if !is_changes_name(arrived.arrival.name.as_str()) {
        return Ok(None);
    }
    if is_judged(judged, arrived) {
        return Ok(None);
    }
    let bytes = bytes_of(alloc, pieces, arrived.arrival.body)?;
    changes_in(alloc, &bytes)
}

/// The .changes that wait for a verdict, in the order of their arrival.
pub fn awaited_among<'a>(
    alloc: Global,
    pieces: &Pieces<'_>,
    judged: &Verdicts<'_>,
    arrived: &[Arrived<'a>],
) -> Result<Vec<Awaited<'a>>, AllocError>
    ensures { IfOk result (λ awaited. map awaited_view awaited.items
        ≡ filter_map (found_awaited pieces.now.all.now.pieces.items judged.now.all.now) (map printed arrived.now)) }
{
    let mut awaited = Vec::new(alloc);
    for one in arrived {
        if let Some(changes) = awaited_changes(alloc, pieces, judged, one)? {
            awaited.push(Awaited {
                arrival: one.arrival,
                print: one.print,
                changes,
            })?;
        }
    }
    Ok(awaited)
}
