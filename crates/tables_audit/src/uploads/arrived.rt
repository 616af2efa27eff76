//! What has arrived, with the prints of the bodies.

ghost use Rattle.std.specs.Prelude.{◌≡◌, None, Contains, IfOk, IfSome, map};
ghost use Rattle.tables.specs.Rows.{rows_of};
ghost use Rattle.tables_audit.specs.Uploads.{is_there_among, print_among, printed, with_print, with_print_in};

use crate::keyed::Rows;
use crate::uploads::lookups::There;
use crate::uploads::signs::sign_of_entry;
use std::alloc::{AllocError, Global};
use sums::{Entry, Print};
use tables::rows::{ArrivalRow, BodyRow};

/// An arrival, and the print of its body.
#[derive(Clone, Copy)]
pub struct Arrived<'a> {
    pub arrival: &'a ArrivalRow,
    pub print: Print,
}

/// The print of the body of a number.
#[tactic(auto, unfolding(crate::specs::Uploads::print_among))]
fn print_of_body(bodies: &[(u64, BodyRow)], id: u64) -> Option<Print>
    ensures { result ≡ print_among bodies.now id }
{
    for (number, body) in bodies {
        if *number == id {
            return body.print;
        }
    }
    None
}

/// The print of the body of a number, looked up among all bodies.
fn print_by_number(bodies: &Rows<'_, (u64, BodyRow)>, id: u64) -> Option<Print>
    ensures { result ≡ print_among bodies.now.all.now id }
{
    print_of_body(bodies.about(id), id)
}

/// The arrivals with the prints of their bodies, if each has one.
pub fn arrived_among<'a>(
    alloc: Global,
    arrivals: &'a [(u64, ArrivalRow)],
    bodies: &Rows<'_, (u64, BodyRow)>,
) -> Result<Option<Vec<Arrived<'a>>>, AllocError>
    ensures some { IfOk result (λ o. IfSome o (λ arrived. map with_print arrived.items ≡ map (with_print_in bodies.now.all.now) (rows_of arrivals.now))) }
    ensures none { IfOk result (λ o. o ≡ None → Contains (map (λ a. print_among bodies.now.all.now a.body) (rows_of arrivals.now)) None) }
{
    let mut arrived = Vec::new(alloc);
    for (_, arrival) in arrivals {
        let Some(print) = print_by_number(bodies, arrival.body) else {
            return Ok(None);
        };
        arrived.push(Arrived { arrival, print })?;
    }
    Ok(Some(arrived))
}

/// Whether a body of the listed name and print has arrived.
pub fn is_there(arrived: &There<'_>, entry: &Entry) -> bool
    ensures { result ≡ is_there_among (map printed arrived.now.all.now) entry.now }
{
    let sign = sign_of_entry(entry);
    arrived.has(&sign)
}
