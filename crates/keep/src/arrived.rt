//! What has arrived at the plain keeper, without its bytes, and the bytes of one body.

ghost use Rattle.std.specs.Prelude.{◌≡◌, find, map, IfOk};
ghost use Rattle.std.specs.Option.{option_map};
ghost use Rattle.book.specs.Book.{arrived_file, is_arrival_of};

use crate::arrival::arrival_of;
use book::{Arrival, ArrivedFile};
use std::alloc::{AllocError, Global};
use sums::Print;

/// An arrival without its bytes.
fn arrived_file(arrival: &Arrival) -> Result<ArrivedFile, AllocError>
    ensures { IfOk result (λ file. file ≡ arrived_file arrival.now) }
{
    Ok(ArrivedFile {
        name: arrival.name.try_clone()?,
        print: arrival.body.print(),
        moment: arrival.moment,
    })
}

/// The arrivals without their bytes.
pub fn arrived_files(alloc: Global, arrivals: &[Arrival]) -> Result<Vec<ArrivedFile>, AllocError>
    ensures { IfOk result (λ files. files.items ≡ map arrived_file arrivals.now) }
{
    let mut files = Vec::new(alloc);
    for arrival in arrivals {
        files.push(arrived_file(arrival)?)?;
    }
    Ok(files)
}

/// A copy of the first body of this print that arrived under this name.
pub fn arrived_body(
    alloc: Global,
    arrivals: &[Arrival],
    name: &str,
    print: &Print,
) -> Result<Option<Vec<u8>>, AllocError>
    ensures { IfOk result (λ found. option_map (λ body. body.items) found ≡ option_map (λ a. a.body) (find (is_arrival_of name.now print.now) arrivals.now)) }
{
    match arrival_of(arrivals, name, *print) {
        Some(arrival) => Ok(Some(Vec::from_slice(alloc, arrival.body.as_slice())?)),
        None => Ok(None),
    }
}
