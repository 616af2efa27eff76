//! What came in place of what an upload lacks.

ghost use Rattle.std.specs.Prelude.{◌≡◌, IfOk, map};
ghost use Rattle.inquiry.specs.Instead.{came_in, came_of, is_another};

use crate::named::Delivered;
use book::{Counting, Lack, group_of};
use para::Listed;
use std::alloc::{AllocError, Global};
use std::collections::BTreeMap;
use sums::Print;

/// Whether what was delivered under the name of a lacking file has another print, and counts.
fn is_another(counting: Counting, lack: &Lack, delivered: Delivered) -> bool
    ensures { result ≡ is_another counting lack.now delivered }
{
    counting.counts_since(delivered.moment) && delivered.print != lack.print
}

/// The prints of the other contents that came under the name of a lacking file and count, in the order of first deliveries.
fn came_of(
    alloc: Global,
    deliveries: &[Delivered],
    counting: Counting,
    lack: &Lack,
) -> Result<Listed<Print>, AllocError>
    ensures { IfOk result (λ prints. prints ≡ came_of counting deliveries.now lack.now) }
{
    let mut prints = Vec::new(alloc);
    for delivered in deliveries {
        if is_another(counting, lack, *delivered) {
            prints.push(delivered.print)?;
        }
    }
    Ok(Listed::from_vec(prints))
}

/// For each of these lacking files in order, the prints of the other contents that came under its name and count, in the order of first
/// deliveries.
pub fn came_instead(
    alloc: Global,
    named: &BTreeMap<String, Vec<Delivered>>,
    counting: Counting,
    lacks: &[Lack],
) -> Result<Vec<Listed<Print>>, AllocError>
    ensures { IfOk result (λ all. all.items ≡ map (came_in counting named.now) lacks.now) }
{
    let mut all = Vec::new(alloc);
    for lack in lacks {
        let deliveries = group_of(named, lack.name.as_str());
        all.push(came_of(alloc, deliveries, counting, lack)?)?;
    }
    Ok(all)
}
