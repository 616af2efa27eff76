//! The plan of an export.

ghost use Rattle.std.specs.Prelude.{◌≡◌, ◌++◌, IfOk};
ghost use Rattle.std.specs.BTreeMap.{get_by_text};
ghost use Rattle.tree.specs.Files.{named_by, pool_files};
ghost use Rattle.tree.specs.Planned.{planned};
ghost use Rattle.tree.specs.Promised.{GoesOn, KeepsFound, KeepsWhole, PlacesAll, RemovesLeft, ShowsAll, TouchesNoOther};
ghost use Rattle.tree.specs.Tree.{AreShown, IsNeeded};

use crate::steps::{Step, files_of, placed_new, placed_over, removed, shown};
use para::Text;
use std::alloc::{AllocError, Global};
use std::collections::BTreeMap;
use suites::Shelves;
use sums::Print;

/// The steps of an export in their order: what is written, what is shown, what is removed.
fn in_order(
    mut new: Vec<Step>,
    mut over: Vec<Step>,
    mut shown: Vec<Step>,
    mut removed: Vec<Step>,
) -> Result<Vec<Step>, AllocError>
    ensures { IfOk result (λ steps. steps.items ≡ ((new.items ++ over.items) ++ shown.items) ++ removed.items) }
{
    new.append(&mut over)?;
    new.append(&mut shown)?;
    new.append(&mut removed)?;
    Ok(new)
}

/// The steps of an export of the pool and the suites of these shelves. In this order it writes the files of the pool at whose
/// paths nothing is known to be; writes those at whose paths other contents are known to be; has each of the suites, by its
/// position in the configuration, show its new indices; and removes what was left before and is not a file of the pool. What
/// the indices showed first and no longer show stays until the next export.
///
/// `there` has the print of what is known to be there at each path, and `left` the paths that the export before left. It is
/// refused for want of memory alone.
pub fn plan(
    alloc: Global,
    shelves: &Shelves,
    there: &BTreeMap<String, Print>,
    suites: &[usize],
    left: &[Text],
) -> Result<Vec<Step>, AllocError>
    // These are the steps, in their order.
    ensures steps { IfOk result (λ steps. steps.items ≡ planned (get_by_text there.now) (pool_files shelves.now) suites.now left.now) }
    // At no moment does an index name a file that is not there.
    ensures whole { IfOk result (λ steps. KeepsWhole (get_by_text there.now) (pool_files shelves.now) left.now steps.items) }
    // Wherever the export is stopped, the next one may begin.
    ensures goes_on { IfOk result (λ steps. GoesOn (get_by_text there.now) (pool_files shelves.now) left.now steps.items) }
    // Even if a path gets other contents than an index names, some file is there at each moment.
    ensures found { IfOk result (λ steps. KeepsFound (get_by_text there.now) (pool_files shelves.now) left.now steps.items) }
    // In the end each file of the pool is there, and these suites show what they are to show.
    ensures placed { IfOk result (λ steps. PlacesAll (get_by_text there.now) (pool_files shelves.now) left.now steps.items) }
    ensures shown { IfOk result (λ steps. ShowsAll suites.now steps.items) }
    // In the end what was left before and is not a file of the pool is gone. What was neither left before nor is of the pool is never touched.
    ensures gone { IfOk result (λ steps. RemovesLeft (pool_files shelves.now) left.now steps.items) }
    ensures rest { IfOk result (λ steps. TouchesNoOther (pool_files shelves.now) left.now steps.items) }
    // What is there is not written again.
    ensures needed { IfOk result (λ steps. IsNeeded (get_by_text there.now) steps.items) }
{
    let files = files_of(shelves);
    let new = placed_new(alloc, there, files)?;
    let over = placed_over(alloc, there, files)?;
    let shown = shown(alloc, suites)?;
    let removed = removed(alloc, shelves, left)?;
    in_order(new, over, shown, removed)
}

/// The indices of the items that suites show name only files of the pool, as `plan` asks. For the prover alone: the law is the
/// contract.
pub fn suites_name_the_pool(shelves: &Shelves)
    ensures { AreShown (pool_files shelves.now) (named_by shelves.now) }
{
    shelves.agree();
}
