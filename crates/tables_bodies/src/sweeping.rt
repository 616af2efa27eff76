//! Takes bodies away that nothing uses.
//!
//! A change that takes files out of the pool may leave bodies that nothing uses. They are removed with it. For this the numbers of all
//! bodies, arrivals and files are read.

ghost use Rattle.std.specs.Prelude.{◌≡◌, ◌++◌, filter, nat_eq, not, IfOk, OnOk};
ghost use Rattle.std.specs.List.{list_any};
ghost use Rattle.std.specs.List.Sorted.{IsNonDecreasing, IsPermutation};
ghost use Rattle.tables_bodies.specs.Unused.{unused_in};
ghost use Rattle.tables_meaning.specs.Amending.{Makes};
ghost use Rattle.tables_meaning.specs.Kept.{used_in};
ghost use Rattle.tables_meaning.specs.Sweeping.{swept};
ghost use Rattle.tables.specs.Calls.{CommitsNothing, GoesOnInside, Inside, IsSame, KeepsCommitted, Looks};

use crate::removing::remove_bodies;
use sqlite::{Alter, Error, Transaction};
use std::alloc::{AllocError, Global};
use tables::arrivals::arrived_bodies_inside;
use tables::bodies::body_numbers_inside;
use tables::files::filed_bodies_inside;
use tables_meaning::is_among;

/// These numbers, and the others after them.
fn with_others(mut numbers: Vec<u64>, others: &[u64]) -> Result<Vec<u64>, AllocError>
    ensures { IfOk result (λ all. all.items ≡ numbers.items ++ others.now) }
{
    numbers.extend_from_slice(others)?;
    Ok(numbers)
}

/// The numbers in rising order.
fn in_rising_order(mut numbers: Vec<u64>) -> Vec<u64>
    ensures rise { IsNonDecreasing result.items }
    ensures same { IsPermutation numbers.items result.items }
{
    numbers.sort_unstable();
    numbers
}

/// The numbers that are not among others, which stand in rising order.
fn without_others(alloc: Global, ids: &[u64], others: &[u64]) -> Result<Vec<u64>, AllocError>
    requires { IsNonDecreasing others.now }
    ensures { IfOk result (λ left. left.items ≡ filter (λ id. not (list_any (λ n. nat_eq n id) others.now)) ids.now) }
{
    let mut left = Vec::new(alloc);
    for id in ids {
        if !is_among(others, *id) {
            left.push(*id)?;
        }
    }
    Ok(left)
}

/// The numbers of the bodies that arrivals and files have, in rising order.
fn used_bodies<S: Alter>(alloc: Global, tx: &mut Transaction<'_, S>) -> Result<Vec<u64>, Error>
    ensures rise { IfOk result (λ used. IsNonDecreasing used.items) }
    ensures same_reference { IsSame tx.old tx.new }
    ensures ok { Looks S.Store tx.old tx.new result (λ t used. IsPermutation (used_in t) used.items) }
    ensures goes_on { GoesOnInside S.Store tx.old tx.new result }
    ensures kept { KeepsCommitted S.Store tx.old tx.new result }
    ensures survives { CommitsNothing S.Store tx.old tx.new }
{
    let arrived = arrived_bodies_inside(alloc, tx)?;
    let filed = filed_bodies_inside(alloc, tx)?;
    let used = with_others(arrived, &filed)?;
    Ok(in_rising_order(used))
}

/// The numbers of the bodies that no arrival and no file has.
fn unused_bodies<S: Alter>(alloc: Global, tx: &mut Transaction<'_, S>) -> Result<Vec<u64>, Error>
    ensures same_reference { IsSame tx.old tx.new }
    ensures ok { Looks S.Store tx.old tx.new result (λ t unused. unused.items ≡ unused_in t) }
    ensures goes_on { GoesOnInside S.Store tx.old tx.new result }
    ensures kept { KeepsCommitted S.Store tx.old tx.new result }
    ensures survives { CommitsNothing S.Store tx.old tx.new }
{
    let all = body_numbers_inside(alloc, tx)?;
    let used = used_bodies(alloc, tx)?;
    let unused = without_others(alloc, &all, &used)?;
    Ok(unused)
}

/// Removes the bodies that no arrival and no file has, and their pieces.
pub fn sweep<S: Alter>(alloc: Global, tx: &mut Transaction<'_, S>) -> Result<(), Error>
    ensures same_reference { IsSame tx.old tx.new }
    ensures ok { Inside S.Store tx.old tx.new (λ old new. OnOk result (Makes old new (swept))) }
    ensures err { KeepsCommitted S.Store tx.old tx.new result }
    ensures survives { CommitsNothing S.Store tx.old tx.new }
{
    let unused = unused_bodies(alloc, tx)?;
    remove_bodies(tx, &unused)
}
