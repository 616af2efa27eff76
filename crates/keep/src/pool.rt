//! The plain keeper's files of the pool.

ghost use Rattle.std.specs.Prelude.{◌≡◌, ℕ, ◌++◌, ◌∷◌, [], List, map, find, option_copied, IfOk, OnOk, Option, Some};
ghost use Rattle.std.specs.Option.{option_map};
ghost use Rattle.std.specs.FinMap.{values};
ghost use Rattle.sums.specs.Prints.{print as print_of_body, same_print};
ghost use Rattle.suites.specs.Pool.{files_of, pair_of};
ghost use Rattle.keep.specs.Scan.{body_at, stored_among, PoolHas, is_at};

use book::{Arrival, Body};
use para::Text;
use std::alloc::{AllocError, Global};
use suites::{PoolFile, Shelves};
use sums::Print;

/// A path of the pool, and the body of the file there.
#[derive(Drop)]
pub struct PoolBody {
    pub path: Text,
    /// Nothing if no body of the file's print has arrived.
    pub body: Option<Body>,
}

/// The file at a path.
fn file_at<'a>(files: &'a [PoolBody], path: &str) -> Option<&'a PoolBody>
    ensures { option_copied result ≡ find (is_at path.now) files.now }
{
    for file in files {
        if file.path.as_str() == path {
            return Some(file);
        }
    }
    None
}

/// A copy of the body at a path.
#[tactic(auto, unfolding(crate::specs::Scan::body_at))]
pub fn body_at_path(
    alloc: Global,
    files: &[PoolBody],
    path: &str,
) -> Result<Option<Vec<u8>>, AllocError>
    ensures { IfOk result (λ found. option_map (λ body. body.items) found ≡ body_at files.now path.now) }
{
    if let Some(file) = file_at(files, path) {
        if let Some(body) = &file.body {
            return Ok(Some(Vec::from_slice(alloc, body.as_slice())?));
        }
    }
    Ok(None)
}

/// The first arrival with a body of this print.
fn arrival_with(arrivals: &[Arrival], print: Print) -> Option<&Arrival>
    ensures { option_copied result ≡ find (λ a. same_print (print_of_body a.body) print) arrivals.now }
{
    for arrival in arrivals {
        if arrival.body.print() == print {
            return Some(arrival);
        }
    }
    None
}

/// The body of a file of the pool: the one that stands at the path already, if its print fits, or else one that
/// arrived.
#[tactic(auto, unfolding(crate::specs::Scan::stored_among, crate::specs::Scan::body_at))]
fn stored_body(
    alloc: Global,
    arrivals: &[Arrival],
    files: &[PoolBody],
    path: &str,
    print: Print,
) -> Result<Option<Body>, AllocError>
    ensures { IfOk result (λ body. body ≡ stored_among arrivals.now files.now path.now print) }
{
    if let Some(file) = file_at(files, path) {
        if let Some(body) = &file.body {
            if body.print() == print {
                return Ok(Some(body.try_clone(alloc)?));
            }
        }
    }
    match arrival_with(arrivals, print) {
        Some(arrival) => Ok(Some(arrival.body.try_clone(alloc)?)),
        None => Ok(None),
    }
}

/// Adds a file with its body, if no other stands at its path.
fn add_file(
    alloc: Global,
    bodies: &mut Vec<PoolBody>,
    arrivals: &[Arrival],
    files: &[PoolBody],
    file: &PoolFile,
) -> Result<(), AllocError>
    ensures { OnOk result ((done : List (List ℕ × Print)) → PoolHas arrivals.now files.now bodies.old.items done
        → PoolHas arrivals.now files.now bodies.new.items (done ++ pair_of file.now ∷ [])) }
{
    let path = file.path.as_str();
    if file_at(bodies, path).is_none() {
        let body = stored_body(alloc, arrivals, files, path, file.print)?;
        bodies.push(PoolBody {
            path: file.path.try_clone()?,
            body,
        })?;
    }
    Ok(())
}

/// Adds each of the files.
fn add_files(
    alloc: Global,
    bodies: &mut Vec<PoolBody>,
    arrivals: &[Arrival],
    files: &[PoolBody],
    added: &[PoolFile],
) -> Result<(), AllocError>
    ensures { OnOk result ((done : List (List ℕ × Print)) → PoolHas arrivals.now files.now bodies.old.items done
        → PoolHas arrivals.now files.now bodies.new.items (done ++ map pair_of added.now)) }
{
    for file in added {
        add_file(alloc, bodies, arrivals, files, file)?;
    }
    Ok(())
}

/// The files of the items that the suites show, each path once.
pub fn pool_bodies(
    alloc: Global,
    arrivals: &[Arrival],
    files: &[PoolBody],
    shelves: &Shelves,
) -> Result<Vec<PoolBody>, AllocError>
    ensures { IfOk result (λ bodies. PoolHas arrivals.now files.now bodies.items (files_of (values shelves.now))) }
{
    let mut bodies = Vec::new(alloc);
    for (_, item) in shelves.items() {
        add_files(alloc, &mut bodies, arrivals, files, item.files.as_slice())?;
    }
    Ok(bodies)
}
