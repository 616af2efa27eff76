//! The files of the pool, and the rows that say where their bodies are.

ghost use Rattle.std.specs.Prelude.{◌≡◌, ◌↔◌, ℕ, List, All, IfOk, IsTrue, is_some};
ghost use Rattle.std.specs.BTreeMap.{get_by_text};
ghost use Rattle.suites.specs.Shelves.{pool as pool_of};
ghost use Rattle.tables_read.specs.All.{AreConstrained, tables_with};
ghost use Rattle.tables_meaning.specs.Kept.{AreFiles, print_in};
ghost use Rattle.tables_audit.specs.Files.{AreThose, HasPrint, is_path};

use crate::keyed::Rows;
use std::alloc::{AllocError, Global};
use std::collections::BTreeMap;
use suites::{SharedFile, Shelves};
use sums::Print;
use tables::rows::{BodyRow, File};
use tables_read::AllRows;

/// The print of the body of a number, if there is one and it is whole.
fn print_of(bodies: &[(u64, BodyRow)], id: u64) -> Option<Print>
    ensures { result ≡ print_in bodies.now id }
{
    for (number, body) in bodies {
        if *number == id {
            return body.print;
        }
    }
    None
}

/// The print of the body of a number, looked up among all bodies.
fn print_by_number(bodies: &Rows<'_, (u64, BodyRow)>, id: u64) -> Option<Print>
    ensures { result ≡ print_in bodies.now.all.now id }
{
    print_of(bodies.about(id), id)
}

/// Whether two prints are the same, or neither is there.
fn are_same(one: Option<Print>, other: Option<Print>) -> bool
    ensures { IsTrue result ↔ one ≡ other }
{
    match (one, other) {
        (Some(one), Some(other)) => one == other,
        (None, None) => true,
        _ => false,
    }
}

/// Whether the body of each file has the print that the pool has at the file's path.
fn have_prints(shelves: &Shelves, bodies: &Rows<'_, (u64, BodyRow)>, files: &[(u64, File)]) -> bool
    ensures { IsTrue result ↔ All (HasPrint (pool_of shelves.now) bodies.now.all.now) files.now }
{
    for (_, file) in files {
        if !are_same(
            print_by_number(bodies, file.body),
            shelves.file(file.path.as_str()),
        ) {
            return false;
        }
    }
    true
}

/// The paths of files, each with the number of its body.
fn paths_of(alloc: Global, files: &[(u64, File)]) -> Result<BTreeMap<String, u64>, AllocError>
    ensures { IfOk result (λ paths. (path : List ℕ) → is_some (get_by_text paths path) ≡ is_path files.now path) }
{
    let mut paths = BTreeMap::new(alloc);
    for (_, file) in files {
        let path = String::from_str(alloc, file.path.as_str())?;
        paths.insert(path, file.body)?;
    }
    Ok(paths)
}

/// Whether each path of a pool is one of these.
fn has_each(paths: &BTreeMap<String, u64>, pool: &BTreeMap<String, SharedFile>) -> bool
    ensures { IsTrue result ↔ ((path : List ℕ) → IsTrue (is_some (get_by_text pool.now path))
        → IsTrue (is_some (get_by_text paths.now path))) }
{
    for (path, _) in pool {
        if !paths.contains_key(path.as_str()) {
            return false;
        }
    }
    true
}

/// Whether the files of the rows are those of the pool.
fn are_those(
    alloc: Global,
    shelves: &Shelves,
    bodies: &Rows<'_, (u64, BodyRow)>,
    files: &[(u64, File)],
) -> Result<bool, AllocError>
    ensures { IfOk result (λ those. IsTrue those ↔ AreThose (pool_of shelves.now) bodies.now.all.now files.now) }
{
    if !have_prints(shelves, bodies, files) {
        return Ok(false);
    }
    let paths = paths_of(alloc, files)?;
    Ok(has_each(&paths, shelves.files()))
}

/// Whether the rows of files are exactly those of the pool, each with a body of its print.
pub fn are_files_of(alloc: Global, all: &AllRows, shelves: &Shelves) -> Result<bool, AllocError>
    ensures fit { IfOk result (λ those. AreConstrained (tables_with all.now) →
        IsTrue those ↔ AreFiles (tables_with all.now) shelves.now) }
{
    let bodies = Rows::new(all.bodies.as_slice());
    are_those(alloc, shelves, &bodies, all.files.as_slice())
}
