//! Which files the pool gains and loses.

ghost use Rattle.std.specs.Prelude.{◌≡◌, [], ◌∷◌, ◌++◌, ℕ, List, Some, IfOk, bytes_eq, cond, map, option_copied};
ghost use Rattle.std.specs.BTreeMap.{IsOrdered, get_by_text};
ghost use Rattle.std.specs.String.{string_cmp};
ghost use Rattle.suites.specs.Counts.{shared_at};
ghost use Rattle.suites.specs.PoolChange.{ListsExactly, referred, gained, lost, one_more, files_where, is_new, has_no_use};

use crate::item::PoolFile;
use crate::plan::Reference;
use crate::shelves::{SharedFile, Shelves};
use decisions::is_left;
use para::Text;
use std::alloc::{AllocError, Global};
use std::collections::BTreeMap;
use sums::Print;

/// The files that the pool gains and loses, each list in the order of their paths.
#[derive(Drop)]
pub struct FileChange {
    pub added: Vec<PoolFile>,
    pub removed: Vec<PoolFile>,
}

/// A file with one more reference: the one that was there, or else a file of this print with its first reference.
fn with_one_more(file: Option<&SharedFile>, print: Print) -> SharedFile
    ensures { result ≡ one_more (option_copied file.entry) print }
{
    match file {
        Some(file) => SharedFile {
            print: file.print,
            references: file.references.saturating_add(1),
        },
        None => SharedFile {
            print,
            references: 1,
        },
    }
}

/// Counts one more reference.
fn count_reference(
    alloc: Global,
    files: &mut BTreeMap<String, SharedFile>,
    reference: &Reference,
) -> Result<(), AllocError>
    ensures { IfOk result (λ _. (path : List ℕ) → get_by_text files.new path
        ≡ cond (bytes_eq reference.now.path path) (Some (one_more (get_by_text files.old reference.now.path) reference.now.print)) (get_by_text files.old path)) }
{
    let path = reference.path.as_str();
    let file = with_one_more(files.get(path), reference.print);
    files.insert(String::from_str(alloc, path)?, file)?;
    Ok(())
}

/// The files to which the references are, each with the number of them.
fn count_references(
    alloc: Global,
    references: &[Reference],
) -> Result<BTreeMap<String, SharedFile>, AllocError>
    ensures { IfOk result (λ files. (path : List ℕ) → get_by_text files path ≡ shared_at path (map referred references.now)) }
{
    let mut files = BTreeMap::new(alloc);
    for reference in references {
        count_reference(alloc, &mut files, reference)?;
    }
    Ok(files)
}

/// Adds a file to a list, if it passes.
fn push_file_if(
    alloc: Global,
    files: &mut Vec<PoolFile>,
    passes: bool,
    path: &str,
    print: Print,
) -> Result<(), AllocError>
    ensures { IfOk result (λ _. files.new.items ≡ files.old.items ++ cond passes (record { path = path.now; print = print } ∷ []) []) }
{
    if passes {
        files.push(PoolFile {
            path: Text::new(alloc, path)?,
            print,
        })?;
    }
    Ok(())
}

/// The files that references come to and that the pool lacks.
fn added_files(
    alloc: Global,
    shelves: &Shelves,
    put: &BTreeMap<String, SharedFile>,
) -> Result<Vec<PoolFile>, AllocError>
    ensures sorted { IfOk result (λ _. IsOrdered string_cmp put.now) }
    ensures files { IfOk result (λ files. files.items ≡ files_where (is_new shelves.now) put.now.entries) }
{
    let mut files = Vec::new(alloc);
    for (path, file) in put {
        let is_new = shelves.references(path.as_str()) == 0;
        push_file_if(alloc, &mut files, is_new, path.as_str(), file.print)?;
    }
    Ok(files)
}

/// Whether no reference comes to the file at the path, and as many go as there are.
fn is_unused(
    shelves: &Shelves,
    put: &BTreeMap<String, SharedFile>,
    path: &str,
    dropped: u64,
) -> bool
    ensures { result ≡ has_no_use shelves.now put.now path.now dropped }
{
    match put.get(path) {
        Some(_) => false,
        None => is_left(shelves.references(path), dropped),
    }
}

/// The files that references go from and to which no reference is left.
fn removed_files(
    alloc: Global,
    shelves: &Shelves,
    put: &BTreeMap<String, SharedFile>,
    dropped: &BTreeMap<String, SharedFile>,
) -> Result<Vec<PoolFile>, AllocError>
    ensures sorted { IfOk result (λ _. IsOrdered string_cmp dropped.now) }
    ensures files { IfOk result (λ files. files.items ≡ files_where (λ path file. has_no_use shelves.now put.now path file.references) dropped.now.entries) }
{
    let mut files = Vec::new(alloc);
    for (path, file) in dropped {
        let is_unused = is_unused(shelves, put, path.as_str(), file.references);
        push_file_if(alloc, &mut files, is_unused, path.as_str(), file.print)?;
    }
    Ok(files)
}

/// What the pool gains and loses when these references come and go.
pub fn pool_changes(
    alloc: Global,
    shelves: &Shelves,
    put: &[Reference],
    dropped: &[Reference],
) -> Result<FileChange, AllocError>
    ensures added { IfOk result (λ change. ListsExactly change.added.items (gained shelves.now put.now)) }
    ensures removed { IfOk result (λ change. ListsExactly change.removed.items (lost shelves.now put.now dropped.now)) }
{
    let put = count_references(alloc, put)?;
    let dropped = count_references(alloc, dropped)?;
    Ok(FileChange {
        added: added_files(alloc, shelves, &put)?,
        removed: removed_files(alloc, shelves, &put, &dropped)?,
    })
}
