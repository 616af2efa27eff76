//! The steps of an export, one kind after the other.

ghost use Rattle.std.specs.Prelude.{◌≡◌, map, filter, is_none, IfOk};
ghost use Rattle.std.specs.BTreeMap.{get_by_text};
ghost use Rattle.tree.specs.Files.{files_in, pool_files};
ghost use Rattle.tree.specs.Tree.{is_among, is_new, is_other, kept_back};
ghost use Rattle.tree.specs.declared.steps.Step.TheVariants.{Write, Show, Remove};

use para::Text;
use std::alloc::{AllocError, Global};
use std::collections::BTreeMap;
use suites::{PoolFile, SharedFile, Shelves};
use sums::Print;

/// A step of an export. Readers find the tree as it is between any two of them.
#[derive(Drop)]
pub enum Step {
    /// A file of the pool is written beside its place, and renamed there.
    Write(PoolFile),
    /// The suite at a position in the configuration shows its new folder of index texts: its link is renamed.
    Show(usize),
    /// The file at a path is removed. The pool has no file there.
    Remove(Text),
}

/// The step that writes the file of the pool at a path.
fn write_step(alloc: Global, path: &str, print: Print) -> Result<Step, AllocError>
    ensures { IfOk result (λ step. step ≡ Write (record { path = path.now; print = print })) }
{
    Ok(Step::Write(PoolFile {
        path: Text::new(alloc, path)?,
        print,
    }))
}

/// Whether nothing is known to be there at a path.
fn is_free(there: &BTreeMap<String, Print>, path: &str) -> bool
    ensures { result ≡ is_none (get_by_text there.now path.now) }
{
    there.get(path).is_none()
}

/// Whether contents other than a file's are known to be there.
#[tactic(auto, unfolding(crate::specs::Tree::is_other))]
fn is_other(there: &BTreeMap<String, Print>, path: &str, print: Print) -> bool
    ensures { result ≡ is_other (get_by_text there.now) (record { path = path.now; print = print }) }
{
    match there.get(path) {
        Some(known) => *known != print,
        None => false,
    }
}

/// Whether a file of the pool stands at a path.
fn is_among(shelves: &Shelves, path: &str) -> bool
    ensures { result ≡ is_among (pool_files shelves.now) path.now }
{
    shelves.file(path).is_some()
}

/// The files of the pool, in the order of their paths.
pub fn files_of(shelves: &Shelves) -> &BTreeMap<String, SharedFile>
    ensures { files_in result.now ≡ pool_files shelves.now }
{
    let files = shelves.files();
    // For the prover alone: the paths ascend.
    let _ = files.len();
    files
}

/// The steps that write the files at whose paths nothing is known to be.
#[tactic(auto, unfolding(crate::specs::Tree::is_new))]
pub fn placed_new(
    alloc: Global,
    there: &BTreeMap<String, Print>,
    files: &BTreeMap<String, SharedFile>,
) -> Result<Vec<Step>, AllocError>
    ensures { IfOk result (λ steps. steps.items ≡ map Write (filter (is_new (get_by_text there.now)) (files_in files.now))) }
{
    let mut steps = Vec::new(alloc);
    for (path, file) in files {
        if is_free(there, path.as_str()) {
            steps.push(write_step(alloc, path.as_str(), file.print)?)?;
        }
    }
    Ok(steps)
}

/// The steps that write the files at whose paths other contents are known to be.
pub fn placed_over(
    alloc: Global,
    there: &BTreeMap<String, Print>,
    files: &BTreeMap<String, SharedFile>,
) -> Result<Vec<Step>, AllocError>
    ensures { IfOk result (λ steps. steps.items ≡ map Write (filter (is_other (get_by_text there.now)) (files_in files.now))) }
{
    let mut steps = Vec::new(alloc);
    for (path, file) in files {
        if is_other(there, path.as_str(), file.print) {
            steps.push(write_step(alloc, path.as_str(), file.print)?)?;
        }
    }
    Ok(steps)
}

/// The steps by which suites show their new index texts.
pub fn shown(alloc: Global, suites: &[usize]) -> Result<Vec<Step>, AllocError>
    ensures { IfOk result (λ steps. steps.items ≡ map Show suites.now) }
{
    let mut steps = Vec::new(alloc);
    for suite in suites {
        steps.push(Step::Show(*suite))?;
    }
    Ok(steps)
}

/// The steps that remove what was left before and is not a file of the pool now.
pub fn removed(alloc: Global, shelves: &Shelves, left: &[Text]) -> Result<Vec<Step>, AllocError>
    ensures { IfOk result (λ steps. steps.items ≡ map Remove (kept_back (pool_files shelves.now) left.now)) }
{
    let mut steps = Vec::new(alloc);
    for path in left {
        if !is_among(shelves, path.as_str()) {
            steps.push(Step::Remove(path.try_clone()?))?;
        }
    }
    Ok(steps)
}
