//! What an export is to do in a tree, by what is there.

use crate::paths::MANIFEST;
use crate::states::{Standing, SuiteState};
use exported::Manifest;
use folders::{Disk, Folder, FolderFault};
use para::Text;
use std::alloc::{AllocError, Global};
use std::collections::BTreeMap;
use suites::Shelves;
use sums::Print;
use tree::{Step, plan};

/// The most bytes of a manifest that is read.
const MOST_OF_MANIFEST: u64 = 1 << 30;

/// How many files of the pool were written, how many were there, how many are left that no longer belong to the pool, and how many were
/// removed.
#[derive(Clone, Copy, Default)]
pub struct Counts {
    pub new: usize,
    pub same: usize,
    pub left: usize,
    pub gone: usize,
}

/// The manifest of a tree.
pub fn manifest_of<R: Disk>(rt: &R, own: &Folder<R>) -> Result<Manifest, FolderFault> {
    let bytes = own.bytes(rt, MANIFEST, MOST_OF_MANIFEST)?;
    let text = match &bytes {
        Some(bytes) => Some(bytes.as_slice()),
        None => None,
    };
    Ok(Manifest::read(rt.alloc(), text)?)
}

/// The positions of the suites that are to show another state.
fn positions(alloc: Global, suites: &[SuiteState]) -> Result<Vec<usize>, AllocError> {
    let mut positions = Vec::new(alloc);
    for (position, suite) in suites.iter().enumerate() {
        if suite.standing == Standing::Shows {
            positions.push(position)?;
        }
    }
    Ok(positions)
}

/// Whether something is shown now that was not when the manifest was written, or will be after the export.
fn shows_something(suites: &[SuiteState]) -> bool {
    suites.iter().any(|suite| suite.is_changed || suite.standing == Standing::Shows)
}

/// The steps of an export. What was left is removed only if something is shown that was not shown when it was left.
pub fn steps_of(
    alloc: Global,
    shelves: &Shelves,
    there: &BTreeMap<String, Print>,
    suites: &[SuiteState],
    manifest: &Manifest,
) -> Result<Vec<Step>, AllocError> {
    let left: Vec<Text> = if shows_something(suites) {
        manifest.left(alloc)?
    } else {
        Vec::new(alloc)
    };
    let positions = positions(alloc, suites)?;
    plan(alloc, shelves, there, &positions, &left)
}

/// How many files of the pool steps write and remove.
pub fn counts_of(steps: &[Step], shelves: &Shelves) -> Counts {
    let mut counts = Counts::default();
    for step in steps {
        match step {
            Step::Write(_) => counts.new = counts.new.saturating_add(1),
            Step::Show(_) => {}
            Step::Remove(_) => counts.gone = counts.gone.saturating_add(1),
        }
    }
    counts.same = shelves.files().len().saturating_sub(counts.new);
    counts
}
