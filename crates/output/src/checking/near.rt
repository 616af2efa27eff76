//! The name that another likely means.

use std::alloc::{AllocError, Global};
use strsim::levenshtein;

/// How many edits a name may be away from the one that is likely meant.
const MOST_EDITS: usize = 3;

/// How many edits lead from one name to the other, ASCII case ignored.
fn edits(alloc: Global, name: &str, other: &str) -> Result<usize, AllocError> {
    let name = name.to_ascii_lowercase(alloc)?;
    let other = other.to_ascii_lowercase(alloc)?;
    levenshtein(alloc, name.as_str(), other.as_str())
}

/// Whether a letter is in a name, ASCII case ignored.
fn is_in(letter: u8, name: &str) -> bool {
    for other in name.as_bytes() {
        if other.eq_ignore_ascii_case(&letter) {
            return true;
        }
    }
    false
}

/// How many letters of one name are not in the other, ASCII case ignored. At least this number of edits leads from one to the other.
fn missing(known: &str, name: &str) -> usize {
    let mut count = 0usize;
    for letter in known.as_bytes() {
        if !is_in(*letter, name) {
            count = count.saturating_add(1);
        }
    }
    count
}

/// Whether a name may be fewer than `edits` edits away from the other. This is asked first: most names are far from all others, and to
/// count their edits takes far longer. The names that are known are ASCII, so their bytes are their characters.
fn may_be_near(known: &str, name: &str, edits: usize) -> bool {
    if known.len().abs_diff(name.len()) >= edits {
        return false;
    }
    missing(known, name) < edits
}

/// The nearest to a name of the known names that were looked at.
#[derive(Clone, Copy)]
pub struct Nearest<'n, 'k> {
    name: &'n str,
    /// A name is nearer than all before it if fewer edits than these lead to it.
    bound: usize,
    found: Option<&'k str>,
}

impl<'n, 'k> Nearest<'n, 'k> {
    /// No name was looked at. One is near if it is at most three edits away, ASCII case ignored. An edit adds, removes or changes one
    /// character.
    pub fn new(name: &'n str) -> Nearest<'n, 'k> {
        Nearest {
            name,
            bound: MOST_EDITS + 1,
            found: None,
        }
    }

    /// No name was looked at. One is near as for `new`, and if fewer edits than half of the name's bytes lead to it.
    pub fn strict(name: &'n str) -> Nearest<'n, 'k> {
        Nearest {
            name,
            bound: name.len().div_ceil(2).min(MOST_EDITS + 1),
            found: None,
        }
    }

    /// Looks at a known name. Of several that are equally near the first is kept.
    pub fn look_at(&mut self, alloc: Global, known: &'k str) -> Result<(), AllocError> {
        if !may_be_near(known, self.name, self.bound) {
            return Ok(());
        }
        let count = edits(alloc, self.name, known)?;
        if count < self.bound {
            self.bound = count;
            self.found = Some(known);
        }
        Ok(())
    }

    /// The nearest name, if one is near.
    pub fn found(&self) -> Option<&'k str> {
        self.found
    }
}
