//! Differences between what an archive shows and what is wanted.

use std::alloc::{AllocError, Global};

/// The last piece.
fn last_of(pieces: &[Vec<u8>]) -> &[u8] {
    match pieces.last() {
        Some(piece) => piece.as_slice(),
        None => b"nothing",
    }
}

/// The first two pieces that differ, or the last ones.
fn differing<'a>(found: &'a [Vec<u8>], wanted: &'a [Vec<u8>]) -> (&'a [u8], &'a [u8]) {
    for (found, wanted) in found.iter().zip(wanted) {
        if found.as_slice() != wanted.as_slice() {
            return (found.as_slice(), wanted.as_slice());
        }
    }
    (last_of(found), last_of(wanted))
}

/// Says how the pieces that were found differ from the wanted ones.
pub fn difference(
    alloc: Global,
    found: &[Vec<u8>],
    wanted: &[Vec<u8>],
) -> Result<Vec<u8>, AllocError> {
    let (found, wanted) = differing(found, wanted);
    let mut text = Vec::from_slice(alloc, found)?;
    text.extend_from_slice(b" in the place of ")?;
    text.extend_from_slice(wanted)?;
    Ok(text)
}
