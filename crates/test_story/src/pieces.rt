//! Pieces of texts that a row replaces.

use std::alloc::Global;
use test_rows::{Unread, text_of};

/// Replaces each occurrence of a piece in a text, and says whether there is one.
fn replace_piece(alloc: Global, text: &mut Vec<u8>, piece: &str, by: &str) -> Result<bool, Unread> {
    let old = text_of(text)?;
    if !old.contains(piece) {
        return Ok(false);
    }
    *text = old.replace(alloc, piece, by)?.into_bytes();
    Ok(true)
}

/// Replaces a piece in two texts, one of which has it. The words are the old piece and the new one.
fn replace_pair(
    alloc: Global,
    name: &mut Vec<u8>,
    text: &mut Vec<u8>,
    pair: &[Vec<u8>],
) -> Result<(), Unread> {
    let [piece, by] = pair else {
        return Err(Unread::BadWords);
    };
    let (piece, by) = (text_of(piece)?, text_of(by)?);
    let in_name = replace_piece(alloc, name, piece, by)?;
    if replace_piece(alloc, text, piece, by)? || in_name {
        Ok(())
    } else {
        Err(Unread::NothingToReplace)
    }
}

/// Replaces pieces in a text and in its name: of each two words the first is the old piece, and the second the new one.
pub fn replace_pieces(
    alloc: Global,
    name: &mut Vec<u8>,
    text: &mut Vec<u8>,
    words: &[Vec<u8>],
) -> Result<(), Unread> {
    for pair in words.chunks(2) {
        replace_pair(alloc, name, text, pair)?;
    }
    Ok(())
}
