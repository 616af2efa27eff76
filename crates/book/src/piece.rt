//! A piece of a file, so that a file need not be held whole.

ghost use Rattle.std.specs.Prelude.{◌≡◌, IfOk};
ghost use Rattle.book.specs.Pieces.{piece_of_body, piece_value};

use crate::keeper::PIECE_SIZE;
use std::alloc::{AllocError, Global};

/// A piece of a file of the pool: how many bytes the whole file has, and the bytes of the piece.
#[derive(Drop)]
pub struct FilePiece {
    pub size: u64,
    pub bytes: Vec<u8>,
}

/// The piece of a body at a place, from 0. After the last piece it has no bytes.
pub fn piece_of(alloc: Global, body: &[u8], number: u32) -> Result<FilePiece, AllocError>
    ensures { IfOk result (λ piece. piece_value piece ≡ piece_of_body number body.now) }
{
    let begin = PIECE_SIZE * number as usize;
    let (_, rest) = body.split_at(begin.min(body.len()));
    let (bytes, _) = rest.split_at(PIECE_SIZE.min(rest.len()));
    Ok(FilePiece {
        size: body.len() as u64,
        bytes: Vec::from_slice(alloc, bytes)?,
    })
}
