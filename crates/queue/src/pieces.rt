//! The pieces of a file of the pool.

ghost use Rattle.std.specs.Prelude.{◌≡◌, ◌*◌};
ghost use Rattle.book.specs.Pieces.{piece_value};
ghost use Rattle.queue.specs.Pieces.{is_piece_at};

use book::{FilePiece, PIECE_SIZE};

/// Whether a piece says that its file has this size, in bytes, and is as long as the piece at this place, from 0, of such a file.
pub fn is_piece_at(piece: &FilePiece, size: u64, number: u32) -> bool
    ensures { result ≡ is_piece_at size number (piece_value piece.now) }
{
    let begin = number as u64 * PIECE_SIZE as u64;
    let length = size.saturating_sub(begin).min(PIECE_SIZE as u64);
    piece.size == size && piece.bytes.len() as u64 == length
}
