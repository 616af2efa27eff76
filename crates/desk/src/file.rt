//! A large file of the pool, read and written piece by piece, so that it is never held whole.
//!
//! The head of its reply tells the size that the first piece told. So each further piece has to tell the same size, and to be as long as its
//! place in a file of that size wants it: else the reply ends early, and its client sees that bytes are missing.
ghost use Rattle.std.specs.Prelude.{◌≡◌, ◌*◌, ◌-◌, ◌&&◌, nat_eq, nat_lt, min, length, Some, IfOk, IfErr, OnOk, string_bytes};
ghost use Rattle.std.specs.Option.{option_map};
ghost use Rattle.desk.specs.File.{AreSent, IsFirst, IsSent};
ghost use Rattle.desk.specs.declared.exchange.DeskFault.TheVariants.{ArchiveFailed};
ghost use Rattle.book.specs.Pieces.{piece_of_body, piece_value};
ghost use Rattle.queue.specs.Pieces.{HasFirst};
ghost use Rattle.queue.specs.Steps.{Reads};

use crate::exchange::{DeskFault, Served};
use crate::reply::{flush, write_file_head};
use crate::transfer::write_whole;
use book::{FilePiece, Keeper, PIECE_SIZE};
use http::StatusCode;
use queue::Archive;
use std::alloc::Global;
use std::io::Write;

/// The most bytes of a file that is read whole before its reply begins.
const MOST_WHOLE: u64 = 4_194_304;

/// A file of the pool that is read and written piece by piece: its path, and its first piece, which tells its size.
#[derive(Drop)]
pub struct LargeFile {
    pub path: String,
    pub first: FilePiece,
}

/// Whether the first piece of a file is all of it.
pub fn is_all(first: &FilePiece) -> bool
    ensures { result ≡ nat_eq (length first.now.bytes.items) first.now.size }
{
    first.bytes.len() as u64 == first.size
}

/// Whether a file is larger than one that is read whole, and its first piece is as long as that of such a file.
pub fn is_large(first: &FilePiece) -> bool
    ensures { result ≡ (nat_lt 4194304 first.now.size && nat_eq (length first.now.bytes.items) 65536) }
{
    first.size > MOST_WHOLE && first.bytes.len() == PIECE_SIZE
}

/// The piece at a place, not the first, of a large file.
fn next_piece<K: Keeper>(
    alloc: Global,
    archive: &mut Archive<K>,
    file: &LargeFile,
    number: u32,
) -> Result<FilePiece, DeskFault>
    ensures reads { Reads K.Keeper archive.old.keeper archive.new.keeper }
    ensures served { K.is_clean archive.new.keeper → OnOk result (K.is_open archive.new.keeper) }
    ensures piece { K.is_clean archive.new.keeper → IfOk result (λ piece.
        option_map (piece_of_body number) ((K.book archive.old.keeper).files (string_bytes file.now.path)) ≡ Some (piece_value piece)) }
    ensures size { IfOk result (λ piece. length piece.bytes.items ≡ min (file.now.first.size - 65536 * number) 65536) }
    ensures err { IfErr result (λ fault. fault ≡ ArchiveFailed) }
{
    match archive.fetch_next(alloc, file.path.as_str(), number, file.first.size) {
        Ok(Some(piece)) => Ok(piece),
        _ => Err(DeskFault::ArchiveFailed),
    }
}

/// Writes the pieces of a large file, each before the next one is read.
fn send_pieces<K: Keeper, W: Write>(
    alloc: Global,
    archive: &mut Archive<K>,
    writer: &mut W,
    file: &LargeFile,
) -> Result<(), DeskFault>
    requires first { HasFirst K.Keeper archive.now.keeper (string_bytes file.now.path) (piece_value file.now.first) }
    requires size { IsFirst (piece_value file.now.first) }
    ensures reads { Reads K.Keeper archive.old.keeper archive.new.keeper }
    ensures sent { AreSent K.Keeper archive.old.keeper (string_bytes file.now.path) archive.new.keeper
        file.now.first.size (W.contents writer.old) (W.contents writer.new) result }
{
    let size = file.first.size;
    write_whole(writer, file.first.bytes.as_slice())?;
    for number in 1..u32::MAX {
        let begin = number as u64 * PIECE_SIZE as u64;
        if begin >= size {
            return Ok(());
        }
        let piece = next_piece(alloc, archive, file, number)?;
        write_whole(writer, piece.bytes.as_slice())?;
    }
    Err(DeskFault::ArchiveFailed)
}

/// Writes the reply that has a large file: its head, and then its pieces. An archive that is read meanwhile is left as it was. The answer is
/// `WriterFailed` if the writer fails, and `ArchiveFailed` if a piece can not be had or is not the one that the head promised.
pub fn send_file<K: Keeper, W: Write>(
    alloc: Global,
    archive: &mut Archive<K>,
    writer: &mut W,
    file: &LargeFile,
) -> Result<Served, DeskFault>
    requires first { HasFirst K.Keeper archive.now.keeper (string_bytes file.now.path) (piece_value file.now.first) }
    requires size { IsFirst (piece_value file.now.first) }
    ensures reads { Reads K.Keeper archive.old.keeper archive.new.keeper }
    ensures sent { IsSent K.Keeper archive.old.keeper (string_bytes file.now.path) archive.new.keeper
        (W.contents writer.old) (W.contents writer.new) result }
{
    write_file_head(writer, file.first.size)?;
    send_pieces(alloc, archive, writer, file)?;
    flush(writer)?;
    Ok(Served::Status(StatusCode::OK))
}
