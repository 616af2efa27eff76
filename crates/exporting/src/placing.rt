//! The files of the pool, written piece by piece, so that no file is held whole.

ghost use Rattle.std.specs.Prelude.{◌≡◌, ◌*◌, Some, IfOk, OnOk};
ghost use Rattle.std.specs.Option.{option_map};
ghost use Rattle.std.specs.Io.KnownBytes.{Appends};
ghost use Rattle.book.specs.Pieces.{piece_of_body, piece_value};
ghost use Rattle.queue.specs.Pieces.{HasFirst};
ghost use Rattle.queue.specs.Steps.{Reads};
ghost use Rattle.exporting.specs.Fetched.{IsWritten};

use crate::asked::Job;
use crate::fault::ExportFault;
use book::{FilePiece, KeepFault, Keeper, PIECE_SIZE};
use exported::Manifest;
use folders::{Disk, Folder};
use queue::{Archive, Fault, is_piece_at};
use std::alloc::Global;
use std::io::Write;
use suites::PoolFile;
use tree_files::{Site, end_place, open_place, vouch};

/// The fault of an archive whose pieces of a file do not make up the file.
fn damaged() -> ExportFault {
    ExportFault::Archive(Fault::Keeper(KeepFault::Disk))
}

/// The first piece of the file of the pool at a path. An export asks for those that the archive has: any other path is refused as `Path`.
fn first_piece<K: Keeper>(
    alloc: Global,
    archive: &mut Archive<K>,
    path: &str,
) -> Result<FilePiece, ExportFault>
    ensures reads { Reads K.Keeper archive.old.keeper archive.new.keeper }
    ensures first { IfOk result (λ piece. HasFirst K.Keeper archive.new.keeper path.now (piece_value piece)) }
{
    match archive.fetch_piece(alloc, path, 0)? {
        Some(piece) => Ok(piece),
        None => Err(ExportFault::Path(String::from_str(alloc, path)?)),
    }
}

/// A later piece of the file of the pool at a path, whose first piece said this size.
fn next_piece<K: Keeper>(
    alloc: Global,
    archive: &mut Archive<K>,
    path: &str,
    number: u32,
    size: u64,
) -> Result<FilePiece, ExportFault>
    ensures reads { Reads K.Keeper archive.old.keeper archive.new.keeper }
    ensures served { K.is_clean archive.new.keeper → OnOk result (K.is_open archive.new.keeper) }
    ensures piece { K.is_clean archive.new.keeper → IfOk result (λ piece.
        option_map (piece_of_body number) ((K.book archive.old.keeper).files path.now) ≡ Some (piece_value piece)) }
{
    match archive.fetch_next(alloc, path, number, size)? {
        Some(piece) => Ok(piece),
        None => Err(damaged()),
    }
}

/// Writes the file of the pool at a path, whose first piece was read. Each piece is written before the next one is read. If the pieces do
/// not make up a file of the size that the first one says, the archive is damaged.
#[tactic(auto, using(book::proofs::ReadLemmas::reads_none, book::proofs::ReadLemmas::reads_more))]
fn write_pieces<R: Disk, K: Keeper, W: Write>(
    rt: &R,
    archive: &mut Archive<K>,
    site: &Site<R>,
    path: &str,
    first: &FilePiece,
    out: &mut W,
) -> Result<(), ExportFault>
    requires first { HasFirst K.Keeper archive.now.keeper path.now (piece_value first.now) }
    ensures reads { Reads K.Keeper archive.old.keeper archive.new.keeper }
    // The bytes that were written are those that the plain archive has at the path: each of them, in their order, and nothing else.
    ensures written { OnOk result (IsWritten K.Keeper archive.old.keeper path.now (W.contents out.old) (W.contents out.new) archive.new.keeper) }
{
    let size = first.size;
    if !is_piece_at(first, size, 0) {
        return Err(damaged());
    }
    site.write_on(rt.alloc(), out, &first.bytes)?;
    for number in 1..u32::MAX {
        let begin = number as u64 * PIECE_SIZE as u64;
        if begin >= size {
            return Ok(());
        }
        let piece = next_piece(rt.alloc(), archive, path, number, size)?;
        site.write_on(rt.alloc(), out, &piece.bytes)?;
    }
    Err(damaged())
}

/// Writes a file of the pool, whose first piece was read, beside its place, and puts it there.
fn write_file<R: Disk, K: Keeper>(
    rt: &R,
    archive: &mut Archive<K>,
    job: &Job<'_, R>,
    folder: &Folder<R>,
    file: &PoolFile,
    first: &FilePiece,
) -> Result<(), ExportFault>
    requires first { HasFirst K.Keeper archive.now.keeper file.now.path (piece_value first.now) }
    ensures reads { Reads K.Keeper archive.old.keeper archive.new.keeper }
{
    let mut new = job.site.begin(rt)?;
    write_pieces(rt, archive, job.site, file.path.as_str(), first, &mut new)?;
    Ok(end_place(rt, job.site, folder, file, new, job.is_synced)?)
}

/// Puts a file of the pool at its path. If it is synced, the manifest may vouch for it. Else it stays one that is coming, and the next export
/// reads it. If it does not get its place, what was written beside is removed.
pub fn place_file<R: Disk, K: Keeper>(
    rt: &R,
    archive: &mut Archive<K>,
    job: &Job<'_, R>,
    file: &PoolFile,
    manifest: &mut Manifest,
) -> Result<(), ExportFault>
    ensures reads { Reads K.Keeper archive.old.keeper archive.new.keeper }
{
    let first = first_piece(rt.alloc(), archive, file.path.as_str())?;
    let folder = open_place(rt, job.site, file)?;
    let done = write_file(rt, archive, job, &folder, file, &first);
    if done.is_err() {
        job.site.give_up(rt);
    }
    done?;
    if job.is_synced {
        vouch(rt, &folder, file, manifest)?;
    }
    Ok(())
}
