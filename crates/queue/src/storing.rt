//! A body that is read and stored piece by piece.

ghost use Rattle.std.specs.Prelude.{◌≡◌, ◌≤◌, ◌++◌, [], List, ℕ, Some, min, length, IfOk, IfErr, OnOk, OnErr};
ghost use Rattle.std.specs.Io.KnownBytes.{Consumes};
ghost use Rattle.std.specs.Option.{option_map};
ghost use Rattle.book.specs.Book.{latest};
ghost use Rattle.history.specs.Receiving.{Arrives, Gave, HasRead, LeavesArrived, MayBeKept, MayTake};
ghost use Rattle.history.specs.Steps.{Lasts, Stays};

use crate::reading::{collect, fill};
use book::{Keeper, PIECE_SIZE};
use history::Fault;
use std::alloc::Global;
use std::io::Read;

/// Reads the next piece into a buffer of its length, and stores it. If the piece does not come, the body is abandoned.
pub fn store_piece<K: Keeper, R: Read>(
    alloc: Global,
    keeper: &mut K,
    reader: &mut R,
    buffer: &mut [u8],
) -> Result<(), Fault>
    requires begun { K.is_clean keeper.old → K.is_open keeper.old → MayTake (K.coming keeper.old) (length buffer.old) }
    ensures stays { Stays K.Keeper keeper.old keeper.new }
    ensures same { length buffer.new ≡ length buffer.old }
    ensures served { K.is_clean keeper.new → OnOk result (K.is_open keeper.new) }
    ensures read { OnOk result (Consumes (R.remaining reader.old) (R.remaining reader.new) buffer.new) }
    ensures taken { K.is_clean keeper.new → OnOk result (K.coming keeper.new ≡ option_map (λ body. body ++ buffer.new) (K.coming keeper.old)) }
    ensures refused { IfErr result (HasRead K.may_fail (R.remaining reader.old) (R.remaining reader.new) (length buffer.old)) }
{
    match fill(reader, buffer) {
        Err(_) => {
            let _ = keeper.abandon();
            Err(Fault::ReaderFailed)
        }
        Ok(count) => {
            if count < buffer.len() {
                let _ = keeper.abandon();
                return Err(Fault::Ended);
            }
            keeper.piece(alloc, buffer)?;
            Ok(())
        }
    }
}

/// Reads a body of this size and stores its pieces, each before the next is read.
pub fn store_pieces<K: Keeper, R: Read>(
    alloc: Global,
    keeper: &mut K,
    reader: &mut R,
    whole: usize,
    buffer: &mut [u8],
) -> Result<(), Fault>
    requires begun { K.is_clean keeper.old → K.coming keeper.old ≡ Some [] }
    requires room { length buffer.old ≡ min whole 65536 }
    ensures stays { Stays K.Keeper keeper.old keeper.new }
    ensures served { K.is_clean keeper.new → K.is_open keeper.old → OnOk result (K.is_open keeper.new) }
    ensures taken { OnOk result ((body : List ℕ) × Gave (R.remaining reader.old) (R.remaining reader.new) whole body × (K.is_clean keeper.new → K.coming keeper.new ≡ Some body)) }
    ensures refused { IfErr result (HasRead K.may_fail (R.remaining reader.old) (R.remaining reader.new) whole) }
{
    let mut left = whole;
    while left > 0 {
        let size = left.min(PIECE_SIZE);
        store_piece(alloc, keeper, reader, &mut buffer[..size])?;
        left -= size;
    }
    Ok(())
}

/// Reads a body of this size whole, and stores it under a file name.
fn store_whole<K: Keeper, R: Read>(
    alloc: Global,
    keeper: &mut K,
    name: &str,
    whole: usize,
    reader: &mut R,
    moment: u64,
) -> Result<bool, Fault>
    requires in_time { moment ≤ latest }
    requires may_be_kept { MayBeKept name.now whole }
    ensures lasts { Lasts K.Keeper keeper.old keeper.new }
    ensures served { K.is_clean keeper.new → OnOk result (K.is_open keeper.new) }
    ensures stored { IfOk result (Arrives K.Keeper keeper.old keeper.new (R.remaining reader.old) (R.remaining reader.new) whole name.now moment) }
    ensures refused { IfErr result (HasRead K.may_fail (R.remaining reader.old) (R.remaining reader.new) whole) }
    ensures same { K.is_clean keeper.new → K.is_open keeper.new → OnErr result (K.book keeper.new ≡ K.book keeper.old) }
    ensures crash { LeavesArrived K.Keeper keeper.old keeper.new (R.remaining reader.old) (R.remaining reader.new) whole name.now moment }
{
    let body = collect(alloc, reader, whole)?;
    Ok(keeper.arrive(alloc, name, body.as_slice(), moment)?)
}

/// Reads a body of this size and stores it under a file name, each piece before the next is read.
fn store_in_pieces<K: Keeper, R: Read>(
    alloc: Global,
    keeper: &mut K,
    name: &str,
    whole: usize,
    reader: &mut R,
    moment: u64,
) -> Result<bool, Fault>
    requires in_time { moment ≤ latest }
    requires may_be_kept { MayBeKept name.now whole }
    ensures lasts { Lasts K.Keeper keeper.old keeper.new }
    ensures served { K.is_clean keeper.new → OnOk result (K.is_open keeper.new) }
    ensures stored { IfOk result (Arrives K.Keeper keeper.old keeper.new (R.remaining reader.old) (R.remaining reader.new) whole name.now moment) }
    ensures refused { IfErr result (HasRead K.may_fail (R.remaining reader.old) (R.remaining reader.new) whole) }
    ensures same { K.is_clean keeper.new → K.is_open keeper.new → OnErr result (K.book keeper.new ≡ K.book keeper.old) }
    ensures crash { LeavesArrived K.Keeper keeper.old keeper.new (R.remaining reader.old) (R.remaining reader.new) whole name.now moment }
{
    let Ok(mut buffer) = vec![in alloc; 0u8; whole.min(PIECE_SIZE)] else {
        return Err(Fault::OutOfMemory);
    };
    keeper.begin(alloc)?;
    store_pieces(alloc, keeper, reader, whole, buffer.as_mut_slice())?;
    Ok(keeper.finish(alloc, name, moment)?)
}

/// Reads a body of this size and stores it under a file name. A body of one piece is stored at once; of a longer one each
/// piece is stored before the next is read.
pub fn store<K: Keeper, R: Read>(
    alloc: Global,
    keeper: &mut K,
    name: &str,
    whole: usize,
    reader: &mut R,
    moment: u64,
) -> Result<bool, Fault>
    requires in_time { moment ≤ latest }
    requires may_be_kept { MayBeKept name.now whole }
    ensures lasts { Lasts K.Keeper keeper.old keeper.new }
    ensures served { K.is_clean keeper.new → OnOk result (K.is_open keeper.new) }
    ensures stored { IfOk result (Arrives K.Keeper keeper.old keeper.new (R.remaining reader.old) (R.remaining reader.new) whole name.now moment) }
    ensures refused { IfErr result (HasRead K.may_fail (R.remaining reader.old) (R.remaining reader.new) whole) }
    ensures same { K.is_clean keeper.new → K.is_open keeper.new → OnErr result (K.book keeper.new ≡ K.book keeper.old) }
    ensures crash { LeavesArrived K.Keeper keeper.old keeper.new (R.remaining reader.old) (R.remaining reader.new) whole name.now moment }
{
    if whole <= PIECE_SIZE {
        return store_whole(alloc, keeper, name, whole, reader, moment);
    }
    store_in_pieces(alloc, keeper, name, whole, reader, moment)
}
