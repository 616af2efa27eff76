//! Deliveries whose body a reader gives.
//!
//! A .changes is read whole, and as a record, before its first piece is stored. It has at most 1,048,576 bytes.
//!
//! No clause speaks of memory, so a `receive` that held a whole body before it stored the pieces would meet its contract. The test
//! `pieces_are_stored_as_they_come` refuses such a `receive`.

ghost use Rattle.std.specs.Prelude.{◌≡◌, ◌<◌, ◌≤◌, ℕ, List, Some, true, length, IsErrAnd, OnErr};
ghost use Rattle.std.specs.Io.KnownBytes.{Keeps};
ghost use Rattle.history.specs.Commands.{is_new, stored};
ghost use Rattle.history.specs.Deliveries.{delivery_fault, most_named as most_under};
ghost use Rattle.history.specs.Receiving.{IsReceived, LeavesReceived};
ghost use Rattle.history.specs.Steps.{IsServed, IsUndone, Lasts};
ghost use Rattle.sums.specs.FileNames.{is_changes_name as is_changes_name_of, is_file_name as is_file_name_of};
ghost use Rattle.sums.specs.Lines.{most_size};

use crate::archive::Archive;
use crate::delivery::most_named;
use crate::reading::{collect, skip};
use crate::storing::store;
use book::{Keeper, LATEST};
use history::{Arrived, Fault};
use para::ParaFault;
use records::{MOST_CHANGES, RecordFault};
use std::alloc::Global;
use std::io::Read;
use sums::{is_changes_name, is_file_name};

/// The answer to a delivery: it is new, or it was there.
fn arrived(fresh: bool) -> Arrived
    ensures { is_new result ≡ fresh }
{
    if fresh { Arrived::New } else { Arrived::Again }
}

impl<K: Keeper> Archive<K> {
    /// Takes a delivery whose body of `size` bytes a reader gives, at a moment, in seconds since 1970-01-01 00:00:00 UTC, and says
    /// whether it is new, as `deliver` does. The body is read and stored in pieces of at most 65536 bytes; that of a .changes is read
    /// whole and as a record before it is stored. A body that is refused is read to its end, with two exceptions: of a body that is too
    /// large for the configuration nothing is read (`most_named`), and a fault of memory or of the keeper ends the reading. An input
    /// that ends early and a reader that fails are reported before any other refusal that depends on what is read.
    pub fn receive<R: Read>(
        &mut self,
        alloc: Global,
        name: &str,
        size: u64,
        reader: &mut R,
        moment: u64,
    ) -> Result<Arrived, Fault>
        ensures lasts { Lasts K.Keeper self.old.keeper self.new.keeper }
        // After a success the keeper is open.
        ensures served { IsServed K.Keeper self.new.keeper (stored result) }
        // What the reader gave, and what became of it.
        ensures received { IsReceived K.Keeper (R.remaining reader.old) (R.remaining reader.new) name.now size moment self.old.keeper self.new.keeper result }
        // A body that is too large is not read, and the answer is the fault of the delivery itself.
        ensures large { most_under (K.book self.old.keeper).config name.now < size → Keeps (R.remaining reader.old) (R.remaining reader.new)
            × IsErrAnd result (λ e. (body : List ℕ) → length body ≡ size → delivery_fault (K.book self.old.keeper).config name.now body moment ≡ Some e) }
        // A refusal leaves the book as it was, whatever the history.
        ensures err { OnErr result (IsUndone K.Keeper self.old.keeper self.new.keeper) }
        // A crash leaves what it would have left before, what the history left, or that with the body that the reader gave.
        ensures crash { LeavesReceived K.Keeper (R.remaining reader.old) (R.remaining reader.new) name.now size moment self.old.keeper self.new.keeper }
    {
        let most = most_named(self.keeper.config(), name);
        if size > most {
            if is_file_name(name) {
                return Err(Fault::TooLarge);
            }
            return Err(Fault::BadName);
        }
        let whole = size as usize;
        if !is_file_name(name) {
            skip(reader, whole)?;
            return Err(Fault::BadName);
        }
        if is_changes_name(name) {
            return self.receive_record(alloc, name, whole, reader, moment);
        }
        if moment > LATEST {
            skip(reader, whole)?;
            return Err(Fault::Moment);
        }
        match store(alloc, &mut self.keeper, name, whole, reader, moment) {
            Ok(fresh) => Ok(arrived(fresh)),
            Err(fault) => Err(fault),
        }
    }

    /// Takes a delivery under the name of a .changes: its body is collected, and read as a record before it is stored.
    fn receive_record<R: Read>(
        &mut self,
        alloc: Global,
        name: &str,
        whole: usize,
        reader: &mut R,
        moment: u64,
    ) -> Result<Arrived, Fault>
        requires named { is_file_name_of name.now ≡ true }
        requires a_record { is_changes_name_of name.now ≡ true }
        requires small { whole ≤ most_size }
        ensures lasts { Lasts K.Keeper self.old.keeper self.new.keeper }
        ensures served { IsServed K.Keeper self.new.keeper (stored result) }
        ensures received { IsReceived K.Keeper (R.remaining reader.old) (R.remaining reader.new) name.now whole moment self.old.keeper self.new.keeper result }
        ensures err { OnErr result (IsUndone K.Keeper self.old.keeper self.new.keeper) }
        ensures crash { LeavesReceived K.Keeper (R.remaining reader.old) (R.remaining reader.new) name.now whole moment self.old.keeper self.new.keeper }
    {
        if whole > MOST_CHANGES {
            skip(reader, whole)?;
            return Err(Fault::Record(RecordFault::Paragraph(ParaFault::TooLong)));
        }
        let body = collect(alloc, reader, whole)?;
        self.deliver(alloc, name, body.as_slice(), moment)
    }
}
