//! A disk that stops, fails or is full.

ghost use Rattle.std.specs.Prelude.{◌≡◌, ◌+◌, ◌&&◌, not, false, MatchBool};
ghost use Rattle.sqlite_disk.specs.Disk.{CountsFault, MoreFaults};
ghost use Rattle.sqlite_disk.specs.Refusal.{finds_no_room};
ghost use Rattle.sqlite_disk.specs.Tally.{both_counts};

use sqlite_disk::{Disk, Tally};
use std::io;

/// The number of bytes of the header of a log.
const HEADER_LEN: usize = 32;

/// How a disk fails.
#[derive(Clone, Copy)]
pub enum Kind {
    /// Each call from some call on fails.
    Stops,
    /// A single call fails.
    Fails,
    /// Each write from some write on finds no room.
    Full,
}

/// A disk that passes a number of calls on before it fails. If it is to be full, only writes count.
pub struct Failing<D: Disk> {
    pub inner: D,
    pub kind: Kind,
    pub calls_left: u64,
    /// The number of calls that have failed (`failed`), and the number of those that found no room
    /// (`refused`).
    pub failed: u64,
    pub refused: u64,
    pub sync_failed: bool,
    /// Whether a write of one byte, or of one of the first bytes of the file, failed.
    pub turn_failed: bool,
}

// This is written out, so that a caller does not prove again how each part is dropped.
impl<D: Disk + Drop> Drop for Failing<D> {
    fn drop(self) {
        let Failing {
            inner: _,
            kind: _,
            calls_left: _,
            failed: _,
            refused: _,
            sync_failed: _,
            turn_failed: _,
        } = self;
    }
}

/// Counts a call that is no write, or lets it fail.
fn count(kind: Kind, calls_left: &mut u64, failed: &mut u64) -> io::Result<()>
    ensures faults { CountsFault result failed.old failed.new }
    ensures kind { finds_no_room result ≡ false }
{
    if matches!(kind, Kind::Full) {
        return Ok(());
    }
    if *calls_left > 0 {
        *calls_left -= 1;
        return Ok(());
    }
    if matches!(kind, Kind::Fails) {
        *calls_left = u64::MAX;
    }
    *failed = failed.saturating_add(1);
    Err(io::Error::other("the call fails"))
}

/// Counts a write, lets it fail, or finds no room for it.
fn count_write(
    kind: Kind,
    calls_left: &mut u64,
    failed: &mut u64,
    refused: &mut u64,
) -> io::Result<()>
    ensures faults { CountsFault result failed.old failed.new }
    ensures room { MatchBool (finds_no_room result) (MoreFaults refused.old refused.new) (refused.new ≡ refused.old) }
{
    if !matches!(kind, Kind::Full) {
        return count(kind, calls_left, failed);
    }
    if *calls_left > 0 {
        *calls_left -= 1;
        return Ok(());
    }
    *failed = failed.saturating_add(1);
    *refused = refused.saturating_add(1);
    Err(io::ErrorKind::StorageFull.into())
}

impl<D: Disk> Disk for Failing<D> {
    ghost seen = { λ f. D.Disk.seen f.inner };

    ghost may_leave = { λ f. D.Disk.may_leave f.inner };

    ghost is_usable = { λ f. D.Disk.is_usable f.inner && not f.sync_failed };

    ghost faults = { λ f. D.Disk.faults f.inner + f.failed };

    ghost tally_of = { λ f. both_counts (D.Disk.tally_of f.inner) (record { caught = 0; refused = f.refused }) };

    ghost is_rotten = { λ f. D.Disk.is_rotten f.inner };

    ghost key_of = { λ f. D.Disk.key_of f.inner };

    ghost is_clean = { λ f. D.Disk.is_clean f.inner };

    ghost is_fair = { λ f. D.Disk.is_fair f.inner };

    ghost fair_if_clean = { λ f. D.Disk.fair_if_clean f.inner };

    ghost seen_may_stay = { λ f. D.Disk.seen_may_stay f.inner };

    ghost is_mixing = { λ f. D.Disk.is_mixing f.inner };

    fn mixes(&self) -> bool {
        self.inner.mixes()
    }

    fn key(&self) -> u64 {
        self.inner.key()
    }

    fn tally(&self) -> Tally {
        self.inner.tally().plus(Tally {
            caught: 0,
            refused: self.refused,
        })
    }

    fn may_be_used(&self) -> bool {
        self.inner.may_be_used() && !self.sync_failed
    }

    fn len(&mut self) -> io::Result<usize> {
        count(self.kind, &mut self.calls_left, &mut self.failed)?;
        self.inner.len()
    }

    fn read_at(&mut self, at: usize, buf: &mut [u8]) -> io::Result<()> {
        count(self.kind, &mut self.calls_left, &mut self.failed)?;
        self.inner.read_at(at, buf)
    }

    fn read_checked(&mut self, key: u64, want: u64, at: usize, buf: &mut [u8]) -> io::Result<()> {
        count(self.kind, &mut self.calls_left, &mut self.failed)?;
        self.inner.read_checked(key, want, at, buf)
    }

    fn write_at(&mut self, at: usize, bytes: &[u8]) -> io::Result<()> {
        if let Err(error) = count_write(
            self.kind,
            &mut self.calls_left,
            &mut self.failed,
            &mut self.refused,
        ) {
            self.turn_failed = at < HEADER_LEN || bytes.len() == 1;
            return Err(error);
        }
        self.inner.write_at(at, bytes)
    }

    fn set_len(&mut self, len: usize) -> io::Result<()> {
        count_write(
            self.kind,
            &mut self.calls_left,
            &mut self.failed,
            &mut self.refused,
        )?;
        self.inner.set_len(len)
    }

    fn sync(&mut self) -> io::Result<()> {
        if let Err(error) = count(self.kind, &mut self.calls_left, &mut self.failed) {
            self.sync_failed = true;
            return Err(error);
        }
        self.inner.sync()
    }
}
