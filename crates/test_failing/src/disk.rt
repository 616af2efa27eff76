//! A keeper over a disk that fails if it has to.

ghost use Rattle.std.specs.Prelude.{◌≡◌, ◌≤◌, false, IsTrue, IfOk};
ghost use Rattle.book.specs.Book.{fresh_book};

use book::{ArrivedFile, Change, Configured, Judgement, KeepFault, Keeper, LATEST, Waiting};
use keep::PlainKeeper;
use rules::Config;
use std::alloc::Global;
use suites::{Shelves, Upload};
use sums::Print;

/// A keeper that takes deliveries, and refuses all else for want of memory. Its disk has what the last delivery left. A delivery that
/// fails is counted, and shuts the keeper.
#[derive(Drop)]
pub struct DiskKeeper {
    kept: PlainKeeper,
    fails: bool,
    is_open: bool,
    faults: u64,
    /// Whether a delivery was cut off, so that what is on the disk is no archive.
    is_torn: bool,
    ghost whole: { IsTrue is_open → is_torn ≡ false },
}

impl DiskKeeper {
    /// An archive of this configuration in which nothing is yet, made at the moment, in seconds since 1970-01-01 00:00:00 UTC, over a
    /// disk that works or fails.
    pub fn new(
        alloc: Global,
        config: Config,
        moment: u64,
        fails: bool,
    ) -> Result<DiskKeeper, KeepFault>
        requires { moment ≤ LATEST }
        ensures clean { IfOk result (λ keeper. ⟦<DiskKeeper as Keeper>⟧.is_clean keeper) }
        ensures open { IfOk result (λ keeper. ⟦<DiskKeeper as Keeper>⟧.is_open keeper) }
        ensures made { IfOk result (λ keeper. ⟦<DiskKeeper as Keeper>⟧.book keeper ≡ fresh_book config moment) }
    {
        Ok(DiskKeeper {
            kept: PlainKeeper::new(alloc, config, moment)?,
            fails,
            is_open: true,
            faults: 0,
            is_torn: false,
        })
    }
}

impl Keeper for DiskKeeper {
    ghost use Rattle.std.specs.Prelude.{⊤, true};
    ghost use Rattle.keep.specs.Plain.{plain_book, plain_coming};
    ghost use Rattle.test_failing.specs.Disks.{left_of};
    ghost use Rattle.std.proofs.Common.{ap, ◌∙◌};

    ghost is_clean = { λ _. ⊤ };

    ghost is_open = { λ k. IsTrue k.is_open };

    ghost faults = { λ k. k.faults };

    ghost book = { λ k. plain_book k.kept };

    ghost coming = { λ k. plain_coming k.kept };

    ghost may_fail = { true };

    /// A crash leaves what is on the disk.
    ghost may_leave = { λ k left. left ≡ left_of k.is_torn (plain_book k.kept) };

    #[tactic(auto, unfolding(keep::specs::Plain::plain_book))]
    fn config(&self) -> &Config {
        self.kept.config()
    }

    #[tactic(auto, unfolding(keep::specs::Plain::plain_book))]
    fn dates(&self) -> &[u64] {
        self.kept.dates()
    }

    fn begin(&mut self, alloc: Global) -> Result<(), KeepFault> {
        if !self.is_open {
            let _ = self.kept.abandon();
            return Err(KeepFault::Disk);
        }
        self.kept.begin(alloc)
    }

    fn piece(&mut self, alloc: Global, bytes: &[u8]) -> Result<(), KeepFault> {
        if !self.is_open {
            let _ = self.kept.abandon();
            return Err(KeepFault::Disk);
        }
        self.kept.piece(alloc, bytes)
    }

    fn finish(&mut self, alloc: Global, name: &str, moment: u64) -> Result<bool, KeepFault> {
        if !self.is_open {
            let _ = self.kept.abandon();
            return Err(KeepFault::Disk);
        }
        if self.fails {
            let _ = self.kept.abandon();
            self.faults = self.faults.saturating_add(1);
            self.is_open = false;
            return Err(KeepFault::Disk);
        }
        match self.kept.finish(alloc, name, moment) {
            Ok(new) => Ok(new),
            Err(fault) => Err(fault),
        }
    }

    fn abandon(&mut self) -> Result<(), KeepFault> {
        self.kept.abandon()
    }

    fn complete_uploads(&mut self, _alloc: Global, _moment: u64) -> Result<Vec<Upload>, KeepFault> {
        Err(KeepFault::OutOfMemory)
    }

    fn shelves(&mut self, _alloc: Global) -> Result<Shelves, KeepFault> {
        Err(KeepFault::OutOfMemory)
    }

    fn apply(&mut self, _alloc: Global, _change: &Change) -> Result<(), KeepFault> {
        Err(KeepFault::OutOfMemory)
    }

    fn hold(&mut self, _shelves: Shelves) {}

    fn clean(&mut self, _alloc: Global, _moment: u64) -> Result<u64, KeepFault> {
        Err(KeepFault::OutOfMemory)
    }

    fn configure(&mut self, _alloc: Global, _next: Configured) -> Result<(), KeepFault> {
        Err(KeepFault::OutOfMemory)
    }

    fn arrivals(&mut self, _alloc: Global) -> Result<Vec<ArrivedFile>, KeepFault> {
        Err(KeepFault::OutOfMemory)
    }

    fn arrived_body(
        &mut self,
        _alloc: Global,
        _name: &str,
        _print: &Print,
    ) -> Result<Option<Vec<u8>>, KeepFault> {
        Err(KeepFault::OutOfMemory)
    }

    fn file(&mut self, _alloc: Global, _path: &str) -> Result<Option<Vec<u8>>, KeepFault> {
        Err(KeepFault::OutOfMemory)
    }

    fn text(&mut self, _alloc: Global, _path: &str) -> Result<Option<Vec<u8>>, KeepFault> {
        Err(KeepFault::OutOfMemory)
    }

    fn text_print(&mut self, _alloc: Global, _path: &str) -> Result<Option<Print>, KeepFault> {
        Err(KeepFault::OutOfMemory)
    }

    fn waiting(&mut self, _alloc: Global, _moment: u64) -> Result<Vec<Waiting>, KeepFault> {
        Err(KeepFault::OutOfMemory)
    }

    fn verdicts(&mut self, _alloc: Global) -> Result<Vec<Judgement>, KeepFault> {
        Err(KeepFault::OutOfMemory)
    }

    ghost settled = { λ k left clean up is. is ∙ ap (λ torn. left_of torn (plain_book k.kept)) (k.whole up) };
}
