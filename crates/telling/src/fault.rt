//! Why a question is refused.

ghost use Rattle.std.specs.Prelude.{◌≡◌};
ghost use Rattle.book.specs.declared.fault.KeepFault.TheVariants.{OutOfMemory};
ghost use Rattle.telling.specs.declared.fault.TellFault.TheVariants.{Keeper};

use book::KeepFault;
use history::Fault;
use std::alloc::{AllocError, AllocFailed};

/// Why a question is refused.
#[derive(Clone, Copy, Debug, PartialEq, Eq)]
pub enum TellFault {
    /// No memory was left, or the disk failed.
    Keeper(KeepFault),
    /// The moment is after 2099-12-31 23:59:59 UTC.
    Moment,
    /// No suite has the codename.
    UnknownSuite,
}

impl From<KeepFault> for TellFault {
    ghost from_gives = { λ own fault. fault ≡ Keeper own };

    fn from(fault: KeepFault) -> TellFault {
        TellFault::Keeper(fault)
    }
}

impl From<AllocError> for TellFault {
    ghost from_gives = { λ _ fault. fault ≡ Keeper OutOfMemory };

    fn from(_error: AllocError) -> TellFault {
        TellFault::Keeper(KeepFault::OutOfMemory)
    }
}

impl<T: Drop> From<AllocFailed<T>> for TellFault {
    ghost from_gives = { λ _ fault. fault ≡ Keeper OutOfMemory };

    fn from(_error: AllocFailed<T>) -> TellFault {
        TellFault::Keeper(KeepFault::OutOfMemory)
    }
}

/// The fault of the archive that a refused question is.
impl From<TellFault> for Fault {
    ghost use Rattle.telling.specs.Fault.{fault_told};

    ghost from_gives = { λ own fault. fault ≡ fault_told own };

    fn from(fault: TellFault) -> Fault {
        match fault {
            TellFault::Keeper(fault) => Fault::from(fault),
            TellFault::Moment => Fault::Moment,
            TellFault::UnknownSuite => Fault::UnknownSuite,
        }
    }
}
