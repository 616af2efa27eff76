//! Why a keeper refuses.
//!
//! K4 comes from making or opening an archive, K5 from giving one another configuration. No call of a keeper answers either.

ghost use Rattle.std.specs.Prelude.{◌≡◌};
ghost use Rattle.book.specs.declared.fault.KeepFault.TheVariants.{OutOfMemory};

use std::alloc::{AllocError, AllocFailed};
use std::error::Error;
use std::fmt;

/// Why a keeper refuses a call. Each refusal leaves what is kept as it was.
#[derive(Clone, Copy, Debug, PartialEq, Eq)]
pub enum KeepFault {
    /// No memory was left.
    OutOfMemory,
    /// The disk failed.
    Disk,
    /// What is kept would grow too large.
    Size,
    /// The database keeps no archive, or is not as a new one needs it.
    NoArchive,
    /// Something that is shown would not be kept under the configuration that is handed over.
    Configuration,
}

impl KeepFault {
    ghost use Rattle.book.specs.Fault.{fault_number};

    /// The number of the fault, from 1 to 5.
    pub fn number(self) -> u8
        ensures { result ≡ fault_number self }
    {
        match self {
            KeepFault::OutOfMemory => 1,
            KeepFault::Disk => 2,
            KeepFault::Size => 3,
            KeepFault::NoArchive => 4,
            KeepFault::Configuration => 5,
        }
    }
}

impl fmt::Display for KeepFault {
    ghost use Rattle.std.specs.Prelude.{Some};
    ghost use Rattle.book.specs.Fault.{fault_text};

    ghost output = { λ fault. Some (fault_text fault) };

    fn fmt<W: fmt::Write>(&self, f: &mut fmt::Formatter<W>) -> fmt::Result {
        write!(f, "K{}", self.number())
    }
}

impl Error for KeepFault {}

impl From<AllocError> for KeepFault {
    ghost from_gives = { λ _ fault. fault ≡ OutOfMemory };

    fn from(_error: AllocError) -> KeepFault {
        KeepFault::OutOfMemory
    }
}

impl<T: Drop> From<AllocFailed<T>> for KeepFault {
    ghost from_gives = { λ _ fault. fault ≡ OutOfMemory };

    fn from(_error: AllocFailed<T>) -> KeepFault {
        KeepFault::OutOfMemory
    }
}
