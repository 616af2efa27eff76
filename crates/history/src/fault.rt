//! Why a call of the archive is refused.

ghost use Rattle.std.specs.Prelude.{◌≡◌};
ghost use Rattle.history.specs.declared.fault.Fault.TheVariants.{OutOfMemory};

use book::KeepFault;
use records::RecordFault;
use std::alloc::{AllocError, AllocFailed};
use std::error::Error;
use std::fmt;

/// Why a call of the archive is refused. If the keeper is still open, nothing has changed.
#[derive(Clone, Copy, Debug, PartialEq, Eq)]
pub enum Fault {
    /// No memory was left.
    OutOfMemory,
    /// The name is no file name.
    BadName,
    /// The body has more bytes than the archive takes under its name.
    TooLarge,
    /// The body of a .changes can not be read as one.
    Record(RecordFault),
    /// The keeper refused, for a disk that failed or a size that is too large.
    Keeper(KeepFault),
    /// The moment is after 2099-12-31 23:59:59 UTC.
    Moment,
    /// No suite has the codename.
    UnknownSuite,
    /// The copy is from a suite to itself.
    SameSuite,
    /// The suite shows no item of the source package.
    NothingToCopy,
    /// The input ended before the body that was to come.
    Ended,
    /// The reader failed before the body had come.
    ReaderFailed,
    /// The suite shows no item of the package that is to be removed.
    NothingToRemove,
}

impl Fault {
    ghost use Rattle.history.specs.Fault.{fault_number};

    /// The number of the fault.
    pub fn number(self) -> u8
        ensures { result ≡ fault_number self }
    {
        match self {
            Fault::OutOfMemory => 0,
            Fault::BadName => 1,
            Fault::TooLarge => 2,
            Fault::Record(_) => 3,
            Fault::Keeper(_) => 4,
            Fault::Moment => 5,
            Fault::UnknownSuite => 6,
            Fault::SameSuite => 7,
            Fault::NothingToCopy => 8,
            Fault::Ended => 9,
            Fault::ReaderFailed => 10,
            Fault::NothingToRemove => 11,
        }
    }
}

impl fmt::Display for Fault {
    ghost use Rattle.std.specs.Prelude.{Some};
    ghost use Rattle.history.specs.Fault.{fault_text};

    ghost output = { λ fault. Some (fault_text fault) };

    fn fmt<W: fmt::Write>(&self, f: &mut fmt::Formatter<W>) -> fmt::Result {
        let number = self.number();
        match self {
            Fault::Record(fault) => write!(f, "Q{number} {fault}"),
            Fault::Keeper(fault) => write!(f, "Q{number} {fault}"),
            _ => write!(f, "Q{number}"),
        }
    }
}

impl Error for Fault {}

impl From<AllocError> for Fault {
    ghost from_gives = { λ _ fault. fault ≡ OutOfMemory };

    fn from(_error: AllocError) -> Fault {
        Fault::OutOfMemory
    }
}

impl<T: Drop> From<AllocFailed<T>> for Fault {
    ghost from_gives = { λ _ fault. fault ≡ OutOfMemory };

    fn from(_error: AllocFailed<T>) -> Fault {
        Fault::OutOfMemory
    }
}

impl From<KeepFault> for Fault {
    ghost use Rattle.history.specs.Fault.{of_keeper};

    ghost from_gives = { λ own fault. fault ≡ of_keeper own };

    fn from(fault: KeepFault) -> Fault {
        match fault {
            KeepFault::OutOfMemory => Fault::OutOfMemory,
            fault => Fault::Keeper(fault),
        }
    }
}

impl From<RecordFault> for Fault {
    ghost use Rattle.history.specs.Fault.{of_record};

    ghost from_gives = { λ own fault. fault ≡ of_record own };

    fn from(fault: RecordFault) -> Fault {
        match fault {
            RecordFault::OutOfMemory => Fault::OutOfMemory,
            fault => Fault::Record(fault),
        }
    }
}
