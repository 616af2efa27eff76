//! Why a text is not a record.

ghost use Rattle.std.specs.Prelude.{◌≡◌, Some};
ghost use Rattle.records.specs.declared.fault.RecordFault.TheVariants.{OutOfMemory};
ghost use Rattle.records.specs.Fault.{fault_number, fault_text, of_paragraph, of_version, of_lists};

use crate::field_name::FieldName;
use para::ParaFault;
use std::alloc::{AllocError, AllocFailed};
use std::error::Error;
use std::fmt;
use sums::ListFault;
use vers::VersionFault;

/// Why a text is not a record. If several faults apply, the answer is the first of these.
#[derive(Clone, Copy, Debug, PartialEq, Eq)]
pub enum RecordFault {
    /// No memory was left.
    OutOfMemory,
    /// The text is not one control paragraph within its limit (Debian Policy 5.1).
    Paragraph(ParaFault),
    /// A required field is absent or empty. If several are, this is the first in the record's list.
    Missing(FieldName),
    /// A field that has one line by its definition has more lines.
    NotOneLine,
    /// The format is not one that this archive reads (Debian Policy 5.6.15, 5.6.16).
    Format,
    /// A source or package name is not spelled as one (Debian Policy 5.6.1, 5.6.7).
    Name,
    /// The version is not valid (Debian Policy 5.6.12).
    Version(VersionFault),
    /// An architecture is not spelled as one, stands twice, or is not allowed here (Debian Policy 5.6.8).
    Architecture,
    /// There is not exactly one distribution, a plain name (Debian Policy 5.6.14).
    Distribution,
    /// The lists of files are refused (Debian Policy 5.6.21, 5.6.24).
    Lists(ListFault),
    /// A field is there that the archive writes itself (own rule of this archive).
    OwnField,
}

impl RecordFault {
    /// The number of the fault, from 0 to 10.
    pub fn number(self) -> u8
        ensures { result ≡ fault_number self }
    {
        match self {
            RecordFault::OutOfMemory => 0,
            RecordFault::Paragraph(_) => 1,
            RecordFault::Missing(_) => 2,
            RecordFault::NotOneLine => 3,
            RecordFault::Format => 4,
            RecordFault::Name => 5,
            RecordFault::Version(_) => 6,
            RecordFault::Architecture => 7,
            RecordFault::Distribution => 8,
            RecordFault::Lists(_) => 9,
            RecordFault::OwnField => 10,
        }
    }
}

impl fmt::Display for RecordFault {
    ghost output = { λ fault. Some (fault_text fault) };

    fn fmt<W: fmt::Write>(&self, f: &mut fmt::Formatter<W>) -> fmt::Result {
        let number = self.number();
        match self {
            RecordFault::Paragraph(fault) => write!(f, "C{number} {fault}"),
            RecordFault::Missing(name) => write!(f, "C{number} {}", name.name()),
            RecordFault::Version(fault) => write!(f, "C{number} {fault}"),
            RecordFault::Lists(fault) => write!(f, "C{number} {fault}"),
            _ => write!(f, "C{number}"),
        }
    }
}

impl Error for RecordFault {}

impl From<ParaFault> for RecordFault {
    ghost from_gives = { λ fault e. e ≡ of_paragraph fault };

    fn from(fault: ParaFault) -> RecordFault {
        match fault {
            ParaFault::OutOfMemory => RecordFault::OutOfMemory,
            fault => RecordFault::Paragraph(fault),
        }
    }
}

impl From<VersionFault> for RecordFault {
    ghost from_gives = { λ fault e. e ≡ of_version fault };

    fn from(fault: VersionFault) -> RecordFault {
        match fault {
            VersionFault::OutOfMemory => RecordFault::OutOfMemory,
            fault => RecordFault::Version(fault),
        }
    }
}

impl From<ListFault> for RecordFault {
    ghost from_gives = { λ fault e. e ≡ of_lists fault };

    fn from(fault: ListFault) -> RecordFault {
        match fault {
            ListFault::OutOfMemory => RecordFault::OutOfMemory,
            fault => RecordFault::Lists(fault),
        }
    }
}

impl From<AllocError> for RecordFault {
    ghost from_gives = { λ _ e. e ≡ OutOfMemory };

    fn from(_error: AllocError) -> RecordFault {
        RecordFault::OutOfMemory
    }
}

impl<T: Drop> From<AllocFailed<T>> for RecordFault {
    ghost from_gives = { λ _ e. e ≡ OutOfMemory };

    fn from(_error: AllocFailed<T>) -> RecordFault {
        RecordFault::OutOfMemory
    }
}
