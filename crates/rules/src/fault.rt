//! Why a text is not a configuration.

ghost use Rattle.std.specs.Prelude.{◌≡◌, Some};
ghost use Rattle.rules.specs.declared.fault.ConfigFault.TheVariants.{OutOfMemory};
ghost use Rattle.rules.specs.Fault.{fault_number, fault_text, of_paragraph};

use para::ParaFault;
use std::alloc::{AllocError, AllocFailed};
use std::error::Error;
use std::fmt;

/// Why a text is not a configuration (own rules of this archive). If several faults apply, anywhere in the text, the
/// answer is the first of these.
///
/// A fault is printed as the letter F and its number, `F4`. `Paragraph` is followed by what is wrong with the paragraphs,
/// `F1 P8`.
#[derive(Clone, Copy, Debug, PartialEq, Eq)]
pub enum ConfigFault {
    /// No memory was left.
    OutOfMemory,
    /// The text is longer than 1,048,576 bytes, or is not one or more control paragraphs (Debian Policy 5.1).
    Paragraph(ParaFault),
    /// A suite lacks a required field, or has one without a word.
    Missing,
    /// A value is not spelled as it has to be: a field of one line has more lines or is empty, a name is bad, or an
    /// architecture or a component of a suite stands twice.
    BadValue,
    /// Two suites claim the same distribution name.
    ClaimedTwice,
    /// A line of Uploaders is not `SOURCE by PERSON`.
    BadRule,
    /// There are more than 16 suites, or a suite has more than 16 architectures, 8 components or 256 uploader lines.
    Limits,
}

impl ConfigFault {
    /// The number of the fault, 0 to 6.
    pub fn number(self) -> u8
        ensures { result ≡ fault_number self }
    {
        match self {
            ConfigFault::OutOfMemory => 0,
            ConfigFault::Paragraph(_) => 1,
            ConfigFault::Missing => 2,
            ConfigFault::BadValue => 3,
            ConfigFault::ClaimedTwice => 4,
            ConfigFault::BadRule => 5,
            ConfigFault::Limits => 6,
        }
    }
}

impl fmt::Display for ConfigFault {
    ghost output = { λ fault. Some (fault_text fault) };

    fn fmt<W: fmt::Write>(&self, f: &mut fmt::Formatter<W>) -> fmt::Result {
        let number = self.number();
        match self {
            ConfigFault::Paragraph(fault) => write!(f, "F{number} {fault}"),
            _ => write!(f, "F{number}"),
        }
    }
}

impl Error for ConfigFault {}

impl From<ParaFault> for ConfigFault {
    ghost from_gives = { λ fault e. e ≡ of_paragraph fault };

    fn from(fault: ParaFault) -> ConfigFault {
        match fault {
            ParaFault::OutOfMemory => ConfigFault::OutOfMemory,
            fault => ConfigFault::Paragraph(fault),
        }
    }
}

impl From<AllocError> for ConfigFault {
    ghost from_gives = { λ _ e. e ≡ OutOfMemory };

    fn from(_error: AllocError) -> ConfigFault {
        ConfigFault::OutOfMemory
    }
}

impl<T: Drop> From<AllocFailed<T>> for ConfigFault {
    ghost from_gives = { λ _ e. e ≡ OutOfMemory };

    fn from(_error: AllocFailed<T>) -> ConfigFault {
        ConfigFault::OutOfMemory
    }
}
