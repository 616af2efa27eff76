//! Which fault of a keeper an error of the database is.

ghost use Rattle.std.specs.Prelude.{◌≡◌, true};
ghost use Rattle.book.specs.Keeping.{MayAnswer};
ghost use Rattle.tables_meaning.specs.Faults.{fault_for};

use book::KeepFault;
use sqlite::{Error, ErrorCode};

/// The fault that an error of the database is: want of memory, a size that the database cannot hold, or in all other cases a
/// failure of the disk.
pub fn fault_of(error: Error) -> KeepFault
    ensures may { MayAnswer true result }
    ensures which { result ≡ fault_for error }
{
    match error {
        Error::SqliteFailure(ErrorCode::OutOfMemory) => KeepFault::OutOfMemory,
        Error::SqliteFailure(ErrorCode::TooBig) => KeepFault::Size,
        _ => KeepFault::Disk,
    }
}
