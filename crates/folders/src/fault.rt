//! Why something in a folder is not done.

use std::alloc::{AllocError, AllocFailed, Global};
use std::io::{self, ErrorKind};

/// Why something in a folder is not done.
#[derive(Debug, Drop)]
pub enum FolderFault {
    /// The disk failed at this path, or there is something that is not to be replaced.
    Path(String),
    /// No memory was left.
    OutOfMemory,
}

impl From<AllocError> for FolderFault {
    fn from(_error: AllocError) -> FolderFault {
        FolderFault::OutOfMemory
    }
}

impl<T: Drop> From<AllocFailed<T>> for FolderFault {
    fn from(_error: AllocFailed<T>) -> FolderFault {
        FolderFault::OutOfMemory
    }
}

/// What a call of the disk gave, or that it failed at a path.
pub fn at<T: Drop>(alloc: Global, path: &str, done: io::Result<T>) -> Result<T, FolderFault> {
    match done {
        Ok(value) => Ok(value),
        Err(error) => Err(fault_at(alloc, path, &error)),
    }
}

/// The fault of a call of the disk at a path.
pub fn fault_at(alloc: Global, path: &str, error: &io::Error) -> FolderFault {
    if error.kind() == ErrorKind::OutOfMemory {
        return FolderFault::OutOfMemory;
    }
    place_fault(alloc, path)
}

/// The fault of a path at which something else is.
pub fn place_fault(alloc: Global, path: &str) -> FolderFault {
    match String::from_str(alloc, path) {
        Ok(path) => FolderFault::Path(path),
        Err(_) => FolderFault::OutOfMemory,
    }
}

/// Whether a call of the disk failed since there is nothing at a path, or no folder on the way to it.
pub fn is_missing(error: &io::Error) -> bool {
    matches!(error.kind(), ErrorKind::NotFound | ErrorKind::NotADirectory)
}
