//! Why an export ends before it is done.

use book::KeepFault;
use folders::FolderFault;
use queue::Fault;
use std::alloc::{AllocError, AllocFailed};
use std::error::Error;
use std::fmt;

/// Why an export ends before it is done. What it has made till then stays, and the next one goes on from there.
#[derive(Debug, Drop)]
pub enum ExportFault {
    /// Nothing can be written at this path: the disk is full or fails, permission is denied, a link or a file stands at the place of a
    /// folder or a folder at that of a file, the file is the database's, or another export holds the lock. It is the first path that
    /// failed.
    Path(String),
    /// The suite of this codename shows a signed state, and the export is asked neither to wait for signatures nor to do without them.
    Signed(String),
    /// A component has this name, which is that of a file in the folder of a state.
    Named(String),
    /// The archive refused a call.
    Archive(Fault),
    /// The output failed.
    Unwritten,
    /// No memory was left.
    OutOfMemory,
}

/// Writes a path or a name, with a question mark in the place of each control character.
fn write_shown<W: fmt::Write>(f: &mut fmt::Formatter<W>, path: &str) -> fmt::Result {
    let mut is_first = true;
    for piece in path.split(char::is_control) {
        if !is_first {
            f.write_char('?')?;
        }
        f.write_str(piece)?;
        is_first = false;
    }
    Ok(())
}

impl fmt::Display for ExportFault {
    fn fmt<W: fmt::Write>(&self, f: &mut fmt::Formatter<W>) -> fmt::Result {
        match self {
            ExportFault::Path(path) => {
                f.write_str("cannot write ")?;
                write_shown(f, path.as_str())
            }
            ExportFault::Signed(codename) => {
                f.write_str("suite ")?;
                write_shown(f, codename.as_str())?;
                f.write_str(" is signed in the tree: give --signed or --unsigned")
            }
            ExportFault::Named(component) => {
                f.write_str("component ")?;
                write_shown(f, component.as_str())?;
                f.write_str(" is named as a file of the tree")
            }
            ExportFault::Archive(fault) => write!(f, "{fault}"),
            ExportFault::Unwritten => f.write_str("cannot write"),
            ExportFault::OutOfMemory => write!(f, "{}", Fault::OutOfMemory),
        }
    }
}

impl Error for ExportFault {}

impl From<AllocError> for ExportFault {
    fn from(_error: AllocError) -> ExportFault {
        ExportFault::OutOfMemory
    }
}

impl<T: Drop> From<AllocFailed<T>> for ExportFault {
    fn from(_error: AllocFailed<T>) -> ExportFault {
        ExportFault::OutOfMemory
    }
}

impl From<Fault> for ExportFault {
    fn from(fault: Fault) -> ExportFault {
        match fault {
            Fault::OutOfMemory => ExportFault::OutOfMemory,
            fault => ExportFault::Archive(fault),
        }
    }
}

impl From<KeepFault> for ExportFault {
    fn from(fault: KeepFault) -> ExportFault {
        ExportFault::from(Fault::from(fault))
    }
}

impl From<FolderFault> for ExportFault {
    fn from(fault: FolderFault) -> ExportFault {
        match fault {
            FolderFault::Path(path) => ExportFault::Path(path),
            FolderFault::OutOfMemory => ExportFault::OutOfMemory,
        }
    }
}
