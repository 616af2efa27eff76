//! Why the program ends before it is done.

use crate::escaped::{Escaped, OwnedEscaped};
use book::KeepFault;
use command_line::BatchFault;
use in_file::OpenFault;
use queue::Fault;
use rules::ConfigFault;
use std::alloc::AllocError;
use std::io;
use thiserror::Error;
use vers::VersionFault;

/// Why the program ends before it is done.
#[derive(Debug, Drop, Error)]
pub enum Stop<'a> {
    #[error("archive: cannot read {0}")]
    Unreadable(Escaped<'a>),
    /// This line of a list of commands, counted from 1, is neither a command nor passed over.
    #[error("archive: line {0}")]
    BadLine(usize),
    #[error("archive: {0}")]
    Refused(Fault),
    /// The database is not opened, no archive is made in it or from it, or its archive is not given another configuration.
    #[error("archive: {0}")]
    NoArchive(KeepFault),
    /// The database is not opened. Its tables are not those of an archive, and say that they are of this older layout, from which a
    /// migration can make an archive.
    #[error("archive: {0}\narchive: an archive of layout {1}: archive migrate reads it")]
    Older(KeepFault, u64),
    /// The database is not opened. Its tables are not those of an archive, and say that they are of this layout, which a later program
    /// made.
    #[error("archive: {0}\narchive: an archive of layout {1}, which a later program made")]
    Later(KeepFault, u64),
    /// A configuration is refused.
    #[error("archive: {0}")]
    NoConfig(ConfigFault),
    /// No index and no file of the pool stands at the path.
    #[error("archive: not found")]
    NotFound,
    #[error("archive: {0}")]
    NoVersion(VersionFault),
    /// A path below the folder of an export can't be written.
    #[error("archive: cannot write {0}")]
    Unplaced(OwnedEscaped),
    /// A folder of an export shows this suite signed, and neither `--signed` nor `--unsigned` was given to the export.
    #[error("archive: suite {0} is signed in the tree: give --signed or --unsigned")]
    Signed(OwnedEscaped),
    /// A component has the name of a file that an export writes beside its folder.
    #[error("archive: component {0} is named as a file of the tree")]
    Named(OwnedEscaped),
    /// The address can't be used, or a connection can't be accepted.
    #[error("archive: cannot listen")]
    CannotListen,
    /// The keeper that was served is shut, and this number of connections is left to be answered.
    #[error("archive: {0} connections are left")]
    Shut(u64),
    /// The archive that was served can't be opened again.
    #[error("archive: {0}")]
    Lost(KeepFault),
    /// An output failed. Nothing more is printed.
    #[error("archive: cannot write")]
    Unwritten,
}

impl From<Fault> for Stop<'_> {
    fn from(fault: Fault) -> Self {
        Stop::Refused(fault)
    }
}

impl From<AllocError> for Stop<'_> {
    fn from(_error: AllocError) -> Self {
        Stop::Refused(Fault::OutOfMemory)
    }
}

impl From<KeepFault> for Stop<'_> {
    fn from(fault: KeepFault) -> Self {
        Stop::NoArchive(fault)
    }
}

impl From<OpenFault> for Stop<'_> {
    fn from(fault: OpenFault) -> Self {
        match fault {
            OpenFault::Keeper(fault) => Stop::NoArchive(fault),
            OpenFault::Older(layout) => Stop::Older(KeepFault::NoArchive, layout),
            OpenFault::Later(layout) => Stop::Later(KeepFault::NoArchive, layout),
        }
    }
}

impl From<ConfigFault> for Stop<'_> {
    fn from(fault: ConfigFault) -> Self {
        Stop::NoConfig(fault)
    }
}

impl From<VersionFault> for Stop<'_> {
    fn from(fault: VersionFault) -> Self {
        Stop::NoVersion(fault)
    }
}

impl From<BatchFault> for Stop<'_> {
    fn from(fault: BatchFault) -> Self {
        match fault {
            BatchFault::OutOfMemory => Stop::Refused(Fault::OutOfMemory),
            BatchFault::Line(number) => Stop::BadLine(number),
        }
    }
}

impl From<io::Error> for Stop<'_> {
    fn from(_error: io::Error) -> Self {
        Stop::Unwritten
    }
}

impl Stop<'_> {
    /// The exit status: 1 if something is refused or can't be read, 2 for a list with a bad line, 3 for want of memory, a disk that fails,
    /// a size that is too large, an address that can't be used, an archive that can't be served on, a path that can't be written, or an
    /// output that fails.
    pub fn status(&self) -> u8 {
        match self {
            Stop::Unreadable(_) | Stop::NotFound => 1,
            Stop::Signed(_) | Stop::Named(_) => 1,
            Stop::NoArchive(KeepFault::NoArchive | KeepFault::Configuration)
            | Stop::Older(KeepFault::NoArchive, _)
            | Stop::Later(KeepFault::NoArchive, _) => 1,
            Stop::BadLine(_) => 2,
            Stop::NoArchive(_) | Stop::Older(..) | Stop::Later(..) => 3,
            Stop::Refused(Fault::OutOfMemory | Fault::Keeper(_)) => 3,
            Stop::Refused(_) => 1,
            Stop::NoConfig(ConfigFault::OutOfMemory) => 3,
            Stop::NoConfig(_) => 1,
            Stop::NoVersion(VersionFault::OutOfMemory) => 3,
            Stop::NoVersion(_) => 1,
            Stop::CannotListen | Stop::Shut(_) | Stop::Lost(_) => 3,
            Stop::Unplaced(_) | Stop::Unwritten => 3,
        }
    }
}

/// Says that everything that was given was taken, if it is done.
pub fn all_taken<'a>(done: Result<(), Stop<'a>>) -> Result<bool, Stop<'a>> {
    match done {
        Ok(()) => Ok(true),
        Err(stop) => Err(stop),
    }
}
