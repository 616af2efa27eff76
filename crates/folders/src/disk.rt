//! What the work in folders needs of a machine.

use std::fs::File;
use std::os::fd::AsRawFd;
use std::rt::{Clock, Files};

/// A disk with its files, a clock, and memory.
pub trait Disk: Files + Clock + AllocGlobal + Clone + Drop {
    /// The number that this process has for an open file.
    fn number_of(file: &Self::File) -> i32;
}

impl Disk for HostRuntime {
    fn number_of(file: &File) -> i32 {
        file.as_raw_fd()
    }
}
