//! What distinguishes the files of a machine.

use std::fs::Metadata;
use std::os::unix::fs::MetadataExt;

/// A file of this machine, by its file system and its number there, whatever its names are.
#[derive(Clone, Copy, Debug, PartialEq, Eq)]
pub struct FileId {
    device: u64,
    number: u64,
}

/// Which file of the machine this is.
pub fn id_of(seen: &Metadata) -> FileId {
    FileId {
        device: seen.dev(),
        number: seen.ino(),
    }
}
