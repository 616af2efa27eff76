//! Regular files in a folder, as they are read.

use crate::disk::Disk;
use crate::fault::FolderFault;
use crate::folder::{Folder, open_kind};
use std::fs::{self, Metadata};
use std::io::{self, ErrorKind, Read};
use std::rt::Files;
use std::time::SystemTime;

/// The bytes of a file that is open, up to a count.
fn bytes_in<R: Disk>(rt: &R, file: R::File, most: u64) -> io::Result<Vec<u8>> {
    let mut body = Vec::new(rt.alloc());
    file.take(most).read_to_end(&mut body)?;
    Ok(body)
}

/// The bytes of the file at a path, if it is a regular one that has at most `most` bytes.
fn bytes_at<R: Disk>(rt: &R, path: &str, most: u64) -> io::Result<Option<Vec<u8>>> {
    let Some(file) = open_kind(rt, path, false)? else {
        return Ok(None);
    };
    let body = bytes_in(rt, file, most.saturating_add(1))?;
    Ok(if body.len() as u64 > most {
        None
    } else {
        Some(body)
    })
}

impl<R: Disk> Folder<R> {
    /// Whether a regular file has a name in this folder.
    pub fn is_file(&self, rt: &R, name: &str) -> Result<bool, FolderFault> {
        match self.seen(rt, name)? {
            Some(seen) => Ok(seen.is_file()),
            None => Ok(false),
        }
    }

    /// The regular file of a name in this folder, open to be read. It is `None` if nothing has the name, or something else has it.
    ///
    /// Refused as `Path` if it cannot be opened, and for want of memory.
    pub fn opened(&self, rt: &R, name: &str) -> Result<Option<R::File>, FolderFault> {
        let place = self.place_of(rt.alloc(), name)?;
        self.given(rt.alloc(), name, open_kind(rt, place.as_str(), false))
    }

    /// The bytes of the regular file of a name in this folder. The answer is `None` if nothing has the name, or something else has it, if
    /// the file cannot be read, or if it has more bytes than `most`.
    pub fn bytes(&self, rt: &R, name: &str, most: u64) -> Result<Option<Vec<u8>>, FolderFault> {
        let place = self.place_of(rt.alloc(), name)?;
        match bytes_at(rt, place.as_str(), most) {
            Ok(body) => Ok(body),
            Err(error) if error.kind() == ErrorKind::OutOfMemory => Err(FolderFault::OutOfMemory),
            Err(_) => Ok(None),
        }
    }

    /// Whether a regular file of these bytes has a name in this folder, and can be read.
    pub fn has_bytes(&self, rt: &R, name: &str, body: &[u8]) -> Result<bool, FolderFault> {
        match self.bytes(rt, name, body.len() as u64)? {
            Some(there) => Ok(there.as_slice() == body),
            None => Ok(false),
        }
    }

    /// The name that the link of a name in this folder leads to, if there is a link.
    pub fn link_of(&self, rt: &R, name: &str) -> Result<Option<String>, FolderFault> {
        let place = self.place_of(rt.alloc(), name)?;
        match fs::read_link(rt, place.as_str()) {
            Ok(target) => Ok(Some(String::from_str(rt.alloc(), target.as_str())?)),
            Err(error) if error.kind() == ErrorKind::OutOfMemory => Err(FolderFault::OutOfMemory),
            Err(_) => Ok(None),
        }
    }

    /// When the regular file of a name in this folder was modified, if that is known.
    pub fn modified(&self, rt: &R, name: &str) -> Result<Option<SystemTime>, FolderFault> {
        match self.seen(rt, name)? {
            Some(seen) if seen.is_file() => Ok(seen.modified().ok()),
            _ => Ok(None),
        }
    }
}
