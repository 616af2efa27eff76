//! An open folder, and the folders in it.

use crate::disk::Disk;
use crate::fault::{FolderFault, at, fault_at, is_missing, place_fault};
use crate::file_id::id_of;
use crate::names::inside;
use std::alloc::{AllocError, Global};
use std::fs::{self, File, Metadata, OpenFile, OpenOptions};
use std::io::{self, ErrorKind};

/// A folder that is open. It is closed when it is let go.
#[derive(Drop)]
pub struct Folder<R: Disk> {
    file: R::File,
    /// The path that stands for the folder in calls of the system: `/proc/self/fd/N`, or its own path if there is no /proc.
    base: String,
    /// The path by which it was opened, for messages.
    path: String,
    /// Whether `base` is by the number.
    is_by_number: bool,
}

/// The path that stands for the folder of a number in calls of the system.
fn base_of(alloc: Global, number: i32) -> Result<String, AllocError> {
    format!(in alloc; "/proc/self/fd/{number}")
}

/// What is at a path, if something is. A link at its end is not followed.
pub fn seen_at<R: Disk>(rt: &R, path: &str) -> io::Result<Option<Metadata>> {
    match fs::symlink_metadata(rt, path) {
        Ok(seen) => Ok(Some(seen)),
        Err(error) if is_missing(&error) => Ok(None),
        Err(error) => Err(error),
    }
}

/// Whether a path leads to the file that is open.
fn leads_to<R: Disk>(rt: &R, path: &str, file: &R::File) -> bool {
    match (fs::metadata(rt, path), file.metadata()) {
        (Ok(named), Ok(open)) => id_of(&named) == id_of(&open),
        _ => false,
    }
}

/// Opens what is at a path to read it, as `open_kind_by` does.
pub fn open_kind<R: Disk>(rt: &R, path: &str, is_folder: bool) -> io::Result<Option<R::File>> {
    open_kind_by(rt, path, is_folder, OpenOptions::new().read(true))
}

/// Opens what is at a path, if it is a folder or a regular file, as is asked, and was that file before the opening. A link at the end of the
/// path is not followed.
pub fn open_kind_by<R: Disk>(
    rt: &R,
    path: &str,
    is_folder: bool,
    how: &OpenOptions,
) -> io::Result<Option<R::File>> {
    let Some(before) = seen_at(rt, path)? else {
        return Ok(None);
    };
    if !is_kind(&before, is_folder) {
        return Ok(None);
    }
    let file = how.open(rt, path)?;
    let open = file.metadata()?;
    Ok(if id_of(&open) == id_of(&before) {
        Some(file)
    } else {
        None
    })
}

/// Whether what was seen is a folder or a regular file, as is asked.
fn is_kind(seen: &Metadata, is_folder: bool) -> bool {
    if is_folder {
        seen.is_dir()
    } else {
        seen.is_file()
    }
}

impl<R: Disk> Folder<R> {
    /// Opens the folder at a path. It and those above it are made, if they are not there. Links on the way are followed. The empty path is the
    /// root of the file system.
    ///
    /// Refused as `Path` of the path if it cannot be opened, and for want of memory.
    pub fn open(rt: &R, path: &str) -> Result<Folder<R>, FolderFault> {
        let alloc = rt.alloc();
        let whole = if path.is_empty() { "/" } else { path };
        at(alloc, whole, fs::create_dir_all(rt, whole))?;
        let file = at(alloc, whole, File::open(rt, whole))?;
        let base = base_of(alloc, R::number_of(&file))?;
        let is_by_number = leads_to(rt, base.as_str(), &file);
        let path = String::from_str(alloc, path)?;
        let base = if is_by_number {
            base
        } else {
            String::from_str(alloc, path.as_str())?
        };
        Ok(Folder {
            file,
            base,
            path,
            is_by_number,
        })
    }

    /// The folder that is open as a file, which has a name in this one.
    fn named(&self, alloc: Global, name: &str, file: R::File) -> Result<Folder<R>, AllocError> {
        let path = self.path_of(alloc, name)?;
        let base = if self.is_by_number {
            base_of(alloc, R::number_of(&file))?
        } else {
            String::from_str(alloc, path.as_str())?
        };
        let is_by_number = self.is_by_number;
        Ok(Folder {
            file,
            base,
            path,
            is_by_number,
        })
    }

    /// The path of a name in this folder, for messages.
    pub fn path_of(&self, alloc: Global, name: &str) -> Result<String, AllocError> {
        inside(alloc, self.path.as_str(), name)
    }

    /// The path that stands for a name in this folder in calls of the system.
    pub fn place_of(&self, alloc: Global, name: &str) -> Result<String, AllocError> {
        inside(alloc, self.base.as_str(), name)
    }

    /// What a call of the disk gave, or that it failed at a name in this folder.
    pub fn given<T: Drop>(
        &self,
        alloc: Global,
        name: &str,
        done: io::Result<T>,
    ) -> Result<T, FolderFault> {
        match done {
            Ok(value) => Ok(value),
            Err(error) => Err(self.fault_of(alloc, name, &error)),
        }
    }

    /// The fault of a call of the disk at a name in this folder.
    pub fn fault_of(&self, alloc: Global, name: &str, error: &io::Error) -> FolderFault {
        match self.path_of(alloc, name) {
            Ok(path) => fault_at(alloc, path.as_str(), error),
            Err(_) => FolderFault::OutOfMemory,
        }
    }

    /// The fault of a name in this folder that something else has.
    pub fn place_fault(&self, alloc: Global, name: &str) -> FolderFault {
        match self.path_of(alloc, name) {
            Ok(path) => place_fault(alloc, path.as_str()),
            Err(_) => FolderFault::OutOfMemory,
        }
    }

    /// What has a name in this folder, if something has it. A link is not followed.
    pub fn seen(&self, rt: &R, name: &str) -> Result<Option<Metadata>, FolderFault> {
        let alloc = rt.alloc();
        let place = self.place_of(alloc, name)?;
        self.given(alloc, name, seen_at(rt, place.as_str()))
    }

    /// The folder of a name in this one, open. It is `None` if nothing has the name, or if a link or a file has it.
    pub fn within(&self, rt: &R, name: &str) -> Result<Option<Folder<R>>, FolderFault> {
        let alloc = rt.alloc();
        let place = self.place_of(alloc, name)?;
        let opened = open_kind(rt, place.as_str(), true);
        match self.given(alloc, name, opened)? {
            Some(file) => Ok(Some(self.named(alloc, name, file)?)),
            None => Ok(None),
        }
    }

    /// Makes the folder of a name in this one, if nothing has the name, and opens it.
    ///
    /// Refused as `Path` of its path if something else has the name or the disk fails, and for want of memory.
    pub fn make(&self, rt: &R, name: &str) -> Result<Folder<R>, FolderFault> {
        let alloc = rt.alloc();
        let place = self.place_of(alloc, name)?;
        let made = match fs::create_dir(rt, place.as_str()) {
            Err(error) if error.kind() == ErrorKind::AlreadyExists => Ok(()),
            made => made,
        };
        self.given(alloc, name, made)?;
        match self.within(rt, name)? {
            Some(folder) => Ok(folder),
            None => Err(self.place_fault(alloc, name)),
        }
    }

    /// Has the names in this folder on the disk.
    pub fn sync(&self, alloc: Global) -> Result<(), FolderFault> {
        at(alloc, self.path.as_str(), self.file.sync_all())
    }

    /// The names in this folder. Names that are not UTF-8 are passed over.
    pub fn names(&self, rt: &R) -> Result<Vec<String>, FolderFault> {
        let alloc = rt.alloc();
        let entries = at(
            alloc,
            self.path.as_str(),
            fs::read_dir(rt, self.base.as_str()),
        )?;
        let mut names = Vec::new(alloc);
        for entry in entries {
            if let Ok(entry) = entry {
                names.push(String::from_str(alloc, entry.file_name())?)?;
            }
        }
        Ok(names)
    }
}
