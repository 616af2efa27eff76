//! Files that stay as they are, whatever is done in the folders that they lie in.

use crate::disk::Disk;
use crate::fault::FolderFault;
use crate::file_id::{FileId, id_of};
use crate::folder::Folder;
use std::alloc::{AllocError, Global};
use std::fs;

/// What is never removed and never replaced: files, and the folders on the way to them.
#[derive(Drop)]
pub struct Kept {
    ids: Vec<FileId>,
}

impl Kept {
    /// Nothing is kept.
    pub fn new(alloc: Global) -> Kept {
        Kept {
            ids: Vec::new(alloc),
        }
    }

    /// Keeps what a path leads to, if it leads to something.
    pub fn keep<R: Disk>(&mut self, rt: &R, path: &str) -> Result<(), AllocError> {
        if let Ok(seen) = fs::metadata(rt, path) {
            self.ids.push(id_of(&seen))?;
        }
        Ok(())
    }

    /// Keeps the folders on the way to a path.
    fn keep_above<R: Disk>(&mut self, rt: &R, path: &str) -> Result<(), AllocError> {
        let mut rest = path;
        for _ in 0..path.len() {
            let Some((above, _)) = rest.rsplit_once('/') else {
                break;
            };
            self.keep(rt, above)?;
            rest = above;
        }
        Ok(())
    }

    /// Keeps the file at a path, which has no link on it, and those beside it that SQLite makes for a database.
    fn keep_database_at<R: Disk>(&mut self, rt: &R, path: &str) -> Result<(), AllocError> {
        self.keep_above(rt, path)?;
        self.keep(rt, path)?;
        for end in ["-wal", "-journal", "-shm"] {
            let beside = format!(in rt.alloc(); "{path}{end}")?;
            self.keep(rt, beside.as_str())?;
        }
        Ok(())
    }

    /// Keeps the database that a path leads to, if it leads to one, with its log and its journal.
    pub fn keep_database<R: Disk>(&mut self, rt: &R, path: &str) -> Result<(), AllocError> {
        match fs::canonicalize(rt, path) {
            Ok(real) => self.keep_database_at(rt, real.as_str()),
            Err(_) => Ok(()),
        }
    }

    /// Whether what was seen is kept.
    fn has(&self, id: FileId) -> bool {
        self.ids.iter().any(|kept| *kept == id)
    }

    /// Refuses a name in a folder as `Path` if what has it is kept.
    pub fn spare<R: Disk>(
        &self,
        rt: &R,
        folder: &Folder<R>,
        name: &str,
    ) -> Result<(), FolderFault> {
        match folder.seen(rt, name)? {
            Some(seen) if self.has(id_of(&seen)) => Err(folder.place_fault(rt.alloc(), name)),
            _ => Ok(()),
        }
    }
}
