//! Folders at paths of several names.

use crate::disk::Disk;
use crate::fault::FolderFault;
use crate::folder::Folder;
use crate::kept::Kept;

impl<R: Disk> Folder<R> {
    /// The folder of a name in the last one of a way that begins in this one.
    fn next_on_way(
        &self,
        rt: &R,
        last: &Option<Folder<R>>,
        name: &str,
    ) -> Result<Option<Folder<R>>, FolderFault> {
        match last {
            Some(folder) => folder.within(rt, name),
            None => self.within(rt, name),
        }
    }

    /// Makes the folder of a name in the last one of a way that begins in this one.
    fn make_on_way(
        &self,
        rt: &R,
        last: &Option<Folder<R>>,
        name: &str,
    ) -> Result<Folder<R>, FolderFault> {
        match last {
            Some(folder) => folder.make(rt, name),
            None => self.make(rt, name),
        }
    }

    /// The folder at a path in this one, open. The names of the path have a slash between each two. It is `None` if something on the way is
    /// missing, a link, or not a folder.
    pub fn way(&self, rt: &R, path: &str) -> Result<Option<Folder<R>>, FolderFault> {
        let mut last = None;
        for name in path.split('/') {
            let next = self.next_on_way(rt, &last, name)?;
            if next.is_none() {
                return Ok(None);
            }
            last = next;
        }
        Ok(last)
    }

    /// The folder at a path in this one, open. It and those on the way to it are made, if they are not there. The path is not empty.
    ///
    /// Refused as `Path` of the first folder on the way that cannot be made or opened, and for want of memory.
    pub fn way_made(&self, rt: &R, path: &str) -> Result<Folder<R>, FolderFault> {
        let mut last = None;
        for name in path.split('/') {
            last = Some(self.make_on_way(rt, &last, name)?);
        }
        match last {
            Some(folder) => Ok(folder),
            None => Err(self.place_fault(rt.alloc(), path)),
        }
    }

    /// Removes what has a name in this folder, unless it is a folder. Refused as `Path` if it is kept.
    fn clear(&self, rt: &R, kept: &Kept, name: &str) -> Result<(), FolderFault> {
        match self.seen(rt, name)? {
            Some(seen) if !seen.is_dir() => self.remove(rt, kept, name),
            _ => Ok(()),
        }
    }

    /// Makes the folder of a name in this one, in the place of any other file that has the name and is not kept.
    fn make_cleared(&self, rt: &R, kept: &Kept, name: &str) -> Result<Folder<R>, FolderFault> {
        self.clear(rt, kept, name)?;
        self.make(rt, name)
    }

    /// Makes the folder of a name in the last one of a way that begins in this one, in the place of any other file that has the name and is
    /// not kept.
    fn make_cleared_on_way(
        &self,
        rt: &R,
        kept: &Kept,
        last: &Option<Folder<R>>,
        name: &str,
    ) -> Result<Folder<R>, FolderFault> {
        match last {
            Some(folder) => folder.make_cleared(rt, kept, name),
            None => self.make_cleared(rt, kept, name),
        }
    }

    /// Opens the folder at a path as `way_made` does, but removes what is on the way and is not a folder. Refused as `Path` if that is
    /// kept.
    pub fn way_cleared(&self, rt: &R, kept: &Kept, path: &str) -> Result<Folder<R>, FolderFault> {
        let mut last = None;
        for name in path.split('/') {
            last = Some(self.make_cleared_on_way(rt, kept, &last, name)?);
        }
        match last {
            Some(folder) => Ok(folder),
            None => Err(self.place_fault(rt.alloc(), path)),
        }
    }
}
