//! What is made, renamed and removed in a folder.

ghost use Rattle.std.specs.Prelude.{OnOk};
ghost use Rattle.std.specs.Io.KnownBytes.{Appends};

use crate::disk::Disk;
use crate::fault::FolderFault;
use crate::folder::{Folder, open_kind_by};
use crate::kept::Kept;
use std::alloc::Global;
use std::fs::{self, File, FileTimes, OpenFile, OpenOptions};
use std::io::{self, ErrorKind, Write};
use std::os::unix::fs::symlink;
use std::rt::Files;
use std::time::SystemTime;

/// Has an open file on the disk, if that is asked.
fn sync_file<R: Disk>(file: &R::File, is_synced: bool) -> io::Result<()> {
    if is_synced {
        file.sync_data()?;
    }
    Ok(())
}

/// Has an open file be modified at a moment.
fn touch_file<R: Disk>(file: &R::File, moment: SystemTime) -> io::Result<()> {
    file.set_times(FileTimes::new().set_modified(moment))
}

/// What a removal gave. It is not a failure if there was nothing.
fn removed(done: io::Result<()>) -> io::Result<()> {
    match done {
        Err(error) if error.kind() == ErrorKind::NotFound => Ok(()),
        done => done,
    }
}

/// The regular file at a path, open to be written. It is made, if nothing is there.
fn open_or_make<R: Disk>(rt: &R, path: &str) -> io::Result<Option<R::File>> {
    match File::create_new(rt, path) {
        Ok(file) => Ok(Some(file)),
        Err(error) if error.kind() == ErrorKind::AlreadyExists => {
            open_kind_by(rt, path, false, OpenOptions::new().write(true))
        }
        Err(error) => Err(error),
    }
}

impl<R: Disk> Folder<R> {
    /// Removes the file or the link of a name in this folder, if there is one. It is removed without being opened, so a link is not
    /// followed.
    ///
    /// Refused as `Path` if it is kept, if a folder has the name, or if the disk fails, and for want of memory.
    pub fn remove(&self, rt: &R, kept: &Kept, name: &str) -> Result<(), FolderFault> {
        kept.spare(rt, self, name)?;
        let place = self.place_of(rt.alloc(), name)?;
        let done = removed(fs::remove_file(rt, place.as_str()));
        self.given(rt.alloc(), name, done)
    }

    /// Removes a folder of a name in this one with all that is in it. No link in it is followed.
    fn remove_folder(&self, rt: &R, kept: &Kept, name: &str) -> Result<(), FolderFault> {
        kept.spare(rt, self, name)?;
        let place = self.place_of(rt.alloc(), name)?;
        let done = removed(fs::remove_dir_all(rt, place.as_str()));
        self.given(rt.alloc(), name, done)
    }

    /// Removes what has a name in this folder, a folder with all that is in it.
    ///
    /// Refused as `Path` if it is kept, or something in it, or if the disk fails, and for want of memory.
    pub fn remove_all(&self, rt: &R, kept: &Kept, name: &str) -> Result<(), FolderFault> {
        match self.seen(rt, name)? {
            Some(seen) if seen.is_dir() => self.remove_folder(rt, kept, name),
            Some(_) => self.remove(rt, kept, name),
            None => Ok(()),
        }
    }

    /// Removes the folder of a name in this one, if it is empty. It answers whether that is done.
    pub fn remove_empty(&self, rt: &R, name: &str) -> Result<bool, FolderFault> {
        let place = self.place_of(rt.alloc(), name)?;
        Ok(fs::remove_dir(rt, place.as_str()).is_ok())
    }

    /// Begins a new file with a name in this folder, which is open to be written on and has no byte yet. A file or a link that has the name
    /// is removed before.
    ///
    /// Refused as `Path` if that is kept, if a folder has the name, or if the disk fails, and for want of memory.
    pub fn begin_new(&self, rt: &R, kept: &Kept, name: &str) -> Result<R::File, FolderFault> {
        self.remove(rt, kept, name)?;
        let place = self.place_of(rt.alloc(), name)?;
        let done = File::create_new(rt, place.as_str());
        self.given(rt.alloc(), name, done)
    }

    /// Writes the next bytes on a new file of a name in this folder, which was begun.
    ///
    /// Refused as `Path` if the disk fails, and for want of memory.
    pub fn write_on<W: Write>(
        &self,
        alloc: Global,
        name: &str,
        file: &mut W,
        bytes: &[u8],
    ) -> Result<(), FolderFault>
        // All of these bytes come after those that were written before, and nothing else does.
        ensures written { OnOk result (Appends (W.contents file.old) (W.contents file.new) bytes.now) }
    {
        match file.write_all(bytes) {
            Ok(()) => Ok(()),
            Err(error) => Err(self.fault_of(alloc, name, &error)),
        }
    }

    /// Ends a new file of a name in this folder, which was written on: it is on the disk if that is asked, and is closed.
    ///
    /// Refused as `Path` if the disk fails, and for want of memory.
    pub fn end_new(
        &self,
        alloc: Global,
        name: &str,
        file: R::File,
        is_synced: bool,
    ) -> Result<(), FolderFault> {
        let done = sync_file::<R>(&file, is_synced);
        self.given(alloc, name, done)
    }

    /// Writes a new file with a name in this folder, and has it on the disk if that is asked. A file or a link that has the name is removed
    /// before.
    ///
    /// Refused as `Path` if that is kept, if a folder has the name, or if the disk fails, and for want of memory.
    pub fn write_new(
        &self,
        rt: &R,
        kept: &Kept,
        name: &str,
        body: &[u8],
        is_synced: bool,
    ) -> Result<(), FolderFault> {
        let mut file = self.begin_new(rt, kept, name)?;
        self.write_on(rt.alloc(), name, &mut file, body)?;
        self.end_new(rt.alloc(), name, file, is_synced)
    }

    /// Renames what has a name in this folder to a name in another one, in the place of the file or the link that has that.
    ///
    /// Refused as `Path` of the new name if what has it is kept, if it is a folder's, or if the disk fails, and for want of memory.
    pub fn move_to(
        &self,
        rt: &R,
        kept: &Kept,
        name: &str,
        to: &Folder<R>,
        new_name: &str,
    ) -> Result<(), FolderFault> {
        kept.spare(rt, to, new_name)?;
        let place = self.place_of(rt.alloc(), name)?;
        let new_place = to.place_of(rt.alloc(), new_name)?;
        let done = fs::rename(rt, place.as_str(), new_place.as_str());
        to.given(rt.alloc(), new_name, done)
    }

    /// Gives the file of a name in this folder a further name in another one. It answers whether that is done: it is not if something has
    /// the name, or if the file system has no further names.
    pub fn name_too(
        &self,
        rt: &R,
        name: &str,
        to: &Folder<R>,
        new_name: &str,
    ) -> Result<bool, FolderFault> {
        let place = self.place_of(rt.alloc(), name)?;
        let new_place = to.place_of(rt.alloc(), new_name)?;
        Ok(fs::hard_link(rt, place.as_str(), new_place.as_str()).is_ok())
    }

    /// Makes a link with a name in this folder, which leads to a name. A file or a link that has the name is removed before.
    ///
    /// Refused as `Path` if that is kept, if a folder has the name, or if the disk fails, and for want of memory.
    pub fn link(&self, rt: &R, kept: &Kept, name: &str, target: &str) -> Result<(), FolderFault> {
        self.remove(rt, kept, name)?;
        let place = self.place_of(rt.alloc(), name)?;
        let done = symlink(rt, target, place.as_str());
        self.given(rt.alloc(), name, done)
    }

    /// Has the regular file of a name in this folder be modified at a moment, if there is one.
    pub fn touch(&self, rt: &R, name: &str, moment: SystemTime) -> Result<(), FolderFault> {
        match self.opened(rt, name)? {
            Some(file) => self.given(rt.alloc(), name, touch_file::<R>(&file, moment)),
            None => Ok(()),
        }
    }

    /// The regular file of a name in this folder, open to be written. It is made, if nothing has the name. It is `None` if something else
    /// has the name.
    ///
    /// Refused as `Path` if it cannot be opened, and for want of memory.
    pub fn opened_to_write(&self, rt: &R, name: &str) -> Result<Option<R::File>, FolderFault> {
        let place = self.place_of(rt.alloc(), name)?;
        let done = open_or_make(rt, place.as_str());
        self.given(rt.alloc(), name, done)
    }
}
