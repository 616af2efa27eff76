//! The folders that an export works in, and how a file gets its place.

ghost use Rattle.std.specs.Prelude.{OnOk};
ghost use Rattle.std.specs.Io.KnownBytes.{Appends};

use exported::OWN;
use folders::{Disk, Folder, FolderFault, Kept};
use std::alloc::Global;
use std::io::Write;
use std::rt::Files;

/// The name that a file has in the folder of exports until it has its place.
const NEW: &str = "new";

/// The name that a link has in the folder of exports until it has its place.
const LINK: &str = "link";

/// The folders of a tree, open, and what an export never touches.
#[derive(Drop)]
pub struct Site<R: Disk> {
    /// The folder of the tree.
    pub root: Folder<R>,
    /// The folder of what exports keep for themselves.
    pub own: Folder<R>,
    /// The folder of the suites.
    pub dists: Folder<R>,
    /// The database.
    pub kept: Kept,
}

/// The folder of a tree, open, and the folder of what exports keep for themselves.
pub fn opened_folders<R: Disk>(rt: &R, path: &str) -> Result<(Folder<R>, Folder<R>), FolderFault> {
    let root = Folder::open(rt, path)?;
    let own = root.make(rt, OWN)?;
    Ok((root, own))
}

/// What an export of the archive of a database never touches.
pub fn kept_of<R: Disk>(rt: &R, database: &str) -> Result<Kept, FolderFault> {
    let mut kept = Kept::new(rt.alloc());
    if !database.is_empty() {
        kept.keep_database(rt, database)?;
    }
    Ok(kept)
}

impl<R: Disk> Site<R> {
    /// Begins a file among those of exports, open to be written on.
    ///
    /// Refused as `Path` if the disk fails, and for want of memory.
    pub fn begin(&self, rt: &R) -> Result<R::File, FolderFault> {
        self.own.begin_new(rt, &self.kept, NEW)
    }

    /// Writes the next bytes on the file that was begun.
    ///
    /// Refused as `Path` if the disk fails, and for want of memory.
    pub fn write_on<W: Write>(
        &self,
        alloc: Global,
        file: &mut W,
        bytes: &[u8],
    ) -> Result<(), FolderFault>
        // All of these bytes come after those that were written before, and nothing else does.
        ensures written { OnOk result (Appends (W.contents file.old) (W.contents file.new) bytes.now) }
    {
        self.own.write_on(alloc, NEW, file, bytes)
    }

    /// Has the file that was written on the disk, if that is asked, and renames it to a name in a folder.
    ///
    /// Refused as `Path` if what has the name is the database's or a folder, or if the disk fails, and for want of memory.
    pub fn end(
        &self,
        rt: &R,
        file: R::File,
        folder: &Folder<R>,
        name: &str,
        is_synced: bool,
    ) -> Result<(), FolderFault> {
        self.own.end_new(rt.alloc(), NEW, file, is_synced)?;
        self.own.move_to(rt, &self.kept, NEW, folder, name)
    }

    /// Removes the file that was begun and does not get its place. It takes room on a full disk. If it stays, the next file is written in
    /// its place.
    pub fn give_up(&self, rt: &R) {
        let _ = self.own.remove(rt, &self.kept, NEW);
    }

    /// Writes a file among those of exports, and renames it to a name in a folder.
    fn write_and_move(
        &self,
        rt: &R,
        folder: &Folder<R>,
        name: &str,
        body: &[u8],
        is_synced: bool,
    ) -> Result<(), FolderFault> {
        let mut file = self.begin(rt)?;
        self.write_on(rt.alloc(), &mut file, body)?;
        self.end(rt, file, folder, name, is_synced)
    }

    /// Puts a file at a name in a folder: it is written beside, and renamed there. If that fails, what was written beside is removed.
    ///
    /// Refused as `Path` if what has the name is the database's or a folder, or if the disk fails, and for want of memory.
    pub fn put(
        &self,
        rt: &R,
        folder: &Folder<R>,
        name: &str,
        body: &[u8],
        is_synced: bool,
    ) -> Result<(), FolderFault> {
        self.kept.spare(rt, folder, name)?;
        let done = self.write_and_move(rt, folder, name, body, is_synced);
        if done.is_err() {
            self.give_up(rt);
        }
        done
    }

    /// Puts a link to a name at a name in a folder, by one rename.
    pub fn put_link(
        &self,
        rt: &R,
        folder: &Folder<R>,
        name: &str,
        target: &str,
    ) -> Result<(), FolderFault> {
        self.own.link(rt, &self.kept, LINK, target)?;
        self.own.move_to(rt, &self.kept, LINK, folder, name)
    }

    /// Gives a file of a folder a further name in another one. If the disk has no further names, a copy is put there, whose contents are
    /// `body`. It is there whole or not at all, in the place of what has the name.
    pub fn put_too(
        &self,
        rt: &R,
        from: &Folder<R>,
        name: &str,
        to: &Folder<R>,
        new_name: &str,
        body: &[u8],
    ) -> Result<(), FolderFault> {
        self.own.remove(rt, &self.kept, NEW)?;
        if !from.name_too(rt, name, &self.own, NEW)? {
            return self.put(rt, to, new_name, body, true);
        }
        self.own.move_to(rt, &self.kept, NEW, to, new_name)
    }

    /// Removes what an export that was stopped left half written.
    pub fn remove_cut(&self, rt: &R) -> Result<(), FolderFault> {
        self.own.remove(rt, &self.kept, NEW)
    }
}
