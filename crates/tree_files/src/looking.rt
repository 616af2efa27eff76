//! What an export finds in the tree.
//!
//! The word of the manifest counts if the disk still has a regular file of that size, modified at that moment. Any other file is read,
//! and known by its print.

use crate::paths::cut;
use exported::{Manifest, Stamp, Vouched, Word};
use folders::{Disk, Folder, FolderFault};
use std::collections::BTreeMap;
use std::fs::Metadata;
use std::io::{self, Read};
use std::os::unix::fs::MetadataExt;
use std::rt::Files;
use suites::Shelves;
use sums::{Print, Printer};

/// How many bytes of a file are read at once.
const PIECE: usize = 65_536;

/// A file that was found: its contents, and when it was modified.
#[derive(Clone, Copy)]
struct Found {
    print: Print,
    stamp: Stamp,
}

/// The stamp of a file.
pub fn stamp_of(seen: &Metadata) -> Stamp {
    Stamp {
        seconds: u64::try_from(seen.mtime()).unwrap_or(0),
        nanos: u32::try_from(seen.mtime_nsec()).unwrap_or(0),
    }
}

/// The print of an open file, which is read in pieces.
fn print_of_file<R: Disk>(rt: &R, mut file: R::File) -> io::Result<Print> {
    let mut buffer = vec![in rt.alloc(); 0u8; PIECE]?;
    let mut printer = Printer::new();
    for _ in 0..u64::MAX {
        let count = file.read(buffer.as_mut_slice())?;
        if count == 0 {
            break;
        }
        printer.update(&buffer[..count]);
    }
    Ok(printer.finish())
}

/// The print of the regular file of a name in a folder, if there is one.
fn print_at<R: Disk>(rt: &R, folder: &Folder<R>, name: &str) -> Result<Option<Print>, FolderFault> {
    match folder.opened(rt, name)? {
        Some(file) => {
            let done = print_of_file(rt, file);
            Ok(Some(folder.given(rt.alloc(), name, done)?))
        }
        None => Ok(None),
    }
}

/// What the manifest says of a file of these contents that was modified then.
pub fn here(print: Print, stamp: Stamp) -> Word {
    let sha256 = print.sha256;
    Word::Here(Vouched {
        sha256,
        size: print.size,
        stamp,
    })
}

/// Whether the word on a path vouches that the file that is seen there has the contents. It has their size.
fn is_vouched(word: Option<Word>, print: Print, seen: &Metadata) -> bool {
    word == Some(here(print, stamp_of(seen)))
}

/// The regular file of a name in a folder, if it has the size of the print. Its contents are read, unless the word vouches for them.
fn found_in<R: Disk>(
    rt: &R,
    folder: &Folder<R>,
    name: &str,
    print: Print,
    word: Option<Word>,
) -> Result<Option<Found>, FolderFault> {
    let Some(seen) = folder.seen(rt, name)? else {
        return Ok(None);
    };
    if !seen.is_file() || seen.len() != print.size {
        return Ok(None);
    }
    let stamp = stamp_of(&seen);
    if is_vouched(word, print, &seen) {
        return Ok(Some(Found { print, stamp }));
    }
    match print_at(rt, folder, name)? {
        Some(print) => Ok(Some(Found { print, stamp })),
        None => Ok(None),
    }
}

/// The folder that was looked into last, and the one that it lies in, so that those which many files share are opened once.
#[derive(Drop)]
struct Near<R: Disk> {
    above_path: String,
    above: Option<Folder<R>>,
    path: String,
    folder: Option<Folder<R>>,
}

impl<R: Disk> Near<R> {
    fn new(rt: &R) -> Near<R> {
        Near {
            above_path: String::new(rt.alloc()),
            above: None,
            path: String::new(rt.alloc()),
            folder: None,
        }
    }

    /// Goes to the folder at a path, in which the wanted one lies.
    fn go_above(&mut self, rt: &R, root: &Folder<R>, path: &str) -> Result<(), FolderFault> {
        if self.above_path.as_str() != path {
            self.above = root.way(rt, path)?;
            self.above_path = String::from_str(rt.alloc(), path)?;
        }
        Ok(())
    }

    /// The folder of a name in the one above, if there is one.
    fn below(&self, rt: &R, name: &str) -> Result<Option<Folder<R>>, FolderFault> {
        match &self.above {
            Some(above) => above.within(rt, name),
            None => Ok(None),
        }
    }

    /// Goes to the folder at a path.
    fn go(&mut self, rt: &R, root: &Folder<R>, path: &str) -> Result<(), FolderFault> {
        if self.path.as_str() == path {
            return Ok(());
        }
        let (above, name) = cut(path);
        self.go_above(rt, root, above)?;
        self.folder = self.below(rt, name)?;
        self.path = String::from_str(rt.alloc(), path)?;
        Ok(())
    }

    /// The regular file of a name in the folder, if there is one.
    fn found(
        &self,
        rt: &R,
        name: &str,
        print: Print,
        word: Option<Word>,
    ) -> Result<Option<Found>, FolderFault> {
        match &self.folder {
            Some(folder) => found_in(rt, folder, name, print, word),
            None => Ok(None),
        }
    }
}

/// Looks at the path of a file of the pool, and notes in the manifest that the file is there, or else that it is coming. Answers the print
/// of what is there.
fn look_at<R: Disk>(
    rt: &R,
    root: &Folder<R>,
    near: &mut Near<R>,
    path: &str,
    print: Print,
    manifest: &mut Manifest,
) -> Result<Option<Print>, FolderFault> {
    let (folder, name) = cut(path);
    near.go(rt, root, folder)?;
    let known = manifest.word(path);
    let found = near.found(rt, name, print, known)?;
    let word = match &found {
        Some(found) if found.print == print => here(print, found.stamp),
        _ => Word::Coming,
    };
    if known != Some(word) {
        manifest.set(rt.alloc(), path, word)?;
    }
    match found {
        Some(found) => Ok(Some(found.print)),
        None => Ok(None),
    }
}

/// The prints of the files that are at the paths of the pool. Afterwards the manifest says which of them are there as they are to be, and
/// that the others are coming.
pub fn look<R: Disk>(
    rt: &R,
    root: &Folder<R>,
    shelves: &Shelves,
    manifest: &mut Manifest,
) -> Result<BTreeMap<String, Print>, FolderFault> {
    let mut there = BTreeMap::new(rt.alloc());
    let mut near = Near::new(rt);
    for (path, file) in shelves.files() {
        let found = look_at(rt, root, &mut near, path.as_str(), file.print, manifest)?;
        if let Some(print) = found {
            there.insert(String::from_str(rt.alloc(), path.as_str())?, print)?;
        }
    }
    Ok(there)
}
