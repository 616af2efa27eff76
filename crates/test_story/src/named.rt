//! The files that an index names.

use std::alloc::{AllocError, Global};

/// A reader of the lines of an index.
#[derive(Drop)]
struct Names {
    alloc: Global,
    /// The folder of the files that are listed.
    folder: String,
    /// Whether the lines are those of files.
    lists_files: bool,
    paths: Vec<Vec<u8>>,
}

impl Names {
    /// Takes the path of a file of the folder that is read.
    fn take_name(&mut self, name: &str) -> Result<(), AllocError> {
        let folder = self.folder.as_str();
        let path = format!(in self.alloc; "{folder}/{name}")?;
        self.paths.push(path.into_bytes())?;
        Ok(())
    }

    /// Takes a line by the parts before and after its last space.
    fn take(&mut self, front: &str, word: &str) -> Result<(), AllocError> {
        if front == "Codename:" {
            self.folder = format!(in self.alloc; "dists/{word}")?;
        }
        if front == "Directory:" {
            self.folder = String::from_str(self.alloc, word)?;
        }
        if front == "Filename:" {
            self.paths
                .push(Vec::from_slice(self.alloc, word.as_bytes())?)?;
        }
        if self.lists_files {
            return self.take_name(word);
        }
        Ok(())
    }

    /// Takes a line.
    fn take_line(&mut self, line: &str) -> Result<(), AllocError> {
        if !line.starts_with(" ") {
            self.lists_files = line == "Files:" || line == "MD5Sum:";
        }
        match line.rsplit_once(' ') {
            Some((front, word)) => self.take(front, word),
            None => Ok(()),
        }
    }
}

/// The paths that an index names: a Release file names the other indices of its suite, and each of these names files
/// of the pool.
pub fn paths_in(alloc: Global, index: &str) -> Result<Vec<Vec<u8>>, AllocError> {
    let mut names = Names {
        alloc,
        folder: String::new(alloc),
        lists_files: false,
        paths: Vec::new(alloc),
    };
    for line in index.split('\n') {
        names.take_line(line)?;
    }
    Ok(names.paths)
}
