//! The contents of the two files of a database.

use std::alloc::{AllocError, Global};

/// The bytes of a log and of a database file.
pub struct Image {
    pub log: Vec<u8>,
    pub database: Vec<u8>,
}

// This is written out, so that a caller does not prove again how each part is dropped.
impl Drop for Image {
    fn drop(self) {
        let Image {
            log: _,
            database: _,
        } = self;
    }
}

impl Image {
    /// Files with nothing in them.
    pub fn empty(alloc: Global) -> Image {
        Image {
            log: Vec::new(alloc),
            database: Vec::new(alloc),
        }
    }

    /// Files with these bytes.
    pub fn of(alloc: Global, log: &[u8], database: &[u8]) -> Result<Image, AllocError> {
        let mut image = Image::empty(alloc);
        image.log.extend_from_slice(log)?;
        image.database.extend_from_slice(database)?;
        Ok(image)
    }
}
