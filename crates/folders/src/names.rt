//! Paths and names.

use std::alloc::{AllocError, Global};

/// The path of a file or a folder in a folder. The root of the file system is the empty path here.
pub fn inside(alloc: Global, folder: &str, path: &str) -> Result<String, AllocError> {
    format!(in alloc; "{folder}/{path}")
}
