//! Names of what lies in a tree.

/// The name of the manifest among the files of exports.
pub const MANIFEST: &str = "files";

/// The path of the folder that a path lies in, and the name in that folder. The folder of a path without a slash is the tree itself.
pub fn cut(path: &str) -> (&str, &str) {
    match path.rsplit_once('/') {
        Some((folder, name)) => (folder, name),
        None => ("", path),
    }
}
