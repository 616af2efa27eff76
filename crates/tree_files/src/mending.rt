//! Files of a state that is made, as they are compared and put right.

use crate::site::Site;
use folders::{Disk, Folder, FolderFault};

/// Whether the file at a path in a folder has these bytes, and no link is on the way to it.
fn has_at<R: Disk>(
    rt: &R,
    folder: &Folder<R>,
    path: &str,
    body: &[u8],
) -> Result<bool, FolderFault> {
    let Some((way, name)) = path.rsplit_once('/') else {
        return folder.has_bytes(rt, path, body);
    };
    match folder.way(rt, way)? {
        Some(beside) => beside.has_bytes(rt, name, body),
        None => Ok(false),
    }
}

/// Puts a file at a name in a folder of a state, in the place of whatever has the name.
fn put_over<R: Disk>(
    rt: &R,
    site: &Site<R>,
    folder: &Folder<R>,
    name: &str,
    body: &[u8],
) -> Result<(), FolderFault> {
    match folder.seen(rt, name)? {
        Some(seen) if seen.is_dir() => folder.remove_all(rt, &site.kept, name)?,
        _ => {}
    }
    site.put(rt, folder, name, body, true)?;
    folder.sync(rt.alloc())
}

/// Puts a file at a path in the folder of a state. What is on the way and is not a folder is removed.
fn put_at<R: Disk>(
    rt: &R,
    site: &Site<R>,
    state: &Folder<R>,
    path: &str,
    body: &[u8],
) -> Result<(), FolderFault> {
    let Some((way, name)) = path.rsplit_once('/') else {
        return put_over(rt, site, state, path, body);
    };
    let folder = state.way_cleared(rt, &site.kept, way)?;
    put_over(rt, site, &folder, name, body)
}

/// Mends a file of a state, if it does not have these bytes. Answers how many it mended: 1 or 0.
pub fn mend_file<R: Disk>(
    rt: &R,
    site: &Site<R>,
    state: &Folder<R>,
    path: &str,
    body: &[u8],
) -> Result<usize, FolderFault> {
    if has_at(rt, state, path, body)? {
        return Ok(0);
    }
    put_at(rt, site, state, path, body)?;
    Ok(1)
}
