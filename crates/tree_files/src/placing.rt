//! Files, links and folders, as they come to their places in a tree and leave them.

use crate::looking::{here, stamp_of};
use crate::paths::{MANIFEST, cut};
use crate::site::Site;
use crate::states::SuiteState;
use crate::writing::touch_release;
use exported::{Manifest, Word, folder_of, is_state_of, new_name};
use folders::{Disk, Folder, FolderFault};
use std::alloc::{AllocError, Global};
use std::rt::Files;
use suites::{PoolFile, Shelves};

/// Opens the folder that a file of the pool is to lie in. It and those on the way to it are made, if they are not there.
///
/// Refused as `Path` if what has the path of the file is the database's, or if the disk fails, and for want of memory.
pub fn open_place<R: Disk>(
    rt: &R,
    site: &Site<R>,
    file: &PoolFile,
) -> Result<Folder<R>, FolderFault> {
    let (way, name) = cut(file.path.as_str());
    let folder = site.root.way_made(rt, way)?;
    site.kept.spare(rt, &folder, name)?;
    Ok(folder)
}

/// Puts a file of the pool, which was written beside, at its path in the folder that it is to lie in.
pub fn end_place<R: Disk>(
    rt: &R,
    site: &Site<R>,
    folder: &Folder<R>,
    file: &PoolFile,
    new: R::File,
    is_synced: bool,
) -> Result<(), FolderFault> {
    let (_, name) = cut(file.path.as_str());
    site.end(rt, new, folder, name, is_synced)
}

/// Has the manifest vouch for a file of the pool, which was synced and lies in a folder.
pub fn vouch<R: Disk>(
    rt: &R,
    folder: &Folder<R>,
    file: &PoolFile,
    manifest: &mut Manifest,
) -> Result<(), FolderFault> {
    let (_, name) = cut(file.path.as_str());
    if let Some(seen) = folder.seen(rt, name)? {
        let word = here(file.print, stamp_of(&seen));
        manifest.set(rt.alloc(), file.path.as_str(), word)?;
    }
    Ok(())
}

/// Removes the folder at a path in the tree, if it is empty and no link is on the way to it. Answers whether that is done.
fn remove_empty<R: Disk>(rt: &R, site: &Site<R>, path: &str) -> Result<bool, FolderFault> {
    let (way, name) = cut(path);
    match site.root.way(rt, way)? {
        Some(above) => above.remove_empty(rt, name),
        None => Ok(false),
    }
}

/// Removes the folders above a path, except `pool`, as far as they are empty.
fn remove_empty_folders<R: Disk>(rt: &R, site: &Site<R>, path: &str) -> Result<(), FolderFault> {
    let mut folder = folder_of(path);
    for _ in 0..path.len() {
        if !folder.contains('/') || !remove_empty(rt, site, folder)? {
            break;
        }
        folder = folder_of(folder);
    }
    Ok(())
}

/// Removes the regular file at a path in the tree, if there is one and no link is on the way to it.
fn remove_file<R: Disk>(rt: &R, site: &Site<R>, path: &str) -> Result<(), FolderFault> {
    let (way, name) = cut(path);
    let Some(folder) = site.root.way(rt, way)? else {
        return Ok(());
    };
    if folder.is_file(rt, name)? {
        folder.remove(rt, &site.kept, name)?;
    }
    Ok(())
}

/// Removes a file of the pool that was left.
pub fn remove_left<R: Disk>(
    rt: &R,
    site: &Site<R>,
    path: &str,
    manifest: &mut Manifest,
) -> Result<(), FolderFault> {
    remove_file(rt, site, path)?;
    remove_empty_folders(rt, site, path)?;
    manifest.forget(path);
    Ok(())
}

/// Has a suite show its state, by the rename of one link.
pub fn show_state<R: Disk>(rt: &R, site: &Site<R>, suite: &SuiteState) -> Result<(), FolderFault> {
    site.dists.sync(rt.alloc())?;
    touch_release(rt, site, suite)?;
    site.put_link(
        rt,
        &site.dists,
        suite.codename.as_str(),
        suite.state.as_str(),
    )?;
    site.dists.sync(rt.alloc())
}

/// The paths that the manifest knows and that are not in the pool.
fn strangers(
    alloc: Global,
    shelves: &Shelves,
    manifest: &Manifest,
) -> Result<Vec<String>, AllocError> {
    let mut paths = Vec::new(alloc);
    for (path, _) in manifest.words() {
        if shelves.file(path.as_str()).is_none() {
            paths.push(String::from_str(alloc, path.as_str())?)?;
        }
    }
    Ok(paths)
}

/// Notes in the manifest what suites show.
fn tell_shown(
    alloc: Global,
    suites: &[SuiteState],
    manifest: &mut Manifest,
) -> Result<(), AllocError> {
    for suite in suites {
        if let Some(shown) = suite.shown() {
            manifest.set_shown(alloc, suite.codename.as_str(), shown, suite.shown_before())?;
        }
    }
    Ok(())
}

/// Notes in the manifest what is left and what is shown. Answers how many paths it has that are not in the pool. They are noted as left
/// only if each suite shows what it is to show: else an index may name them.
pub fn leave(
    alloc: Global,
    shelves: &Shelves,
    suites: &[SuiteState],
    manifest: &mut Manifest,
) -> Result<usize, AllocError> {
    let paths = strangers(alloc, shelves, manifest)?;
    if suites.iter().all(|suite| suite.is_shown()) {
        for path in &paths {
            manifest.set(alloc, path.as_str(), Word::Left)?;
        }
    }
    tell_shown(alloc, suites, manifest)?;
    Ok(paths.len())
}

/// Writes the manifest, if it is other than the one on the disk.
pub fn save<R: Disk>(rt: &R, site: &Site<R>, manifest: &mut Manifest) -> Result<(), FolderFault> {
    if !manifest.is_changed() {
        return Ok(());
    }
    let text = manifest.text(rt.alloc())?;
    site.put(rt, &site.own, MANIFEST, text.as_bytes(), true)?;
    site.own.sync(rt.alloc())?;
    manifest.set_written();
    Ok(())
}

/// Removes what an export that was stopped left half made. It only takes room, so a failure to remove it is passed over.
pub fn remove_cut<R: Disk>(
    rt: &R,
    site: &Site<R>,
    suites: &[SuiteState],
) -> Result<(), AllocError> {
    let _ = site.remove_cut(rt);
    for suite in suites {
        let name = new_name(rt.alloc(), suite.codename.as_str())?;
        let _ = site.dists.remove_all(rt, &site.kept, name.as_str());
    }
    Ok(())
}

/// Whether a folder in `dists` is that of a state that no suite needs any more.
fn is_old(suites: &[SuiteState], name: &str) -> bool {
    for suite in suites {
        if is_state_of(suite.codename.as_str(), name) {
            return !suite.keeps(name);
        }
    }
    false
}

/// Removes the folders of states other than those to be shown, those shown, and those shown before.
pub fn remove_old_states<R: Disk>(
    rt: &R,
    site: &Site<R>,
    suites: &[SuiteState],
) -> Result<(), FolderFault> {
    let (dists, kept) = (&site.dists, &site.kept);
    for name in &dists.names(rt)? {
        if is_old(suites, name.as_str()) {
            dists.remove_all(rt, kept, name.as_str())?;
        }
    }
    Ok(())
}

/// Puts a page at its name in the tree, unless a file with this text is there.
pub fn write_page<R: Disk>(
    rt: &R,
    site: &Site<R>,
    name: &str,
    text: &str,
) -> Result<(), FolderFault> {
    if site.root.has_bytes(rt, name, text.as_bytes())? {
        return Ok(());
    }
    site.put(rt, &site.root, name, text.as_bytes(), false)
}
