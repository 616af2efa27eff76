//! The folder of a state, as it is written, and the moment of its Release.

use crate::site::Site;
use crate::states::SuiteState;
use folders::{Disk, Folder, FolderFault, Kept};
use std::time::{Duration, SystemTime};

/// The page of a state.
pub const PAGE: &str = "index.html";

/// The text of a state that lists the others.
const RELEASE: &str = "Release";

/// Writes a new file with a name in a folder, and has both on the disk.
fn write_named<R: Disk>(
    rt: &R,
    kept: &Kept,
    folder: &Folder<R>,
    name: &str,
    body: &[u8],
) -> Result<(), FolderFault> {
    folder.write_new(rt, kept, name, body, true)?;
    folder.sync(rt.alloc())
}

/// Writes a file at a path in a folder, with the folders on the way to it.
pub fn write_in<R: Disk>(
    rt: &R,
    kept: &Kept,
    folder: &Folder<R>,
    path: &str,
    body: &[u8],
) -> Result<(), FolderFault> {
    match path.rsplit_once('/') {
        Some((way, name)) => {
            let beside = folder.way_made(rt, way)?;
            write_named(rt, kept, &beside, name, body)
        }
        None => write_named(rt, kept, folder, path, body),
    }
}

/// Gives a folder of the suites the name of a state, in the place of what has it.
pub fn move_state<R: Disk>(
    rt: &R,
    site: &Site<R>,
    new: &str,
    state: &str,
) -> Result<(), FolderFault> {
    site.dists.remove_all(rt, &site.kept, state)?;
    site.dists.move_to(rt, &site.kept, new, &site.dists, state)
}

/// The time of modification that a file is to have if it follows one that was modified at `before`: now, or one second after `before` if
/// that is later. Web servers count in whole seconds.
fn moment_after<R: Disk>(rt: &R, before: Option<SystemTime>) -> Option<SystemTime> {
    let now = SystemTime::now(rt).ok();
    let Some(before) = before else {
        return now;
    };
    let Some(later) = before.checked_add(Duration::from_secs(1)) else {
        return now;
    };
    match now {
        Some(now) if now > later => Some(now),
        _ => Some(later),
    }
}

/// When the Release of a state was modified, if that is known.
fn released_at<R: Disk>(
    rt: &R,
    site: &Site<R>,
    state: &str,
) -> Result<Option<SystemTime>, FolderFault> {
    match site.dists.within(rt, state)? {
        Some(folder) => folder.modified(rt, RELEASE),
        None => Ok(None),
    }
}

/// When the Release that a suite shows was modified, if it is another one than the suite is to show, and if that is known.
fn shown_at<R: Disk>(
    rt: &R,
    site: &Site<R>,
    suite: &SuiteState,
) -> Result<Option<SystemTime>, FolderFault> {
    match suite.link() {
        Some(link) if !suite.is_linked() => released_at(rt, site, link),
        _ => Ok(None),
    }
}

/// Sets the time of modification of the Release of a suite's state: later than that of the state which is shown.
pub fn touch_release<R: Disk>(
    rt: &R,
    site: &Site<R>,
    suite: &SuiteState,
) -> Result<(), FolderFault> {
    let before = shown_at(rt, site, suite)?;
    match (
        site.dists.within(rt, suite.state.as_str())?,
        moment_after(rt, before),
    ) {
        (Some(folder), Some(moment)) => folder.touch(rt, RELEASE, moment),
        _ => Ok(()),
    }
}
