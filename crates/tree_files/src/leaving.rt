//! Suites that the configuration no longer has, as they leave the tree.

use crate::site::Site;
use crate::states::{SuiteState, linked};
use exported::{Manifest, is_name, is_state_of, new_name};
use folders::{Disk, FolderFault};
use std::alloc::{AllocError, Global};

/// Whether one of the suites has the codename.
fn has_suite(suites: &[SuiteState], codename: &str) -> bool {
    suites
        .iter()
        .any(|suite| suite.codename.as_str() == codename)
}

/// The codenames that the manifest knows and that none of the suites has.
fn unknown_names(
    alloc: Global,
    suites: &[SuiteState],
    manifest: &Manifest,
) -> Result<Vec<String>, AllocError> {
    let mut names = Vec::new(alloc);
    for (codename, _) in manifest.states() {
        if !has_suite(suites, codename.as_str()) {
            names.push(String::from_str(alloc, codename.as_str())?)?;
        }
    }
    Ok(names)
}

/// Removes the link of a suite, if it leads to a state of it.
fn remove_link<R: Disk>(rt: &R, site: &Site<R>, codename: &str) -> Result<(), FolderFault> {
    if linked(rt, site, codename)?.is_none() {
        return Ok(());
    }
    site.dists.remove(rt, &site.kept, codename)?;
    site.dists.sync(rt.alloc())
}

/// Removes the folders of the states of a suite.
fn remove_states<R: Disk>(rt: &R, site: &Site<R>, codename: &str) -> Result<(), FolderFault> {
    for name in &site.dists.names(rt)? {
        if is_state_of(codename, name.as_str()) {
            site.dists.remove_all(rt, &site.kept, name.as_str())?;
        }
    }
    let new = new_name(rt.alloc(), codename)?;
    site.dists.remove_all(rt, &site.kept, new.as_str())
}

/// Removes a suite from the tree, its link first. Answers whether nothing has its name any more.
fn has_left<R: Disk>(rt: &R, site: &Site<R>, codename: &str) -> Result<bool, FolderFault> {
    remove_link(rt, site, codename)?;
    remove_states(rt, site, codename)?;
    Ok(site.dists.seen(rt, codename)?.is_none())
}

/// Removes from the tree the suites that the manifest knows and the configuration no longer has. Answers their codenames, without those
/// that something in the tree still has as its name.
pub fn leave_suites<R: Disk>(
    rt: &R,
    site: &Site<R>,
    suites: &[SuiteState],
    manifest: &mut Manifest,
) -> Result<Vec<String>, FolderFault> {
    let mut gone = Vec::new(rt.alloc());
    for codename in unknown_names(rt.alloc(), suites, manifest)? {
        if is_name(codename.as_str()) && has_left(rt, site, codename.as_str())? {
            gone.push(String::from_str(rt.alloc(), codename.as_str())?)?;
        }
        manifest.forget_states(codename.as_str());
    }
    Ok(gone)
}
