//! The states that suites show, and that they are to show.

use crate::site::Site;
use exported::{Manifest, ShownStates, is_state_of};
use folders::{Disk, FolderFault};
use rules::{Config, Suite};
use std::alloc::{AllocError, Global};
use texts::{index_path, places_of};

/// What an export does of a suite.
#[derive(Clone, Copy, Debug, PartialEq, Eq)]
pub enum Standing {
    /// It shows its state.
    Same,
    /// It is to show its state now.
    Shows,
    /// Its state is made, and has to be signed before it is shown.
    Waits,
}

/// A suite, and the state that it is to show.
#[derive(Drop)]
pub struct SuiteState {
    /// The position of the suite in the configuration.
    pub position: usize,
    pub codename: String,
    /// The paths of its texts from its folder, Release last.
    pub paths: Vec<String>,
    /// The name of the state's folder.
    pub state: String,
    /// The name of the state that the link leads to, if it leads to one.
    pub link: Option<String>,
    /// The name of the state that was shown before that one, if it is known.
    pub before: Option<String>,
    /// Whether the link led elsewhere when the manifest was written.
    pub is_changed: bool,
    /// Whether the state's folder is there.
    pub is_made: bool,
    /// How many of the state's files were mended.
    pub mended: usize,
    pub standing: Standing,
}

/// A copy of a text, if there is one.
fn copied(alloc: Global, text: Option<&str>) -> Result<Option<String>, AllocError> {
    match text {
        Some(text) => Ok(Some(String::from_str(alloc, text)?)),
        None => Ok(None),
    }
}

/// The text that may be there.
fn text_in(text: &Option<String>) -> Option<&str> {
    match text {
        Some(text) => Some(text.as_str()),
        None => None,
    }
}

impl SuiteState {
    /// The state that is shown before the export.
    pub fn link(&self) -> Option<&str> {
        text_in(&self.link)
    }

    /// The state that was shown before that one.
    pub fn before(&self) -> Option<&str> {
        text_in(&self.before)
    }

    /// The state that is shown after the export.
    pub fn shown(&self) -> Option<&str> {
        match self.standing {
            Standing::Shows => Some(self.state.as_str()),
            _ => text_in(&self.link),
        }
    }

    /// The state that was shown before the one that is shown after the export.
    pub fn shown_before(&self) -> Option<&str> {
        if self.standing == Standing::Shows && !self.is_linked() {
            if let Some(link) = &self.link {
                return Some(link.as_str());
            }
        }
        text_in(&self.before)
    }

    /// Whether the link leads to the state.
    pub fn is_linked(&self) -> bool {
        match &self.link {
            Some(link) => link.as_str() == self.state.as_str(),
            None => false,
        }
    }

    /// Whether the suite shows its state after the export.
    pub fn is_shown(&self) -> bool {
        match self.standing {
            Standing::Shows => true,
            _ => self.is_linked() && self.is_made,
        }
    }

    /// Whether a folder of a state of the suite stays after the export: it is the one that is to be shown, the one that is shown, or the
    /// one before that.
    pub fn keeps(&self, name: &str) -> bool {
        if name == self.state.as_str() || self.shown() == Some(name) {
            return true;
        }
        self.shown_before() == Some(name)
    }
}

/// The paths of a suite's texts from its folder, Release last.
fn text_paths(alloc: Global, suite: &Suite) -> Result<Vec<String>, AllocError> {
    let mut paths = Vec::new(alloc);
    let places = places_of(
        alloc,
        suite.components.as_slice(),
        suite.architectures.as_slice(),
    )?;
    for place in places.as_slice() {
        paths.push(index_path(alloc, place.component.as_str(), place.architecture.as_str())?)?;
    }
    paths.push(String::from_str(alloc, "Release")?)?;
    Ok(paths)
}

/// A suite of which no more is known than its configuration.
fn unknown(alloc: Global, position: usize, suite: &Suite) -> Result<SuiteState, AllocError> {
    Ok(SuiteState {
        position,
        codename: String::from_str(alloc, suite.codename.as_str())?,
        paths: text_paths(alloc, suite)?,
        state: String::new(alloc),
        link: None,
        before: None,
        is_changed: false,
        is_made: false,
        mended: 0,
        standing: Standing::Same,
    })
}

/// The suites of a configuration, of which no more is known.
pub fn unknown_suites(alloc: Global, config: &Config) -> Result<Vec<SuiteState>, AllocError> {
    let mut suites = Vec::new(alloc);
    for (position, suite) in config.suites().iter().enumerate() {
        suites.push(unknown(alloc, position, suite)?)?;
    }
    Ok(suites)
}

/// The state that the link of a suite leads to, if it leads to one.
pub fn linked<R: Disk>(
    rt: &R,
    site: &Site<R>,
    codename: &str,
) -> Result<Option<String>, FolderFault> {
    match site.dists.link_of(rt, codename)? {
        Some(name) if is_state_of(codename, name.as_str()) => Ok(Some(name)),
        _ => Ok(None),
    }
}

/// Whether a regular file is in the folder of a state.
pub fn has_file<R: Disk>(
    rt: &R,
    site: &Site<R>,
    state: &str,
    name: &str,
) -> Result<bool, FolderFault> {
    match site.dists.within(rt, state)? {
        Some(folder) => folder.is_file(rt, name),
        None => Ok(false),
    }
}

/// Whether a state has a signature.
pub fn is_signed<R: Disk>(rt: &R, site: &Site<R>, state: &str) -> Result<bool, FolderFault> {
    Ok(has_file(rt, site, state, "InRelease")? || has_file(rt, site, state, "Release.gpg")?)
}

/// What an export does of a suite.
fn standing_of(is_shown: bool, may_be_shown: bool) -> Standing {
    if !may_be_shown {
        Standing::Waits
    } else if is_shown {
        Standing::Same
    } else {
        Standing::Shows
    }
}

/// A name, if it is that of a state of the suite. The manifest of a tree may say anything.
fn state_of<'a>(codename: &str, name: Option<&'a str>) -> Option<&'a str> {
    match name {
        Some(name) if is_state_of(codename, name) => Some(name),
        _ => None,
    }
}

/// The state that a suite showed before the one that its link leads to, by what the manifest says of it.
fn state_before<'a>(codename: &str, link: Option<&str>, known: &'a ShownStates) -> Option<&'a str> {
    if link == Some(known.state.as_str()) {
        state_of(codename, known.before())
    } else {
        state_of(codename, Some(known.state.as_str()))
    }
}

/// Finds what a suite showed.
fn find_before(
    alloc: Global,
    manifest: &Manifest,
    suite: &mut SuiteState,
) -> Result<(), AllocError> {
    let codename = suite.codename.as_str();
    if let Some(known) = manifest.shown(codename) {
        let link = text_in(&suite.link);
        let is_changed = link != Some(known.state.as_str());
        let before = copied(alloc, state_before(codename, link, known))?;
        suite.is_changed = is_changed;
        suite.before = before;
    }
    Ok(())
}

/// Finds what a suite shows, and says what an export does of it.
fn find_shown<R: Disk>(
    rt: &R,
    site: &Site<R>,
    is_waiting: bool,
    manifest: &Manifest,
    suite: &mut SuiteState,
) -> Result<(), FolderFault> {
    suite.link = linked(rt, site, suite.codename.as_str())?;
    find_before(rt.alloc(), manifest, suite)?;
    let state = suite.state.as_str();
    let is_made = site.dists.within(rt, state)?.is_some();
    let may_be_shown = !is_waiting || has_file(rt, site, state, "InRelease")?;
    suite.is_made = is_made;
    suite.standing = standing_of(suite.is_made && suite.is_linked(), may_be_shown);
    Ok(())
}

/// Finds what each suite shows, and says what an export does of it. A state waits for its InRelease if `is_waiting`.
pub fn find_all_shown<R: Disk>(
    rt: &R,
    site: &Site<R>,
    is_waiting: bool,
    manifest: &Manifest,
    suites: &mut [SuiteState],
) -> Result<(), FolderFault> {
    for suite in suites {
        find_shown(rt, site, is_waiting, manifest, suite)?;
    }
    Ok(())
}

/// Whether a suite shows a signed state.
pub fn shows_signed<R: Disk>(
    rt: &R,
    site: &Site<R>,
    suite: &SuiteState,
) -> Result<bool, FolderFault> {
    match suite.link() {
        Some(link) => is_signed(rt, site, link),
        None => Ok(false),
    }
}

/// Whether an export has a suite show a state without a signature, and the state that it showed before has one.
pub fn has_lost_signature<R: Disk>(
    rt: &R,
    site: &Site<R>,
    suite: &SuiteState,
) -> Result<bool, FolderFault> {
    let Some(link) = suite.link() else {
        return Ok(false);
    };
    if suite.standing != Standing::Shows || has_file(rt, site, suite.state.as_str(), "InRelease")? {
        return Ok(false);
    }
    is_signed(rt, site, link)
}

/// Whether a component has the name of a file that is in the folder of a state beside the components.
fn is_taken(component: &str) -> bool {
    matches!(
        component,
        "Release" | "Release.gpg" | "InRelease" | "index.html"
    )
}

/// The first component that has the name of a file, if there is one.
pub fn taken_component(config: &Config) -> Option<&str> {
    for suite in config.suites() {
        for component in suite.components.as_slice() {
            if is_taken(component.as_str()) {
                return Some(component.as_str());
            }
        }
    }
    None
}
