//! What suites show that another configuration would hide.

use rules::{Config, Suite, position_of_named};
use std::alloc::{AllocError, Global};
use suites::{Item, ShelfKey, Shelves};

/// `suite CODENAME shows PACKAGE..`, if no suite of the codename is there, or that suite does not keep the component or the architecture of
/// an item.
fn item_line(
    alloc: Global,
    codename: &str,
    suites: &[Suite],
    item: &Item,
) -> Result<Option<String>, AllocError> {
    let (package, component) = (item.package.as_str(), item.component.as_str());
    let architecture = item.architecture.as_str();
    let Some(place) = position_of_named(suites, codename) else {
        return Ok(Some(format!(in alloc;
            "suite {codename} shows {package}, and the new configuration has no suite {codename}"
        )?));
    };
    let Some(suite) = suites.get(place) else {
        return Ok(None);
    };
    if !suite.keeps_component(component) {
        return Ok(Some(format!(in alloc;
            "suite {codename} shows {package} in {component}, a component that the new configuration does not keep there"
        )?));
    }
    if !suite.keeps_architecture(architecture) {
        return Ok(Some(format!(in alloc;
            "suite {codename} shows {package} for {architecture}, an architecture that the new configuration does not keep there"
        )?));
    }
    Ok(None)
}

/// What the new suites would hide of an item that one of the old ones shows.
fn shown_line(
    alloc: Global,
    old: &[Suite],
    new: &[Suite],
    key: &ShelfKey,
    item: &Item,
) -> Result<Option<String>, AllocError> {
    match old.get(key.suite) {
        Some(suite) => item_line(alloc, suite.codename.as_str(), new, item),
        None => Ok(None),
    }
}

/// What is shown under a configuration and would be hidden by another: a line without its end on the first such item, in the order of the
/// shelves, with its suite, its package, and the component or architecture that is not kept. There is none if all is kept.
pub fn hidden_line(
    alloc: Global,
    shelves: &Shelves,
    old: &Config,
    new: &Config,
) -> Result<Option<String>, AllocError> {
    for (key, item) in shelves.items() {
        if let Some(line) = shown_line(alloc, old.suites(), new.suites(), key, item)? {
            return Ok(Some(line));
        }
    }
    Ok(None)
}
