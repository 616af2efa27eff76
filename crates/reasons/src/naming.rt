//! What the verdicts 1 to 5 and 9 are about. It follows from the .changes, with the configuration or the pool.

ghost use Rattle.std.specs.Prelude.{◌≡◌, Some, IfOk, option_copied, option_map, option_and_then};
ghost use Rattle.rules.specs.Judgement.{suite_of};
ghost use Rattle.reasons.specs.Named.{first_some, taken_entry};
ghost use Rattle.reasons.specs.Reasons.{in_pool, lone_parts, named_architecture, named_component, named_distribution, named_listing, named_uploader, of_other_component};

use crate::about::Named;
use crate::found::{component, foreign_architecture, other_component, pool_path, taken_entry};
use crate::listing::{
    lacks_dsc, listed_changes, lone_package, lone_sidecar, source_file, surplus_dsc,
};
use para::Text;
use records::Changes;
use rules::{Config, Suite, component_of_section};
use std::alloc::{AllocError, Global};
use suites::{Shelves, has_source};
use sums::Entry;

/// The suite that claims the distribution of a .changes.
#[tactic(auto, unfolding(rules::specs::Judgement::suite_of))]
pub fn suite_of<'a>(config: &'a Config, changes: &Changes) -> Option<&'a Suite>
    ensures { option_copied result ≡ suite_of config.now changes.now }
{
    let position = config.suite_for(changes.distribution())?;
    config.suites().get(position)
}

/// Verdict 1: the distribution.
pub fn distribution(alloc: Global, changes: &Changes) -> Result<Option<Named>, AllocError>
    ensures { IfOk result (λ found. found ≡ Some (named_distribution changes.now)) }
{
    let name = Text::new(alloc, changes.distribution())?;
    Ok(Some(Named::Distribution { name }))
}

/// Verdict 2: the first architecture that the suite does not keep.
pub fn architecture(config: &Config, changes: &Changes) -> Result<Option<Named>, AllocError>
    ensures { IfOk result (λ found. found ≡ option_and_then (named_architecture changes.now) (suite_of config.now changes.now)) }
{
    let Some(suite) = suite_of(config, changes) else {
        return Ok(None);
    };
    match foreign_architecture(suite, changes) {
        Some(name) => Ok(Some(Named::Architecture {
            name: name.try_clone()?,
        })),
        None => Ok(None),
    }
}

/// Verdict 3: the source package and the person.
pub fn uploader(alloc: Global, changes: &Changes) -> Result<Option<Named>, AllocError>
    ensures { IfOk result (λ found. found ≡ Some (named_uploader changes.now)) }
{
    let source = Text::new(alloc, changes.source())?;
    let person = Text::new(alloc, changes.person())?;
    Ok(Some(Named::Uploader { source, person }))
}

/// The finding that a file is of a component other than the upload's.
fn of_other_component(alloc: Global, upload: &str, entry: &Entry) -> Result<Named, AllocError>
    ensures { IfOk result (λ named. named ≡ of_other_component upload.now entry.now) }
{
    let file = entry.name.try_clone()?;
    let component = Text::new(alloc, component_of_section(entry.section.as_str()))?;
    let upload = Text::new(alloc, upload)?;
    Ok(Named::OtherComponent {
        file,
        component,
        upload,
    })
}

/// The first file of a component other than the upload's, else the upload's component, if the suite does not have it.
fn component_for(
    alloc: Global,
    suite: &Suite,
    changes: &Changes,
) -> Result<Option<Named>, AllocError>
    ensures { IfOk result (λ found. found ≡ named_component changes.now suite.now) }
{
    let upload = component(changes);
    if let Some(entry) = other_component(changes) {
        return Ok(Some(of_other_component(alloc, upload, entry)?));
    }
    if suite.keeps_component(upload) {
        return Ok(None);
    }
    let name = Text::new(alloc, upload)?;
    Ok(Some(Named::Component { name }))
}

/// Verdict 4: a file or a component.
pub fn foreign_component(
    alloc: Global,
    config: &Config,
    changes: &Changes,
) -> Result<Option<Named>, AllocError>
    ensures { IfOk result (λ found. found ≡ option_and_then (named_component changes.now) (suite_of config.now changes.now)) }
{
    match suite_of(config, changes) {
        Some(suite) => component_for(alloc, suite, changes),
        None => Ok(None),
    }
}

/// The first package file or sidecar that is alone, else the first source file without `source`.
fn lone(changes: &Changes) -> Result<Option<Named>, AllocError>
    ensures { IfOk result (λ found. found ≡ first_some (lone_parts changes.now)) }
{
    if let Some(entry) = lone_package(changes) {
        return Ok(Some(Named::LonePackage {
            file: entry.name.try_clone()?,
        }));
    }
    if let Some(entry) = lone_sidecar(changes) {
        return Ok(Some(Named::LoneSidecar {
            file: entry.name.try_clone()?,
        }));
    }
    match source_file(changes) {
        Some(entry) => Ok(Some(Named::SourceFile {
            file: entry.name.try_clone()?,
        })),
        None => Ok(None),
    }
}

/// Verdict 5: a listed file, or that there is no .dsc.
pub fn listing(changes: &Changes) -> Result<Option<Named>, AllocError>
    ensures { IfOk result (λ found. found ≡ named_listing changes.now) }
{
    if let Some(entry) = listed_changes(changes) {
        return Ok(Some(Named::ListedChanges {
            file: entry.name.try_clone()?,
        }));
    }
    if let Some(entry) = surplus_dsc(changes) {
        return Ok(Some(Named::SurplusDsc {
            file: entry.name.try_clone()?,
            is_second: has_source(changes),
        }));
    }
    if lacks_dsc(changes) {
        return Ok(Some(Named::NoDsc));
    }
    lone(changes)
}

/// A file, its path in the pool, and what is there.
pub fn in_pool(
    alloc: Global,
    shelves: &Shelves,
    changes: &Changes,
    entry: &Entry,
) -> Result<Named, AllocError>
    ensures { IfOk result (λ named. named ≡ in_pool shelves.now changes.now entry.now) }
{
    let name = entry.name.try_clone()?;
    let path = pool_path(alloc, changes, entry)?;
    let there = shelves.file(path.as_str());
    Ok(Named::File {
        name,
        print: entry.print,
        path,
        there,
    })
}

/// Verdict 9: the first file whose path in the pool has other contents.
pub fn other_contents(
    alloc: Global,
    shelves: &Shelves,
    changes: &Changes,
) -> Result<Option<Named>, AllocError>
    ensures { IfOk result (λ found. found ≡ option_map (in_pool shelves.now changes.now) (taken_entry shelves.now changes.now)) }
{
    match taken_entry(alloc, shelves, changes)? {
        Some(entry) => Ok(Some(in_pool(alloc, shelves, changes, entry)?)),
        None => Ok(None),
    }
}
