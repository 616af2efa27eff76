//! What the other verdicts are about: an architecture of the .changes, or a file that it or its .dsc lists.

ghost use Rattle.std.specs.Prelude.{◌≡◌, not, bytes_eq, IfOk, option_copied};
ghost use Rattle.rules.specs.Judgement.{component};
ghost use Rattle.rules.specs.Suites.{component_of};
ghost use Rattle.suites.specs.Verdict.{path_of};
ghost use Rattle.reasons.specs.Named.{foreign_architecture, is_unlisted, listed_part, missing_file, other_component, taken_entry, unlisted_file};

use para::Text;
use records::{Changes, Dsc};
use rules::{Suite, component_of_section};
use std::alloc::{AllocError, Global};
use suites::{Shelves, is_missing, is_package_part, is_taken, lists};
use sums::Entry;

/// Verdict 2: the first architecture of a .changes that the suite does not keep.
pub fn foreign_architecture<'a>(suite: &Suite, changes: &'a Changes) -> Option<&'a Text>
    ensures { option_copied result ≡ foreign_architecture changes.now suite.now }
{
    changes
        .architectures()
        .iter()
        .find(|name| !suite.keeps_architecture(name.as_str()))
}

/// The component of an upload: that of its first entry.
#[tactic(auto, unfolding(rules::specs::Judgement::component))]
pub fn component(changes: &Changes) -> &str
    ensures { result.now ≡ component changes.now }
{
    match changes.entries().first() {
        Some(entry) => component_of_section(entry.section.as_str()),
        None => "",
    }
}

/// Verdict 4: the first listed file of a component other than the upload's. If there is no such file, the suite does not have
/// the upload's component.
pub fn other_component(changes: &Changes) -> Option<&Entry>
    ensures { option_copied result ≡ other_component changes.now }
{
    let upload = component(changes);
    changes.entries().iter().find(|entry| component_of_section(entry.section.as_str()) != upload)
}

/// Verdict 6: the first file that a .dsc lists and may not list: a .dsc, a package file, a sidecar or a .changes.
pub fn listed_part(dsc: &Dsc) -> Option<&Entry>
    ensures { option_copied result ≡ listed_part dsc.now }
{
    dsc.entries()
        .iter()
        .find(|entry| is_package_part(entry.name.as_str()))
}

/// Whether a file is a source file, and the .dsc lists no file of its name and print.
#[tactic(auto, unfolding(crate::specs::Named::is_unlisted))]
fn is_unlisted(dsc: &Dsc, entry: &Entry) -> bool
    ensures { result ≡ is_unlisted dsc.now entry.now }
{
    let is_package_part = is_package_part(entry.name.as_str());
    let is_listed = lists(dsc.entries(), entry);
    !is_package_part && !is_listed
}

/// Verdict 6: the first source file of a .changes that the .dsc does not list with that print.
pub fn unlisted_file<'a>(changes: &'a Changes, dsc: &Dsc) -> Option<&'a Entry>
    ensures { option_copied result ≡ unlisted_file changes.now dsc.now }
{
    changes
        .entries()
        .iter()
        .find(|entry| is_unlisted(dsc, entry))
}

/// The path of an entry's file in the pool.
pub fn pool_path(alloc: Global, changes: &Changes, entry: &Entry) -> Result<Text, AllocError>
    ensures { IfOk result (λ path. path ≡ path_of changes.now entry.now) }
{
    let (component, name) = (component(changes), entry.name.as_str());
    let path = suites::pool_path(alloc, component, changes.source(), name)?;
    Ok(Text::from_string(path))
}

/// Verdict 8: the first file of the .dsc that is neither in the .changes nor in the pool, at its path with that print.
pub fn missing_file<'a>(
    alloc: Global,
    shelves: &Shelves,
    changes: &Changes,
    dsc: &'a Dsc,
) -> Result<Option<&'a Entry>, AllocError>
    ensures { IfOk result (λ found. option_copied found ≡ missing_file shelves.now changes.now dsc.now) }
{
    let component = component(changes);
    for entry in dsc.entries() {
        if is_missing(alloc, component, shelves, changes, entry)? {
            return Ok(Some(entry));
        }
    }
    Ok(None)
}

/// Verdict 9: the first listed file whose path in the pool has other contents.
pub fn taken_entry<'a>(
    alloc: Global,
    shelves: &Shelves,
    changes: &'a Changes,
) -> Result<Option<&'a Entry>, AllocError>
    ensures { IfOk result (λ found. option_copied found ≡ taken_entry shelves.now changes.now) }
{
    let component = component(changes);
    for entry in changes.entries() {
        if is_taken(alloc, component, shelves, changes, entry)? {
            return Ok(Some(entry));
        }
    }
    Ok(None)
}
