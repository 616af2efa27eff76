//! How a .dsc or a sidecar differs from what its .changes says, which verdicts 6 and 7 are about.

ghost use Rattle.std.specs.Prelude.{◌≡◌, not, [], ◌∷◌, bytes_eq, IfOk, option_map};
ghost use Rattle.std.specs.Bool.{then_some};
ghost use Rattle.suites.specs.Upload.{entry_named};
ghost use Rattle.suites.specs.Verdict.{dsc_file, sidecar_file};
ghost use Rattle.reasons.specs.Differences.{dsc_difference, lacked, lists_part, sidecar_difference};
ghost use Rattle.reasons.specs.Named.{first_some, listed_part, unlisted_file};

use crate::found::{listed_part, unlisted_file};
use para::Text;
use records::{Changes, Dsc, Sidecar};
use std::alloc::{AllocError, Global};
use suites::{dsc_name, entry_named, has_architecture, sidecar_name};
use sums::{Entry, Print};

/// How a .dsc is not the one that its .changes is about.
#[derive(Drop)]
pub enum DscDifference {
    /// It names another source.
    Source {
        said: Text,
    },
    /// It has another version.
    Version {
        said: Text,
    },
    /// By its own fields it has another name, `SOURCE_VERSION.dsc` with the version without its epoch.
    Name {
        own: Text,
    },
    /// It lists a file that no .dsc may list.
    ListsPart {
        file: Text,
    },
    /// It does not list a source file of the .changes with its print. If it lists a file of that name, `listed` is its print.
    LacksFile {
        file: Text,
        print: Print,
        listed: Option<Print>,
    },
}

/// Why a sidecar is not one that its .changes may have.
#[derive(Drop)]
pub enum SidecarDifference {
    /// By its own fields it has another name, `PACKAGE_VERSION_ARCHITECTURE.control` with the version without its epoch.
    Name { own: Text },
    /// Its architecture is not among those of the .changes.
    Architecture { said: Text },
    /// It names another source.
    Source { said: Text },
}

/// The name that a .dsc has by its own fields, if it differs from this name.
fn other_dsc_name(alloc: Global, name: &str, dsc: &Dsc) -> Result<Option<Text>, AllocError>
    ensures { IfOk result (λ own. own ≡ then_some (not (bytes_eq name.now (dsc_file dsc.now))) (dsc_file dsc.now)) }
{
    let own = dsc_name(alloc, dsc)?;
    if name == own.as_str() {
        return Ok(None);
    }
    Ok(Some(Text::from_string(own)))
}

/// The print of the entry of a name.
fn print_named(entries: &[Entry], name: &str) -> Option<Print>
    ensures { result ≡ option_map (λ entry. entry.print) (entry_named name.now entries.now) }
{
    match entry_named(entries, name) {
        Some(entry) => Some(entry.print),
        None => None,
    }
}

/// The difference that a .dsc does not list a file with its print.
fn lacked(dsc: &Dsc, entry: &Entry) -> Result<DscDifference, AllocError>
    ensures { IfOk result (λ difference. difference ≡ lacked dsc.now entry.now) }
{
    Ok(DscDifference::LacksFile {
        file: entry.name.try_clone()?,
        print: entry.print,
        listed: print_named(dsc.entries(), entry.name.as_str()),
    })
}

/// The first file that a .dsc lists and may not list, else the first source file that it does not list.
fn other_file(changes: &Changes, dsc: &Dsc) -> Result<Option<DscDifference>, AllocError>
    ensures { IfOk result (λ found. found ≡ first_some (option_map lists_part (listed_part dsc.now)
        ∷ option_map (lacked dsc.now) (unlisted_file changes.now dsc.now) ∷ [])) }
{
    if let Some(entry) = listed_part(dsc) {
        return Ok(Some(DscDifference::ListsPart {
            file: entry.name.try_clone()?,
        }));
    }
    match unlisted_file(changes, dsc) {
        Some(entry) => Ok(Some(lacked(dsc, entry)?)),
        None => Ok(None),
    }
}

/// The first difference of a .dsc of this name from its .changes.
pub fn dsc_difference(
    alloc: Global,
    changes: &Changes,
    name: &str,
    dsc: &Dsc,
) -> Result<Option<DscDifference>, AllocError>
    ensures { IfOk result (λ found. found ≡ dsc_difference changes.now name.now dsc.now) }
{
    if dsc.source() != changes.source() {
        return Ok(Some(DscDifference::Source {
            said: Text::new(alloc, dsc.source())?,
        }));
    }
    if dsc.version().text() != changes.version().text() {
        return Ok(Some(DscDifference::Version {
            said: Text::new(alloc, dsc.version().text())?,
        }));
    }
    if let Some(own) = other_dsc_name(alloc, name, dsc)? {
        return Ok(Some(DscDifference::Name { own }));
    }
    other_file(changes, dsc)
}

/// The name that a sidecar has by its own fields, as a text that is kept.
pub fn own_name(alloc: Global, sidecar: &Sidecar) -> Result<Text, AllocError>
    ensures { IfOk result (λ own. own ≡ sidecar_file sidecar.now) }
{
    Ok(Text::from_string(sidecar_name(alloc, sidecar)?))
}

/// The name that a sidecar has by its own fields, if it differs from this name.
fn other_sidecar_name(
    alloc: Global,
    name: &str,
    sidecar: &Sidecar,
) -> Result<Option<Text>, AllocError>
    ensures { IfOk result (λ own. own ≡ then_some (not (bytes_eq name.now (sidecar_file sidecar.now))) (sidecar_file sidecar.now)) }
{
    let own = own_name(alloc, sidecar)?;
    if name == own.as_str() {
        return Ok(None);
    }
    Ok(Some(own))
}

/// The first difference of a sidecar of this name from those that its .changes may have.
pub fn sidecar_difference(
    alloc: Global,
    changes: &Changes,
    name: &str,
    sidecar: &Sidecar,
) -> Result<Option<SidecarDifference>, AllocError>
    ensures { IfOk result (λ found. found ≡ sidecar_difference changes.now name.now sidecar.now) }
{
    if let Some(own) = other_sidecar_name(alloc, name, sidecar)? {
        return Ok(Some(SidecarDifference::Name { own }));
    }
    if !has_architecture(changes, sidecar.architecture()) {
        return Ok(Some(SidecarDifference::Architecture {
            said: Text::new(alloc, sidecar.architecture())?,
        }));
    }
    if sidecar.source() != changes.source() {
        return Ok(Some(SidecarDifference::Source {
            said: Text::new(alloc, sidecar.source())?,
        }));
    }
    Ok(None)
}
