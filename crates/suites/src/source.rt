//! What the .dsc and the sidecars of an upload have to say.

ghost use Rattle.std.specs.Prelude.{◌≡◌, ◌||◌, not, filter, string_bytes, IfOk};
ghost use Rattle.std.specs.List.{list_any, list_all};
ghost use Rattle.suites.specs.Told.{deb_file};
ghost use Rattle.suites.specs.Verdict.{is_package_part as is_package_part_name, has_entry, dsc_file, sidecar_file, differs_from_dsc, differs_from_sidecar, is_same_package};

use crate::listing::{has_architecture, is_package_part, lists};
use records::{Changes, Dsc, Sidecar};
use std::alloc::{AllocError, Global};
use sums::Entry;

/// Whether a .dsc lists a file that is not a source file: a .dsc, a package file, a sidecar or a .changes.
fn lists_package_part(entries: &[Entry]) -> bool
    ensures { result ≡ list_any (λ e. is_package_part_name e.name) entries.now }
{
    entries
        .iter()
        .any(|entry| is_package_part(entry.name.as_str()))
}

/// Whether a file of a .changes is not a source file, or is listed by the .dsc with the same print.
fn is_known(listed: &[Entry], entry: &Entry) -> bool
    ensures { result ≡ (is_package_part_name entry.now.name || has_entry listed.now entry.now) }
{
    is_package_part(entry.name.as_str()) || lists(listed, entry)
}

/// Whether each source file of the .changes is listed by the .dsc, with the same print.
fn has_source_files(entries: &[Entry], listed: &[Entry]) -> bool
    ensures { result ≡ list_all (has_entry listed.now) (filter (λ e. not (is_package_part_name e.name)) entries.now) }
{
    entries.iter().all(|entry| is_known(listed, entry))
}

/// The name that a .dsc has by its own fields, `SOURCE_VERSION.dsc`, with the version without its epoch.
pub fn dsc_name(alloc: Global, dsc: &Dsc) -> Result<String, AllocError>
    ensures { IfOk result (λ text. string_bytes text ≡ dsc_file dsc.now) }
{
    let source = dsc.source();
    let version = dsc.version().without_epoch();
    format!(in alloc; "{source}_{version}.dsc")
}

/// Whether a .dsc of this name is not the one that the .changes is about: it has another source or version, a name that
/// is not `SOURCE_VERSION.dsc` with the version without its epoch, or other files.
#[tactic(auto, unfolding(crate::specs::Verdict::differs_from_dsc))]
pub fn differs_from_dsc(
    alloc: Global,
    changes: &Changes,
    name: &str,
    dsc: &Dsc,
) -> Result<bool, AllocError>
    ensures { IfOk result (λ differs. differs ≡ differs_from_dsc changes.now name.now dsc.now) }
{
    let other_source = dsc.source() != changes.source();
    let other_version = dsc.version().text() != changes.version().text();
    let other_name = name != dsc_name(alloc, dsc)?.as_str();
    let package_part = lists_package_part(dsc.entries());
    let all_listed = has_source_files(changes.entries(), dsc.entries());
    Ok(other_source || other_version || other_name || package_part || !all_listed)
}

/// The name that a sidecar has by its own fields, `PACKAGE_VERSION_ARCHITECTURE.control`, with the version without its
/// epoch.
#[tactic(auto, unfolding(crate::specs::Verdict::sidecar_file))]
pub fn sidecar_name(alloc: Global, sidecar: &Sidecar) -> Result<String, AllocError>
    ensures { IfOk result (λ text. string_bytes text ≡ sidecar_file sidecar.now) }
{
    let package = sidecar.package();
    let version = sidecar.version().without_epoch();
    let architecture = sidecar.architecture();
    format!(in alloc; "{package}_{version}_{architecture}.control")
}

/// The name that a package file has by the fields of its sidecar, `PACKAGE_VERSION_ARCHITECTURE.deb`, with the version
/// without its epoch.
pub fn deb_name(alloc: Global, sidecar: &Sidecar) -> Result<String, AllocError>
    ensures { IfOk result (λ text. string_bytes text ≡ deb_file sidecar.now) }
{
    let package = sidecar.package();
    let version = sidecar.version().without_epoch();
    let architecture = sidecar.architecture();
    format!(in alloc; "{package}_{version}_{architecture}.deb")
}

/// Whether a sidecar of this name is not one that the .changes may have: it has another source, an architecture that the
/// .changes lacks, or a name that is not `PACKAGE_VERSION_ARCHITECTURE.control` by its own fields.
#[tactic(auto, unfolding(crate::specs::Verdict::differs_from_sidecar))]
pub fn differs_from_sidecar(
    alloc: Global,
    changes: &Changes,
    name: &str,
    sidecar: &Sidecar,
) -> Result<bool, AllocError>
    ensures { IfOk result (λ differs. differs ≡ differs_from_sidecar changes.now name.now sidecar.now) }
{
    let other_name = name != sidecar_name(alloc, sidecar)?.as_str();
    let known_architecture = has_architecture(changes, sidecar.architecture());
    let other_source = sidecar.source() != changes.source();
    Ok(other_name || !known_architecture || other_source)
}

/// Whether two sidecars are of the same package and architecture.
#[tactic(auto, unfolding(crate::specs::Verdict::is_same_package))]
pub fn is_same_package(a: &Sidecar, b: &Sidecar) -> bool
    ensures { result ≡ is_same_package a.now b.now }
{
    a.package() == b.package() && a.architecture() == b.architecture()
}
