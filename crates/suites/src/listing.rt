//! What a .changes may list.

ghost use Rattle.std.specs.Prelude.{◌≡◌, ◌&&◌, ◌||◌, not, length, bytes_eq, option_copied};
ghost use Rattle.std.specs.List.{list_all};
ghost use Rattle.records.specs.Records.{is_among};
ghost use Rattle.suites.specs.Upload.{has_suffix as ends_in, stem as stem_of, package_file as file_of_package};
ghost use Rattle.suites.specs.Verdict.{names_with, names_of, stems, are_among, has_source, is_package_part, has_bad_listing, has_entry};

use crate::upload::{entry_named, has_suffix};
use records::Changes;
use sums::Entry;

/// A name without its ending.
pub fn stem<'a>(name: &'a str, ending: &str) -> &'a [u8]
    ensures { result.now ≡ stem_of ending.now name.now }
{
    let bytes = name.as_bytes();
    &bytes[..bytes.len().saturating_sub(ending.len())]
}

/// Whether a name is this front and then the ending.
fn is_joined(name: &str, front: &[u8], ending: &str) -> bool
    ensures { result ≡ (ends_in ending.now name.now && bytes_eq front.now (stem_of ending.now name.now)) }
{
    has_suffix(name, ending) && front == stem(name, ending)
}

/// Whether a listed name is this front and then the ending.
pub fn has_joined(entries: &[Entry], front: &[u8], ending: &str) -> bool
    ensures { result ≡ is_among (stems ending.now entries.now) front.now }
{
    entries
        .iter()
        .any(|entry| is_joined(entry.name.as_str(), front, ending))
}

/// The package file of a sidecar: the listed file of the same stem that ends in `.deb`.
#[tactic(auto, unfolding(crate::specs::Upload::package_file))]
pub fn package_file<'a>(entries: &'a [Entry], sidecar: &str) -> Option<&'a Entry>
    ensures { option_copied result ≡ file_of_package entries.now sidecar.now }
{
    let front = stem(sidecar, ".control");
    entries
        .iter()
        .find(|entry| is_joined(entry.name.as_str(), front, ".deb"))
}

/// Whether a name with the first ending has a listed name of the same stem with the second. It holds for any other name.
fn is_paired(entries: &[Entry], name: &str, ending: &str, other: &str) -> bool
    ensures { result ≡ (not (ends_in ending.now name.now) || is_among (stems other.now entries.now) (stem_of ending.now name.now)) }
{
    !has_suffix(name, ending) || has_joined(entries, stem(name, ending), other)
}

/// Whether each listed name with the first ending has a listed name of the same stem with the second.
fn are_paired(entries: &[Entry], ending: &str, other: &str) -> bool
    ensures { result ≡ are_among (stems ending.now entries.now) (stems other.now entries.now) }
{
    entries.iter().all(|entry| is_paired(entries, entry.name.as_str(), ending, other))
}

/// Whether a name is not that of a source file: it ends in `.dsc`, `.deb`, `.control` or `.changes`.
#[tactic(auto, unfolding(crate::specs::Verdict::is_package_part))]
pub fn is_package_part(name: &str) -> bool
    ensures { result ≡ is_package_part name.now }
{
    has_suffix(name, ".dsc")
        || has_suffix(name, ".deb")
        || has_suffix(name, ".control")
        || has_suffix(name, ".changes")
}

/// Whether `source` is among the architectures of a .changes.
#[tactic(auto, unfolding(crate::specs::Verdict::has_source))]
pub fn has_source(changes: &Changes) -> bool
    ensures { result ≡ has_source changes.now }
{
    has_architecture(changes, "source")
}

/// Whether an architecture is one of the .changes.
pub fn has_architecture(changes: &Changes, architecture: &str) -> bool
    ensures { result ≡ is_among changes.now.architectures architecture.now }
{
    changes
        .architectures()
        .iter()
        .any(|name| architecture == name.as_str())
}

/// How many listed names have the ending.
fn count_with(entries: &[Entry], ending: &str) -> usize
    ensures { result ≡ length (names_with ending.now entries.now) }
{
    entries
        .iter()
        .filter(|entry| has_suffix(entry.name.as_str(), ending))
        .count()
}

/// Whether no listed file is a source file.
fn has_package_parts_only(entries: &[Entry]) -> bool
    ensures { result ≡ list_all is_package_part (names_of entries.now) }
{
    entries
        .iter()
        .all(|entry| is_package_part(entry.name.as_str()))
}

/// Whether a .changes lists what it may not: a .changes; more or fewer than one .dsc if `source` is among its
/// architectures, or any .dsc if it is not; a package file without its sidecar or the reverse; or, without `source`, a
/// source file.
#[tactic(auto, unfolding(crate::specs::Verdict::has_bad_listing))]
pub fn has_bad_listing(changes: &Changes) -> bool
    ensures { result ≡ has_bad_listing changes.now }
{
    let entries = changes.entries();
    let source = has_source(changes);
    let wanted = if source { 1 } else { 0 };
    if count_with(entries, ".changes") > 0 || count_with(entries, ".dsc") != wanted {
        return true;
    }
    if !are_paired(entries, ".deb", ".control") || !are_paired(entries, ".control", ".deb") {
        return true;
    }
    !source && !has_package_parts_only(entries)
}

/// Whether the entries have a file of that name and that print.
#[tactic(auto, unfolding(crate::specs::Verdict::has_entry))]
pub fn lists(entries: &[Entry], wanted: &Entry) -> bool
    ensures { result ≡ has_entry entries.now wanted.now }
{
    match entry_named(entries, wanted.name.as_str()) {
        Some(entry) => entry.print == wanted.print,
        None => false,
    }
}
