//! What verdict 5 is about: a file that a .changes may not list, or a .dsc that it lacks.

ghost use Rattle.std.specs.Prelude.{◌≡◌, not, codes, filter, find, option_copied, slice_get};
ghost use Rattle.std.specs.List.{list_any};
ghost use Rattle.suites.specs.Upload.{has_suffix as ends_in};
ghost use Rattle.suites.specs.Verdict.{is_package_part as is_part};
ghost use Rattle.reasons.specs.Named.{is_lone, lacks_dsc, listed_changes, lone_file, source_file, surplus_dsc};

use records::Changes;
use suites::{has_joined, has_source, has_suffix, is_package_part, stem};
use sums::Entry;

/// The first .changes that a .changes lists.
pub fn listed_changes(changes: &Changes) -> Option<&Entry>
    ensures { option_copied result ≡ listed_changes changes.now }
{
    changes
        .entries()
        .iter()
        .find(|entry| has_suffix(entry.name.as_str(), ".changes"))
}

/// The .dsc at a place among those that are listed.
fn dsc_at(entries: &[Entry], place: usize) -> Option<&Entry>
    ensures { option_copied result ≡ slice_get (filter (λ e. ends_in (codes ".dsc") e.name) entries.now) place }
{
    entries
        .iter()
        .filter(|entry| has_suffix(entry.name.as_str(), ".dsc"))
        .nth(place)
}

/// The second .dsc of a .changes that has `source` among its architectures, the first of any other.
pub fn surplus_dsc(changes: &Changes) -> Option<&Entry>
    ensures { option_copied result ≡ surplus_dsc changes.now }
{
    if has_source(changes) {
        dsc_at(changes.entries(), 1)
    } else {
        dsc_at(changes.entries(), 0)
    }
}

/// Whether a .dsc is listed.
fn has_dsc(entries: &[Entry]) -> bool
    ensures { result ≡ list_any (λ e. ends_in (codes ".dsc") e.name) entries.now }
{
    entries
        .iter()
        .any(|entry| has_suffix(entry.name.as_str(), ".dsc"))
}

/// Whether a .changes lists no .dsc, and has `source` among its architectures.
#[tactic(auto, unfolding(crate::specs::Named::lacks_dsc))]
pub fn lacks_dsc(changes: &Changes) -> bool
    ensures { result ≡ lacks_dsc changes.now }
{
    has_source(changes) && !has_dsc(changes.entries())
}

/// Whether the name of an entry has the first ending, and no listed name is the same with the second in its place.
#[tactic(auto, unfolding(crate::specs::Named::is_lone))]
fn is_lone(entries: &[Entry], entry: &Entry, ending: &str, other: &str) -> bool
    ensures { result ≡ is_lone ending.now other.now entries.now entry.now }
{
    let name = entry.name.as_str();
    has_suffix(name, ending) && !has_joined(entries, stem(name, ending), other)
}

/// The first listed file with the first ending for which no file of the same stem with the second is listed.
fn lone_file<'a>(entries: &'a [Entry], ending: &str, other: &str) -> Option<&'a Entry>
    ensures { option_copied result ≡ lone_file ending.now other.now entries.now }
{
    entries
        .iter()
        .find(|entry| is_lone(entries, entry, ending, other))
}

/// The first package file that has no sidecar.
pub fn lone_package(changes: &Changes) -> Option<&Entry>
    ensures { option_copied result ≡ lone_file (codes ".deb") (codes ".control") changes.now.entries }
{
    lone_file(changes.entries(), ".deb", ".control")
}

/// The first sidecar that has no package file.
pub fn lone_sidecar(changes: &Changes) -> Option<&Entry>
    ensures { option_copied result ≡ lone_file (codes ".control") (codes ".deb") changes.now.entries }
{
    lone_file(changes.entries(), ".control", ".deb")
}

/// The first source file among these.
fn first_source_file(entries: &[Entry]) -> Option<&Entry>
    ensures { option_copied result ≡ find (λ e. not (is_part e.name)) entries.now }
{
    entries
        .iter()
        .find(|entry| !is_package_part(entry.name.as_str()))
}

/// The first source file of a .changes that does not have `source` among its architectures.
#[tactic(auto, unfolding(crate::specs::Named::source_file))]
pub fn source_file(changes: &Changes) -> Option<&Entry>
    ensures { option_copied result ≡ source_file changes.now }
{
    if has_source(changes) {
        return None;
    }
    first_source_file(changes.entries())
}
