//! The indices of a suite, their paths and their texts.

ghost use Rattle.std.specs.Prelude.{◌≡◌, ◌≤◌, ◌<◌, ◌++◌, All, IfOk, length, map, codes, bytes_eq, option_map, string_bytes};
ghost use Rattle.indices.specs.Places.{place_entry, place_path, place_text, places_in};
ghost use Rattle.indices.specs.Positions.{indices_at, release_at};
ghost use Rattle.indices.specs.Release.{index_path, index_of, listed_text, indices_of, release_text};
ghost use Rattle.indices.specs.Indices.{text_at, folder_texts, suite_texts, index_text};

use crate::binary_index::push_packages;
use crate::places::places_of;
use crate::source_index::push_sources;
use crate::suite_release::{release, release_text};
use indices::{Index, IndexPlace, LATEST};
use para::{Listed, Text};
use rules::{Config, Suite};
use std::alloc::{AllocError, Global};
use suites::Shelves;
use sums::{Print, print_of};

/// The path of an index from the folder of its suite: `COMPONENT/source/Sources` for the architecture `source`,
/// `COMPONENT/binary-ARCHITECTURE/Packages` for another.
#[tactic(auto, unfolding(indices::specs::Release::index_path))]
pub fn index_path(alloc: Global, component: &str, architecture: &str) -> Result<String, AllocError>
    ensures { IfOk result (λ path. string_bytes path ≡ index_path component.now architecture.now) }
{
    if architecture == "source" {
        format!(in alloc; "{component}/source/Sources")
    } else {
        format!(in alloc; "{component}/binary-{architecture}/Packages")
    }
}

/// The text of an index other than Release, of the suite at a position.
#[tactic(auto, unfolding(indices::specs::Release::listed_text))]
pub fn listed_text(
    alloc: Global,
    shelves: &Shelves,
    suite: usize,
    component: &str,
    architecture: &str,
) -> Result<Vec<u8>, AllocError>
    ensures { IfOk result (λ text. text.items ≡ listed_text shelves.now suite component.now architecture.now) }
{
    let mut text = Vec::new(alloc);
    if architecture == "source" {
        push_sources(alloc, shelves, suite, component, &mut text)?;
    } else {
        push_packages(alloc, shelves, suite, component, architecture, &mut text)?;
    }
    Ok(text)
}

/// The index at a place of the suite at a position.
fn index_for(
    alloc: Global,
    shelves: &Shelves,
    suite: usize,
    place: &IndexPlace,
) -> Result<Index, AllocError>
    ensures { IfOk result (λ index. index ≡ index_of (place_entry shelves.now suite place.now)) }
{
    let component = place.component.as_str();
    let architecture = place.architecture.as_str();
    let text = listed_text(alloc, shelves, suite, component, architecture)?;
    let path = index_path(alloc, component, architecture)?;
    Ok(Index {
        path: Text::from_string(path),
        print: print_of(&text),
    })
}

/// The indices at these places.
fn indices_for(
    alloc: Global,
    shelves: &Shelves,
    suite: usize,
    places: &[IndexPlace],
) -> Result<Vec<Index>, AllocError>
    ensures { IfOk result (λ indices. indices.items ≡ map (λ p. index_of (place_entry shelves.now suite p)) places.now) }
{
    let mut indices = Vec::new(alloc);
    for place in places {
        indices.push(index_for(alloc, shelves, suite, place)?)?;
    }
    Ok(indices)
}

/// The places of the indices of a suite.
fn suite_places(alloc: Global, suite: &Suite) -> Result<Listed<IndexPlace>, AllocError>
    ensures { IfOk result (λ places. places ≡ places_in suite.now.components suite.now.architectures) }
{
    places_of(
        alloc,
        suite.components.as_slice(),
        suite.architectures.as_slice(),
    )
}

/// The indices that the Release of a suite lists, which is the suite at the position.
fn listed_indices(
    alloc: Global,
    shelves: &Shelves,
    position: usize,
    suite: &Suite,
) -> Result<Vec<Index>, AllocError>
    ensures { IfOk result (λ indices. indices.items ≡ indices_of suite.now shelves.now position) }
{
    let places = suite_places(alloc, suite)?;
    indices_for(alloc, shelves, position, places.as_slice())
}

/// The indices that the Release of a suite lists: for each component in its order, each architecture in its order.
pub fn indices_of(
    alloc: Global,
    config: &Config,
    shelves: &Shelves,
    suite: usize,
) -> Result<Vec<Index>, AllocError>
    requires { suite < length config.now.suites }
    ensures { IfOk result (λ indices. indices.items ≡ indices_at config.now shelves.now suite) }
{
    listed_indices(alloc, shelves, suite, &config.suites()[suite])
}

/// Whether the index of a place stands at the path, from the folder of its suite.
fn is_at(alloc: Global, place: &IndexPlace, path: &str) -> Result<bool, AllocError>
    ensures { IfOk result (λ found. found ≡ bytes_eq (place_path place.now) path.now) }
{
    let own = index_path(alloc, place.component.as_str(), place.architecture.as_str())?;
    Ok(own.as_str() == path)
}

/// The text of the index at a place of the suite at a position.
fn place_text(
    alloc: Global,
    shelves: &Shelves,
    suite: usize,
    place: &IndexPlace,
) -> Result<Vec<u8>, AllocError>
    ensures { IfOk result (λ text. text.items ≡ place_text shelves.now suite place.now) }
{
    listed_text(
        alloc,
        shelves,
        suite,
        place.component.as_str(),
        place.architecture.as_str(),
    )
}

/// The text at a path from the folder of the suite, if the index of one of these places stands there.
fn text_among(
    alloc: Global,
    shelves: &Shelves,
    suite: usize,
    places: &[IndexPlace],
    path: &str,
) -> Result<Option<Vec<u8>>, AllocError>
    ensures { IfOk result (λ text. option_map (λ v. v.items) text ≡ text_at path.now (map (place_entry shelves.now suite) places.now)) }
{
    for place in places {
        if is_at(alloc, place, path)? {
            let text = place_text(alloc, shelves, suite, place)?;
            return Ok(Some(text));
        }
    }
    Ok(None)
}

/// The Release of the suite at the position, whose shown items last changed at the date.
fn rendered_release(
    alloc: Global,
    shelves: &Shelves,
    position: usize,
    suite: &Suite,
    date: u64,
) -> Result<Vec<u8>, AllocError>
    requires { date ≤ LATEST }
    ensures { IfOk result (λ text. text.items ≡ release_text suite.now date (indices_of suite.now shelves.now position)) }
{
    let indices = listed_indices(alloc, shelves, position, suite)?;
    release_text(alloc, suite, date, &indices)
}

/// The Release of the suite at a position of the configuration, whose shown items last changed at the moment.
pub fn release_of(
    alloc: Global,
    config: &Config,
    shelves: &Shelves,
    position: usize,
    moment: u64,
) -> Result<Vec<u8>, AllocError>
    requires suite { position < length config.now.suites }
    requires moment { moment ≤ LATEST }
    ensures { IfOk result (λ text. text.items ≡ release_at config.now position moment (indices_at config.now shelves.now position)) }
{
    let indices = indices_of(alloc, config, shelves, position)?;
    let mut text = Vec::new(alloc);
    release(alloc, config, position, moment, &indices, &mut text)?;
    Ok(text)
}

/// The path of the folder of a suite, with a slash after it.
fn suite_folder(alloc: Global, codename: &str) -> Result<String, AllocError>
    ensures { IfOk result (λ path. string_bytes path ≡ codes "dists/" ++ codename.now ++ codes "/") }
{
    format!(in alloc; "dists/{codename}/")
}

/// The text at a path from the folder of the suite, if an index stands there.
fn text_in_folder(
    alloc: Global,
    shelves: &Shelves,
    position: usize,
    suite: &Suite,
    date: u64,
    path: &str,
) -> Result<Option<Vec<u8>>, AllocError>
    requires { date ≤ LATEST }
    ensures { IfOk result (λ text. option_map (λ v. v.items) text ≡ text_at path.now (folder_texts shelves.now position suite.now date)) }
{
    if path == "Release" {
        let text = rendered_release(alloc, shelves, position, suite, date)?;
        return Ok(Some(text));
    }
    let places = suite_places(alloc, suite)?;
    text_among(alloc, shelves, position, places.as_slice(), path)
}

/// The text at a path, if an index of the suite stands there.
fn suite_text(
    alloc: Global,
    shelves: &Shelves,
    position: usize,
    suite: &Suite,
    date: u64,
    path: &str,
) -> Result<Option<Vec<u8>>, AllocError>
    requires { date ≤ LATEST }
    ensures { IfOk result (λ text. option_map (λ v. v.items) text ≡ text_at path.now (suite_texts shelves.now position suite.now date)) }
{
    let folder = suite_folder(alloc, suite.codename.as_str())?;
    let Some(path) = path.strip_prefix(folder.as_str()) else {
        return Ok(None);
    };
    text_in_folder(alloc, shelves, position, suite, date, path)
}

/// The text of the index at a path without a leading slash, rendered from what the suites show and the moments at which
/// that last changed; nothing if the path is not that of a configured suite, component and architecture.
pub fn index_text(
    alloc: Global,
    config: &Config,
    shelves: &Shelves,
    dates: &[u64],
    path: &str,
) -> Result<Option<Vec<u8>>, AllocError>
    requires { All (λ date. date ≤ LATEST) dates.now }
    ensures { IfOk result (λ text. option_map (λ v. v.items) text ≡ index_text config.now shelves.now dates.now path.now) }
{
    let suites = config.suites();
    for position in 0..suites.len().min(dates.len()) {
        let suite = &suites[position];
        if let Some(text) = suite_text(alloc, shelves, position, suite, dates[position], path)? {
            return Ok(Some(text));
        }
    }
    Ok(None)
}
