//! The items that an accepted upload gave its suite, as lines.

ghost use Rattle.std.specs.Prelude.{◌≡◌, ◌++◌, IfOk, OnOk, map, option_copied, option_map, slice_get, string_bytes};
ghost use Rattle.std.specs.FinMap.{get};
ghost use Rattle.std.specs.List.{flat_map};
ghost use Rattle.suites.specs.Upload.{dsc_parts, package_file as file_of_package, sidecar_parts};
ghost use Rattle.output.specs.Explaining.Items.{are_one, first_print, is_of, item_line, item_lines, given_items, line_at, package_lines, source_lines, state_words};

use para::Text;
use records::Changes;
use rules::Config;
use std::alloc::{AllocError, Global};
use suites::{
    Item, Kind, PoolFile, ShelfKey, Shelves, Upload, codename_at, dsc_within, package_file,
    sidecar_in,
};
use sums::{Entry, GREATEST_SIZE, Print};
use vers::Version;

/// A suite, by its position and its codename, and what all suites show.
#[derive(Clone, Copy)]
struct SuiteView<'p> {
    suite: usize,
    codename: &'p str,
    shelves: &'p Shelves,
}

/// The first file of an item: its .dsc or its package file.
fn first_file(item: &Item) -> Option<&PoolFile>
    ensures { option_copied result ≡ slice_get item.now.files 0 }
{
    item.files.as_slice().first()
}

/// Whether the .dsc or the package file of an item has this print.
fn has_print(item: &Item, print: Option<Print>) -> bool
    ensures { result ≡ are_one (first_print item.now) print }
{
    match (first_file(item), print) {
        (Some(file), Some(print)) => file.print == print,
        _ => false,
    }
}

/// Whether an item is of this version, and its .dsc or its package file has this print.
fn is_of(item: &Item, version: &Version, print: Option<Print>) -> bool
    ensures { result ≡ is_of item.now version.now print }
{
    item.version.text() == version.text() && has_print(item, print)
}

/// `shown`, `instead VERSION` if another item is shown there, or `gone` if none is.
fn state_of(
    alloc: Global,
    shelves: &Shelves,
    key: &ShelfKey,
    version: &Version,
    print: Option<Print>,
) -> Result<String, AllocError>
    ensures { IfOk result (λ words. string_bytes words ≡ state_words version.now print (get shelves.now key.now)) }
{
    let Some(item) = shelves.get(key) else {
        return String::from_str(alloc, "gone");
    };
    if is_of(item, version, print) {
        return String::from_str(alloc, "shown");
    }
    let other = item.version.text();
    format!(in alloc; "instead {other}")
}

/// The line of an item: what became of it, the codename of its suite, its package, version and architecture.
fn item_line(
    alloc: Global,
    place: &SuiteView<'_>,
    key: &ShelfKey,
    version: &Version,
    print: Option<Print>,
) -> Result<String, AllocError>
    ensures { IfOk result (λ line. string_bytes line ≡ line_at place.now.shelves.now place.now.codename.now key.now version.now print) }
{
    let state = state_of(alloc, place.shelves, key, version, print)?;
    let (package, architecture) = (key.package.as_str(), key.architecture.as_str());
    let (codename, version) = (place.codename, version.text());
    format!(in alloc; "{state} {codename} {package} {version} {architecture}")
}

/// The shelf of an item.
fn key_of(
    alloc: Global,
    suite: usize,
    kind: Kind,
    package: &str,
    architecture: &str,
) -> Result<ShelfKey, AllocError>
    ensures { IfOk result (λ key. key ≡ record { suite = suite; kind = kind; «package» = «package».now; architecture = architecture.now }) }
{
    Ok(ShelfKey {
        suite,
        kind,
        package: Text::new(alloc, package)?,
        architecture: Text::new(alloc, architecture)?,
    })
}

/// Adds the line of the source whose .dsc has this entry and text. There is no line if the text is not a record.
fn push_source(
    alloc: Global,
    lines: &mut Vec<String>,
    place: &SuiteView<'_>,
    changes: &Changes,
    entry: &Entry,
    text: &[u8],
) -> Result<(), AllocError>
    ensures { OnOk result (map string_bytes lines.new.items ≡ map string_bytes lines.old.items
        ++ source_lines place.now.shelves.now place.now.suite place.now.codename.now changes.now (entry.now, text.now)) }
{
    let Some(dsc) = dsc_within(alloc, text, GREATEST_SIZE)? else {
        return Ok(());
    };
    let key = key_of(alloc, place.suite, Kind::Source, changes.source(), "source")?;
    let line = item_line(alloc, place, &key, dsc.version(), Some(entry.print))?;
    lines.push(line)?;
    Ok(())
}

/// The print of the package file of a sidecar, if it is listed.
fn package_print(entries: &[Entry], sidecar: &str) -> Option<Print>
    ensures { result ≡ option_map (λ e. e.print) (file_of_package entries.now sidecar.now) }
{
    match package_file(entries, sidecar) {
        Some(entry) => Some(entry.print),
        None => None,
    }
}

/// Adds the line of the package whose sidecar has this entry and text. There is no line if the text is not a record.
fn push_package(
    alloc: Global,
    lines: &mut Vec<String>,
    place: &SuiteView<'_>,
    changes: &Changes,
    entry: &Entry,
    text: &[u8],
) -> Result<(), AllocError>
    ensures { OnOk result (map string_bytes lines.new.items ≡ map string_bytes lines.old.items
        ++ package_lines place.now.shelves.now place.now.suite place.now.codename.now changes.now (entry.now, text.now)) }
{
    let Some(sidecar) = sidecar_in(alloc, text)? else {
        return Ok(());
    };
    let (package, architecture) = (sidecar.package(), sidecar.architecture());
    let key = key_of(alloc, place.suite, Kind::Binary, package, architecture)?;
    let print = package_print(changes.entries(), entry.name.as_str());
    let line = item_line(alloc, place, &key, sidecar.version(), print)?;
    lines.push(line)?;
    Ok(())
}

/// Adds the line of each source of an upload.
fn push_sources(
    alloc: Global,
    lines: &mut Vec<String>,
    place: &SuiteView<'_>,
    upload: &Upload,
) -> Result<(), AllocError>
    ensures { OnOk result (map string_bytes lines.new.items ≡ map string_bytes lines.old.items
        ++ flat_map (source_lines place.now.shelves.now place.now.suite place.now.codename.now upload.now.changes) (dsc_parts upload.now)) }
{
    let parts = upload.parts(alloc, ".dsc")?;
    for part in &parts {
        push_source(alloc, lines, place, upload.changes(), part.entry, part.text)?;
    }
    Ok(())
}

/// Adds the line of each package of an upload.
fn push_packages(
    alloc: Global,
    lines: &mut Vec<String>,
    place: &SuiteView<'_>,
    upload: &Upload,
) -> Result<(), AllocError>
    ensures { OnOk result (map string_bytes lines.new.items ≡ map string_bytes lines.old.items
        ++ flat_map (package_lines place.now.shelves.now place.now.suite place.now.codename.now upload.now.changes) (sidecar_parts upload.now)) }
{
    let parts = upload.parts(alloc, ".control")?;
    for part in &parts {
        push_package(alloc, lines, place, upload.changes(), part.entry, part.text)?;
    }
    Ok(())
}

/// The lines of the items of an upload in a suite, the source first.
fn lines_in(
    alloc: Global,
    place: &SuiteView<'_>,
    upload: &Upload,
) -> Result<Vec<String>, AllocError>
    ensures { IfOk result (λ lines. map string_bytes lines.items
        ≡ map (item_line place.now.shelves.now place.now.suite place.now.codename.now) (given_items upload.now)) }
{
    let mut lines = Vec::new(alloc);
    push_sources(alloc, &mut lines, place, upload)?;
    push_packages(alloc, &mut lines, place, upload)?;
    Ok(lines)
}

/// A line for each item of an accepted upload, the source first: `shown`, `instead VERSION` or `gone`, and after that
/// `CODENAME PACKAGE VERSION ARCHITECTURE`.
#[tactic(auto, unfolding(crate::specs::Explaining::Items::item_lines))]
pub fn item_lines(
    alloc: Global,
    config: &Config,
    shelves: &Shelves,
    upload: &Upload,
) -> Result<Vec<String>, AllocError>
    ensures { IfOk result (λ lines. map string_bytes lines.items ≡ item_lines config.now shelves.now upload.now) }
{
    let Some(suite) = config.suite_for(upload.changes().distribution()) else {
        return Ok(Vec::new(alloc));
    };
    let place = SuiteView {
        suite,
        codename: codename_at(config.suites(), suite),
        shelves,
    };
    lines_in(alloc, &place, upload)
}
