//! The items that an upload gives.

ghost use Rattle.std.specs.Prelude.{◌≡◌, ◌∷◌, Ok, IfOk, map, option_to_list};
ghost use Rattle.std.specs.Str.{IsUtf8};
ghost use Rattle.records.specs.Records.{dsc_in, sidecar_in};
ghost use Rattle.suites.specs.Items.{file_of, item_of};
ghost use Rattle.suites.specs.Judging.{part_of};
ghost use Rattle.suites.specs.Upload.{file_at, package_file as package_file_of, source_item as source_given, binary_item as binary_given};

use crate::item::{Item, PoolFile, Said, item_with};
use crate::key::Kind;
use crate::listing::package_file;
use crate::paths::pool_path;
use crate::upload::Part;
use para::{Listed, Text};
use records::{Changes, Dsc, Sidecar};
use std::alloc::{AllocError, Global};
use std::str;
use sums::Entry;

/// The .dsc of an upload that has one.
pub struct SourcePart<'a> {
    pub part: Part<'a>,
    pub dsc: Dsc,
}

// Written out, so that a caller does not prove again how each part is dropped.
impl<'a> Drop for SourcePart<'a> {
    fn drop(self) {
        let SourcePart { part: _, dsc: _ } = self;
    }
}

/// A sidecar of an upload.
pub struct BinaryPart<'a> {
    pub part: Part<'a>,
    pub sidecar: Sidecar,
}

// Written out, so that a caller does not prove again how each part is dropped.
impl<'a> Drop for BinaryPart<'a> {
    fn drop(self) {
        let BinaryPart {
            part: _,
            sidecar: _,
        } = self;
    }
}

/// The text of a paragraph that was read.
fn paragraph(text: &[u8]) -> &str
    requires { IsUtf8 text.now }
    ensures { result.now ≡ text.now }
{
    str::from_utf8(text).unwrap_or("")
}

/// A listed file at its path in the pool.
fn pool_file(
    alloc: Global,
    component: &str,
    changes: &Changes,
    entry: &Entry,
) -> Result<PoolFile, AllocError>
    ensures { IfOk result (λ file. file ≡ file_of (file_at (λ e. e.print) changes.now component.now entry.now)) }
{
    let path = pool_path(alloc, component, changes.source(), entry.name.as_str())?;
    Ok(PoolFile {
        path: Text::from_string(path),
        print: entry.print,
    })
}

/// The files of a source: the .dsc and all that it lists, in its order.
fn source_files(
    alloc: Global,
    component: &str,
    changes: &Changes,
    dsc: &Entry,
    entries: &[Entry],
) -> Result<Listed<PoolFile>, AllocError>
    ensures { IfOk result (λ files. files ≡ map file_of (map (file_at (λ e. e.print) changes.now component.now) (dsc.now ∷ entries.now))) }
{
    let mut files = Vec::new(alloc);
    files.push(pool_file(alloc, component, changes, dsc)?)?;
    for entry in entries {
        files.push(pool_file(alloc, component, changes, entry)?)?;
    }
    Ok(Listed::from_vec(files))
}

/// The item of a source: its files are the .dsc and all that the .dsc lists, in its order.
pub fn source_item(
    alloc: Global,
    component: &str,
    changes: &Changes,
    source: &SourcePart<'_>,
) -> Result<Item, AllocError>
    requires { dsc_in source.now.part.text.now ≡ Ok source.now.dsc }
    ensures { IfOk result (λ item. item ≡ item_of (source_given (λ e. e.print) changes.now component.now (part_of source.now.part) source.now.dsc)) }
{
    let files = source_files(
        alloc,
        component,
        changes,
        source.part.entry,
        source.dsc.entries(),
    )?;
    let said = Said {
        kind: Kind::Source,
        package: changes.source(),
        architecture: "source",
        version: source.dsc.version(),
        component,
        source: changes.source(),
        paragraph: paragraph(source.part.text),
    };
    item_with(alloc, &said, files)
}

/// The files of a package: the listed package file of its sidecar.
fn package_files(
    alloc: Global,
    component: &str,
    changes: &Changes,
    sidecar: &str,
) -> Result<Listed<PoolFile>, AllocError>
    ensures { IfOk result (λ files. files ≡ map file_of (map (file_at (λ e. e.print) changes.now component.now) (option_to_list (package_file_of changes.now.entries sidecar.now)))) }
{
    let mut files = Vec::new(alloc);
    if let Some(entry) = package_file(changes.entries(), sidecar) {
        files.push(pool_file(alloc, component, changes, entry)?)?;
    }
    Ok(Listed::from_vec(files))
}

/// The item of a package: its one file is the package file.
pub fn binary_item(
    alloc: Global,
    component: &str,
    changes: &Changes,
    binary: &BinaryPart<'_>,
) -> Result<Item, AllocError>
    requires { sidecar_in binary.now.part.text.now ≡ Ok binary.now.sidecar }
    ensures { IfOk result (λ item. item ≡ item_of (binary_given (λ e. e.print) changes.now component.now (part_of binary.now.part) binary.now.sidecar)) }
{
    let sidecar = &binary.sidecar;
    let files = package_files(alloc, component, changes, binary.part.entry.name.as_str())?;
    let said = Said {
        kind: Kind::Binary,
        package: sidecar.package(),
        architecture: sidecar.architecture(),
        version: sidecar.version(),
        component,
        source: changes.source(),
        paragraph: paragraph(binary.part.text),
    };
    item_with(alloc, &said, files)
}
