//! What a row of an item shows, with the rows of its files.

ghost use Rattle.std.specs.Prelude.{◌≡◌, ◌⊎◌, map, IfOk, IfErr, OnOk, OnErr};
ghost use Rattle.std.specs.List.{list_any};
ghost use Rattle.std.specs.Str.{IsUtf8};
ghost use Rattle.suites.specs.Items.{standing};
ghost use Rattle.suites.specs.Shelves.{pool};
ghost use Rattle.tables_meaning.specs.Kept.{IsReadable};
ghost use Rattle.tables_meaning.specs.Shown.{IsPut, MayBePut, MayStand, PutsRow, clash, file_in, is_taken as is_taken_in, item_with as item_of_row, may_not_join as may_not_join_pool};
ghost use Rattle.vers.specs.Syntax.{IsVersion};

use para::{Listed, Text};
use rules::{Suite, position_of_named};
use sqlite::{Error, ErrorCode};
use std::alloc::{AllocError, Global};
use suites::{Item, Kind, PoolFile, Shelves};
use tables::rows::{ItemRow, Ref};
use vers::{Version, VersionFault};

/// The error for a version that may not be read.
fn error_of(fault: VersionFault) -> Error
    ensures { (result ≡ Error.SqliteFailure ErrorCode.OutOfMemory) ⊎ (¬ (fault ≡ VersionFault.OutOfMemory)) }
{
    if fault == VersionFault::OutOfMemory {
        return Error::SqliteFailure(ErrorCode::OutOfMemory);
    }
    Error::SqliteFailure(ErrorCode::DatabaseCorrupt)
}

/// The version that a text is. A text that is not a version cannot be in an archive, and is refused.
fn version_in(alloc: Global, text: &str) -> Result<Version, Error>
    ensures ok { IfOk result (λ version. (version ≡ text.now) × IsVersion text.now) }
    ensures refused { IfErr result (λ e. (e ≡ Error.SqliteFailure ErrorCode.OutOfMemory) ⊎ (¬ IsVersion text.now)) }
{
    match Version::parse(alloc, text) {
        Ok(version) => Ok(version),
        Err(fault) => Err(error_of(fault)),
    }
}

/// The text that bytes are, which it takes without a copy. Bytes that are not text cannot be in an archive, and are
/// refused.
fn text_in(bytes: Listed<u8>) -> Result<Text, Error>
    ensures ok { IfOk result (λ text. (text ≡ bytes) × IsUtf8 bytes) }
    ensures refused { OnErr result (¬ IsUtf8 bytes) }
{
    match String::from_utf8(bytes.into_vec()) {
        Ok(text) => Ok(Text::from_string(text)),
        Err(_) => Err(Error::SqliteFailure(ErrorCode::DatabaseCorrupt)),
    }
}

/// The files of rows.
fn files_in(alloc: Global, refs: Vec<Ref>) -> Result<Listed<PoolFile>, AllocError>
    ensures { IfOk result (λ files. files ≡ map file_in refs.items) }
{
    let mut files = Vec::new(alloc);
    for file in refs {
        files.push(PoolFile {
            path: file.path,
            print: file.print,
        })?;
    }
    Ok(Listed::from_vec(files))
}

/// The item of a row, of this kind and with these files.
fn item_with(alloc: Global, kind: Kind, row: ItemRow, refs: Vec<Ref>) -> Result<Item, Error>
    ensures ok { IfOk result (λ item. item ≡ item_of_row kind row refs.items) }
    ensures readable { OnOk result (IsReadable row) }
    ensures refused { IfErr result (λ e. (e ≡ Error.SqliteFailure ErrorCode.OutOfMemory) ⊎ (¬ IsReadable row)) }
{
    let version = version_in(alloc, row.version.as_str())?;
    let paragraph = text_in(row.paragraph)?;
    let files = files_in(alloc, refs)?;
    Ok(Item {
        kind,
        package: row.package,
        architecture: row.architecture,
        version,
        component: row.component,
        source: row.source,
        paragraph,
        files,
    })
}

/// Whether two files stand at one path, with different prints.
#[tactic(auto, unfolding(tables_meaning::specs::Shown::clash))]
fn differ(one: &PoolFile, other: &PoolFile) -> bool
    ensures { result ≡ clash one.now other.now }
{
    if one.path.as_str() != other.path.as_str() {
        return false;
    }
    one.print != other.print
}

/// Whether one of the others is at the path of a file, with another print.
fn differs(file: &PoolFile, others: &[PoolFile]) -> bool
    ensures { result ≡ list_any (clash file.now) others.now }
{
    for other in others {
        if differ(file, other) {
            return true;
        }
    }
    false
}

/// Whether the pool has another print at the path of a file.
#[tactic(auto, unfolding(tables_meaning::specs::Shown::is_taken))]
fn is_taken(shelves: &Shelves, file: &PoolFile) -> bool
    ensures { result ≡ is_taken_in (pool shelves.now) file.now }
{
    match shelves.file(file.path.as_str()) {
        Some(print) => print != file.print,
        None => false,
    }
}

/// Whether a file of an item has another print than a file at its path in the pool, or among the item's files.
#[tactic(auto, unfolding(tables_meaning::specs::Shown::may_not_join))]
fn may_not_join(shelves: &Shelves, files: &[PoolFile], file: &PoolFile) -> bool
    ensures { result ≡ may_not_join_pool (pool shelves.now) files.now file.now }
{
    if is_taken(shelves, file) {
        return true;
    }
    differs(file, files)
}

/// Whether some file of an item may not join the pool.
fn some_may_not_join(shelves: &Shelves, files: &[PoolFile]) -> bool
    ensures { result ≡ list_any (may_not_join_pool (pool shelves.now) files.now) files.now }
{
    for file in files {
        if may_not_join(shelves, files, file) {
            return true;
        }
    }
    false
}

/// Puts an item on its shelf in a suite. It is refused if the shelf is taken, or if a file has another print than the one
/// at its path. Neither can be in an archive.
fn put_item(alloc: Global, shelves: &mut Shelves, suite: usize, item: Item) -> Result<(), Error>
    ensures ok { OnOk result (IsPut shelves.old shelves.new (standing suite item)) }
    ensures refused { IfErr result (λ e. (e ≡ Error.SqliteFailure ErrorCode.OutOfMemory) ⊎ (¬ MayBePut shelves.old (standing suite item))) }
{
    let key = item.shelf(suite)?;
    if shelves.get(&key).is_some() {
        return Err(Error::SqliteFailure(ErrorCode::DatabaseCorrupt));
    }
    if some_may_not_join(shelves, item.files.as_slice()) {
        return Err(Error::SqliteFailure(ErrorCode::DatabaseCorrupt));
    }
    // For the prover alone: the shelves are sound.
    shelves.agree();
    Ok(shelves.put(alloc, key, item)?)
}

/// Puts on its shelf what a row shows. A row of no suite or of no kind, which cannot be in an archive, is refused.
pub fn put_row(
    alloc: Global,
    shelves: &mut Shelves,
    suites: &[Suite],
    row: ItemRow,
    refs: Vec<Ref>,
) -> Result<(), Error>
    ensures ok { OnOk result (PutsRow suites.now row refs.items shelves.old shelves.new) }
    ensures readable { OnOk result (IsReadable row) }
    ensures refused { IfErr result (λ e. (e ≡ Error.SqliteFailure ErrorCode.OutOfMemory) ⊎ (¬ MayStand suites.now row refs.items shelves.old)) }
{
    let Some(suite) = position_of_named(suites, row.suite.as_str()) else {
        return Err(Error::SqliteFailure(ErrorCode::DatabaseCorrupt));
    };
    let Some(kind) = Kind::with_number(row.kind) else {
        return Err(Error::SqliteFailure(ErrorCode::DatabaseCorrupt));
    };
    let item = item_with(alloc, kind, row, refs)?;
    put_item(alloc, shelves, suite, item)
}
