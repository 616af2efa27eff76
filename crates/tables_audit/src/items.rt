//! What the suites show, if the rows of items and of their files say it.

ghost use Rattle.std.specs.Prelude.{◌≡◌, filter, true, false, None, IfOk, IfSome, IsTrue};
ghost use Rattle.suites.specs.Shelves.{AreSound, ShelvesValue};
ghost use Rattle.tables.specs.Refs.{is_ref_of};
ghost use Rattle.tables.specs.Rows.{rows_of};
ghost use Rattle.tables_read.specs.All.{AreConstrained, tables_with};
ghost use Rattle.tables_meaning.specs.Kept.{AreItems, AreReadable, IsReadable, ref_order};
ghost use Rattle.tables_meaning.specs.Reads.{sorted_by};
ghost use Rattle.tables_meaning.specs.Shown.{MayStand, PutsRow};
ghost use Rattle.tables_audit.specs.Items.{AreShown, AreStopped, Joins, MayJoin, are_numbered_from, refs_at};

use crate::keyed::Rows;
use crate::shelves::put_row;
use para::Listed;
use rules::{Config, Suite};
use sqlite::{Error, ErrorCode};
use std::alloc::{AllocError, Global};
use std::cmp::Ordering;
use suites::Shelves;
use tables::rows::{ItemRow, Ref};
use tables_read::AllRows;

/// A copy of the row of an item.
fn copied_item(alloc: Global, row: &ItemRow) -> Result<ItemRow, AllocError>
    ensures { IfOk result (λ copy. copy ≡ row.now) }
{
    Ok(ItemRow {
        suite: row.suite.try_clone()?,
        kind: row.kind,
        package: row.package.try_clone()?,
        architecture: row.architecture.try_clone()?,
        version: row.version.try_clone()?,
        component: row.component.try_clone()?,
        source: row.source.try_clone()?,
        paragraph: Listed::from_vec(row.paragraph.as_slice().to_vec(alloc)?),
    })
}

/// A copy of the row of an item's file.
fn copied_ref(row: &Ref) -> Result<Ref, AllocError>
    ensures { IfOk result (λ copy. copy ≡ row.now) }
{
    Ok(Ref {
        item: row.item,
        number: row.number,
        path: row.path.try_clone()?,
        print: row.print,
    })
}

/// Copies of the rows of an item's files, in the order of the rows.
fn refs_of(alloc: Global, refs: &[(u64, Ref)], item: u64) -> Result<Vec<Ref>, AllocError>
    ensures { IfOk result (λ found. found.items ≡ filter (is_ref_of item) (rows_of refs.now)) }
{
    let mut found = Vec::new(alloc);
    for (_, row) in refs {
        if row.item == item {
            found.push(copied_ref(row)?)?;
        }
    }
    Ok(found)
}

/// The order of the files of an item: by number.
fn ref_order(a: &Ref, b: &Ref) -> Ordering
    ensures { result ≡ ref_order a.now b.now }
{
    a.number.cmp(&b.number)
}

/// The rows of an item's files in the order of their numbers, whatever the order in which they come.
pub fn refs_in_order(mut refs: Vec<Ref>) -> Result<Vec<Ref>, AllocError>
    ensures { IfOk result (λ sorted. sorted.items ≡ sorted_by ref_order refs.items) }
{
    refs.sort_by(|a, b| ref_order(a, b))?;
    Ok(refs)
}

/// Copies of the rows of an item's files, in the order of their numbers, looked up among all files.
fn refs_by_item(
    alloc: Global,
    refs: &Rows<'_, (u64, Ref)>,
    item: u64,
) -> Result<Vec<Ref>, AllocError>
    ensures { IfOk result (λ found. found.items ≡ refs_at refs.now.all.now item) }
{
    refs_in_order(refs_of(alloc, refs.about(item), item)?)
}

/// Whether the files of an item are numbered 1, 2 and so on.
fn are_numbered(refs: &[Ref]) -> bool
    ensures { result ≡ are_numbered_from 1 refs.now }
{
    for (index, row) in refs.iter().enumerate() {
        if row.number != index as u64 + 1 {
            return false;
        }
    }
    true
}

/// Puts on its shelf what a row with these files shows. Answers false if it may not stand there.
fn put_files(
    alloc: Global,
    shelves: &mut Shelves,
    suites: &[Suite],
    row: &ItemRow,
    refs: Vec<Ref>,
) -> Result<bool, AllocError>
    ensures yes { IfOk result (λ stands. IsTrue stands →
        PutsRow suites.now row.now refs.items shelves.old shelves.new × IsReadable row.now) }
    ensures no { IfOk result (λ stands. stands ≡ false → ¬ MayStand suites.now row.now refs.items shelves.old) }
{
    let row = copied_item(alloc, row)?;
    match put_row(alloc, shelves, suites, row, refs) {
        Ok(()) => Ok(true),
        Err(Error::SqliteFailure(ErrorCode::DatabaseCorrupt)) => Ok(false),
        Err(_) => Err(AllocError),
    }
}

/// Puts on its shelf what the row of this number shows. Answers false if its files are not numbered from 1 on, or if it
/// may not stand there.
fn put(
    alloc: Global,
    shelves: &mut Shelves,
    suites: &[Suite],
    id: u64,
    row: &ItemRow,
    refs: &Rows<'_, (u64, Ref)>,
) -> Result<bool, AllocError>
    ensures yes { IfOk result (λ joins. IsTrue joins →
        Joins suites.now refs.now.all.now (id, row.now) shelves.old shelves.new) }
    ensures no { IfOk result (λ joins. joins ≡ false → ¬ MayJoin suites.now refs.now.all.now (id, row.now) shelves.old) }
{
    let refs = refs_by_item(alloc, refs, id)?;
    if !are_numbered(&refs) {
        return Ok(false);
    }
    put_files(alloc, shelves, suites, row, refs)
}

/// What rows show, if each may stand beside those before it.
fn shelves_of(
    alloc: Global,
    suites: &[Suite],
    items: &[(u64, ItemRow)],
    refs: &Rows<'_, (u64, Ref)>,
) -> Result<Option<Shelves>, AllocError>
    ensures some { IfOk result (λ o. IfSome o (AreShown suites.now refs.now.all.now items.now)) }
    ensures none { IfOk result (λ o. o ≡ None → AreStopped suites.now refs.now.all.now items.now) }
{
    let mut shelves = Shelves::new(alloc);
    for (id, row) in items {
        if !put(alloc, &mut shelves, suites, *id, row, refs)? {
            return Ok(None);
        }
    }
    Ok(Some(shelves))
}

/// What the suites of a configuration show, if the rows of items and of their files say it.
pub fn shelves_in(
    alloc: Global,
    all: &AllRows,
    config: &Config,
) -> Result<Option<Shelves>, AllocError>
    ensures some { IfOk result (λ o. IfSome o (λ shelves. AreConstrained (tables_with all.now) →
        AreItems (tables_with all.now) config.now.suites shelves × AreSound shelves
        × AreReadable (tables_with all.now))) }
    ensures none { IfOk result (λ o. o ≡ None → AreReadable (tables_with all.now) → (shown : ShelvesValue) →
        AreItems (tables_with all.now) config.now.suites shown → AreSound shown → ⊥) }
{
    // For the prover alone: the configuration is what its text spells, so no two suites have one codename.
    let _ = config.text();
    let refs = Rows::new(all.refs.as_slice());
    let found = shelves_of(alloc, config.suites(), all.items.as_slice(), &refs)?;
    let Some(shelves) = found else {
        return Ok(None);
    };
    // For the prover alone: the shelves are sound.
    shelves.agree();
    Ok(Some(shelves))
}
