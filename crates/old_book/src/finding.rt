//! Finds the archive of a database of an older layout.

ghost use Rattle.std.specs.Prelude.{◌≡◌, None, false, IfOk, IfSome, OnOk, OnErr};
ghost use Rattle.sqlite.specs.State.{HasCleanDisk, IsUnchanged};
ghost use Rattle.sqlite.specs.Held.{state};
ghost use Rattle.tables_meaning.specs.Kept.{AreReadable};
ghost use Rattle.tables.specs.Rows.{Fails};
ghost use Rattle.tables_read.specs.All.{AreConstrained, tables_with};
ghost use Rattle.old_rows.specs.Layouts.{AreSelects};
ghost use Rattle.old_book.specs.Copying.{AreRising};
ghost use Rattle.old_book.specs.Old.{IsNoOldArchive, KeepsNoOld, KeepsNoneAs};
ghost use Rattle.old_book.specs.Books.{IsBookOf, IsOldBookIn, IsShownBook};
ghost use Rattle.tables.specs.Calls.{NeverCommits, OnCleanDisk};

use crate::bodied::have_bodies;
use crate::listed::are_listed;
use crate::old::OldBook;
use crate::renewed::{renewed, text_among};
use crate::rising::is_rising;
use crate::taken::are_taken;
use book::KeepFault;
use old_rows::{Asked, first, old_rows, second};
use sqlite::{Alter, Connection, Error};
use std::alloc::{AllocError, Global};
use tables_audit::archive_in;
use tables_meaning::fault_of;
use tables_read::AllRows;

/// The book of the old archive with these rows, if they are those of one. The keys of today's tables hold of the rows.
fn book_of(alloc: Global, mut all: AllRows) -> Result<Option<OldBook>, AllocError>
    requires rising { AreRising (tables_with all) }
    requires keys { AreConstrained (tables_with all) }
    ensures some { IfOk result (λ o. IfSome o (IsBookOf (tables_with all))) }
    ensures none { IfOk result (λ o. o ≡ None → AreReadable (tables_with all) → KeepsNoOld (tables_with all)) }
{
    let Some(text) = text_among(alloc, &all.meta)? else {
        return Ok(None);
    };
    if !are_listed(alloc, &mut all)? {
        return Ok(None);
    }
    let rows = renewed(alloc, all, text)?;
    match archive_in(alloc, &rows)? {
        Some(held) => Ok(Some(OldBook { rows, held })),
        None => Ok(None),
    }
}

/// The book of the old archive with these rows, if they are those of one.
fn old_book_in(alloc: Global, all: AllRows) -> Result<Option<OldBook>, Error>
    ensures some { IfOk result (λ o. IfSome o (IsBookOf (tables_with all))) }
    ensures none { IfOk result (λ o. o ≡ None → AreReadable (tables_with all) → KeepsNoOld (tables_with all)) }
{
    if !is_rising(&all) {
        return Ok(None);
    }
    if !have_bodies(alloc, &all)? {
        return Ok(None);
    }
    are_taken(alloc, &all)?;
    Ok(book_of(alloc, all)?)
}

/// The book of a database of this layout, if it keeps an archive.
fn book_as<S: Alter>(
    alloc: Global,
    from: &mut Connection<S>,
    asked: &Asked,
) -> Result<Option<OldBook>, Error>
    requires idle { from.old.in_transaction ≡ false }
    requires texts { AreSelects asked.now }
    ensures idle { from.new.in_transaction ≡ false }
    ensures some { OnCleanDisk S.Store from.old from.new (λ old new. IfOk result (λ o. IfSome o (IsShownBook asked.now old.now))) }
    ensures none { OnCleanDisk S.Store from.old from.new (λ old new. IfOk result (λ o. o ≡ None → KeepsNoneAs asked.now old.now)) }
    ensures unchanged { OnCleanDisk S.Store from.old from.new (λ old new. OnOk result (IsUnchanged old new)) }
    ensures err { OnCleanDisk S.Store from.old from.new (λ old new. OnErr result (Fails old new)) }
    ensures survives { NeverCommits S.Store from.old from.new }
{
    match old_rows(alloc, from, asked)? {
        Some(all) => old_book_in(alloc, all),
        None => Ok(None),
    }
}

/// The book of a database of an older layout, if it keeps an archive.
fn book_in<S: Alter>(alloc: Global, from: &mut Connection<S>) -> Result<Option<OldBook>, Error>
    requires idle { from.old.in_transaction ≡ false }
    ensures idle { from.new.in_transaction ≡ false }
    ensures some { OnCleanDisk S.Store from.old from.new (λ old new. IfOk result (λ o. IfSome o (IsOldBookIn old.now))) }
    ensures none { OnCleanDisk S.Store from.old from.new (λ old new. IfOk result (λ o. o ≡ None → IsNoOldArchive old.now)) }
    ensures unchanged { OnCleanDisk S.Store from.old from.new (λ old new. OnOk result (IsUnchanged old new)) }
    ensures err { OnCleanDisk S.Store from.old from.new (λ old new. OnErr result (Fails old new)) }
    ensures survives { NeverCommits S.Store from.old from.new }
{
    if let Some(old) = book_as(alloc, from, &first())? {
        return Ok(Some(old));
    }
    book_as(alloc, from, &second())
}

impl OldBook {
    ghost use Rattle.std.specs.Prelude.{◌⊎◌, true, IfErr};
    ghost use Rattle.book.specs.declared.fault.KeepFault.TheVariants.{NoArchive};
    ghost use Rattle.tables.specs.Rows.{Stands, Tables};
    ghost use Rattle.old_book.specs.Old.{IsOldBook};
    ghost use Rattle.old_book.specs.Settling.{settled, with_meta_row};

    /// The book of an archive of an older layout, from its database. The fault is `KeepFault::NoArchive` only if a transaction is open, or
    /// if the queries of no older layout show rows that keep an archive. The database is as before.
    pub fn read<S: Alter>(alloc: Global, from: &mut Connection<S>) -> Result<OldBook, KeepFault>
        ensures read { IfOk result (λ old. HasCleanDisk (state S.Store from.new) → (t : Tables) × IsOldBook (state S.Store from.old).now t old.held.config old.held.judged.items old.held.shelves old.held.dates.items
            × (tables_with old.rows ≡ with_meta_row old.held.config.text (settled t))) }
        ensures refused { IfErr result (λ e. e ≡ NoArchive → HasCleanDisk (state S.Store from.new) → (from.old.in_transaction ≡ true) ⊎ IsNoOldArchive (state S.Store from.old).now) }
        ensures unchanged { OnCleanDisk S.Store from.old from.new (λ old new. OnOk result (Stands old new)) }
        ensures unchanged_refused { OnCleanDisk S.Store from.old from.new (λ old new. IfErr result (λ e. e ≡ NoArchive → Stands old new)) }
        // Another fault may have ended or closed the connection, and what was committed is as before.
        ensures failed { OnCleanDisk S.Store from.old from.new (λ old new. OnErr result (Fails old new)) }
        ensures survives { NeverCommits S.Store from.old from.new }
    {
        if !from.is_autocommit() {
            return Err(KeepFault::NoArchive);
        }
        match book_in(alloc, from) {
            Ok(Some(old)) => Ok(old),
            Ok(None) => Err(KeepFault::NoArchive),
            Err(error) => Err(fault_of(error)),
        }
    }
}
