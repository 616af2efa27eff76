//! What the suites show, read from the rows of items and of their files.
//!
//! An opening and each change (`hold`) leave with the keeper what the suites show, and the next call that asks for it takes it out. If
//! the keeper does not have it, as after a refusal, it is read from the tables: shelves are made of rows by plans, and rows that no
//! archive has are refused. The rows of an item's files stand in any order, so they are put in the order of their numbers first.

ghost use Rattle.std.specs.Prelude.{◌≡◌, false, IfOk, OnOk};
ghost use Rattle.sqlite.specs.State.{IsUnchanged};
ghost use Rattle.suites.specs.Shelves.{AreSound, ShelvesValue};
ghost use Rattle.tables_meaning.specs.Kept.{AreItems};
ghost use Rattle.tables.specs.Calls.{CommitsNoRows, OverRows};
ghost use Rattle.tables_meaning.specs.Calls.{ReadUndone};

use rules::Config;
use sqlite::{Alter, Connection, Error};
use std::alloc::Global;
use suites::Shelves;
use tables::items::select_items;
use tables::refs::refs_of;
use tables_audit::{put_row, refs_in_order};

/// What the suites of a configuration show.
pub fn read_shelves<S: Alter>(
    alloc: Global,
    conn: &mut Connection<S>,
    config: &Config,
) -> Result<Shelves, Error>
    ensures idle { conn.old.in_transaction ≡ false → conn.new.in_transaction ≡ false }
    ensures ok { OverRows S.Store conn.old conn.new (λ t old new. (shown : ShelvesValue) → AreItems t config.now.suites shown → AreSound shown → IfOk result (λ shelves. shelves ≡ shown)) }
    ensures unchanged { OverRows S.Store conn.old conn.new (λ t old new. OnOk result (IsUnchanged old new)) }
    ensures err { ReadUndone S.Store conn.old conn.new result }
    ensures survives { CommitsNoRows S.Store conn.old conn.new }
{
    // For the prover alone: the configuration is what its text spells, so no two suites have one codename.
    let _ = config.text();
    let mut shelves = Shelves::new(alloc);
    for (id, row) in select_items(alloc, conn)? {
        let refs = refs_in_order(refs_of(alloc, conn, id)?)?;
        put_row(alloc, &mut shelves, config.suites(), row, refs)?;
    }
    Ok(shelves)
}
