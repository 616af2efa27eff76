//! A body that came and is whole.
//!
//! If a body of the same print is there, the two are compared piece by piece, and the new one is taken away.

ghost use Rattle.std.specs.Prelude.{◌≡◌, unwrap_or, IsTrue, IfOk};
ghost use Rattle.tables.specs.Rows.{Changes, next_in};
ghost use Rattle.tables_bodies.specs.Known.{without_known};
ghost use Rattle.tables_meaning.specs.Coming.{ended_number, with_ended, with_new_print};
ghost use Rattle.tables.specs.Calls.{CommitsNothing, Inside, IsSame, KeepsCommitted, WritesAnd};

use crate::removing::remove_body;
use sqlite::{Alter, Error, Transaction};
use std::alloc::Global;
use sums::Print;
use tables::bodies::{body_with_print_inside, insert_body, set_print};

/// Gives the body that came its print, or takes it away if a body of that print is there. Answers the number of the body of this
/// print.
pub(crate) fn store_whole<S: Alter>(
    alloc: Global,
    tx: &mut Transaction<'_, S>,
    body: Option<u64>,
    print: &Print,
) -> Result<u64, Error>
    ensures same_reference { IsSame tx.old tx.new }
    ensures ok { WritesAnd S.Store tx.old tx.new result (with_ended body print.now) (λ id t. id ≡ ended_number body print.now t) }
    ensures err { KeepsCommitted S.Store tx.old tx.new result }
    ensures survives { CommitsNothing S.Store tx.old tx.new }
{
    let found = body_with_print_inside(alloc, tx, print)?;
    match found {
        Some(stored) => remove_known(tx, body, stored),
        None => print_body(tx, body, print),
    }
}

/// Takes the body that came away, if it has a row, since a body of its print is there, under this number. Answers this
/// number.
fn remove_known<S: Alter>(
    tx: &mut Transaction<'_, S>,
    body: Option<u64>,
    stored: u64,
) -> Result<u64, Error>
    ensures same_reference { IsSame tx.old tx.new }
    ensures ok { Inside S.Store tx.old tx.new (λ old new. IsTrue old.is_open → IfOk result (λ id. Changes old new (without_known body) × (id ≡ stored))) }
    ensures err { KeepsCommitted S.Store tx.old tx.new result }
    ensures survives { CommitsNothing S.Store tx.old tx.new }
{
    match body {
        Some(id) => {
            remove_body(tx, id)?;
            Ok(stored)
        }
        None => Ok(stored),
    }
}

/// Gives the body that came its print, since no body of this print is there. Answers its number.
fn print_body<S: Alter>(
    tx: &mut Transaction<'_, S>,
    body: Option<u64>,
    print: &Print,
) -> Result<u64, Error>
    ensures same_reference { IsSame tx.old tx.new }
    ensures ok { WritesAnd S.Store tx.old tx.new result (with_new_print body print.now) (λ id t. id ≡ unwrap_or body (next_in t.bodies)) }
    ensures err { KeepsCommitted S.Store tx.old tx.new result }
    ensures survives { CommitsNothing S.Store tx.old tx.new }
{
    match body {
        Some(id) => {
            set_print(tx, id, print)?;
            Ok(id)
        }
        None => insert_body(tx, print),
    }
}
