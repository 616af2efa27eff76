//! A file whose whole body came: it arrives under its name.

ghost use Rattle.std.specs.Prelude.{◌≡◌, ◌<◌, false, option_map, OnOk};
ghost use Rattle.tables_bodies.specs.Counting.{is_new_at_end};
ghost use Rattle.tables_meaning.specs.Coming.{IsNoOther, ended_number, with_ended, with_finished, with_received};
ghost use Rattle.tables_meaning.specs.Transactions.{IsDone};
ghost use Rattle.tables.specs.Calls.{CommitsNothing, IsSame, KeepsCommitted, OnCleanDisk, WritesAnd};
ghost use Rattle.tables_meaning.specs.Calls.{Undoes};
ghost use Rattle.tables_bodies.specs.Calls.{AnswersOf, CommitsWhere};

use crate::arriving::{Arriving, receive};
use crate::listing::{entries_of, record_inside};
use crate::other::refuse_other;
use crate::whole::store_whole;
use sqlite::{Alter, Connection, Error, Transaction};
use std::alloc::Global;
use sums::{Entry, Print};

/// A file whose whole body came: its name, the number of its body, or nothing if it has no byte, the number of its pieces, its
/// print, for how many seconds an arrival counts, or nothing if it counts for good, and the moment.
#[derive(Clone, Copy)]
pub struct Finished<'a> {
    pub name: &'a str,
    pub body: Option<u64>,
    pub pieces: u64,
    pub print: Print,
    pub span: Option<u64>,
    pub moment: u64,
}

/// Makes the body of a file whole, and stores the arrival and what the file lists. Answers whether the arrival is new at the
/// moment.
fn end_body<S: Alter>(
    alloc: Global,
    tx: &mut Transaction<'_, S>,
    finished: &Finished<'_>,
    listed: Option<&[Entry]>,
) -> Result<bool, Error>
    ensures same_reference { IsSame tx.old tx.new }
    ensures ok { WritesAnd S.Store tx.old tx.new result (λ t. with_received finished.now.name.now (ended_number finished.now.body finished.now.print t) finished.now.print finished.now.moment (option_map (λ entries. entries.now) listed.entry) (with_ended finished.now.body finished.now.print t)) (λ new t. new ≡ is_new_at_end finished.now.name.now finished.now.body finished.now.print finished.now.span finished.now.moment t) }
    ensures err { KeepsCommitted S.Store tx.old tx.new result }
    ensures survives { CommitsNothing S.Store tx.old tx.new }
{
    let body = store_whole(alloc, tx, finished.body, &finished.print)?;
    let file = Arriving {
        name: finished.name,
        print: finished.print,
        span: finished.span,
        moment: finished.moment,
    };
    receive(alloc, tx, &file, body, listed)
}

/// Takes the body that came as one that has arrived, inside a transaction. A body whose print is that of another body is
/// refused. Answers whether the arrival is new.
fn finish_inside<S: Alter>(
    alloc: Global,
    tx: &mut Transaction<'_, S>,
    finished: &Finished<'_>,
) -> Result<bool, Error>
    requires { finished.now.pieces < 18_446_744_073_709_551_615 }
    ensures same_reference { IsSame tx.old tx.new }
    ensures ok { WritesAnd S.Store tx.old tx.new result (with_finished finished.now.name.now finished.now.body finished.now.print finished.now.moment) (λ new t. IsNoOther finished.now.body finished.now.pieces finished.now.print t
        × (new ≡ is_new_at_end finished.now.name.now finished.now.body finished.now.print finished.now.span finished.now.moment t)) }
    ensures err { KeepsCommitted S.Store tx.old tx.new result }
    ensures survives { CommitsNothing S.Store tx.old tx.new }
{
    refuse_other(alloc, tx, finished.body, finished.pieces, &finished.print)?;
    let found = record_inside(alloc, tx, finished.name, finished.body)?;
    end_body(alloc, tx, finished, entries_of(&found))
}

/// Takes the body that came as one that has arrived, in one transaction. Answers whether the arrival is new.
pub fn finish_body<S: Alter>(
    alloc: Global,
    conn: &mut Connection<S>,
    finished: &Finished<'_>,
) -> Result<bool, Error>
    requires idle { conn.old.in_transaction ≡ false }
    requires counted { finished.now.pieces < 18_446_744_073_709_551_615 }
    ensures idle { conn.new.in_transaction ≡ false }
    ensures done { OnCleanDisk S.Store conn.old conn.new (λ old new. OnOk result (IsDone old new (with_finished finished.now.name.now finished.now.body finished.now.print finished.now.moment))) }
    ensures answer { AnswersOf S.Store conn.old conn.new result (λ new t. IsNoOther finished.now.body finished.now.pieces finished.now.print t
        × (new ≡ is_new_at_end finished.now.name.now finished.now.body finished.now.print finished.now.span finished.now.moment t)) }
    ensures undone { Undoes S.Store conn.old conn.new result }
    ensures crash { CommitsWhere S.Store conn.old conn.new (with_finished finished.now.name.now finished.now.body finished.now.print finished.now.moment)
        (IsNoOther finished.now.body finished.now.pieces finished.now.print) }
{
    let mut tx = conn.transaction();
    let new = finish_inside(alloc, &mut tx, finished)?;
    tx.commit()?;
    Ok(new)
}
