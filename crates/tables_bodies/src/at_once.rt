//! A file whose body is one piece: it comes and arrives in one transaction.
//!
//! A file of at most 65,536 bytes takes one commit: its row, its piece, its print and what arrives. If the rows of a body that was cut
//! short are left, they go in a commit of their own first, and the piece and the end are then two. A file without a byte takes one.
//!
//! The body is looked for by its print first. If one of that print is there it has to be one piece of the same bytes, and no row of a body
//! is added.

ghost use Rattle.std.specs.Prelude.{◌≡◌, false, OnOk};
ghost use Rattle.tables.specs.Rows.{next_in};
ghost use Rattle.tables_bodies.specs.AtOnce.{FitsOnePiece, HasNoOtherPiece, is_new_at_once, with_delivery_at_once, with_one_piece};
ghost use Rattle.tables_meaning.specs.Making.{number_with, with_bytes};
ghost use Rattle.tables_meaning.specs.Transactions.{IsDone};
ghost use Rattle.tables.specs.Calls.{CommitsNothing, IsSame, KeepsCommitted, OnCleanDisk, WritesAnd};
ghost use Rattle.tables_meaning.specs.Calls.{Undoes};
ghost use Rattle.tables_bodies.specs.Calls.{AnswersOf, CommitsWhere};

use crate::arriving::{Arriving, receive};
use crate::listing::{entries_of, record_of};
use crate::other::refuse_other_bytes;
use sqlite::{Alter, Connection, Error, Transaction};
use std::alloc::Global;
use sums::Print;
use tables::bodies::{body_with_print_inside, insert_body};
use tables::pieces::insert_piece;

/// A file whose body is one piece: its name, its bytes, their print, for how many seconds an arrival counts, or nothing if it counts
/// for good, and the moment.
#[derive(Clone, Copy)]
pub struct OnePiece<'a> {
    pub name: &'a str,
    pub bytes: &'a [u8],
    pub print: Print,
    pub span: Option<u64>,
    pub moment: u64,
}

/// Adds a whole body of one piece, and answers its number.
fn add_body<S: Alter>(
    tx: &mut Transaction<'_, S>,
    print: &Print,
    bytes: &[u8],
) -> Result<u64, Error>
    ensures same_reference { IsSame tx.old tx.new }
    ensures ok { WritesAnd S.Store tx.old tx.new result (with_one_piece print.now bytes.now) (λ id t. id ≡ next_in t.bodies) }
    ensures err { KeepsCommitted S.Store tx.old tx.new result }
    ensures survives { CommitsNothing S.Store tx.old tx.new }
{
    let id = insert_body(tx, print)?;
    insert_piece(tx, id, 1, bytes)?;
    Ok(id)
}

/// Stores a body of one piece, unless it is there, and answers its number. It is refused if another body of its print is there.
fn store_body<S: Alter>(
    alloc: Global,
    tx: &mut Transaction<'_, S>,
    file: &OnePiece<'_>,
) -> Result<u64, Error>
    requires one_piece { FitsOnePiece file.now.bytes.now }
    ensures same_reference { IsSame tx.old tx.new }
    ensures ok { WritesAnd S.Store tx.old tx.new result (with_bytes file.now.print file.now.bytes.now) (λ id t. HasNoOtherPiece file.now.print file.now.bytes.now t
        × (id ≡ number_with file.now.print (with_bytes file.now.print file.now.bytes.now t))) }
    ensures err { KeepsCommitted S.Store tx.old tx.new result }
    ensures survives { CommitsNothing S.Store tx.old tx.new }
{
    let found = body_with_print_inside(alloc, tx, &file.print)?;
    match found {
        Some(stored) => {
            refuse_other_bytes(alloc, tx, stored, file.bytes)?;
            Ok(stored)
        }
        None => add_body(tx, &file.print, file.bytes),
    }
}

/// Takes the file as one that has arrived, inside a transaction. A file whose print is that of another body is refused.
/// Answers whether the arrival is new.
fn take_inside<S: Alter>(
    alloc: Global,
    tx: &mut Transaction<'_, S>,
    file: &OnePiece<'_>,
) -> Result<bool, Error>
    requires one_piece { FitsOnePiece file.now.bytes.now }
    ensures same_reference { IsSame tx.old tx.new }
    ensures ok { WritesAnd S.Store tx.old tx.new result (with_delivery_at_once file.now.name.now file.now.bytes.now file.now.print file.now.moment) (λ new t. HasNoOtherPiece file.now.print file.now.bytes.now t
        × (new ≡ is_new_at_once file.now.name.now file.now.bytes.now file.now.print file.now.span file.now.moment t)) }
    ensures err { KeepsCommitted S.Store tx.old tx.new result }
    ensures survives { CommitsNothing S.Store tx.old tx.new }
{
    let found = record_of(alloc, file.name, file.bytes)?;
    let body = store_body(alloc, tx, file)?;
    let arriving = Arriving {
        name: file.name,
        print: file.print,
        span: file.span,
        moment: file.moment,
    };
    receive(alloc, tx, &arriving, body, entries_of(&found))
}

/// Takes a file whose body is one piece as one that has arrived, in one transaction. Answers whether the arrival is new.
pub fn take_one_piece<S: Alter>(
    alloc: Global,
    conn: &mut Connection<S>,
    file: &OnePiece<'_>,
) -> Result<bool, Error>
    requires idle { conn.old.in_transaction ≡ false }
    requires one_piece { FitsOnePiece file.now.bytes.now }
    ensures idle { conn.new.in_transaction ≡ false }
    ensures done { OnCleanDisk S.Store conn.old conn.new (λ old new. OnOk result (IsDone old new (with_delivery_at_once file.now.name.now file.now.bytes.now file.now.print file.now.moment))) }
    ensures answer { AnswersOf S.Store conn.old conn.new result (λ new t. HasNoOtherPiece file.now.print file.now.bytes.now t
        × (new ≡ is_new_at_once file.now.name.now file.now.bytes.now file.now.print file.now.span file.now.moment t)) }
    ensures undone { Undoes S.Store conn.old conn.new result }
    ensures crash { CommitsWhere S.Store conn.old conn.new (with_delivery_at_once file.now.name.now file.now.bytes.now file.now.print file.now.moment)
        (HasNoOtherPiece file.now.print file.now.bytes.now) }
{
    let mut tx = conn.transaction();
    let new = take_inside(alloc, &mut tx, file)?;
    tx.commit()?;
    Ok(new)
}
