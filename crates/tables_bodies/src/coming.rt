//! A body that comes, piece by piece.
//!
//! A body that comes in pieces is stored before it is known whether it is there. Its row is written with its first piece, and no row
//! before that. Each piece is a commit, and the end is one more.
//!
//! If a piece or the end is refused, the rows that came before stay. No book has them, and nothing names them: they go when the next body
//! begins, by their number, or at the next opening. To take them away at once would be another transaction in a call that has one already.
//! After a reader that ended or failed they are taken away at once (`abandon`). If that fails they stay too, and the reader's fault is
//! reported.

ghost use Rattle.std.specs.Prelude.{◌≡◌, None, false, unwrap_or, OnOk};
ghost use Rattle.sqlite.specs.State.{Survives};
ghost use Rattle.sqlite.specs.Held.{state};
ghost use Rattle.tables.specs.Rows.{next_in};
ghost use Rattle.tables_meaning.specs.Coming.{with_next_piece};
ghost use Rattle.tables_meaning.specs.Transactions.{IsDone, MayCommit};
ghost use Rattle.tables.specs.Calls.{CommitsNothing, IsSame, KeepsCommitted, OnCleanDisk, WritesAnd};
ghost use Rattle.tables_meaning.specs.Calls.{Undoes};
ghost use Rattle.tables_bodies.specs.Calls.{AnswersOf};

use sqlite::{Alter, Connection, Error, Transaction};
use sums::Printer;
use tables::bodies::insert_begun;
use tables::pieces::insert_piece;

/// A body that was begun: its number once a piece is there, how many pieces it has, their print so far, and whether it is still
/// coming. A body that is no longer coming is removed when the next one begins.
#[derive(Drop)]
pub struct Begun {
    pub body: Option<u64>,
    pub pieces: u64,
    pub printer: Printer,
    pub is_coming: bool,
}

/// Adds a body that is not whole, with this piece of it, and answers its number.
fn add_first<S: Alter>(tx: &mut Transaction<'_, S>, number: u64, bytes: &[u8]) -> Result<u64, Error>
    ensures same_reference { IsSame tx.old tx.new }
    ensures ok { WritesAnd S.Store tx.old tx.new result (with_next_piece None number bytes.now) (λ id t. id ≡ next_in t.bodies) }
    ensures err { KeepsCommitted S.Store tx.old tx.new result }
    ensures survives { CommitsNothing S.Store tx.old tx.new }
{
    let id = insert_begun(tx)?;
    insert_piece(tx, id, number, bytes)?;
    Ok(id)
}

/// Adds the next piece of a body, under this number; with the first one comes its row. Answers the number of the body.
fn add_piece<S: Alter>(
    tx: &mut Transaction<'_, S>,
    body: Option<u64>,
    number: u64,
    bytes: &[u8],
) -> Result<u64, Error>
    ensures same_reference { IsSame tx.old tx.new }
    ensures ok { WritesAnd S.Store tx.old tx.new result (with_next_piece body number bytes.now) (λ id t. id ≡ unwrap_or body (next_in t.bodies)) }
    ensures err { KeepsCommitted S.Store tx.old tx.new result }
    ensures survives { CommitsNothing S.Store tx.old tx.new }
{
    match body {
        Some(id) => {
            insert_piece(tx, id, number, bytes)?;
            Ok(id)
        }
        None => add_first(tx, number, bytes),
    }
}

/// Stores the next piece of a body, under this number, in one transaction. Answers the number of the body.
pub fn store_piece<S: Alter>(
    conn: &mut Connection<S>,
    body: Option<u64>,
    number: u64,
    bytes: &[u8],
) -> Result<u64, Error>
    requires idle { conn.old.in_transaction ≡ false }
    ensures idle { conn.new.in_transaction ≡ false }
    ensures done { OnCleanDisk S.Store conn.old conn.new (λ old new. OnOk result (IsDone old new (with_next_piece body number bytes.now))) }
    ensures answer { AnswersOf S.Store conn.old conn.new result (λ id t. id ≡ unwrap_or body (next_in t.bodies)) }
    ensures undone { Undoes S.Store conn.old conn.new result }
    ensures crash { Survives (state S.Store conn.old) (state S.Store conn.new) (MayCommit (state S.Store conn.old) (with_next_piece body number bytes.now)) }
{
    let mut tx = conn.transaction();
    let id = add_piece(&mut tx, body, number, bytes)?;
    tx.commit()?;
    Ok(id)
}
