//! A body that comes: the one that was begun last, and a keeper's calls on it over the connection alone.

ghost use Rattle.std.specs.Prelude.{if◌then◌else◌, ◌≡◌, [], Some, None, true, false, option_map, ◌≤◌, ◌<◌, ◌+◌, ◌%◌, ◌++◌, length, IfOk, OnOk};
ghost use Rattle.std.specs.Option.{option_and_then, option_map_or};
ghost use Rattle.sums.specs.Prints.{Holds, print as print_of};
ghost use Rattle.book.specs.Book.{latest};
ghost use Rattle.tables.specs.Rows.{tables_in};
ghost use Rattle.tables_meaning.specs.Coming.{Comes};
ghost use Rattle.tables_bodies.specs.AtOnce.{FitsOnePiece};
ghost use Rattle.tables_bodies.specs.declared.coming.Begun.{Begun};
ghost use Rattle.keep_tables.specs.AtOnce.{arrives_at_once};
ghost use Rattle.tables_meaning.specs.Calls.{BookStays, CommitsOnly, Delivers, StaysOpen, Undoes, WithComing, WithPieces};
ghost use Rattle.keep_tables.specs.ConnectionCalls.{Arrives, NothingComes, OnCommitted, OverFile, OverFinished, SaysNew};

use book::PIECE_SIZE;
use sqlite::{Alter, Connection, Error, ErrorCode};
use std::alloc::Global;
use sums::Printer;
use tables::probe::probe;
use tables_bodies::{
    Begun, Finished, OnePiece, finish_body, remove_all, store_piece, take_one_piece,
};

/// A body without a byte.
pub(crate) fn begun() -> Begun
    ensures empty { (result.body ≡ None) × (result.pieces ≡ 0) × (result.is_coming ≡ true) }
    ensures printer { Holds result.printer [] }
{
    Begun {
        body: None,
        pieces: 0,
        printer: Printer::new(),
        is_coming: true,
    }
}

/// The number of the body that was begun, if it has one.
pub(crate) fn number_of(begun: &Option<Begun>) -> Option<u64>
    ensures { result ≡ option_and_then (λ b. b.body) begun.now }
{
    match begun {
        Some(begun) => begun.body,
        None => None,
    }
}

/// Whether a body is coming.
pub(crate) fn is_coming(begun: &Option<Begun>) -> bool
    ensures { result ≡ option_map_or (λ b. b.is_coming) begun.now false }
{
    match begun {
        Some(begun) => begun.is_coming,
        None => false,
    }
}

/// Ends the coming of a body. What was begun keeps its number, by which its rows are removed later.
pub(crate) fn stop(begun: &mut Option<Begun>)
    ensures { begun.new ≡ option_map (λ (b : Begun). record b { is_coming = false }) begun.old }
{
    if let Some(begun) = begun {
        begun.is_coming = false;
    }
}

/// Forgets what was begun, if its rows went.
pub(crate) fn forget_if(begun: &mut Option<Begun>, went: bool)
    ensures { begun.new ≡ (if went then None else begun.old) }
{
    if went {
        *begun = None;
    }
}

/// Whether a body is one piece, and nothing is begun that has a row.
pub(crate) fn is_one_piece(begun: &Option<Begun>, body: &[u8]) -> bool
    ensures { result ≡ arrives_at_once begun.now body.now }
{
    if body.is_empty() || body.len() > PIECE_SIZE {
        return false;
    }
    number_of(begun).is_none()
}

/// Takes away the rows of a body that came so far.
pub(crate) fn forget_body<S: Alter>(conn: &mut Connection<S>, id: u64) -> Result<(), Error>
    requires idle { conn.old.in_transaction ≡ false }
    ensures idle { conn.new.in_transaction ≡ false }
    ensures open { StaysOpen S.Store conn.old conn.new result }
    ensures done { OnCommitted S.Store conn.old conn.new (λ old new. WithPieces old (Some id) (λ config judged shown dates count bytes. OnOk result (BookStays old new config judged shown dates × NothingComes new))) }
    ensures undone { Undoes S.Store conn.old conn.new result }
    ensures crash { CommitsOnly S.Store conn.old conn.new (λ old db. WithPieces old.committed (Some id) (λ config judged shown dates count bytes. BookStays old.committed db config judged shown dates)) }
{
    // For the prover alone: outside a transaction the connection has what is committed.
    let _idle = conn.is_autocommit();
    remove_all(conn, &[id])
}

/// Makes room for a body: removes the rows of the one before it, which has this number. Without a number the database is asked
/// whether it serves.
pub(crate) fn clear<S: Alter>(
    alloc: Global,
    conn: &mut Connection<S>,
    body: Option<u64>,
) -> Result<(), Error>
    requires idle { conn.old.in_transaction ≡ false }
    ensures idle { conn.new.in_transaction ≡ false }
    ensures open { StaysOpen S.Store conn.old conn.new result }
    ensures done { OnCommitted S.Store conn.old conn.new (λ old new. WithPieces old body (λ config judged shown dates count bytes. OnOk result (BookStays old new config judged shown dates × NothingComes new))) }
    ensures undone { Undoes S.Store conn.old conn.new result }
    ensures crash { CommitsOnly S.Store conn.old conn.new (λ old db. WithPieces old.committed body (λ config judged shown dates count bytes. BookStays old.committed db config judged shown dates)) }
{
    match body {
        Some(id) => forget_body(conn, id),
        None => probe(alloc, conn),
    }
}

/// Stores the next piece of the body that is coming, after `count` pieces. Answers the number of the body.
pub(crate) fn take_piece<S: Alter>(
    conn: &mut Connection<S>,
    body: Option<u64>,
    count: u64,
    bytes: &[u8],
) -> Result<u64, Error>
    requires idle { conn.old.in_transaction ≡ false }
    ensures idle { conn.new.in_transaction ≡ false }
    ensures open { StaysOpen S.Store conn.old conn.new result }
    ensures done { OnCommitted S.Store conn.old conn.new (λ old new. WithComing old body count (λ config judged shown dates so_far. length so_far % 65536 ≡ 0
        → 0 < length bytes.now → length bytes.now ≤ 65536 → IfOk result (λ id. BookStays old new config judged shown dates
        × Comes (tables_in new) (Some id) (count + 1) (so_far ++ bytes.now)))) }
    ensures counted { OnOk result (count < 18_446_744_073_709_551_615) }
    ensures undone { Undoes S.Store conn.old conn.new result }
    ensures crash { CommitsOnly S.Store conn.old conn.new (λ old db. WithComing old.committed body count (λ config judged shown dates so_far. length so_far % 65536 ≡ 0
        → 0 < length bytes.now → length bytes.now ≤ 65536 → BookStays old.committed db config judged shown dates)) }
{
    // For the prover alone: outside a transaction the connection has what is committed.
    let _idle = conn.is_autocommit();
    let Some(number) = count.checked_add(1) else {
        return Err(Error::SqliteFailure(ErrorCode::TooBig));
    };
    store_piece(conn, body, number, bytes)
}

/// Takes the body that came as one that has arrived, and answers whether that is new at the moment.
pub(crate) fn finish_delivery<S: Alter>(
    alloc: Global,
    conn: &mut Connection<S>,
    finished: &Finished<'_>,
) -> Result<bool, Error>
    requires idle { conn.old.in_transaction ≡ false }
    requires in_time { finished.now.moment ≤ latest }
    ensures idle { conn.new.in_transaction ≡ false }
    ensures open { StaysOpen S.Store conn.old conn.new result }
    ensures done { OnCommitted S.Store conn.old conn.new (λ old new. OverFinished old finished.now (Arrives result old new)) }
    ensures new { OnCommitted S.Store conn.old conn.new (λ old new. OverFinished old finished.now (SaysNew result finished.now.span old)) }
    ensures undone { Undoes S.Store conn.old conn.new result }
    ensures crash { CommitsOnly S.Store conn.old conn.new (λ old db. OverFinished old.committed finished.now (λ delivery config judged shown dates. Delivers old.committed db config judged shown dates delivery)) }
{
    // For the prover alone: outside a transaction the connection has what is committed.
    let _idle = conn.is_autocommit();
    if finished.pieces >= u64::MAX {
        return Err(Error::SqliteFailure(ErrorCode::TooBig));
    }
    finish_body(alloc, conn, finished)
}

/// Takes a file whose body is one piece as one that has arrived, if no other body is coming, and answers whether that is new at the
/// moment.
pub(crate) fn deliver_at_once<S: Alter>(
    alloc: Global,
    conn: &mut Connection<S>,
    file: &OnePiece<'_>,
) -> Result<bool, Error>
    requires idle { conn.old.in_transaction ≡ false }
    requires in_time { file.now.moment ≤ latest }
    requires one_piece { FitsOnePiece file.now.bytes.now }
    requires printed { file.now.print ≡ print_of file.now.bytes.now }
    ensures idle { conn.new.in_transaction ≡ false }
    ensures open { StaysOpen S.Store conn.old conn.new result }
    ensures done { OnCommitted S.Store conn.old conn.new (λ old new. OverFile old file.now (Arrives result old new)) }
    ensures new { OnCommitted S.Store conn.old conn.new (λ old new. OverFile old file.now (SaysNew result file.now.span old)) }
    ensures undone { Undoes S.Store conn.old conn.new result }
    ensures crash { CommitsOnly S.Store conn.old conn.new (λ old db. OverFile old.committed file.now (λ delivery config judged shown dates. Delivers old.committed db config judged shown dates delivery)) }
{
    // For the prover alone: outside a transaction the connection has what is committed.
    let _idle = conn.is_autocommit();
    take_one_piece(alloc, conn, file)
}
