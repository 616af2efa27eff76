//! The reads of a keeper, over the connection alone.

ghost use Rattle.std.specs.Prelude.{◌≡◌, ℕ, List, Some, find, map, false, IsTrue, IfOk, IfSome, OnOk};
ghost use Rattle.std.specs.Option.{option_map};
ghost use Rattle.sqlite.specs.Held.{state};
ghost use Rattle.book.specs.Book.{arrived_file, at_moment, due, is_arrival_of, is_kept, text_at, upload_of, waiting_list};
ghost use Rattle.book.specs.Keeping.{sign_of};
ghost use Rattle.book.specs.Pieces.{piece_of_body, piece_value};
ghost use Rattle.book.specs.declared.change.Judgement.{Judgement};
ghost use Rattle.sums.specs.Prints.{print as print_of};
ghost use Rattle.suites.specs.Shelves.{ShelvesValue};
ghost use Rattle.tables_meaning.specs.Archives.{IsRead, KeepsArchive, book_in_database};
ghost use Rattle.tables.specs.Calls.{OnCleanDisk};
ghost use Rattle.tables_meaning.specs.Calls.{IsOpenOverArchive, WithBook};
ghost use Rattle.keep_tables.specs.ConnectionCalls.{OverSpan};

use crate::arrived::{arrived_body, arrived_files};
use crate::shelves::read_shelves;
use crate::text_prints::is_of_another;
use crate::uploads::{due_uploads, waiting_uploads};
use book::{ArrivedFile, FilePiece, IndexText, Waiting, is_kept, print_of_text};
use rules::Config;
use sqlite::{Alter, Connection, Error};
use std::alloc::Global;
use suites::{Shelves, Upload};
use sums::Print;
use tables::probe::probe;
use tables::texts::select_text;
use tables_bodies::{file_body, file_piece};

/// The uploads that are due at the moment, in the order of judging. `seconds` says for how long arrivals count, or nothing if
/// they count for good.
pub fn read_due<S: Alter>(
    alloc: Global,
    conn: &mut Connection<S>,
    seconds: Option<u64>,
    moment: u64,
) -> Result<Vec<Upload>, Error>
    requires idle { conn.old.in_transaction ≡ false }
    ensures idle { conn.new.in_transaction ≡ false }
    ensures read { IsRead (state S.Store conn.old) (state S.Store conn.new) }
    ensures open { IsOpenOverArchive S.Store conn.old conn.new result }
    ensures uploads { OnCleanDisk S.Store conn.old conn.new (λ old new. OverSpan old.committed seconds (λ config judged shown dates.
        IfOk result (λ uploads. uploads.items ≡ map (upload_of (at_moment moment (book_in_database old.committed config judged shown dates)).arrivals) (due (at_moment moment (book_in_database old.committed config judged shown dates)))))) }
    // The names and prints of the uploads.
    ensures signs { OnCleanDisk S.Store conn.old conn.new (λ old new. OverSpan old.committed seconds (λ config judged shown dates.
        IfOk result (λ uploads. map (λ u. (u.name, u.print)) uploads.items ≡ map sign_of (due (at_moment moment (book_in_database old.committed config judged shown dates)))))) }
{
    // For the prover alone: outside a transaction the connection has what is committed.
    let _settled = conn.is_autocommit();
    probe(alloc, conn)?;
    due_uploads(alloc, conn, seconds, moment)
}

/// The uploads without a verdict whose .changes counts at the moment, each with what it lacks: its entries that have not arrived
/// or no longer count, in the order of their names.
pub fn read_waiting<S: Alter>(
    alloc: Global,
    conn: &mut Connection<S>,
    seconds: Option<u64>,
    moment: u64,
) -> Result<Vec<Waiting>, Error>
    requires idle { conn.old.in_transaction ≡ false }
    ensures idle { conn.new.in_transaction ≡ false }
    ensures read { IsRead (state S.Store conn.old) (state S.Store conn.new) }
    ensures open { IsOpenOverArchive S.Store conn.old conn.new result }
    ensures waiting { OnCleanDisk S.Store conn.old conn.new (λ old new. OverSpan old.committed seconds (λ config judged shown dates.
        IfOk result (λ all. all.items ≡ waiting_list moment (book_in_database old.committed config judged shown dates)))) }
{
    // For the prover alone: outside a transaction the connection has what is committed.
    let _settled = conn.is_autocommit();
    probe(alloc, conn)?;
    waiting_uploads(alloc, conn, seconds, moment)
}

/// What has arrived, without its bytes, in the order of first deliveries.
pub fn read_arrivals<S: Alter>(
    alloc: Global,
    conn: &mut Connection<S>,
) -> Result<Vec<ArrivedFile>, Error>
    requires idle { conn.old.in_transaction ≡ false }
    ensures idle { conn.new.in_transaction ≡ false }
    ensures read { IsRead (state S.Store conn.old) (state S.Store conn.new) }
    ensures open { IsOpenOverArchive S.Store conn.old conn.new result }
    ensures arrivals { OnCleanDisk S.Store conn.old conn.new (λ old new. WithBook old.committed (λ config judged shown dates. IfOk result (λ files. files.items ≡ map arrived_file (book_in_database old.committed config judged shown dates).arrivals))) }
{
    // For the prover alone: outside a transaction the connection has what is committed.
    let _settled = conn.is_autocommit();
    probe(alloc, conn)?;
    arrived_files(alloc, conn)
}

/// The bytes of the body of a print that arrived under a name.
pub fn read_arrived<S: Alter>(
    alloc: Global,
    conn: &mut Connection<S>,
    name: &str,
    print: &Print,
) -> Result<Option<Vec<u8>>, Error>
    requires idle { conn.old.in_transaction ≡ false }
    ensures idle { conn.new.in_transaction ≡ false }
    ensures read { IsRead (state S.Store conn.old) (state S.Store conn.new) }
    ensures open { IsOpenOverArchive S.Store conn.old conn.new result }
    ensures body { OnCleanDisk S.Store conn.old conn.new (λ old new. WithBook old.committed (λ config judged shown dates. IfOk result (λ found.
        option_map (λ body. body.items) found ≡ option_map (λ a. a.body) (find (is_arrival_of name.now print.now) (book_in_database old.committed config judged shown dates).arrivals)))) }
{
    // For the prover alone: outside a transaction the connection has what is committed.
    let _settled = conn.is_autocommit();
    probe(alloc, conn)?;
    arrived_body(alloc, conn, name, print)
}

/// The bytes of the file of the pool at a path.
pub fn read_file<S: Alter>(
    alloc: Global,
    conn: &mut Connection<S>,
    path: &str,
) -> Result<Option<Vec<u8>>, Error>
    requires idle { conn.old.in_transaction ≡ false }
    ensures idle { conn.new.in_transaction ≡ false }
    ensures read { IsRead (state S.Store conn.old) (state S.Store conn.new) }
    ensures open { IsOpenOverArchive S.Store conn.old conn.new result }
    ensures file { OnCleanDisk S.Store conn.old conn.new (λ old new. WithBook old.committed (λ config judged shown dates. IfOk result (λ file. option_map (λ body. body.items) file ≡ (book_in_database old.committed config judged shown dates).files path.now))) }
{
    // For the prover alone: outside a transaction the connection has what is committed.
    let _settled = conn.is_autocommit();
    probe(alloc, conn)?;
    file_body(alloc, conn, path)
}

/// The piece at a place, from 0, of the file of the pool at a path.
pub fn read_file_piece<S: Alter>(
    alloc: Global,
    conn: &mut Connection<S>,
    path: &str,
    number: u32,
) -> Result<Option<FilePiece>, Error>
    requires idle { conn.old.in_transaction ≡ false }
    ensures idle { conn.new.in_transaction ≡ false }
    ensures read { IsRead (state S.Store conn.old) (state S.Store conn.new) }
    ensures open { IsOpenOverArchive S.Store conn.old conn.new result }
    ensures piece { OnCleanDisk S.Store conn.old conn.new (λ old new. WithBook old.committed (λ config judged shown dates. IfOk result (λ piece. option_map piece_value piece ≡ option_map (piece_of_body number) ((book_in_database old.committed config judged shown dates).files path.now)))) }
{
    // For the prover alone: outside a transaction the connection has what is committed.
    let _settled = conn.is_autocommit();
    probe(alloc, conn)?;
    file_piece(alloc, conn, path, number)
}

/// The text of the index at a path.
pub fn read_text<S: Alter>(
    alloc: Global,
    conn: &mut Connection<S>,
    path: &str,
) -> Result<Option<Vec<u8>>, Error>
    requires idle { conn.old.in_transaction ≡ false }
    ensures idle { conn.new.in_transaction ≡ false }
    ensures read { IsRead (state S.Store conn.old) (state S.Store conn.new) }
    ensures open { IsOpenOverArchive S.Store conn.old conn.new result }
    ensures text { OnCleanDisk S.Store conn.old conn.new (λ old new. WithBook old.committed (λ config judged shown dates. IfOk result (λ text. option_map (λ body. body.items) text ≡ text_at (book_in_database old.committed config judged shown dates) path.now))) }
{
    // For the prover alone: outside a transaction the connection has what is committed.
    let _settled = conn.is_autocommit();
    probe(alloc, conn)?;
    match select_text(alloc, conn, path)? {
        Some(text) => Ok(Some(text.body.into_vec())),
        None => Ok(None),
    }
}

/// What the rows show.
fn read_shown<S: Alter>(
    alloc: Global,
    conn: &mut Connection<S>,
    config: &Config,
) -> Result<Shelves, Error>
    requires idle { conn.old.in_transaction ≡ false }
    ensures idle { conn.new.in_transaction ≡ false }
    ensures read { IsRead (state S.Store conn.old) (state S.Store conn.new) }
    ensures open { IsOpenOverArchive S.Store conn.old conn.new result }
    ensures shown { OnCleanDisk S.Store conn.old conn.new (λ old new. (judged : List Judgement) (shown : ShelvesValue) (dates : List ℕ)
        → KeepsArchive old.committed config.now judged shown dates → IfOk result (λ shelves. shelves ≡ shown)) }
{
    // For the prover alone: outside a transaction the connection has what is committed.
    let _settled = conn.is_autocommit();
    probe(alloc, conn)?;
    read_shelves(alloc, conn, config)
}

/// Asks the database for nothing of its own, and so whether it serves.
pub fn read_nothing<S: Alter>(alloc: Global, conn: &mut Connection<S>) -> Result<(), Error>
    requires idle { conn.old.in_transaction ≡ false }
    ensures idle { conn.new.in_transaction ≡ false }
    ensures read { IsRead (state S.Store conn.old) (state S.Store conn.new) }
    ensures open { OnCleanDisk S.Store conn.old conn.new (λ old new. OnOk result (IsTrue new.is_open)) }
{
    probe(alloc, conn)
}

/// What the suites show: the shelves that are at hand, if the database still serves, or else what its rows show.
pub fn show<S: Alter>(
    alloc: Global,
    conn: &mut Connection<S>,
    config: &Config,
    spare: Option<Shelves>,
) -> Result<Shelves, Error>
    requires idle { conn.old.in_transaction ≡ false }
    ensures idle { conn.new.in_transaction ≡ false }
    ensures read { IsRead (state S.Store conn.old) (state S.Store conn.new) }
    ensures open { IsOpenOverArchive S.Store conn.old conn.new result }
    ensures shown { OnCleanDisk S.Store conn.old conn.new (λ old new. (judged : List Judgement) (shown : ShelvesValue) (dates : List ℕ)
        → KeepsArchive old.committed config.now judged shown dates → IfSome spare (λ shelves. shelves ≡ shown) → IfOk result (λ shelves. shelves ≡ shown)) }
{
    match spare {
        Some(shelves) => {
            read_nothing(alloc, conn)?;
            Ok(shelves)
        }
        None => read_shown(alloc, conn, config),
    }
}

/// The print of the text of the index at a path: the one that is known, if the database still serves, or else that of the
/// text that is read.
pub fn read_print<S: Alter>(
    alloc: Global,
    conn: &mut Connection<S>,
    known: Option<Print>,
    path: &str,
) -> Result<Option<Print>, Error>
    requires idle { conn.old.in_transaction ≡ false }
    ensures idle { conn.new.in_transaction ≡ false }
    ensures read { IsRead (state S.Store conn.old) (state S.Store conn.new) }
    ensures open { IsOpenOverArchive S.Store conn.old conn.new result }
    ensures print { OnCleanDisk S.Store conn.old conn.new (λ old new. WithBook old.committed (λ config judged shown dates. IfSome known (λ p. option_map print_of (text_at (book_in_database old.committed config judged shown dates) path.now) ≡ Some p)
        → IfOk result (λ found. found ≡ option_map print_of (text_at (book_in_database old.committed config judged shown dates) path.now)))) }
{
    match known {
        Some(print) => {
            read_nothing(alloc, conn)?;
            Ok(Some(print))
        }
        None => {
            let text = read_text(alloc, conn, path)?;
            Ok(print_of_text(&text))
        }
    }
}

/// Whether the text of the index at the path of a text is this one. If the print that is known there is that of another
/// text, the database is only asked whether it still serves. Otherwise the text is read.
pub fn read_kept<S: Alter>(
    alloc: Global,
    conn: &mut Connection<S>,
    known: Option<Print>,
    text: &IndexText,
) -> Result<bool, Error>
    requires idle { conn.old.in_transaction ≡ false }
    ensures idle { conn.new.in_transaction ≡ false }
    ensures read { IsRead (state S.Store conn.old) (state S.Store conn.new) }
    ensures open { IsOpenOverArchive S.Store conn.old conn.new result }
    ensures kept { OnCleanDisk S.Store conn.old conn.new (λ old new. WithBook old.committed (λ config judged shown dates. IfSome known (λ p. option_map print_of (text_at (book_in_database old.committed config judged shown dates) text.now.path) ≡ Some p)
        → IfOk result (λ kept. kept ≡ is_kept (text_at (book_in_database old.committed config judged shown dates) text.now.path) text.now.text))) }
{
    if is_of_another(known, text) {
        read_nothing(alloc, conn)?;
        return Ok(false);
    }
    let kept = read_text(alloc, conn, text.path.as_str())?;
    Ok(is_kept(&kept, text.text.as_slice()))
}
