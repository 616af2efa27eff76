//! The uploads that are not judged, found one by one and put in the order of judging: what they wait for, and those that are due,
//! whose entries have all arrived.

ghost use Rattle.std.specs.Prelude.{◌≡◌, false, IfOk, length, filter, map, not, OnOk, zip, All, Ok, Some};
ghost use Rattle.std.specs.List.{filter_map};
ghost use Rattle.sqlite.specs.State.{IsUnchanged};
ghost use Rattle.sums.specs.Prints.{print as print_of_body};
ghost use Rattle.suites.specs.Upload.{IsTextOf};
ghost use Rattle.book.specs.Book.{judging_order};
ghost use Rattle.tables_meaning.specs.Reads.{next_wanting_in, wanting, row_order, sorted_by, bytes_with, text_in, upload_in};
ghost use Rattle.tables_meaning.specs.Kept.{sign_in};
ghost use Rattle.keep_tables.specs.Moments.{missing_at, row_at, rows_at, waiting_at, due_at};
ghost use Rattle.tables_counting.specs.Moments.{is_had};
ghost use Rattle.tables.specs.Calls.{CommitsNoRows, OverRows, Reads};
ghost use Rattle.tables_meaning.specs.Calls.{ReadUndone, ReadsAtRest};

use crate::lacks::lacks_of;
use book::{Waiting, judging_order};
use para::Listed;
use sqlite::{Alter, Connection, Error, ErrorCode};
use std::alloc::{AllocError, Global};
use std::cmp::Ordering;
use suites::{Upload, has_text};
use sums::{Entry, Print, print_of};
use tables::bodies::body_with_print;
use tables::rows::{UploadRow, Want};
use tables::uploads::upload_numbered;
use tables::wants::{next_wanting, wants_of};
use tables_bodies::{changes_of, read_body};
use tables_counting::{counts_still, missing_of_one};

/// The first upload after a number that wants something, with its number. An upload that is not there cannot be in an
/// archive, and is refused.
fn next_upload<S: Alter>(
    alloc: Global,
    conn: &mut Connection<S>,
    after: Option<u64>,
) -> Result<Option<(u64, UploadRow)>, Error>
    ensures idle { conn.old.in_transaction ≡ false → conn.new.in_transaction ≡ false }
    ensures ok { Reads S.Store conn.old conn.new result (λ t next. next ≡ next_wanting_in t after) }
    ensures err { ReadUndone S.Store conn.old conn.new result }
    ensures survives { CommitsNoRows S.Store conn.old conn.new }
{
    let Some(id) = next_wanting(alloc, conn, after)? else {
        return Ok(None);
    };
    let Some(upload) = upload_numbered(alloc, conn, id)? else {
        return Err(Error::SqliteFailure(ErrorCode::DatabaseCorrupt));
    };
    Ok(Some(upload))
}

/// The uploads that want something with their numbers, in the order of these.
pub(crate) fn wanting_uploads<S: Alter>(
    alloc: Global,
    conn: &mut Connection<S>,
) -> Result<Vec<(u64, UploadRow)>, Error>
    ensures idle { conn.old.in_transaction ≡ false → conn.new.in_transaction ≡ false }
    ensures ok { Reads S.Store conn.old conn.new result (λ t all. all.items ≡ wanting t) }
    ensures err { ReadUndone S.Store conn.old conn.new result }
    ensures survives { CommitsNoRows S.Store conn.old conn.new }
{
    let mut uploads = Vec::new(alloc);
    let mut after = None;
    for _ in 0..u64::MAX {
        let Some((id, upload)) = next_upload(alloc, conn, after)? else {
            return Ok(uploads);
        };
        uploads.push((id, upload))?;
        after = Some(id);
    }
    // No table has as many rows as this loop counts.
    Err(Error::SqliteFailure(ErrorCode::TooBig))
}

/// The order of judging: by the bytes of the names, then by SHA-256, SHA-1, MD5 and size.
fn row_order(a: &UploadRow, b: &UploadRow) -> Ordering
    ensures { result ≡ judging_order (sign_in a.now) (sign_in b.now) }
{
    judging_order(a.name.as_str(), &a.print, b.name.as_str(), &b.print)
}

/// The uploads in the order of judging. Those that tie stay in their order.
fn in_judging_order(mut uploads: Vec<(u64, UploadRow)>) -> Result<Vec<(u64, UploadRow)>, AllocError>
    ensures { IfOk result (λ sorted. sorted.items ≡ sorted_by row_order uploads.items) }
{
    uploads.sort_by(|a, b| row_order(&a.1, &b.1))?;
    Ok(uploads)
}

/// The upload with its number, if it still counts at the moment.
fn row_if_still<S: Alter>(
    alloc: Global,
    conn: &mut Connection<S>,
    id: u64,
    upload: UploadRow,
    span: Option<u64>,
    moment: u64,
) -> Result<Option<(u64, UploadRow)>, Error>
    ensures idle { conn.old.in_transaction ≡ false → conn.new.in_transaction ≡ false }
    ensures ok { ReadsAtRest S.Store conn.old conn.new result (λ t row. row ≡ row_at span moment t (id, upload)) }
    ensures err { ReadUndone S.Store conn.old conn.new result }
    ensures survives { CommitsNoRows S.Store conn.old conn.new }
{
    let still = counts_still(
        alloc,
        conn,
        upload.name.as_str(),
        &upload.print,
        span,
        moment,
    )?;
    if still {
        Ok(Some((id, upload)))
    } else {
        Ok(None)
    }
}

/// The uploads that want something and still count at the moment with their numbers, in the order of these.
fn wanting_still<S: Alter>(
    alloc: Global,
    conn: &mut Connection<S>,
    span: Option<u64>,
    moment: u64,
) -> Result<Vec<(u64, UploadRow)>, Error>
    ensures idle { conn.old.in_transaction ≡ false → conn.new.in_transaction ≡ false }
    ensures ok { Reads S.Store conn.old conn.new result (λ t rows. rows.items ≡ filter_map (row_at span moment t) (wanting t)) }
    ensures err { ReadUndone S.Store conn.old conn.new result }
    ensures survives { CommitsNoRows S.Store conn.old conn.new }
{
    let mut rows = Vec::new(alloc);
    for (id, upload) in wanting_uploads(alloc, conn)? {
        if let Some(row) = row_if_still(alloc, conn, id, upload, span, moment)? {
            rows.push(row)?;
        }
    }
    Ok(rows)
}

/// The uploads that want something and still count at the moment with their numbers, in the order of judging: those that are
/// not judged.
pub(crate) fn wanting_in_order<S: Alter>(
    alloc: Global,
    conn: &mut Connection<S>,
    span: Option<u64>,
    moment: u64,
) -> Result<Vec<(u64, UploadRow)>, Error>
    ensures idle { conn.old.in_transaction ≡ false → conn.new.in_transaction ≡ false }
    ensures ok { Reads S.Store conn.old conn.new result (λ t all. all.items ≡ rows_at span moment t) }
    ensures err { ReadUndone S.Store conn.old conn.new result }
    ensures survives { CommitsNoRows S.Store conn.old conn.new }
{
    let rows = wanting_still(alloc, conn, span, moment)?;
    let sorted = in_judging_order(rows)?;
    Ok(sorted)
}

/// How many of the entries have not arrived, or no longer count at the moment.
fn missing_among<S: Alter>(
    alloc: Global,
    conn: &mut Connection<S>,
    wants: &[Want],
    span: Option<u64>,
    moment: u64,
) -> Result<usize, Error>
    ensures idle { conn.old.in_transaction ≡ false → conn.new.in_transaction ≡ false }
    ensures ok { ReadsAtRest S.Store conn.old conn.new result (λ t count. count ≡ length (filter (λ w. not (is_had span moment t w)) wants.now)) }
    ensures err { ReadUndone S.Store conn.old conn.new result }
    ensures survives { CommitsNoRows S.Store conn.old conn.new }
{
    let mut count = 0;
    for want in wants {
        let missing = missing_of_one(alloc, conn, want, span, moment)?;
        count += missing;
    }
    Ok(count)
}

/// How many entries of an upload have not arrived, or no longer count at the moment.
pub(crate) fn missing_of<S: Alter>(
    alloc: Global,
    conn: &mut Connection<S>,
    upload: u64,
    span: Option<u64>,
    moment: u64,
) -> Result<usize, Error>
    ensures idle { conn.old.in_transaction ≡ false → conn.new.in_transaction ≡ false }
    ensures ok { Reads S.Store conn.old conn.new result (λ t count. count ≡ missing_at span moment t upload) }
    ensures err { ReadUndone S.Store conn.old conn.new result }
    ensures survives { CommitsNoRows S.Store conn.old conn.new }
{
    let wants = wants_of(alloc, conn, upload)?;
    let missing = missing_among(alloc, conn, &wants, span, moment)?;
    Ok(missing)
}

/// The uploads that are not judged and still count at the moment, in the order of judging, each with what it lacks.
pub fn waiting_uploads<S: Alter>(
    alloc: Global,
    conn: &mut Connection<S>,
    span: Option<u64>,
    moment: u64,
) -> Result<Vec<Waiting>, Error>
    ensures idle { conn.old.in_transaction ≡ false → conn.new.in_transaction ≡ false }
    ensures ok { OverRows S.Store conn.old conn.new (λ t old new. IfOk result (λ all. all.items ≡ map (waiting_at span moment t) (rows_at span moment t))) }
    ensures unchanged { OverRows S.Store conn.old conn.new (λ t old new. OnOk result (IsUnchanged old new)) }
    ensures err { ReadUndone S.Store conn.old conn.new result }
    ensures survives { CommitsNoRows S.Store conn.old conn.new }
{
    let mut waiting = Vec::new(alloc);
    for (id, upload) in wanting_in_order(alloc, conn, span, moment)? {
        let lacks = lacks_of(alloc, conn, id, span, moment)?;
        waiting.push(Waiting {
            name: upload.name,
            print: upload.print,
            lacks: Listed::from_vec(lacks),
        })?;
    }
    Ok(waiting)
}

/// The body with a print. A body that is not there or has another print cannot be in an archive, and is refused.
fn body_of<S: Alter>(
    alloc: Global,
    conn: &mut Connection<S>,
    print: &Print,
) -> Result<Vec<u8>, Error>
    ensures printed { IfOk result (λ body. print_of_body body.items ≡ print.now) }
    ensures idle { conn.old.in_transaction ≡ false → conn.new.in_transaction ≡ false }
    ensures ok { Reads S.Store conn.old conn.new result (λ t body. bytes_with t print.now ≡ Some body.items) }
    ensures err { ReadUndone S.Store conn.old conn.new result }
    ensures survives { CommitsNoRows S.Store conn.old conn.new }
{
    let Some(id) = body_with_print(alloc, conn, print)? else {
        return Err(Error::SqliteFailure(ErrorCode::DatabaseCorrupt));
    };
    let body = read_body(alloc, conn, id)?;
    if print_of(&body) != *print {
        return Err(Error::SqliteFailure(ErrorCode::DatabaseCorrupt));
    }
    Ok(body)
}

/// The text that an upload keeps of a listed file: the body of a .dsc or a sidecar.
fn text_of<S: Alter>(
    alloc: Global,
    conn: &mut Connection<S>,
    entry: &Entry,
) -> Result<Listed<u8>, Error>
    ensures kept { IfOk result (λ text. IsTextOf (entry.now, text)) }
    ensures idle { conn.old.in_transaction ≡ false → conn.new.in_transaction ≡ false }
    ensures ok { ReadsAtRest S.Store conn.old conn.new result (λ t text. text ≡ text_in t entry.now) }
    ensures err { ReadUndone S.Store conn.old conn.new result }
    ensures survives { CommitsNoRows S.Store conn.old conn.new }
{
    if !has_text(entry.name.as_str()) {
        return Ok(Listed::from_vec(Vec::new(alloc)));
    }
    Ok(Listed::from_vec(body_of(alloc, conn, &entry.print)?))
}

/// The texts that an upload keeps of its listed files.
fn texts_of<S: Alter>(
    alloc: Global,
    conn: &mut Connection<S>,
    entries: &[Entry],
) -> Result<Vec<Listed<u8>>, Error>
    ensures count { IfOk result (λ texts. length texts.items ≡ length entries.now) }
    ensures kept { IfOk result (λ texts. All IsTextOf (zip entries.now texts.items)) }
    ensures idle { conn.old.in_transaction ≡ false → conn.new.in_transaction ≡ false }
    ensures ok { ReadsAtRest S.Store conn.old conn.new result (λ t texts. texts.items ≡ map (text_in t) entries.now) }
    ensures err { ReadUndone S.Store conn.old conn.new result }
    ensures survives { CommitsNoRows S.Store conn.old conn.new }
{
    let mut texts = Vec::new(alloc);
    for entry in entries {
        texts.push(text_of(alloc, conn, entry)?)?;
    }
    Ok(texts)
}

/// An upload as it is judged: its record, and the texts of its .dsc and sidecars.
fn read_upload<S: Alter>(
    alloc: Global,
    conn: &mut Connection<S>,
    upload: UploadRow,
) -> Result<Upload, Error>
    ensures idle { conn.old.in_transaction ≡ false → conn.new.in_transaction ≡ false }
    ensures ok { Reads S.Store conn.old conn.new result (λ t read. upload_in t upload ≡ Some read) }
    ensures err { ReadUndone S.Store conn.old conn.new result }
    ensures survives { CommitsNoRows S.Store conn.old conn.new }
{
    let body = body_of(alloc, conn, &upload.print)?;
    let changes = changes_of(alloc, &body)?;
    let texts = texts_of(alloc, conn, changes.entries())?;
    Ok(Upload::new(upload.name, upload.print, changes, texts))
}

/// An upload as it is judged, if each of its entries has arrived and still counts at the moment.
fn due_upload<S: Alter>(
    alloc: Global,
    conn: &mut Connection<S>,
    id: u64,
    upload: UploadRow,
    span: Option<u64>,
    moment: u64,
) -> Result<Option<Upload>, Error>
    ensures idle { conn.old.in_transaction ≡ false → conn.new.in_transaction ≡ false }
    ensures ok { Reads S.Store conn.old conn.new result (λ t found. found ≡ due_at span moment t (id, upload)) }
    ensures err { ReadUndone S.Store conn.old conn.new result }
    ensures survives { CommitsNoRows S.Store conn.old conn.new }
{
    let missing = missing_of(alloc, conn, id, span, moment)?;
    if missing > 0 {
        return Ok(None);
    }
    let read = read_upload(alloc, conn, upload)?;
    Ok(Some(read))
}

/// The uploads that are not judged and still count at the moment, of which each entry has arrived and still counts too, in the
/// order of judging.
pub fn due_uploads<S: Alter>(
    alloc: Global,
    conn: &mut Connection<S>,
    span: Option<u64>,
    moment: u64,
) -> Result<Vec<Upload>, Error>
    ensures idle { conn.old.in_transaction ≡ false → conn.new.in_transaction ≡ false }
    ensures ok { OverRows S.Store conn.old conn.new (λ t old new. IfOk result (λ uploads. uploads.items ≡ filter_map (due_at span moment t) (rows_at span moment t))) }
    ensures unchanged { OverRows S.Store conn.old conn.new (λ t old new. OnOk result (IsUnchanged old new)) }
    ensures err { ReadUndone S.Store conn.old conn.new result }
    ensures survives { CommitsNoRows S.Store conn.old conn.new }
{
    let mut uploads = Vec::new(alloc);
    for (id, upload) in wanting_in_order(alloc, conn, span, moment)? {
        if let Some(due) = due_upload(alloc, conn, id, upload, span, moment)? {
            uploads.push(due)?;
        }
    }
    Ok(uploads)
}
