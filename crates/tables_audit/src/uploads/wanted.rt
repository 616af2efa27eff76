//! What the uploads that wait for a verdict want.
//!
//! The rows of uploads and of what they want stand in any order. Both sides are put in one order, and compared one by one: uploads in the
//! order of judging, and what each wants by name.

ghost use Rattle.std.specs.Prelude.{◌≡◌, ◌&&◌, [], All, IfOk, IsTrue, MatchBool, filter, map, nat_eq, not};
ghost use Rattle.std.specs.List.{list_any};
ghost use Rattle.tables.specs.Rows.{rows_of};
ghost use Rattle.tables.specs.Uploads.{is_judged as has_place};
ghost use Rattle.tables.specs.Wants.{is_wanted_by};
ghost use Rattle.suites.specs.Keys.{text_order};
ghost use Rattle.book.specs.Book.{judging_order};
ghost use Rattle.tables_meaning.specs.Kept.{sign_in, want_order, entry_order};
ghost use Rattle.tables_meaning.specs.Reads.{row_order, sorted_by};
ghost use Rattle.tables_matching.specs.Rows.{want_row};
ghost use Rattle.tables_audit.specs.Uploads.{AreApart, AreAsked, awaited_view, printed, request_among, request_row, waiting_order, wanted_among, wants_among};

use crate::keyed::Rows;
use crate::uploads::arrived::is_there;
use crate::uploads::awaited::Awaited;
use crate::uploads::lookups::There;
use book::judging_order;
use std::alloc::{AllocError, Global};
use std::cmp::Ordering;
use sums::Entry;
use tables::rows::{UploadRow, Want};
use tables_matching::is_want_row;

/// Whether the row is that of the listed file, with whether it is there.
fn is_wanted(want: &Want, arrived: &There<'_>, entry: &Entry) -> bool
    ensures { MatchBool result (want_row want.now ≡ wanted_among (map printed arrived.now.all.now) entry.now)
        (want_row want.now ≡ wanted_among (map printed arrived.now.all.now) entry.now → ⊥) }
{
    is_want_row(want, entry, is_there(arrived, entry))
}

/// The order of names, by their bytes.
fn name_order(a: &str, b: &str) -> Ordering
    ensures { result ≡ text_order a.now b.now }
{
    a.cmp(b)
}

/// What an upload wants, among these rows, in the order of the rows.
fn wants_of<'a>(
    alloc: Global,
    wants: &'a [(u64, Want)],
    upload: u64,
) -> Result<Vec<&'a Want>, AllocError>
    ensures { IfOk result (λ found. map (λ w. w.now) found.items ≡ filter (is_wanted_by upload) (rows_of wants.now)) }
{
    let mut found = Vec::new(alloc);
    for row in wants {
        if row.1.upload == upload {
            found.push(&row.1)?;
        }
    }
    Ok(found)
}

/// What an upload wants, by name.
fn wants_by_name<'a>(mut wants: Vec<&'a Want>) -> Result<Vec<&'a Want>, AllocError>
    ensures { IfOk result (λ sorted. map (λ w. want_row w.now) sorted.items ≡ sorted_by want_order (map (λ w. want_row w.now) wants.entry.items)) }
{
    wants.sort_by(|a, b| name_order(a.name.as_str(), b.name.as_str()))?;
    Ok(wants)
}

/// Listed files, as they are listed.
fn as_listed<'a>(alloc: Global, entries: &'a [Entry]) -> Result<Vec<&'a Entry>, AllocError>
    ensures { IfOk result (λ listed. map (λ e. e.now) listed.items ≡ entries.now) }
{
    let mut listed = Vec::new(alloc);
    for entry in entries {
        listed.push(entry)?;
    }
    Ok(listed)
}

/// Listed files by name.
fn entries_by_name<'a>(mut entries: Vec<&'a Entry>) -> Result<Vec<&'a Entry>, AllocError>
    ensures { IfOk result (λ sorted. map (λ e. e.now) sorted.items ≡ sorted_by entry_order (map (λ e. e.now) entries.entry.items)) }
{
    entries.sort_by(|a, b| name_order(a.name.as_str(), b.name.as_str()))?;
    Ok(entries)
}

/// Whether these rows are those of these listed files, one by one.
fn are_wanted(wants: &[&Want], arrived: &There<'_>, entries: &[&Entry]) -> bool
    ensures { MatchBool result (map (λ w. want_row w.now) wants.now ≡ map (λ e. wanted_among (map printed arrived.now.all.now) e.now) entries.now)
        (map (λ w. want_row w.now) wants.now ≡ map (λ e. wanted_among (map printed arrived.now.all.now) e.now) entries.now → ⊥) }
{
    if wants.len() != entries.len() {
        return false;
    }
    for index in 0..wants.len() {
        if !is_wanted(wants[index], arrived, entries[index]) {
            return false;
        }
    }
    true
}

/// Whether the rows of an upload, looked up among all, are those of the listed files, in some order.
fn are_wanted_by(
    alloc: Global,
    wants: &Rows<'_, (u64, Want)>,
    upload: u64,
    arrived: &There<'_>,
    entries: &[Entry],
) -> Result<bool, AllocError>
    ensures { IfOk result (λ are. MatchBool are (wants_among wants.now.all.now upload ≡ sorted_by want_order (map (wanted_among (map printed arrived.now.all.now)) entries.now))
        (wants_among wants.now.all.now upload ≡ sorted_by want_order (map (wanted_among (map printed arrived.now.all.now)) entries.now) → ⊥)) }
{
    let rows = wants_by_name(wants_of(alloc, wants.about(upload), upload)?)?;
    let listed = entries_by_name(as_listed(alloc, entries)?)?;
    Ok(are_wanted(&rows, arrived, &listed))
}

/// Whether the row and what it wants are those of the .changes.
fn is_request(
    alloc: Global,
    row: &(u64, UploadRow),
    wants: &Rows<'_, (u64, Want)>,
    arrived: &There<'_>,
    awaited: &Awaited<'_>,
) -> Result<bool, AllocError>
    ensures { IfOk result (λ is. MatchBool is (request_row wants.now.all.now row.now ≡ request_among (map printed arrived.now.all.now) (awaited_view awaited.now))
        (request_row wants.now.all.now row.now ≡ request_among (map printed arrived.now.all.now) (awaited_view awaited.now) → ⊥)) }
{
    if row.1.print != awaited.print {
        return Ok(false);
    }
    if row.1.name.as_str() != awaited.arrival.name.as_str() {
        return Ok(false);
    }
    are_wanted_by(alloc, wants, row.0, arrived, awaited.changes.entries())
}

/// Whether each upload has a place.
pub fn have_places(uploads: &[(u64, UploadRow)]) -> bool
    ensures { MatchBool result (filter (λ x. not (has_place x.1)) uploads.now ≡ [])
        (filter (λ x. not (has_place x.1)) uploads.now ≡ [] → ⊥) }
{
    for row in uploads {
        if row.1.place.is_none() {
            return false;
        }
    }
    true
}

/// The rows without a place, in their order.
fn unplaced<'a>(
    alloc: Global,
    uploads: &'a [(u64, UploadRow)],
) -> Result<Vec<&'a (u64, UploadRow)>, AllocError>
    ensures { IfOk result (λ rows. map (λ x. x.now) rows.items ≡ filter (λ x. not (has_place x.1)) uploads.now) }
{
    let mut rows = Vec::new(alloc);
    for row in uploads {
        if row.1.place.is_none() {
            rows.push(row)?;
        }
    }
    Ok(rows)
}

/// The order of judging, of two rows.
fn row_order(a: &(u64, UploadRow), b: &(u64, UploadRow)) -> Ordering
    ensures { result ≡ row_order a.now b.now }
{
    judging_order(a.1.name.as_str(), &a.1.print, b.1.name.as_str(), &b.1.print)
}

/// Rows in the order of judging.
fn rows_in_order<'a>(
    mut rows: Vec<&'a (u64, UploadRow)>,
) -> Result<Vec<&'a (u64, UploadRow)>, AllocError>
    ensures { IfOk result (λ sorted. map (λ x. x.now) sorted.items ≡ sorted_by row_order (map (λ x. x.now) rows.entry.items)) }
{
    rows.sort_by(|a, b| row_order(a, b))?;
    Ok(rows)
}

/// The order of judging, of two .changes.
fn waiting_order(a: &Awaited<'_>, b: &Awaited<'_>) -> Ordering
    ensures { result ≡ waiting_order (awaited_view a.now) (awaited_view b.now) }
{
    judging_order(
        a.arrival.name.as_str(),
        &a.print,
        b.arrival.name.as_str(),
        &b.print,
    )
}

/// The .changes that wait, in the order of judging.
fn waiting_in_order<'a>(mut awaited: Vec<Awaited<'a>>) -> Result<Vec<Awaited<'a>>, AllocError>
    ensures { IfOk result (λ sorted. map awaited_view sorted.items ≡ sorted_by waiting_order (map awaited_view awaited.entry.items)) }
{
    awaited.sort_by(|a, b| waiting_order(a, b))?;
    Ok(awaited)
}

/// Whether these rows are those of these .changes, one by one, with what they want.
fn are_each(
    alloc: Global,
    rows: &[&(u64, UploadRow)],
    wants: &Rows<'_, (u64, Want)>,
    arrived: &There<'_>,
    awaited: &[Awaited<'_>],
) -> Result<bool, AllocError>
    ensures { IfOk result (λ are. MatchBool are
        (map (λ x. request_row wants.now.all.now x.now) rows.now ≡ map (λ a. request_among (map printed arrived.now.all.now) (awaited_view a)) awaited.now)
        (map (λ x. request_row wants.now.all.now x.now) rows.now ≡ map (λ a. request_among (map printed arrived.now.all.now) (awaited_view a)) awaited.now → ⊥)) }
{
    if rows.len() != awaited.len() {
        return Ok(false);
    }
    for index in 0..rows.len() {
        if !is_request(alloc, rows[index], wants, arrived, &awaited[index])? {
            return Ok(false);
        }
    }
    Ok(true)
}

/// Whether the rows without a place are those of the .changes, in some order, with what they want.
pub fn are_requests(
    alloc: Global,
    uploads: &[(u64, UploadRow)],
    wants: &Rows<'_, (u64, Want)>,
    arrived: &There<'_>,
    awaited: Vec<Awaited<'_>>,
) -> Result<bool, AllocError>
    ensures { AreApart uploads.now → IfOk result (λ are. MatchBool are
        (AreAsked uploads.now wants.now.all.now arrived.now.all.now awaited.entry.items)
        (AreAsked uploads.now wants.now.all.now arrived.now.all.now awaited.entry.items → ⊥)) }
{
    let rows = rows_in_order(unplaced(alloc, uploads)?)?;
    let all = waiting_in_order(awaited)?;
    are_each(alloc, &rows, wants, arrived, &all)
}

/// Whether the upload of a number is there and has no place.
fn is_owned(uploads: &[(u64, UploadRow)], upload: u64) -> bool
    ensures { result ≡ list_any (λ x. nat_eq x.0 upload && not (has_place x.1)) uploads.now }
{
    for (id, one) in uploads {
        if *id == upload {
            if one.place.is_none() {
                return true;
            }
        }
    }
    false
}

/// Whether the upload of a number, looked up among all, is there and has no place.
fn is_owned_by_number(uploads: &Rows<'_, (u64, UploadRow)>, upload: u64) -> bool
    ensures { result ≡ list_any (λ x. nat_eq x.0 upload && not (has_place x.1)) uploads.now.all.now }
{
    is_owned(uploads.about(upload), upload)
}

/// Whether each entry is that of an upload without a place.
pub fn are_owned(wants: &[(u64, Want)], uploads: &Rows<'_, (u64, UploadRow)>) -> bool
    ensures { MatchBool result
        (All (λ w. IsTrue (list_any (λ x. nat_eq x.0 w.upload && not (has_place x.1)) uploads.now.all.now)) (rows_of wants.now))
        (All (λ w. IsTrue (list_any (λ x. nat_eq x.0 w.upload && not (has_place x.1)) uploads.now.all.now)) (rows_of wants.now) → ⊥) }
{
    for (_, want) in wants {
        if !is_owned_by_number(uploads, want.upload) {
            return false;
        }
    }
    true
}
