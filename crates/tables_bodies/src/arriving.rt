//! What has arrived: a body under a name, and what a .changes lists.

ghost use Rattle.std.specs.Prelude.{◌≡◌, false, not, option_map, IsTrue, OnOk};
ghost use Rattle.tables.specs.Rows.{Changes, with_want};
ghost use Rattle.tables.specs.Wants.{with_here};
ghost use Rattle.tables_bodies.specs.Counting.{arrival_counts};
ghost use Rattle.tables_meaning.specs.Coming.{with_received};
ghost use Rattle.tables_meaning.specs.Making.{is_here, with_arrived, with_requested, with_wants};
ghost use Rattle.tables.specs.Calls.{CommitsNothing, Inside, IsSame, KeepsCommitted, Writes, WritesAnd};

use crate::cleaning::counts;
use sqlite::{Alter, Error, Transaction};
use std::alloc::Global;
use sums::{Entry, Print};
use tables::arrivals::{arrival_of, insert_arrival, update_moment};
use tables::bodies::body_with_print_inside;
use tables::uploads::{insert_upload, upload_of};
use tables::wants::{insert_want, mark_here};

/// A file that arrives: its name, its print, for how many seconds an arrival counts, or nothing if it counts for good, and the
/// moment.
#[derive(Clone, Copy)]
pub(crate) struct Arriving<'a> {
    pub name: &'a str,
    pub print: Print,
    pub span: Option<u64>,
    pub moment: u64,
}

/// Stores that a body has arrived under a name. Answers whether that is new: whether it was not there, or did not count at the
/// moment. `span` says for how many seconds an arrival counts, or nothing if it counts for good. An arrival that is there gets the
/// moment if its own is less.
fn store_arrival<S: Alter>(
    alloc: Global,
    tx: &mut Transaction<'_, S>,
    name: &str,
    body: u64,
    span: Option<u64>,
    moment: u64,
) -> Result<bool, Error>
    ensures same_reference { IsSame tx.old tx.new }
    ensures ok { WritesAnd S.Store tx.old tx.new result (with_arrived name.now body moment) (λ new t. new ≡ not (arrival_counts span moment name.now body t)) }
    ensures err { KeepsCommitted S.Store tx.old tx.new result }
    ensures survives { CommitsNothing S.Store tx.old tx.new }
{
    match arrival_of(alloc, tx, name, body)? {
        None => {
            insert_arrival(tx, name, body, moment)?;
            Ok(true)
        }
        Some((id, arrival)) => {
            let known = counts(span, moment, &arrival);
            if moment <= arrival.moment {
                return Ok(!known);
            }
            update_moment(tx, id, moment)?;
            Ok(!known)
        }
    }
}

/// Whether a body of the listed file has arrived.
pub(crate) fn is_entry_here<S: Alter>(
    alloc: Global,
    tx: &mut Transaction<'_, S>,
    entry: &Entry,
) -> Result<bool, Error>
    ensures same_reference { IsSame tx.old tx.new }
    ensures ok { WritesAnd S.Store tx.old tx.new result (λ t. t) (λ here t. here ≡ is_here t entry.now) }
    ensures err { KeepsCommitted S.Store tx.old tx.new result }
    ensures survives { CommitsNothing S.Store tx.old tx.new }
{
    match body_with_print_inside(alloc, tx, &entry.print)? {
        None => Ok(false),
        Some(body) => {
            let found = arrival_of(alloc, tx, entry.name.as_str(), body)?;
            Ok(found.is_some())
        }
    }
}

/// Adds an entry of an upload, with whether a body of it has arrived.
fn insert_entry<S: Alter>(
    alloc: Global,
    tx: &mut Transaction<'_, S>,
    upload: u64,
    entry: &Entry,
) -> Result<(), Error>
    ensures same_reference { IsSame tx.old tx.new }
    ensures ok { Writes S.Store tx.old tx.new result (λ t. with_want (record { upload = upload; name = entry.now.name; print = entry.now.print; here = is_here t entry.now }) t) }
    ensures err { KeepsCommitted S.Store tx.old tx.new result }
    ensures survives { CommitsNothing S.Store tx.old tx.new }
{
    let here = is_entry_here(alloc, tx, entry)?;
    insert_want(tx, upload, entry.name.as_str(), &entry.print, here)
}

/// Adds what an upload of this number wants.
pub(crate) fn insert_wants<S: Alter>(
    alloc: Global,
    tx: &mut Transaction<'_, S>,
    upload: u64,
    entries: &[Entry],
) -> Result<(), Error>
    ensures same_reference { IsSame tx.old tx.new }
    ensures ok { Inside S.Store tx.old tx.new (λ old new. IsTrue old.is_open → OnOk result (Changes old new (with_wants upload entries.now))) }
    ensures err { KeepsCommitted S.Store tx.old tx.new result }
    ensures survives { CommitsNothing S.Store tx.old tx.new }
{
    for entry in entries {
        insert_entry(alloc, tx, upload, entry)?;
    }
    Ok(())
}

/// Adds an upload that is not judged and what it wants, unless it is there.
fn store_request<S: Alter>(
    alloc: Global,
    tx: &mut Transaction<'_, S>,
    name: &str,
    print: &Print,
    entries: &[Entry],
) -> Result<(), Error>
    ensures same_reference { IsSame tx.old tx.new }
    ensures ok { Writes S.Store tx.old tx.new result (with_requested name.now print.now entries.now) }
    ensures err { KeepsCommitted S.Store tx.old tx.new result }
    ensures survives { CommitsNothing S.Store tx.old tx.new }
{
    let found = upload_of(alloc, tx, name, print)?;
    if found.is_some() {
        return Ok(());
    }
    let upload = insert_upload(tx, name, print)?;
    insert_wants(alloc, tx, upload, entries)
}

/// Stores that a file has arrived, whose body has this number, and that it is here for those that want it. Answers whether the
/// arrival is new at the moment.
fn store_file<S: Alter>(
    alloc: Global,
    tx: &mut Transaction<'_, S>,
    file: &Arriving<'_>,
    body: u64,
) -> Result<bool, Error>
    ensures same_reference { IsSame tx.old tx.new }
    ensures ok { WritesAnd S.Store tx.old tx.new result (λ t. with_here file.now.name.now file.now.print (with_arrived file.now.name.now body file.now.moment t)) (λ new t. new ≡ not (arrival_counts file.now.span file.now.moment file.now.name.now body t)) }
    ensures err { KeepsCommitted S.Store tx.old tx.new result }
    ensures survives { CommitsNothing S.Store tx.old tx.new }
{
    let new = store_arrival(alloc, tx, file.name, body, file.span, file.moment)?;
    mark_here(tx, file.name, &file.print)?;
    Ok(new)
}

/// Stores that a file has arrived, whose body has this number, that it is here for those that want it, and what the
/// file lists. Answers whether the arrival is new at the moment.
pub(crate) fn receive<S: Alter>(
    alloc: Global,
    tx: &mut Transaction<'_, S>,
    file: &Arriving<'_>,
    body: u64,
    listed: Option<&[Entry]>,
) -> Result<bool, Error>
    ensures same_reference { IsSame tx.old tx.new }
    ensures ok { WritesAnd S.Store tx.old tx.new result (with_received file.now.name.now body file.now.print file.now.moment (option_map (λ entries. entries.now) listed.entry)) (λ new t. new ≡ not (arrival_counts file.now.span file.now.moment file.now.name.now body t)) }
    ensures err { KeepsCommitted S.Store tx.old tx.new result }
    ensures survives { CommitsNothing S.Store tx.old tx.new }
{
    let new = store_file(alloc, tx, file, body)?;
    match listed {
        None => Ok(new),
        Some(entries) => {
            store_request(alloc, tx, file.name, &file.print, entries)?;
            Ok(new)
        }
    }
}
