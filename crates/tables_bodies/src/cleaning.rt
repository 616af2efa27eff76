//! Takes away what does not count at a moment: arrivals, what came of them, and then the bodies that nothing uses.
//!
//! A cleaning that takes nothing away is a transaction like any other. It could be spared its commit by reading first what has ended,
//! but then each other cleaning would read twice.

ghost use Rattle.std.specs.Prelude.{if◌then◌else◌, ◌≡◌, false, filter, fold, length, not, OnOk};
ghost use Rattle.sqlite.specs.State.{Survives};
ghost use Rattle.sqlite.specs.Held.{state};
ghost use Rattle.tables.specs.Arrivals.{without_arrival};
ghost use Rattle.tables.specs.Uploads.{is_judged, without_upload};
ghost use Rattle.tables.specs.Wants.{with_away, without_wants};
ghost use Rattle.tables_meaning.specs.Amending.{Makes};
ghost use Rattle.tables_meaning.specs.Cleaning.{counts_row, ended_rows, with_cleaned, with_gone, without_request};
ghost use Rattle.tables_meaning.specs.Kept.{print_at};
ghost use Rattle.tables_meaning.specs.Transactions.{IsDone, MayCommit};
ghost use Rattle.tables.specs.Calls.{CommitsNothing, GoesOnInside, Inside, IsSame, KeepsCommitted, Looks, OnCleanDisk, WritesAnd};
ghost use Rattle.tables_meaning.specs.Calls.{Undoes};
ghost use Rattle.tables_bodies.specs.Calls.{AnswersOf};

use crate::sweeping::sweep;
use book::Counting;
use sqlite::{Alter, Connection, Error, Transaction};
use std::alloc::Global;
use sums::Print;
use tables::arrivals::{all_arrivals_inside, delete_arrival};
use tables::bodies::body_numbered_inside;
use tables::rows::{ArrivalRow, UploadRow};
use tables::uploads::{delete_upload, upload_of};
use tables::wants::{delete_wants, mark_away};

/// Whether an arrival counts at a moment. `span` says for how many seconds arrivals count, or nothing if they count for
/// good.
#[tactic(auto, unfolding(tables_meaning::specs::Cleaning::counts_row))]
pub fn counts(span: Option<u64>, moment: u64, arrival: &ArrivalRow) -> bool
    ensures { result ≡ counts_row span moment arrival.now }
{
    Counting { span, moment }.counts_since(arrival.moment)
}

/// Keeps only the arrivals that do not count.
fn retain_ended(arrivals: &mut Vec<(u64, ArrivalRow)>, span: Option<u64>, moment: u64)
    ensures { arrivals.new.items ≡ filter (λ x. not (counts_row span moment x.1)) arrivals.old.items }
{
    arrivals.retain(|row| !counts(span, moment, &row.1));
}

/// The arrivals that do not count, with their numbers.
fn ended_arrivals<S: Alter>(
    alloc: Global,
    tx: &mut Transaction<'_, S>,
    span: Option<u64>,
    moment: u64,
) -> Result<Vec<(u64, ArrivalRow)>, Error>
    ensures same_reference { IsSame tx.old tx.new }
    ensures ok { Looks S.Store tx.old tx.new result (λ t ended. ended.items ≡ ended_rows span moment t) }
    ensures goes_on { GoesOnInside S.Store tx.old tx.new result }
    ensures kept { KeepsCommitted S.Store tx.old tx.new result }
    ensures survives { CommitsNothing S.Store tx.old tx.new }
{
    let mut arrivals = all_arrivals_inside(alloc, tx)?;
    retain_ended(&mut arrivals, span, moment);
    Ok(arrivals)
}

/// The print of a body, if it has one.
fn print_of_body<S: Alter>(
    alloc: Global,
    tx: &mut Transaction<'_, S>,
    id: u64,
) -> Result<Option<Print>, Error>
    ensures same_reference { IsSame tx.old tx.new }
    ensures ok { Looks S.Store tx.old tx.new result (λ t print. print ≡ print_at t id) }
    ensures goes_on { GoesOnInside S.Store tx.old tx.new result }
    ensures kept { KeepsCommitted S.Store tx.old tx.new result }
    ensures survives { CommitsNothing S.Store tx.old tx.new }
{
    let found = body_numbered_inside(alloc, tx, id)?;
    match found {
        Some(body) => Ok(body.1.print),
        None => Ok(None),
    }
}

/// Removes an upload with its entries.
fn remove_upload<S: Alter>(tx: &mut Transaction<'_, S>, id: u64) -> Result<(), Error>
    ensures same_reference { IsSame tx.old tx.new }
    ensures ok { Inside S.Store tx.old tx.new (λ old new. OnOk result (Makes old new (λ t. without_upload id (without_wants id t)))) }
    ensures err { KeepsCommitted S.Store tx.old tx.new result }
    ensures survives { CommitsNothing S.Store tx.old tx.new }
{
    delete_wants(tx, id)?;
    delete_upload(tx, id)
}

/// Removes an upload with its entries, unless it is judged.
fn remove_unjudged<S: Alter>(
    tx: &mut Transaction<'_, S>,
    upload: &(u64, UploadRow),
) -> Result<(), Error>
    ensures same_reference { IsSame tx.old tx.new }
    ensures ok { Inside S.Store tx.old tx.new (λ old new. OnOk result (Makes old new (λ t. if is_judged upload.now.1 then t else without_upload upload.now.0 (without_wants upload.now.0 t)))) }
    ensures err { KeepsCommitted S.Store tx.old tx.new result }
    ensures survives { CommitsNothing S.Store tx.old tx.new }
{
    if upload.1.place.is_some() {
        return Ok(());
    }
    remove_upload(tx, upload.0)
}

/// Removes the upload of this name and print with its entries, unless it is judged: a judged one stays for good.
fn remove_request<S: Alter>(
    alloc: Global,
    tx: &mut Transaction<'_, S>,
    name: &str,
    print: &Print,
) -> Result<(), Error>
    ensures same_reference { IsSame tx.old tx.new }
    ensures ok { Inside S.Store tx.old tx.new (λ old new. OnOk result (Makes old new (without_request name.now print.now))) }
    ensures err { KeepsCommitted S.Store tx.old tx.new result }
    ensures survives { CommitsNothing S.Store tx.old tx.new }
{
    let found = upload_of(alloc, tx, name, print)?;
    match found {
        Some(upload) => remove_unjudged(tx, &upload),
        None => Ok(()),
    }
}

/// Notes that no body of this name and print is there any more: the uploads that want it wait for it again, and an upload
/// whose .changes it was is removed.
fn forget_name<S: Alter>(
    alloc: Global,
    tx: &mut Transaction<'_, S>,
    name: &str,
    print: &Print,
) -> Result<(), Error>
    ensures same_reference { IsSame tx.old tx.new }
    ensures ok { Inside S.Store tx.old tx.new (λ old new. OnOk result (Makes old new (λ t. without_request name.now print.now (with_away name.now print.now t)))) }
    ensures err { KeepsCommitted S.Store tx.old tx.new result }
    ensures survives { CommitsNothing S.Store tx.old tx.new }
{
    mark_away(tx, name, print)?;
    remove_request(alloc, tx, name, print)
}

/// Removes an arrival, whose body has this print, with what came of it.
fn remove_arrival<S: Alter>(
    alloc: Global,
    tx: &mut Transaction<'_, S>,
    arrival: &(u64, ArrivalRow),
    print: &Print,
) -> Result<(), Error>
    ensures same_reference { IsSame tx.old tx.new }
    ensures ok { Inside S.Store tx.old tx.new (λ old new. OnOk result (Makes old new (λ t. without_request arrival.now.1.name print.now (with_away arrival.now.1.name print.now (without_arrival arrival.now.0 t))))) }
    ensures err { KeepsCommitted S.Store tx.old tx.new result }
    ensures survives { CommitsNothing S.Store tx.old tx.new }
{
    delete_arrival(tx, arrival.0)?;
    forget_name(alloc, tx, arrival.1.name.as_str(), print)
}

/// Takes an arrival away with what came of it. An arrival whose body has no print cannot be in an archive, and stays.
fn take_away<S: Alter>(
    alloc: Global,
    tx: &mut Transaction<'_, S>,
    arrival: &(u64, ArrivalRow),
) -> Result<(), Error>
    ensures same_reference { IsSame tx.old tx.new }
    ensures ok { Inside S.Store tx.old tx.new (λ old new. OnOk result (Makes old new (with_gone arrival.now))) }
    ensures err { KeepsCommitted S.Store tx.old tx.new result }
    ensures survives { CommitsNothing S.Store tx.old tx.new }
{
    let print = print_of_body(alloc, tx, arrival.1.body)?;
    match print {
        Some(print) => remove_arrival(alloc, tx, arrival, &print),
        None => Ok(()),
    }
}

/// Takes these arrivals away with what came of them.
fn take_all_away<S: Alter>(
    alloc: Global,
    tx: &mut Transaction<'_, S>,
    arrivals: &[(u64, ArrivalRow)],
) -> Result<(), Error>
    ensures same_reference { IsSame tx.old tx.new }
    ensures ok { Inside S.Store tx.old tx.new (λ old new. OnOk result (Makes old new (λ t. fold (λ now x. with_gone x now) t arrivals.now))) }
    ensures err { KeepsCommitted S.Store tx.old tx.new result }
    ensures survives { CommitsNothing S.Store tx.old tx.new }
{
    for arrival in arrivals {
        take_away(alloc, tx, arrival)?;
    }
    Ok(())
}

/// How many arrivals these are.
fn count_of(arrivals: &[(u64, ArrivalRow)]) -> u64
    ensures { result ≡ length arrivals.now }
{
    arrivals.len() as u64
}

/// Takes away what does not count at the moment, inside a transaction. Answers how many arrivals there were of it.
fn clean_inside<S: Alter>(
    alloc: Global,
    tx: &mut Transaction<'_, S>,
    span: Option<u64>,
    moment: u64,
) -> Result<u64, Error>
    ensures same_reference { IsSame tx.old tx.new }
    ensures ok { WritesAnd S.Store tx.old tx.new result (with_cleaned span moment) (λ count t. count ≡ length (ended_rows span moment t)) }
    ensures err { KeepsCommitted S.Store tx.old tx.new result }
    ensures survives { CommitsNothing S.Store tx.old tx.new }
{
    let ended = ended_arrivals(alloc, tx, span, moment)?;
    take_all_away(alloc, tx, &ended)?;
    sweep(alloc, tx)?;
    Ok(count_of(&ended))
}

/// Takes away what does not count at the moment: the arrivals, the uploads without a verdict whose .changes they were, and the
/// bodies that nothing uses after that. `span` says for how many seconds arrivals count, or nothing if they count for good. All
/// of it is done or nothing, also over a crash. Answers how many arrivals were taken away.
pub fn clean<S: Alter>(
    alloc: Global,
    conn: &mut Connection<S>,
    span: Option<u64>,
    moment: u64,
) -> Result<u64, Error>
    requires idle { conn.old.in_transaction ≡ false }
    ensures idle { conn.new.in_transaction ≡ false }
    ensures done { OnCleanDisk S.Store conn.old conn.new (λ old new. OnOk result (IsDone old new (with_cleaned span moment))) }
    ensures count { AnswersOf S.Store conn.old conn.new result (λ count t. count ≡ length (ended_rows span moment t)) }
    ensures undone { Undoes S.Store conn.old conn.new result }
    ensures crash { Survives (state S.Store conn.old) (state S.Store conn.new) (MayCommit (state S.Store conn.old) (with_cleaned span moment)) }
{
    let mut tx = conn.transaction();
    let count = clean_inside(alloc, &mut tx, span, moment)?;
    tx.commit()?;
    Ok(count)
}
