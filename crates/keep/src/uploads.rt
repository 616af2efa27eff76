//! The uploads of the plain keeper's arrivals that have no verdict, in the order of judging.

ghost use Rattle.std.specs.Prelude.{◌≡◌, ◌≤◌, true, ◌++◌, [], ◌∷◌, length, List, map, filter, take, drop, not, IfOk, OnOk, if◌then◌else◌};
ghost use Rattle.std.specs.List.{list_all};
ghost use Rattle.std.specs.Option.{option_map};
ghost use Rattle.std.specs.Ordering.{is_gt};
ghost use Rattle.suites.specs.Upload.{has_text as keeps_text};
ghost use Rattle.sums.specs.FileNames.{is_changes_name as has_changes_name};
ghost use Rattle.book.specs.Book.{body_for, by_name, candidate_of, candidate_order, is_complete, is_there as has_come, lack_of, lacks_of, put_by_name, put_in_order, upload_of as upload_at, waiting_of};
ghost use Rattle.book.specs.declared.arrival.Arrival.{Arrival as ArrivalValue};
ghost use Rattle.keep.specs.Scan.{candidate_view, counted, entry_at, has_judgement, unjudged_in};

use crate::arrival::{current_arrival, has_arrival, has_current};
use crate::candidate::Candidate;
use book::{Arrival, Counting, Judgement, Lack, Waiting, judging_order};
use para::Listed;
use std::alloc::{AllocError, Global};
use std::cmp::Ordering;
use suites::{Upload, changes_in, has_text};
use sums::{Entry, Print, is_changes_name};

/// The bytes of a list in a list of their own.
pub fn copied(alloc: Global, bytes: &[u8]) -> Result<Listed<u8>, AllocError>
    ensures { IfOk result (λ copy. copy ≡ bytes.now) }
{
    Ok(Listed::from_vec(Vec::from_slice(alloc, bytes)?))
}

/// Whether a body of the listed file has arrived and counts.
#[tactic(auto, unfolding(book::specs::Book::is_there, book::specs::Book::is_body_of))]
fn is_there(arrivals: &[Arrival], counting: Counting, entry: &Entry) -> bool
    ensures { result ≡ has_come (counted counting arrivals.now) entry.now }
{
    has_current(arrivals, counting, entry.name.as_str(), entry.print)
}

/// The position of another listed file among these, which are in the order of their names: before those of its name.
fn position_by_name(found: &[&Entry], other: &Entry) -> usize
    ensures within { result ≤ length found.now }
    ensures placed { put_by_name other.now (map entry_at found.now)
        ≡ map entry_at (take result found.now) ++ other.now ∷ map entry_at (drop result found.now) }
{
    for (index, one) in found.iter().enumerate() {
        if !other.name.as_str().cmp(one.name.as_str()).is_gt() {
            return index;
        }
    }
    found.len()
}

/// The listed files in the order of their names.
fn by_name(alloc: Global, entries: &[Entry]) -> Result<Vec<&Entry>, AllocError>
    ensures { IfOk result (λ found. map entry_at found.items ≡ by_name entries.now) }
{
    let mut found = Vec::new(alloc);
    let mut left = entries.len();
    while left > 0 {
        left -= 1;
        let entry = &entries[left];
        let position = position_by_name(&found, entry);
        found.insert(position, entry)?;
    }
    Ok(found)
}

/// What is said of a listed file of which no arrival counts.
#[tactic(auto, unfolding(book::specs::Book::is_there, book::specs::Book::is_body_of))]
fn lack_of(arrivals: &[Arrival], entry: &Entry) -> Result<Lack, AllocError>
    ensures { IfOk result (λ lack. lack ≡ lack_of arrivals.now entry.now) }
{
    Ok(Lack {
        name: entry.name.try_clone()?,
        print: entry.print,
        is_ended: has_arrival(arrivals, entry.name.as_str(), entry.print),
    })
}

/// The listed files of which no arrival counts, in the order of their names.
#[tactic(auto, unfolding(book::specs::Book::lacks_of))]
fn lacks_of(
    alloc: Global,
    arrivals: &[Arrival],
    counting: Counting,
    entries: &[Entry],
) -> Result<Listed<Lack>, AllocError>
    ensures { IfOk result (λ lacks. lacks ≡ lacks_of arrivals.now (counted counting arrivals.now) entries.now) }
{
    let mut lacks = Vec::new(alloc);
    for entry in by_name(alloc, entries)? {
        if !is_there(arrivals, counting, entry) {
            lacks.push(lack_of(arrivals, entry)?)?;
        }
    }
    Ok(Listed::from_vec(lacks))
}

/// Whether each of the listed files has arrived and counts.
fn are_there(arrivals: &[Arrival], counting: Counting, entries: &[Entry]) -> bool
    ensures { result ≡ list_all (has_come (counted counting arrivals.now)) entries.now }
{
    for entry in entries {
        if !is_there(arrivals, counting, entry) {
            return false;
        }
    }
    true
}

/// Whether the judgement is that of the .changes.
fn is_judgement_of(one: &Judgement, changes: &Arrival) -> bool
    ensures { result ≡ has_judgement changes.now.name changes.now.body (one.now ∷ []) }
{
    if one.name.as_str() != changes.name.as_str() {
        return false;
    }
    one.print == changes.body.print()
}

/// Whether the .changes has a verdict.
fn is_judged(judged: &[Judgement], changes: &Arrival) -> bool
    ensures { result ≡ has_judgement changes.now.name changes.now.body judged.now }
{
    for one in judged {
        if is_judgement_of(one, changes) {
            return true;
        }
    }
    false
}

/// Whether the arrival has the name of a .changes.
fn is_changes(arrival: &Arrival) -> bool
    ensures { result ≡ has_changes_name arrival.now.name }
{
    is_changes_name(arrival.name.as_str())
}

/// The .changes that an arrival is, or nothing if the arrival is not one.
#[tactic(auto, unfolding(book::specs::Book::candidate_of))]
fn read_candidate(alloc: Global, arrival: &Arrival) -> Result<Option<Candidate<'_>>, AllocError>
    ensures { IfOk result (λ found. option_map candidate_view found ≡ candidate_of arrival.now) }
{
    if !is_changes(arrival) {
        return Ok(None);
    }
    match changes_in(alloc, arrival.body.as_slice())? {
        Some(changes) => Ok(Some(Candidate { arrival, changes })),
        None => Ok(None),
    }
}

/// The order of judging of two .changes that arrived.
fn candidate_order(a: &Candidate<'_>, b: &Candidate<'_>) -> Ordering
    ensures { result ≡ candidate_order (candidate_view a.now) (candidate_view b.now) }
{
    let (first, second) = (a.arrival.body.print(), b.arrival.body.print());
    judging_order(
        a.arrival.name.as_str(),
        &first,
        b.arrival.name.as_str(),
        &second,
    )
}

/// The position of another .changes among these, which are in order: before those that tie with it.
fn position_in_order(found: &[Candidate<'_>], other: &Candidate<'_>) -> usize
    ensures within { result ≤ length found.now }
    ensures placed { put_in_order (candidate_view other.now) (map candidate_view found.now)
        ≡ map candidate_view (take result found.now) ++ candidate_view other.now ∷ map candidate_view (drop result found.now) }
{
    for (index, one) in found.iter().enumerate() {
        if !candidate_order(other, one).is_gt() {
            return index;
        }
    }
    found.len()
}

/// Adds the .changes that an arrival is, if it counts and has no verdict. It gets its position among those of the arrivals
/// after it.
fn add_unjudged<'a>(
    alloc: Global,
    found: &mut Vec<Candidate<'a>>,
    arrival: &'a Arrival,
    counting: Counting,
    judged: &[Judgement],
) -> Result<(), AllocError>
    ensures { OnOk result ((rest : List ArrivalValue) → map candidate_view found.old.items ≡ unjudged_in (counted counting rest) judged.now
        → map candidate_view found.new.items ≡ unjudged_in (counted counting (arrival.now ∷ rest)) judged.now) }
{
    if !counting.counts(arrival) {
        return Ok(());
    }
    if !is_changes(arrival) {
        return Ok(());
    }
    if is_judged(judged, arrival) {
        return Ok(());
    }
    if let Some(one) = read_candidate(alloc, arrival)? {
        let position = position_in_order(found, &one);
        found.insert(position, one)?;
    }
    Ok(())
}

/// The uploads without a verdict whose .changes counts, in the order of judging.
#[tactic(auto, unfolding(book::specs::Book::current))]
fn unjudged<'a>(
    alloc: Global,
    arrivals: &'a [Arrival],
    counting: Counting,
    judged: &[Judgement],
) -> Result<Vec<Candidate<'a>>, AllocError>
    ensures { IfOk result (λ found. map candidate_view found.items ≡ unjudged_in (counted counting arrivals.now) judged.now) }
{
    let mut found = Vec::new(alloc);
    let mut left = arrivals.len();
    while left > 0 {
        left -= 1;
        add_unjudged(alloc, &mut found, &arrivals[left], counting, judged)?;
    }
    Ok(found)
}

/// The text that an upload keeps of a listed file: the body that arrived, of a .dsc or a sidecar.
#[tactic(auto, unfolding(book::specs::Book::body_for, book::specs::Book::is_body_of))]
fn kept_text(
    alloc: Global,
    arrivals: &[Arrival],
    counting: Counting,
    entry: &Entry,
) -> Result<Listed<u8>, AllocError>
    ensures { IfOk result (λ text. text ≡ (if keeps_text entry.now.name then body_for (counted counting arrivals.now) entry.now else [])) }
{
    if !has_text(entry.name.as_str()) {
        return Ok(Listed::from_vec(Vec::new(alloc)));
    }
    match current_arrival(arrivals, counting, entry.name.as_str(), entry.print) {
        Some(arrival) => copied(alloc, arrival.body.as_slice()),
        None => Ok(Listed::from_vec(Vec::new(alloc))),
    }
}

/// The text that is kept for each of these entries.
fn kept_texts(
    alloc: Global,
    arrivals: &[Arrival],
    counting: Counting,
    entries: &[Entry],
) -> Result<Vec<Listed<u8>>, AllocError>
    ensures { IfOk result (λ texts.
        texts.items ≡ map (λ e. if keeps_text e.name then body_for (counted counting arrivals.now) e else []) entries.now) }
{
    let mut texts = Vec::new(alloc);
    for entry in entries {
        texts.push(kept_text(alloc, arrivals, counting, entry)?)?;
    }
    Ok(texts)
}

/// The upload of a .changes all of whose files have arrived and count.
fn upload_of(
    alloc: Global,
    arrivals: &[Arrival],
    counting: Counting,
    candidate: Candidate<'_>,
) -> Result<Upload, AllocError>
    requires { is_complete (counted counting arrivals.now) (candidate_view candidate) ≡ true }
    ensures { IfOk result (λ upload. upload ≡ upload_at (counted counting arrivals.now) (candidate_view candidate.entry)) }
{
    let texts = kept_texts(alloc, arrivals, counting, candidate.changes.entries())?;
    let name = candidate.arrival.name.try_clone()?;
    let print = candidate.arrival.body.print();
    Ok(Upload::new(name, print, candidate.changes, texts))
}

/// The uploads without a verdict whose entries have all arrived, in the order of judging, among the arrivals that count.
pub fn complete_uploads(
    alloc: Global,
    arrivals: &[Arrival],
    counting: Counting,
    judged: &[Judgement],
) -> Result<Vec<Upload>, AllocError>
    ensures { IfOk result (λ uploads. uploads.items
        ≡ map (upload_at (counted counting arrivals.now))
        (filter (is_complete (counted counting arrivals.now)) (unjudged_in (counted counting arrivals.now) judged.now))) }
{
    let mut uploads = Vec::new(alloc);
    for candidate in unjudged(alloc, arrivals, counting, judged)? {
        if are_there(arrivals, counting, candidate.changes.entries()) {
            uploads.push(upload_of(alloc, arrivals, counting, candidate)?)?;
        }
    }
    Ok(uploads)
}

/// The uploads without a verdict whose .changes counts, in the order of judging, each with its listed files of which no arrival
/// counts.
pub fn waiting_uploads(
    alloc: Global,
    arrivals: &[Arrival],
    counting: Counting,
    judged: &[Judgement],
) -> Result<Vec<Waiting>, AllocError>
    ensures { IfOk result (λ waiting. waiting.items
        ≡ map (waiting_of arrivals.now (counted counting arrivals.now)) (unjudged_in (counted counting arrivals.now) judged.now)) }
{
    let found = unjudged(alloc, arrivals, counting, judged)?;
    let mut waiting = Vec::new(alloc);
    for candidate in &found {
        waiting.push(Waiting {
            name: candidate.arrival.name.try_clone()?,
            print: candidate.arrival.body.print(),
            lacks: lacks_of(alloc, arrivals, counting, candidate.changes.entries())?,
        })?;
    }
    Ok(waiting)
}
