//! Whether what has arrived still counts.

ghost use Rattle.std.specs.Prelude.{if◌then◌else◌, ◌≡◌, ◌≤◌, false, Some, IfOk};
ghost use Rattle.book.specs.Book.{span};
ghost use Rattle.tables_bodies.specs.Counting.{arrival_counts};
ghost use Rattle.tables_counting.specs.Moments.{found_current, is_had, still_counts};
ghost use Rattle.tables.specs.Calls.{CommitsNoRows, CommitsNothingOfOurs, ReadFails, Reads};
ghost use Rattle.tables_meaning.specs.Calls.{ReadUndone, ReadsAtRest};

use rules::Config;
use sqlite::{Alter, Connection, Error};
use std::alloc::Global;
use sums::Print;
use tables::arrivals::arrival_at;
use tables::bodies::body_with_print;
use tables::rows::Want;
use tables_bodies::counts;

/// For how many seconds an arrival counts in an archive of this configuration, or nothing if it counts for good.
pub fn span_of(config: &Config) -> Option<u64>
    ensures { result ≡ span config.now }
{
    match config.keep_days() {
        Some(days) => Some(days.seconds()),
        None => None,
    }
}

/// Whether a body has arrived under this name, and the arrival counts at the moment.
fn counts_under<S: Alter>(
    alloc: Global,
    conn: &mut Connection<S>,
    name: &str,
    body: u64,
    seconds: u64,
    moment: u64,
) -> Result<bool, Error>
    ensures idle { conn.old.in_transaction ≡ false → conn.new.in_transaction ≡ false }
    ensures ok { Reads S.Store conn.old conn.new result (λ t counts. counts ≡ arrival_counts (Some seconds) moment name.now body t) }
    ensures err { ReadFails S.Store conn.old conn.new result }
    ensures survives { CommitsNothingOfOurs S.Store conn.old conn.new }
{
    let found = arrival_at(alloc, conn, name, body)?;
    match found {
        Some(arrival) => Ok(counts(Some(seconds), moment, &arrival.1)),
        None => Ok(false),
    }
}

/// Whether a body of this name and print has arrived, and counts at the moment.
fn is_current<S: Alter>(
    alloc: Global,
    conn: &mut Connection<S>,
    name: &str,
    print: &Print,
    seconds: u64,
    moment: u64,
) -> Result<bool, Error>
    ensures idle { conn.old.in_transaction ≡ false → conn.new.in_transaction ≡ false }
    ensures ok { Reads S.Store conn.old conn.new result (λ t current. current ≡ found_current (Some seconds) moment t name.now print.now) }
    ensures err { ReadUndone S.Store conn.old conn.new result }
    ensures survives { CommitsNoRows S.Store conn.old conn.new }
{
    let Some(body) = body_with_print(alloc, conn, print)? else {
        return Ok(false);
    };
    counts_under(alloc, conn, name, body, seconds, moment)
}

/// Whether what has arrived under this name with this print still counts at the moment. If arrivals count for good nothing
/// is looked up.
pub fn counts_still<S: Alter>(
    alloc: Global,
    conn: &mut Connection<S>,
    name: &str,
    print: &Print,
    span: Option<u64>,
    moment: u64,
) -> Result<bool, Error>
    ensures idle { conn.old.in_transaction ≡ false → conn.new.in_transaction ≡ false }
    ensures ok { ReadsAtRest S.Store conn.old conn.new result (λ t still. still ≡ still_counts span moment t name.now print.now) }
    ensures err { ReadUndone S.Store conn.old conn.new result }
    ensures survives { CommitsNoRows S.Store conn.old conn.new }
{
    match span {
        Some(seconds) => is_current(alloc, conn, name, print, seconds, moment),
        None => Ok(true),
    }
}

/// Whether an entry has arrived and still counts at the moment.
pub fn is_had<S: Alter>(
    alloc: Global,
    conn: &mut Connection<S>,
    want: &Want,
    span: Option<u64>,
    moment: u64,
) -> Result<bool, Error>
    ensures idle { conn.old.in_transaction ≡ false → conn.new.in_transaction ≡ false }
    ensures ok { ReadsAtRest S.Store conn.old conn.new result (λ t had. had ≡ is_had span moment t want.now) }
    ensures err { ReadUndone S.Store conn.old conn.new result }
    ensures survives { CommitsNoRows S.Store conn.old conn.new }
{
    if !want.here {
        return Ok(false);
    }
    counts_still(alloc, conn, want.name.as_str(), &want.print, span, moment)
}

/// How many of one entry are missing: 1 if it has not arrived or no longer counts, else 0.
pub fn missing_of_one<S: Alter>(
    alloc: Global,
    conn: &mut Connection<S>,
    want: &Want,
    span: Option<u64>,
    moment: u64,
) -> Result<usize, Error>
    ensures small { IfOk result (λ count. count ≤ 1) }
    ensures idle { conn.old.in_transaction ≡ false → conn.new.in_transaction ≡ false }
    ensures ok { ReadsAtRest S.Store conn.old conn.new result (λ t count. count ≡ (if is_had span moment t want.now then 0 else 1)) }
    ensures err { ReadUndone S.Store conn.old conn.new result }
    ensures survives { CommitsNoRows S.Store conn.old conn.new }
{
    let had = is_had(alloc, conn, want, span, moment)?;
    if had { Ok(0) } else { Ok(1) }
}
