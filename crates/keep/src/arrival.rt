//! The arrivals of the plain keeper, and which of them count.

ghost use Rattle.std.specs.Prelude.{◌≡◌, length, map, find, option_copied};
ghost use Rattle.std.specs.List.{list_any};
ghost use Rattle.book.specs.Book.{ended, is_arrival_of};
ghost use Rattle.book.specs.Scan.{marked};
ghost use Rattle.keep.specs.Scan.{counted};

use book::{Arrival, Counting};
use sums::Print;

/// Whether the arrival has this name and a body of this print.
fn is_of(arrival: &Arrival, name: &str, print: Print) -> bool
    ensures { result ≡ is_arrival_of name.now print arrival.now }
{
    if arrival.name.as_str() != name {
        return false;
    }
    arrival.body.print() == print
}

/// Whether a body of this print has arrived under this name, also if it no longer counts.
pub fn has_arrival(arrivals: &[Arrival], name: &str, print: Print) -> bool
    ensures { result ≡ list_any (is_arrival_of name.now print) arrivals.now }
{
    for arrival in arrivals {
        if is_of(arrival, name, print) {
            return true;
        }
    }
    false
}

/// The first arrival of this name with a body of this print, also if it no longer counts.
pub fn arrival_of<'a>(arrivals: &'a [Arrival], name: &str, print: Print) -> Option<&'a Arrival>
    ensures { option_copied result ≡ find (is_arrival_of name.now print) arrivals.now }
{
    for arrival in arrivals {
        if is_of(arrival, name, print) {
            return Some(arrival);
        }
    }
    None
}

/// The first arrival that counts, of this name with a body of this print.
#[tactic(auto, unfolding(book::specs::Book::current))]
pub fn current_arrival<'a>(
    arrivals: &'a [Arrival],
    counting: Counting,
    name: &str,
    print: Print,
) -> Option<&'a Arrival>
    ensures { option_copied result ≡ find (is_arrival_of name.now print) (counted counting arrivals.now) }
{
    for arrival in arrivals {
        if !counting.counts(arrival) {
            continue;
        }
        if is_of(arrival, name, print) {
            return Some(arrival);
        }
    }
    None
}

/// Whether an arrival that counts is of this name with a body of this print.
pub fn has_current(arrivals: &[Arrival], counting: Counting, name: &str, print: Print) -> bool
    ensures { result ≡ list_any (is_arrival_of name.now print) (counted counting arrivals.now) }
{
    current_arrival(arrivals, counting, name, print).is_some()
}

/// Gives the arrival this moment, if it is of this name and print and its own moment is less.
fn mark(arrival: &mut Arrival, name: &str, print: Print, moment: u64)
    ensures { arrival.new ≡ marked name.now print moment arrival.old }
{
    if is_of(arrival, name, print) {
        if arrival.moment < moment {
            arrival.moment = moment;
        }
    }
}

/// Gives the arrivals of this name and print this moment, if theirs is less.
pub fn mark_all(arrivals: &mut [Arrival], name: &str, print: Print, moment: u64)
    ensures { arrivals.new ≡ map (marked name.now print moment) arrivals.old }
{
    for index in 0..arrivals.len() {
        mark(&mut arrivals[index], name, print, moment);
    }
}

/// How many of the arrivals do not count.
#[tactic(auto, unfolding(book::specs::Book::ended))]
fn ended_count(arrivals: &[Arrival], counting: Counting) -> u64
    ensures { result ≡ length (ended counting.span counting.moment arrivals.now) }
{
    arrivals
        .iter()
        .filter(|arrival| !counting.counts(arrival))
        .count() as u64
}

/// Takes away the arrivals that do not count, and says how many there were.
pub fn remove_ended(arrivals: &mut Vec<Arrival>, counting: Counting) -> u64
    ensures count { result ≡ length (ended counting.span counting.moment arrivals.old.items) }
    ensures left { arrivals.new.items ≡ counted counting arrivals.old.items }
{
    let count = ended_count(arrivals, counting);
    arrivals.retain(|arrival| counting.counts(arrival));
    count
}
