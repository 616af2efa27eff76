//! Dates of Release.
//!
//! A date is written by counting days. A Valid-Until is at most 2109-12-29; 2100, which has no 29 February, is among the years.

ghost use Rattle.std.specs.Prelude.{◌≡◌, ◌*◌, ◌≤◌, ◌<◌, ◌-◌, ◌/◌, ◌%◌, pos, IfOk, string_bytes};
ghost use Rattle.jiff.specs.Words.{civil_nanos};
ghost use Rattle.indices.specs.Calendar.{weekday_name, month_name, year_of, month_of, day_of, day_text, time_text, date_text};

use jiff::Timestamp;
use jiff::civil::DateTime;
use jiff::tz::Offset;
use std::alloc::{AllocError, Global};

/// What a clock at UTC shows `moment` seconds after 1970-01-01 00:00:00 UTC.
fn civil_time(moment: u64) -> DateTime
    requires { moment ≤ 4_417_804_799 }
    ensures { civil_nanos result ≡ pos (moment * 1_000_000_000) }
{
    match Timestamp::from_second(moment as i64) {
        Ok(timestamp) => Offset::UTC.to_datetime(timestamp),
        Err(_) => unreachable!(),
    }
}

/// The name of a day of the week, counted from Thursday, the first day of 1970.
#[tactic(auto, unfolding(indices::specs::Calendar::weekday_name))]
fn weekday_name(day: u64) -> &'static str
    ensures { result.now ≡ weekday_name day }
{
    match day % 7 {
        0 => "Thu",
        1 => "Fri",
        2 => "Sat",
        3 => "Sun",
        4 => "Mon",
        5 => "Tue",
        _ => "Wed",
    }
}

/// The name of a month, of the numbers 1 to 12.
#[tactic(auto, unfolding(indices::specs::Calendar::month_name))]
fn month_name(month: u8) -> &'static str
    requires low { 1 ≤ month }
    requires high { month ≤ 12 }
    ensures { result.now ≡ month_name (month - 1) }
{
    match month {
        1 => "Jan",
        2 => "Feb",
        3 => "Mar",
        4 => "Apr",
        5 => "May",
        6 => "Jun",
        7 => "Jul",
        8 => "Aug",
        9 => "Sep",
        10 => "Oct",
        11 => "Nov",
        _ => "Dec",
    }
}

/// The year of a moment, and of what a clock at UTC shows then.
fn year(moment: u64, time: DateTime) -> u16
    requires { civil_nanos time ≡ pos (moment * 1_000_000_000) }
    ensures { result ≡ year_of (moment / 86400) }
{
    time.year() as u16
}

/// The month of a moment, from 1.
fn month(moment: u64, time: DateTime) -> u8
    requires { civil_nanos time ≡ pos (moment * 1_000_000_000) }
    ensures within { (1 ≤ result) × (result ≤ 12) }
    ensures value { result - 1 ≡ month_of (moment / 86400) }
{
    time.month() as u8
}

/// The day of the month of a moment, from 1.
fn day(moment: u64, time: DateTime) -> u8
    requires { civil_nanos time ≡ pos (moment * 1_000_000_000) }
    ensures within { result < 100 }
    ensures value { result ≡ day_of (moment / 86400) }
{
    time.day() as u8
}

/// The date of a moment.
fn day_text(alloc: Global, moment: u64, time: DateTime) -> Result<String, AllocError>
    requires { civil_nanos time ≡ pos (moment * 1_000_000_000) }
    ensures { IfOk result (λ text. string_bytes text ≡ day_text (year_of (moment / 86400)) (month_of (moment / 86400)) (day_of (moment / 86400))) }
{
    let (year, day) = (year(moment, time), day(moment, time));
    let month = month_name(month(moment, time));
    format!(in alloc; "{day:02} {month} {year}")
}

/// The time of day of a second of the day.
fn time_text(alloc: Global, second: u32) -> Result<String, AllocError>
    requires { second < 86400 }
    ensures { IfOk result (λ text. string_bytes text ≡ time_text (second / 3600) (second / 60 % 60) (second % 60)) }
{
    let (hour, minute, second) = (second / 3600, second / 60 % 60, second % 60);
    format!(in alloc; "{hour:02}:{minute:02}:{second:02}")
}

/// The date of a moment, in seconds since 1970-01-01 00:00:00 UTC, as `Thu, 01 Jan 1970 00:00:00 UTC`.
pub fn date_text(alloc: Global, moment: u64) -> Result<String, AllocError>
    requires { moment ≤ 4_417_804_799 }
    ensures { IfOk result (λ text. string_bytes text ≡ date_text moment) }
{
    let weekday = weekday_name(moment / 86_400);
    let day = day_text(alloc, moment, civil_time(moment))?;
    let time = time_text(alloc, (moment % 86_400) as u32)?;
    format!(in alloc; "{weekday}, {day} {time} UTC")
}
