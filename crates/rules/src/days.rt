//! Numbers of days in a configuration.

ghost use Rattle.std.specs.Prelude.{◌≡◌, ◌≤◌, ◌*◌, ◌==◌, ◌&&◌, true, nat_le, nat_lt, if◌then◌else◌, length, slice_index, Some, None};
ghost use Rattle.std.specs.Char.{is_ascii_digit};
ghost use Rattle.std.specs.List.{list_all};
ghost use Rattle.std.specs.Str.Parse.{digits_value};
ghost use Rattle.rules.specs.Days.{days_in, most_days};

use std::marker::Model;

/// The most days that a field may have.
const MOST_DAYS: u32 = 3650;

/// A number of days, at most 3650.
#[derive(Debug, Clone, Copy)]
pub struct Days {
    count: u32,
}

impl Model for Days {
    ghost use Rattle.std.specs.Prelude.{◌≤◌, ℕ};

    ghost Value = { ℕ };

    ghost view = { λ d. d.count };

    ghost inverse = { λ n. record { count = n } };

    ghost invariant = { λ d. d.count ≤ 3650 };
}

impl Days {
    /// The number of seconds in these days.
    pub fn seconds(self) -> u64
        ensures value { result ≡ self * 86400 }
        ensures bound { self ≤ 3650 }
    {
        self.count as u64 * 86_400
    }

    /// The number.
    pub fn count(self) -> u32
        ensures { result ≡ self }
    {
        self.count
    }
}

fn is_digits(text: &str) -> bool
    ensures { result ≡ list_all is_ascii_digit text.now }
{
    text.bytes().all(|c| c.is_ascii_digit())
}

fn begins_with_zero(text: &str) -> bool
    ensures { result ≡ (slice_index text.now 0 == 48) }
{
    match text.as_bytes().first() {
        Some(first) => *first == b'0',
        None => false,
    }
}

/// The number that digits write, if it is at most the greatest number of days.
fn small_number(digits: &str) -> Option<Days>
    requires { list_all is_ascii_digit digits.now ≡ true }
    ensures { result ≡ (if nat_lt 0 (length digits.now) && nat_le (digits_value 10 digits.now) most_days then Some (digits_value 10 digits.now) else None) }
{
    match digits.parse::<u32>() {
        Ok(count) => {
            if count > MOST_DAYS {
                return None;
            }
            Some(Days { count })
        }
        Err(_) => None,
    }
}

/// The number of days that a text is: 1 to 3650, in decimal without a leading zero.
#[tactic(auto, unfolding(crate::specs::Days::days_in, crate::specs::Days::is_days))]
pub fn days_in(text: &str) -> Option<Days>
    ensures { result ≡ days_in text.now }
{
    if !is_digits(text) {
        return None;
    }
    if begins_with_zero(text) {
        return None;
    }
    small_number(text)
}
