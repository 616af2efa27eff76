//! How large a file may be, as a configuration says it.

ghost use Rattle.std.specs.Prelude.{◌≡◌, ◌≤◌, ◌*◌};
ghost use Rattle.rules.specs.Sizes.{bounded, mebibytes_in};

use crate::days::days_in;
use std::marker::Model;

/// The least MiB that the field may have.
const LEAST_MEBIBYTES: u32 = 4;

/// The most MiB that the field may have.
const MOST_MEBIBYTES: u32 = 1024;

/// A number of MiB, at most 1024.
#[derive(Debug, Clone, Copy)]
pub struct Mebibytes {
    count: u32,
}

impl Model for Mebibytes {
    ghost use Rattle.std.specs.Prelude.{◌≤◌, ℕ};

    ghost Value = { ℕ };

    ghost view = { λ m. m.count };

    ghost inverse = { λ n. record { count = n } };

    ghost invariant = { λ m. m.count ≤ 1024 };
}

impl Mebibytes {
    /// That many MiB in bytes.
    pub fn bytes(self) -> u64
        ensures value { result ≡ self * 1048576 }
        ensures bound { self ≤ 1024 }
    {
        self.count as u64 * 1_048_576
    }
}

/// That many MiB, if they are 4 to 1024.
fn bounded(count: u32) -> Option<Mebibytes>
    ensures { result ≡ bounded count }
{
    if count < LEAST_MEBIBYTES || count > MOST_MEBIBYTES {
        return None;
    }
    Some(Mebibytes { count })
}

/// The number of MiB that a text is: 4 to 1024, in decimal without a leading zero.
#[tactic(auto, unfolding(crate::specs::Sizes::mebibytes_in))]
pub fn mebibytes_in(text: &str) -> Option<Mebibytes>
    ensures { result ≡ mebibytes_in text.now }
{
    match days_in(text) {
        Some(days) => bounded(days.count()),
        None => None,
    }
}
