//! What has arrived, and for how long it counts.

ghost use Rattle.std.specs.Prelude.{◌≡◌, IfOk};
ghost use Rattle.sums.specs.Prints.{print as print_of_body};
ghost use Rattle.book.specs.Book.{counts, counts_since, span};

use para::{Listed, Text};
use rules::Config;
use std::alloc::{AllocError, Global};
use std::marker::Model;
use sums::Print;

/// A body, with its print at hand.
#[derive(Drop)]
pub struct Body {
    bytes: Listed<u8>,
    print: Print,
}

impl Model for Body {
    ghost use Rattle.std.specs.Prelude.{◌≡◌, List, ℕ};
    ghost use Rattle.sums.specs.Prints.{print as print_of_body};

    ghost Value = { List ℕ };

    ghost view = { λ b. b.bytes };

    ghost invariant = { λ b. b.print ≡ print_of_body b.bytes };
}

impl Body {
    /// The body of these bytes, whose print this is.
    pub fn from_vec(bytes: Vec<u8>, print: Print) -> Body
        requires { print ≡ print_of_body bytes.items }
        ensures { result ≡ bytes.items }
    {
        Body {
            bytes: Listed::from_vec(bytes),
            print,
        }
    }

    /// The bytes.
    pub fn as_slice(&self) -> &[u8]
        ensures { result.now ≡ self.now }
    {
        self.bytes.as_slice()
    }

    /// The print of the bytes.
    pub fn print(&self) -> Print
        ensures { result ≡ print_of_body self.now }
    {
        self.print
    }

    /// Another copy of the body.
    pub fn try_clone(&self, alloc: Global) -> Result<Body, AllocError>
        ensures { IfOk result (λ body. body ≡ self.now) }
    {
        Ok(Body {
            bytes: Listed::from_vec(Vec::from_slice(alloc, self.bytes.as_slice())?),
            print: self.print,
        })
    }
}

/// A file that arrived: its name, its body, and the greatest moment at which it was delivered, in seconds since
/// 1970-01-01 00:00:00 UTC.
#[derive(Drop)]
pub struct Arrival {
    pub name: Text,
    pub body: Body,
    pub moment: u64,
}

/// What counts at a moment: for how many seconds an arrival counts, or nothing if it counts for good, and the moment, in
/// seconds since 1970-01-01 00:00:00 UTC.
#[derive(Clone, Copy)]
pub struct Counting {
    pub span: Option<u64>,
    pub moment: u64,
}

impl Counting {
    /// What counts at the moment in an archive of this configuration.
    pub fn new(config: &Config, moment: u64) -> Counting
        ensures { result ≡ record { span = span config.now; moment = moment } }
    {
        let span = match config.keep_days() {
            Some(days) => Some(days.seconds()),
            None => None,
        };
        Counting { span, moment }
    }

    /// Whether what was delivered at a moment counts. It also counts at moments before its delivery.
    #[tactic(auto, unfolding(crate::specs::Book::counts_since))]
    pub fn counts_since(&self, delivered: u64) -> bool
        ensures { result ≡ counts_since self.now.span self.now.moment delivered }
    {
        let Some(span) = self.span else {
            return true;
        };
        match self.moment.checked_sub(delivered) {
            Some(age) => age < span,
            None => true,
        }
    }

    /// Whether the arrival counts. It also counts at moments before its delivery.
    pub fn counts(&self, arrival: &Arrival) -> bool
        ensures { result ≡ counts self.now.span self.now.moment arrival.now }
    {
        self.counts_since(arrival.moment)
    }
}
