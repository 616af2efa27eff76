//! A .changes that arrived.

ghost use Rattle.std.specs.Prelude.{◌≡◌, Ok};
ghost use Rattle.records.specs.Records.{changes_in};

use book::Arrival;
use records::Changes;

/// A .changes that arrived: its arrival, and the record that its body is.
#[derive(Drop)]
pub struct Candidate<'a> {
    pub arrival: &'a Arrival,
    pub changes: Changes,
    ghost read: { changes_in arrival.now.body ≡ Ok changes },
}
