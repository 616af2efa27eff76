//! Whether what has arrived still counts at a moment, and whether an entry that an upload wants is there.
#![tactic(auto)]

mod counting;

pub use counting::{counts_still, is_had, missing_of_one, span_of};
