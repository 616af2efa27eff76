//! Stories over both keepers, as rows, and calls and migrations of which a growth may be refused from outside.
#![tactic(auto)]

mod growths;
mod keepers;
mod moves;

pub use growths::Marked;
pub use keepers::{InMemory, Lists, Tables};
pub use moves::Moves;
