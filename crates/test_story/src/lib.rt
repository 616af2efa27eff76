//! Stories of archives, as rows: deliveries, runs, copies, promotions, removals, cleanings, configurations, look-ups and requests, over
//! any keeper; and everything that an archive shows.
#![tactic(auto)]

mod calls;
mod configurations;
mod delivery;
mod differences;
mod drives;
mod failures;
mod inquiries;
mod keepers;
mod named;
mod numbers;
mod outcomes;
mod pieces;
mod questions;
mod readers;
mod reading;
mod receptions;
mod refusals;
mod requests;
mod steps;
mod stories;
mod tasks;

pub use calls::{Answered, Call};
pub use differences::difference;
pub use keepers::Makes;
pub use refusals::{is_refusal, is_refused_line};
pub use stories::{Story, asked};
pub use tasks::{Pieces, Question, Task, add_paths};
