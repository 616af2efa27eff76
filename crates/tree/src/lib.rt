//! A tree of files that any web server can hand out, and what an export makes of it, step by step.
#![tactic(auto)]

mod planning;
mod steps;

pub use planning::{plan, suites_name_the_pool};
pub use steps::Step;
