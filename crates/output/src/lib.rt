//! The lines and JSON objects that the program prints: what `list`, `verdicts --json`, `waiting --json`, `check` and `why` print.
#![tactic(auto)]

pub mod checking;
pub mod explaining;
pub mod listing;
