//! Tests that rows can't express: connections in one list, commands from the first call on, refusals over a disk, types, and what a keeper is
//! handed.
#![tactic(auto)]

#[cfg(test)]
mod tests;
