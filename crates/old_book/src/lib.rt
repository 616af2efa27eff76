//! The book of an archive of an older layout: what queries show of it, as the rows of an archive of today's layout. And copies of the rows
//! of an archive's tables into tables that are empty.
//!
//! No schema is compared, and nothing is delivered or judged again. The rows that were shown are audited as an opening audits its rows,
//! with the keys of today's tables: these are tested by writing the rows into a database in memory. The rows are then written as they are.
#![tactic(auto)]

mod bodied;
mod bodies;
mod finding;
mod items;
mod listed;
mod number;
mod numbers;
mod old;
mod renewed;
mod rising;
mod rows;
mod settling;
mod taken;
mod uploads;
mod without_days;
mod written;

pub use old::OldBook;
pub use rows::write_rows;
