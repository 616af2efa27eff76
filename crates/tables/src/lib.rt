//! The tables of an archive, over SQL: one function for each statement.
//!
//! A row is described here by SQL alone. What it means for an archive is said above, in tables_meaning.
//!
//! Rows come in the order of their rowids, and every SELECT of several rows says so. No statement shows the order of the rows of a table
//! that has a text as its key.
//!
//! No row goes with another by itself: what refers to a row is deleted first. So each statement changes only the table that it names,
//! and its contract is about that table alone. If a statement was forgotten, the reference refuses. `ON DELETE CASCADE` would do more
//! than the statement says, and only if foreign keys are switched on.
//!
//! A statement means the same whatever tables and views come after the archive's, since a name is found among the archive's tables first.
//!
//! The configuration and the paragraph of an item are columns of bytes: they are handed to readers of bytes, and come back as they were
//! handed in. A column of bytes of another length than a digest's is refused as one of another type.
//!
//! A run, a copy, a promotion and a removal read all rows of `items` if what the suites show is not at hand, and for each the rows of its
//! files by their key: that is all that is shown, so no index could spare a row. `dates` has one row for each suite, `meta` has one row.
//! Apart from the statements of a sweep, no other statement of a delivery, a run, a look-up, a copy, a promotion or a removal reads a
//! table to its end.
#![tactic(auto)]

pub mod arrivals;
pub mod bodies;
pub mod cells;
pub mod dates;
pub mod files;
pub mod items;
pub mod laws;
pub mod meta;
pub mod number;
pub mod pieces;
pub mod probe;
mod read;
pub mod refs;
pub mod rows;
pub mod schema;
pub mod texts;
pub mod uploads;
pub mod wants;
