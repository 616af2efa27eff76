//! Answers whether a database has the tables of an archive, and whether all rows of these are those of an archive, with one module
//! for each part of it. It also puts rows of items on the shelves of suites.
//!
//! What keys keep is not tested here, since the library checks each key of a file that it opens. The rest is tested: types beyond
//! STRICT (no size, moment or place below zero), and all that the rows mean.
//!
//! Rows may stand in any order. Those of `texts` and `dates` are found by their path and their suite: each that has to be there is looked up,
//! and their number has to be the same. Pieces of a body and files of an item are put in the order of their numbers, here and in each read;
//! uploads without a verdict in the order of judging, and what each wants in the order of the names.
//!
//! All rows are in memory while they are tested, with the bytes of the bodies. Each is there once, since rows are typed as the query
//! gives them. Besides these there is one more body, and what the library holds.
#![tactic(auto)]

mod arrivals;
mod as_recorded;
mod bodies;
mod dates;
mod files;
mod items;
mod keyed;
mod meta;
mod pieces;
mod schema;
mod shelves;
mod signed;
mod text_print;
mod text_rows;
mod under_way;
mod uploads;
mod whole;

pub use items::refs_in_order;
pub use schema::is_archive_schema;
pub use shelves::put_row;
pub use text_print::TextPrint;
pub use under_way::are_under_way;
pub use uploads::judgements_in;
pub use whole::{Held, archive_in};
