//! What queries show of a database of an older layout, as rows of today's tables.
#![tactic(auto)]

mod asked;
mod read;
mod shown;
mod texts;

pub use asked::{Asked, first, second};
pub use read::old_rows;
