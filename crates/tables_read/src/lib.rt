//! All rows of the tables of an archive at once, whatever the database holds.
#![tactic(auto)]

mod all;
mod answer;
mod cells;
mod in_order;
pub mod laws;
mod read;
mod stored;
mod table;

pub use all::AllRows;
pub use answer::numbered;
pub use in_order::InOrder;
pub use read::read_all;
pub use stored::Stored;
