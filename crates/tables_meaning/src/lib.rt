//! What the rows of an archive's tables say: definitions, which the crates that write and read the rows cite, lemmas, and laws.
//! Also which fault of a keeper an error of the database is.
#![tactic(auto)]

mod fault;
mod laws;
mod numbers;
mod ordering;

pub use fault::fault_of;
pub use laws::{a_database_keeps_one_book, a_kept_book_has_its_files};
pub use numbers::is_among;
pub use ordering::piece_order;
