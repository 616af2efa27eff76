//! What a cleaning makes of the rows of an archive: lemmas, and laws.
#![tactic(auto)]

mod laws;

pub use laws::{a_cleaned_archive_is_that_of_the_moment, statements_clean_an_archive};
