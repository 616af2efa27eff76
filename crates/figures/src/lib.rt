//! Figures of an archive at a moment, for monitoring: what waits, what was judged, what the suites show, and what is kept.
#![tactic(auto)]

mod family;
mod judged;
mod kept;
mod key;
mod laws;
mod printing;
mod reading;
mod shown;
mod waiting;

pub use laws::{an_end_is_that_of_the_release, an_example_is_written_so, codenames_need_no_escape};
pub use reading::{metrics, status};
