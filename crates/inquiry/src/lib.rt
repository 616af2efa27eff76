//! What is asked of an archive about its uploads: what came in place of what one lacks, and what a judged one was read from.
#![tactic(auto)]

mod instead;
mod named;
mod reading;

pub use instead::came_instead;
pub use named::{Delivered, by_name};
pub use reading::read_upload;
