//! What the program prints of why an upload has its verdict, and of what a waiting upload lacks, as lines and as JSON.

mod answer;
mod items;
mod laws;
mod members;
mod names;
mod sentences;
mod waits;
mod words;

pub use answer::{Answer, answer_json, answer_lines};
pub use laws::{a_refusal_is_explained, lines_are_on_what_is_named};
pub use waits::{waiting_json, waiting_lines};
