//! What the program prints of what an archive shows and has judged: the items of one suite or of all as lines, and items, uploads and verdicts as JSON.

mod json;
mod shown;

pub use json::{all_json, shown_json, verdict_json, waiting_json};
pub use shown::{all_lines, shown_lines};
