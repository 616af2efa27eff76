//! Whether a row says what it has to say: that of a text, and that of an entry that an upload wants.
#![tactic(auto)]

mod texts;
mod wants;

pub use texts::is_text_row;
pub use wants::is_want_row;
