//! What a configuration says, in lines for whoever wrote it, which of its fields are passed over, why it is refused, and what it would hide.

mod claims;
mod faults;
mod fields;
mod hidden;
mod laws;
mod lines;
mod near;
mod places;

pub use faults::fault_line;
pub use fields::{likely_name, unknown_fields};
pub use hidden::hidden_line;
pub use laws::unknown_fields_change_nothing;
pub use lines::{can_be_exported, check_lines, passed_lines};
pub use near::Nearest;
