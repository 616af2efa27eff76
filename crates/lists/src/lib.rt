//! What can be asked of an archive, and lists of it: what each line of a list of commands asks for.
#![tactic(auto)]

mod laws;
mod list;
mod request;

pub use laws::{lines_of_commands, lists_of_commands};
pub use list::{BatchFault, read_list};
pub use request::{LineRequest, ListRequest, Request};
