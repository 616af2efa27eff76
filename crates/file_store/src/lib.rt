//! Connections to the databases of files, which wait for another process that has the file, and copies of such files in memory.
#![tactic(auto)]

mod connecting;
mod copying;

pub use connecting::{Store, connect, disconnect};
pub use copying::copied;
