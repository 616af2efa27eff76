//! How a command line of the program looks: its commands, each with its arguments, as clap is given them, and the version.
#![tactic(auto)]

mod arguments;
mod commands;
mod version;

pub use arguments::MOST_CONNECTIONS;
pub use commands::{archive_command, export_command, serve_command};
pub use version::VERSION;
