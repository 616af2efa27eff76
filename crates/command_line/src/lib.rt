//! The program's command line: what its words ask for, as clap reads them.
#![tactic(auto)]

mod keys;
mod parsed;
mod readings;
mod values;
mod words;

pub use lists::{
    BatchFault, LineRequest, ListRequest, Request, lines_of_commands, lists_of_commands, read_list,
};
pub use parsed::{CommandLine, Exporting, LineFault, Manner, Serving};
pub use words::line;
