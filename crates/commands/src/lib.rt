//! What the program's commands do, except an export and a service, over any keeper in a file: each line of the command line is carried out
//! over the archive of a database file. It also has what all commands share: how such an archive is opened and closed, why a command ends
//! before it is done, and how names that others chose are printed.
#![tactic(auto)]

mod ask;
mod batch;
mod configured;
pub mod database;
pub mod escaped;
pub mod fault;
mod files;
mod line;
mod print;
pub mod progress;
pub mod slips;
mod told;
pub mod words;

pub use line::{done, explain};
