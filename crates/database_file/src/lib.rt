//! The keeper over the tables of a database file: what opens, makes, migrates and closes it.
#![tactic(auto)]

mod database;

pub use database::{DatabaseFile, FileKeeper};
