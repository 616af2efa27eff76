//! The desk: HTTP requests over any reader and writer, each answered by the archive.
#![tactic(auto)]

pub mod connection;
pub mod content;
pub mod exchange;
pub mod fault_text;
pub mod file;
pub mod head;
pub mod laws;
mod questions;
pub mod reply;
pub mod request;
pub mod routes;
pub mod transfer;

pub use connection::{Connection, attend};
pub use exchange::{DeskFault, Served, answer};
pub use routes::Desk;
