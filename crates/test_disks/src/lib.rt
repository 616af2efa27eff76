//! Archives in files in memory, as rows: whose disks stop, fail or are full; databases that are no archive; and archives of older layouts.
#![tactic(auto)]

mod account;
mod failing;
mod files;
mod image;
mod interrupted;
mod steps;
mod tampered;
mod trial;
mod work;

pub use files::Case;
