//! A keeper over a disk that fails if it has to. What the clauses of keepers say of failures is tried on it.
#![tactic(auto)]

mod disk;

pub use disk::DiskKeeper;
