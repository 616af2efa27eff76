//! What keeps an archive between calls: the trait of keepers, which `book` has, and a plain one in memory.
#![tactic(auto)]

mod arrival;
mod arrived;
mod candidate;
mod plain;
mod pool;
mod shelves;
mod uploads;

pub use book::{
    Arrival, ArrivedFile, Body, Change, Configured, Counting, FilePiece, IndexText, Judgement,
    KeepFault, Keeper, LATEST, Lack, PIECE_SIZE, Step, Waiting,
};
pub use plain::PlainKeeper;
