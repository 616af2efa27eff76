//! The book of an archive, and the trait of those who keep it between calls.
#![tactic(auto)]

mod arrival;
mod arrived;
mod change;
mod configured;
mod fault;
mod groups;
mod keeper;
mod order;
mod piece;
mod printing;
mod steps;

pub use arrival::{Arrival, Body, Counting};
pub use arrived::ArrivedFile;
pub use change::{Change, IndexText, Judgement, Lack, Step, Waiting};
pub use configured::Configured;
pub use fault::KeepFault;
pub use groups::{add_to_group, group_of};
pub use indices::LATEST;
pub use keeper::{Keeper, PIECE_SIZE};
pub use order::judging_order;
pub use piece::{FilePiece, piece_of};
pub use printing::{is_kept, print_of_text};
pub use steps::{
    append_judgements, copied_judgements, dates_after, room_for_judgements, some_changes_suite,
};
