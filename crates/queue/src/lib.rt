//! The archive: deliveries, also from a reader, queue runs, copies, promotions, removals, cleanings, look-ups and lists of commands
//! over any keeper.
#![tactic(auto)]

mod archive;
mod delivery;
mod drive;
mod pieces;
mod promise;
mod reading;
mod receiving;
mod run;
mod storing;

pub use archive::Archive;
pub use delivery::most_named;
pub use history::{
    Arrived, Command, Fault, Outcome, Promotion, Report, SourceCopy, a_book_opens_its_history,
    a_configured_book_opens_its_history, a_crash_in_lists_is_in_one_list, a_crash_is_of_a_call,
    a_history_goes_on_from_its_book, a_promotion_is_its_copies,
    a_stop_in_a_configuration_leaves_a_book, a_stop_leaves_a_book, a_stop_leaves_a_part_of_a_list,
    for_good, lists_are_one_list, nothing_is_an_opening,
};
pub use pieces::is_piece_at;
pub use promise::drive_anew;
pub use reading::{ReaderFailed, read_some};
