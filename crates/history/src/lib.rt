//! Calls of an archive, their answers and their effects: the plain archive of a history of calls, the laws of histories, and the
//! parts of copies, promotions, removals and reports.
#![tactic(auto)]

mod command;
mod copy;
mod fault;
mod laws;
mod lines;
mod promotion;
mod removal;
mod report;

pub use command::{Arrived, Command, Outcome, Promotion, Report, SourceCopy};
pub use copy::{copy_plan, only_step, two_suites};
pub use fault::Fault;
pub use laws::{
    a_book_opens_its_history, a_configured_book_opens_its_history, a_crash_in_lists_is_in_one_list,
    a_crash_is_of_a_call, a_history_goes_on_from_its_book, a_promotion_is_its_copies,
    a_stop_in_a_configuration_leaves_a_book, a_stop_leaves_a_book, a_stop_leaves_a_part_of_a_list,
    for_good, lists_are_one_list, nothing_is_an_opening,
};
pub use lines::report_lines;
pub use promotion::{Copied, copied_steps, copy_lines, groups_of, sources_of};
pub use removal::{removal_plan, suite_position};
pub use report::{verdict_lines, waiting_lines};
