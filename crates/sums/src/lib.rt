//! Checksums: the print of a body, and the lists of files in the records of an upload.
#![tactic(auto)]

mod entries;
mod fault;
mod file_name;
mod join;
mod laws;
mod lines;
mod lists;
mod print;
mod sizes;

pub use entries::{Entry, ListKind};
pub use fault::ListFault;
pub use file_name::{is_changes_name, is_file_name};
pub use laws::{lists_are_read, one_reading, smaller_lists_are_read};
pub use lines::{GREATEST_SIZE, MOST_SIZE};
pub use lists::{read_lists, read_lists_within};
pub use print::{Print, Printer, print_of};
