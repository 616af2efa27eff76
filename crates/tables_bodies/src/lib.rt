//! Transactions of a body: it comes in pieces, and once it is whole it arrives under a name. A body that is not whole is removed, as
//! is one that nothing uses any more. Also whether a change may leave such bodies, and the bytes of bodies, read from their pieces.
#![tactic(auto)]

mod arriving;
mod at_once;
mod cleaning;
mod coming;
mod file_pieces;
mod finishing;
mod listing;
mod other;
mod reading;
mod removing;
mod sparing;
mod sweeping;
mod whole;

pub use at_once::{OnePiece, take_one_piece};
pub use cleaning::{clean, counts};
pub use coming::{Begun, store_piece};
pub use file_pieces::{file_piece, print_numbered};
pub use finishing::{Finished, finish_body};
pub use listing::changes_of;
pub use reading::{file_body, read_body};
pub use removing::remove_all;
pub use sparing::{needs_sweep, some_take_files};
pub use sweeping::sweep;
