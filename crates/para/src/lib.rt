//! Control paragraphs: the format of Debian's control files (Debian Policy 5.1).
#![tactic(auto)]

mod blanks;
mod fault;
mod field;
mod laws;
mod line;
mod named;
mod print;
mod read;
mod reader;
mod text;
mod value;

pub use fault::ParaFault;
pub use field::{Field, Paragraph};
pub use laws::{one_paragraph, one_reading, printed_again, several_paragraphs};
pub use print::{write, write_field, write_line};
pub use read::{read_many, read_one};
pub use text::{Listed, Text};
pub use value::{fold, simple};
