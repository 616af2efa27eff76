//! The version of the program.

/// The version of this repository, as its file VERSION has it, and the kit that it is proved with.
pub const VERSION: &str = "1.1.0 (rattle-kit-13)";
