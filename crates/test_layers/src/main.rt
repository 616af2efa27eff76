//! Rows on the layers below the keepers and on the command line: texts, and how they are read.
//!
//! A line is printed for each row that differs, and one for each file. The exit status is 0 if each file has rows, all rows can be
//! read, and none differs; otherwise it is 1, and 3 if the output fails.
#![tactic(auto)]

mod answers;
mod out;

use crate::answers::Layers;
use std::process::ExitCode;

fn main(rt: HostRuntime) -> ExitCode {
    match test_rows::report_files::<Layers, HostRuntime>(&rt, "", ".rows") {
        Ok(true) => ExitCode::from(0),
        Ok(false) => ExitCode::from(1),
        Err(_) => ExitCode::from(3),
    }
}
