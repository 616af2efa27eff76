//! What a command says of slips in what it was given, which it does not refuse: a moment before the date of a suite, and fields that a
//! configuration does not know. Each is a line on standard error, whether that is a terminal or not. The status goes by none of them, and a
//! line that can't be written changes nothing.

use crate::print::print_lines;
use book::Keeper;
use command_line::{LineRequest, Request};
use output::checking::passed_lines;
use queue::Archive;
use std::alloc::{AllocError, Global};
use std::io::Write;

/// Whether a request may change what an archive holds.
pub fn may_change(request: &LineRequest<'_>) -> bool {
    !matches!(request, Request::Waiting | Request::Verdicts)
}

/// `the moment N lies before the date of CODENAME, which is M`, for each suite of an archive whose date is after a moment.
pub fn early_lines<K: Keeper>(
    alloc: Global,
    archive: &Archive<K>,
    at: u64,
) -> Result<Vec<String>, AllocError> {
    let mut lines = Vec::new(alloc);
    let suites = archive.keeper.config().suites();
    for (suite, date) in suites.iter().zip(archive.keeper.dates()) {
        if at < *date {
            let codename = suite.codename.as_str();
            lines.push(format!(in alloc;
                "the moment {at} lies before the date of {codename}, which is {date}"
            )?)?;
        }
    }
    Ok(lines)
}

/// Lines, each after `archive: `.
fn of_program(alloc: Global, lines: &[String]) -> Result<Vec<String>, AllocError> {
    let mut all = Vec::new(alloc);
    for line in lines {
        all.push(format!(in alloc; "archive: {line}")?)?;
    }
    Ok(all)
}

/// Writes lines on standard error, each after `archive: ` and as it is shown. Without memory for them there is none.
fn tell<E: Write>(alloc: Global, lines: Result<Vec<String>, AllocError>, err: &mut E) {
    if let Ok(lines) = lines
        && let Ok(lines) = of_program(alloc, &lines)
    {
        let _ = print_lines(alloc, &lines, err);
    }
}

/// Says of which suites the date is after a moment.
pub fn tell_early<K: Keeper, E: Write>(alloc: Global, archive: &Archive<K>, at: u64, err: &mut E) {
    tell(alloc, early_lines(alloc, archive, at), err);
}

/// Says which fields of the text of a configuration are passed over.
pub fn tell_passed_over<E: Write>(alloc: Global, text: &[u8], err: &mut E) {
    tell(alloc, passed_lines(alloc, text), err);
}
