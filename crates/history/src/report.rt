//! The lines that the lists of waiting and of judged uploads report.

ghost use Rattle.std.specs.Prelude.{◌≡◌, IfOk, map, string_bytes};
ghost use Rattle.history.specs.Answers.{report_line, line_on_waiting};

use crate::lines::{report_line, waiting_line};
use book::{Judgement, Waiting};
use std::alloc::{AllocError, Global};

/// A line for each upload that waits.
pub fn waiting_lines(alloc: Global, uploads: &[Waiting]) -> Result<Vec<String>, AllocError>
    ensures { IfOk result (λ lines. map string_bytes lines.items ≡ map line_on_waiting uploads.now) }
{
    let mut lines = Vec::new(alloc);
    for upload in uploads {
        lines.push(waiting_line(alloc, upload)?)?;
    }
    Ok(lines)
}

/// A line for each judged upload.
pub fn verdict_lines(alloc: Global, judged: &[Judgement]) -> Result<Vec<String>, AllocError>
    ensures { IfOk result (λ lines. map string_bytes lines.items ≡ map report_line judged.now) }
{
    let mut lines = Vec::new(alloc);
    for judgement in judged {
        lines.push(report_line(alloc, judgement)?)?;
    }
    Ok(lines)
}
