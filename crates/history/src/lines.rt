//! Lines on uploads: the verdict of one that was judged, and the number of missing files of one that waits.

ghost use Rattle.std.specs.Prelude.{◌≡◌, IfOk, map, string_bytes};
ghost use Rattle.book.specs.Book.{judgements};
ghost use Rattle.history.specs.Answers.{line_on_missing, line_on_waiting, report_line};

use book::{Judgement, Step, Waiting};
use rules::Verdict;
use std::alloc::{AllocError, Global};

/// A line of a report: `accepted NAME`, or `refused NUMBER NAME`.
#[tactic(auto, unfolding(crate::specs::Answers::report_line))]
pub fn report_line(alloc: Global, judgement: &Judgement) -> Result<String, AllocError>
    ensures { IfOk result (λ line. string_bytes line ≡ report_line judgement.now) }
{
    let name = judgement.name.as_str();
    match judgement.verdict {
        Verdict::Accepted => format!(in alloc; "accepted {name}"),
        verdict => {
            let number = verdict.number();
            format!(in alloc; "refused {number} {name}")
        }
    }
}

/// The lines of a report on these steps.
pub fn report_lines(alloc: Global, steps: &[Step]) -> Result<Vec<String>, AllocError>
    ensures { IfOk result (λ lines. map string_bytes lines.items ≡ map report_line (judgements steps.now)) }
{
    let mut lines = Vec::new(alloc);
    for step in steps {
        if let Some(judgement) = &step.judgement {
            lines.push(report_line(alloc, judgement)?)?;
        }
    }
    Ok(lines)
}

/// A line of a number and a name.
fn counted_line(alloc: Global, count: usize, name: &str) -> Result<String, AllocError>
    ensures { IfOk result (λ line. string_bytes line ≡ line_on_missing count name.now) }
{
    format!(in alloc; "{count} {name}")
}

/// A line on an upload without a verdict: how many listed files it lacks, and its name.
pub fn waiting_line(alloc: Global, upload: &Waiting) -> Result<String, AllocError>
    ensures { IfOk result (λ line. string_bytes line ≡ line_on_waiting upload.now) }
{
    counted_line(alloc, upload.lacks.as_slice().len(), upload.name.as_str())
}
