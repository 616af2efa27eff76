//! Questions on what suites show, and on uploads: what the waiting uploads lack, and why others have their verdicts.

use crate::outcomes::report_text;
use crate::steps::{moment_of, path_of};
use book::{Counting, Judgement, Keeper, LATEST, Lack, Waiting};
use inquiry::{Delivered, by_name, came_instead, read_upload};
use output::listing::shown_lines;
use queue::{Archive, Fault, Report};
use reasons::{Named, Reason, reason_of};
use rules::Config;
use std::alloc::{AllocError, Global};
use std::collections::BTreeMap;
use suites::{Shelves, Upload};
use sums::Print;
use test_rows::{Unread, text_of};

/// A line for each item that a suite shows.
fn listed<K: Keeper>(
    alloc: Global,
    archive: &mut Archive<K>,
    suite: &str,
) -> Result<Report, Fault> {
    let Some(place) = archive.keeper.config().suite_named(suite) else {
        return Err(Fault::UnknownSuite);
    };
    let shelves = archive.keeper.shelves(alloc)?;
    Ok(Report {
        lines: shown_lines(alloc, &shelves, place)?,
    })
}

/// `list SUITE`: a line for each item that the suite shows, or the fault.
pub fn list<K: Keeper>(
    alloc: Global,
    archive: &mut Archive<K>,
    words: &[Vec<u8>],
) -> Result<Vec<u8>, Unread> {
    report_text(alloc, listed(alloc, archive, path_of(words)?))
}

/// Adds the lines on a listed file that an upload lacks, and on what came in its place.
fn push_lack(
    alloc: Global,
    lines: &mut Vec<String>,
    lack: &Lack,
    came: &[Print],
) -> Result<(), AllocError> {
    let name = lack.name.as_str();
    let word = if lack.is_ended { "ended" } else { "lacks" };
    lines.push(format!(in alloc; "{word} {name}")?)?;
    for print in came {
        let size = print.size;
        lines.push(format!(in alloc; "came {name} {size}")?)?;
    }
    Ok(())
}

/// Adds the lines on an upload that waits.
fn push_lacks(
    alloc: Global,
    lines: &mut Vec<String>,
    named: &BTreeMap<String, Vec<Delivered>>,
    counting: Counting,
    upload: &Waiting,
) -> Result<(), AllocError> {
    let lacks = upload.lacks.as_slice();
    let came = came_instead(alloc, named, counting, lacks)?;
    for (lack, prints) in lacks.iter().zip(&came) {
        push_lack(alloc, lines, lack, prints.as_slice())?;
    }
    if lacks.is_empty() {
        lines.push(String::from_str(alloc, "whole")?)?;
    }
    Ok(())
}

/// What the uploads of a name lack that wait at a moment.
fn lacking<K: Keeper>(
    alloc: Global,
    archive: &mut Archive<K>,
    name: &str,
    moment: u64,
) -> Result<Report, Fault> {
    if moment > LATEST {
        return Err(Fault::Moment);
    }
    let counting = Counting::new(archive.keeper.config(), moment);
    let named = by_name(alloc, &archive.keeper.arrivals(alloc)?)?;
    let waiting = archive.keeper.waiting(alloc, moment)?;
    let mut lines = Vec::new(alloc);
    for upload in &waiting {
        if upload.name.as_str() == name {
            push_lacks(alloc, &mut lines, &named, counting, upload)?;
        }
    }
    Ok(Report { lines })
}

/// `lacks NAME [MOMENT]`: for each waiting upload of that name, `lacks FILE` or `ended FILE` for each file that it lacks, and `came FILE
/// SIZE` for what came in its place; or `whole`. The answer is empty if no such upload waits.
pub fn lacks<K: Keeper>(
    alloc: Global,
    archive: &mut Archive<K>,
    words: &[Vec<u8>],
) -> Result<Vec<u8>, Unread> {
    let Some((name, rest)) = words.split_first() else {
        return Err(Unread::BadWords);
    };
    let (name, moment) = (text_of(name)?, moment_of(rest)?);
    report_text(alloc, lacking(alloc, archive, name, moment))
}

/// A word for the subject of a verdict, and its name or that of its file.
fn about(named: &Named) -> (&'static str, &str) {
    match named {
        Named::Distribution { name } => ("distribution", name.as_str()),
        Named::Architecture { name } => ("architecture", name.as_str()),
        Named::Uploader { person, .. } => ("person", person.as_str()),
        Named::OtherComponent { file, .. } => ("other-component", file.as_str()),
        Named::Component { name } => ("component", name.as_str()),
        Named::ListedChanges { file } => ("changes", file.as_str()),
        Named::SurplusDsc { file, .. } => ("surplus", file.as_str()),
        Named::NoDsc => ("no-dsc", ""),
        Named::LonePackage { file } | Named::LoneSidecar { file } => ("alone", file.as_str()),
        Named::SourceFile { file } => ("source-file", file.as_str()),
        Named::UnreadDsc { file, .. } | Named::UnreadSidecar { file, .. } => {
            ("unread", file.as_str())
        }
        Named::Dsc { file, .. } | Named::Sidecar { file, .. } => ("differs", file.as_str()),
        Named::Twins { second, .. } => ("twin", second.as_str()),
        Named::File { path, .. } => ("file", path.as_str()),
    }
}

/// A verdict, and its subject.
fn reason_text(alloc: Global, reason: &Reason) -> Result<String, AllocError> {
    let number = reason.verdict.number();
    match &reason.named {
        Some(named) => {
            let (word, name) = about(named);
            format!(in alloc; "{number} {word} {name}")
        }
        None => format!(in alloc; "{number}"),
    }
}

/// The verdict that an upload would have now, and its subject.
fn judged_now(
    alloc: Global,
    config: &Config,
    shelves: &Shelves,
    upload: &Upload,
) -> Result<String, AllocError> {
    let reason = reason_of(alloc, config, shelves, upload)?;
    reason_text(alloc, &reason)
}

/// The line on a judged upload.
fn reason_line<K: Keeper>(
    alloc: Global,
    archive: &mut Archive<K>,
    shelves: &Shelves,
    judgement: &Judgement,
) -> Result<String, Fault> {
    let name = judgement.name.as_str();
    let Some(upload) = read_upload(alloc, &mut archive.keeper, name, &judgement.print)? else {
        return Ok(String::from_str(alloc, "cleaned")?);
    };
    let config = archive.keeper.config();
    Ok(judged_now(alloc, config, shelves, &upload)?)
}

/// A line for each judged upload of a name.
fn reasons_of<K: Keeper>(
    alloc: Global,
    archive: &mut Archive<K>,
    name: &str,
) -> Result<Report, Fault> {
    let judged = archive.keeper.verdicts(alloc)?;
    let shelves = archive.keeper.shelves(alloc)?;
    let mut lines = Vec::new(alloc);
    for judgement in &judged {
        if judgement.name.as_str() == name {
            lines.push(reason_line(alloc, archive, &shelves, judgement)?)?;
        }
    }
    Ok(Report { lines })
}

/// `reason NAME`: for each judged upload of that name the verdict that it would have now, with its subject, or `cleaned`.
pub fn reason<K: Keeper>(
    alloc: Global,
    archive: &mut Archive<K>,
    words: &[Vec<u8>],
) -> Result<Vec<u8>, Unread> {
    report_text(alloc, reasons_of(alloc, archive, path_of(words)?))
}
