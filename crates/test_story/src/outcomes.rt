//! The answers to calls of an archive, as texts.

use book::FilePiece;
use queue::{Arrived, Fault, Promotion, Report, SourceCopy};
use std::alloc::Global;
use std::fmt::Display;
use test_rows::{Unread, said};

/// The printed form of a value.
pub fn printed<T: Display>(alloc: Global, value: &T) -> Result<Vec<u8>, Unread> {
    Ok(value.to_string(alloc)?.into_bytes())
}

/// A fault as it is printed. Want of memory ends the file.
pub fn refused_text(alloc: Global, fault: Fault) -> Result<Vec<u8>, Unread> {
    match fault {
        Fault::OutOfMemory => Err(Unread::OutOfMemory),
        fault => printed(alloc, &fault),
    }
}

/// `new`, `again`, or the fault.
pub fn arrived_text(alloc: Global, done: Result<Arrived, Fault>) -> Result<Vec<u8>, Unread> {
    match done {
        Ok(Arrived::New) => said(alloc, "new"),
        Ok(Arrived::Again) => said(alloc, "again"),
        Err(fault) => refused_text(alloc, fault),
    }
}

/// Each line with its newline.
fn joined_lines(alloc: Global, report: &Report) -> Result<Vec<u8>, Unread> {
    let mut text = Vec::new(alloc);
    for line in &report.lines {
        text.extend_from_slice(line.as_bytes())?;
        text.push(b'\n')?;
    }
    Ok(text)
}

/// The lines of a report, or the fault.
pub fn report_text(alloc: Global, done: Result<Report, Fault>) -> Result<Vec<u8>, Unread> {
    match done {
        Ok(report) => joined_lines(alloc, &report),
        Err(fault) => refused_text(alloc, fault),
    }
}

/// A number, or the fault.
pub fn number_text(alloc: Global, done: Result<u64, Fault>) -> Result<Vec<u8>, Unread> {
    match done {
        Ok(items) => printed(alloc, &items),
        Err(fault) => refused_text(alloc, fault),
    }
}

/// `COUNT SOURCE`, or the fault of a source of which nothing is shown.
fn copy_line(alloc: Global, copy: &SourceCopy) -> Result<String, Unread> {
    let source = copy.source.as_str();
    match copy.items {
        Some(items) => Ok(format!(in alloc; "{items} {source}\n")?),
        None => {
            let fault = Fault::NothingToCopy;
            Ok(format!(in alloc; "refused {fault} {source}\n")?)
        }
    }
}

/// A line for each source of a promotion.
fn copy_lines(alloc: Global, promotion: &Promotion) -> Result<Vec<u8>, Unread> {
    let mut text = Vec::new(alloc);
    for copy in &promotion.copies {
        text.extend_from_slice(copy_line(alloc, copy)?.as_bytes())?;
    }
    Ok(text)
}

/// The lines of a promotion, or the fault.
pub fn promotion_text(alloc: Global, done: Result<Promotion, Fault>) -> Result<Vec<u8>, Unread> {
    match done {
        Ok(promotion) => copy_lines(alloc, &promotion),
        Err(fault) => refused_text(alloc, fault),
    }
}

/// How many bytes the file has, and after a blank those of its piece; `nothing`, or the fault.
pub fn piece_text(
    alloc: Global,
    done: Result<Option<FilePiece>, Fault>,
) -> Result<Vec<u8>, Unread> {
    match done {
        Ok(Some(piece)) => {
            let size = piece.size;
            let mut text = format!(in alloc; "{size} ")?.into_bytes();
            text.extend_from_slice(piece.bytes.as_slice())?;
            Ok(text)
        }
        Ok(None) => said(alloc, "nothing"),
        Err(fault) => refused_text(alloc, fault),
    }
}

/// The bytes that were found, `nothing`, or the fault.
pub fn found_text(alloc: Global, done: Result<Option<Vec<u8>>, Fault>) -> Result<Vec<u8>, Unread> {
    match done {
        Ok(Some(body)) => Ok(body),
        Ok(None) => said(alloc, "nothing"),
        Err(fault) => refused_text(alloc, fault),
    }
}
