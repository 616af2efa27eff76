//! The numbers of faults, and how they are printed.

use book::KeepFault;
use desk::DeskFault;
use queue::Fault;
use records::RecordFault;
use std::alloc::{AllocError, Global};
use std::fmt::{Display, Write};
use test_rows::Unread;

const OF_KEEPERS: [KeepFault; 5] = [
    KeepFault::OutOfMemory,
    KeepFault::Disk,
    KeepFault::Size,
    KeepFault::NoArchive,
    KeepFault::Configuration,
];

const OF_ARCHIVES: [Fault; 12] = [
    Fault::OutOfMemory,
    Fault::BadName,
    Fault::TooLarge,
    Fault::Record(RecordFault::Format),
    Fault::Keeper(KeepFault::Disk),
    Fault::Moment,
    Fault::UnknownSuite,
    Fault::SameSuite,
    Fault::NothingToCopy,
    Fault::Ended,
    Fault::ReaderFailed,
    Fault::NothingToRemove,
];

const OF_DESKS: [DeskFault; 3] = [
    DeskFault::ReaderFailed,
    DeskFault::WriterFailed,
    DeskFault::ArchiveFailed,
];

/// Adds a line on a fault.
fn add_fault<F: Display>(text: &mut String, number: u8, fault: &F) -> Result<(), AllocError> {
    write!(text, "{number} {fault}\n")
}

fn of_keepers(text: &mut String) -> Result<(), AllocError> {
    for fault in &OF_KEEPERS {
        add_fault(text, fault.number(), fault)?;
    }
    Ok(())
}

fn of_archives(text: &mut String) -> Result<(), AllocError> {
    for fault in &OF_ARCHIVES {
        add_fault(text, fault.number(), fault)?;
    }
    Ok(())
}

fn of_desks(text: &mut String) -> Result<(), AllocError> {
    for fault in &OF_DESKS {
        add_fault(text, fault.number(), fault)?;
    }
    Ok(())
}

/// Adds a line for each fault that is printed with a letter.
fn add_faults(text: &mut String, letter: &[u8]) -> Result<(), Unread> {
    match letter {
        b"K" => Ok(of_keepers(text)?),
        b"Q" => Ok(of_archives(text)?),
        b"H" => Ok(of_desks(text)?),
        _ => Err(Unread::BadWords),
    }
}

/// `numbers LETTER`: a line for each fault that is printed with this letter, its number and its text.
pub fn numbers(alloc: Global, words: &[Vec<u8>]) -> Result<Vec<u8>, Unread> {
    let [letter] = words else {
        return Err(Unread::BadWords);
    };
    let mut text = String::new(alloc);
    add_faults(&mut text, letter)?;
    Ok(text.into_bytes())
}
