//! The numbers of faults, and how faults are printed.

use crate::out::Out;
use command_line::{LineFault, line};
use para::ParaFault;
use records::{FieldName, RecordFault};
use rules::ConfigFault;
use std::fmt::Display;
use sums::ListFault;
use test_rows::Unread;
use vers::VersionFault;

const PARAGRAPH_FAULTS: [ParaFault; 11] = [
    ParaFault::OutOfMemory,
    ParaFault::NotUtf8,
    ParaFault::RefusedByte(1),
    ParaFault::BadName(2),
    ParaFault::NoColon(3),
    ParaFault::NoField(4),
    ParaFault::BlankLine(5),
    ParaFault::FieldTwice(6),
    ParaFault::NoParagraph,
    ParaFault::SeveralParagraphs,
    ParaFault::TooLong,
];

const VERSION_FAULTS: [VersionFault; 6] = [
    VersionFault::OutOfMemory,
    VersionFault::TooLong,
    VersionFault::BadEpoch,
    VersionFault::BadUpstream,
    VersionFault::BadCharacter,
    VersionFault::EmptyRevision,
];

const LIST_FAULTS: [ListFault; 10] = [
    ListFault::OutOfMemory,
    ListFault::ListAbsent,
    ListFault::TextOnFirstLine,
    ListFault::BadWords,
    ListFault::BadDigest,
    ListFault::BadSize,
    ListFault::BadName,
    ListFault::NameTwice,
    ListFault::ListsDisagree,
    ListFault::BadCount,
];

const RECORD_FAULTS: [RecordFault; 11] = [
    RecordFault::OutOfMemory,
    RecordFault::Paragraph(ParaFault::NoParagraph),
    RecordFault::Missing(FieldName::Date),
    RecordFault::NotOneLine,
    RecordFault::Format,
    RecordFault::Name,
    RecordFault::Version(VersionFault::BadEpoch),
    RecordFault::Architecture,
    RecordFault::Distribution,
    RecordFault::Lists(ListFault::ListsDisagree),
    RecordFault::OwnField,
];

const CONFIG_FAULTS: [ConfigFault; 7] = [
    ConfigFault::OutOfMemory,
    ConfigFault::Paragraph(ParaFault::NoParagraph),
    ConfigFault::Missing,
    ConfigFault::BadValue,
    ConfigFault::ClaimedTwice,
    ConfigFault::BadRule,
    ConfigFault::Limits,
];

/// Adds a line: the number of a fault, and how it is printed.
fn add_fault<F: Display>(out: &mut Out, number: u8, fault: &F) {
    out.show(number);
    out.say(" ");
    out.show(fault);
    out.say("\n");
}

/// Adds the faults of paragraphs.
fn of_paragraphs(out: &mut Out) {
    for fault in &PARAGRAPH_FAULTS {
        add_fault(out, fault.number(), fault);
    }
}

/// Adds the faults of versions.
fn of_versions(out: &mut Out) {
    for fault in &VERSION_FAULTS {
        add_fault(out, fault.number(), fault);
    }
}

/// Adds the faults of lists.
fn of_lists(out: &mut Out) {
    for fault in &LIST_FAULTS {
        add_fault(out, fault.number(), fault);
    }
}

/// Adds the faults of records.
fn of_records(out: &mut Out) {
    for fault in &RECORD_FAULTS {
        add_fault(out, fault.number(), fault);
    }
}

/// Adds the faults of configurations.
fn of_configs(out: &mut Out) {
    for fault in &CONFIG_FAULTS {
        add_fault(out, fault.number(), fault);
    }
}

/// Adds the fault of words that are no line.
fn add_fault_of(out: &mut Out, words: &[&str]) {
    match line(out.alloc, words) {
        Ok(_) => out.refuse(Unread::BadWords),
        Err(fault) => add_fault(out, fault.number(), &fault),
    }
}

/// Adds the faults of command lines.
fn of_lines(out: &mut Out) {
    add_fault(
        out,
        LineFault::OutOfMemory.number(),
        &LineFault::OutOfMemory,
    );
    add_fault_of(out, &["--help"]);
    add_fault_of(out, &[]);
}

/// `numbers P|N|S|C|F|L`: a line for each fault of the paragraphs, versions, lists, records, configurations or command lines.
fn numbers(out: &mut Out, words: &[Vec<u8>]) {
    match out.only(words) {
        b"P" => of_paragraphs(out),
        b"N" => of_versions(out),
        b"S" => of_lists(out),
        b"C" => of_records(out),
        b"F" => of_configs(out),
        b"L" => of_lines(out),
        _ => out.refuse(Unread::BadWords),
    }
}

/// Answers a question on faults, and says whether the words are such a question.
pub fn answer(out: &mut Out, verb: &str, words: &[Vec<u8>]) -> bool {
    if verb != "numbers" {
        return false;
    }
    numbers(out, words);
    true
}
