//! The text of a fault, which takes no memory.

ghost use Rattle.std.specs.Prelude.{◌≡◌, ◌+◌, ◌≤◌, ◌++◌, codes, length};
ghost use Rattle.arrayvec.specs.ArrayString.{array_string_len};
ghost use Rattle.para.specs.Fault.{fault_text as paragraph_fault_text};
ghost use Rattle.queue.specs.Fault.{fault_text};
ghost use Rattle.records.specs.Fault.{fault_text as record_fault_text};

use arrayvec::ArrayString;
use itoa::{Buffer, Integer};
use para::ParaFault;
use queue::Fault;
use records::RecordFault;

/// The text of a fault. The longest ends with the number of a line, as `Q3 C1 P7:12` does.
pub type FaultText = ArrayString<40>;

/// The text of a fault of the archive.
pub fn text_of(fault: Fault) -> FaultText
    ensures { result.bytes ≡ fault_text fault }
{
    let mut text = ArrayString::new();
    push_number(&mut text, "Q", fault.number());
    match fault {
        Fault::Record(fault) => push_record(&mut text, fault),
        Fault::Keeper(fault) => push_number(&mut text, " K", fault.number()),
        _ => {}
    }
    text
}

/// Appends a space and the fault of a record.
fn push_record(text: &mut FaultText, fault: RecordFault)
    requires { array_string_len text.old ≤ 4 }
    ensures { text.new.bytes ≡ text.old.bytes ++ codes " " ++ record_fault_text fault }
{
    push_number(text, " C", fault.number());
    match fault {
        RecordFault::Paragraph(fault) => push_paragraph(text, fault),
        RecordFault::Missing(name) => {
            text.push_str(" ");
            text.push_str(name.name());
        }
        RecordFault::Version(fault) => push_number(text, " N", fault.number()),
        RecordFault::Lists(fault) => push_number(text, " S", fault.number()),
        _ => {}
    }
}

/// Appends a space and the fault of a paragraph.
fn push_paragraph(text: &mut FaultText, fault: ParaFault)
    requires { array_string_len text.old ≤ 9 }
    ensures { text.new.bytes ≡ text.old.bytes ++ codes " " ++ paragraph_fault_text fault }
{
    push_number(text, " P", fault.number());
    match fault {
        ParaFault::RefusedByte(line)
        | ParaFault::BadName(line)
        | ParaFault::NoColon(line)
        | ParaFault::NoField(line)
        | ParaFault::BlankLine(line)
        | ParaFault::FieldTwice(line) => push_number(text, ":", line),
        _ => {}
    }
}

/// Appends a number after what stands before it.
fn push_number<I: Integer>(text: &mut FaultText, before: &str, number: I)
    requires { array_string_len text.old + length before.now + I.MAX_STR_LEN ≤ 40 }
    ensures bytes { text.new.bytes ≡ text.old.bytes ++ before.now ++ I.text number }
    ensures len { array_string_len text.new ≤ array_string_len text.old + length before.now + I.MAX_STR_LEN }
{
    let mut digits = Buffer::new();
    text.push_str(before);
    text.push_str(digits.format(number));
}
