//! The text of a paragraph.
//!
//! The writers of fields and lines write what they are given. The caller has to see that no name and no line holds a newline.

ghost use Rattle.std.specs.Prelude.{◌≡◌, ◌≤◌, [], ◌∷◌, ◌++◌, OnOk, IfErr, Ok, length, take, map};
ghost use Rattle.std.specs.List.{flat_map};
ghost use Rattle.para.specs.declared.fault.ParaFault.TheVariants.{OutOfMemory};
ghost use Rattle.para.specs.Field.{field_values};
ghost use Rattle.para.specs.Printing.{first_text, more_text, field_text, paragraph_text};

use crate::fault::ParaFault;
use crate::field::{Field, Paragraph};
use std::alloc::AllocError;

fn push_line(line: &str, out: &mut Vec<u8>) -> Result<(), AllocError>
    ensures ok { OnOk result (out.new.items ≡ out.old.items ++ more_text line.now) }
    ensures front { take (length out.old.items) out.new.items ≡ out.old.items }
{
    out.push(b' ')?;
    out.extend_from_slice(line.as_bytes())?;
    out.push(b'\n')?;
    Ok(())
}

fn push_lines(lines: &[&str], out: &mut Vec<u8>) -> Result<(), AllocError>
    ensures ok { OnOk result (out.new.items ≡ out.old.items ++ flat_map more_text (map (λ line. line.now) lines.now)) }
    ensures front { take (length out.old.items) out.new.items ≡ out.old.items }
{
    for line in lines {
        push_line(line, out)?;
    }
    Ok(())
}

fn push_first(line: &str, out: &mut Vec<u8>) -> Result<(), AllocError>
    ensures ok { OnOk result (out.new.items ≡ out.old.items ++ first_text line.now) }
    ensures front { take (length out.old.items) out.new.items ≡ out.old.items }
{
    if !line.is_empty() {
        out.push(b' ')?;
        out.extend_from_slice(line.as_bytes())?;
    }
    Ok(())
}

fn push_head(name: &str, first: &str, out: &mut Vec<u8>) -> Result<(), AllocError>
    ensures ok { OnOk result (out.new.items ≡ out.old.items ++ (name.now ++ (58 ∷ (first_text first.now ++ 10 ∷ [])))) }
    ensures front { take (length out.old.items) out.new.items ≡ out.old.items }
{
    out.extend_from_slice(name.as_bytes())?;
    out.push(b':')?;
    push_first(first, out)?;
    out.push(b'\n')?;
    Ok(())
}

fn push_field(name: &str, first: &str, more: &[&str], out: &mut Vec<u8>) -> Result<(), AllocError>
    ensures ok { OnOk result (out.new.items ≡ out.old.items ++ field_text (record { name = name.now; first = first.now; more = map (λ line. line.now) more.now })) }
    ensures front { take (length out.old.items) out.new.items ≡ out.old.items }
{
    push_head(name, first, out)?;
    push_lines(more, out)
}

fn push_fields(fields: &[Field<'_>], out: &mut Vec<u8>) -> Result<(), AllocError>
    ensures ok { OnOk result (out.new.items ≡ out.old.items ++ paragraph_text (field_values fields.now)) }
    ensures front { take (length out.old.items) out.new.items ≡ out.old.items }
{
    for field in fields {
        push_field(field.name, field.first, &field.more, out)?;
    }
    Ok(())
}

/// Cuts the output to its first `len` bytes if not all was written.
fn cut_unless_written(
    written: Result<(), AllocError>,
    len: usize,
    out: &mut Vec<u8>,
) -> Result<(), ParaFault>
    requires { len ≤ length out.old.items }
    ensures ok { OnOk result ((written ≡ Ok tt) × (out.new.items ≡ out.old.items)) }
    ensures err { IfErr result (λ fault. (fault ≡ OutOfMemory) × (out.new.items ≡ take len out.old.items)) }
{
    if written.is_err() {
        out.truncate(len);
    }
    Ok(written?)
}

/// Appends a line that continues a field: a space, the line and a newline (own rule of this
/// archive). It is refused for want of memory alone, and the output is then as before.
pub fn write_line(line: &str, out: &mut Vec<u8>) -> Result<(), ParaFault>
    ensures ok { OnOk result (out.new.items ≡ out.old.items ++ more_text line.now) }
    ensures err { IfErr result (λ fault. (fault ≡ OutOfMemory) × (out.new.items ≡ out.old.items)) }
{
    let len = out.len();
    let written = push_line(line, out);
    cut_unless_written(written, len, out)
}

/// Appends a field: its name, a colon, the first line of its value after a space if it is not
/// empty, a newline, and the lines that continue it (own rule of this archive). It is refused for
/// want of memory alone, and the output is then as before.
pub fn write_field(
    name: &str,
    first: &str,
    more: &[&str],
    out: &mut Vec<u8>,
) -> Result<(), ParaFault>
    ensures ok { OnOk result (out.new.items ≡ out.old.items ++ field_text (record { name = name.now; first = first.now; more = map (λ line. line.now) more.now })) }
    ensures err { IfErr result (λ fault. (fault ≡ OutOfMemory) × (out.new.items ≡ out.old.items)) }
{
    let len = out.len();
    let written = push_field(name, first, more, out);
    cut_unless_written(written, len, out)
}

/// Appends the fields of a paragraph, one after the other. It is refused for want of memory alone,
/// and the output is then as before.
pub fn write(paragraph: &Paragraph<'_>, out: &mut Vec<u8>) -> Result<(), ParaFault>
    ensures ok { OnOk result (out.new.items ≡ out.old.items ++ paragraph_text paragraph.now) }
    ensures err { IfErr result (λ fault. (fault ≡ OutOfMemory) × (out.new.items ≡ out.old.items)) }
{
    let len = out.len();
    let written = push_fields(&paragraph.fields, out);
    cut_unless_written(written, len, out)
}
