//! The text of a configuration without the fields that say for how many days something counts.

ghost use Rattle.std.specs.Prelude.{◌≡◌, ◌⊎◌, ◌++◌, [], ◌∷◌, OnOk, IfOk, IfErr, None, Some};
ghost use Rattle.std.specs.List.{flat_map};
ghost use Rattle.std.specs.Option.{option_map};
ghost use Rattle.para.specs.declared.fault.ParaFault.TheVariants.{OutOfMemory};
ghost use Rattle.para.specs.Field.{field_value, field_values};
ghost use Rattle.para.specs.Printing.{paragraph_text};
ghost use Rattle.old_book.specs.Text.{is_days_field, other_fields, other_text, without_days};

use para::{Field, ParaFault, Paragraph, read_many, write_field};
use rules::MOST_CONFIG;
use std::alloc::{AllocError, Global};

/// Whether the field is KeepDays or ValidDays, ASCII case ignored.
#[tactic(auto, unfolding(crate::specs::Text::is_days_field))]
fn is_days_field(field: &Field<'_>) -> bool
    ensures { result ≡ is_days_field (field_value field.now) }
{
    let keep = field.name.eq_ignore_ascii_case("KeepDays");
    let valid = field.name.eq_ignore_ascii_case("ValidDays");
    keep || valid
}

/// Appends a field, unless it is KeepDays or ValidDays.
fn write_unless_days(field: &Field<'_>, out: &mut Vec<u8>) -> Result<(), ParaFault>
    ensures ok { OnOk result (out.new.items ≡ out.old.items ++ paragraph_text (other_fields (field_values (field.now ∷ [])))) }
    ensures err { IfErr result (λ fault. fault ≡ OutOfMemory) }
{
    if is_days_field(field) {
        return Ok(());
    }
    write_field(field.name, field.first, &field.more, out)
}

/// Appends the fields that are neither KeepDays nor ValidDays.
fn write_others(fields: &[Field<'_>], out: &mut Vec<u8>) -> Result<(), ParaFault>
    ensures ok { OnOk result (out.new.items ≡ out.old.items ++ paragraph_text (other_fields (field_values fields.now))) }
    ensures err { IfErr result (λ fault. fault ≡ OutOfMemory) }
{
    for field in fields {
        write_unless_days(field, out)?;
    }
    Ok(())
}

/// Appends a paragraph without these two fields, and an empty line after it.
fn write_paragraph(paragraph: &Paragraph<'_>, out: &mut Vec<u8>) -> Result<(), ParaFault>
    ensures ok { OnOk result (out.new.items ≡ out.old.items ++ other_text paragraph.now) }
    ensures err { IfErr result (λ fault. fault ≡ OutOfMemory) }
{
    write_others(paragraph.fields(), out)?;
    out.push(b'\n')?;
    Ok(())
}

/// Appends paragraphs, each without these two fields.
fn write_paragraphs(paragraphs: &[Paragraph<'_>], out: &mut Vec<u8>) -> Result<(), ParaFault>
    ensures ok { OnOk result (out.new.items ≡ out.old.items ++ flat_map other_text paragraphs.now) }
    ensures err { IfErr result (λ fault. fault ≡ OutOfMemory) }
{
    for paragraph in paragraphs {
        write_paragraph(paragraph, out)?;
    }
    Ok(())
}

/// The paragraphs of a text, each without these two fields.
fn printed_without_days(alloc: Global, text: &[u8]) -> Result<Vec<u8>, ParaFault>
    ensures ok { IfOk result (λ printed. without_days text.now ≡ Some printed.items) }
    ensures err { IfErr result (λ fault. (fault ≡ OutOfMemory) ⊎ (without_days text.now ≡ None)) }
{
    let paragraphs = read_many(alloc, text, MOST_CONFIG)?;
    let mut out = Vec::new(alloc);
    write_paragraphs(&paragraphs, &mut out)?;
    Ok(out)
}

/// The text of a configuration without the fields KeepDays and ValidDays: its paragraphs, printed. Nothing if the text cannot be read
/// as paragraphs, or is too long.
pub fn without_days(alloc: Global, text: &[u8]) -> Result<Option<Vec<u8>>, AllocError>
    ensures { IfOk result (λ o. option_map (λ printed. printed.items) o ≡ without_days text.now) }
{
    match printed_without_days(alloc, text) {
        Ok(printed) => Ok(Some(printed)),
        Err(ParaFault::OutOfMemory) => Err(AllocError),
        Err(_) => Ok(None),
    }
}
