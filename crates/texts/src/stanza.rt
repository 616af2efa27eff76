//! The parts of a stanza.

ghost use Rattle.std.specs.Prelude.{◌≡◌, ◌++◌, [], ◌∷◌, OnOk, IfOk, MatchOption, if◌then◌else◌, map, string_bytes};
ghost use Rattle.std.specs.Fmt.{decimal};
ghost use Rattle.hex.specs.Hex.{encode_lower};
ghost use Rattle.para.specs.Field.{field_value};
ghost use Rattle.para.specs.Printing.{field_text, more_text};
ghost use Rattle.indices.specs.Stanzas.{fields_of_text, line_field, is_named, list_line, digest_of};

use indices::Digest;
use para::{Field, ParaFault, Paragraph, read_one, write_field, write_line};
use records::MOST_DSC;
use std::alloc::{AllocError, Global};
use sums::Print;

/// The number of bytes for which a stanza gets room at once. It grows if it has more.
pub const USUAL_STANZA: usize = 1024;

/// The paragraph that the text of an item spells; `None` if it does not spell one, or is longer than a .dsc may be.
#[tactic(auto, unfolding(indices::specs::Stanzas::fields_of_text))]
pub fn paragraph_in<'a>(alloc: Global, text: &'a str) -> Result<Option<Paragraph<'a>>, AllocError>
    ensures { IfOk result (λ found. MatchOption found (fields_of_text text.now ≡ []) (λ paragraph. fields_of_text text.now ≡ paragraph)) }
{
    match read_one(alloc, text.as_bytes(), MOST_DSC) {
        Ok(paragraph) => Ok(Some(paragraph)),
        Err(ParaFault::OutOfMemory) => Err(AllocError),
        Err(_) => Ok(None),
    }
}

/// Appends a field. It is refused for want of memory alone.
pub fn push_field(
    name: &str,
    first: &str,
    more: &[&str],
    out: &mut Vec<u8>,
) -> Result<(), AllocError>
    ensures { OnOk result (out.new.items ≡ out.old.items ++ field_text (record { name = name.now; first = first.now; more = map (λ line. line.now) more.now })) }
{
    match write_field(name, first, more, out) {
        Ok(()) => Ok(()),
        Err(_) => Err(AllocError),
    }
}

/// Whether the field has the name, ASCII case ignored.
pub fn has_name(field: &Field<'_>, name: &str) -> bool
    ensures { result ≡ is_named name.now (field_value field.now) }
{
    field.name.eq_ignore_ascii_case(name)
}

/// Appends the field if it is wanted.
pub fn push_if(wanted: bool, field: &Field<'_>, out: &mut Vec<u8>) -> Result<(), AllocError>
    ensures { OnOk result (out.new.items ≡ out.old.items ++ (if wanted then field_text (field_value field.now) else [])) }
{
    if wanted {
        push_field(field.name, field.first, &field.more, out)?;
    }
    Ok(())
}

/// Appends a field of one line.
pub fn push_line_field(name: &str, value: &str, out: &mut Vec<u8>) -> Result<(), AllocError>
    ensures { OnOk result (out.new.items ≡ out.old.items ++ field_text (line_field name.now value.now)) }
{
    push_field(name, value, &[], out)
}

/// Appends a field with a number.
pub fn push_number_field(
    alloc: Global,
    name: &str,
    value: u64,
    out: &mut Vec<u8>,
) -> Result<(), AllocError>
    ensures { OnOk result (out.new.items ≡ out.old.items ++ field_text (line_field name.now (decimal value))) }
{
    let value = format!(in alloc; "{value}")?;
    push_line_field(name, value.as_str(), out)
}

/// The digest of a print in lower-case hexadecimal.
fn digest_text(alloc: Global, digest: Digest, print: &Print) -> Result<String, AllocError>
    ensures { IfOk result (λ text. string_bytes text ≡ encode_lower (digest_of digest print.now)) }
{
    match digest {
        Digest::Md5 => hex::encode(alloc, print.md5.as_slice()),
        Digest::Sha1 => hex::encode(alloc, print.sha1.as_slice()),
        Digest::Sha256 => hex::encode(alloc, print.sha256.as_slice()),
    }
}

/// Appends a field with a digest.
pub fn push_digest_field(
    alloc: Global,
    name: &str,
    digest: Digest,
    print: &Print,
    out: &mut Vec<u8>,
) -> Result<(), AllocError>
    ensures { OnOk result (out.new.items ≡ out.old.items ++ field_text (line_field name.now (encode_lower (digest_of digest print.now)))) }
{
    let value = digest_text(alloc, digest, print)?;
    push_line_field(name, value.as_str(), out)
}

/// Appends a line of a list of files: the digest, the size and the name.
pub fn push_list_line(
    alloc: Global,
    digest: Digest,
    print: &Print,
    name: &str,
    out: &mut Vec<u8>,
) -> Result<(), AllocError>
    ensures { OnOk result (out.new.items ≡ out.old.items ++ more_text (list_line digest print.now name.now)) }
{
    let digest = digest_text(alloc, digest, print)?;
    let size = print.size;
    let line = format!(in alloc; "{digest} {size} {name}")?;
    match write_line(line.as_str(), out) {
        Ok(()) => Ok(()),
        Err(_) => Err(AllocError),
    }
}
