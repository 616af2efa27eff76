//! What a field's value says.

ghost use Rattle.std.specs.Prelude.{◌≡◌, ◌++◌, if◌then◌else◌, OnOk, IfOk, IfErr, Some, None, map};
ghost use Rattle.std.specs.Option.{option_map};
ghost use Rattle.para.specs.declared.fault.ParaFault.TheVariants.{OutOfMemory};
ghost use Rattle.para.specs.Bytes.{is_nil};
ghost use Rattle.para.specs.Field.{field_value};
ghost use Rattle.para.specs.Value.{simple_value, words, folded_value};

use crate::blanks::{split_word, trim_start_blanks};
use crate::fault::ParaFault;
use crate::field::Field;
use std::alloc::{AllocError, Global};

/// The first line, if no line follows it. No allocator can be reached here, so no memory is taken.
fn only_line<'a>(first: &'a str, more: &[&str]) -> Option<&'a str>
    ensures { option_map (λ line. line.now) result ≡ (if is_nil (map (λ line. line.now) more.now) then Some first.now else None) }
{
    if more.is_empty() { Some(first) } else { None }
}

/// The value of a field that has one line, and `None` if it has more (Debian Policy 5.1).
pub fn simple<'a>(field: &Field<'a>) -> Option<&'a str>
    ensures { option_map (λ value. value.now) result ≡ simple_value (field_value field.now) }
{
    only_line(field.first, &field.more)
}

fn push_words<'a>(found: &mut Vec<&'a str>, line: &'a str) -> Result<(), AllocError>
    ensures { OnOk result (map (λ word. word.now) found.new.items ≡ map (λ word. word.now) found.old.items ++ words line.now) }
{
    let mut rest = trim_start_blanks(line);
    while !rest.is_empty() {
        let (word, behind) = split_word(rest);
        found.push(word)?;
        rest = trim_start_blanks(behind);
    }
    Ok(())
}

/// The words of a field's value, the pieces between blanks on all its lines (Debian Policy 5.1).
/// It is refused for want of memory alone.
pub fn fold<'a>(alloc: Global, field: &Field<'a>) -> Result<Vec<&'a str>, ParaFault>
    ensures ok { IfOk result (λ found. map (λ word. word.now) found.items ≡ folded_value (field_value field.now)) }
    ensures err { IfErr result (λ fault. fault ≡ OutOfMemory) }
{
    let mut words = Vec::new(alloc);
    push_words(&mut words, field.first)?;
    for line in &field.more {
        push_words(&mut words, line)?;
    }
    Ok(words)
}
