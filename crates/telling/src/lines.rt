//! Lines as one text.

ghost use Rattle.std.specs.Prelude.{◌≡◌, ◌++◌, IfOk, OnOk, map, string_bytes};
ghost use Rattle.telling.specs.Told.{ended, text_of};
ghost use Rattle.telling.specs.Why.{shown_character, shown_line, shown_lines, shown_text};

use std::alloc::{AllocError, Global};

/// What stands in a line in place of a control character.
const MARK: char = '?';

/// Appends a line and a newline.
fn push_line(line: &str, out: &mut Vec<u8>) -> Result<(), AllocError>
    ensures { OnOk result (out.new.items ≡ out.old.items ++ ended line.now) }
{
    out.extend_from_slice(line.as_bytes())?;
    out.push(b'\n')?;
    Ok(())
}

/// Lines as one text, each with a newline after it.
pub fn joined(alloc: Global, lines: &[String]) -> Result<Vec<u8>, AllocError>
    ensures { IfOk result (λ text. text.items ≡ text_of (map string_bytes lines.now)) }
{
    let mut text = Vec::new(alloc);
    for line in lines {
        push_line(line.as_str(), &mut text)?;
    }
    Ok(text)
}

/// A character, or a question mark in place of a control character.
fn shown_character(character: char) -> char
    ensures { result ≡ shown_character character }
{
    if character.is_control() {
        MARK
    } else {
        character
    }
}

/// A line with a question mark in place of each control character.
fn shown_text(alloc: Global, line: &str) -> Result<String, AllocError>
    ensures { IfOk result (λ shown. string_bytes shown ≡ shown_text line.now) }
{
    let mut shown = String::new(alloc);
    for character in line.chars() {
        shown.push(shown_character(character))?;
    }
    Ok(shown)
}

/// Appends a line with a question mark in place of each control character, and a newline.
pub fn push_shown(alloc: Global, line: &str, out: &mut Vec<u8>) -> Result<(), AllocError>
    ensures { OnOk result (out.new.items ≡ out.old.items ++ shown_line line.now) }
{
    let shown = shown_text(alloc, line)?;
    push_line(shown.as_str(), out)
}

/// Appends lines with a question mark in place of each control character, each with a newline after it.
pub fn push_all_shown(alloc: Global, lines: &[String], out: &mut Vec<u8>) -> Result<(), AllocError>
    ensures { OnOk result (out.new.items ≡ out.old.items ++ shown_lines (map string_bytes lines.now)) }
{
    for line in lines {
        push_shown(alloc, line.as_str(), out)?;
    }
    Ok(())
}
