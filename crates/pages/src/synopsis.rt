//! What an item is, in one line.

ghost use Rattle.std.specs.Prelude.{◌≡◌, ◌++◌, OnOk, string_bytes};
ghost use Rattle.para.specs.Field.{field_value};
ghost use Rattle.pages.specs.SuitePage.{known_line, first_line, synopsis};

use crate::escape::{push_markup, push_text};
use para::{Field, Paragraph};
use std::alloc::{AllocError, Global};
use texts::paragraph_in;

/// Appends the first line of a field.
#[tactic(auto, unfolding(crate::specs::SuitePage::known_line))]
fn push_line(field: &Field<'_>, out: &mut String) -> Result<(), AllocError>
    ensures { OnOk result (string_bytes out.new ≡ string_bytes out.old ++ known_line (field_value field.now)) }
{
    push_markup("<div class=\"dim\">", out)?;
    push_text(field.first, out)?;
    push_markup("</div>", out)
}

/// Appends what a paragraph says of itself in one line, if it does.
#[tactic(auto, unfolding(crate::specs::SuitePage::first_line))]
fn push_first_line(paragraph: &Paragraph<'_>, out: &mut String) -> Result<(), AllocError>
    ensures { OnOk result (string_bytes out.new ≡ string_bytes out.old ++ first_line paragraph.now) }
{
    match paragraph.get("Description") {
        Some(field) => push_line(field, out),
        None => Ok(()),
    }
}

/// Appends what an item is in one line, if the paragraph that its text spells says it.
#[tactic(auto, using(crate::proofs::Synopses::nothing_said), unfolding(crate::specs::SuitePage::synopsis))]
pub fn push_synopsis(alloc: Global, text: &str, out: &mut String) -> Result<(), AllocError>
    ensures { OnOk result (string_bytes out.new ≡ string_bytes out.old ++ synopsis text.now) }
{
    match paragraph_in(alloc, text)? {
        Some(paragraph) => push_first_line(&paragraph, out),
        None => Ok(()),
    }
}
