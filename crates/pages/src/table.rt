//! Cells of tables.

ghost use Rattle.std.specs.Prelude.{◌≡◌, ◌++◌, OnOk, string_bytes};
ghost use Rattle.pages.specs.Frame.{cell, constant_cell, name_cell};

use crate::escape::{push_markup, push_text};
use std::alloc::AllocError;

/// What a table ends with.
pub const TABLE_END: &str = "</tbody>\n</table></div>\n";

/// Appends a cell with markup.
#[tactic(auto, unfolding(crate::specs::Frame::constant_cell))]
pub fn push_constant_cell(markup: &'static str, out: &mut String) -> Result<(), AllocError>
    ensures { OnOk result (string_bytes out.new ≡ string_bytes out.old ++ constant_cell markup.now) }
{
    push_markup("<td>", out)?;
    push_markup(markup, out)?;
    push_markup("</td>", out)
}

/// Appends a cell with a text.
#[tactic(auto, unfolding(crate::specs::Frame::cell))]
pub fn push_cell(text: &str, out: &mut String) -> Result<(), AllocError>
    ensures { OnOk result (string_bytes out.new ≡ string_bytes out.old ++ cell text.now) }
{
    push_markup("<td>", out)?;
    push_text(text, out)?;
    push_markup("</td>", out)
}

/// Appends a cell with a name, which no line break parts.
#[tactic(auto, unfolding(crate::specs::Frame::name_cell))]
pub fn push_name_cell(name: &str, out: &mut String) -> Result<(), AllocError>
    ensures { OnOk result (string_bytes out.new ≡ string_bytes out.old ++ name_cell name.now) }
{
    push_markup("<td class=\"name\">", out)?;
    push_text(name, out)?;
    push_markup("</td>", out)
}
