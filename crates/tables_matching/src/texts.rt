//! Rows of texts.

ghost use Rattle.std.specs.Prelude.{◌≡◌, ◌↔◌, IsTrue};
ghost use Rattle.tables_matching.specs.Rows.{text_in};

use tables::rows::TextRow;

/// Whether a row has this text at this path.
pub fn is_text_row(row: &TextRow, path: &str, body: &[u8]) -> bool
    ensures { IsTrue result ↔ (text_in row.now ≡ (path.now, body.now)) }
{
    if row.path.as_str() != path {
        return false;
    }
    row.body.as_slice() == body
}
