//! For each table, the text of a layout that asks for its rows.

ghost use Rattle.std.specs.Prelude.{◌≡◌, ℕ, List};
ghost use Rattle.old_rows.specs.Layouts.{Asked as Texts, AreSelects};
ghost use Rattle.old_rows.specs.Shown.{IsSelectText};

use crate::asked::Asked;
use tables::rows::{
    ArrivalRow, BodyRow, Date, File, ItemRow, Meta, Piece, Ref, TextRow, UploadRow, Want,
};
use tables_read::Stored;

/// A row of a table that a text of each layout asks for.
pub(crate) trait AskedFor: Stored {
    ghost text: { Texts → List ℕ };

    ghost selects: { (asked : Texts) → AreSelects asked → IsSelectText (text asked) };

    /// The text that asks for the rows of the table.
    fn text_of(asked: &Asked) -> &'static str
        ensures { result.now ≡ text asked.now };
}

impl AskedFor for Meta {
    ghost text = { λ asked. asked.meta };

    ghost selects = { λ asked all. all.meta };

    fn text_of(asked: &Asked) -> &'static str {
        asked.meta
    }
}

impl AskedFor for BodyRow {
    ghost text = { λ asked. asked.bodies };

    ghost selects = { λ asked all. all.bodies };

    fn text_of(asked: &Asked) -> &'static str {
        asked.bodies
    }
}

impl AskedFor for Piece {
    ghost text = { λ asked. asked.pieces };

    ghost selects = { λ asked all. all.pieces };

    fn text_of(asked: &Asked) -> &'static str {
        asked.pieces
    }
}

impl AskedFor for ArrivalRow {
    ghost text = { λ asked. asked.arrivals };

    ghost selects = { λ asked all. all.arrivals };

    fn text_of(asked: &Asked) -> &'static str {
        asked.arrivals
    }
}

impl AskedFor for UploadRow {
    ghost text = { λ asked. asked.uploads };

    ghost selects = { λ asked all. all.uploads };

    fn text_of(asked: &Asked) -> &'static str {
        asked.uploads
    }
}

impl AskedFor for Want {
    ghost text = { λ asked. asked.wants };

    ghost selects = { λ asked all. all.wants };

    fn text_of(asked: &Asked) -> &'static str {
        asked.wants
    }
}

impl AskedFor for ItemRow {
    ghost text = { λ asked. asked.items };

    ghost selects = { λ asked all. all.items };

    fn text_of(asked: &Asked) -> &'static str {
        asked.items
    }
}

impl AskedFor for Ref {
    ghost text = { λ asked. asked.refs };

    ghost selects = { λ asked all. all.refs };

    fn text_of(asked: &Asked) -> &'static str {
        asked.refs
    }
}

impl AskedFor for File {
    ghost text = { λ asked. asked.files };

    ghost selects = { λ asked all. all.files };

    fn text_of(asked: &Asked) -> &'static str {
        asked.files
    }
}

impl AskedFor for TextRow {
    ghost text = { λ asked. asked.texts };

    ghost selects = { λ asked all. all.texts };

    fn text_of(asked: &Asked) -> &'static str {
        asked.texts
    }
}

impl AskedFor for Date {
    ghost text = { λ asked. asked.dates };

    ghost selects = { λ asked all. all.dates };

    fn text_of(asked: &Asked) -> &'static str {
        asked.dates
    }
}
