//! What the tables of an archive are, as laws.

ghost use Rattle.std.specs.Prelude.{◌≡◌};
ghost use Rattle.sqlite.specs.Effect.{Database};
ghost use Rattle.tables.specs.Rows.{Tables, Holds, tables_in};

use crate::meta::VERSION;

/// A database holds at most one list of rows for each table: `tables_in` gives them.
pub fn held_tables()
    ensures { (db : Database) (t : Tables) → Holds db t → tables_in db ≡ t }
{}

/// The number of the layout is 3. An archive that has another number in `meta` is not of this layout.
pub fn the_layout_is_the_third()
    ensures { VERSION ≡ 3 }
{}
