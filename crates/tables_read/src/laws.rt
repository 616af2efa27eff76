//! What the keys of the tables keep true, as a law.

ghost use Rattle.sqlite.specs.Effect.{Database, IsDatabase};
ghost use Rattle.tables.specs.Rows.{Tables, Holds};
ghost use Rattle.tables_read.specs.All.{AreConstrained};

/// Whatever is written, the rows that a database holds have the keys of their tables.
pub fn constrained_tables()
    ensures { (db : Database) (t : Tables) → IsDatabase db → Holds db t → AreConstrained t }
{}
