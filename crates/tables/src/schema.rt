//! The tables, and how they and the two indexes of bodies are made.
//!
//! `bodies` has the print for a second key, `arrivals` name and body. A body that is there is found by the first. By both, no body is
//! stored twice and no pair arrives twice. An arrival has the print of its body through the body alone.
//!
//! When the print of a body is written, or a body goes, SQL looks for rows that refer to it. By the indexes `arrivals_by_body` and
//! `files_by_body` it finds them, and looks through no other row. These indexes are not part of the layout. An index is one of them if it
//! has that name, table and column. They may be missing: an archive that was made without them, or lost them, opens and is slower. An index
//! of one of these names with another column, or a unique one, is somebody else's index on the archive's table.
//!
//! Other things on a table of the archive do not leave it alone: a unique index may refuse a row, a reference may refuse that a row goes,
//! a trigger may do anything, and an index that takes any rows costs time at each write.
//!
//! A view is passed over, also one of the archive's tables: a table is looked for before a view, and a view changes nothing.

ghost use Rattle.std.specs.Prelude.{◌≡◌, ◌<◌, IfErr, OnOk};
ghost use Rattle.tables.specs.Causes.{IsCaused};
ghost use Rattle.tables.specs.Creating.{Creates, CreatesIndexes, text_at};
ghost use Rattle.tables.specs.Schema.{no_schema};
ghost use Rattle.tables.specs.Calls.{CommitsNothing, Inside, IsSame, KeepsCommitted};

use sqlite::{Alter, Error, Transaction};

const CREATE_META: &str =
    "CREATE TABLE meta (version INTEGER NOT NULL, configuration BLOB NOT NULL) STRICT";

const CREATE_BODIES: &str =
    "CREATE TABLE bodies (id INTEGER PRIMARY KEY, size INTEGER, md5 BLOB, sha1 BLOB, sha256 BLOB, UNIQUE (size, md5, sha1, sha256)) STRICT";

const CREATE_PIECES: &str =
    "CREATE TABLE pieces (body INTEGER NOT NULL REFERENCES bodies (id), number INTEGER NOT NULL, bytes BLOB NOT NULL, PRIMARY KEY (body, number)) STRICT";

const CREATE_ARRIVALS: &str =
    "CREATE TABLE arrivals (id INTEGER PRIMARY KEY, name TEXT NOT NULL, body INTEGER NOT NULL REFERENCES bodies (id), moment INTEGER NOT NULL, UNIQUE (name, body)) STRICT";

const CREATE_UPLOADS: &str =
    "CREATE TABLE uploads (id INTEGER PRIMARY KEY, name TEXT NOT NULL, size INTEGER NOT NULL, md5 BLOB NOT NULL, sha1 BLOB NOT NULL, sha256 BLOB NOT NULL, place INTEGER UNIQUE, verdict INTEGER, UNIQUE (name, size, md5, sha1, sha256)) STRICT";

const CREATE_WANTS: &str =
    "CREATE TABLE wants (upload INTEGER NOT NULL REFERENCES uploads (id), name TEXT NOT NULL, size INTEGER NOT NULL, md5 BLOB NOT NULL, sha1 BLOB NOT NULL, sha256 BLOB NOT NULL, here INTEGER NOT NULL, PRIMARY KEY (upload, name), UNIQUE (name, size, md5, sha1, sha256, upload)) STRICT";

const CREATE_ITEMS: &str =
    "CREATE TABLE items (id INTEGER PRIMARY KEY, suite TEXT NOT NULL, kind INTEGER NOT NULL, package TEXT NOT NULL, architecture TEXT NOT NULL, version TEXT NOT NULL, component TEXT NOT NULL, source TEXT NOT NULL, paragraph BLOB NOT NULL, UNIQUE (suite, kind, package, architecture)) STRICT";

const CREATE_REFS: &str =
    "CREATE TABLE refs (item INTEGER NOT NULL REFERENCES items (id), number INTEGER NOT NULL, path TEXT NOT NULL, size INTEGER NOT NULL, md5 BLOB NOT NULL, sha1 BLOB NOT NULL, sha256 BLOB NOT NULL, PRIMARY KEY (item, number)) STRICT";

const CREATE_FILES: &str =
    "CREATE TABLE files (path TEXT NOT NULL PRIMARY KEY, body INTEGER NOT NULL REFERENCES bodies (id)) STRICT";

const CREATE_TEXTS: &str =
    "CREATE TABLE texts (path TEXT NOT NULL PRIMARY KEY, body BLOB NOT NULL) STRICT";

const CREATE_DATES: &str =
    "CREATE TABLE dates (suite TEXT NOT NULL PRIMARY KEY, moment INTEGER NOT NULL) STRICT";

const CREATE_ARRIVALS_BY_BODY: &str = "CREATE INDEX arrivals_by_body ON arrivals (body)";

const CREATE_FILES_BY_BODY: &str = "CREATE INDEX files_by_body ON files (body)";

/// The text that makes the table at this place. A table comes after those that it refers to.
fn create_text(at: usize) -> &'static str
    requires { at < 11 }
    ensures { result.now ≡ text_at at }
{
    match at {
        0 => CREATE_META,
        1 => CREATE_BODIES,
        2 => CREATE_PIECES,
        3 => CREATE_ARRIVALS,
        4 => CREATE_UPLOADS,
        5 => CREATE_WANTS,
        6 => CREATE_ITEMS,
        7 => CREATE_REFS,
        8 => CREATE_FILES,
        9 => CREATE_TEXTS,
        _ => CREATE_DATES,
    }
}

/// Makes the tables of an archive, all of them empty, in a database that has no table.
pub fn create_tables<S: Alter>(tx: &mut Transaction<'_, S>) -> Result<(), Error>
    ensures same_reference { IsSame tx.old tx.new }
    ensures ok { Inside S.Store tx.old tx.new (λ old new. OnOk result (Creates old new)) }
    ensures err { KeepsCommitted S.Store tx.old tx.new result }
    // No table is refused.
    ensures cause { Inside S.Store tx.old tx.new (λ old new. old.now.schema ≡ no_schema → IfErr result (IsCaused old new)) }
    ensures survives { CommitsNothing S.Store tx.old tx.new }
{
    for at in 0..11 {
        tx.execute(create_text(at), &[])?;
    }
    Ok(())
}

/// Makes the two indexes by which the arrivals and the files of a body are found, in a database that has the tables of an archive and
/// nothing else. They are not part of the layout: an archive without them is only slower.
pub fn create_indexes<S: Alter>(tx: &mut Transaction<'_, S>) -> Result<(), Error>
    ensures same_reference { IsSame tx.old tx.new }
    ensures ok { Inside S.Store tx.old tx.new (λ old new. OnOk result (CreatesIndexes old new)) }
    ensures err { KeepsCommitted S.Store tx.old tx.new result }
    ensures survives { CommitsNothing S.Store tx.old tx.new }
{
    tx.execute(CREATE_ARRIVALS_BY_BODY, &[])?;
    tx.execute(CREATE_FILES_BY_BODY, &[])?;
    Ok(())
}
