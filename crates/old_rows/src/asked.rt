//! The texts that ask a database of an older layout for rows of today's tables.
//!
//! A database is not of a layout if the text that asks for the version finds another one, or if a text asks for a table that is not there
//! or gets rows of other types. Tables, columns and indexes that no query names are passed over. A layout that becomes an older one needs
//! eleven texts here, with the proof that they are SELECTs. That is not all: `old_book` has to say what its rows and its index texts are.

ghost use Rattle.std.specs.Prelude.{◌≡◌};
ghost use Rattle.old_rows.specs.Layouts.{AreSelects, first_layout, second_layout};

use std::marker::Model;

/// The texts that ask a database of a layout for rows of today's tables, one text for each table.
#[derive(Drop)]
pub struct Asked {
    pub(crate) meta: &'static str,
    pub(crate) bodies: &'static str,
    pub(crate) pieces: &'static str,
    pub(crate) arrivals: &'static str,
    pub(crate) uploads: &'static str,
    pub(crate) wants: &'static str,
    pub(crate) items: &'static str,
    pub(crate) refs: &'static str,
    pub(crate) files: &'static str,
    pub(crate) texts: &'static str,
    pub(crate) dates: &'static str,
}

impl Model for Asked {
    ghost use Rattle.old_rows.specs.Layouts.{Asked as Texts};

    ghost Value = { Texts };

    ghost view = { λ a. record { meta = a.meta.now; bodies = a.bodies.now; pieces = a.pieces.now; arrivals = a.arrivals.now; uploads = a.uploads.now; wants = a.wants.now; items = a.items.now; refs = a.refs.now; files = a.files.now; texts = a.texts.now; dates = a.dates.now } };
}

/// The layout that keeps a body in the rows of its arrivals and files.
pub fn first() -> Asked
    ensures layout { result ≡ first_layout }
    ensures selects { AreSelects result }
{
    Asked {
        meta: "SELECT rowid, 3, configuration FROM meta WHERE version = 1 ORDER BY rowid",
        bodies: "SELECT min(id), size, md5, sha1, sha256 FROM arrivals GROUP BY size, md5, sha1, sha256 ORDER BY min(id)",
        pieces: "WITH RECURSIVE k (n) AS (SELECT 1 UNION ALL SELECT n + 1 FROM k LIMIT 64), b (id) AS (SELECT min(id) FROM arrivals GROUP BY size, md5, sha1, sha256) SELECT k.n, a.id, k.n, substr(a.body, CAST(65536 * k.n - 65535 AS INTEGER), 65536) FROM b JOIN arrivals AS a ON a.id = b.id JOIN k ON 65536 * k.n - 65535 <= length(a.body) ORDER BY a.id, k.n",
        arrivals: "SELECT a.id, a.name, min(b.id), 0 FROM arrivals AS a JOIN arrivals AS b ON b.size = a.size AND b.md5 = a.md5 AND b.sha1 = a.sha1 AND b.sha256 = a.sha256 AND b.body = a.body GROUP BY a.id, a.name ORDER BY a.id",
        uploads: "SELECT u.arrival, a.name, a.size, a.md5, a.sha1, a.sha256, u.place, u.verdict FROM uploads AS u JOIN arrivals AS a ON a.id = u.arrival ORDER BY u.arrival",
        wants: "SELECT rowid, upload, name, size, md5, sha1, sha256, here FROM wants ORDER BY rowid",
        items: "SELECT rowid, suite, kind, package, architecture, version, component, source, paragraph FROM items ORDER BY rowid",
        refs: "SELECT rowid, item, number, path, size, md5, sha1, sha256 FROM refs ORDER BY rowid",
        files: "SELECT f.rowid, f.path, min(a.id) FROM files AS f JOIN arrivals AS a ON a.size = f.size AND a.md5 = f.md5 AND a.sha1 = f.sha1 AND a.sha256 = f.sha256 AND a.body = f.body GROUP BY f.rowid, f.path ORDER BY f.rowid",
        texts: "SELECT rowid, path, body FROM texts ORDER BY rowid",
        dates: "SELECT rowid, suite, moment FROM dates ORDER BY rowid",
    }
}

/// The layout that keeps bodies in pieces, and arrivals without their moments.
pub fn second() -> Asked
    ensures layout { result ≡ second_layout }
    ensures selects { AreSelects result }
{
    Asked {
        meta: "SELECT rowid, 3, configuration FROM meta WHERE version = 2 ORDER BY rowid",
        bodies: "SELECT rowid, size, md5, sha1, sha256 FROM bodies WHERE size IS NOT NULL ORDER BY rowid",
        pieces: "SELECT rowid, body, number, bytes FROM pieces WHERE body IN (SELECT id FROM bodies WHERE size IS NOT NULL) ORDER BY rowid",
        arrivals: "SELECT rowid, name, body, 0 FROM arrivals ORDER BY rowid",
        uploads: "SELECT u.arrival, a.name, b.size, b.md5, b.sha1, b.sha256, u.place, u.verdict FROM uploads AS u JOIN arrivals AS a ON a.id = u.arrival JOIN bodies AS b ON b.id = a.body ORDER BY u.arrival",
        wants: "SELECT rowid, upload, name, size, md5, sha1, sha256, here FROM wants ORDER BY rowid",
        items: "SELECT rowid, suite, kind, package, architecture, version, component, source, paragraph FROM items ORDER BY rowid",
        refs: "SELECT rowid, item, number, path, size, md5, sha1, sha256 FROM refs ORDER BY rowid",
        files: "SELECT rowid, path, body FROM files ORDER BY rowid",
        texts: "SELECT rowid, path, body FROM texts ORDER BY rowid",
        dates: "SELECT rowid, suite, moment FROM dates ORDER BY rowid",
    }
}
