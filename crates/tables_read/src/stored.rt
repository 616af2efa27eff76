//! The rows of each table: the statements that read them, and the columns in their order.

ghost use Rattle.std.specs.Prelude.{◌≡◌, ◌≢◌, ◌⊎◌, None, IfErr, IfOk, IfSome, ⊤};
ghost use Rattle.sqlite.specs.declared.error.Error.TheVariants.{SqliteFailure};
ghost use Rattle.sqlite.specs.declared.error.ErrorCode.TheVariants.{OutOfMemory};
ghost use Rattle.tables_read.specs.Layout.{Layout, IsLayout, IsShort};
ghost use Rattle.tables_read.specs.Reading.{AsksForRows, Agree};
ghost use Rattle.tables.specs.Real.{IsRealBody, IsRealArrival, IsRealUpload, IsRealWant, IsRealItem, IsRealRef, IsRealFile, IsRealText, IsRealDate};
ghost use Rattle.tables_read.specs.Layouts.{body_seen, seen_in};
ghost use Rattle.tables_read.specs.Layouts.{meta_layout, body_layout, piece_layout, arrival_layout, upload_layout, want_layout, item_layout, ref_layout, file_layout, text_layout, date_layout};
ghost use Rattle.tables_read.specs.Laid.{meta_laid, body_laid, piece_laid, arrival_laid, upload_laid, want_laid, item_laid, ref_laid, file_laid, text_laid, date_laid};

use crate::cells::{Cells, Id};
use para::{Listed, Text};
use sqlite::{Error, Row};
use sums::Print;
use tables::rows::{
    ArrivalRow, BodyRow, Date, File, ItemRow, Meta, Piece, Ref, TextRow, UploadRow, Want,
};

/// A row of one of the tables.
pub trait Stored: Sized + Drop {
    ghost layout: { Layout Self };

    // the values that code can hold
    ghost is_real: { Self → Type 0 };

    /// The text that asks for the rowid and the columns of each row, by rowid.
    fn rows_text() -> &'static str
        ensures { AsksForRows layout.tree layout.columns result.now };

    /// The row whose columns follow the rowid, if they are of its types.
    fn from_row(row: &Row) -> Result<Option<Self>, Error>
        ensures some { IfOk result (λ o. IfSome o (λ x. Agree row.now 1 (layout.seen x))) }
        ensures none { IfOk result (λ o. o ≡ None → (x : Self) → is_real x → ¬ Agree row.now 1 (layout.seen x)) }
        ensures cause { IfErr result (λ e. (e ≡ SqliteFailure OutOfMemory) ⊎ IsShort layout row.now) };

    ghost laid: { IsLayout layout };
}

/// A size and three digests, and what follows.
type Printed<More> = (u64, ([u8; 16], ([u8; 20], ([u8; 32], More))));

/// A size and three digests, each of which may be absent.
type MaybePrinted = (
    Option<u64>,
    (Option<[u8; 16]>, (Option<[u8; 20]>, (Option<[u8; 32]>, ()))),
);

const META: &str = "SELECT rowid, version, configuration FROM meta ORDER BY rowid";

/// The row of `meta` with these values.
fn meta(cells: (u64, (Listed<u8>, ()))) -> Meta
    ensures { result ≡ record { version = cells.0; configuration = cells.1.0 } }
{
    let (version, cells) = cells;
    let (configuration, ()) = cells;
    Meta {
        version,
        configuration,
    }
}

impl Stored for Meta {
    ghost layout = { meta_layout };

    ghost is_real = { λ _. ⊤ };

    ghost laid = { meta_laid };

    fn rows_text() -> &'static str {
        META
    }

    fn from_row(row: &Row) -> Result<Option<Meta>, Error> {
        match <(u64, (Listed<u8>, ()))>::from_cells(row, 1)? {
            Some(cells) => Ok(Some(meta(cells))),
            None => Ok(None),
        }
    }
}

const BODIES: &str = "SELECT rowid, size, md5, sha1, sha256 FROM bodies ORDER BY rowid";

/// The body with these values, which are all there or all absent. Nothing if some are there and others absent.
fn body(cells: MaybePrinted) -> Option<BodyRow>
    ensures some { IfSome result (λ b. seen_in cells ≡ body_seen b) }
    ensures none { result ≡ None → (b : BodyRow) → seen_in cells ≢ body_seen b }
{
    match cells {
        (Some(size), (Some(md5), (Some(sha1), (Some(sha256), ())))) => Some(BodyRow {
            print: Some(Print {
                size,
                md5,
                sha1,
                sha256,
            }),
        }),
        (None, (None, (None, (None, ())))) => Some(BodyRow { print: None }),
        _ => None,
    }
}

impl Stored for BodyRow {
    ghost layout = { body_layout };

    ghost is_real = { IsRealBody };

    ghost laid = { body_laid };

    fn rows_text() -> &'static str {
        BODIES
    }

    fn from_row(row: &Row) -> Result<Option<BodyRow>, Error> {
        match <MaybePrinted>::from_cells(row, 1)? {
            Some(cells) => Ok(body(cells)),
            None => Ok(None),
        }
    }
}

const PIECES: &str = "SELECT rowid, body, number, bytes FROM pieces ORDER BY rowid";

/// The piece with these values.
fn piece(cells: (Id, (u64, (Listed<u8>, ())))) -> Piece
    ensures { result ≡ record { body = cells.0.number; number = cells.1.0; bytes = cells.1.1.0 } }
{
    let (body, cells) = cells;
    let (number, cells) = cells;
    let (bytes, ()) = cells;
    Piece {
        body: body.number,
        number,
        bytes,
    }
}

impl Stored for Piece {
    ghost layout = { piece_layout };

    ghost is_real = { λ _. ⊤ };

    ghost laid = { piece_laid };

    fn rows_text() -> &'static str {
        PIECES
    }

    fn from_row(row: &Row) -> Result<Option<Piece>, Error> {
        match <(Id, (u64, (Listed<u8>, ())))>::from_cells(row, 1)? {
            Some(cells) => Ok(Some(piece(cells))),
            None => Ok(None),
        }
    }
}

const ARRIVALS: &str = "SELECT rowid, name, body, moment FROM arrivals ORDER BY rowid";

/// The arrival with these values.
fn arrival(cells: (Text, (Id, (u64, ())))) -> ArrivalRow
    ensures { result ≡ record { name = cells.0; body = cells.1.0.number; moment = cells.1.1.0 } }
{
    let (name, cells) = cells;
    let (body, cells) = cells;
    let (moment, ()) = cells;
    ArrivalRow {
        name,
        body: body.number,
        moment,
    }
}

impl Stored for ArrivalRow {
    ghost layout = { arrival_layout };

    ghost is_real = { IsRealArrival };

    ghost laid = { arrival_laid };

    fn rows_text() -> &'static str {
        ARRIVALS
    }

    fn from_row(row: &Row) -> Result<Option<ArrivalRow>, Error> {
        match <(Text, (Id, (u64, ())))>::from_cells(row, 1)? {
            Some(cells) => Ok(Some(arrival(cells))),
            None => Ok(None),
        }
    }
}

const UPLOADS: &str =
    "SELECT rowid, name, size, md5, sha1, sha256, place, verdict FROM uploads ORDER BY rowid";

/// The upload with these values.
fn upload(cells: (Text, Printed<(Option<u64>, (Option<u64>, ()))>)) -> UploadRow
    ensures { result ≡ record { name = cells.0; place = cells.1.1.1.1.1.0; verdict = cells.1.1.1.1.1.1.0; print = record { size = cells.1.0; md5 = cells.1.1.0; sha1 = cells.1.1.1.0; sha256 = cells.1.1.1.1.0 } } }
{
    let (name, cells) = cells;
    let (size, cells) = cells;
    let (md5, cells) = cells;
    let (sha1, cells) = cells;
    let (sha256, cells) = cells;
    let (place, cells) = cells;
    let (verdict, ()) = cells;
    let print = Print {
        size,
        md5,
        sha1,
        sha256,
    };
    UploadRow {
        name,
        place,
        verdict,
        print,
    }
}

impl Stored for UploadRow {
    ghost layout = { upload_layout };

    ghost is_real = { IsRealUpload };

    ghost laid = { upload_laid };

    fn rows_text() -> &'static str {
        UPLOADS
    }

    fn from_row(row: &Row) -> Result<Option<UploadRow>, Error> {
        match <(Text, Printed<(Option<u64>, (Option<u64>, ()))>)>::from_cells(row, 1)? {
            Some(cells) => Ok(Some(upload(cells))),
            None => Ok(None),
        }
    }
}

const WANTS: &str =
    "SELECT rowid, upload, name, size, md5, sha1, sha256, here FROM wants ORDER BY rowid";

/// The entry of an upload with these values.
fn want(cells: (Id, (Text, Printed<(bool, ())>))) -> Want
    ensures { result ≡ record { upload = cells.0.number; name = cells.1.0; here = cells.1.1.1.1.1.1.0; print = record { size = cells.1.1.0; md5 = cells.1.1.1.0; sha1 = cells.1.1.1.1.0; sha256 = cells.1.1.1.1.1.0 } } }
{
    let (upload, cells) = cells;
    let (name, cells) = cells;
    let (size, cells) = cells;
    let (md5, cells) = cells;
    let (sha1, cells) = cells;
    let (sha256, cells) = cells;
    let (here, ()) = cells;
    let print = Print {
        size,
        md5,
        sha1,
        sha256,
    };
    Want {
        upload: upload.number,
        name,
        here,
        print,
    }
}

impl Stored for Want {
    ghost layout = { want_layout };

    ghost is_real = { IsRealWant };

    ghost laid = { want_laid };

    fn rows_text() -> &'static str {
        WANTS
    }

    fn from_row(row: &Row) -> Result<Option<Want>, Error> {
        match <(Id, (Text, Printed<(bool, ())>))>::from_cells(row, 1)? {
            Some(cells) => Ok(Some(want(cells))),
            None => Ok(None),
        }
    }
}

const ITEMS: &str =
    "SELECT rowid, suite, kind, package, architecture, version, component, source, paragraph FROM items ORDER BY rowid";

/// The columns of an item from its version on.
type Shown = (Text, (Text, (Text, (Listed<u8>, ()))));

/// The item with these values.
fn item(cells: (Text, (u64, (Text, (Text, Shown))))) -> ItemRow
    ensures { result ≡ record { suite = cells.0; kind = cells.1.0; «package» = cells.1.1.0; architecture = cells.1.1.1.0; version = cells.1.1.1.1.0; component = cells.1.1.1.1.1.0; source = cells.1.1.1.1.1.1.0; paragraph = cells.1.1.1.1.1.1.1.0 } }
{
    let (suite, cells) = cells;
    let (kind, cells) = cells;
    let (package, cells) = cells;
    let (architecture, cells) = cells;
    let (version, cells) = cells;
    let (component, cells) = cells;
    let (source, cells) = cells;
    let (paragraph, ()) = cells;
    ItemRow {
        suite,
        kind,
        package,
        architecture,
        version,
        component,
        source,
        paragraph,
    }
}

impl Stored for ItemRow {
    ghost layout = { item_layout };

    ghost is_real = { IsRealItem };

    ghost laid = { item_laid };

    fn rows_text() -> &'static str {
        ITEMS
    }

    fn from_row(row: &Row) -> Result<Option<ItemRow>, Error> {
        match <(Text, (u64, (Text, (Text, Shown))))>::from_cells(row, 1)? {
            Some(cells) => Ok(Some(item(cells))),
            None => Ok(None),
        }
    }
}

const REFS: &str =
    "SELECT rowid, item, number, path, size, md5, sha1, sha256 FROM refs ORDER BY rowid";

/// The file of an item with these values.
fn refers(cells: (Id, (u64, (Text, Printed<()>)))) -> Ref
    ensures { result ≡ record { item = cells.0.number; number = cells.1.0; path = cells.1.1.0; print = record { size = cells.1.1.1.0; md5 = cells.1.1.1.1.0; sha1 = cells.1.1.1.1.1.0; sha256 = cells.1.1.1.1.1.1.0 } } }
{
    let (item, cells) = cells;
    let (number, cells) = cells;
    let (path, cells) = cells;
    let (size, cells) = cells;
    let (md5, cells) = cells;
    let (sha1, cells) = cells;
    let (sha256, ()) = cells;
    let print = Print {
        size,
        md5,
        sha1,
        sha256,
    };
    Ref {
        item: item.number,
        number,
        path,
        print,
    }
}

impl Stored for Ref {
    ghost layout = { ref_layout };

    ghost is_real = { IsRealRef };

    ghost laid = { ref_laid };

    fn rows_text() -> &'static str {
        REFS
    }

    fn from_row(row: &Row) -> Result<Option<Ref>, Error> {
        match <(Id, (u64, (Text, Printed<()>)))>::from_cells(row, 1)? {
            Some(cells) => Ok(Some(refers(cells))),
            None => Ok(None),
        }
    }
}

const FILES: &str = "SELECT rowid, path, body FROM files ORDER BY rowid";

/// The file of the pool with these values.
fn file(cells: (Text, (Id, ()))) -> File
    ensures { result ≡ record { path = cells.0; body = cells.1.0.number } }
{
    let (path, cells) = cells;
    let (body, ()) = cells;
    File {
        path,
        body: body.number,
    }
}

impl Stored for File {
    ghost layout = { file_layout };

    ghost is_real = { IsRealFile };

    ghost laid = { file_laid };

    fn rows_text() -> &'static str {
        FILES
    }

    fn from_row(row: &Row) -> Result<Option<File>, Error> {
        match <(Text, (Id, ()))>::from_cells(row, 1)? {
            Some(cells) => Ok(Some(file(cells))),
            None => Ok(None),
        }
    }
}

const TEXTS: &str = "SELECT rowid, path, body FROM texts ORDER BY rowid";

/// The index text with these values.
fn text(cells: (Text, (Listed<u8>, ()))) -> TextRow
    ensures { result ≡ record { path = cells.0; body = cells.1.0 } }
{
    let (path, cells) = cells;
    let (body, ()) = cells;
    TextRow { path, body }
}

impl Stored for TextRow {
    ghost layout = { text_layout };

    ghost is_real = { IsRealText };

    ghost laid = { text_laid };

    fn rows_text() -> &'static str {
        TEXTS
    }

    fn from_row(row: &Row) -> Result<Option<TextRow>, Error> {
        match <(Text, (Listed<u8>, ()))>::from_cells(row, 1)? {
            Some(cells) => Ok(Some(text(cells))),
            None => Ok(None),
        }
    }
}

const DATES: &str = "SELECT rowid, suite, moment FROM dates ORDER BY rowid";

/// The date with these values.
fn date(cells: (Text, (u64, ()))) -> Date
    ensures { result ≡ record { suite = cells.0; moment = cells.1.0 } }
{
    let (suite, cells) = cells;
    let (moment, ()) = cells;
    Date { suite, moment }
}

impl Stored for Date {
    ghost layout = { date_layout };

    ghost is_real = { IsRealDate };

    ghost laid = { date_laid };

    fn rows_text() -> &'static str {
        DATES
    }

    fn from_row(row: &Row) -> Result<Option<Date>, Error> {
        match <(Text, (u64, ()))>::from_cells(row, 1)? {
            Some(cells) => Ok(Some(date(cells))),
            None => Ok(None),
        }
    }
}
