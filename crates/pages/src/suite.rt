//! The page of a suite: what it shows.

ghost use Rattle.std.specs.Prelude.{◌≡◌, ◌++◌, IfOk, OnOk, map, string_bytes};
ghost use Rattle.std.specs.List.{flat_map};
ghost use Rattle.pages.specs.SuitePage.{kind_word, item_cell, tenths_text, size_text, file_link, file_text, files_cell, row_start, item_row, rows, description_at, summary, suite_page};

use crate::escape::{push_markup, push_text};
use crate::frame::{push_filter, push_foot, push_head};
use crate::grouped::shown_items;
use crate::index::{push_counts, push_description};
use crate::link::push_link;
use crate::synopsis::push_synopsis;
use crate::table::{TABLE_END, push_cell, push_name_cell};
use rules::Config;
use std::alloc::{AllocError, Global};
use suites::{Item, Kind, PoolFile, Shelves, codename_at};
use texts::file_name;

/// The links of the page.
const LINKS: &str =
    "<nav><a href=\"../../index.html\" aria-current=\"page\">Suites</a><a href=\"../../uploads.html\">Uploads</a></nav>";

/// The field of the filter, which its script shows.
const FILTER_FIELD: &str =
    "<p><input type=\"search\" placeholder=\"Filter\" aria-label=\"Filter\" hidden></p>\n";

/// What stands between what is said of the suite and the rows.
const TABLE_HEAD: &str =
    "<div class=\"wide\"><table>\n<thead><tr><th>Package</th><th>Version</th><th>Architecture</th><th>Component</th><th>Source</th><th>Files</th></tr></thead>\n<tbody>\n";

/// The word for an item, which the style goes by.
#[tactic(auto, unfolding(crate::specs::SuitePage::kind_word))]
fn kind_word(kind: Kind) -> &'static str
    ensures { result.now ≡ kind_word kind }
{
    match kind {
        Kind::Source => "source",
        Kind::Binary => "package",
    }
}

/// Appends the cell of an item's name, with what it is in one line.
#[tactic(auto, unfolding(crate::specs::SuitePage::item_cell))]
fn push_item_cell(alloc: Global, item: &Item, out: &mut String) -> Result<(), AllocError>
    ensures { OnOk result (string_bytes out.new ≡ string_bytes out.old ++ item_cell item.now) }
{
    push_markup("<td><b>", out)?;
    push_text(item.package.as_str(), out)?;
    push_markup("</b>", out)?;
    push_synopsis(alloc, item.paragraph.as_str(), out)?;
    push_markup("</td>", out)
}

/// A number of tenths and a unit.
#[tactic(auto, unfolding(crate::specs::SuitePage::tenths_text))]
fn tenths_text(alloc: Global, tenths: u64, unit: &str) -> Result<String, AllocError>
    ensures { IfOk result (λ text. string_bytes text ≡ tenths_text tenths unit.now) }
{
    let (whole, part) = (tenths / 10, tenths % 10);
    format!(in alloc; "{whole}.{part} {unit}")
}

/// The size of a file, for people: in bytes, or in tenths of 1,000 or 1,000,000 bytes.
#[tactic(auto, unfolding(crate::specs::SuitePage::size_text))]
fn size_text(alloc: Global, size: u64) -> Result<String, AllocError>
    ensures { IfOk result (λ text. string_bytes text ≡ size_text size) }
{
    if size < 1000 {
        return format!(in alloc; "{size} bytes");
    }
    if size < 1_000_000 {
        return tenths_text(alloc, size / 100, "kB");
    }
    tenths_text(alloc, size / 100_000, "MB")
}

/// Appends the name of a file, which is a link to it.
#[tactic(auto, unfolding(crate::specs::SuitePage::file_link))]
fn push_file_link(alloc: Global, path: &str, out: &mut String) -> Result<(), AllocError>
    ensures { OnOk result (string_bytes out.new ≡ string_bytes out.old ++ file_link path.now) }
{
    push_link(alloc, "../../", path, file_name(path), out)
}

/// Appends a file: its name and its size.
#[tactic(auto, unfolding(crate::specs::SuitePage::file_text))]
fn push_file(alloc: Global, file: &PoolFile, out: &mut String) -> Result<(), AllocError>
    ensures { OnOk result (string_bytes out.new ≡ string_bytes out.old ++ file_text file.now) }
{
    let size = size_text(alloc, file.print.size)?;
    push_markup("<div class=\"name\">", out)?;
    push_file_link(alloc, file.path.as_str(), out)?;
    push_markup(" <span class=\"dim\">", out)?;
    push_text(size.as_str(), out)?;
    push_markup("</span></div>", out)
}

/// Appends files.
fn push_files(alloc: Global, files: &[PoolFile], out: &mut String) -> Result<(), AllocError>
    ensures { OnOk result (string_bytes out.new ≡ string_bytes out.old ++ flat_map file_text files.now) }
{
    for file in files {
        push_file(alloc, file, out)?;
    }
    Ok(())
}

/// Appends the cell of an item's files.
#[tactic(auto, unfolding(crate::specs::SuitePage::files_cell))]
fn push_files_cell(alloc: Global, files: &[PoolFile], out: &mut String) -> Result<(), AllocError>
    ensures { OnOk result (string_bytes out.new ≡ string_bytes out.old ++ files_cell files.now) }
{
    push_markup("<td>", out)?;
    push_files(alloc, files, out)?;
    push_markup("</td>", out)
}

/// Appends the beginning of an item's row.
#[tactic(auto, unfolding(crate::specs::SuitePage::row_start))]
fn push_row_start(kind: Kind, out: &mut String) -> Result<(), AllocError>
    ensures { OnOk result (string_bytes out.new ≡ string_bytes out.old ++ row_start kind) }
{
    push_markup("<tr class=\"", out)?;
    push_markup(kind_word(kind), out)?;
    push_markup("\">", out)
}

/// Appends the row of an item.
#[tactic(auto, unfolding(crate::specs::SuitePage::item_row))]
fn push_row(alloc: Global, item: &Item, out: &mut String) -> Result<(), AllocError>
    ensures { OnOk result (string_bytes out.new ≡ string_bytes out.old ++ item_row item.now) }
{
    push_row_start(item.kind, out)?;
    push_item_cell(alloc, item, out)?;
    push_name_cell(item.version.text(), out)?;
    push_cell(item.architecture.as_str(), out)?;
    push_cell(item.component.as_str(), out)?;
    push_name_cell(item.source.as_str(), out)?;
    push_files_cell(alloc, item.files.as_slice(), out)?;
    push_markup("</tr>\n", out)
}

/// Appends the rows of items.
fn push_items(alloc: Global, items: &[&Item], out: &mut String) -> Result<(), AllocError>
    ensures { OnOk result (string_bytes out.new ≡ string_bytes out.old ++ flat_map item_row (map (λ i. i.now) items.now)) }
{
    for item in items {
        push_row(alloc, item, out)?;
    }
    Ok(())
}

/// Appends the rows of what a suite shows.
#[tactic(auto, unfolding(crate::specs::SuitePage::rows))]
fn push_rows(
    alloc: Global,
    shelves: &Shelves,
    suite: usize,
    out: &mut String,
) -> Result<(), AllocError>
    ensures { OnOk result (string_bytes out.new ≡ string_bytes out.old ++ rows shelves.now suite) }
{
    let items = shown_items(alloc, shelves, suite)?;
    push_items(alloc, items.as_slice(), out)
}

/// Appends what the suite at a position is for, if there is such a suite and the configuration says it.
#[tactic(auto, unfolding(crate::specs::SuitePage::description_at))]
fn push_description_at(config: &Config, suite: usize, out: &mut String) -> Result<(), AllocError>
    ensures { OnOk result (string_bytes out.new ≡ string_bytes out.old ++ description_at config.now suite) }
{
    match config.suites().get(suite) {
        Some(suite) => push_description(&suite.description, out),
        None => Ok(()),
    }
}

/// Appends what is said of the suite at a position before its rows: what it is for, and how much it shows.
#[tactic(auto, unfolding(crate::specs::SuitePage::summary))]
fn push_summary(
    alloc: Global,
    config: &Config,
    shelves: &Shelves,
    suite: usize,
    out: &mut String,
) -> Result<(), AllocError>
    ensures { OnOk result (string_bytes out.new ≡ string_bytes out.old ++ summary config.now shelves.now suite) }
{
    push_description_at(config, suite, out)?;
    push_markup("<dl>", out)?;
    push_counts(alloc, shelves, suite, out)?;
    push_markup("</dl>\n", out)
}

/// The page of the suite at a position of the configuration, which lies two folders below the first page: a row for each item that it
/// shows, each with what it is in one line and its files. Rows of one source stand together: first that of the source, then those of its
/// packages in the order of the bytes of name and architecture. Sources are in the order of the bytes of their names. If there is no such
/// suite, the page has no name and no rows. It is refused for want of memory alone.
#[tactic(auto, unfolding(crate::specs::SuitePage::suite_page))]
pub fn suite_page(
    alloc: Global,
    config: &Config,
    shelves: &Shelves,
    suite: usize,
) -> Result<String, AllocError>
    ensures { IfOk result (λ page. string_bytes page ≡ suite_page config.now shelves.now suite) }
{
    let mut page = String::new(alloc);
    push_head(
        config,
        codename_at(config.suites(), suite),
        LINKS,
        &mut page,
    )?;
    push_summary(alloc, config, shelves, suite, &mut page)?;
    push_markup(FILTER_FIELD, &mut page)?;
    push_markup(TABLE_HEAD, &mut page)?;
    push_rows(alloc, shelves, suite, &mut page)?;
    push_markup(TABLE_END, &mut page)?;
    push_filter(&mut page)?;
    push_foot(&mut page)?;
    Ok(page)
}
