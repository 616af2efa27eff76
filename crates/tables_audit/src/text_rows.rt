//! Whether the rows of `texts` are the texts of the suites, and the prints of those that Release lists.
//!
//! Release lists the print of each other text of its suite, so these are known once it is made. An opening hands them over
//! (`Held`), and so a keeper need not read and hash the texts once more.

ghost use Rattle.std.specs.Prelude.{◌≡◌, ◌≤◌, ◌<◌, ◌↔◌, ◌++◌, All, Contains, None, length, map, codes, is_some, IsPermutation, IsTrue, IfOk, IfSome, OnOk};
ghost use Rattle.tables_meaning.specs.Founding.{from_root, suite_texts_at};
ghost use Rattle.tables_matching.specs.Rows.{text_in};
ghost use Rattle.tables_audit.specs.TextRows.{ArePrintsOf, print_from_root, texts_in};
ghost use Rattle.tables.specs.Rows.{rows_of};
ghost use Rattle.tables_read.specs.All.{tables_with};
ghost use Rattle.indices.specs.Indices.{all_texts};
ghost use Rattle.indices.specs.Places.{place_entry};
ghost use Rattle.indices.specs.Positions.{release_at};
ghost use Rattle.indices.specs.Release.{index_of, listed_texts};
ghost use Rattle.sums.specs.Prints.{print as print_of_text};

use crate::text_print::TextPrint;
use book::LATEST;
use para::{Listed, Text};
use rules::{Config, Suite};
use std::alloc::{AllocError, Global};
use suites::Shelves;
use sums::{Print, print_of};
use tables::rows::TextRow;
use tables_matching::is_text_row;
use tables_read::AllRows;
use texts::{Index, IndexPlace, index_path, listed_text, path_in, places_of, release};

/// The index at a place of the suite at the position.
fn placed_entry(
    alloc: Global,
    shelves: &Shelves,
    position: usize,
    place: &IndexPlace,
) -> Result<TextRow, AllocError>
    ensures { IfOk result (λ x. text_in x ≡ place_entry shelves.now position place.now) }
{
    let component = place.component.as_str();
    let architecture = place.architecture.as_str();
    let path = index_path(alloc, component, architecture)?;
    let body = listed_text(alloc, shelves, position, component, architecture)?;
    Ok(TextRow {
        path: Text::from_string(path),
        body: Listed::from_vec(body),
    })
}

/// The indices at places of the suite at the position, in their order.
fn placed_entries(
    alloc: Global,
    shelves: &Shelves,
    position: usize,
    places: &[IndexPlace],
) -> Result<Vec<TextRow>, AllocError>
    ensures { IfOk result (λ entries. map text_in entries.items ≡ map (place_entry shelves.now position) places.now) }
{
    let mut entries = Vec::new(alloc);
    for place in places {
        let entry = placed_entry(alloc, shelves, position, place)?;
        entries.push(entry)?;
    }
    Ok(entries)
}

/// The indices of the suite at the position, Release aside, place by place.
fn listed_entries(
    alloc: Global,
    shelves: &Shelves,
    position: usize,
    suite: &Suite,
) -> Result<Vec<TextRow>, AllocError>
    ensures { IfOk result (λ entries. map text_in entries.items ≡ listed_texts suite.now shelves.now position) }
{
    let components = suite.components.as_slice();
    let architectures = suite.architectures.as_slice();
    let places = places_of(alloc, components, architectures)?;
    placed_entries(alloc, shelves, position, places.as_slice())
}

/// A text whose print is known.
#[derive(Clone, Copy)]
struct Printed<'t> {
    text: &'t [u8],
    print: Print,
    ghost is: { print ≡ print_of_text text.now },
}

/// The text with its print. It is the print of the text before, if both are the same: an index of packages for all architectures is
/// the same text for each of them.
fn printed_after<'t>(before: Option<Printed<'t>>, text: &'t [u8]) -> Printed<'t>
    ensures { result.text.now ≡ text.now }
{
    if let Some(printed) = before {
        if printed.text == text {
            return Printed {
                text,
                print: printed.print,
            };
        }
    }
    Printed {
        text,
        print: print_of(text),
    }
}

/// What Release lists of an index whose text has this print.
fn index_of(entry: &TextRow, print: Print) -> Result<Index, AllocError>
    requires { print ≡ print_of_text entry.now.body }
    ensures { IfOk result (λ index. index ≡ index_of (text_in entry.now)) }
{
    Ok(Index {
        path: entry.path.try_clone()?,
        print,
    })
}

/// What Release lists of indices. Of texts that are the same, one after the other, the first alone is hashed.
fn indices_of(alloc: Global, entries: &[TextRow]) -> Result<Vec<Index>, AllocError>
    ensures { IfOk result (λ indices. indices.items ≡ map index_of (map text_in entries.now)) }
{
    let mut indices = Vec::new(alloc);
    let mut before = None;
    for entry in entries {
        let printed = printed_after(before, entry.body.as_slice());
        indices.push(index_of(entry, printed.print)?)?;
        before = Some(printed);
    }
    Ok(indices)
}

/// The Release of the suite at the position, whose shown items last changed at the moment, over its other indices.
fn release_over(
    alloc: Global,
    config: &Config,
    position: usize,
    moment: u64,
    indices: &[Index],
) -> Result<TextRow, AllocError>
    requires suite { position < length config.now.suites }
    requires moment { moment ≤ LATEST }
    ensures { IfOk result (λ x. text_in x ≡ (codes "Release", release_at config.now position moment indices.now)) }
{
    let mut text = Vec::new(alloc);
    release(alloc, config, position, moment, indices, &mut text)?;
    Ok(TextRow {
        path: Text::new(alloc, "Release")?,
        body: Listed::from_vec(text),
    })
}

/// Whether some row has this text at this path.
fn is_in_rows(rows: &[(u64, TextRow)], path: &str, body: &[u8]) -> bool
    ensures { IsTrue result ↔ Contains (texts_in rows.now) (path.now, body.now) }
{
    for row in rows {
        if is_text_row(&row.1, path, body) {
            return true;
        }
    }
    false
}

/// Whether some row has this text at this path. The row at a place is looked at first.
fn is_in_rows_from(rows: &[(u64, TextRow)], place: usize, path: &str, body: &[u8]) -> bool
    ensures { IsTrue result ↔ Contains (texts_in rows.now) (path.now, body.now) }
{
    if place < rows.len() {
        if is_text_row(&rows[place].1, path, body) {
            return true;
        }
    }
    is_in_rows(rows, path, body)
}

/// Whether some row has a text of the folder of the suite, at its whole path. The row at the place is looked at first.
fn has_text(
    alloc: Global,
    rows: &[(u64, TextRow)],
    place: usize,
    suite: &Suite,
    text: &TextRow,
) -> Result<bool, AllocError>
    ensures { IfOk result (λ b. IsTrue b ↔ Contains (texts_in rows.now) (from_root suite.now (text_in text.now))) }
{
    let path = path_in(alloc, suite.codename.as_str(), text.path.as_str())?;
    Ok(is_in_rows_from(rows, place, path.as_str(), text.body.as_slice()))
}

/// Whether rows have these texts of the folder of the suite. The rows from the place on are looked at first.
fn have_texts(
    alloc: Global,
    rows: &[(u64, TextRow)],
    place: usize,
    suite: &Suite,
    texts: &[TextRow],
) -> Result<bool, AllocError>
    ensures { IfOk result (λ b. IsTrue b
        ↔ All (Contains (texts_in rows.now)) (map (from_root suite.now) (map text_in texts.now))) }
{
    let mut next = place;
    for text in texts {
        if !has_text(alloc, rows, next, suite, text)? {
            return Ok(false);
        }
        next = next.saturating_add(1);
    }
    Ok(true)
}

/// Appends the prints that Release lists of the other texts of the suite, each at the whole path of its text.
fn push_prints(
    alloc: Global,
    suite: &Suite,
    indices: &[Index],
    prints: &mut Vec<TextPrint>,
) -> Result<(), AllocError>
    ensures { OnOk result (prints.new.items ≡ prints.old.items ++ map (print_from_root suite.now) indices.now) }
{
    for index in indices {
        let path = path_in(alloc, suite.codename.as_str(), index.path.as_str())?;
        prints.push(TextPrint {
            path: Text::from_string(path),
            print: index.print,
        })?;
    }
    Ok(())
}

/// How many texts the suite at the position has, whose shown items last changed at the moment, if rows have each of them:
/// Release, and the others. The rows from the place on are looked at first, and no text is made twice. If rows have each,
/// the prints of the others are appended to those of the suites before.
fn texts_of_suite(
    alloc: Global,
    rows: &[(u64, TextRow)],
    place: usize,
    config: &Config,
    shelves: &Shelves,
    position: usize,
    moment: u64,
    prints: &mut Vec<TextPrint>,
) -> Result<Option<usize>, AllocError>
    requires suite { position < length config.now.suites }
    requires moment { moment ≤ LATEST }
    ensures some { IfOk result (λ o. IfSome o (λ count.
        (count ≡ length (suite_texts_at config.now shelves.now position moment))
        × All (Contains (texts_in rows.now)) (suite_texts_at config.now shelves.now position moment))) }
    ensures none { IfOk result (λ o. o ≡ None
        → All (Contains (texts_in rows.now)) (suite_texts_at config.now shelves.now position moment) → ⊥) }
    ensures known { IfOk result (λ o. IfSome o (λ _. ArePrintsOf (texts_in rows.now) prints.old.items
        → ArePrintsOf (texts_in rows.now) prints.new.items)) }
{
    let suite = &config.suites()[position];
    let entries = listed_entries(alloc, shelves, position, suite)?;
    let indices = indices_of(alloc, &entries)?;
    let release = release_over(alloc, config, position, moment, &indices)?;
    if !has_text(alloc, rows, place, suite, &release)? {
        return Ok(None);
    }
    if !have_texts(alloc, rows, place.saturating_add(1), suite, &entries)? {
        return Ok(None);
    }
    push_prints(alloc, suite, &indices, prints)?;
    Ok(Some(entries.len() + 1))
}

/// The prints of the texts that Release lists, if rows are the texts of the suites of a configuration, whose shown items last
/// changed at these dates, in whatever order: each is looked up as it is made, suite by suite, and there is no other row.
fn prints_of_rows(
    alloc: Global,
    rows: &[(u64, TextRow)],
    config: &Config,
    shelves: &Shelves,
    dates: &[u64],
) -> Result<Option<Vec<TextPrint>>, AllocError>
    requires dated { length dates.now ≡ length config.now.suites }
    requires in_range { All (λ d. d ≤ LATEST) dates.now }
    ensures fit { IfOk result (λ o. IsTrue (is_some o) ↔ IsPermutation (texts_in rows.now) (all_texts config.now shelves.now dates.now)) }
    ensures known { IfOk result (λ o. IfSome o (λ prints. ArePrintsOf (texts_in rows.now) prints.items)) }
{
    // For the prover alone: the configuration is what its text spells, so no two texts have one path.
    let _ = config.text();
    let mut prints = Vec::new(alloc);
    let mut left = rows.len();
    for position in 0..dates.len() {
        let moment = dates[position];
        let place = rows.len() - left;
        let found = texts_of_suite(
            alloc,
            rows,
            place,
            config,
            shelves,
            position,
            moment,
            &mut prints,
        )?;
        let Some(count) = found else {
            return Ok(None);
        };
        if count > left {
            return Ok(None);
        }
        left -= count;
    }
    if left > 0 {
        return Ok(None);
    }
    Ok(Some(prints))
}

/// The prints of the texts that Release lists, if the rows of `texts` are the texts of the suites of a configuration, whose
/// shown items last changed at these dates, in whatever order.
pub fn prints_of_all(
    alloc: Global,
    all: &AllRows,
    config: &Config,
    shelves: &Shelves,
    dates: &[u64],
) -> Result<Option<Vec<TextPrint>>, AllocError>
    requires dated { length dates.now ≡ length config.now.suites }
    requires in_range { All (λ d. d ≤ LATEST) dates.now }
    ensures fit { IfOk result (λ o. IsTrue (is_some o) ↔ IsPermutation (map (λ x. (x.path, x.body)) (rows_of (tables_with all.now).texts))
        (all_texts config.now shelves.now dates.now)) }
    ensures known { IfOk result (λ o. IfSome o (λ prints. ArePrintsOf (texts_in (tables_with all.now).texts) prints.items)) }
{
    prints_of_rows(alloc, all.texts.as_slice(), config, shelves, dates)
}
