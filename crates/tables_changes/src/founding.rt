//! The first rows of an archive.

ghost use Rattle.std.specs.Prelude.{◌≡◌, ◌≤◌, ◌<◌, All, length, map, zip, OnOk};
ghost use Rattle.indices.specs.Indices.{all_texts};
ghost use Rattle.indices.specs.Places.{place_entry};
ghost use Rattle.tables_meaning.specs.Founding.{Continues, Founds, founded, from_root, listed_at, placed_texts, suite_texts_at, with_dates, with_first_rows, with_path_text, with_texts};
ghost use Rattle.tables_meaning.specs.Kept.{date_row};
ghost use Rattle.tables.specs.Calls.{CommitsNothing, Inside, IsSame, KeepsCommitted, Writes};

use book::LATEST;
use rules::{Config, Suite};
use sqlite::{Alter, Error, Transaction};
use std::alloc::{AllocError, Global};
use suites::Shelves;
use tables::dates::insert_date;
use tables::meta::{VERSION, insert_meta};
use tables::schema::{create_indexes, create_tables};
use tables::texts::insert_text;
use texts::{IndexPlace, index_path, listed_text, path_in, places_of, release_of};

/// Adds a text in the folder of the suite.
fn insert_in_folder<S: Alter>(
    alloc: Global,
    tx: &mut Transaction<'_, S>,
    suite: &Suite,
    path: &str,
    text: &[u8],
) -> Result<(), Error>
    ensures same_reference { IsSame tx.old tx.new }
    ensures ok { Writes S.Store tx.old tx.new result (with_path_text (from_root suite.now (path.now, text.now))) }
    ensures err { KeepsCommitted S.Store tx.old tx.new result }
    ensures survives { CommitsNothing S.Store tx.old tx.new }
{
    let whole = path_in(alloc, suite.codename.as_str(), path)?;
    insert_text(tx, whole.as_str(), text)
}

/// Adds the index at a place of the suite at the position.
fn insert_index<S: Alter>(
    alloc: Global,
    tx: &mut Transaction<'_, S>,
    shelves: &Shelves,
    position: usize,
    suite: &Suite,
    place: &IndexPlace,
) -> Result<(), Error>
    ensures same_reference { IsSame tx.old tx.new }
    ensures ok { Writes S.Store tx.old tx.new result (with_path_text (from_root suite.now (place_entry shelves.now position place.now))) }
    ensures err { KeepsCommitted S.Store tx.old tx.new result }
    ensures survives { CommitsNothing S.Store tx.old tx.new }
{
    let component = place.component.as_str();
    let architecture = place.architecture.as_str();
    let path = index_path(alloc, component, architecture)?;
    let text = listed_text(alloc, shelves, position, component, architecture)?;
    insert_in_folder(alloc, tx, suite, path.as_str(), &text)
}

/// Adds the indices at places of the suite at the position, in their order.
fn insert_placed<S: Alter>(
    alloc: Global,
    tx: &mut Transaction<'_, S>,
    shelves: &Shelves,
    position: usize,
    suite: &Suite,
    places: &[IndexPlace],
) -> Result<(), Error>
    ensures same_reference { IsSame tx.old tx.new }
    ensures ok { Inside S.Store tx.old tx.new (λ old new. OnOk result (Continues old new (with_texts (placed_texts shelves.now position suite.now places.now)))) }
    ensures err { KeepsCommitted S.Store tx.old tx.new result }
    ensures survives { CommitsNothing S.Store tx.old tx.new }
{
    for place in places {
        insert_index(alloc, tx, shelves, position, suite, place)?;
    }
    Ok(())
}

/// Adds the indices of the suite at the position, Release aside, place by place.
fn insert_indices<S: Alter>(
    alloc: Global,
    tx: &mut Transaction<'_, S>,
    shelves: &Shelves,
    position: usize,
    suite: &Suite,
) -> Result<(), Error>
    ensures same_reference { IsSame tx.old tx.new }
    ensures ok { Inside S.Store tx.old tx.new (λ old new. OnOk result (Continues old new (with_texts (listed_at shelves.now position suite.now)))) }
    ensures err { KeepsCommitted S.Store tx.old tx.new result }
    ensures survives { CommitsNothing S.Store tx.old tx.new }
{
    let components = suite.components.as_slice();
    let architectures = suite.architectures.as_slice();
    let places = places_of(alloc, components, architectures)?;
    insert_placed(alloc, tx, shelves, position, suite, places.as_slice())
}

/// Adds the texts of the suite at the position, whose shown items last changed at the moment: Release, and then the others.
fn insert_suite<S: Alter>(
    alloc: Global,
    tx: &mut Transaction<'_, S>,
    config: &Config,
    shelves: &Shelves,
    position: usize,
    moment: u64,
) -> Result<(), Error>
    requires suite { position < length config.now.suites }
    requires moment { moment ≤ LATEST }
    ensures same_reference { IsSame tx.old tx.new }
    ensures ok { Inside S.Store tx.old tx.new (λ old new. OnOk result (Continues old new (with_texts (suite_texts_at config.now shelves.now position moment)))) }
    ensures err { KeepsCommitted S.Store tx.old tx.new result }
    ensures survives { CommitsNothing S.Store tx.old tx.new }
{
    let suite = &config.suites()[position];
    let text = release_of(alloc, config, shelves, position, moment)?;
    insert_in_folder(alloc, tx, suite, "Release", &text)?;
    insert_indices(alloc, tx, shelves, position, suite)
}

/// Adds the texts of the suites, each of which last changed at its date.
pub fn insert_texts<S: Alter>(
    alloc: Global,
    tx: &mut Transaction<'_, S>,
    config: &Config,
    shelves: &Shelves,
    dates: &[u64],
) -> Result<(), Error>
    requires dated { length dates.now ≡ length config.now.suites }
    requires in_range { All (λ date. date ≤ LATEST) dates.now }
    ensures same_reference { IsSame tx.old tx.new }
    ensures ok { Inside S.Store tx.old tx.new (λ old new. OnOk result (Continues old new (with_texts (all_texts config.now shelves.now dates.now)))) }
    ensures err { KeepsCommitted S.Store tx.old tx.new result }
    ensures survives { CommitsNothing S.Store tx.old tx.new }
{
    for position in 0..dates.len() {
        insert_suite(alloc, tx, config, shelves, position, dates[position])?;
    }
    Ok(())
}

/// Adds the dates of the suites.
pub fn insert_dates<S: Alter>(
    tx: &mut Transaction<'_, S>,
    config: &Config,
    dates: &[u64],
) -> Result<(), Error>
    requires dated { length dates.now ≡ length config.now.suites }
    ensures same_reference { IsSame tx.old tx.new }
    ensures ok { Inside S.Store tx.old tx.new (λ old new. OnOk result (Continues old new (with_dates (map date_row (zip config.now.suites dates.now))))) }
    ensures err { KeepsCommitted S.Store tx.old tx.new result }
    ensures survives { CommitsNothing S.Store tx.old tx.new }
{
    for position in 0..dates.len() {
        let suite = &config.suites()[position];
        insert_date(tx, suite.codename.as_str(), dates[position])?;
    }
    Ok(())
}

/// Adds the first rows of an archive: the version and the configuration, the texts, and the dates, the moment for each suite.
fn insert_first_rows<S: Alter>(
    alloc: Global,
    tx: &mut Transaction<'_, S>,
    config: &Config,
    moment: u64,
) -> Result<(), Error>
    requires { moment ≤ LATEST }
    ensures same_reference { IsSame tx.old tx.new }
    ensures ok { Writes S.Store tx.old tx.new result (with_first_rows config.now moment) }
    ensures err { KeepsCommitted S.Store tx.old tx.new result }
    ensures survives { CommitsNothing S.Store tx.old tx.new }
{
    let moments = vec![in alloc; moment; config.suites().len()]?;
    let dates = moments.as_slice();
    insert_meta(tx, VERSION, config.text())?;
    let shelves = Shelves::new(alloc);
    insert_texts(alloc, tx, config, &shelves, dates)?;
    insert_dates(tx, config, dates)
}

/// Makes the tables of an archive and its indexes in a database that has no table, and adds the first rows.
pub fn found_inside<S: Alter>(
    alloc: Global,
    tx: &mut Transaction<'_, S>,
    config: &Config,
    moment: u64,
) -> Result<(), Error>
    requires { moment ≤ LATEST }
    ensures same_reference { IsSame tx.old tx.new }
    ensures ok { Inside S.Store tx.old tx.new (λ old new. OnOk result (Founds old new (founded config.now moment))) }
    ensures err { KeepsCommitted S.Store tx.old tx.new result }
    ensures survives { CommitsNothing S.Store tx.old tx.new }
{
    create_tables(tx)?;
    create_indexes(tx)?;
    insert_first_rows(alloc, tx, config, moment)
}
