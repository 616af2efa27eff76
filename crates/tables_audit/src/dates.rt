//! The dates of the suites, read from the rows of `dates`.

ghost use Rattle.std.specs.Prelude.{◌≡◌, ◌≢◌, ◌≤◌, ◌↔◌, ℕ, List, All, AllPairs, Contains, None, length, map, zip, IsPermutation, IsTrue, IfOk, IfSome};
ghost use Rattle.book.specs.Book.{latest};
ghost use Rattle.tables_meaning.specs.Kept.{date_row};
ghost use Rattle.tables.specs.Rows.{rows_of};
ghost use Rattle.tables_read.specs.All.{tables_with};

use book::LATEST;
use rules::{Config, Suite};
use std::alloc::{AllocError, Global};
use tables::rows::Date;
use tables_read::AllRows;

/// Whether a row is the date of a suite, at a moment that may be.
fn is_date_of(row: &Date, suite: &Suite) -> bool
    ensures { IsTrue result ↔ ((row.now ≡ date_row (suite.now, row.now.moment)) × (row.now.moment ≤ latest)) }
{
    if row.moment > LATEST {
        return false;
    }
    row.suite.as_str() == suite.codename.as_str()
}

/// The moment of the first row that is the date of a suite, at a moment that may be.
fn date_of(rows: &[(u64, Date)], suite: &Suite) -> Option<u64>
    ensures some { IfSome result (λ date. Contains (rows_of rows.now) (date_row (suite.now, date)) × (date ≤ latest)) }
    ensures none { result ≡ None
        → (date : ℕ) → date ≤ latest → Contains (rows_of rows.now) (date_row (suite.now, date)) → ⊥ }
{
    for row in rows {
        if is_date_of(&row.1, suite) {
            return Some(row.1.moment);
        }
    }
    None
}

/// The dates that rows have, if these are those of the suites in whatever order, each at a moment that may be. The row of
/// each suite is looked up, and there have to be no other rows.
fn dates_of(
    alloc: Global,
    rows: &[(u64, Date)],
    suites: &[Suite],
) -> Result<Option<Vec<u64>>, AllocError>
    requires apart { AllPairs (λ s u. s.codename ≢ u.codename) suites.now }
    ensures some { IfOk result (λ o. IfSome o (λ dates.
        IsPermutation (rows_of rows.now) (map date_row (zip suites.now dates.items))
        × (length dates.items ≡ length suites.now) × All (λ d. d ≤ latest) dates.items)) }
    ensures none { IfOk result (λ o. o ≡ None
        → (dates : List ℕ) → IsPermutation (rows_of rows.now) (map date_row (zip suites.now dates))
        → length dates ≡ length suites.now → All (λ d. d ≤ latest) dates → ⊥) }
{
    if rows.len() != suites.len() {
        return Ok(None);
    }
    let mut dates = Vec::new(alloc);
    for suite in suites {
        let Some(date) = date_of(rows, suite) else {
            return Ok(None);
        };
        dates.push(date)?;
    }
    Ok(Some(dates))
}

/// The dates of an archive of this configuration with these rows: one for each suite, in the order of the suites.
pub fn dates_in(
    alloc: Global,
    all: &AllRows,
    config: &Config,
) -> Result<Option<Vec<u64>>, AllocError>
    ensures some { IfOk result (λ o. IfSome o (λ dates.
        IsPermutation (rows_of (tables_with all.now).dates) (map date_row (zip config.now.suites dates.items))
        × (length dates.items ≡ length config.now.suites) × All (λ d. d ≤ latest) dates.items)) }
    ensures none { IfOk result (λ o. o ≡ None
        → (dates : List ℕ) → IsPermutation (rows_of (tables_with all.now).dates) (map date_row (zip config.now.suites dates))
        → length dates ≡ length config.now.suites → All (λ d. d ≤ latest) dates → ⊥) }
{
    // For the prover alone: the configuration is what its text spells, so no two suites have one codename.
    let _ = config.text();
    dates_of(alloc, all.dates.as_slice(), config.suites())
}
