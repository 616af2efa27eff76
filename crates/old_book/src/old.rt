//! The book of an archive of an older layout.

ghost use Rattle.std.specs.Prelude.{◌≡◌, true};
ghost use Rattle.tables_meaning.specs.Kept.{IsBook};
ghost use Rattle.tables_read.specs.All.{tables_with};
ghost use Rattle.old_book.specs.Copying.{AreRising};
ghost use Rattle.old_book.specs.Rising.{is_rising};

use book::Judgement;
use rules::Config;
use suites::Shelves;
use tables_audit::Held;
use tables_read::AllRows;

/// The book of an archive of an older layout: its rows as those of an archive of today, each arrival at moment 0, and what a keeper holds
/// beside them.
#[derive(Drop)]
pub struct OldBook {
    pub(crate) rows: AllRows,
    pub(crate) held: Held,
    ghost kept: { ∥ IsBook (tables_with rows) held.config held.judged.items held.shelves held.dates.items ∥₁ },
    ghost rising: { is_rising (tables_with rows) ≡ true },
}

impl OldBook {
    ghost use Rattle.std.specs.Prelude.{◌≤◌, All};
    ghost use Rattle.book.specs.Book.{latest};

    /// The rows, as those of an archive of today.
    pub fn rows(&self) -> &AllRows
        ensures rows { result.now ≡ self.now.rows }
        ensures kept { ∥ IsBook (tables_with self.now.rows) self.now.held.config self.now.held.judged.items self.now.held.shelves self.now.held.dates.items ∥₁ }
        ensures rising { AreRising (tables_with self.now.rows) }
    {
        &self.rows
    }

    /// The configuration, without the fields KeepDays and ValidDays.
    pub fn config(&self) -> &Config
        ensures { result.now ≡ self.now.held.config }
    {
        &self.held.config
    }

    /// The judged uploads, in order.
    pub fn judged(&self) -> &[Judgement]
        ensures { result.now ≡ self.now.held.judged.items }
    {
        &self.held.judged
    }

    /// What the suites show.
    pub fn shelves(&self) -> &Shelves
        ensures { result.now ≡ self.now.held.shelves }
    {
        &self.held.shelves
    }

    /// For each suite the moment at which what it shows last changed.
    pub fn dates(&self) -> &[u64]
        ensures dates { result.now ≡ self.now.held.dates.items }
        ensures in_range { All (λ date. date ≤ latest) self.now.held.dates.items }
    {
        &self.held.dates
    }
}
