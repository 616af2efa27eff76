//! What a cleaning leaves, as laws.

ghost use Rattle.std.specs.Prelude.{◌≡◌, ℕ, List};
ghost use Rattle.rules.specs.Values.{ConfigValue};
ghost use Rattle.suites.specs.Shelves.{ShelvesValue};
ghost use Rattle.book.specs.Book.{at_moment, span};
ghost use Rattle.book.specs.declared.change.Judgement.{Judgement};
ghost use Rattle.tables.specs.Rows.{Tables};
ghost use Rattle.tables_meaning.specs.Cleaning.{cleaned, with_cleaned};
ghost use Rattle.tables_meaning.specs.Kept.{AreNumbered, IsBook, book_in};

/// The rows of an archive without what does not count at a moment are those of an archive, and its book is the one at the moment.
pub fn a_cleaned_archive_is_that_of_the_moment()
    ensures { (t : Tables) (config : ConfigValue) (judged : List Judgement) (shown : ShelvesValue) (dates : List ℕ) (moment : ℕ) → AreNumbered t → IsBook t config judged shown dates
        → IsBook (cleaned (span config) moment t) config judged shown dates
        × (book_in config judged shown dates (cleaned (span config) moment t) ≡ at_moment moment (book_in config judged shown dates t)) }
{}

/// The statements of a cleaning, one after another, leave these rows.
pub fn statements_clean_an_archive()
    ensures { (t : Tables) (config : ConfigValue) (judged : List Judgement) (shown : ShelvesValue) (dates : List ℕ) (moment : ℕ) → AreNumbered t → IsBook t config judged shown dates
        → with_cleaned (span config) moment t ≡ cleaned (span config) moment t }
{}
