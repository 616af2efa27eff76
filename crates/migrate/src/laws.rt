//! What a migration makes of the rows of an archive, as laws.

ghost use Rattle.std.specs.Prelude.{◌≡◌, ◌≤◌, ℕ, true, List, Ok, length};
ghost use Rattle.old_book.specs.Copying.{IsBare};
ghost use Rattle.rules.specs.Configuration.{config_in};
ghost use Rattle.rules.specs.Values.{ConfigValue};
ghost use Rattle.suites.specs.Moved.{all_stay, moved};
ghost use Rattle.suites.specs.Shelves.{ShelvesValue};
ghost use Rattle.suites.specs.Told.{AreTold};
ghost use Rattle.book.specs.Book.{latest};
ghost use Rattle.book.specs.Configured.{AreAlike};
ghost use Rattle.book.specs.declared.change.Judgement.{Judgement};
ghost use Rattle.tables.specs.Rows.{Tables};
ghost use Rattle.tables_meaning.specs.Founding.{founded};
ghost use Rattle.tables_meaning.specs.Kept.{IsBook, book_in};
ghost use Rattle.migrate.specs.Migrating.{moved_book, moved_rows};

/// The rows that a migration makes of those of an archive are those of an archive of the other configuration, with the same judged uploads, the
/// same shown items and the same dates. Its book is the old one under that configuration, with the moment at each arrival.
pub fn a_moved_archive_is_kept()
    ensures { (t : Tables) (config other : ConfigValue) (judged : List Judgement) (shown : ShelvesValue) (dates : List ℕ) (moment : ℕ) → IsBook t config judged shown dates → AreAlike config other
        → config_in other.text ≡ Ok other → moment ≤ latest
        → IsBook (moved_rows other shown dates moment t) other judged shown dates
        × (book_in other judged shown dates (moved_rows other shown dates moment t) ≡ moved_book other moment (book_in config judged shown dates t)) }
{}

/// A configuration that differs in days alone has the same number of suites, and all that is shown stays on its shelf.
pub fn an_alike_configuration_keeps_what_is_shown()
    ensures length { (config other : ConfigValue) → AreAlike config other → length config.suites ≡ length other.suites }
    ensures stays { (config other : ConfigValue) (shown : ShelvesValue) → config_in config.text ≡ Ok config → AreTold config.suites shown → AreAlike config other
        → all_stay config.suites other.suites shown ≡ true }
    ensures same { (config other : ConfigValue) (shown : ShelvesValue) → config_in config.text ≡ Ok config → AreTold config.suites shown → AreAlike config other
        → moved config.suites other.suites shown ≡ shown }
{}

/// Rows can be copied into the tables of a new archive: the tables that get the copies have no row.
pub fn a_new_archive_takes_copies()
    ensures { (config : ConfigValue) (moment : ℕ) → IsBare (founded config moment) }
{}
