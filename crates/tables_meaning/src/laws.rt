//! What a database keeps, as laws.

ghost use Rattle.std.specs.Prelude.{◌≡◌, ◌≤◌, ℕ, true, All, List, Ok, length};
ghost use Rattle.sqlite.specs.Effect.{Database};
ghost use Rattle.rules.specs.Configuration.{config_in};
ghost use Rattle.rules.specs.Values.{ConfigValue};
ghost use Rattle.book.specs.Book.{Book, HasItsFiles, latest};
ghost use Rattle.book.specs.declared.change.Judgement.{Judgement};
ghost use Rattle.suites.specs.Moved.{all_stay, moved};
ghost use Rattle.suites.specs.Shelves.{ShelvesValue};
ghost use Rattle.tables.specs.Rows.{Holds, tables_in};
ghost use Rattle.tables_meaning.specs.Configuring.{Reconfigures, with_configured};
ghost use Rattle.tables_meaning.specs.Archives.{KeepsArchive, KeepsBook, KeepsFinished};

/// The book that a database keeps has its files, also if some body is not whole.
pub fn a_kept_book_has_its_files()
    ensures kept { (db : Database) (config : ConfigValue) (b : Book) → KeepsBook db config b → HasItsFiles b }
    ensures finished { (db : Database) (config : ConfigValue) (b : Book) → KeepsFinished db config b → HasItsFiles b }
{}

/// A database keeps one book, of one configuration.
pub fn a_database_keeps_one_book()
    ensures { (db other : Database) (config another : ConfigValue) (b c : Book) → other.trees ≡ db.trees → KeepsBook db config b → KeepsBook other another c → c ≡ b }
{}

/// If another configuration keeps all that is shown, a database keeps the same archive under it: the rows of this database are those of the old
/// one, with the other configuration, its texts and these dates. The book is the old one with these.
pub fn an_archive_under_another_configuration()
    ensures { (before after : Database) (config other : ConfigValue) (judged : List Judgement) (shown : ShelvesValue) (was dates : List ℕ) → KeepsArchive before config judged shown was
        → config_in other.text ≡ Ok other → all_stay config.suites other.suites shown ≡ true → length dates ≡ length other.suites → All (λ d. d ≤ latest) dates
        → Holds after (tables_in after) → tables_in after ≡ with_configured other (moved config.suites other.suites shown) dates (tables_in before)
        → Reconfigures before after config other judged shown was (moved config.suites other.suites shown) dates }
{}
