//! A stop, the opening after it, and what follows.

ghost use Rattle.std.specs.Prelude.{◌≡◌, ◌⊎◌, true, ℕ, List, Contains};
ghost use Rattle.sqlite.specs.Effect.{Database};
ghost use Rattle.rules.specs.Values.{ConfigValue};
ghost use Rattle.book.specs.Book.{Book};
ghost use Rattle.book.specs.Configured.{configured, keeps_shown};
ghost use Rattle.book.specs.Keeping.{HasBodies, NoCollision};
ghost use Rattle.tables.specs.Others.{IsArchiveSchema};
ghost use Rattle.tables_meaning.specs.Archives.{KeepsFinished};
ghost use Rattle.keep_tables.specs.Keepers.{connection_of};
ghost use Rattle.keep_tables.specs.declared.keeper.TableKeeper.{TableKeeper};
ghost use Rattle.keep_tables.specs.Opened.{IsNoArchive};
ghost use Rattle.queue.specs.Answers.{IsFaithful, answer};
ghost use Rattle.queue.specs.Archives.{book_of};
ghost use Rattle.queue.specs.Histories.{Call, History, bodies_of, followed, opened_with};
ghost use Rattle.promise.specs.Stops.{IsCalled, IsConfigured};

use book::Keeper;
use keep_tables::TableKeeper;
use queue::{a_stop_in_a_configuration_leaves_a_book, a_stop_leaves_a_book};
use sqlite::Alter;

/// Stop, open, go on. A stop during or after a call of an open keeper leaves a database. Opening it is not refused for having no
/// archive. The book that it keeps is the one that the history leaves, or the one that it leaves with the whole call. If no two
/// bodies of that book and of the calls to come have one print, these calls go on after the book as after any history.
pub fn a_stop_goes_on<S: Alter + Drop>()
    // If the database that is found lists the tables of an archive, its rows are those of an archive.
    ensures opens { (before after : TableKeeper S S.Store) (h : History) (call : Call) (found : Database)
        → IsCalled ⟦<TableKeeper<S> as Keeper>⟧ before after h call → (connection_of after).may_leave found.trees
        → IsArchiveSchema found.schema → IsNoArchive found → ⊥ }
    ensures book { (before after : TableKeeper S S.Store) (h : History) (call : Call) (found : Database) (config : ConfigValue) (b : Book)
        → IsCalled ⟦<TableKeeper<S> as Keeper>⟧ before after h call → (connection_of after).may_leave found.trees
        → KeepsFinished found config b → (b ≡ book_of h) ⊎ (b ≡ book_of (followed h call (answer h call))) }
    ensures goes_on { (found : Database) (config : ConfigValue) (b : Book) (calls : List Call) (bodies : List (List ℕ))
        → KeepsFinished found config b → NoCollision bodies → HasBodies bodies b
        → ((body : List ℕ) → Contains (bodies_of calls) body → Contains bodies body) → IsFaithful (opened_with b) calls }
{
    // For the prover alone: what a stop of any keeper leaves.
    a_stop_leaves_a_book::<TableKeeper<S>>();
}

/// A stop while an open keeper takes another configuration, or afterwards, leaves a database. Opening it is not refused for having no
/// archive. The book that it keeps, of either configuration, is the one that the history leaves, or the configured one; the latter
/// only if the configuration keeps all that is shown. Calls go on after it as after any history (`goes_on` of `a_stop_goes_on`).
pub fn a_stop_in_a_configuration_goes_on<S: Alter + Drop>()
    ensures opens { (before after : TableKeeper S S.Store) (h : History) (config : ConfigValue) (moment : ℕ) (found : Database)
        → IsConfigured ⟦<TableKeeper<S> as Keeper>⟧ before after h config moment → (connection_of after).may_leave found.trees
        → IsArchiveSchema found.schema → IsNoArchive found → ⊥ }
    ensures book { (before after : TableKeeper S S.Store) (h : History) (config another : ConfigValue) (moment : ℕ) (found : Database) (b : Book)
        → IsConfigured ⟦<TableKeeper<S> as Keeper>⟧ before after h config moment → (connection_of after).may_leave found.trees
        → KeepsFinished found another b
        → (b ≡ book_of h) ⊎ ((keeps_shown config (book_of h) ≡ true) × (b ≡ configured config moment (book_of h))) }
{
    // For the prover alone: what a stop of any keeper leaves.
    a_stop_in_a_configuration_leaves_a_book::<TableKeeper<S>>();
}
