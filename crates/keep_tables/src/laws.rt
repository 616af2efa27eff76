//! What the tables of an archive keep, and what is said of a keeper over them in the words of its connection, as laws.

ghost use Rattle.std.specs.Prelude.{◌≡◌, ◌≤◌, ℕ, [], Ok, IsTrue, Option};
ghost use Rattle.std.specs.FinMap.{empty};
ghost use Rattle.sqlite.specs.State.{HasCleanDisk};
ghost use Rattle.sqlite.specs.Tree.{Trees};
ghost use Rattle.rules.specs.Configuration.{config_in};
ghost use Rattle.rules.specs.Values.{ConfigValue};
ghost use Rattle.book.specs.Book.{latest, Book};
ghost use Rattle.book.specs.Book.{fresh_book};
ghost use Rattle.tables_meaning.specs.Founding.{first_dates, founded};
ghost use Rattle.tables_meaning.specs.Kept.{IsBook, book_in};
ghost use Rattle.tables_meaning.specs.Archives.{KeepsBook, KeepsLeft};
ghost use Rattle.keep_tables.specs.Keepers.{config_in_use, connection_of, table_book};
ghost use Rattle.keep_tables.specs.declared.keeper.TableKeeper.{TableKeeper};

use crate::keeper::TableKeeper;
use book::Keeper;
use sqlite::Alter;

/// The first rows are those of an archive in which nothing is yet.
pub fn first_rows()
    ensures kept { (config : ConfigValue) (moment : ℕ) → config_in config.text ≡ Ok config → moment ≤ latest → IsBook (founded config moment) config [] empty (first_dates config moment) }
    ensures book { (config : ConfigValue) (moment : ℕ) → book_in config [] empty (first_dates config moment) (founded config moment) ≡ fresh_book config moment }
{}

/// What is true of a keeper over tables follows from its connection: it is clean and open if the connection is, counts its
/// failures, has the book of its tables, which its database keeps, and leaves what an opening may find.
pub fn a_keeper_is_its_tables<S: Alter + Drop>()
    ensures clean { (k : TableKeeper S S.Store) → HasCleanDisk (connection_of k) → ⟦<TableKeeper<S> as Keeper>⟧.is_clean k }
    ensures open { (k : TableKeeper S S.Store) → IsTrue (connection_of k).is_open → ⟦<TableKeeper<S> as Keeper>⟧.is_open k }
    ensures faults { (k : TableKeeper S S.Store) → ⟦<TableKeeper<S> as Keeper>⟧.faults k ≡ (connection_of k).faults }
    ensures book { (k : TableKeeper S S.Store) → ⟦<TableKeeper<S> as Keeper>⟧.book k ≡ table_book k }
    ensures keeps { (k : TableKeeper S S.Store) → HasCleanDisk (connection_of k) → IsTrue (connection_of k).is_open → KeepsBook (connection_of k).committed (config_in_use k) (table_book k) }
    ensures leaves { (k : TableKeeper S S.Store) (trees : Trees) (left : Option Book) → (connection_of k).may_leave trees → KeepsLeft trees left
        → ⟦<TableKeeper<S> as Keeper>⟧.may_leave k left }
{}
