//! The rows that the queries of a layout show.

ghost use Rattle.std.specs.Prelude.{◌≡◌, ◌⊎◌, false, IfOk, IfSome, MatchOption, None, OnErr, OnOk};
ghost use Rattle.old_rows.specs.Layouts.{Asked as Texts, AreSelects, AreShown, ShowsNone};
ghost use Rattle.old_rows.specs.Pairs.{tables_shown};
ghost use Rattle.old_rows.specs.Shown.{IsNotShown, IsShown, Says};
ghost use Rattle.sqlite.specs.Effect.{Database};
ghost use Rattle.sqlite.specs.Held.{state};
ghost use Rattle.sqlite.specs.State.{IsUnchanged};
ghost use Rattle.tables.specs.Rows.{Fails};
ghost use Rattle.tables_read.specs.All.{tables_with};
ghost use Rattle.tables.specs.Calls.{NeverCommits, OnCleanDisk};

use crate::asked::Asked;
use crate::shown::shown_rows;
use crate::texts::AskedFor;
use sqlite::{Alter, Connection, Error};
use std::alloc::Global;
use tables::rows::{
    ArrivalRow, BodyRow, Date, File, ItemRow, Meta, Piece, Ref, TextRow, UploadRow, Want,
};
use tables_read::AllRows;

/// Rows that queries show, one query for each table, as nested pairs of the first table's rows and the others.
trait ReadShown: Sized + Drop {
    // the queries show these rows
    ghost are: { Texts → Database → Self → Type 0 };

    // one of the queries is refused, or shows rows that cannot be rows of its table
    ghost are_not: { Texts → Database → Type 0 };

    fn read<S: Alter>(
        alloc: Global,
        conn: &mut Connection<S>,
        asked: &Asked,
    ) -> Result<Option<Self>, Error>
        requires { AreSelects asked.now }
        ensures { Says (state S.Store conn.old) (state S.Store conn.new) result (λ o. MatchOption o
            (are_not asked.now (state S.Store conn.old).now)
            (are asked.now (state S.Store conn.old).now)) };
}

impl<T: AskedFor> ReadShown for Vec<(u64, T)> {
    ghost are = { λ asked db all. IsShown T.layout.seen (T.text asked) db all.items };

    ghost are_not = { λ asked. IsNotShown T.layout T.is_real (T.text asked) };

    fn read<S: Alter>(
        alloc: Global,
        conn: &mut Connection<S>,
        asked: &Asked,
    ) -> Result<Option<Vec<(u64, T)>>, Error> {
        shown_rows(alloc, conn, T::text_of(asked))
    }
}

impl<A: ReadShown, B: ReadShown> ReadShown for (A, B) {
    ghost are = { λ asked db p. A.are asked db p.0 × B.are asked db p.1 };

    ghost are_not = { λ asked db. A.are_not asked db ⊎ B.are_not asked db };

    fn read<S: Alter>(
        alloc: Global,
        conn: &mut Connection<S>,
        asked: &Asked,
    ) -> Result<Option<(A, B)>, Error> {
        let Some(first) = A::read(alloc, conn, asked)? else {
            return Ok(None);
        };
        match B::read(alloc, conn, asked)? {
            Some(others) => Ok(Some((first, others))),
            None => Ok(None),
        }
    }
}

type Numbered<T> = Vec<(u64, T)>;

type Shown = (
    Numbered<ItemRow>,
    (
        Numbered<Ref>,
        (Numbered<File>, (Numbered<TextRow>, Numbered<Date>)),
    ),
);

type Judged = (Numbered<UploadRow>, (Numbered<Want>, Shown));

type Arrived = (
    Numbered<Meta>,
    (
        Numbered<BodyRow>,
        (Numbered<Piece>, (Numbered<ArrivalRow>, Judged)),
    ),
);

/// The rows of all tables, from the pairs in which queries show them.
fn all_of(rows: Arrived) -> AllRows
    ensures { tables_with result ≡ tables_shown rows }
{
    let (meta, (bodies, (pieces, (arrivals, judged)))) = rows;
    let (uploads, (wants, shown)) = judged;
    let (items, (refs, (files, (texts, dates)))) = shown;
    AllRows {
        meta,
        bodies,
        pieces,
        arrivals,
        uploads,
        wants,
        items,
        refs,
        files,
        texts,
        dates,
    }
}

/// What the queries of a layout show, if each is understood and all rows are of today's tables.
pub fn old_rows<S: Alter>(
    alloc: Global,
    from: &mut Connection<S>,
    asked: &Asked,
) -> Result<Option<AllRows>, Error>
    requires idle { from.old.in_transaction ≡ false }
    requires texts { AreSelects asked.now }
    ensures idle { from.new.in_transaction ≡ false }
    ensures some { OnCleanDisk S.Store from.old from.new (λ old new. IfOk result (λ o. IfSome o (λ all. AreShown asked.now old.now (tables_with all)))) }
    ensures none { OnCleanDisk S.Store from.old from.new (λ old new. IfOk result (λ o. o ≡ None → ShowsNone asked.now old.now)) }
    ensures unchanged { OnCleanDisk S.Store from.old from.new (λ old new. OnOk result (IsUnchanged old new)) }
    ensures err { OnCleanDisk S.Store from.old from.new (λ old new. OnErr result (Fails old new)) }
    ensures survives { NeverCommits S.Store from.old from.new }
{
    match Arrived::read(alloc, from, asked)? {
        Some(rows) => Ok(Some(all_of(rows))),
        None => Ok(None),
    }
}
