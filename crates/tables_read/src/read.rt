//! The rows of all tables.

ghost use Rattle.std.specs.Prelude.{◌≡◌, ◌⊎◌, false, IfErr, IfOk, IfSome, OnOk, OnErr, None, MatchOption};
ghost use Rattle.sqlite.specs.Effect.{Database};
ghost use Rattle.sqlite.specs.Held.{state};
ghost use Rattle.sqlite.specs.State.{IsUnchanged};
ghost use Rattle.tables.specs.Causes.{IsCaused};
ghost use Rattle.tables.specs.Rows.{Tables, Holds, Fails};
ghost use Rattle.tables.specs.Others.{IsArchiveSchema};
ghost use Rattle.tables_read.specs.All.{tables_with};
ghost use Rattle.tables_read.specs.Layout.{IsTable, IsNoTable};
ghost use Rattle.tables_read.specs.Pairs.{tables_in};
ghost use Rattle.tables_read.specs.Reading.{Tells};
ghost use Rattle.tables.specs.Real.{AreReal};
ghost use Rattle.tables.specs.Calls.{NeverCommits, OnCleanDisk};

use crate::all::AllRows;
use crate::in_order::InOrder;
use crate::stored::Stored;
use crate::table::table;
use sqlite::{Connection, Error};
use std::alloc::Global;
use tables::rows::{
    ArrivalRow, BodyRow, Date, File, ItemRow, Meta, Piece, Ref, TextRow, UploadRow, Want,
};

/// Tables that are read one after another: a pair of the first and the others.
trait Read: Sized + Drop {
    // these are the rows of the tables
    ghost are: { Database → Self → Type 0 };

    // no rows that code can hold are those of the tables
    ghost are_not: { Database → Type 0 };

    fn read<S: InOrder>(alloc: Global, conn: &mut Connection<S>) -> Result<Option<Self>, Error>
        requires idle { conn.old.in_transaction ≡ false }
        ensures { Tells (state S.Store conn.old) (state S.Store conn.new) result (λ o. MatchOption o (are_not (state S.Store conn.old).now) (are (state S.Store conn.old).now)) };
}

impl<T: Stored> Read for Vec<(u64, T)> {
    ghost are = { λ db all. IsTable T.layout db all.items };

    ghost are_not = { IsNoTable T.layout T.is_real };

    fn read<S: InOrder>(
        alloc: Global,
        conn: &mut Connection<S>,
    ) -> Result<Option<Vec<(u64, T)>>, Error> {
        table(alloc, conn)
    }
}

impl<A: Read, B: Read> Read for (A, B) {
    ghost are = { λ db p. A.are db p.0 × B.are db p.1 };

    ghost are_not = { λ db. A.are_not db ⊎ B.are_not db };

    fn read<S: InOrder>(alloc: Global, conn: &mut Connection<S>) -> Result<Option<(A, B)>, Error> {
        let Some(first) = A::read(alloc, conn)? else {
            return Ok(None);
        };
        match B::read(alloc, conn)? {
            Some(others) => Ok(Some((first, others))),
            None => Ok(None),
        }
    }
}

type Numbered<T> = Vec<(u64, T)>;

type Arrived = (
    Numbered<Meta>,
    (Numbered<BodyRow>, (Numbered<Piece>, Numbered<ArrivalRow>)),
);

type Judged = (Numbered<UploadRow>, Numbered<Want>);

type Shown = (
    (Numbered<ItemRow>, (Numbered<Ref>, Numbered<File>)),
    (Numbered<TextRow>, Numbered<Date>),
);

/// The rows of all tables, from the pairs in which they are read.
fn all_of(rows: (Arrived, (Judged, Shown))) -> AllRows
    ensures { tables_with result ≡ tables_in rows }
{
    AllRows {
        meta: rows.0.0,
        bodies: rows.0.1.0,
        pieces: rows.0.1.1.0,
        arrivals: rows.0.1.1.1,
        uploads: rows.1.0.0,
        wants: rows.1.0.1,
        items: rows.1.1.0.0,
        refs: rows.1.1.0.1.0,
        files: rows.1.1.0.1.1,
        texts: rows.1.1.1.0,
        dates: rows.1.1.1.1,
    }
}

/// All rows of the tables, if they are rows of an archive: typed, and with no size, moment or place below zero.
pub fn read_all<S: InOrder>(
    alloc: Global,
    conn: &mut Connection<S>,
) -> Result<Option<AllRows>, Error>
    requires idle { conn.old.in_transaction ≡ false }
    requires archive { IsArchiveSchema (state S.Store conn.old).now.schema }
    ensures idle { conn.old.in_transaction ≡ false → conn.new.in_transaction ≡ false }
    ensures some { OnCleanDisk S.Store conn.old conn.new (λ old new. IfOk result (λ o. IfSome o (λ all. Holds old.now (tables_with all)))) }
    // A text or a digest that code cannot hold is not one of an archive.
    ensures none { OnCleanDisk S.Store conn.old conn.new (λ old new. IfOk result (λ o. o ≡ None → (t : Tables) → AreReal t → Holds old.now t → ⊥)) }
    ensures unchanged { OnCleanDisk S.Store conn.old conn.new (λ old new. OnOk result (IsUnchanged old new)) }
    ensures err { OnCleanDisk S.Store conn.old conn.new (λ old new. OnErr result (Fails old new)) }
    ensures cause { OnCleanDisk S.Store conn.old conn.new (λ old new. IfErr result (IsCaused old new)) }
    ensures survives { NeverCommits S.Store conn.old conn.new }
{
    match <(Arrived, (Judged, Shown))>::read(alloc, conn)? {
        Some(rows) => Ok(Some(all_of(rows))),
        None => Ok(None),
    }
}
