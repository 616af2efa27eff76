//! The names under which bodies arrived.

ghost use Rattle.std.specs.Prelude.{◌≡◌, find, false, map};
ghost use Rattle.tables.specs.Rows.{with_arrival, arrival_of, next_in, rows_of};
ghost use Rattle.tables.specs.Arrivals.{is_arrival, with_moment, without_arrival};
ghost use Rattle.tables.specs.Calls.{CommitsNothing, CommitsNothingOfOurs, FailsInside, GoesOnInside, IsSame, KeepsCommitted, LookFails, Looks, ReadFails, Reads, Writes, WritesAnd};

use crate::cells::row_number;
use crate::number::{as_id, whole};
use crate::read::{
    FromRow, id_at, select, select_first, select_first_inside, select_inside, text_at, whole_at,
};
use crate::rows::ArrivalRow;
use sqlite::{Alter, Connection, Error, Row, Transaction, params};
use std::alloc::Global;

const INSERT_ARRIVAL: &str = "INSERT INTO arrivals (name, body, moment) VALUES (?1, ?2, ?3)";

const SELECT_ARRIVAL: &str =
    "SELECT rowid, id, name, body, moment FROM arrivals WHERE name = ?1 AND body = ?2 ORDER BY rowid";

const SELECT_ARRIVALS: &str = "SELECT rowid, id, name, body, moment FROM arrivals ORDER BY rowid";

const SELECT_BODIES: &str = "SELECT body FROM arrivals ORDER BY rowid";

const UPDATE_MOMENT: &str = "UPDATE arrivals SET moment = ?2 WHERE id = ?1";

const DELETE_ARRIVAL: &str = "DELETE FROM arrivals WHERE id = ?1";

impl FromRow for ArrivalRow {
    ghost of_row = { arrival_of };

    fn from_row(row: &Row) -> Result<ArrivalRow, Error> {
        Ok(ArrivalRow {
            name: text_at(row, 2)?,
            body: id_at(row, 3)?,
            moment: whole_at(row, 4)?,
        })
    }
}

/// Adds an arrival of a body under a name, and answers its number.
pub fn insert_arrival<S: Alter>(
    tx: &mut Transaction<'_, S>,
    name: &str,
    body: u64,
    moment: u64,
) -> Result<u64, Error>
    ensures same_reference { IsSame tx.old tx.new }
    ensures ok { WritesAnd S.Store tx.old tx.new result (with_arrival (record { name = name.now; body = body; moment = moment })) (λ id t. id ≡ next_in t.arrivals) }
    ensures err { FailsInside S.Store tx.old tx.new result }
    ensures survives { CommitsNothing S.Store tx.old tx.new }
{
    let body = as_id(body);
    let moment = whole(moment)?;
    tx.execute(INSERT_ARRIVAL, params![name, body, moment])?;
    Ok(row_number(tx.last_insert_rowid()))
}

/// The arrival of a body under a name, with its number, inside a transaction.
pub fn arrival_of<S: Alter>(
    alloc: Global,
    tx: &mut Transaction<'_, S>,
    name: &str,
    body: u64,
) -> Result<Option<(u64, ArrivalRow)>, Error>
    ensures same_reference { IsSame tx.old tx.new }
    ensures ok { Looks S.Store tx.old tx.new result (λ t found. found ≡ find (λ x. is_arrival name.now body x.1) t.arrivals) }
    ensures err { LookFails S.Store tx.old tx.new result }
    ensures goes_on { GoesOnInside S.Store tx.old tx.new result }
    ensures kept { KeepsCommitted S.Store tx.old tx.new result }
    ensures survives { CommitsNothing S.Store tx.old tx.new }
{
    let body = as_id(body);
    select_first_inside(alloc, tx, SELECT_ARRIVAL, params![name, body])
}

/// The arrival of a body under a name, with its number.
pub fn arrival_at<S: Alter>(
    alloc: Global,
    conn: &mut Connection<S>,
    name: &str,
    body: u64,
) -> Result<Option<(u64, ArrivalRow)>, Error>
    ensures idle { conn.old.in_transaction ≡ false → conn.new.in_transaction ≡ false }
    ensures ok { Reads S.Store conn.old conn.new result (λ t found. found ≡ find (λ x. is_arrival name.now body x.1) t.arrivals) }
    ensures err { ReadFails S.Store conn.old conn.new result }
    ensures survives { CommitsNothingOfOurs S.Store conn.old conn.new }
{
    let body = as_id(body);
    select_first(alloc, conn, SELECT_ARRIVAL, params![name, body])
}

/// The arrivals with their numbers, in the order of these.
pub fn all_arrivals<S: Alter>(
    alloc: Global,
    conn: &mut Connection<S>,
) -> Result<Vec<(u64, ArrivalRow)>, Error>
    ensures idle { conn.old.in_transaction ≡ false → conn.new.in_transaction ≡ false }
    ensures ok { Reads S.Store conn.old conn.new result (λ t all. all.items ≡ t.arrivals) }
    ensures err { ReadFails S.Store conn.old conn.new result }
    ensures survives { CommitsNothingOfOurs S.Store conn.old conn.new }
{
    select(alloc, conn, SELECT_ARRIVALS, &[])
}

/// The arrivals with their numbers, in the order of these, inside a transaction.
pub fn all_arrivals_inside<S: Alter>(
    alloc: Global,
    tx: &mut Transaction<'_, S>,
) -> Result<Vec<(u64, ArrivalRow)>, Error>
    ensures same_reference { IsSame tx.old tx.new }
    ensures ok { Looks S.Store tx.old tx.new result (λ t all. all.items ≡ t.arrivals) }
    ensures err { LookFails S.Store tx.old tx.new result }
    ensures goes_on { GoesOnInside S.Store tx.old tx.new result }
    ensures kept { KeepsCommitted S.Store tx.old tx.new result }
    ensures survives { CommitsNothing S.Store tx.old tx.new }
{
    select_inside(alloc, tx, SELECT_ARRIVALS, &[])
}

/// The number of the body of each arrival, inside a transaction.
pub fn arrived_bodies_inside<S: Alter>(
    alloc: Global,
    tx: &mut Transaction<'_, S>,
) -> Result<Vec<u64>, Error>
    ensures same_reference { IsSame tx.old tx.new }
    ensures ok { Looks S.Store tx.old tx.new result (λ t all. all.items ≡ map (λ a. a.body) (rows_of t.arrivals)) }
    ensures err { LookFails S.Store tx.old tx.new result }
    ensures goes_on { GoesOnInside S.Store tx.old tx.new result }
    ensures kept { KeepsCommitted S.Store tx.old tx.new result }
    ensures survives { CommitsNothing S.Store tx.old tx.new }
{
    select_inside(alloc, tx, SELECT_BODIES, &[])
}

/// Replaces the moment of an arrival.
pub fn update_moment<S: Alter>(
    tx: &mut Transaction<'_, S>,
    id: u64,
    moment: u64,
) -> Result<(), Error>
    ensures same_reference { IsSame tx.old tx.new }
    ensures ok { Writes S.Store tx.old tx.new result (with_moment id moment) }
    ensures err { FailsInside S.Store tx.old tx.new result }
    ensures survives { CommitsNothing S.Store tx.old tx.new }
{
    let id = as_id(id);
    let moment = whole(moment)?;
    tx.execute(UPDATE_MOMENT, params![id, moment])?;
    Ok(())
}

/// Removes the arrival of a number.
pub fn delete_arrival<S: Alter>(tx: &mut Transaction<'_, S>, id: u64) -> Result<(), Error>
    ensures same_reference { IsSame tx.old tx.new }
    ensures ok { Writes S.Store tx.old tx.new result (without_arrival id) }
    ensures err { FailsInside S.Store tx.old tx.new result }
    ensures survives { CommitsNothing S.Store tx.old tx.new }
{
    let id = as_id(id);
    tx.execute(DELETE_ARRIVAL, params![id])?;
    Ok(())
}
