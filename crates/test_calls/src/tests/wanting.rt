//! The uploads that want something are found without reading those that were judged.

use super::checks::same;
use super::databases::{Subject, expect_in_memory};
use sqlite::{Alter, Connection, Error, Transaction};
use std::alloc::Global;
use std::process::Abort;
use std::test::Fail;
use sums::print_of;
use tables::schema::create_tables;
use tables::uploads::{insert_upload, set_verdict, upload_numbered};
use tables::wants::{insert_want, next_wanting};

/// The number of the id 1.
const FIRST: u64 = 9_223_372_036_854_775_809;

/// Adds uploads that are judged, at places from 1 on.
fn add_judged<S: Alter>(tx: &mut Transaction<'_, S>, judged: u64) -> Result<(), Error> {
    for place in 1..=judged {
        let id = insert_upload(tx, "a.changes", &print_of(&place.to_le_bytes()))?;
        set_verdict(tx, id, place, 0)?;
    }
    Ok(())
}

/// Adds an upload that waits for a file.
fn add_waiting<S: Alter>(tx: &mut Transaction<'_, S>, name: &str) -> Result<(), Error> {
    let print = print_of(b"");
    let id = insert_upload(tx, name, &print)?;
    insert_want(tx, id, "b.dsc", &print, true)
}

/// Makes the tables, with an upload that waits, 300 that are judged, and another one that waits.
fn fill<S: Alter>(tx: &mut Transaction<'_, S>) -> Result<(), Error> {
    create_tables(tx)?;
    add_waiting(tx, "b.changes")?;
    add_judged(tx, 300)?;
    add_waiting(tx, "c.changes")
}

/// Makes the tables and the uploads in a transaction of their own.
fn filled<S: Alter>(conn: &mut Connection<S>) -> Result<(), Error> {
    if !conn.is_autocommit() {
        return Ok(());
    }
    let mut tx = conn.transaction();
    fill(&mut tx)?;
    tx.commit()
}

/// The number of the first upload after a number that wants something, and whether there is such an upload.
fn next_upload<S: Alter>(
    alloc: Global,
    conn: &mut Connection<S>,
    after: Option<u64>,
) -> Result<Option<(u64, bool)>, Error> {
    let Some(id) = next_wanting(alloc, conn, after)? else {
        return Ok(None);
    };
    Ok(Some((id, upload_numbered(alloc, conn, id)?.is_some())))
}

/// Checks that ten steps are enough to find each of these uploads, and not enough for a scan, which takes a step for each
/// row.
pub fn expect_few_steps<S: Alter + Drop>(
    rt: &impl Abort,
    alloc: Global,
    connection: Connection<S>,
) -> Result<(), Fail> {
    let mut conn = connection;
    filled(&mut conn)?;
    conn.set_step_limit(Some(10));
    same(
        rt,
        &next_upload(alloc, &mut conn, None)?,
        &Some((FIRST, true)),
    );
    same(
        rt,
        &next_upload(alloc, &mut conn, Some(FIRST))?,
        &Some((FIRST + 301, true)),
    );
    same(
        rt,
        &next_upload(alloc, &mut conn, Some(FIRST + 301))?,
        &None,
    );
    let all = conn.query_all("SELECT id FROM uploads", &[]);
    same(rt, &all.is_err(), &true);
    Ok(())
}

/// Ten steps are enough among 300 uploads. A scan takes a step for each row.
#[test]
fn judged_uploads_are_not_read(rt: HostRuntime) -> Result<(), Fail> {
    expect_in_memory(&rt, rt.alloc(), Subject::Uploads)
}
