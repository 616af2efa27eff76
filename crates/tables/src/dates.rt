//! The dates of the suites.

ghost use Rattle.tables.specs.Rows.{with_date};
ghost use Rattle.tables.specs.Dates.{with_new_date, without_dates};
ghost use Rattle.tables.specs.Calls.{CommitsNothing, FailsInside, IsSame, Writes};

use crate::number::whole;
use sqlite::{Alter, Error, Transaction, params};

const INSERT_DATE: &str = "INSERT INTO dates (suite, moment) VALUES (?1, ?2)";

const UPDATE_DATE: &str = "UPDATE dates SET moment = ?2 WHERE suite = ?1";

const DELETE_DATES: &str = "DELETE FROM dates";

/// Adds the date of a suite.
pub fn insert_date<S: Alter>(
    tx: &mut Transaction<'_, S>,
    suite: &str,
    moment: u64,
) -> Result<(), Error>
    ensures same_reference { IsSame tx.old tx.new }
    ensures ok { Writes S.Store tx.old tx.new result (with_date (record { suite = suite.now; moment = moment })) }
    ensures err { FailsInside S.Store tx.old tx.new result }
    ensures survives { CommitsNothing S.Store tx.old tx.new }
{
    let moment = whole(moment)?;
    tx.execute(INSERT_DATE, params![suite, moment])?;
    Ok(())
}

/// Replaces the date of a suite.
pub fn update_date<S: Alter>(
    tx: &mut Transaction<'_, S>,
    suite: &str,
    moment: u64,
) -> Result<(), Error>
    ensures same_reference { IsSame tx.old tx.new }
    ensures ok { Writes S.Store tx.old tx.new result (with_new_date suite.now moment) }
    ensures err { FailsInside S.Store tx.old tx.new result }
    ensures survives { CommitsNothing S.Store tx.old tx.new }
{
    let moment = whole(moment)?;
    tx.execute(UPDATE_DATE, params![suite, moment])?;
    Ok(())
}

/// Removes the dates of all suites.
pub fn delete_dates<S: Alter>(tx: &mut Transaction<'_, S>) -> Result<(), Error>
    ensures same_reference { IsSame tx.old tx.new }
    ensures ok { Writes S.Store tx.old tx.new result without_dates }
    ensures err { FailsInside S.Store tx.old tx.new result }
    ensures survives { CommitsNothing S.Store tx.old tx.new }
{
    tx.execute(DELETE_DATES, &[])?;
    Ok(())
}
