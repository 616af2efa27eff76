//! The index texts and the dates after a change, as rows.

ghost use Rattle.std.specs.Prelude.{if◌then◌else◌, OnOk};
ghost use Rattle.book.specs.Scan.{some_touches};
ghost use Rattle.tables.specs.Dates.{with_new_date};
ghost use Rattle.tables_meaning.specs.Making.{with_new_dates, with_new_texts};
ghost use Rattle.tables_meaning.specs.Amending.{Makes};
ghost use Rattle.tables.specs.Calls.{CommitsNothing, Inside, IsSame, KeepsCommitted};

use book::{IndexText, Step, some_changes_suite};
use rules::Suite;
use sqlite::{Alter, Error, Transaction};
use tables::dates::update_date;
use tables::texts::update_text;

/// Replaces the index texts at these paths.
pub(crate) fn renew_texts<S: Alter>(
    tx: &mut Transaction<'_, S>,
    texts: &[IndexText],
) -> Result<(), Error>
    ensures same_reference { IsSame tx.old tx.new }
    ensures ok { Inside S.Store tx.old tx.new (λ old new. OnOk result (Makes old new (with_new_texts texts.now))) }
    ensures err { KeepsCommitted S.Store tx.old tx.new result }
    ensures survives { CommitsNothing S.Store tx.old tx.new }
{
    for text in texts {
        update_text(tx, text.path.as_str(), text.text.as_slice())?;
    }
    Ok(())
}

/// Sets the date of the suite at a position to the moment, if a step changes what it shows.
fn renew_date<S: Alter>(
    tx: &mut Transaction<'_, S>,
    at: usize,
    suite: &Suite,
    moment: u64,
    steps: &[Step],
) -> Result<(), Error>
    ensures same_reference { IsSame tx.old tx.new }
    ensures ok { Inside S.Store tx.old tx.new (λ old new. OnOk result (Makes old new (λ t. if some_touches at steps.now then with_new_date suite.now.codename moment t else t))) }
    ensures err { KeepsCommitted S.Store tx.old tx.new result }
    ensures survives { CommitsNothing S.Store tx.old tx.new }
{
    if some_changes_suite(steps, at) {
        update_date(tx, suite.codename.as_str(), moment)
    } else {
        Ok(())
    }
}

/// Sets the date of each suite that a step changes to the moment.
pub(crate) fn renew_dates<S: Alter>(
    tx: &mut Transaction<'_, S>,
    suites: &[Suite],
    moment: u64,
    steps: &[Step],
) -> Result<(), Error>
    ensures same_reference { IsSame tx.old tx.new }
    ensures ok { Inside S.Store tx.old tx.new (λ old new. OnOk result (Makes old new (with_new_dates suites.now moment steps.now))) }
    ensures err { KeepsCommitted S.Store tx.old tx.new result }
    ensures survives { CommitsNothing S.Store tx.old tx.new }
{
    for at in 0..suites.len() {
        renew_date(tx, at, &suites[at], moment, steps)?;
    }
    Ok(())
}
