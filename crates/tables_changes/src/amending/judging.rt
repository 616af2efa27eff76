//! The judgements of a change, as rows.

ghost use Rattle.std.specs.Prelude.{◌≡◌, ◌+◌, IfOk, OnOk};
ghost use Rattle.std.specs.Option.{option_map_or};
ghost use Rattle.rules.specs.Verdicts.{number_of};
ghost use Rattle.tables.specs.Uploads.{with_verdict};
ghost use Rattle.tables.specs.Wants.{without_wants};
ghost use Rattle.tables_meaning.specs.Making.{with_judged};
ghost use Rattle.tables_meaning.specs.Amending.{Makes};
ghost use Rattle.tables.specs.Calls.{CommitsNothing, Inside, IsSame, KeepsCommitted};

use book::Judgement;
use rules::Verdict;
use sqlite::{Alter, Error, ErrorCode, Transaction};
use std::alloc::Global;
use tables::uploads::{set_verdict, upload_of};
use tables::wants::delete_wants;

/// Sets the place and the verdict of the upload of a number, which then wants nothing more.
fn set_judged<S: Alter>(
    tx: &mut Transaction<'_, S>,
    id: u64,
    place: u64,
    verdict: Verdict,
) -> Result<(), Error>
    ensures same_reference { IsSame tx.old tx.new }
    ensures ok { Inside S.Store tx.old tx.new (λ old new. OnOk result (Makes old new (λ t. without_wants id (with_verdict id place (number_of verdict) t)))) }
    ensures err { KeepsCommitted S.Store tx.old tx.new result }
    ensures survives { CommitsNothing S.Store tx.old tx.new }
{
    set_verdict(tx, id, place, u64::from(verdict.number()))?;
    delete_wants(tx, id)
}

/// Gives the upload of a judgement its place in the order of judging and its verdict.
fn judge<S: Alter>(
    alloc: Global,
    tx: &mut Transaction<'_, S>,
    place: u64,
    judgement: &Judgement,
) -> Result<(), Error>
    ensures same_reference { IsSame tx.old tx.new }
    ensures ok { Inside S.Store tx.old tx.new (λ old new. OnOk result (Makes old new (with_judged place judgement.now))) }
    ensures err { KeepsCommitted S.Store tx.old tx.new result }
    ensures survives { CommitsNothing S.Store tx.old tx.new }
{
    let found = upload_of(alloc, tx, judgement.name.as_str(), &judgement.print)?;
    match found {
        Some(found) => set_judged(tx, found.0, place, judgement.verdict),
        None => Ok(()),
    }
}

/// The place after the last.
fn place_after(judged: u64) -> Result<u64, Error>
    ensures { IfOk result (λ place. place ≡ judged + 1) }
{
    match judged.checked_add(1) {
        Some(place) => Ok(place),
        None => Err(Error::SqliteFailure(ErrorCode::TooBig)),
    }
}

/// Judges the upload of a judgement, if there is one, after `judged` others. It answers how many are judged then.
pub(crate) fn judge_if_any<S: Alter>(
    alloc: Global,
    tx: &mut Transaction<'_, S>,
    judged: u64,
    judgement: &Option<Judgement>,
) -> Result<u64, Error>
    ensures judged { IfOk result (λ after. after ≡ option_map_or (λ _. judged + 1) judgement.now judged) }
    ensures same_reference { IsSame tx.old tx.new }
    ensures ok { Inside S.Store tx.old tx.new (λ old new. OnOk result (Makes old new (λ t. option_map_or (λ j. with_judged (judged + 1) j t) judgement.now t))) }
    ensures err { KeepsCommitted S.Store tx.old tx.new result }
    ensures survives { CommitsNothing S.Store tx.old tx.new }
{
    match judgement {
        Some(one) => {
            let place = place_after(judged)?;
            judge(alloc, tx, place, one)?;
            Ok(place)
        }
        None => Ok(judged),
    }
}
