//! The steps of a change, as rows.

ghost use Rattle.std.specs.Prelude.{◌≡◌, IfOk, OnOk};
ghost use Rattle.tables.specs.Rows.{Tables, Holds};
ghost use Rattle.tables_meaning.specs.Making.{judged_by, with_plan, with_step, with_steps};
ghost use Rattle.tables_meaning.specs.Amending.{HasAllBodies, HasBodies, Makes};
ghost use Rattle.tables.specs.Calls.{CommitsNothing, Inside, IsSame, KeepsCommitted};

use crate::amending::judging::judge_if_any;
use crate::amending::pooling::change_pool;
use crate::amending::showing::change_items;
use book::Step;
use rules::Suite;
use sqlite::{Alter, Error, Transaction};
use std::alloc::Global;
use suites::Plan;

/// Makes a plan.
fn make_plan<S: Alter>(
    alloc: Global,
    tx: &mut Transaction<'_, S>,
    suites: &[Suite],
    plan: &Plan,
) -> Result<(), Error>
    ensures same_reference { IsSame tx.old tx.new }
    ensures ok { Inside S.Store tx.old tx.new (λ old new. OnOk result (Makes old new (with_plan suites.now plan.now))) }
    ensures err { KeepsCommitted S.Store tx.old tx.new result }
    ensures survives { CommitsNothing S.Store tx.old tx.new }
    ensures bodies { Inside S.Store tx.old tx.new (λ old new. OnOk result ((t : Tables) → Holds old.now t → HasBodies t plan.now.files_added)) }
{
    change_items(alloc, tx, suites, plan)?;
    change_pool(alloc, tx, plan)
}

/// Makes a step after `judged` judgements. It answers how many uploads are judged then.
fn make_step<S: Alter>(
    alloc: Global,
    tx: &mut Transaction<'_, S>,
    suites: &[Suite],
    judged: u64,
    step: &Step,
) -> Result<u64, Error>
    ensures judged { IfOk result (λ after. after ≡ judged_by judged step.now) }
    ensures same_reference { IsSame tx.old tx.new }
    ensures ok { Inside S.Store tx.old tx.new (λ old new. OnOk result (Makes old new (with_step suites.now judged step.now))) }
    ensures err { KeepsCommitted S.Store tx.old tx.new result }
    ensures survives { CommitsNothing S.Store tx.old tx.new }
    ensures bodies { Inside S.Store tx.old tx.new (λ old new. OnOk result ((t : Tables) → Holds old.now t → HasBodies t step.now.plan.files_added)) }
{
    let after = judge_if_any(alloc, tx, judged, &step.judgement)?;
    make_plan(alloc, tx, suites, &step.plan)?;
    Ok(after)
}

/// Makes the steps in order, after `judged` judgements.
pub(crate) fn make_steps<S: Alter>(
    alloc: Global,
    tx: &mut Transaction<'_, S>,
    suites: &[Suite],
    judged: u64,
    steps: &[Step],
) -> Result<(), Error>
    ensures same_reference { IsSame tx.old tx.new }
    ensures ok { Inside S.Store tx.old tx.new (λ old new. OnOk result (Makes old new (with_steps suites.now judged steps.now))) }
    ensures err { KeepsCommitted S.Store tx.old tx.new result }
    ensures survives { CommitsNothing S.Store tx.old tx.new }
    ensures bodies { Inside S.Store tx.old tx.new (λ old new. OnOk result ((t : Tables) → Holds old.now t → HasAllBodies t steps.now)) }
{
    let mut judged = judged;
    for step in steps {
        judged = make_step(alloc, tx, suites, judged, step)?;
    }
    Ok(())
}
