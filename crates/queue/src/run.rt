//! The work of a queue run: uploads judged in order.

ghost use Rattle.std.specs.Prelude.{◌≡◌, IfOk, OnOk};
ghost use Rattle.history.specs.Judging.{AreJudged, IsJudged, after_uploads};
ghost use Rattle.suites.specs.Plan.{after_upload};
ghost use Rattle.suites.specs.Shelves.{AreSound};
ghost use Rattle.suites.specs.Told.{AreTold};

use book::{Judgement, Step};
use para::Text;
use rules::Config;
use std::alloc::{AllocError, Global};
use suites::{Shelves, Upload, plan_upload};

/// Judges one upload against the shelves, and puts its items on them.
fn judged_step(
    alloc: Global,
    config: &Config,
    shelves: &mut Shelves,
    upload: &Upload,
) -> Result<Step, AllocError>
    ensures step { IfOk result (IsJudged config.now shelves.old upload.now) }
    ensures shelves { OnOk result (shelves.new ≡ after_upload config.now shelves.old upload.now) }
    ensures told { AreTold config.now.suites shelves.old → AreTold config.now.suites (after_upload config.now shelves.old upload.now) }
{
    let plan = plan_upload(alloc, config, shelves, upload)?;
    shelves.apply(alloc, &plan)?;
    Ok(Step {
        judgement: Some(Judgement {
            name: Text::new(alloc, upload.name())?,
            print: upload.print(),
            verdict: plan.verdict,
        }),
        plan,
    })
}

/// Judges uploads in order, each against the shelves as those before it left them.
pub fn judged_steps(
    alloc: Global,
    config: &Config,
    shelves: &mut Shelves,
    uploads: &[Upload],
) -> Result<Vec<Step>, AllocError>
    ensures steps { IfOk result (λ steps. AreJudged config.now shelves.old uploads.now steps.items) }
    ensures shelves { OnOk result (shelves.new ≡ after_uploads config.now shelves.old uploads.now) }
    ensures sound { AreSound shelves.old }
    // If records describe all that is shown, they still do so afterwards.
    ensures told { OnOk result (AreTold config.now.suites shelves.old → AreTold config.now.suites (after_uploads config.now shelves.old uploads.now)) }
{
    // For the prover alone: the shelves are sound.
    shelves.agree();
    let mut steps = Vec::new(alloc);
    for upload in uploads {
        steps.push(judged_step(alloc, config, shelves, upload)?)?;
    }
    Ok(steps)
}
