//! The reason of what becomes of an upload.

ghost use Rattle.std.specs.Prelude.{◌≡◌, IfOk};
ghost use Rattle.suites.specs.Verdict.{verdict_on};
ghost use Rattle.reasons.specs.Reasons.{named_by};

use crate::about::{Named, Reason};
use crate::naming::{
    architecture, distribution, foreign_component, listing, other_contents, uploader,
};
use crate::reading::{bad_dsc, bad_sidecar, missing};
use rules::{Config, Verdict};
use std::alloc::{AllocError, Global};
use suites::{Shelves, Upload, plan_upload};

/// The verdict on an upload.
fn verdict_on(
    alloc: Global,
    config: &Config,
    shelves: &Shelves,
    upload: &Upload,
) -> Result<Verdict, AllocError>
    ensures { IfOk result (λ verdict. verdict ≡ verdict_on config.now shelves.now upload.now) }
{
    let plan = plan_upload(alloc, config, shelves, upload)?;
    Ok(plan.verdict)
}

/// What a verdict on an upload is about.
fn named_by(
    alloc: Global,
    config: &Config,
    shelves: &Shelves,
    upload: &Upload,
    verdict: Verdict,
) -> Result<Option<Named>, AllocError>
    ensures { IfOk result (λ found. found ≡ named_by config.now shelves.now upload.now verdict) }
{
    let changes = upload.changes();
    match verdict {
        Verdict::Accepted => Ok(None),
        Verdict::Unclaimed => distribution(alloc, changes),
        Verdict::ForeignArchitecture => architecture(config, changes),
        Verdict::NotAllowed => uploader(alloc, changes),
        Verdict::ForeignComponent => foreign_component(alloc, config, changes),
        Verdict::BadListing => listing(changes),
        Verdict::BadDsc => bad_dsc(alloc, upload, config.largest_file()),
        Verdict::BadSidecar => bad_sidecar(alloc, upload),
        Verdict::NotInPool => missing(alloc, shelves, upload),
        Verdict::OtherContents => other_contents(alloc, shelves, changes),
    }
}

/// The verdict on an upload under this configuration and with what these shelves show, and what it is about.
pub fn reason_of(
    alloc: Global,
    config: &Config,
    shelves: &Shelves,
    upload: &Upload,
) -> Result<Reason, AllocError>
    ensures verdict { IfOk result (λ reason. reason.verdict ≡ verdict_on config.now shelves.now upload.now) }
    ensures named { IfOk result (λ reason. reason.named ≡ named_by config.now shelves.now upload.now reason.verdict) }
{
    let verdict = verdict_on(alloc, config, shelves, upload)?;
    let named = named_by(alloc, config, shelves, upload, verdict)?;
    Ok(Reason { verdict, named })
}
