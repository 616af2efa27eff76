//! The plan of an upload.

ghost use Rattle.std.specs.Prelude.{◌≡◌, IfOk, map};
ghost use Rattle.records.specs.Values.{ChangesValue};
ghost use Rattle.rules.specs.Judgement.{IsPlace, component as component_of_upload};
ghost use Rattle.suites.specs.Items.{item_of};
ghost use Rattle.suites.specs.Judging.{AreParts};
ghost use Rattle.suites.specs.Upload.{items_of as items_given};
ghost use Rattle.suites.specs.Plan.{IsStep, after_upload};
ghost use Rattle.suites.specs.Told.{AreTold};
ghost use Rattle.suites.specs.Verdict.{verdict_on};

use crate::admission::plan_admission;
use crate::item::Item;
use crate::items::{binary_item, source_item};
use crate::plan::Plan;
use crate::shelves::Shelves;
use crate::upload::Upload;
use crate::verdict::{Judged, Parts, judge_parts};
use rules::{Config, Place, judge};
use std::alloc::{AllocError, Global};

/// The items of an upload: one for its .dsc, if it has one, and one for each sidecar.
fn items_of(
    alloc: Global,
    component: &str,
    upload: &Upload,
    parts: &Parts<'_>,
) -> Result<Vec<Item>, AllocError>
    requires { AreParts upload.now parts.now }
    ensures { IfOk result (λ items. items.items ≡ map item_of (items_given (λ e. e.print) upload.now component.now)) }
{
    let changes = upload.changes();
    let mut items = Vec::new(alloc);
    if let Some(source) = &parts.source {
        items.push(source_item(alloc, component, changes, source)?)?;
    }
    for binary in &parts.binaries {
        items.push(binary_item(alloc, component, changes, binary)?)?;
    }
    Ok(items)
}

/// The name of the component at a place of the configuration.
fn component_name<'a>(config: &'a Config, place: Place) -> &'a str
    ensures { (c : ChangesValue) → IsPlace config.now c place → result.now ≡ component_of_upload c }
{
    let Some(suite) = config.suites().get(place.suite) else {
        return "";
    };
    match suite.components.as_slice().get(place.component) {
        Some(name) => name.as_str(),
        None => "",
    }
}

/// What an upload changes of the shelves: its verdict, and if it is accepted, the items that it gives its suite and
/// that are not covered there. The verdict is the lowest that applies.
pub fn plan_upload(
    alloc: Global,
    config: &Config,
    shelves: &Shelves,
    upload: &Upload,
) -> Result<Plan, AllocError>
    ensures verdict { IfOk result (λ plan. plan.verdict ≡ verdict_on config.now shelves.now upload.now) }
    ensures step { IfOk result (IsStep shelves.now (after_upload config.now shelves.now upload.now)) }
    ensures told { AreTold config.now.suites shelves.now → AreTold config.now.suites (after_upload config.now shelves.now upload.now) }
{
    // For the prover alone: each listed file has its text, no two have the same name, and the shelves are sound.
    upload.lists_once();
    shelves.agree();
    let place = match judge(config, upload.changes()) {
        Ok(place) => place,
        Err(verdict) => return Ok(Plan::unchanged(alloc, verdict)),
    };
    let component = component_name(config, place);
    match judge_parts(alloc, component, shelves, upload, config.largest_file())? {
        Judged::Accepted(parts) => {
            let items = items_of(alloc, component, upload, &parts)?;
            plan_admission(alloc, shelves, place.suite, items)
        }
        Judged::Refused(verdict) => Ok(Plan::unchanged(alloc, verdict)),
    }
}
