//! Questions and their answers.

ghost use Rattle.std.specs.Prelude.{◌≡◌, ◌⊎◌, ◌≤◌, IfErr, IfOk, None, Ok, Some};
ghost use Rattle.std.specs.Option.{option_map};
ghost use Rattle.book.specs.Book.{latest, waiting_list};
ghost use Rattle.book.specs.Keeping.{Apart, Reads};
ghost use Rattle.rules.specs.Suites.{suite_named};
ghost use Rattle.telling.specs.Told.{IsTold, MayRefuse, all_told, bytes_of, configuration, question_of, shown_told, suite_told, verdicts_told, waiting_told};
ghost use Rattle.telling.specs.declared.fault.TellFault.TheVariants.{UnknownSuite};

use crate::fault::TellFault;
use crate::figure::{tell_figures, tell_status};
use crate::lines::joined;
use crate::page::tell_page;
use crate::question::Question;
use crate::why::tell_why;
use book::{Judgement, Keeper, LATEST, Waiting};
use output::listing::{all_json, all_lines, shown_json, shown_lines, verdict_json, waiting_json};
use rules::Config;
use std::alloc::{AllocError, Global};
use suites::Shelves;

/// What the suite at a position in the configuration shows, as lines or as objects.
fn shown_text(
    alloc: Global,
    shelves: &Shelves,
    suite: usize,
    is_json: bool,
) -> Result<Vec<u8>, AllocError>
    ensures { IfOk result (λ text. text.items ≡ shown_told shelves.now suite is_json) }
{
    if is_json {
        return joined(alloc, &shown_json(alloc, shelves, suite)?);
    }
    joined(alloc, &shown_lines(alloc, shelves, suite)?)
}

/// What all suites show, as lines or as objects, each with the codename of its suite.
fn all_text(
    alloc: Global,
    config: &Config,
    shelves: &Shelves,
    is_json: bool,
) -> Result<Vec<u8>, AllocError>
    ensures { IfOk result (λ text. text.items ≡ all_told config.now shelves.now is_json) }
{
    if is_json {
        return joined(alloc, &all_json(alloc, config, shelves)?);
    }
    joined(alloc, &all_lines(alloc, config, shelves)?)
}

/// What a suite shows, by its codename.
fn tell_shown<K: Keeper>(
    alloc: Global,
    keeper: &mut K,
    suite: &str,
    is_json: bool,
) -> Result<Vec<u8>, TellFault>
    ensures reads { Reads K.is_clean K.is_open K.faults K.book K.may_leave keeper.old keeper.new }
    ensures told { K.is_clean keeper.new → IfOk result (λ text. Ok (Some text.items) ≡ suite_told (suite_named (K.book keeper.old).config.suites suite.now) (K.book keeper.old).shown is_json) }
    ensures refused { IfErr result (λ e. (e ≡ UnknownSuite × (suite_named (K.book keeper.old).config.suites suite.now ≡ None)) ⊎ MayRefuse K.may_fail e) }
{
    let Some(place) = keeper.config().suite_named(suite) else {
        return Err(TellFault::UnknownSuite);
    };
    let shelves = keeper.shelves(alloc)?;
    let text = shown_text(alloc, &shelves, place, is_json)?;
    keeper.hold(shelves);
    Ok(text)
}

/// What all suites show.
fn tell_all<K: Keeper>(alloc: Global, keeper: &mut K, is_json: bool) -> Result<Vec<u8>, TellFault>
    ensures reads { Reads K.is_clean K.is_open K.faults K.book K.may_leave keeper.old keeper.new }
    ensures told { K.is_clean keeper.new → IfOk result (λ text. text.items ≡ all_told (K.book keeper.old).config (K.book keeper.old).shown is_json) }
    ensures cause { IfErr result (MayRefuse K.may_fail) }
{
    let shelves = keeper.shelves(alloc)?;
    let text = all_text(alloc, keeper.config(), &shelves, is_json)?;
    keeper.hold(shelves);
    Ok(text)
}

/// The text of the configuration.
fn tell_configuration<K: Keeper>(alloc: Global, keeper: &K) -> Result<Vec<u8>, AllocError>
    ensures { IfOk result (λ text. text.items ≡ (K.book keeper.now).config.text) }
{
    let mut text = Vec::new(alloc);
    text.extend_from_slice(keeper.config().text())?;
    Ok(text)
}

/// Uploads without a verdict, as objects.
fn waiting_text(alloc: Global, uploads: &[Waiting]) -> Result<Vec<u8>, AllocError>
    ensures { IfOk result (λ text. text.items ≡ waiting_told uploads.now) }
{
    joined(alloc, &waiting_json(alloc, uploads)?)
}

/// The uploads without a verdict by what counts at a moment, as objects.
fn tell_waiting<K: Keeper>(alloc: Global, keeper: &mut K, at: u64) -> Result<Vec<u8>, TellFault>
    requires in_time { at ≤ latest }
    ensures reads { Reads K.is_clean K.is_open K.faults K.book K.may_leave keeper.old keeper.new }
    ensures told { K.is_clean keeper.new → IfOk result (λ text. Apart (K.book keeper.old) (text.items ≡ waiting_told (waiting_list at (K.book keeper.old)))) }
    ensures cause { IfErr result (MayRefuse K.may_fail) }
{
    let uploads = keeper.waiting(alloc, at)?;
    Ok(waiting_text(alloc, &uploads)?)
}

/// Judged uploads, as objects.
fn verdicts_text(alloc: Global, judged: &[Judgement]) -> Result<Vec<u8>, AllocError>
    ensures { IfOk result (λ text. text.items ≡ verdicts_told judged.now) }
{
    joined(alloc, &verdict_json(alloc, judged)?)
}

/// The judged uploads, as objects.
fn tell_verdicts<K: Keeper>(alloc: Global, keeper: &mut K) -> Result<Vec<u8>, TellFault>
    ensures reads { Reads K.is_clean K.is_open K.faults K.book K.may_leave keeper.old keeper.new }
    ensures told { K.is_clean keeper.new → IfOk result (λ text. text.items ≡ verdicts_told (K.book keeper.old).judged) }
    ensures cause { IfErr result (MayRefuse K.may_fail) }
{
    let judged = keeper.verdicts(alloc)?;
    Ok(verdicts_text(alloc, &judged)?)
}

/// What is asked for at a moment, in seconds since 1970-01-01 00:00:00 UTC, as bytes. There is no text if no upload has the name that is
/// asked for, and no page of a suite if no suite has the codename. It is refused for a moment after 2099, and for a codename that no suite has.
pub fn tell<K: Keeper>(
    alloc: Global,
    keeper: &mut K,
    question: &Question,
    moment: u64,
) -> Result<Option<Vec<u8>>, TellFault>
    // The book stays as it was, and a crash leaves what it would have left before.
    ensures reads { Reads K.is_clean K.is_open K.faults K.book K.may_leave keeper.old keeper.new }
    ensures told { K.is_clean keeper.new → IsTold K.may_fail (K.book keeper.old) (question_of question.now) moment (bytes_of result) }
    // The configuration is answered also if the store has not returned what was written to it.
    ensures configured { question_of question.now ≡ configuration → IfOk result (λ text. option_map (λ it. it.items) text ≡ Some (K.book keeper.old).config.text) }
{
    if moment > LATEST {
        return Err(TellFault::Moment);
    }
    match question {
        Question::Why { name, is_json } => tell_why(alloc, keeper, name, *is_json, moment),
        Question::Shown {
            suite: Some(suite),
            is_json,
        } => { Ok(Some(tell_shown(alloc, keeper, suite.as_str(), *is_json)?)) }
        Question::Shown {
            suite: None,
            is_json,
        } => Ok(Some(tell_all(alloc, keeper, *is_json)?)),
        Question::Configuration => Ok(Some(tell_configuration(alloc, keeper)?)),
        Question::Waiting => Ok(Some(tell_waiting(alloc, keeper, moment)?)),
        Question::Verdicts => Ok(Some(tell_verdicts(alloc, keeper)?)),
        Question::Figures => Ok(Some(tell_figures(alloc, keeper, moment)?)),
        Question::Status => Ok(Some(tell_status(alloc, keeper, moment)?)),
        Question::Page { page, key } => tell_page(alloc, keeper, page, key, moment),
    }
}
