//! Why uploads have their verdicts, and what the waiting uploads lack.
//!
//! An archive keeps verdicts, but not the reasons for them. A reason is found again from the files of an upload, by the configuration and
//! by what the suites show today. If today's verdict differs, that is said, and only the number of the older verdict is given.

ghost use Rattle.std.specs.Prelude.{◌≡◌, ◌⊎◌, ◌≤◌, ◌++◌, [], IfErr, IfOk, List, Option, OnOk, length, string_bytes};
ghost use Rattle.std.specs.List.{list_any};
ghost use Rattle.std.specs.Option.{option_map};
ghost use Rattle.rules.specs.Values.{ConfigValue};
ghost use Rattle.suites.specs.Shelves.{ShelvesValue};
ghost use Rattle.suites.specs.Upload.{UploadValue};
ghost use Rattle.inquiry.specs.Named.{IsByName, moment_in};
ghost use Rattle.inquiry.specs.Reading.{kept_upload};
ghost use Rattle.book.specs.Book.{latest, arrived_in};
ghost use Rattle.book.specs.Keeping.{Apart, MayAnswer, Reads};
ghost use Rattle.book.specs.declared.arrived.ArrivedFile.{ArrivedFile as FileValue};
ghost use Rattle.output.specs.Explaining.Judged.{IsAnswerOf};
ghost use Rattle.telling.specs.Course.{IsCourse};
ghost use Rattle.telling.specs.Told.{IsOf, MayRefuse, bytes_of, explained};
ghost use Rattle.telling.specs.Why.{answer_text, is_asked, is_named, judged_text, judged_texts, judged_told, waits_text, waits_texts, waits_with};

use crate::fault::TellFault;
use crate::lines::{push_all_shown, push_shown};
use book::{ArrivedFile, Counting, Judgement, KeepFault, Keeper, Waiting, group_of};
use inquiry::{Delivered, by_name, came_instead, read_upload};
use output::explaining::{Answer, answer_json, answer_lines, waiting_json, waiting_lines};
use para::Listed;
use std::alloc::{AllocError, Global};
use std::collections::BTreeMap;
use suites::Shelves;
use sums::Print;

/// The files that arrived in an archive, the uploads that wait, and what counts.
#[derive(Drop)]
struct Course {
    arrived: Vec<ArrivedFile>,
    waiting: Vec<Waiting>,
    counting: Counting,
}

/// Whether an upload that waits has the name that is asked for, if one is.
fn is_asked(wanted: &Option<String>, upload: &Waiting) -> bool
    ensures { result ≡ is_asked (option_map string_bytes wanted.now) upload.now }
{
    match wanted {
        Some(name) => upload.name.as_str() == name.as_str(),
        None => true,
    }
}

/// What has arrived. If nothing waits, it is not read.
fn arrived_for<K: Keeper>(
    alloc: Global,
    keeper: &mut K,
    waiting: &[Waiting],
) -> Result<Vec<ArrivedFile>, KeepFault>
    ensures reads { Reads K.is_clean K.is_open K.faults K.book K.may_leave keeper.old keeper.new }
    ensures served { K.is_clean keeper.new → K.is_open keeper.old → OnOk result (K.is_open keeper.new) }
    ensures arrived { K.is_clean keeper.new → IfOk result (λ files. (waiting.now ≡ []) ⊎ (files.items ≡ arrived_in (K.book keeper.old))) }
    ensures cause { IfErr result (MayAnswer K.may_fail) }
{
    if waiting.is_empty() {
        return Ok(Vec::new(alloc));
    }
    keeper.arrivals(alloc)
}

/// What arrived and waits, and what counts at a moment. If nothing waits, what arrived is not read.
fn course_of<K: Keeper>(alloc: Global, keeper: &mut K, at: u64) -> Result<Course, TellFault>
    requires in_time { at ≤ latest }
    ensures reads { Reads K.is_clean K.is_open K.faults K.book K.may_leave keeper.old keeper.new }
    ensures served { K.is_clean keeper.new → OnOk result (K.is_open keeper.new) }
    ensures course { K.is_clean keeper.new → IfOk result (λ course. Apart (K.book keeper.old) (IsCourse at (K.book keeper.old) course)) }
    ensures cause { IfErr result (MayRefuse K.may_fail) }
{
    let counting = Counting::new(keeper.config(), at);
    let waiting = keeper.waiting(alloc, at)?;
    let arrived = arrived_for(alloc, keeper, &waiting)?;
    Ok(Course {
        arrived,
        waiting,
        counting,
    })
}

/// The moment from which the .changes of an upload that waits counts, among what was delivered under its name: the greatest at which it was
/// delivered.
fn since_of(deliveries: &[Delivered], upload: &Waiting) -> Option<u64>
    ensures { result ≡ moment_in upload.now.print deliveries.now }
{
    for delivered in deliveries {
        if delivered.print == upload.print {
            return Some(delivered.moment);
        }
    }
    None
}

/// Appends a waiting upload, since when it waits, what it lacks, and what came in its place.
fn push_waiting_with(
    alloc: Global,
    upload: &Waiting,
    since: Option<u64>,
    came: &[Listed<Print>],
    is_json: bool,
    out: &mut Vec<u8>,
) -> Result<(), AllocError>
    requires { length came.now ≡ length upload.now.lacks }
    ensures { OnOk result (out.new.items ≡ out.old.items ++ waits_with is_json upload.now since came.now) }
{
    if is_json {
        let line = waiting_json(alloc, upload, since, came)?;
        return push_shown(alloc, line.as_str(), out);
    }
    let lines = waiting_lines(alloc, upload, since, came)?;
    push_all_shown(alloc, &lines, out)
}

/// Appends a waiting upload with what is found of it in what has arrived.
fn push_waiting(
    alloc: Global,
    named: &BTreeMap<String, Vec<Delivered>>,
    counting: Counting,
    upload: &Waiting,
    is_json: bool,
    out: &mut Vec<u8>,
) -> Result<(), AllocError>
    ensures { OnOk result ((files : List FileValue) → IsByName files named.now → out.new.items ≡ out.old.items ++ waits_text counting files is_json upload.now) }
{
    let came = came_instead(alloc, named, counting, upload.lacks.as_slice())?;
    let since = since_of(group_of(named, upload.name.as_str()), upload);
    push_waiting_with(alloc, upload, since, &came, is_json, out)
}

/// Appends each upload that waits and is asked for, and says whether there is one.
fn push_all_waiting(
    alloc: Global,
    course: &Course,
    wanted: &Option<String>,
    is_json: bool,
    out: &mut Vec<u8>,
) -> Result<bool, AllocError>
    ensures text { OnOk result (out.new.items ≡ out.old.items
        ++ waits_texts course.now.counting course.now.arrived.items (option_map string_bytes wanted.now) is_json course.now.waiting.items) }
    ensures has_one { IfOk result (λ has. has ≡ list_any (is_asked (option_map string_bytes wanted.now)) course.now.waiting.items) }
{
    let named = by_name(alloc, &course.arrived)?;
    let mut has_one = false;
    for upload in &course.waiting {
        if is_asked(wanted, upload) {
            has_one = true;
            push_waiting(alloc, &named, course.counting, upload, is_json, out)?;
        }
    }
    Ok(has_one)
}

/// Why a judged upload has its verdict.
fn answer_on<K: Keeper>(
    alloc: Global,
    keeper: &mut K,
    shelves: &Shelves,
    judgement: &Judgement,
) -> Result<Answer, TellFault>
    ensures reads { Reads K.is_clean K.is_open K.faults K.book K.may_leave keeper.old keeper.new }
    ensures served { K.is_clean keeper.new → OnOk result (K.is_open keeper.new) }
    ensures answer { K.is_clean keeper.new → IfOk result (IsAnswerOf (K.book keeper.old).config shelves.now
        (kept_upload (K.book keeper.old).arrivals judgement.now.name judgement.now.print) judgement.now.verdict) }
    ensures cause { IfErr result (MayRefuse K.may_fail) }
{
    let (name, given) = (judgement.name.as_str(), judgement.verdict);
    let Some(upload) = read_upload(alloc, keeper, name, &judgement.print)? else {
        return Ok(Answer::cleaned(alloc));
    };
    Ok(Answer::new(alloc, keeper.config(), shelves, &upload, given)?)
}

/// Appends why a judged upload has its verdict.
#[tactic(auto, unfolding(crate::specs::Why::answer_text))]
fn push_answer(
    alloc: Global,
    judgement: &Judgement,
    answer: &Answer,
    is_json: bool,
    out: &mut Vec<u8>,
) -> Result<(), AllocError>
    ensures { OnOk result ((config : ConfigValue) (shelves : ShelvesValue) (found : Option UploadValue) → IsAnswerOf config shelves found judgement.now.verdict answer.now
        → out.new.items ≡ out.old.items ++ answer_text config shelves found is_json judgement.now) }
{
    if is_json {
        let line = answer_json(alloc, judgement, answer)?;
        return push_shown(alloc, line.as_str(), out);
    }
    let lines = answer_lines(alloc, judgement, answer)?;
    push_all_shown(alloc, &lines, out)
}

/// Whether a judged upload has the name.
fn is_named(judgement: &Judgement, name: &str) -> bool
    ensures { result ≡ is_named name.now judgement.now }
{
    judgement.name.as_str() == name
}

/// Appends why a judged upload has its verdict.
fn push_judged<K: Keeper>(
    alloc: Global,
    keeper: &mut K,
    shelves: &Shelves,
    judgement: &Judgement,
    is_json: bool,
    out: &mut Vec<u8>,
) -> Result<(), TellFault>
    ensures reads { Reads K.is_clean K.is_open K.faults K.book K.may_leave keeper.old keeper.new }
    ensures served { K.is_clean keeper.new → OnOk result (K.is_open keeper.new) }
    ensures text { K.is_clean keeper.new → OnOk result (out.new.items ≡ out.old.items ++ judged_text (K.book keeper.old) shelves.now is_json judgement.now) }
    ensures cause { IfErr result (MayRefuse K.may_fail) }
{
    let answer = answer_on(alloc, keeper, shelves, judgement)?;
    push_answer(alloc, judgement, &answer, is_json, out)?;
    Ok(())
}

/// Appends why each judged upload of a name has its verdict.
#[tactic(auto, using(book::proofs::ReadLemmas::reads_none, book::proofs::ReadLemmas::reads_more))]
fn push_all_judged<K: Keeper>(
    alloc: Global,
    keeper: &mut K,
    shelves: &Shelves,
    judged: &[Judgement],
    name: &str,
    is_json: bool,
    out: &mut Vec<u8>,
) -> Result<(), TellFault>
    ensures reads { Reads K.is_clean K.is_open K.faults K.book K.may_leave keeper.old keeper.new }
    ensures served { K.is_clean keeper.new → K.is_open keeper.old → OnOk result (K.is_open keeper.new) }
    ensures text { K.is_clean keeper.new → K.is_open keeper.new
        → OnOk result (out.new.items ≡ out.old.items ++ judged_texts (K.book keeper.old) shelves.now name.now is_json judged.now) }
    ensures cause { IfErr result (MayRefuse K.may_fail) }
{
    for judgement in judged {
        if is_named(judgement, name) {
            push_judged(alloc, keeper, shelves, judgement, is_json, out)?;
        }
    }
    Ok(())
}

/// Whether a judged upload has the name.
fn has_judged(judged: &[Judgement], name: &str) -> bool
    ensures { result ≡ list_any (is_named name.now) judged.now }
{
    for judgement in judged {
        if is_named(judgement, name) {
            return true;
        }
    }
    false
}

/// Appends why each judged upload of a name has its verdict, and says whether there is one. If there is none, what the suites show is not
/// read.
#[tactic(auto, using(book::proofs::ReadLemmas::reads_none, book::proofs::ReadLemmas::reads_more))]
fn push_verdicts<K: Keeper>(
    alloc: Global,
    keeper: &mut K,
    name: &str,
    is_json: bool,
    out: &mut Vec<u8>,
) -> Result<bool, TellFault>
    ensures reads { Reads K.is_clean K.is_open K.faults K.book K.may_leave keeper.old keeper.new }
    ensures has_one { K.is_clean keeper.new → IfOk result (λ has. has ≡ list_any (is_named name.now) (K.book keeper.old).judged) }
    ensures text { K.is_clean keeper.new → OnOk result (out.new.items ≡ out.old.items ++ judged_told (K.book keeper.old) name.now is_json) }
    ensures cause { IfErr result (MayRefuse K.may_fail) }
{
    let judged = keeper.verdicts(alloc)?;
    if !has_judged(&judged, name) {
        return Ok(false);
    }
    let shelves = keeper.shelves(alloc)?;
    push_all_judged(alloc, keeper, &shelves, &judged, name, is_json, out)?;
    keeper.hold(shelves);
    Ok(true)
}

/// Why the uploads of a name have their verdicts, and what those that wait lack; without a name, what each waiting upload lacks. There is
/// no text if no upload has the name.
#[tactic(auto, using(book::proofs::ReadLemmas::reads_none, book::proofs::ReadLemmas::reads_more))]
pub fn tell_why<K: Keeper>(
    alloc: Global,
    keeper: &mut K,
    wanted: &Option<String>,
    is_json: bool,
    at: u64,
) -> Result<Option<Vec<u8>>, TellFault>
    requires in_time { at ≤ latest }
    ensures reads { Reads K.is_clean K.is_open K.faults K.book K.may_leave keeper.old keeper.new }
    ensures told { K.is_clean keeper.new → OnOk result (IsOf (K.book keeper.old) at (explained (option_map string_bytes wanted.now) is_json) (bytes_of result)) }
    ensures cause { IfErr result (MayRefuse K.may_fail) }
{
    let mut out = Vec::new(alloc);
    let course = course_of(alloc, keeper, at)?;
    let has_waiting = push_all_waiting(alloc, &course, wanted, is_json, &mut out)?;
    let Some(name) = wanted else {
        return Ok(Some(out));
    };
    let has_judged = push_verdicts(alloc, keeper, name.as_str(), is_json, &mut out)?;
    if has_judged {
        return Ok(Some(out));
    }
    if has_waiting { Ok(Some(out)) } else { Ok(None) }
}
