//! Why an upload has its verdict, as lines and as JSON.

ghost use Rattle.std.specs.Prelude.{◌≡◌, ◌++◌, ◌∷◌, [], if◌then◌else◌, IfOk, None, Option, Some, map, option_map, option_to_list, string_bytes};
ghost use Rattle.serde_json.specs.Data.{array, string};
ghost use Rattle.serde_json.specs.View.{items_of, view};
ghost use Rattle.serde_json.specs.Written.{compact_text};
ghost use Rattle.rules.specs.Values.{ConfigValue};
ghost use Rattle.rules.specs.declared.verdict.Verdict.{Verdict as VerdictValue};
ghost use Rattle.suites.specs.Shelves.{ShelvesValue};
ghost use Rattle.suites.specs.Upload.{UploadValue};
ghost use Rattle.reasons.specs.Reasons.{named_by};
ghost use Rattle.output.specs.Explaining.Answers.{first_line, gone_lines, has_items, meant_by, meant_lines, said_below, said_data, todo_by};
ghost use Rattle.output.specs.Explaining.Judged.{IsAnswerOf, judged_data, judged_lines, name_data, names, number_if, stays, text_or_null, today_if, today_lines};
ghost use Rattle.output.specs.Explaining.Sentences.{is_accepted, verdict_words};
ghost use Rattle.output.specs.Explaining.Words.{below};
ghost use Rattle.output.specs.Explaining.Items.{item_lines};

use crate::explaining::items::item_lines;
use crate::explaining::members::{digest_value, no_values, text_value};
use crate::explaining::names::named_lines;
use crate::explaining::sentences::{meaning, remedy};
use crate::explaining::words::upload_line;
use book::Judgement;
use reasons::{Reason, reason_of};
use rules::{Config, Verdict};
use serde_json::{Map, Value, json, put};
use std::alloc::{AllocError, Global};
use suites::{Shelves, Upload};

/// Why an upload has its verdict.
#[derive(Drop)]
pub struct Answer {
    /// The verdict that it would have today, if that is another.
    today: Option<Verdict>,
    /// What is named, each as a word and a text after it.
    names: Vec<String>,
    /// Whether the files from which the reason is found are gone.
    is_cleaned: bool,
}

/// Whether a verdict is an acceptance.
fn is_accepted(verdict: Verdict) -> bool
    ensures { result ≡ is_accepted verdict }
{
    verdict.number() == 0
}

/// Whether the verdict of today is the one that was given.
fn stays(given: Verdict, today: Verdict) -> bool
    ensures { result ≡ stays given today }
{
    given.number() == today.number()
}

/// The verdict of today, if it is another than the one that was given.
fn today_if(given: Verdict, today: Verdict) -> Option<Verdict>
    ensures { result ≡ today_if given today }
{
    if stays(given, today) {
        None
    } else {
        Some(today)
    }
}

/// The items of an upload that was accepted; nothing of one that was refused.
fn items_if(
    alloc: Global,
    config: &Config,
    shelves: &Shelves,
    upload: &Upload,
    is_accepted: bool,
) -> Result<Vec<String>, AllocError>
    ensures { IfOk result (λ lines. map string_bytes lines.items ≡ if is_accepted then item_lines config.now shelves.now upload.now else []) }
{
    if is_accepted {
        item_lines(alloc, config, shelves, upload)
    } else {
        Ok(Vec::new(alloc))
    }
}

/// What is named of an upload that was given this verdict: what today's is about, or its items if it was accepted and would be today.
fn names_of(
    alloc: Global,
    config: &Config,
    shelves: &Shelves,
    upload: &Upload,
    given: Verdict,
    reason: &Reason,
) -> Result<Vec<String>, AllocError>
    requires { reason.now.named ≡ named_by config.now shelves.now upload.now reason.now.verdict }
    ensures { IfOk result (λ lines. map string_bytes lines.items ≡ names config.now shelves.now upload.now given reason.now.verdict) }
{
    if let Some(named) = &reason.named {
        return named_lines(alloc, config, upload.changes(), named);
    }
    let was_accepted = is_accepted(given);
    let is_accepted = is_accepted(reason.verdict);
    items_if(alloc, config, shelves, upload, is_accepted && was_accepted)
}

impl Answer {
    /// Why an upload has the verdict that it was given, by what the configuration says and the suites show today.
    pub fn new(
        alloc: Global,
        config: &Config,
        shelves: &Shelves,
        upload: &Upload,
        given: Verdict,
    ) -> Result<Answer, AllocError>
        ensures { IfOk result (IsAnswerOf config.now shelves.now (Some upload.now) given) }
    {
        let reason = reason_of(alloc, config, shelves, upload)?;
        let names = names_of(alloc, config, shelves, upload, given, &reason)?;
        let today = today_if(given, reason.verdict);
        Ok(Answer {
            today,
            names,
            is_cleaned: false,
        })
    }

    /// The answer for an upload whose files were cleaned: its verdict is given, and nothing is named.
    pub fn cleaned(alloc: Global) -> Answer
        ensures { (config : ConfigValue) (shelves : ShelvesValue) (given : VerdictValue) → IsAnswerOf config shelves None given result }
    {
        Answer {
            today: None,
            names: Vec::new(alloc),
            is_cleaned: true,
        }
    }
}

/// What is meant by today's verdict, or else by the one that was given. Nothing is said if an upload that was refused would be
/// accepted today: its packages were given to no suite.
fn meant_by(given: Verdict, today: Option<Verdict>) -> Option<&'static str>
    ensures { option_map (λ text. text.now) result ≡ meant_by given today }
{
    let Some(today) = today else {
        return Some(meaning(given));
    };
    if is_accepted(today) {
        return None;
    }
    Some(meaning(today))
}

/// What to do about today's verdict, or else about the one that was given.
fn todo_by(given: Verdict, today: Option<Verdict>) -> Option<&'static str>
    ensures { option_map (λ text. text.now) result ≡ todo_by given today }
{
    remedy(today.unwrap_or(given))
}

/// Whether the items of an accepted upload are named. In the lines they stand for what its verdict means.
fn has_items(given: Verdict, today: Option<Verdict>, is_cleaned: bool) -> bool
    ensures { result ≡ has_items given today is_cleaned }
{
    match today {
        Some(_) => false,
        None => !is_cleaned && is_accepted(given),
    }
}

/// `accepted`, or `refused` and the number.
fn verdict_words(alloc: Global, verdict: Verdict) -> Result<String, AllocError>
    ensures { IfOk result (λ words. string_bytes words ≡ verdict_words verdict) }
{
    if is_accepted(verdict) {
        return String::from_str(alloc, "accepted");
    }
    let number = verdict.number();
    format!(in alloc; "refused {number}")
}

/// The first line on a judged upload.
fn first_line(alloc: Global, judgement: &Judgement) -> Result<String, AllocError>
    ensures { IfOk result (λ line. string_bytes line ≡ first_line judgement.now) }
{
    let words = verdict_words(alloc, judgement.verdict)?;
    upload_line(
        alloc,
        words.as_str(),
        judgement.name.as_str(),
        &judgement.print,
    )
}

/// Adds a line after the first, with a space in front.
fn push_below(alloc: Global, lines: &mut Vec<String>, text: &str) -> Result<(), AllocError>
    ensures { IfOk result (λ _. map string_bytes lines.new.items ≡ map string_bytes lines.old.items ++ below text.now ∷ []) }
{
    lines.push(format!(in alloc; " {text}")?)?;
    Ok(())
}

/// Adds a line after the first, with a space in front, if there is a text for it.
fn push_some(alloc: Global, lines: &mut Vec<String>, text: Option<&str>) -> Result<(), AllocError>
    ensures { IfOk result (λ _. map string_bytes lines.new.items
        ≡ map string_bytes lines.old.items ++ map below (option_to_list (option_map (λ t. t.now) text.entry))) }
{
    if let Some(text) = text {
        push_below(alloc, lines, text)?;
    }
    Ok(())
}

/// Adds the line on the verdict of today, if that is another.
fn push_today(
    alloc: Global,
    lines: &mut Vec<String>,
    today: Option<Verdict>,
) -> Result<(), AllocError>
    ensures { IfOk result (λ _. map string_bytes lines.new.items ≡ map string_bytes lines.old.items ++ map below (today_lines today)) }
{
    if let Some(verdict) = today {
        let number = verdict.number();
        lines.push(format!(in alloc; " today {number}")?)?;
    }
    Ok(())
}

/// Adds what is meant by the verdict, if no items stand for it.
fn push_meant(
    alloc: Global,
    lines: &mut Vec<String>,
    given: Verdict,
    today: Option<Verdict>,
    is_cleaned: bool,
) -> Result<(), AllocError>
    ensures { IfOk result (λ _. map string_bytes lines.new.items ≡ map string_bytes lines.old.items ++ map below (meant_lines given today is_cleaned)) }
{
    if !has_items(given, today, is_cleaned) {
        push_some(alloc, lines, meant_by(given, today))?;
    }
    Ok(())
}

/// Adds what is named.
fn push_names(alloc: Global, lines: &mut Vec<String>, names: &[String]) -> Result<(), AllocError>
    ensures { IfOk result (λ _. map string_bytes lines.new.items ≡ map string_bytes lines.old.items ++ map below (map string_bytes names.now)) }
{
    for name in names {
        push_below(alloc, lines, name.as_str())?;
    }
    Ok(())
}

/// Adds that the files of an upload were cleaned, if they were.
fn push_gone(alloc: Global, lines: &mut Vec<String>, is_cleaned: bool) -> Result<(), AllocError>
    ensures { IfOk result (λ _. map string_bytes lines.new.items ≡ map string_bytes lines.old.items ++ map below (gone_lines is_cleaned)) }
{
    if is_cleaned {
        push_below(alloc, lines, "its files were cleaned")?;
    }
    Ok(())
}

/// Adds the lines after the first: today's verdict if it is another, what that means, what is named, and what to do.
fn push_said(
    alloc: Global,
    lines: &mut Vec<String>,
    given: Verdict,
    answer: &Answer,
) -> Result<(), AllocError>
    ensures { IfOk result (λ _. map string_bytes lines.new.items
        ≡ map string_bytes lines.old.items ++ map below (said_below given answer.now.today (map string_bytes answer.now.names.items) answer.now.is_cleaned)) }
{
    push_today(alloc, lines, answer.today)?;
    push_meant(alloc, lines, given, answer.today, answer.is_cleaned)?;
    push_names(alloc, lines, answer.names.as_slice())?;
    push_gone(alloc, lines, answer.is_cleaned)?;
    push_some(alloc, lines, todo_by(given, answer.today))
}

/// The lines on a judged upload: the verdict that it was given, and after that, each with a space in front, today's if it is another, what
/// that means, what is named, and what to do.
pub fn answer_lines(
    alloc: Global,
    judgement: &Judgement,
    answer: &Answer,
) -> Result<Vec<String>, AllocError>
    ensures { IfOk result (λ lines. (config : ConfigValue) (shelves : ShelvesValue) (found : Option UploadValue)
        → IsAnswerOf config shelves found judgement.now.verdict answer.now → map string_bytes lines.items ≡ judged_lines config shelves found judgement.now) }
{
    let mut lines = Vec::new(alloc);
    lines.push(first_line(alloc, judgement)?)?;
    push_said(alloc, &mut lines, judgement.verdict, answer)?;
    Ok(lines)
}

/// A word, and a text after it.
fn pair_value(alloc: Global, word: &str, text: &str) -> Result<Value, AllocError>
    ensures { IfOk result (λ value. view value ≡ array (items_of (string word.now ∷ string text.now ∷ []))) }
{
    json!(in alloc; [word, text])
}

/// The word and the text of what is named.
fn name_value(alloc: Global, name: &str) -> Result<Value, AllocError>
    ensures { IfOk result (λ value. view value ≡ name_data name.now) }
{
    match name.split_once(' ') {
        Some((word, text)) => pair_value(alloc, word, text),
        None => pair_value(alloc, name, ""),
    }
}

/// The word and the text of each name.
fn names_value(alloc: Global, names: &[String]) -> Result<Value, AllocError>
    ensures { IfOk result (λ value. view value ≡ array (items_of (map name_data (map string_bytes names.now)))) }
{
    let mut values = Vec::new(alloc);
    for name in names {
        values.push(name_value(alloc, name.as_str())?)?;
    }
    Ok(Value::Array(values))
}

/// A text, or null if there is none.
fn text_or_null(alloc: Global, text: Option<&str>) -> Result<Value, AllocError>
    ensures { IfOk result (λ value. view value ≡ text_or_null (option_map (λ t. t.now) text.entry)) }
{
    match text {
        Some(text) => text_value(alloc, text),
        None => Ok(Value::Null),
    }
}

/// The number of today's verdict, if that is another, else null.
fn today_value(today: Option<Verdict>) -> Value
    ensures { view result ≡ number_if today }
{
    match today {
        Some(verdict) => Value::from(verdict.number()),
        None => Value::Null,
    }
}

/// The object of a judged upload.
fn answer_value(alloc: Global, judgement: &Judgement, answer: &Answer) -> Result<Value, AllocError>
    ensures { IfOk result (λ value. view value ≡ said_data judgement.now answer.now) }
{
    let given = judgement.verdict;
    let mut object = Map::new(alloc);
    let name = text_value(alloc, judgement.name.as_str())?;
    put(&mut object, alloc, "upload", name)?;
    put(&mut object, alloc, "since", Value::Null)?;
    let digest = digest_value(alloc, &judgement.print)?;
    put(&mut object, alloc, "sha256", digest)?;
    put(&mut object, alloc, "verdict", Value::from(given.number()))?;
    let means = text_or_null(alloc, meant_by(given, answer.today))?;
    put(&mut object, alloc, "means", means)?;
    let todo = text_or_null(alloc, todo_by(given, answer.today))?;
    put(&mut object, alloc, "todo", todo)?;
    put(&mut object, alloc, "today", today_value(answer.today))?;
    let names = names_value(alloc, answer.names.as_slice())?;
    put(&mut object, alloc, "names", names)?;
    put(&mut object, alloc, "lacks", no_values(alloc))?;
    put(&mut object, alloc, "came", no_values(alloc))?;
    put(&mut object, alloc, "ended", no_values(alloc))?;
    Ok(Value::Object(object))
}

/// The object of a judged upload as text, on one line.
pub fn answer_json(
    alloc: Global,
    judgement: &Judgement,
    answer: &Answer,
) -> Result<String, AllocError>
    ensures { IfOk result (λ line. (config : ConfigValue) (shelves : ShelvesValue) (found : Option UploadValue)
        → IsAnswerOf config shelves found judgement.now.verdict answer.now → string_bytes line ≡ compact_text (judged_data config shelves found judgement.now)) }
{
    answer_value(alloc, judgement, answer)?.to_string(alloc)
}
