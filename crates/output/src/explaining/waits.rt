//! What a waiting upload lacks, as lines and as JSON.

ghost use Rattle.std.specs.Prelude.{◌≡◌, ◌++◌, ◌∷◌, [], IfOk, cond, if◌then◌else◌, filter, length, map, string_bytes};
ghost use Rattle.serde_json.specs.Data.{array};
ghost use Rattle.serde_json.specs.View.{items_of, view};
ghost use Rattle.serde_json.specs.Written.{compact_text};
ghost use Rattle.output.specs.Explaining.Waits.{came_items, file_data, has_ended, lack_data, lack_lines, lack_word, lacks_data, lacks_lines, moment_data, never_came, since_lines, waits_data, waits_lines, whole_lines};

use crate::explaining::members::{digest_value, no_values, text_value};
use crate::explaining::words::{file_line, upload_line};
use book::{LATEST, Lack, Waiting};
use para::Listed;
use serde_json::{Map, Value, json, put};
use std::alloc::{AllocError, Global};
use sums::Print;
use texts::date_text;

/// The word for a listed file that an upload lacks.
fn lack_word(lack: &Lack) -> &'static str
    ensures { result.now ≡ lack_word lack.now }
{
    if lack.is_ended { " ended" } else { " lacks" }
}

/// Adds the lines on a listed file that an upload lacks: that it did not come, or came and no longer counts, and what came in its place.
fn push_lack(
    alloc: Global,
    lines: &mut Vec<String>,
    lack: &Lack,
    came: &[Print],
) -> Result<(), AllocError>
    ensures { IfOk result (λ _. map string_bytes lines.new.items ≡ map string_bytes lines.old.items ++ lack_lines lack.now came.now) }
{
    let name = lack.name.as_str();
    lines.push(file_line(alloc, lack_word(lack), name, &lack.print)?)?;
    for print in came {
        lines.push(file_line(alloc, " came", name, print)?)?;
    }
    Ok(())
}

/// Adds the lines on listed files that an upload lacks, each with what came in its place.
fn push_lacks(
    alloc: Global,
    lines: &mut Vec<String>,
    lacks: &[Lack],
    came: &[Listed<Print>],
) -> Result<(), AllocError>
    ensures { IfOk result (λ _. map string_bytes lines.new.items ≡ map string_bytes lines.old.items ++ lacks_lines lacks.now came.now) }
{
    for (lack, prints) in lacks.iter().zip(came) {
        push_lack(alloc, lines, lack, prints.as_slice())?;
    }
    Ok(())
}

/// Adds the line that says since when an upload waits: the moment from which its .changes counts. A moment after `LATEST` has no date.
fn push_since(alloc: Global, lines: &mut Vec<String>, since: Option<u64>) -> Result<(), AllocError>
    ensures { IfOk result (λ _. map string_bytes lines.new.items ≡ map string_bytes lines.old.items ++ since_lines since) }
{
    let Some(moment) = since else {
        return Ok(());
    };
    if LATEST < moment {
        return Ok(());
    }
    let date = date_text(alloc, moment)?;
    lines.push(format!(in alloc; " since {date}")?)?;
    Ok(())
}

/// Adds the line that says that nothing lacks, if nothing does.
fn push_whole(alloc: Global, lines: &mut Vec<String>, lacks: &[Lack]) -> Result<(), AllocError>
    ensures { IfOk result (λ _. map string_bytes lines.new.items ≡ map string_bytes lines.old.items ++ whole_lines lacks.now) }
{
    if lacks.is_empty() {
        lines.push(String::from_str(alloc, " whole")?)?;
    }
    Ok(())
}

/// The lines on an upload that waits: since when, if that is known, and what it lacks, with what came in place of each.
#[tactic(auto, unfolding(crate::specs::Explaining::Waits::waits_lines))]
pub fn waiting_lines(
    alloc: Global,
    upload: &Waiting,
    since: Option<u64>,
    came: &[Listed<Print>],
) -> Result<Vec<String>, AllocError>
    requires { length came.now ≡ length upload.now.lacks }
    ensures { IfOk result (λ lines. map string_bytes lines.items ≡ waits_lines upload.now since came.now) }
{
    let mut lines = Vec::new(alloc);
    lines.push(upload_line(alloc, "waits", upload.name.as_str(), &upload.print)?)?;
    push_since(alloc, &mut lines, since)?;
    push_lacks(alloc, &mut lines, upload.lacks.as_slice(), came)?;
    push_whole(alloc, &mut lines, upload.lacks.as_slice())?;
    Ok(lines)
}

/// The name, the size and the SHA-256 of a file.
fn file_value(alloc: Global, name: &str, print: &Print) -> Result<Value, AllocError>
    ensures { IfOk result (λ value. view value ≡ file_data name.now print.now) }
{
    let digest = hex::encode(alloc, print.sha256.as_slice())?;
    let size = print.size;
    json!(in alloc; {"name": name, "size": size, "sha256": &digest})
}

/// Whether a lacking file is among those that came and no longer count, or among those that did not come.
fn is_among(lack: &Lack, is_ended: bool) -> bool
    ensures { result ≡ if is_ended then has_ended lack.now else never_came lack.now }
{
    if is_ended {
        lack.is_ended
    } else {
        !lack.is_ended
    }
}

/// Adds the object of a lacking file, if it is listed.
fn push_lack_if(
    alloc: Global,
    values: &mut Vec<Value>,
    is_listed: bool,
    lack: &Lack,
) -> Result<(), AllocError>
    ensures { IfOk result (λ _. map view values.new.items ≡ map view values.old.items ++ cond is_listed (lack_data lack.now ∷ []) []) }
{
    if is_listed {
        values.push(file_value(alloc, lack.name.as_str(), &lack.print)?)?;
    }
    Ok(())
}

/// The files that an upload lacks: those that came and no longer count, or those that did not come.
fn lacks_value(alloc: Global, lacks: &[Lack], is_ended: bool) -> Result<Value, AllocError>
    ensures { IfOk result (λ value. view value ≡ lacks_data (filter (λ l. if is_ended then has_ended l else never_came l) lacks.now)) }
{
    let mut values = Vec::new(alloc);
    for lack in lacks {
        push_lack_if(alloc, &mut values, is_among(lack, is_ended), lack)?;
    }
    Ok(Value::Array(values))
}

/// Adds the other contents that came under the name of a listed file.
fn push_came(
    alloc: Global,
    values: &mut Vec<Value>,
    lack: &Lack,
    came: &[Print],
) -> Result<(), AllocError>
    ensures { IfOk result (λ _. map view values.new.items ≡ map view values.old.items ++ map (file_data lack.now.name) came.now) }
{
    for print in came {
        values.push(file_value(alloc, lack.name.as_str(), print)?)?;
    }
    Ok(())
}

/// The other contents that came under names of listed files.
fn came_value(alloc: Global, lacks: &[Lack], came: &[Listed<Print>]) -> Result<Value, AllocError>
    ensures { IfOk result (λ value. view value ≡ array (items_of (came_items lacks.now came.now))) }
{
    let mut values = Vec::new(alloc);
    for (lack, prints) in lacks.iter().zip(came) {
        push_came(alloc, &mut values, lack, prints.as_slice())?;
    }
    Ok(Value::Array(values))
}

/// A moment, or null if it is not known.
fn moment_value(moment: Option<u64>) -> Value
    ensures { view result ≡ moment_data moment }
{
    match moment {
        Some(moment) => Value::from(moment),
        None => Value::Null,
    }
}

/// The object of an upload that waits, with the moment since which it waits and what came in place of each file that it lacks.
fn waiting_value(
    alloc: Global,
    upload: &Waiting,
    since: Option<u64>,
    came: &[Listed<Print>],
) -> Result<Value, AllocError>
    ensures { IfOk result (λ value. view value ≡ waits_data upload.now since came.now) }
{
    let lacks = upload.lacks.as_slice();
    let mut object = Map::new(alloc);
    let name = text_value(alloc, upload.name.as_str())?;
    put(&mut object, alloc, "upload", name)?;
    put(&mut object, alloc, "since", moment_value(since))?;
    let digest = digest_value(alloc, &upload.print)?;
    put(&mut object, alloc, "sha256", digest)?;
    put(&mut object, alloc, "verdict", Value::Null)?;
    put(&mut object, alloc, "means", Value::Null)?;
    put(&mut object, alloc, "todo", Value::Null)?;
    put(&mut object, alloc, "today", Value::Null)?;
    put(&mut object, alloc, "names", no_values(alloc))?;
    let lacking = lacks_value(alloc, lacks, false)?;
    put(&mut object, alloc, "lacks", lacking)?;
    let others = came_value(alloc, lacks, came)?;
    put(&mut object, alloc, "came", others)?;
    let ended = lacks_value(alloc, lacks, true)?;
    put(&mut object, alloc, "ended", ended)?;
    Ok(Value::Object(object))
}

/// The object of an upload that waits as text, on one line.
pub fn waiting_json(
    alloc: Global,
    upload: &Waiting,
    since: Option<u64>,
    came: &[Listed<Print>],
) -> Result<String, AllocError>
    requires { length came.now ≡ length upload.now.lacks }
    ensures { IfOk result (λ line. string_bytes line ≡ compact_text (waits_data upload.now since came.now)) }
{
    waiting_value(alloc, upload, since, came)?.to_string(alloc)
}
