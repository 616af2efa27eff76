//! What suites show, which uploads wait and which were judged, as JSON: an object a line.

ghost use Rattle.std.specs.Prelude.{◌≡◌, ◌++◌, ◌∷◌, [], cond, map, string_bytes, IfOk};
ghost use Rattle.serde_json.specs.Data.{array};
ghost use Rattle.serde_json.specs.View.{items_of, view};
ghost use Rattle.serde_json.specs.Written.{compact_text};
ghost use Rattle.std.specs.FinMap.{entries};
ghost use Rattle.output.specs.Json.{file_data, item_data, json_in, json_on, judgement_data, shown_data, waiting_data};
ghost use Rattle.output.specs.Listing.{shown_in};

use book::{Judgement, Waiting};
use rules::Config;
use serde_json::{Value, json};
use std::alloc::{AllocError, Global};
use suites::{Item, PoolFile, Shelves, codename_at};

/// The path, the size and the SHA-256 of a file of the pool.
fn file_value(alloc: Global, file: &PoolFile) -> Result<Value, AllocError>
    ensures { IfOk result (λ value. view value ≡ file_data file.now) }
{
    let digest = hex::encode(alloc, file.print.sha256.as_slice())?;
    let (path, size) = (file.path.as_str(), file.print.size);
    json!(in alloc; {"path": path, "size": size, "sha256": &digest})
}

/// The files of an item, in their order.
fn files_value(alloc: Global, files: &[PoolFile]) -> Result<Value, AllocError>
    ensures { IfOk result (λ value. view value ≡ array (items_of (map file_data files.now))) }
{
    let mut values = Vec::new(alloc);
    for file in files {
        values.push(file_value(alloc, file)?)?;
    }
    Ok(Value::Array(values))
}

/// The object of an item. Keys: `package`, `version`, `architecture`, `component`, `source` and `files`, which has an object for each file.
fn item_value(alloc: Global, item: &Item) -> Result<Value, AllocError>
    ensures { IfOk result (λ value. view value ≡ item_data item.now) }
{
    let files = files_value(alloc, item.files.as_slice())?;
    let (package, version) = (item.package.as_str(), item.version.text());
    let (architecture, component) = (item.architecture.as_str(), item.component.as_str());
    let source = item.source.as_str();
    json!(in alloc; {
        "package": package,
        "version": version,
        "architecture": architecture,
        "component": component,
        "source": source,
        "files": files
    })
}

/// The object of an item as text, on one line.
fn item_json(alloc: Global, item: &Item) -> Result<String, AllocError>
    ensures { IfOk result (λ line. string_bytes line ≡ compact_text (item_data item.now)) }
{
    item_value(alloc, item)?.to_string(alloc)
}

/// Adds the text of an item, if it is shown.
fn push_json_if(
    alloc: Global,
    lines: &mut Vec<String>,
    is_shown: bool,
    item: &Item,
) -> Result<(), AllocError>
    ensures { IfOk result (λ _. map string_bytes lines.new.items
        ≡ map string_bytes lines.old.items ++ cond is_shown (compact_text (item_data item.now) ∷ []) []) }
{
    if is_shown {
        lines.push(item_json(alloc, item)?)?;
    }
    Ok(())
}

/// An object for each item that a suite shows, which is a position in the configuration, in the order of the shelves. Keys: `package`,
/// `version`, `architecture`, `component`, `source`, and `files`, in which each file has `path`, `size` in bytes and `sha256`.
pub fn shown_json(alloc: Global, shelves: &Shelves, suite: usize) -> Result<Vec<String>, AllocError>
    ensures { IfOk result (λ lines. map string_bytes lines.items ≡ map json_on (shown_in suite shelves.now)) }
{
    let mut lines = Vec::new(alloc);
    for (key, item) in shelves.items() {
        push_json_if(alloc, &mut lines, key.suite == suite, item)?;
    }
    Ok(lines)
}

/// The object of an item with the codename of the suite that shows it. Keys: those of an item, and `suite`.
fn value_in(alloc: Global, codename: &str, item: &Item) -> Result<Value, AllocError>
    ensures { IfOk result (λ value. view value ≡ shown_data codename.now item.now) }
{
    let files = files_value(alloc, item.files.as_slice())?;
    let (package, version) = (item.package.as_str(), item.version.text());
    let (architecture, component) = (item.architecture.as_str(), item.component.as_str());
    let source = item.source.as_str();
    json!(in alloc; {
        "suite": codename,
        "package": package,
        "version": version,
        "architecture": architecture,
        "component": component,
        "source": source,
        "files": files
    })
}

/// The object of an item with the codename of the suite that shows it as text, on one line.
fn json_in(alloc: Global, codename: &str, item: &Item) -> Result<String, AllocError>
    ensures { IfOk result (λ line. string_bytes line ≡ compact_text (shown_data codename.now item.now)) }
{
    value_in(alloc, codename, item)?.to_string(alloc)
}

/// An object for each item that a suite shows, in the order of the shelves. Keys: those of the objects of one suite, and `suite`, the
/// codename of the suite that shows the item.
pub fn all_json(
    alloc: Global,
    config: &Config,
    shelves: &Shelves,
) -> Result<Vec<String>, AllocError>
    ensures { IfOk result (λ lines. map string_bytes lines.items ≡ map (json_in config.now) (entries shelves.now)) }
{
    let mut lines = Vec::new(alloc);
    for (key, item) in shelves.items() {
        lines.push(json_in(alloc, codename_at(config.suites(), key.suite), item)?)?;
    }
    Ok(lines)
}

/// The object of an upload without a verdict. Keys: `upload`, the name of its .changes, and `missing`, how many listed files it lacks.
fn waiting_value(alloc: Global, waiting: &Waiting) -> Result<Value, AllocError>
    ensures { IfOk result (λ value. view value ≡ waiting_data waiting.now) }
{
    let (name, missing) = (waiting.name.as_str(), waiting.lacks.as_slice().len() as u64);
    json!(in alloc; {"upload": name, "missing": missing})
}

/// The object of a judged upload. Keys: `upload`, the name of its .changes, and `verdict`, its number, which is 0 if it is accepted.
fn judgement_value(alloc: Global, judgement: &Judgement) -> Result<Value, AllocError>
    ensures { IfOk result (λ value. view value ≡ judgement_data judgement.now) }
{
    let (name, number) = (judgement.name.as_str(), judgement.verdict.number());
    json!(in alloc; {"upload": name, "verdict": number})
}

/// An object for each upload without a verdict: `upload`, the name of its .changes, and `missing`, how many listed files it lacks.
pub fn waiting_json(alloc: Global, uploads: &[Waiting]) -> Result<Vec<String>, AllocError>
    ensures { IfOk result (λ lines. map string_bytes lines.items ≡ map (λ upload. compact_text (waiting_data upload)) uploads.now) }
{
    let mut lines = Vec::new(alloc);
    for upload in uploads {
        lines.push(waiting_value(alloc, upload)?.to_string(alloc)?)?;
    }
    Ok(lines)
}

/// An object for each judged upload: `upload`, the name of its .changes, and `verdict`, its number, which is 0 if it is accepted.
pub fn verdict_json(alloc: Global, judged: &[Judgement]) -> Result<Vec<String>, AllocError>
    ensures { IfOk result (λ lines. map string_bytes lines.items ≡ map (λ judgement. compact_text (judgement_data judgement)) judged.now) }
{
    let mut lines = Vec::new(alloc);
    for judgement in judged {
        lines.push(judgement_value(alloc, judgement)?.to_string(alloc)?)?;
    }
    Ok(lines)
}
