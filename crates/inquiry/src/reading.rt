//! An upload as it is judged, read from what arrived.

ghost use Rattle.std.specs.Prelude.{◌≡◌, ◌≢◌, All, AllPairs, IfErr, IfOk, IfSome, OnOk, length, zip};
ghost use Rattle.std.specs.Option.{option_map};
ghost use Rattle.book.specs.Keeping.{MayAnswer, Reads};
ghost use Rattle.sums.specs.Prints.{print as print_of_bytes, same_print};
ghost use Rattle.suites.specs.Upload.{IsTextOf};
ghost use Rattle.inquiry.specs.Reading.{body_of, changes_of, kept_text, kept_texts, kept_upload};

use book::{KeepFault, Keeper};
use para::{Listed, Text};
use records::{Changes, RecordFault};
use std::alloc::Global;
use suites::{Upload, has_text};
use sums::{Entry, Print, print_of};

/// Whether bytes have a print.
fn is_printed(bytes: &[u8], print: &Print) -> bool
    ensures { result ≡ same_print (print_of_bytes bytes.now) print.now }
{
    print_of(bytes) == *print
}

/// The body of a print that arrived under a name. A body that is read with another print, as from a failing disk, is not taken.
fn body_of<K: Keeper>(
    alloc: Global,
    keeper: &mut K,
    name: &str,
    print: &Print,
) -> Result<Option<Vec<u8>>, KeepFault>
    ensures reads { Reads K.is_clean K.is_open K.faults K.book K.may_leave keeper.old keeper.new }
    ensures served { K.is_clean keeper.new → OnOk result (K.is_open keeper.new) }
    ensures printed { IfOk result (λ found. IfSome found (λ body. print_of_bytes body.items ≡ print.now)) }
    ensures body { K.is_clean keeper.new → IfOk result (λ found. option_map (λ body. body.items) found ≡ body_of (K.book keeper.old).arrivals name.now print.now) }
    ensures cause { IfErr result (MayAnswer K.may_fail) }
{
    let Some(body) = keeper.arrived_body(alloc, name, print)? else {
        return Ok(None);
    };
    if !is_printed(&body, print) {
        return Ok(None);
    }
    Ok(Some(body))
}

/// The text that an upload keeps of a listed file: the body of a .dsc or a sidecar, if it is there, and nothing of any other.
fn text_of<K: Keeper>(
    alloc: Global,
    keeper: &mut K,
    entry: &Entry,
) -> Result<Option<Listed<u8>>, KeepFault>
    ensures reads { Reads K.is_clean K.is_open K.faults K.book K.may_leave keeper.old keeper.new }
    ensures served { K.is_clean keeper.new → K.is_open keeper.old → OnOk result (K.is_open keeper.new) }
    ensures kept { IfOk result (λ found. IfSome found (λ text. IsTextOf (entry.now, text))) }
    ensures text { K.is_clean keeper.new → IfOk result (λ found. found ≡ kept_text (K.book keeper.old).arrivals entry.now) }
    ensures cause { IfErr result (MayAnswer K.may_fail) }
{
    if !has_text(entry.name.as_str()) {
        return Ok(Some(Listed::from_vec(Vec::new(alloc))));
    }
    let Some(body) = body_of(alloc, keeper, entry.name.as_str(), &entry.print)? else {
        return Ok(None);
    };
    Ok(Some(Listed::from_vec(body)))
}

/// The texts that an upload keeps of its listed files, if all are there.
fn texts_of<K: Keeper>(
    alloc: Global,
    keeper: &mut K,
    entries: &[Entry],
) -> Result<Option<Vec<Listed<u8>>>, KeepFault>
    ensures reads { Reads K.is_clean K.is_open K.faults K.book K.may_leave keeper.old keeper.new }
    ensures served { K.is_clean keeper.new → K.is_open keeper.old → OnOk result (K.is_open keeper.new) }
    ensures count { IfOk result (λ found. IfSome found (λ texts. length texts.items ≡ length entries.now)) }
    ensures kept { IfOk result (λ found. IfSome found (λ texts. All IsTextOf (zip entries.now texts.items))) }
    ensures texts { K.is_clean keeper.new → K.is_open keeper.new → IfOk result (λ found. option_map (λ texts. texts.items) found ≡ kept_texts (K.book keeper.old).arrivals entries.now) }
    ensures cause { IfErr result (MayAnswer K.may_fail) }
{
    let mut texts = Vec::new(alloc);
    for entry in entries {
        let Some(text) = text_of(alloc, keeper, entry)? else {
            return Ok(None);
        };
        texts.push(text)?;
    }
    Ok(Some(texts))
}

/// The .changes of a name and print, if it is there.
fn read_changes<K: Keeper>(
    alloc: Global,
    keeper: &mut K,
    name: &str,
    print: &Print,
) -> Result<Option<Changes>, KeepFault>
    ensures reads { Reads K.is_clean K.is_open K.faults K.book K.may_leave keeper.old keeper.new }
    ensures served { K.is_clean keeper.new → OnOk result (K.is_open keeper.new) }
    ensures apart { IfOk result (λ found. IfSome found (λ changes. AllPairs (λ a b. a.name ≢ b.name) changes.entries)) }
    ensures changes { K.is_clean keeper.new → IfOk result (λ found. found ≡ changes_of (K.book keeper.old).arrivals name.now print.now) }
    ensures cause { IfErr result (MayAnswer K.may_fail) }
{
    let Some(body) = body_of(alloc, keeper, name, print)? else {
        return Ok(None);
    };
    match Changes::read(alloc, &body) {
        Ok(changes) => Ok(Some(changes)),
        Err(RecordFault::OutOfMemory) => Err(KeepFault::OutOfMemory),
        Err(_) => Ok(None),
    }
}

/// An upload as it is judged, by the name and the print of its .changes, if this is there and each .dsc and sidecar that it lists. What
/// no longer counts is there too, until it is removed.
pub fn read_upload<K: Keeper>(
    alloc: Global,
    keeper: &mut K,
    name: &str,
    print: &Print,
) -> Result<Option<Upload>, KeepFault>
    ensures reads { Reads K.is_clean K.is_open K.faults K.book K.may_leave keeper.old keeper.new }
    ensures served { K.is_clean keeper.new → OnOk result (K.is_open keeper.new) }
    ensures upload { K.is_clean keeper.new → IfOk result (λ found. found ≡ kept_upload (K.book keeper.old).arrivals name.now print.now) }
    ensures cause { IfErr result (MayAnswer K.may_fail) }
{
    let Some(changes) = read_changes(alloc, keeper, name, print)? else {
        return Ok(None);
    };
    let Some(texts) = texts_of(alloc, keeper, changes.entries())? else {
        return Ok(None);
    };
    let name = Text::new(alloc, name)?;
    Ok(Some(Upload::new(name, *print, changes, texts)))
}
