//! The index texts that a change makes different.
//!
//! A run, a copy, a promotion and a removal render the indices that their plans change. For the other indices of these suites they ask
//! only for the prints, which Release lists.

ghost use Rattle.std.specs.Prelude.{◌≡◌, ◌≤◌, ◌<◌, ◌++◌, Bool, List, ℕ, IfOk, IfErr, OnOk, is_some, length, map, slice_get, Some, [], option_map, unwrap_or, string_bytes, if◌then◌else◌};
ghost use Rattle.std.specs.List.{flat_map, list_any};
ghost use Rattle.book.specs.Book.{amended, latest, shown_past, text_at};
ghost use Rattle.book.specs.Keeping.{AreRenewed, AreSteps, MayAnswer, Reads};
ghost use Rattle.book.specs.declared.change.Change.{Change};
ghost use Rattle.rules.specs.declared.suite.Suite.{Suite as SuiteValue};
ghost use Rattle.sums.specs.Prints.{print};
ghost use Rattle.indices.specs.Positions.{release_at};
ghost use Rattle.indices.specs.Release.{index_of};
ghost use Rattle.renewing.specs.Renewal.{changes_index, folder_of, index_after, index_with, is_listed, path_in, print_kept, renewed_at, renewed_folder, renewed_from, renewed_index, renewed_suite, some_changes_index, text_after};
ghost use Rattle.indices.specs.Places.{place_at, place_path, place_text, places_in};

use crate::last::LastTexts;
use crate::printed::print_next;
use crate::stanzas::listed_text_of;
use book::{IndexText, KeepFault, Keeper, Step, some_changes_suite};
use indices::{lists_package, lists_source};
use para::{Listed, Text};
use rules::Suite;
use std::alloc::{AllocError, Global};
use suites::{Item, Plan, ShelfKey, Shelves};
use sums::{Print, print_of};
use texts::{Index, IndexPlace, index_path, path_in, places_of, release};

/// A suite as its paths name it: its position in the configuration, its codename, and the places of its indices.
#[derive(Drop)]
pub struct Folder {
    pub suite: usize,
    pub codename: Text,
    pub places: Listed<IndexPlace>,
}

/// The folder of the suite at a position.
fn folder_of(alloc: Global, position: usize, suite: &Suite) -> Result<Folder, AllocError>
    ensures { IfOk result (λ folder. folder ≡ folder_of position suite.now) }
{
    Ok(Folder {
        suite: position,
        codename: suite.codename.try_clone()?,
        places: places_of(
            alloc,
            suite.components.as_slice(),
            suite.architectures.as_slice(),
        )?,
    })
}

/// The path of a text of the suite, without a leading slash.
fn path_of(alloc: Global, folder: &Folder, path: &str) -> Result<String, AllocError>
    ensures { IfOk result (λ whole. string_bytes whole ≡ path_in folder.now path.now) }
{
    path_in(alloc, folder.codename.as_str(), path)
}

/// Whether the index of a suite's place lists the item, which stands on the shelf.
#[tactic(auto, unfolding(crate::specs::Renewal::is_listed))]
fn is_listed(key: &ShelfKey, item: &Item, suite: usize, place: &IndexPlace) -> bool
    ensures { result ≡ is_listed suite place.now (key.now, item.now) }
{
    let component = place.component.as_str();
    let architecture = place.architecture.as_str();
    if architecture == "source" {
        lists_source(key, item, suite, component)
    } else {
        lists_package(key, item, suite, component, architecture)
    }
}

/// Whether the index of a suite's place lists one of the items.
fn lists_some(entries: &[(ShelfKey, Item)], suite: usize, place: &IndexPlace) -> bool
    ensures { result ≡ list_any (is_listed suite place.now) entries.now }
{
    for entry in entries {
        if is_listed(&entry.0, &entry.1, suite, place) {
            return true;
        }
    }
    false
}

/// Whether a plan puts or drops an item that the index lists.
#[tactic(auto, unfolding(crate::specs::Renewal::changes_index))]
fn changes_index(plan: &Plan, suite: usize, place: &IndexPlace) -> bool
    ensures { result ≡ changes_index suite place.now plan.now }
{
    let puts = lists_some(plan.put.as_slice(), suite, place);
    let drops = lists_some(plan.dropped.as_slice(), suite, place);
    puts || drops
}

/// Whether a step puts or drops an item that the index lists.
fn some_changes_index(steps: &[Step], suite: usize, place: &IndexPlace) -> bool
    ensures { result ≡ some_changes_index suite place.now steps.now }
{
    for step in steps {
        if changes_index(&step.plan, suite, place) {
            return true;
        }
    }
    false
}

/// The print of a text that is kept. If no text is kept it is the print of no bytes.
fn print_or_none(kept: Option<Print>) -> Print
    ensures { result ≡ unwrap_or kept (print []) }
{
    match kept {
        Some(print) => print,
        None => print_of(&[]),
    }
}

/// Appends the text at its path if another is kept there.
#[tactic(auto, unfolding(crate::specs::Renewal::renewed_at))]
fn push_renewed<K: Keeper>(
    alloc: Global,
    keeper: &mut K,
    text: IndexText,
    texts: &mut Vec<IndexText>,
) -> Result<(), KeepFault>
    ensures reads { Reads K.is_clean K.is_open K.faults K.book K.may_leave keeper.old keeper.new }
    ensures served { K.is_clean keeper.new → OnOk result (K.is_open keeper.new) }
    ensures texts { K.is_clean keeper.new → OnOk result (texts.new.items ≡ texts.old.items ++ renewed_at (text_at (K.book keeper.old) text.path) text.path text.text) }
    ensures cause { IfErr result (MayAnswer K.may_fail) }
{
    if !keeper.keeps_text(alloc, &text)? {
        texts.push(text)?;
    }
    Ok(())
}

/// The index at a path of a suite, if its text stays the one that is kept at this whole path.
fn index_kept<K: Keeper>(
    alloc: Global,
    keeper: &mut K,
    path: String,
    whole: String,
) -> Result<Index, KeepFault>
    ensures reads { Reads K.is_clean K.is_open K.faults K.book K.may_leave keeper.old keeper.new }
    ensures served { K.is_clean keeper.new → OnOk result (K.is_open keeper.new) }
    ensures index { K.is_clean keeper.new → IfOk result (λ index. index ≡ index_with (string_bytes path) (print_kept (text_at (K.book keeper.old) (string_bytes whole)))) }
    ensures cause { IfErr result (MayAnswer K.may_fail) }
{
    let kept = keeper.text_print(alloc, whole.as_str())?;
    Ok(Index {
        path: Text::from_string(path),
        print: print_or_none(kept),
    })
}

/// What index texts are renewed for: steps, the shelves that the steps leave, and the moment of the steps, in seconds since 1970-01-01
/// 00:00:00 UTC.
#[derive(Clone, Copy)]
struct Amendment<'a> {
    shelves: &'a Shelves,
    steps: &'a [Step],
    moment: u64,
}

/// The index of a suite's place after an amendment. If no step changes the index, it is the kept one. Its text is appended if it differs
/// from the kept one.
#[tactic(auto, unfolding(crate::specs::Renewal::text_after, crate::specs::Renewal::renewed_index))]
fn renew_index<K: Keeper>(
    alloc: Global,
    keeper: &mut K,
    last: &mut LastTexts,
    amendment: &Amendment<'_>,
    folder: &Folder,
    place: &IndexPlace,
    texts: &mut Vec<IndexText>,
) -> Result<Index, KeepFault>
    ensures reads { Reads K.is_clean K.is_open K.faults K.book K.may_leave keeper.old keeper.new }
    ensures served { K.is_clean keeper.new → OnOk result (K.is_open keeper.new) }
    ensures index { K.is_clean keeper.new → IfOk result (λ index. index ≡ index_after (text_at (K.book keeper.old)) amendment.now.shelves.now amendment.now.steps.now folder.now place.now) }
    ensures texts { K.is_clean keeper.new → OnOk result (texts.new.items ≡ texts.old.items ++ renewed_index (text_at (K.book keeper.old)) amendment.now.shelves.now amendment.now.steps.now folder.now place.now) }
    ensures cause { IfErr result (MayAnswer K.may_fail) }
{
    let component = place.component.as_str();
    let architecture = place.architecture.as_str();
    let path = index_path(alloc, component, architecture)?;
    let whole = path_of(alloc, folder, path.as_str())?;
    if !some_changes_index(amendment.steps, folder.suite, place) {
        return index_kept(alloc, keeper, path, whole);
    }
    let text = listed_text_of(
        alloc,
        &mut last.stanzas,
        amendment.shelves,
        folder.suite,
        component,
        architecture,
    )?;
    let print = print_next(alloc, &mut last.printed, whole.as_str(), &text)?;
    let text = IndexText::with_print(whole, text, print);
    push_renewed(alloc, keeper, text, texts)?;
    Ok(Index {
        path: Text::from_string(path),
        print,
    })
}

/// The indices of a suite after an amendment. The texts that differ from the kept ones are appended.
fn renew_indices<K: Keeper>(
    alloc: Global,
    keeper: &mut K,
    last: &mut LastTexts,
    amendment: &Amendment<'_>,
    folder: &Folder,
    texts: &mut Vec<IndexText>,
) -> Result<Vec<Index>, KeepFault>
    ensures reads { Reads K.is_clean K.is_open K.faults K.book K.may_leave keeper.old keeper.new }
    ensures served { K.is_clean keeper.new → K.is_open keeper.old → OnOk result (K.is_open keeper.new) }
    ensures indices { K.is_clean keeper.new → IfOk result (λ indices. indices.items ≡ map (index_after (text_at (K.book keeper.old)) amendment.now.shelves.now amendment.now.steps.now folder.now) folder.now.places) }
    ensures texts { K.is_clean keeper.new → OnOk result (texts.new.items ≡ texts.old.items ++ flat_map (renewed_index (text_at (K.book keeper.old)) amendment.now.shelves.now amendment.now.steps.now folder.now) folder.now.places) }
    ensures cause { IfErr result (MayAnswer K.may_fail) }
{
    let mut indices = Vec::new(alloc);
    for place in folder.places.as_slice() {
        let index = renew_index(alloc, keeper, last, amendment, folder, place, texts)?;
        indices.push(index)?;
    }
    Ok(indices)
}

/// Whether a text is kept at a whole path. It asks for the print, so that the text is not read.
fn has_text<K: Keeper>(alloc: Global, keeper: &mut K, path: &str) -> Result<bool, KeepFault>
    ensures reads { Reads K.is_clean K.is_open K.faults K.book K.may_leave keeper.old keeper.new }
    ensures served { K.is_clean keeper.new → OnOk result (K.is_open keeper.new) }
    ensures there { K.is_clean keeper.new → IfOk result (λ there. there ≡ is_some (text_at (K.book keeper.old) path.now)) }
    ensures cause { IfErr result (MayAnswer K.may_fail) }
{
    let found = keeper.text_print(alloc, path)?;
    Ok(found.is_some())
}

/// Appends the texts of a suite that an amendment makes different from the kept ones: those of its indices, and Release, whose date is
/// the moment of the amendment. For a suite without a Release it appends nothing.
#[tactic(auto, unfolding(crate::specs::Renewal::renewed_folder))]
fn renew_folder<K: Keeper>(
    alloc: Global,
    keeper: &mut K,
    last: &mut LastTexts,
    amendment: &Amendment<'_>,
    folder: &Folder,
    texts: &mut Vec<IndexText>,
) -> Result<(), KeepFault>
    requires moment { amendment.now.moment ≤ latest }
    requires suite { folder.now.suite < length (K.book keeper.now).config.suites }
    ensures reads { Reads K.is_clean K.is_open K.faults K.book K.may_leave keeper.old keeper.new }
    ensures served { K.is_clean keeper.new → OnOk result (K.is_open keeper.new) }
    ensures texts { K.is_clean keeper.new → OnOk result (texts.new.items ≡ texts.old.items ++ renewed_folder (text_at (K.book keeper.old)) amendment.now.shelves.now amendment.now.steps.now folder.now (release_at (K.book keeper.old).config folder.now.suite amendment.now.moment)) }
    ensures cause { IfErr result (MayAnswer K.may_fail) }
{
    let path = path_of(alloc, folder, "Release")?;
    if !has_text(alloc, keeper, path.as_str())? {
        return Ok(());
    }
    let indices = renew_indices(alloc, keeper, last, amendment, folder, texts)?;
    let mut text = Vec::new(alloc);
    release(
        alloc,
        keeper.config(),
        folder.suite,
        amendment.moment,
        &indices,
        &mut text,
    )?;
    push_renewed(alloc, keeper, IndexText::new(path, text), texts)
}

/// Appends the texts of the suite at a position that an amendment makes different from the kept ones, as `renew_folder` does.
fn renew_suite<K: Keeper>(
    alloc: Global,
    keeper: &mut K,
    last: &mut LastTexts,
    amendment: &Amendment<'_>,
    suite: usize,
    texts: &mut Vec<IndexText>,
) -> Result<(), KeepFault>
    requires moment { amendment.now.moment ≤ latest }
    requires suite { suite < length (K.book keeper.now).config.suites }
    ensures reads { Reads K.is_clean K.is_open K.faults K.book K.may_leave keeper.old keeper.new }
    ensures served { K.is_clean keeper.new → OnOk result (K.is_open keeper.new) }
    ensures texts { K.is_clean keeper.new → OnOk result ((s : SuiteValue) → slice_get (K.book keeper.old).config.suites suite ≡ Some s
        → texts.new.items ≡ texts.old.items ++ renewed_suite (text_at (K.book keeper.old)) amendment.now.shelves.now amendment.now.steps.now amendment.now.moment suite s) }
    ensures cause { IfErr result (MayAnswer K.may_fail) }
{
    let folder = folder_of(alloc, suite, &keeper.config().suites()[suite])?;
    renew_folder(alloc, keeper, last, amendment, &folder, texts)
}

/// The texts of the suites that a step of an amendment touches, if they differ from the kept ones.
fn renewed_suites<K: Keeper>(
    alloc: Global,
    keeper: &mut K,
    last: &mut LastTexts,
    amendment: &Amendment<'_>,
) -> Result<Vec<IndexText>, KeepFault>
    requires { amendment.now.moment ≤ latest }
    ensures reads { Reads K.is_clean K.is_open K.faults K.book K.may_leave keeper.old keeper.new }
    ensures served { K.is_clean keeper.new → K.is_open keeper.old → OnOk result (K.is_open keeper.new) }
    ensures texts { K.is_clean keeper.new → IfOk result (λ texts. texts.items ≡ renewed_from (text_at (K.book keeper.old)) amendment.now.shelves.now amendment.now.steps.now amendment.now.moment 0 (K.book keeper.old).config.suites) }
    ensures cause { IfErr result (MayAnswer K.may_fail) }
{
    let mut texts = Vec::new(alloc);
    for suite in 0..keeper.config().suites().len() {
        if some_changes_suite(amendment.steps, suite) {
            renew_suite(alloc, keeper, last, amendment, suite, &mut texts)?;
        }
    }
    Ok(texts)
}

/// The index texts that steps make different from the kept ones, for steps that leave these shelves and are made at the moment, in
/// seconds since 1970-01-01 00:00:00 UTC. In a suite that a step touches, the indices are rendered whose items a plan puts or drops, the
/// keeper gives the prints of the others, and Release gets the moment as its date. Nothing is read of other suites. What is kept of the texts
/// that were made last spares time: the stanza of an item that did not change is copied, and the print of an index goes on from what was
/// printed before it at its path.
pub fn renewed_texts<K: Keeper>(
    alloc: Global,
    keeper: &mut K,
    last: &mut LastTexts,
    shelves: &Shelves,
    steps: &[Step],
    moment: u64,
) -> Result<Vec<IndexText>, KeepFault>
    requires { moment ≤ latest }
    ensures reads { Reads K.is_clean K.is_open K.faults K.book K.may_leave keeper.old keeper.new }
    ensures served { K.is_clean keeper.new → K.is_open keeper.old → OnOk result (K.is_open keeper.new) }
    ensures renewed { K.is_clean keeper.new → IfOk result (λ texts. (change : Change) → change.moment ≡ moment → change.steps ≡ steps.now
        → AreSteps (K.book keeper.old).shown steps.now → shelves.now ≡ shown_past (K.book keeper.old).shown steps.now
        → AreRenewed (K.book keeper.old) (amended (K.book keeper.old) change) texts.items) }
    ensures cause { IfErr result (MayAnswer K.may_fail) }
{
    // No two indices of a configuration that was read are at one path.
    let _ = keeper.config().text();
    let amendment = Amendment {
        shelves,
        steps,
        moment,
    };
    renewed_suites(alloc, keeper, last, &amendment)
}
