//! Whether all rows are those of an archive.

ghost use Rattle.std.specs.Prelude.{◌≡◌, ◌≤◌, ◌↔◌, ℕ, List, All, None, length, IsTrue, IfOk, IfSome};
ghost use Rattle.suites.specs.Shelves.{ShelvesValue};
ghost use Rattle.indices.specs.Calendar.{latest};
ghost use Rattle.book.specs.declared.change.Judgement.{Judgement as JudgementValue};
ghost use Rattle.tables_read.specs.All.{AreConstrained, tables_with};
ghost use Rattle.tables_meaning.specs.Kept.{AreReadable, IsBook};
ghost use Rattle.tables_audit.specs.Parts.{ArrivalsFit, BodiesFit};
ghost use Rattle.tables_audit.specs.TextRows.{ArePrintsOf, texts_in};
ghost use Rattle.tables_audit.specs.Whole.{KeepsNone, RestFits, ShownFits};

use crate::arrivals::are_arrivals_deliverable;
use crate::as_recorded::are_told;
use crate::bodies::are_bodies_whole;
use crate::dates::dates_in;
use crate::files::are_files_of;
use crate::items::shelves_in;
use crate::meta::config_in;
use crate::signed::are_signed;
use crate::text_print::TextPrint;
use crate::text_rows::prints_of_all;
use crate::uploads::judgements_in;
use book::{Judgement, LATEST};
use rules::Config;
use std::alloc::{AllocError, Global};
use suites::Shelves;
use tables_read::AllRows;

/// What a keeper holds beside the tables: the configuration, the judged uploads in order, for each suite the moment at which
/// what it shows last changed, what the suites show, and the prints of the index texts that Release lists.
#[derive(Drop)]
pub struct Held {
    pub config: Config,
    pub judged: Vec<Judgement>,
    pub dates: Vec<u64>,
    pub shelves: Shelves,
    pub prints: Vec<TextPrint>,
    ghost in_range: { All (λ date. date ≤ latest) dates.items },
}

/// What the suites show and the prints of their texts, if the rows are the items, the files and the texts of an archive of
/// this configuration, with these dates.
fn shelves_shown(
    alloc: Global,
    all: &AllRows,
    config: &Config,
    dates: &[u64],
) -> Result<Option<(Shelves, Vec<TextPrint>)>, AllocError>
    requires dated { length dates.now ≡ length config.now.suites }
    requires in_range { All (λ date. date ≤ LATEST) dates.now }
    ensures some { AreConstrained (tables_with all.now) → IfOk result (λ o. IfSome o (λ found. ShownFits (tables_with all.now) config.now found.0 dates.now)) }
    ensures none { AreConstrained (tables_with all.now) → IfOk result (λ o. o ≡ None → AreReadable (tables_with all.now) → (shown : ShelvesValue) → ShownFits (tables_with all.now) config.now shown dates.now → ⊥) }
    ensures printed { IfOk result (λ o. IfSome o (λ found. ArePrintsOf (texts_in (tables_with all.now).texts) found.1.items)) }
{
    let Some(shelves) = shelves_in(alloc, all, config)? else {
        return Ok(None);
    };
    if !are_told(alloc, config, &shelves)? {
        return Ok(None);
    }
    if !are_files_of(alloc, all, &shelves)? {
        return Ok(None);
    }
    let Some(prints) = prints_of_all(alloc, all, config, &shelves, dates)? else {
        return Ok(None);
    };
    Ok(Some((shelves, prints)))
}

/// Whether the rows are those of whole bodies that arrived under names which may be delivered.
fn have_arrived(alloc: Global, all: &AllRows) -> Result<bool, AllocError>
    ensures { IfOk result (λ fit. IsTrue fit ↔ (BodiesFit (tables_with all.now) × ArrivalsFit (tables_with all.now))) }
{
    if !are_bodies_whole(alloc, all)? {
        return Ok(false);
    }
    are_arrivals_deliverable(alloc, all)
}

/// What a keeper holds of an archive of this configuration with these rows, if they are those of one.
fn held_of(alloc: Global, all: &AllRows, config: Config) -> Result<Option<Held>, AllocError>
    ensures some { AreConstrained (tables_with all.now) → BodiesFit (tables_with all.now) → IfOk result (λ o. IfSome o (λ held. (held.config ≡ config) × RestFits (tables_with all.now) config held.judged.items held.shelves held.dates.items)) }
    ensures none { AreConstrained (tables_with all.now) → BodiesFit (tables_with all.now) → IfOk result (λ o. o ≡ None → AreReadable (tables_with all.now) → (judged : List JudgementValue) (shown : ShelvesValue) (dates : List ℕ) → RestFits (tables_with all.now) config judged shown dates → ⊥) }
    ensures printed { IfOk result (λ o. IfSome o (λ held. ArePrintsOf (texts_in (tables_with all.now).texts) held.prints.items)) }
{
    // For the prover alone: the configuration is what its text spells, so rows have one list of dates.
    let _ = config.text();
    let Some(judged) = judgements_in(alloc, all)? else {
        return Ok(None);
    };
    if !are_signed(&judged) {
        return Ok(None);
    }
    let Some(dates) = dates_in(alloc, all, &config)? else {
        return Ok(None);
    };
    let Some((shelves, prints)) = shelves_shown(alloc, all, &config, &dates)? else {
        return Ok(None);
    };
    Ok(Some(Held {
        config,
        judged,
        dates,
        shelves,
        prints,
    }))
}

/// What a keeper holds of an archive with these rows, if they are those of one.
pub fn archive_in(alloc: Global, all: &AllRows) -> Result<Option<Held>, AllocError>
    ensures some { AreConstrained (tables_with all.now) → IfOk result (λ o. IfSome o (λ held. IsBook (tables_with all.now) held.config held.judged.items held.shelves held.dates.items)) }
    ensures none { AreConstrained (tables_with all.now) → IfOk result (λ o. o ≡ None → AreReadable (tables_with all.now) → KeepsNone (tables_with all.now)) }
    ensures printed { IfOk result (λ o. IfSome o (λ held. ArePrintsOf (texts_in (tables_with all.now).texts) held.prints.items)) }
{
    let Some(config) = config_in(alloc, all)? else {
        return Ok(None);
    };
    if !have_arrived(alloc, all)? {
        return Ok(None);
    }
    held_of(alloc, all, config)
}
