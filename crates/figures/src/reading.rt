//! Figures of what a keeper keeps, and their texts.

ghost use Rattle.std.specs.Prelude.{◌≡◌, ◌≤◌, ◌++◌, ◌∷◌, [], All, IfErr, IfOk, OnOk};
ghost use Rattle.book.specs.Book.{latest};
ghost use Rattle.book.specs.Keeping.{Apart, MayAnswer, Reads};
ghost use Rattle.figures.specs.Families.{families, family, kept_families, lone, suites_families, uploads_families};
ghost use Rattle.figures.specs.Printing.{metrics_text, status_text};
ghost use Rattle.figures.specs.declared.family.Figure.TheVariants as figure;

use crate::family::{Family, Figure, lone_family};
use crate::judged::verdicts_family;
use crate::kept::push_kept;
use crate::printing::{metrics_text, status_text};
use crate::shown::{changed_family, items_family, until_family};
use crate::waiting::{oldest_family, waiting_family};
use book::{ArrivedFile, Judgement, KeepFault, Keeper, Waiting};
use rules::Suite;
use std::alloc::{AllocError, Global};
use suites::Shelves;

/// The moment, and what is said of uploads.
fn first_families(
    alloc: Global,
    moment: u64,
    waiting: &[Waiting],
    arrived: &[ArrivedFile],
    judged: &[Judgement],
) -> Result<Vec<Family>, AllocError>
    ensures { IfOk result (λ families. families.items ≡ family figure.Moment (lone moment) ∷ uploads_families waiting.now arrived.now judged.now) }
{
    let mut families = Vec::new(alloc);
    families.push(lone_family(alloc, Figure::Moment, moment)?)?;
    families.push(waiting_family(alloc, waiting)?)?;
    families.push(oldest_family(alloc, waiting, arrived)?)?;
    families.push(verdicts_family(alloc, judged)?)?;
    Ok(families)
}

/// Appends what is said of suites.
fn push_suites(
    alloc: Global,
    suites: &[Suite],
    dates: &[u64],
    shelves: &Shelves,
    families: &mut Vec<Family>,
) -> Result<(), AllocError>
    requires { ∥ All (λ date. date ≤ latest) dates.now ∥₁ }
    ensures { OnOk result (families.new.items ≡ families.old.items ++ suites_families suites.now dates.now shelves.now) }
{
    families.push(items_family(alloc, suites, shelves)?)?;
    families.push(changed_family(alloc, suites, dates)?)?;
    families.push(until_family(alloc, suites, dates)?)?;
    Ok(())
}

/// Appends what is said of suites, and of all that is kept.
fn push_rest<K: Keeper>(
    alloc: Global,
    keeper: &K,
    arrived: &[ArrivedFile],
    shelves: &Shelves,
    families: &mut Vec<Family>,
) -> Result<(), AllocError>
    ensures { OnOk result (families.new.items ≡ families.old.items
        ++ (suites_families (K.book keeper.now).config.suites (K.book keeper.now).dates shelves.now ++ kept_families arrived.now shelves.now)) }
{
    push_suites(
        alloc,
        keeper.config().suites(),
        keeper.dates(),
        shelves,
        families,
    )?;
    push_kept(alloc, arrived, shelves, families)
}

/// The figures at a moment.
fn families_of<K: Keeper>(
    alloc: Global,
    keeper: &mut K,
    moment: u64,
) -> Result<Vec<Family>, KeepFault>
    requires in_time { moment ≤ latest }
    ensures reads { Reads K.is_clean K.is_open K.faults K.book K.may_leave keeper.old keeper.new }
    ensures served { K.is_clean keeper.new → OnOk result (K.is_open keeper.new) }
    ensures families { K.is_clean keeper.new → IfOk result (λ all. Apart (K.book keeper.old) (all.items ≡ families moment (K.book keeper.old))) }
    ensures cause { IfErr result (MayAnswer K.may_fail) }
{
    let waiting = keeper.waiting(alloc, moment)?;
    let arrived = keeper.arrivals(alloc)?;
    let judged = keeper.verdicts(alloc)?;
    let mut families = first_families(alloc, moment, &waiting, &arrived, &judged)?;
    let shelves = keeper.shelves(alloc)?;
    let pushed = push_rest(alloc, keeper, &arrived, &shelves, &mut families);
    keeper.hold(shelves);
    pushed?;
    Ok(families)
}

/// The figures at a moment in seconds since 1970-01-01 00:00:00 UTC, in Prometheus' text format, version 0.0.4. Nothing that is kept
/// changes.
pub fn metrics<K: Keeper>(alloc: Global, keeper: &mut K, moment: u64) -> Result<Vec<u8>, KeepFault>
    requires in_time { moment ≤ latest }
    ensures reads { Reads K.is_clean K.is_open K.faults K.book K.may_leave keeper.old keeper.new }
    ensures served { K.is_clean keeper.new → OnOk result (K.is_open keeper.new) }
    ensures figures { K.is_clean keeper.new → IfOk result (λ text. Apart (K.book keeper.old) (text.items ≡ metrics_text (families moment (K.book keeper.old)))) }
    ensures cause { IfErr result (MayAnswer K.may_fail) }
{
    let families = families_of(alloc, keeper, moment)?;
    let text = metrics_text(alloc, &families)?;
    Ok(text.into_bytes())
}

/// The figures at a moment in seconds since 1970-01-01 00:00:00 UTC, as the lines of `archive status`. Nothing that is kept changes.
pub fn status<K: Keeper>(alloc: Global, keeper: &mut K, moment: u64) -> Result<Vec<u8>, KeepFault>
    requires in_time { moment ≤ latest }
    ensures reads { Reads K.is_clean K.is_open K.faults K.book K.may_leave keeper.old keeper.new }
    ensures served { K.is_clean keeper.new → OnOk result (K.is_open keeper.new) }
    ensures figures { K.is_clean keeper.new → IfOk result (λ text. Apart (K.book keeper.old) (text.items ≡ status_text (families moment (K.book keeper.old)))) }
    ensures cause { IfErr result (MayAnswer K.may_fail) }
{
    let families = families_of(alloc, keeper, moment)?;
    let text = status_text(alloc, &families)?;
    Ok(text.into_bytes())
}
