//! Another configuration: what is handed to a keeper with it.
//!
//! Another configuration is no command of a history. One history ends there, and another opens with the book under the new configuration
//! (`reopened`). What a book does not have is then forgotten: items that a greater version had replaced, and the calls before. No answer
//! shows them.
//!
//! `Archive::configure` can answer K5. No call of a keeper does.

ghost use Rattle.std.specs.Prelude.{◌≡◌, ◌⊎◌, ◌≤◌, ◌<◌, All, IfOk, IfErr, IfSome, OnOk, Some, length, false, string_bytes, slice_get};
ghost use Rattle.std.specs.Option.{option_and_then};
ghost use Rattle.book.specs.Book.{latest};
ghost use Rattle.book.specs.Configured.{IsConfiguration, date_under, dates_under, keeps_shown, shown_under};
ghost use Rattle.book.specs.Keeping.{MayAnswer, Reads};
ghost use Rattle.book.specs.declared.fault.KeepFault.TheVariants.{Configuration};
ghost use Rattle.rules.specs.Suites.{suite_named};
ghost use Rattle.rules.specs.declared.suite.Suite.{Suite as SuiteValue};
ghost use Rattle.std.specs.FinMap.{values};
ghost use Rattle.suites.specs.Pool.{AreAgreed, files_of};
ghost use Rattle.indices.specs.Indices.{suite_path};
ghost use Rattle.indices.specs.Positions.{indices_at, release_at};

use book::{Configured, IndexText, KeepFault, Keeper, LATEST};
use rules::{Config, Suite, position_of_named};
use std::alloc::{AllocError, Global};
use suites::{Shelves, moved_shelves};
use texts::{path_in, release_of};

/// The date at a position.
fn date_at(dates: &[u64], position: usize) -> Option<u64>
    requires { ∥ All (λ date. date ≤ latest) dates.now ∥₁ }
    ensures date { result ≡ slice_get dates.now position }
    ensures in_range { IfSome result (λ date. date ≤ latest) }
{
    if position < dates.len() {
        Some(dates[position])
    } else {
        None
    }
}

/// The date that the suite with a codename has.
fn date_of(suites: &[Suite], dates: &[u64], codename: &str) -> Option<u64>
    requires { ∥ All (λ date. date ≤ latest) dates.now ∥₁ }
    ensures date { result ≡ option_and_then (λ n. slice_get dates.now n) (suite_named suites.now codename.now) }
    ensures in_range { IfSome result (λ date. date ≤ latest) }
{
    match position_of_named(suites, codename) {
        Some(place) => date_at(dates, place),
        None => None,
    }
}

/// The whole path of a text in the folder of a suite, without a leading slash.
fn path_of(alloc: Global, suite: &Suite, path: &str) -> Result<String, AllocError>
    ensures { IfOk result (λ whole. string_bytes whole ≡ suite_path suite.now path.now) }
{
    path_in(alloc, suite.codename.as_str(), path)
}

/// The date of the suite at a position of another configuration, under which the shelves show what the archive shows. It is the date that
/// the suite has, if its Release with that date is the one that is kept. Otherwise it is the moment.
#[tactic(auto, unfolding(book::specs::Configured::date_under, book::specs::Configured::date_of, indices::specs::Positions::release_at, indices::specs::Positions::indices_at))]
fn date_under<K: Keeper>(
    alloc: Global,
    keeper: &mut K,
    config: &Config,
    shelves: &Shelves,
    position: usize,
    moment: u64,
) -> Result<u64, KeepFault>
    requires suite { position < length config.now.suites }
    requires in_time { moment ≤ latest }
    ensures reads { Reads K.is_clean K.is_open K.faults K.book K.may_leave keeper.old keeper.new }
    ensures served { K.is_clean keeper.new → K.is_open keeper.old → OnOk result (K.is_open keeper.new) }
    ensures date { K.is_clean keeper.new → IfOk result (λ date. (s : SuiteValue) → slice_get config.now.suites position ≡ Some s
        → date ≡ date_under (K.book keeper.old) shelves.now moment (position, s)) }
    ensures in_range { IfOk result (λ date. date ≤ latest) }
    ensures cause { IfErr result (MayAnswer K.may_fail) }
{
    let suite = &config.suites()[position];
    let codename = suite.codename.as_str();
    let Some(date) = date_of(keeper.config().suites(), keeper.dates(), codename) else {
        return Ok(moment);
    };
    let path = path_of(alloc, suite, "Release")?;
    let text = release_of(alloc, config, shelves, position, date)?;
    if keeper.keeps_text(alloc, &IndexText::new(path, text))? {
        Ok(date)
    } else {
        Ok(moment)
    }
}

/// The dates of all suites of another configuration, as `date_under` gives them.
fn dates_under<K: Keeper>(
    alloc: Global,
    keeper: &mut K,
    config: &Config,
    shelves: &Shelves,
    moment: u64,
) -> Result<Vec<u64>, KeepFault>
    requires in_time { moment ≤ latest }
    ensures reads { Reads K.is_clean K.is_open K.faults K.book K.may_leave keeper.old keeper.new }
    ensures served { K.is_clean keeper.new → K.is_open keeper.old → OnOk result (K.is_open keeper.new) }
    ensures dates { K.is_clean keeper.new → K.is_open keeper.old → IfOk result (λ dates. dates.items ≡ dates_under config.now shelves.now moment (K.book keeper.old)) }
    ensures dated { IfOk result (λ dates. length dates.items ≡ length config.now.suites) }
    ensures in_range { IfOk result (λ dates. All (λ date. date ≤ latest) dates.items) }
    ensures cause { IfErr result (MayAnswer K.may_fail) }
{
    let mut dates = Vec::new(alloc);
    for position in 0..config.suites().len() {
        dates.push(date_under(alloc, keeper, config, shelves, position, moment)?)?;
    }
    Ok(dates)
}

/// What is handed to a keeper with another configuration, at a moment in seconds since 1970-01-01 00:00:00 UTC: what the suites show
/// under it, with each suite named by its codename, and their dates. It is refused with `KeepFault::Configuration` if something that is
/// shown would not be kept.
pub fn configured<K: Keeper>(
    alloc: Global,
    keeper: &mut K,
    config: Config,
    moment: u64,
) -> Result<Configured, KeepFault>
    requires in_time { moment ≤ latest }
    ensures reads { Reads K.is_clean K.is_open K.faults K.book K.may_leave keeper.old keeper.new }
    ensures served { K.is_clean keeper.new → OnOk result (K.is_open keeper.new) }
    ensures config { IfOk result (λ next. next.config ≡ config) }
    ensures sound { K.is_clean keeper.new → IfOk result (λ next. IsConfiguration (K.book keeper.old) config next.shelves) }
    // All that is shown agrees on the contents at each path.
    ensures agreed { K.is_clean keeper.new → IfOk result (λ _. AreAgreed (files_of (values (K.book keeper.old).shown))) }
    ensures dates { K.is_clean keeper.new → IfOk result (λ next. next.dates.items ≡ dates_under config next.shelves moment (K.book keeper.old)) }
    ensures differs { K.is_clean keeper.new → IfErr result (λ e. e ≡ Configuration → keeps_shown config (K.book keeper.old) ≡ false) }
    ensures cause { IfErr result (λ e. (e ≡ Configuration) ⊎ MayAnswer K.may_fail e) }
{
    let shelves = keeper.shelves(alloc)?;
    // For the prover alone: the shelves are sound.
    shelves.agree();
    let Some(moved) = moved_shelves(alloc, &shelves, keeper.config(), &config)? else {
        keeper.hold(shelves);
        return Err(KeepFault::Configuration);
    };
    let dates = dates_under(alloc, keeper, &config, &moved, moment)?;
    Ok(Configured {
        config,
        shelves: moved,
        dates,
    })
}
