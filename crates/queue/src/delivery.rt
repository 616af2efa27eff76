//! Which deliveries are refused, whatever the archive holds.

ghost use Rattle.std.specs.Prelude.{◌≡◌, ◌⊎◌, ◌≤◌, Some, None, MatchResult, OnOk};
ghost use Rattle.history.specs.Deliveries.{delivery_fault, most_named as most_under, record_fault};

use book::LATEST;
use history::Fault;
use records::Changes;
use rules::Config;
use std::alloc::Global;
use suites::has_text;
use sums::{MOST_SIZE, is_changes_name, is_file_name};

/// The most bytes of a body that an archive of this configuration takes under a name: 4,194,304 of a .changes, a .dsc and a .control,
/// and of any other file as many as the configuration allows.
#[tactic(auto, unfolding(history::specs::Deliveries::most_named))]
pub fn most_named(config: &Config, name: &str) -> u64
    ensures { result ≡ most_under config.now name.now }
{
    if has_text(name) {
        return MOST_SIZE;
    }
    if is_changes_name(name) {
        return MOST_SIZE;
    }
    config.largest_file()
}

/// Refuses the body of a .changes that can not be read as one that lists no file above the limit of the configuration.
#[tactic(auto, unfolding(history::specs::Deliveries::record_fault))]
fn check_record(alloc: Global, config: &Config, name: &str, body: &[u8]) -> Result<(), Fault>
    ensures { MatchResult result (λ _. record_fault config.now name.now body.now ≡ None)
        (λ e. (e ≡ Fault.OutOfMemory) ⊎ (record_fault config.now name.now body.now ≡ Some e)) }
{
    if is_changes_name(name) {
        Changes::read_within(alloc, body, config.largest_file())?;
    }
    Ok(())
}

/// Refuses a delivery by the configuration, its name, its body and its moment alone, for the lowest fault that applies.
#[tactic(auto, unfolding(history::specs::Deliveries::delivery_fault))]
pub fn check_delivery(
    alloc: Global,
    config: &Config,
    name: &str,
    body: &[u8],
    moment: u64,
) -> Result<(), Fault>
    ensures judged { MatchResult result (λ _. delivery_fault config.now name.now body.now moment ≡ None)
        (λ e. (e ≡ Fault.OutOfMemory) ⊎ (delivery_fault config.now name.now body.now moment ≡ Some e)) }
    ensures in_time { OnOk result (moment ≤ LATEST) }
{
    if !is_file_name(name) {
        return Err(Fault::BadName);
    }
    if body.len() as u64 > most_named(config, name) {
        return Err(Fault::TooLarge);
    }
    check_record(alloc, config, name, body)?;
    if moment > LATEST {
        return Err(Fault::Moment);
    }
    Ok(())
}
