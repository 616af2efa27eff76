//! The suites of an archive, with the states that they are to show.

ghost use Rattle.std.specs.Prelude.{◌≡◌, IfOk, string_bytes};
ghost use Rattle.queue.specs.Steps.{Reads};
ghost use Rattle.exporting.specs.Fetched.{IsStateOf};

use crate::fault::ExportFault;
use crate::making::text_at;
use book::Keeper;
use exported::{Manifest, state_name};
use folders::Disk;
use queue::Archive;
use rules::Config;
use std::alloc::Global;
use tree_files::{Site, SuiteState, find_all_shown, shows_signed, taken_component, unknown_suites};

/// The name of the state that a suite is to show.
fn wanted_state<K: Keeper>(
    alloc: Global,
    archive: &mut Archive<K>,
    codename: &str,
) -> Result<String, ExportFault>
    ensures reads { Reads K.Keeper archive.old.keeper archive.new.keeper }
    ensures named { IfOk result (λ name. IsStateOf K.Keeper archive.old.keeper codename.now (string_bytes name) archive.new.keeper) }
{
    let release = text_at(alloc, archive, codename, "Release")?;
    Ok(state_name(alloc, codename, &release)?)
}

/// Gives each suite the name of the state that it is to show.
#[tactic(auto, using(book::proofs::ReadLemmas::reads_none, book::proofs::ReadLemmas::reads_more))]
fn find_states<K: Keeper>(
    alloc: Global,
    archive: &mut Archive<K>,
    suites: &mut [SuiteState],
) -> Result<(), ExportFault>
    ensures reads { Reads K.Keeper archive.old.keeper archive.new.keeper }
{
    for suite in suites {
        suite.state = wanted_state(alloc, archive, suite.codename.as_str())?;
    }
    Ok(())
}

/// The suites of an archive in the order of its configuration, with what they show and are to show. A state waits for its InRelease if
/// `is_waiting`.
pub fn wanted_suites<R: Disk, K: Keeper>(
    rt: &R,
    archive: &mut Archive<K>,
    site: &Site<R>,
    is_waiting: bool,
    manifest: &Manifest,
) -> Result<Vec<SuiteState>, ExportFault>
    ensures reads { Reads K.Keeper archive.old.keeper archive.new.keeper }
{
    let mut suites = unknown_suites(rt.alloc(), archive.keeper.config())?;
    find_states(rt.alloc(), archive, suites.as_mut_slice())?;
    find_all_shown(rt, site, is_waiting, manifest, suites.as_mut_slice())?;
    Ok(suites)
}

/// Refuses suites as `Signed` of the first that shows a signed state.
pub fn refuse_signed<R: Disk>(
    rt: &R,
    site: &Site<R>,
    suites: &[SuiteState],
) -> Result<(), ExportFault> {
    for suite in suites {
        if shows_signed(rt, site, suite)? {
            let codename = String::from_str(rt.alloc(), suite.codename.as_str())?;
            return Err(ExportFault::Signed(codename));
        }
    }
    Ok(())
}

/// Refuses a configuration as `Named` of its first component that has the name of a file.
pub fn refuse_named(alloc: Global, config: &Config) -> Result<(), ExportFault> {
    match taken_component(config) {
        Some(component) => Err(ExportFault::Named(String::from_str(alloc, component)?)),
        None => Ok(()),
    }
}
