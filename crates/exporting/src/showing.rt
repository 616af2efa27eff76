//! The steps of an export, and what comes after them.

ghost use Rattle.std.specs.Prelude.{◌≡◌};
ghost use Rattle.queue.specs.Steps.{Reads};

use crate::asked::{Job, Watcher};
use crate::fault::ExportFault;
use crate::making::make_state;
use crate::placing::place_file;
use book::Keeper;
use exported::Manifest;
use folders::Disk;
use queue::Archive;
use tree::Step;
use tree_files::{Standing, remove_left, show_state};

/// Makes the state of the suite at a position, and has the suite show it.
fn show_suite<R: Disk, K: Keeper>(
    rt: &R,
    archive: &mut Archive<K>,
    job: &Job<'_, R>,
    position: usize,
) -> Result<(), ExportFault>
    ensures reads { Reads K.Keeper archive.old.keeper archive.new.keeper }
{
    let Some(suite) = job.suites.get(position) else {
        return Ok(());
    };
    make_state(rt, archive, job, suite)?;
    Ok(show_state(rt, job.site, suite)?)
}

/// Takes a step.
fn take_step<R: Disk, K: Keeper>(
    rt: &R,
    archive: &mut Archive<K>,
    job: &Job<'_, R>,
    step: &Step,
    manifest: &mut Manifest,
) -> Result<(), ExportFault>
    ensures reads { Reads K.Keeper archive.old.keeper archive.new.keeper }
{
    match step {
        Step::Write(file) => place_file(rt, archive, job, file, manifest),
        Step::Show(position) => show_suite(rt, archive, job, *position),
        Step::Remove(path) => Ok(remove_left(rt, job.site, path.as_str(), manifest)?),
    }
}

/// Takes steps in their order, and reports each to the watcher.
#[tactic(auto, using(book::proofs::ReadLemmas::reads_none, book::proofs::ReadLemmas::reads_more))]
pub fn take_steps<R: Disk, K: Keeper, T: Watcher>(
    rt: &R,
    archive: &mut Archive<K>,
    job: &Job<'_, R>,
    steps: &[Step],
    manifest: &mut Manifest,
    watcher: &mut T,
) -> Result<(), ExportFault>
    ensures reads { Reads K.Keeper archive.old.keeper archive.new.keeper }
{
    watcher.is_to_make(steps.len() as u64);
    for step in steps {
        take_step(rt, archive, job, step, manifest)?;
        watcher.has_made();
    }
    watcher.has_ended();
    Ok(())
}

/// Makes the states that wait for a signature. If names by digest are asked for, it adds them to those states, and to the ones that are
/// shown already.
#[tactic(auto, using(book::proofs::ReadLemmas::reads_none, book::proofs::ReadLemmas::reads_more))]
pub fn make_unshown_states<R: Disk, K: Keeper>(
    rt: &R,
    archive: &mut Archive<K>,
    job: &Job<'_, R>,
) -> Result<(), ExportFault>
    ensures reads { Reads K.Keeper archive.old.keeper archive.new.keeper }
{
    for suite in job.suites {
        if suite.standing != Standing::Shows {
            make_state(rt, archive, job, suite)?;
        }
    }
    Ok(())
}
