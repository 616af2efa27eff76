//! An export, from the lock to the last line.

ghost use Rattle.std.specs.Prelude.{◌≡◌, ◌≤◌};
ghost use Rattle.book.specs.Book.{latest};
ghost use Rattle.queue.specs.Steps.{Reads};

use crate::asked::{Export, Job, Watcher};
use crate::fault::ExportFault;
use crate::mending::mend_states;
use crate::showing::{make_unshown_states, take_steps};
use crate::states::{refuse_named, refuse_signed, wanted_suites};
use crate::web::{write_index, write_uploads};
use book::{Keeper, LATEST};
use exported::Manifest;
use folders::{Disk, Folder, FolderFault};
use queue::{Archive, Fault};
use std::alloc::Global;
use std::fs::File;
use std::io;
use suites::Shelves;
use tree::Step;
use tree_files::{
    Counts, Site, Standing, SuiteState, counts_of, has_lost_signature, kept_of, leave,
    leave_suites, look, manifest_of, opened_folders, remove_cut, remove_old_states, save, steps_of,
};

/// The most new files of the pool that one export syncs before an index names them. If there are more, none of them is synced, and the next
/// export reads them back.
const MOST_SYNCED: usize = 256;

/// The path of a tree's folder without the slashes at its end. An empty path is refused as `Path`.
fn root_of<'a>(alloc: Global, folder: &'a str) -> Result<&'a str, ExportFault> {
    if folder.is_empty() {
        return Err(ExportFault::Path(String::new(alloc)));
    }
    Ok(folder.trim_end_matches('/'))
}

/// Takes the lock of a tree, which is held while the file is open.
fn locked(rt: &HostRuntime, own: &Folder<HostRuntime>) -> Result<File, FolderFault> {
    match own.opened_to_write(rt, "lock")? {
        Some(file) if file.try_lock().is_ok() => Ok(file),
        _ => Err(own.place_fault(rt.alloc(), "lock")),
    }
}

/// What an export did.
#[derive(Drop)]
struct Done {
    /// The suites, with what they show.
    suites: Vec<SuiteState>,
    /// The suites that left the tree.
    gone: Vec<String>,
    counts: Counts,
}

/// Carries out a planned export: takes its steps, makes the states that no suite shows yet, and removes what is left over. Answers how many
/// paths are left.
fn carry_out<R: Disk, K: Keeper, T: Watcher>(
    rt: &R,
    archive: &mut Archive<K>,
    job: &Job<'_, R>,
    steps: &[Step],
    manifest: &mut Manifest,
    watcher: &mut T,
) -> Result<usize, ExportFault>
    ensures reads { Reads K.Keeper archive.old.keeper archive.new.keeper }
{
    take_steps(rt, archive, job, steps, manifest, watcher)?;
    make_unshown_states(rt, archive, job)?;
    let left = leave(rt.alloc(), job.shelves, job.suites, manifest)?;
    save(rt, job.site, manifest)?;
    remove_old_states(rt, job.site, job.suites)?;
    Ok(left)
}

/// Clears the tree of what an export that was stopped left, writes the manifest, and removes the suites that the configuration no longer
/// has. Answers their codenames.
fn prepare<R: Disk>(
    rt: &R,
    job: &Job<'_, R>,
    manifest: &mut Manifest,
) -> Result<Vec<String>, ExportFault> {
    remove_cut(rt, job.site, job.suites)?;
    save(rt, job.site, manifest)?;
    Ok(leave_suites(rt, job.site, job.suites, manifest)?)
}

/// The suites of the archive, with what they show. Their states are mended. Signed suites are refused, if neither `signed` nor `unsigned`
/// is asked for.
fn found_suites<R: Disk, K: Keeper>(
    rt: &R,
    archive: &mut Archive<K>,
    shelves: &Shelves,
    site: &Site<R>,
    asked: &Export<'_>,
    manifest: &Manifest,
) -> Result<Vec<SuiteState>, ExportFault>
    ensures reads { Reads K.Keeper archive.old.keeper archive.new.keeper }
{
    let mut suites = wanted_suites(rt, archive, site, asked.signed, manifest)?;
    if !asked.signed && !asked.unsigned {
        refuse_signed(rt, site, &suites)?;
    }
    mend_states(rt, archive, site, shelves, suites.as_mut_slice())?;
    Ok(suites)
}

/// Writes what the shelves show to the tree, but for its first pages: plans the steps, clears what a stopped export left, and carries them
/// out.
fn write_tree<R: Disk, K: Keeper, T: Watcher>(
    rt: &R,
    archive: &mut Archive<K>,
    shelves: &Shelves,
    site: &Site<R>,
    asked: &Export<'_>,
    watcher: &mut T,
) -> Result<Done, ExportFault>
    ensures reads { Reads K.Keeper archive.old.keeper archive.new.keeper }
{
    let mut manifest = manifest_of(rt, &site.own)?;
    let there = look(rt, &site.root, shelves, &mut manifest)?;
    let suites = found_suites(rt, archive, shelves, site, asked, &manifest)?;
    let steps = steps_of(rt.alloc(), shelves, &there, &suites, &manifest)?;
    let mut counts = counts_of(&steps, shelves);
    let job = Job {
        site,
        by_hash: asked.by_hash,
        shelves,
        suites: &suites,
        is_synced: counts.new <= MOST_SYNCED,
    };
    let gone = prepare(rt, &job, &mut manifest)?;
    counts.left = carry_out(rt, archive, &job, &steps, &mut manifest, watcher)?;
    Ok(Done {
        suites,
        gone,
        counts,
    })
}

/// What a call of the output gave, or `Unwritten` if it failed.
fn said(done: io::Result<()>) -> Result<(), ExportFault> {
    match done {
        Ok(()) => Ok(()),
        Err(_) => Err(ExportFault::Unwritten),
    }
}

/// Prints what a suite shows.
fn print_suite<W: io::Write>(suite: &SuiteState, is_unsigned: bool, out: &mut W) -> io::Result<()> {
    let (codename, state) = (suite.codename.as_str(), suite.state.as_str());
    match suite.standing {
        Standing::Same => writeln!(out, "same {codename}")?,
        Standing::Shows => writeln!(out, "shown {codename} {state}")?,
        Standing::Waits => writeln!(out, "waits {codename} {state}")?,
    }
    if is_unsigned {
        writeln!(out, "unsigned {codename}")?;
    }
    if suite.mended > 0 {
        let count = suite.mended;
        writeln!(out, "mended {codename} {count}")?;
    }
    Ok(())
}

/// Prints what suites show.
fn print_suites<R: Disk, W: io::Write>(
    rt: &R,
    site: &Site<R>,
    suites: &[SuiteState],
    out: &mut W,
) -> Result<(), ExportFault> {
    for suite in suites {
        let is_unsigned = has_lost_signature(rt, site, suite)?;
        said(print_suite(suite, is_unsigned, out))?;
    }
    Ok(())
}

/// Prints which suites left the tree.
fn print_gone<W: io::Write>(gone: &[String], out: &mut W) -> io::Result<()> {
    for codename in gone {
        writeln!(out, "gone {codename}")?;
    }
    Ok(())
}

/// Prints how many files of the pool there are.
fn print_counts<W: io::Write>(counts: Counts, out: &mut W) -> Result<(), ExportFault> {
    let Counts {
        new,
        same,
        left,
        gone,
    } = counts;
    said(writeln!(out, "pool {new} {same} {left} {gone}"))
}

/// Prints what an export did.
fn print_done<R: Disk, W: io::Write>(
    rt: &R,
    site: &Site<R>,
    done: &Done,
    out: &mut W,
) -> Result<(), ExportFault> {
    print_suites(rt, site, &done.suites, out)?;
    said(print_gone(&done.gone, out))?;
    print_counts(done.counts, out)
}

/// Writes what the shelves show to the tree, then its pages, and prints what the suites show.
fn write_and_print<R: Disk, K: Keeper, W: io::Write, T: Watcher>(
    rt: &R,
    archive: &mut Archive<K>,
    shelves: &Shelves,
    site: &Site<R>,
    asked: &Export<'_>,
    out: &mut W,
    watcher: &mut T,
) -> Result<(), ExportFault>
    requires in_time { asked.now.at ≤ latest }
    ensures reads { Reads K.Keeper archive.old.keeper archive.new.keeper }
{
    let done = write_tree(rt, archive, shelves, site, asked, watcher)?;
    write_index(rt, archive, site, shelves, asked)?;
    write_uploads(rt, archive, site, asked.at)?;
    print_done(rt, site, &done, out)
}

/// Exports into open folders. The keeper lends its shelves, and has them again after that.
fn export_into<R: Disk, K: Keeper, W: io::Write, T: Watcher>(
    rt: &R,
    archive: &mut Archive<K>,
    site: &Site<R>,
    asked: &Export<'_>,
    out: &mut W,
    watcher: &mut T,
) -> Result<(), ExportFault>
    requires in_time { asked.now.at ≤ latest }
    ensures reads { Reads K.Keeper archive.old.keeper archive.new.keeper }
{
    let shelves = archive.keeper.shelves(rt.alloc())?;
    let done = write_and_print(rt, archive, &shelves, site, asked, out, watcher);
    archive.keeper.hold(shelves);
    done
}

/// The folders of the tree of an export, open. Nothing is written yet but folders that were not there.
fn site_of<R: Disk>(
    rt: &R,
    root: Folder<R>,
    own: Folder<R>,
    asked: &Export<'_>,
) -> Result<Site<R>, ExportFault> {
    let dists = root.make(rt, "dists")?;
    let kept = kept_of(rt, asked.database)?;
    Ok(Site {
        root,
        own,
        dists,
        kept,
    })
}

/// Exports an archive into a folder, and prints what its suites show: `shown CODENAME STATE`, `same CODENAME` or `waits CODENAME STATE` for
/// each, in the order of the configuration. After a state without a signature, if the one before had one, comes `unsigned CODENAME`, and
/// `mended CODENAME COUNT` if COUNT files of the state, one or more, were mended. Then comes `gone CODENAME` for each suite of the tree
/// that the configuration no longer has. Last comes `pool NEW SAME LEFT GONE`: how many files of the pool were written, how many were
/// there, how many are left that no longer belong to it, and how many were removed. Its progress is reported to `watcher`.
///
/// The archive stays as it is. Refused as `Archive(Fault::Moment)` for a moment after 2099, as `Named` if no tree can have a component, as
/// `Signed` if a suite of the tree is signed and neither `signed` nor `unsigned` is asked for, as `Archive` if the keeper fails, as `Path`
/// if the disk fails or another export goes on in the folder, as `Unwritten` if the output fails, and for want of memory.
pub fn export<K: Keeper, W: io::Write, T: Watcher>(
    rt: &HostRuntime,
    archive: &mut Archive<K>,
    asked: &Export<'_>,
    out: &mut W,
    watcher: &mut T,
) -> Result<(), ExportFault>
    // The book stays as it was, and a crash leaves what it would have left before.
    ensures reads { Reads K.Keeper archive.old.keeper archive.new.keeper }
{
    if asked.at > LATEST {
        return Err(ExportFault::Archive(Fault::Moment));
    }
    refuse_named(rt.alloc(), archive.keeper.config())?;
    let root = root_of(rt.alloc(), asked.folder)?;
    let (root, own) = opened_folders(rt, root)?;
    let _lock = locked(rt, &own)?;
    let site = site_of(rt, root, own, asked)?;
    export_into(rt, archive, &site, asked, out, watcher)
}
