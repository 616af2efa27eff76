//! The folders of states, made of the archive's texts.

ghost use Rattle.std.specs.Prelude.{◌≡◌, IfOk};
ghost use Rattle.queue.specs.Steps.{Reads};
ghost use Rattle.indices.specs.Indices.{path_in};
ghost use Rattle.exporting.specs.Fetched.{IsFetched};

use crate::asked::Job;
use crate::fault::ExportFault;
use book::Keeper;
use exported::new_name;
use folders::{Disk, Folder, Kept};
use pages::suite_page;
use queue::Archive;
use std::alloc::Global;
use texts::path_in;
use tree_files::{PAGE, SuiteState, add_by_hash, move_state, touch_release, write_in};

/// The bytes at a path of the archive. An export asks for those that the archive has: any other path is refused as `Path`.
fn body_at<K: Keeper>(
    alloc: Global,
    archive: &mut Archive<K>,
    path: &str,
) -> Result<Vec<u8>, ExportFault>
    ensures reads { Reads K.Keeper archive.old.keeper archive.new.keeper }
    ensures body { IfOk result (λ body. IsFetched K.Keeper archive.old.keeper path.now body.items archive.new.keeper) }
{
    match archive.fetch(alloc, path)? {
        Some(body) => Ok(body),
        None => Err(ExportFault::Path(String::from_str(alloc, path)?)),
    }
}

/// The bytes of a text of a suite.
pub fn text_at<K: Keeper>(
    alloc: Global,
    archive: &mut Archive<K>,
    codename: &str,
    path: &str,
) -> Result<Vec<u8>, ExportFault>
    ensures reads { Reads K.Keeper archive.old.keeper archive.new.keeper }
    ensures body { IfOk result (λ body. IsFetched K.Keeper archive.old.keeper (path_in codename.now path.now) body.items archive.new.keeper) }
{
    let whole = path_in(alloc, codename, path)?;
    body_at(alloc, archive, whole.as_str())
}

/// Writes a text of a suite into a folder.
fn write_text<R: Disk, K: Keeper>(
    rt: &R,
    archive: &mut Archive<K>,
    kept: &Kept,
    codename: &str,
    folder: &Folder<R>,
    path: &str,
) -> Result<(), ExportFault>
    ensures reads { Reads K.Keeper archive.old.keeper archive.new.keeper }
{
    let body = text_at(rt.alloc(), archive, codename, path)?;
    Ok(write_in(rt, kept, folder, path, &body)?)
}

/// Writes all texts of a suite into a folder.
#[tactic(auto, using(book::proofs::ReadLemmas::reads_none, book::proofs::ReadLemmas::reads_more))]
fn write_texts<R: Disk, K: Keeper>(
    rt: &R,
    archive: &mut Archive<K>,
    kept: &Kept,
    suite: &SuiteState,
    folder: &Folder<R>,
) -> Result<(), ExportFault>
    ensures reads { Reads K.Keeper archive.old.keeper archive.new.keeper }
{
    for path in &suite.paths {
        write_text(
            rt,
            archive,
            kept,
            suite.codename.as_str(),
            folder,
            path.as_str(),
        )?;
    }
    Ok(())
}

/// Fills a new folder with the page of a suite and its texts.
fn fill<R: Disk, K: Keeper>(
    rt: &R,
    archive: &mut Archive<K>,
    job: &Job<'_, R>,
    suite: &SuiteState,
    folder: &Folder<R>,
) -> Result<(), ExportFault>
    ensures reads { Reads K.Keeper archive.old.keeper archive.new.keeper }
{
    let kept = &job.site.kept;
    let page = suite_page(
        rt.alloc(),
        archive.keeper.config(),
        job.shelves,
        suite.position,
    )?;
    write_in(rt, kept, folder, PAGE, page.as_bytes())?;
    write_texts(rt, archive, kept, suite, folder)
}

/// Makes a folder anew and fills it with the page of a suite and its texts.
fn make_filled<R: Disk, K: Keeper>(
    rt: &R,
    archive: &mut Archive<K>,
    job: &Job<'_, R>,
    suite: &SuiteState,
    name: &str,
) -> Result<(), ExportFault>
    ensures reads { Reads K.Keeper archive.old.keeper archive.new.keeper }
{
    job.site.dists.remove_all(rt, &job.site.kept, name)?;
    let folder = job.site.dists.make(rt, name)?;
    fill(rt, archive, job, suite, &folder)
}

/// Makes the folder of the state that a suite is to show, by one rename.
fn make_folder_of<R: Disk, K: Keeper>(
    rt: &R,
    archive: &mut Archive<K>,
    job: &Job<'_, R>,
    suite: &SuiteState,
) -> Result<(), ExportFault>
    ensures reads { Reads K.Keeper archive.old.keeper archive.new.keeper }
{
    let new = new_name(rt.alloc(), suite.codename.as_str())?;
    let filled = make_filled(rt, archive, job, suite, new.as_str());
    if filled.is_err() {
        // A folder that is cut short takes room on a full disk. If it stays, the next export removes it.
        let _ = job.site.dists.remove_all(rt, &job.site.kept, new.as_str());
    }
    filled?;
    Ok(move_state(rt, job.site, new.as_str(), suite.state.as_str())?)
}

/// Makes the state that a suite is to show, unless it is there, and adds its names by digest if that is asked.
pub fn make_state<R: Disk, K: Keeper>(
    rt: &R,
    archive: &mut Archive<K>,
    job: &Job<'_, R>,
    suite: &SuiteState,
) -> Result<(), ExportFault>
    ensures reads { Reads K.Keeper archive.old.keeper archive.new.keeper }
{
    if !suite.is_made {
        make_folder_of(rt, archive, job, suite)?;
        touch_release(rt, job.site, suite)?;
    }
    if job.by_hash {
        add_by_hash(rt, job.site, suite)?;
    }
    Ok(())
}
