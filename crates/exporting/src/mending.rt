//! The texts of a state that is made, compared with the archive's.

ghost use Rattle.std.specs.Prelude.{◌≡◌};
ghost use Rattle.queue.specs.Steps.{Reads};

use crate::fault::ExportFault;
use crate::making::text_at;
use book::Keeper;
use folders::{Disk, Folder};
use pages::suite_page;
use queue::Archive;
use suites::Shelves;
use tree_files::{PAGE, Site, SuiteState, mend_file};

/// Mends a text of a state, if it is not as the archive has it. Answers how many it mended: 1 or 0.
fn mend_text<R: Disk, K: Keeper>(
    rt: &R,
    archive: &mut Archive<K>,
    site: &Site<R>,
    codename: &str,
    state: &Folder<R>,
    path: &str,
) -> Result<usize, ExportFault>
    ensures reads { Reads K.Keeper archive.old.keeper archive.new.keeper }
{
    let body = text_at(rt.alloc(), archive, codename, path)?;
    Ok(mend_file(rt, site, state, path, &body)?)
}

/// Mends the texts of a state that are not as the archive has them. Answers how many those are.
#[tactic(auto, using(book::proofs::ReadLemmas::reads_none, book::proofs::ReadLemmas::reads_more))]
fn mend_texts<R: Disk, K: Keeper>(
    rt: &R,
    archive: &mut Archive<K>,
    site: &Site<R>,
    suite: &SuiteState,
    state: &Folder<R>,
) -> Result<usize, ExportFault>
    ensures reads { Reads K.Keeper archive.old.keeper archive.new.keeper }
{
    let mut count = 0usize;
    for path in &suite.paths {
        let mended = mend_text(
            rt,
            archive,
            site,
            suite.codename.as_str(),
            state,
            path.as_str(),
        )?;
        count = count.saturating_add(mended);
    }
    Ok(count)
}

/// Writes the page of a state, if there is no file of its name. The contents of one that is there are not looked at. Answers how many pages
/// it wrote: 1 or 0.
fn mend_page<R: Disk, K: Keeper>(
    rt: &R,
    archive: &Archive<K>,
    site: &Site<R>,
    shelves: &Shelves,
    suite: &SuiteState,
    state: &Folder<R>,
) -> Result<usize, ExportFault> {
    if state.is_file(rt, PAGE)? {
        return Ok(0);
    }
    let page = suite_page(rt.alloc(), archive.keeper.config(), shelves, suite.position)?;
    Ok(mend_file(rt, site, state, PAGE, page.as_bytes())?)
}

/// Mends the page and the texts of a suite's state, if the state is made. Answers how many were mended.
fn mend_state<R: Disk, K: Keeper>(
    rt: &R,
    archive: &mut Archive<K>,
    site: &Site<R>,
    shelves: &Shelves,
    suite: &SuiteState,
) -> Result<usize, ExportFault>
    ensures reads { Reads K.Keeper archive.old.keeper archive.new.keeper }
{
    let state = if suite.is_made {
        site.dists.within(rt, suite.state.as_str())?
    } else {
        None
    };
    let Some(state) = state else {
        return Ok(0);
    };
    let pages = mend_page(rt, archive, site, shelves, suite, &state)?;
    let texts = mend_texts(rt, archive, site, suite, &state)?;
    Ok(texts.saturating_add(pages))
}

/// Mends each state that is made, and notes in each suite how many of its files were mended.
#[tactic(auto, using(book::proofs::ReadLemmas::reads_none, book::proofs::ReadLemmas::reads_more))]
pub fn mend_states<R: Disk, K: Keeper>(
    rt: &R,
    archive: &mut Archive<K>,
    site: &Site<R>,
    shelves: &Shelves,
    suites: &mut [SuiteState],
) -> Result<(), ExportFault>
    ensures reads { Reads K.Keeper archive.old.keeper archive.new.keeper }
{
    for suite in suites {
        suite.mended = mend_state(rt, archive, site, shelves, suite)?;
    }
    Ok(())
}
