//! The pages of an export for people.

ghost use Rattle.std.specs.Prelude.{◌≡◌, ◌≤◌, IfOk, option_map, string_bytes};
ghost use Rattle.book.specs.Book.{latest, waiting_list};
ghost use Rattle.book.specs.Keeping.{Apart};
ghost use Rattle.pages.specs.IndexPage.{key_value};
ghost use Rattle.pages.specs.UploadsPage.{uploads_page};
ghost use Rattle.pages.specs.declared.site.Site.TheVariants.{Tree};
ghost use Rattle.queue.specs.Steps.{Reads};
ghost use Rattle.exporting.specs.Web.{IsIndex, IsKey};

use crate::asked::Export;
use crate::fault::ExportFault;
use book::Keeper;
use folders::Disk;
use pages::{Key, index_page, uploads_page};
use queue::Archive;
use std::alloc::Global;
use suites::Shelves;
use tree_files::{Site, write_page};

/// The key that the pages of a tree name, if its Releases are signed. No export writes its file, so it is here if somebody put it into the
/// tree.
fn key_of<'k, R: Disk>(
    rt: &R,
    site: &Site<R>,
    is_signed: bool,
    name: &'k str,
) -> Result<Option<Key<'k>>, ExportFault>
    ensures { IfOk result (λ key. IsKey is_signed name.now (option_map key_value key)) }
{
    if !is_signed {
        return Ok(None);
    }
    let is_here = site.root.is_file(rt, name)?;
    Ok(Some(Key { name, is_here }))
}

/// The page of the suites.
fn index_text<R: Disk, K: Keeper>(
    rt: &R,
    archive: &Archive<K>,
    site: &Site<R>,
    shelves: &Shelves,
    asked: &Export<'_>,
) -> Result<String, ExportFault>
    ensures page { IfOk result (λ page. IsIndex (K.book archive.now.keeper) shelves.now asked.now.signed asked.now.key.now (string_bytes page)) }
{
    let key = key_of(rt, site, asked.signed, asked.key)?;
    let config = archive.keeper.config();
    let dates = archive.keeper.dates();
    Ok(index_page(rt.alloc(), pages::Site::Tree, config, shelves, dates, &key)?)
}

/// Writes the page of the suites.
pub fn write_index<R: Disk, K: Keeper>(
    rt: &R,
    archive: &Archive<K>,
    site: &Site<R>,
    shelves: &Shelves,
    asked: &Export<'_>,
) -> Result<(), ExportFault> {
    let page = index_text(rt, archive, site, shelves, asked)?;
    Ok(write_page(rt, site, "index.html", page.as_str())?)
}

/// The page of the uploads: those that wait at a moment, in seconds since 1970-01-01 00:00:00 UTC, with what each lacks, and all verdicts.
fn uploads_text<K: Keeper>(
    alloc: Global,
    archive: &mut Archive<K>,
    at: u64,
) -> Result<String, ExportFault>
    requires in_time { at ≤ latest }
    ensures reads { Reads K.Keeper archive.old.keeper archive.new.keeper }
    ensures page { K.is_clean archive.new.keeper → IfOk result (λ page. Apart (K.book archive.old.keeper)
        (string_bytes page ≡ uploads_page Tree (K.book archive.old.keeper).config (waiting_list at (K.book archive.old.keeper)) (K.book archive.old.keeper).judged)) }
{
    let waiting = archive.keeper.waiting(alloc, at)?;
    let judged = archive.keeper.verdicts(alloc)?;
    let config = archive.keeper.config();
    Ok(uploads_page(alloc, pages::Site::Tree, config, &waiting, &judged)?)
}

/// Writes the page of the uploads: those that wait at a moment, in seconds since 1970-01-01 00:00:00 UTC, with what each lacks, and all
/// verdicts.
pub fn write_uploads<R: Disk, K: Keeper>(
    rt: &R,
    archive: &mut Archive<K>,
    site: &Site<R>,
    at: u64,
) -> Result<(), ExportFault>
    requires in_time { at ≤ latest }
    ensures reads { Reads K.Keeper archive.old.keeper archive.new.keeper }
{
    let page = uploads_text(rt.alloc(), archive, at)?;
    Ok(write_page(rt, site, "uploads.html", page.as_str())?)
}
