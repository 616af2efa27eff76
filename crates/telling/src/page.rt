//! Pages for people.

ghost use Rattle.std.specs.Prelude.{◌≡◌, ◌≤◌, IfErr, IfOk, OnOk, string_bytes};
ghost use Rattle.std.specs.Option.{option_map};
ghost use Rattle.book.specs.Book.{latest, waiting_list};
ghost use Rattle.book.specs.Keeping.{Apart, Reads};
ghost use Rattle.pages.specs.IndexPage.{index_page as index_text, key_value};
ghost use Rattle.pages.specs.UploadsPage.{uploads_page as uploads_text};
ghost use Rattle.pages.specs.declared.site.Site.TheVariants.{Served};
ghost use Rattle.rules.specs.Suites.{suite_named};
ghost use Rattle.telling.specs.Told.{IsOf, MayRefuse, bytes_of, key_named, page_of, paging_of, suite_shown};

use crate::fault::TellFault;
use crate::question::Page;
use book::Keeper;
use pages::{Key, Site, index_page, suite_page, uploads_page};
use std::alloc::{AllocError, Global};
use suites::Shelves;

/// The key that a page names: its file lies in no tree.
fn key_of(name: &Option<String>) -> Option<Key<'_>>
    ensures { option_map key_value result ≡ option_map key_named (option_map string_bytes name.now) }
{
    match name {
        Some(name) => Some(Key {
            name: name.as_str(),
            is_here: false,
        }),
        None => None,
    }
}

/// The page of the suites, which show this.
fn suites_text<K: Keeper>(
    alloc: Global,
    keeper: &K,
    shelves: &Shelves,
    key: &Option<String>,
) -> Result<Vec<u8>, AllocError>
    ensures { IfOk result (λ text. text.items
        ≡ index_text Served (K.book keeper.now).config shelves.now (K.book keeper.now).dates (option_map key_named (option_map string_bytes key.now))) }
{
    let (config, dates) = (keeper.config(), keeper.dates());
    let page = index_page(alloc, Site::Served, config, shelves, dates, &key_of(key))?;
    Ok(page.into_bytes())
}

/// The page of the suites.
fn tell_suites<K: Keeper>(
    alloc: Global,
    keeper: &mut K,
    key: &Option<String>,
) -> Result<Vec<u8>, TellFault>
    ensures reads { Reads K.is_clean K.is_open K.faults K.book K.may_leave keeper.old keeper.new }
    ensures told { K.is_clean keeper.new → IfOk result (λ text. text.items
        ≡ index_text Served (K.book keeper.old).config (K.book keeper.old).shown (K.book keeper.old).dates (option_map key_named (option_map string_bytes key.now))) }
    ensures cause { IfErr result (MayRefuse K.may_fail) }
{
    let shelves = keeper.shelves(alloc)?;
    let page = suites_text(alloc, keeper, &shelves, key)?;
    keeper.hold(shelves);
    Ok(page)
}

/// The page of the uploads: those that wait by what counts at a moment, and those that were judged.
fn tell_uploads<K: Keeper>(alloc: Global, keeper: &mut K, at: u64) -> Result<Vec<u8>, TellFault>
    requires in_time { at ≤ latest }
    ensures reads { Reads K.is_clean K.is_open K.faults K.book K.may_leave keeper.old keeper.new }
    ensures told { K.is_clean keeper.new → IfOk result (λ text. Apart (K.book keeper.old)
        (text.items ≡ uploads_text Served (K.book keeper.old).config (waiting_list at (K.book keeper.old)) (K.book keeper.old).judged)) }
    ensures cause { IfErr result (MayRefuse K.may_fail) }
{
    let waiting = keeper.waiting(alloc, at)?;
    let judged = keeper.verdicts(alloc)?;
    let page = uploads_page(alloc, Site::Served, keeper.config(), &waiting, &judged)?;
    Ok(page.into_bytes())
}

/// The page of what a suite shows, by its codename, if there is such a suite.
fn tell_suite<K: Keeper>(
    alloc: Global,
    keeper: &mut K,
    codename: &str,
) -> Result<Option<Vec<u8>>, TellFault>
    ensures reads { Reads K.is_clean K.is_open K.faults K.book K.may_leave keeper.old keeper.new }
    ensures told { K.is_clean keeper.new → IfOk result (λ text. option_map (λ it. it.items) text
        ≡ suite_shown (suite_named (K.book keeper.old).config.suites codename.now) (K.book keeper.old).config (K.book keeper.old).shown) }
    ensures cause { IfErr result (MayRefuse K.may_fail) }
{
    let Some(position) = keeper.config().suite_named(codename) else {
        return Ok(None);
    };
    let shelves = keeper.shelves(alloc)?;
    let page = suite_page(alloc, keeper.config(), &shelves, position)?;
    keeper.hold(shelves);
    Ok(Some(page.into_bytes()))
}

/// A page, at a moment. If the Releases are signed, it names the file of the key.
pub fn tell_page<K: Keeper>(
    alloc: Global,
    keeper: &mut K,
    page: &Page,
    key: &Option<String>,
    at: u64,
) -> Result<Option<Vec<u8>>, TellFault>
    requires in_time { at ≤ latest }
    ensures reads { Reads K.is_clean K.is_open K.faults K.book K.may_leave keeper.old keeper.new }
    ensures told { K.is_clean keeper.new → OnOk result (IsOf (K.book keeper.old) at (page_of (paging_of page.now) (option_map string_bytes key.now)) (bytes_of result)) }
    ensures cause { IfErr result (MayRefuse K.may_fail) }
{
    match page {
        Page::Suites => Ok(Some(tell_suites(alloc, keeper, key)?)),
        Page::Uploads => Ok(Some(tell_uploads(alloc, keeper, at)?)),
        Page::Suite { codename } => tell_suite(alloc, keeper, codename.as_str()),
    }
}
