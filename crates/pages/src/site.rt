//! What differs between the pages of a tree and those that the archive serves.

ghost use Rattle.std.specs.Prelude.{◌≡◌, ◌++◌, IfOk, OnOk, reverse, string_bytes};
ghost use Rattle.pages.specs.declared.site.Site.TheVariants.{Served};
ghost use Rattle.pages.specs.Sites.{page_path, upload_name, first_rows, newest, left_out, more_text};

use crate::escape::{push_markup, push_text};
use crate::link::push_link;
use std::alloc::{AllocError, Global};
use texts::path_in;

/// The most rows of each table on the page of uploads that the archive serves.
pub const MOST_ROWS: usize = 200;

/// Where the pages lie.
#[derive(Debug, Clone, Copy, PartialEq, Eq)]
pub enum Site {
    /// In the tree of an export, whose files are all that there is.
    Tree,
    /// Below the address of an archive that answers what it is asked, too.
    Served,
}

/// The path of a suite's page, from the folder of the first page on.
#[tactic(auto, unfolding(crate::specs::Sites::page_path))]
pub fn page_path(alloc: Global, site: Site, codename: &str) -> Result<String, AllocError>
    ensures { IfOk result (λ path. string_bytes path ≡ page_path site codename.now) }
{
    match site {
        Site::Tree => path_in(alloc, codename, "index.html"),
        Site::Served => format!(in alloc; "suites/{codename}/index.html"),
    }
}

/// Appends the name of an upload. If the archive can be asked why the upload has its verdict, the name is a link to the answer.
#[tactic(auto, unfolding(crate::specs::Sites::upload_name))]
pub fn push_upload_name(
    alloc: Global,
    site: Site,
    name: &str,
    out: &mut String,
) -> Result<(), AllocError>
    ensures { OnOk result (string_bytes out.new ≡ string_bytes out.old ++ upload_name site name.now) }
{
    match site {
        Site::Tree => push_text(name, out),
        Site::Served => push_link(alloc, "why/", name, name, out),
    }
}

/// At most `MOST_ROWS` from the front.
#[tactic(auto, using(crate::proofs::Rows::front_all))]
fn front_of<T>(all: &[T]) -> &[T]
    ensures { result.now ≡ first_rows Served all.now }
{
    if all.len() <= MOST_ROWS {
        return all;
    }
    all.split_at(MOST_ROWS).0
}

/// Of what stands in the order of a table, what the table has.
pub fn first_rows<T>(site: Site, all: &[T]) -> &[T]
    ensures { result.now ≡ first_rows site all.now }
{
    match site {
        Site::Tree => all,
        Site::Served => front_of(all),
    }
}

/// At most `MOST_ROWS` from the end.
#[tactic(auto, using(crate::proofs::Rows::end_all, crate::proofs::Rows::end_taken))]
fn end_of<T>(all: &[T]) -> &[T]
    ensures { reverse result.now ≡ newest Served all.now }
{
    if all.len() <= MOST_ROWS {
        return all;
    }
    all.split_at(all.len() - MOST_ROWS).1
}

/// Of what stands in the reverse order of a table, what the table has.
pub fn last_rows<T>(site: Site, all: &[T]) -> &[T]
    ensures { reverse result.now ≡ newest site all.now }
{
    match site {
        Site::Tree => all,
        Site::Served => end_of(all),
    }
}

/// How many rows a table leaves out.
fn left_out(site: Site, count: usize) -> usize
    ensures { result ≡ left_out site count }
{
    match site {
        Site::Tree => 0,
        Site::Served => count.saturating_sub(MOST_ROWS),
    }
}

/// Appends the number of rows that a table leaves out, if there are any, with a link to what has them all.
#[tactic(auto, unfolding(crate::specs::Sites::more_text))]
pub fn push_more(
    alloc: Global,
    site: Site,
    path: &'static str,
    count: usize,
    out: &mut String,
) -> Result<(), AllocError>
    ensures { OnOk result (string_bytes out.new ≡ string_bytes out.old ++ more_text site path.now count) }
{
    let left = left_out(site, count);
    if left == 0 {
        return Ok(());
    }
    let left = format!(in alloc; "{left}")?;
    push_markup("<p>", out)?;
    push_text(left.as_str(), out)?;
    push_markup(" more: ", out)?;
    push_link(alloc, "", path, path, out)?;
    push_markup("</p>\n", out)
}
