//! The page of uploads: those that wait, and those that were judged.

ghost use Rattle.std.specs.Prelude.{◌≡◌, ◌++◌, IfOk, OnOk, length, reverse, string_bytes};
ghost use Rattle.std.specs.List.{flat_map};
ghost use Rattle.pages.specs.UploadsPage.{count_text, waiting_tag, waiting_cell, lack_text, lacks_text, lacks_cell, upload_cell, waiting_row, verdict_cell, judged_row, waiting_table, waiting_part, judged_table, judged_part, uploads_page};

use crate::escape::{push_markup, push_text};
use crate::frame::{push_foot, push_head};
use crate::site::{Site, first_rows, last_rows, push_more, push_upload_name};
use crate::table::{TABLE_END, push_constant_cell};
use crate::verdict::{marked_meaning, tag, verdict_word};
use book::{Judgement, Lack, Waiting};
use rules::{Config, Verdict};
use std::alloc::{AllocError, Global};

/// The links of the page.
const LINKS: &str =
    "<nav><a href=\"index.html\">Suites</a><a href=\"uploads.html\" aria-current=\"page\">Uploads</a></nav>";

/// What stands between the number of uploads that wait and their rows.
const WAITING_HEAD: &str =
    "<div class=\"wide\"><table>\n<thead><tr><th>State</th><th>Upload</th><th>Files that it lacks</th></tr></thead>\n<tbody>\n";

/// What stands between the number of uploads that were judged and their rows.
const JUDGED_HEAD: &str =
    "<div class=\"wide\"><table>\n<thead><tr><th>Verdict</th><th>Upload</th><th>What it means</th></tr></thead>\n<tbody>\n";

/// What stands in the place of a table if no upload waits.
const NOTHING_WAITS: &str = "<p>Nothing waits.</p>\n";

/// What stands in the place of a table if no upload was judged.
const NOTHING_JUDGED: &str = "<p>Nothing was judged yet.</p>\n";

/// The tag of an upload that lacks nothing.
const WHOLE: &str = "<span class=\"tag good\">whole</span>";

/// Appends how many uploads there are, after the word that says which.
#[tactic(auto, unfolding(crate::specs::UploadsPage::count_text))]
fn push_count(
    alloc: Global,
    word: &'static str,
    count: usize,
    out: &mut String,
) -> Result<(), AllocError>
    ensures { OnOk result (string_bytes out.new ≡ string_bytes out.old ++ count_text word.now count) }
{
    let count = format!(in alloc; "{count}")?;
    push_markup("<h2>", out)?;
    push_markup(word, out)?;
    push_markup(" <span class=\"dim\">", out)?;
    push_text(count.as_str(), out)?;
    push_markup("</span></h2>\n", out)
}

/// Appends the tag of an upload: whether it is whole, or how many files it lacks.
#[tactic(auto, unfolding(crate::specs::UploadsPage::waiting_tag))]
fn push_waiting_tag(alloc: Global, lacks: usize, out: &mut String) -> Result<(), AllocError>
    ensures { OnOk result (string_bytes out.new ≡ string_bytes out.old ++ waiting_tag lacks) }
{
    if lacks == 0 {
        return push_markup(WHOLE, out);
    }
    let lacks = format!(in alloc; "{lacks}")?;
    push_markup("<span class=\"tag wait\">", out)?;
    push_text(lacks.as_str(), out)?;
    push_markup(" missing</span>", out)
}

/// Appends the cell with that tag.
#[tactic(auto, unfolding(crate::specs::UploadsPage::waiting_cell))]
fn push_waiting_cell(alloc: Global, lacks: usize, out: &mut String) -> Result<(), AllocError>
    ensures { OnOk result (string_bytes out.new ≡ string_bytes out.old ++ waiting_cell lacks) }
{
    push_markup("<td>", out)?;
    push_waiting_tag(alloc, lacks, out)?;
    push_markup("</td>", out)
}

/// Appends the name of a file that an upload lacks.
#[tactic(auto, unfolding(crate::specs::UploadsPage::lack_text))]
fn push_lack(lack: &Lack, out: &mut String) -> Result<(), AllocError>
    ensures { OnOk result (string_bytes out.new ≡ string_bytes out.old ++ lack_text lack.now) }
{
    push_markup("<code>", out)?;
    push_text(lack.name.as_str(), out)?;
    push_markup("</code> ", out)
}

/// Appends the names of the files that an upload lacks.
fn push_lacks(lacks: &[Lack], out: &mut String) -> Result<(), AllocError>
    ensures { OnOk result (string_bytes out.new ≡ string_bytes out.old ++ flat_map lack_text lacks.now) }
{
    for lack in lacks {
        push_lack(lack, out)?;
    }
    Ok(())
}

/// Appends the names of the files that an upload lacks, or what comes next if it lacks none.
#[tactic(auto, unfolding(crate::specs::UploadsPage::lacks_text))]
fn push_lacks_text(lacks: &[Lack], out: &mut String) -> Result<(), AllocError>
    ensures { OnOk result (string_bytes out.new ≡ string_bytes out.old ++ lacks_text lacks.now) }
{
    if lacks.is_empty() {
        return push_markup("None: the next run judges it.", out);
    }
    push_lacks(lacks, out)
}

/// Appends the cell of the files that an upload lacks.
#[tactic(auto, unfolding(crate::specs::UploadsPage::lacks_cell))]
fn push_lacks_cell(lacks: &[Lack], out: &mut String) -> Result<(), AllocError>
    ensures { OnOk result (string_bytes out.new ≡ string_bytes out.old ++ lacks_cell lacks.now) }
{
    push_markup("<td>", out)?;
    push_lacks_text(lacks, out)?;
    push_markup("</td>", out)
}

/// Appends the cell of an upload's name.
#[tactic(auto, unfolding(crate::specs::UploadsPage::upload_cell))]
fn push_upload_cell(
    alloc: Global,
    site: Site,
    name: &str,
    out: &mut String,
) -> Result<(), AllocError>
    ensures { OnOk result (string_bytes out.new ≡ string_bytes out.old ++ upload_cell site name.now) }
{
    push_markup("<td class=\"name\">", out)?;
    push_upload_name(alloc, site, name, out)?;
    push_markup("</td>", out)
}

/// Appends the row of an upload that waits: whether it is whole, its name, and which files it lacks.
#[tactic(auto, unfolding(crate::specs::UploadsPage::waiting_row))]
fn push_waiting(
    alloc: Global,
    site: Site,
    upload: &Waiting,
    out: &mut String,
) -> Result<(), AllocError>
    ensures { OnOk result (string_bytes out.new ≡ string_bytes out.old ++ waiting_row site upload.now) }
{
    let lacks = upload.lacks.as_slice();
    push_markup("<tr>", out)?;
    push_waiting_cell(alloc, lacks.len(), out)?;
    push_upload_cell(alloc, site, upload.name.as_str(), out)?;
    push_lacks_cell(lacks, out)?;
    push_markup("</tr>\n", out)
}

/// Appends the rows of uploads that wait, in their order.
fn push_all_waiting(
    alloc: Global,
    site: Site,
    waiting: &[Waiting],
    out: &mut String,
) -> Result<(), AllocError>
    ensures { OnOk result (string_bytes out.new ≡ string_bytes out.old ++ flat_map (waiting_row site) waiting.now) }
{
    for upload in waiting {
        push_waiting(alloc, site, upload, out)?;
    }
    Ok(())
}

/// Appends the table of the uploads that wait.
#[tactic(auto, unfolding(crate::specs::UploadsPage::waiting_table))]
fn push_waiting_table(
    alloc: Global,
    site: Site,
    waiting: &[Waiting],
    out: &mut String,
) -> Result<(), AllocError>
    ensures { OnOk result (string_bytes out.new ≡ string_bytes out.old ++ waiting_table site waiting.now) }
{
    push_markup(WAITING_HEAD, out)?;
    push_all_waiting(alloc, site, first_rows(site, waiting), out)?;
    push_markup(TABLE_END, out)?;
    push_more(alloc, site, "queue", waiting.len(), out)
}

/// Appends what is said of the uploads that wait.
#[tactic(auto, unfolding(crate::specs::UploadsPage::waiting_part))]
fn push_waiting_part(
    alloc: Global,
    site: Site,
    waiting: &[Waiting],
    out: &mut String,
) -> Result<(), AllocError>
    ensures { OnOk result (string_bytes out.new ≡ string_bytes out.old ++ waiting_part site waiting.now) }
{
    push_count(alloc, "Waiting", waiting.len(), out)?;
    if waiting.is_empty() {
        return push_markup(NOTHING_WAITS, out);
    }
    push_waiting_table(alloc, site, waiting, out)
}

/// Appends the cell of a verdict.
#[tactic(auto, unfolding(crate::specs::UploadsPage::verdict_cell))]
fn push_verdict_cell(verdict: Verdict, out: &mut String) -> Result<(), AllocError>
    ensures { OnOk result (string_bytes out.new ≡ string_bytes out.old ++ verdict_cell verdict) }
{
    push_markup("<td>", out)?;
    push_markup(tag(verdict), out)?;
    push_markup(verdict_word(verdict), out)?;
    push_markup("</span></td>", out)
}

/// Appends the row of a judged upload: its verdict, its name, and what the verdict means.
#[tactic(auto, unfolding(crate::specs::UploadsPage::judged_row))]
fn push_judged(
    alloc: Global,
    site: Site,
    judgement: &Judgement,
    out: &mut String,
) -> Result<(), AllocError>
    ensures { OnOk result (string_bytes out.new ≡ string_bytes out.old ++ judged_row site judgement.now) }
{
    push_markup("<tr>", out)?;
    push_verdict_cell(judgement.verdict, out)?;
    push_upload_cell(alloc, site, judgement.name.as_str(), out)?;
    push_constant_cell(marked_meaning(judgement.verdict), out)?;
    push_markup("</tr>\n", out)
}

/// Appends the rows of judged uploads, the latest first.
fn push_all_judged(
    alloc: Global,
    site: Site,
    judged: &[Judgement],
    out: &mut String,
) -> Result<(), AllocError>
    ensures { OnOk result (string_bytes out.new ≡ string_bytes out.old ++ flat_map (judged_row site) (reverse judged.now)) }
{
    let mut left = judged.len();
    while left > 0 {
        left -= 1;
        push_judged(alloc, site, &judged[left], out)?;
    }
    Ok(())
}

/// Appends the table of the uploads that were judged.
#[tactic(auto, unfolding(crate::specs::UploadsPage::judged_table))]
fn push_judged_table(
    alloc: Global,
    site: Site,
    judged: &[Judgement],
    out: &mut String,
) -> Result<(), AllocError>
    ensures { OnOk result (string_bytes out.new ≡ string_bytes out.old ++ judged_table site judged.now) }
{
    push_markup(JUDGED_HEAD, out)?;
    push_all_judged(alloc, site, last_rows(site, judged), out)?;
    push_markup(TABLE_END, out)?;
    push_more(alloc, site, "verdicts", judged.len(), out)
}

/// Appends what is said of the uploads that were judged.
#[tactic(auto, unfolding(crate::specs::UploadsPage::judged_part))]
fn push_judged_part(
    alloc: Global,
    site: Site,
    judged: &[Judgement],
    out: &mut String,
) -> Result<(), AllocError>
    ensures { OnOk result (string_bytes out.new ≡ string_bytes out.old ++ judged_part site judged.now) }
{
    push_count(alloc, "Judged, the latest first", judged.len(), out)?;
    if judged.is_empty() {
        return push_markup(NOTHING_JUDGED, out);
    }
    push_judged_table(alloc, site, judged, out)
}

/// The page of uploads: a row for each that waits, in their order, with the files that it lacks, and a row for each that was
/// judged, the latest first, with its verdict and what that means. If the archive serves the page, it has the first 200 that wait and
/// the newest 200 verdicts, and says how many more there are. It is refused for want of memory alone.
#[tactic(auto, unfolding(crate::specs::UploadsPage::uploads_page))]
pub fn uploads_page(
    alloc: Global,
    site: Site,
    config: &Config,
    waiting: &[Waiting],
    judged: &[Judgement],
) -> Result<String, AllocError>
    ensures { IfOk result (λ page. string_bytes page ≡ uploads_page site config.now waiting.now judged.now) }
{
    let mut page = String::new(alloc);
    push_head(config, "Uploads", LINKS, &mut page)?;
    push_waiting_part(alloc, site, waiting, &mut page)?;
    push_judged_part(alloc, site, judged, &mut page)?;
    push_foot(&mut page)?;
    Ok(page)
}
