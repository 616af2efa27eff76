//! The first page: what suites there are, and how a machine installs from them.

ghost use Rattle.std.specs.Prelude.{◌≡◌, ◌++◌, ◌+◌, IfOk, OnOk, string_bytes, Some};
ghost use Rattle.std.specs.List.{flat_map};
ghost use Rattle.std.specs.Option.{option_map};
ghost use Rattle.indices.specs.Counting.{item_count};
ghost use Rattle.pages.specs.IndexPage.{other_text, name_text, description_text, date_text_of, date_at, count_text, counts_text, word_text, words_text, state_text, key_value, key_link, known_key, key_text, option_text, field_text, apt_line, deb_lines, source_line, types_text, sources_text, section, sections_from, index_page};

use crate::escape::{push_markup, push_text};
use crate::frame::{push_foot, push_head, push_script};
use crate::link::push_link;
use crate::site::{Site, page_path};
use indices::item_count;
use para::Text;
use rules::{Config, Suite};
use std::alloc::{AllocError, Global};
use suites::{Kind, Shelves};
use texts::{LATEST, date_text};

/// The file of the key by which Releases are signed, if no other name is given.
pub const KEY: &str = "box.gpg";

/// The key by which the Releases are signed.
#[derive(Debug, Clone, Copy)]
pub struct Key<'a> {
    /// The name of the file that has it.
    pub name: &'a str,
    /// Whether this file lies beside the first page.
    pub is_here: bool,
}

/// The links of the page.
const LINKS: &str =
    "<nav><a href=\"index.html\" aria-current=\"page\">Suites</a><a href=\"uploads.html\">Uploads</a></nav>";

/// What the lines for apt are for.
const HINT: &str =
    "<p class=\"dim\">To install from a suite, write its lines into a file of <code>/etc/apt/sources.list.d</code> that ends in <code>.list</code>, or its paragraph into one that ends in <code>.sources</code>.</p>\n";

/// What stands in the place of a date that is not known.
const UNKNOWN: &str = "unknown";

/// What stands before the key.
const SIGNED: &str = "<p class=\"dim\">The Releases are signed. Store the key, ";

/// The folder of the keys on the machine that installs.
const KEYRINGS: &str = "/usr/share/keyrings/";

/// The place where the script writes the address.
const URL: &str = "<span class=\"url\">URL/</span>";

/// Appends the other name of a suite, if it has one.
#[tactic(auto, unfolding(crate::specs::IndexPage::other_text))]
fn push_other_name(other: &Option<Text>, out: &mut String) -> Result<(), AllocError>
    ensures { OnOk result (string_bytes out.new ≡ string_bytes out.old ++ other_text other.now) }
{
    let Some(name) = other else {
        return Ok(());
    };
    push_markup(" <span class=\"dim\">(", out)?;
    push_text(name.as_str(), out)?;
    push_markup(")</span>", out)
}

/// Appends the name of a suite, which is a link to its page, and its other name.
#[tactic(auto, unfolding(crate::specs::IndexPage::name_text))]
fn push_name(
    alloc: Global,
    site: Site,
    codename: &str,
    other: &Option<Text>,
    out: &mut String,
) -> Result<(), AllocError>
    ensures { OnOk result (string_bytes out.new ≡ string_bytes out.old ++ name_text site codename.now other.now) }
{
    let path = page_path(alloc, site, codename)?;
    push_markup("<h2>", out)?;
    push_link(alloc, "", path.as_str(), codename, out)?;
    push_other_name(other, out)?;
    push_markup("</h2>\n", out)
}

/// Appends what a suite is for, if the configuration says it.
#[tactic(auto, unfolding(crate::specs::IndexPage::description_text))]
pub fn push_description(description: &Option<Text>, out: &mut String) -> Result<(), AllocError>
    ensures { OnOk result (string_bytes out.new ≡ string_bytes out.old ++ description_text description.now) }
{
    let Some(text) = description else {
        return Ok(());
    };
    push_markup("<p>", out)?;
    push_text(text.as_str(), out)?;
    push_markup("</p>\n", out)
}

/// Appends the date of a moment, unless it is one that no Release may have.
#[tactic(auto, unfolding(crate::specs::IndexPage::date_text_of))]
fn push_date(alloc: Global, date: u64, out: &mut String) -> Result<(), AllocError>
    ensures { OnOk result (string_bytes out.new ≡ string_bytes out.old ++ date_text_of date) }
{
    if date > LATEST {
        return push_text(UNKNOWN, out);
    }
    let text = date_text(alloc, date)?;
    push_text(text.as_str(), out)
}

/// Appends the date of the suite at a position, if it has one.
#[tactic(auto, unfolding(crate::specs::IndexPage::date_at))]
fn push_date_at(
    alloc: Global,
    dates: &[u64],
    suite: usize,
    out: &mut String,
) -> Result<(), AllocError>
    ensures { OnOk result (string_bytes out.new ≡ string_bytes out.old ++ date_at dates.now suite) }
{
    match dates.get(suite) {
        Some(date) => push_date(alloc, *date, out),
        None => push_text(UNKNOWN, out),
    }
}

/// Appends how many items of a kind a suite shows, after the word for them.
#[tactic(auto, unfolding(crate::specs::IndexPage::count_text))]
fn push_count(
    alloc: Global,
    word: &'static str,
    shelves: &Shelves,
    suite: usize,
    kind: Kind,
    out: &mut String,
) -> Result<(), AllocError>
    ensures { OnOk result (string_bytes out.new ≡ string_bytes out.old ++ count_text word.now (item_count shelves.now suite (Some kind))) }
{
    let count = item_count(shelves, suite, Some(kind))?;
    let count = format!(in alloc; "{count}")?;
    push_markup("<div><dt>", out)?;
    push_markup(word, out)?;
    push_markup("</dt><dd>", out)?;
    push_text(count.as_str(), out)?;
    push_markup("</dd></div>", out)
}

/// Appends how many packages and how many sources a suite shows.
#[tactic(auto, unfolding(crate::specs::IndexPage::counts_text))]
pub fn push_counts(
    alloc: Global,
    shelves: &Shelves,
    suite: usize,
    out: &mut String,
) -> Result<(), AllocError>
    ensures { OnOk result (string_bytes out.new ≡ string_bytes out.old ++ counts_text shelves.now suite) }
{
    push_count(alloc, "Packages", shelves, suite, Kind::Binary, out)?;
    push_count(alloc, "Sources", shelves, suite, Kind::Source, out)
}

/// Appends a blank and a word.
#[tactic(auto, unfolding(crate::specs::IndexPage::word_text))]
fn push_word(word: &str, out: &mut String) -> Result<(), AllocError>
    ensures { OnOk result (string_bytes out.new ≡ string_bytes out.old ++ word_text word.now) }
{
    push_markup(" ", out)?;
    push_text(word, out)
}

/// Appends words, each after a blank.
fn push_words(words: &[Text], out: &mut String) -> Result<(), AllocError>
    ensures { OnOk result (string_bytes out.new ≡ string_bytes out.old ++ flat_map word_text words.now) }
{
    for word in words {
        push_word(word.as_str(), out)?;
    }
    Ok(())
}

/// Appends words of a suite, after the word for them.
#[tactic(auto, unfolding(crate::specs::IndexPage::words_text))]
fn push_named_words(name: &'static str, words: &[Text], out: &mut String) -> Result<(), AllocError>
    ensures { OnOk result (string_bytes out.new ≡ string_bytes out.old ++ words_text name.now words.now) }
{
    push_markup("<div><dt>", out)?;
    push_markup(name, out)?;
    push_markup("</dt><dd>", out)?;
    push_words(words, out)?;
    push_markup("</dd></div>", out)
}

/// Appends how much a suite shows, what it keeps, and when what it shows last changed.
#[tactic(auto, unfolding(crate::specs::IndexPage::state_text))]
fn push_state(
    alloc: Global,
    suite: &Suite,
    shelves: &Shelves,
    dates: &[u64],
    position: usize,
    out: &mut String,
) -> Result<(), AllocError>
    ensures { OnOk result (string_bytes out.new ≡ string_bytes out.old ++ state_text shelves.now dates.now position suite.now) }
{
    push_markup("<dl>", out)?;
    push_counts(alloc, shelves, position, out)?;
    push_named_words("Architectures", suite.architectures.as_slice(), out)?;
    push_named_words("Components", suite.components.as_slice(), out)?;
    push_markup("<div><dt>Changed</dt><dd>", out)?;
    push_date_at(alloc, dates, position, out)?;
    push_markup("</dd></div></dl>\n", out)
}

/// Appends the name of a key's file, as a link if the file is here.
#[tactic(auto, unfolding(crate::specs::IndexPage::key_link))]
fn push_key_link(alloc: Global, key: &Key<'_>, out: &mut String) -> Result<(), AllocError>
    ensures { OnOk result (string_bytes out.new ≡ string_bytes out.old ++ key_link (key_value key.now)) }
{
    if key.is_here {
        push_link(alloc, "", key.name, key.name, out)
    } else {
        push_text(key.name, out)
    }
}

/// Appends where a machine stores the key.
#[tactic(auto, unfolding(crate::specs::IndexPage::known_key))]
fn push_known_key(alloc: Global, key: &Key<'_>, out: &mut String) -> Result<(), AllocError>
    ensures { OnOk result (string_bytes out.new ≡ string_bytes out.old ++ known_key (key_value key.now)) }
{
    push_markup(SIGNED, out)?;
    push_key_link(alloc, key, out)?;
    push_markup(", as <code>", out)?;
    push_markup(KEYRINGS, out)?;
    push_text(key.name, out)?;
    push_markup("</code>.</p>\n", out)
}

/// Appends where a machine stores the key, if the Releases are signed.
#[tactic(auto, unfolding(crate::specs::IndexPage::key_text))]
fn push_key(alloc: Global, key: &Option<Key<'_>>, out: &mut String) -> Result<(), AllocError>
    ensures { OnOk result (string_bytes out.new ≡ string_bytes out.old ++ key_text (option_map key_value key.now)) }
{
    match key {
        Some(key) => push_known_key(alloc, key, out),
        None => Ok(()),
    }
}

/// Appends the option of apt's lines: by which key the Release is signed, or that it is trusted without a key.
#[tactic(auto, unfolding(crate::specs::IndexPage::option_text))]
fn push_option(key: &Option<Key<'_>>, out: &mut String) -> Result<(), AllocError>
    ensures { OnOk result (string_bytes out.new ≡ string_bytes out.old ++ option_text (option_map key_value key.now)) }
{
    let Some(key) = key else {
        return push_markup("trusted=yes", out);
    };
    push_markup("signed-by=", out)?;
    push_markup(KEYRINGS, out)?;
    push_text(key.name, out)
}

/// Appends the field of apt's paragraph that says the same.
#[tactic(auto, unfolding(crate::specs::IndexPage::field_text))]
fn push_field(key: &Option<Key<'_>>, out: &mut String) -> Result<(), AllocError>
    ensures { OnOk result (string_bytes out.new ≡ string_bytes out.old ++ field_text (option_map key_value key.now)) }
{
    let Some(key) = key else {
        return push_markup("Trusted: yes", out);
    };
    push_markup("Signed-By: ", out)?;
    push_markup(KEYRINGS, out)?;
    push_text(key.name, out)
}

/// Appends a line by which apt knows a suite. The script puts the address of the page's folder in the place of `URL/`.
#[tactic(auto, unfolding(crate::specs::IndexPage::apt_line))]
fn push_apt_line(
    kind: &'static str,
    key: &Option<Key<'_>>,
    suite: &Suite,
    out: &mut String,
) -> Result<(), AllocError>
    ensures { OnOk result (string_bytes out.new ≡ string_bytes out.old ++ apt_line kind.now (option_map key_value key.now) suite.now) }
{
    push_markup(kind, out)?;
    push_markup(" [", out)?;
    push_option(key, out)?;
    push_markup("] ", out)?;
    push_markup(URL, out)?;
    push_word(suite.codename.as_str(), out)?;
    push_words(suite.components.as_slice(), out)?;
    push_markup("\n", out)
}

/// Appends the line for the sources of a suite, if it keeps sources.
#[tactic(auto, unfolding(crate::specs::IndexPage::source_line))]
fn push_source_line(
    key: &Option<Key<'_>>,
    suite: &Suite,
    out: &mut String,
) -> Result<(), AllocError>
    ensures { OnOk result (string_bytes out.new ≡ string_bytes out.old ++ source_line (option_map key_value key.now) suite.now) }
{
    if !suite.keeps_architecture("source") {
        return Ok(());
    }
    push_apt_line("deb-src", key, suite, out)
}

/// Appends the lines by which apt knows a suite.
#[tactic(auto, unfolding(crate::specs::IndexPage::deb_lines))]
fn push_deb_lines(key: &Option<Key<'_>>, suite: &Suite, out: &mut String) -> Result<(), AllocError>
    ensures { OnOk result (string_bytes out.new ≡ string_bytes out.old ++ deb_lines (option_map key_value key.now) suite.now) }
{
    push_markup("<pre>", out)?;
    push_apt_line("deb", key, suite, out)?;
    push_source_line(key, suite, out)?;
    push_markup("</pre>\n", out)
}

/// Appends what apt fetches of a suite.
#[tactic(auto, unfolding(crate::specs::IndexPage::types_text))]
fn push_types(suite: &Suite, out: &mut String) -> Result<(), AllocError>
    ensures { OnOk result (string_bytes out.new ≡ string_bytes out.old ++ types_text suite.now) }
{
    if suite.keeps_architecture("source") {
        push_markup("deb deb-src", out)
    } else {
        push_markup("deb", out)
    }
}

/// Appends the paragraph by which apt knows a suite, for a file that ends in `.sources`.
#[tactic(auto, unfolding(crate::specs::IndexPage::sources_text))]
fn push_sources(key: &Option<Key<'_>>, suite: &Suite, out: &mut String) -> Result<(), AllocError>
    ensures { OnOk result (string_bytes out.new ≡ string_bytes out.old ++ sources_text (option_map key_value key.now) suite.now) }
{
    push_markup("<pre>Types: ", out)?;
    push_types(suite, out)?;
    push_markup("\nURIs: ", out)?;
    push_markup(URL, out)?;
    push_markup("\nSuites:", out)?;
    push_word(suite.codename.as_str(), out)?;
    push_markup("\nComponents:", out)?;
    push_words(suite.components.as_slice(), out)?;
    push_markup("\n", out)?;
    push_field(key, out)?;
    push_markup("\n</pre>\n", out)
}

/// Appends what is said of the suite at a position.
#[tactic(auto, unfolding(crate::specs::IndexPage::section))]
fn push_section(
    alloc: Global,
    site: Site,
    suite: &Suite,
    shelves: &Shelves,
    dates: &[u64],
    key: &Option<Key<'_>>,
    position: usize,
    out: &mut String,
) -> Result<(), AllocError>
    ensures { OnOk result (string_bytes out.new ≡ string_bytes out.old ++ section site shelves.now dates.now (option_map key_value key.now) position suite.now) }
{
    push_markup("<section class=\"suite\">\n", out)?;
    push_name(alloc, site, suite.codename.as_str(), &suite.suite, out)?;
    push_description(&suite.description, out)?;
    push_state(alloc, suite, shelves, dates, position, out)?;
    push_deb_lines(key, suite, out)?;
    push_sources(key, suite, out)?;
    push_markup("</section>\n", out)
}

/// Appends what is said of suites.
fn push_sections(
    alloc: Global,
    site: Site,
    suites: &[Suite],
    shelves: &Shelves,
    dates: &[u64],
    key: &Option<Key<'_>>,
    out: &mut String,
) -> Result<(), AllocError>
    ensures { OnOk result (string_bytes out.new ≡ string_bytes out.old ++ sections_from site shelves.now dates.now (option_map key_value key.now) 0 suites.now) }
{
    for position in 0..suites.len() {
        let suite = &suites[position];
        push_section(alloc, site, suite, shelves, dates, key, position, out)?;
    }
    Ok(())
}

/// The first page: for each suite of the configuration its codename, which is a link to its page, what it is for, how many packages and
/// sources it shows, what it keeps, when what it shows last changed, and the lines for apt, without a key if the Releases are not
/// signed. The dates are the moments of the suites' Release, in seconds since 1970-01-01 00:00:00 UTC; one that is not there, or is after
/// 2099-12-31 23:59:59 UTC, is unknown. It is refused for want of memory alone.
#[tactic(auto, unfolding(crate::specs::IndexPage::index_page))]
pub fn index_page(
    alloc: Global,
    site: Site,
    config: &Config,
    shelves: &Shelves,
    dates: &[u64],
    key: &Option<Key<'_>>,
) -> Result<String, AllocError>
    ensures { IfOk result (λ page. string_bytes page ≡ index_page site config.now shelves.now dates.now (option_map key_value key.now)) }
{
    let mut page = String::new(alloc);
    push_head(config, "Suites", LINKS, &mut page)?;
    push_markup(HINT, &mut page)?;
    push_key(alloc, key, &mut page)?;
    push_sections(alloc, site, config.suites(), shelves, dates, key, &mut page)?;
    push_script(&mut page)?;
    push_foot(&mut page)?;
    Ok(page)
}
