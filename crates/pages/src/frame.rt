//! What each page begins and ends with: one style, two scripts, the policy that allows these alone, and the name of the archive.

ghost use Rattle.std.specs.Prelude.{◌≡◌, ◌++◌, OnOk, string_bytes};
ghost use Rattle.pages.specs.Frame.{policy_text, style_text, script_text, filter_text, title_text, heading_text, name_by, archive_name, header_text, front_text, head_text, foot_text};

use crate::escape::{push_markup, push_text};
use rules::{Config, Suite};
use std::alloc::AllocError;

/// The one style of the pages, for light and dark screens.
const STYLE: &str =
    ":root{color-scheme:light dark;--ink:#1b1f24;--dim:#5b6470;--line:#d9dee4;--soft:#f5f7f9;--link:#0b57a4;--good:#1a7f37;--bad:#b42318;--wait:#8a5a00;--goodbg:#e7f6ec;--badbg:#fdecea;--waitbg:#fff5df}
@media(prefers-color-scheme:dark){:root{--ink:#e4e8ec;--dim:#98a2ad;--line:#343b43;--soft:#1c2126;--link:#6db3f2;--good:#5bd07f;--bad:#ff8a80;--wait:#f0c36d;--goodbg:#12301d;--badbg:#3a1714;--waitbg:#33270c}body{background:#14181c}}
*{box-sizing:border-box}body{margin:0;color:var(--ink);font:15px/1.5 system-ui,sans-serif}
a{color:var(--link);text-decoration:none}a:hover{text-decoration:underline}
header{border-bottom:1px solid var(--line);background:var(--soft)}header div,main,footer{max-width:76rem;margin:auto;padding:0 1.25rem}
header div{display:flex;flex-wrap:wrap;gap:.2rem 1.5rem;align-items:baseline;padding-top:.8rem;padding-bottom:.8rem}header b{font-size:1.05rem;overflow-wrap:anywhere}
nav{display:flex;gap:1rem}nav a[aria-current]{color:var(--ink);font-weight:600}
h1{font-size:1.5rem;margin:1.6rem 0 .2rem}h2{font-size:1.1rem;margin:1.6rem 0 .5rem}h1,h2,p{overflow-wrap:anywhere}p{margin:.3rem 0}.dim{color:var(--dim)}h2 .dim{font-weight:400}
.suite{border:1px solid var(--line);border-radius:8px;padding:.9rem 1.1rem;margin:.9rem 0}.suite h2{margin:0}
dl{display:flex;flex-wrap:wrap;gap:.2rem 1.6rem;margin:.4rem 0}dl div{display:flex;gap:.4rem}dt{color:var(--dim)}dd{margin:0}
pre{background:var(--soft);border:1px solid var(--line);border-radius:6px;padding:.6rem .8rem;overflow-x:auto;margin:.5rem 0;font:13px/1.45 ui-monospace,monospace}
.wide{overflow-x:auto}table{border-collapse:collapse;width:100%;margin:.5rem 0}th{font-weight:600;text-align:left;color:var(--dim);font-size:.85rem}
th,td{padding:.4rem .8rem .4rem 0;border-bottom:1px solid var(--line);vertical-align:top}td.n,th.n{text-align:right;white-space:nowrap}td:last-child{min-width:14rem}td b{overflow-wrap:anywhere}td.name{overflow-wrap:anywhere;min-width:9rem}
code,.name{font:13px/1.5 ui-monospace,monospace}pre code,div.name{white-space:nowrap}td code{overflow-wrap:anywhere}
.tag{display:inline-block;border-radius:999px;padding:0 .55rem;font-size:.8rem;font-weight:600;white-space:nowrap}
.good{color:var(--good);background:var(--goodbg)}.bad{color:var(--bad);background:var(--badbg)}.wait{color:var(--wait);background:var(--waitbg)}
input{font:inherit;color:inherit;background:transparent;border:1px solid var(--line);border-radius:6px;padding:.35rem .6rem;width:18rem;max-width:100%}
tr.source td{background:var(--soft);border-top:2px solid var(--line)}tr.source td:first-child{padding-left:.6rem}tr.package td:first-child{padding-left:1.4rem}tr.source td:first-child,tr.package td:first-child{min-width:12rem}
footer{color:var(--dim);font-size:.85rem;padding-top:1.2rem;padding-bottom:2rem}
@media(max-width:40rem){header div,main,footer{padding-left:.7rem;padding-right:.7rem}td:last-child{min-width:9rem}th,td{padding-right:.5rem}}";

/// The script that writes the address of the page's folder wherever it is wanted.
const SCRIPT: &str =
    "for(const e of document.querySelectorAll('.url'))e.textContent=new URL('.',location)";

/// The script of the filter: it hides the rows without the text that is typed, whatever the case of its letters.
const FILTER: &str =
    "const f=document.querySelector('input');f.hidden=false;f.oninput=()=>{for(const r of document.querySelectorAll('tbody tr'))r.hidden=!r.textContent.toLowerCase().includes(f.value.toLowerCase())}";

/// What a browser is to load and run: the style and the two scripts, by the SHA-256 of each in base64, and an empty icon. Whoever serves the
/// pages has it in the head of each reply, too.
pub const POLICY: &str =
    "default-src 'none'; style-src 'sha256-l3b+8vSjYS/LYld01UVZS2JvoWEQOGZjbqfPSd9xj2Y='; script-src 'sha256-cVBzRYlPabAiM8NsNStKWKgpr/4yleKQfO+3C10it8Q=' 'sha256-easaK8yorjIK/FOPsJZfFstjz/bqtLI4dJtjXUjKFhs='; img-src data:; base-uri 'none'; form-action 'none'";

/// What a page begins with, up to the policy.
const START: &str = "<!doctype html>\n<html lang=\"en\">\n<head>\n<meta charset=\"utf-8\">\n";

/// What stands in front of the policy.
const POLICY_FRONT: &str = "<meta http-equiv=\"Content-Security-Policy\" content=\"";

/// This makes a page as wide as the screen of a phone.
const VIEWPORT: &str = "<meta name=\"viewport\" content=\"width=device-width, initial-scale=1\">\n";

/// This keeps browsers from asking for an icon.
const ICON: &str = "<link rel=\"icon\" href=\"data:,\">\n";

/// What stands between the style and the name of the archive.
const BODY: &str = "</head>\n<body>\n<header><div><b>";

/// What stands between the links to the pages and the heading.
const MAIN: &str = "</div></header>\n<main>\n";

/// The name of an archive whose configuration has none.
const NO_NAME: &str = "Archive";

/// What a page ends with.
const END: &str = "</main>\n<footer>Boqitsel</footer>\n</body>\n</html>\n";

/// Appends a constant between two others.
fn push_between(
    start: &'static str,
    text: &'static str,
    end: &'static str,
    out: &mut String,
) -> Result<(), AllocError>
    ensures { OnOk result (string_bytes out.new ≡ string_bytes out.old ++ (start.now ++ text.now ++ end.now)) }
{
    push_markup(start, out)?;
    push_markup(text, out)?;
    push_markup(end, out)
}

/// Appends the policy.
#[tactic(auto, unfolding(crate::specs::Frame::policy_text))]
fn push_policy(out: &mut String) -> Result<(), AllocError>
    ensures { OnOk result (string_bytes out.new ≡ string_bytes out.old ++ policy_text) }
{
    push_between(POLICY_FRONT, POLICY, "\">\n", out)
}

/// Appends the style.
#[tactic(auto, unfolding(crate::specs::Frame::style_text))]
fn push_style(out: &mut String) -> Result<(), AllocError>
    ensures { OnOk result (string_bytes out.new ≡ string_bytes out.old ++ style_text) }
{
    push_between("<style>", STYLE, "</style>\n", out)
}

/// Appends the script.
#[tactic(auto, unfolding(crate::specs::Frame::script_text))]
pub fn push_script(out: &mut String) -> Result<(), AllocError>
    ensures { OnOk result (string_bytes out.new ≡ string_bytes out.old ++ script_text) }
{
    push_between("<script>", SCRIPT, "</script>\n", out)
}

/// Appends the script of the filter.
#[tactic(auto, unfolding(crate::specs::Frame::filter_text))]
pub fn push_filter(out: &mut String) -> Result<(), AllocError>
    ensures { OnOk result (string_bytes out.new ≡ string_bytes out.old ++ filter_text) }
{
    push_between("<script>", FILTER, "</script>\n", out)
}

/// Appends the title of a page.
#[tactic(auto, unfolding(crate::specs::Frame::title_text))]
fn push_title(title: &str, out: &mut String) -> Result<(), AllocError>
    ensures { OnOk result (string_bytes out.new ≡ string_bytes out.old ++ title_text title.now) }
{
    push_markup("<title>", out)?;
    push_text(title, out)?;
    push_markup("</title>\n", out)
}

/// Appends the heading of a page.
#[tactic(auto, unfolding(crate::specs::Frame::heading_text))]
fn push_heading(title: &str, out: &mut String) -> Result<(), AllocError>
    ensures { OnOk result (string_bytes out.new ≡ string_bytes out.old ++ heading_text title.now) }
{
    push_markup("<h1>", out)?;
    push_text(title, out)?;
    push_markup("</h1>\n", out)
}

/// Appends what a page with a title begins with, up to that title.
#[tactic(auto, unfolding(crate::specs::Frame::front_text))]
fn push_front(title: &str, out: &mut String) -> Result<(), AllocError>
    ensures { OnOk result (string_bytes out.new ≡ string_bytes out.old ++ front_text title.now) }
{
    push_markup(START, out)?;
    push_policy(out)?;
    push_markup(VIEWPORT, out)?;
    push_title(title, out)
}

/// The name that a suite has for its archive: its Origin, else its Label.
#[tactic(auto, unfolding(crate::specs::Frame::name_by))]
fn name_by(suite: &Suite) -> &str
    ensures { result.now ≡ name_by suite.now }
{
    match (&suite.origin, &suite.label) {
        (Some(origin), _) => origin.as_str(),
        (None, Some(label)) => label.as_str(),
        (None, None) => NO_NAME,
    }
}

/// The name of the archive, by the first suite of its configuration.
#[tactic(auto, unfolding(crate::specs::Frame::archive_name))]
fn archive_name(config: &Config) -> &str
    ensures { result.now ≡ archive_name config.now }
{
    match config.suites().first() {
        Some(suite) => name_by(suite),
        None => NO_NAME,
    }
}

/// Appends the name of the archive, and links to the pages.
#[tactic(auto, unfolding(crate::specs::Frame::header_text))]
fn push_header(config: &Config, links: &'static str, out: &mut String) -> Result<(), AllocError>
    ensures { OnOk result (string_bytes out.new ≡ string_bytes out.old ++ header_text config.now links.now) }
{
    push_markup(BODY, out)?;
    push_text(archive_name(config), out)?;
    push_markup("</b>", out)?;
    push_markup(links, out)?;
    push_markup(MAIN, out)
}

/// Appends what a page with a title begins with, up to its heading.
#[tactic(auto, unfolding(crate::specs::Frame::head_text))]
pub fn push_head(
    config: &Config,
    title: &str,
    links: &'static str,
    out: &mut String,
) -> Result<(), AllocError>
    ensures { OnOk result (string_bytes out.new ≡ string_bytes out.old ++ head_text config.now title.now links.now) }
{
    push_front(title, out)?;
    push_markup(ICON, out)?;
    push_style(out)?;
    push_header(config, links, out)?;
    push_heading(title, out)
}

/// Appends what a page ends with.
#[tactic(auto, unfolding(crate::specs::Frame::foot_text))]
pub fn push_foot(out: &mut String) -> Result<(), AllocError>
    ensures { OnOk result (string_bytes out.new ≡ string_bytes out.old ++ foot_text) }
{
    push_markup(END, out)
}
