//! What suites show, a line for each item.

ghost use Rattle.std.specs.Prelude.{◌≡◌, ◌++◌, ◌∷◌, [], cond, IfOk, map, string_bytes};
ghost use Rattle.std.specs.FinMap.{entries};
ghost use Rattle.output.specs.Listing.{before, line_in, line_of, line_on, shown_in};

use rules::Config;
use std::alloc::{AllocError, Global};
use suites::{Item, Shelves, codename_at};

/// The line of an item: its package, version, architecture, component and source, with one space between each two.
fn line_of(alloc: Global, item: &Item) -> Result<String, AllocError>
    ensures { IfOk result (λ line. string_bytes line ≡ line_of item.now) }
{
    let (package, version) = (item.package.as_str(), item.version.text());
    let (architecture, component) = (item.architecture.as_str(), item.component.as_str());
    let source = item.source.as_str();
    format!(in alloc; "{package} {version} {architecture} {component} {source}")
}

/// Adds the line of an item, if it is shown.
fn push_line_if(
    alloc: Global,
    lines: &mut Vec<String>,
    is_shown: bool,
    item: &Item,
) -> Result<(), AllocError>
    ensures { IfOk result (λ _. map string_bytes lines.new.items ≡ map string_bytes lines.old.items ++ cond is_shown (line_of item.now ∷ []) []) }
{
    if is_shown {
        lines.push(line_of(alloc, item)?)?;
    }
    Ok(())
}

/// A line for each item that a suite shows, which is a position in the configuration: `PACKAGE VERSION ARCHITECTURE COMPONENT SOURCE`.
/// They are in the order of the shelves: sources before packages, each by name and architecture. A suite that is not there shows
/// nothing.
pub fn shown_lines(
    alloc: Global,
    shelves: &Shelves,
    suite: usize,
) -> Result<Vec<String>, AllocError>
    ensures { IfOk result (λ lines. map string_bytes lines.items ≡ map line_on (shown_in suite shelves.now)) }
{
    let mut lines = Vec::new(alloc);
    for (key, item) in shelves.items() {
        push_line_if(alloc, &mut lines, key.suite == suite, item)?;
    }
    Ok(lines)
}

/// The line of an item, after the codename of the suite that shows it.
fn line_in(alloc: Global, codename: &str, item: &Item) -> Result<String, AllocError>
    ensures { IfOk result (λ line. string_bytes line ≡ before codename.now (line_of item.now)) }
{
    let line = line_of(alloc, item)?;
    format!(in alloc; "{codename} {line}")
}

/// A line for each item that a suite shows, in the order of the shelves: `CODENAME PACKAGE VERSION ARCHITECTURE COMPONENT SOURCE`. So they
/// are in the order of the suites in the configuration.
pub fn all_lines(
    alloc: Global,
    config: &Config,
    shelves: &Shelves,
) -> Result<Vec<String>, AllocError>
    ensures { IfOk result (λ lines. map string_bytes lines.items ≡ map (line_in config.now) (entries shelves.now)) }
{
    let mut lines = Vec::new(alloc);
    for (key, item) in shelves.items() {
        lines.push(line_in(alloc, codename_at(config.suites(), key.suite), item)?)?;
    }
    Ok(lines)
}
