//! Promotions: copies of several source packages, or of all that a suite shows, as steps of one change.

ghost use Rattle.std.specs.Prelude.{◌≡◌, ◌<◌, ◌==◌, ◌++◌, ◌∷◌, [], ℕ, List, Some, None, IfOk, OnOk, bytes_eq, cond, if◌then◌else◌, length, map, nat_eq, not, string_bytes, false};
ghost use Rattle.std.specs.BTreeMap.{get_by_text};
ghost use Rattle.suites.specs.Plan.{after_copy, shelves_of};
ghost use Rattle.suites.specs.Shelves.{AreSound};
ghost use Rattle.suites.specs.Told.{AreTold};
ghost use Rattle.book.specs.Groups.{group_in};
ghost use Rattle.history.specs.Answers.{copy_line, line_on_copy};
ghost use Rattle.history.specs.Archives.{each_once, with_name};
ghost use Rattle.history.specs.Commands.{copy_of, names_given};
ghost use Rattle.history.specs.Promotions.{AreCopied, IsCopyStep, after_copies, copies_on, sources_from, sources_on};

use crate::command::SourceCopy;
use book::{Step, add_to_group, group_of};
use rules::Config;
use std::alloc::{AllocError, Global};
use std::collections::{BTreeMap, BTreeSet};
use suites::{ShelfKey, Shelves, plan_copy_of};

/// Adds a name to a set of names.
fn add_name(alloc: Global, names: &mut BTreeSet<String>, name: &str) -> Result<(), AllocError>
    ensures { OnOk result (map string_bytes names.new.keys ≡ with_name (map string_bytes names.old.keys) name.now) }
{
    let owned = String::from_str(alloc, name)?;
    names.insert(owned)?;
    Ok(())
}

/// Adds a name to a set of names, if it passes.
fn add_name_if(
    alloc: Global,
    names: &mut BTreeSet<String>,
    passes: bool,
    name: &str,
) -> Result<(), AllocError>
    ensures { OnOk result (map string_bytes names.new.keys ≡ cond passes (with_name (map string_bytes names.old.keys) name.now) (map string_bytes names.old.keys)) }
{
    if passes {
        add_name(alloc, names, name)?;
    }
    Ok(())
}

/// Names in the order of their bytes, each once.
#[tactic(auto, unfolding(crate::specs::Archives::each_once))]
fn in_order(alloc: Global, names: &[String]) -> Result<BTreeSet<String>, AllocError>
    ensures { IfOk result (λ set. map string_bytes set.keys ≡ each_once (map string_bytes names.now)) }
{
    let mut set = BTreeSet::new(alloc);
    for name in names {
        add_name(alloc, &mut set, name.as_str())?;
    }
    Ok(set)
}

/// Whether the shelf belongs to the suite.
fn is_in(suite: usize, key: &ShelfKey) -> bool
    ensures { result ≡ nat_eq key.now.suite suite }
{
    key.suite == suite
}

/// The source packages of which a suite shows an item, by its position; in the order of their bytes, each once.
#[tactic(auto, unfolding(crate::specs::Archives::each_once))]
fn shown_sources(
    alloc: Global,
    shelves: &Shelves,
    suite: usize,
) -> Result<BTreeSet<String>, AllocError>
    ensures { IfOk result (λ set. map string_bytes set.keys ≡ each_once (sources_on shelves.now suite)) }
{
    let mut set = BTreeSet::new(alloc);
    for (key, item) in shelves.items() {
        let is_shown = is_in(suite, key);
        add_name_if(alloc, &mut set, is_shown, item.source.as_str())?;
    }
    Ok(set)
}

/// The names of a set as a list.
fn listed(alloc: Global, names: BTreeSet<String>) -> Result<Vec<String>, AllocError>
    ensures { IfOk result (λ list. list.items ≡ names.keys) }
{
    let mut list = Vec::new(alloc);
    for name in names {
        list.push(name)?;
    }
    Ok(list)
}

/// Names in the order of their bytes, each once, as a list.
fn named_sources(alloc: Global, names: &[String]) -> Result<Vec<String>, AllocError>
    ensures { IfOk result (λ list. map string_bytes list.items ≡ each_once (map string_bytes names.now)) }
{
    let named = in_order(alloc, names)?;
    listed(alloc, named)
}

/// The source packages of which a suite shows an item, by its position, as a list; in the order of their bytes, each once.
fn all_sources(alloc: Global, shelves: &Shelves, suite: usize) -> Result<Vec<String>, AllocError>
    ensures { IfOk result (λ list. map string_bytes list.items ≡ each_once (sources_on shelves.now suite)) }
{
    let shown = shown_sources(alloc, shelves, suite)?;
    listed(alloc, shown)
}

/// The source packages of a promotion from a suite, by its position: those that are named, or else all of which it shows an
/// item; in the order of their bytes, each once.
pub fn sources_of(
    alloc: Global,
    shelves: &Shelves,
    from: usize,
    sources: &Option<Vec<String>>,
) -> Result<Vec<String>, AllocError>
    ensures { IfOk result (λ list. map string_bytes list.items ≡ sources_from shelves.now from (names_given sources.now)) }
{
    match sources {
        Some(sources) => named_sources(alloc, sources),
        None => all_sources(alloc, shelves, from),
    }
}

/// Adds a shelf to those of a source package.
fn add_key(
    alloc: Global,
    groups: &mut BTreeMap<String, Vec<ShelfKey>>,
    source: &str,
    key: &ShelfKey,
) -> Result<(), AllocError>
    ensures { OnOk result ((q : List ℕ) → group_in (get_by_text groups.new q) ≡ group_in (get_by_text groups.old q) ++ cond (bytes_eq source.now q) (key.now ∷ []) []) }
{
    add_to_group(alloc, groups, source, key.try_clone()?)
}

/// Adds a shelf to those of a source package, if it passes.
fn add_key_if(
    alloc: Global,
    groups: &mut BTreeMap<String, Vec<ShelfKey>>,
    passes: bool,
    source: &str,
    key: &ShelfKey,
) -> Result<(), AllocError>
    ensures { OnOk result ((q : List ℕ) → group_in (get_by_text groups.new q) ≡ cond passes (group_in (get_by_text groups.old q) ++ cond (bytes_eq source.now q) (key.now ∷ []) []) (group_in (get_by_text groups.old q))) }
{
    if passes {
        add_key(alloc, groups, source, key)?;
    }
    Ok(())
}

/// The shelves of a suite, by its position, in groups: for each source package those of its items, in their order.
pub fn groups_of(
    alloc: Global,
    shelves: &Shelves,
    suite: usize,
) -> Result<BTreeMap<String, Vec<ShelfKey>>, AllocError>
    ensures { IfOk result (λ groups. (q : List ℕ) → group_in (get_by_text groups q) ≡ shelves_of shelves.now suite q) }
{
    let mut groups = BTreeMap::new(alloc);
    for (key, item) in shelves.items() {
        let is_shown = is_in(suite, key);
        add_key_if(alloc, &mut groups, is_shown, item.source.as_str(), key)?;
    }
    Ok(groups)
}

/// Whether there is a shelf.
fn is_any(keys: &[ShelfKey]) -> bool
    ensures { result ≡ not (length keys.now == 0) }
{
    !keys.is_empty()
}

/// The step of a copy of the items of a source package between two suites, by their positions, made on the shelves. If the
/// first suite shows no item of it the step changes nothing. The items are on these shelves.
fn copy_step(
    alloc: Global,
    config: &Config,
    shelves: &mut Shelves,
    from: usize,
    to: usize,
    source: &str,
    keys: &[ShelfKey],
) -> Result<Step, AllocError>
    requires from { from < length config.now.suites }
    requires to { to < length config.now.suites }
    requires keys { keys.now ≡ shelves_of shelves.old from source.now }
    ensures step { IfOk result (IsCopyStep config.now shelves.old from to source.now) }
    ensures shelves { OnOk result (shelves.new ≡ after_copy config.now shelves.old from to source.now) }
    ensures told { AreTold config.now.suites shelves.old → AreTold config.now.suites (after_copy config.now shelves.old from to source.now) }
{
    let plan = plan_copy_of(alloc, config, shelves, from, to, source, keys)?;
    shelves.apply(alloc, &plan)?;
    Ok(Step {
        judgement: None,
        plan,
    })
}

/// The number of items that a step puts, if the source package is shown.
fn items_of(is_shown: bool, step: &Step) -> Option<u64>
    ensures { result ≡ if is_shown then Some (length step.now.plan.put) else None }
{
    if is_shown {
        Some(step.plan.put.as_slice().len() as u64)
    } else {
        None
    }
}

/// The steps of copies, and the answer of each copy.
#[derive(Drop)]
pub struct Copied {
    pub made: Vec<Step>,
    pub copies: Vec<SourceCopy>,
}

/// Copies the items of each source package in turn from one suite to another, by their positions. Each copy starts from the
/// shelves that the copies before it left. The groups are the shelves of the first suite, which no copy changes.
pub fn copied_steps(
    alloc: Global,
    config: &Config,
    shelves: &mut Shelves,
    from: usize,
    to: usize,
    sources: &[String],
    groups: &BTreeMap<String, Vec<ShelfKey>>,
) -> Result<Copied, AllocError>
    requires from { from < length config.now.suites }
    requires to { to < length config.now.suites }
    requires other { nat_eq from to ≡ false }
    requires groups { (q : List ℕ) → group_in (get_by_text groups.now q) ≡ shelves_of shelves.old from q }
    ensures steps { IfOk result (λ copied. AreCopied config.now from to shelves.old (map string_bytes sources.now) copied.made.items) }
    ensures copies { IfOk result (λ copied. map copy_of copied.copies.items ≡ copies_on config.now from to shelves.old (map string_bytes sources.now) copied.made.items) }
    ensures shelves { OnOk result (shelves.new ≡ after_copies config.now from to shelves.old (map string_bytes sources.now)) }
    ensures sound { AreSound shelves.old }
    // If records describe all that is shown, they still do so afterwards.
    ensures told { OnOk result (AreTold config.now.suites shelves.old → AreTold config.now.suites (after_copies config.now from to shelves.old (map string_bytes sources.now))) }
{
    // For the prover alone: the shelves are sound.
    shelves.agree();
    let mut steps = Vec::new(alloc);
    let mut copies = Vec::new(alloc);
    for source in sources {
        let name = source.as_str();
        let keys = group_of(groups, name);
        let is_shown = is_any(keys);
        let step = copy_step(alloc, config, shelves, from, to, name, keys)?;
        let items = items_of(is_shown, &step);
        let copy = SourceCopy {
            source: String::from_str(alloc, name)?,
            items,
        };
        copies.push(copy)?;
        steps.push(step)?;
    }
    Ok(Copied {
        made: steps,
        copies,
    })
}

/// A line on a copy: `COUNT SOURCE`, or `refused Q8 SOURCE` if nothing is shown of the source package.
fn copy_line(alloc: Global, items: Option<u64>, source: &str) -> Result<String, AllocError>
    ensures { IfOk result (λ line. string_bytes line ≡ line_on_copy items source.now) }
{
    match items {
        Some(items) => format!(in alloc; "{items} {source}"),
        None => format!(in alloc; "refused Q8 {source}"),
    }
}

/// A line on each copy.
pub fn copy_lines(alloc: Global, copies: &[SourceCopy]) -> Result<Vec<String>, AllocError>
    ensures { IfOk result (λ lines. map string_bytes lines.items ≡ map copy_line (map copy_of copies.now)) }
{
    let mut lines = Vec::new(alloc);
    for copy in copies {
        let line = copy_line(alloc, copy.items, copy.source.as_str())?;
        lines.push(line)?;
    }
    Ok(lines)
}
