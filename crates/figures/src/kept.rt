//! What is kept: arrivals, and contents with their bytes.

ghost use Rattle.std.specs.Prelude.{◌≡◌, ◌≤◌, ◌<◌, ◌+◌, ◌^◌, ◌++◌, ◌∷◌, List, IfOk, OnOk, length, map, not};
ghost use Rattle.std.specs.List.{list_any};
ghost use Rattle.sums.specs.Prints.{same_print};
ghost use Rattle.sums.specs.declared.print.Print.{Print as PrintValue};
ghost use Rattle.figures.specs.Families.{kept_families};
ghost use Rattle.figures.specs.Keys.{HasPrints};
ghost use Rattle.figures.specs.Numbers.{bytes_of, each_once, kept_prints, shown_prints};

use crate::family::{Family, Figure, lone_family};
use crate::key::PrintKey;
use book::ArrivedFile;
use std::alloc::{AllocError, Global};
use std::collections::BTreeSet;
use suites::{PoolFile, Shelves};
use sums::Print;

/// How many contents there are, and their bytes.
#[derive(Clone, Copy)]
struct Contents {
    count: u64,
    bytes: u64,
}

/// Appends the prints of what has arrived.
fn push_arrived(arrived: &[ArrivedFile], prints: &mut Vec<Print>) -> Result<(), AllocError>
    ensures { OnOk result (prints.new.items ≡ prints.old.items ++ map (λ f. f.print) arrived.now) }
{
    for file in arrived {
        prints.push(file.print)?;
    }
    Ok(())
}

/// Appends the prints of files of the pool.
fn push_files(files: &[PoolFile], prints: &mut Vec<Print>) -> Result<(), AllocError>
    ensures { OnOk result (prints.new.items ≡ prints.old.items ++ map (λ f. f.print) files.now) }
{
    for file in files {
        prints.push(file.print)?;
    }
    Ok(())
}

/// Appends the prints of the files of what the suites show.
fn push_shown(shelves: &Shelves, prints: &mut Vec<Print>) -> Result<(), AllocError>
    ensures { OnOk result (prints.new.items ≡ prints.old.items ++ shown_prints shelves.now) }
{
    for (_, item) in shelves.items() {
        push_files(item.files.as_slice(), prints)?;
    }
    Ok(())
}

/// Adds a print, and says whether it is new.
fn add_print(seen: &mut BTreeSet<PrintKey>, print: &Print) -> Result<bool, AllocError>
    ensures new { IfOk result (λ new. (prints : List PrintValue) → HasPrints seen.old prints → new ≡ not (list_any (same_print print.now) prints)) }
    ensures seen { OnOk result ((prints : List PrintValue) → HasPrints seen.old prints → HasPrints seen.new (print.now ∷ prints)) }
{
    Ok(seen.insert(PrintKey { print: *print })?)
}

/// Adds the contents of a print, unless they are there already.
fn add_contents(
    seen: &mut BTreeSet<PrintKey>,
    contents: Contents,
    print: &Print,
) -> Result<Contents, AllocError>
    requires { contents.count + 1 < 2 ^ 64 }
    ensures seen { OnOk result ((prints : List PrintValue) → HasPrints seen.old prints → HasPrints seen.new (print.now ∷ prints)) }
    ensures count { IfOk result (λ more. (prints : List PrintValue) → HasPrints seen.old prints
        → contents.count ≡ length (each_once prints) → more.count ≡ length (each_once (print.now ∷ prints))) }
    ensures bytes { IfOk result (λ more. (prints : List PrintValue) → HasPrints seen.old prints
        → contents.bytes ≡ bytes_of (each_once prints) → more.bytes ≡ bytes_of (each_once (print.now ∷ prints))) }
    ensures bound { IfOk result (λ more. more.count ≤ contents.count + 1) }
{
    if !add_print(seen, print)? {
        return Ok(contents);
    }
    Ok(Contents {
        count: contents.count + 1,
        bytes: contents.bytes.saturating_add(print.size),
    })
}

/// How many contents have these prints, and their bytes, each once.
fn contents_of(alloc: Global, prints: &[Print]) -> Result<Contents, AllocError>
    ensures count { IfOk result (λ contents. contents.count ≡ length (each_once prints.now)) }
    ensures bytes { IfOk result (λ contents. contents.bytes ≡ bytes_of (each_once prints.now)) }
{
    let mut seen = BTreeSet::new(alloc);
    let mut contents = Contents { count: 0, bytes: 0 };
    let mut left = prints.len();
    while left > 0 {
        left -= 1;
        contents = add_contents(&mut seen, contents, &prints[left])?;
    }
    Ok(contents)
}

/// How many contents are kept, and their bytes.
#[tactic(auto, unfolding(crate::specs::Numbers::kept_prints))]
fn contents_kept(
    alloc: Global,
    arrived: &[ArrivedFile],
    shelves: &Shelves,
) -> Result<Contents, AllocError>
    ensures count { IfOk result (λ contents. contents.count ≡ length (kept_prints arrived.now shelves.now)) }
    ensures bytes { IfOk result (λ contents. contents.bytes ≡ bytes_of (kept_prints arrived.now shelves.now)) }
{
    let mut prints = Vec::new(alloc);
    push_arrived(arrived, &mut prints)?;
    push_shown(shelves, &mut prints)?;
    contents_of(alloc, &prints)
}

/// Appends how many arrivals and contents are kept, and their bytes.
pub fn push_kept(
    alloc: Global,
    arrived: &[ArrivedFile],
    shelves: &Shelves,
    families: &mut Vec<Family>,
) -> Result<(), AllocError>
    ensures { OnOk result (families.new.items ≡ families.old.items ++ kept_families arrived.now shelves.now) }
{
    let contents = contents_kept(alloc, arrived, shelves)?;
    families.push(lone_family(alloc, Figure::Arrivals, arrived.len() as u64)?)?;
    families.push(lone_family(alloc, Figure::Bodies, contents.count)?)?;
    families.push(lone_family(alloc, Figure::Bytes, contents.bytes)?)?;
    Ok(())
}
