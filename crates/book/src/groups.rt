//! Values in groups: under each name those that were added under it, in their order.

ghost use Rattle.std.specs.Prelude.{◌≡◌, ◌++◌, ◌∷◌, [], ℕ, List, false, bytes_eq, cond, OnOk};
ghost use Rattle.std.specs.BTreeMap.{get_by_text};
ghost use Rattle.book.specs.Groups.{group_in};

use std::alloc::{AllocError, Global};
use std::collections::BTreeMap;

/// Takes the group of a name out of the groups.
fn take_group<T: Drop>(alloc: Global, groups: &mut BTreeMap<String, Vec<T>>, name: &str) -> Vec<T>
    ensures group { result.items ≡ group_in (get_by_text groups.old name.now) }
    ensures others { (q : List ℕ) → bytes_eq name.now q ≡ false → get_by_text groups.new q ≡ get_by_text groups.old q }
{
    match groups.remove(name) {
        Some(group) => group,
        None => Vec::new(alloc),
    }
}

/// Adds a value to the group of a name.
pub fn add_to_group<T: Drop>(
    alloc: Global,
    groups: &mut BTreeMap<String, Vec<T>>,
    name: &str,
    value: T,
) -> Result<(), AllocError>
    ensures { OnOk result ((q : List ℕ) → group_in (get_by_text groups.new q)
        ≡ group_in (get_by_text groups.old q) ++ cond (bytes_eq name.now q) (value ∷ []) []) }
{
    let mut group = take_group(alloc, groups, name);
    group.push(value)?;
    let owned = String::from_str(alloc, name)?;
    groups.insert(owned, group)?;
    Ok(())
}

/// The group of a name.
pub fn group_of<'g, T>(groups: &'g BTreeMap<String, Vec<T>>, name: &str) -> &'g [T]
    ensures { result.now ≡ group_in (get_by_text groups.now name.now) }
{
    match groups.get(name) {
        Some(group) => group.as_slice(),
        None => &[],
    }
}
