//! What all suites show, and the pool of its files.
//!
//! What all suites show is one map, in order, by suite, kind, package and architecture. Beside it is the pool: a map, in order, from a path
//! to a print and how many items refer to it. References are counted in 64 bits. One more than these hold is refused like want of memory:
//! no machine has that number of references, since each is an element of a list.
//!
//! A caller knows what always holds of this type only from the clause of a call: `Shelves::agree`, with an empty body, is that call.

ghost use Rattle.std.specs.Prelude.{◌≡◌, ℕ, ◌<◌, T, List, [], ◌∷◌, OnOk, OnErr, IfOk, IfSome, None, true, bytes_eq, option_copied, map, fold, cond, All};
ghost use Rattle.std.specs.BTreeMap.{IsOrdered, get_by_text};
ghost use Rattle.std.specs.FinMap.{empty, get, insert, remove, contains_key, entries, values, from_entries, is_sorted};
ghost use Rattle.std.specs.List.{list_any};
ghost use Rattle.std.specs.Ordering.{eq_by_cmp};
ghost use Rattle.suites.specs.Admission.{MayJoin};
ghost use Rattle.suites.specs.Applying.{AreArrivals, leaving, one_more, one_less, with_reference, without_reference, with_file, without_file, with_print};
ghost use Rattle.suites.specs.Change.{without, with_all};
ghost use Rattle.suites.specs.Counts.{count_at, Counts};
ghost use Rattle.suites.specs.Items.{IsAtHome};
ghost use Rattle.suites.specs.Keys.{key_order};
ghost use Rattle.suites.specs.Plan.{IsStep, applied};
ghost use Rattle.suites.specs.Pool.{files_of};
ghost use Rattle.suites.specs.Shelves.{AreSound, ShelvesValue, pool, is_covered, version_of};
ghost use Rattle.suites.specs.declared.key.ShelfKey.{ShelfKey};

use crate::item::{Item, PoolFile};
use crate::key::ShelfKey;
use crate::plan::{Plan, Reference};
use decisions::is_at_least;
use std::alloc::{AllocError, Global};
use std::collections::BTreeMap;
use std::marker::Model;
use sums::Print;

/// A file of the pool, and how many references shown items have to it.
#[derive(Clone, Copy)]
pub struct SharedFile {
    pub print: Print,
    pub references: u64,
}

/// The shown items of all suites, one a shelf, and the prints of the pool, which holds exactly their files.
#[derive(Drop)]
pub struct Shelves {
    items: BTreeMap<ShelfKey, Item>,
    files: BTreeMap<String, SharedFile>,
}

impl Model for Shelves {
    ghost use Rattle.std.specs.BTreeMap.{IsOrdered};
    ghost use Rattle.std.specs.FinMap.{FinMap, from_entries, code};
    ghost use Rattle.suites.specs.contracts.key.ShelfKey as key;
    ghost use Rattle.suites.specs.contracts.item.Item as item;
    ghost use Rattle.suites.specs.Counts.{Counts};
    ghost use Rattle.suites.specs.Keys.{key_order};
    ghost use Rattle.suites.specs.Shelves.{AreSound};
    ghost use Rattle.suites.specs.declared.item.Item.{Item};

    ghost Value = { FinMap key_order Item };

    ghost coded = { code key.the_row.coded item.the_row.coded };

    ghost view = { λ s. from_entries s.items.entries };

    ghost invariant = { λ s. AreSound (from_entries s.items.entries) × IsOrdered key_order s.items × Counts s.files (from_entries s.items.entries) };
}

/// Copies of what a plan puts: the items for new shelves, with their keys once more, and the items in the place of others.
#[derive(Drop)]
pub struct Arrivals {
    pub new_keys: Vec<ShelfKey>,
    pub new: Vec<(ShelfKey, Item)>,
    pub replacing: Vec<(ShelfKey, Item)>,
}

/// Another map of the same items.
fn copied_items(
    alloc: Global,
    items: &BTreeMap<ShelfKey, Item>,
) -> Result<BTreeMap<ShelfKey, Item>, AllocError>
    ensures { IfOk result (λ copy. copy.entries ≡ items.now.entries) }
{
    let mut copy = BTreeMap::new(alloc);
    for (key, item) in items {
        copy.insert(key.try_clone()?, item.try_clone(alloc)?)?;
    }
    Ok(copy)
}

/// Another map of the same files.
fn copied_files(
    alloc: Global,
    files: &BTreeMap<String, SharedFile>,
) -> Result<BTreeMap<String, SharedFile>, AllocError>
    ensures { IfOk result (λ copy. (path : List ℕ) → get_by_text copy path ≡ get_by_text files.now path) }
{
    let mut copy = BTreeMap::new(alloc);
    for (path, file) in files {
        copy.insert(path.clone()?, *file)?;
    }
    Ok(copy)
}

/// Copies of the key of a shelf and of an item.
fn copied(alloc: Global, key: &ShelfKey, item: &Item) -> Result<(ShelfKey, Item), AllocError>
    ensures { IfOk result (λ copy. copy ≡ (key.now, item.now)) }
{
    Ok((key.try_clone()?, item.try_clone(alloc)?))
}

/// Copies of what a plan puts on shelves that show these items.
fn copied_arrivals(
    alloc: Global,
    items: &BTreeMap<ShelfKey, Item>,
    put: &[(ShelfKey, Item)],
) -> Result<Arrivals, AllocError>
    ensures { IfOk result (AreArrivals (from_entries items.now.entries) put.now) }
{
    let mut new_keys = Vec::new(alloc);
    let mut new = Vec::new(alloc);
    let mut replacing = Vec::new(alloc);
    for (key, item) in put {
        let copy = copied(alloc, key, item)?;
        if items.contains_key(key) {
            replacing.push(copy)?;
        } else {
            new_keys.push(key.try_clone()?)?;
            new.push(copy)?;
        }
    }
    Ok(Arrivals {
        new_keys,
        new,
        replacing,
    })
}

/// Takes the item of a shelf away.
fn remove_item(items: &mut BTreeMap<ShelfKey, Item>, key: &ShelfKey)
    ensures removed { from_entries {R = key_order} items.new.entries ≡ remove (from_entries items.old.entries) key.now }
    ensures ordered { IsOrdered key_order items.new }
{
    items.remove(key);
}

/// Takes the items of these shelves away.
fn remove_items(items: &mut BTreeMap<ShelfKey, Item>, keys: &[ShelfKey])
    requires { IsOrdered key_order items.old }
    ensures removed { (q : ShelfKey) → get (from_entries {R = key_order} items.new.entries) q ≡ cond (list_any (eq_by_cmp key_order q) keys.now) None (get (from_entries {R = key_order} items.old.entries) q) }
    ensures ordered { IsOrdered key_order items.new }
{
    for key in keys {
        remove_item(items, key);
    }
}

/// Puts an item on a shelf.
fn insert_item(
    items: &mut BTreeMap<ShelfKey, Item>,
    key: ShelfKey,
    item: Item,
) -> Result<(), AllocError>
    ensures ok { OnOk result (from_entries {R = key_order} items.new.entries ≡ insert (from_entries items.old.entries) key item) }
    ensures err { OnErr result (from_entries {R = key_order} items.new.entries ≡ from_entries items.old.entries) }
    ensures absent { OnErr result (get (from_entries {R = key_order} items.old.entries) key ≡ None) }
    ensures ordered { IsOrdered key_order items.new }
{
    match items.insert(key, item) {
        Ok(_) => Ok(()),
        Err(_) => Err(AllocError),
    }
}

/// Puts items on shelves that have none. The keys are those of the items.
fn insert_new(
    items: &mut BTreeMap<ShelfKey, Item>,
    new: Vec<(ShelfKey, Item)>,
    keys: &[ShelfKey],
) -> Result<(), AllocError>
    requires keys { keys.now ≡ map (λ e. e.0) new.items }
    requires absent { All (λ e. get (from_entries {R = key_order} items.old.entries) e.0 ≡ None) new.items }
    requires ordered { IsOrdered key_order items.old }
    ensures ok { OnOk result (from_entries {R = key_order} items.new.entries ≡ with_all (from_entries items.old.entries) new.items) }
    ensures err { OnErr result (from_entries {R = key_order} items.new.entries ≡ from_entries items.old.entries) }
    ensures ordered { IsOrdered key_order items.new }
{
    for (key, item) in new {
        if insert_item(items, key, item).is_err() {
            remove_items(items, keys);
            return Err(AllocError);
        }
    }
    Ok(())
}

/// Puts items in the place of others, which takes no memory.
fn replace_items(items: &mut BTreeMap<ShelfKey, Item>, replacing: Vec<(ShelfKey, Item)>)
    requires present { All (λ e. contains_key (from_entries {R = key_order} items.old.entries) e.0 ≡ true) replacing.items }
    requires ordered { IsOrdered key_order items.old }
    ensures replaced { from_entries {R = key_order} items.new.entries ≡ with_all (from_entries items.old.entries) replacing.items }
    ensures ordered { IsOrdered key_order items.new }
{
    for (key, item) in replacing {
        let _ = insert_item(items, key, item);
    }
}

/// Takes the dropped items away, except those on whose shelves the plan puts others.
fn drop_items(items: &mut BTreeMap<ShelfKey, Item>, plan: &Plan)
    requires in_order { T (is_sorted key_order plan.now.put) }
    requires ordered { IsOrdered key_order items.old }
    ensures dropped { from_entries {R = key_order} items.new.entries ≡ without (from_entries items.old.entries) (leaving plan.now.put plan.now.dropped) }
    ensures ordered { IsOrdered key_order items.new }
{
    for (key, _) in plan.dropped.as_slice() {
        if !plan.puts(key) {
            remove_item(items, key);
        }
    }
}

/// Counts one more reference to the file at a path. More references than a `u64` counts are refused like want of memory.
fn add_reference(
    alloc: Global,
    files: &mut BTreeMap<String, SharedFile>,
    path: &str,
    print: Print,
) -> Result<(), AllocError>
    ensures ok { OnOk result ((q : List ℕ) → get_by_text files.new q ≡ cond (bytes_eq path.now q) (one_more print (get_by_text files.old q)) (get_by_text files.old q)) }
    ensures err { OnErr result ((q : List ℕ) → get_by_text files.new q ≡ get_by_text files.old q) }
{
    if let Some(file) = files.get_mut(path) {
        let Some(more) = file.references.checked_add(1) else {
            return Err(AllocError);
        };
        file.references = more;
        return Ok(());
    }
    let path = String::from_str(alloc, path)?;
    files.insert(
        path,
        SharedFile {
            print,
            references: 1,
        },
    )?;
    Ok(())
}

/// Counts one reference less to the file at a path. The file goes with its last reference.
fn drop_reference(files: &mut BTreeMap<String, SharedFile>, path: &str)
    ensures { (q : List ℕ) → get_by_text files.new q ≡ cond (bytes_eq path.now q) (one_less (get_by_text files.old q)) (get_by_text files.old q) }
{
    let Some(file) = files.get_mut(path) else {
        return;
    };
    if file.references > 1 {
        file.references -= 1;
        return;
    }
    files.remove(path);
}

/// Stops counting the references of dropped items.
fn drop_references(files: &mut BTreeMap<String, SharedFile>, dropped: &[Reference])
    ensures { (path : List ℕ) → get_by_text files.new path ≡ fold (without_reference path) (get_by_text files.old path) dropped.now }
{
    for reference in dropped {
        drop_reference(files, reference.path.as_str());
    }
}

/// Counts the references of put items.
fn add_references(
    alloc: Global,
    files: &mut BTreeMap<String, SharedFile>,
    put: &[Reference],
) -> Result<(), AllocError>
    requires { (path : List ℕ) → IfSome (get_by_text files.old path) (λ file. 0 < file.references) }
    ensures ok { OnOk result ((path : List ℕ) → get_by_text files.new path ≡ fold (with_reference path) (get_by_text files.old path) put.now) }
    ensures err { OnErr result ((path : List ℕ) → get_by_text files.new path ≡ get_by_text files.old path) }
{
    for (index, reference) in put.iter().enumerate() {
        if add_reference(alloc, files, reference.path.as_str(), reference.print).is_err() {
            drop_references(files, &put[..index]);
            return Err(AllocError);
        }
    }
    Ok(())
}

/// Stops counting the files of an item.
fn drop_files(files: &mut BTreeMap<String, SharedFile>, dropped: &[PoolFile])
    ensures { (path : List ℕ) → get_by_text files.new path ≡ fold (without_file path) (get_by_text files.old path) dropped.now }
{
    for file in dropped {
        drop_reference(files, file.path.as_str());
    }
}

/// Counts the files of an item.
fn add_files(
    alloc: Global,
    files: &mut BTreeMap<String, SharedFile>,
    put: &[PoolFile],
) -> Result<(), AllocError>
    requires { (path : List ℕ) → IfSome (get_by_text files.old path) (λ file. 0 < file.references) }
    ensures ok { OnOk result ((path : List ℕ) → get_by_text files.new path ≡ fold (with_file path) (get_by_text files.old path) put.now) }
    ensures err { OnErr result ((path : List ℕ) → get_by_text files.new path ≡ get_by_text files.old path) }
{
    for (index, file) in put.iter().enumerate() {
        if add_reference(alloc, files, file.path.as_str(), file.print).is_err() {
            drop_files(files, &put[..index]);
            return Err(AllocError);
        }
    }
    Ok(())
}

/// Gives a file that the pool gains its print. This changes the print if the pool also loses the path.
fn set_print(files: &mut BTreeMap<String, SharedFile>, added: &PoolFile)
    ensures { (path : List ℕ) → get_by_text files.new path ≡ with_print path (get_by_text files.old path) added.now }
{
    if let Some(file) = files.get_mut(added.path.as_str()) {
        file.print = added.print;
    }
}

/// Gives each file that the pool gains its print.
fn set_prints(files: &mut BTreeMap<String, SharedFile>, added: &[PoolFile])
    ensures { (path : List ℕ) → get_by_text files.new path ≡ fold (with_print path) (get_by_text files.old path) added.now }
{
    for file in added {
        set_print(files, file);
    }
}

impl Shelves {
    /// Shelves that show nothing.
    pub fn new(alloc: Global) -> Shelves
        ensures { result ≡ empty }
    {
        Shelves {
            items: BTreeMap::new(alloc),
            files: BTreeMap::new(alloc),
        }
    }

    /// The shown items in the order of their shelves: by suite, kind, package and architecture.
    pub fn items(&self) -> &BTreeMap<ShelfKey, Item>
        ensures { result.now.entries ≡ entries self.now }
    {
        &self.items
    }

    /// The files of the pool, in the order of their paths.
    pub fn files(&self) -> &BTreeMap<String, SharedFile>
        ensures { Counts result.now self.now }
    {
        &self.files
    }

    /// Other shelves that show the same.
    pub fn try_clone(&self, alloc: Global) -> Result<Shelves, AllocError>
        ensures { IfOk result (λ copy. copy ≡ self.now) }
    {
        let items = copied_items(alloc, &self.items)?;
        let files = copied_files(alloc, &self.files)?;
        Ok(Shelves { items, files })
    }

    /// Each item stands on its own shelf, and all agree on the contents at each path. For the prover alone: the law is the
    /// contract.
    pub fn agree(&self)
        ensures { AreSound self.now }
    {
        let _ = &self.items;
    }

    /// The item that stands on the shelf.
    pub fn get(&self, key: &ShelfKey) -> Option<&Item>
        ensures { option_copied result ≡ get self.now key.now }
    {
        self.items.get(key)
    }

    /// The print of the file that the pool holds at a path.
    pub fn file(&self, path: &str) -> Option<Print>
        ensures { result ≡ get (pool self.now) path.now }
    {
        match self.files.get(path) {
            Some(file) => Some(file.print),
            None => None,
        }
    }

    /// How many references shown items have to the file at a path.
    pub fn references(&self, path: &str) -> u64
        ensures { result ≡ count_at path.now (files_of (values self.now)) }
    {
        match self.files.get(path) {
            Some(file) => file.references,
            None => 0,
        }
    }

    /// Whether the shelf has an item of a version at least as great.
    #[tactic(auto, unfolding(crate::specs::Shelves::is_at_least))]
    pub fn covers(&self, key: &ShelfKey, item: &Item) -> bool
        ensures { result ≡ is_covered version_of self.now (key.now, item.now) }
    {
        match self.get(key) {
            Some(shown) => is_at_least(&shown.version, &item.version),
            None => false,
        }
    }

    /// Puts an item on its shelf, which is empty. Its files must be such as may join the pool. If memory runs out, the
    /// shelves show what they showed.
    pub fn put(&mut self, alloc: Global, key: ShelfKey, item: Item) -> Result<(), AllocError>
        requires home { IsAtHome (key, item) }
        requires free { get self.old key ≡ None }
        requires joins { MayJoin self.old ((key, item) ∷ []) }
        ensures ok { OnOk result (self.new ≡ insert self.old key item) }
        ensures err { OnErr result (self.new ≡ self.old) }
    {
        add_files(alloc, &mut self.files, item.files.as_slice())?;
        match self.items.insert(key, item) {
            Ok(_) => Ok(()),
            Err(refused) => {
                drop_files(&mut self.files, refused.value.1.files.as_slice());
                Err(AllocError)
            }
        }
    }

    /// Carries out a plan that was made for these shelves. If memory runs out, they show what they showed.
    pub fn apply(&mut self, alloc: Global, plan: &Plan) -> Result<(), AllocError>
        requires { (after : ShelvesValue) × IsStep self.old after plan.now }
        ensures ok { OnOk result (self.new ≡ applied self.old plan.now) }
        ensures err { OnErr result (self.new ≡ self.old) }
    {
        let Arrivals {
            new_keys,
            new,
            replacing,
        } = copied_arrivals(alloc, &self.items, plan.put.as_slice())?;
        add_references(alloc, &mut self.files, plan.references_put.as_slice())?;
        if insert_new(&mut self.items, new, &new_keys).is_err() {
            drop_references(&mut self.files, plan.references_put.as_slice());
            return Err(AllocError);
        }
        // From here on nothing takes memory.
        replace_items(&mut self.items, replacing);
        drop_items(&mut self.items, plan);
        drop_references(&mut self.files, plan.references_dropped.as_slice());
        set_prints(&mut self.files, plan.files_added.as_slice());
        Ok(())
    }
}
