//! The stanzas that were rendered last.
//!
//! A run renders each index that it changes, and most stanzas of such an index stay as they are. To render
//! a stanza takes far longer than to copy it. So the archive keeps each stanza that it rendered, with what it was made of
//! (`Rendered`). When an index is rendered again, an item that is made of the same gets its stanza by a copy. The contract of
//! `listed_text_of` says that a text is that of the shelves, whatever is kept: by the type's invariant, a stanza that is kept is the stanza
//! of every item that is made of the same.
//!
//! For each shelf at most one stanza is kept, also if several indices list its item. It goes when an index of its suite is rendered after
//! its shelf was emptied. So no more is kept than what the suites show: for each item its stanza, its paragraph, the names and prints of its
//! files, and a few hundred bytes beside these.

ghost use Rattle.std.specs.Prelude.{◌≡◌, ◌↔◌, ◌++◌, ◌<◌, [], true, length, if◌then◌else◌, IfOk, IfSome, IsTrue, OnOk};
ghost use Rattle.indices.specs.Release.{listed_text};
ghost use Rattle.renewing.specs.Stanzas.{inputs_of, is_in_index, kind_of, stanza_of, stanzas_of};
ghost use Rattle.suites.specs.declared.item.Item.{Item as ItemValue};

use indices::{lists_package, lists_source};
use para::{Listed, Text};
use std::alloc::{AllocError, Global};
use std::cmp::Ordering;
use std::collections::VecDeque;
use suites::{Item, Kind, PoolFile, ShelfKey, Shelves, are_same_files, copied_files};
use texts::{package_stanza, source_stanza};

/// The number of new stanzas for which there is room at once. The room grows if there are more.
const MORE: usize = 16;

/// What the stanza of an item is made of.
#[derive(Drop)]
pub struct Inputs {
    pub paragraph: Text,
    pub component: Text,
    pub source: Text,
    pub files: Listed<PoolFile>,
}

/// A stanza that was rendered for an item of this kind, whose shelf has this package and this architecture.
#[derive(Drop)]
pub struct Rendered {
    kind: Kind,
    package: Text,
    architecture: Text,
    inputs: Inputs,
    stanza: Listed<u8>,
    ghost is: { (item : ItemValue) → inputs_of item ≡ inputs → stanza ≡ stanza_of kind item },
}

/// The stanzas that were rendered for items of a kind in the suite at a position, in the order of their shelves.
#[derive(Drop)]
pub struct Group {
    suite: usize,
    kind: Kind,
    stanzas: VecDeque<Rendered>,
}

/// The stanzas that were rendered last, at most one for each shelf.
#[derive(Drop)]
pub struct Stanzas {
    groups: Vec<Group>,
}

/// Which items an index lists: those of a suite, a kind and a component, and if they are packages, those of an architecture or of all.
#[derive(Clone, Copy)]
struct Listing<'a> {
    suite: usize,
    kind: Kind,
    component: &'a str,
    architecture: &'a str,
}

impl Inputs {
    /// Copies of what the stanza of an item is made of.
    fn new(alloc: Global, item: &Item) -> Result<Inputs, AllocError>
        ensures { IfOk result (λ inputs. inputs ≡ inputs_of item.now) }
    {
        Ok(Inputs {
            paragraph: item.paragraph.try_clone()?,
            component: item.component.try_clone()?,
            source: item.source.try_clone()?,
            files: copied_files(alloc, item.files.as_slice())?,
        })
    }

    /// Whether the stanza of an item is made of the same.
    fn are_of(&self, item: &Item) -> bool
        ensures { IsTrue result ↔ inputs_of item.now ≡ self.now }
    {
        let paragraph = item.paragraph.as_str() == self.paragraph.as_str();
        let component = item.component.as_str() == self.component.as_str();
        let source = item.source.as_str() == self.source.as_str();
        let files = are_same_files(item.files.as_slice(), self.files.as_slice());
        paragraph && component && source && files
    }
}

/// Renders the stanza of an item of a kind.
#[tactic(auto, unfolding(crate::specs::Stanzas::stanza_of))]
fn stanza_of(alloc: Global, kind: Kind, item: &Item) -> Result<Vec<u8>, AllocError>
    ensures { IfOk result (λ stanza. stanza.items ≡ stanza_of kind item.now) }
{
    match kind {
        Kind::Source => source_stanza(alloc, item),
        Kind::Binary => package_stanza(alloc, item),
    }
}

impl Rendered {
    /// Renders the stanza of an item of a kind, which stands on a shelf.
    #[tactic(auto, using(crate::proofs::StanzaLemmas::same_stanza))]
    fn new(alloc: Global, kind: Kind, key: &ShelfKey, item: &Item) -> Result<Rendered, AllocError>
        ensures { IfOk result (λ rendered. rendered.stanza ≡ stanza_of kind item.now) }
    {
        let stanza = stanza_of(alloc, kind, item)?;
        Ok(Rendered {
            kind,
            package: key.package.try_clone()?,
            architecture: key.architecture.try_clone()?,
            inputs: Inputs::new(alloc, item)?,
            // A copy has no more room than it needs.
            stanza: Listed::from_vec(Vec::from_slice(alloc, &stanza)?),
        })
    }

    /// Whether this stanza was rendered for an item of the kind that is made of the same, so that it is the stanza of this item.
    fn is_of(&self, kind: Kind, item: &Item) -> bool
        ensures { result ≡ true → self.now.stanza ≡ stanza_of kind item.now }
    {
        let same_kind = self.kind == kind;
        let same_inputs = self.inputs.are_of(item);
        same_kind && same_inputs
    }
}

/// Where the shelf of the first stanza stands to a shelf of the same suite and kind. If there is no stanza, it stands after that shelf.
fn first_to(stanzas: &VecDeque<Rendered>, key: &ShelfKey) -> Ordering {
    let Some(first) = stanzas.front() else {
        return Ordering::Greater;
    };
    // Most packages differ, and then no architecture is looked at.
    match first.package.as_str().cmp(key.package.as_str()) {
        Ordering::Equal => first.architecture.as_str().cmp(key.architecture.as_str()),
        unlike => unlike,
    }
}

/// Takes out the stanza that was rendered for a shelf. It drops the stanzas before it: their shelves are empty, if no shelf before this one
/// is left to come.
fn take_at(stanzas: &mut VecDeque<Rendered>, key: &ShelfKey) -> Option<Rendered> {
    for _ in 0..stanzas.len() {
        match first_to(stanzas, key) {
            Ordering::Less => {
                let _ = stanzas.pop_front();
            }
            Ordering::Equal => return stanzas.pop_front(),
            Ordering::Greater => return None,
        }
    }
    None
}

/// The stanza of an item of a kind, which stands on a shelf: the known one, if it is of an item that is made of the same, else one that is
/// rendered.
fn stanza_at(
    alloc: Global,
    known: Option<Rendered>,
    kind: Kind,
    key: &ShelfKey,
    item: &Item,
) -> Result<Rendered, AllocError>
    ensures { IfOk result (λ rendered. rendered.stanza ≡ stanza_of kind item.now) }
{
    if let Some(known) = known {
        if known.is_of(kind, item) {
            return Ok(known);
        }
    }
    Rendered::new(alloc, kind, key, item)
}

/// Whether the index lists the item, which stands on the shelf.
#[tactic(auto, unfolding(crate::specs::Stanzas::is_in_index))]
fn is_in_index(listing: &Listing<'_>, key: &ShelfKey, item: &Item) -> bool
    ensures { result ≡ is_in_index listing.now.kind listing.now.suite listing.now.component.now listing.now.architecture.now (key.now, item.now) }
{
    let suite = listing.suite;
    match listing.kind {
        Kind::Source => lists_source(key, item, suite, listing.component),
        Kind::Binary => lists_package(key, item, suite, listing.component, listing.architecture),
    }
}

/// Keeps what was rendered for a shelf whose item an index does not list, as another index of the suite may list it.
fn keep_unlisted(
    known: &mut VecDeque<Rendered>,
    kept: &mut VecDeque<Rendered>,
    listing: &Listing<'_>,
    key: &ShelfKey,
) -> Result<(), AllocError> {
    if key.suite != listing.suite || key.kind != listing.kind {
        return Ok(());
    }
    if let Some(rendered) = take_at(known, key) {
        kept.push_back(rendered)?;
    }
    Ok(())
}

/// Appends the stanza of a shelf's item if the index lists it, else nothing. What was rendered for the shelf goes from the known stanzas to
/// the kept ones.
fn push_listed(
    alloc: Global,
    known: &mut VecDeque<Rendered>,
    kept: &mut VecDeque<Rendered>,
    listing: &Listing<'_>,
    key: &ShelfKey,
    item: &Item,
    out: &mut Vec<u8>,
) -> Result<(), AllocError>
    ensures { OnOk result (out.new.items ≡ out.old.items ++ (if is_in_index listing.now.kind listing.now.suite listing.now.component.now listing.now.architecture.now (key.now, item.now) then stanza_of listing.now.kind item.now else [])) }
{
    if is_in_index(listing, key, item) {
        let found = take_at(known, key);
        let rendered = stanza_at(alloc, found, listing.kind, key, item)?;
        out.extend_from_slice(rendered.stanza.as_slice())?;
        kept.push_back(rendered)?;
    } else {
        keep_unlisted(known, kept, listing, key)?;
    }
    Ok(())
}

/// Which of these groups has the items of a kind in the suite at a position.
fn position_of(groups: &[Group], suite: usize, kind: Kind) -> Option<usize>
    ensures { IfSome result (λ position. position < length groups.now) }
{
    for (position, group) in groups.iter().enumerate() {
        if group.suite == suite && group.kind == kind {
            return Some(position);
        }
    }
    None
}

impl Stanzas {
    /// No stanzas.
    pub(crate) fn new(alloc: Global) -> Stanzas {
        Stanzas {
            groups: Vec::new(alloc),
        }
    }

    /// Takes out the stanzas that were rendered for items of a kind in the suite at a position.
    fn take_group(&mut self, alloc: Global, suite: usize, kind: Kind) -> VecDeque<Rendered> {
        match position_of(self.groups.as_slice(), suite, kind) {
            Some(position) => {
                let Group {
                    suite: _,
                    kind: _,
                    stanzas,
                } = self.groups.swap_remove(position);
                stanzas
            }
            None => VecDeque::new(alloc),
        }
    }
}

/// The stanzas of the items that an index lists, one after another. If memory runs out, what was rendered for this suite and kind is
/// forgotten, and rendered again when it is next asked for.
#[tactic(auto, unfolding(crate::specs::Stanzas::stanzas_of))]
fn stanzas_of(
    alloc: Global,
    stanzas: &mut Stanzas,
    shelves: &Shelves,
    listing: &Listing<'_>,
) -> Result<Vec<u8>, AllocError>
    ensures { IfOk result (λ text. text.items ≡ stanzas_of listing.now.kind shelves.now listing.now.suite listing.now.component.now listing.now.architecture.now) }
{
    let mut known = stanzas.take_group(alloc, listing.suite, listing.kind);
    let mut kept = VecDeque::with_capacity(alloc, known.len().saturating_add(MORE))?;
    let mut text = Vec::new(alloc);
    for (key, item) in shelves.items() {
        push_listed(alloc, &mut known, &mut kept, listing, key, item, &mut text)?;
    }
    stanzas.groups.push(Group {
        suite: listing.suite,
        kind: listing.kind,
        stanzas: kept,
    })?;
    Ok(text)
}

/// The kind of the items that the index of an architecture lists.
fn kind_of(architecture: &str) -> Kind
    ensures { result ≡ kind_of architecture.now }
{
    if architecture == "source" {
        Kind::Source
    } else {
        Kind::Binary
    }
}

/// The text of an index other than Release, of the suite at a position. It takes the stanzas of items that did not change from those that
/// were rendered before, and keeps the others.
pub(crate) fn listed_text_of(
    alloc: Global,
    stanzas: &mut Stanzas,
    shelves: &Shelves,
    suite: usize,
    component: &str,
    architecture: &str,
) -> Result<Vec<u8>, AllocError>
    ensures { IfOk result (λ text. text.items ≡ listed_text shelves.now suite component.now architecture.now) }
{
    let listing = Listing {
        suite,
        kind: kind_of(architecture),
        component,
        architecture,
    };
    stanzas_of(alloc, stanzas, shelves, &listing)
}
