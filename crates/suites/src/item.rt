//! What a suite shows: sources and packages, with their files.

ghost use Rattle.std.specs.Prelude.{◌≡◌, ◌↔◌, IfOk, IsTrue};

use crate::key::{Kind, ShelfKey};
use para::{Listed, Text};
use std::alloc::{AllocError, Global};
use sums::Print;
use vers::Version;

/// A file of the pool: its path, without a leading slash, and its print.
pub struct PoolFile {
    pub path: Text,
    pub print: Print,
}

// Written out, so that a caller does not prove again how each part is dropped.
impl Drop for PoolFile {
    fn drop(self) {
        let PoolFile { path: _, print: _ } = self;
    }
}

/// A source or a package of an accepted upload. The paragraph is the text of its .dsc or sidecar as delivered.
pub struct Item {
    pub kind: Kind,
    pub package: Text,
    pub architecture: Text,
    pub version: Version,
    pub component: Text,
    pub source: Text,
    pub paragraph: Text,
    pub files: Listed<PoolFile>,
}

// Written out, so that a caller does not prove again how each part is dropped.
impl Drop for Item {
    fn drop(self) {
        let Item {
            kind: _,
            package: _,
            architecture: _,
            version: _,
            component: _,
            source: _,
            paragraph: _,
            files: _,
        } = self;
    }
}

/// What an item says, besides its files.
#[derive(Clone, Copy)]
pub struct Said<'a> {
    pub kind: Kind,
    pub package: &'a str,
    pub architecture: &'a str,
    pub version: &'a Version,
    pub component: &'a str,
    pub source: &'a str,
    pub paragraph: &'a str,
}

/// Copies of the names that an item has.
#[derive(Drop)]
struct Names {
    package: Text,
    architecture: Text,
    component: Text,
    source: Text,
}

fn names_of(alloc: Global, said: &Said<'_>) -> Result<Names, AllocError>
    ensures { IfOk result (λ names. names ≡ record {
      «package» = said.now.«package».now;
      architecture = said.now.architecture.now;
      component = said.now.component.now;
      source = said.now.source.now;
    }) }
{
    Ok(Names {
        package: Text::new(alloc, said.package)?,
        architecture: Text::new(alloc, said.architecture)?,
        component: Text::new(alloc, said.component)?,
        source: Text::new(alloc, said.source)?,
    })
}

/// The item that says `said` and has these files.
pub fn item_with(
    alloc: Global,
    said: &Said<'_>,
    files: Listed<PoolFile>,
) -> Result<Item, AllocError>
    ensures { IfOk result (λ item. item ≡ record {
      kind = said.now.kind;
      «package» = said.now.«package».now;
      architecture = said.now.architecture.now;
      version = said.now.version.now;
      component = said.now.component.now;
      source = said.now.source.now;
      paragraph = said.now.paragraph.now;
      files = files;
    }) }
{
    let version = said.version.try_clone()?;
    let paragraph = Text::new(alloc, said.paragraph)?;
    let names = names_of(alloc, said)?;
    Ok(Item {
        kind: said.kind,
        package: names.package,
        architecture: names.architecture,
        version,
        component: names.component,
        source: names.source,
        paragraph,
        files,
    })
}

impl PoolFile {
    /// Another copy of the file's path and print.
    pub fn try_clone(&self) -> Result<PoolFile, AllocError>
        ensures { IfOk result (λ copy. copy ≡ self.now) }
    {
        Ok(PoolFile {
            path: self.path.try_clone()?,
            print: self.print,
        })
    }

    /// Whether this file and another have one path and one print.
    fn is_same(&self, other: &PoolFile) -> bool
        ensures { IsTrue result ↔ self.now ≡ other.now }
    {
        self.path.as_str() == other.path.as_str() && self.print == other.print
    }
}

/// Whether these files are the others, one after the other.
pub fn are_same_files(ones: &[PoolFile], others: &[PoolFile]) -> bool
    ensures { IsTrue result ↔ ones.now ≡ others.now }
{
    if ones.len() != others.len() {
        return false;
    }
    for (index, one) in ones.iter().enumerate() {
        if !one.is_same(&others[index]) {
            return false;
        }
    }
    true
}

/// Copies of files.
pub fn copied_files(alloc: Global, files: &[PoolFile]) -> Result<Listed<PoolFile>, AllocError>
    ensures { IfOk result (λ copies. copies ≡ files.now) }
{
    let mut copies = Vec::new(alloc);
    for file in files {
        copies.push(file.try_clone()?)?;
    }
    Ok(Listed::from_vec(copies))
}

impl Item {
    /// Another copy of the item.
    pub fn try_clone(&self, alloc: Global) -> Result<Item, AllocError>
        ensures { IfOk result (λ copy. copy ≡ self.now) }
    {
        let files = copied_files(alloc, self.files.as_slice())?;
        let said = Said {
            kind: self.kind,
            package: self.package.as_str(),
            architecture: self.architecture.as_str(),
            version: &self.version,
            component: self.component.as_str(),
            source: self.source.as_str(),
            paragraph: self.paragraph.as_str(),
        };
        item_with(alloc, &said, files)
    }

    /// The shelf where the item stands in a suite, which is a position in the configuration.
    pub fn shelf(&self, suite: usize) -> Result<ShelfKey, AllocError>
        ensures { IfOk result (λ key. key ≡ record { suite = suite; kind = self.now.kind; «package» = self.now.«package»; architecture = self.now.architecture }) }
    {
        Ok(ShelfKey {
            suite,
            kind: self.kind,
            package: self.package.try_clone()?,
            architecture: self.architecture.try_clone()?,
        })
    }
}
