//! An upload whose listed files have all arrived.
//!
//! An upload keeps the bodies of its .dsc and its sidecars. Of every other file it keeps the print alone.
//!
//! From `Upload::lists_once`, which has an empty body, the prover knows what always holds of an upload.

ghost use Rattle.std.specs.Prelude.{◌≡◌, IfOk, map, filter, zip, option_copied};
ghost use Rattle.suites.specs.Upload.{IsUpload, has_suffix, has_text as keeps_text, entry_named as named_entry, parts_with};

use para::{Listed, Text};
use records::Changes;
use std::alloc::{AllocError, Global};
use std::marker::Model;
use sums::{Entry, Print};

/// A .changes and what has arrived of the files that it lists. It keeps the bodies of the .dsc and the sidecars; of
/// every other file the record has the print.
#[derive(Drop)]
pub struct Upload {
    name: Text,
    print: Print,
    changes: Changes,
    /// A text for each listed file, in the order of the list: its body if it is a .dsc or a sidecar, else nothing.
    texts: Listed<Listed<u8>>,
}

impl Model for Upload {
    ghost use Rattle.suites.specs.Upload.{UploadValue, IsUpload};

    ghost Value = { UploadValue };

    ghost view = { λ u. record { name = u.name; print = u.print; changes = u.changes; texts = u.texts } };

    ghost invariant = { λ u. IsUpload (record { name = u.name; print = u.print; changes = u.changes; texts = u.texts }) };
}

/// A listed file of an upload: its entry in the .changes, and its text if it is a .dsc or a sidecar.
#[derive(Clone, Copy)]
pub struct Part<'a> {
    pub entry: &'a Entry,
    pub text: &'a [u8],
}

impl Upload {
    /// An upload of a .changes of this name and print, with a text for each of its entries: the body of a .dsc or a
    /// sidecar, and nothing for any other file.
    pub fn new(name: Text, print: Print, changes: Changes, texts: Vec<Listed<u8>>) -> Upload
        requires { IsUpload (record { name = name; print = print; changes = changes; texts = texts.items }) }
        ensures { result ≡ record { name = name; print = print; changes = changes; texts = texts.items } }
    {
        Upload {
            name,
            print,
            changes,
            texts: Listed::from_vec(texts),
        }
    }

    /// The name of the .changes.
    pub fn name(&self) -> &str
        ensures { result.now ≡ self.now.name }
    {
        self.name.as_str()
    }

    /// The print of the .changes.
    pub fn print(&self) -> Print
        ensures { result ≡ self.now.print }
    {
        self.print
    }

    /// Each listed file has its text, and no two have the same name. For the prover alone: the law is the contract.
    pub fn lists_once(&self)
        ensures { IsUpload self.now }
    {
        let _ = &self.texts;
    }

    pub fn changes(&self) -> &Changes
        ensures { result.now ≡ self.now.changes }
    {
        &self.changes
    }

    /// The listed files whose names have this ending, with their texts.
    pub fn parts(&self, alloc: Global, ending: &str) -> Result<Vec<Part<'_>>, AllocError>
        ensures { IfOk result (λ parts. map (λ p. (p.entry.now, p.text.now)) parts.items ≡ parts_with ending.now self.now) }
    {
        parts_of(alloc, self.changes.entries(), self.texts.as_slice(), ending)
    }
}

/// The entries whose names have this ending, each with its text.
fn parts_of<'a>(
    alloc: Global,
    entries: &'a [Entry],
    texts: &'a [Listed<u8>],
    ending: &str,
) -> Result<Vec<Part<'a>>, AllocError>
    ensures { IfOk result (λ parts. map (λ p. (p.entry.now, p.text.now)) parts.items ≡ filter (λ p. has_suffix ending.now p.0.name) (zip entries.now texts.now)) }
{
    let mut parts = Vec::new(alloc);
    for (entry, text) in entries.iter().zip(texts) {
        if has_suffix(entry.name.as_str(), ending) {
            parts.push(Part {
                entry,
                text: text.as_slice(),
            })?;
        }
    }
    Ok(parts)
}

/// Whether a name has this ending.
#[tactic(auto, unfolding(crate::specs::Upload::has_suffix))]
pub fn has_suffix(name: &str, ending: &str) -> bool
    ensures { result ≡ has_suffix ending.now name.now }
{
    name.as_bytes().ends_with(ending.as_bytes())
}

/// Whether a listed file's body is kept with its upload: a .dsc or a sidecar.
#[tactic(auto, unfolding(crate::specs::Upload::has_text))]
pub fn has_text(name: &str) -> bool
    ensures { result ≡ keeps_text name.now }
{
    has_suffix(name, ".dsc") || has_suffix(name, ".control")
}

/// The entry of a name.
#[tactic(auto, unfolding(crate::specs::Upload::entry_named))]
pub fn entry_named<'a>(entries: &'a [Entry], name: &str) -> Option<&'a Entry>
    ensures { option_copied result ≡ named_entry name.now entries.now }
{
    entries.iter().find(|entry| entry.name.as_str() == name)
}
