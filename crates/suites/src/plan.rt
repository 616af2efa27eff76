//! The plan of a change: exactly what differs before and after it.
//!
//! A plan changes a suite's date if it puts or drops an item. A law says that the shown items then differ in their shelves or in the
//! texts of their versions: an item is replaced only by one of a greater version.

ghost use Rattle.std.specs.Prelude.{◌≡◌, T, [], is_some};
ghost use Rattle.std.specs.FinMap.{find, is_sorted};
ghost use Rattle.suites.specs.Keys.{key_order};

use crate::item::{Item, PoolFile};
use crate::key::ShelfKey;
use para::{Listed, Text};
use rules::Verdict;
use std::alloc::Global;
use sums::Print;

/// A file of an item, by its number in the item, counted from 1.
pub struct Reference {
    pub key: ShelfKey,
    pub number: usize,
    pub path: Text,
    pub print: Print,
}

// Written out, so that a caller does not prove again how each part is dropped.
impl Drop for Reference {
    fn drop(self) {
        let Reference {
            key: _,
            number: _,
            path: _,
            print: _,
        } = self;
    }
}

/// What a change does to the shelves and the pool: items that come and go, each with its shelf, the references of their
/// files, and the files that the pool gains and loses. Each list is in order, by shelf or by path.
#[derive(Drop)]
pub struct Plan {
    pub verdict: Verdict,
    pub put: Listed<(ShelfKey, Item)>,
    pub dropped: Listed<(ShelfKey, Item)>,
    pub references_put: Listed<Reference>,
    pub references_dropped: Listed<Reference>,
    pub files_added: Listed<PoolFile>,
    pub files_removed: Listed<PoolFile>,
}

fn nothing<T>(alloc: Global) -> Listed<T>
    ensures { result ≡ [] }
{
    Listed::from_vec(Vec::new(alloc))
}

impl Plan {
    /// The plan that changes nothing, of an upload with this verdict.
    pub fn unchanged(alloc: Global, verdict: Verdict) -> Plan
        ensures { result ≡ record {
          verdict = verdict;
          put = [];
          dropped = [];
          references_put = [];
          references_dropped = [];
          files_added = [];
          files_removed = [];
        } }
    {
        Plan {
            verdict,
            put: nothing(alloc),
            dropped: nothing(alloc),
            references_put: nothing(alloc),
            references_dropped: nothing(alloc),
            files_added: nothing(alloc),
            files_removed: nothing(alloc),
        }
    }

    /// Whether the plan puts an item on the shelf.
    pub fn puts(&self, key: &ShelfKey) -> bool
        requires { T (is_sorted key_order self.now.put) }
        ensures { result ≡ is_some (find key_order key.now self.now.put) }
    {
        self.put
            .as_slice()
            .binary_search_by(|entry| entry.0.cmp(key))
            .is_ok()
    }
}
