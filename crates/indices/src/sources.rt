//! What Sources lists.

ghost use Rattle.std.specs.Prelude.{◌≡◌};
ghost use Rattle.indices.specs.Listed.{is_in_sources};

use suites::{Item, Kind, ShelfKey};

/// Whether Sources lists the item: it is a source of the suite and component.
#[tactic(auto, unfolding(crate::specs::Listed::is_in_sources))]
pub fn lists_source(key: &ShelfKey, item: &Item, suite: usize, component: &str) -> bool
    ensures { result ≡ is_in_sources suite component.now (key.now, item.now) }
{
    if key.suite != suite || key.kind != Kind::Source {
        return false;
    }
    item.component.as_str() == component
}
