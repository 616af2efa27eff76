//! What Packages lists.

ghost use Rattle.std.specs.Prelude.{◌≡◌};
ghost use Rattle.indices.specs.Listed.{is_in_packages};

use suites::{Item, Kind, ShelfKey};

/// Whether the index of the architecture lists the item: it is a package of the suite and component, of that
/// architecture or of all.
#[tactic(auto, unfolding(crate::specs::Listed::is_in_packages))]
pub fn lists_package(
    key: &ShelfKey,
    item: &Item,
    suite: usize,
    component: &str,
    architecture: &str,
) -> bool
    ensures { result ≡ is_in_packages suite component.now architecture.now (key.now, item.now) }
{
    if key.suite != suite || key.kind != Kind::Binary {
        return false;
    }
    let name = key.architecture.as_str();
    item.component.as_str() == component && (name == architecture || name == "all")
}
