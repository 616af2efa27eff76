//! Another configuration, as it is handed to a keeper.

ghost use Rattle.std.specs.Prelude.{◌≡◌, ◌≤◌, All, length};
ghost use Rattle.indices.specs.Calendar.{latest};

use rules::Config;
use suites::Shelves;

/// Another configuration; what the suites show under it, each at its position there; and the date of each suite, in the order of the
/// configuration, in seconds since 1970-01-01 00:00:00 UTC.
#[derive(Drop)]
pub struct Configured {
    pub config: Config,
    pub shelves: Shelves,
    pub dates: Vec<u64>,
    ghost dated: { length dates.items ≡ length config.suites },
    ghost in_range: { ∥ All (λ date. date ≤ latest) dates.items ∥₁ },
}
