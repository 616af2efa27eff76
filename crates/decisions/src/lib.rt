//! The decisions about what a suite shows and keeps that are one comparison each. They stand apart from the shelves about which they are
//! taken, so that wrong bodies of them are tried in seconds.
#![tactic(auto)]

ghost use Rattle.std.specs.Prelude.{◌≡◌, nat_le, not};
ghost use Rattle.std.specs.Ordering.{is_lt};
ghost use Rattle.rules.specs.Suites.{keeps};
ghost use Rattle.vers.specs.Order.{version_cmp};

use rules::Suite;
use vers::Version;

/// Whether a version that a suite shows is at least another (Debian Policy 5.6.12): an item of that other version is then not shown.
pub fn is_at_least(shown: &Version, other: &Version) -> bool
    ensures { result ≡ not (is_lt (version_cmp shown.now other.now)) }
{
    !shown.order(other).is_lt()
}

/// Whether a file of the pool that has these references is left without one when `dropped` of them go.
pub fn is_left(references: u64, dropped: u64) -> bool
    ensures { result ≡ nat_le references dropped }
{
    references <= dropped
}

/// Whether a copy to a suite may take an item of the component and the architecture: the suite keeps items of both.
pub fn is_taken(target: &Suite, component: &str, architecture: &str) -> bool
    ensures { result ≡ keeps target.now component.now architecture.now }
{
    target.keeps(component, architecture)
}
