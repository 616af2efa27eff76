//! The codename of a suite.

ghost use Rattle.std.specs.Prelude.{◌≡◌};
ghost use Rattle.suites.specs.Codenames.{codename_at};

use rules::Suite;

/// The codename of the suite at a position, or an empty text if there is no suite.
pub fn codename_at(suites: &[Suite], position: usize) -> &str
    ensures { result.now ≡ codename_at suites.now position }
{
    match suites.get(position) {
        Some(suite) => suite.codename.as_str(),
        None => "",
    }
}
