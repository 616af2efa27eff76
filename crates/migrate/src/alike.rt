//! Whether two configurations have the same suites.
//!
//! Values are compared and not spelling: the suites, in their order, without ValidDays, and each other field of them as it is read. What
//! the first paragraph says of all suites, KeepDays and MaxFileSize, is not compared.

ghost use Rattle.std.specs.Prelude.{◌≡◌, ◌↔◌, map, IsTrue};
ghost use Rattle.std.specs.Option.{option_map};
ghost use Rattle.book.specs.Configured.{AreAlike, without_days};

use para::{Listed, Text};
use rules::{Config, Rule, SourcePattern, Suite};

/// What is compared with another of its type.
trait Compared {
    /// The part that counts.
    ghost compared: { Self → Self };

    /// Whether that part is the same in both.
    fn is_alike(&self, other: &Self) -> bool
        ensures { IsTrue result ↔ (compared self.now ≡ compared other.now) };
}

impl Compared for Text {
    ghost compared = { λ text. text };

    fn is_alike(&self, other: &Text) -> bool {
        self.as_str() == other.as_str()
    }
}

/// Whether the lines speak of the same source packages.
fn is_same_source(one: &SourcePattern, other: &SourcePattern) -> bool
    ensures { IsTrue result ↔ (one.now ≡ other.now) }
{
    match (one, other) {
        (SourcePattern::Any, SourcePattern::Any) => true,
        (SourcePattern::Front(one), SourcePattern::Front(other)) => one.is_alike(other),
        (SourcePattern::Name(one), SourcePattern::Name(other)) => one.is_alike(other),
        _ => false,
    }
}

impl Compared for Rule {
    ghost compared = { λ rule. rule };

    fn is_alike(&self, other: &Rule) -> bool {
        let source = is_same_source(&self.source, &other.source);
        let person = self.person.is_alike(&other.person);
        source && person
    }
}

/// Whether both are there and alike, or neither is there.
fn are_alike_options<T: Compared>(one: &Option<T>, other: &Option<T>) -> bool
    ensures { IsTrue result ↔ (option_map T.compared one.now ≡ option_map T.compared other.now) }
{
    match (one, other) {
        (Some(one), Some(other)) => one.is_alike(other),
        (None, None) => true,
        _ => false,
    }
}

/// Whether both lists have the same number of items, each alike to the one at its place in the other.
fn are_alike_lists<T: Compared>(ones: &[T], others: &[T]) -> bool
    ensures { IsTrue result ↔ (map T.compared ones.now ≡ map T.compared others.now) }
{
    if ones.len() != others.len() {
        return false;
    }
    for position in 0..ones.len() {
        if !ones[position].is_alike(&others[position]) {
            return false;
        }
    }
    true
}

impl<T: Compared> Compared for Listed<T> {
    ghost compared = { λ items. map T.compared items };

    fn is_alike(&self, other: &Listed<T>) -> bool {
        are_alike_lists(self.as_slice(), other.as_slice())
    }
}

impl Compared for Suite {
    ghost compared = { without_days };

    fn is_alike(&self, other: &Suite) -> bool {
        let codename = self.codename.is_alike(&other.codename);
        let suite = are_alike_options(&self.suite, &other.suite);
        let origin = are_alike_options(&self.origin, &other.origin);
        let label = are_alike_options(&self.label, &other.label);
        let description = are_alike_options(&self.description, &other.description);
        let architectures = self.architectures.is_alike(&other.architectures);
        let components = self.components.is_alike(&other.components);
        let also_accept_for = self.also_accept_for.is_alike(&other.also_accept_for);
        let uploaders = are_alike_options(&self.uploaders, &other.uploaders);
        codename
            && suite
            && origin
            && label
            && description
            && architectures
            && components
            && also_accept_for
            && uploaders
    }
}

/// Whether two configurations have the same suites in the same order, but for KeepDays, ValidDays and MaxFileSize.
pub fn are_alike(config: &Config, other: &Config) -> bool
    ensures { IsTrue result ↔ AreAlike config.now other.now }
{
    are_alike_lists(config.suites(), other.suites())
}
