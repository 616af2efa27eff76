//! What is lent to be judged: names, entries, uploader lines, suites and uploads, each known by a trait alone. If no more is
//! known of a type, no allocator can be reached from it. So functions over these traits take no memory.

ghost use Rattle.std.specs.Prelude.{◌≡◌, not, bytes_eq, position, ℕ, List};
ghost use Rattle.std.specs.List.{list_any};
ghost use Rattle.records.specs.Values.{ChangesValue};
ghost use Rattle.rules.specs.Judgement.{component, has_foreign_architecture};
ghost use Rattle.rules.specs.Suites.{claims, keeps_architecture, keeps_component, allows, fits_source, component_of};
ghost use Rattle.rules.specs.declared.suite.Suite.{Suite};
ghost use Rattle.rules.specs.declared.uploader.Rule.{Rule};

use para::Text;
use sums::Entry;

/// A name.
pub trait Spelled {
    ghost spelling: { Self → List ℕ };

    /// How it is spelled.
    fn spelled(&self) -> &str
        ensures { result.now ≡ spelling self.now };
}

impl Spelled for Text {
    ghost spelling = { λ text. text };

    fn spelled(&self) -> &str {
        self.as_str()
    }
}

/// An entry of an upload.
pub trait Sectioned {
    ghost section_of: { Self → List ℕ };

    /// Its section.
    fn section(&self) -> &str
        ensures { result.now ≡ section_of self.now };
}

impl Sectioned for Entry {
    ghost section_of = { λ entry. entry.section };

    fn section(&self) -> &str {
        self.section.as_str()
    }
}

/// An uploader line.
pub trait Allowing {
    ghost as_rule: { Self → Rule };

    /// Whether it speaks of the source package.
    fn speaks_of(&self, source: &str) -> bool
        ensures { result ≡ fits_source (as_rule self.now).source source.now };

    /// The person that it names, or `anybody`.
    fn named_person(&self) -> &str
        ensures { result.now ≡ (as_rule self.now).person };
}

/// A suite.
pub trait Judging {
    ghost as_suite: { Self → Suite };

    /// Whether uploads for the distribution go to it.
    fn claims(&self, distribution: &str) -> bool
        ensures { result ≡ claims distribution.now (as_suite self.now) };

    /// Whether it keeps items of the architecture.
    fn keeps_architecture(&self, name: &str) -> bool
        ensures { result ≡ keeps_architecture (as_suite self.now) name.now };

    /// Whether the component is one of its own.
    fn keeps_component(&self, name: &str) -> bool
        ensures { result ≡ keeps_component (as_suite self.now) name.now };

    /// The position of the component among its own.
    fn component_at(&self, name: &str) -> Option<usize>
        ensures { result ≡ position (bytes_eq name.now) (as_suite self.now).components };

    /// Whether the person may upload the source package to it.
    fn allows(&self, source: &str, person: &str) -> bool
        ensures { result ≡ allows (as_suite self.now) source.now person.now };
}

/// An upload.
pub trait Judged {
    ghost as_changes: { Self → ChangesValue };

    /// The distribution that it is for.
    fn for_distribution(&self) -> &str
        ensures { result.now ≡ (as_changes self.now).distribution };

    /// Its source package.
    fn of_source(&self) -> &str
        ensures { result.now ≡ (as_changes self.now).source };

    /// Who is responsible for it.
    fn by_person(&self) -> &str
        ensures { result.now ≡ (as_changes self.now).person };

    /// Its component: that of its first entry.
    fn in_component(&self) -> &str
        ensures { result.now ≡ component (as_changes self.now) };

    /// Whether an entry has another component than this one.
    fn has_other_component(&self, name: &str) -> bool
        ensures { result ≡ list_any (λ e. not (bytes_eq (component_of e.section) name.now)) (as_changes self.now).entries };

    /// Whether it is for an architecture that the suite does not keep.
    fn wants_other_architecture<S: Judging>(&self, suite: &S) -> bool
        ensures { result ≡ has_foreign_architecture (as_changes self.now) (S.as_suite suite.now) };
}
