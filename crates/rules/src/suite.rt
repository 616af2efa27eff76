//! Suites: what each claims, keeps and allows.

ghost use Rattle.std.specs.Prelude.{◌≡◌, ◌==◌, ◌∷◌, ◌++◌, if◌then◌else◌, not, Bool, option_to_list};
ghost use Rattle.std.specs.Prelude.{bytes_eq, codes};
ghost use Rattle.std.specs.List.{list_any};
ghost use Rattle.rules.specs.Suites.{claims, claiming_among, keeps_architecture, keeps_component, keeps, allows, suite_named, component_of};

use crate::days::Days;
use crate::names::{is_one_of, position_of};
use crate::uploader::{Rule, lines_allow};
use crate::without_memory::{Judging, Spelled};
use para::{Listed, Text};

/// A suite of the configuration (own rules of this archive).
#[derive(Drop)]
pub struct Suite {
    /// The name that the suite has in paths.
    pub codename: Text,
    /// Another name, as `stable`.
    pub suite: Option<Text>,
    /// The origin of the archive, for its Release.
    pub origin: Option<Text>,
    /// The name of the archive, for its Release.
    pub label: Option<Text>,
    /// What the suite is for, for its Release.
    pub description: Option<Text>,
    /// The architectures, `source` among them if the suite has source packages.
    pub architectures: Listed<Text>,
    /// The components, as `main`.
    pub components: Listed<Text>,
    /// Further distribution names that uploads to the suite may have.
    pub also_accept_for: Listed<Text>,
    /// Who may upload. If it is absent, everybody may.
    pub uploaders: Option<Listed<Rule>>,
    /// The number of days after its date for which a Release is valid. If it is absent, a Release is valid for good.
    pub valid_days: Option<Days>,
}

/// Whether there is an architecture other than `source`.
fn has_binary_architecture<N: Spelled>(names: &[N]) -> bool
    ensures { result ≡ list_any (λ a. not (bytes_eq (N.spelling a) (codes "source"))) names.now }
{
    names.iter().any(|name| name.spelled() != "source")
}

/// Whether items of the architecture are kept by a suite that lists these architectures.
fn is_kept<N: Spelled>(architectures: &[N], name: &str) -> bool
    ensures { result ≡ (if bytes_eq name.now (codes "all") then list_any (λ a. not (bytes_eq (N.spelling a) (codes "source"))) architectures.now
        else list_any (λ a. bytes_eq name.now (N.spelling a)) architectures.now) }
{
    if name == "all" {
        has_binary_architecture(architectures)
    } else {
        is_one_of(architectures, name)
    }
}

/// Whether the distribution is the codename of a suite, its other name, or one of the further names.
fn is_claimed<N: Spelled>(
    codename: &N,
    other: &Option<N>,
    further: &[N],
    distribution: &str,
) -> bool
    ensures { result ≡ list_any (λ name. bytes_eq distribution.now (N.spelling name)) (codename.now ∷ option_to_list other.now ++ further.now) }
{
    if distribution == codename.spelled() {
        return true;
    }
    match other {
        Some(name) => distribution == name.spelled() || is_one_of(further, distribution),
        None => is_one_of(further, distribution),
    }
}

impl Suite {
    /// Whether uploads for the distribution go to the suite: it is the suite's Codename, its Suite, or a word of its
    /// AlsoAcceptFor. No memory is taken.
    #[tactic(auto, unfolding(crate::specs::Suites::claims))]
    pub fn claims(&self, distribution: &str) -> bool
        ensures { result ≡ claims distribution.now self.now }
    {
        is_claimed(
            &self.codename,
            &self.suite,
            self.also_accept_for.as_slice(),
            distribution,
        )
    }

    /// Whether items of the architecture are kept: it is one of the suite's Architectures, `source` among them. Items of
    /// `all` are kept if there is an architecture other than `source`, in whose index they stand.
    #[tactic(auto, unfolding(crate::specs::Suites::keeps_architecture))]
    pub fn keeps_architecture(&self, name: &str) -> bool
        ensures { result ≡ keeps_architecture self.now name.now }
    {
        is_kept(self.architectures.as_slice(), name)
    }

    /// Whether the component is one of the suite's.
    #[tactic(auto, unfolding(crate::specs::Suites::keeps_component))]
    pub fn keeps_component(&self, name: &str) -> bool
        ensures { result ≡ keeps_component self.now name.now }
    {
        is_one_of(self.components.as_slice(), name)
    }

    /// Whether items of the component and the architecture are kept.
    pub fn keeps(&self, component: &str, architecture: &str) -> bool
        ensures { result ≡ keeps self.now component.now architecture.now }
    {
        let keeps_component = self.keeps_component(component);
        let keeps_architecture = self.keeps_architecture(architecture);
        keeps_component && keeps_architecture
    }

    /// Whether the person may upload the source package: some uploader line allows it, or the suite has no Uploaders. The
    /// person is named byte for byte as in the .changes.
    #[tactic(auto, unfolding(crate::specs::Suites::allows))]
    pub fn allows(&self, source: &str, person: &str) -> bool
        ensures { result ≡ allows self.now source.now person.now }
    {
        lines_allow(&self.uploaders, source, person)
    }
}

impl Judging for Suite {
    ghost as_suite = { λ suite. suite };

    fn claims(&self, distribution: &str) -> bool {
        Suite::claims(self, distribution)
    }

    fn keeps_architecture(&self, name: &str) -> bool {
        Suite::keeps_architecture(self, name)
    }

    fn keeps_component(&self, name: &str) -> bool {
        Suite::keeps_component(self, name)
    }

    fn component_at(&self, name: &str) -> Option<usize> {
        position_of(self.components.as_slice(), name)
    }

    fn allows(&self, source: &str, person: &str) -> bool {
        Suite::allows(self, source, person)
    }
}

/// The position of the suite that claims the distribution.
pub fn position_of_claiming<S: Judging>(suites: &[S], distribution: &str) -> Option<usize>
    ensures { result ≡ claiming_among S.as_suite distribution.now suites.now }
{
    suites.iter().position(|suite| suite.claims(distribution))
}

/// The position of the suite with the codename.
#[tactic(auto, unfolding(crate::specs::Suites::suite_named))]
pub fn position_of_named(suites: &[Suite], codename: &str) -> Option<usize>
    ensures { result ≡ suite_named suites.now codename.now }
{
    suites
        .iter()
        .position(|suite| suite.codename.as_str() == codename)
}

/// The component of a section (Debian Policy 2.4): what stands before its first slash, or `main` if it has no slash.
#[tactic(auto, unfolding(crate::specs::Suites::component_of))]
pub fn component_of_section(section: &str) -> &str
    ensures { result.now ≡ component_of section.now }
{
    match section.split_once('/') {
        Some((component, _)) => component,
        None => "main",
    }
}
