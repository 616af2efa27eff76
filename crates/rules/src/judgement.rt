//! The verdicts that follow from the configuration and the .changes alone.

ghost use Rattle.std.specs.Prelude.{◌≡◌, ◌≢◌, not, bytes_eq, position, ◌||◌, [], MatchResult, IfOk, IfErr, OnErr, IfSome, option_map, slice_get, Some, false};
ghost use Rattle.rules.specs.Verdicts.{first_row};
ghost use Rattle.rules.specs.Judgement.{claimant, suite_rows, rule_rows, rows_among, IsPlace, IsPlaceAmong, is_not_allowed, has_foreign_component};
ghost use Rattle.std.specs.List.{list_any};
ghost use Rattle.std.specs.Option.{option_map_or};
ghost use Rattle.rules.specs.Suites.{keeps_architecture, keeps_component, claiming_among, component_of};

use crate::config::Config;
use crate::suite::{component_of_section, position_of_claiming};
use crate::verdict::Verdict;
use crate::without_memory::{Judged, Judging, Sectioned, Spelled};
use records::Changes;

/// The suite and the component that an upload goes to.
#[derive(Clone, Copy, Debug, PartialEq, Eq)]
pub struct Place {
    /// The position of the suite in the configuration, from 0.
    pub suite: usize,
    /// The position of the component among those of the suite, from 0.
    pub component: usize,
}

fn has_unkept<S: Judging, N: Spelled>(suite: &S, architectures: &[N]) -> bool
    ensures { result ≡ list_any (λ a. not (keeps_architecture (S.as_suite suite.now) (N.spelling a))) architectures.now }
{
    architectures
        .iter()
        .any(|name| !suite.keeps_architecture(name.spelled()))
}

#[tactic(auto, unfolding(crate::specs::Judgement::is_not_allowed))]
fn is_refused<S: Judging, U: Judged>(suite: &S, upload: &U) -> bool
    ensures { result ≡ is_not_allowed (U.as_changes upload.now) (S.as_suite suite.now) }
{
    !suite.allows(upload.of_source(), upload.by_person())
}

#[tactic(auto, unfolding(crate::specs::Judgement::has_foreign_component))]
fn wants_other_component<S: Judging, U: Judged>(suite: &S, upload: &U) -> bool
    ensures { result ≡ has_foreign_component (U.as_changes upload.now) (S.as_suite suite.now) }
{
    let name = upload.in_component();
    upload.has_other_component(name) || !suite.keeps_component(name)
}

fn has_other_component<E: Sectioned>(entries: &[E], component: &str) -> bool
    ensures { result ≡ list_any (λ e. not (bytes_eq (component_of (E.section_of e)) component.now)) entries.now }
{
    entries
        .iter()
        .any(|entry| component_of_section(entry.section()) != component)
}

/// The component of the first entry.
fn component_of_first<E: Sectioned>(entries: &[E]) -> &str
    ensures { result.now ≡ option_map_or (λ e. component_of (E.section_of e)) (slice_get entries.now 0) [] }
{
    match entries.first() {
        Some(entry) => component_of_section(entry.section()),
        None => "",
    }
}

impl Judged for Changes {
    ghost as_changes = { λ changes. changes };

    fn for_distribution(&self) -> &str {
        self.distribution()
    }

    fn of_source(&self) -> &str {
        self.source()
    }

    fn by_person(&self) -> &str {
        self.person()
    }

    #[tactic(auto, unfolding(crate::specs::Judgement::component))]
    fn in_component(&self) -> &str {
        component_of_first(self.entries())
    }

    fn has_other_component(&self, name: &str) -> bool {
        has_other_component(self.entries(), name)
    }

    #[tactic(auto, unfolding(crate::specs::Judgement::has_foreign_architecture))]
    fn wants_other_architecture<S: Judging>(&self, suite: &S) -> bool {
        has_unkept(suite, self.architectures())
    }
}

/// The first rule of the suite that the upload breaks.
#[tactic(auto, unfolding(crate::specs::Judgement::suite_rows))]
fn broken_rule<S: Judging, U: Judged>(suite: &S, upload: &U) -> Verdict
    ensures { result ≡ first_row (suite_rows (S.as_suite suite.now) (U.as_changes upload.now)) }
{
    if upload.wants_other_architecture(suite) {
        return Verdict::ForeignArchitecture;
    }
    if is_refused(suite, upload) {
        return Verdict::NotAllowed;
    }
    if wants_other_component(suite, upload) {
        return Verdict::ForeignComponent;
    }
    Verdict::Accepted
}

/// The position of the suite that claims the distribution, and that suite.
#[tactic(auto, unfolding(crate::specs::Judgement::claimant))]
fn claiming_suite<'s, S: Judging, U: Judged>(suites: &'s [S], upload: &U) -> Option<(usize, &'s S)>
    ensures position { IfSome result (λ found. claiming_among S.as_suite (U.as_changes upload.now).distribution suites.now ≡ Some found.0) }
    ensures suite { option_map (λ found. found.1.now) result ≡ claimant S.as_suite suites.now (U.as_changes upload.now) }
{
    let position = position_of_claiming(suites, upload.for_distribution())?;
    let suite = suites.get(position)?;
    Some((position, suite))
}

/// The verdicts that follow from the configuration alone, else the place of the upload. No memory is taken.
pub fn judge(config: &Config, changes: &Changes) -> Result<Place, Verdict>
    ensures accepted { IfOk result (λ _. first_row (rule_rows config.now changes.now) ≡ Verdict.Accepted) }
    ensures place { IfOk result (IsPlace config.now changes.now) }
    ensures refused { IfErr result (λ v. v ≡ first_row (rule_rows config.now changes.now)) }
    ensures rule { IfErr result (λ v. v ≢ Verdict.Accepted) }
{
    judge_among(config.suites(), changes)
}

/// The verdicts that follow from these suites alone, else the place of the upload among them.
fn judge_among<S: Judging, U: Judged>(suites: &[S], upload: &U) -> Result<Place, Verdict>
    ensures accepted { IfOk result (λ _. first_row (rows_among S.as_suite suites.now (U.as_changes upload.now)) ≡ Verdict.Accepted) }
    ensures place { IfOk result (IsPlaceAmong S.as_suite suites.now (U.as_changes upload.now)) }
    ensures refused { IfErr result (λ v. v ≡ first_row (rows_among S.as_suite suites.now (U.as_changes upload.now))) }
    ensures rule { IfErr result (λ v. v ≢ Verdict.Accepted) }
{
    let Some((suite, claiming)) = claiming_suite(suites, upload) else {
        return Err(Verdict::Unclaimed);
    };
    match broken_rule(claiming, upload) {
        Verdict::Accepted => place_in(suite, claiming, upload.in_component()),
        broken => Err(broken),
    }
}

/// The place of the component in the suite.
fn place_in<S: Judging>(suite: usize, claiming: &S, component: &str) -> Result<Place, Verdict>
    ensures found { IfOk result (λ place. (place.suite ≡ suite) × (position (bytes_eq component.now) (S.as_suite claiming.now).components ≡ Some place.component)) }
    ensures none { OnErr result (keeps_component (S.as_suite claiming.now) component.now ≡ false) }
    ensures refused { IfErr result (λ v. v ≡ Verdict.ForeignComponent) }
{
    match claiming.component_at(component) {
        Some(component) => Ok(Place { suite, component }),
        None => Err(Verdict::ForeignComponent),
    }
}
