//! What verdict 7 is about if each sidecar by itself is right: two of the same package and architecture.

ghost use Rattle.std.specs.Prelude.{◌≡◌, find, option_copied, option_map};
ghost use Rattle.suites.specs.Verdict.{is_same_package};
ghost use Rattle.reasons.specs.Named.{twins};

use records::Sidecar;
use suites::is_same_package;

/// The first of the others that has the package and the architecture of a sidecar.
fn twin<'a>(sidecar: &Sidecar, others: &'a [Sidecar]) -> Option<&'a Sidecar>
    ensures { option_copied result ≡ find (is_same_package sidecar.now) others.now }
{
    others.iter().find(|other| is_same_package(sidecar, other))
}

/// The first sidecar that has the package and the architecture of a later one, and the first such later one.
pub fn twins(sidecars: &[Sidecar]) -> Option<(&Sidecar, &Sidecar)>
    ensures { option_map (λ p. (p.0.now, p.1.now)) result ≡ twins sidecars.now }
{
    for (index, sidecar) in sidecars.iter().enumerate() {
        if let Some(other) = twin(sidecar, &sidecars[index + 1..]) {
            return Some((sidecar, other));
        }
    }
    None
}
