//! Where an item stands: in its suite, and there on the shelf of its kind, package and architecture.

ghost use Rattle.std.specs.Prelude.{◌≡◌, IfOk};
ghost use Rattle.std.specs.Ordering.{as_partial_cmp, eq_by_cmp};

use para::Text;
use std::alloc::AllocError;
use std::cmp::Ordering;

/// What an item is.
#[derive(Debug, Clone, Copy, PartialEq, Eq)]
pub enum Kind {
    Source,
    Binary,
}

impl Kind {
    ghost use Rattle.suites.specs.Keys.{kind_number, kind_numbered};

    /// The number of the kind: sources stand before packages.
    pub fn number(self) -> u64
        ensures { result ≡ kind_number self }
    {
        match self {
            Kind::Source => 0,
            Kind::Binary => 1,
        }
    }

    /// The kind with a number.
    #[tactic(auto, unfolding(crate::specs::Keys::kind_numbered))]
    pub fn with_number(number: u64) -> Option<Kind>
        ensures { result ≡ kind_numbered number }
    {
        if number == 0 {
            return Some(Kind::Source);
        }
        if number == 1 {
            return Some(Kind::Binary);
        }
        None
    }
}

/// Where an item stands. For each key at most one item is shown.
pub struct ShelfKey {
    pub suite: usize,
    pub kind: Kind,
    pub package: Text,
    pub architecture: Text,
}

// Written out, so that a caller does not prove again how each part is dropped.
impl Drop for ShelfKey {
    fn drop(self) {
        let ShelfKey {
            suite: _,
            kind: _,
            package: _,
            architecture: _,
        } = self;
    }
}

impl ShelfKey {
    /// Another copy of the key.
    pub fn try_clone(&self) -> Result<ShelfKey, AllocError>
        ensures { IfOk result (λ copy. copy ≡ self.now) }
    {
        Ok(ShelfKey {
            suite: self.suite,
            kind: self.kind,
            package: self.package.try_clone()?,
            architecture: self.architecture.try_clone()?,
        })
    }
}

impl Ord for ShelfKey {
    ghost use Rattle.suites.specs.Keys.{key_order};
    ghost use Rattle.suites.specs.KeyLemmas.{key_order_total};
    ghost use Rattle.std.specs.Prelude.{refl};

    ghost cmp = { key_order };

    ghost total = { key_order_total };

    ghost matches_partial_cmp = { λ x y. refl };

    ghost matches_eq = { λ x y. refl };

    #[tactic(auto, unfolding(crate::specs::Keys::key_order))]
    fn cmp(&self, other: &ShelfKey) -> Ordering {
        let order = self
            .suite
            .cmp(&other.suite)
            .then(self.kind.number().cmp(&other.kind.number()))
            .then(self.package.as_str().cmp(other.package.as_str()));
        // Most packages differ, and then no architecture is looked at.
        match order {
            Ordering::Equal => self.architecture.as_str().cmp(other.architecture.as_str()),
            unlike => unlike,
        }
    }
}

impl PartialOrd for ShelfKey {
    ghost use Rattle.suites.specs.Keys.{key_order};
    ghost use Rattle.suites.specs.KeyLemmas.{key_order_total};
    ghost use Rattle.std.specs.Cmp.{partial_order_from_total};

    ghost partial_cmp = { as_partial_cmp key_order };

    ghost laws = { partial_order_from_total key_order_total };

    fn partial_cmp(&self, other: &ShelfKey) -> Option<Ordering> {
        Some(self.cmp(other))
    }
}

impl PartialEq for ShelfKey {
    ghost use Rattle.suites.specs.Keys.{key_order};
    ghost use Rattle.suites.specs.KeyLemmas.{key_order_total};
    ghost use Rattle.std.specs.Cmp.{eq_by_cmp_equiv, partial_equiv_from_equiv};

    ghost eq = { eq_by_cmp key_order };

    ghost laws = { partial_equiv_from_equiv (eq_by_cmp_equiv key_order_total) };

    fn eq(&self, other: &ShelfKey) -> bool {
        self.cmp(other) == Ordering::Equal
    }
}

impl Eq for ShelfKey {
    ghost use Rattle.suites.specs.Keys.{key_order};
    ghost use Rattle.suites.specs.KeyLemmas.{key_order_total};
    ghost use Rattle.std.specs.Cmp.{eq_by_cmp_equiv};

    ghost laws = { eq_by_cmp_equiv key_order_total };
}
