//! What is judged and what arrived, in which one of many is looked up by its name and print.

ghost use Rattle.std.specs.Prelude.{◌≡◌, IfOk, map};
ghost use Rattle.tables_audit.specs.Signs.{AreInOrder, SignValue, arrived_sign, has_sign, judgement_sign, sign_of};

use crate::uploads::arrived::Arrived;
use crate::uploads::signs::{Sign, is_among, sorted_arrived, sorted_judged};
use book::Judgement;
use std::alloc::{AllocError, Global};

/// Judgements, and their names and prints in order.
#[derive(Drop)]
pub struct Verdicts<'a> {
    pub all: &'a [Judgement],
    signs: Vec<Sign<'a>>,
    ghost rise: { AreInOrder signs.items },
    ghost same: { (s : SignValue) → has_sign (map sign_of signs.items) s ≡ has_sign (map judgement_sign all.now) s },
}

impl<'a> Verdicts<'a> {
    /// These judgements.
    pub fn new(alloc: Global, all: &'a [Judgement]) -> Result<Verdicts<'a>, AllocError>
        ensures { IfOk result (λ verdicts. verdicts.all.now ≡ all.now) }
    {
        let signs = sorted_judged(alloc, all)?;
        Ok(Verdicts { all, signs })
    }

    /// Whether one of them is on this name and print.
    pub fn has(&self, sign: &Sign<'_>) -> bool
        ensures { result ≡ has_sign (map judgement_sign self.now.all.now) (sign_of sign.now) }
    {
        is_among(&self.signs, sign)
    }
}

/// What has arrived, and its names and prints in order.
#[derive(Drop)]
pub struct There<'a> {
    pub all: &'a [Arrived<'a>],
    signs: Vec<Sign<'a>>,
    ghost rise: { AreInOrder signs.items },
    ghost same: { (s : SignValue) → has_sign (map sign_of signs.items) s ≡ has_sign (map arrived_sign all.now) s },
}

impl<'a> There<'a> {
    /// What has arrived.
    pub fn new(alloc: Global, all: &'a [Arrived<'a>]) -> Result<There<'a>, AllocError>
        ensures { IfOk result (λ there. there.all.now ≡ all.now) }
    {
        let signs = sorted_arrived(alloc, all)?;
        Ok(There { all, signs })
    }

    /// Whether something of this name and print is among it.
    pub fn has(&self, sign: &Sign<'_>) -> bool
        ensures { result ≡ has_sign (map arrived_sign self.now.all.now) (sign_of sign.now) }
    {
        is_among(&self.signs, sign)
    }
}
