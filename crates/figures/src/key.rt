//! What prints and uploads are looked up by.

ghost use Rattle.std.specs.Prelude.{◌≡◌, IfOk};
ghost use Rattle.std.specs.Ordering.{as_partial_cmp, eq_by_cmp};
ghost use Rattle.figures.specs.Keys.{print_order};

use para::Text;
use std::alloc::AllocError;
use std::cmp::Ordering;
use sums::Print;

/// The order of prints in a set: by size, MD5, SHA-1 and SHA-256.
#[tactic(auto, unfolding(crate::specs::Keys::print_order))]
fn print_order(a: &Print, b: &Print) -> Ordering
    ensures { result ≡ print_order a.now b.now }
{
    a.size
        .cmp(&b.size)
        .then(a.md5.cmp(&b.md5))
        .then(a.sha1.cmp(&b.sha1))
        .then(a.sha256.cmp(&b.sha256))
}

/// Contents by their print.
#[derive(Clone, Copy)]
pub struct PrintKey {
    pub print: Print,
}

impl Ord for PrintKey {
    ghost use Rattle.std.specs.Prelude.{refl};
    ghost use Rattle.figures.specs.Keys.{print_key_order, print_key_order_total};

    ghost cmp = { print_key_order };

    ghost total = { print_key_order_total };

    ghost matches_partial_cmp = { λ x y. refl };

    ghost matches_eq = { λ x y. refl };

    fn cmp(&self, other: &PrintKey) -> Ordering {
        print_order(&self.print, &other.print)
    }
}

impl PartialOrd for PrintKey {
    ghost use Rattle.std.specs.Cmp.{partial_order_from_total};
    ghost use Rattle.figures.specs.Keys.{print_key_order, print_key_order_total};

    ghost partial_cmp = { as_partial_cmp print_key_order };

    ghost laws = { partial_order_from_total print_key_order_total };

    fn partial_cmp(&self, other: &PrintKey) -> Option<Ordering> {
        Some(self.cmp(other))
    }
}

impl PartialEq for PrintKey {
    ghost use Rattle.std.specs.Cmp.{eq_by_cmp_equiv, partial_equiv_from_equiv};
    ghost use Rattle.figures.specs.Keys.{print_key_order, print_key_order_total};

    ghost eq = { eq_by_cmp print_key_order };

    ghost laws = { partial_equiv_from_equiv (eq_by_cmp_equiv print_key_order_total) };

    fn eq(&self, other: &PrintKey) -> bool {
        self.cmp(other) == Ordering::Equal
    }
}

impl Eq for PrintKey {
    ghost use Rattle.std.specs.Cmp.{eq_by_cmp_equiv};
    ghost use Rattle.figures.specs.Keys.{print_key_order, print_key_order_total};

    ghost laws = { eq_by_cmp_equiv print_key_order_total };
}

/// An upload by the name and the print of its .changes.
#[derive(Drop)]
pub struct Sign {
    pub name: Text,
    pub print: Print,
}

impl Sign {
    /// The sign of a name and a print.
    pub fn new(name: &Text, print: &Print) -> Result<Sign, AllocError>
        ensures { IfOk result (λ sign. sign ≡ record { name = name.now; print = print.now }) }
    {
        Ok(Sign {
            name: name.try_clone()?,
            print: *print,
        })
    }
}

impl Ord for Sign {
    ghost use Rattle.std.specs.Prelude.{refl};
    ghost use Rattle.figures.specs.Keys.{sign_order, sign_order_total};

    ghost cmp = { sign_order };

    ghost total = { sign_order_total };

    ghost matches_partial_cmp = { λ x y. refl };

    ghost matches_eq = { λ x y. refl };

    #[tactic(auto, unfolding(crate::specs::Keys::sign_order))]
    fn cmp(&self, other: &Sign) -> Ordering {
        self.name
            .as_str()
            .cmp(other.name.as_str())
            .then(print_order(&self.print, &other.print))
    }
}

impl PartialOrd for Sign {
    ghost use Rattle.std.specs.Cmp.{partial_order_from_total};
    ghost use Rattle.figures.specs.Keys.{sign_order, sign_order_total};

    ghost partial_cmp = { as_partial_cmp sign_order };

    ghost laws = { partial_order_from_total sign_order_total };

    fn partial_cmp(&self, other: &Sign) -> Option<Ordering> {
        Some(self.cmp(other))
    }
}

impl PartialEq for Sign {
    ghost use Rattle.std.specs.Cmp.{eq_by_cmp_equiv, partial_equiv_from_equiv};
    ghost use Rattle.figures.specs.Keys.{sign_order, sign_order_total};

    ghost eq = { eq_by_cmp sign_order };

    ghost laws = { partial_equiv_from_equiv (eq_by_cmp_equiv sign_order_total) };

    fn eq(&self, other: &Sign) -> bool {
        self.cmp(other) == Ordering::Equal
    }
}

impl Eq for Sign {
    ghost use Rattle.std.specs.Cmp.{eq_by_cmp_equiv};
    ghost use Rattle.figures.specs.Keys.{sign_order, sign_order_total};

    ghost laws = { eq_by_cmp_equiv sign_order_total };
}
