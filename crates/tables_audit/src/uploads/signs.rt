//! Names with prints, in order, so that one is found among many.

ghost use Rattle.std.specs.Prelude.{◌≡◌, IfOk, map};
ghost use Rattle.book.specs.Book.{judging_order};
ghost use Rattle.tables_audit.specs.Signs.{AreInOrder, SignValue, arrived_sign, entry_sign, has_sign, judgement_sign, sign_of};

use crate::uploads::arrived::Arrived;
use book::{Judgement, judging_order};
use std::alloc::{AllocError, Global};
use std::cmp::Ordering;
use sums::{Entry, Print};

/// A name and a print.
#[derive(Clone, Copy)]
pub struct Sign<'a> {
    pub name: &'a str,
    pub print: Print,
}

/// The name and the print of a judgement.
pub fn sign_of_judgement(one: &Judgement) -> Sign<'_>
    ensures { sign_of result ≡ judgement_sign one.now }
{
    Sign {
        name: one.name.as_str(),
        print: one.print,
    }
}

/// The name and the print of what arrived.
pub fn sign_of_arrived<'a>(one: &Arrived<'a>) -> Sign<'a>
    ensures { sign_of result ≡ arrived_sign one.now }
{
    Sign {
        name: one.arrival.name.as_str(),
        print: one.print,
    }
}

/// The name and the print of a listed file.
pub fn sign_of_entry(entry: &Entry) -> Sign<'_>
    ensures { sign_of result ≡ entry_sign entry.now }
{
    Sign {
        name: entry.name.as_str(),
        print: entry.print,
    }
}

/// The order of judging: by the bytes of the names, then by the prints.
pub fn compare(a: &Sign<'_>, b: &Sign<'_>) -> Ordering
    ensures { result ≡ judging_order (sign_of a.now) (sign_of b.now) }
{
    judging_order(a.name, &a.print, b.name, &b.print)
}

/// Whether a name and a print are among these, which stand in order.
pub fn is_among(signs: &[Sign<'_>], sign: &Sign<'_>) -> bool
    requires { AreInOrder signs.now }
    ensures { result ≡ has_sign (map sign_of signs.now) (sign_of sign.now) }
{
    signs.binary_search_by(|one| compare(one, sign)).is_ok()
}

/// The names and the prints of judgements, in the order of these.
fn signs_of_judged<'a>(alloc: Global, judged: &'a [Judgement]) -> Result<Vec<Sign<'a>>, AllocError>
    ensures { IfOk result (λ signs. map sign_of signs.items ≡ map judgement_sign judged.now) }
{
    let mut signs = Vec::new(alloc);
    for one in judged {
        signs.push(sign_of_judgement(one))?;
    }
    Ok(signs)
}

/// The names and the prints of what arrived, in the order of its arrival.
fn signs_of_arrived<'a>(alloc: Global, arrived: &[Arrived<'a>]) -> Result<Vec<Sign<'a>>, AllocError>
    ensures { IfOk result (λ signs. map sign_of signs.items ≡ map arrived_sign arrived.now) }
{
    let mut signs = Vec::new(alloc);
    for one in arrived {
        signs.push(sign_of_arrived(one))?;
    }
    Ok(signs)
}

/// The names and the prints of judgements, in their own order.
pub fn sorted_judged<'a>(
    alloc: Global,
    judged: &'a [Judgement],
) -> Result<Vec<Sign<'a>>, AllocError>
    ensures rise { IfOk result (λ signs. AreInOrder signs.items) }
    ensures same { IfOk result (λ signs. (s : SignValue) →
        has_sign (map sign_of signs.items) s ≡ has_sign (map judgement_sign judged.now) s) }
{
    let mut signs = signs_of_judged(alloc, judged)?;
    signs.sort_unstable_by(|a, b| compare(a, b));
    Ok(signs)
}

/// The names and the prints of what arrived, in their own order.
pub fn sorted_arrived<'a>(
    alloc: Global,
    arrived: &[Arrived<'a>],
) -> Result<Vec<Sign<'a>>, AllocError>
    ensures rise { IfOk result (λ signs. AreInOrder signs.items) }
    ensures same { IfOk result (λ signs. (s : SignValue) →
        has_sign (map sign_of signs.items) s ≡ has_sign (map arrived_sign arrived.now) s) }
{
    let mut signs = signs_of_arrived(alloc, arrived)?;
    signs.sort_unstable_by(|a, b| compare(a, b));
    Ok(signs)
}
