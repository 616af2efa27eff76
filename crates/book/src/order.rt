//! The order in which a run judges uploads.

ghost use Rattle.std.specs.Prelude.{◌≡◌};
ghost use Rattle.book.specs.Book.{judging_order as order_of};

use std::cmp::Ordering;
use sums::Print;

/// The order of judging, of two uploads by the names and the prints of their .changes: by the bytes of the names, then by
/// SHA-256, SHA-1, MD5 and size.
#[tactic(auto, unfolding(crate::specs::Book::judging_order))]
pub fn judging_order(name: &str, print: &Print, other_name: &str, other_print: &Print) -> Ordering
    ensures { result ≡ order_of (name.now, print.now) (other_name.now, other_print.now) }
{
    name.cmp(other_name)
        .then(print.sha256.cmp(&other_print.sha256))
        .then(print.sha1.cmp(&other_print.sha1))
        .then(print.md5.cmp(&other_print.md5))
        .then(print.size.cmp(&other_print.size))
}
