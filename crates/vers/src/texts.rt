//! The texts of versions. No allocator can be reached from a text, so nothing here takes memory.

ghost use Rattle.std.specs.Prelude.{◌≡◌};
ghost use Rattle.vers.specs.Syntax.{IsVersion, without_epoch};
ghost use Rattle.vers.specs.Order.{version_cmp};

use crate::order::{order_numbers, order_parts};
use crate::parts::{Parts, split_epoch};
use std::cmp::Ordering;

/// The text after its epoch and the first colon; the whole text if it has no colon.
pub fn behind_epoch(text: &str) -> &str
    ensures { result.now ≡ without_epoch text.now }
{
    split_epoch(text).1
}

/// How two version texts compare: their epochs as numbers, then their upstream versions, then their revisions.
pub fn order_texts(left: &str, right: &str) -> Ordering
    requires left { IsVersion left.now }
    requires right { IsVersion right.now }
    ensures { result ≡ version_cmp left.now right.now }
{
    let left_parts = Parts::of(left);
    let right_parts = Parts::of(right);
    order_numbers(left_parts.epoch.as_bytes(), right_parts.epoch.as_bytes())
        .then_with(|| {
            order_parts(
                left_parts.upstream.as_bytes(),
                right_parts.upstream.as_bytes(),
            )
        })
        .then_with(|| {
            order_parts(
                left_parts.revision.as_bytes(),
                right_parts.revision.as_bytes(),
            )
        })
}
