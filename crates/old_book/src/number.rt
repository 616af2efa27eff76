//! Numbers as the tables take them, if there are any.

ghost use Rattle.std.specs.Prelude.{◌≡◌, IfOk};

use sqlite::Error;
use tables::number::{Number, whole};

/// The number, if there is one.
pub(crate) fn some_whole(n: Option<u64>) -> Result<Option<Number>, Error>
    ensures { IfOk result (λ w. w ≡ n) }
{
    match n {
        Some(n) => Ok(Some(whole(n)?)),
        None => Ok(None),
    }
}
