//! Keepers of new archives.
//!
//! The trait `Makes` makes the keepers of a story. The check refuses an implementation of a trait that requires `Keeper` for a keeper over
//! a store of one type. So `Makes` is implemented for a type that is no keeper.

ghost use Rattle.std.specs.Prelude.{◌≤◌};

use book::{KeepFault, LATEST};
use rules::Config;
use std::alloc::Global;

/// Makes the keepers that a story uses.
pub trait Makes<K> {
    /// A keeper of the configuration's archive, made at the moment.
    fn made(alloc: Global, config: Config, moment: u64) -> Result<K, KeepFault>
        requires { moment ≤ LATEST };

    /// The keeper of the archive, closed and opened again if that is possible.
    fn reopened(alloc: Global, keeper: K) -> Result<K, KeepFault>;
}
