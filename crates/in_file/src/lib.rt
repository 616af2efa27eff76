//! Traits for what opens, makes and closes the keepers of archives in database files. So only their implementations name a store of files.
#![tactic(auto)]

ghost use Rattle.std.specs.Prelude.{◌≤◌};

use book::{KeepFault, Keeper, LATEST};
use rules::Config;

/// Why the archive of a database file is not opened.
#[derive(Clone, Copy, Debug)]
pub enum OpenFault {
    /// There is no keeper, for this reason.
    Keeper(KeepFault),
    /// The tables are not those of an archive, and say that they are of this older layout, from which a migration can make an archive.
    Older(u64),
    /// The tables say that they are of this layout, which a later program made.
    Later(u64),
}

/// What opens, makes and closes the keepers of archives in database files. Only its implementation names a store of files, since each
/// function that does so takes the prover long.
pub trait InFile<K> {
    /// What an archive of an older layout holds.
    type Old: Drop;

    /// A keeper of the archive that the file at the path holds.
    fn opened(rt: &HostRuntime, path: &str) -> Result<K, OpenFault>;

    /// A keeper of a new archive of the configuration, made at the moment in the file at the path.
    fn made(rt: &HostRuntime, path: &str, config: Config, moment: u64) -> Result<K, KeepFault>
        requires { moment ≤ LATEST };

    /// The contents of the archive of an older layout in the file at the path. The file stays as it is, and nothing is made beside it.
    fn old(rt: &HostRuntime, path: &str) -> Result<Self::Old, KeepFault>;

    /// Whether the configurations differ at most in the fields that a migration may change.
    fn are_alike(old: &Self::Old, config: &Config) -> bool;

    /// A keeper of a new archive of the configuration, made in the file at the path from the contents of an older one, with all arrivals
    /// as of the moment.
    fn migrated(
        rt: &HostRuntime,
        path: &str,
        old: &Self::Old,
        config: Config,
        moment: u64,
    ) -> Result<K, KeepFault>
        requires { moment ≤ LATEST };

    /// Closes the file. The log beside it is copied into it, unless that fails.
    fn closed(keeper: K);
}

/// Archives in database files: their keeper, and what opens, makes and closes it. A function over this trait names neither of them, so a
/// function that passes on its own type names no store of files.
pub trait FileArchives {
    /// The keeper of such an archive.
    type Keeper: Keeper + Drop;

    /// What opens, makes and closes the keeper.
    type File: InFile<Self::Keeper>;
}
