//! The one row of `meta`: the layout of the tables, and the text of the configuration.
//!
//! The number of the layout is 3: bodies in pieces and each stored once, arrivals with moments, uploads with a number of their own.
//! The number stands for the columns and keys of the tables and for what their rows mean. The code has it once (`VERSION`), and a law
//! says it again.

ghost use Rattle.std.specs.Prelude.{◌≡◌, false};
ghost use Rattle.tables.specs.Rows.{with_meta};
ghost use Rattle.tables.specs.Metas.{with_configuration};
ghost use Rattle.tables.specs.Calls.{CommitsNothing, FailsInside, IsSame, Writes};

use crate::number::whole;
use sqlite::{Alter, Connection, Error, Transaction, params};

/// The layout that these tables have: the number that `meta` keeps. It stands for the columns and keys of the eleven tables and for what
/// their rows mean; who changes any of these raises it. An index that is not a key is not part of it.
pub const VERSION: u64 = 3;

const INSERT_META: &str = "INSERT INTO meta (version, configuration) VALUES (?1, ?2)";

const UPDATE_META: &str = "UPDATE meta SET configuration = ?1";

/// Adds the version of the tables and the text of the configuration.
pub fn insert_meta<S: Alter>(
    tx: &mut Transaction<'_, S>,
    version: u64,
    configuration: &[u8],
) -> Result<(), Error>
    ensures same_reference { IsSame tx.old tx.new }
    ensures ok { Writes S.Store tx.old tx.new result (with_meta (record { version = version; configuration = configuration.now })) }
    ensures err { FailsInside S.Store tx.old tx.new result }
    ensures survives { CommitsNothing S.Store tx.old tx.new }
{
    let version = whole(version)?;
    tx.execute(INSERT_META, params![version, configuration])?;
    Ok(())
}

const SELECT_VERSION: &str = "SELECT version FROM meta";

/// The layout that the database says it has: the number in the one row of `meta`, or nothing if no such row can be read. It
/// serves a message alone, and no clause says which number it is.
pub fn layout_of<S: Alter>(conn: &mut Connection<S>) -> Option<u64>
    ensures idle { conn.old.in_transaction ≡ false → conn.new.in_transaction ≡ false }
{
    let Ok(rows) = conn.query_all(SELECT_VERSION, &[]) else {
        return None;
    };
    if rows.len() != 1 {
        return None;
    }
    rows[0].get(0).ok()
}

/// Replaces the text of the configuration.
pub fn update_configuration<S: Alter>(
    tx: &mut Transaction<'_, S>,
    configuration: &[u8],
) -> Result<(), Error>
    ensures same_reference { IsSame tx.old tx.new }
    ensures ok { Writes S.Store tx.old tx.new result (with_configuration configuration.now) }
    ensures err { FailsInside S.Store tx.old tx.new result }
    ensures survives { CommitsNothing S.Store tx.old tx.new }
{
    tx.execute(UPDATE_META, params![configuration])?;
    Ok(())
}
