//! What an upload that is not judged lacks: its entries that have not arrived, or no longer count.

ghost use Rattle.std.specs.Prelude.{◌≡◌, false, IfOk};
ghost use Rattle.suites.specs.Keys.{text_order};
ghost use Rattle.tables.specs.Calls.{CommitsNoRows, Reads};
ghost use Rattle.tables_meaning.specs.Calls.{ReadUndone, ReadsAtRest};
ghost use Rattle.tables_meaning.specs.Reads.{sorted_by};
ghost use Rattle.keep_tables.specs.Moments.{lack_at, lacks_at, name_order, wants_by_name as wants_in_order};

use book::Lack;
use sqlite::{Alter, Connection, Error};
use std::alloc::{AllocError, Global};
use std::cmp::Ordering;
use tables::rows::Want;
use tables::wants::wants_of;
use tables_counting::is_had;

/// The order of entries: by the bytes of their names.
fn name_order(a: &Want, b: &Want) -> Ordering
    ensures { result ≡ text_order a.now.name b.now.name }
{
    a.name.as_str().cmp(b.name.as_str())
}

/// The entries in the order of their names. Those that tie stay in their order.
fn by_name(mut wants: Vec<Want>) -> Result<Vec<Want>, AllocError>
    ensures { IfOk result (λ sorted. sorted.items ≡ sorted_by name_order wants.items) }
{
    wants.sort_by(|a, b| name_order(a, b))?;
    Ok(wants)
}

/// The entries of an upload, in the order of their names.
fn wants_by_name<S: Alter>(
    alloc: Global,
    conn: &mut Connection<S>,
    upload: u64,
) -> Result<Vec<Want>, Error>
    ensures idle { conn.old.in_transaction ≡ false → conn.new.in_transaction ≡ false }
    ensures ok { Reads S.Store conn.old conn.new result (λ t wants. wants.items ≡ wants_in_order t upload) }
    ensures err { ReadUndone S.Store conn.old conn.new result }
    ensures survives { CommitsNoRows S.Store conn.old conn.new }
{
    let wants = wants_of(alloc, conn, upload)?;
    let sorted = by_name(wants)?;
    Ok(sorted)
}

/// What is said of an entry that is lacking at the moment: it is ended if it arrived. The answer is `None` if it arrived and
/// still counts.
fn lack_of<S: Alter>(
    alloc: Global,
    conn: &mut Connection<S>,
    want: Want,
    span: Option<u64>,
    moment: u64,
) -> Result<Option<Lack>, Error>
    ensures idle { conn.old.in_transaction ≡ false → conn.new.in_transaction ≡ false }
    ensures ok { ReadsAtRest S.Store conn.old conn.new result (λ t lack. lack ≡ lack_at span moment t want) }
    ensures err { ReadUndone S.Store conn.old conn.new result }
    ensures survives { CommitsNoRows S.Store conn.old conn.new }
{
    let had = is_had(alloc, conn, &want, span, moment)?;
    if had {
        return Ok(None);
    }
    Ok(Some(Lack {
        name: want.name,
        print: want.print,
        is_ended: want.here,
    }))
}

/// What is lacking of an upload: its entries that have not arrived or no longer count at the moment, in the order of their
/// names.
pub(crate) fn lacks_of<S: Alter>(
    alloc: Global,
    conn: &mut Connection<S>,
    upload: u64,
    span: Option<u64>,
    moment: u64,
) -> Result<Vec<Lack>, Error>
    ensures idle { conn.old.in_transaction ≡ false → conn.new.in_transaction ≡ false }
    ensures ok { Reads S.Store conn.old conn.new result (λ t lacks. lacks.items ≡ lacks_at span moment t upload) }
    ensures err { ReadUndone S.Store conn.old conn.new result }
    ensures survives { CommitsNoRows S.Store conn.old conn.new }
{
    let mut lacks = Vec::new(alloc);
    for want in wants_by_name(alloc, conn, upload)? {
        if let Some(lack) = lack_of(alloc, conn, want, span, moment)? {
            lacks.push(lack)?;
        }
    }
    Ok(lacks)
}
