//! What has arrived, as its rows say: without its bytes, and the bytes of one.

ghost use Rattle.std.specs.Prelude.{◌≡◌, false, Some};
ghost use Rattle.std.specs.Option.{option_map};
ghost use Rattle.keep_tables.specs.Arrived.{bytes_under, file_in, files_in, found_bytes};
ghost use Rattle.tables.specs.Calls.{CommitsNoRows, Reads};
ghost use Rattle.tables_meaning.specs.Calls.{ReadUndone};

use book::ArrivedFile;
use sqlite::{Alter, Connection, Error};
use std::alloc::Global;
use sums::Print;
use tables::arrivals::{all_arrivals, arrival_at};
use tables::bodies::body_with_print;
use tables::rows::ArrivalRow;
use tables_bodies::{print_numbered, read_body};

/// The arrival of a row with its number, without its bytes.
fn read_file<S: Alter>(
    alloc: Global,
    conn: &mut Connection<S>,
    row: (u64, ArrivalRow),
) -> Result<ArrivedFile, Error>
    ensures idle { conn.old.in_transaction ≡ false → conn.new.in_transaction ≡ false }
    ensures ok { Reads S.Store conn.old conn.new result (λ t file. file_in t row.1 ≡ Some file) }
    ensures err { ReadUndone S.Store conn.old conn.new result }
    ensures survives { CommitsNoRows S.Store conn.old conn.new }
{
    let (_, arrival) = row;
    let print = print_numbered(alloc, conn, arrival.body)?;
    Ok(ArrivedFile {
        name: arrival.name,
        print,
        moment: arrival.moment,
    })
}

/// The arrivals without their bytes, in the order of their rows.
pub fn arrived_files<S: Alter>(
    alloc: Global,
    conn: &mut Connection<S>,
) -> Result<Vec<ArrivedFile>, Error>
    ensures idle { conn.old.in_transaction ≡ false → conn.new.in_transaction ≡ false }
    ensures ok { Reads S.Store conn.old conn.new result (λ t files. files.items ≡ files_in t) }
    ensures err { ReadUndone S.Store conn.old conn.new result }
    ensures survives { CommitsNoRows S.Store conn.old conn.new }
{
    let mut files = Vec::new(alloc);
    for row in all_arrivals(alloc, conn)? {
        let file = read_file(alloc, conn, row)?;
        files.push(file)?;
    }
    Ok(files)
}

/// The bytes of a body, if it arrived under this name.
fn body_under<S: Alter>(
    alloc: Global,
    conn: &mut Connection<S>,
    name: &str,
    body: u64,
) -> Result<Option<Vec<u8>>, Error>
    ensures idle { conn.old.in_transaction ≡ false → conn.new.in_transaction ≡ false }
    ensures ok { Reads S.Store conn.old conn.new result (λ t found. option_map (λ bytes. bytes.items) found ≡ bytes_under name.now t body) }
    ensures err { ReadUndone S.Store conn.old conn.new result }
    ensures survives { CommitsNoRows S.Store conn.old conn.new }
{
    let found = arrival_at(alloc, conn, name, body)?;
    match found {
        Some(arrival) => {
            let bytes = read_body(alloc, conn, arrival.1.body)?;
            Ok(Some(bytes))
        }
        None => Ok(None),
    }
}

/// The bytes of the body of a print, if it arrived under this name.
pub fn arrived_body<S: Alter>(
    alloc: Global,
    conn: &mut Connection<S>,
    name: &str,
    print: &Print,
) -> Result<Option<Vec<u8>>, Error>
    ensures idle { conn.old.in_transaction ≡ false → conn.new.in_transaction ≡ false }
    ensures ok { Reads S.Store conn.old conn.new result (λ t found. option_map (λ bytes. bytes.items) found ≡ found_bytes name.now print.now t) }
    ensures err { ReadUndone S.Store conn.old conn.new result }
    ensures survives { CommitsNoRows S.Store conn.old conn.new }
{
    let Some(body) = body_with_print(alloc, conn, print)? else {
        return Ok(None);
    };
    body_under(alloc, conn, name, body)
}
