//! The archive of a database file, served over HTTP.
//!
//! After a 507 `serve` asks the archive for the empty path. If that is answered by a fault of the disk, the keeper is shut. The archive is
//! then opened again, and the rest of the connections is answered from what is in the file: the book before the failed call, or with it. A
//! full disk shuts no keeper.
//!
//! With a folder to export to, connections are served one by one, and the folder is exported to after each that may have changed what
//! suites show, before the next is accepted: a reply does not wait for it. If nothing changed, the export only looks at each suite's
//! Release.
//!
//! The listener is made before the archive is opened, and ends last, so that clients wait in the system's queue meanwhile. If both fail,
//! the fault of the database is reported. A `Desk` is made after each opening. If there is no memory for it, `serve` ends with Q0 and
//! status 3, before a connection is accepted.

ghost use Rattle.std.specs.Prelude.{◌≡◌, ◌≤◌, IfOk, None, option_map, string_bytes};
ghost use Rattle.desk.specs.Connections.{HasServed, IsClientsWithin};
ghost use Rattle.queue.specs.Steps.{Reads};
ghost use Rattle.program.specs.Keys.{key_name, signing_key};

use crate::database::{InFile, close, open_archive};
use crate::export::key_name;
use crate::fault::Stop;
use crate::log::Log;
use crate::moments::Moments;
use crate::notes::Notes;
use crate::serving::{keep_room, patience, serve_at};
use book::Keeper;
use command_line::Serving;
use commands::slips::early_lines;
use desk::Desk;
use desk::routes::Rules;
use exporting::{Export, Nobody};
use queue::Archive;
use std::alloc::{AllocError, Global};
use std::io::{self, Write};
use std::net::TcpListener;
use std::os::fd::AsFd;

/// Serves `left` connections of a listener, or fails with `CannotListen` if there is none.
fn serve_listener<'a, K: Keeper, E: Write>(
    rt: &HostRuntime,
    desk: &Desk,
    archive: &mut Archive<K>,
    listener: &io::Result<TcpListener>,
    left: u64,
    moments: &mut Moments<'_>,
    notes: &mut Notes<'_, E>,
) -> Result<(), Stop<'a>>
    ensures served { HasServed K.Keeper left (IsClientsWithin desk.now.rules moments.old.greatest moments.new.greatest) archive.old.keeper archive.new.keeper }
    ensures rises { moments.old.greatest ≤ moments.new.greatest }
    ensures still { moments.old.file ≡ None → moments.new.greatest ≡ moments.old.greatest }
    ensures file { moments.new.file ≡ moments.old.file }
{
    match listener {
        Ok(listener) => serve_at(
            rt,
            desk,
            archive,
            listener,
            left,
            moments,
            patience(),
            notes,
        ),
        Err(_) => Err(Stop::CannotListen),
    }
}

/// A folder that is exported to, and how: whether a suite is shown there only once its new state is signed, whether one that is shown there
/// signed is shown unsigned from now on, and whether each index text also stands there under its digest. `key` is the file of the key that
/// its pages name if it is signed, and `database` the database file of the archive.
#[derive(Clone, Copy)]
struct Tree<'t> {
    folder: &'t str,
    is_signed: bool,
    is_unsigned: bool,
    is_by_hash: bool,
    key: &'t str,
    database: &'t str,
}

/// Exports into a folder, as of a moment. If the export fails, that is noted, and serving goes on.
fn export_to<K: Keeper, E: Write>(
    rt: &HostRuntime,
    archive: &mut Archive<K>,
    tree: Tree<'_>,
    at: u64,
    notes: &mut Notes<'_, E>,
)
    ensures reads { Reads K.Keeper archive.old.keeper archive.new.keeper }
{
    let asked = Export {
        folder: tree.folder,
        at,
        signed: tree.is_signed,
        unsigned: tree.is_unsigned,
        by_hash: tree.is_by_hash,
        key: tree.key,
        database: tree.database,
    };
    if let Err(fault) = exporting::export(rt, archive, &asked, &mut io::sink(), &mut Nobody) {
        let stop = crate::export::stop_of(fault);
        if let Ok(line) = format!(in rt.alloc(); "{stop}") {
            notes.write_failure(rt.alloc(), at, &line);
        }
    }
}

/// Serves a connection of a listener, and exports after it if it may have changed what suites show.
fn serve_one<'a, K: Keeper, E: Write>(
    rt: &HostRuntime,
    desk: &Desk,
    archive: &mut Archive<K>,
    listener: &io::Result<TcpListener>,
    moments: &mut Moments<'_>,
    tree: Tree<'_>,
    notes: &mut Notes<'_, E>,
) -> Result<(), Stop<'a>>
    ensures served { HasServed K.Keeper 1 (IsClientsWithin desk.now.rules moments.old.greatest moments.new.greatest) archive.old.keeper archive.new.keeper }
    ensures rises { moments.old.greatest ≤ moments.new.greatest }
    ensures still { moments.old.file ≡ None → moments.new.greatest ≡ moments.old.greatest }
    ensures file { moments.new.file ≡ moments.old.file }
{
    serve_listener(rt, desk, archive, listener, 1, moments, notes)?;
    if notes.takes_change() {
        export_to(rt, archive, tree, moments.last(), notes);
    }
    Ok(())
}

/// Serves `left` connections of a listener, one by one, and exports after each that may have changed what suites show.
fn serve_and_export<'a, K: Keeper, E: Write>(
    rt: &HostRuntime,
    desk: &Desk,
    archive: &mut Archive<K>,
    listener: &io::Result<TcpListener>,
    left: u64,
    moments: &mut Moments<'_>,
    tree: Tree<'_>,
    notes: &mut Notes<'_, E>,
) -> Result<(), Stop<'a>>
    // The connections are served as without an export, which only reads.
    ensures served { HasServed K.Keeper left (IsClientsWithin desk.now.rules moments.old.greatest moments.new.greatest) archive.old.keeper archive.new.keeper }
    ensures rises { moments.old.greatest ≤ moments.new.greatest }
    ensures still { moments.old.file ≡ None → moments.new.greatest ≡ moments.old.greatest }
    ensures file { moments.new.file ≡ moments.old.file }
{
    for served in 0..left {
        match serve_one(rt, desk, archive, listener, moments, tree, notes) {
            Ok(()) => {}
            Err(Stop::Shut(_)) => return Err(Stop::Shut(left - served - 1)),
            Err(stop) => return Err(stop),
        }
    }
    Ok(())
}

/// How an archive is served: whether a PUT or POST that a page in a browser sends is refused, the file of the key that its pages name, if
/// they say that the Releases are signed, and the folder to which it is exported meanwhile, if to any.
#[derive(Clone, Copy)]
struct Service<'t> {
    refuses_origin: bool,
    key: Option<&'t str>,
    tree: Option<Tree<'t>>,
}

/// The file of the key that the pages of a served archive name, if they say that the Releases are signed.
fn signing_key<'t>(is_signed: bool, key: Option<&'t str>) -> Option<&'t str>
    ensures { option_map (λ name. name.now) result ≡ signing_key is_signed key.entry }
{
    if !is_signed {
        return None;
    }
    Some(key_name(key))
}

/// What a desk goes by that refuses a PUT or POST which a page in a browser sends, or one that does not, and whose pages name this key, if
/// any.
fn rules_of(alloc: Global, refuses_origin: bool, key: Option<&str>) -> Result<Rules, AllocError>
    ensures refuses { IfOk result (λ rules. rules.refuses_origin ≡ refuses_origin) }
    ensures key { IfOk result (λ rules. option_map string_bytes rules.key ≡ option_map (λ name. name.now) key.entry) }
{
    let key = match key {
        Some(name) => Some(String::from_str(alloc, name)?),
        None => None,
    };
    Ok(Rules {
        refuses_origin,
        key,
    })
}

/// A desk that goes by such rules.
fn desk_of(alloc: Global, refuses_origin: bool, key: Option<&str>) -> Result<Desk, AllocError>
    ensures refuses { IfOk result (λ desk. desk.rules.refuses_origin ≡ refuses_origin) }
    ensures key { IfOk result (λ desk. option_map string_bytes desk.rules.key ≡ option_map (λ name. name.now) key.entry) }
{
    let rules = rules_of(alloc, refuses_origin, key)?;
    Desk::with_rules(alloc, rules)
}

/// Serves `left` connections by a desk, and exports after each that may have changed what suites show, if there is a folder for that.
fn serve_by<'a, K: Keeper, E: Write>(
    rt: &HostRuntime,
    desk: &Desk,
    archive: &mut Archive<K>,
    listener: &io::Result<TcpListener>,
    left: u64,
    moments: &mut Moments<'_>,
    tree: Option<Tree<'_>>,
    notes: &mut Notes<'_, E>,
) -> Result<(), Stop<'a>>
    ensures served { HasServed K.Keeper left (IsClientsWithin desk.now.rules moments.old.greatest moments.new.greatest) archive.old.keeper archive.new.keeper }
{
    match tree {
        Some(tree) => serve_and_export(rt, desk, archive, listener, left, moments, tree, notes),
        None => serve_listener(rt, desk, archive, listener, left, moments, notes),
    }
}

/// Serves `left` connections over an archive, and closes it. Answers how many are left if its keeper is shut before the last, and else 0.
fn serve_some<'a, K: Keeper + Drop, F: InFile<K>, E: Write>(
    rt: &HostRuntime,
    mut archive: Archive<K>,
    listener: &io::Result<TcpListener>,
    left: u64,
    moments: &mut Moments<'_>,
    service: Service<'_>,
    notes: &mut Notes<'_, E>,
) -> Result<u64, Stop<'a>> {
    let served = match desk_of(rt.alloc(), service.refuses_origin, service.key) {
        Ok(desk) => {
            serve_by(
                rt,
                &desk,
                &mut archive,
                listener,
                left,
                moments,
                service.tree,
                notes,
            )
        }
        Err(error) => Err(Stop::from(error)),
    };
    close::<K, F>(archive);
    match served {
        Ok(()) => Ok(0),
        Err(Stop::Shut(left)) => Ok(left),
        Err(stop) => Err(stop),
    }
}

/// Why `serve` ends if an archive that it has served before can't be opened again.
fn again<'a>(stop: Stop<'a>) -> Stop<'a> {
    match stop {
        Stop::NoArchive(fault) | Stop::Older(fault, _) | Stop::Later(fault, _) => Stop::Lost(fault),
        stop => stop,
    }
}

/// Opens the archive of a database file once more, and serves `left` connections as `serve_some` does.
fn serve_again<'a, K: Keeper + Drop, F: InFile<K>, E: Write>(
    rt: &HostRuntime,
    db: &str,
    listener: &io::Result<TcpListener>,
    left: u64,
    moments: &mut Moments<'_>,
    service: Service<'_>,
    notes: &mut Notes<'_, E>,
) -> Result<u64, Stop<'a>> {
    let archive = open_archive::<K, F>(rt, db)?;
    serve_some::<K, F, E>(rt, archive, listener, left, moments, service, notes)
}

/// A log on an output that is standard error.
fn log_on<'l, E: Write>(rt: &HostRuntime, err: &'l mut E) -> Log<'l, E> {
    let stderr = rt.stderr();
    Log::new(err, stderr.as_fd().try_clone_to_owned().ok())
}

/// Writes which suites of an archive have a date after a moment. A line that can't be written at once is left out.
fn log_early<K: Keeper, E: Write>(
    alloc: Global,
    archive: &Archive<K>,
    at: u64,
    log: &mut Log<'_, E>,
) {
    let Ok(lines) = early_lines(alloc, archive, at) else {
        return;
    };
    for line in &lines {
        if let Ok(text) = format!(in alloc; "archive: {line}") {
            log.write_text(alloc, text.as_str());
        }
    }
}

/// The folder that a serving of this database file exports to, if it does.
fn tree_of<'t>(db: &'t str, serving: &Serving<'t>) -> Option<Tree<'t>> {
    match serving.export {
        Some(folder) => Some(Tree {
            folder,
            is_signed: serving.signed,
            is_unsigned: serving.unsigned,
            is_by_hash: serving.by_hash,
            key: key_name(serving.key),
            database: db,
        }),
        None => None,
    }
}

/// How a serving serves the archive of this database file.
fn service_of<'t>(db: &'t str, serving: &Serving<'t>) -> Service<'t>
    ensures refuses { result.refuses_origin ≡ serving.now.refuse_origin }
    ensures key { option_map (λ name. name.now) result.key ≡ signing_key serving.now.signed serving.now.key }
{
    Service {
        refuses_origin: serving.refuse_origin,
        key: signing_key(serving.signed, serving.key),
        tree: tree_of(db, serving),
    }
}

/// Serves `count` connections of a listener over the archive of a database file, and opens it once more each time that its keeper is shut.
fn serve_all<'a, K: Keeper + Drop, F: InFile<K>, E: Write>(
    rt: &HostRuntime,
    db: &str,
    archive: Archive<K>,
    listener: &io::Result<TcpListener>,
    count: u64,
    moments: &mut Moments<'_>,
    service: Service<'_>,
    notes: &mut Notes<'_, E>,
) -> Result<(), Stop<'a>> {
    let mut left = serve_some::<K, F, E>(rt, archive, listener, count, moments, service, notes)?;
    for _ in 1..count {
        if left == 0 {
            break;
        }
        left = match serve_again::<K, F, E>(rt, db, listener, left, moments, service, notes) {
            Ok(left) => left,
            Err(stop) => return Err(again(stop)),
        };
    }
    Ok(())
}

/// Serves the archive of a database file. The listener is made before the file is opened, so that clients wait meanwhile, and ends after it
/// is closed. The suites with a date after the moment of the first connection are named on `err` before it is accepted. If the keeper is shut
/// by a disk that fails, the file is opened again, and the rest of the connections is answered from what is found then.
pub fn serve_file<'a, K: Keeper + Drop, F: InFile<K>, E: Write>(
    rt: &HostRuntime,
    db: &str,
    serving: Serving<'_>,
    err: &mut E,
) -> Result<(), Stop<'a>> {
    keep_room(rt.alloc());
    let listener = TcpListener::bind(rt, serving.address);
    let mut moments = Moments::new(serving.at, serving.moments);
    let mut first = moments;
    let service = service_of(db, &serving);
    let mut log = log_on(rt, err);
    let archive = open_archive::<K, F>(rt, db)?;
    log_early(rt.alloc(), &archive, first.next(rt), &mut log);
    let mut notes = Notes::new(log, serving.log);
    let count = serving.count;
    serve_all::<K, F, E>(
        rt,
        db,
        archive,
        &listener,
        count,
        &mut moments,
        service,
        &mut notes,
    )
}
