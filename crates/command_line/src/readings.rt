//! Each command of a line, from its matches.

ghost use Rattle.std.specs.Prelude.{◌≡◌, codes, IfOk, Some};
ghost use Rattle.clap.specs.Words.{Text, found_of, rows_of};
ghost use Rattle.command_line.specs.CommandLines.{Asks, IsLine, IsTimed, has_both as has_both_of, is_true, lacks_export as lacks_export_of};

use crate::keys::{is_misnamed, lacks_signed};
use crate::parsed::{CommandLine, Exporting, LineFault, Manner, Serving};
use crate::values::{
    export_misnamed, export_with_both, export_without_signed, is_set, lacking, moment, number,
    optional, optional_moment, paths, required, serve_misnamed, serve_with_both,
    serve_without_signed, sources, without_export,
};
use clap::ArgMatches;
use lists::{LineRequest, Request};
use std::alloc::Global;
use usage::MOST_CONNECTIONS;

/// How an archive is asked, by the flags that were given.
fn manner(found: &ArgMatches<'_>) -> Manner
    ensures strict { result.strict ≡ is_true (codes "strict") (rows_of (found_of found.now)) }
    ensures json { result.json ≡ is_true (codes "json") (rows_of (found_of found.now)) }
{
    Manner {
        strict: is_set(found, "strict"),
        json: is_set(found, "json"),
    }
}

/// The database of an archive, and the moment at which it is asked.
#[derive(Clone, Copy)]
struct DatabaseAt<'a> {
    db: &'a str,
    at: u64,
}

fn timed<'a>(alloc: Global, found: &ArgMatches<'a>) -> Result<DatabaseAt<'a>, LineFault>
    ensures { IfOk result (λ timed. IsTimed (rows_of (found_of found.now)) timed.db timed.at) }
{
    Ok(DatabaseAt {
        db: required(alloc, found, "db")?,
        at: moment(alloc, found)?,
    })
}

/// What is asked of an archive, with its database, the moment and the flags.
fn asked<'a>(
    alloc: Global,
    found: &ArgMatches<'a>,
    request: LineRequest<'a>,
) -> Result<CommandLine<'a>, LineFault>
    ensures { (name : Text) → Asks name (rows_of (found_of found.now)) request.entry → IfOk result (IsLine (Some (name, rows_of (found_of found.now)))) }
{
    let timed = timed(alloc, found)?;
    Ok(CommandLine::Ask {
        db: timed.db,
        at: timed.at,
        request,
        manner: manner(found),
    })
}

fn read_try<'a>(alloc: Global, found: &ArgMatches<'a>) -> Result<CommandLine<'a>, LineFault>
    ensures { IfOk result (IsLine (Some (codes "try", rows_of (found_of found.now)))) }
{
    Ok(CommandLine::Try {
        paths: paths(alloc, found)?,
    })
}

fn read_compare<'a>(alloc: Global, found: &ArgMatches<'a>) -> Result<CommandLine<'a>, LineFault>
    ensures { IfOk result (IsLine (Some (codes "compare", rows_of (found_of found.now)))) }
{
    Ok(CommandLine::Compare {
        left: required(alloc, found, "A")?,
        right: required(alloc, found, "B")?,
    })
}

fn read_check<'a>(alloc: Global, found: &ArgMatches<'a>) -> Result<CommandLine<'a>, LineFault>
    ensures { IfOk result (IsLine (Some (codes "check", rows_of (found_of found.now)))) }
{
    Ok(CommandLine::Check {
        conf: required(alloc, found, "CONF")?,
    })
}

fn read_init<'a>(alloc: Global, found: &ArgMatches<'a>) -> Result<CommandLine<'a>, LineFault>
    ensures { IfOk result (IsLine (Some (codes "init", rows_of (found_of found.now)))) }
{
    let timed = timed(alloc, found)?;
    Ok(CommandLine::Init {
        db: timed.db,
        at: timed.at,
        conf: required(alloc, found, "CONF")?,
    })
}

fn read_put<'a>(alloc: Global, found: &ArgMatches<'a>) -> Result<CommandLine<'a>, LineFault>
    ensures { IfOk result (IsLine (Some (codes "put", rows_of (found_of found.now)))) }
{
    let path = paths(alloc, found)?;
    asked(alloc, found, Request::Put { path })
}

fn read_run<'a>(alloc: Global, found: &ArgMatches<'a>) -> Result<CommandLine<'a>, LineFault>
    ensures { IfOk result (IsLine (Some (codes "run", rows_of (found_of found.now)))) }
{
    asked(alloc, found, Request::Run)
}

fn read_copy<'a>(alloc: Global, found: &ArgMatches<'a>) -> Result<CommandLine<'a>, LineFault>
    ensures { IfOk result (IsLine (Some (codes "copy", rows_of (found_of found.now)))) }
{
    asked(
        alloc,
        found,
        Request::Copy {
            from: required(alloc, found, "FROM")?,
            to: required(alloc, found, "TO")?,
            source: required(alloc, found, "SOURCE")?,
        },
    )
}

fn read_promote<'a>(alloc: Global, found: &ArgMatches<'a>) -> Result<CommandLine<'a>, LineFault>
    ensures { IfOk result (IsLine (Some (codes "promote", rows_of (found_of found.now)))) }
{
    let from = required(alloc, found, "FROM")?;
    let to = required(alloc, found, "TO")?;
    let sources = sources(alloc, found)?;
    asked(alloc, found, Request::Promote { from, to, sources })
}

fn read_remove<'a>(alloc: Global, found: &ArgMatches<'a>) -> Result<CommandLine<'a>, LineFault>
    ensures { IfOk result (IsLine (Some (codes "remove", rows_of (found_of found.now)))) }
{
    asked(
        alloc,
        found,
        Request::Remove {
            suite: required(alloc, found, "SUITE")?,
            name: required(alloc, found, "PACKAGE")?,
        },
    )
}

fn read_clean<'a>(alloc: Global, found: &ArgMatches<'a>) -> Result<CommandLine<'a>, LineFault>
    ensures { IfOk result (IsLine (Some (codes "clean", rows_of (found_of found.now)))) }
{
    asked(alloc, found, Request::Clean)
}

fn read_batch<'a>(alloc: Global, found: &ArgMatches<'a>) -> Result<CommandLine<'a>, LineFault>
    ensures { IfOk result (IsLine (Some (codes "batch", rows_of (found_of found.now)))) }
{
    let timed = timed(alloc, found)?;
    Ok(CommandLine::Batch {
        db: timed.db,
        at: timed.at,
        list: required(alloc, found, "LIST")?,
        strict: is_set(found, "strict"),
    })
}

fn read_configure<'a>(alloc: Global, found: &ArgMatches<'a>) -> Result<CommandLine<'a>, LineFault>
    ensures { IfOk result (IsLine (Some (codes "configure", rows_of (found_of found.now)))) }
{
    let timed = timed(alloc, found)?;
    Ok(CommandLine::Configure {
        db: timed.db,
        at: timed.at,
        conf: required(alloc, found, "CONF")?,
    })
}

fn read_migrate<'a>(alloc: Global, found: &ArgMatches<'a>) -> Result<CommandLine<'a>, LineFault>
    ensures { IfOk result (IsLine (Some (codes "migrate", rows_of (found_of found.now)))) }
{
    let timed = timed(alloc, found)?;
    Ok(CommandLine::Migrate {
        from: required(alloc, found, "from")?,
        db: timed.db,
        at: timed.at,
        conf: required(alloc, found, "CONF")?,
    })
}

fn read_show<'a>(alloc: Global, found: &ArgMatches<'a>) -> Result<CommandLine<'a>, LineFault>
    ensures { IfOk result (IsLine (Some (codes "show", rows_of (found_of found.now)))) }
{
    Ok(CommandLine::Show {
        db: required(alloc, found, "db")?,
        path: required(alloc, found, "PATH")?,
    })
}

fn read_list<'a>(alloc: Global, found: &ArgMatches<'a>) -> Result<CommandLine<'a>, LineFault>
    ensures { IfOk result (IsLine (Some (codes "list", rows_of (found_of found.now)))) }
{
    Ok(CommandLine::List {
        db: required(alloc, found, "db")?,
        suite: optional(found, "SUITE"),
        json: is_set(found, "json"),
    })
}

fn read_waiting<'a>(alloc: Global, found: &ArgMatches<'a>) -> Result<CommandLine<'a>, LineFault>
    ensures { IfOk result (IsLine (Some (codes "waiting", rows_of (found_of found.now)))) }
{
    asked(alloc, found, Request::Waiting)
}

fn read_verdicts<'a>(alloc: Global, found: &ArgMatches<'a>) -> Result<CommandLine<'a>, LineFault>
    ensures { IfOk result (IsLine (Some (codes "verdicts", rows_of (found_of found.now)))) }
{
    Ok(CommandLine::Ask {
        db: required(alloc, found, "db")?,
        at: 0,
        request: Request::Verdicts,
        manner: manner(found),
    })
}

fn read_why<'a>(alloc: Global, found: &ArgMatches<'a>) -> Result<CommandLine<'a>, LineFault>
    ensures { IfOk result (IsLine (Some (codes "why", rows_of (found_of found.now)))) }
{
    Ok(CommandLine::Why {
        db: required(alloc, found, "db")?,
        at: optional_moment(alloc, found)?,
        name: optional(found, "NAME"),
        json: is_set(found, "json"),
    })
}

fn read_configuration<'a>(
    alloc: Global,
    found: &ArgMatches<'a>,
) -> Result<CommandLine<'a>, LineFault>
    ensures { IfOk result (IsLine (Some (codes "configuration", rows_of (found_of found.now)))) }
{
    Ok(CommandLine::Configuration {
        db: required(alloc, found, "db")?,
    })
}

fn read_status<'a>(alloc: Global, found: &ArgMatches<'a>) -> Result<CommandLine<'a>, LineFault>
    ensures { IfOk result (IsLine (Some (codes "status", rows_of (found_of found.now)))) }
{
    let timed = timed(alloc, found)?;
    Ok(CommandLine::Status {
        db: timed.db,
        at: timed.at,
    })
}

fn read_export<'a>(alloc: Global, found: &ArgMatches<'a>) -> Result<CommandLine<'a>, LineFault>
    ensures { IfOk result (IsLine (Some (codes "export", rows_of (found_of found.now)))) }
{
    let db = required(alloc, found, "db")?;
    let exporting = Exporting {
        at: optional_moment(alloc, found)?,
        dir: required(alloc, found, "DIR")?,
        signed: is_set(found, "signed"),
        unsigned: is_set(found, "unsigned"),
        by_hash: is_set(found, "by-hash"),
        key: optional(found, "key"),
    };
    if is_misnamed(exporting.key) {
        return Err(export_misnamed(alloc, exporting.key));
    }
    if lacks_signed(exporting.key, exporting.signed) {
        return Err(export_without_signed(alloc));
    }
    if has_both(exporting.signed, exporting.unsigned) {
        return Err(export_with_both(alloc));
    }
    Ok(CommandLine::Export { db, exporting })
}

/// Whether a line has both `--signed` and `--unsigned`.
fn has_both(signed: bool, unsigned: bool) -> bool
    ensures { result ≡ has_both_of signed unsigned }
{
    signed && unsigned
}

/// Whether a serving lacks the folder that its `--unsigned` or `--by-hash` is about.
fn lacks_export(serving: &Serving<'_>) -> bool
    ensures { result ≡ lacks_export_of serving.now }
{
    serving.export.is_none() && (serving.unsigned || serving.by_hash)
}

fn read_serve<'a>(alloc: Global, found: &ArgMatches<'a>) -> Result<CommandLine<'a>, LineFault>
    ensures { IfOk result (IsLine (Some (codes "serve", rows_of (found_of found.now)))) }
{
    let db = required(alloc, found, "db")?;
    let serving = Serving {
        at: moment(alloc, found)?,
        moments: optional(found, "moments"),
        log: is_set(found, "log"),
        export: optional(found, "export"),
        signed: is_set(found, "signed"),
        unsigned: is_set(found, "unsigned"),
        by_hash: is_set(found, "by-hash"),
        key: optional(found, "key"),
        refuse_origin: is_set(found, "refuse-origin"),
        address: required(alloc, found, "ADDRESS")?,
        count: number(alloc, found, "COUNT", 1, MOST_CONNECTIONS)?,
    };
    if is_misnamed(serving.key) {
        return Err(serve_misnamed(alloc, serving.key));
    }
    if lacks_signed(serving.key, serving.signed) {
        return Err(serve_without_signed(alloc));
    }
    if lacks_export(&serving) {
        return Err(without_export(alloc));
    }
    if has_both(serving.signed, serving.unsigned) {
        return Err(serve_with_both(alloc));
    }
    Ok(CommandLine::Serve { db, serving })
}

/// A command from its name and its matches.
pub fn command_of<'a>(
    alloc: Global,
    name: &str,
    found: &ArgMatches<'a>,
) -> Result<CommandLine<'a>, LineFault>
    ensures { IfOk result (IsLine (Some (name.now, rows_of (found_of found.now)))) }
{
    match name {
        "try" => read_try(alloc, found),
        "compare" => read_compare(alloc, found),
        "check" => read_check(alloc, found),
        "init" => read_init(alloc, found),
        "put" => read_put(alloc, found),
        "run" => read_run(alloc, found),
        "copy" => read_copy(alloc, found),
        "promote" => read_promote(alloc, found),
        "remove" => read_remove(alloc, found),
        "clean" => read_clean(alloc, found),
        "batch" => read_batch(alloc, found),
        "configure" => read_configure(alloc, found),
        "migrate" => read_migrate(alloc, found),
        "show" => read_show(alloc, found),
        "list" => read_list(alloc, found),
        "waiting" => read_waiting(alloc, found),
        "verdicts" => read_verdicts(alloc, found),
        "why" => read_why(alloc, found),
        "configuration" => read_configuration(alloc, found),
        "status" => read_status(alloc, found),
        "export" => read_export(alloc, found),
        "serve" => read_serve(alloc, found),
        _ => Err(lacking(alloc)),
    }
}
