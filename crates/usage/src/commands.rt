//! The commands of the program, each with its arguments.

ghost use Rattle.std.specs.Prelude.{◌≡◌, IfOk, codes, false};
ghost use Rattle.clap.specs.Words.{App, Rule, new_app, rule_of, with_rule, with_subcommand};
ghost use Rattle.usage.specs.Shape.{archive_app, new_archive, IsCommand, try_app, compare_app, check_app, init_app, put_app, run_app, db_app, timed_app, copy_app, promote_app, remove_app, batch_app, configure_app, migrate_app, show_app, list_app, waiting_app, verdicts_app, why_app, export_app, export_keyed, export_options, serve_app, serve_by_hash, serve_keyed, serve_options, serve_refusing, serve_unsigned, word_rule, with_changes, with_others, with_questions};

use crate::arguments::{
    at, by_hash, count, db, export, from, json, key, log, many, moments, optional_at,
    optional_word, paths, refuse_origin, signed, strict, unsigned, word,
};
use crate::version::VERSION;
use clap::{Arg, Command};
use std::alloc::{AllocError, Global};

/// A command without arguments, and what it does.
fn bare_command<'a>(alloc: Global, name: &'a str, about: &'a str) -> Command<'a>
    ensures { IsCommand (new_app name.now) result }
{
    Command::new(alloc, name).about(about)
}

/// A command with one more argument. The commands are made by calls of it, since each `?` of their own would drop a command.
fn with_arg<'a>(
    command: Result<Command<'a>, AllocError>,
    arg: Arg<'a>,
) -> Result<Command<'a>, AllocError>
    ensures { (app : App) (rule : Rule) → IfOk command.entry (IsCommand app) → rule_of arg.entry ≡ rule → arg.entry.global ≡ false → IfOk result (IsCommand (with_rule app rule)) }
{
    command?.arg(arg)
}

fn try_command<'a>(alloc: Global) -> Result<Command<'a>, AllocError>
    ensures { IfOk result (IsCommand try_app) }
{
    let command = bare_command(
        alloc,
        "try",
        "Delivers files to a fresh archive in memory, runs its queue and prints its Packages",
    );
    with_arg(
        Ok(command),
        paths(alloc, "A file to deliver, in this order"),
    )
}

fn compare_command<'a>(alloc: Global) -> Result<Command<'a>, AllocError>
    ensures { IfOk result (IsCommand compare_app) }
{
    let command = bare_command(
        alloc,
        "compare",
        "Says how two versions compare: less, equal or greater",
    );
    let command = with_arg(Ok(command), word(alloc, "A", "A version"));
    with_arg(
        command,
        word(alloc, "B", "The version that it is compared with"),
    )
}

fn check_command<'a>(alloc: Global) -> Result<Command<'a>, AllocError>
    ensures { IfOk result (IsCommand check_app) }
{
    let command = bare_command(
        alloc,
        "check",
        "Reads a configuration, prints what it says, and which fields are passed over",
    );
    with_arg(
        Ok(command),
        word(alloc, "CONF", "The file of the configuration"),
    )
}

/// A command on the archive of a database, and what it does.
fn db_command<'a>(alloc: Global, name: &'a str, about: &'a str) -> Result<Command<'a>, AllocError>
    ensures { IfOk result (IsCommand (db_app name.now)) }
{
    let command = bare_command(alloc, name, about);
    with_arg(Ok(command), db(alloc))
}

/// A command on the archive of a database that is handed a moment, and what it does.
fn timed_command<'a>(
    alloc: Global,
    name: &'a str,
    about: &'a str,
) -> Result<Command<'a>, AllocError>
    ensures { IfOk result (IsCommand (timed_app name.now)) }
{
    with_arg(db_command(alloc, name, about), at(alloc))
}

/// A command on the archive of a database that is handed a moment and a word, and what it and the word mean.
fn worded_command<'a>(
    alloc: Global,
    name: &'a str,
    about: &'a str,
    first: &'a str,
    meaning: &'a str,
) -> Result<Command<'a>, AllocError>
    ensures { IfOk result (IsCommand (with_rule (timed_app name.now) (word_rule first.now))) }
{
    with_arg(
        timed_command(alloc, name, about),
        word(alloc, first, meaning),
    )
}

fn init_command<'a>(alloc: Global) -> Result<Command<'a>, AllocError>
    ensures { IfOk result (IsCommand init_app) }
{
    worded_command(
        alloc,
        "init",
        "Makes an archive in a database file",
        "CONF",
        "The file of its configuration",
    )
}

fn put_command<'a>(alloc: Global) -> Result<Command<'a>, AllocError>
    ensures { IfOk result (IsCommand put_app) }
{
    let command = timed_command(
        alloc,
        "put",
        "Delivers files: new, again or refused, a line for each",
    );
    with_arg(
        command,
        paths(
            alloc,
            "A file, delivered under the text behind its last slash",
        ),
    )
}

fn run_command<'a>(alloc: Global) -> Result<Command<'a>, AllocError>
    ensures { IfOk result (IsCommand run_app) }
{
    let command = timed_command(
        alloc,
        "run",
        "Runs the queue: a line for each upload that is judged",
    );
    with_arg(command, strict(alloc))
}

fn copy_command<'a>(alloc: Global) -> Result<Command<'a>, AllocError>
    ensures { IfOk result (IsCommand copy_app) }
{
    let command = worded_command(
        alloc,
        "copy",
        "Copies a source's packages to another suite, prints how many are new",
        "FROM",
        "The suite that shows them",
    );
    let command = with_arg(command, word(alloc, "TO", "The suite that is to show them"));
    with_arg(command, word(alloc, "SOURCE", "The name of the source"))
}

fn promote_command<'a>(alloc: Global) -> Result<Command<'a>, AllocError>
    ensures { IfOk result (IsCommand promote_app) }
{
    let command = worded_command(
        alloc,
        "promote",
        "Copies several sources or all of a suite at once, prints how many are new",
        "FROM",
        "The suite that shows them",
    );
    let command = with_arg(command, word(alloc, "TO", "The suite that is to show them"));
    with_arg(
        command,
        many(
            alloc,
            "SOURCE",
            "The name of a source; without one, all that FROM shows",
        ),
    )
}

fn remove_command<'a>(alloc: Global) -> Result<Command<'a>, AllocError>
    ensures { IfOk result (IsCommand remove_app) }
{
    let command = worded_command(
        alloc,
        "remove",
        "Removes a package from a suite, prints how many items it showed",
        "SUITE",
        "The suite that shows it",
    );
    with_arg(
        command,
        word(alloc, "PACKAGE", "The name of the package or source"),
    )
}

fn clean_command<'a>(alloc: Global) -> Result<Command<'a>, AllocError>
    ensures { IfOk result (IsCommand (timed_app (codes "clean"))) }
{
    timed_command(
        alloc,
        "clean",
        "Takes away the arrivals that count no more, prints how many",
    )
}

fn batch_command<'a>(alloc: Global) -> Result<Command<'a>, AllocError>
    ensures { IfOk result (IsCommand batch_app) }
{
    let command = timed_command(
        alloc,
        "batch",
        "Does the commands of a list over one opening, prints what each answers",
    );
    let command = with_arg(command, strict(alloc));
    with_arg(
        command,
        word(
            alloc,
            "LIST",
            "The file of the list, a command a line; - is standard input",
        ),
    )
}

fn configure_command<'a>(alloc: Global) -> Result<Command<'a>, AllocError>
    ensures { IfOk result (IsCommand configure_app) }
{
    worded_command(
        alloc,
        "configure",
        "Gives an archive another configuration, if that keeps all that its suites show",
        "CONF",
        "The file of its configuration",
    )
}

fn migrate_command<'a>(alloc: Global) -> Result<Command<'a>, AllocError>
    ensures { IfOk result (IsCommand migrate_app) }
{
    let command = bare_command(
        alloc,
        "migrate",
        "Makes an archive in a database file from one of an older layout",
    );
    let command = with_arg(Ok(command), from(alloc));
    let command = with_arg(command, db(alloc));
    let command = with_arg(command, at(alloc));
    with_arg(
        command,
        word(alloc, "CONF", "The file of its configuration"),
    )
}

fn show_command<'a>(alloc: Global) -> Result<Command<'a>, AllocError>
    ensures { IfOk result (IsCommand show_app) }
{
    let command = db_command(alloc, "show", "Prints an index or a file of the pool");
    with_arg(
        command,
        word(alloc, "PATH", "Where it stands, such as dists/box/Release"),
    )
}

fn list_command<'a>(alloc: Global) -> Result<Command<'a>, AllocError>
    ensures { IfOk result (IsCommand list_app) }
{
    let command = db_command(alloc, "list", "Lists what suites show, an item a line");
    let command = with_arg(command, json(alloc));
    with_arg(
        command,
        optional_word(
            alloc,
            "SUITE",
            "The suite that shows it; without it all suites, with the codename in front",
        ),
    )
}

fn waiting_command<'a>(alloc: Global) -> Result<Command<'a>, AllocError>
    ensures { IfOk result (IsCommand waiting_app) }
{
    let command = timed_command(
        alloc,
        "waiting",
        "Lists the uploads without a verdict, each with how many files it lacks",
    );
    with_arg(command, json(alloc))
}

fn verdicts_command<'a>(alloc: Global) -> Result<Command<'a>, AllocError>
    ensures { IfOk result (IsCommand verdicts_app) }
{
    let command = db_command(alloc, "verdicts", "Lists the verdicts of all runs");
    with_arg(command, json(alloc))
}

fn why_command<'a>(alloc: Global) -> Result<Command<'a>, AllocError>
    ensures { IfOk result (IsCommand why_app) }
{
    let command = db_command(
        alloc,
        "why",
        "Says why an upload is refused, what one lacks that waits, and what to do",
    );
    let command = with_arg(
        command,
        optional_at(
            alloc,
            "The moment; without it all that was not cleaned counts",
        ),
    );
    let command = with_arg(command, json(alloc));
    with_arg(
        command,
        optional_word(
            alloc,
            "NAME",
            "The name of a .changes; without it, all that wait",
        ),
    )
}

fn configuration_command<'a>(alloc: Global) -> Result<Command<'a>, AllocError>
    ensures { IfOk result (IsCommand (db_app (codes "configuration"))) }
{
    db_command(
        alloc,
        "configuration",
        "Prints the configuration that an archive has",
    )
}

fn status_command<'a>(alloc: Global) -> Result<Command<'a>, AllocError>
    ensures { IfOk result (IsCommand (timed_app (codes "status"))) }
{
    timed_command(
        alloc,
        "status",
        "Prints figures of an archive: what waits, verdicts, what suites show, contents",
    )
}

/// The command that exports, with its options up to `--by-hash`.
fn export_with_options<'a>(alloc: Global) -> Result<Command<'a>, AllocError>
    ensures { IfOk result (IsCommand export_options) }
{
    let command = db_command(
        alloc,
        "export",
        "Writes what the suites show into a folder that any web server can show",
    );
    let command = with_arg(
        command,
        optional_at(
            alloc,
            "The moment of uploads.html; without it all that was not cleaned counts",
        ),
    );
    let command = with_arg(command, signed(alloc));
    let command = with_arg(command, unsigned(alloc));
    with_arg(command, by_hash(alloc))
}

/// The command that exports, with its options alone.
fn export_with_key<'a>(alloc: Global) -> Result<Command<'a>, AllocError>
    ensures { IfOk result (IsCommand export_keyed) }
{
    let command = export_with_options(alloc);
    with_arg(command, key(alloc))
}

/// The command that exports.
pub fn export_command<'a>(alloc: Global) -> Result<Command<'a>, AllocError>
    ensures { IfOk result (IsCommand export_app) }
{
    let command = export_with_key(alloc);
    with_arg(
        command,
        word(
            alloc,
            "DIR",
            "The folder, which is made where it is not there",
        ),
    )
}

/// The command that serves, with its options up to `--signed`.
fn serve_with_options<'a>(alloc: Global) -> Result<Command<'a>, AllocError>
    ensures { IfOk result (IsCommand serve_options) }
{
    let command = timed_command(
        alloc,
        "serve",
        "Answers HTTP connections, one after the other",
    );
    let command = with_arg(command, moments(alloc));
    let command = with_arg(command, log(alloc));
    let command = with_arg(command, export(alloc));
    with_arg(command, signed(alloc))
}

/// The command that serves, with its options up to `--unsigned`.
fn serve_with_unsigned<'a>(alloc: Global) -> Result<Command<'a>, AllocError>
    ensures { IfOk result (IsCommand serve_unsigned) }
{
    let command = serve_with_options(alloc);
    with_arg(command, unsigned(alloc))
}

/// The command that serves, with its options up to `--by-hash`.
fn serve_with_by_hash<'a>(alloc: Global) -> Result<Command<'a>, AllocError>
    ensures { IfOk result (IsCommand serve_by_hash) }
{
    let command = serve_with_unsigned(alloc);
    with_arg(command, by_hash(alloc))
}

/// The command that serves, with its options up to `--key`.
fn serve_with_key<'a>(alloc: Global) -> Result<Command<'a>, AllocError>
    ensures { IfOk result (IsCommand serve_keyed) }
{
    let command = serve_with_by_hash(alloc);
    with_arg(command, key(alloc))
}

/// The command that serves, with its options up to `--refuse-origin`.
fn serve_with_refuse_origin<'a>(alloc: Global) -> Result<Command<'a>, AllocError>
    ensures { IfOk result (IsCommand serve_refusing) }
{
    let command = serve_with_key(alloc);
    with_arg(command, refuse_origin(alloc))
}

/// The command that serves.
pub fn serve_command<'a>(alloc: Global) -> Result<Command<'a>, AllocError>
    ensures { IfOk result (IsCommand serve_app) }
{
    let command = serve_with_refuse_origin(alloc);
    let command = with_arg(
        command,
        word(alloc, "ADDRESS", "Where to listen, such as 127.0.0.1:8080"),
    );
    with_arg(command, count(alloc))
}

fn archive<'a>(alloc: Global) -> Result<Command<'a>, AllocError>
    ensures { IfOk result (IsCommand new_archive) }
{
    Command::new(alloc, "archive")
        .about("A Debian package archive with an incoming queue, in one database file")
        .version(VERSION)
        .no_binary_name(true)
        .subcommand_required(true)
        .arg_required_else_help(true)
        .bin_name("archive")
}

/// A command with one more subcommand.
fn with<'a>(
    command: Result<Command<'a>, AllocError>,
    sub: Result<Command<'a>, AllocError>,
) -> Result<Command<'a>, AllocError>
    ensures { (app part : App) → IfOk command.entry (IsCommand app) → IfOk sub.entry (IsCommand part) → IfOk result (IsCommand (with_subcommand app part.top)) }
{
    command?.subcommand(sub?)
}

/// A command with those subcommands that change an archive.
fn with_changing<'a>(
    alloc: Global,
    command: Result<Command<'a>, AllocError>,
) -> Result<Command<'a>, AllocError>
    ensures { (app : App) → IfOk command.entry (IsCommand app) → IfOk result (IsCommand (with_changes app)) }
{
    let command = with(command, init_command(alloc));
    let command = with(command, put_command(alloc));
    let command = with(command, run_command(alloc));
    let command = with(command, copy_command(alloc));
    let command = with(command, promote_command(alloc));
    let command = with(command, remove_command(alloc));
    let command = with(command, clean_command(alloc));
    let command = with(command, batch_command(alloc));
    let command = with(command, configure_command(alloc));
    with(command, migrate_command(alloc))
}

/// A command with those subcommands that ask an archive, and the one that serves it.
fn with_asking<'a>(
    alloc: Global,
    command: Result<Command<'a>, AllocError>,
) -> Result<Command<'a>, AllocError>
    ensures { (app : App) → IfOk command.entry (IsCommand app) → IfOk result (IsCommand (with_questions app)) }
{
    let command = with(command, show_command(alloc));
    let command = with(command, list_command(alloc));
    let command = with(command, waiting_command(alloc));
    let command = with(command, verdicts_command(alloc));
    let command = with(command, why_command(alloc));
    let command = with(command, configuration_command(alloc));
    let command = with(command, status_command(alloc));
    let command = with(command, export_command(alloc));
    with(command, serve_command(alloc))
}

/// A command with those subcommands that need no archive.
fn with_none<'a>(
    alloc: Global,
    command: Result<Command<'a>, AllocError>,
) -> Result<Command<'a>, AllocError>
    ensures { (app : App) → IfOk command.entry (IsCommand app) → IfOk result (IsCommand (with_others app)) }
{
    let command = with(command, try_command(alloc));
    let command = with(command, compare_command(alloc));
    with(command, check_command(alloc))
}

/// The commands of the program.
pub fn archive_command<'a>(alloc: Global) -> Result<Command<'a>, AllocError>
    ensures { IfOk result (IsCommand archive_app) }
{
    let command = with_none(alloc, archive(alloc));
    let command = with_changing(alloc, command);
    with_asking(alloc, command)
}
