//! The command line.
//!
//! What a line says is a `CommandLine`, and the call that reads one is `line`, since two items of a module may not differ in case alone.
//! The usage text of a command, as `Usage: try <PATH>...`, leaves out the program's name, since that is not among the words that are read.

ghost use Rattle.std.specs.Prelude.{◌≡◌, [], map, IfOk};
ghost use Rattle.clap.specs.Words.{fault_of, subcommand_of};
ghost use Rattle.command_line.specs.CommandLines.{IsLine};
ghost use Rattle.usage.specs.Shape.{archive_app};

use crate::parsed::{CommandLine, LineFault};
use crate::readings::command_of;
use crate::values::lacking;
use std::alloc::Global;
use usage::archive_command;

/// Reads a line's words, the program's name not among them, as one of
///
/// ```text
/// try PATH..
/// compare A B
/// check CONF
/// init --db FILE --at N CONF
/// put --db FILE --at N PATH..
/// run --db FILE --at N [--strict]
/// copy --db FILE --at N FROM TO SOURCE
/// promote --db FILE --at N FROM TO [SOURCE..]
/// remove --db FILE --at N SUITE PACKAGE
/// clean --db FILE --at N
/// batch --db FILE --at N [--strict] LIST
/// configure --db FILE --at N CONF
/// migrate --from FILE --db FILE --at N CONF
/// show --db FILE PATH
/// list --db FILE [--json] [SUITE]
/// waiting --db FILE --at N [--json]
/// verdicts --db FILE [--json]
/// why --db FILE [--at N] [--json] [NAME]
/// configuration --db FILE
/// export --db FILE [--at N] [--signed [--key NAME] | --unsigned] [--by-hash] DIR
/// serve --db FILE --at N [--moments MOMENTS] [--log] [--refuse-origin] [--export DIR] [--signed [--key NAME] | --unsigned] [--by-hash] ADDRESS COUNT
/// ```
///
/// in which `PATH..` is one path or more, `[SOURCE..]` any number of sources, N is 0 to 4102444799 and COUNT 1 to 1000000, and the NAME of a
/// key's file ends in .gpg, .pgp or .asc. It is refused with the text of the help or the version if that was asked for, or else with one
/// that says why the words are not a line. If there are no words, that is the help.
pub fn line<'a>(alloc: Global, words: &'a [&'a str]) -> Result<CommandLine<'a>, LineFault>
    ensures said { IfOk result (IsLine (subcommand_of archive_app (map (λ word. word.now) words.entry.now))) }
    // Only words in which clap finds no fault are a line.
    ensures taken { IfOk result (λ _. fault_of archive_app (map (λ word. word.now) words.entry.now) ≡ []) }
{
    let command = archive_command(alloc)?;
    let matches = command.try_get_matches_from(words)?;
    match matches.subcommand() {
        Some((name, found)) => command_of(alloc, name, found),
        None => Err(lacking(alloc)),
    }
}
