//! Values of a line's words, from its matches.

ghost use Rattle.std.specs.Prelude.{◌≡◌, codes, IfOk};
ghost use Rattle.std.specs.Option.{option_map};
ghost use Rattle.clap.specs.Words.{first_of, found_of, rows_of};
ghost use Rattle.command_line.specs.CommandLines.{AreWords, HasPaths, IsMoment, IsNumber, IsOptionalMoment, IsOptionalWord, IsWord, is_true};

use crate::parsed::LineFault;
use book::LATEST;
use clap::ArgMatches;
use clap::error::ErrorKind;
use std::alloc::{AllocError, Global};
use usage::{archive_command, export_command, serve_command};

/// The refusal of a line that lacks a word which its command needs.
pub fn lacking(alloc: Global) -> LineFault {
    match refusal(alloc) {
        Ok(fault) => fault,
        Err(_) => LineFault::OutOfMemory,
    }
}

fn refusal(alloc: Global) -> Result<LineFault, AllocError> {
    let mut command = archive_command(alloc)?;
    let error = command.error(ErrorKind::MissingRequiredArgument, "a word is missing")?;
    Ok(LineFault::Refused(error))
}

/// What clap says if another argument needs `--export`.
const WITHOUT_EXPORT: &str =
    "the following required arguments were not provided:\n  --export <DIR>";

/// What clap says if another argument needs `--signed`.
const WITHOUT_SIGNED: &str = "the following required arguments were not provided:\n  --signed";

/// What clap says if `--signed` and `--unsigned` are both given.
const BOTH: &str = "the argument '--signed' cannot be used with '--unsigned'";

/// The refusal of a line of `serve` that has an option of an export, and no `--export`.
pub fn without_export(alloc: Global) -> LineFault {
    serve_fault(alloc, ErrorKind::MissingRequiredArgument, WITHOUT_EXPORT)
}

/// The refusal of a line of `serve` that has both `--signed` and `--unsigned`.
pub fn serve_with_both(alloc: Global) -> LineFault {
    serve_fault(alloc, ErrorKind::ArgumentConflict, BOTH)
}

/// The refusal of a line of `serve` that has `--key`, and no `--signed`.
pub fn serve_without_signed(alloc: Global) -> LineFault {
    serve_fault(alloc, ErrorKind::MissingRequiredArgument, WITHOUT_SIGNED)
}

/// The refusal of a line of `serve` whose `--key` is no name of a key's file.
pub fn serve_misnamed(alloc: Global, key: Option<&str>) -> LineFault {
    match misnamed_text(alloc, key) {
        Ok(why) => serve_fault(alloc, ErrorKind::ValueValidation, why.as_str()),
        Err(_) => LineFault::OutOfMemory,
    }
}

fn serve_fault(alloc: Global, kind: ErrorKind, why: &str) -> LineFault {
    match serve_refusal(alloc, kind, why) {
        Ok(fault) => fault,
        Err(_) => LineFault::OutOfMemory,
    }
}

fn serve_refusal(alloc: Global, kind: ErrorKind, why: &str) -> Result<LineFault, AllocError> {
    let mut command = serve_command(alloc)?.bin_name("archive serve")?;
    let error = command.error(kind, why)?;
    Ok(LineFault::Refused(error))
}

/// The refusal of a line of `export` that has both `--signed` and `--unsigned`.
pub fn export_with_both(alloc: Global) -> LineFault {
    export_fault(alloc, ErrorKind::ArgumentConflict, BOTH)
}

/// The refusal of a line of `export` that has `--key`, and no `--signed`.
pub fn export_without_signed(alloc: Global) -> LineFault {
    export_fault(alloc, ErrorKind::MissingRequiredArgument, WITHOUT_SIGNED)
}

/// The refusal of a line of `export` whose `--key` is no name of a key's file.
pub fn export_misnamed(alloc: Global, key: Option<&str>) -> LineFault {
    match misnamed_text(alloc, key) {
        Ok(why) => export_fault(alloc, ErrorKind::ValueValidation, why.as_str()),
        Err(_) => LineFault::OutOfMemory,
    }
}

fn export_fault(alloc: Global, kind: ErrorKind, why: &str) -> LineFault {
    match export_refusal(alloc, kind, why) {
        Ok(fault) => fault,
        Err(_) => LineFault::OutOfMemory,
    }
}

fn export_refusal(alloc: Global, kind: ErrorKind, why: &str) -> Result<LineFault, AllocError> {
    let mut command = export_command(alloc)?.bin_name("archive export")?;
    let error = command.error(kind, why)?;
    Ok(LineFault::Refused(error))
}

/// What clap says if the value of `--key` is no name of a key's file.
fn misnamed_text(alloc: Global, key: Option<&str>) -> Result<String, AllocError> {
    let key = key.unwrap_or("");
    format!(in alloc;
        "invalid value '{key}' for '--key <NAME>': it has to end in .gpg, .pgp or .asc, and to be 1 to 100 of A-Z a-z 0-9 . + ~ _ -, the first a letter or digit"
    )
}

fn word_value<'a>(found: &ArgMatches<'a>, id: &str) -> Option<&'a str>
    ensures { option_map (λ value. value.now) result ≡ first_of id.now (rows_of (found_of found.now)) }
{
    found.get_str(id)
}

/// The value of an argument that may be left out.
pub fn optional<'a>(found: &ArgMatches<'a>, id: &str) -> Option<&'a str>
    ensures { IsOptionalWord id.now (rows_of (found_of found.now)) result }
{
    word_value(found, id)
}

/// Whether a flag was given.
pub fn is_set(found: &ArgMatches<'_>, id: &str) -> bool
    ensures { result ≡ is_true id.now (rows_of (found_of found.now)) }
{
    match word_value(found, id) {
        Some(value) => value == "true",
        None => false,
    }
}

/// The value of an argument.
pub fn required<'a>(alloc: Global, found: &ArgMatches<'a>, id: &str) -> Result<&'a str, LineFault>
    ensures { IfOk result (IsWord id.now (rows_of (found_of found.now))) }
{
    match word_value(found, id) {
        Some(value) => Ok(value),
        None => Err(lacking(alloc)),
    }
}

/// The number that an argument has, from `least` to `most`.
pub fn number(
    alloc: Global,
    found: &ArgMatches<'_>,
    id: &str,
    least: u64,
    most: u64,
) -> Result<u64, LineFault>
    ensures { IfOk result (IsNumber id.now (rows_of (found_of found.now)) least most) }
{
    let Ok(number) = required(alloc, found, id)?.parse::<u64>() else {
        return Err(lacking(alloc));
    };
    if number < least || number > most {
        return Err(lacking(alloc));
    }
    Ok(number)
}

/// The moment, in seconds since 1970-01-01 00:00:00 UTC.
pub fn moment(alloc: Global, found: &ArgMatches<'_>) -> Result<u64, LineFault>
    ensures { IfOk result (IsMoment (rows_of (found_of found.now))) }
{
    number(alloc, found, "at", 0, LATEST)
}

/// The moment, in seconds since 1970-01-01 00:00:00 UTC, if one was given.
pub fn optional_moment(alloc: Global, found: &ArgMatches<'_>) -> Result<Option<u64>, LineFault>
    ensures { IfOk result (IsOptionalMoment (rows_of (found_of found.now))) }
{
    match word_value(found, "at") {
        Some(_) => Ok(Some(moment(alloc, found)?)),
        None => Ok(None),
    }
}

fn texts<'a>(
    alloc: Global,
    found: &ArgMatches<'a>,
    id: &str,
) -> Result<Option<Vec<&'a str>>, AllocError>
    ensures { IfOk result (AreWords id.now (rows_of (found_of found.now))) }
{
    match found.get_strs(id) {
        Some(texts) => Ok(Some(Vec::from_slice(alloc, texts)?)),
        None => Ok(None),
    }
}

/// The paths of a command, one or more, in their order.
pub fn paths<'a>(alloc: Global, found: &ArgMatches<'a>) -> Result<Vec<&'a str>, LineFault>
    ensures { IfOk result (HasPaths (rows_of (found_of found.now))) }
{
    match texts(alloc, found, "PATH")? {
        Some(paths) if !paths.is_empty() => Ok(paths),
        _ => Err(lacking(alloc)),
    }
}

/// The sources of a command, in their order, if any are named.
pub fn sources<'a>(alloc: Global, found: &ArgMatches<'a>) -> Result<Option<Vec<&'a str>>, LineFault>
    ensures { IfOk result (AreWords (codes "SOURCE") (rows_of (found_of found.now))) }
{
    Ok(texts(alloc, found, "SOURCE")?)
}
