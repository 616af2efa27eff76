//! The arguments of the program's commands.
//!
//! clap promises for the program's own arguments that a required one is there, and not for those of a command. So each command asks for its
//! values again. A line that lacked one would be refused (L2); tests have found no such line.

ghost use Rattle.std.specs.Prelude.{◌≡◌, codes, false};
ghost use Rattle.clap.specs.Words.{rule_of};
ghost use Rattle.usage.specs.Shape.{at_rule, count_rule, db_rule, flag_rule, from_rule, many_rule, optional_at_rule, optional_word_rule, option_rule, path_rule, word_rule};

use book::LATEST;
use clap::{Arg, ArgAction, value_parser};
use std::alloc::Global;

/// The most connections that one call of the program serves.
pub const MOST_CONNECTIONS: u64 = 1_000_000;

/// One word, and what it means.
pub fn word<'a>(alloc: Global, name: &'a str, meaning: &'a str) -> Arg<'a>
    ensures rule { rule_of result ≡ word_rule name.now }
    ensures local { result.global ≡ false }
{
    Arg::new(alloc, name)
        .required(true)
        .action(ArgAction::Set)
        .help(meaning)
}

/// One word, and what it means. It may be left out.
pub fn optional_word<'a>(alloc: Global, name: &'a str, meaning: &'a str) -> Arg<'a>
    ensures rule { rule_of result ≡ optional_word_rule name.now }
    ensures local { result.global ≡ false }
{
    Arg::new(alloc, name).action(ArgAction::Set).help(meaning)
}

/// Any number of words, and what each means.
pub fn many<'a>(alloc: Global, id: &'a str, meaning: &'a str) -> Arg<'a>
    ensures rule { rule_of result ≡ many_rule id.now }
    ensures local { result.global ≡ false }
{
    Arg::new(alloc, id)
        .action(ArgAction::Append)
        .num_args(1..)
        .help(meaning)
}

/// One path or more, and what each means.
pub fn paths<'a>(alloc: Global, meaning: &'a str) -> Arg<'a>
    ensures rule { rule_of result ≡ path_rule }
    ensures local { result.global ≡ false }
{
    many(alloc, "PATH", meaning).required(true)
}

/// `--db FILE`, the database.
pub fn db<'a>(alloc: Global) -> Arg<'a>
    ensures rule { rule_of result ≡ db_rule }
    ensures local { result.global ≡ false }
{
    word(alloc, "db", "The database file of the archive")
        .long("db")
        .value_name("FILE")
}

/// `--from FILE`, the database of an archive of an older layout.
pub fn from<'a>(alloc: Global) -> Arg<'a>
    ensures rule { rule_of result ≡ from_rule }
    ensures local { result.global ≡ false }
{
    word(
        alloc,
        "from",
        "The database file of the older archive, which stays as it is",
    )
    .long("from")
    .value_name("FILE")
}

/// `--at N`, the moment.
pub fn at<'a>(alloc: Global) -> Arg<'a>
    ensures rule { rule_of result ≡ at_rule }
    ensures local { result.global ≡ false }
{
    word(
        alloc,
        "at",
        "The moment, in seconds since 1970-01-01 00:00:00 UTC; it must never fall",
    )
    .long("at")
    .value_name("N")
    .value_parser(value_parser!(u64).range(0..=LATEST as i64))
}

/// `--at N`, the moment, which may be left out, and what it means.
pub fn optional_at<'a>(alloc: Global, meaning: &'a str) -> Arg<'a>
    ensures rule { rule_of result ≡ optional_at_rule }
    ensures local { result.global ≡ false }
{
    Arg::new(alloc, "at")
        .long("at")
        .value_name("N")
        .action(ArgAction::Set)
        .value_parser(value_parser!(u64).range(0..=LATEST as i64))
        .help(meaning)
}

/// `--NAME` with a value after it, and what that means. It may be left out.
pub fn option<'a>(alloc: Global, name: &'a str, value: &'a str, meaning: &'a str) -> Arg<'a>
    ensures rule { rule_of result ≡ option_rule name.now }
    ensures local { result.global ≡ false }
{
    Arg::new(alloc, name)
        .long(name)
        .value_name(value)
        .action(ArgAction::Set)
        .help(meaning)
}

/// `--moments MOMENTS`, a file whose numbers are the moments of later connections.
pub fn moments<'a>(alloc: Global) -> Arg<'a>
    ensures rule { rule_of result ≡ option_rule (codes "moments") }
    ensures local { result.global ≡ false }
{
    option(
        alloc,
        "moments",
        "MOMENTS",
        "A file with a number: each connection has the greatest moment that was read so far",
    )
}

/// `--export DIR`, a folder to export to after each request that may change what suites show.
pub fn export<'a>(alloc: Global) -> Arg<'a>
    ensures rule { rule_of result ≡ option_rule (codes "export") }
    ensures local { result.global ≡ false }
{
    option(
        alloc,
        "export",
        "DIR",
        "A folder that is exported to behind each connection with a POST",
    )
}

/// `--NAME`, and what it means.
pub fn flag<'a>(alloc: Global, name: &'a str, meaning: &'a str) -> Arg<'a>
    ensures rule { rule_of result ≡ flag_rule name.now }
    ensures local { result.global ≡ false }
{
    Arg::new(alloc, name)
        .long(name)
        .action(ArgAction::SetTrue)
        .help(meaning)
}

/// `--log`.
pub fn log<'a>(alloc: Global) -> Arg<'a>
    ensures rule { rule_of result ≡ flag_rule (codes "log") }
    ensures local { result.global ≡ false }
{
    flag(
        alloc,
        "log",
        "Prints a line for each connection: moment, method, path, status, bytes, milliseconds",
    )
}

/// `--json`.
pub fn json<'a>(alloc: Global) -> Arg<'a>
    ensures rule { rule_of result ≡ flag_rule (codes "json") }
    ensures local { result.global ≡ false }
{
    flag(alloc, "json", "Prints a line of JSON for each")
}

/// `--strict`.
pub fn strict<'a>(alloc: Global) -> Arg<'a>
    ensures rule { rule_of result ≡ flag_rule (codes "strict") }
    ensures local { result.global ≡ false }
{
    flag(
        alloc,
        "strict",
        "Ends with status 1 where a run refuses an upload",
    )
}

/// `--signed`.
pub fn signed<'a>(alloc: Global) -> Arg<'a>
    ensures rule { rule_of result ≡ flag_rule (codes "signed") }
    ensures local { result.global ≡ false }
{
    flag(
        alloc,
        "signed",
        "A suite is shown once InRelease lies in the folder of its new state",
    )
}

/// `--unsigned`.
pub fn unsigned<'a>(alloc: Global) -> Arg<'a>
    ensures rule { rule_of result ≡ flag_rule (codes "unsigned") }
    ensures local { result.global ≡ false }
{
    flag(
        alloc,
        "unsigned",
        "A suite is shown at once without a signature, also if the folder shows it signed",
    )
}

/// `--by-hash`.
pub fn by_hash<'a>(alloc: Global) -> Arg<'a>
    ensures rule { rule_of result ≡ flag_rule (codes "by-hash") }
    ensures local { result.global ≡ false }
{
    flag(
        alloc,
        "by-hash",
        "Each index text also stands under its SHA-256, also those of the last two states",
    )
}

/// `--key NAME`, the file of the key that the pages name.
pub fn key<'a>(alloc: Global) -> Arg<'a>
    ensures rule { rule_of result ≡ option_rule (codes "key") }
    ensures local { result.global ≡ false }
{
    option(
        alloc,
        "key",
        "NAME",
        "The file of the key that the pages name, in place of box.gpg",
    )
}

/// `--refuse-origin`.
pub fn refuse_origin<'a>(alloc: Global) -> Arg<'a>
    ensures rule { rule_of result ≡ flag_rule (codes "refuse-origin") }
    ensures local { result.global ≡ false }
{
    flag(
        alloc,
        "refuse-origin",
        "A PUT or POST that a page in a browser sends is refused with 403",
    )
}

/// How many connections to serve.
pub fn count<'a>(alloc: Global) -> Arg<'a>
    ensures rule { rule_of result ≡ count_rule }
    ensures local { result.global ≡ false }
{
    word(
        alloc,
        "COUNT",
        "How many connections to answer before it ends",
    )
    .value_parser(value_parser!(u64).range(1..=MOST_CONNECTIONS as i64))
}
