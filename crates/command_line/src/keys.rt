//! `--key`: the file of the key that the pages name.

ghost use Rattle.std.specs.Prelude.{◌≡◌, nat_eq};
ghost use Rattle.std.specs.List.{ends_with};
ghost use Rattle.command_line.specs.Keys.{has_key_ending, is_key_name, is_misnamed, lacks_signed};

use sums::is_file_name;

/// The most bytes that the name of a key's file has.
const MOST_NAME: usize = 100;

fn has_ending(name: &str, ending: &str) -> bool
    ensures { result ≡ ends_with nat_eq name.now ending.now }
{
    name.as_bytes().ends_with(ending.as_bytes())
}

/// Whether a name ends as that of a file which apt takes as a key: .gpg or .pgp if it is binary, .asc if it is armored (sources.list(5)).
fn has_key_ending(name: &str) -> bool
    ensures { result ≡ has_key_ending name.now }
{
    let is_gpg = has_ending(name, ".gpg");
    let is_pgp = has_ending(name, ".pgp");
    let is_armored = has_ending(name, ".asc");
    is_gpg || is_pgp || is_armored
}

/// Whether a word is the name of a key's file: a file name of at most 100 bytes that ends as one which apt takes as a key.
pub fn is_key_name(name: &str) -> bool
    ensures { result ≡ is_key_name name.now }
{
    let is_name = is_file_name(name);
    let has_ending = has_key_ending(name);
    name.len() <= MOST_NAME && is_name && has_ending
}

/// Whether the value of `--key`, if it was given, is no name of a key's file.
pub fn is_misnamed(key: Option<&str>) -> bool
    ensures { result ≡ is_misnamed key.entry }
{
    match key {
        Some(name) => !is_key_name(name),
        None => false,
    }
}

/// Whether a line has `--key`, and no `--signed`: its pages would name no key.
pub fn lacks_signed(key: Option<&str>, signed: bool) -> bool
    ensures { result ≡ lacks_signed key.entry signed }
{
    key.is_some() && !signed
}
