//! Paths and names in the tree.

ghost use Rattle.std.specs.Prelude.{◌≡◌, IfOk, take, string_bytes};
ghost use Rattle.std.specs.List.{list_all, slice_split};
ghost use Rattle.hex.specs.Hex.{encode_lower};
ghost use Rattle.exported.specs.Names.{is_part as is_part_of_path, is_plain as is_plain_byte, is_pool_path as is_path_in_pool, ends_part, state_name as name_of_state};

use std::alloc::{AllocError, Global};
use sums::print_of;

/// The folder of what exports keep for themselves.
pub const OWN: &str = ".boqitsel";

/// The number of hexadecimal digits of a Release's SHA-256 in the name of its state.
const ID_DIGITS: usize = 32;

/// The folder that a file at a path lies in.
pub fn folder_of(path: &str) -> &str {
    match path.rsplit_once('/') {
        Some((folder, _)) => folder,
        None => "",
    }
}

/// The first 32 hexadecimal digits of a digest.
fn id_of(alloc: Global, sha256: &[u8; 32]) -> Result<String, AllocError>
    ensures { IfOk result (λ id. string_bytes id ≡ encode_lower (take 16 sha256.now)) }
{
    hex::encode(alloc, &sha256[..16])
}

/// The name of the state of a suite that has a Release: `.CODENAME.ID`.
#[tactic(auto, unfolding(crate::specs::Names::state_name))]
pub fn state_name(alloc: Global, codename: &str, release: &[u8]) -> Result<String, AllocError>
    ensures { IfOk result (λ name. string_bytes name ≡ name_of_state codename.now release.now) }
{
    let print = print_of(release);
    let id = id_of(alloc, &print.sha256)?;
    format!(in alloc; ".{codename}.{id}")
}

/// The name of the folder in which a state of a suite is made: `.CODENAME.new`.
pub fn new_name(alloc: Global, codename: &str) -> Result<String, AllocError> {
    format!(in alloc; ".{codename}.new")
}

/// Whether the name of a folder in `dists` is that of a state of the suite.
pub fn is_state_of(codename: &str, name: &str) -> bool {
    let Some(rest) = name.strip_prefix('.') else {
        return false;
    };
    let Some(rest) = rest.strip_prefix(codename) else {
        return false;
    };
    match rest.strip_prefix('.') {
        Some(id) => is_id(id),
        None => false,
    }
}

/// Whether a text has exactly as many lower hexadecimal digits as the name of a state, and nothing else.
fn is_id(text: &str) -> bool {
    let mut all = text.len() == ID_DIGITS;
    for c in text.as_bytes() {
        all &= matches!(*c, b'0'..=b'9' | b'a'..=b'f');
    }
    all
}

/// Whether a text has no control character of ASCII.
fn is_plain(text: &str) -> bool
    ensures { result ≡ list_all is_plain_byte text.now }
{
    let mut all = true;
    for byte in text.as_bytes() {
        all &= *byte >= 32 && *byte != 127;
    }
    all
}

/// Whether a part of a path names something in its folder.
#[tactic(auto, unfolding(crate::specs::Names::is_part))]
fn is_part(part: &str) -> bool
    ensures { result ≡ is_part_of_path part.now }
{
    let is_plain = is_plain(part);
    part != "" && part != "." && part != ".." && is_plain
}

/// Whether a text names something in a folder.
pub fn is_name(text: &str) -> bool {
    is_part(text) && !text.contains('/')
}

/// Whether each part of a path names something in its folder.
pub fn has_parts(path: &str) -> bool
    ensures { result ≡ list_all is_part_of_path (slice_split ends_part path.now) }
{
    path.split('/').all(|part| is_part(part))
}

/// Whether a path leads to a file below `pool`, and nowhere else: it begins with `pool/`, no part of it is empty, `.` or `..`, and it has
/// no control character.
#[tactic(auto, unfolding(crate::specs::Names::is_pool_path))]
pub fn is_pool_path(path: &str) -> bool
    ensures { result ≡ is_path_in_pool path.now }
{
    let is_below = path.as_bytes().starts_with(b"pool/");
    let has_parts = has_parts(path);
    is_below && has_parts
}
