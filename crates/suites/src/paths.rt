//! Where files stand in the pool.
//!
//! The prefix of a source is cut in bytes. If the cut falls within a character, the prefix is the whole text; that cannot happen to a
//! source name, which is ASCII.

ghost use Rattle.std.specs.Prelude.{◌≡◌, ◌&&◌, nat_eq, nat_lt, length, codes, IfOk, string_bytes};
ghost use Rattle.std.specs.List.{starts_with};
ghost use Rattle.suites.specs.Pool.{front_of, prefix_of, directory_of, pool_path as path_in_pool};

use std::alloc::{AllocError, Global};

/// The first bytes of a text; the whole text if these would end within a character.
fn front(text: &str, length: usize) -> &str
    ensures { result.now ≡ front_of length text.now }
{
    if text.is_char_boundary(length) {
        &text[..length]
    } else {
        text
    }
}

/// Whether a source is named as a library: it begins with `lib` and is longer.
fn is_library(source: &str) -> bool
    ensures { result ≡ (starts_with nat_eq source.now (codes "lib") && nat_lt 3 (length source.now)) }
{
    source.as_bytes().starts_with(b"lib") && source.len() > 3
}

/// The folder of a source within its component: the first letter of its name, or the first four letters of a library's name.
#[tactic(auto, unfolding(crate::specs::Pool::prefix_of))]
fn prefix(source: &str) -> &str
    ensures { result.now ≡ prefix_of source.now }
{
    if is_library(source) {
        front(source, 4)
    } else {
        front(source, 1)
    }
}

/// The folder of a source's files in the pool, `pool/COMPONENT/PREFIX/SOURCE`.
pub fn directory(alloc: Global, component: &str, source: &str) -> Result<String, AllocError>
    ensures { IfOk result (λ text. string_bytes text ≡ directory_of component.now source.now) }
{
    let prefix = prefix(source);
    format!(in alloc; "pool/{component}/{prefix}/{source}")
}

/// The path of a file of a source in the pool, `pool/COMPONENT/PREFIX/SOURCE/FILE`. PREFIX is the first four
/// characters of a source that begins with `lib` and is longer, else its first character (own rule of this archive).
pub fn pool_path(
    alloc: Global,
    component: &str,
    source: &str,
    file: &str,
) -> Result<String, AllocError>
    ensures { IfOk result (λ text. string_bytes text ≡ path_in_pool component.now source.now file.now) }
{
    let prefix = prefix(source);
    format!(in alloc; "pool/{component}/{prefix}/{source}/{file}")
}
