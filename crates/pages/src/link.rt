//! Links.

ghost use Rattle.std.specs.Prelude.{◌≡◌, ◌++◌, IfOk, OnOk, string_bytes};
ghost use Rattle.pages.specs.Links.{address, link};

use crate::escape::{push_markup, push_text};
use percent_encoding::{AsciiSet, NON_ALPHANUMERIC, ascii_set, utf8_percent_encode};
use std::alloc::{AllocError, Global};

/// The bytes of a path that an address spells by their numbers: all but letters, digits, `-._~` (RFC 3986, 2.3) and the slash.
const NUMBERED: AsciiSet = ascii_set!(
    NON_ALPHANUMERIC
        .remove(b'-')
        .remove(b'.')
        .remove(b'_')
        .remove(b'~')
        .remove(b'/')
);

/// The address of a path, after a front such as `../../`.
#[tactic(auto, using(crate::proofs::Addresses::percent_encode_is), unfolding(crate::specs::Links::address))]
fn address(alloc: Global, front: &str, path: &str) -> Result<String, AllocError>
    ensures { IfOk result (λ text. string_bytes text ≡ address front.now path.now) }
{
    let mut text = String::from_str(alloc, front)?;
    utf8_percent_encode(path, NUMBERED).append_to(&mut text)?;
    Ok(text)
}

/// Appends a text that is a link to a path, after a front such as `../../`.
#[tactic(auto, unfolding(crate::specs::Links::link))]
pub fn push_link(
    alloc: Global,
    front: &str,
    path: &str,
    text: &str,
    out: &mut String,
) -> Result<(), AllocError>
    ensures { OnOk result (string_bytes out.new ≡ string_bytes out.old ++ link front.now path.now text.now) }
{
    let address = address(alloc, front, path)?;
    push_markup("<a href=\"", out)?;
    push_text(address.as_str(), out)?;
    push_markup("\">", out)?;
    push_text(text, out)?;
    push_markup("</a>", out)
}
