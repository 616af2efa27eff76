//! The two ways into a page: markup, which is a constant of this crate, and texts, by the character references of HTML.

ghost use Rattle.std.specs.Prelude.{◌≡◌, ◌++◌, ℕ, List, false, true, OnOk, string_bytes};
ghost use Rattle.std.specs.Char.{encode_utf8};
ghost use Rattle.std.specs.List.{list_all, list_any};
ghost use Rattle.pages.specs.Escapes.{escaped, is_markup, stands_for_itself};

use std::alloc::AllocError;

/// Appends markup. It is refused for want of memory alone.
pub fn push_markup(markup: &'static str, out: &mut String) -> Result<(), AllocError>
    ensures { OnOk result (string_bytes out.new ≡ string_bytes out.old ++ markup.now) }
{
    out.push_str(markup)
}

/// Appends what stands for a character in a page.
fn push_character(character: char, out: &mut String) -> Result<(), AllocError>
    ensures { OnOk result (string_bytes out.new ≡ string_bytes out.old ++ escaped (encode_utf8 character)) }
{
    match character {
        '&' => out.push_str("&amp;"),
        '<' => out.push_str("&lt;"),
        '>' => out.push_str("&gt;"),
        '"' => out.push_str("&quot;"),
        '\'' => out.push_str("&#39;"),
        _ => out.push(character),
    }
}

/// Appends what stands for each character of a text.
fn push_characters(text: &str, out: &mut String) -> Result<(), AllocError>
    ensures { OnOk result (string_bytes out.new ≡ string_bytes out.old ++ escaped text.now) }
{
    for character in text.chars() {
        push_character(character, out)?;
    }
    Ok(())
}

/// Whether each byte of a text stands for itself.
fn is_plain(text: &str) -> bool
    ensures { result ≡ list_all stands_for_itself text.now }
{
    let mut all = true;
    for byte in text.as_bytes() {
        all &= *byte != 38 && *byte != 60 && *byte != 62 && *byte != 34 && *byte != 39;
    }
    all
}

/// Appends a text of which each byte stands for itself.
#[tactic(auto, using(crate::proofs::Plain::plain_stays))]
fn push_plain(text: &str, out: &mut String) -> Result<(), AllocError>
    requires { list_all stands_for_itself text.now ≡ true }
    ensures { OnOk result (string_bytes out.new ≡ string_bytes out.old ++ escaped text.now) }
{
    out.push_str(text)
}

/// Appends what stands for a text in a page, within an element or within an attribute in quotes. It is refused for want of
/// memory alone.
pub fn push_text(text: &str, out: &mut String) -> Result<(), AllocError>
    ensures { OnOk result (string_bytes out.new ≡ string_bytes out.old ++ escaped text.now) }
{
    // Most texts are plain, and are appended at once.
    if is_plain(text) {
        return push_plain(text, out);
    }
    push_characters(text, out)
}

/// Nothing that a text holds begins or ends markup, or ends the attribute that it stands in. Nothing is done: the law is the
/// contract.
pub fn no_text_is_markup()
    ensures { (text : List ℕ) → list_any is_markup (escaped text) ≡ false }
{}
