//! The prints of index texts that are known.
//!
//! An opening hands over the print of each index text that Release lists, since it has to make Release anyway (`Held`). Besides these the
//! keeper has the print of each text that it was asked for (`text_print`), and of each that a change wrote, as far as there is memory. A
//! change names the print of a text beside it (`IndexText`). So an index that stays as it is is neither read nor hashed after an opening.
//! One that a run makes anew is compared with the text that is there by the prints, and that text is read only if its print is not known,
//! or is the same (`keeps_text`). Texts of two prints differ, so this needs no premise. A new archive and one that a migration made start
//! without prints, and so does a new configuration.

ghost use Rattle.std.specs.Prelude.{◌≡◌, filter, find, not, option_copied};
ghost use Rattle.std.specs.Option.{option_map};
ghost use Rattle.keep_tables.specs.AtHand.{AreRenewedAtMost, NotesAtMost, is_of_another, is_print_of, is_renewed};

use book::IndexText;
use para::Text;
use std::alloc::Global;
use sums::Print;
use tables_audit::TextPrint;

/// What is known of the text at a path.
fn known_at<'a>(prints: &'a [TextPrint], path: &str) -> Option<&'a TextPrint>
    ensures { option_copied result ≡ find (is_print_of path.now) prints.now }
{
    for known in prints {
        if known.path.as_str() == path {
            return Some(known);
        }
    }
    None
}

/// The print of the text at a path, if it is known.
pub(crate) fn known_print(prints: &[TextPrint], path: &str) -> Option<Print>
    ensures { result ≡ option_map (λ p. p.print) (find (is_print_of path.now) prints.now) }
{
    match known_at(prints, path) {
        Some(known) => Some(known.print),
        None => None,
    }
}

/// Whether what is known is the print of another text.
pub(crate) fn is_of_another(known: Option<Print>, text: &IndexText) -> bool
    ensures { result ≡ is_of_another known text.now }
{
    match known {
        Some(print) => print != text.print,
        None => false,
    }
}

/// Notes the print of the text at a path, if there is one that is not known yet, and memory for it.
pub(crate) fn note_print(
    alloc: Global,
    prints: &mut Vec<TextPrint>,
    path: &str,
    print: Option<Print>,
)
    ensures { NotesAtMost prints.old.items path.now print prints.new.items }
{
    if known_print(prints, path).is_some() {
        return;
    }
    let Some(print) = print else {
        return;
    };
    let Ok(path) = Text::new(alloc, path) else {
        return;
    };
    let _ = prints.push(TextPrint { path, print });
}

/// Whether the path is that of one of these texts.
fn is_renewed(texts: &[IndexText], path: &str) -> bool
    ensures { result ≡ is_renewed texts.now path.now }
{
    for text in texts {
        if text.path.as_str() == path {
            return true;
        }
    }
    false
}

/// Whether what is known is of none of these texts.
fn stays(texts: &[IndexText], known: &TextPrint) -> bool
    ensures { result ≡ not (is_renewed texts.now known.now.path) }
{
    !is_renewed(texts, known.path.as_str())
}

/// Forgets the prints of texts that are renewed.
fn forget_prints(prints: &mut Vec<TextPrint>, texts: &[IndexText])
    ensures { prints.new.items ≡ filter (λ p. not (is_renewed texts.now p.path)) prints.old.items }
{
    prints.retain(|known| stays(texts, known));
}

/// Puts the prints of texts in the place of those that are known at their paths, as far as there is memory.
pub(crate) fn renew_prints(alloc: Global, prints: &mut Vec<TextPrint>, texts: &[IndexText])
    ensures { AreRenewedAtMost prints.old.items texts.now prints.new.items }
{
    forget_prints(prints, texts);
    for text in texts {
        note_print(alloc, prints, text.path.as_str(), Some(text.print));
    }
}
