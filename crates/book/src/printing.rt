//! The prints of texts, and which text is kept.

ghost use Rattle.std.specs.Prelude.{◌≡◌};
ghost use Rattle.std.specs.Option.{option_map};
ghost use Rattle.book.specs.Book.{is_kept};
ghost use Rattle.sums.specs.Prints.{print};

use sums::{Print, print_of};

/// The print of a text, if there is one.
pub fn print_of_text(text: &Option<Vec<u8>>) -> Option<Print>
    ensures { result ≡ option_map print (option_map (λ v. v.items) text.now) }
{
    match text {
        Some(text) => Some(print_of(text)),
        None => None,
    }
}

/// Whether the text is the one that is kept.
#[tactic(auto, unfolding(crate::specs::Book::is_kept))]
pub fn is_kept(kept: &Option<Vec<u8>>, text: &[u8]) -> bool
    ensures { result ≡ is_kept (option_map (λ v. v.items) kept.now) text.now }
{
    match kept {
        Some(kept) => kept.as_slice() == text,
        None => false,
    }
}
