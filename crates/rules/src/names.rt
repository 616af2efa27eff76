//! Lists of names.

ghost use Rattle.std.specs.Prelude.{◌≡◌, ◌||◌, bytes_eq, map, position, ℕ, List};
ghost use Rattle.std.specs.List.{list_all, list_any};
ghost use Rattle.records.specs.Names.{is_plain_name};
ghost use Rattle.rules.specs.Paragraphs.{is_listed_architecture};

use crate::without_memory::Spelled;
use records::{is_architecture, is_plain};

/// Whether the name is one of the names.
pub fn is_one_of<N: Spelled>(names: &[N], name: &str) -> bool
    ensures { result ≡ list_any (λ other. bytes_eq name.now (N.spelling other)) names.now }
{
    names.iter().any(|other| name == other.spelled())
}

/// The position of the name among the names.
pub fn position_of<N: Spelled>(names: &[N], name: &str) -> Option<usize>
    ensures { result ≡ position (λ other. bytes_eq name.now (N.spelling other)) names.now }
{
    names.iter().position(|other| name == other.spelled())
}

/// Whether each word is a plain name.
pub fn are_plain(words: &[&str]) -> bool
    ensures { result ≡ list_all is_plain_name (map (λ word. word.now) words.now) }
{
    words.iter().all(|word| is_plain(word))
}

/// Whether the word is an architecture that a suite may list.
#[tactic(auto, unfolding(crate::specs::Paragraphs::is_listed_architecture))]
fn is_listed_architecture(word: &str) -> bool
    ensures { result ≡ is_listed_architecture word.now }
{
    is_architecture(word) && word != "all"
}

/// Whether each word is an architecture that a suite may list.
pub fn are_listed_architectures(words: &[&str]) -> bool
    ensures { result ≡ list_all is_listed_architecture (map (λ word. word.now) words.now) }
{
    words.iter().all(|word| is_listed_architecture(word))
}
