//! The names of files.
//!
//! A test of bytes looks at all of them and does not branch, so that several bytes are tested at once.

ghost use Rattle.std.specs.Prelude.{◌≡◌};
ghost use Rattle.std.specs.List.{list_all};
ghost use Rattle.sums.specs.FileNames.{is_changes_name, is_file_name, is_name_character};

const MOST_NAME: usize = 200;

fn is_name_character(c: u8) -> bool
    ensures { result ≡ is_name_character c }
{
    c.is_ascii_alphanumeric() | (c == b'.') | (c == b'+') | (c == b'~') | (c == b'_') | (c == b'-')
}

/// Whether a word is the name of a file: 1 to 200 letters, digits and `. + ~ _ -`, the first a letter or digit (own rule of
/// this archive).
pub fn is_file_name(word: &str) -> bool
    ensures { result ≡ is_file_name word.now }
{
    match word.as_bytes().split_first() {
        None => false,
        Some((first, rest)) => {
            let begins = first.is_ascii_alphanumeric();
            let goes_on = are_name_characters(rest);
            rest.len() < MOST_NAME && begins && goes_on
        }
    }
}

fn are_name_characters(bytes: &[u8]) -> bool
    ensures { result ≡ list_all is_name_character bytes.now }
{
    let mut all = true;
    for c in bytes {
        all &= is_name_character(*c);
    }
    all
}

/// Whether a name is that of a .changes: it ends in `.changes`.
#[tactic(auto, unfolding(crate::specs::FileNames::is_changes_name))]
pub fn is_changes_name(name: &str) -> bool
    ensures { result ≡ is_changes_name name.now }
{
    name.as_bytes().ends_with(b".changes")
}
