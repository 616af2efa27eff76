//! The spellings of names.

ghost use Rattle.std.specs.Prelude.{◌≡◌};
ghost use Rattle.std.specs.Char.{is_ascii_alphanumeric, is_ascii_lowercase};
ghost use Rattle.std.specs.List.{list_all};
ghost use Rattle.records.specs.Names.{begins_with, is_package_name, is_architecture_name, is_plain_name, is_lower_or_digit, is_package_byte, is_architecture_byte, is_plain_byte};

const LONGEST_ARCHITECTURE: usize = 40;

const LONGEST_PLAIN: usize = 60;

fn is_lower_or_digit_byte(byte: u8) -> bool
    ensures { result ≡ is_lower_or_digit byte }
{
    byte.is_ascii_lowercase() || byte.is_ascii_digit()
}

fn has_package_bytes(name: &str) -> bool
    ensures { result ≡ list_all is_package_byte name.now }
{
    name.bytes().all(|byte| is_lower_or_digit_byte(byte)
        || byte == b'+'
        || byte == b'-'
        || byte == b'.')
}

fn has_architecture_bytes(name: &str) -> bool
    ensures { result ≡ list_all is_architecture_byte name.now }
{
    name.bytes()
        .all(|byte| is_lower_or_digit_byte(byte) || byte == b'-')
}

fn has_plain_bytes(name: &str) -> bool
    ensures { result ≡ list_all is_plain_byte name.now }
{
    name.bytes().all(|byte| {
        byte.is_ascii_alphanumeric() || byte == b'.' || byte == b'_' || byte == b'-'
    })
}

fn begins_with_lower_or_digit(name: &str) -> bool
    ensures { result ≡ begins_with is_lower_or_digit name.now }
{
    match name.as_bytes() {
        [first, ..] => is_lower_or_digit_byte(*first),
        [] => false,
    }
}

fn begins_with_lower(name: &str) -> bool
    ensures { result ≡ begins_with is_ascii_lowercase name.now }
{
    match name.as_bytes() {
        [first, ..] => first.is_ascii_lowercase(),
        [] => false,
    }
}

fn begins_with_alphanumeric(name: &str) -> bool
    ensures { result ≡ begins_with is_ascii_alphanumeric name.now }
{
    match name.as_bytes() {
        [first, ..] => first.is_ascii_alphanumeric(),
        [] => false,
    }
}

/// Whether the text is the name of a source or binary package (Debian Policy 5.6.1, 5.6.7): at least two of
/// `a-z0-9+-.`, the first a letter or digit.
#[tactic(auto, unfolding(crate::specs::Names::is_package_name))]
pub fn is_package(name: &str) -> bool
    ensures { result ≡ is_package_name name.now }
{
    name.len() >= 2 && begins_with_lower_or_digit(name) && has_package_bytes(name)
}

/// Whether the text is the name of an architecture (Debian Policy 5.6.8): 1 to 40 of `a-z0-9-`, the first a letter,
/// and not `any`. `all` and `source` are spelled like one.
#[tactic(auto, unfolding(crate::specs::Names::is_architecture_name))]
pub fn is_architecture(name: &str) -> bool
    ensures { result ≡ is_architecture_name name.now }
{
    name.len() <= LONGEST_ARCHITECTURE
        && begins_with_lower(name)
        && has_architecture_bytes(name)
        && name != "any"
}

/// Whether the text is a plain name, as that of a distribution, a suite or a component: 1 to 60 of `A-Za-z0-9._-`,
/// the first a letter or digit (own rule of this archive).
#[tactic(auto, unfolding(crate::specs::Names::is_plain_name))]
pub fn is_plain(name: &str) -> bool
    ensures { result ≡ is_plain_name name.now }
{
    name.len() <= LONGEST_PLAIN && begins_with_alphanumeric(name) && has_plain_bytes(name)
}
