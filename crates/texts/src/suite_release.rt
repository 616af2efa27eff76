//! Release: what a suite is, when it changed, until when the Release is valid, and the prints of its other indices.

ghost use Rattle.std.specs.Prelude.{◌≡◌, ◌≤◌, ◌<◌, ◌+◌, ◌*◌, ◌++◌, [], ◌∷◌, ◌||◌, not, OnOk, OnErr, IfOk, length, map, codes, string_bytes, if◌then◌else◌};
ghost use Rattle.std.specs.List.{flat_map, join_with_byte};
ghost use Rattle.para.specs.Printing.{field_text, more_text, paragraph_text};
ghost use Rattle.indices.specs.Calendar.{date_text};
ghost use Rattle.indices.specs.Positions.{release_at};
ghost use Rattle.indices.specs.Stanzas.{line_field, list_line};
ghost use Rattle.indices.specs.Release.{optional_field, index_list, valid_until, is_source, architectures_text, suite_fields, index_lists, release_text};

use crate::date::date_text;
use crate::stanza::{push_line_field, push_list_line};
use indices::{Digest, Index, LATEST};
use para::Text;
use rules::{Config, Days, Suite};
use std::alloc::{AllocError, Global};

/// Appends the field if the configuration has a value for it.
#[tactic(auto, unfolding(indices::specs::Release::optional_field))]
fn push_optional(name: &str, value: &Option<Text>, out: &mut Vec<u8>) -> Result<(), AllocError>
    ensures { OnOk result (out.new.items ≡ out.old.items ++ paragraph_text (optional_field name.now value.now)) }
{
    match value {
        Some(value) => push_line_field(name, value.as_str(), out),
        None => Ok(()),
    }
}

/// Appends a name, after a space if another name stands before it.
fn push_name(joined: &mut String, has_begun: bool, name: &str) -> Result<(), AllocError>
    ensures { OnOk result (string_bytes joined.new ≡ string_bytes joined.old ++ (if has_begun then 32 ∷ name.now else name.now)) }
{
    if has_begun {
        joined.push_str(" ")?;
    }
    joined.push_str(name)
}

/// Appends a name unless it is `source`, and says whether some name has been appended.
fn push_binary(joined: &mut String, has_begun: bool, name: &str) -> Result<bool, AllocError>
    ensures { IfOk result (λ begun. (begun ≡ (has_begun || not (is_source name.now))) × (string_bytes joined.new ≡ string_bytes joined.old ++ (if is_source name.now then [] else if has_begun then 32 ∷ name.now else name.now))) }
{
    if name == "source" {
        return Ok(has_begun);
    }
    push_name(joined, has_begun, name)?;
    Ok(true)
}

/// The names with a single space between two.
fn joined_names(alloc: Global, names: &[Text]) -> Result<String, AllocError>
    ensures { IfOk result (λ joined. string_bytes joined ≡ join_with_byte 32 names.now) }
{
    let mut joined = String::new(alloc);
    let mut has_begun = false;
    for name in names {
        push_name(&mut joined, has_begun, name.as_str())?;
        has_begun = true;
    }
    Ok(joined)
}

/// The architectures of packages, `source` left out, with a single space between two.
fn joined_architectures(alloc: Global, names: &[Text]) -> Result<String, AllocError>
    ensures { IfOk result (λ joined. string_bytes joined ≡ architectures_text names.now) }
{
    let mut joined = String::new(alloc);
    let mut has_begun = false;
    for name in names {
        has_begun = push_binary(&mut joined, has_begun, name.as_str())?;
    }
    Ok(joined)
}

/// Appends the lines of a list of indices.
fn push_list_lines(
    alloc: Global,
    digest: Digest,
    indices: &[Index],
    out: &mut Vec<u8>,
) -> Result<(), AllocError>
    ensures { OnOk result (out.new.items ≡ out.old.items ++ flat_map (λ i. more_text (list_line digest i.print i.path)) indices.now) }
{
    for index in indices {
        push_list_line(alloc, digest, &index.print, index.path.as_str(), out)?;
    }
    Ok(())
}

/// Appends a list of indices.
fn push_list(
    alloc: Global,
    name: &str,
    digest: Digest,
    indices: &[Index],
    out: &mut Vec<u8>,
) -> Result<(), AllocError>
    ensures { OnOk result (out.new.items ≡ out.old.items ++ field_text (index_list name.now digest indices.now)) }
{
    push_line_field(name, "", out)?;
    push_list_lines(alloc, digest, indices, out)
}

/// Appends the lists of the indices.
fn push_lists(alloc: Global, indices: &[Index], out: &mut Vec<u8>) -> Result<(), AllocError>
    ensures { OnOk result (out.new.items ≡ out.old.items ++ paragraph_text (index_lists indices.now)) }
{
    push_list(alloc, "MD5Sum", Digest::Md5, indices, out)?;
    push_list(alloc, "SHA1", Digest::Sha1, indices, out)?;
    push_list(alloc, "SHA256", Digest::Sha256, indices, out)
}

/// Appends the field Date.
fn push_date(alloc: Global, moment: u64, out: &mut Vec<u8>) -> Result<(), AllocError>
    requires { moment ≤ LATEST }
    ensures { OnOk result (out.new.items ≡ out.old.items ++ field_text (line_field (codes "Date") (date_text moment))) }
{
    let date = date_text(alloc, moment)?;
    push_line_field("Date", date.as_str(), out)
}

/// Appends the field Valid-Until.
fn push_end(alloc: Global, moment: u64, days: Days, out: &mut Vec<u8>) -> Result<(), AllocError>
    requires { moment ≤ LATEST }
    ensures { OnOk result (out.new.items ≡ out.old.items ++ field_text (line_field (codes "Valid-Until") (date_text (moment + days * 86400)))) }
{
    let date = date_text(alloc, moment + days.seconds())?;
    push_line_field("Valid-Until", date.as_str(), out)
}

/// Appends the field Valid-Until, if the suite says for how long its Release is valid.
#[tactic(auto, unfolding(indices::specs::Release::valid_until))]
fn push_valid_until(
    alloc: Global,
    suite: &Suite,
    moment: u64,
    out: &mut Vec<u8>,
) -> Result<(), AllocError>
    requires { moment ≤ LATEST }
    ensures { OnOk result (out.new.items ≡ out.old.items ++ paragraph_text (valid_until suite.now moment)) }
{
    match suite.valid_days {
        Some(days) => push_end(alloc, moment, days, out),
        None => Ok(()),
    }
}

/// Appends the field Architectures.
fn push_architectures(alloc: Global, names: &[Text], out: &mut Vec<u8>) -> Result<(), AllocError>
    ensures { OnOk result (out.new.items ≡ out.old.items ++ field_text (line_field (codes "Architectures") (architectures_text names.now))) }
{
    let architectures = joined_architectures(alloc, names)?;
    push_line_field("Architectures", architectures.as_str(), out)
}

/// Appends the field Components.
fn push_components(alloc: Global, names: &[Text], out: &mut Vec<u8>) -> Result<(), AllocError>
    ensures { OnOk result (out.new.items ≡ out.old.items ++ field_text (line_field (codes "Components") (join_with_byte 32 names.now))) }
{
    let components = joined_names(alloc, names)?;
    push_line_field("Components", components.as_str(), out)
}

/// Appends the fields that say what the suite is, when it changed, and until when it is valid.
fn push_suite(
    alloc: Global,
    suite: &Suite,
    moment: u64,
    out: &mut Vec<u8>,
) -> Result<(), AllocError>
    requires { moment ≤ LATEST }
    ensures { OnOk result (out.new.items ≡ out.old.items ++ paragraph_text (suite_fields suite.now moment)) }
{
    push_optional("Origin", &suite.origin, out)?;
    push_optional("Label", &suite.label, out)?;
    push_optional("Suite", &suite.suite, out)?;
    push_line_field("Codename", suite.codename.as_str(), out)?;
    push_date(alloc, moment, out)?;
    push_valid_until(alloc, suite, moment, out)?;
    push_architectures(alloc, suite.architectures.as_slice(), out)?;
    push_components(alloc, suite.components.as_slice(), out)?;
    push_optional("Description", &suite.description, out)
}

/// The Release of a suite.
pub fn release_text(
    alloc: Global,
    suite: &Suite,
    moment: u64,
    indices: &[Index],
) -> Result<Vec<u8>, AllocError>
    requires { moment ≤ LATEST }
    ensures { IfOk result (λ text. text.items ≡ release_text suite.now moment indices.now) }
{
    let mut text = Vec::new(alloc);
    push_suite(alloc, suite, moment, &mut text)?;
    push_lists(alloc, indices, &mut text)?;
    Ok(text)
}

/// Appends the Release of a suite, given by its position in the configuration, whose shown items last changed at the
/// moment, in seconds since 1970-01-01 00:00:00 UTC; `indices` are its other texts, in the order of its components and
/// in each of its architectures. If the suite has ValidDays, Valid-Until is that number of days after the moment. If
/// memory runs out, the buffer is as before.
pub fn release(
    alloc: Global,
    config: &Config,
    suite: usize,
    moment: u64,
    indices: &[Index],
    out: &mut Vec<u8>,
) -> Result<(), AllocError>
    requires suite { suite < length config.now.suites }
    requires moment { moment ≤ LATEST }
    ensures ok { OnOk result (out.new.items ≡ out.old.items ++ release_at config.now suite moment indices.now) }
    ensures err { OnErr result (out.new.items ≡ out.old.items) }
{
    let text = release_text(alloc, &config.suites()[suite], moment, indices)?;
    out.extend_from_slice(&text)
}
