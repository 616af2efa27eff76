//! The checks of a paragraph that take no memory, each with the fault that it finds.

ghost use Rattle.std.specs.Prelude.{◌≡◌, Some, None, MatchResult};
ghost use Rattle.std.specs.List.{find, list_any};
ghost use Rattle.records.specs.Records.{missing, not_simple, has_own_field, is_missing, has_more_lines, is_present, value};

use crate::fault::RecordFault;
use crate::field_name::FieldName;
use para::{Paragraph, simple};

/// The first line of the field, or the empty text if it is absent.
#[tactic(auto, unfolding(crate::specs::Records::value))]
pub fn value_of<'a>(paragraph: &Paragraph<'a>, name: FieldName) -> &'a str
    ensures { result.now ≡ value name paragraph.now }
{
    match paragraph.get(name.name()) {
        Some(field) => field.first,
        None => "",
    }
}

/// Whether the field is there.
#[tactic(auto, unfolding(crate::specs::Records::is_present))]
pub fn is_there(paragraph: &Paragraph<'_>, name: FieldName) -> bool
    ensures { result ≡ is_present paragraph.now name }
{
    paragraph.get(name.name()).is_some()
}

#[tactic(auto, unfolding(crate::specs::Records::is_missing))]
fn is_absent_or_empty(paragraph: &Paragraph<'_>, name: FieldName) -> bool
    ensures { result ≡ is_missing paragraph.now name }
{
    match paragraph.get(name.name()) {
        Some(field) => field.first.is_empty() && field.more.is_empty(),
        None => true,
    }
}

#[tactic(auto, unfolding(crate::specs::Records::has_more_lines))]
fn goes_on(paragraph: &Paragraph<'_>, name: FieldName) -> bool
    ensures { result ≡ has_more_lines paragraph.now name }
{
    match paragraph.get(name.name()) {
        Some(field) => simple(field).is_none(),
        None => false,
    }
}

/// The first of the fields that is missing.
fn first_missing(paragraph: &Paragraph<'_>, names: &[FieldName]) -> Option<FieldName>
    ensures { result ≡ find (is_missing paragraph.now) names.now }
{
    names
        .iter()
        .copied()
        .find(|name| is_absent_or_empty(paragraph, *name))
}

fn any_goes_on(paragraph: &Paragraph<'_>, names: &[FieldName]) -> bool
    ensures { result ≡ list_any (has_more_lines paragraph.now) names.now }
{
    names.iter().any(|name| goes_on(paragraph, *name))
}

fn any_is_there(paragraph: &Paragraph<'_>, names: &[FieldName]) -> bool
    ensures { result ≡ list_any (is_present paragraph.now) names.now }
{
    names.iter().any(|name| is_there(paragraph, *name))
}

/// Refuses a paragraph that lacks a required field, and names the first that is missing.
#[tactic(auto, unfolding(crate::specs::Records::missing))]
pub fn check_required(paragraph: &Paragraph<'_>, required: &[FieldName]) -> Result<(), RecordFault>
    ensures { MatchResult result (λ _. missing required.now paragraph.now ≡ None)
        (λ e. missing required.now paragraph.now ≡ Some e) }
{
    match first_missing(paragraph, required) {
        Some(name) => Err(RecordFault::Missing(name)),
        None => Ok(()),
    }
}

/// Refuses a paragraph in which one of the fields goes on after its first line.
#[tactic(auto, unfolding(crate::specs::Records::not_simple))]
pub fn check_simple(paragraph: &Paragraph<'_>, simple: &[FieldName]) -> Result<(), RecordFault>
    ensures { MatchResult result (λ _. not_simple simple.now paragraph.now ≡ None)
        (λ e. not_simple simple.now paragraph.now ≡ Some e) }
{
    if any_goes_on(paragraph, simple) {
        return Err(RecordFault::NotOneLine);
    }
    Ok(())
}

/// Refuses a paragraph that has a field which the archive writes itself.
#[tactic(auto, unfolding(crate::specs::Records::has_own_field))]
pub fn check_own(paragraph: &Paragraph<'_>, own: &[FieldName]) -> Result<(), RecordFault>
    ensures { MatchResult result (λ _. has_own_field own.now paragraph.now ≡ None)
        (λ e. has_own_field own.now paragraph.now ≡ Some e) }
{
    if any_is_there(paragraph, own) {
        return Err(RecordFault::OwnField);
    }
    Ok(())
}
