//! The fields of a configuration that are passed over, because no field of a configuration has their names.

ghost use Rattle.std.specs.Prelude.{◌≡◌, ◌++◌, ◌∷◌, ◌⊎◌, [], cond, not, IfOk, IfErr, IsErrAnd, List, map, Ok};
ghost use Rattle.std.specs.Str.{str_eq_ignore_ascii_case};
ghost use Rattle.para.specs.Field.{field_values};
ghost use Rattle.para.specs.Fields.{Fields, paragraphs_in};
ghost use Rattle.rules.specs.Configuration.{config_limit};
ghost use Rattle.rules.specs.Fault.{of_paragraph};
ghost use Rattle.output.specs.Fields.{is_known, unknown_among, unknown_behind};

use crate::checking::near::Nearest;
use para::{Field, Paragraph, Text, read_many};
use rules::{ConfigFault, MOST_CONFIG};
use std::alloc::{AllocError, Global};

/// The names of the fields of a configuration.
const NAMES: [&str; 12] = [
    "Codename",
    "Suite",
    "Origin",
    "Label",
    "Description",
    "Architectures",
    "Components",
    "AlsoAcceptFor",
    "Uploaders",
    "KeepDays",
    "ValidDays",
    "MaxFileSize",
];

/// Whether two names are the same, ASCII case ignored.
fn is_same(name: &str, other: &str) -> bool
    ensures { result ≡ str_eq_ignore_ascii_case name.now other.now }
{
    name.eq_ignore_ascii_case(other)
}

/// Whether a configuration has fields of the name, ASCII case ignored.
#[tactic(auto, unfolding(crate::specs::Fields::is_known))]
fn is_known(name: &str) -> bool
    ensures { result ≡ is_known name.now }
{
    let codename = is_same(name, "Codename");
    let suite = is_same(name, "Suite");
    let origin = is_same(name, "Origin");
    let label = is_same(name, "Label");
    let description = is_same(name, "Description");
    let architectures = is_same(name, "Architectures");
    let components = is_same(name, "Components");
    let also = is_same(name, "AlsoAcceptFor");
    let uploaders = is_same(name, "Uploaders");
    let keep = is_same(name, "KeepDays");
    let valid = is_same(name, "ValidDays");
    let size = is_same(name, "MaxFileSize");
    codename
        || suite
        || origin
        || label
        || description
        || architectures
        || components
        || also
        || uploaders
        || keep
        || valid
        || size
}

/// Adds the number of a paragraph and the name of a field, if that is unknown.
fn push_if(
    alloc: Global,
    found: &mut Vec<(usize, Text)>,
    is_unknown: bool,
    number: usize,
    name: &str,
) -> Result<(), AllocError>
    ensures { IfOk result (λ _. found.new.items ≡ found.old.items ++ cond is_unknown ((number, name.now) ∷ []) []) }
{
    if is_unknown {
        found.push((number, Text::new(alloc, name)?))?;
    }
    Ok(())
}

/// Adds the number of a paragraph and the name of each unknown field of it, in their order.
fn push_unknown(
    alloc: Global,
    found: &mut Vec<(usize, Text)>,
    number: usize,
    fields: &[Field<'_>],
) -> Result<(), AllocError>
    ensures { IfOk result (λ _. found.new.items ≡ found.old.items ++ unknown_among number (field_values fields.now)) }
{
    for field in fields {
        let is_unknown = !is_known(field.name);
        push_if(alloc, found, is_unknown, number, field.name)?;
    }
    Ok(())
}

/// The unknown fields of paragraphs, each with the number of its paragraph, counted from 0.
pub fn unknown_of(
    alloc: Global,
    paragraphs: &[Paragraph<'_>],
) -> Result<Vec<(usize, Text)>, AllocError>
    ensures { IfOk result (λ found. found.items ≡ unknown_behind 0 paragraphs.now) }
{
    let mut found = Vec::new(alloc);
    for (number, paragraph) in paragraphs.iter().enumerate() {
        push_unknown(alloc, &mut found, number, paragraph.fields())?;
    }
    Ok(found)
}

/// The fields of a configuration that are passed over: those whose names, ASCII case ignored, are not names that a configuration has. Each
/// has the number of its paragraph, counted from 0, which is the suite's position, and its name as it is spelled. They are in the order of
/// the text. As by `Config::read`, a text is refused if it is longer than a configuration may be, or is not one or more paragraphs.
pub fn unknown_fields(alloc: Global, text: &[u8]) -> Result<Vec<(usize, Text)>, ConfigFault>
    ensures found { IfOk result (λ found. (ps : List Fields) × (paragraphs_in text.now config_limit ≡ Ok ps) × (found.items ≡ unknown_behind 0 ps)) }
    ensures refused { IfErr result (λ e. (e ≡ ConfigFault.OutOfMemory) ⊎ IsErrAnd (paragraphs_in text.now config_limit) (λ fault. e ≡ of_paragraph fault)) }
{
    let paragraphs = read_many(alloc, text, MOST_CONFIG)?;
    Ok(unknown_of(alloc, &paragraphs)?)
}

/// The name of a field of a configuration that a name likely means: the nearest one, if it is at most three edits away, ASCII case ignored.
/// An edit adds, removes or changes one character. If several are equally near, it is the first in the order of the names in docs.
pub fn likely_name(alloc: Global, name: &str) -> Result<Option<&'static str>, AllocError> {
    let mut nearest = Nearest::new(name);
    for known in NAMES {
        nearest.look_at(alloc, known)?;
    }
    Ok(nearest.found())
}
