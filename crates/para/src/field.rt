//! Paragraphs and their fields.

ghost use Rattle.std.specs.Prelude.{◌≡◌};
ghost use Rattle.std.specs.Option.{option_map};

use crate::named::{Named, find_named};
use std::marker::Model;

/// A field of a paragraph, in slices of the text that it was read from.
#[derive(Drop)]
pub struct Field<'a> {
    /// The name, as it is spelled.
    pub name: &'a str,
    /// The first line of the value.
    pub first: &'a str,
    /// The lines that continue the value, each without the blank before it.
    pub more: Vec<&'a str>,
}

/// A paragraph: its fields in the order of the text.
#[derive(Drop)]
pub struct Paragraph<'a> {
    pub(crate) fields: Vec<Field<'a>>,
}

impl<'a> Named for Field<'a> {
    ghost name_of = { λ field. field.name.now };

    fn name(&self) -> &str {
        self.name
    }
}

impl<'a> Model for Paragraph<'a> {
    ghost use Rattle.std.specs.Prelude.{List};
    ghost use Rattle.para.specs.Field.{FieldValue, field_values};

    ghost Value = { List FieldValue };

    ghost view = { λ p. field_values p.fields.items };
}

impl<'a> Paragraph<'a> {
    ghost use Rattle.para.specs.Field.{field_value, field_values};
    ghost use Rattle.para.specs.Fields.{field_named};

    /// The fields, in the order of the text.
    pub fn fields(&self) -> &[Field<'a>]
        ensures { field_values result.now ≡ self.now }
    {
        &self.fields
    }

    /// The field of that name, ASCII case ignored, if there is one (Debian Policy 5.1).
    pub fn get(&self, name: &str) -> Option<&Field<'a>>
        ensures { option_map (λ f. field_value f.now) result ≡ field_named name.now self.now }
    {
        find_named(&self.fields, name)
    }
}
