//! Lines, one by one, into paragraphs.

ghost use Rattle.std.specs.Prelude.{◌≡◌, ◌++◌, [], ◌∷◌, IfOk, OnOk, None, true, false, map, not};
ghost use Rattle.std.specs.List.{list_any};
ghost use Rattle.para.specs.Bytes.{is_refused, is_empty, begins_with_blank};
ghost use Rattle.para.specs.Field.{field_value, field_values};
ghost use Rattle.para.specs.Fault.{line_fault, IsJudged};
ghost use Rattle.para.specs.ReaderState.{AreLowered};
ghost use Rattle.para.specs.Reading.{trimmed, start, names_of, finished, IsStarted, after_field, after_paragraph, after_line};

use crate::blanks::{trim_end_blanks, trim_start_blanks, without_blank};
use crate::fault::ParaFault;
use crate::field::{Field, Paragraph};
use crate::line::{has_content, has_refused_byte, is_name, lower_name, split_name};
use crate::named::find_named;
use std::alloc::{AllocError, Global};
use std::collections::BTreeSet;
use std::mem;

/// What is read so far.
#[derive(Drop)]
pub struct Reader<'a> {
    alloc: Global,
    /// The paragraphs that ended.
    paragraphs: Vec<Paragraph<'a>>,
    /// The fields that ended, of the paragraph that did not end.
    fields: Vec<Field<'a>>,
    /// The field that did not end, with the blanks after its last line.
    current: Option<Field<'a>>,
    /// Whether there are `FEW` fields or more, so that their names are looked up in `names`.
    has_many: bool,
    /// The names of all these fields in lower case, if there are many.
    names: BTreeSet<String>,
}

/// The number of fields from which on names are kept in a set. While there are fewer, a new name is compared with each;
/// from there on it is looked up, so that a text of many fields is read as quickly.
const FEW: usize = 16;

/// The number of fields for which the first paragraph of a text gets room at once. It grows if it has more.
const USUAL_FIELDS: usize = 16;

/// The names of fields, in lower case.
fn lower_names(alloc: Global, fields: &[Field<'_>]) -> Result<BTreeSet<String>, AllocError>
    ensures { IfOk result (λ names. AreLowered names (map (λ f. f.name) (field_values fields.now))) }
{
    let mut names = BTreeSet::new(alloc);
    for field in fields {
        names.insert(lower_name(alloc, field.name)?)?;
    }
    Ok(names)
}

/// Drops the blanks at the end of the last line of a value.
fn trim_last_line(field: &mut Field<'_>)
    ensures { field_value field.new ≡ trimmed (field_value field.old) }
{
    let count = field.more.len();
    if count == 0 {
        field.first = trim_end_blanks(field.first);
    } else {
        field.more[count - 1] = trim_end_blanks(field.more[count - 1]);
    }
}

impl<'a> Reader<'a> {
    ghost use Rattle.para.specs.ReaderState.{state, HasNames, is_taken};

    pub fn new(alloc: Global) -> Reader<'a>
        ensures start { state result ≡ start }
        ensures names { HasNames result }
    {
        Reader {
            alloc,
            paragraphs: Vec::new(alloc),
            fields: Vec::new(alloc),
            current: None,
            has_many: false,
            names: BTreeSet::new(alloc),
        }
    }

    /// Takes the next line. If the text is clean, the line has no refused byte, and none is looked for.
    pub fn line(&mut self, number: usize, line: &'a str, is_clean: bool) -> Result<(), ParaFault>
        requires clean { is_clean ≡ true → list_any is_refused line.now ≡ false }
        requires started { IsStarted (state self.old) }
        requires names { HasNames self.old }
        ensures judged { IsJudged result (line_fault (names_of (state self.old)) number line.now) }
        ensures ok { OnOk result (state self.new ≡ after_line (state self.old) line.now) }
        ensures names { OnOk result (HasNames self.new) }
    {
        if !is_clean && has_refused_byte(line) {
            return Err(ParaFault::RefusedByte(number));
        }
        match line.as_bytes() {
            [] => Ok(self.end_paragraph()?),
            [b' ' | b'\t', ..] => self.continue_field(number, line),
            _ => self.begin_field(number, line),
        }
    }

    /// All paragraphs, after the last line.
    pub fn finish(mut self) -> Result<Vec<Paragraph<'a>>, AllocError>
        ensures { IfOk result (λ paragraphs. paragraphs.items ≡ finished (state self.entry)) }
    {
        self.end_paragraph()?;
        let Reader { paragraphs, .. } = self;
        Ok(paragraphs)
    }

    fn begin_field(&mut self, number: usize, line: &'a str) -> Result<(), ParaFault>
        requires allowed { list_any is_refused line.now ≡ false }
        requires filled { is_empty line.now ≡ false }
        requires begins { begins_with_blank line.now ≡ false }
        requires names { HasNames self.old }
        ensures judged { IsJudged result (line_fault (names_of (state self.old)) number line.now) }
        ensures ok { OnOk result (state self.new ≡ after_line (state self.old) line.now) }
        ensures names { OnOk result (HasNames self.new) }
    {
        let (name, value) = split_name(line);
        if !is_name(name) {
            return Err(ParaFault::BadName(number));
        }
        let Some(value) = value else {
            return Err(ParaFault::NoColon(number));
        };
        self.end_field()?;
        let is_new = self.take_name(name)?;
        if !is_new {
            return Err(ParaFault::FieldTwice(number));
        }
        self.current = Some(Field {
            name,
            first: trim_start_blanks(value),
            more: Vec::new(self.alloc),
        });
        Ok(())
    }

    /// Says whether the name is new among the fields that ended, and keeps it if there are many.
    fn take_name(&mut self, name: &str) -> Result<bool, AllocError>
        requires ended { (state self.old).current ≡ None }
        requires names { HasNames self.old }
        ensures same { state self.new ≡ state self.old }
        ensures new { IfOk result (λ new. new ≡ not (is_taken (names_of (state self.old)) name.now)) }
        ensures names { IfOk result (λ new. new ≡ true → self.new.has_many ≡ true → AreLowered self.new.names (names_of (state self.old) ++ name.now ∷ [])) }
    {
        if !self.has_many {
            if self.fields.len() < FEW {
                return Ok(find_named(&self.fields, name).is_none());
            }
            self.names = lower_names(self.alloc, &self.fields)?;
            self.has_many = true;
        }
        Ok(self.names.insert(lower_name(self.alloc, name)?)?)
    }

    fn continue_field(&mut self, number: usize, line: &'a str) -> Result<(), ParaFault>
        requires allowed { list_any is_refused line.now ≡ false }
        requires goes_on { begins_with_blank line.now ≡ true }
        requires started { IsStarted (state self.old) }
        requires names { HasNames self.old }
        ensures judged { IsJudged result (line_fault (names_of (state self.old)) number line.now) }
        ensures ok { OnOk result (state self.new ≡ after_line (state self.old) line.now) }
        ensures names { OnOk result (HasNames self.new) }
    {
        if !has_content(line) {
            return Err(ParaFault::BlankLine(number));
        }
        match &mut self.current {
            None => Err(ParaFault::NoField(number)),
            Some(field) => {
                field.more.push(without_blank(line))?;
                Ok(())
            }
        }
    }

    fn end_field(&mut self) -> Result<(), AllocError>
        ensures ok { OnOk result (state self.new ≡ after_field (state self.old)) }
        ensures names { (self.new.names ≡ self.old.names) × (self.new.has_many ≡ self.old.has_many) }
    {
        if let Some(mut field) = self.current.take() {
            trim_last_line(&mut field);
            if self.paragraphs.is_empty() && self.fields.is_empty() {
                self.fields.reserve(USUAL_FIELDS)?;
            }
            self.fields.push(field)?;
        }
        Ok(())
    }

    fn end_paragraph(&mut self) -> Result<(), AllocError>
        ensures ok { OnOk result (state self.new ≡ after_paragraph (state self.old)) }
        ensures names { OnOk result (HasNames self.new) }
    {
        self.end_field()?;
        self.names.clear();
        self.has_many = false;
        if !self.fields.is_empty() {
            let fields = mem::replace(&mut self.fields, Vec::new(self.alloc));
            self.paragraphs.push(Paragraph { fields })?;
        }
        Ok(())
    }
}
