//! Where something is in the text of a configuration, which may be refused.

use para::{Field, ParaFault, Paragraph, read_many};
use records::is_plain;
use rules::MOST_CONFIG;
use std::alloc::{AllocError, Global};

/// The paragraphs of a text. There is none if it is no text of paragraphs.
pub fn paragraphs_of(alloc: Global, text: &[u8]) -> Result<Vec<Paragraph<'_>>, AllocError> {
    match read_many(alloc, text, MOST_CONFIG) {
        Ok(paragraphs) => Ok(paragraphs),
        Err(ParaFault::OutOfMemory) => Err(AllocError),
        Err(_) => Ok(Vec::new(alloc)),
    }
}

/// The plain name that a field is, if it is one.
fn plain_name<'a>(field: Option<&Field<'a>>) -> Option<&'a str> {
    match field {
        Some(field) if field.more.is_empty() && is_plain(field.first) => Some(field.first),
        _ => None,
    }
}

/// The codename that a paragraph gives its suite, if that is a plain name.
fn codename_of<'a>(paragraph: &Paragraph<'a>) -> Option<&'a str> {
    plain_name(paragraph.get("Codename"))
}

/// `paragraph N`, with the number of a paragraph, which is counted from 0 here and from 1 there.
pub fn numbered(alloc: Global, number: usize) -> Result<String, AllocError> {
    let count = number.saturating_add(1);
    format!(in alloc; "paragraph {count}")
}

/// The codename of the suite of a paragraph, or `paragraph N` if that has no plain name as its codename.
pub fn name_of(
    alloc: Global,
    paragraph: &Paragraph<'_>,
    number: usize,
) -> Result<String, AllocError> {
    match codename_of(paragraph) {
        Some(codename) => String::from_str(alloc, codename),
        None => numbered(alloc, number),
    }
}

/// `suite CODENAME`, or `paragraph N` if the paragraph has no plain name as its codename.
pub fn place_of(
    alloc: Global,
    paragraph: &Paragraph<'_>,
    number: usize,
) -> Result<String, AllocError> {
    match codename_of(paragraph) {
        Some(codename) => format!(in alloc; "suite {codename}"),
        None => numbered(alloc, number),
    }
}
