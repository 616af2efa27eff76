//! The distribution name that two suites of a configuration take.

use crate::checking::places::{numbered, place_of};
use para::{Paragraph, fold};
use std::alloc::{AllocError, Global};
use std::collections::BTreeMap;

/// The names that the suite of a paragraph takes: its Codename, its Suite, and the words of its AlsoAcceptFor.
fn names_of<'a>(alloc: Global, paragraph: &Paragraph<'a>) -> Result<Vec<&'a str>, AllocError> {
    let mut names = match paragraph.get("AlsoAcceptFor") {
        Some(field) => match fold(alloc, field) {
            Ok(words) => words,
            Err(_) => return Err(AllocError),
        },
        None => Vec::new(alloc),
    };
    if let Some(field) = paragraph.get("Suite") {
        names.push(field.first)?;
    }
    if let Some(field) = paragraph.get("Codename") {
        names.push(field.first)?;
    }
    Ok(names)
}

/// A name that two paragraphs take, and their numbers, counted from 0.
#[derive(Clone, Copy)]
struct Claimed<'a> {
    name: &'a str,
    first: usize,
    second: usize,
}

/// The first of the names of a paragraph that one before it takes. Else the names are added to those of the paragraphs before.
fn claimed_before<'a>(
    claimed: &mut BTreeMap<&'a str, usize>,
    number: usize,
    names: &[&'a str],
) -> Result<Option<Claimed<'a>>, AllocError> {
    for name in names {
        if let Some(first) = claimed.insert(*name, number)?
            && first != number
        {
            return Ok(Some(Claimed {
                name,
                first,
                second: number,
            }));
        }
    }
    Ok(None)
}

/// The first name that two paragraphs take.
fn claimed_twice<'a>(
    alloc: Global,
    paragraphs: &[Paragraph<'a>],
) -> Result<Option<Claimed<'a>>, AllocError> {
    let mut claimed = BTreeMap::new(alloc);
    for (number, paragraph) in paragraphs.iter().enumerate() {
        let names = names_of(alloc, paragraph)?;
        if let Some(found) = claimed_before(&mut claimed, number, &names)? {
            return Ok(Some(found));
        }
    }
    Ok(None)
}

/// Where the paragraph of a number is.
fn place_at(
    alloc: Global,
    paragraphs: &[Paragraph<'_>],
    number: usize,
) -> Result<String, AllocError> {
    match paragraphs.get(number) {
        Some(paragraph) => place_of(alloc, paragraph, number),
        None => numbered(alloc, number),
    }
}

/// `PLACE and PLACE both take NAME`, of the first distribution name that two suites take. If they have one codename, the places are the
/// numbers of their paragraphs.
pub fn claimed_line(
    alloc: Global,
    paragraphs: &[Paragraph<'_>],
) -> Result<Option<String>, AllocError> {
    let Some(found) = claimed_twice(alloc, paragraphs)? else {
        return Ok(None);
    };
    let name = found.name;
    let mut first = place_at(alloc, paragraphs, found.first)?;
    let mut second = place_at(alloc, paragraphs, found.second)?;
    if first.as_str() == second.as_str() {
        first = numbered(alloc, found.first)?;
        second = numbered(alloc, found.second)?;
    }
    Ok(Some(format!(in alloc; "{first} and {second} both take {name}")?))
}
