//! Deliveries, runs, lists, look-ups, copies, promotions, removals and cleanings.

use crate::delivery::delivery_of;
use crate::outcomes::{
    arrived_text, found_text, number_text, piece_text, promotion_text, refused_text, report_text,
};
use book::Keeper;
use queue::Archive;
use std::alloc::Global;
use test_rows::{Unread, number_of, said, text_of};

/// The greatest number of a piece that can be asked for.
const LAST_PIECE: u64 = 4_294_967_295;

/// `deliver NAME [MOMENT] BODY [OLD NEW]..`: `new`, `again`, or the fault.
pub fn deliver<K: Keeper>(
    alloc: Global,
    archive: &mut Archive<K>,
    words: &[Vec<u8>],
) -> Result<Vec<u8>, Unread> {
    let delivery = delivery_of(alloc, words)?;
    let (name, body) = (delivery.name.as_str(), delivery.body.as_slice());
    arrived_text(alloc, archive.deliver(alloc, name, body, delivery.moment))
}

/// `run MOMENT`: the lines of the report.
pub fn run<K: Keeper>(
    alloc: Global,
    archive: &mut Archive<K>,
    words: &[Vec<u8>],
) -> Result<Vec<u8>, Unread> {
    let [moment] = words else {
        return Err(Unread::BadWords);
    };
    report_text(alloc, archive.run(alloc, number_of(moment)?))
}

/// The moment of a list: 0 if none is given.
pub fn moment_of(words: &[Vec<u8>]) -> Result<u64, Unread> {
    match words {
        [] => Ok(0),
        [moment] => number_of(moment),
        _ => Err(Unread::BadWords),
    }
}

/// `waiting [MOMENT]`: a line for each upload without a verdict.
pub fn waiting<K: Keeper>(
    alloc: Global,
    archive: &mut Archive<K>,
    words: &[Vec<u8>],
) -> Result<Vec<u8>, Unread> {
    report_text(alloc, archive.waiting(alloc, moment_of(words)?))
}

/// `verdicts`: a line for each upload with a verdict.
pub fn verdicts<K: Keeper>(
    alloc: Global,
    archive: &mut Archive<K>,
    words: &[Vec<u8>],
) -> Result<Vec<u8>, Unread> {
    if !words.is_empty() {
        return Err(Unread::BadWords);
    }
    report_text(alloc, archive.verdicts(alloc))
}

/// The path that is asked for.
pub fn path_of(words: &[Vec<u8>]) -> Result<&str, Unread> {
    match words {
        [path] => text_of(path),
        _ => Err(Unread::BadWords),
    }
}

/// `show PATH`: the bytes at the path, or `nothing`.
pub fn show<K: Keeper>(
    alloc: Global,
    archive: &mut Archive<K>,
    words: &[Vec<u8>],
) -> Result<Vec<u8>, Unread> {
    found_text(alloc, archive.fetch(alloc, path_of(words)?))
}

/// The place of a piece.
pub fn place_of(word: &Vec<u8>) -> Result<u32, Unread> {
    Ok(number_of(word)?.min(LAST_PIECE) as u32)
}

/// `piece PATH NUMBER`: how many bytes the file of the pool at the path has, and after a blank those of its piece at a place, from 0; or
/// `nothing`.
pub fn piece<K: Keeper>(
    alloc: Global,
    archive: &mut Archive<K>,
    words: &[Vec<u8>],
) -> Result<Vec<u8>, Unread> {
    let [path, number] = words else {
        return Err(Unread::BadWords);
    };
    let (path, number) = (text_of(path)?, place_of(number)?);
    piece_text(alloc, archive.fetch_piece(alloc, path, number))
}

/// `has PATH`: whether anything is at the path.
pub fn has<K: Keeper>(
    alloc: Global,
    archive: &mut Archive<K>,
    words: &[Vec<u8>],
) -> Result<Vec<u8>, Unread> {
    match archive.fetch(alloc, path_of(words)?) {
        Ok(Some(_)) => said(alloc, "yes"),
        Ok(None) => said(alloc, "no"),
        Err(fault) => refused_text(alloc, fault),
    }
}

/// `copy FROM TO SOURCE MOMENT`: the number of new items, or the fault.
pub fn copy<K: Keeper>(
    alloc: Global,
    archive: &mut Archive<K>,
    words: &[Vec<u8>],
) -> Result<Vec<u8>, Unread> {
    let [from, to, source, moment] = words else {
        return Err(Unread::BadWords);
    };
    let (from, to, source) = (text_of(from)?, text_of(to)?, text_of(source)?);
    number_text(
        alloc,
        archive.copy(alloc, from, to, source, number_of(moment)?),
    )
}

/// A word that is a text, as a text of its own.
pub fn owned(alloc: Global, word: &Vec<u8>) -> Result<String, Unread> {
    Ok(String::from_str(alloc, text_of(word)?)?)
}

/// Words that are texts, as texts of their own.
fn all_owned(alloc: Global, words: &[Vec<u8>]) -> Result<Vec<String>, Unread> {
    let mut texts = Vec::new(alloc);
    for word in words {
        texts.push(owned(alloc, word)?)?;
    }
    Ok(texts)
}

/// The sources of a promotion: those that are named, or else all that the suite shows.
pub fn sources_of(alloc: Global, words: &[Vec<u8>]) -> Result<Option<Vec<String>>, Unread> {
    match words {
        [] => Ok(None),
        sources => Ok(Some(all_owned(alloc, sources)?)),
    }
}

/// `promote FROM TO MOMENT [SOURCE..]`: for each source the number of new items, or that it is refused; or the
/// fault.
pub fn promote<K: Keeper>(
    alloc: Global,
    archive: &mut Archive<K>,
    words: &[Vec<u8>],
) -> Result<Vec<u8>, Unread> {
    let [from, to, moment, sources @ ..] = words else {
        return Err(Unread::BadWords);
    };
    let (from, to) = (text_of(from)?, text_of(to)?);
    let (moment, sources) = (number_of(moment)?, sources_of(alloc, sources)?);
    promotion_text(alloc, archive.promote(alloc, from, to, &sources, moment))
}

/// `remove SUITE NAME MOMENT`: the number of items of the package that the suite showed, or the fault.
pub fn remove<K: Keeper>(
    alloc: Global,
    archive: &mut Archive<K>,
    words: &[Vec<u8>],
) -> Result<Vec<u8>, Unread> {
    let [suite, name, moment] = words else {
        return Err(Unread::BadWords);
    };
    let (suite, name) = (text_of(suite)?, text_of(name)?);
    number_text(
        alloc,
        archive.remove(alloc, suite, name, number_of(moment)?),
    )
}

/// `clean MOMENT`: the number of arrivals that it took away, or the fault.
pub fn clean<K: Keeper>(
    alloc: Global,
    archive: &mut Archive<K>,
    words: &[Vec<u8>],
) -> Result<Vec<u8>, Unread> {
    let [moment] = words else {
        return Err(Unread::BadWords);
    };
    number_text(alloc, archive.clean(alloc, number_of(moment)?))
}
