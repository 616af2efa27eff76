//! The words of a delivery.

use crate::pieces::replace_pieces;
use std::alloc::Global;
use test_rows::{Unread, number_of};

/// A body, its name and its moment.
#[derive(Drop)]
pub struct Delivery {
    pub name: String,
    pub body: Vec<u8>,
    pub moment: u64,
}

/// The words `NAME [MOMENT] BODY`, and the pairs of words after them.
fn split_delivery(words: &[Vec<u8>]) -> Result<(&Vec<u8>, u64, &Vec<u8>, &[Vec<u8>]), Unread> {
    match words {
        [name, moment, body, pairs @ ..] if pairs.len() % 2 == 0 => {
            Ok((name, number_of(moment)?, body, pairs))
        }
        [name, body, pairs @ ..] => Ok((name, 0, body, pairs)),
        _ => Err(Unread::BadWords),
    }
}

/// A word that is a text.
fn owned_text(word: Vec<u8>) -> Result<String, Unread> {
    match String::from_utf8(word) {
        Ok(text) => Ok(text),
        Err(_) => Err(Unread::NoText),
    }
}

/// The delivery of the words `NAME [MOMENT] BODY [OLD NEW]..`. Without a moment it is at 0. Each OLD is replaced by its NEW in the
/// name and in the body.
pub fn delivery_of(alloc: Global, words: &[Vec<u8>]) -> Result<Delivery, Unread> {
    let (name, moment, body, pairs) = split_delivery(words)?;
    let mut name = Vec::from_slice(alloc, name.as_slice())?;
    let mut body = Vec::from_slice(alloc, body.as_slice())?;
    replace_pieces(alloc, &mut name, &mut body, pairs)?;
    Ok(Delivery {
        name: owned_text(name)?,
        body,
        moment,
    })
}
