//! Dates, and the index texts of suites that show nothing.

ghost use Rattle.std.specs.Prelude.{◌≤◌, All, IfOk};

use super::of_configs::config_of;
use crate::out::Out;
use rules::Config;
use std::alloc::Global;
use suites::Shelves;
use test_rows::{Unread, number_of};
use texts::{date_text, index_text};

/// The last moment at which a suite may have changed.
const LATEST: u64 = 4_102_444_799;

/// The last moment until which a Release may be valid.
const LAST_VALID: u64 = 4_417_804_799;

/// The moment that a word is.
fn moment_of(word: &Vec<u8>) -> Result<u64, Unread>
    ensures { IfOk result (λ moment. moment ≤ 4_102_444_799) }
{
    let moment = number_of(word)?;
    if moment > LATEST {
        return Err(Unread::BadWords);
    }
    Ok(moment)
}

/// `date MOMENT`: the date as a Release has it.
fn date(out: &mut Out, words: &[Vec<u8>]) {
    let [moment] = words else {
        return out.refuse(Unread::BadWords);
    };
    let moment = out.number_of(moment);
    if moment > LAST_VALID {
        return out.refuse(Unread::BadWords);
    }
    match date_text(out.alloc, moment) {
        Ok(text) => out.say(text.as_str()),
        Err(_) => out.refuse(Unread::OutOfMemory),
    }
}

/// The moments of these words.
fn moments_of(alloc: Global, words: &[Vec<u8>]) -> Result<Vec<u64>, Unread>
    ensures { IfOk result (λ moments. All (λ moment. moment ≤ 4_102_444_799) moments.items) }
{
    let mut moments = Vec::new(alloc);
    for word in words {
        moments.push(moment_of(word)?)?;
    }
    Ok(moments)
}

/// Adds the text at a path if no suite shows anything, with the date of each suite; or `none`.
fn add_index(out: &mut Out, config: &Config, path: &str, dates: &[Vec<u8>]) {
    match index_at(out.alloc, config, path, dates) {
        Ok(Some(text)) => out.add(&text),
        Ok(None) => out.say("none"),
        Err(fault) => out.refuse(fault),
    }
}

/// The text at a path.
fn index_at(
    alloc: Global,
    config: &Config,
    path: &str,
    dates: &[Vec<u8>],
) -> Result<Option<Vec<u8>>, Unread> {
    let dates = moments_of(alloc, dates)?;
    Ok(index_text(alloc, config, &Shelves::new(alloc), &dates, path)?)
}

/// `index CONFIG PATH DATE..`: the text at a path if no suite shows anything, with the date of each suite; or
/// `none`.
fn index(out: &mut Out, words: &[Vec<u8>]) {
    let [config, path, dates @ ..] = words else {
        return out.refuse(Unread::BadWords);
    };
    let path = out.text_of(path);
    if let Some(config) = config_of(out, config) {
        add_index(out, &config, path, dates);
    }
}

/// Answers a question on indices, and says whether the words are such a question.
pub fn answer(out: &mut Out, verb: &str, words: &[Vec<u8>]) -> bool {
    match verb {
        "date" => date(out, words),
        "index" => index(out, words),
        _ => return false,
    }
    true
}
