//! Questions to an archive, and their answers as they are printed.

ghost use Rattle.std.specs.Prelude.{◌≡◌, OnOk};
ghost use Rattle.std.specs.Io.KnownBytes.{Appends};
ghost use Rattle.queue.specs.Steps.{Reads};
ghost use Rattle.commands.specs.Told.{IsPrinted};
ghost use Rattle.telling.specs.Told.{configuration, question_of};

use crate::fault::Stop;
use book::Keeper;
use queue::{Archive, Fault};
use std::alloc::{AllocError, Global};
use std::io::Write;
use telling::{Question, tell};

/// A name that may be left out, as a text of its own.
fn owned(alloc: Global, name: Option<&str>) -> Result<Option<String>, AllocError> {
    match name {
        Some(name) => Ok(Some(String::from_str(alloc, name)?)),
        None => Ok(None),
    }
}

/// The question what a suite shows; without a codename, what all suites show.
pub fn of_suite(alloc: Global, suite: Option<&str>, is_json: bool) -> Result<Question, AllocError> {
    let suite = owned(alloc, suite)?;
    Ok(Question::Shown { suite, is_json })
}

/// The question why the uploads of a name have their verdicts, and what those that wait lack; without a name, what each waiting upload lacks.
pub fn of_uploads(
    alloc: Global,
    name: Option<&str>,
    is_json: bool,
) -> Result<Question, AllocError> {
    let name = owned(alloc, name)?;
    Ok(Question::Why { name, is_json })
}

/// Prints the answer of an archive at a moment, in seconds since 1970-01-01 00:00:00 UTC. What is asked about a name that no upload has is
/// not found. The archive is only read.
pub fn print_told<'a, K: Keeper, W: Write>(
    alloc: Global,
    archive: &mut Archive<K>,
    question: &Question,
    at: u64,
    out: &mut W,
) -> Result<(), Stop<'a>>
    ensures reads { Reads K.Keeper archive.old.keeper archive.new.keeper }
    // The answer is printed, byte for byte.
    ensures printed { K.is_clean archive.new.keeper → OnOk result (IsPrinted K.may_fail (K.book archive.old.keeper) (question_of question.now) at (W.contents out.old) (W.contents out.new)) }
    // So is the text of the configuration, also if the store has not returned what was written to it.
    ensures configuration { question_of question.now ≡ configuration → OnOk result (Appends (W.contents out.old) (W.contents out.new) (K.book archive.old.keeper).config.text) }
{
    match tell(alloc, &mut archive.keeper, question, at) {
        Ok(Some(text)) => {
            out.write_all(&text)?;
            Ok(())
        }
        Ok(None) => Err(Stop::NotFound),
        Err(fault) => Err(Stop::from(Fault::from(fault))),
    }
}
