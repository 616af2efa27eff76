//! Paragraphs from a text.

ghost use Rattle.std.specs.Prelude.{◌≡◌, ◌≢◌, ◌≤◌, ◌⊎◌, List, [], ◌∷◌, MatchResult, IfOk, IfErr, IfSome, length, Ok, Err, ◌<◌, ℕ};
ghost use Rattle.std.specs.Option.{option_map};
ghost use Rattle.para.specs.declared.fault.ParaFault.TheVariants.{OutOfMemory};
ghost use Rattle.para.specs.Field.{FieldValue};
ghost use Rattle.para.specs.Fields.{paragraphs_in, fields_in};
ghost use Rattle.para.specs.Fault.{many_fault, one_fault, IsJudged};
ghost use Rattle.para.specs.Grammar.{lines, Spells};
ghost use Rattle.para.specs.Reading.{reading, start, lines_of};
ghost use Rattle.para.specs.ReaderState.{IsRefused};

use crate::fault::ParaFault;
use crate::field::Paragraph;
use crate::line::has_refused_byte;
use crate::reader::Reader;
use std::alloc::Global;
use std::str;

/// The first line of a text, and what stands after its newline, if it has one.
fn split_line(text: &str) -> (&str, Option<&str>)
    ensures lines { lines text.now ≡ result.0.now ∷ lines_of (option_map (λ rest. rest.now) result.1) }
    ensures shorter { IfSome result.1 (λ rest. length rest.now < length text.now) }
{
    match text.split_once('\n') {
        Some((line, rest)) => (line, Some(rest)),
        None => (text, None),
    }
}

fn read_lines<'a>(alloc: Global, text: &'a str) -> Result<Vec<Paragraph<'a>>, ParaFault>
    ensures { MatchResult result (λ found. reading start 0 (lines text.now) ≡ Ok found.items) (λ fault. IsRefused fault (reading start 0 (lines text.now))) }
{
    let is_clean = !has_refused_byte(text);
    let mut reader = Reader::new(alloc);
    let mut rest = Some(text);
    let mut number = 0;
    while let Some(here) = rest {
        let (line, behind) = split_line(here);
        number += 1;
        reader.line(number, line, is_clean)?;
        rest = behind;
    }
    Ok(reader.finish()?)
}

/// The paragraphs of a text, one or more (Debian Policy 5.1). Names and lines are slices of it.
///
/// A text longer than `limit` bytes is refused first (P10), then one that is not UTF-8 (P1), then
/// one with a line at fault (P2 to P7, with the number of the first such line), then one without a
/// paragraph (P8). Own rules of this archive: more than one empty line may part two paragraphs, and
/// a line that holds only blanks is refused, as is a control character.
pub fn read_many<'a>(
    alloc: Global,
    text: &'a [u8],
    limit: usize,
) -> Result<Vec<Paragraph<'a>>, ParaFault>
    // What is read is what the text spells.
    ensures spelled { IfOk result (λ found. (length text.now ≤ limit) × (found.items ≢ []) × Spells text.now found.items) }
    // No text spells two lists of paragraphs, and one that spells some is read unless memory runs out.
    ensures only { (ps : List (List FieldValue)) → length text.now ≤ limit → ps ≢ [] → Spells text.now ps →
        MatchResult result (λ found. found.items ≡ ps) (λ fault. fault ≡ OutOfMemory) }
    // The fault of a refusal is that of the text, or `OutOfMemory`.
    ensures judged { IsJudged result (many_fault text.now limit) }
    // The answer is what the text gives, unless memory runs out.
    ensures read { IfOk result (λ found. paragraphs_in text.now limit ≡ Ok found.items) }
    ensures refused { IfErr result (λ e. (e ≡ OutOfMemory) ⊎ (paragraphs_in text.now limit ≡ Err e)) }
{
    if text.len() > limit {
        return Err(ParaFault::TooLong);
    }
    let Ok(text) = str::from_utf8(text) else {
        return Err(ParaFault::NotUtf8);
    };
    let paragraphs = read_lines(alloc, text)?;
    if paragraphs.is_empty() {
        return Err(ParaFault::NoParagraph);
    }
    Ok(paragraphs)
}

/// The paragraph of a text, exactly one (Debian Policy 5.1). Names and lines are slices of it.
///
/// A text is refused as by `read_many`, and last if it has more than one paragraph (P9).
pub fn read_one<'a>(alloc: Global, text: &'a [u8], limit: usize) -> Result<Paragraph<'a>, ParaFault>
    // What is read is what the text spells.
    ensures spelled { IfOk result (λ found. (length text.now ≤ limit) × Spells text.now (found ∷ [])) }
    // No text spells two paragraphs in place of one, and one that spells one is read unless memory runs out.
    ensures only { (p : List FieldValue) → length text.now ≤ limit → Spells text.now (p ∷ []) →
        MatchResult result (λ found. found ≡ p) (λ fault. fault ≡ OutOfMemory) }
    // The fault of a refusal is that of the text, or `OutOfMemory`.
    ensures judged { IsJudged result (one_fault text.now limit) }
    // The answer is what the text gives, unless memory runs out.
    ensures read { IfOk result (λ found. fields_in text.now limit ≡ Ok found) }
    ensures refused { IfErr result (λ e. (e ≡ OutOfMemory) ⊎ (fields_in text.now limit ≡ Err e)) }
{
    let mut paragraphs = read_many(alloc, text, limit)?;
    if paragraphs.len() > 1 {
        return Err(ParaFault::SeveralParagraphs);
    }
    Ok(paragraphs.remove(0))
}
