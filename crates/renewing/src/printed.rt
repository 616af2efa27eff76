//! The prints of texts that begin like the texts before them.
//!
//! Most of an index stays as it is, and its three digests take about half of the time of a run. So the archive keeps each index that it
//! rendered in parts of 65,536 bytes, and with each part the states of the digests at its end (`PrintedText`). The next text at that path
//! is compared with these parts, and is hashed from the first that differs (`print_next`). Its contract says that a print is that of the
//! whole text, whatever is kept: by the type's invariant the states at a part are those of all bytes up to its end. These texts are held
//! in memory, once each.

ghost use Rattle.std.specs.Prelude.{◌≡◌, ◌++◌, ◌<◌, [], IfOk, IfSome, OnOk, length, take};
ghost use Rattle.renewing.specs.Printed.{ArePrinted, IsBehind, joined};
ghost use Rattle.sums.specs.Prints.{print};

use para::{Listed, Text};
use std::alloc::{AllocError, Global};
use sums::{Print, Printer};

/// The number of bytes of a part.
const PART_SIZE: usize = 65_536;

/// A part of a text, and a printer that has been given the text up to the end of this part.
#[derive(Drop)]
pub struct Part {
    pub bytes: Listed<u8>,
    pub printer: Printer,
}

/// The whole parts of the last text at a path whose print was made. The print of a text that begins alike goes on from there.
#[derive(Drop)]
pub struct PrintedText {
    path: Text,
    parts: Vec<Part>,
    ghost printed: { ∥ ArePrinted [] parts.items ∥₁ },
}

/// The number of these parts that the text begins with, and the rest of the text after them.
fn parts_met<'t>(parts: &[Part], text: &'t [u8]) -> (usize, &'t [u8])
    ensures { joined (take result.0 parts.now) ++ result.1.now ≡ text.now }
{
    let mut rest = text;
    for (index, part) in parts.iter().enumerate() {
        let bytes = part.bytes.as_slice();
        if bytes.len() > rest.len() {
            return (index, rest);
        }
        let (front, more) = rest.split_at(bytes.len());
        if front != bytes {
            return (index, rest);
        }
        rest = more;
    }
    (parts.len(), rest)
}

/// A printer that has been given these parts.
fn printer_behind(parts: &[Part]) -> Result<Printer, AllocError>
    requires { ∥ ArePrinted [] parts.now ∥₁ }
    ensures { IfOk result (λ printer. ∥ IsBehind parts.now printer ∥₁) }
{
    match parts.last() {
        Some(part) => Ok(part.printer.clone()?),
        None => Ok(Printer::new()),
    }
}

/// Gives the printer the part that follows, and appends it.
fn push_part(
    alloc: Global,
    parts: &mut Vec<Part>,
    printer: &mut Printer,
    bytes: &[u8],
) -> Result<(), AllocError>
    requires { ∥ IsBehind parts.old.items printer.old ∥₁ }
    ensures behind { OnOk result (∥ IsBehind parts.new.items printer.new ∥₁) }
    ensures joined { OnOk result (joined parts.new.items ≡ joined parts.old.items ++ bytes.now) }
{
    printer.update(bytes);
    parts.push(Part {
        bytes: Listed::from_vec(Vec::from_slice(alloc, bytes)?),
        printer: printer.clone()?,
    })?;
    Ok(())
}

/// The print of a text. The parts, which are those of an earlier text, become its own.
fn print_parts(alloc: Global, parts: &mut Vec<Part>, text: &[u8]) -> Result<Print, AllocError>
    requires { ∥ ArePrinted [] parts.old.items ∥₁ }
    ensures parts { OnOk result (∥ ArePrinted [] parts.new.items ∥₁) }
    ensures print { IfOk result (λ p. p ≡ print text.now) }
{
    let (met, mut rest) = parts_met(parts.as_slice(), text);
    parts.truncate(met);
    let mut printer = printer_behind(parts.as_slice())?;
    while rest.len() >= PART_SIZE {
        let (bytes, more) = rest.split_at(PART_SIZE);
        push_part(alloc, parts, &mut printer, bytes)?;
        rest = more;
    }
    printer.update(rest);
    Ok(printer.finish())
}

/// Which of these texts stands at the path.
fn position_at(printed: &[PrintedText], path: &str) -> Option<usize>
    ensures { IfSome result (λ position. position < length printed.now) }
{
    for (position, text) in printed.iter().enumerate() {
        if text.path.as_str() == path {
            return Some(position);
        }
    }
    None
}

/// Takes out the parts of the text at a path. There are none if no text was printed at that path.
fn take_parts(alloc: Global, printed: &mut Vec<PrintedText>, path: &str) -> Vec<Part>
    ensures { ∥ ArePrinted [] result.items ∥₁ }
{
    match position_at(printed.as_slice(), path) {
        Some(position) => {
            let PrintedText { path: _, parts } = printed.swap_remove(position);
            parts
        }
        None => Vec::new(alloc),
    }
}

/// The print of the text at a path. If the text before it at that path is known, only what follows their common parts is read anew.
pub(crate) fn print_next(
    alloc: Global,
    printed: &mut Vec<PrintedText>,
    path: &str,
    text: &[u8],
) -> Result<Print, AllocError>
    ensures { IfOk result (λ p. p ≡ print text.now) }
{
    let mut parts = take_parts(alloc, printed, path);
    let print = print_parts(alloc, &mut parts, text)?;
    printed.push(PrintedText {
        path: Text::new(alloc, path)?,
        parts,
    })?;
    Ok(print)
}
