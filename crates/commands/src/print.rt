//! What the program prints of an archive, over any keeper.

ghost use Rattle.std.specs.Prelude.{◌≡◌, ◌⊎◌, ◌≤◌, true, false, OnOk, OnErr, IfErr};
ghost use Rattle.book.specs.Book.{latest};
ghost use Rattle.book.specs.Configured.{configured, keeps_shown};
ghost use Rattle.book.specs.Keeping.{MayAnswer};
ghost use Rattle.book.specs.declared.fault.KeepFault.{KeepFault as KeepersFault};
ghost use Rattle.book.specs.declared.fault.KeepFault.TheVariants.{Configuration as NotKept};
ghost use Rattle.queue.specs.Configuring.{Endures, LeavesConfigured};
ghost use Rattle.queue.specs.Steps.{IsUndone, Reads};
ghost use Rattle.commands.specs.declared.fault.Stop.TheVariants.{NoArchive};

use crate::database::{Opening, is_of_database, length_of};
use crate::escaped::Escaped;
use crate::fault::Stop;
use crate::files::{body_of, most_read, opened};
use crate::progress::Progress;
use crate::told::print_told;
use book::{FilePiece, KeepFault, Keeper};
use queue::{Archive, Arrived, Fault, Promotion, Report};
use rules::Config;
use std::alloc::{AllocError, Global};
use std::io::{self, BufWriter, Write};
use std::rt::Files;
use telling::Question;
use texts::file_name;

/// The number of bytes of lines that are collected before they are written.
const MOST_TOGETHER: usize = 65_536;

/// Prints a line, as it is shown.
pub fn print_line<W: Write>(line: &str, out: &mut W) -> io::Result<()> {
    let line = Escaped(line);
    writeln!(out, "{line}")
}

/// Prints lines one by one, as they are shown.
fn print_each<W: Write>(lines: &[String], out: &mut W) -> io::Result<()> {
    for line in lines {
        print_line(line, out)?;
    }
    Ok(())
}

/// Prints lines, as they are shown. They are collected if there is memory for that, since two calls of the system for each line cost more
/// than all the rest.
pub fn print_lines<W: Write>(alloc: Global, lines: &[String], out: &mut W) -> io::Result<()> {
    if let Ok(mut together) = BufWriter::with_capacity(alloc, MOST_TOGETHER, &mut *out) {
        print_each(lines, &mut together)?;
        return together.flush();
    }
    print_each(lines, out)
}

/// Prints the lines of a report, as they are shown.
pub fn print_report<W: Write>(alloc: Global, report: &Report, out: &mut W) -> io::Result<()> {
    print_lines(alloc, &report.lines, out)
}

/// Whether the report of a run says of an upload that it is refused.
pub fn has_refused(report: &Report) -> bool {
    for line in &report.lines {
        if line.starts_with("refused ") {
            return true;
        }
    }
    false
}

/// Prints `new NAME`, `again NAME` or `refused FAULT NAME`, with the name as it is shown, and says whether a delivery was taken. Want of
/// memory and a fault of the keeper end the program instead.
pub fn print_arrived<'a, W: Write>(
    arrived: Result<Arrived, Fault>,
    name: &str,
    out: &mut W,
) -> Result<bool, Stop<'a>> {
    let name = Escaped(name);
    match arrived {
        Ok(Arrived::New) => writeln!(out, "new {name}")?,
        Ok(Arrived::Again) => writeln!(out, "again {name}")?,
        Err(fault @ (Fault::OutOfMemory | Fault::Keeper(_))) => return Err(Stop::Refused(fault)),
        Err(fault) => {
            writeln!(out, "refused {fault} {name}")?;
            return Ok(false);
        }
    }
    Ok(true)
}

/// Delivers a file, prints a line for it, and says whether it was taken. What is no regular file, such as a pipe, has no length
/// beforehand, and is read whole.
fn put_file<'a, R: Files + AllocGlobal, K: Keeper, W: Write, E: Write>(
    rt: &R,
    archive: &mut Archive<K>,
    at: u64,
    path: &'a str,
    out: &mut W,
    progress: &mut Progress<'_, E>,
) -> Result<bool, Stop<'a>> {
    let name = file_name(path);
    let length = length_of(rt, path);
    let arrived = match length {
        Some(size) => {
            let mut file = opened(rt, path)?;
            archive.receive(rt.alloc(), name, size, &mut file, at)
        }
        None => {
            let body = body_of(rt, path, most_read(archive))?;
            archive.deliver(rt.alloc(), name, &body, at)
        }
    };
    progress.give_way();
    let is_taken = print_arrived(arrived, name, out)?;
    progress.advance(length.unwrap_or(0));
    Ok(is_taken)
}

/// The number of bytes of the regular files among these.
fn size_of_all<R: Files>(rt: &R, paths: &[&str]) -> u64 {
    let mut size: u64 = 0;
    for path in paths {
        size = size.saturating_add(length_of(rt, path).unwrap_or(0));
    }
    size
}

/// Delivers the file at a path, unless it belongs to the database itself, prints a line for it, and says whether it was taken.
fn put_other<'a, R: Files + AllocGlobal, K: Keeper, W: Write, E: Write>(
    rt: &R,
    archive: &mut Archive<K>,
    opening: Opening<'_>,
    path: &'a str,
    out: &mut W,
    progress: &mut Progress<'_, E>,
) -> Result<bool, Stop<'a>> {
    if is_of_database(rt, opening.db, path)? {
        return Err(Stop::Unreadable(Escaped(path)));
    }
    put_file(rt, archive, opening.at, path, out, progress)
}

/// Delivers files, each under the text after its path's last slash, and prints a line for each. It goes on after a file that is refused,
/// and says whether all were taken. Each file is read while it is delivered. The files of the database itself can't be read. The number
/// of delivered bytes is shown; what is no regular file does not count.
pub fn put_files<'a, R: Files + AllocGlobal, K: Keeper, W: Write, E: Write>(
    rt: &R,
    archive: &mut Archive<K>,
    opening: Opening<'_>,
    paths: &[&'a str],
    out: &mut W,
    progress: &mut Progress<'_, E>,
) -> Result<bool, Stop<'a>> {
    let mut all = true;
    if progress.is_shown() {
        progress.expect(size_of_all(rt, paths));
    }
    for path in paths {
        if !put_other(rt, archive, opening, path, out, progress)? {
            all = false;
        }
    }
    Ok(all)
}

/// Runs the queue at a moment, and prints the lines of the report. If it is strict it says whether all uploads that the run judged were
/// taken.
pub fn run<'a, K: Keeper, W: Write>(
    alloc: Global,
    archive: &mut Archive<K>,
    at: u64,
    strict: bool,
    out: &mut W,
) -> Result<bool, Stop<'a>> {
    let report = archive.run(alloc, at)?;
    print_report(alloc, &report, out)?;
    Ok(!strict || !has_refused(&report))
}

/// Whether each source of a promotion was shown.
fn all_are_copied(promotion: &Promotion) -> bool {
    for copy in &promotion.copies {
        if copy.items.is_none() {
            return false;
        }
    }
    true
}

/// Copies a source's packages from the suite `from` to the suite `to` at a moment, and prints how many items of `to`
/// are new.
pub fn copy<'a, K: Keeper, W: Write>(
    alloc: Global,
    archive: &mut Archive<K>,
    at: u64,
    from: &str,
    to: &str,
    source: &str,
    out: &mut W,
) -> Result<(), Stop<'a>> {
    let items = archive.copy(alloc, from, to, source, at)?;
    writeln!(out, "{items}")?;
    Ok(())
}

/// Names as texts of their own.
fn owned(alloc: Global, names: &[&str]) -> Result<Vec<String>, AllocError> {
    let mut texts = Vec::new(alloc);
    for name in names {
        texts.push(String::from_str(alloc, name)?)?;
    }
    Ok(texts)
}

/// The sources that are named, if any are, as texts of their own.
fn owned_sources(
    alloc: Global,
    sources: &Option<Vec<&str>>,
) -> Result<Option<Vec<String>>, AllocError> {
    match sources {
        Some(names) => Ok(Some(owned(alloc, names)?)),
        None => Ok(None),
    }
}

/// Copies several sources from the suite `from` to the suite `to` in one change at a moment, and prints a line for each: how many items
/// of `to` are new, or that it is refused. It says whether no source was refused.
pub fn promote<'a, K: Keeper, W: Write>(
    alloc: Global,
    archive: &mut Archive<K>,
    at: u64,
    from: &str,
    to: &str,
    sources: &Option<Vec<&'a str>>,
    out: &mut W,
) -> Result<bool, Stop<'a>> {
    let sources = owned_sources(alloc, sources)?;
    let promotion = archive.promote(alloc, from, to, &sources, at)?;
    print_report(alloc, &promotion.report, out)?;
    Ok(all_are_copied(&promotion))
}

/// Removes all items of a package's name from a suite at a moment, and prints how many the suite showed.
pub fn remove<'a, K: Keeper, W: Write>(
    alloc: Global,
    archive: &mut Archive<K>,
    at: u64,
    suite: &str,
    name: &str,
    out: &mut W,
) -> Result<(), Stop<'a>> {
    let items = archive.remove(alloc, suite, name, at)?;
    writeln!(out, "{items}")?;
    Ok(())
}

/// Takes away each arrival that no longer counts at a moment, and prints how many there were.
pub fn clean<'a, K: Keeper, W: Write>(
    alloc: Global,
    archive: &mut Archive<K>,
    at: u64,
    out: &mut W,
) -> Result<(), Stop<'a>> {
    let count = archive.clean(alloc, at)?;
    writeln!(out, "{count}")?;
    Ok(())
}

/// Prints the bytes of the index at a path.
fn show_text<'a, K: Keeper, W: Write>(
    alloc: Global,
    archive: &mut Archive<K>,
    path: &str,
    out: &mut W,
) -> Result<(), Stop<'a>>
    ensures reads { Reads K.Keeper archive.old.keeper archive.new.keeper }
{
    match archive.fetch(alloc, path)? {
        Some(body) => {
            out.write_all(&body)?;
            Ok(())
        }
        None => Err(Stop::NotFound),
    }
}

/// Prints a piece of a file, and says how many bytes it has. A piece without bytes is a fault of the disk: no file ends before its last.
fn print_piece<'a, W: Write>(piece: Option<FilePiece>, out: &mut W) -> Result<u64, Stop<'a>> {
    match piece {
        Some(piece) if !piece.bytes.is_empty() => {
            out.write_all(&piece.bytes)?;
            Ok(piece.bytes.len() as u64)
        }
        _ => Err(Stop::Refused(Fault::Keeper(KeepFault::Disk))),
    }
}

/// Prints the bytes of the file of the pool at a path after its first piece: `left` of them. Each piece is written before the next is read.
#[tactic(auto, using(book::proofs::ReadLemmas::reads_none, book::proofs::ReadLemmas::reads_more))]
fn show_rest<'a, K: Keeper, W: Write>(
    alloc: Global,
    archive: &mut Archive<K>,
    path: &str,
    mut left: u64,
    out: &mut W,
) -> Result<(), Stop<'a>>
    ensures reads { Reads K.Keeper archive.old.keeper archive.new.keeper }
{
    for number in 1..u32::MAX {
        if left == 0 {
            break;
        }
        let piece = archive.fetch_piece(alloc, path, number)?;
        left = left.saturating_sub(print_piece(piece, out)?);
    }
    Ok(())
}

/// Prints the bytes of the index or the file of the pool at a path. A file is read and written piece by piece.
#[tactic(auto, using(book::proofs::ReadLemmas::reads_none, book::proofs::ReadLemmas::reads_more))]
pub fn show<'a, K: Keeper, W: Write>(
    alloc: Global,
    archive: &mut Archive<K>,
    path: &str,
    out: &mut W,
) -> Result<(), Stop<'a>>
    ensures reads { Reads K.Keeper archive.old.keeper archive.new.keeper }
{
    let Some(first) = archive.fetch_piece(alloc, path, 0)? else {
        return show_text(alloc, archive, path, out);
    };
    out.write_all(&first.bytes)?;
    let left = first.size.saturating_sub(first.bytes.len() as u64);
    show_rest(alloc, archive, path, left, out)
}

/// Prints a line for each upload that has no verdict, or an object of JSON.
pub fn waiting<'a, K: Keeper, W: Write>(
    alloc: Global,
    archive: &mut Archive<K>,
    at: u64,
    json: bool,
    out: &mut W,
) -> Result<(), Stop<'a>>
    ensures reads { Reads K.Keeper archive.old.keeper archive.new.keeper }
{
    if json {
        print_told(alloc, archive, &Question::Waiting, at, out)?;
    } else {
        print_report(alloc, &archive.waiting(alloc, at)?, out)?;
    }
    Ok(())
}

/// Prints the lines of all runs, or an object of JSON for each upload that they judged.
pub fn verdicts<'a, K: Keeper, W: Write>(
    alloc: Global,
    archive: &mut Archive<K>,
    json: bool,
    out: &mut W,
) -> Result<(), Stop<'a>>
    ensures reads { Reads K.Keeper archive.old.keeper archive.new.keeper }
{
    if json {
        print_told(alloc, archive, &Question::Verdicts, 0, out)?;
    } else {
        print_report(alloc, &archive.verdicts(alloc)?, out)?;
    }
    Ok(())
}

/// Gives an archive another configuration at a moment, in seconds since 1970-01-01 00:00:00 UTC. It is refused if something that is shown
/// would not be kept.
pub fn configure<'a, K: Keeper>(
    alloc: Global,
    archive: &mut Archive<K>,
    config: Config,
    at: u64,
) -> Result<(), Stop<'a>>
    requires in_time { at ≤ latest }
    ensures endures { Endures K.Keeper archive.old.keeper archive.new.keeper }
    // If it is done, the configuration keeps all that is shown.
    ensures kept { K.is_clean archive.new.keeper → OnOk result (keeps_shown config (K.book archive.old.keeper) ≡ true) }
    ensures book { K.is_clean archive.new.keeper → OnOk result (K.book archive.new.keeper ≡ configured config at (K.book archive.old.keeper)) }
    // A refusal leaves the book as it was.
    ensures err { OnErr result (IsUndone K.Keeper archive.old.keeper archive.new.keeper) }
    // K5 comes only if something that is shown would not be kept.
    ensures differs { K.is_clean archive.new.keeper → IfErr result (λ stop. stop ≡ NoArchive NotKept → keeps_shown config (K.book archive.old.keeper) ≡ false) }
    // The fault that is reported is that one, or one of the keeper's own.
    ensures cause { IfErr result (λ stop. (stop ≡ NoArchive NotKept) ⊎ ((fault : KeepersFault) × (stop ≡ NoArchive fault) × MayAnswer K.may_fail fault)) }
    // A crash leaves what it would have left before, or the configured book.
    ensures crash { LeavesConfigured K.Keeper archive.old.keeper config at archive.new.keeper }
{
    match archive.configure(alloc, config, at) {
        Ok(()) => Ok(()),
        Err(fault) => Err(Stop::NoArchive(fault)),
    }
}
