//! Lists of commands, made over one opening of an archive.
//!
//! A list is read whole before the database is opened, so a bad line leaves no list half done, and costs no opening. A list goes on after
//! a file that can't be read, but `put` ends there. The other commands of the list were asked for as well, and most lists are written by a
//! program.
//!
//! The commands go through `drive`, so the program makes the call of which the promise speaks. `drive` is handed the bodies, so a group of
//! deliveries is in memory: up to 16 MiB of bodies. A call costs nothing besides its commands, so a larger group would save nothing, and
//! would print later. A file of more than 16 MiB is in no group. As by `put`, it is handed to `receive`, which stores its pieces as they
//! are read. Only what has no length beforehand, such as a pipe, is read whole however long it is, and a longer one is a group of its own.
//!
//! `drive` makes all commands that it is handed, also those after a fault of memory or the disk. Then their order is lost. If a copy finds
//! no room and the removal after it is done, no suite shows the package any more, and the list given again can't bring it back. So a group
//! has only deliveries. Those after a fault have been tried too, and are not reported.

ghost use Rattle.std.specs.Prelude.{◌≡◌, ◌+◌, nat_le};

use crate::database::{InFile, Opening, close, is_of_database, length_of, open_shown};
use crate::escaped::Escaped;
use crate::fault::Stop;
use crate::files::{body_of, most_read, opened, read_of};
use crate::print::{has_refused, print_arrived, print_report};
use crate::progress::Progress;
use crate::slips::tell_early;
use book::Keeper;
use command_line::{ListRequest, Request, read_list};
use queue::{Archive, Command, Fault, Outcome, Promotion, Report};
use std::alloc::{AllocError, Global};
use std::fs::File;
use std::io::{self, Read, Write};
use std::rt::Files;
use texts::file_name;

/// The most bytes that the bodies of a group may have in all.
const MOST_BYTES: u64 = 16_777_216;

/// Deliveries that are made by one call, or one other command, with their lines of the list.
#[derive(Drop)]
struct Group<'l> {
    /// Whether a run that refuses an upload counts as not done.
    is_strict: bool,
    requests: Vec<ListRequest<'l>>,
    commands: Vec<Command>,
    /// The number of bytes of the bodies.
    bytes: u64,
}

/// Whether a body of `more` bytes may be added to bodies of `held` bytes.
fn has_room(held: u64, more: u64) -> bool
    ensures { result ≡ nat_le (held + more) MOST_BYTES }
{
    held as u128 + more as u128 <= MOST_BYTES as u128
}

/// The number of bytes of the body of a command.
fn size_of(command: &Command) -> u64 {
    match command {
        Command::Deliver { body, .. } => body.len() as u64,
        _ => 0,
    }
}

/// Whether a line delivers a file.
fn is_delivery(request: &ListRequest<'_>) -> bool {
    matches!(request, Request::Put { .. })
}

impl<'l> Group<'l> {
    /// A group without commands.
    fn new(alloc: Global, is_strict: bool) -> Group<'l> {
        Group {
            is_strict,
            requests: Vec::new(alloc),
            commands: Vec::new(alloc),
            bytes: 0,
        }
    }

    /// Adds a command, and its line of the list.
    fn push(&mut self, request: ListRequest<'l>, command: Command) -> Result<(), AllocError> {
        self.bytes = self.bytes.saturating_add(size_of(&command));
        self.requests.push(request)?;
        self.commands.push(command)?;
        Ok(())
    }

    /// Takes all commands away.
    fn clear(&mut self) {
        self.requests.clear();
        self.commands.clear();
        self.bytes = 0;
    }
}

/// The bytes of a list: those of a file, or of standard input if the path is `-`.
fn list_at(rt: &HostRuntime, path: &str) -> io::Result<Vec<u8>> {
    let mut text = Vec::new(rt.alloc());
    if path == "-" {
        rt.stdin().read_to_end(&mut text)?;
    } else {
        File::open(rt, path)?.read_to_end(&mut text)?;
    }
    Ok(text)
}

/// The bytes of a file to deliver, up to `most` of them, or nothing if it can't be read. The files of the database itself can't be read.
fn readable<R: Files + AllocGlobal>(
    rt: &R,
    db: &str,
    path: &str,
    most: u64,
) -> Result<Option<Vec<u8>>, Fault> {
    if is_of_database(rt, db, path)? {
        return Ok(None);
    }
    match body_of(rt, path, most) {
        Ok(body) => Ok(Some(body)),
        Err(Stop::Refused(fault)) => Err(fault),
        Err(_) => Ok(None),
    }
}

/// The delivery of a file, of which up to `most` bytes are read, or nothing if it can't be read. Then a line on standard error says so.
fn delivery<'a, R: Files + AllocGlobal, E: Write>(
    rt: &R,
    opening: Opening<'_>,
    path: &str,
    most: u64,
    progress: &mut Progress<'_, E>,
) -> Result<Option<Command>, Stop<'a>> {
    let Some(body) = readable(rt, opening.db, path, most)? else {
        progress.tell(&Stop::Unreadable(Escaped(path)))?;
        return Ok(None);
    };
    Ok(Some(Command::Deliver {
        name: String::from_str(rt.alloc(), file_name(path))?,
        body,
        moment: opening.at,
    }))
}

/// The copy of a source's packages from one suite to another at a moment.
fn copying(
    alloc: Global,
    at: u64,
    from: &str,
    to: &str,
    source: &str,
) -> Result<Command, AllocError> {
    Ok(Command::Copy {
        from: String::from_str(alloc, from)?,
        to: String::from_str(alloc, to)?,
        source: String::from_str(alloc, source)?,
        moment: at,
    })
}

/// The promotion of all that one suite shows to another at a moment.
fn promoting(alloc: Global, at: u64, from: &str, to: &str) -> Result<Command, AllocError> {
    Ok(Command::Promote {
        from: String::from_str(alloc, from)?,
        to: String::from_str(alloc, to)?,
        sources: None,
        moment: at,
    })
}

/// The removal of a package's name from a suite at a moment.
fn removing(alloc: Global, at: u64, suite: &str, name: &str) -> Result<Command, AllocError> {
    Ok(Command::Remove {
        suite: String::from_str(alloc, suite)?,
        name: String::from_str(alloc, name)?,
        moment: at,
    })
}

/// The command that a line asks for, or nothing if its file can't be read. Then a line on standard error says so. Up to `most` bytes of the
/// file are read.
fn command_of<'a, R: Files + AllocGlobal, E: Write>(
    rt: &R,
    opening: Opening<'_>,
    request: &ListRequest<'_>,
    most: u64,
    progress: &mut Progress<'_, E>,
) -> Result<Option<Command>, Stop<'a>> {
    let (alloc, at) = (rt.alloc(), opening.at);
    let command = match request {
        Request::Put { path } => return delivery(rt, opening, path, most, progress),
        Request::Run => Command::Run { moment: at },
        Request::Copy { from, to, source } => copying(alloc, at, from, to, source)?,
        Request::Promote { from, to, .. } => promoting(alloc, at, from, to)?,
        Request::Remove { suite, name } => removing(alloc, at, suite, name)?,
        Request::Clean => Command::Clean { moment: at },
        Request::Waiting => Command::Waiting { moment: at },
        Request::Verdicts => Command::Verdicts,
    };
    Ok(Some(command))
}

/// The name that a line delivers its file under.
fn name_of<'l>(request: &ListRequest<'l>) -> &'l str {
    match request {
        Request::Put { path } => file_name(path),
        _ => "",
    }
}

/// Prints words, each after a space and as it is shown, and ends the line.
fn print_words<W: Write>(words: &[&str], out: &mut W) -> io::Result<()> {
    for word in words {
        let word = Escaped(word);
        write!(out, " {word}")?;
    }
    out.write_all(b"\n")
}

/// Prints the words of a line after its first.
fn print_rest<W: Write>(request: &ListRequest<'_>, out: &mut W) -> io::Result<()> {
    match *request {
        Request::Copy { from, to, source } => print_words(&[from, to, source], out),
        Request::Promote { from, to, .. } => print_words(&[from, to], out),
        Request::Remove { suite, name } => print_words(&[suite, name], out),
        _ => print_words(&[], out),
    }
}

/// Prints `refused FAULT` and the words of a line after its first, as they are shown, and says that it was not done. Want of memory and a
/// fault of the keeper end the program instead.
fn print_refused<'a, W: Write>(
    fault: Fault,
    request: &ListRequest<'_>,
    out: &mut W,
) -> Result<bool, Stop<'a>> {
    if matches!(fault, Fault::OutOfMemory | Fault::Keeper(_)) {
        return Err(Stop::Refused(fault));
    }
    write!(out, "refused {fault}")?;
    print_rest(request, out)?;
    Ok(false)
}

/// Prints the lines of a command's answer, and says whether the command was done.
fn print_lines<'a, W: Write>(
    alloc: Global,
    done: &Result<Report, Fault>,
    request: &ListRequest<'_>,
    out: &mut W,
) -> Result<bool, Stop<'a>> {
    match done {
        Ok(report) => {
            print_report(alloc, report, out)?;
            Ok(true)
        }
        Err(fault) => print_refused(*fault, request, out),
    }
}

/// Prints the lines of a run's answer, and says whether the run was done. If it is strict, a run that refuses an upload counts as not
/// done.
fn print_run<'a, W: Write>(
    alloc: Global,
    done: &Result<Report, Fault>,
    request: &ListRequest<'_>,
    is_strict: bool,
    out: &mut W,
) -> Result<bool, Stop<'a>> {
    let is_done = print_lines(alloc, done, request, out)?;
    match done {
        Ok(report) if is_strict => Ok(is_done && !has_refused(report)),
        _ => Ok(is_done),
    }
}

/// Prints `COUNT SOURCE` for each source of a promotion, and says whether it was done.
fn print_promotion<'a, W: Write>(
    alloc: Global,
    done: &Result<Promotion, Fault>,
    request: &ListRequest<'_>,
    out: &mut W,
) -> Result<bool, Stop<'a>> {
    match done {
        Ok(promotion) => {
            print_report(alloc, &promotion.report, out)?;
            Ok(true)
        }
        Err(fault) => print_refused(*fault, request, out),
    }
}

/// Prints `copied COUNT SOURCE`, `removed COUNT PACKAGE` or `cleaned COUNT`.
fn print_number<W: Write>(count: u64, request: &ListRequest<'_>, out: &mut W) -> io::Result<()> {
    match *request {
        Request::Copy { source, .. } => {
            let source = Escaped(source);
            writeln!(out, "copied {count} {source}")
        }
        Request::Remove { name, .. } => {
            let name = Escaped(name);
            writeln!(out, "removed {count} {name}")
        }
        _ => writeln!(out, "cleaned {count}"),
    }
}

/// Prints the count of a command's answer, and says whether the command was done.
fn print_count<'a, W: Write>(
    done: &Result<u64, Fault>,
    request: &ListRequest<'_>,
    out: &mut W,
) -> Result<bool, Stop<'a>> {
    match done {
        Ok(count) => {
            print_number(*count, request, out)?;
            Ok(true)
        }
        Err(fault) => print_refused(*fault, request, out),
    }
}

/// Prints the answer to the command of a line, and says whether the command was done.
fn print_outcome<'a, W: Write>(
    alloc: Global,
    outcome: &Outcome,
    request: &ListRequest<'_>,
    is_strict: bool,
    out: &mut W,
) -> Result<bool, Stop<'a>> {
    match outcome {
        Outcome::Deliver(done) => print_arrived(*done, name_of(request), out),
        Outcome::Run(done) => print_run(alloc, done, request, is_strict, out),
        Outcome::Waiting(done) | Outcome::Verdicts(done) => print_lines(alloc, done, request, out),
        Outcome::Copy(done) | Outcome::Remove(done) | Outcome::Clean(done) => {
            print_count(done, request, out)
        }
        Outcome::Promote(done) => print_promotion(alloc, done, request, out),
        // No line asks for a file.
        Outcome::Fetch(_) => Ok(true),
    }
}

/// Prints the answer to each command, up to one that ends the program, and says whether all were done.
fn print_outcomes<'a, W: Write>(
    alloc: Global,
    outcomes: &[Outcome],
    requests: &[ListRequest<'_>],
    is_strict: bool,
    out: &mut W,
) -> Result<bool, Stop<'a>> {
    let mut all = true;
    for (outcome, request) in outcomes.iter().zip(requests) {
        if !print_outcome(alloc, outcome, request, is_strict, out)? {
            all = false;
        }
    }
    Ok(all)
}

/// Makes the commands of a group by one call, prints each answer, has that written out, and leaves the group without commands. It says
/// whether all were done.
fn make_group<'a, K: Keeper, W: Write, E: Write>(
    alloc: Global,
    archive: &mut Archive<K>,
    group: &mut Group<'_>,
    out: &mut W,
    progress: &mut Progress<'_, E>,
) -> Result<bool, Stop<'a>> {
    let outcomes = archive.drive(alloc, &group.commands)?;
    progress.give_way();
    let printed = print_outcomes(alloc, &outcomes, &group.requests, group.is_strict, out);
    let count = group.requests.len() as u64;
    group.clear();
    out.flush()?;
    progress.advance(count);
    printed
}

/// Adds a delivery to a group. If the bodies of the group leave no room for it, the group is made first. It says whether all that it made
/// was done.
fn take_delivery<'a, 'l, K: Keeper, W: Write, E: Write>(
    alloc: Global,
    archive: &mut Archive<K>,
    request: &ListRequest<'l>,
    command: Command,
    group: &mut Group<'l>,
    out: &mut W,
    progress: &mut Progress<'_, E>,
) -> Result<bool, Stop<'a>> {
    let mut all = true;
    if !has_room(group.bytes, size_of(&command)) {
        all = make_group(alloc, archive, group, out, progress)?;
    }
    group.push(*request, command)?;
    Ok(all)
}

/// Makes a group, and then a command as a group of its own. It says whether all that it made was done.
fn make_alone<'a, 'l, K: Keeper, W: Write, E: Write>(
    alloc: Global,
    archive: &mut Archive<K>,
    request: &ListRequest<'l>,
    command: Command,
    group: &mut Group<'l>,
    out: &mut W,
    progress: &mut Progress<'_, E>,
) -> Result<bool, Stop<'a>> {
    let before = make_group(alloc, archive, group, out, progress)?;
    group.push(*request, command)?;
    let done = make_group(alloc, archive, group, out, progress)?;
    Ok(before && done)
}

/// The path and the number of bytes of the file of a line, if it is a regular file with more bytes than a group may have.
fn large_file<'l, R: Files>(rt: &R, request: &ListRequest<'l>) -> Option<(&'l str, u64)> {
    match *request {
        Request::Put { path } => match length_of(rt, path) {
            Some(size) if size > MOST_BYTES => Some((path, size)),
            _ => None,
        },
        _ => None,
    }
}

/// A file to deliver, open to be read, or nothing if it can't be read. The files of the database itself can't be read.
fn readable_file<R: Files + AllocGlobal>(
    rt: &R,
    db: &str,
    path: &str,
) -> Result<Option<R::File>, AllocError> {
    if is_of_database(rt, db, path)? {
        return Ok(None);
    }
    Ok(opened(rt, path).ok())
}

/// Makes a group, and then delivers the file of a line, which has `size` bytes and is read while it is delivered. It prints the answer, and
/// has that written out. If the file can't be read, a line on standard error says so, and the group stays. It says whether all that it made
/// was done, and whether the file could be read.
fn take_large<'a, R: Files + AllocGlobal, K: Keeper, W: Write, E: Write>(
    rt: &R,
    archive: &mut Archive<K>,
    opening: Opening<'_>,
    path: &str,
    size: u64,
    group: &mut Group<'_>,
    out: &mut W,
    progress: &mut Progress<'_, E>,
) -> Result<bool, Stop<'a>> {
    let Some(mut file) = readable_file(rt, opening.db, path)? else {
        progress.tell(&Stop::Unreadable(Escaped(path)))?;
        progress.advance(1);
        return Ok(false);
    };
    let before = make_group(rt.alloc(), archive, group, out, progress)?;
    let name = file_name(path);
    let arrived = archive.receive(rt.alloc(), name, size, &mut file, opening.at);
    progress.give_way();
    let is_taken = print_arrived(arrived, name, out)?;
    out.flush()?;
    progress.advance(1);
    Ok(before && is_taken)
}

/// Adds the delivery of a line to a group. If the bodies of the group leave no room for it, the group is made first. A command of another
/// kind is a group of its own: the group before it is made first, and then the command at once. So only deliveries, which may be given
/// again, are made after a command that ends the program. It says whether all that it made was done, and whether the file of the line
/// could be read.
fn take_small<'a, 'l, R: Files + AllocGlobal, K: Keeper, W: Write, E: Write>(
    rt: &R,
    archive: &mut Archive<K>,
    opening: Opening<'_>,
    request: &ListRequest<'l>,
    group: &mut Group<'l>,
    out: &mut W,
    progress: &mut Progress<'_, E>,
) -> Result<bool, Stop<'a>> {
    let most = most_read(archive);
    let Some(command) = command_of(rt, opening, request, most, progress)? else {
        progress.advance(1);
        return Ok(false);
    };
    if is_delivery(request) {
        take_delivery(rt.alloc(), archive, request, command, group, out, progress)
    } else {
        make_alone(rt.alloc(), archive, request, command, group, out, progress)
    }
}

/// Takes a line as `take_small` does, but for the delivery of a file that is in no group.
fn take_line<'a, 'l, R: Files + AllocGlobal, K: Keeper, W: Write, E: Write>(
    rt: &R,
    archive: &mut Archive<K>,
    opening: Opening<'_>,
    request: &ListRequest<'l>,
    group: &mut Group<'l>,
    out: &mut W,
    progress: &mut Progress<'_, E>,
) -> Result<bool, Stop<'a>> {
    match large_file(rt, request) {
        Some((path, size)) => take_large(rt, archive, opening, path, size, group, out, progress),
        None => take_small(rt, archive, opening, request, group, out, progress),
    }
}

/// Makes the commands of lines after those of a group, and says whether all were done and each file could be read.
fn take_lines<'a, 'l, R: Files + AllocGlobal, K: Keeper, W: Write, E: Write>(
    rt: &R,
    archive: &mut Archive<K>,
    opening: Opening<'_>,
    requests: &[ListRequest<'l>],
    group: &mut Group<'l>,
    out: &mut W,
    progress: &mut Progress<'_, E>,
) -> Result<bool, Stop<'a>> {
    let mut all = true;
    for request in requests {
        if !take_line(rt, archive, opening, request, group, out, progress)? {
            all = false;
        }
    }
    let last = make_group(rt.alloc(), archive, group, out, progress)?;
    Ok(all && last)
}

/// Makes the commands of lines in groups, and says whether all were done and each file could be read. It goes on after a refusal, and
/// after a file that can't be read, for which it writes a line on standard error.
fn make_lines<'a, R: Files + AllocGlobal, K: Keeper, W: Write, E: Write>(
    rt: &R,
    archive: &mut Archive<K>,
    opening: Opening<'_>,
    requests: &[ListRequest<'_>],
    is_strict: bool,
    out: &mut W,
    progress: &mut Progress<'_, E>,
) -> Result<bool, Stop<'a>> {
    let mut group = Group::new(rt.alloc(), is_strict);
    progress.expect(requests.len() as u64);
    take_lines(rt, archive, opening, requests, &mut group, out, progress)
}

/// Makes the commands of lines over one opening of the archive of a database file, and says whether all were done and each file could be
/// read. The suites with a date after the moment are named on `err` before. The number of lines that are done is shown there, if that is a
/// terminal.
fn make_in_file<'a, K: Keeper + Drop, F: InFile<K>, W: Write, E: Write>(
    rt: &HostRuntime,
    opening: Opening<'_>,
    requests: &[ListRequest<'_>],
    is_strict: bool,
    out: &mut W,
    err: &mut E,
) -> Result<bool, Stop<'a>> {
    let mut archive = open_shown::<K, F>(rt, opening.db)?;
    tell_early(rt.alloc(), &archive, opening.at, err);
    let mut progress = Progress::new(rt, err, "batch", "lines");
    let done = make_lines(
        rt,
        &mut archive,
        opening,
        requests,
        is_strict,
        out,
        &mut progress,
    );
    progress.clear();
    close::<K, F>(archive);
    done
}

/// Reads a list of commands, and makes them all at one moment, over one opening of the archive of a database file. It prints the answer to
/// each, in the order of the list, and says whether all were done. If it is strict, a run that refuses an upload counts as not done. The
/// whole list is read before the database is opened: a bad line ends the program before anything is done. The number of lines that are
/// done is shown on `err`, if that is a terminal.
pub fn batch_file<'a, K: Keeper + Drop, F: InFile<K>, W: Write, E: Write>(
    rt: &HostRuntime,
    opening: Opening<'_>,
    list: &'a str,
    is_strict: bool,
    out: &mut W,
    err: &mut E,
) -> Result<bool, Stop<'a>> {
    let text = read_of(list_at(rt, list), list)?;
    let requests = read_list(rt.alloc(), &text)?;
    make_in_file::<K, F, W, E>(rt, opening, &requests, is_strict, out, err)
}
