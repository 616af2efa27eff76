//! Words after the code by which a command ends: what the code means here, in a second line on standard error, if that is a terminal.
//! Elsewhere the code stands alone, as programs read it. A line that can't be written changes nothing.

use crate::database::length_of;
use crate::escaped::Escaped;
use crate::fault::Stop;
use book::{KeepFault, Keeper};
use command_line::{CommandLine, LineRequest, Request};
use output::checking::{Nearest, fault_line, hidden_line};
use queue::{Archive, Fault};
use rules::{Config, ConfigFault};
use std::alloc::{AllocError, Global};
use std::fs::{self, File};
use std::io::{self, IsTerminal, Read, Write};
use std::os::unix::fs::MetadataExt;
use std::rt::Files;
use suites::Shelves;

/// The words after the code by which a command ends, if they are wanted and known.
#[derive(Drop)]
pub struct Words {
    are_wanted: bool,
    line: Option<String>,
}

impl Words {
    /// No words are known. They are wanted if standard error is a terminal.
    pub fn new(rt: &HostRuntime) -> Words {
        Words {
            are_wanted: rt.stderr().is_terminal(),
            line: None,
        }
    }

    /// Whether words are wanted, and none are known.
    fn lack(&self) -> bool {
        self.are_wanted && self.line.is_none()
    }

    /// Keeps a line without its end, if there is one. Without memory for it there is none.
    fn keep(&mut self, line: Result<Option<String>, AllocError>) {
        if let Ok(line) = line {
            self.line = line;
        }
    }

    /// Writes the words as a line of standard error, as they are shown.
    pub fn write<E: Write>(&self, err: &mut E) {
        if let Some(line) = &self.line {
            let line = Escaped(line.as_str());
            let _ = writeln!(err, "archive: {line}");
        }
    }

    /// Finds the words for the text of a configuration that is refused: which field of which suite or paragraph is wrong.
    pub fn find_for_text(&mut self, alloc: Global, text: &[u8], fault: ConfigFault) {
        if self.lack() {
            self.keep(fault_line(alloc, text, fault));
        }
    }

    /// Finds the words for an archive that was not given the configuration of a text: what that would hide.
    pub fn find_for_configuration<K: Keeper>(
        &mut self,
        alloc: Global,
        archive: &mut Archive<K>,
        text: &[u8],
        stop: &Stop<'_>,
    ) {
        if self.lack() && matches!(stop, Stop::NoArchive(KeepFault::Configuration)) {
            self.keep(hidden_in(alloc, archive, text));
        }
    }

    /// Finds the words for a request that an archive refuses, as `words_on` says.
    pub fn find_for_request<K: Keeper>(
        &mut self,
        alloc: Global,
        archive: &mut Archive<K>,
        request: &LineRequest<'_>,
        stop: &Stop<'_>,
    ) {
        if self.lack() {
            self.keep(words_on(alloc, archive, request, stop));
        }
    }

    /// Finds the words for an archive that refuses to list a suite, because none has that codename.
    pub fn find_for_suite<K: Keeper>(
        &mut self,
        alloc: Global,
        archive: &Archive<K>,
        suite: &str,
        stop: &Stop<'_>,
    ) {
        if self.lack() && matches!(stop, Stop::Refused(Fault::UnknownSuite)) {
            self.keep(unknown_line(alloc, archive.keeper.config(), suite));
        }
    }

    /// Finds the words for a line whose archive is not opened, made or given another configuration, if no others are known.
    pub fn find_for_line(&mut self, rt: &HostRuntime, line: &CommandLine<'_>, stop: &Stop<'_>) {
        if self.lack() {
            self.keep(file_line(rt, line, stop));
        }
    }
}

// ---- of a configuration

/// What the configuration of a text would hide of what an archive shows. A keeper that fails has no words for it.
fn hidden_in<K: Keeper>(
    alloc: Global,
    archive: &mut Archive<K>,
    text: &[u8],
) -> Result<Option<String>, AllocError> {
    let (Ok(config), Ok(shelves)) = (Config::read(alloc, text), archive.keeper.shelves(alloc))
    else {
        return Ok(None);
    };
    hidden_line(alloc, &shelves, archive.keeper.config(), &config)
}

// ---- of a request

/// `no suite has the codename NAME`, and the codenames that suites have.
fn unknown_line(alloc: Global, config: &Config, name: &str) -> Result<Option<String>, AllocError> {
    let mut line = format!(in alloc; "no suite has the codename {name}; the suites there are:")?;
    for suite in config.suites() {
        line.push(' ')?;
        line.push_str(suite.codename.as_str())?;
    }
    Ok(Some(line))
}

/// The first of these names that is no codename of a suite.
fn unknown_among<'n>(config: &Config, names: &[&'n str]) -> Option<&'n str> {
    for name in names {
        if config.suite_named(name).is_none() {
            return Some(*name);
        }
    }
    None
}

/// The first name in a request that has to be the codename of a suite and is not.
fn unknown_in<'r>(config: &Config, request: &LineRequest<'r>) -> Option<&'r str> {
    match request {
        Request::Copy { from, to, .. } => unknown_among(config, &[*from, *to]),
        Request::Promote { from, to, .. } => unknown_among(config, &[*from, *to]),
        Request::Remove { suite, .. } => unknown_among(config, &[*suite]),
        _ => None,
    }
}

/// The words for a request that names a suite that is not there.
fn suite_words(
    alloc: Global,
    config: &Config,
    request: &LineRequest<'_>,
) -> Result<Option<String>, AllocError> {
    match unknown_in(config, request) {
        Some(name) => unknown_line(alloc, config, name),
        None => Ok(None),
    }
}

/// The name nearest to one that the suite at a position does not show, among those that it shows.
fn near_in<'s>(
    alloc: Global,
    shelves: &'s Shelves,
    place: usize,
    name: &str,
) -> Result<Option<&'s str>, AllocError> {
    let mut nearest = Nearest::strict(name);
    for (key, _) in shelves.items() {
        if key.suite == place {
            nearest.look_at(alloc, key.package.as_str())?;
        }
    }
    Ok(nearest.found())
}

/// `suite CODENAME shows nothing of the name NAME`, and the nearest name that it shows, if one is near.
fn nothing_line(
    alloc: Global,
    suite: &str,
    name: &str,
    near: Option<&str>,
) -> Result<String, AllocError> {
    match near {
        Some(near) => format!(in alloc;
            "suite {suite} shows nothing of the name {name}, did you mean {near}"
        ),
        None => format!(in alloc; "suite {suite} shows nothing of the name {name}"),
    }
}

/// The words for a removal of a name that a suite does not show. A keeper that fails has no near name.
fn name_words<K: Keeper>(
    alloc: Global,
    archive: &mut Archive<K>,
    suite: &str,
    name: &str,
) -> Result<Option<String>, AllocError> {
    let Some(place) = archive.keeper.config().suite_named(suite) else {
        return Ok(None);
    };
    let Ok(shelves) = archive.keeper.shelves(alloc) else {
        return Ok(None);
    };
    let near = near_in(alloc, &shelves, place, name)?;
    Ok(Some(nothing_line(alloc, suite, name, near)?))
}

/// The words for a request that an archive refuses: which suites there are, if one is named that is not there; or which name that a suite
/// shows is near to one that it does not show. Other refusals have none.
fn words_on<K: Keeper>(
    alloc: Global,
    archive: &mut Archive<K>,
    request: &LineRequest<'_>,
    stop: &Stop<'_>,
) -> Result<Option<String>, AllocError> {
    match (stop, request) {
        (Stop::Refused(Fault::UnknownSuite), _) => {
            suite_words(alloc, archive.keeper.config(), request)
        }
        (Stop::Refused(Fault::NothingToRemove), Request::Remove { suite, name }) => {
            name_words(alloc, archive, suite, name)
        }
        _ => Ok(None),
    }
}

// ---- of a file

/// The path of the database file of a line.
fn database_of<'a>(line: &CommandLine<'a>) -> Option<&'a str> {
    match *line {
        CommandLine::Try { .. } | CommandLine::Compare { .. } | CommandLine::Check { .. } => None,
        CommandLine::Init { db, .. }
        | CommandLine::Ask { db, .. }
        | CommandLine::Batch { db, .. }
        | CommandLine::Configure { db, .. }
        | CommandLine::Migrate { db, .. }
        | CommandLine::Show { db, .. }
        | CommandLine::List { db, .. }
        | CommandLine::Why { db, .. }
        | CommandLine::Configuration { db, .. }
        | CommandLine::Status { db, .. }
        | CommandLine::Export { db, .. }
        | CommandLine::Serve { db, .. } => Some(db),
    }
}

/// What a file has in the system's list of locks: the numbers of its device and its own.
fn lock_mark<R: Files + AllocGlobal>(rt: &R, path: &str) -> io::Result<String> {
    let found = fs::metadata(rt, path)?;
    let (device, number) = (found.dev(), found.ino());
    let major = (device >> 8 & 0xfff) | (device >> 32 & 0xffff_f000);
    let minor = (device & 0xff) | (device >> 12 & 0xffff_ff00);
    Ok(format!(in rt.alloc(); " {major:02x}:{minor:02x}:{number} ")?)
}

/// Whether the system says that a process has a lock on the file at a path.
fn has_lock<R: Files + AllocGlobal>(rt: &R, path: &str) -> io::Result<bool> {
    let mark = lock_mark(rt, path)?;
    let mut locks = Vec::new(rt.alloc());
    File::open(rt, "/proc/locks")?.read_to_end(&mut locks)?;
    match str::from_utf8(&locks) {
        Ok(locks) => Ok(locks.contains(mark.as_str())),
        Err(_) => Ok(false),
    }
}

/// The words for a database file that can't be opened, read or written.
fn disk_words<R: Files + AllocGlobal>(rt: &R, db: &str) -> Result<String, AllocError> {
    if has_lock(rt, db).unwrap_or(false) {
        return format!(in rt.alloc(); "another process has {db}: fuser {db} prints its number");
    }
    format!(in rt.alloc();
        "another process has {db}, which fuser {db} prints, or the file can't be read and written, or the disk is full or fails"
    )
}

/// Which database file of a line can't be opened, read or written: that of an older archive, if a process has it, or else its own.
fn failed_file<'a, R: Files + AllocGlobal>(rt: &R, line: &CommandLine<'a>, db: &'a str) -> &'a str {
    match *line {
        CommandLine::Migrate { from, .. } if has_lock(rt, from).unwrap_or(false) => from,
        _ => db,
    }
}

/// The words for a file in which a command that asks an archive finds none.
fn none_words<R: Files + AllocGlobal>(rt: &R, db: &str) -> Result<String, AllocError> {
    match length_of(rt, db) {
        None => format!(in rt.alloc(); "no file is at {db}"),
        Some(0) => format!(in rt.alloc(); "{db} is empty"),
        Some(_) => format!(in rt.alloc();
            "{db} is no archive: the path is wrong, or another program changed it"
        ),
    }
}

/// The words for a line that finds no archive, or no place for a new one.
fn no_archive_words<R: Files + AllocGlobal>(
    rt: &R,
    line: &CommandLine<'_>,
    db: &str,
) -> Result<String, AllocError> {
    match line {
        CommandLine::Init { .. } => format!(in rt.alloc(); "{db} holds something already"),
        CommandLine::Migrate { from, .. } => format!(in rt.alloc();
            "{from} is no archive of an older layout, or {db} holds something already"
        ),
        _ => none_words(rt, db),
    }
}

/// The words for a line that a fault of its database file ended.
fn file_words<R: Files + AllocGlobal>(
    rt: &R,
    line: &CommandLine<'_>,
    db: &str,
    fault: KeepFault,
) -> Result<Option<String>, AllocError> {
    match (fault, line) {
        (KeepFault::Disk, _) => Ok(Some(disk_words(rt, failed_file(rt, line, db))?)),
        (KeepFault::NoArchive, _) => Ok(Some(no_archive_words(rt, line, db)?)),
        (KeepFault::Configuration, CommandLine::Migrate { from, .. }) => Ok(Some(
            format!(in rt.alloc();
                "the configuration is not that of {from}: more differs than KeepDays, ValidDays and MaxFileSize"
            )?,
        )),
        _ => Ok(None),
    }
}

/// The words for a line whose archive is not opened, made or given another configuration.
fn file_line<R: Files + AllocGlobal>(
    rt: &R,
    line: &CommandLine<'_>,
    stop: &Stop<'_>,
) -> Result<Option<String>, AllocError> {
    let Some(db) = database_of(line) else {
        return Ok(None);
    };
    match stop {
        Stop::NoArchive(fault) | Stop::Lost(fault) => file_words(rt, line, db, *fault),
        Stop::Refused(Fault::Keeper(KeepFault::Disk)) => {
            Ok(Some(format!(in rt.alloc(); "the disk of {db} is full or fails")?))
        }
        _ => Ok(None),
    }
}
