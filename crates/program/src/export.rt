//! The archive of a database file, exported into a folder.

ghost use Rattle.std.specs.Prelude.{◌≡◌};
ghost use Rattle.program.specs.Keys.{key_name};

use book::Keeper;
use command_line::Exporting;
use commands::database::{InFile, close, open_shown};
use commands::escaped::OwnedEscaped;
use commands::fault::Stop;
use commands::progress::Progress;
use exporting::{Export, ExportFault, Watcher};
use pages::KEY;
use queue::Fault;
use std::io::Write;

/// The steps of an export, which are shown as its progress.
#[derive(Drop)]
struct Steps<'p, E> {
    progress: Progress<'p, E>,
}

impl<'p, E: Write> Watcher for Steps<'p, E> {
    fn is_to_make(&mut self, steps: u64) {
        self.progress.expect(steps);
    }

    fn has_made(&mut self) {
        self.progress.advance(1);
    }

    fn has_ended(&mut self) {
        self.progress.clear();
    }
}

/// Why the program ends before it is done if an export does.
pub fn stop_of<'a>(fault: ExportFault) -> Stop<'a> {
    match fault {
        ExportFault::Path(path) => Stop::Unplaced(OwnedEscaped(path)),
        ExportFault::Archive(fault) => Stop::Refused(fault),
        ExportFault::Unwritten => Stop::Unwritten,
        ExportFault::OutOfMemory => Stop::Refused(Fault::OutOfMemory),
        ExportFault::Signed(codename) => Stop::Signed(OwnedEscaped(codename)),
        ExportFault::Named(component) => Stop::Named(OwnedEscaped(component)),
    }
}

/// What became of an export, with the reason that the program prints if it failed.
fn told<'a>(done: Result<(), ExportFault>) -> Result<(), Stop<'a>> {
    match done {
        Ok(()) => Ok(()),
        Err(fault) => Err(stop_of(fault)),
    }
}

/// The file of the key that the pages name: the one that was given, else box.gpg.
pub fn key_name<'a>(key: Option<&'a str>) -> &'a str
    ensures { result.now ≡ key_name key.entry }
{
    match key {
        Some(name) => name,
        None => KEY,
    }
}

/// What is asked of an export of the archive of a database file.
fn export_of<'a>(db: &'a str, asked: &Exporting<'a>) -> Export<'a>
    ensures signed { result.signed ≡ asked.now.signed }
    ensures key { result.key.now ≡ key_name asked.now.key }
{
    Export {
        folder: asked.dir,
        at: asked.at.unwrap_or(0),
        signed: asked.signed,
        unsigned: asked.unsigned,
        by_hash: asked.by_hash,
        key: key_name(asked.key),
        database: db,
    }
}

/// Exports what the suites of the archive of a database file show into a folder, and prints what became of each suite and of the pool. Its
/// progress is shown on standard error, if that is a terminal.
pub fn export_file<'a, K: Keeper + Drop, F: InFile<K>, W: Write>(
    rt: &HostRuntime,
    db: &str,
    asked: Exporting<'_>,
    out: &mut W,
) -> Result<(), Stop<'a>> {
    let mut archive = open_shown::<K, F>(rt, db)?;
    let export = export_of(db, &asked);
    let mut err = rt.stderr();
    let mut steps = Steps {
        progress: Progress::new(rt, &mut err, "export", "steps"),
    };
    let done = exporting::export(rt, &mut archive, &export, out, &mut steps);
    steps.progress.clear();
    close::<K, F>(archive);
    told(done)
}
