//! A keeper that counts the index texts and the pieces of bodies that it is handed.

use super::checks::{BOX, config_of, same};
use super::databases::{Subject, expect_in_memory};
use super::uploads::{File, HELLO, MOMENT, TIE, TIE_AGAIN};
use book::{ArrivedFile, Change, Configured, IndexText, Judgement, KeepFault, Keeper, Waiting};
use desk::{DeskFault, answer};
use keep::PlainKeeper;
use promise::{InOrder, drive_created};
use queue::{Archive, Arrived, Fault, Report};
use rules::Config;
use sqlite::Connection;
use std::alloc::{AllocError, Global};
use std::io::{self, ErrorKind, Read};
use std::process::Abort;
use std::test::Fail;
use suites::{Shelves, Upload};
use sums::Print;

/// A keeper that passes every call on.
#[derive(Drop)]
struct Counting<K: Keeper> {
    inner: K,
    /// The number of texts that all changes so far have named.
    texts: usize,
    /// The number of pieces of bodies that have come so far.
    pieces: usize,
}

impl<K: Keeper> Keeper for Counting<K> {
    ghost is_clean = { λ k. K.Keeper.is_clean k.inner };

    ghost is_open = { λ k. K.Keeper.is_open k.inner };

    ghost faults = { λ k. K.Keeper.faults k.inner };

    ghost book = { λ k. K.Keeper.book k.inner };

    ghost coming = { λ k. K.Keeper.coming k.inner };

    ghost may_fail = { K.Keeper.may_fail };

    ghost may_leave = { λ k. K.Keeper.may_leave k.inner };

    fn config(&self) -> &Config {
        self.inner.config()
    }

    fn dates(&self) -> &[u64] {
        self.inner.dates()
    }

    fn begin(&mut self, alloc: Global) -> Result<(), KeepFault> {
        self.inner.begin(alloc)
    }

    fn piece(&mut self, alloc: Global, bytes: &[u8]) -> Result<(), KeepFault> {
        self.pieces = self.pieces.saturating_add(1);
        self.inner.piece(alloc, bytes)
    }

    fn finish(&mut self, alloc: Global, name: &str, moment: u64) -> Result<bool, KeepFault> {
        self.inner.finish(alloc, name, moment)
    }

    fn abandon(&mut self) -> Result<(), KeepFault> {
        self.inner.abandon()
    }

    fn complete_uploads(&mut self, alloc: Global, moment: u64) -> Result<Vec<Upload>, KeepFault> {
        self.inner.complete_uploads(alloc, moment)
    }

    fn shelves(&mut self, alloc: Global) -> Result<Shelves, KeepFault> {
        self.inner.shelves(alloc)
    }

    fn apply(&mut self, alloc: Global, change: &Change) -> Result<(), KeepFault> {
        self.texts = self.texts.saturating_add(change.texts.as_slice().len());
        self.inner.apply(alloc, change)
    }

    fn hold(&mut self, shelves: Shelves) {
        self.inner.hold(shelves);
    }

    fn clean(&mut self, alloc: Global, moment: u64) -> Result<u64, KeepFault> {
        self.inner.clean(alloc, moment)
    }

    fn configure(&mut self, alloc: Global, next: Configured) -> Result<(), KeepFault> {
        self.inner.configure(alloc, next)
    }

    fn file(&mut self, alloc: Global, path: &str) -> Result<Option<Vec<u8>>, KeepFault> {
        self.inner.file(alloc, path)
    }

    fn text(&mut self, alloc: Global, path: &str) -> Result<Option<Vec<u8>>, KeepFault> {
        self.inner.text(alloc, path)
    }

    fn text_print(&mut self, alloc: Global, path: &str) -> Result<Option<Print>, KeepFault> {
        self.inner.text_print(alloc, path)
    }

    fn keeps_text(&mut self, alloc: Global, text: &IndexText) -> Result<bool, KeepFault> {
        self.inner.keeps_text(alloc, text)
    }

    fn waiting(&mut self, alloc: Global, moment: u64) -> Result<Vec<Waiting>, KeepFault> {
        self.inner.waiting(alloc, moment)
    }

    fn arrivals(&mut self, alloc: Global) -> Result<Vec<ArrivedFile>, KeepFault> {
        self.inner.arrivals(alloc)
    }

    fn arrived_body(
        &mut self,
        alloc: Global,
        name: &str,
        print: &Print,
    ) -> Result<Option<Vec<u8>>, KeepFault> {
        self.inner.arrived_body(alloc, name, print)
    }

    fn verdicts(&mut self, alloc: Global) -> Result<Vec<Judgement>, KeepFault> {
        self.inner.verdicts(alloc)
    }

    ghost settled = { λ k. K.Keeper.settled k.inner };
}

/// An archive over a keeper whose texts and pieces are counted.
fn counted<K: Keeper>(alloc: Global, inner: K) -> Archive<Counting<K>> {
    let counting = Counting {
        inner,
        texts: 0,
        pieces: 0,
    };
    Archive::new(alloc, counting)
}

/// A keeper in memory of an archive with one suite, box.
fn in_memory(alloc: Global) -> Result<PlainKeeper, Fail> {
    Ok(PlainKeeper::new(alloc, config_of(alloc, BOX)?, 0)?)
}

/// Checks the lines of a report.
fn expect_lines(rt: &impl Abort, report: &Report, wanted: &[&str]) {
    same(rt, &report.lines.len(), &wanted.len());
    for (line, wanted) in report.lines.iter().zip(wanted) {
        same(rt, &line.as_str(), wanted);
    }
}

/// Delivers files, runs the queue, and checks its report and the number of texts that all changes so far have named.
fn expect_run<K: Keeper>(
    rt: &impl Abort,
    alloc: Global,
    archive: &mut Archive<Counting<K>>,
    files: &[File],
    moment: u64,
    lines: &[&str],
    texts: usize,
) -> Result<(), Fail> {
    for file in files {
        archive.deliver(alloc, file.name, file.body, moment)?;
    }
    let report = archive.run(alloc, moment)?;
    expect_lines(rt, &report, lines);
    same(rt, &archive.keeper.texts, &texts);
    Ok(())
}

/// Checks that a run names no text if there is no upload, or if it admits a version equal to the one that is shown. Other runs name
/// two texts, those of Packages and Release.
fn expect_runs<K: Keeper>(
    rt: &impl Abort,
    alloc: Global,
    archive: &mut Archive<Counting<K>>,
) -> Result<(), Fail> {
    let lines = ["accepted hello_1.0-1_amd64.changes"];
    expect_run(rt, alloc, archive, &HELLO, MOMENT, &lines, 2)?;
    expect_run(rt, alloc, archive, &[], MOMENT + 1, &[], 2)?;
    let lines = ["accepted tie_1.0_amd64.changes"];
    expect_run(rt, alloc, archive, &TIE, MOMENT + 2, &lines, 4)?;
    let lines = ["accepted tie_1.00_amd64.changes"];
    expect_run(rt, alloc, archive, &TIE_AGAIN, MOMENT + 3, &lines, 4)
}

/// A run after which all indices are as before names no text to the keeper.
#[test]
fn a_run_that_changes_nothing_names_no_text(rt: HostRuntime) -> Result<(), Fail> {
    let alloc = rt.alloc();
    expect_runs(&rt, alloc, &mut counted(alloc, in_memory(alloc)?))?;
    expect_in_memory(&rt, alloc, Subject::Counts(Counts::Texts))
}

/// Bytes after which the reader fails.
#[derive(Drop)]
struct Failing<'a> {
    bytes: &'a [u8],
}

impl Read for Failing<'_> {
    fn read(&mut self, buf: &mut [u8]) -> io::Result<usize> {
        if self.bytes.is_empty() {
            return Err(ErrorKind::ConnectionReset.into());
        }
        let mut bytes = self.bytes;
        let count = bytes.read(buf)?;
        self.bytes = bytes;
        Ok(count)
    }
}

/// The number of bytes that come of a body of 200,000 bytes: two pieces of 65,536.
const COMES: usize = 131_072;

/// The head of the delivery of such a body.
const HEAD: &[u8] = b"PUT /incoming/other.deb HTTP/1.1\r\nContent-Length: 200000\r\n\r\n";

/// What comes of the body.
fn front_of_body(alloc: Global) -> Result<Vec<u8>, AllocError> {
    vec![in alloc; b'x'; COMES]
}

/// Checks that two more pieces have come, and that nothing has arrived: these bytes are then delivered as a body of their own.
fn expect_two_pieces<K: Keeper>(
    rt: &impl Abort,
    alloc: Global,
    archive: &mut Archive<Counting<K>>,
    before: usize,
    name: &str,
    front: &[u8],
) {
    same(rt, &archive.keeper.pieces, &before.saturating_add(2));
    let arrived = archive.deliver(alloc, name, front, MOMENT);
    same(rt, &arrived, &Ok(Arrived::New));
    same(rt, &archive.keeper.pieces, &before.saturating_add(4));
}

/// Checks a delivery whose reader fails after two pieces.
fn expect_cut<K: Keeper>(
    rt: &impl Abort,
    alloc: Global,
    archive: &mut Archive<Counting<K>>,
) -> Result<(), Fail> {
    let front = front_of_body(alloc)?;
    let mut reader = Failing {
        bytes: front.as_slice(),
    };
    let before = archive.keeper.pieces;
    let arrived = archive.receive(alloc, "long.deb", 200_000, &mut reader, MOMENT);
    same(rt, &arrived, &Err(Fault::ReaderFailed));
    expect_two_pieces(rt, alloc, archive, before, "long.deb", front.as_slice());
    Ok(())
}

/// Checks that a request whose reader fails after two pieces of its body is answered with the fault H1, and that nothing is written.
fn expect_failed<K: Keeper>(
    rt: &impl Abort,
    alloc: Global,
    archive: &mut Archive<Counting<K>>,
    request: &[u8],
) {
    let mut reader = Failing { bytes: request };
    let mut writer: Vec<u8> = Vec::new(alloc);
    let served = answer(alloc, archive, &mut reader, &mut writer, MOMENT);
    same(rt, &served, &Err(DeskFault::ReaderFailed));
    same(rt, &writer.len(), &0);
}

/// Checks a delivery by a request whose reader fails after two pieces.
fn expect_cut_request<K: Keeper>(
    rt: &impl Abort,
    alloc: Global,
    archive: &mut Archive<Counting<K>>,
) -> Result<(), Fail> {
    let front = front_of_body(alloc)?;
    let mut request = Vec::from_slice(alloc, HEAD)?;
    request.extend_from_slice(front.as_slice())?;
    let before = archive.keeper.pieces;
    expect_failed(rt, alloc, archive, request.as_slice());
    expect_two_pieces(rt, alloc, archive, before, "other.deb", front.as_slice());
    Ok(())
}

/// Checks both deliveries over one archive, that by a call and that by a request.
fn expect_pieces<K: Keeper>(
    rt: &impl Abort,
    alloc: Global,
    archive: &mut Archive<Counting<K>>,
) -> Result<(), Fail> {
    expect_cut(rt, alloc, archive)?;
    expect_cut_request(rt, alloc, archive)
}

/// What is counted.
#[derive(Clone, Copy)]
pub enum Counts {
    Texts,
    Pieces,
}

/// Checks the texts or the pieces over an archive.
fn expect_counts<K: Keeper>(
    rt: &impl Abort,
    alloc: Global,
    archive: &mut Archive<Counting<K>>,
    counts: Counts,
) -> Result<(), Fail> {
    match counts {
        Counts::Texts => expect_runs(rt, alloc, archive),
        Counts::Pieces => expect_pieces(rt, alloc, archive),
    }
}

/// Checks the texts or the pieces over the tables of a database that has none yet.
pub fn expect_counts_over_tables<S: InOrder + Drop>(
    rt: &impl Abort,
    alloc: Global,
    connection: Connection<S>,
    counts: Counts,
) -> Result<(), Fail> {
    let Ok((archive, _)) = drive_created(alloc, connection, config_of(alloc, BOX)?, 0, &[]) else {
        return Err(Fail::from("not made"));
    };
    expect_counts(
        rt,
        alloc,
        &mut counted(alloc, archive.into_keeper()),
        counts,
    )
}

/// Each piece of a body is stored before the next is read.
#[test]
fn pieces_are_stored_as_they_come(rt: HostRuntime) -> Result<(), Fail> {
    let alloc = rt.alloc();
    expect_pieces(&rt, alloc, &mut counted(alloc, in_memory(alloc)?))?;
    expect_in_memory(&rt, alloc, Subject::Counts(Counts::Pieces))
}
