//! A first look at an archive: it takes the files of an upload, judges it, and prints the index that shows it.
//!
//! The archive is in memory and has one suite, `box`. The words are the paths of the files.
#![tactic(auto)]

use book::Keeper;
use keep::PlainKeeper;
use queue::{Archive, Fault};
use rules::Config;
use std::alloc::Global;
use std::io::{self, Write};
use std::rt::Files;
use std::{env, fs};
use texts::file_name;

/// The configuration of the archive.
const BOX: &[u8] = b"Codename: box\nArchitectures: amd64 source\nComponents: main\n";

/// The path of the index.
const PACKAGES: &str = "dists/box/main/binary-amd64/Packages";

/// Why no index is printed.
#[derive(Debug, Drop)]
enum Stop {
    /// The words or a file can't be read, or the output fails.
    Broken(io::Error),
    /// The archive refuses.
    Refused(Fault),
}

impl From<io::Error> for Stop {
    fn from(error: io::Error) -> Stop {
        Stop::Broken(error)
    }
}

impl From<Fault> for Stop {
    fn from(fault: Fault) -> Stop {
        Stop::Refused(fault)
    }
}

/// A new archive, made at 0.
fn box_archive(alloc: Global) -> Result<Archive<PlainKeeper>, Fault> {
    match Config::read(alloc, BOX) {
        Ok(config) => Ok(Archive::new(alloc, PlainKeeper::new(alloc, config, 0)?)),
        Err(_) => Err(Fault::OutOfMemory),
    }
}

/// Delivers the file at a path.
fn deliver<R: Files + AllocGlobal, K: Keeper>(
    rt: &R,
    archive: &mut Archive<K>,
    path: &str,
) -> Result<(), Stop> {
    let body = fs::read(rt, path)?;
    archive.deliver(rt.alloc(), file_name(path), &body, 0)?;
    Ok(())
}

/// Runs the queue, and answers the index of what was accepted.
fn judged<K: Keeper>(alloc: Global, archive: &mut Archive<K>) -> Result<Vec<u8>, Fault> {
    archive.run(alloc, 0)?;
    match archive.fetch(alloc, PACKAGES)? {
        Some(index) => Ok(index),
        None => Ok(Vec::new(alloc)),
    }
}

/// Delivers the files at these paths to an archive, and answers the index of what was accepted.
fn index_of<R: Files + AllocGlobal, K: Keeper>(
    rt: &R,
    archive: &mut Archive<K>,
    paths: &[String],
) -> Result<Vec<u8>, Stop> {
    for path in paths {
        deliver(rt, archive, path.as_str())?;
    }
    Ok(judged(rt.alloc(), archive)?)
}

/// Delivers the files at these paths to an archive of their own, and answers the index of what was accepted.
fn own_index_of(rt: &HostRuntime, paths: &[String]) -> Result<Vec<u8>, Stop> {
    let mut archive = box_archive(rt.alloc())?;
    index_of(rt, &mut archive, paths)
}

/// The paths that the program was given.
fn paths(rt: &HostRuntime) -> io::Result<Vec<String>> {
    let mut paths = Vec::new(rt.alloc());
    for path in env::args(rt)?.skip(1) {
        paths.push(path)?;
    }
    Ok(paths)
}

fn main(rt: HostRuntime) -> Result<(), Stop> {
    let index = own_index_of(&rt, &paths(&rt)?)?;
    io::writer(&rt).write_all(&index)?;
    Ok(())
}
