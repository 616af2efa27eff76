//! The program: an archive on the command line.
#![tactic(auto)]

mod acting;

use crate::acting::act_in_file;
use program::explain;
use std::alloc::{AllocError, Global};
use std::io::Write;
use std::process::ExitCode;
use std::{env, io};

/// The program's words, its name not among them.
fn given_words(rt: &HostRuntime) -> io::Result<Vec<String>> {
    let mut given = Vec::new(rt.alloc());
    for word in env::args(rt)?.skip(1) {
        given.push(word)?;
    }
    Ok(given)
}

/// These texts as words.
fn words_of(alloc: Global, given: &[String]) -> Result<Vec<&str>, AllocError> {
    let mut words = Vec::new(alloc);
    for word in given {
        words.push(word.as_str())?;
    }
    Ok(words)
}

/// Does what these words say, and answers the exit status.
fn do_words(rt: &HostRuntime, given: &[String]) -> io::Result<u8> {
    let alloc = rt.alloc();
    let words = words_of(alloc, given)?;
    let (mut out, mut err) = (io::writer(rt), rt.stderr());
    match command_line::line(alloc, &words) {
        Ok(line) => Ok(act_in_file(rt, &line, &mut out, &mut err)),
        Err(_) => Ok(explain(alloc, &words, &mut out, &mut err)),
    }
}

/// Does what the program's words say, and answers its exit status.
fn run(rt: &HostRuntime) -> io::Result<u8> {
    match given_words(rt) {
        Ok(given) => do_words(rt, &given),
        Err(error) if error.kind() == io::ErrorKind::InvalidData => {
            writeln!(rt.stderr(), "archive: a word is not UTF-8")?;
            Ok(2)
        }
        Err(error) => Err(error),
    }
}

fn main(rt: HostRuntime) -> ExitCode {
    match run(&rt) {
        Ok(status) => ExitCode::from(status),
        Err(_) => ExitCode::from(3),
    }
}
