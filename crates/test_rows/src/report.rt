//! Files that are named on the command line.

use crate::answers::Answers;
use crate::fault::Unread;
use crate::file::do_rows;
use crate::reader::Reader;
use std::alloc::{AllocError, Global};
use std::rt::{Env, Files};
use std::{env, fs, io};

/// Prints how many rows a file has, and answers whether it is as wanted. For a file of texts nothing is printed.
fn count_rows(rt: &impl Print, label: &str, rows: usize, differs: bool) -> io::Result<bool> {
    let has_texts = label.ends_with(".texts");
    if rows > 0 || !has_texts {
        let end = if differs { ", and some differ" } else { "" };
        println!(rt; "{label}: {rows} rows{end}")?;
    }
    Ok((rows > 0) != has_texts && !differs)
}

/// Prints why a file can't be read, or how many rows it has. It answers whether the file is as wanted.
fn report(rt: &impl Print, reader: &Reader) -> io::Result<bool> {
    let (label, number) = (reader.label.as_str(), reader.number);
    let Some(fault) = reader.fault else {
        return count_rows(rt, label, reader.rows, reader.differs);
    };
    println!(rt; "{label}:{number}: {fault}")?;
    Ok(false)
}

/// Does the rows of a file.
fn check_file<A: Answers<R>, R: Files + Print + AllocGlobal>(
    rt: &R,
    reader: &mut Reader,
    heading: &str,
    path: &str,
) -> io::Result<bool> {
    reader.begin(format!(in rt.alloc(); "{heading}{path}")?);
    match fs::read(rt, path) {
        Ok(file) => do_rows(rt, reader, &mut A::fresh(rt), &file),
        Err(_) => reader.refuse(Unread::Failed),
    }
    report(rt, reader)
}

/// Does the rows of the files whose names have this ending, and answers whether all are as wanted.
fn check_files<A: Answers<R>, R: Files + Print + AllocGlobal>(
    rt: &R,
    reader: &mut Reader,
    heading: &str,
    files: &[String],
    ending: &str,
) -> io::Result<bool> {
    let mut all = true;
    for path in files {
        if path.ends_with(ending) {
            all = check_file::<A, R>(rt, reader, heading, path)? && all;
        }
    }
    Ok(all)
}

/// Adds the words of the command line.
fn add_words<R: Env + AllocGlobal>(rt: &R, names: &mut Vec<String>) -> io::Result<()> {
    for name in env::args(rt)? {
        names.push(name)?;
    }
    Ok(())
}

fn add_name(alloc: Global, names: &mut Vec<String>, name: &str) -> Result<(), AllocError> {
    Ok(names.push(String::from_str(alloc, name)?)?)
}

/// Adds the names of the files of this folder.
fn add_files_here<R: Files + AllocGlobal + Clone + Drop>(
    rt: &R,
    names: &mut Vec<String>,
) -> io::Result<()> {
    for entry in fs::read_dir(rt, ".")? {
        add_name(rt.alloc(), names, entry?.file_name())?;
    }
    Ok(())
}

/// The program's name and the files that are named on the command line, or all of this folder, in the order of their names.
fn files_of<R: Files + Env + AllocGlobal + Clone + Drop>(rt: &R) -> io::Result<Vec<String>> {
    let mut names = Vec::new(rt.alloc());
    add_words(rt, &mut names)?;
    if names.len() < 2 {
        add_files_here(rt, &mut names)?;
        names.sort_unstable();
    }
    Ok(names)
}

/// Does the rows of all files, those of texts first. It answers whether there is a file of rows, and all are as wanted.
fn check_all<A: Answers<R>, R: Files + Print + AllocGlobal>(
    rt: &R,
    reader: &mut Reader,
    heading: &str,
    files: &[String],
    ending: &str,
) -> io::Result<bool> {
    let texts = check_files::<A, R>(rt, reader, heading, files, ".texts")?;
    reader.shared = reader.named.len();
    let rows = check_files::<A, R>(rt, reader, heading, files, ending)?;
    Ok(texts && rows && reader.rows > 0)
}

/// Does the rows of the files that are named on the command line, or of all files of this folder, whose names end in `.texts` or in this
/// ending. It prints a line for each row that differs, and one for each file with its number of rows, each after the heading. It answers
/// whether there is a file of rows, each has rows, all rows can be read, and none differs.
///
/// A file whose name ends in `.texts` has no rows, and the names of its texts are known in the files of rows.
pub fn report_files<A: Answers<R>, R: Files + Env + Print + AllocGlobal + Clone + Drop>(
    rt: &R,
    heading: &str,
    ending: &str,
) -> io::Result<bool> {
    let files = files_of(rt)?;
    let mut reader = Reader::new(rt.alloc());
    check_all::<A, R>(rt, &mut reader, heading, &files, ending)
}
