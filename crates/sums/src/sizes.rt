//! Names and sizes of the files of a list.

ghost use Rattle.std.specs.Prelude.{◌≡◌, ◌<◌, List, IfOk, MatchOption, true, not, map};
ghost use Rattle.std.specs.List.{list_any};
ghost use Rattle.sums.specs.Lists.{NameAndSize, name_and_size, has_twice, disagree};
ghost use Rattle.sums.specs.Views.{AreSizes, IsFileList, line_form, in_names, size_in, is_size_of};

use crate::lines::{Form, Line, word};
use std::alloc::{AllocError, Global};
use std::collections::BTreeMap;

/// The files of a list, and their sizes by name.
pub struct FileList<'a> {
    files: Vec<SizedName<'a>>,
    sizes: BTreeMap<&'a str, &'a str>,
}

// Written out, so that a caller does not prove again how each part is dropped.
impl<'a> Drop for FileList<'a> {
    fn drop(self) {
        let FileList { files: _, sizes: _ } = self;
    }
}

/// What the lists have in common of a file: its name, and its size as it is written.
#[derive(Clone, Copy)]
struct SizedName<'a> {
    name: &'a str,
    size: &'a str,
}

fn sized_name<'a>(form: Form, line: &Line<'a>) -> SizedName<'a>
    requires { 0 < form.words }
    ensures { in_names result ≡ name_and_size (line_form form) line.now }
{
    SizedName {
        name: word(line, form.words - 1),
        size: word(line, 1),
    }
}

/// The names and sizes of the lines of a list.
fn sized_lines<'a>(
    alloc: Global,
    form: Form,
    lines: &[Line<'a>],
) -> Result<Vec<SizedName<'a>>, AllocError>
    requires { 0 < form.words }
    ensures { IfOk result (λ files. map in_names files.items ≡ map (name_and_size (line_form form)) lines.now) }
{
    lines
        .iter()
        .map(|line| sized_name(form, line))
        .collect(alloc)
}

/// The sizes of the files by their names, or nothing if a name stands twice.
fn sizes_by_name<'a>(
    alloc: Global,
    files: &[SizedName<'a>],
) -> Result<Option<BTreeMap<&'a str, &'a str>>, AllocError>
    ensures { IfOk result (λ found. MatchOption found (has_twice (map in_names files.now) ≡ true) (λ sizes. AreSizes sizes (map in_names files.now))) }
{
    let mut sizes = BTreeMap::new(alloc);
    for file in files {
        if sizes.insert(file.name, file.size)?.is_some() {
            return Ok(None);
        }
    }
    Ok(Some(sizes))
}

/// The files of the lines of a list, or nothing if a name stands twice.
pub fn file_list<'a>(
    alloc: Global,
    form: Form,
    lines: &[Line<'a>],
) -> Result<Option<FileList<'a>>, AllocError>
    requires { 0 < form.words }
    ensures { IfOk result (λ found. MatchOption found (has_twice (map (name_and_size (line_form form)) lines.now) ≡ true)
        (λ list. IsFileList list (map (name_and_size (line_form form)) lines.now))) }
{
    let files = sized_lines(alloc, form, lines)?;
    match sizes_by_name(alloc, &files)? {
        Some(sizes) => Ok(Some(FileList { files, sizes })),
        None => Ok(None),
    }
}

/// Whether `sizes` has the size of the file at its name.
fn has_size(sizes: &BTreeMap<&str, &str>, file: &SizedName<'_>) -> bool
    ensures { result ≡ is_size_of (in_names file.now) (size_in sizes.now file.now.name.now) }
{
    match sizes.get(file.name) {
        Some(size) => file.size == *size,
        None => false,
    }
}

/// Whether some file has another size in `sizes`, or no size there.
fn lacks(files: &[SizedName<'_>], sizes: &BTreeMap<&str, &str>) -> bool
    ensures { result ≡ list_any (λ file. not (is_size_of file (size_in sizes.now file.name))) (map in_names files.now) }
{
    files.iter().any(|file| !has_size(sizes, file))
}

/// Whether one of two lists has a file that the other does not have with that size.
pub fn disagree(left: &FileList<'_>, right: &FileList<'_>) -> bool
    ensures { (xs ys : List NameAndSize) → IsFileList left.now xs → IsFileList right.now ys → result ≡ disagree xs ys }
{
    lacks(&left.files, &right.sizes) || lacks(&right.files, &left.sizes)
}
