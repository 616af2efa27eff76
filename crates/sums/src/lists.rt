//! The three lists of files of a record, `Checksums-Sha1`, `Checksums-Sha256` and `Files`.

ghost use Rattle.std.specs.Prelude.{◌≡◌, ◌==◌, ◌⊎◌, ◌||◌, nat_lt, Ok, Err, Some, None, IfOk, IfErr, MatchResult, length};
ghost use Rattle.sums.specs.Lists.{Lines, ListedIn, lists_in, lists_within, any_disagree};
ghost use Rattle.sums.specs.Lines.{most_size};
ghost use Rattle.sums.specs.declared.entries.ListKind.{ListKind};
ghost use Rattle.sums.specs.Views.{AreFileLists, AreEntries, AreLists, AreSplit, lines_in, lines_found, lines_split, fault_of_failed, fault_of_lines, fault_of_names};

use crate::entries::{Entry, ListKind};
use crate::fault::ListFault;
use crate::join::{Lists, SHA1_FORM, SHA256_FORM, entries, files_form};
use crate::lines::{Failed, Line, MOST_SIZE, NONE_FAILED, split_list};
use crate::sizes::{FileList, disagree, file_list};
use para::{Field, Paragraph};
use std::alloc::Global;

const MOST_FILES: usize = 256;

/// The fault of the first check that failed.
fn check_failed(failed: Failed) -> Result<(), ListFault>
    ensures { MatchResult result (λ _. fault_of_failed failed ≡ None) (λ e. fault_of_failed failed ≡ Some e) }
{
    if failed.words {
        return Err(ListFault::BadWords);
    }
    if failed.digest {
        return Err(ListFault::BadDigest);
    }
    if failed.size {
        return Err(ListFault::BadSize);
    }
    if failed.name {
        return Err(ListFault::BadName);
    }
    Ok(())
}

/// The files of the three lists.
struct FileLists<'a> {
    sha1: FileList<'a>,
    sha256: FileList<'a>,
    files: FileList<'a>,
}

// Written out, so that a caller does not prove again how each part is dropped.
impl<'a> Drop for FileLists<'a> {
    fn drop(self) {
        let FileLists {
            sha1: _,
            sha256: _,
            files: _,
        } = self;
    }
}

/// The files of the three lists. No list has a name twice.
fn file_lists<'a>(alloc: Global, lists: Lists<'a>) -> Result<FileLists<'a>, ListFault>
    ensures { MatchResult result (AreFileLists lists.entry.kind (lines_in lists.entry)) (λ e. (e ≡ ListFault.OutOfMemory) ⊎ (fault_of_names lists.entry.most lists.entry.kind (lines_in lists.entry) ≡ Some e)) }
{
    let Some(sha1) = file_list(alloc, SHA1_FORM, lists.sha1)? else {
        return Err(ListFault::NameTwice);
    };
    let Some(sha256) = file_list(alloc, SHA256_FORM, lists.sha256)? else {
        return Err(ListFault::NameTwice);
    };
    let Some(files) = file_list(alloc, files_form(lists.kind), lists.files)? else {
        return Err(ListFault::NameTwice);
    };
    Ok(FileLists {
        sha1,
        sha256,
        files,
    })
}

/// Whether the lists differ in their names, or in the size of a name.
fn some_disagree(lists: &FileLists<'_>) -> bool
    ensures { (kind : ListKind) (lines : Lines) → AreFileLists kind lines lists.now → result ≡ any_disagree kind lines }
{
    disagree(&lists.sha1, &lists.files) || disagree(&lists.sha256, &lists.files)
}

/// Whether there is no file, or there are too many.
fn is_bad_count(files: &[Line<'_>]) -> bool
    ensures { result ≡ (length files.now == 0 || nat_lt 256 (length files.now)) }
{
    files.is_empty() || files.len() > MOST_FILES
}

/// Checks the names, sizes and number of the files: the faults of the lists from `NameTwice` on.
fn check_names(alloc: Global, lists: Lists<'_>) -> Result<(), ListFault>
    ensures { MatchResult result (λ _. fault_of_names lists.entry.most lists.entry.kind (lines_in lists.entry) ≡ None) (λ e. (e ≡ ListFault.OutOfMemory) ⊎ (fault_of_names lists.entry.most lists.entry.kind (lines_in lists.entry) ≡ Some e)) }
{
    let found = file_lists(alloc, lists)?;
    if some_disagree(&found) {
        return Err(ListFault::ListsDisagree);
    }
    if is_bad_count(lists.files) {
        return Err(ListFault::BadCount);
    }
    Ok(())
}

/// Whether text stands after the colon of one of the lists.
fn has_text(sha1: &Field<'_>, sha256: &Field<'_>, files: &Field<'_>) -> bool
    ensures { result ≡ (nat_lt 0 (length sha1.now.first.now) || nat_lt 0 (length sha256.now.first.now) || nat_lt 0 (length files.now.first.now)) }
{
    !sha1.first.is_empty() || !sha256.first.is_empty() || !files.first.is_empty()
}

/// The lines of the three lists as they stand in the paragraph.
#[derive(Clone, Copy)]
struct FoundLists<'p> {
    sha1: &'p [&'p str],
    sha256: &'p [&'p str],
    files: &'p [&'p str],
}

/// The lines of the three lists.
fn find_lists<'p>(
    paragraph: &'p Paragraph<'p>,
    kind: ListKind,
    most: u64,
) -> Result<FoundLists<'p>, ListFault>
    ensures { MatchResult result (λ lists. AreLists most kind paragraph.now lists) (λ e. lists_within most kind paragraph.now ≡ Err e) }
{
    let Some(sha1) = paragraph.get("Checksums-Sha1") else {
        return Err(ListFault::ListAbsent);
    };
    let Some(sha256) = paragraph.get("Checksums-Sha256") else {
        return Err(ListFault::ListAbsent);
    };
    let Some(files) = paragraph.get("Files") else {
        return Err(ListFault::ListAbsent);
    };
    if has_text(sha1, sha256, files) {
        return Err(ListFault::TextOnFirstLine);
    }
    Ok(FoundLists {
        sha1: sha1.more.as_slice(),
        sha256: sha256.more.as_slice(),
        files: files.more.as_slice(),
    })
}

/// The lines of the three lists, each split.
struct SplitLists<'a> {
    sha1: Vec<Line<'a>>,
    sha256: Vec<Line<'a>>,
    files: Vec<Line<'a>>,
}

// Written out, so that a caller does not prove again how each part is dropped.
impl<'a> Drop for SplitLists<'a> {
    fn drop(self) {
        let SplitLists {
            sha1: _,
            sha256: _,
            files: _,
        } = self;
    }
}

/// Splits the lines of the three lists, and refuses a line that is wrong by itself.
fn split_lists<'a>(
    alloc: Global,
    found: FoundLists<'a>,
    kind: ListKind,
    most: u64,
) -> Result<SplitLists<'a>, ListFault>
    ensures { MatchResult result (λ lists. AreSplit most kind (lines_found found.entry) (lines_split lists)) (λ e. (e ≡ ListFault.OutOfMemory) ⊎ (fault_of_lines most kind (lines_found found.entry) ≡ Some e)) }
{
    let sha1 = split_list(alloc, most, SHA1_FORM, found.sha1, NONE_FAILED)?;
    let sha256 = split_list(alloc, most, SHA256_FORM, found.sha256, sha1.failed)?;
    let files = split_list(alloc, most, files_form(kind), found.files, sha256.failed)?;
    check_failed(files.failed)?;
    Ok(SplitLists {
        sha1: sha1.lines,
        sha256: sha256.lines,
        files: files.lines,
    })
}

/// The entries of lists in which no line is wrong by itself.
fn read_lines(alloc: Global, lists: Lists<'_>) -> Result<Vec<Entry>, ListFault>
    requires { fault_of_lines lists.most lists.kind (lines_in lists) ≡ fault_of_names lists.most lists.kind (lines_in lists) }
    ensures { MatchResult result (λ entries. AreEntries lists.entry.most lists.entry.kind (lines_in lists.entry) entries.items) (λ e. (e ≡ ListFault.OutOfMemory) ⊎ (fault_of_lines lists.entry.most lists.entry.kind (lines_in lists.entry) ≡ Some e)) }
{
    check_names(alloc, lists)?;
    entries(alloc, lists)
}

/// The entries of the three lists of a record (Debian Policy 5.6.21, 5.6.24), in the order of `Files`.
///
/// A list has nothing after the colon of its name, and then a line for each file: digest, size and name, and in the `Files`
/// of a .changes MD5, size, section, priority and name. Own rules of this archive: single spaces and no tab, digests in
/// lower-case hexadecimal of full length, sizes decimal without leading zeros and of at most `most` bytes (never more than
/// `GREATEST_SIZE`), 1 to 256 files, each once in each list and with the same size in all. If several faults apply, the
/// answer is the one of lowest number.
pub fn read_lists_within(
    alloc: Global,
    paragraph: &Paragraph<'_>,
    kind: ListKind,
    most: u64,
) -> Result<Vec<Entry>, ListFault>
    ensures read { IfOk result (λ entries. lists_within most kind paragraph.now ≡ Ok entries.items) }
    ensures listed { IfOk result (λ entries. ListedIn most paragraph.now kind entries.items) }
    ensures refused { IfErr result (λ e. (e ≡ ListFault.OutOfMemory) ⊎ (lists_within most kind paragraph.now ≡ Err e)) }
{
    let found = find_lists(paragraph, kind, most)?;
    let split = split_lists(alloc, found, kind, most)?;
    read_lines(
        alloc,
        Lists {
            sha1: split.sha1.as_slice(),
            sha256: split.sha256.as_slice(),
            files: split.files.as_slice(),
            kind,
            most,
        },
    )
}

/// Reads the three lists as `read_lists_within` does, with sizes of at most `MOST_SIZE` bytes.
pub fn read_lists(
    alloc: Global,
    paragraph: &Paragraph<'_>,
    kind: ListKind,
) -> Result<Vec<Entry>, ListFault>
    ensures read { IfOk result (λ entries. lists_in kind paragraph.now ≡ Ok entries.items) }
    ensures listed { IfOk result (λ entries. ListedIn most_size paragraph.now kind entries.items) }
    ensures refused { IfErr result (λ e. (e ≡ ListFault.OutOfMemory) ⊎ (lists_in kind paragraph.now ≡ Err e)) }
{
    read_lists_within(alloc, paragraph, kind, MOST_SIZE)
}
