//! Which question a path asks.
//!
//! A question changes nothing. It is no route of the router: it is looked for if the router finds nothing.
ghost use Rattle.std.specs.Prelude.{◌≡◌, ◌||◌, ◌==◌, codes, length, string_bytes, IfOk, Ok, Err, Some};
ghost use Rattle.desk.specs.declared.head.Refusal.TheVariants.{NotFound};
ghost use Rattle.std.specs.List.{list_any};
ghost use Rattle.std.specs.Option.{option_map};
ghost use Rattle.desk.specs.Request.{Gives};
ghost use Rattle.desk.specs.Want.{after_front, before_end, beside_path, between, by_name, name_at, named_question, page_paths, question_fronts, question_or, question_paths, questioned};
ghost use Rattle.telling.specs.Told.{page_of, paging_of, question_of, suite_page};

use crate::head::{Refusal, decode_bytes};
use std::alloc::{AllocError, Global};
use telling::{Page, Question};

/// The question of a path that asks one alone.
fn whole_question(path: &[u8]) -> Option<Question>
    ensures { option_map question_of result ≡ beside_path question_paths path.now }
{
    if path == b"/why".as_slice() {
        return Some(why_of(None, false));
    }
    if path == b"/json/why".as_slice() {
        return Some(why_of(None, true));
    }
    if path == b"/list".as_slice() {
        return Some(shown_of(None, false));
    }
    if path == b"/json/list".as_slice() {
        return Some(shown_of(None, true));
    }
    if path == b"/configuration".as_slice() {
        return Some(Question::Configuration);
    }
    if path == b"/json/queue".as_slice() {
        return Some(Question::Waiting);
    }
    if path == b"/json/verdicts".as_slice() {
        return Some(Question::Verdicts);
    }
    if path == b"/metrics".as_slice() {
        return Some(Question::Figures);
    }
    None
}

/// The page of a path that asks for one alone.
fn whole_page(path: &[u8]) -> Option<Page>
    ensures { option_map paging_of result ≡ beside_path page_paths path.now }
{
    if path == b"/".as_slice() {
        return Some(Page::Suites);
    }
    if path == b"/index.html".as_slice() {
        return Some(Page::Suites);
    }
    if path == b"/uploads.html".as_slice() {
        return Some(Page::Uploads);
    }
    None
}

fn why_of(name: Option<String>, is_json: bool) -> Question
    ensures { result ≡ Question.Why name is_json }
{
    Question::Why { name, is_json }
}

fn shown_of(suite: Option<String>, is_json: bool) -> Question
    ensures { result ≡ Question.Shown suite is_json }
{
    Question::Shown { suite, is_json }
}

/// What follows a front of a path, if the path begins with it.
fn after_front<'p>(front: &[u8], path: &'p [u8]) -> Option<&'p [u8]>
    ensures { option_map (λ rest. rest.now) result ≡ after_front front.now path.now }
{
    path.strip_prefix(front)
}

/// What precedes an end of a path, if the path ends with it.
fn before_end<'p>(end: &[u8], path: &'p [u8]) -> Option<&'p [u8]>
    ensures { option_map (λ rest. rest.now) result ≡ before_end end.now path.now }
{
    path.strip_suffix(end)
}

/// What is between a front and an end of a path, if the path has both.
fn between<'p>(front: &[u8], end: &[u8], path: &'p [u8]) -> Option<&'p [u8]>
    ensures { option_map (λ rest. rest.now) result ≡ between front.now end.now path.now }
{
    match after_front(front, path) {
        Some(rest) => before_end(end, rest),
        None => None,
    }
}

/// Whether a part of a path has a slash.
fn has_slash(part: &[u8]) -> bool
    ensures { result ≡ list_any (λ b. b == 47) part.now }
{
    part.iter().any(|b| *b == b'/')
}

/// Whether a part of a path is no name: it has no byte, or a slash.
fn is_no_name(part: &[u8]) -> bool
    ensures { result ≡ ((length part.now == 0) || list_any (λ b. b == 47) part.now) }
{
    let is_empty = part.is_empty();
    let has_slash = has_slash(part);
    is_empty || has_slash
}

/// A name in a path, its escapes undone.
fn name_at(alloc: Global, part: &[u8]) -> Result<String, Refusal>
    ensures { Gives string_bytes result (λ r. r ≡ name_at part.now) }
{
    if is_no_name(part) {
        return Err(Refusal::NotFound);
    }
    decode_bytes(alloc, part)
}

/// The question of a path that ends with a name.
fn named_question(alloc: Global, path: &[u8]) -> Result<Question, Refusal>
    ensures { Gives question_of result (λ r. r ≡ named_question question_fronts path.now) }
{
    if let Some(part) = after_front(b"/why/".as_slice(), path) {
        return Ok(why_of(Some(name_at(alloc, part)?), false));
    }
    if let Some(part) = after_front(b"/json/why/".as_slice(), path) {
        return Ok(why_of(Some(name_at(alloc, part)?), true));
    }
    if let Some(part) = after_front(b"/list/".as_slice(), path) {
        return Ok(shown_of(Some(name_at(alloc, part)?), false));
    }
    if let Some(part) = after_front(b"/json/list/".as_slice(), path) {
        return Ok(shown_of(Some(name_at(alloc, part)?), true));
    }
    Err(Refusal::NotFound)
}

/// A copy of the name of a key's file.
fn copy_of(alloc: Global, key: &Option<String>) -> Result<Option<String>, AllocError>
    ensures { IfOk result (λ copy. option_map string_bytes copy ≡ option_map string_bytes key.now) }
{
    match key {
        Some(key) => Ok(Some(String::from_str(alloc, key.as_str())?)),
        None => Ok(None),
    }
}

/// The question for a page, which names the key.
fn page_question(alloc: Global, key: &Option<String>, page: Page) -> Result<Question, Refusal>
    ensures { Gives question_of result (λ r. r ≡ Ok (page_of (paging_of page) (option_map string_bytes key.now))) }
{
    let key = copy_of(alloc, key)?;
    Ok(Question::Page { page, key })
}

/// The question for the page of a suite.
fn suite_question(alloc: Global, key: &Option<String>, part: &[u8]) -> Result<Question, Refusal>
    ensures { Gives question_of result (λ r. r ≡ by_name (Some part.now) (λ codename. page_of (suite_page codename) (option_map string_bytes key.now)) (Err NotFound)) }
{
    let codename = name_at(alloc, part)?;
    page_question(alloc, key, Page::Suite { codename })
}

/// The question of a path for the page of a suite, or of one that ends with a name.
fn later_question(alloc: Global, key: &Option<String>, path: &[u8]) -> Result<Question, Refusal>
    ensures { Gives question_of result (λ r. r ≡ by_name (between (codes "/suites/") (codes "/index.html") path.now)
        (λ codename. page_of (suite_page codename) (option_map string_bytes key.now)) (named_question question_fronts path.now)) }
{
    match between(b"/suites/".as_slice(), b"/index.html".as_slice(), path) {
        Some(part) => suite_question(alloc, key, part),
        None => named_question(alloc, path),
    }
}

/// The question of a path that asks for a page, or about a name.
fn other_question(alloc: Global, key: &Option<String>, path: &[u8]) -> Result<Question, Refusal>
    ensures { Gives question_of result (λ r. r ≡ question_or (option_map (λ page. page_of page (option_map string_bytes key.now)) (beside_path page_paths path.now))
        (by_name (between (codes "/suites/") (codes "/index.html") path.now)
        (λ codename. page_of (suite_page codename) (option_map string_bytes key.now)) (named_question question_fronts path.now))) }
{
    match whole_page(path) {
        Some(page) => page_question(alloc, key, page),
        None => later_question(alloc, key, path),
    }
}

/// The question of a path. A page names the key, if there is one.
pub fn find_question(alloc: Global, key: &Option<String>, path: &[u8]) -> Result<Question, Refusal>
    ensures { Gives question_of result (λ r. r ≡ questioned (option_map string_bytes key.now) path.now) }
{
    match whole_question(path) {
        Some(question) => Ok(question),
        None => other_question(alloc, key, path),
    }
}
