//! Texts that lines on uploads are made of.

ghost use Rattle.std.specs.Prelude.{◌≡◌, IfOk, string_bytes};
ghost use Rattle.output.specs.Explaining.Words.{file_words, print_words, spaced, upload_words};

use std::alloc::{AllocError, Global};
use sums::Print;

/// A word, and a text after it.
pub fn worded(alloc: Global, word: &str, text: &str) -> Result<String, AllocError>
    ensures { IfOk result (λ line. string_bytes line ≡ spaced word.now text.now) }
{
    format!(in alloc; "{word} {text}")
}

/// `SIZE SHA256`, of what has this print.
pub fn print_text(alloc: Global, print: &Print) -> Result<String, AllocError>
    ensures { IfOk result (λ line. string_bytes line ≡ print_words print.now) }
{
    let digest = hex::encode(alloc, print.sha256.as_slice())?;
    let size = print.size;
    format!(in alloc; "{size} {digest}")
}

/// `WORD NAME SIZE SHA256`, of a file.
pub fn file_line(alloc: Global, word: &str, name: &str, print: &Print) -> Result<String, AllocError>
    ensures { IfOk result (λ line. string_bytes line ≡ file_words word.now name.now print.now) }
{
    let contents = print_text(alloc, print)?;
    format!(in alloc; "{word} {name} {contents}")
}

/// `WORD.. NAME SHA256`, of an upload.
pub fn upload_line(
    alloc: Global,
    words: &str,
    name: &str,
    print: &Print,
) -> Result<String, AllocError>
    ensures { IfOk result (λ line. string_bytes line ≡ upload_words words.now name.now print.now) }
{
    let digest = hex::encode(alloc, print.sha256.as_slice())?;
    format!(in alloc; "{words} {name} {digest}")
}
