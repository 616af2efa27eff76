//! Texts and lists that are kept.

use super::checks::same;
use para::{Listed, Text};
use std::process::Abort;
use std::test::Fail;

/// Checks that a copy of a text is that text, and that the text gives back what it was made of.
fn expect_text(rt: &impl Abort, text: Text, wanted: &str) -> Result<(), Fail> {
    same(rt, &text.try_clone()?.as_str(), &wanted);
    let again = Text::from_string(text.into_string());
    same(rt, &again.as_str(), &wanted);
    Ok(())
}

/// Checks that a list gives back what it was made of.
fn expect_list(rt: &impl Abort, list: Listed<u8>, wanted: &[u8]) {
    same(rt, &list.as_slice(), &wanted);
    same(rt, &list.into_vec().len(), &wanted.len());
}

/// A text and a list give back what they were made of, and a copy of a text is that text.
#[test]
fn texts_and_lists_are_kept(rt: HostRuntime) -> Result<(), Fail> {
    let alloc = rt.alloc();
    expect_text(&rt, Text::new(alloc, "box")?, "box")?;
    let items = Vec::from_slice(alloc, &[1, 2])?;
    expect_list(&rt, Listed::from_vec(items), &[1, 2]);
    Ok(())
}
