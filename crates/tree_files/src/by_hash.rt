//! The texts of a state under the names of their digests.
//!
//! A client that asks for a text by its digest finds it in whatever state the link leads to: each state has, below the folder of each text,
//! `by-hash/SHA256/DIGEST` for its own texts and those of the two states before it. These are further names of the same files.

use crate::site::Site;
use crate::states::SuiteState;
use exported::has_parts;
use folders::{Disk, Folder, FolderFault, id_of};

/// The most bytes of a Release that is read.
const MOST_OF_RELEASE: u64 = 1 << 26;

/// The most bytes of a text that is given a name by its contents.
const MOST_OF_TEXT: u64 = 1 << 28;

/// A text that a Release lists: its digest, the folder that it lies in from that of the Release, and its name there.
#[derive(Clone, Copy)]
struct Listed<'l> {
    digest: &'l str,
    folder: &'l str,
    name: &'l str,
}

/// Whether a text is a digest in lower hexadecimal digits.
fn is_digest(text: &str) -> bool {
    let mut all = text.len() == 64;
    for c in text.as_bytes() {
        all &= matches!(*c, b'0'..=b'9' | b'a'..=b'f');
    }
    all
}

/// What a line below `SHA256:` lists: a digest, a size and a path.
fn listed_in(line: &str) -> Option<Listed<'_>> {
    let (digest, rest) = line.split_once(' ')?;
    let (_, path) = rest.trim_start().split_once(' ')?;
    let (folder, name) = path.rsplit_once('/')?;
    if !is_digest(digest) || !has_parts(path) {
        return None;
    }
    Some(Listed {
        digest,
        folder,
        name,
    })
}

/// Whether two names in folders are of one file.
fn are_one<R: Disk>(
    rt: &R,
    from: &Folder<R>,
    name: &str,
    to: &Folder<R>,
    new_name: &str,
) -> Result<bool, FolderFault> {
    match (from.seen(rt, name)?, to.seen(rt, new_name)?) {
        (Some(one), Some(other)) => Ok(id_of(&one) == id_of(&other)),
        _ => Ok(false),
    }
}

/// Gives a text of a folder its name in the folder of digests. Another file that has the name is replaced, if it has other contents.
fn name_text<R: Disk>(
    rt: &R,
    site: &Site<R>,
    from: &Folder<R>,
    to: &Folder<R>,
    text: Listed<'_>,
) -> Result<(), FolderFault> {
    if from.name_too(rt, text.name, to, text.digest)?
        || are_one(rt, from, text.name, to, text.digest)?
    {
        return Ok(());
    }
    let Some(body) = from.bytes(rt, text.name, MOST_OF_TEXT)? else {
        return Ok(());
    };
    if to.has_bytes(rt, text.digest, &body)? {
        return Ok(());
    }
    site.put_too(rt, from, text.name, to, text.digest, &body)
}

/// Gives a text of a state its name in another state, if the text is there.
fn name_listed_text<R: Disk>(
    rt: &R,
    site: &Site<R>,
    from: &Folder<R>,
    to: &Folder<R>,
    text: Listed<'_>,
) -> Result<(), FolderFault> {
    let Some(from) = from.way(rt, text.folder)? else {
        return Ok(());
    };
    if !from.is_file(rt, text.name)? {
        return Ok(());
    }
    let folder = text.folder;
    let digests = format!(in rt.alloc(); "{folder}/by-hash/SHA256")?;
    let to = to.way_cleared(rt, &site.kept, digests.as_str())?;
    name_text(rt, site, &from, &to, text)
}

/// Gives the texts that a Release lists their names in another state.
fn name_listed<R: Disk>(
    rt: &R,
    site: &Site<R>,
    from: &Folder<R>,
    to: &Folder<R>,
    release: &str,
) -> Result<(), FolderFault> {
    let mut is_below = false;
    for line in release.split('\n') {
        let Some(words) = line.strip_prefix(' ') else {
            is_below = line == "SHA256:";
            continue;
        };
        if is_below {
            if let Some(text) = listed_in(words) {
                name_listed_text(rt, site, from, to, text)?;
            }
        }
    }
    Ok(())
}

/// Gives the texts of a state their names in another one.
fn name_texts<R: Disk>(
    rt: &R,
    site: &Site<R>,
    from: &Folder<R>,
    to: &Folder<R>,
) -> Result<(), FolderFault> {
    let Some(bytes) = from.bytes(rt, "Release", MOST_OF_RELEASE)? else {
        return Ok(());
    };
    match std::str::from_utf8(&bytes) {
        Ok(release) => name_listed(rt, site, from, to, release),
        Err(_) => Ok(()),
    }
}

/// Gives the texts of a state their names in another one, if there is such a state.
fn name_texts_of<R: Disk>(
    rt: &R,
    site: &Site<R>,
    state: Option<&str>,
    to: &Folder<R>,
) -> Result<(), FolderFault> {
    let Some(name) = state else {
        return Ok(());
    };
    match site.dists.within(rt, name)? {
        Some(from) => name_texts(rt, site, &from, to),
        None => Ok(()),
    }
}

/// Adds names by digest to the state that a suite is to show, which is made: for its own texts, and for those of the two states before it.
pub fn add_by_hash<R: Disk>(rt: &R, site: &Site<R>, suite: &SuiteState) -> Result<(), FolderFault> {
    let Some(to) = site.dists.within(rt, suite.state.as_str())? else {
        return Ok(());
    };
    name_texts(rt, site, &to, &to)?;
    name_texts_of(rt, site, suite.link(), &to)?;
    name_texts_of(rt, site, suite.before(), &to)
}
