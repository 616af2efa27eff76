//! Files that were given.
//!
//! A file that says it has no bytes, as some files of the system do, is delivered without a byte. What is no regular file, such as a pipe,
//! has no length beforehand. It is read whole, up to one byte more than the configuration of the archive takes, so that a longer one is
//! refused as too large (Q2). So is each file of `try`.
//!
//! A configuration is not read from a pipe, socket or device that has a name: a command would wait for whoever writes into it, perhaps
//! without end. What the caller has already opened, such as standard input, is read.

ghost use Rattle.std.specs.Prelude.{◌≡◌, ◌+◌};
ghost use Rattle.rules.specs.Sizes.{largest};

use crate::escaped::Escaped;
use crate::fault::Stop;
use book::Keeper;
use queue::{Archive, Fault};
use std::fs::{self, File, Metadata};
use std::io::{self, Read};
use std::rt::Files;

/// One byte more than a configuration may have, so that a longer file is refused as one.
const MOST_CONF: u64 = 1_048_577;

/// The most bytes of a file that are read for an archive: one more than its configuration takes, so that a longer file is refused as one.
pub fn most_read<K: Keeper>(archive: &Archive<K>) -> u64
    ensures { result ≡ largest (K.book archive.now.keeper).config + 1 }
{
    let taken = archive.keeper.config().largest_file();
    taken + 1
}

fn read_file<R: Files + AllocGlobal>(rt: &R, path: &str, most: u64) -> io::Result<Vec<u8>> {
    let mut body = Vec::new(rt.alloc());
    File::open(rt, path)?.take(most).read_to_end(&mut body)?;
    Ok(body)
}

/// A file that was given, open to be read.
pub fn opened<'a, R: Files>(rt: &R, path: &'a str) -> Result<R::File, Stop<'a>> {
    match File::open(rt, path) {
        Ok(file) => Ok(file),
        Err(_) => Err(Stop::Unreadable(Escaped(path))),
    }
}

/// What was read of a file that was given, or why the program ends.
pub fn read_of<'a>(read: io::Result<Vec<u8>>, path: &'a str) -> Result<Vec<u8>, Stop<'a>> {
    match read {
        Ok(body) => Ok(body),
        Err(error) if error.kind() == io::ErrorKind::OutOfMemory => {
            Err(Stop::Refused(Fault::OutOfMemory))
        }
        Err(_) => Err(Stop::Unreadable(Escaped(path))),
    }
}

/// The bytes of a file that was given, up to `most` of them.
pub fn body_of<'a, R: Files + AllocGlobal>(
    rt: &R,
    path: &'a str,
    most: u64,
) -> Result<Vec<u8>, Stop<'a>> {
    read_of(read_file(rt, path, most), path)
}

/// Whether what was looked at is neither a file nor a folder nor a link: a pipe, a socket or a device.
fn is_special(seen: &Metadata) -> bool {
    if seen.is_file() || seen.is_dir() {
        return false;
    }
    !seen.is_symlink()
}

/// Whether a link leads to a pipe, a socket or a device. A link below /dev/ or /proc/ counts as the name of what the caller has opened,
/// such as /dev/stdin, or the path that a shell gives for `<(..)`.
fn leads_to_special<R: Files>(rt: &R, link: &str) -> bool {
    if link.starts_with("/dev/") || link.starts_with("/proc/") {
        return false;
    }
    match fs::metadata(rt, link) {
        Ok(found) => is_special(&found),
        Err(_) => false,
    }
}

/// Whether a read of a path may wait without end: it names a pipe, a socket or a device, or a link to one.
fn may_wait<R: Files>(rt: &R, path: &str) -> bool {
    match fs::symlink_metadata(rt, path) {
        Ok(named) if named.is_symlink() => leads_to_special(rt, path),
        Ok(named) => is_special(&named),
        Err(_) => false,
    }
}

/// The bytes of a configuration that was given.
pub fn conf_body_of<'a, R: Files + AllocGlobal>(
    rt: &R,
    conf: &'a str,
) -> Result<Vec<u8>, Stop<'a>> {
    if may_wait(rt, conf) {
        return Err(Stop::Unreadable(Escaped(conf)));
    }
    body_of(rt, conf, MOST_CONF)
}
