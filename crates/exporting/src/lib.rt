//! An archive as a tree of files on a disk, which any web server can hand out.
//!
//! ```text
//! DIR/pool/C/P/SOURCE/FILE          each file of the pool
//! DIR/dists/.CODENAME.ID/           a state of a suite: Release, C/binary-A/Packages, C/source/Sources, index.html
//! DIR/dists/CODENAME                a link to the state that is shown
//! DIR/index.html, DIR/uploads.html  pages for people
//! DIR/.boqitsel/                    files (the manifest), new, link, lock
//! ```
//!
//! ID is the first 32 hexadecimal digits of the SHA-256 of the state's Release. A Release has the digests of the other texts, so a folder of
//! that name is that state, and nothing else is compared.
//!
//! An export writes the files of the pool that are not there, has each suite that changed show its new state by the rename of one link, and
//! removes what no index has named since the previous export that showed something. `tree` has these steps, and says what a reader finds
//! between them. Each file is written beside its place and renamed there. So an export may be stopped anywhere, and the next one goes on.
//!
//! The texts of the states that are there are compared with the archive's, and mended. A suite that the configuration no longer has leaves the
//! tree. What is not of the archive is left alone. At a path that the archive has, other contents are replaced, but for the database's files.
//! No link in the tree is followed (`folders`). What needs no archive is in `tree_files`.
#![tactic(auto)]

mod asked;
mod course;
mod fault;
mod making;
mod mending;
mod placing;
mod showing;
mod states;
mod web;

pub use asked::{Export, Nobody, Watcher};
pub use course::export;
pub use fault::ExportFault;
