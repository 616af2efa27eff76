//! What a refusal leaves of an archive over a disk.

use super::checks::{BOX, config_of, same};
use book::{KeepFault, Keeper};
use queue::{Archive, Arrived, Fault};
use std::alloc::Global;
use std::process::Abort;
use std::test::Fail;
use test_failing::DiskKeeper;

/// The name of a file, and the answer to its delivery.
type Row = (&'static str, Result<Arrived, Fault>);

/// Over a disk that works: after a refusal of its own the archive answers as if it had not been asked.
const OPEN: [Row; 3] = [
    (".hid", Err(Fault::BadName)),
    ("a.deb", Ok(Arrived::New)),
    ("a.deb", Ok(Arrived::Again)),
];

/// Over a disk that fails: after a delivery that failed every other delivery has this answer.
const SHUT: [Row; 3] = [
    (".hid", Err(Fault::BadName)),
    ("a.deb", Err(Fault::Keeper(KeepFault::Disk))),
    ("b.deb", Err(Fault::Keeper(KeepFault::Disk))),
];

/// An archive over a disk that works or fails. Its keeper takes deliveries, and refuses all else for want of
/// memory.
fn archive_on(alloc: Global, fails: bool) -> Result<Archive<DiskKeeper>, Fail> {
    let config = config_of(alloc, BOX)?;
    Ok(Archive::new(alloc, DiskKeeper::new(alloc, config, 0, fails)?))
}

/// Checks the answers to deliveries of three bytes, and that a run after each finds no memory.
fn expect_rows<K: Keeper>(rt: &impl Abort, alloc: Global, archive: &mut Archive<K>, rows: &[Row]) {
    for row in rows {
        same(rt, &archive.deliver(alloc, row.0, b"abc", 0), &row.1);
        let report = archive.run(alloc, 0);
        same(rt, &matches!(report, Err(Fault::OutOfMemory)), &true);
    }
}

/// Only a disk that fails shuts an archive.
#[test]
fn refusals_over_a_disk(rt: HostRuntime) -> Result<(), Fail> {
    let alloc = rt.alloc();
    expect_rows(&rt, alloc, &mut archive_on(alloc, false)?, &OPEN);
    expect_rows(&rt, alloc, &mut archive_on(alloc, true)?, &SHUT);
    Ok(())
}
