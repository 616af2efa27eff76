//! Connections that are answered one after the other.

use super::checks::{config_of, same};
use book::Keeper;
use desk::{Connection, Desk, attend};
use keep::PlainKeeper;
use queue::Archive;
use std::alloc::{AllocError, Global};
use std::process::Abort;
use std::test::Fail;

/// A request, and the whole reply to it.
type Row = (&'static [u8], &'static [u8]);

/// Two suites. The second keeps no sources.
const PAIR: &[u8] =
    b"Codename: box\nArchitectures: amd64 source\nComponents: main\n\nCodename: lab\nArchitectures: amd64\nComponents: main\n";

/// The moment of each connection, 2016-07-02 05:20:50 UTC.
const MOMENT: u64 = 1_467_436_850;

/// The reply to a delivery that is new.
const CREATED: &[u8] =
    b"HTTP/1.1 201 Created\r\nContent-Type: text/plain; charset=utf-8\r\nContent-Length: 4\r\nConnection: close\r\n\r\nnew\n";

/// An upload of three files from its delivery to a copy of its package, and a connection without a byte. The digests were made with
/// Python's hashlib.
const ROWS: [Row; 13] = [
    (
        b"PUT /incoming/hello_1.0-1_amd64.changes HTTP/1.1\r\nContent-Length: 709\r\n\r\nFormat: 1.8\nDate: Sat, 02 Jul 2016 05:00:00 +0000\nSource: hello\nVersion: 1.0-1\nArchitecture: amd64\nDistribution: box\nMaintainer: Ann <ann@example.org>\nChanges:\n hello (1.0-1) box; urgency=low\nChecksums-Sha1:\n a9993e364706816aba3e25717850c26c9cd0d89d 3 hello_1.0-1_amd64.deb\n baa4e058fbc3cff6d3779abd4dd824488291bd98 104 hello_1.0-1_amd64.control\nChecksums-Sha256:\n ba7816bf8f01cfea414140de5dae2223b00361a396177a9cb410ff61f20015ad 3 hello_1.0-1_amd64.deb\n 577afbfebf762b1e54ff30186e0476751c272a4cc8d9aa441b59eb118ad06b85 104 hello_1.0-1_amd64.control\nFiles:\n 900150983cd24fb0d6963f7d28e17f72 3 utils optional hello_1.0-1_amd64.deb\n 4ee3c5e6649092348b7f34d1cb6296c0 104 utils optional hello_1.0-1_amd64.control\n",
        CREATED,
    ),
    (
        b"PUT /incoming/hello_1.0-1_amd64.deb HTTP/1.1\r\nContent-Length: 3\r\n\r\nabc",
        CREATED,
    ),
    (b"", b""),
    (
        b"GET /queue HTTP/1.1\r\n\r\n",
        b"HTTP/1.1 200 OK\r\nContent-Type: text/plain; charset=utf-8\r\nContent-Length: 28\r\nConnection: close\r\n\r\n1 hello_1.0-1_amd64.changes\n",
    ),
    (
        b"PUT /incoming/hello_1.0-1_amd64.control HTTP/1.1\r\nContent-Length: 104\r\n\r\nPackage: hello\nVersion: 1.0-1\nArchitecture: amd64\nMaintainer: Ann <ann@example.org>\nDescription: greets\n",
        CREATED,
    ),
    (
        b"POST /queue/run HTTP/1.0\r\n\r\n",
        b"HTTP/1.1 200 OK\r\nContent-Type: text/plain; charset=utf-8\r\nContent-Length: 35\r\nConnection: close\r\n\r\naccepted hello_1.0-1_amd64.changes\n",
    ),
    (
        b"POST /queue/run HTTP/1.1\r\n\r\n",
        b"HTTP/1.1 200 OK\r\nContent-Type: text/plain; charset=utf-8\r\nContent-Length: 0\r\nConnection: close\r\n\r\n",
    ),
    (
        b"GET /verdicts HTTP/1.1\r\n\r\n",
        b"HTTP/1.1 200 OK\r\nContent-Type: text/plain; charset=utf-8\r\nContent-Length: 35\r\nConnection: close\r\n\r\naccepted hello_1.0-1_amd64.changes\n",
    ),
    (
        b"GET /pool/main/h/hello/hello_1.0-1_amd64.deb HTTP/1.1\r\n\r\n",
        b"HTTP/1.1 200 OK\r\nContent-Type: application/octet-stream\r\nContent-Length: 3\r\nConnection: close\r\n\r\nabc",
    ),
    (
        b"GET /pool/main/h/hello/hello_1.0-2_amd64.deb HTTP/1.1\r\n\r\n",
        b"HTTP/1.1 404 Not Found\r\nContent-Type: text/plain; charset=utf-8\r\nContent-Length: 14\r\nConnection: close\r\n\r\n404 Not Found\n",
    ),
    (
        b"GET /dists/box/main/binary-amd64/Packages HTTP/1.1\r\n\r\n",
        b"HTTP/1.1 200 OK\r\nContent-Type: text/plain; charset=utf-8\r\nContent-Length: 324\r\nConnection: close\r\n\r\nPackage: hello\nVersion: 1.0-1\nArchitecture: amd64\nMaintainer: Ann <ann@example.org>\nDescription: greets\nFilename: pool/main/h/hello/hello_1.0-1_amd64.deb\nSize: 3\nMD5sum: 900150983cd24fb0d6963f7d28e17f72\nSHA1: a9993e364706816aba3e25717850c26c9cd0d89d\nSHA256: ba7816bf8f01cfea414140de5dae2223b00361a396177a9cb410ff61f20015ad\n\n",
    ),
    (
        b"POST /copy/box/lab/hello HTTP/1.1\r\n\r\n",
        b"HTTP/1.1 200 OK\r\nContent-Type: text/plain; charset=utf-8\r\nContent-Length: 2\r\nConnection: close\r\n\r\n1\n",
    ),
    (
        b"POST /copy/box/lab/hello HTTP/1.1\r\n\r\n",
        b"HTTP/1.1 200 OK\r\nContent-Type: text/plain; charset=utf-8\r\nContent-Length: 2\r\nConnection: close\r\n\r\n0\n",
    ),
];

/// An archive in memory, made at 0.
fn archive_of(alloc: Global, config: &[u8]) -> Result<Archive<PlainKeeper>, Fail> {
    let config = config_of(alloc, config)?;
    Ok(Archive::new(alloc, PlainKeeper::new(alloc, config, 0)?))
}

/// Connections that bring the requests of rows.
fn connections_of(
    alloc: Global,
    rows: &[Row],
) -> Result<Vec<Connection<&'static [u8], Vec<u8>>>, AllocError> {
    let mut connections = Vec::new(alloc);
    for row in rows {
        connections.push(Connection {
            reader: row.0,
            writer: Vec::new(alloc),
            moment: MOMENT,
            end: None,
        })?;
    }
    Ok(connections)
}

/// Checks a whole reply.
fn expect_reply(rt: &impl Abort, found: &[u8], wanted: &[u8]) {
    same(rt, &found, &wanted);
}

/// Answers the requests of rows over connections, one after the other, and checks their replies.
fn expect_rows<K: Keeper>(
    rt: &impl Abort,
    alloc: Global,
    archive: &mut Archive<K>,
    rows: &[Row],
) -> Result<(), Fail> {
    let mut connections = connections_of(alloc, rows)?;
    let desk = Desk::new(alloc)?;
    attend(alloc, &desk, archive, connections.as_mut_slice());
    for (connection, row) in connections.iter().zip(rows) {
        expect_reply(rt, connection.writer.as_slice(), row.1);
    }
    Ok(())
}

/// An upload from its delivery to a copy of its package.
#[test]
fn an_upload_goes_through(rt: HostRuntime) -> Result<(), Fail> {
    let alloc = rt.alloc();
    expect_rows(&rt, alloc, &mut archive_of(alloc, PAIR)?, &ROWS)
}
