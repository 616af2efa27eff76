//! Uploads to hand to an archive. The digests were made with Python's hashlib.

/// The moment of the first run, 2016-07-02 05:20:50 UTC.
pub const MOMENT: u64 = 1_467_436_850;

/// A file to deliver.
#[derive(Clone, Copy)]
pub struct File {
    pub name: &'static str,
    pub body: &'static [u8],
}

/// The package hello 1.0-1.
pub const HELLO: [File; 3] = [
    File {
        name: "hello_1.0-1_amd64.changes",
        body: b"Format: 1.8\nDate: Sat, 02 Jul 2016 05:00:00 +0000\nSource: hello\nVersion: 1.0-1\nArchitecture: amd64\nDistribution: box\nMaintainer: Ann <ann@example.org>\nChanges:\n hello (1.0-1) box; urgency=low\nChecksums-Sha1:\n a9993e364706816aba3e25717850c26c9cd0d89d 3 hello_1.0-1_amd64.deb\n baa4e058fbc3cff6d3779abd4dd824488291bd98 104 hello_1.0-1_amd64.control\nChecksums-Sha256:\n ba7816bf8f01cfea414140de5dae2223b00361a396177a9cb410ff61f20015ad 3 hello_1.0-1_amd64.deb\n 577afbfebf762b1e54ff30186e0476751c272a4cc8d9aa441b59eb118ad06b85 104 hello_1.0-1_amd64.control\nFiles:\n 900150983cd24fb0d6963f7d28e17f72 3 utils optional hello_1.0-1_amd64.deb\n 4ee3c5e6649092348b7f34d1cb6296c0 104 utils optional hello_1.0-1_amd64.control\n",
    },
    File {
        name: "hello_1.0-1_amd64.deb",
        body: b"abc",
    },
    File {
        name: "hello_1.0-1_amd64.control",
        body: b"Package: hello\nVersion: 1.0-1\nArchitecture: amd64\nMaintainer: Ann <ann@example.org>\nDescription: greets\n",
    },
];

/// The package tie 1.0.
pub const TIE: [File; 3] = [
    File {
        name: "tie_1.0_amd64.changes",
        body: b"Format: 1.8\nDate: Sat, 02 Jul 2016 05:00:00 +0000\nSource: tie\nVersion: 1.0\nArchitecture: amd64\nDistribution: box\nMaintainer: Ann <ann@example.org>\nChanges:\n tie (1.0) box; urgency=low\nChecksums-Sha1:\n a3b290d551610c78f8c2ec2cda7335f73bbe54ca 8 tie_1.0_amd64.deb\n 34eb9e9435fcf8c6fb11dd4610e60cd3fbc460c0 100 tie_1.0_amd64.control\nChecksums-Sha256:\n c31c91393483e0d48a1b8a21c1ea8d097876479328b16e42522a85ff058012bb 8 tie_1.0_amd64.deb\n 0b5b7266da29681938f43d896468455188399d535270fde881e5159987880c14 100 tie_1.0_amd64.control\nFiles:\n 934c010fabf1a27e664a7155a9c47f3f 8 utils optional tie_1.0_amd64.deb\n 5978a6be5d4eb87e875bb1691f814aea 100 utils optional tie_1.0_amd64.control\n",
    },
    File {
        name: "tie_1.0_amd64.deb",
        body: b"tie one\n",
    },
    File {
        name: "tie_1.0_amd64.control",
        body: b"Package: tie\nVersion: 1.0\nArchitecture: amd64\nMaintainer: Ann <ann@example.org>\nDescription: greets\n",
    },
];

/// The package tie 1.00, of an equal version.
pub const TIE_AGAIN: [File; 3] = [
    File {
        name: "tie_1.00_amd64.changes",
        body: b"Format: 1.8\nDate: Sat, 02 Jul 2016 05:00:00 +0000\nSource: tie\nVersion: 1.00\nArchitecture: amd64\nDistribution: box\nMaintainer: Ann <ann@example.org>\nChanges:\n tie (1.00) box; urgency=low\nChecksums-Sha1:\n e1888dda9d4e042d5f0d27c5d0e2ec387526c4aa 8 tie_1.00_amd64.deb\n ade0bc4bff78b7b44468830ada4bfa6daa13b484 101 tie_1.00_amd64.control\nChecksums-Sha256:\n 38d9d89bdffb8c84ced45bc28d67ab33bf00005720633444a121795f9343564c 8 tie_1.00_amd64.deb\n f3b1754d315b7c63832fe5bd0496c8ae50ed765bf034a597d82db83f124446b4 101 tie_1.00_amd64.control\nFiles:\n c7b22b6f3996177242748d4f3232b77e 8 utils optional tie_1.00_amd64.deb\n 4b8caabc1420013f2eedb7fb41edfc53 101 utils optional tie_1.00_amd64.control\n",
    },
    File {
        name: "tie_1.00_amd64.deb",
        body: b"tie two\n",
    },
    File {
        name: "tie_1.00_amd64.control",
        body: b"Package: tie\nVersion: 1.00\nArchitecture: amd64\nMaintainer: Ann <ann@example.org>\nDescription: greets\n",
    },
];
