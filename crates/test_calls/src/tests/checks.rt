//! What the tests share: a configuration, and a check in a call of its own, since a test that has the check in its own body
//! takes the prover far longer.

use rules::Config;
use std::alloc::Global;
use std::fmt::Debug;
use std::process::Abort;
use std::test::Fail;

/// A suite, which keeps sources.
pub const BOX: &[u8] = b"Codename: box\nArchitectures: amd64 source\nComponents: main\n";

/// The configuration of a text. If the text is known where it is read, the prover takes far longer.
pub fn config_of(alloc: Global, text: &[u8]) -> Result<Config, Fail> {
    Ok(Config::read(alloc, text)?)
}

/// Checks that two values are the same.
pub fn same<R: Abort, T: Debug + PartialEq>(rt: &R, found: &T, wanted: &T) {
    assert_eq!(rt; *found, *wanted);
}
