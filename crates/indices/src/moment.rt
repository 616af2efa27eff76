//! The moments that may be given.

/// The last moment that may be given, 2099-12-31 23:59:59 UTC.
pub const LATEST: u64 = 4_102_444_799;
