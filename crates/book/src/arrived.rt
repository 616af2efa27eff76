//! What has arrived, without its bytes. A reader who asks what an upload lacks gets this. The bytes of one body are read by a call of
//! their own.

use para::Text;
use sums::Print;

/// A file that has arrived and was not taken away: its name, the print of its body, and the greatest moment at which it was delivered, in
/// seconds since 1970-01-01 00:00:00 UTC.
#[derive(Drop)]
pub struct ArrivedFile {
    pub name: Text,
    pub print: Print,
    pub moment: u64,
}
