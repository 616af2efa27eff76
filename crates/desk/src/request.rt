//! A request up to the end of its head. The body of a delivery is left to the archive.
ghost use Rattle.std.specs.Prelude.{IfOk, OnErr};
ghost use Rattle.desk.specs.Incoming.{IsIncoming, ReadsBeginning};

use crate::head::{Ask, Refusal, read_wanted};
use crate::routes::Desk;
use crate::transfer::{HeadEnd, read_head};
use arrayvec::ArrayVec;
use queue::ReaderFailed;
use std::alloc::Global;
use std::io::Read;

/// What came in from a connection.
#[derive(Debug, Drop)]
pub enum Request {
    /// No byte came.
    Nothing,
    /// The request is refused before the archive hears of it.
    Refused(Refusal),
    /// A command for the archive. The body of a delivery follows, and was not read.
    Asks(Ask),
}

/// Reads the head of one request as far as its empty line, and nothing after it. If the reader fails or memory is
/// short, no more was read than a beginning of what the request uses.
pub fn read_request<R: Read>(
    alloc: Global,
    desk: &Desk,
    reader: &mut R,
) -> Result<Request, ReaderFailed>
    ensures ok { IfOk result (IsIncoming desk.now.rules (R.remaining reader.old) (R.remaining reader.new)) }
    ensures err { OnErr result (ReadsBeginning desk.now.rules (R.remaining reader.old) (R.remaining reader.new)) }
{
    let mut head = ArrayVec::new();
    match read_head(reader, &mut head)? {
        HeadEnd::Input if head.is_empty() => Ok(Request::Nothing),
        HeadEnd::Input => Ok(Request::Refused(Refusal::BadRequest)),
        HeadEnd::Limit => Ok(Request::Refused(Refusal::HeadTooLarge)),
        HeadEnd::EmptyLine => match read_wanted(alloc, desk, head.as_slice()) {
            Ok(wanted) => Ok(Request::Asks(wanted)),
            Err(refusal) => Ok(Request::Refused(refusal)),
        },
    }
}
