//! One connection: its request, the call of the archive that it asks for, and the reply.
ghost use Rattle.std.specs.Prelude.{◌≡◌, ℕ, Bool, true, List, Some, None, IfOk, OnErr, MatchResult, map, string_bytes};
ghost use Rattle.desk.specs.Answer.{text_message};
ghost use Rattle.desk.specs.Calls.{done_message, fault_message, outcome_message, reception_message, told_message};
ghost use Rattle.desk.specs.Exchange.{Broken, Course, HasWritten, IsAnswered, IsCarriedOut, LeavesBehind, LeavesCourse, reply_of};
ghost use Rattle.desk.specs.Outgoing.{IsFoundAs, IsOutgoing};
ghost use Rattle.desk.specs.Incoming.{ReadsBeginning, ReadsUpTo};
ghost use Rattle.desk.specs.Message.{message_of};
ghost use Rattle.desk.specs.Reply.{line};
ghost use Rattle.desk.specs.Request.{body_length, want_of};
ghost use Rattle.desk.specs.Want.{Want, fetching, may_ask, no_rules};
ghost use Rattle.queue.specs.Answers.{copy_line};
ghost use Rattle.queue.specs.Commands.{copies_of, counted, found, is_new, lines_of, promoted, reported};
ghost use Rattle.queue.specs.Histories.{Stored};
ghost use Rattle.queue.specs.Receiving.{IsAsBefore};
ghost use Rattle.queue.specs.Steps.{Lasts, Reads};
ghost use Rattle.telling.specs.Told.{bytes_of, question_of};

use crate::content::Content;
use crate::fault_text::text_of;
use crate::file::{LargeFile, is_all, is_large, send_file};
use crate::head::{Ask, Refusal};
use crate::reply::{Body, Reply, write_reply};
use crate::request::{Request, read_request};
use crate::routes::Desk;
use crate::transfer::WriterFailed;
use book::Keeper;
use http::StatusCode;
use queue::{Archive, Arrived, Fault, Promotion, ReaderFailed, Report};
use statuses::delivery_status;
use std::alloc::Global;
use std::error::Error;
use std::fmt;
use std::io::{Read, Write};
use telling::{Question, TellFault, tell};

/// What a connection was answered.
#[derive(Clone, Copy, Debug, PartialEq, Eq)]
pub enum Served {
    /// No byte came, and none was written.
    Nothing,
    /// A whole reply of this status.
    Status(StatusCode),
}

/// Why a connection was not answered in whole.
#[derive(Clone, Copy, Debug, PartialEq, Eq)]
pub enum DeskFault {
    /// The reader failed: no command was made, the archive is as before, and nothing was written.
    ReaderFailed,
    /// The writer failed: what was carried out stays so, and a beginning of the reply was written.
    WriterFailed,
    /// The archive failed after the head of a large file was written: a beginning of the reply was written, and nothing was changed.
    ArchiveFailed,
}

impl DeskFault {
    ghost use Rattle.desk.specs.DeskFaults.{desk_fault_number};

    /// The number of the fault.
    pub fn number(self) -> u8
        ensures { result ≡ desk_fault_number self }
    {
        match self {
            DeskFault::ReaderFailed => 1,
            DeskFault::WriterFailed => 2,
            DeskFault::ArchiveFailed => 3,
        }
    }
}

impl fmt::Display for DeskFault {
    ghost use Rattle.std.specs.Prelude.{Some};
    ghost use Rattle.desk.specs.DeskFaults.{desk_fault_text};

    ghost output = { λ fault. Some (desk_fault_text fault) };

    fn fmt<W: fmt::Write>(&self, f: &mut fmt::Formatter<W>) -> fmt::Result {
        write!(f, "H{}", self.number())
    }
}

impl Error for DeskFault {}

impl From<WriterFailed> for DeskFault {
    ghost use Rattle.std.specs.Prelude.{◌≡◌};
    ghost use Rattle.desk.specs.declared.exchange.DeskFault.TheVariants.{WriterFailed};

    ghost from_gives = { λ _ fault. fault ≡ WriterFailed };

    fn from(_: WriterFailed) -> DeskFault {
        DeskFault::WriterFailed
    }
}

/// What a request is answered with.
#[derive(Drop)]
enum Outgoing {
    /// A reply that is at hand.
    Whole(Reply),
    /// A large file of the pool, whose first piece is at hand.
    Pieces(LargeFile),
}

impl Desk {
    /// Answers one connection at a moment, in seconds since 1970-01-01 00:00:00 UTC: reads the part of its bytes that the request uses,
    /// calls the archive if that is what they ask for, and writes the reply. A delivery's body goes to the archive as it comes. If it is
    /// larger than the archive takes under its name, nothing of it is read and the reply is 413. The memory that the desk needs is taken
    /// before the archive is called, so that what was carried out is never answered with a want of memory. A file of the pool of more than
    /// 4 MiB is read and written piece by piece, and if the archive fails meanwhile the answer is `ArchiveFailed`.
    pub fn answer<K: Keeper, R: Read, W: Write>(
        &self,
        alloc: Global,
        archive: &mut Archive<K>,
        reader: &mut R,
        writer: &mut W,
        moment: u64,
    ) -> Result<Served, DeskFault>
        ensures lasts { Lasts K.Keeper archive.old.keeper archive.new.keeper }
        ensures answered { IsAnswered self.now.rules K.Keeper (R.remaining reader.old) (R.remaining reader.new)
            archive.old.keeper archive.new.keeper (W.contents writer.old) (W.contents writer.new) moment result }
    {
        match reply_to(alloc, self, archive, reader, moment) {
            Err(_) => Err(DeskFault::ReaderFailed),
            Ok(None) => Ok(Served::Nothing),
            Ok(Some(Outgoing::Whole(reply))) => send(writer, &reply),
            Ok(Some(Outgoing::Pieces(file))) => send_file(alloc, archive, writer, &file),
        }
    }
}

/// Answers one connection as [`Desk::answer`] does, by a desk of its own, which looks at no field Origin and names no key. If there is no memory for one, the reply is 507 and nothing is
/// read.
pub fn answer<K: Keeper, R: Read, W: Write>(
    alloc: Global,
    archive: &mut Archive<K>,
    reader: &mut R,
    writer: &mut W,
    moment: u64,
) -> Result<Served, DeskFault>
    ensures lasts { Lasts K.Keeper archive.old.keeper archive.new.keeper }
    ensures answered { IsAnswered no_rules K.Keeper (R.remaining reader.old) (R.remaining reader.new)
        archive.old.keeper archive.new.keeper (W.contents writer.old) (W.contents writer.new) moment result }
{
    match Desk::new(alloc) {
        Ok(desk) => desk.answer(alloc, archive, reader, writer, moment),
        Err(_) => send(writer, &Reply::to_refusal(Refusal::OutOfMemory)),
    }
}

/// Writes a reply, and says how that ended.
fn send<W: Write>(writer: &mut W, reply: &Reply) -> Result<Served, DeskFault>
    ensures { (course : Course) → reply_of course ≡ Some (message_of reply.now)
        → HasWritten (W.contents writer.old) (W.contents writer.new) course result }
{
    match write_reply(writer, reply) {
        Ok(()) => Ok(Served::Status(reply.status)),
        Err(_) => Err(DeskFault::WriterFailed),
    }
}

/// Has the desk remember a call that may change what suites show.
fn note_change(desk: &Desk, wanted: &Ask) {
    if wanted.may_change() {
        desk.note_change();
    }
}

/// Reads one request, carries it out, and has what it is answered with.
fn reply_to<K: Keeper, R: Read>(
    alloc: Global,
    desk: &Desk,
    archive: &mut Archive<K>,
    reader: &mut R,
    moment: u64,
) -> Result<Option<Outgoing>, ReaderFailed>
    ensures lasts { Lasts K.Keeper archive.old.keeper archive.new.keeper }
    ensures ok { IfOk result (IsOutgoing desk.now.rules K.Keeper (R.remaining reader.old) (R.remaining reader.new)
        archive.old.keeper archive.new.keeper moment) }
    ensures err { OnErr result (ReadsBeginning desk.now.rules (R.remaining reader.old) (R.remaining reader.new) × IsAsBefore K.Keeper archive.old.keeper archive.new.keeper
        × LeavesCourse desk.now.rules K.Keeper (R.remaining reader.old) (R.remaining reader.new) moment archive.old.keeper archive.new.keeper Broken) }
{
    match read_request(alloc, desk, reader) {
        Err(fault) => Err(fault),
        Ok(Request::Nothing) => Ok(None),
        Ok(Request::Refused(refusal)) => Ok(Some(Outgoing::Whole(Reply::to_refusal(refusal)))),
        Ok(Request::Asks(wanted)) => match pool_path(wanted) {
            Ok(path) => Ok(Some(find_file(alloc, archive, path))),
            Err(wanted) => {
                note_change(desk, &wanted);
                let reply = carry_out(alloc, archive, &wanted, reader, moment)?;
                Ok(Some(Outgoing::Whole(reply)))
            }
        },
    }
}

/// The path of the file of the pool that is wanted, or what is wanted else.
fn pool_path(wanted: Ask) -> Result<String, Ask>
    ensures { MatchResult result (λ path. want_of wanted ≡ fetching (string_bytes path) true) (λ other. other ≡ wanted) }
{
    match wanted {
        Ask::Fetch {
            path,
            is_pool: true,
        } => Ok(path),
        other => Err(other),
    }
}

/// The file of the pool at a path: its reply, or the file itself if it is large. The first piece tells the size, and is all of a file that
/// has no more. A file of at most 4 MiB is read whole, so that its reply is the fault if the archive fails.
fn find_file<K: Keeper>(alloc: Global, archive: &mut Archive<K>, path: String) -> Outgoing
    ensures reads { Reads K.Keeper archive.old.keeper archive.new.keeper }
    ensures found { IsFoundAs K.Keeper archive.old.keeper archive.new.keeper (string_bytes path) result }
{
    match archive.fetch_piece(alloc, path.as_str(), 0) {
        Err(fault) => Outgoing::Whole(fault_reply(fault)),
        Ok(Some(first)) if is_all(&first) => {
            Outgoing::Whole(fetch_reply(Ok(Some(first.bytes)), true))
        }
        Ok(Some(first)) if is_large(&first) => Outgoing::Pieces(LargeFile { path, first }),
        Ok(_) => {
            let fetched = archive.fetch(alloc, path.as_str());
            Outgoing::Whole(fetch_reply(fetched, true))
        }
    }
}

/// Calls the archive, and has the reply to its outcome. The body of a delivery is read after its head, as far as the archive reads it:
/// not at all if it is too large.
fn carry_out<K: Keeper, R: Read>(
    alloc: Global,
    archive: &mut Archive<K>,
    wanted: &Ask,
    reader: &mut R,
    moment: u64,
) -> Result<Reply, ReaderFailed>
    requires { may_ask (want_of wanted.now) ≡ true }
    ensures lasts { Lasts K.Keeper archive.old.keeper archive.new.keeper }
    ensures carried_out { IfOk result (λ reply. IsCarriedOut K.Keeper (R.remaining reader.old) (R.remaining reader.new)
        archive.old.keeper archive.new.keeper (want_of wanted.now) moment (Some (message_of reply))) }
    ensures err { OnErr result (ReadsUpTo (R.remaining reader.old) (R.remaining reader.new) (body_length (want_of wanted.now))
        × IsAsBefore K.Keeper archive.old.keeper archive.new.keeper
        × LeavesBehind K.Keeper (R.remaining reader.old) (R.remaining reader.new) (want_of wanted.now) moment archive.old.keeper archive.new.keeper Broken) }
{
    match wanted {
        Ask::Deliver { name, length } => {
            match archive.receive(alloc, name.as_str(), *length as u64, reader, moment) {
                Ok(arrived) => Ok(arrived_reply(arrived)),
                Err(fault) => reception_reply(fault),
            }
        }
        Ask::Run => Ok(report_reply(archive.run(alloc, moment))),
        Ask::Copy { from, to, source } => {
            let copied = archive.copy(alloc, from.as_str(), to.as_str(), source.as_str(), moment);
            Ok(count_reply(copied))
        }
        Ask::Fetch { path, is_pool } => {
            let fetched = archive.fetch(alloc, path.as_str());
            Ok(fetch_reply(fetched, *is_pool))
        }
        Ask::Waiting => Ok(report_reply(archive.waiting(alloc, moment))),
        Ask::Clean => Ok(count_reply(archive.clean(alloc, moment))),
        Ask::Verdicts => Ok(report_reply(archive.verdicts(alloc))),
        Ask::Remove { suite, name } => {
            let dropped = archive.remove(alloc, suite.as_str(), name.as_str(), moment);
            Ok(count_reply(dropped))
        }
        Ask::Promote { from, to } => {
            let copied = archive.promote(alloc, from.as_str(), to.as_str(), &None, moment);
            Ok(promotion_reply(copied))
        }
        Ask::Question(question) => {
            let told = tell(alloc, &mut archive.keeper, question, moment);
            Ok(told_reply(question, told))
        }
    }
}

fn arrived_reply(arrived: Arrived) -> Reply
    ensures { (is_pool : Bool) → message_of result ≡ done_message is_pool (Stored (is_new arrived)) }
{
    match arrived {
        Arrived::New => Reply::new(delivery_status(true), Body::Text("new")),
        Arrived::Again => Reply::new(delivery_status(false), Body::Text("again")),
    }
}

/// The reply to a call that answers lines.
fn report_reply(outcome: Result<Report, Fault>) -> Reply
    ensures { (want : Want) → message_of result ≡ outcome_message want (reported outcome) }
{
    match outcome {
        Ok(report) => Reply::new(StatusCode::OK, Body::Lines(report.lines)),
        Err(fault) => fault_reply(fault),
    }
}

/// The reply to a call that answers a number.
fn count_reply(outcome: Result<u64, Fault>) -> Reply
    ensures { (want : Want) → message_of result ≡ outcome_message want (counted outcome) }
{
    match outcome {
        Ok(count) => Reply::new(StatusCode::OK, Body::Number(count)),
        Err(fault) => fault_reply(fault),
    }
}

/// The reply to a promotion.
fn promotion_reply(outcome: Result<Promotion, Fault>) -> Reply
    requires { IfOk outcome (λ promotion. lines_of promotion.report ≡ map copy_line (copies_of promotion)) }
    ensures { (want : Want) → message_of result ≡ outcome_message want (promoted outcome) }
{
    match outcome {
        Ok(promotion) => Reply::new(StatusCode::OK, Body::Lines(promotion.report.lines)),
        Err(fault) => fault_reply(fault),
    }
}

/// The reply to a question.
fn told_reply(question: &Question, told: Result<Option<Vec<u8>>, TellFault>) -> Reply
    ensures { message_of result ≡ told_message (question_of question.now) (bytes_of told) }
{
    match told {
        Ok(Some(text)) => Reply {
            status: StatusCode::OK,
            allow: None,
            content: Content::of_answer(question),
            body: Body::Bytes(text),
        },
        Ok(None) => Reply::to_refusal(Refusal::NotFound),
        Err(TellFault::Keeper(_)) => Reply::to_refusal(Refusal::OutOfMemory),
        Err(TellFault::Moment) => fault_reply(Fault::Moment),
        Err(TellFault::UnknownSuite) => fault_reply(Fault::UnknownSuite),
    }
}

/// The reply to a fetch, of a file of the pool or of an index text.
fn fetch_reply(outcome: Result<Option<Vec<u8>>, Fault>, is_pool: bool) -> Reply
    ensures { (path : List ℕ) → message_of result ≡ outcome_message (fetching path is_pool) (found outcome) }
{
    match outcome {
        Ok(Some(bytes)) => Reply {
            status: StatusCode::OK,
            allow: None,
            content: Content::of_file(is_pool),
            body: Body::Bytes(bytes),
        },
        Ok(None) => Reply::to_refusal(Refusal::NotFound),
        Err(fault) => fault_reply(fault),
    }
}

/// The reply to a delivery that was refused. If its reader failed there is no reply.
fn reception_reply(fault: Fault) -> Result<Reply, ReaderFailed>
    ensures { MatchResult result (λ reply. Some (message_of reply) ≡ reception_message fault) (λ _. reception_message fault ≡ None) }
{
    match fault {
        Fault::ReaderFailed => Err(ReaderFailed),
        Fault::Ended => Ok(Reply::to_refusal(Refusal::BadRequest)),
        fault => Ok(fault_reply(fault)),
    }
}

/// The reply to what the archive refused.
fn fault_reply(fault: Fault) -> Reply
    ensures { message_of result ≡ fault_message fault }
{
    match fault {
        Fault::OutOfMemory | Fault::Keeper(_) => Reply::to_refusal(Refusal::OutOfMemory),
        Fault::TooLarge => Reply::to_refusal(Refusal::PayloadTooLarge),
        fault => Reply::new(
            StatusCode::UNPROCESSABLE_ENTITY,
            Body::Fault(text_of(fault)),
        ),
    }
}
