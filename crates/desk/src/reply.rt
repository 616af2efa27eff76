//! The bytes of a reply, written piece by piece, so that no piece takes memory.
//!
//! The texts of a reply are in the program or come from the archive, and the text of a fault has a fixed room. So a reply takes no memory,
//! and a 422 never turns into a 507.
ghost use Rattle.std.specs.Prelude.{◌≡◌, ℕ, List, None, [], unwrap_or, length, string_bytes, OnOk, OnErr};
ghost use Rattle.std.specs.List.{flat_map};
ghost use Rattle.std.specs.Io.KnownBytes.{Appends, Keeps};
ghost use Rattle.http.specs.StatusCode.{reason_phrase};
ghost use Rattle.std.specs.Option.{option_map_or};
ghost use Rattle.desk.specs.Answer.{refusal_message};
ghost use Rattle.desk.specs.File.{file_message};
ghost use Rattle.desk.specs.Message.{message_of, body_text};
ghost use Rattle.desk.specs.Parts.{parts_text};
ghost use Rattle.desk.specs.Reply.{head_text, line, message_text, of_page, phrase};
ghost use Rattle.desk.specs.declared.content.Content.TheVariants.{Text};
ghost use Rattle.desk.specs.Transfer.{AppendsBeginning};

use crate::content::Content;
use crate::fault_text::FaultText;
use crate::head::Refusal;
use crate::transfer::{WriterFailed, write_whole};
use http::{Method, StatusCode};
use itoa::Buffer;
use pages::POLICY;
use std::io::Write;

/// What a reply carries. All but `Bytes` is text, and every line of it ends with a newline.
#[derive(Debug, Drop)]
pub enum Body {
    /// The status and its phrase.
    Phrase,
    Text(&'static str),
    Number(u64),
    Lines(Vec<String>),
    Fault(FaultText),
    /// Bytes as they are.
    Bytes(Vec<u8>),
}

/// A reply that is still to be written.
#[derive(Debug, Drop)]
pub struct Reply {
    pub status: StatusCode,
    /// The method to use instead, if another was used.
    pub allow: Option<Method>,
    pub content: Content,
    pub body: Body,
}

impl Reply {
    /// A reply of text.
    pub fn new(status: StatusCode, body: Body) -> Reply
        ensures { result ≡ record { status = status; allow = None; content = Text; body = body } }
    {
        Reply {
            status,
            allow: None,
            content: Content::Text,
            body,
        }
    }

    /// The reply to what is refused before the archive hears of it.
    pub fn to_refusal(refusal: Refusal) -> Reply
        ensures { message_of result ≡ refusal_message refusal }
    {
        let status = refusal.status();
        Reply {
            status,
            allow: refusal.into_allowed(),
            content: Content::Text,
            body: Body::Phrase,
        }
    }
}

/// Writes the pieces one after the other.
fn write_pieces<W: Write>(writer: &mut W, pieces: &[&[u8]]) -> Result<(), WriterFailed>
    ensures ok { OnOk result (Appends (W.contents writer.old) (W.contents writer.new) (flat_map (λ piece. piece.now) pieces.now)) }
    ensures err { OnErr result (AppendsBeginning (W.contents writer.old) (W.contents writer.new) (flat_map (λ piece. piece.now) pieces.now)) }
{
    for piece in pieces {
        write_whole(writer, piece)?;
    }
    Ok(())
}

/// Writes a reply.
pub fn write_reply<W: Write>(writer: &mut W, reply: &Reply) -> Result<(), WriterFailed>
    ensures ok { OnOk result (Appends (W.contents writer.old) (W.contents writer.new) (message_text (message_of reply.now))) }
    ensures err { OnErr result (AppendsBeginning (W.contents writer.old) (W.contents writer.new) (message_text (message_of reply.now))) }
{
    write_head(writer, reply)?;
    write_body(writer, reply)?;
    flush(writer)
}

/// Has the writer pass on what it holds.
pub fn flush<W: Write>(writer: &mut W) -> Result<(), WriterFailed>
    ensures { Keeps (W.contents writer.old) (W.contents writer.new) }
{
    match writer.flush() {
        Ok(()) => Ok(()),
        Err(_) => Err(WriterFailed),
    }
}

fn write_head<W: Write>(writer: &mut W, reply: &Reply) -> Result<(), WriterFailed>
    ensures ok { OnOk result (Appends (W.contents writer.old) (W.contents writer.new) (head_text (message_of reply.now))) }
    ensures err { OnErr result (AppendsBeginning (W.contents writer.old) (W.contents writer.new) (head_text (message_of reply.now))) }
{
    let (mut status, mut length) = (Buffer::new(), Buffer::new());
    let parts = Parts {
        status: status.format(reply.status.as_u16()),
        phrase: phrase_of(reply.status),
        content_type: reply.content.media_type(),
        length: length.format(body_length(reply)),
        policy_name: page_part(reply.content, "Content-Security-Policy: "),
        policy: page_part(reply.content, POLICY),
        policy_end: page_part(reply.content, "; frame-ancestors 'none'\r\n"),
        allow: allow_part(reply, "Allow: "),
        method: allow_method(reply),
        line_end: allow_part(reply, "\r\n"),
    };
    write_parts(writer, &parts)
}

/// Writes the head of the reply that has a file of the pool of this size.
pub fn write_file_head<W: Write>(writer: &mut W, size: u64) -> Result<(), WriterFailed>
    ensures ok { OnOk result ((body : List ℕ) → length body ≡ size
        → Appends (W.contents writer.old) (W.contents writer.new) (head_text (file_message body))) }
    ensures err { OnErr result ((body : List ℕ) → length body ≡ size
        → AppendsBeginning (W.contents writer.old) (W.contents writer.new) (head_text (file_message body))) }
{
    let (mut status, mut length) = (Buffer::new(), Buffer::new());
    let parts = Parts {
        status: status.format(StatusCode::OK.as_u16()),
        phrase: phrase_of(StatusCode::OK),
        content_type: Content::Binary.media_type(),
        length: length.format(size),
        policy_name: "",
        policy: "",
        policy_end: "",
        allow: "",
        method: "",
        line_end: "",
    };
    write_parts(writer, &parts)
}

/// The texts of a head that vary from reply to reply.
#[derive(Clone, Copy)]
struct Parts<'t> {
    status: &'t str,
    phrase: &'t str,
    content_type: &'t str,
    length: &'t str,
    policy_name: &'t str,
    policy: &'t str,
    policy_end: &'t str,
    allow: &'t str,
    method: &'t str,
    line_end: &'t str,
}

fn write_parts<W: Write>(writer: &mut W, parts: &Parts<'_>) -> Result<(), WriterFailed>
    ensures ok { OnOk result (Appends (W.contents writer.old) (W.contents writer.new) (parts_text parts.now)) }
    ensures err { OnErr result (AppendsBeginning (W.contents writer.old) (W.contents writer.new) (parts_text parts.now)) }
{
    let pieces = [
        b"HTTP/1.1 ".as_slice(),
        parts.status.as_bytes(),
        b" ".as_slice(),
        parts.phrase.as_bytes(),
        b"\r\nContent-Type: ".as_slice(),
        parts.content_type.as_bytes(),
        b"\r\nContent-Length: ".as_slice(),
        parts.length.as_bytes(),
        b"\r\n".as_slice(),
        parts.policy_name.as_bytes(),
        parts.policy.as_bytes(),
        parts.policy_end.as_bytes(),
        parts.allow.as_bytes(),
        parts.method.as_bytes(),
        parts.line_end.as_bytes(),
        b"Connection: close\r\n\r\n".as_slice(),
    ];
    write_pieces(writer, pieces.as_slice())
}

/// A part of the line that names an allowed method, if there is one.
fn allow_part<'r>(reply: &Reply, part: &'r str) -> &'r str
    ensures { result.now ≡ option_map_or (λ _. part.now) reply.now.allow [] }
{
    match &reply.allow {
        Some(_) => part,
        None => "",
    }
}

/// The allowed method, if there is one.
fn allow_method(reply: &Reply) -> &str
    ensures { result.now ≡ unwrap_or reply.now.allow [] }
{
    match &reply.allow {
        Some(method) => method.as_str(),
        None => "",
    }
}

fn phrase_of(status: StatusCode) -> &'static str
    ensures { result.now ≡ unwrap_or (reason_phrase status) [] }
{
    status.canonical_reason().unwrap_or("")
}

/// A part of the head that a page alone has.
fn page_part(content: Content, part: &'static str) -> &'static str
    ensures { result.now ≡ of_page content part.now }
{
    match content {
        Content::Page => part,
        Content::Text | Content::Binary | Content::Objects | Content::Figures => "",
    }
}

/// The number of bytes of the body. The sum of many texts may exceed any `u64`.
fn body_length(reply: &Reply) -> u128
    ensures { result ≡ length (body_text reply.now.status reply.now.body) }
{
    match &reply.body {
        Body::Phrase => {
            let mut digits = Buffer::new();
            let status = digits.format(reply.status.as_u16());
            status.len() as u128 + phrase_of(reply.status).len() as u128 + 2
        }
        Body::Text(text) => text.len() as u128 + 1,
        Body::Number(number) => {
            let mut digits = Buffer::new();
            digits.format(*number).len() as u128 + 1
        }
        Body::Lines(lines) => lines_length(lines.as_slice()),
        Body::Fault(text) => text.len() as u128 + 1,
        Body::Bytes(bytes) => bytes.len() as u128,
    }
}

fn lines_length(lines: &[String]) -> u128
    ensures { result ≡ length (flat_map (λ text. line (string_bytes text)) lines.now) }
{
    let mut length = 0u128;
    for line in lines {
        length += line.len() as u128 + 1;
    }
    length
}

fn write_body<W: Write>(writer: &mut W, reply: &Reply) -> Result<(), WriterFailed>
    ensures ok { OnOk result (Appends (W.contents writer.old) (W.contents writer.new) (body_text reply.now.status reply.now.body)) }
    ensures err { OnErr result (AppendsBeginning (W.contents writer.old) (W.contents writer.new) (body_text reply.now.status reply.now.body)) }
{
    match &reply.body {
        Body::Phrase => write_phrase(writer, reply.status),
        Body::Text(text) => write_line(writer, text),
        Body::Number(number) => {
            let mut digits = Buffer::new();
            write_line(writer, digits.format(*number))
        }
        Body::Lines(lines) => write_lines(writer, lines.as_slice()),
        Body::Fault(text) => write_line(writer, text.as_str()),
        Body::Bytes(bytes) => write_whole(writer, bytes.as_slice()),
    }
}

/// The status and its phrase, as a line.
fn write_phrase<W: Write>(writer: &mut W, status: StatusCode) -> Result<(), WriterFailed>
    ensures ok { OnOk result (Appends (W.contents writer.old) (W.contents writer.new) (line (phrase status))) }
    ensures err { OnErr result (AppendsBeginning (W.contents writer.old) (W.contents writer.new) (line (phrase status))) }
{
    let mut digits = Buffer::new();
    let pieces = [
        digits.format(status.as_u16()).as_bytes(),
        b" ".as_slice(),
        phrase_of(status).as_bytes(),
        b"\n".as_slice(),
    ];
    write_pieces(writer, pieces.as_slice())
}

fn write_line<W: Write>(writer: &mut W, text: &str) -> Result<(), WriterFailed>
    ensures ok { OnOk result (Appends (W.contents writer.old) (W.contents writer.new) (line text.now)) }
    ensures err { OnErr result (AppendsBeginning (W.contents writer.old) (W.contents writer.new) (line text.now)) }
{
    write_pieces(writer, [text.as_bytes(), b"\n".as_slice()].as_slice())
}

fn write_lines<W: Write>(writer: &mut W, lines: &[String]) -> Result<(), WriterFailed>
    ensures ok { OnOk result (Appends (W.contents writer.old) (W.contents writer.new) (flat_map (λ text. line (string_bytes text)) lines.now)) }
    ensures err { OnErr result (AppendsBeginning (W.contents writer.old) (W.contents writer.new) (flat_map (λ text. line (string_bytes text)) lines.now)) }
{
    for line in lines {
        write_line(writer, line.as_str())?;
    }
    Ok(())
}
