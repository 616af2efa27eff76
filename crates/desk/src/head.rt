//! The head of a request, and what it asks for.
//!
//! As in httparse, a line of a head may end in LF alone, and empty lines may come first. Only CR LF CR LF ends a head: a head that
//! httparse finds complete earlier is answered 400.
ghost use Rattle.std.specs.Prelude.{◌≡◌, ◌≤◌, ◌&&◌, not, true, false, ℕ, List, [], length, map, drop, All, unwrap_or, IfOk, IfErr, OnErr, MatchResult, string_bytes};
ghost use Rattle.std.specs.List.{list_any, list_all};
ghost use Rattle.std.specs.Char.{is_ascii_digit};
ghost use Rattle.std.specs.Option.{option_map};
ghost use Rattle.std.specs.Str.{IsUtf8, bytes_eq};
ghost use Rattle.httparse.specs.Grammar.{RequestHead};
ghost use Rattle.httparse.specs.Spans.{header_bytes, span_bytes, IsHeaderWithin, IsRequestAt, IsRequestWithin};
ghost use Rattle.matchit.specs.Params.{AllText, named, walk};
ghost use Rattle.desk.specs.Want.{asked_at, changes, content_length, decoded, fetched_at, is_named, is_path, length_value, pass, wanted_at, with_length as with_body_length};
ghost use Rattle.desk.specs.Refusals.{allowed, refusal_status};
ghost use Rattle.desk.specs.Request.{Gives, HeadAsks, IsHead, found_want, want_of};

use crate::questions::find_question;
use crate::routes::{Desk, Route};
use http::{Method, StatusCode};
use httparse::Status;
use httparse::spans::{EMPTY_HEADER_SPAN, HeaderSpan, RequestSpans, Span, parse_request};
use matchit::Params;
use percent_encoding::percent_decode;
use std::alloc::{AllocError, Global};
use sums::{MOST_SIZE, is_file_name};
use telling::Question;

/// The most header fields that a head may have.
const MAX_FIELDS: usize = 32;

/// Why a request is refused before the archive hears of it.
#[derive(Debug, Drop)]
pub enum Refusal {
    BadRequest,
    NotFound,
    MethodNotAllowed(Method),
    /// A page in a browser asks for a change.
    Forbidden,
    LengthRequired,
    PayloadTooLarge,
    HeadTooLarge,
    NotImplemented,
    OutOfMemory,
}

impl Refusal {
    pub fn status(&self) -> StatusCode
        ensures { result ≡ refusal_status self.now }
    {
        match self {
            Refusal::BadRequest => StatusCode::BAD_REQUEST,
            Refusal::NotFound => StatusCode::NOT_FOUND,
            Refusal::MethodNotAllowed(_) => StatusCode::METHOD_NOT_ALLOWED,
            Refusal::Forbidden => StatusCode::FORBIDDEN,
            Refusal::LengthRequired => StatusCode::LENGTH_REQUIRED,
            Refusal::PayloadTooLarge => StatusCode::PAYLOAD_TOO_LARGE,
            Refusal::HeadTooLarge => StatusCode::REQUEST_HEADER_FIELDS_TOO_LARGE,
            Refusal::NotImplemented => StatusCode::NOT_IMPLEMENTED,
            Refusal::OutOfMemory => StatusCode::INSUFFICIENT_STORAGE,
        }
    }
}

impl Refusal {
    /// The method that the route wants, if the request used another.
    pub fn into_allowed(self) -> Option<Method>
        ensures { result ≡ allowed self }
    {
        match self {
            Refusal::MethodNotAllowed(method) => Some(method),
            Refusal::BadRequest
            | Refusal::NotFound
            | Refusal::Forbidden
            | Refusal::LengthRequired
            | Refusal::PayloadTooLarge
            | Refusal::HeadTooLarge
            | Refusal::NotImplemented
            | Refusal::OutOfMemory => None,
        }
    }
}

impl From<AllocError> for Refusal {
    ghost use Rattle.std.specs.Prelude.{◌≡◌};
    ghost use Rattle.desk.specs.declared.head.Refusal.TheVariants.{OutOfMemory};

    ghost from_gives = { λ _ refusal. refusal ≡ OutOfMemory };

    fn from(_: AllocError) -> Refusal {
        Refusal::OutOfMemory
    }
}

/// What a head asks for.
#[derive(Debug, Drop)]
pub enum Ask {
    /// A delivery, whose body of this length follows the head.
    Deliver {
        name: String,
        length: usize,
    },
    Run,
    Copy {
        from: String,
        to: String,
        source: String,
    },
    Fetch {
        path: String,
        is_pool: bool,
    },
    Waiting,
    Clean,
    Verdicts,
    Remove {
        suite: String,
        name: String,
    },
    /// A promotion of all that a suite shows.
    Promote {
        from: String,
        to: String,
    },
    /// A question, which changes nothing.
    Question(Question),
}

impl Ask {
    /// Whether the call may change what suites show. These are the calls whose method is POST.
    pub fn may_change(&self) -> bool {
        match self {
            Ask::Run | Ask::Copy { .. } | Ask::Clean | Ask::Remove { .. } | Ask::Promote { .. } =>
                true,
            Ask::Deliver { .. }
            | Ask::Fetch { .. }
            | Ask::Waiting
            | Ask::Verdicts
            | Ask::Question(_) => false,
        }
    }
}

/// Reads a whole head. It checks the target, then the Transfer-Encoding, the route, the parameters of the route, the method, the Origin, if
/// the desk refuses it, and the Content-Length. The first check that fails says why the head is refused.
pub fn read_wanted(alloc: Global, desk: &Desk, head: &[u8]) -> Result<Ask, Refusal>
    ensures { Gives want_of result (HeadAsks desk.now.rules head.now) }
{
    let mut headers = [EMPTY_HEADER_SPAN; MAX_FIELDS];
    let spans = parse_whole(head, &mut headers)?;
    let fields = &headers[..spans.headers];
    let target = target_of(head, spans.path)?;
    if has_field(head, fields, b"transfer-encoding") {
        return Err(Refusal::NotImplemented);
    }
    let (route, wanted) = find_wanted(alloc, desk, target)?;
    check_method(spans.method.of(head), route.method())?;
    let has_origin = has_field(head, fields, b"origin");
    check_origin(desk.rules.refuses_origin, route, has_origin)?;
    with_length(wanted, content_length(head, fields)?)
}

/// The head's parts, if all of it is one head with room for its fields.
fn parse_whole(head: &[u8], headers: &mut [HeaderSpan]) -> Result<RequestSpans, Refusal>
    requires { length headers.old ≡ MAX_FIELDS }
    ensures within { IfOk result (IsRequestWithin head.now headers.new) }
    ensures found { IfOk result (λ spans. (h : RequestHead) × IsHead head.now h × IsRequestAt head.now headers.new spans h) }
    ensures none { OnErr result ((h : RequestHead) → IsHead head.now h → ⊥) }
    ensures err { IfErr result (λ refusal. refusal ≡ Refusal.BadRequest) }
{
    match parse_request(head, headers) {
        Ok(Status::Complete(spans)) => {
            if spans.len == head.len() {
                Ok(spans)
            } else {
                Err(Refusal::BadRequest)
            }
        }
        Ok(Status::Partial) => Err(Refusal::BadRequest),
        Err(_) => Err(Refusal::BadRequest),
    }
}

/// The target, if it is a path and no more.
fn target_of(head: &[u8], path: Span) -> Result<&str, Refusal>
    requires ordered { path.start ≤ path.end }
    requires within { path.end ≤ length head.now }
    requires text { IsUtf8 (span_bytes head.now path) }
    ensures ok { IfOk result (λ target. (target.now ≡ span_bytes head.now path) × (is_path (span_bytes head.now path) ≡ true)) }
    ensures err { IfErr result (λ refusal. (refusal ≡ Refusal.BadRequest) × (is_path (span_bytes head.now path) ≡ false)) }
{
    let Ok(target) = str::from_utf8(path.of(head)) else {
        return Err(Refusal::BadRequest);
    };
    if !is_path(target) {
        return Err(Refusal::BadRequest);
    }
    Ok(target)
}

/// Whether a target is a path with no query or fragment after it.
fn is_path(target: &str) -> bool
    ensures { result ≡ is_path target.now }
{
    let bytes = target.as_bytes();
    if bytes.is_empty() || bytes[0] != b'/' {
        return false;
    }
    !bytes.iter().any(|b| *b == b'?' || *b == b'#')
}

/// Whether a field has this name, ASCII case ignored.
fn is_named(head: &[u8], field: &HeaderSpan, name: &[u8]) -> bool
    requires { IsHeaderWithin (length head.now) field.now }
    ensures { result ≡ is_named name.now (header_bytes head.now field.now) }
{
    field.name.of(head).eq_ignore_ascii_case(name)
}

/// Whether one of the fields has this name.
fn has_field(head: &[u8], fields: &[HeaderSpan], name: &[u8]) -> bool
    requires { All (IsHeaderWithin (length head.now)) fields.now }
    ensures { result ≡ list_any (is_named name.now) (map (header_bytes head.now) fields.now) }
{
    for field in fields {
        if is_named(head, field, name) {
            return true;
        }
    }
    false
}

/// The number that the one Content-Length field has, if there is one.
fn content_length(head: &[u8], fields: &[HeaderSpan]) -> Result<Option<u64>, Refusal>
    requires { All (IsHeaderWithin (length head.now)) fields.now }
    ensures { result ≡ content_length (map (header_bytes head.now) fields.now) }
{
    let mut length = None;
    for field in fields {
        if is_named(head, field, b"content-length") {
            if length.is_some() {
                return Err(Refusal::BadRequest);
            }
            length = Some(read_length(field.value.of(head))?);
        }
    }
    Ok(length)
}

/// The number of one to ten decimal digits.
fn read_length(text: &[u8]) -> Result<u64, Refusal>
    ensures { result ≡ length_value text.now }
{
    if text.is_empty() || text.len() > 10 || !is_digits(text) {
        return Err(Refusal::BadRequest);
    }
    let mut length = 0;
    for digit in text {
        length = length * 10 + u64::from(*digit - b'0');
    }
    Ok(length)
}

fn is_digits(text: &[u8]) -> bool
    ensures { result ≡ list_all is_ascii_digit text.now }
{
    text.iter().all(|c| c.is_ascii_digit())
}

/// What a path asks for: its route, and the command of that route. A path without a route may ask a question.
fn find_wanted(alloc: Global, desk: &Desk, target: &str) -> Result<(Route, Ask), Refusal>
    requires { is_path target.now ≡ true }
    ensures { Gives found_want result (λ r. r ≡ asked_at (option_map string_bytes desk.now.rules.key) target.now) }
{
    let Ok(found) = desk.router().at(target) else {
        let question = find_question(alloc, &desk.rules.key, target.as_bytes())?;
        return Ok((Route::Question, Ask::Question(question)));
    };
    let route = *found.value;
    let wanted = read_route(alloc, route, target, &found.params)?;
    Ok((route, wanted))
}

/// The command of a route, its parameters decoded.
fn read_route(
    alloc: Global,
    route: Route,
    target: &str,
    params: &Params<'_, '_>,
) -> Result<Ask, Refusal>
    requires path { is_path target.now ≡ true }
    requires text { AllText (walk params.now.pattern.now params.now.text.now params.now.path.now params.now.names.now 0 0) }
    ensures { Gives want_of result (λ r. r ≡ wanted_at route (walk params.now.pattern.now params.now.text.now params.now.path.now params.now.names.now 0 0) target.now) }
{
    match route {
        Route::Deliver => Ok(Ask::Deliver {
            name: decode_param(alloc, params, "name")?,
            length: 0,
        }),
        Route::Run => Ok(Ask::Run),
        Route::Copy => Ok(Ask::Copy {
            from: decode_param(alloc, params, "from")?,
            to: decode_param(alloc, params, "to")?,
            source: decode_param(alloc, params, "source")?,
        }),
        Route::Waiting => Ok(Ask::Waiting),
        Route::Clean => Ok(Ask::Clean),
        Route::Verdicts => Ok(Ask::Verdicts),
        Route::Dists => read_fetch(alloc, target, false),
        Route::Pool => read_fetch(alloc, target, true),
        Route::Remove => Ok(Ask::Remove {
            suite: decode_param(alloc, params, "suite")?,
            name: decode_param(alloc, params, "package")?,
        }),
        Route::Promote => {
            let from = decode_param(alloc, params, "from")?;
            let to = decode_param(alloc, params, "to")?;
            Ok(Ask::Promote { from, to })
        }
        Route::Question => Err(Refusal::NotFound),
    }
}

/// A file or an index text, by the whole path without its first slash.
fn read_fetch(alloc: Global, target: &str, is_pool: bool) -> Result<Ask, Refusal>
    requires { is_path target.now ≡ true }
    ensures { Gives want_of result (λ r. r ≡ fetched_at (drop 1 target.now) is_pool) }
{
    let path = decode(alloc, &target[1..])?;
    Ok(Ask::Fetch { path, is_pool })
}

/// The parameter of this name, decoded.
fn decode_param(alloc: Global, params: &Params<'_, '_>, name: &str) -> Result<String, Refusal>
    requires { AllText (walk params.now.pattern.now params.now.text.now params.now.path.now params.now.names.now 0 0) }
    ensures { Gives string_bytes result (λ r. r ≡ decoded (unwrap_or (named name.now (walk params.now.pattern.now params.now.text.now params.now.path.now params.now.names.now 0 0)) [])) }
{
    decode(alloc, params.get(name).unwrap_or(""))
}

/// The text of a path with its escapes undone.
fn decode(alloc: Global, escaped: &str) -> Result<String, Refusal>
    ensures { Gives string_bytes result (λ r. r ≡ decoded escaped.now) }
{
    decode_bytes(alloc, escaped.as_bytes())
}

/// Bytes of a path with their escapes undone.
pub fn decode_bytes(alloc: Global, escaped: &[u8]) -> Result<String, Refusal>
    ensures { Gives string_bytes result (λ r. r ≡ decoded escaped.now) }
{
    let mut bytes = Vec::new(alloc);
    percent_decode(escaped).append_to(&mut bytes)?;
    match String::from_utf8(bytes) {
        Ok(text) => Ok(text),
        Err(_) => Err(Refusal::BadRequest),
    }
}

/// Succeeds if the method is the one that a route wants.
fn check_method(method: &[u8], wanted: Method) -> Result<(), Refusal>
    ensures { result ≡ pass (bytes_eq method.now wanted) (Refusal.MethodNotAllowed wanted) }
{
    if method == wanted.as_str().as_bytes() {
        Ok(())
    } else {
        Err(Refusal::MethodNotAllowed(wanted))
    }
}

/// Refuses a change that has a field Origin, if such changes are refused.
fn check_origin(refuses_origin: bool, route: Route, has_origin: bool) -> Result<(), Refusal>
    ensures { result ≡ pass (not (refuses_origin && (changes route && has_origin))) Refusal.Forbidden }
{
    if refuses_origin && route.changes() && has_origin {
        Err(Refusal::Forbidden)
    } else {
        Ok(())
    }
}

/// The command with the length of its body, which only a delivery has. The archive says how large a body may be under the name of a file.
/// Under any other name a body of more than 4 MiB is refused here.
fn with_length(wanted: Ask, length: Option<u64>) -> Result<Ask, Refusal>
    ensures { Gives want_of result (λ r. r ≡ with_body_length (want_of wanted) length) }
{
    match (wanted, length) {
        (Ask::Deliver { .. }, None) => Err(Refusal::LengthRequired),
        (Ask::Deliver { name, .. }, Some(length)) => {
            if !is_file_name(name.as_str()) && length > MOST_SIZE {
                return Err(Refusal::PayloadTooLarge);
            }
            Ok(Ask::Deliver {
                name,
                length: length as usize,
            })
        }
        (wanted, None | Some(0)) => Ok(wanted),
        (_, Some(_)) => Err(Refusal::BadRequest),
    }
}
