//! The request for the metrics, read, and its answer; the metrics' listener serves by them.

ghost use Rattle.std.specs.Prelude.{◌≡◌, ℕ, ◌≤◌, ◌<◌, List, ◌++◌, OnOk, length};
ghost use Rattle.base_lines.specs.Parts.{first_part, is_byte};
ghost use Rattle.httparse.specs.Grammar.{RequestHead, ReadsRequest};
ghost use Rattle.tcp_stats.specs.Http as spec;
ghost use Rattle.tcp_stats.specs.Http.{IsReason, answer_text, asked_by, asked_head, body_of, content_type, allowed, length_text, status, start_text, response_text};
ghost use Rattle.tcp_stats.specs.declared.http.HttpRequest.TheVariants.{Bad};

use base_lines::{Parts, push_decimal};
use base_sequence::NoMemory;
use httparse::Status;
use httparse::spans::{EMPTY_HEADER_SPAN, parse_request};

/// The most bytes of a request's head.
pub const MOST_BYTES: usize = 8_192;

/// The most fields of a request's head.
const MOST_FIELDS: usize = 64;

/// How much of an answer is asked for.
#[derive(Clone, Copy, Debug, PartialEq, Eq)]
pub enum Extent {
    /// All of it.
    Whole,
    /// All but its body, as by `HEAD` (RFC 9110, section 9.3.2).
    Head,
}

/// What a request asks of the metrics' listener.
#[derive(Clone, Copy, Debug, PartialEq, Eq)]
pub enum HttpRequest {
    /// `GET /metrics`, or `HEAD /metrics`.
    Metrics(Extent),
    /// Another path.
    NotFound(Extent),
    /// Another method on the path of the metrics.
    NotAllowed,
    /// What is no request, or is longer than is read.
    Bad,
    /// What may become a request, or may not, by what follows.
    Unfinished,
}

/// A target's path: what stands in front of a query.
fn path_of(target: &[u8]) -> &[u8]
    ensures { result.now ≡ first_part (is_byte 63) target.now }
{
    match Parts::new(target, b'?').next() {
        Some(path) => path,
        None => target,
    }
}

/// How much of an answer a method asks for.
fn extent_of(method: &[u8]) -> Extent
    ensures { result ≡ spec.extent_of method.now }
{
    if method == b"HEAD".as_slice() {
        return Extent::Head;
    }
    Extent::Whole
}

/// What a method asks of the metrics.
fn metrics_by(method: &[u8]) -> HttpRequest
    ensures { result ≡ spec.metrics_by method.now }
{
    if method == b"GET".as_slice() {
        return HttpRequest::Metrics(Extent::Whole);
    }
    if method == b"HEAD".as_slice() {
        return HttpRequest::Metrics(Extent::Head);
    }
    HttpRequest::NotAllowed
}

/// What a request of this method and target asks.
fn asked(method: &[u8], target: &[u8]) -> HttpRequest
    ensures { result ≡ asked_by method.now target.now }
{
    if path_of(target) != b"/metrics".as_slice() {
        return HttpRequest::NotFound(extent_of(method));
    }
    metrics_by(method)
}

/// Reads a request as far as it has come (RFC 9112). Of one that is whole, what it asks; `Unfinished` where more has to
/// come; `Bad` where nothing that comes makes it a request, it has more than 64 fields, or more than 8 KiB have come.
pub fn read_request(bytes: &[u8]) -> HttpRequest
    ensures whole { (head : RequestHead) (rest : List ℕ) → ReadsRequest bytes.now head rest → length bytes.now ≤ MOST_BYTES → length head.fields ≤ MOST_FIELDS → result ≡ asked_head head }
    ensures long { MOST_BYTES < length bytes.now → result ≡ Bad }
    ensures reason { IsReason bytes.now result }
{
    if bytes.len() > MOST_BYTES {
        return HttpRequest::Bad;
    }
    let mut headers = [EMPTY_HEADER_SPAN; MOST_FIELDS];
    match parse_request(bytes, &mut headers) {
        Ok(Status::Complete(head)) => asked(head.method.of(bytes), head.path.of(bytes)),
        Ok(Status::Partial) => HttpRequest::Unfinished,
        Err(_) => HttpRequest::Bad,
    }
}

impl HttpRequest {
    /// The status that answers it (RFC 9110, section 15).
    fn status(self) -> &'static str
        ensures { result.now ≡ status self }
    {
        match self {
            HttpRequest::Metrics(_) => "200 OK",
            HttpRequest::NotFound(_) => "404 Not Found",
            HttpRequest::NotAllowed => "405 Method Not Allowed",
            HttpRequest::Bad => "400 Bad Request",
            HttpRequest::Unfinished => "408 Request Timeout",
        }
    }

    /// The form of the body.
    fn content_type(self) -> &'static str
        ensures { result.now ≡ content_type self }
    {
        match self {
            HttpRequest::Metrics(_) => "text/plain; version=0.0.4; charset=utf-8",
            _ => "text/plain; charset=utf-8",
        }
    }

    /// The field that names the methods that are allowed, where another was asked.
    fn allowed(self) -> &'static str
        ensures { result.now ≡ allowed self }
    {
        match self {
            HttpRequest::NotAllowed => "Allow: GET, HEAD\r\n",
            _ => "",
        }
    }

    /// The body: the metrics where they were asked, else what is wrong.
    fn body(self, metrics: &[u8]) -> &[u8]
        ensures { result.now ≡ body_of self metrics.now }
    {
        match self {
            HttpRequest::Metrics(_) => metrics,
            HttpRequest::NotFound(_) => b"The metrics are at /metrics.\n",
            HttpRequest::NotAllowed => b"The metrics are read by GET.\n",
            HttpRequest::Bad => b"This is no request that can be read.\n",
            HttpRequest::Unfinished => b"The request took too long.\n",
        }
    }

    /// What is sent of the body: nothing where all but the body is asked for.
    fn sent(self, body: &[u8]) -> &[u8]
        ensures { result.now ≡ spec.sent self body.now }
    {
        match self {
            HttpRequest::Metrics(Extent::Head) | HttpRequest::NotFound(Extent::Head) => b"",
            _ => body,
        }
    }
}

/// Appends the status line, and the field that says of what form the body is.
#[tactic(auto, unfolding(crate::specs::Http::start_text))]
fn push_start(text: &mut Vec<u8>, request: HttpRequest) -> Result<(), NoMemory>
    ensures { OnOk result (text.new.items ≡ text.old.items ++ start_text request) }
{
    text.extend_from_slice(b"HTTP/1.1 ")?;
    text.extend_from_slice(request.status().as_bytes())?;
    text.extend_from_slice(b"\r\nContent-Type: ")?;
    text.extend_from_slice(request.content_type().as_bytes())?;
    text.extend_from_slice(b"\r\n")?;
    Ok(())
}

/// Appends the field that says how long the body is.
#[tactic(auto, unfolding(crate::specs::Http::length_text))]
fn push_length(text: &mut Vec<u8>, length: u64) -> Result<(), NoMemory>
    ensures { OnOk result (text.new.items ≡ text.old.items ++ length_text length) }
{
    text.extend_from_slice(b"Content-Length: ")?;
    push_decimal(text, length)?;
    text.extend_from_slice(b"\r\n")?;
    Ok(())
}

/// Appends an answer whose fields tell of this body.
fn push_answer(text: &mut Vec<u8>, request: HttpRequest, body: &[u8]) -> Result<(), NoMemory>
    ensures { OnOk result (text.new.items ≡ text.old.items ++ answer_text request body.now) }
{
    push_start(text, request)?;
    push_length(text, body.len() as u64)?;
    text.extend_from_slice(request.allowed().as_bytes())?;
    text.extend_from_slice(b"Connection: close\r\n\r\n")?;
    text.extend_from_slice(request.sent(body))?;
    Ok(())
}

/// Appends the answer to a request, the metrics as its body where they are asked; one that is unfinished took too long. The
/// connection is closed behind it.
pub fn push_response(
    text: &mut Vec<u8>,
    request: HttpRequest,
    metrics: &[u8],
) -> Result<(), NoMemory>
    ensures { OnOk result (text.new.items ≡ text.old.items ++ response_text request metrics.now) }
{
    push_answer(text, request, request.body(metrics))
}
