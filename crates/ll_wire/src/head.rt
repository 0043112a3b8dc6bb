//! Parses the head of a request at the front of a connection's bytes (RFC 9112, sections 2 to 5).
ghost use Rattle.std.specs.Prelude.{◌≡◌, ◌<◌, ◌≤◌, All, length, map, take};
ghost use Rattle.httparse.specs.Grammar.{NeverHasRequest};
ghost use Rattle.httparse.specs.Spans.{RequestOverflows, IsHeaderWithin, span_bytes, header_bytes};
ghost use Rattle.httparse.specs.Spans as in_head;
ghost use Rattle.ll_wire.specs.Heads.{head_of, head_value, unfinished, judged_parts, LiesIn};

use crate::fault::HeadFault;
use crate::fields::{any_tells_body, any_tells_close, hosts};
use crate::place::ends_in_target;
use http::Method;
use httparse::spans::{EMPTY_HEADER_SPAN, HeaderSpan, RequestSpans, parse_request};
use httparse::{Error, Status};

/// The most bytes of a head, empty lines before it counted.
const MOST_BYTES: usize = 8192;

/// The most fields of a head.
const MOST_FIELDS: usize = 64;

/// What the head of a GET request says. Its offsets count from the first of the bytes that were parsed.
#[derive(Clone, Copy, Debug)]
pub struct Request {
    /// The offset of its target's first byte.
    pub from: usize,
    /// The offset after its target.
    pub to: usize,
    /// Whether the connection is kept after the answer (RFC 9112, section 9.3): the version is HTTP/1.1, and no Connection field
    /// has the token `close`.
    pub keep: bool,
}

/// What stands at the front of a connection's bytes.
#[derive(Clone, Copy, Debug)]
pub enum Head {
    /// A whole head: its number of bytes, empty lines before it counted, and its request.
    Whole(usize, Request),
    /// Less than a head: more bytes are needed.
    Part,
    /// The fault for which these bytes are refused.
    Bad(HeadFault),
}

/// The most fields that 8,192 bytes can hold: each takes at least three bytes.
const ANY_FIELDS: usize = 2731;

/// Returns the first 8,192 bytes, which alone are parsed.
fn front(bytes: &[u8]) -> &[u8]
    ensures { result.now ≡ take 8192 bytes.now }
{
    if bytes.len() < MOST_BYTES {
        bytes
    } else {
        &bytes[..MOST_BYTES]
    }
}

/// Returns the result for `bytes` in which a head hasn't ended.
fn unfinished(bytes: &[u8]) -> Head
    ensures value { head_value bytes.now result ≡ unfinished bytes.now }
    ensures within { LiesIn bytes.now result }
{
    if bytes.len() < MOST_BYTES {
        Head::Part
    } else {
        Head::Bad(HeadFault::HeadTooLarge)
    }
}

/// Returns the result for `bytes` whose prefix `start` begins no head. If it ends in a target, that is unfinished, whatever
/// its bytes: whether they are UTF-8 is judged at the target's end.
fn malformed(bytes: &[u8], start: &[u8]) -> Head
    requires front { start.now ≡ take 8192 bytes.now }
    requires never { NeverHasRequest start.now }
    ensures value { head_value bytes.now result ≡ head_of bytes.now }
    ensures within { LiesIn bytes.now result }
{
    if ends_in_target(start) {
        unfinished(bytes)
    } else {
        Head::Bad(HeadFault::BadHead)
    }
}

/// Returns the result for `bytes` whose prefix `start` has more than 64 fields, if it begins a head at all. Parses it once
/// more with room for all of them, so that a malformed head is BadHead however many it has. Only this function takes that
/// much stack.
#[inline(never)]
fn many_fields(bytes: &[u8], start: &[u8]) -> Head
    requires front { start.now ≡ take 8192 bytes.now }
    requires many { RequestOverflows 64 start.now }
    ensures value { head_value bytes.now result ≡ head_of bytes.now }
    ensures within { LiesIn bytes.now result }
{
    let mut headers = [EMPTY_HEADER_SPAN; ANY_FIELDS];
    match parse_request(start, &mut headers) {
        Ok(Status::Complete(_)) => Head::Bad(HeadFault::HeadTooLarge),
        Ok(Status::Partial) => unfinished(bytes),
        Err(error) => match error {
            Error::TooManyHeaders => unreachable!(),
            _ => malformed(bytes, start),
        },
    }
}

/// Returns the request of a whole head, or its first fault.
fn judge(bytes: &[u8], fields: &[HeaderSpan], spans: RequestSpans) -> Head
    requires len { spans.len ≤ length bytes.now }
    requires some { 0 < spans.len }
    requires method { in_head.IsWithin spans.len spans.method }
    requires path { in_head.IsWithin spans.len spans.path }
    requires fields { All (IsHeaderWithin (length bytes.now)) fields.now }
    ensures parts { head_value bytes.now result ≡ judged_parts spans.len (span_bytes bytes.now spans.method) (span_bytes bytes.now spans.path) spans.version (map (header_bytes bytes.now) fields.now) }
    ensures within { LiesIn bytes.now result }
{
    if fields.len() > MOST_FIELDS {
        return Head::Bad(HeadFault::HeadTooLarge);
    }
    if spans.version == 1 && hosts(bytes, fields) != 1 {
        return Head::Bad(HeadFault::BadHost);
    }
    if spans.method.of(bytes) != Method::GET.as_str().as_bytes() {
        return Head::Bad(HeadFault::BadMethod);
    }
    if any_tells_body(bytes, fields) {
        return Head::Bad(HeadFault::BadBody);
    }
    let request = Request {
        from: spans.path.start,
        to: spans.path.end,
        keep: spans.version == 1 && !any_tells_close(bytes, fields),
    };
    Head::Whole(spans.len, request)
}

/// Parses the head at the front of `bytes`, of which it looks at the first 8,192 at most.
pub fn next_head(bytes: &[u8]) -> Head
    ensures value { head_value bytes.now result ≡ head_of bytes.now }
    ensures within { LiesIn bytes.now result }
{
    let start = front(bytes);
    let mut headers = [EMPTY_HEADER_SPAN; MOST_FIELDS];
    match parse_request(start, &mut headers) {
        Ok(Status::Complete(spans)) => judge(start, &headers[..spans.headers], spans),
        Ok(Status::Partial) => unfinished(bytes),
        Err(error) => match error {
            Error::TooManyHeaders => many_fields(bytes, start),
            _ => malformed(bytes, start),
        },
    }
}
