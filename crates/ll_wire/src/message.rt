//! Writes the response with an answer (RFC 9112, section 4).
ghost use Rattle.std.specs.Prelude.{◌≡◌, ◌++◌, IfOk, OnOk, string_bytes};
ghost use Rattle.http.specs.StatusCode.{IsStatusCode};
ghost use Rattle.ll_page.specs.Page.{page_text};
ghost use Rattle.ll_wire.specs.Parts.{bytes_of};
ghost use Rattle.ll_wire.specs.Response as spec;

use crate::answer::Answer;
use crate::body::{Body, Response};
use crate::media::MediaBody;
use http::StatusCode;
use ll_page::Page;
use ll_store::Blocks;
use ll_verdict::Reply;
use std::alloc::{AllocError, Global};

/// The capacity in bytes for the head of a response: none is longer.
const HEAD: usize = 256;

/// Returns the response with `answer` (RFC 9112, section 4). It says by `keep` whether the connection is kept; its body is the
/// playlist or the media, shared with `answer`, or the name of the refusal and LF. Fails also if the bytes of media aren't known.
pub fn response(alloc: Global, answer: &Answer, keep: bool) -> Result<Response, AllocError>
    ensures { IfOk result (λ message. bytes_of message ≡ spec.response_bytes answer.now keep) }
{
    match answer {
        Answer::Reply(reply) => reply_response(alloc, reply, keep),
        Answer::Unavailable(reason) => {
            refusal(alloc, StatusCode::SERVICE_UNAVAILABLE, reason.name(), keep)
        }
        Answer::Target(fault) => refusal(alloc, code_of(fault.status()), fault.name(), keep),
        Answer::Head(fault) => refusal(alloc, fault.status(), fault.name(), keep),
    }
}

/// Returns the response with the reply of a channel.
fn reply_response(alloc: Global, reply: &Reply, keep: bool) -> Result<Response, AllocError>
    ensures { IfOk result (λ message. bytes_of message ≡ spec.reply_bytes reply.now keep) }
{
    match reply {
        Reply::Text(page) => playlist(alloc, page, keep),
        Reply::Media(piece) => media(alloc, &piece.bytes, keep),
        Reply::NotFound | Reply::TooFar | Reply::Busy | Reply::Timeout => {
            refusal(alloc, code_of(reply.status()), reply.name(), keep)
        }
    }
}

/// Returns the response with a playlist, whose text it shares.
fn playlist(alloc: Global, page: &Page, keep: bool) -> Result<Response, AllocError>
    ensures { IfOk result (λ message. bytes_of message ≡ spec.message 200 (page_text page.now) keep) }
{
    let head = head(alloc, StatusCode::OK, page.text().len(), keep)?;
    Ok(Response {
        head: head.into_bytes(),
        body: Body::Playlist(page.shared_text()?),
    })
}

/// Returns the response with media, whose blocks it shares.
fn media(alloc: Global, bytes: &Blocks, keep: bool) -> Result<Response, AllocError>
    ensures { IfOk result (λ message. bytes_of message ≡ spec.media_message bytes.now keep) }
{
    let head = media_head(alloc, bytes.len(), keep)?;
    Ok(Response {
        head: head.into_bytes(),
        body: Body::Media(MediaBody::new(alloc, bytes)?),
    })
}

/// Returns the response with a refusal, whose body is `name` and LF.
fn refusal(
    alloc: Global,
    status: StatusCode,
    name: &str,
    keep: bool,
) -> Result<Response, AllocError>
    ensures { IfOk result (λ message. bytes_of message ≡ spec.message status (spec.named name.now) keep) }
{
    let mut text = head(alloc, status, name.len() + 1, keep)?;
    text.push_str(name)?;
    text.push_str("\n")?;
    Ok(Response {
        head: text.into_bytes(),
        body: Body::Nothing,
    })
}

/// Returns all lines before a body of `length` bytes.
fn head(alloc: Global, status: StatusCode, length: usize, keep: bool) -> Result<String, AllocError>
    ensures { IfOk result (λ text. string_bytes text ≡ spec.lines status length keep) }
{
    let mut text = first_lines(alloc, status, content_type(status), length as u64)?;
    push_last_lines(&mut text, "no-cache", allow_line(status), kept_word(keep))?;
    Ok(text)
}

/// Returns all lines before `length` bytes of media.
fn media_head(alloc: Global, length: u64, keep: bool) -> Result<String, AllocError>
    ensures { IfOk result (λ text. string_bytes text ≡ spec.media_lines length keep) }
{
    let mut text = first_lines(alloc, StatusCode::OK, "video/mp4", length)?;
    push_last_lines(&mut text, "max-age=60", "", kept_word(keep))?;
    Ok(text)
}

/// Returns the status line, Content-Type and Content-Length.
#[tactic(auto, unfolding(crate::specs::Response::first_lines))]
fn first_lines(
    alloc: Global,
    status: StatusCode,
    kind: &str,
    length: u64,
) -> Result<String, AllocError>
    ensures { IfOk result (λ text. string_bytes text ≡ spec.first_lines (spec.status_words status) kind.now length) }
{
    let mut text = String::with_capacity(alloc, HEAD)?;
    let (code, reason) = (status.as_str(), reason(status));
    write!(
        text,
        "HTTP/1.1 {code} {reason}\r\nContent-Type: {kind}\r\nContent-Length: {length}\r\n"
    )?;
    Ok(text)
}

/// Returns the reason phrase of a status, empty if it has none.
#[tactic(auto, unfolding(crate::specs::Response::reason))]
fn reason(status: StatusCode) -> &'static str
    ensures { result.now ≡ spec.reason status }
{
    match status.canonical_reason() {
        Some(reason) => reason,
        None => "",
    }
}

/// Adds the other fields and the empty line to `text`.
#[tactic(auto, unfolding(crate::specs::Response::last_lines))]
fn push_last_lines(
    text: &mut String,
    caching: &str,
    allow: &str,
    kept: &str,
) -> Result<(), AllocError>
    ensures { OnOk result (string_bytes text.new ≡ string_bytes text.old ++ spec.last_lines caching.now allow.now kept.now) }
{
    write!(
        text,
        "Cache-Control: {caching}\r\n{allow}Connection: {kept}\r\n\r\n"
    )
}

/// Returns the status code of the number `status`.
fn code_of(status: u16) -> StatusCode
    requires { IsStatusCode status }
    ensures { result ≡ status }
{
    match StatusCode::from_u16(status) {
        Ok(code) => code,
        Err(_) => unreachable!(),
    }
}

/// Returns the Content-Type of a response without media.
fn content_type(status: StatusCode) -> &'static str
    ensures { result.now ≡ spec.content_type status }
{
    if status == StatusCode::OK {
        "application/vnd.apple.mpegurl"
    } else {
        "text/plain"
    }
}

/// Returns the Allow line if `status` refuses a method, and else an empty text.
fn allow_line(status: StatusCode) -> &'static str
    ensures { result.now ≡ spec.allow_line status }
{
    if status == StatusCode::METHOD_NOT_ALLOWED {
        "Allow: GET\r\n"
    } else {
        ""
    }
}

fn kept_word(keep: bool) -> &'static str
    ensures { result.now ≡ spec.kept_word keep }
{
    if keep { "keep-alive" } else { "close" }
}
