//! The answers to requests of the status port.
use http::StatusCode;
use ll_counts::{Health, Numbers};
use ll_wire::{Head, Request, next_head};
use std::alloc::{AllocError, Global};
use std::time::Clock;

/// The Content-Type of Prometheus' text format.
const METRICS: &str = "text/plain; version=0.0.4; charset=utf-8";

/// The Content-Type of other answers.
const PLAIN: &str = "text/plain; charset=utf-8";

/// What a request gets.
#[derive(Drop)]
struct Reply {
    status: StatusCode,
    kind: &'static str,
    body: String,
}

/// Returns the bytes of the answer to the request whose head `bytes` begin with, or `None` if more bytes are needed.
pub(crate) fn answer<R: Clock>(
    alloc: Global,
    numbers: &Numbers<'_, R>,
    bytes: &[u8],
) -> Result<Option<Vec<u8>>, AllocError> {
    let reply = match next_head(bytes) {
        Head::Part => return Ok(None),
        Head::Bad(fault) => named(alloc, fault.status(), fault.name())?,
        Head::Whole(_, request) => reply_to(alloc, numbers, target_in(bytes, request))?,
    };
    Ok(Some(reply.spell(alloc)?))
}

/// Returns the target of `request`, whose head `bytes` begin with; if it isn't a text, an empty one.
fn target_in(bytes: &[u8], request: Request) -> &str {
    let target = bytes.get(request.from..request.to).unwrap_or(b"");
    str::from_utf8(target).unwrap_or("")
}

/// Returns the reply to the request for `target`, whatever its query.
fn reply_to<R: Clock>(
    alloc: Global,
    numbers: &Numbers<'_, R>,
    target: &str,
) -> Result<Reply, AllocError> {
    let path = match target.split_once('?') {
        Some((path, _)) => path,
        None => target,
    };
    match path {
        "/metrics" => Ok(Reply {
            status: StatusCode::OK,
            kind: METRICS,
            body: numbers.metrics(alloc)?,
        }),
        "/health" => plain(alloc, StatusCode::OK, "ok"),
        _ => match path.strip_prefix("/health/") {
            Some(channel) => health(alloc, numbers, channel),
            None => named(alloc, StatusCode::NOT_FOUND, "NotFound"),
        },
    }
}

/// Returns the reply to the question whether the parts of the channel named `channel` come.
fn health<R: Clock>(
    alloc: Global,
    numbers: &Numbers<'_, R>,
    channel: &str,
) -> Result<Reply, AllocError> {
    match numbers.health(alloc, channel)? {
        Health::Unknown => named(alloc, StatusCode::NOT_FOUND, "NotFound"),
        Health::Well => plain(alloc, StatusCode::OK, "ok"),
        Health::Silent(names) => Ok(Reply {
            status: StatusCode::SERVICE_UNAVAILABLE,
            kind: PLAIN,
            body: names,
        }),
    }
}

/// Returns the reply whose body is `text`.
fn plain(alloc: Global, status: StatusCode, text: &str) -> Result<Reply, AllocError> {
    Ok(Reply {
        status,
        kind: PLAIN,
        body: String::from_str(alloc, text)?,
    })
}

/// Returns the reply whose body is `name` and LF.
fn named(alloc: Global, status: StatusCode, name: &str) -> Result<Reply, AllocError> {
    let mut reply = plain(alloc, status, name)?;
    reply.body.push_str("\n")?;
    Ok(reply)
}

impl Reply {
    /// Returns the reply as bytes: its head, and its body after it.
    fn spell(self, alloc: Global) -> Result<Vec<u8>, AllocError> {
        let Reply { status, kind, body } = self;
        let (code, length) = (status.as_str(), body.len());
        let reason = status.canonical_reason().unwrap_or("");
        let mut text = String::new(alloc);
        write!(text, "HTTP/1.1 {code} {reason}\r\nContent-Type: {kind}\r\n")?;
        write!(
            text,
            "Content-Length: {length}\r\nCache-Control: no-store\r\n"
        )?;
        if status == StatusCode::METHOD_NOT_ALLOWED {
            text.push_str("Allow: GET\r\n")?;
        }
        text.push_str("Connection: close\r\n\r\n")?;
        text.push_str(body.as_str())?;
        Ok(text.into_bytes())
    }
}
