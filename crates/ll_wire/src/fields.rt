//! What a head's fields say of the host, of a body and of the connection (RFC 9112, sections 3.2, 6 and 9).
ghost use Rattle.std.specs.Prelude.{◌≡◌, All, length, map, count_by};
ghost use Rattle.std.specs.List.{list_any};
ghost use Rattle.ll_attr.specs.Words.{pieces_at};
ghost use Rattle.httparse.specs.Spans.{IsHeaderWithin, header_bytes};
ghost use Rattle.ll_wire.specs.Heads as spec;

use httparse::spans::HeaderSpan;

fn is_host(bytes: &[u8], field: HeaderSpan) -> bool
    requires { IsHeaderWithin (length bytes.now) field }
    ensures { result ≡ spec.is_host (header_bytes bytes.now field) }
{
    field.name.of(bytes).eq_ignore_ascii_case(b"Host")
}

/// Returns whether `field` says that a body follows.
fn tells_body(bytes: &[u8], field: HeaderSpan) -> bool
    requires { IsHeaderWithin (length bytes.now) field }
    ensures { result ≡ spec.tells_body (header_bytes bytes.now field) }
{
    let name = field.name.of(bytes);
    if name.eq_ignore_ascii_case(b"Transfer-Encoding") {
        true
    } else {
        name.eq_ignore_ascii_case(b"Content-Length") && field.value.of(bytes) != b"0".as_slice()
    }
}

/// Returns whether `field` says that the connection is closed after the answer.
fn tells_close(bytes: &[u8], field: HeaderSpan) -> bool
    requires { IsHeaderWithin (length bytes.now) field }
    ensures { result ≡ spec.tells_close (header_bytes bytes.now field) }
{
    field.name.of(bytes).eq_ignore_ascii_case(b"Connection") && has_close(field.value.of(bytes))
}

/// Returns whether the comma-separated list `value` has the token `close`.
fn has_close(value: &[u8]) -> bool
    ensures { result ≡ list_any spec.is_close (pieces_at 44 value.now) }
{
    value.split(|b| *b == b',').any(|member| is_close(member))
}

/// Returns whether `member` is the token `close`, in either case of letters.
fn is_close(member: &[u8]) -> bool
    ensures { result ≡ spec.is_close member.now }
{
    member.trim_ascii().eq_ignore_ascii_case(b"close")
}

/// Returns the number of fields named Host.
pub(crate) fn hosts(bytes: &[u8], fields: &[HeaderSpan]) -> usize
    requires { All (IsHeaderWithin (length bytes.now)) fields.now }
    ensures { result ≡ count_by spec.is_host (map (header_bytes bytes.now) fields.now) }
{
    let mut count = 0;
    for field in fields {
        if is_host(bytes, *field) {
            count += 1;
        }
    }
    count
}

/// Returns whether one of `fields` says that the connection is closed after the answer.
pub(crate) fn any_tells_close(bytes: &[u8], fields: &[HeaderSpan]) -> bool
    requires { All (IsHeaderWithin (length bytes.now)) fields.now }
    ensures { result ≡ list_any spec.tells_close (map (header_bytes bytes.now) fields.now) }
{
    for field in fields {
        if tells_close(bytes, *field) {
            return true;
        }
    }
    false
}

/// Returns whether one of `fields` says that a body follows.
pub(crate) fn any_tells_body(bytes: &[u8], fields: &[HeaderSpan]) -> bool
    requires { All (IsHeaderWithin (length bytes.now)) fields.now }
    ensures { result ≡ list_any spec.tells_body (map (header_bytes bytes.now) fields.now) }
{
    for field in fields {
        if tells_body(bytes, *field) {
            return true;
        }
    }
    false
}
