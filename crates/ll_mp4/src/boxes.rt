//! Reads boxes: their headers, and those of one type in the content of another (section 4.2).
ghost use Rattle.std.specs.Prelude.{◌≡◌, ◌<◌, ◌≤◌, IfErr, IfOk, IfSome, MatchResult, Ok, Err, length, option_map};
ghost use Rattle.ll_mp4.specs.Boxes as spec;
ghost use Rattle.ll_mp4.specs.Boxes.{contents_in, front_of, header_of};
ghost use Rattle.ll_mp4.specs.Found.{found, from_next, inner};

use crate::fault::StreamFault;
use crate::kind::Kind;
use byteorder::{BigEndian, ByteOrder};

/// A box's header.
#[derive(Clone, Copy)]
pub struct BoxHead {
    /// The four bytes of the type as a big-endian number.
    pub kind: u32,
    /// The length of the header, in bytes.
    pub len: usize,
    /// The length of the box, in bytes: header and content.
    pub size: u64,
}

/// A box in the content of another, and the bytes after it.
#[derive(Clone, Copy)]
pub struct FoundBox<'a> {
    /// The four bytes of its type as a big-endian number.
    pub kind: u32,
    /// Its content.
    pub content: &'a [u8],
    /// The bytes after it.
    pub rest: &'a [u8],
}

/// Reads the header at the front of `bytes`, or returns `None` if some of its bytes are missing.
pub fn read_head(bytes: &[u8]) -> Result<Option<BoxHead>, StreamFault>
    ensures told { result ≡ header_of bytes.now }
    ensures least { IfOk result (λ head. IfSome head (λ h. 8 ≤ h.size)) }
    ensures fault { IfErr result (λ fault. fault ≡ StreamFault.BadBox) }
{
    if bytes.len() < 8 {
        return Ok(None);
    }
    let kind = BigEndian::read_u32(&bytes[4..]);
    let size = BigEndian::read_u32(bytes);
    if size != 1 {
        return sized(kind, 8, size as u64);
    }
    if bytes.len() < 16 {
        return Ok(None);
    }
    sized(kind, 16, BigEndian::read_u64(&bytes[8..]))
}

/// Returns the header of a box of `size` bytes, or `BadBox` if that is less than the header's `len`.
fn sized(kind: u32, len: usize, size: u64) -> Result<Option<BoxHead>, StreamFault>
    ensures told { result ≡ spec.sized kind len size }
    ensures least { IfOk result (λ head. IfSome head (λ h. len ≤ h.size)) }
    ensures fault { IfErr result (λ fault. fault ≡ StreamFault.BadBox) }
{
    if size < len as u64 {
        return Err(StreamFault::BadBox);
    }
    Ok(Some(BoxHead { kind, len, size }))
}

/// Reads the box at the front of `bytes`, which must be whole boxes; returns `None` if `bytes` are empty.
pub fn read_front(bytes: &[u8]) -> Result<Option<FoundBox<'_>>, StreamFault>
    ensures told { found result ≡ inner (front_of bytes.now) }
    ensures fault { IfErr result (λ fault. fault ≡ StreamFault.BadBox) }
    ensures shorter { IfOk result (λ front. IfSome front (λ f. length f.rest.now < length bytes.now)) }
{
    if bytes.is_empty() {
        return Ok(None);
    }
    let Some(head) = read_head(bytes)? else {
        return Err(StreamFault::BadBox);
    };
    if (bytes.len() as u64) < head.size {
        return Err(StreamFault::BadBox);
    }
    let (front, rest) = bytes.split_at(head.size as usize);
    let (_, content) = front.split_at(head.len);
    Ok(Some(FoundBox {
        kind: head.kind,
        content,
        rest,
    }))
}

/// Finds the first box of type `kind` in `bytes`, and returns its content and what follows it.
#[tactic(auto, using(crate::proofs::BoxLemmas::contents_front))]
pub fn next_of(kind: Kind, bytes: &[u8]) -> Result<Option<(&[u8], &[u8])>, StreamFault>
    ensures told { contents_in kind bytes.now ≡ from_next kind result }
    ensures fault { IfErr result (λ fault. fault ≡ StreamFault.BadBox) }
    ensures shorter { IfOk result (λ next. IfSome next (λ n. length n.1.now < length bytes.now)) }
{
    let code = kind.code();
    let mut rest = bytes;
    'boxes: while let Some(front) = read_front(rest)? {
        rest = front.rest;
        if front.kind == code {
            return Ok(Some((front.content, rest)));
        }
    }
    Ok(None)
}

/// Finds the box of type `kind` in `bytes`, of which at most one is allowed, and returns its content. Fails
/// with `BadBox` or `Several(kind)`.
pub fn at_most_one(kind: Kind, bytes: &[u8]) -> Result<Option<&[u8]>, StreamFault>
    ensures { MatchResult result (λ content. spec.at_most_one kind bytes.now ≡ Ok (option_map (λ c. c.now) content))
        (λ fault. spec.at_most_one kind bytes.now ≡ Err fault) }
{
    let Some((content, rest)) = next_of(kind, bytes)? else {
        return Ok(None);
    };
    match next_of(kind, rest)? {
        None => Ok(Some(content)),
        Some(_) => Err(StreamFault::Several(kind)),
    }
}

/// Finds the only box of type `kind` in `bytes`, and returns its content. Fails with `BadBox`,
/// `Several(kind)` or `Missing(kind)`.
pub fn only(kind: Kind, bytes: &[u8]) -> Result<&[u8], StreamFault>
    ensures { MatchResult result (λ content. spec.only kind bytes.now ≡ Ok content.now) (λ fault. spec.only kind bytes.now ≡ Err fault) }
{
    match at_most_one(kind, bytes)? {
        Some(content) => Ok(content),
        None => Err(StreamFault::Missing(kind)),
    }
}
