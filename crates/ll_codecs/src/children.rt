//! Finds boxes in the content of another (ISO/IEC 14496-12, section 4.2).
ghost use Rattle.std.specs.Prelude.{◌≡◌, MatchResult, Ok, Err};
ghost use Rattle.ll_codecs.specs.Children as spec;
ghost use Rattle.ll_codecs.specs.Children.{found_front};

use ll_mp4::{FoundBox, StreamFault, read_front};

/// Reads the box at the front of `bytes`, which must be whole boxes.
pub(crate) fn front(bytes: &[u8]) -> Result<FoundBox<'_>, StreamFault>
    ensures { found_front result ≡ spec.front bytes.now }
{
    match read_front(bytes)? {
        Some(found) => Ok(found),
        None => Err(StreamFault::BadBox),
    }
}

/// Returns the content of the first box in `bytes` whose type is `kind`.
pub(crate) fn child(kind: u32, bytes: &[u8]) -> Result<&[u8], StreamFault>
    ensures { MatchResult result (λ content. spec.child kind bytes.now ≡ Ok content.now) (λ fault. spec.child kind bytes.now ≡ Err fault) }
{
    let mut rest = bytes;
    'boxes: while let Some(front) = read_front(rest)? {
        rest = front.rest;
        if front.kind == kind {
            return Ok(front.content);
        }
    }
    Err(StreamFault::BadBox)
}
