//! Reads the fields of boxes.
ghost use Rattle.std.specs.Prelude.{◌≡◌, ◌≤◌, ◌+◌, MatchResult, Ok, Err};
ghost use Rattle.ll_codecs.specs.Fields as spec;
ghost use Rattle.ll_mp4.specs.Numbers as number;

use byteorder::{BigEndian, ByteOrder};
use ll_mp4::StreamFault;

/// Reads the byte at `place`.
pub(crate) fn byte_at(place: usize, bytes: &[u8]) -> Result<u8, StreamFault>
    ensures { result ≡ spec.byte_at place bytes.now }
{
    if place < bytes.len() {
        Ok(bytes[place])
    } else {
        Err(StreamFault::BadBox)
    }
}

/// Reads the 16-bit number at byte `place`.
pub(crate) fn short_at(place: u32, bytes: &[u8]) -> Result<u16, StreamFault>
    ensures { result ≡ spec.short_at place bytes.now }
{
    let place = place as usize;
    if bytes.len() < place + 2 {
        return Err(StreamFault::BadBox);
    }
    Ok(BigEndian::read_u16(&bytes[place..]))
}

/// Reads the 32-bit number at byte `place`.
pub(crate) fn number_at(place: u32, bytes: &[u8]) -> Result<u32, StreamFault>
    ensures { result ≡ number.number_at place bytes.now }
{
    let place = place as usize;
    if bytes.len() < place + 4 {
        return Err(StreamFault::BadBox);
    }
    Ok(BigEndian::read_u32(&bytes[place..]))
}

/// Returns the bytes from `place` on.
pub(crate) fn from(place: usize, bytes: &[u8]) -> Result<&[u8], StreamFault>
    ensures { MatchResult result (λ rest. spec.from place bytes.now ≡ Ok rest.now) (λ fault. spec.from place bytes.now ≡ Err fault) }
{
    if bytes.len() < place {
        return Err(StreamFault::BadBox);
    }
    Ok(&bytes[place..])
}
