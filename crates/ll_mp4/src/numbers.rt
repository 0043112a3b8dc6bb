//! Reads the fields of boxes: big-endian numbers, and flags that say which fields are present.
ghost use Rattle.std.specs.Prelude.{◌≡◌, ◌≤◌, ◌+◌};
ghost use Rattle.ll_mp4.specs.Numbers as spec;

use crate::fault::StreamFault;
use byteorder::{BigEndian, ByteOrder};

/// Reads the 32-bit number at byte `place`.
pub(crate) fn number_at(place: u32, bytes: &[u8]) -> Result<u32, StreamFault>
    ensures { result ≡ spec.number_at place bytes.now }
{
    let place = place as usize;
    if bytes.len() < place + 4 {
        return Err(StreamFault::BadBox);
    }
    Ok(BigEndian::read_u32(&bytes[place..]))
}

/// Reads the 64-bit number at byte `place`.
pub(crate) fn large_number_at(place: u32, bytes: &[u8]) -> Result<u64, StreamFault>
    ensures { result ≡ spec.large_number_at place bytes.now }
{
    let place = place as usize;
    if bytes.len() < place + 8 {
        return Err(StreamFault::BadBox);
    }
    Ok(BigEndian::read_u64(&bytes[place..]))
}

/// Returns whether `flags` has the bit `flag`.
pub(crate) fn has(flags: u32, flag: u32) -> bool
    ensures { result ≡ spec.has flags flag }
{
    flags & flag != 0
}

/// Returns the length of a field that has `bytes` bytes if `flags` has the bit `flag`, and is absent
/// otherwise.
pub(crate) fn room(flags: u32, flag: u32, bytes: u32) -> u32
    ensures told { result ≡ spec.room flags flag bytes }
    ensures few { result ≤ bytes }
{
    if has(flags, flag) { bytes } else { 0 }
}

/// Reads the 32-bit number at byte `place` if `stands`; otherwise returns `default`.
pub(crate) fn number_or(
    stands: bool,
    place: u32,
    bytes: &[u8],
    default: u32,
) -> Result<u32, StreamFault>
    ensures { result ≡ spec.number_or stands place bytes.now default }
{
    if stands {
        number_at(place, bytes)
    } else {
        Ok(default)
    }
}
