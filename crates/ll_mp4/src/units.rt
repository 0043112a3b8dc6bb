//! Finds where a unit ends, and the `mfra` boxes before it.
ghost use Rattle.std.specs.Prelude.{◌≡◌, ◌≤◌, ◌==◌, IfOk, IfSome, length};
ghost use Rattle.ll_mp4.specs.Boxes.{boxes};
ghost use Rattle.ll_mp4.specs.Lefts.{dropped, index_size};
ghost use Rattle.ll_mp4.specs.Units as spec;
ghost use Rattle.ll_mp4.specs.Units.{unit_found, unit_of};

use crate::boxes::read_head;
use crate::fault::StreamFault;
use crate::kind::Kind;

/// The most bytes of a unit.
pub const SIZE_LIMIT: usize = 1_048_576;

/// Returns the length in bytes of the unit at the front: the boxes up to the end of the first `moov` or `mdat` box. Returns `None` if not all of
/// it has come. Fails with `BadBox` or `TooLarge`.
pub fn read_unit(bytes: &[u8]) -> Result<Option<usize>, StreamFault>
    ensures told { unit_of bytes.now ≡ unit_found result }
    ensures within { IfOk result (λ unit. IfSome unit (λ size. size ≤ length bytes.now)) }
{
    let mut end = 0;
    let mut rest = bytes;
    'boxes: while let Some(head) = read_head(rest)? {
        if head.size > (SIZE_LIMIT - end) as u64 {
            return Err(StreamFault::TooLarge);
        }
        if head.size > rest.len() as u64 {
            return Ok(None);
        }
        let size = head.size as usize;
        end += size;
        (_, rest) = rest.split_at(size);
        if is_last(head.kind) {
            return Ok(Some(end));
        }
    }
    Ok(None)
}

/// Returns what follows the `mfra` boxes at the front (section 8.8.9), and the number of bytes of the last of them that haven't come.
pub(crate) fn after_index(bytes: &[u8]) -> (&[u8], u64)
    ensures { record { skip = result.1; unread = result.0.now } ≡ dropped (index_size (boxes bytes.now)) bytes.now }
{
    let mut rest = bytes;
    'boxes: while let Ok(Some(head)) = read_head(rest) {
        if head.kind != Kind::Mfra.code() {
            return (rest, 0);
        }
        let come = rest.len() as u64;
        if head.size > come {
            return (&[], head.size - come);
        }
        (_, rest) = rest.split_at(head.size as usize);
    }
    (rest, 0)
}

/// Returns whether a box of type `kind` ends a unit.
fn is_last(kind: u32) -> bool
    ensures { result ≡ spec.is_last kind }
{
    kind == Kind::Moov.code() || kind == Kind::Mdat.code()
}
