//! Cuts bytes into boxes and writes boxes again (section 4.2).
ghost use Rattle.std.specs.Prelude.{◌≡◌, ◌++◌, ◌+◌, ◌≤◌, ◌<◌, IfOk, IfSome, length};
ghost use Rattle.byteorder.specs.Endian.{big_bytes};
ghost use Rattle.ll_shift.specs.Found.{IsBox, box_of, cut};
ghost use Rattle.ll_shift.specs.Pieces as spec;
ghost use Rattle.ll_shift.specs.Pieces.{front};

use byteorder::{BigEndian, ByteOrder};
use ll_mp4::read_head;
use std::alloc::AllocError;

/// A box, and the bytes after it.
#[derive(Clone, Copy)]
pub(crate) struct Piece<'a> {
    /// The four bytes of its type as a big-endian number.
    pub(crate) kind: u32,
    pub(crate) header: &'a [u8],
    pub(crate) content: &'a [u8],
    pub(crate) rest: &'a [u8],
}

/// Returns the box at the front of `bytes`, if it is whole.
pub(crate) fn cut_front(bytes: &[u8]) -> Option<Piece<'_>>
    ensures told { front bytes.now ≡ cut result }
    ensures proper { IfSome result (λ p. IsBox (box_of p)) }
    ensures sum { IfSome result (λ p. length p.header.now + length p.content.now + length p.rest.now ≡ length bytes.now) }
{
    let Ok(Some(head)) = read_head(bytes) else {
        return None;
    };
    if (bytes.len() as u64) < head.size {
        return None;
    }
    let (all, rest) = bytes.split_at(head.size as usize);
    let (header, content) = all.split_at(head.len);
    Some(Piece {
        kind: head.kind,
        header,
        content,
        rest,
    })
}

/// Appends a box to `out`, unchanged.
pub(crate) fn push_whole(out: &mut Vec<u8>, piece: Piece<'_>) -> Result<(), AllocError>
    ensures { IfOk result (λ _. out.new.items ≡ out.old.items ++ spec.whole (box_of piece.entry)) }
{
    out.extend_from_slice(piece.header)?;
    out.extend_from_slice(piece.content)
}

/// Appends the header of a box that grows by `more` bytes to `out`.
pub(crate) fn push_grown(out: &mut Vec<u8>, piece: Piece<'_>, more: u64) -> Result<(), AllocError>
    requires proper { IsBox (box_of piece) }
    requires few { more ≤ length piece.content.now }
    ensures { IfOk result (λ _. out.new.items ≡ out.old.items ++ spec.grown (box_of piece.entry) more) }
{
    let size = piece.header.len() as u64 + piece.content.len() as u64 + more;
    if piece.header.len() == 16 {
        out.extend_from_slice(&piece.header[..8])?;
        return push_long(out, size);
    }
    push_word(out, size)?;
    out.extend_from_slice(&piece.header[4..])
}

/// Appends the lowest 32 bits of `number` to `out`, big-endian.
pub(crate) fn push_word(out: &mut Vec<u8>, number: u64) -> Result<(), AllocError>
    ensures { IfOk result (λ _. out.new.items ≡ out.old.items ++ big_bytes 4 number) }
{
    let mut bytes = [0; 8];
    BigEndian::write_u64(&mut bytes, number);
    out.extend_from_slice(&bytes[4..])
}

/// Appends the 64 bits of `number` to `out`, big-endian.
pub(crate) fn push_long(out: &mut Vec<u8>, number: u64) -> Result<(), AllocError>
    ensures { IfOk result (λ _. out.new.items ≡ out.old.items ++ big_bytes 8 number) }
{
    let mut bytes = [0; 8];
    BigEndian::write_u64(&mut bytes, number);
    out.extend_from_slice(&bytes)
}
