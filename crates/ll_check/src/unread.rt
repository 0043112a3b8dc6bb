//! The part of a record that was read and isn't checked yet.
ghost use Rattle.std.specs.Prelude.{◌≡◌, ◌<◌, ◌+◌, ◌^◌, ◌++◌, ℕ, List, [], IfErr, IfOk, OnOk, false, length};
ghost use Rattle.std.specs.Io.KnownBytes.{IsAtEnd, Keeps, prepend_known};
ghost use Rattle.ll_check.specs.Unread.{IsReadFault};

use ll_device::Reader;
use std::alloc::{AllocError, Global};
use std::marker::Model;

/// The number of bytes by which the room for a piece grows.
const PIECE: usize = 65_536;

/// The largest number of reads of a record, after which a reader counts as endless.
const MOST_READS: u64 = 1 << 32;

/// Why no more of a record was read.
#[derive(Clone, Copy)]
pub enum RecordReadFault {
    /// A read failed.
    Read,
    /// The record didn't end within 2^32 reads.
    Endless,
    /// Out of memory for its longest line.
    Memory,
}

/// The part of a record that was read and isn't checked yet. Its memory depends on the longest line, not on the length of the record.
#[derive(Drop)]
pub struct Unread {
    bytes: Vec<u8>,
    /// The number of bytes that were checked.
    at: usize,
    /// Room for the piece that is read next.
    piece: Vec<u8>,
    /// The number of further reads.
    reads: u64,
}

impl Model for Unread {
    ghost use Rattle.std.specs.Prelude.{◌≤◌, ◌^◌, drop, length};
    ghost use Rattle.ll_check.specs.Unread.{UnreadValue};

    ghost Value = { UnreadValue };

    ghost view = { λ u. record { text = drop u.at u.bytes.items; reads = u.reads } };

    ghost invariant = { λ u. (u.at ≤ length u.bytes.items) × (u.reads ≤ 2 ^ 32) };
}

impl Unread {
    /// Returns the part of a record of which nothing was read.
    pub fn new(alloc: Global) -> Unread
        ensures text { result.text ≡ [] }
        ensures reads { result.reads ≡ 2 ^ 32 }
    {
        Unread {
            bytes: Vec::new(alloc),
            at: 0,
            piece: Vec::new(alloc),
            reads: MOST_READS,
        }
    }

    /// Returns its text.
    pub fn text(&self) -> &[u8]
        ensures { result.now ≡ self.now.text }
    {
        &self.bytes[self.at..]
    }

    /// Keeps the last `count` bytes, and drops those before them.
    pub fn keep(&mut self, count: usize)
        ensures text { (front rest : List ℕ) → self.old.text ≡ front ++ rest → count ≡ length rest → self.new.text ≡ rest }
        ensures reads { self.new.reads ≡ self.old.reads }
    {
        self.at = self.at.max(self.bytes.len().saturating_sub(count));
    }

    /// Reads once, and returns whether something came. If nothing did, `source` is at its end.
    pub fn read<R: Reader>(&mut self, source: &mut R) -> Result<bool, RecordReadFault>
        ensures same { OnOk result (Keeps (prepend_known self.old.text (R.left source.old)) (prepend_known self.new.text (R.left source.new))) }
        ensures end { IfOk result (λ came. came ≡ false → (self.new.text ≡ self.old.text) × IsAtEnd (R.left source.new)) }
        ensures fits { OnOk result (length self.new.text < 2 ^ 64) }
        ensures once { OnOk result ((self.new.reads + 1 ≡ self.old.reads) × (R.reads source.new ≡ R.reads source.old + 1)) }
        ensures steady { OnOk result (R.failures source.new ≡ R.failures source.old) }
        ensures fault { IfErr result (IsReadFault (R.failures source.old < R.failures source.new) ((self.old.reads ≡ 0) × (R.reads source.new ≡ R.reads source.old))) }
    {
        if self.reads == 0 {
            return Err(RecordReadFault::Endless);
        }
        if widen(&mut self.piece, &self.bytes[self.at..]).is_err() {
            return Err(RecordReadFault::Memory);
        }
        let Ok(count) = source.read(&mut self.piece) else {
            return Err(RecordReadFault::Read);
        };
        self.reads -= 1;
        if count == 0 {
            return Ok(false);
        }
        self.bytes.drain(..self.at);
        self.at = 0;
        match self.bytes.extend_from_slice(&self.piece[..count]) {
            Ok(()) => Ok(true),
            Err(AllocError) => Err(RecordReadFault::Memory),
        }
    }
}

/// Makes `piece` longer than `text`, so that a line of any length is read in few reads.
fn widen(piece: &mut Vec<u8>, text: &[u8]) -> Result<(), AllocError>
    ensures { OnOk result (length text.now < length piece.new.items) }
{
    if piece.len() <= text.len() {
        piece.resize(text.len() + PIECE, 0)?;
    }
    Ok(())
}
