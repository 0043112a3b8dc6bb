//! Bytes of a stream, which contracts see as a list.
ghost use Rattle.std.specs.Prelude.{◌≡◌, ◌++◌, [], IfOk, length};
ghost use Rattle.ll_shift.specs.Moved.{moved};

use ll_mp4::TimeScale;
use ll_shift::{Shift, push_moved};
use std::alloc::{AllocError, Global};
use std::marker::Model;

/// Some bytes of a stream.
pub struct Bytes(Vec<u8>);

impl Drop for Bytes {
    fn drop(self) {
        let Bytes(_all) = self;
    }
}

impl Model for Bytes {
    ghost use Rattle.std.specs.Prelude.{ℕ, List};

    ghost Value = { List ℕ };

    ghost view = { λ b. b.0.items };
}

impl Bytes {
    /// Makes an empty sequence of bytes.
    pub(crate) fn new(alloc: Global) -> Bytes
        ensures { result ≡ [] }
    {
        Bytes(Vec::new(alloc))
    }

    /// Appends `bytes`.
    pub(crate) fn add(&mut self, bytes: &[u8]) -> Result<(), AllocError>
        ensures { IfOk result (λ _. self.new ≡ self.old ++ bytes.now) }
    {
        self.0.extend_from_slice(bytes)
    }

    /// Returns the bytes.
    pub fn as_slice(&self) -> &[u8]
        ensures { result.now ≡ self.now }
    {
        &self.0
    }

    /// Returns the number of bytes.
    pub fn len(&self) -> usize
        ensures { result ≡ length self.now }
    {
        self.0.len()
    }

    /// Returns the bytes with their times moved by `shift`; `scales` are the time scales of their movie's
    /// tracks.
    pub(crate) fn moved(
        &self,
        alloc: Global,
        shift: &Shift,
        scales: &[TimeScale],
    ) -> Result<Bytes, AllocError>
        ensures { IfOk result (λ bytes. bytes ≡ moved shift.now scales.now self.now) }
    {
        let mut bytes = Vec::new(alloc);
        bytes.reserve(self.0.len())?;
        push_moved(&mut bytes, shift, scales, &self.0)?;
        Ok(Bytes(bytes))
    }

    /// Returns a copy of `bytes`.
    pub(crate) fn of(alloc: Global, bytes: &[u8]) -> Result<Bytes, AllocError>
        ensures { IfOk result (λ copy. copy ≡ bytes.now) }
    {
        let mut copy = Bytes::new(alloc);
        copy.add(bytes)?;
        Ok(copy)
    }

    /// Returns the bytes followed by those of `later`.
    pub(crate) fn with(mut self, later: Bytes) -> Result<Bytes, AllocError>
        ensures { IfOk result (λ both. both ≡ self ++ later) }
    {
        if self.0.is_empty() {
            return Ok(later);
        }
        self.add(later.as_slice())?;
        Ok(self)
    }
}
