//! Bytes with several holders.
ghost use Rattle.std.specs.Prelude.{◌≡◌, [], IfOk, length};

use std::alloc::{AllocError, Global};
use std::marker::Model;
use std::sync::ArcSlice;

/// Contiguous bytes that all their holders share. An empty value takes no memory.
pub struct SharedBytes {
    bytes: Option<ArcSlice<u8>>,
}

impl Drop for SharedBytes {
    fn drop(self) {
        let SharedBytes { bytes: _bytes } = self;
    }
}

impl Model for SharedBytes {
    ghost use Rattle.std.specs.Prelude.{ℕ, List, option_map};
    ghost use Rattle.std.specs.Arc.{arc_slice_items};
    ghost use Rattle.ll_item.specs.Media.{held};

    ghost Value = { List ℕ };

    ghost view = { λ b. held (option_map arc_slice_items b.bytes) };
}

impl SharedBytes {
    /// Returns no bytes.
    pub fn none() -> SharedBytes
        ensures { result ≡ [] }
    {
        SharedBytes { bytes: None }
    }

    /// Copies `bytes`.
    pub fn of(alloc: Global, bytes: &[u8]) -> Result<SharedBytes, AllocError>
        ensures { IfOk result (λ block. block ≡ bytes.now) }
    {
        if bytes.is_empty() {
            return Ok(SharedBytes::none());
        }
        Ok(SharedBytes {
            bytes: Some(ArcSlice::from_slice(alloc, bytes)?),
        })
    }

    /// Returns the number of bytes.
    pub fn len(&self) -> usize
        ensures { result ≡ length self.now }
    {
        self.as_slice().len()
    }

    /// Returns the bytes.
    pub fn as_slice(&self) -> &[u8]
        ensures { result.now ≡ self.now }
    {
        match &self.bytes {
            Some(bytes) => bytes.as_slice(),
            None => &[],
        }
    }

    /// Returns another handle of the same bytes.
    pub fn again(&self) -> Result<SharedBytes, AllocError>
        ensures { IfOk result (λ block. block ≡ self.now) }
    {
        match &self.bytes {
            Some(bytes) => Ok(SharedBytes {
                bytes: Some(bytes.clone()?),
            }),
            None => Ok(SharedBytes::none()),
        }
    }
}
