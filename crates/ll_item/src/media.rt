//! The bytes of items.
ghost use Rattle.std.specs.Prelude.{◌≡◌, ◌≤◌, ◌==◌, IfOk, IfSome, MatchOption, [], false, length, nat_le, true};
ghost use Rattle.ll_item.specs.Media.{IsNumberAlone, media_limit, zeros};

use crate::shared_bytes::SharedBytes;
use std::alloc::{AllocError, Global};
use std::marker::Model;

/// The largest number of bytes of an item.
pub const MEDIA_LIMIT: u64 = 1_048_576;

/// Bytes that an item is read with, 1,048,576 at most: as they came, or zeros if only their number is known.
#[derive(Drop)]
pub struct Payload<'a> {
    offered: Offered<'a>,
}

/// The contents of a payload.
#[derive(Drop)]
enum Offered<'a> {
    /// The bytes as they came.
    Bytes(&'a [u8]),
    /// The number of zeros.
    Zeros(u64),
}

impl<'a> Model for Payload<'a> {
    ghost use Rattle.std.specs.Prelude.{ℕ, List, length, ◌≤◌};
    ghost use Rattle.ll_item.specs.Media.{media_limit};
    ghost use Rattle.ll_item.specs.Contents.{offered_bytes};

    ghost Value = { List ℕ };

    ghost view = { λ p. offered_bytes p.offered };

    ghost invariant = { λ p. length (offered_bytes p.offered) ≤ media_limit };
}

impl<'a> Payload<'a> {
    /// Returns no bytes.
    pub fn none() -> Payload<'a>
        ensures { result ≡ [] }
    {
        Payload {
            offered: Offered::Zeros(0),
        }
    }

    /// Returns `bytes`, or `None` if there are more than 1,048,576.
    pub fn of_bytes(bytes: &'a [u8]) -> Option<Payload<'a>>
        ensures { MatchOption result (nat_le (length bytes.now) media_limit ≡ false)
            (λ payload. (payload ≡ bytes.now) × (nat_le (length bytes.now) media_limit ≡ true)) }
    {
        if bytes.len() as u64 <= MEDIA_LIMIT {
            Some(Payload {
                offered: Offered::Bytes(bytes),
            })
        } else {
            None
        }
    }

    /// Returns `length` zeros, or `None` if that is more than 1,048,576.
    pub fn of_length(length: u64) -> Option<Payload<'a>>
        ensures { MatchOption result (nat_le length media_limit ≡ false)
            (λ payload. (payload ≡ zeros length) × (nat_le length media_limit ≡ true)) }
    {
        if length <= MEDIA_LIMIT {
            Some(Payload {
                offered: Offered::Zeros(length),
            })
        } else {
            None
        }
    }

    /// Returns whether there are no bytes.
    pub fn is_empty(&self) -> bool
        ensures { result ≡ (length self.now == 0) }
    {
        match &self.offered {
            Offered::Bytes(bytes) => bytes.is_empty(),
            Offered::Zeros(length) => *length == 0,
        }
    }
}

/// The bytes of an item, 1,048,576 at most, shared by all their holders.
pub struct Media {
    kept: Kept,
}

impl Drop for Media {
    fn drop(self) {
        let Media { kept: _kept } = self;
    }
}

/// The bytes of an item as they are kept.
enum Kept {
    /// The block that all holders share.
    Shared(SharedBytes),
    /// The number of zeros, which take no memory.
    Zeros(u64),
}

impl Drop for Kept {
    fn drop(self) {
        match self {
            Kept::Shared(_bytes) => {}
            Kept::Zeros(_) => {}
        }
    }
}

impl Model for Media {
    ghost use Rattle.std.specs.Prelude.{ℕ, List, length, ◌≤◌};
    ghost use Rattle.ll_item.specs.Media.{media_limit};
    ghost use Rattle.ll_item.specs.Contents.{kept_bytes};

    ghost Value = { List ℕ };

    ghost view = { λ m. kept_bytes m.kept };

    ghost invariant = { λ m. length (kept_bytes m.kept) ≤ media_limit };
}

impl Media {
    /// Returns no bytes.
    pub fn none() -> Media
        ensures { result ≡ [] }
    {
        Media {
            kept: Kept::Zeros(0),
        }
    }

    /// Copies the bytes of `payload` into a block of their own. Zeros take no memory.
    pub fn new(alloc: Global, payload: &Payload<'_>) -> Result<Media, AllocError>
        ensures { IfOk result (λ media. media ≡ payload.now) }
    {
        let kept = match &payload.offered {
            Offered::Bytes(bytes) => Kept::Shared(SharedBytes::of(alloc, bytes)?),
            Offered::Zeros(length) => Kept::Zeros(*length),
        };
        Ok(Media { kept })
    }

    /// Returns the number of bytes.
    pub fn len(&self) -> u64
        ensures length { result ≡ length self.now }
        ensures few { result ≤ media_limit }
    {
        match &self.kept {
            Kept::Shared(bytes) => bytes.len() as u64,
            Kept::Zeros(length) => *length,
        }
    }

    /// Returns the bytes, or `None` if only their number is known.
    pub fn bytes(&self) -> Option<&[u8]>
        ensures { MatchOption result (IsNumberAlone self.now) (λ bytes. bytes.now ≡ self.now) }
    {
        match &self.kept {
            Kept::Shared(bytes) => Some(bytes.as_slice()),
            Kept::Zeros(0) => Some(&[]),
            Kept::Zeros(_) => None,
        }
    }

    /// Returns another handle of the block of the bytes, or `None` if only their number is known.
    pub fn block(&self) -> Result<Option<SharedBytes>, AllocError>
        ensures { IfOk result (λ found. MatchOption found (IsNumberAlone self.now) (λ block. block ≡ self.now)) }
    {
        match &self.kept {
            Kept::Shared(bytes) => Ok(Some(bytes.again()?)),
            Kept::Zeros(0) => Ok(Some(SharedBytes::none())),
            Kept::Zeros(_) => Ok(None),
        }
    }

    /// Returns another handle of the same bytes.
    pub fn again(&self) -> Result<Media, AllocError>
        ensures { IfOk result (λ media. media ≡ self.now) }
    {
        let kept = match &self.kept {
            Kept::Shared(bytes) => Kept::Shared(bytes.again()?),
            Kept::Zeros(length) => Kept::Zeros(*length),
        };
        Ok(Media { kept })
    }
}
