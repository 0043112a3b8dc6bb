//! The bytes between two fragments of the governing track, and to which of the two they belong.
ghost use Rattle.std.specs.Prelude.{◌≡◌, ◌+◌, ◌<◌, ◌≤◌, ◌^◌, ◌++◌, ◌∷◌, [], IfOk, IfSome, drop, length, position, take};
ghost use Rattle.ll_parts.specs.Others.{bytes_of, leads};
ghost use Rattle.ll_parts.specs.Others as spec;

use crate::bytes::Bytes;
use ll_mp4::DecodeTime;
use ll_runs::Span;
use std::alloc::{AllocError, Global};
use std::marker::Model;

/// Bytes without a fragment of the governing track.
pub(crate) struct Other {
    /// The bytes.
    pub(crate) bytes: Bytes,
    /// The first decode time of another track's fragment among them.
    pub(crate) decode_time: Option<DecodeTime>,
}

impl Drop for Other {
    fn drop(self) {
        let Other {
            bytes: _bytes,
            decode_time: _decode_time,
        } = self;
    }
}

/// The bytes between two fragments of the governing track, in the order in which they came.
pub(crate) struct Others {
    items: Vec<Other>,
    /// The number of bytes of all of them.
    size: u64,
}

impl Drop for Others {
    fn drop(self) {
        let Others {
            items: _items,
            size: _,
        } = self;
    }
}

impl Model for Others {
    ghost use Rattle.std.specs.Prelude.{◌≡◌, List, length};
    ghost use Rattle.ll_parts.specs.Others.{bytes_of};
    ghost use Rattle.ll_parts.specs.declared.others.Other.{Other};

    ghost Value = { List Other };

    ghost view = { λ o. o.items.items };

    ghost invariant = { λ o. o.size ≡ length (bytes_of o.items.items) };
}

impl Others {
    /// Makes an empty list.
    pub(crate) fn new(alloc: Global) -> Others
        ensures { result ≡ [] }
    {
        Others {
            items: Vec::new(alloc),
            size: 0,
        }
    }

    /// Adds `other` at the end; all together must be below 2^64 bytes.
    #[tactic(auto, using(crate::proofs::OtherLemmas::one_more))]
    pub(crate) fn push(&mut self, other: Other) -> Result<(), AllocError>
        requires { length (bytes_of self.old) + length other.bytes < 2 ^ 64 }
        ensures { IfOk result (λ _. self.new ≡ self.old ++ other ∷ []) }
    {
        let size = self.size + other.bytes.len() as u64;
        self.items.reserve(1)?;
        // There is room for it, so this can't fail.
        let _ = self.items.push(other);
        self.size = size;
        Ok(())
    }

    /// Returns the number of bytes of all of them.
    pub(crate) fn size(&self) -> u64
        ensures { result ≡ length (bytes_of self.now) }
    {
        self.size
    }
}

impl Others {
    /// Returns the number of elements.
    pub(crate) fn len(&self) -> usize
        ensures { result ≡ length self.now }
    {
        self.items.len()
    }

    /// Returns the number of elements that go with the first of two fragments: all, unless the run `ends` between them; then those before the first
    /// element that is nearer to the second fragment.
    pub(crate) fn stay(&self, ends: bool, span: Span) -> usize
        ensures count { result ≡ spec.stay ends (leads span.scale span.first span.second) self.now }
        ensures most { result ≤ length self.now }
    {
        if !ends {
            return self.items.len();
        }
        self.first_nearer(&span).unwrap_or(self.items.len())
    }

    /// Returns the index of the first element that is nearer to the second tick of `span`.
    fn first_nearer(&self, span: &Span) -> Option<usize>
        ensures place { result ≡ position (leads span.now.scale span.now.first span.now.second) self.now }
        ensures within { IfSome result (λ place. place ≤ length self.now) }
    {
        self.items
            .iter()
            .position(|other| span.is_nearer(other.decode_time))
    }

    /// Appends the bytes of the first `count` elements to `bytes`.
    pub(crate) fn add_first(&self, count: usize, bytes: &mut Bytes) -> Result<(), AllocError>
        requires { count ≤ length self.now }
        ensures { IfOk result (λ _. bytes.new ≡ bytes.old ++ bytes_of (take count self.now)) }
    {
        add_bytes(&self.items[..count], bytes)
    }

    /// Returns the bytes of all but the first `count` elements.
    pub(crate) fn later(&self, alloc: Global, count: usize) -> Result<Bytes, AllocError>
        requires { count ≤ length self.now }
        ensures { IfOk result (λ bytes. bytes ≡ bytes_of (drop count self.now)) }
    {
        let mut bytes = Bytes::new(alloc);
        add_bytes(&self.items[count..], &mut bytes)?;
        Ok(bytes)
    }
}

/// Appends the bytes of all `others` to `bytes`.
fn add_bytes(others: &[Other], bytes: &mut Bytes) -> Result<(), AllocError>
    ensures { IfOk result (λ _. bytes.new ≡ bytes.old ++ bytes_of others.now) }
{
    for place in 0..others.len() {
        bytes.add(others[place].bytes.as_slice())?;
    }
    Ok(())
}
