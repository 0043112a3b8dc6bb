//! The body of a response with media, and how such a response is recognized.
ghost use Rattle.std.specs.Prelude.{◌≡◌, ◌++◌, ◌<◌, ◌^◌, IfOk, OnOk, drop, length};
ghost use Rattle.std.specs.List.{concat};
ghost use Rattle.ll_wire.specs.Response as spec;

use ll_item::{Media, SharedBytes};
use ll_store::Blocks;
use std::alloc::{AllocError, Global};
use std::marker::Model;

/// A number of bytes that no memory holds.
const TOO_MANY: u64 = 1 << 63;

/// The body of a response with media, in blocks shared with all others who hold them.
pub struct MediaBody {
    blocks: Vec<SharedBytes>,
    size: u64,
}

impl Drop for MediaBody {
    fn drop(self) {
        let MediaBody {
            blocks: _blocks,
            size: _,
        } = self;
    }
}

impl Model for MediaBody {
    ghost use Rattle.std.specs.Prelude.{◌≡◌, ◌<◌, ◌^◌, ℕ, List, length};
    ghost use Rattle.std.specs.List.{concat};

    ghost Value = { List ℕ };

    ghost view = { λ b. concat b.blocks.items };

    ghost invariant = { λ b. (b.size ≡ length (concat b.blocks.items)) × (b.size < 2 ^ 63) };
}

impl MediaBody {
    /// Returns a body that shares the blocks of `media`. Fails also if the bytes of a part aren't known.
    pub(crate) fn new(alloc: Global, media: &Blocks) -> Result<MediaBody, AllocError>
        ensures { IfOk result (λ body. body ≡ media.now) }
    {
        let size = media.len();
        if size >= TOO_MANY {
            return Err(AllocError);
        }
        let blocks = blocks_of(alloc, media.parts())?;
        Ok(MediaBody { blocks, size })
    }

    /// Returns its number of bytes.
    pub(crate) fn len(&self) -> usize
        ensures length { result ≡ length self.now }
        ensures few { result < 2 ^ 63 }
    {
        self.size as usize
    }

    /// Returns what follows the first `n` bytes: a slice, and the blocks after it.
    #[tactic(auto, using(crate::proofs::BlockLemmas::in_block, crate::proofs::BlockLemmas::after_block))]
    pub(crate) fn after(&self, n: usize) -> (&[u8], &[SharedBytes])
        ensures { result.0.now ++ concat result.1.now ≡ drop n self.now }
    {
        let mut left = n;
        let mut blocks = self.blocks.as_slice();
        while let Some((block, more)) = blocks.split_first() {
            if left < block.len() {
                return (&block.as_slice()[left..], more);
            }
            left -= block.len();
            blocks = more;
        }
        (&[], &[])
    }
}

/// Returns the block of each of `parts`.
fn blocks_of(alloc: Global, parts: &[Media]) -> Result<Vec<SharedBytes>, AllocError>
    ensures { IfOk result (λ blocks. blocks.items ≡ parts.now) }
{
    let mut blocks = Vec::with_capacity(alloc, parts.len())?;
    for part in parts {
        blocks.push(block_of(part)?)?;
    }
    Ok(blocks)
}

/// Returns the block of `part`. Fails also if only the number of its bytes is known.
fn block_of(part: &Media) -> Result<SharedBytes, AllocError>
    ensures { IfOk result (λ block. block ≡ part.now) }
{
    match part.block()? {
        Some(block) => Ok(block),
        None => Err(AllocError),
    }
}

/// Returns whether a response that begins with `bytes` is one with media.
#[tactic(auto, unfolding(crate::specs::Response::is_media_response))]
pub fn is_media_response(bytes: &[u8]) -> bool
    ensures { result ≡ spec.is_media_response bytes.now }
{
    bytes.starts_with(b"HTTP/1.1 200 OK\r\nContent-Type: video/mp4\r\n")
}
