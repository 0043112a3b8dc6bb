//! Bytes of a response in several slices, none of them copied.
ghost use Rattle.std.specs.Prelude.{◌≡◌, ◌++◌, OnOk, length};
ghost use Rattle.std.specs.List.{concat};

use ll_item::SharedBytes;
use std::alloc::AllocError;
use std::marker::Model;

/// Bytes of a response: a slice of the head, one of the body, and the body's blocks after it.
#[derive(Drop)]
pub struct Slices<'a> {
    pub(crate) head: &'a [u8],
    pub(crate) body: &'a [u8],
    pub(crate) blocks: &'a [SharedBytes],
    pub(crate) size: usize,
}

impl<'a> Model for Slices<'a> {
    ghost use Rattle.std.specs.Prelude.{◌≡◌, ◌++◌, ℕ, List, length};
    ghost use Rattle.std.specs.List.{concat};

    ghost Value = { List ℕ };

    ghost view = { λ s. s.head.now ++ (s.body.now ++ concat s.blocks.now) };

    ghost invariant = { λ s. s.size ≡ length (s.head.now ++ (s.body.now ++ concat s.blocks.now)) };
}

impl<'a> Slices<'a> {
    /// Returns their number.
    pub fn len(&self) -> usize
        ensures { result ≡ length self.now }
    {
        self.size
    }

    /// Returns the slices in order: of the head, of the body, and the body's blocks after it.
    pub fn pieces(&self) -> (&'a [u8], &'a [u8], &'a [SharedBytes])
        ensures { result.0.now ++ (result.1.now ++ concat result.2.now) ≡ self.now }
    {
        (self.head, self.body, self.blocks)
    }

    /// Adds a copy of the bytes to `text`. Some may have been added if it fails.
    pub fn copy_to(&self, text: &mut Vec<u8>) -> Result<(), AllocError>
        ensures { OnOk result (text.new.items ≡ text.old.items ++ self.now) }
    {
        text.extend_from_slice(self.head)?;
        text.extend_from_slice(self.body)?;
        push_blocks(text, self.blocks)
    }
}

/// Adds a copy of `blocks` to `text`.
fn push_blocks(text: &mut Vec<u8>, blocks: &[SharedBytes]) -> Result<(), AllocError>
    ensures { OnOk result (text.new.items ≡ text.old.items ++ concat blocks.now) }
{
    for block in blocks {
        text.extend_from_slice(block.as_slice())?;
    }
    Ok(())
}
