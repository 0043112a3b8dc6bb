//! The bytes that a request for media gets, shared and never copied.
ghost use Rattle.std.specs.Prelude.{◌≡◌, IfOk, length};
ghost use Rattle.std.specs.List.{concat};

use ll_item::Media;
use std::alloc::{AllocError, Global};
use std::marker::Model;
use std::slice;

/// The bytes that a request gets, part by part, shared by all their holders.
pub struct Blocks {
    parts: Vec<Media>,
    size: u64,
}

impl Drop for Blocks {
    fn drop(self) {
        let Blocks {
            parts: _parts,
            size: _,
        } = self;
    }
}

impl Model for Blocks {
    ghost use Rattle.std.specs.Prelude.{◌≡◌, ℕ, List, length};
    ghost use Rattle.std.specs.List.{concat};

    ghost Value = { List ℕ };

    ghost view = { λ b. concat b.parts.items };

    ghost invariant = { λ b. b.size ≡ length (concat b.parts.items) };
}

impl Blocks {
    /// Returns the bytes of one part.
    #[tactic(auto, using(crate::proofs::Sizes::concat_one))]
    pub fn one(alloc: Global, media: Media) -> Result<Blocks, AllocError>
        ensures { IfOk result (λ blocks. blocks ≡ media) }
    {
        let size = media.len();
        let mut parts = Vec::new(alloc);
        parts.push(media)?;
        Ok(Blocks { parts, size })
    }

    /// Returns the number of bytes.
    pub fn len(&self) -> u64
        ensures { result ≡ length self.now }
    {
        self.size
    }

    /// Returns the bytes, part by part.
    pub fn parts(&self) -> &[Media]
        ensures { concat result.now ≡ self.now }
    {
        &self.parts
    }
}

/// The bytes that a request gets, borrowed from their store.
#[derive(Drop)]
pub struct Found<'a> {
    parts: &'a [Media],
    size: u64,
}

impl<'a> Model for Found<'a> {
    ghost use Rattle.std.specs.Prelude.{◌≡◌, ℕ, List, length};
    ghost use Rattle.std.specs.List.{concat};

    ghost Value = { List ℕ };

    ghost view = { λ f. concat f.parts.now };

    ghost invariant = { λ f. f.size ≡ length (concat f.parts.now) };
}

impl<'a> Found<'a> {
    /// Returns the bytes of one part or section.
    #[tactic(auto, using(crate::proofs::Sizes::concat_one))]
    pub(crate) fn one(media: &'a Media) -> Found<'a>
        ensures { result ≡ media.now }
    {
        Found {
            parts: slice::from_ref(media),
            size: media.len(),
        }
    }

    /// Returns the bytes of `parts`, which are `size` bytes together.
    pub(crate) fn of_parts(parts: &'a [Media], size: u64) -> Found<'a>
        requires { size ≡ length (concat parts.now) }
        ensures { result ≡ concat parts.now }
    {
        Found { parts, size }
    }

    /// Returns the number of bytes.
    pub fn len(&self) -> u64
        ensures { result ≡ length self.now }
    {
        self.size
    }

    /// Returns handles of the same bytes, which outlive the store.
    pub fn share(&self, alloc: Global) -> Result<Blocks, AllocError>
        ensures { IfOk result (λ blocks. blocks ≡ self.now) }
    {
        let parts = copies(alloc, self.parts)?;
        Ok(Blocks {
            parts,
            size: self.size,
        })
    }
}

/// Returns another handle of each of `parts`.
fn copies(alloc: Global, parts: &[Media]) -> Result<Vec<Media>, AllocError>
    ensures { IfOk result (λ copies. copies.items ≡ parts.now) }
{
    let mut copies = Vec::with_capacity(alloc, parts.len())?;
    for part in parts {
        copies.push(part.again()?)?;
    }
    Ok(copies)
}
