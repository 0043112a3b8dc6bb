//! A disk in memory.
ghost use Rattle.std.specs.Prelude.{◌≡◌, [], IfSome, OnErr, OnOk, Some, length, true};
ghost use Rattle.ll_layout.specs.Held.{IsAt};
ghost use Rattle.ll_spool.specs.Failures.{HasRisen};
ghost use Rattle.ll_spool.specs.Files.{cut_to};
ghost use Rattle.ll_witness.specs.Disks.{files_of};

use ll_layout::{Extent, Side};
use ll_spool::{Disk, Lost};
use std::alloc::{AllocError, Global};

/// A disk in memory, for a channel of one rendition.
#[derive(Drop)]
pub struct MemoryDisk {
    alloc: Global,
    lines: Vec<u8>,
    a: Vec<u8>,
    b: Vec<u8>,
    /// The number of calls that failed, 2^64 - 1 at most.
    failures: u64,
}

impl MemoryDisk {
    /// Returns a disk whose files are empty.
    pub fn new(alloc: Global) -> MemoryDisk
        ensures lines { result.lines.items ≡ [] }
        ensures sides { (result.a.items ≡ []) × (result.b.items ≡ []) }
    {
        MemoryDisk {
            alloc,
            lines: Vec::new(alloc),
            a: Vec::new(alloc),
            b: Vec::new(alloc),
            failures: 0,
        }
    }

    /// Counts a call that failed.
    #[tactic(auto, unfolding(ll_spool::specs::Failures::HasRisen))]
    fn lost(&mut self) -> Lost
        ensures rises { HasRisen self.old.failures self.new.failures }
        ensures same { self.new ≡ record self.old { failures = self.new.failures } }
    {
        self.failures = self.failures.saturating_add(1);
        Lost
    }
}

impl Disk for MemoryDisk {
    ghost lines = { λ d. Some d.lines.items };

    ghost files = { λ d. Some (files_of d.a.items d.b.items) };

    ghost failures = { λ d. d.failures };

    #[tactic(auto, using(crate::proofs::DiskLemmas::nothing))]
    fn append_line(&mut self, text: &[u8]) -> Result<(), Lost> {
        match self.lines.extend_from_slice(text) {
            Ok(()) => Ok(()),
            Err(AllocError) => Err(self.lost()),
        }
    }

    #[tactic(auto, using(crate::proofs::DiskLemmas::changed_a, crate::proofs::DiskLemmas::changed_b))]
    fn append(&mut self, rendition: usize, side: Side, bytes: &[u8]) -> Result<(), Lost> {
        if rendition != 0 {
            return Err(self.lost());
        }
        let done = match side {
            Side::A => self.a.extend_from_slice(bytes),
            Side::B => self.b.extend_from_slice(bytes),
        };
        match done {
            Ok(()) => Ok(()),
            Err(AllocError) => Err(self.lost()),
        }
    }

    #[tactic(auto, using(crate::proofs::DiskLemmas::changed_a, crate::proofs::DiskLemmas::changed_b))]
    fn clear(&mut self, rendition: usize, side: Side) -> Result<(), Lost> {
        if rendition != 0 {
            return Err(self.lost());
        }
        match side {
            Side::A => self.a.clear(),
            Side::B => self.b.clear(),
        }
        Ok(())
    }

    fn cut_text(&mut self, length: u64) -> Result<(), Lost> {
        match cut_file(self.alloc, &mut self.lines, length) {
            Ok(()) => Ok(()),
            Err(AllocError) => Err(self.lost()),
        }
    }

    #[tactic(auto, using(crate::proofs::DiskLemmas::changed_a, crate::proofs::DiskLemmas::changed_b))]
    fn cut(&mut self, rendition: usize, side: Side, length: u64) -> Result<(), Lost> {
        if rendition != 0 {
            return Err(self.lost());
        }
        let done = match side {
            Side::A => cut_file(self.alloc, &mut self.a, length),
            Side::B => cut_file(self.alloc, &mut self.b, length),
        };
        match done {
            Ok(()) => Ok(()),
            Err(AllocError) => Err(self.lost()),
        }
    }

    fn read(&mut self, rendition: usize, place: Extent, bytes: &mut [u8]) -> bool {
        let read = rendition == 0
            && match place.side {
                Side::A => read_at(&self.a, place.offset, bytes),
                Side::B => read_at(&self.b, place.offset, bytes),
            };
        if !read {
            let Lost = self.lost();
        }
        read
    }
}

/// Cuts `file` to its first `length` bytes, or appends zeros if it has fewer. If this fails, nothing has changed.
fn cut_file(alloc: Global, file: &mut Vec<u8>, length: u64) -> Result<(), AllocError>
    ensures cut { OnOk result (file.new.items ≡ cut_to length file.old.items) }
    ensures same { OnErr result (file.new.items ≡ file.old.items) }
{
    let zeros = vec![in alloc; 0; length as usize]?;
    file.extend_from_slice(&zeros)?;
    file.truncate(length as usize);
    Ok(())
}

/// Reads the bytes from `offset` on into `bytes`; false if `file` has fewer.
fn read_at(file: &[u8], offset: u64, bytes: &mut [u8]) -> bool
    ensures { result ≡ true → IsAt file.now offset bytes.new }
{
    match piece_at(file, offset, bytes.len()) {
        Some(found) => {
            bytes.copy_from_slice(found);
            true
        }
        None => false,
    }
}

/// Returns the `count` bytes from `offset` on; `None` if `file` has fewer.
#[tactic(auto, using(crate::proofs::DiskLemmas::at_split))]
fn piece_at(file: &[u8], offset: u64, count: usize) -> Option<&[u8]>
    ensures at { IfSome result (λ found. IsAt file.now offset found.now) }
    ensures long { IfSome result (λ found. length found.now ≡ count) }
{
    let (_, later) = file.split_at_checked(offset as usize)?;
    let (found, _) = later.split_at_checked(count)?;
    Some(found)
}
