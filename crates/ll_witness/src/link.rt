//! A connection in memory.
ghost use Rattle.std.specs.Prelude.{◌≡◌, [], None, Some};

use ll_device::{Failed, Link, TryLink, TwoCounts, Writer};
use std::alloc::Global;
use std::os::fd::RawFd;
use std::sync::ledger::{Blank, Ledger};

/// A connection in memory. Its other end has sent some bytes, and has then ended it.
#[derive(Drop)]
pub struct MemoryLink<'a, L: Ledger> {
    /// The bytes that weren't read.
    coming: &'a [u8],
    came: Vec<u8>,
    written: Vec<u8>,
    /// The number of failures, all for want of memory; the second count isn't used.
    failures: TwoCounts<L>,
}

impl<'a, L: Ledger> MemoryLink<'a, L> {
    /// Returns a link whose other end has sent `coming`. `blank` has two parts.
    pub fn new(alloc: Global, coming: &'a [u8], blank: Blank) -> MemoryLink<'a, L>
        requires name { blank.name ≡ L.name }
        requires parts { blank.parts ≡ L.parts }
        requires two { blank.parts ≡ 2 }
        ensures coming { result.coming.now ≡ coming.now }
        ensures came { result.came.items ≡ [] }
        ensures written { result.written.items ≡ [] }
    {
        MemoryLink {
            coming,
            came: Vec::new(alloc),
            written: Vec::new(alloc),
            failures: TwoCounts::new(blank),
        }
    }

    /// Returns the bytes that were read.
    pub fn came(&self) -> &[u8]
        ensures { result.now ≡ self.now.came.items }
    {
        &self.came
    }

    /// Returns the bytes that were written.
    pub fn sent(&self) -> &[u8]
        ensures { result.now ≡ self.now.written.items }
    {
        &self.written
    }
}

impl<L: Ledger> Writer for MemoryLink<'_, L> {
    ghost written = { λ l. Some l.written.items };

    ghost failures = { λ l. l.failures.first };

    ghost inward = { λ l. record { looks = None; bytes = Some l.came.items } };

    fn write(&mut self, text: &[u8]) -> Result<usize, Failed> {
        if self.written.extend_from_slice(text).is_err() {
            self.failures.add_first();
            return Err(Failed);
        }
        Ok(text.len())
    }
}

impl<L: Ledger> Link for MemoryLink<'_, L> {
    fn read(&mut self, buf: &mut [u8]) -> Result<usize, Failed> {
        let count = self.coming.len().min(buf.len());
        let (piece, coming) = self.coming.split_at(count);
        if self.came.extend_from_slice(piece).is_err() {
            self.failures.add_first();
            return Err(Failed);
        }
        buf[..count].copy_from_slice(piece);
        self.coming = coming;
        Ok(count)
    }

    fn gone(&mut self) -> bool {
        self.coming.is_empty()
    }
}

impl<L: Ledger> TryLink for MemoryLink<'_, L> {
    /// Returns a descriptor of nothing.
    fn descriptor(&self) -> RawFd {
        -1
    }

    fn try_read(&mut self, buf: &mut [u8]) -> Result<Option<usize>, Failed> {
        Ok(Some(self.read(buf)?))
    }

    fn try_write(&mut self, text: &[u8]) -> Result<Option<usize>, Failed> {
        Ok(Some(self.write(text)?))
    }

    fn try_write_two(&mut self, first: &[u8], second: &[u8]) -> Result<Option<usize>, Failed> {
        Ok(Some(self.write_two(first, second)?))
    }
}
