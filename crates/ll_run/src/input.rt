//! What is published, of which the first bytes are kept.
use ll_device::{Failed, Reader};
use ll_reasons::Beginning;

/// The first bytes that were read, 16 at most.
#[derive(Clone, Copy)]
struct Front {
    bytes: [u8; Beginning::LENGTH],
    count: usize,
}

impl Front {
    /// Keeps those of `bytes`, which come next, for which there is room.
    fn keep(&mut self, bytes: &[u8]) {
        let Some(room) = self.bytes.get_mut(self.count..) else {
            return;
        };
        let count = room.len().min(bytes.len());
        room[..count].copy_from_slice(&bytes[..count]);
        self.count += count;
    }
}

/// A reader over another one, which keeps the first bytes that it reads.
#[derive(Drop)]
pub(crate) struct Input<S: Reader + Drop> {
    source: S,
    front: Front,
}

impl<S: Reader + Drop> Input<S> {
    /// Returns a reader over `source`, of which it has read nothing.
    pub(crate) fn new(source: S) -> Input<S> {
        Input {
            source,
            front: Front {
                bytes: [0; Beginning::LENGTH],
                count: 0,
            },
        }
    }

    /// Returns what was read first if it begins with no box of an MP4.
    pub(crate) fn beginning(&self) -> Option<Beginning> {
        Beginning::of(self.front.bytes.get(..self.front.count)?)
    }
}

impl<S: Reader + Drop> Reader for Input<S> {
    ghost left = { λ i. S.left i.source };

    ghost reads = { λ i. S.reads i.source };

    ghost failures = { λ i. S.failures i.source };

    fn read(&mut self, buf: &mut [u8]) -> Result<usize, Failed> {
        let count = self.source.read(buf)?;
        self.front.keep(&buf[..count]);
        Ok(count)
    }
}
