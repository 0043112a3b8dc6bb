//! The queue of chunks that wait to be written to their files.
ghost use Rattle.std.specs.Prelude.{◌≡◌, ◌+◌, ◌<◌, ◌^◌, ◌++◌, ◌∷◌, [], IsErrOf, MatchOption, OnErr, OnOk, length};
ghost use Rattle.ll_files.specs.Queue.{bytes_of};

use ll_record::Chunk;
use std::alloc::Global;
use std::collections::VecDeque;
use std::marker::Model;
use std::sync::{Condvar, Mutex, Wait};
use thiserror::Error;

/// The most bytes that wait in the queue: 256 MiB.
const MOST: usize = 1 << 28;

/// A chunk that isn't written yet, and the place of its channel.
#[derive(Drop)]
pub(crate) struct Unwritten {
    pub(crate) channel: usize,
    pub(crate) chunk: Chunk,
}

impl Model for Unwritten {
    ghost use Rattle.ll_record.specs.Taken.{TakenChunk};

    ghost Value = { TakenChunk };

    ghost view = { λ u. record { place = u.channel; chunk = u.chunk } };
}

/// Why a chunk finds no place in the queue.
#[derive(Clone, Copy, Debug, Error)]
pub(crate) enum QueueFault {
    /// With it, more than 256 MiB would wait.
    #[error("256 MiB wait to be written")]
    Full,
    #[error("out of memory")]
    Memory,
}

/// What lies under the queue's lock: the chunks that wait, the first at the front.
#[derive(Drop)]
struct Chunks {
    waiting: VecDeque<Unwritten>,
    /// The number of their bytes.
    bytes: usize,
    /// Whether no more chunks come.
    ended: bool,
}

impl Model for Chunks {
    ghost use Rattle.std.specs.Prelude.{◌≡◌, ◌≤◌, ◌^◌, List};
    ghost use Rattle.ll_record.specs.Taken.{TakenChunk};
    ghost use Rattle.ll_files.specs.Queue.{bytes_of};

    ghost Value = { List TakenChunk };

    ghost view = { λ c. c.waiting.items };

    ghost invariant = { λ c. (c.bytes ≡ bytes_of c.waiting.items) × (c.bytes ≤ 2 ^ 28) };
}

impl Chunks {
    /// Returns whether a chunk may still come, but none is there.
    fn is_idle(&self) -> bool {
        !self.ended && self.waiting.is_empty()
    }

    /// Adds `last` as the last.
    #[tactic(auto, using(crate::proofs::QueueLemmas::bytes_added))]
    fn add(&mut self, last: Unwritten) -> Result<(), QueueFault>
        ensures added { OnOk result (self.new ≡ self.old ++ last ∷ []) }
        ensures unchanged { OnErr result (self.new ≡ self.old) }
        ensures full { IsErrOf result QueueFault.Full → 2 ^ 28 < bytes_of self.old + length last.chunk.text }
    {
        let Chunks {
            waiting,
            bytes,
            ended: _,
        } = self;
        let more = bytes.saturating_add(last.chunk.bytes().len());
        if more > MOST {
            return Err(QueueFault::Full);
        }
        match waiting.push_back(last) {
            Ok(()) => {
                *bytes = more;
                Ok(())
            }
            Err(_) => Err(QueueFault::Memory),
        }
    }

    /// Takes the first chunk, or returns `None` if there is none.
    #[tactic(auto, using(crate::proofs::QueueLemmas::bytes_first))]
    fn take(&mut self) -> Option<Unwritten>
        ensures { MatchOption result ((self.old ≡ []) × (self.new ≡ [])) (λ first. self.old ≡ first ∷ self.new) }
    {
        let Chunks {
            waiting,
            bytes,
            ended: _,
        } = self;
        let first = waiting.pop_front()?;
        *bytes = bytes.saturating_sub(first.chunk.bytes().len());
        Some(first)
    }
}

/// A queue of chunks, which many threads add to and one takes from.
#[derive(Drop)]
pub(crate) struct Queue {
    chunks: Mutex<Chunks>,
    changed: Condvar,
}

impl Queue {
    /// Returns an empty queue.
    pub(crate) fn new(alloc: Global) -> Queue {
        let chunks = Chunks {
            waiting: VecDeque::new(alloc),
            bytes: 0,
            ended: false,
        };
        Queue {
            chunks: Mutex::new(chunks),
            changed: Condvar::new(),
        }
    }

    /// Adds `last` as the last chunk.
    pub(crate) fn add<R: Wait>(&self, rt: &R, last: Unwritten) -> Result<(), QueueFault> {
        self.chunks.lock(rt).add(last)?;
        self.changed.notify_one();
        Ok(())
    }

    /// Takes the first chunk, for which it waits. Returns `None` once the queue has ended and is empty.
    pub(crate) fn take<R: Wait>(&self, rt: &R) -> Option<Unwritten> {
        let chunks = self.chunks.lock(rt);
        let mut chunks = self
            .changed
            .wait_while(rt, chunks, |chunks| chunks.is_idle());
        chunks.take()
    }

    /// Ends the queue: no more chunks come.
    pub(crate) fn end<R: Wait>(&self, rt: &R) {
        self.chunks.lock(rt).ended = true;
        self.changed.notify_all();
    }
}
