//! Where records go.
ghost use Rattle.std.specs.Prelude.{List, None, Option};
ghost use Rattle.ll_record.specs.Taken.{TakenChunk, Takes};

use crate::chunk::Chunk;

/// The place where the records of many channels go. A sink is a handle: who hands chunks to it has a copy, and all copies share one place.
pub trait Sink: Copy {
    /// The chunks that were handed to this handle, in order; `None` if they aren't known.
    ghost taken: { Self → Option (List TakenChunk) } = { λ _. None };

    /// Takes a chunk of the channel at place `channel`; the chunks of a channel come in order. A hub's channel is locked meanwhile, so who
    /// calls the hub for this channel waits.
    fn take(&mut self, channel: usize, chunk: Chunk)
        ensures { Takes (taken self.old) (taken self.new) channel chunk };
}
