//! The state of a movie: what of it isn't published yet.
ghost use Rattle.std.specs.Prelude.{◌≡◌, ◌<◌, ◌≤◌, ◌^◌, IfOk, length, take};
ghost use Rattle.ll_parts.specs.Joined.{group_of, held_of, size_of};

use crate::bytes::Bytes;
use crate::others::Others;
use ll_mp4::Timing;
use ll_runs::{Next, Times};
use std::alloc::{AllocError, Global};

/// The state of a movie: what of it isn't published yet.
#[derive(Drop)]
pub(crate) enum Stage {
    /// No fragment of the governing track came yet: these bytes go with the first.
    Silent(Bytes),
    /// The last fragment of the governing track, the times of its run, and the bytes of the part under way.
    Under(Held, Times, Bytes),
    /// The bytes after the last fragment of the governing track, which was a part itself, and the times of its run.
    Prompt(Bytes, Times),
}

impl Stage {
    /// Returns the number of bytes to which the next ones of other tracks are added.
    pub(crate) fn size(&self) -> u128
        ensures size { result ≡ size_of self.now }
        ensures few { result < 2 ^ 66 }
    {
        match self {
            Stage::Silent(lead) | Stage::Prompt(lead, _) => lead.len() as u128,
            Stage::Under(held, _, _) => held.bytes.len() as u128 + held.since.size() as u128,
        }
    }
}

/// A fragment of the governing track whose successor isn't known yet.
pub(crate) struct Held {
    /// Its bytes, preceded by those before it that go with it.
    pub(crate) bytes: Bytes,
    /// The duration of its samples, in ticks.
    pub(crate) ticks: u64,
    /// Whether it begins with a sync sample.
    pub(crate) sync: bool,
    /// The bytes that came after it.
    pub(crate) since: Others,
}

impl Drop for Held {
    fn drop(self) {
        let Held {
            bytes: _bytes,
            ticks: _,
            sync: _,
            since: _since,
        } = self;
    }
}

/// A fragment of the governing track, with all bytes that go with it.
#[derive(Drop)]
pub(crate) struct Group {
    pub(crate) bytes: Bytes,
    /// The duration of its samples, in ticks.
    pub(crate) ticks: u64,
    /// Whether it begins with a sync sample.
    pub(crate) sync: bool,
}

/// What continues after a fragment.
#[derive(Drop)]
pub(crate) struct Onward {
    /// The times of the run of the next fragment.
    pub(crate) times: Times,
    /// The bytes of the part under way.
    pub(crate) bytes: Bytes,
    /// The end of the rendition if the part under way ends with the fragment, in microseconds.
    pub(crate) end: u64,
}

/// The successor of a fragment, whether its run ends with it, and the number of the elements since that go with it.
#[derive(Clone, Copy)]
pub(crate) struct Parting {
    pub(crate) next: Next,
    /// Whether the run ends with the fragment.
    pub(crate) ends: bool,
    pub(crate) count: usize,
}

impl Held {
    /// Makes the fragment of `bytes` with this `timing`; `lead` are the bytes before it that go with it.
    pub(crate) fn of(
        alloc: Global,
        mut lead: Bytes,
        bytes: &[u8],
        timing: Timing,
    ) -> Result<Held, AllocError>
        ensures { IfOk result (λ held. held ≡ held_of lead bytes.now timing) }
    {
        lead.add(bytes)?;
        Ok(Held {
            bytes: lead,
            ticks: timing.ticks,
            sync: timing.sync,
            since: Others::new(alloc),
        })
    }

    /// Returns the fragment with the first `count` elements that came since.
    pub(crate) fn group(self, count: usize) -> Result<Group, AllocError>
        requires { count ≤ length self.since }
        ensures { IfOk result (λ group. group ≡ group_of self (take count self.since)) }
    {
        let Held {
            mut bytes,
            ticks,
            sync,
            since,
        } = self;
        since.add_first(count, &mut bytes)?;
        Ok(Group { bytes, ticks, sync })
    }
}
