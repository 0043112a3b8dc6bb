//! Splits the bytes of an encoder into units, as they come.
ghost use Rattle.std.specs.Prelude.{◌≡◌, [], MatchResult, None, Some};
ghost use Rattle.std.specs.Borrow.{sem};
ghost use Rattle.std.specs.Io.BufRead.{Rests};
ghost use Rattle.ll_mp4.specs.Lefts.{at_front, fed, without_index};
ghost use Rattle.ll_mp4.specs.Meaning.{given};
ghost use Rattle.ll_mp4.specs.Streams.{end_fault, front};
ghost use Rattle.ll_mp4.specs.contracts.splitter.Splitter.{the_row};

use crate::boxes::only;
use crate::fault::StreamFault;
use crate::kind::Kind;
use crate::units::{after_index, read_unit};
use std::alloc::Global;
use std::marker::Model;

/// The bytes of an encoder that weren't given out as units. They come in any pieces. An `mfra` box at the front of a unit (section 8.8.9) belongs to
/// none: its bytes are dropped as they come.
pub struct Splitter {
    bytes: Vec<u8>,
    /// The number of the bytes that were given out or dropped.
    at: usize,
    /// The number of the next bytes to be dropped as they come.
    skip: u64,
}

impl Drop for Splitter {
    fn drop(self) {
        let Splitter {
            bytes: _bytes,
            at: _,
            skip: _,
        } = self;
    }
}

impl Model for Splitter {
    ghost use Rattle.std.specs.Prelude.{◌≡◌, ◌≤◌, ◌⊎◌, drop, length};
    ghost use Rattle.ll_mp4.specs.Lefts.{Left};

    ghost Value = { Left };

    ghost view = { λ s. record { skip = s.skip; unread = drop s.at s.bytes.items } };

    ghost invariant = { λ s. (s.at ≤ length s.bytes.items) × ((s.skip ≡ 0) ⊎ (s.at ≡ length s.bytes.items)) };
}

impl Splitter {
    /// Makes a splitter that has no bytes.
    pub fn new(alloc: Global) -> Splitter
        ensures { result ≡ at_front [] }
    {
        Splitter {
            bytes: Vec::new(alloc),
            at: 0,
            skip: 0,
        }
    }

    /// Appends `bytes`, the next of the input. If it fails, nothing changes.
    pub fn feed(&mut self, bytes: &[u8]) -> Result<(), StreamFault>
        ensures { MatchResult result (λ _. self.new ≡ fed self.old bytes.now) (λ fault. (fault ≡ StreamFault.Memory) × (self.new ≡ self.old)) }
    {
        self.forget_given();
        let dropped = self.skip.min(bytes.len() as u64);
        let (_, kept) = bytes.split_at(dropped as usize);
        match self.bytes.extend_from_slice(kept) {
            Ok(()) => {
                self.skip -= dropped;
                Ok(())
            }
            Err(_) => Err(StreamFault::Memory),
        }
    }

    /// Takes the unit at the front: the boxes up to the end of the first `moov` or `mdat` box. Returns `None` if not all of it has come. Drops `mfra`
    /// boxes before it. Fails with `BadBox` or `TooLarge`; a fault changes nothing else, so it is returned again. It takes no memory.
    pub fn next(&mut self) -> Result<Option<&[u8]>, StreamFault>
        ensures* left { sem 𝓛 (Rests the_row self.entry (λ left. left ≡ (front self.old).1)) }
        ensures unit { given result ≡ (front self.old).0 }
    {
        self.drop_index();
        let unread = &self.bytes[self.at..];
        let Some(size) = read_unit(unread)? else {
            return Ok(None);
        };
        let (unit, _) = unread.split_at(size);
        self.at += size;
        Ok(Some(unit))
    }

    /// Returns what is wrong if the input ends now, after all units were taken: `Cut` if it ends inside a box, even an `mfra`, or `Missing(Mdat)` if
    /// a `moof` has no `mdat`. Whole boxes that belong to no unit are allowed.
    pub fn finish(&self) -> Result<(), StreamFault>
        ensures { MatchResult result (λ _. end_fault self.now ≡ None) (λ fault. end_fault self.now ≡ Some fault) }
    {
        if self.skip > 0 {
            return Err(StreamFault::Cut);
        }
        match only(Kind::Moof, &self.bytes[self.at..]) {
            Err(StreamFault::Missing(_)) => Ok(()),
            Err(StreamFault::BadBox) => Err(StreamFault::Cut),
            _ => Err(StreamFault::Missing(Kind::Mdat)),
        }
    }

    /// Drops the `mfra` boxes at the front.
    fn drop_index(&mut self)
        ensures { self.new ≡ without_index self.old }
    {
        if self.skip > 0 {
            return;
        }
        let (rest, skip) = after_index(&self.bytes[self.at..]);
        self.at = self.bytes.len() - rest.len();
        self.skip = skip;
    }

    /// Drops the bytes that were given out once they are more than the others, so that fewer bytes are moved than dropped.
    #[tactic(auto, using(crate::proofs::LeftLemmas::cut_front))]
    fn forget_given(&mut self)
        ensures { self.new ≡ self.old }
    {
        if self.at > self.bytes.len() / 2 {
            let left = self.bytes.len() - self.at;
            self.bytes.copy_within(self.at.., 0);
            self.bytes.truncate(left);
            self.at = 0;
        }
    }
}
