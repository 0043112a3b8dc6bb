//! The initialization section and time scales of a movie, with which its pieces are made.
ghost use Rattle.std.specs.Prelude.{◌≡◌, [], IfOk};

use crate::bytes::Bytes;
use ll_mp4::TimeScale;
use std::alloc::{AllocError, Global};
use std::marker::Model;

/// The values of a movie with which its pieces are made.
pub(crate) struct Heading {
    /// The initialization section.
    pub(crate) section: Bytes,
    /// The tracks' time scales.
    pub(crate) scales: Scales,
    /// The number of ticks in a second of the governing track.
    pub(crate) scale: u32,
}

impl Drop for Heading {
    fn drop(self) {
        let Heading {
            section: _section,
            scales: _scales,
            scale: _,
        } = self;
    }
}

/// The time scales of a movie's tracks.
#[derive(Drop)]
pub(crate) struct Scales(Vec<TimeScale>);

impl Model for Scales {
    ghost use Rattle.std.specs.Prelude.{List};
    ghost use Rattle.ll_mp4.specs.declared.track.TimeScale.{TimeScale};

    ghost Value = { List TimeScale };

    ghost view = { λ s. s.0.items };
}

impl Scales {
    /// Makes an empty list.
    pub(crate) fn new(alloc: Global) -> Scales
        ensures { result ≡ [] }
    {
        Scales(Vec::new(alloc))
    }

    /// Returns a copy of `scales`.
    pub(crate) fn of(alloc: Global, scales: &[TimeScale]) -> Result<Scales, AllocError>
        ensures { IfOk result (λ copy. copy ≡ scales.now) }
    {
        let mut copy = Vec::new(alloc);
        copy.extend_from_slice(scales)?;
        Ok(Scales(copy))
    }

    /// Returns the time scales.
    pub(crate) fn as_slice(&self) -> &[TimeScale]
        ensures { result.now ≡ self.now }
    {
        &self.0
    }
}
