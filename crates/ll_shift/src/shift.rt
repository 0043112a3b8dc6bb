//! How one time is moved.
ghost use Rattle.std.specs.Prelude.{◌≡◌};
ghost use Rattle.ll_shift.specs.Times as spec;

/// The move of the times of a run of fragments: the tick of the movie's governing track at which the run begins is moved to the end of the rendition.
#[derive(Clone, Copy)]
pub struct Shift {
    /// The tick of the governing track at which the run begins.
    pub base: u64,
    /// The number of ticks in a second of that track, never 0.
    pub scale: u32,
    /// The end of the rendition as the run begins, in microseconds.
    pub end: u64,
}

impl Shift {
    /// Returns `time`, of a track with `scale` ticks in a second, moved: 0 if that is negative, and at most 2^64 - 1.
    pub fn moved_time(&self, scale: u32, time: u64) -> u64
        ensures { result ≡ spec.moved_time self.now scale time }
    {
        let later = time as u128 + self.end as u128 * scale as u128 / 1_000_000;
        let moved = later.saturating_sub(self.base_in(scale));
        moved.min(u64::MAX as u128) as u64
    }

    /// Returns the beginning of the run in ticks of a track with `scale` in a second.
    fn base_in(&self, scale: u32) -> u128
        ensures { result ≡ spec.base_in self.now scale }
    {
        if self.scale == 0 {
            return 0;
        }
        self.base as u128 * scale as u128 / self.scale as u128
    }
}
