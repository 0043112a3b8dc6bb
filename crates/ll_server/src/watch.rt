//! The clock that the channels take.
ghost use Rattle.std.specs.Prelude.{◌≡◌, ◌/◌, ◌≤◌, ◌^◌, min};
ghost use Rattle.std.specs.Duration.{as_nanos};

use ll_hub::Clock;
use std::time::{self, Duration, Instant};

/// A clock that shows the time since the server's start.
#[derive(Drop)]
pub(crate) struct Watch<'a, R> {
    pub(crate) rt: &'a R,
    pub(crate) start: Instant,
}

impl<R: time::Clock> Clock for Watch<'_, R> {
    ghost shows = { λ w ms. ms ≤ 2 ^ 60 };

    /// Returns the milliseconds since the start, at most 2^60. If the clock can't be read, it is 0, which changes no channel's time.
    fn now(&self) -> u64 {
        match self.start.elapsed(self.rt) {
            Ok(time) => whole_millis(time),
            Err(_) => 0,
        }
    }
}

/// Returns the whole milliseconds of `time`, at most 2^60.
fn whole_millis(time: Duration) -> u64
    ensures { result ≡ min (as_nanos time / 1_000_000) (2 ^ 60) }
{
    time.as_millis().min(1 << 60) as u64
}
