//! The system's clock, with counts that only proofs see.
ghost use Rattle.std.specs.Prelude.{◌≡◌};

use ll_device::{Failed, TwoCounts};
use ll_origins::millis;
use ll_push::Calendar;
use std::sync::ledger::{Blank, Ledger};
use std::time::Clock;

/// The system's clock.
#[derive(Drop)]
pub(crate) struct SystemCalendar<'a, R, L: Ledger> {
    rt: &'a R,
    /// The number of readings that succeeded, and of those that failed.
    readings: TwoCounts<L>,
}

impl<'a, R, L: Ledger> SystemCalendar<'a, R, L> {
    /// Returns a clock that wasn't read yet. `blank` has two parts, one for each count.
    pub(crate) fn new(rt: &'a R, blank: Blank) -> SystemCalendar<'a, R, L>
        requires name { blank.name ≡ L.name }
        requires parts { blank.parts ≡ L.parts }
        requires two { blank.parts ≡ 2 }
    {
        SystemCalendar {
            rt,
            readings: TwoCounts::new(blank),
        }
    }
}

impl<R: Clock, L: Ledger> Calendar for SystemCalendar<'_, R, L> {
    ghost use Rattle.std.specs.Prelude.{None};

    ghost coming = { λ c. None };

    ghost failures = { λ c. c.readings.second };

    fn now(&mut self) -> Result<u64, Failed> {
        match millis(self.rt) {
            Some(ms) => {
                self.readings.add_first();
                Ok(ms)
            }
            None => {
                self.readings.add_second();
                Err(Failed)
            }
        }
    }
}
