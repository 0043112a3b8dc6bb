//! A clock whose readings are listed.
ghost use Rattle.std.specs.Prelude.{◌≡◌, Some};

use ll_device::{Failed, TwoCounts};
use ll_push::Calendar;
use std::sync::ledger::{Blank, Ledger};

/// A clock that gives the readings of a list, and fails after the last.
#[derive(Drop)]
pub struct ListCalendar<'a, L: Ledger> {
    coming: &'a [u64],
    /// The number of failures; the second count isn't used.
    failures: TwoCounts<L>,
}

impl<'a, L: Ledger> ListCalendar<'a, L> {
    /// Returns a clock that gives `coming`, in milliseconds since 1970. `blank` has two parts.
    pub fn new(coming: &'a [u64], blank: Blank) -> ListCalendar<'a, L>
        requires name { blank.name ≡ L.name }
        requires parts { blank.parts ≡ L.parts }
        requires two { blank.parts ≡ 2 }
        ensures { result.coming.now ≡ coming.now }
    {
        ListCalendar {
            coming,
            failures: TwoCounts::new(blank),
        }
    }
}

impl<L: Ledger> Calendar for ListCalendar<'_, L> {
    ghost coming = { λ c. Some c.coming.now };

    ghost failures = { λ c. c.failures.first };

    fn now(&mut self) -> Result<u64, Failed> {
        let Some((first, coming)) = self.coming.split_first() else {
            self.failures.add_first();
            return Err(Failed);
        };
        self.coming = coming;
        Ok(*first)
    }
}
