//! Moments in UTC, written as EXT-X-PROGRAM-DATE-TIME spells them (section 4.4.4.6).
ghost use Rattle.std.specs.Prelude.{◌≡◌, ◌≤◌, ◌<◌, MatchOption, Some};
ghost use Rattle.ll_attr.specs.YearEnd.{last_milli};
ghost use Rattle.ll_format.specs.Times.{time_text};

use crate::calendar::date_of_day;
use crate::digits::{FourDigits, ThreeDigits, TwoDigits};
use std::fmt;
use std::marker::Model;

/// The last millisecond of the year 9999, counted from 1970-01-01T00:00:00Z.
const LAST_MILLI: u64 = 253_402_300_799_999;

const MILLIS_PER_DAY: u64 = 86_400_000;

/// A moment in UTC, to the millisecond, from 1970 to the end of the year 9999. It is written as EXT-X-PROGRAM-DATE-TIME
/// spells it, `YYYY-MM-DDThh:mm:ss.mmmZ` (section 4.4.4.6 of draft-pantos-hls-rfc8216bis).
#[derive(Clone, Copy)]
pub struct UtcTime {
    millis: u64,
}

impl Model for UtcTime {
    ghost use Rattle.std.specs.Prelude.{◌≤◌, ℕ};
    ghost use Rattle.ll_attr.specs.YearEnd.{last_milli};

    ghost Value = { ℕ };

    ghost view = { λ t. t.millis };

    ghost inverse = { λ n. record { millis = n } };

    ghost invariant = { λ t. t.millis ≤ last_milli };
}

impl UtcTime {
    /// Returns the moment `millis` milliseconds after 1970-01-01T00:00:00Z, not counting leap seconds, or `None` if it is
    /// past the year 9999.
    pub fn at(millis: u64) -> Option<UtcTime>
        ensures { MatchOption result (last_milli < millis) (λ t. (t ≡ millis) × (millis ≤ last_milli)) }
    {
        if millis <= LAST_MILLI {
            Some(UtcTime { millis })
        } else {
            None
        }
    }
}

#[tactic(auto, unfolding(crate::specs::Times::time_of))]
impl fmt::Display for UtcTime {
    ghost output = { λ t. Some (time_text t) };

    fn fmt<W: fmt::Write>(&self, f: &mut fmt::Formatter<W>) -> fmt::Result {
        let date = date_of_day(self.millis / MILLIS_PER_DAY);
        let year = FourDigits(date.year.unsigned_abs().into());
        let (month, day) = (TwoDigits(date.month.into()), TwoDigits(date.day.into()));
        let millis = self.millis % MILLIS_PER_DAY;
        let (hours, minutes) = (
            TwoDigits(millis / 3_600_000),
            TwoDigits(millis / 60_000 % 60),
        );
        let (seconds, thousandths) = (TwoDigits(millis / 1_000 % 60), ThreeDigits(millis % 1_000));
        write!(
            f,
            "{year}-{month}-{day}T{hours}:{minutes}:{seconds}.{thousandths}Z"
        )
    }
}
