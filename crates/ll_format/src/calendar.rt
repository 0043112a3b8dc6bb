//! The date of a day number, by `jiff_core`: the port of `jiff` itself has no call for it.
ghost use Rattle.std.specs.Prelude.{◌≡◌, ◌≤◌, unsigned_abs};
ghost use Rattle.ll_format.specs.Calendar.{CalendarLaw, last_day, nth_date};

use jiff_core::civil::Date;

/// States that, up to 9999-12-31, the n-th day after 1970-01-01, counted day by day through the lengths of the months, is
/// the date whose day number in jiff's calendar is n. This does nothing: the law is its contract.
pub fn calendar_law()
    ensures { CalendarLaw }
{}

/// Returns the date that is `day` days after 1970-01-01.
pub(crate) fn date_of_day(day: u64) -> Date
    requires { day ≤ last_day }
    ensures year { unsigned_abs result.year ≡ (nth_date day).year }
    ensures month { result.month ≡ (nth_date day).month }
    ensures day { result.day ≡ (nth_date day).day }
{
    Date::from_unix_epoch_day(day as i64).unwrap()
}
