//! Checks dates with a time of day and an offset from UTC (section 4.4.5.1).
ghost use Rattle.std.specs.Prelude.{◌≡◌, ◌^◌, ◌<◌, IfSome};
ghost use Rattle.ll_attr.specs.Words.{pieces_at};
ghost use Rattle.ll_format.specs.Dates.{number_of};
ghost use Rattle.ll_format.specs.Dates as spec;

use jiff_core::civil::Date;
use ll_attr::{after, cut, parse_number};

/// Returns whether `text` is a date with a time of day and an offset from UTC, to the nanosecond at most:
/// `YYYY-MM-DDThh:mm:ss`, optionally `.` and 1 to 9 digits, then `Z`, `+hh:mm` or `-hh:mm` (section 4.4.5.1 of
/// draft-pantos-hls-rfc8216bis, after ISO 8601). The date is one of the calendar, from the year 0 on, and no minute has
/// a 61st second.
pub fn is_date_time(text: &str) -> bool
    ensures { result ≡ spec.is_date_time text.now }
{
    let Some((date, time)) = text.split_at_checked(10) else {
        return false;
    };
    is_date(date) && is_time(time)
}

/// Returns whether `text` is `YYYY-MM-DD`, a day of the calendar.
fn is_date(text: &str) -> bool
    ensures { result ≡ spec.is_date text.now }
{
    let Some((year, rest)) = cut(text, '-') else {
        return false;
    };
    let Some((month, day)) = cut(rest, '-') else {
        return false;
    };
    is_day(year, month, day)
}

/// Returns whether `year`, `month` and `day` are spelled in four, two and two digits and are a day of the calendar.
fn is_day(year: &str, month: &str, day: &str) -> bool
    ensures { result ≡ spec.is_day (number_of 4 year.now) (number_of 2 month.now) (number_of 2 day.now) }
{
    let Some(year) = number(year, 4) else {
        return false;
    };
    let Some(month) = number(month, 2) else {
        return false;
    };
    let Some(day) = number(day, 2) else {
        return false;
    };
    Date::new(year as i16, month as i8, day as i8).is_ok()
}

/// Returns whether `text` is `Thh:mm:ss`, optionally a fraction of a second, and an offset.
fn is_time(text: &str) -> bool
    ensures { result ≡ spec.is_time text.now }
{
    let Some(text) = after(text, "T") else {
        return false;
    };
    let Some((time, rest)) = text.split_at_checked(8) else {
        return false;
    };
    is_time_of_day(time) && is_rest(rest)
}

/// Returns whether `text` is `hh:mm:ss`.
fn is_time_of_day(text: &str) -> bool
    ensures { result ≡ spec.time_of_day (pieces_at 58 text.now) }
{
    let Some((hours, rest)) = cut(text, ':') else {
        return false;
    };
    let Some((minutes, seconds)) = cut(rest, ':') else {
        return false;
    };
    is_at_most(hours, 23) && is_at_most(minutes, 59) && is_at_most(seconds, 59)
}

/// Returns whether `text` is an offset, optionally after a fraction of a second.
fn is_rest(text: &str) -> bool
    ensures { result ≡ spec.is_rest text.now }
{
    match after(text, ".") {
        Some(fraction) => is_fraction(fraction),
        None => is_offset(text),
    }
}

/// Returns whether `text` is 1 to 9 digits and an offset.
fn is_fraction(text: &str) -> bool
    ensures { result ≡ spec.is_fraction text.now }
{
    let count = digits_before(text);
    let Some((_, offset)) = text.split_at_checked(count) else {
        return false;
    };
    1 <= count && count <= 9 && is_offset(offset)
}

/// Returns the number of decimal digits that `text` begins with.
fn digits_before(text: &str) -> usize
    ensures { result ≡ spec.digits_before text.now }
{
    for (place, byte) in text.as_bytes().iter().enumerate() {
        if !byte.is_ascii_digit() {
            return place;
        }
    }
    text.len()
}

/// Returns whether `text` is `Z`, `+hh:mm` or `-hh:mm`.
fn is_offset(text: &str) -> bool
    ensures { result ≡ spec.is_offset text.now }
{
    if let Some(offset) = after(text, "+") {
        return is_hours_and_minutes(offset);
    }
    if let Some(offset) = after(text, "-") {
        return is_hours_and_minutes(offset);
    }
    text == "Z"
}

/// Returns whether `text` is `hh:mm`.
fn is_hours_and_minutes(text: &str) -> bool
    ensures { result ≡ spec.offset_of (pieces_at 58 text.now) }
{
    match cut(text, ':') {
        Some((hours, minutes)) => is_at_most(hours, 23) && is_at_most(minutes, 59),
        None => false,
    }
}

/// Returns whether `text` is two decimal digits that spell at most `most`.
fn is_at_most(text: &str, most: u64) -> bool
    ensures { result ≡ spec.is_at_most most (number_of 2 text.now) }
{
    match number(text, 2) {
        Some(n) => n <= most,
        None => false,
    }
}

/// Parses exactly `count` decimal digits.
fn number(text: &str, count: usize) -> Option<u64>
    ensures value { result ≡ number_of count text.now }
    ensures bound { IfSome result (λ n. n < 10 ^ count) }
{
    if text.len() != count {
        return None;
    }
    parse_number(text, count)
}
