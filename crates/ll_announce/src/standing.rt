//! Reads an origin's answer that says where a rendition stands.
ghost use Rattle.std.specs.Prelude.{◌≡◌};
ghost use Rattle.std.specs.Option.{option_map};
ghost use Rattle.ll_announce.specs.Standings as spec;

use crate::place::Place;
use ll_attr::after;
use ll_format::{flag_at, number, until};

/// Where a rendition stands.
#[derive(Clone, Copy)]
pub struct Standing {
    /// The number of items that the channel has accepted.
    pub count: u64,
    /// The place of the next part.
    pub place: Place,
    /// When the next part begins, in milliseconds since 1970-01-01T00:00:00Z, rounded up: the earliest time that a break can set.
    pub time: u64,
}

impl Standing {
    /// Reads an origin's answer `at COUNT NUMBER INDEX END TIME`, then ` ended` if the rendition has ended; `line` is without its end.
    pub fn read(line: &str) -> Option<Standing>
        ensures { result ≡ spec.standing.read line.now }
    {
        match standing_at(line) {
            Some((standing, "")) => Some(standing),
            _ => None,
        }
    }
}

/// Reads the standing that `text` begins with, and returns the rest too.
fn standing_at(text: &str) -> Option<(Standing, &str)>
    ensures { spec.numbers_format.read text.now ≡ option_map (λ r. (spec.numbers_of r.0, r.1.now)) result }
{
    let (count, rest) = number_at(after(text, "at ")?)?;
    let (place, rest) = place_at(after(rest, " ")?)?;
    let (time, rest) = number_at(after(rest, " ")?)?;
    let (ended, rest) = flag_at(rest, " ended");
    let (number, index, end) = place;
    let place = Place {
        number,
        index,
        end,
        ended,
    };
    Some((Standing { count, place, time }, rest))
}

/// Reads a Media Sequence Number, a Part Index and a number of microseconds, with a space between two of them.
fn place_at(text: &str) -> Option<((u64, u64, u64), &str)>
    ensures { spec.place_format.read text.now ≡ option_map (λ r. ((r.0.0, (r.0.1, r.0.2)), r.1.now)) result }
{
    let (number, rest) = number_at(text)?;
    let (index, rest) = number_at(after(rest, " ")?)?;
    let (end, rest) = number_at(after(rest, " ")?)?;
    Some(((number, index, end), rest))
}

/// Reads a number up to a space or the end.
fn number_at(text: &str) -> Option<(u64, &str)>
    ensures { spec.number_format.read text.now ≡ option_map (λ r. (r.0, r.1.now)) result }
{
    let (digits, rest) = until(text, ' ');
    Some((number(digits, u64::MAX)?, rest))
}
