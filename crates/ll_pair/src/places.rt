//! Which of several standings is furthest on.
ghost use Rattle.std.specs.Prelude.{◌≡◌};
ghost use Rattle.std.specs.Option.{option_map};
ghost use Rattle.ll_pair.specs.Places as spec;

use ll_announce::{Place, Standing};

/// Returns the standing whose place is furthest on of those that are known, the first of several such, or `None` if none is known.
pub fn furthest(standings: &[Option<Standing>]) -> Option<Standing>
    ensures { result ≡ spec.furthest standings.now }
{
    standings
        .iter()
        .fold(None, |best, standing| further_of(best, *standing))
}

/// Returns the one of two standings that is further on: `other` only if it is beyond `best`.
fn further_of(best: Option<Standing>, other: Option<Standing>) -> Option<Standing>
    ensures { result ≡ spec.further_of best other }
{
    match (best, other) {
        (Some(one), Some(two)) if is_beyond(two.place, one.place) => Some(two),
        (Some(one), _) => Some(one),
        (None, other) => other,
    }
}

/// Returns whether `place` is beyond `other`: by its number, then its index, then the end of all parts.
fn is_beyond(place: Place, other: Place) -> bool
    ensures { result ≡ spec.is_beyond place other }
{
    if place.number != other.number {
        place.number > other.number
    } else if place.index != other.index {
        place.index > other.index
    } else {
        place.end > other.end
    }
}
