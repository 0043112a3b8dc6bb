//! What a request would get if it were made now.
ghost use Rattle.std.specs.Prelude.{◌≡◌, option_map};
ghost use Rattle.ll_verdict.specs.Outcome.{outcome_of};
ghost use Rattle.ll_room.specs.Decided.{IsDecidedOfOne, reply_in};

use crate::room::Room;
use ll_verdict::{Outcome, Wanted};

/// What a request gets: the first of these that applies. It determines the reply, but for a playlist's text and the bytes of media.
#[derive(Clone, Copy)]
pub enum Decision {
    /// The channel has no rendition of that name, or the request is for media that isn't there and isn't the next part.
    NotFound,
    /// The requested playlist, delta update or media is there.
    There(Wanted),
    /// What the request awaits is too far ahead.
    TooFar,
    /// 65,536 requests of the channel wait.
    Busy,
    /// The request is held.
    Waits(Wanted),
}

impl Decision {
    /// Returns the outcome of the reply at once, or `None` if the request is held. `room` is the one that decided.
    pub fn outcome(&self, room: &Room) -> Option<Outcome>
        requires { IsDecidedOfOne room.now self.now }
        ensures { result ≡ option_map outcome_of (reply_in room.now self.now) }
    {
        match self {
            Decision::NotFound => Some(Outcome::NotFound),
            Decision::There(wanted) => room.presentation.outcome(wanted),
            Decision::TooFar => Some(Outcome::TooFar),
            Decision::Busy => Some(Outcome::Busy),
            Decision::Waits(_) => None,
        }
    }
}
