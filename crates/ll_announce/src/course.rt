//! The course of a rendition, by which its publisher announces an encoder's pieces.
ghost use Rattle.std.specs.Prelude.{◌≡◌, ◌++◌, ◌∷◌, [], IfOk, fold, true};
ghost use Rattle.ll_announce.specs.Courses as spec;
ghost use Rattle.ll_announce.specs.Meaning.{named};

use crate::message::Message;
use crate::messages::Messages;
use crate::names::Names;
use crate::place::Place;
use crate::said::Said;
use crate::standing::Standing;
use ll_parts::Piece;
use std::alloc::{AllocError, Global};

/// Where a rendition goes on after all that was announced so far. Times are in microseconds since 1970-01-01T00:00:00Z, at most
/// 2^64 - 1.
#[derive(Clone, Copy)]
pub struct Course {
    /// The place of the next part.
    pub place: Place,
    /// When the next part begins.
    pub next_start: u64,
    /// The time of the tick from which the encoder's times are counted.
    pub origin: u64,
}

/// Returns `ms` milliseconds as microseconds, at most 2^64 - 1.
fn from_millis(ms: u64) -> u64
    ensures { result ≡ spec.from_millis ms }
{
    ms.saturating_mul(1_000)
}

impl Course {
    /// Returns the course of a rendition that stands at `standing`.
    pub fn of(standing: &Standing) -> Course
        ensures { result ≡ spec.course_of standing.now }
    {
        let next_start = from_millis(standing.time);
        Course {
            place: standing.place,
            next_start,
            origin: next_start,
        }
    }

    /// Adds the messages of `piece` to `out`, and moves the course past them. `part` is the longest part in microseconds; `now` is the time
    /// of the clock in milliseconds, which is used only if a movie begins.
    pub fn announce(
        &mut self,
        alloc: Global,
        names: &Names<'_>,
        part: u64,
        now: u64,
        piece: &Piece,
        out: &mut Messages,
    ) -> Result<(), AllocError>
        ensures said { IfOk result (λ _. out.new ≡ out.old ++ spec.spoken (named names.now) part self.old now piece.now) }
        ensures counted { IfOk result (λ _. self.new ≡ spec.course_then self.old (spec.spoken (named names.now) part self.old now piece.now) piece.now) }
    {
        match piece {
            Piece::Begin(section) => {
                self.open(alloc, names, part, now, out)?;
                self.say(Message::init(alloc, names, section)?, out)?;
                self.origin = self.next_start;
                Ok(())
            }
            Piece::Init(section) => self.say(Message::init(alloc, names, section)?, out),
            Piece::Media(media) => self.say(Message::part(alloc, names, media)?, out),
            Piece::Finish => self.say(Message::finish(alloc, names)?, out),
            Piece::Break(None) => {
                self.say(Message::of_break(alloc, names, None)?, out)?;
                self.origin = self.next_start;
                Ok(())
            }
            Piece::Break(Some(since)) => {
                let time = self.gap_time(*since);
                self.say(Message::of_break(alloc, names, Some(time))?, out)
            }
        }
    }

    /// Adds `message` to `out`, and moves the course past it.
    fn say(&mut self, message: Message, out: &mut Messages) -> Result<(), AllocError>
        ensures said { IfOk result (λ _. out.new ≡ out.old ++ message ∷ []) }
        ensures counted { IfOk result (λ _. self.new ≡ spec.course_by self.old message) }
    {
        self.count(message.said());
        out.push(message)
    }

    /// Moves the course past an item that is announced.
    fn count(&mut self, said: Said)
        ensures { self.new ≡ spec.course_after self.old said }
    {
        self.place = self.place.after(said);
        self.next_start = match said {
            Said::Part { duration, .. } => self.next_start.saturating_add(duration),
            Said::Break { time: Some(ms) } => from_millis(ms),
            _ => self.next_start,
        };
    }

    /// Adds to `out` the messages before a movie's initialization section: a finish, if a segment is open, and a break, if one is due.
    fn open(
        &mut self,
        alloc: Global,
        names: &Names<'_>,
        part: u64,
        now: u64,
        out: &mut Messages,
    ) -> Result<(), AllocError>
        ensures said { IfOk result (λ _. out.new ≡ out.old ++ spec.begun (named names.now) part self.old now) }
        ensures counted { IfOk result (λ _. self.new ≡ fold spec.course_by self.old (spec.begun (named names.now) part self.old now)) }
    {
        let opening = self.opening(part, now);
        if self.place.index != 0 {
            self.say(Message::finish(alloc, names)?, out)?;
        }
        if let Some(time) = opening {
            self.say(Message::of_break(alloc, names, time)?, out)?;
        }
        Ok(())
    }

    /// Returns whether a break comes before a movie, and the time in milliseconds that it sets, if it does.
    fn opening(&self, part: u64, now: u64) -> Option<Option<u64>>
        ensures { result ≡ spec.opening part self.now now }
    {
        let time = from_millis(now);
        if self.place.end != 0 {
            Some(if time < self.next_start {
                None
            } else {
                Some(now)
            })
        } else if self.next_start.saturating_add(part) < time {
            Some(Some(now))
        } else {
            None
        }
    }

    /// Returns the time in milliseconds that a break sets after which the encoder's times go on `since` microseconds after the tick from
    /// which they are counted: no earlier than the next part would begin without it.
    fn gap_time(&self, since: u64) -> u64
        ensures { result ≡ spec.gap_time self.now since }
    {
        let time = self.origin.saturating_add(since);
        time.div_ceil(1_000).max(self.next_start.div_ceil(1_000))
    }
}
