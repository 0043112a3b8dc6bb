//! Requests: each gets a reply at once, or is held (blocking playlist reload, section 6.2.5.2).
ghost use Rattle.std.specs.Prelude.{◌≡◌, ◌+◌, ◌<◌, ◌≤◌, ◌++◌, ◌∷◌, [], List, IfOk, IsErrOf, OnOk, OnErr, Some, false, length, true};
ghost use Rattle.ll_directive.specs.Files.{is_playlist};
ghost use Rattle.ll_verdict.specs.Events.{Event, Ask};
ghost use Rattle.ll_verdict.specs.State.{waiting_in};
ghost use Rattle.ll_verdict.specs.Verdict.{at_once, held, waiting_limit, wanted_of};
ghost use Rattle.ll_directive.specs.Targets.{WantValue};
ghost use Rattle.ll_room.specs.Answers.{asked, new_tickets, others};
ghost use Rattle.ll_room.specs.Decided.{IsDecided, IsDecidedOfOne};
ghost use Rattle.ll_verdict.specs.Full.{event_end};
ghost use Rattle.ll_room.specs.RoomValue.{IsSame, Stands, tickets};
ghost use Rattle.ll_room.specs.Kept.{with_answer, with_held};

use crate::asked::Asked;
use crate::decision::Decision;
use crate::parked::Parked;
use crate::room::{EVENT_END, Room};
use crate::stamped::{Stamp, Stamped};
use ll_book::ParkFault;
use ll_directive::Want;
use ll_item::What;
use ll_verdict::{AskFault, Entry, Reply, Wanted};
use std::alloc::AllocError;

/// The milliseconds that a request waits for each second of the target duration: three target durations.
const WAIT: u64 = 3_000;

impl Room {
    /// Makes the request `want`, which gets its reply at once or is held, by the first of these that applies:
    ///
    /// 1. The channel has no rendition of that name: NotFound.
    /// 2. It is for a playlist and awaits nothing, what it awaits is there, or its rendition has ended: the playlist or delta update as it is now. Or
    ///    it is for media that is there: its bytes.
    /// 3. It is for a playlist, and what it awaits is too far ahead: TooFar. Or it is for media other than the next part, which the Preload Hint
    ///    names: NotFound.
    /// 4. 65,536 requests of the channel wait: Busy.
    /// 5. It is held.
    ///
    /// Fails with `RecordFull` if the channel has taken 2^60 events, and with `Memory`. If it fails, nothing changes.
    pub fn ask(&mut self, want: Want) -> Result<Asked, AskFault>
        ensures answer { (events : List Event) → Stands self.old events
            → IfOk result (λ a. a ≡ asked self.old want (at_once self.old.settings (held self.old.settings events) events want)) }
        ensures asked { (events : List Event) → Stands self.old events → OnOk result (Stands self.new (events ++ Ask want ∷ [])) }
        ensures within { OnOk result (self.old.events < event_end) }
        ensures full { IsErrOf result AskFault.RecordFull → event_end ≤ self.old.events }
        ensures memory { IsErrOf result AskFault.Memory → self.old.events < event_end }
        ensures opened { IfOk result (λ a. tickets self.new ≡ tickets self.old ++ new_tickets a) }
        ensures newest { IfOk result (λ a. others a (tickets self.new) ≡ tickets self.old) }
        ensures same { IsSame self.old self.new }
        ensures unchanged { OnErr result (self.new ≡ self.old) }
    {
        if self.events >= EVENT_END {
            return Err(AskFault::RecordFull);
        }
        let decision = self.decide(&want);
        Ok(self.ask_decided(want, decision)?)
    }

    /// Returns what the request `want` would get if it were made now. It takes no memory.
    pub fn decide(&self, want: &Want) -> Decision
        ensures { IsDecided self.now want.now result }
    {
        let Some(wanted) = self.presentation.wanted(want) else {
            return Decision::NotFound;
        };
        match wanted.what {
            What::Playlist => self.decide_playlist(want, wanted),
            _ => self.decide_media(want, wanted),
        }
    }

    /// Decides a request for a playlist.
    fn decide_playlist(&self, _want: &Want, wanted: Wanted) -> Decision
        requires asks { wanted_of self.now.settings _want.now ≡ Some wanted }
        requires within { wanted.rendition < length self.now.renditions }
        requires playlist { is_playlist wanted.what ≡ true }
        ensures { IsDecided self.now _want.now result }
    {
        if self.presentation.is_there(&wanted) {
            return Decision::There(wanted);
        }
        if self.presentation.is_far(&wanted) {
            return Decision::TooFar;
        }
        if self.book.is_busy() {
            return Decision::Busy;
        }
        Decision::Waits(wanted)
    }

    /// Decides a request for media.
    fn decide_media(&self, _want: &Want, wanted: Wanted) -> Decision
        requires asks { wanted_of self.now.settings _want.now ≡ Some wanted }
        requires within { wanted.rendition < length self.now.renditions }
        requires media { is_playlist wanted.what ≡ false }
        ensures { IsDecided self.now _want.now result }
    {
        if self.presentation.has_media(&wanted) {
            return Decision::There(wanted);
        }
        if !self.presentation.is_hinted(&wanted) {
            return Decision::NotFound;
        }
        if self.book.is_busy() {
            return Decision::Busy;
        }
        Decision::Waits(wanted)
    }

    /// Makes the request `want`, for which [`Room::decide`] returned `decision`. If it fails, nothing changes.
    pub fn ask_decided(&mut self, want: Want, decision: Decision) -> Result<Asked, AllocError>
        requires few { self.old.events < event_end }
        requires decided { IsDecided self.old want decision }
        ensures answer { (events : List Event) → Stands self.old events
            → IfOk result (λ a. a ≡ asked self.old want (at_once self.old.settings (held self.old.settings events) events want)) }
        ensures asked { (events : List Event) → Stands self.old events → OnOk result (Stands self.new (events ++ Ask want ∷ [])) }
        ensures opened { IfOk result (λ a. tickets self.new ≡ tickets self.old ++ new_tickets a) }
        ensures newest { IfOk result (λ a. others a (tickets self.new) ≡ tickets self.old) }
        ensures same { IsSame self.old self.new }
        ensures unchanged { OnErr result (self.new ≡ self.old) }
    {
        // Serves the proof alone: a request waits for some time.
        let _ = &self.presentation;
        match decision {
            Decision::NotFound => Ok(self.answer(want, Reply::NotFound)),
            Decision::There(wanted) => {
                let reply = self.presentation.reply(&wanted)?;
                Ok(self.answer(want, reply))
            }
            Decision::TooFar => Ok(self.answer(want, Reply::TooFar)),
            Decision::Busy => Ok(self.answer(want, Reply::Busy)),
            Decision::Waits(wanted) => Ok(Asked::Held(self.hold(wanted)?)),
        }
    }

    /// Makes a request that was decided as `decision`, without its reply: no playlist is written. If it fails, nothing changes.
    pub(crate) fn pass(&mut self, decision: Decision) -> Result<(), AllocError>
        requires few { self.old.events < event_end }
        requires decided { IsDecidedOfOne self.old decision }
        ensures asked { (events : List Event) (want : WantValue) → IsDecided self.old want decision → Stands self.old events
            → OnOk result (Stands self.new (events ++ Ask want ∷ [])) }
        ensures same { IsSame self.old self.new }
        ensures unchanged { OnErr result (self.new ≡ self.old) }
    {
        // Serves the proof alone: a request waits for some time.
        let _ = &self.presentation;
        if let Decision::Waits(wanted) = decision {
            self.hold(wanted)?.spend();
        } else {
            self.count_ask();
        }
        Ok(())
    }

    /// Counts a request that is answered at once, and returns its answer.
    fn answer(&mut self, want: Want, reply: Reply) -> Asked
        requires { self.old.events < event_end }
        ensures answer { result ≡ asked self.old want (Some reply) }
        ensures counted { self.new ≡ with_answer self.old }
    {
        self.count_ask();
        Asked::Now(Stamped::new(self.channel, Stamp::Ask(self.asks, want), reply))
    }

    /// Counts a request that isn't held.
    fn count_ask(&mut self)
        requires { self.old.events < event_end }
        ensures { self.new ≡ with_answer self.old }
    {
        self.asks += 1;
        self.events += 1;
    }

    /// Holds a request and counts it.
    fn hold(&mut self, wanted: Wanted) -> Result<Parked, AllocError>
        requires few { self.old.events < event_end }
        requires free { waiting_in self.old.slots < waiting_limit }
        ensures parked { IfOk result (λ p. p ≡ record { channel = self.old.channel; ticket = self.old.asks + 1 }) }
        ensures held { OnOk result (self.new ≡ with_held self.old wanted) }
        ensures unchanged { OnErr result (self.new ≡ self.old) }
    {
        let ticket = self.asks + 1;
        let entry = Entry {
            ticket,
            wanted,
            seen: self.presentation.count(),
            deadline: self.time + WAIT * self.presentation.settings().target(),
        };
        match self.book.park(entry) {
            Ok(()) => {}
            Err(ParkFault::Busy) => unreachable!(),
            Err(ParkFault::Memory) => return Err(AllocError),
        }
        self.asks = ticket;
        self.events += 1;
        Ok(Parked::new(self.channel, ticket))
    }
}
