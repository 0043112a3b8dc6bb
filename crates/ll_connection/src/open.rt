//! One connection of a script that hasn't ended, and what comes to it.
ghost use Rattle.std.specs.Prelude.{List, Bool, ◌≡◌, ◌<◌, [], Ok, IfOk, OnOk, false, length, true};
ghost use Rattle.ll_session.specs.Talk.{fed};
ghost use Rattle.ll_script_rooms.specs.Kept.{answers_of, kept_world};
ghost use Rattle.ll_script_rooms.specs.World.{World, all_settings};
ghost use Rattle.ll_connection.specs.Visit as visit;
ghost use Rattle.ll_connection.specs.Stands.{AreTold, IsStill, IsToldVisit, IsVisit};

use crate::sent::Sent;
use ll_directive::{TargetFault, Want};
use ll_script::push_sent;
use ll_script_rooms::{ActAnswer, AskStop, Owner, Rooms};
use ll_session::Session;
use ll_settings::Channels;
use ll_verdict::{AskFault, Reply};
use ll_wire::Answer;
use std::alloc::AllocError;

/// A connection with its session, which must be ended.
pub(crate) struct Open {
    pub(crate) number: u64,
    pub(crate) session: Session,
}

impl Open {
    /// Takes the bytes `piece`, then hands in all requests up to one that waits, and writes the answers.
    pub(crate) fn arrive(
        &mut self,
        rooms: &mut Rooms,
        declared: &Channels,
        piece: &[u8],
        sent: &mut Sent,
    ) -> Result<(), AllocError>
        ensures arrived { (w : World) → rooms.old ≡ kept_world w → declared.now ≡ all_settings w
            → OnOk result ((lucks : List visit.Luck) × IsToldVisit self.old.number sent.old sent.new self.new.session rooms.new
            (visit.arrived lucks self.old.number piece.now (record { session = self.old.session; rooms = w }))) }
        ensures number { self.new.number ≡ self.old.number }
    {
        self.come(rooms, piece)?;
        self.submit(rooms, declared, sent)?;
        Ok(())
    }

    /// Answers the request that waited with `reply`, then hands in all requests up to one that waits, and writes the answers.
    pub(crate) fn release(
        &mut self,
        rooms: &mut Rooms,
        declared: &Channels,
        reply: Reply,
        sent: &mut Sent,
    ) -> Result<(), AllocError>
        ensures released { (w : World) → rooms.old ≡ kept_world w → declared.now ≡ all_settings w
            → OnOk result ((lucks : List visit.Luck) × IsToldVisit self.old.number sent.old sent.new self.new.session rooms.new
            (visit.released lucks self.old.number reply (record { session = self.old.session; rooms = w }))) }
        ensures number { self.new.number ≡ self.old.number }
    {
        self.put_out(&Answer::Reply(reply));
        self.submit(rooms, declared, sent)?;
        Ok(())
    }

    /// Takes the bytes `piece`. If there are too many after a request that waits, closes that request.
    fn come(&mut self, rooms: &mut Rooms, piece: &[u8]) -> Result<(), AllocError>
        ensures came { (w : World) → rooms.old ≡ kept_world w
            → OnOk result (IsVisit self.new.session rooms.new (visit.came self.old.number piece.now (record { session = self.old.session; rooms = w }))) }
        ensures fed { OnOk result (self.new.session ≡ fed self.old.session piece.now) }
        ensures number { self.new.number ≡ self.old.number }
    {
        if self.session.shut() {
            return Ok(());
        }
        self.session.feed(piece)?;
        if !self.session.shut() {
            return Ok(());
        }
        rooms.close(Owner::Connection(self.number));
        Ok(())
    }

    /// Hands in all requests up to one that waits, and writes the answers.
    fn submit(
        &mut self,
        rooms: &mut Rooms,
        declared: &Channels,
        sent: &mut Sent,
    ) -> Result<(), AllocError>
        ensures handed_in { (w : World) → rooms.old ≡ kept_world w → declared.now ≡ all_settings w
            → OnOk result ((lucks : List visit.Luck) × IsToldVisit self.old.number sent.old sent.new self.new.session rooms.new
            (visit.submit lucks self.old.number (record { session = self.old.session; rooms = w }))) }
        ensures number { self.new.number ≡ self.old.number }
    {
        loop {
            let more = self.step(rooms, declared)?;
            self.tell(sent)?;
            if !more {
                return Ok(());
            }
        }
    }

    /// Hands in the next request, if there is one. Returns whether another may follow.
    fn step(&mut self, rooms: &mut Rooms, declared: &Channels) -> Result<bool, AllocError>
        ensures stepped { (w : World) → rooms.old ≡ kept_world w → declared.now ≡ all_settings w
            → OnOk result ((luck : visit.Luck) × IsVisit self.new.session rooms.new (visit.step luck self.old.number (record { session = self.old.session; rooms = w }))) }
        ensures last { IfOk result (λ more. more ≡ false → IsStill self.old.number self.new.session) }
        ensures fewer { IfOk result (λ more. more ≡ true → length self.new.session.unread < length self.old.session.unread) }
        ensures number { self.new.number ≡ self.old.number }
    {
        let Ok(taken) = self.session.next_want() else {
            self.session.mute();
            return Ok(false);
        };
        let Some(want) = taken else {
            return Ok(false);
        };
        match self.ask(rooms, declared, want)? {
            Some(answer) => {
                self.put_out(&answer);
                Ok(true)
            }
            None => {
                self.come(rooms, &[])?;
                Ok(false)
            }
        }
    }

    /// Puts out `answer` to the want that is out, if one is; shuts the session if that is out of memory.
    fn put_out(&mut self, answer: &Answer)
        ensures put { (found : Bool) × (self.new.session ≡ visit.put_out found self.old.session answer.now) }
        ensures number { self.new.number ≡ self.old.number }
    {
        if !self.session.waiting() {
            return;
        }
        if self.session.answered(answer).is_err() {
            self.session.mute();
        }
    }

    /// Makes the request `want`. Returns its answer, or `None` if it waits.
    fn ask(
        &self,
        rooms: &mut Rooms,
        declared: &Channels,
        want: Want,
    ) -> Result<Option<Answer>, AllocError>
        ensures asked { (w : World) → rooms.old ≡ kept_world w → declared.now ≡ all_settings w
            → IfOk result (λ answer. (found : Bool) × (rooms.new ≡ kept_world (visit.asked found self.now.number want w).rooms) × (answer ≡ (visit.asked found self.now.number want w).answer)) }
    {
        let Some((place, _)) = declared.find(want.channel()) else {
            return Ok(Some(Answer::Target(TargetFault::NotFound)));
        };
        match rooms.ask(Owner::Connection(self.number), place, want) {
            Ok(said) => Ok(spoken(said)),
            Err(AskStop::Request) => Ok(Some(Answer::Unavailable(AskFault::Memory))),
            Err(AskStop::Place) => Err(AllocError),
        }
    }

    /// Ends the session, and returns the error out of memory.
    pub(crate) fn fail(self) -> AllocError {
        let Open { number: _, session } = self;
        session.end();
        AllocError
    }

    /// Writes the answers of the session to `sent`, and takes them out of it.
    fn tell(&mut self, sent: &mut Sent) -> Result<(), AllocError>
        ensures told { OnOk result (AreTold self.old.number self.old.session.answers sent.old sent.new) }
        ensures session { OnOk result (self.new.session ≡ record self.old.session { answers = [] }) }
        ensures number { self.new.number ≡ self.old.number }
    {
        while let Some(answer) = self.session.first_answer() {
            push_sent(&mut sent.text, self.number, &answer)?;
            self.session.first_sent();
            sent.replies = sent.replies.saturating_add(1);
        }
        Ok(())
    }
}

/// Returns what a player gets for the rooms' answer to its request.
fn spoken(said: Option<ActAnswer>) -> Option<Answer>
    ensures { result ≡ visit.first_spoken (answers_of said) }
{
    match said? {
        ActAnswer::Replied(_, reply) => Some(Answer::Reply(reply)),
        ActAnswer::Unavailable(_) => Some(Answer::Unavailable(AskFault::RecordFull)),
        _ => None,
    }
}
