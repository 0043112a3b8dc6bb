//! The rooms of a script's channels, with the requests that wait in them.
ghost use Rattle.std.specs.Prelude.{◌≢◌, ◌≡◌, ◌<◌, ◌++◌, ◌∷◌, [], ℕ, None, Some, true, IfOk, IsErrOf, OnErr, OnOk, is_some, length, slice_get};
ghost use Rattle.ll_script_rooms.specs.Kept.{Leads, kept_world};
ghost use Rattle.ll_script_rooms.specs.World as world;
ghost use Rattle.ll_script_rooms.specs.World.{World, start};
ghost use Rattle.ll_script_rooms.specs.Waits.{under, wait_of, without};

use crate::answer::{ActAnswer, AskStop};
use crate::held::Held;
use crate::owner::Owner;
use crate::wait::Wait;
use ll_directive::Want;
use ll_item::Item;
use ll_room::{AskFault, Asked, Closed, Collected, Room};
use ll_settings::Settings;
use ll_verdict::{PublishFault, Standing};
use std::alloc::{AllocError, Global};
use std::marker::Model;

/// The channels of a script, at places from 0 in order of declaration, with the requests that wait in them. It can be dropped only if no
/// request waits; [`Rooms::finish`] closes those that do.
pub struct Rooms {
    alloc: Global,
    rooms: Vec<Room>,
    held: Held,
    events: u64,
}

impl Model for Rooms {
    ghost use Rattle.ll_script_rooms.specs.Kept.{AreTied, Kept};

    ghost Value = { Kept };

    ghost view = { λ r. record { rooms = r.rooms.items; waits = r.held; events = r.events } };

    ghost invariant = { λ r. AreTied r.rooms.items r.held };
}

/// Only a value in which no request waits can be dropped, so forgetting a request is a failed proof.
impl Drop for Rooms {
    fn drop(self)
        requires { self.waits ≡ [] }
    {
        let Rooms {
            alloc: _,
            rooms: _,
            held: _held,
            events: _,
        } = self;
    }
}

impl Rooms {
    /// Returns rooms without channels.
    pub fn new(alloc: Global) -> Rooms
        ensures { result ≡ kept_world start }
    {
        Rooms {
            alloc,
            rooms: Vec::new(alloc),
            held: Held::new(alloc),
            events: 0,
        }
    }

    /// Returns the number of requests that wait in all channels.
    pub fn waiting(&self) -> usize
        ensures { result ≡ length self.now.waits }
    {
        self.held.count()
    }

    /// Returns the number of events that lines caused in all channels: items, requests, closes and readings of the clock, but not
    /// replies that were handed out. It stays at 2^64 - 1 once it is there.
    pub fn events(&self) -> u64
        ensures { result ≡ self.now.events }
    {
        self.events
    }

    /// Adds a channel with `settings` and no events after the others.
    pub fn declare(&mut self, settings: Settings) -> Result<(), AllocError>
        ensures declared { (w : World) → self.old ≡ kept_world w → OnOk result (Leads self.new None w (world.declare settings w)) }
        ensures unchanged { OnErr result (self.new ≡ self.old) }
    {
        let room = Room::new(self.alloc, self.rooms.len() as u64, settings)?;
        self.rooms.push(room)?;
        Ok(())
    }

    /// Offers `item` to the channel at `place`. Returns `None` if there is no such channel.
    pub fn offer(&mut self, place: usize, item: Item) -> Result<Option<ActAnswer>, AllocError>
        ensures offered { (w : World) → self.old ≡ kept_world w → IfOk result (λ a. Leads self.new a w (world.offer place item w)) }
        ensures unchanged { OnErr result (self.new ≡ self.old) }
    {
        let Some(room) = self.rooms.get_mut(place) else {
            return Ok(None);
        };
        let count = match room.publish(item) {
            Ok(count) => count.into_inner(),
            Err(fault) => {
                let answer = refused(fault)?;
                return Ok(Some(answer));
            }
        };
        self.events = self.events.saturating_add(1);
        Ok(Some(ActAnswer::Accepted(count)))
    }

    /// Returns where the rendition of index `rendition` of the channel at `place` stands, or `None` if there is no such channel or
    /// rendition. It is no event.
    pub fn standing(&self, place: usize, rendition: usize) -> Option<Standing>
        ensures { (w : World) → self.now ≡ kept_world w → result ≡ world.standing place rendition w }
    {
        let room = self.rooms.get(place)?;
        room.standing(rendition)
    }

    /// Makes the request `want` of the channel at `place`, for `owner`. Returns `None` if the request waits, or if there is no such channel.
    pub fn ask(
        &mut self,
        owner: Owner,
        place: usize,
        want: Want,
    ) -> Result<Option<ActAnswer>, AskStop>
        ensures asked { (w : World) → self.old ≡ kept_world w → IfOk result (λ a. Leads self.new a w (world.ask owner place want w)) }
        ensures unchanged { IsErrOf result AskStop.Request → self.new ≡ self.old }
    {
        let Some(room) = self.rooms.get_mut(place) else {
            return Ok(None);
        };
        match room.ask(want) {
            Ok(Asked::Now(reply)) => {
                self.events = self.events.saturating_add(1);
                Ok(Some(ActAnswer::Replied(owner, reply.into_inner())))
            }
            Ok(Asked::Held(parked)) => match self.held.put(owner, parked) {
                Ok(()) => {
                    self.events = self.events.saturating_add(1);
                    Ok(None)
                }
                Err(parked) => match room.close(parked) {
                    Closed::Done => Err(AskStop::Place),
                    Closed::Stranger(_parked) => unreachable!(),
                },
            },
            Err(AskFault::RecordFull) => Ok(Some(ActAnswer::Unavailable(owner))),
            Err(AskFault::Memory) => Err(AskStop::Request),
        }
    }

    /// Closes the first request of `owner` that waits, without a reply. Returns whether one waited.
    pub fn close(&mut self, owner: Owner) -> bool
        ensures waited { result ≡ is_some (wait_of owner self.old.waits) }
        ensures closed { (w : World) → self.old ≡ kept_world w → Leads self.new None w (world.close owner w) }
    {
        match self.held.of(owner) {
            Some(wait) => {
                self.give_up(wait);
                true
            }
            None => false,
        }
    }

    /// Closes the request `wait`, without a reply.
    fn give_up(&mut self, wait: Wait)
        requires { is_some (under wait.place wait.ticket self.old.waits) ≡ true }
        ensures given_up { (w : World) → self.old ≡ kept_world w → Leads self.new None w (world.close_at w wait (slice_get w.channels wait.place)) }
        ensures left { self.new.waits ≡ without wait.place wait.ticket self.old.waits }
    {
        let Some(parked) = self.held.take(wait.place, wait.ticket) else {
            unreachable!();
        };
        let Some(room) = self.rooms.get_mut(wait.place) else {
            unreachable!();
        };
        match room.close(parked) {
            Closed::Done => self.events = self.events.saturating_add(1),
            Closed::Stranger(_parked) => unreachable!(),
        }
    }

    /// Passes a reading of the clock, `ms` milliseconds, to the channel at `place`. Returns its refusal, or `None` if it is accepted or
    /// there is no such channel.
    pub fn clock(&mut self, place: usize, ms: u64) -> Option<ActAnswer>
        ensures clocked { (w : World) → self.old ≡ kept_world w → Leads self.new result w (world.clock place ms w) }
    {
        let room = self.rooms.get_mut(place)?;
        if let Err(fault) = room.clock(ms) {
            return Some(ActAnswer::ClockRefused(fault));
        }
        self.events = self.events.saturating_add(1);
        None
    }

    /// Hands out the reply of the channel at `place` that is due and was asked for first. Returns `None` if none is due there.
    pub fn next_due(&mut self, place: usize) -> Option<ActAnswer>
        ensures told { (w : World) → self.old ≡ kept_world w → Leads self.new result w (world.next_reply place w) }
        ensures still { (w : World) → self.old ≡ kept_world w → result ≡ None → world.next_reply place w ≡ w }
    {
        let room = self.rooms.get_mut(place)?;
        let ticket = room.next_ready()?;
        let Some(wait) = self.held.under(place, ticket) else {
            unreachable!();
        };
        let Some(parked) = self.held.take(place, ticket) else {
            unreachable!();
        };
        match room.collect(parked) {
            Collected::Got(reply) => Some(ActAnswer::Replied(wait.owner, reply.into_inner())),
            Collected::Still(_parked) => unreachable!(),
            Collected::Stranger(_parked) => unreachable!(),
        }
    }

    /// Closes all requests that still wait, and drops the channels.
    pub fn finish(mut self) {
        loop {
            match self.held.first() {
                Some(wait) => self.give_up(wait),
                None => {
                    let Rooms {
                        alloc: _,
                        rooms: _,
                        held: _held,
                        events: _,
                    } = self;
                    return;
                }
            }
        }
    }
}

/// Returns the answer to an item that was refused for `fault`; out of memory is an error, not an answer.
fn refused(fault: PublishFault) -> Result<ActAnswer, AllocError>
    ensures { IfOk result (λ a. (fault ≢ PublishFault.Memory) × (a ≡ ActAnswer.Refused fault)) }
{
    if fault == PublishFault::Memory {
        return Err(AllocError);
    }
    Ok(ActAnswer::Refused(fault))
}
