//! A room whose requests are known by their numbers alone.
ghost use Rattle.std.specs.Prelude.{◌≡◌, ◌≢◌, ◌+◌, ◌<◌, ◌≤◌, ◌^◌, ◌++◌, ◌∷◌, [], List, IfOk, IfErr, IsErrOf, OnErr, OnOk, Err, None, Some, is_some, option_map, false, true};
ghost use Rattle.ll_verdict.specs.Waiting.{reply_at};
ghost use Rattle.ll_verdict.specs.Events.{Event, Ask, Clock, Close, Collect, Publish};
ghost use Rattle.ll_verdict.specs.State.{state_of};
ghost use Rattle.ll_verdict.specs.Verdict.{at_once, held};
ghost use Rattle.ll_directive.specs.Targets.{WantValue};
ghost use Rattle.ll_room.specs.Answers.{asked, collected_at, is_open, now_in};
ghost use Rattle.ll_room.specs.Decided.{IsDecided, IsDecidedOfOne};
ghost use Rattle.ll_verdict.specs.Full.{event_end, refusal_after};
ghost use Rattle.ll_room.specs.RoomValue.{Stands, room_value};
ghost use Rattle.ll_room.specs.declared.stamped.Stamp.TheVariants as stamp;

use crate::asked::{Asked, Closed, Collected};
use crate::decision::Decision;
use crate::parked::Parked;
use crate::room::Room;
use crate::stamped::Stamped;
use ll_directive::Want;
use ll_item::Item;
use ll_settings::Settings;
use ll_verdict::{AskFault, ClockFault, PublishFault, Reply};
use std::alloc::{AllocError, Global};
use std::marker::Model;

/// A room whose caller knows a request by its number, and owes nobody a reply. It is for events that have happened before and are replayed.
#[derive(Drop)]
pub struct Replayer {
    room: Room,
}

impl Model for Replayer {
    ghost use Rattle.ll_room.specs.RoomValue.{RoomValue};

    ghost Value = { RoomValue };

    ghost view = { λ k. k.room };
}

impl Replayer {
    /// Returns room `channel` for a channel of `settings`, to which nothing has happened.
    pub fn new(alloc: Global, channel: u64, settings: Settings) -> Result<Replayer, AllocError>
        ensures { IfOk result (λ k. k ≡ room_value channel settings (state_of settings [])) }
    {
        Ok(Replayer {
            room: Room::new(alloc, channel, settings)?,
        })
    }

    /// Returns what it keeps of its channel.
    pub fn room(&self) -> &Room
        ensures { result.now ≡ self.now }
    {
        &self.room
    }

    /// Publishes `item` as [`Room::publish`] does.
    pub fn publish(&mut self, item: Item) -> Result<Stamped<u64>, PublishFault>
        ensures accepted { (events : List Event) → Stands self.old events → OnOk result
            ((refusal_after self.old.settings events item ≡ None) × Stands self.new (events ++ Publish item ∷ [])) }
        ensures count { IfOk result (λ n. n ≡ record { room = self.old.channel; stamp = stamp.Publish item; value = self.old.count + 1 }) }
        ensures refused { (events : List Event) → Stands self.old events
            → IfErr result (λ f. f ≢ PublishFault.Memory → refusal_after self.old.settings events item ≡ Some f) }
        ensures memory { (events : List Event) → Stands self.old events → IsErrOf result PublishFault.Memory → refusal_after self.old.settings events item ≡ None }
        ensures settings { self.new.settings ≡ self.old.settings }
        ensures unchanged { OnErr result (self.new ≡ self.old) }
    {
        self.room.publish(item)
    }

    /// Makes a request as [`Room::ask`] does. Returns its reply, or `None` if it is held, under the number [`Room::asks`] after this call.
    pub fn ask(&mut self, want: Want) -> Result<Option<Stamped<Reply>>, AskFault>
        ensures answer { (events : List Event) → Stands self.old events
            → IfOk result (λ a. a ≡ now_in (asked self.old want (at_once self.old.settings (held self.old.settings events) events want))) }
        ensures asked { (events : List Event) → Stands self.old events → OnOk result (Stands self.new (events ++ Ask want ∷ [])) }
        ensures within { OnOk result (self.old.events < event_end) }
        ensures full { IsErrOf result AskFault.RecordFull → event_end ≤ self.old.events }
        ensures memory { IsErrOf result AskFault.Memory → self.old.events < event_end }
        ensures settings { self.new.settings ≡ self.old.settings }
        ensures unchanged { OnErr result (self.new ≡ self.old) }
    {
        let asked = self.room.ask(want)?;
        Ok(given(asked))
    }

    /// Makes a request that [`Room::decide`] decided as `decision`, without its reply: no playlist is written.
    pub fn pass(&mut self, decision: Decision) -> Result<(), AllocError>
        requires few { self.old.events < event_end }
        requires decided { IsDecidedOfOne self.old decision }
        ensures asked { (events : List Event) (want : WantValue) → IsDecided self.old want decision → Stands self.old events
            → OnOk result (Stands self.new (events ++ Ask want ∷ [])) }
        ensures settings { self.new.settings ≡ self.old.settings }
        ensures unchanged { OnErr result (self.new ≡ self.old) }
    {
        self.room.pass(decision)
    }

    /// Hands out the reply to request `ticket`, which is then no longer open. Returns `None` if no reply to it is there. It takes no memory.
    pub fn collect(&mut self, ticket: u64) -> Option<Stamped<Reply>>
        ensures answer { result ≡ option_map (collected_at self.old ticket) (reply_at ticket self.old.slots) }
        ensures handed { is_some result ≡ true → (events : List Event) → Stands self.old events → Stands self.new (events ++ Collect ticket ∷ []) }
        ensures settings { self.new.settings ≡ self.old.settings }
        ensures nothing { is_some result ≡ false → self.new ≡ self.old }
    {
        match self.room.collect(Parked::new(self.room.channel(), ticket)) {
            Collected::Got(reply) => Some(reply),
            Collected::Still(parked) => {
                parked.spend();
                None
            }
            Collected::Stranger(parked) => {
                parked.spend();
                None
            }
        }
    }

    /// Closes request `ticket`, and returns whether it was open. It takes no memory.
    pub fn close(&mut self, ticket: u64) -> bool
        ensures answer { result ≡ is_open self.old ticket }
        ensures given_up { result ≡ true → (events : List Event) → Stands self.old events → Stands self.new (events ++ Close ticket ∷ []) }
        ensures settings { self.new.settings ≡ self.old.settings }
        ensures nothing { result ≡ false → self.new ≡ self.old }
    {
        match self.room.close(Parked::new(self.room.channel(), ticket)) {
            Closed::Done => true,
            Closed::Stranger(parked) => {
                parked.spend();
                false
            }
        }
    }

    /// Takes a reading of the clock as [`Room::clock`] does.
    pub fn clock(&mut self, ms: u64) -> Result<(), ClockFault>
        ensures passed { (events : List Event) → Stands self.old events → OnOk result (Stands self.new (events ++ Clock ms ∷ [])) }
        ensures within { OnOk result ((ms ≤ 2 ^ 60) × (self.old.events < event_end)) }
        ensures range { IsErrOf result ClockFault.ClockRange → 2 ^ 60 < ms }
        ensures full { IsErrOf result ClockFault.RecordFull → (ms ≤ 2 ^ 60) × (event_end ≤ self.old.events) }
        ensures memory { result ≢ Err ClockFault.Memory }
        ensures settings { self.new.settings ≡ self.old.settings }
        ensures unchanged { OnErr result (self.new ≡ self.old) }
    {
        self.room.clock(ms)
    }
}

/// Returns the reply at once, or `None` if the request is held.
fn given(asked: Asked) -> Option<Stamped<Reply>>
    ensures { result ≡ now_in asked }
{
    match asked {
        Asked::Now(reply) => Some(reply),
        Asked::Held(parked) => {
            parked.spend();
            None
        }
    }
}
