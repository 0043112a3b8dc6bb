//! What lies under a channel's lock. Each method is one locked section.
ghost use Rattle.std.specs.Prelude.{◌≡◌, ◌≢◌, ◌+◌, ◌<◌, ◌≤◌, ◌++◌, ◌∷◌, [], List, IfErr, IfOk, MatchBool, MatchOption, None, Some, OnErr, OnOk, filter, length, position, if◌then◌else◌};
ghost use Rattle.std.specs.Bool.{Decides};
ghost use Rattle.std.specs.VecDeque.{deque_capacity, deque_len};
ghost use Rattle.ll_verdict.specs.Waiting as waiting;
ghost use Rattle.ll_verdict.specs.Waiting.{found};
ghost use Rattle.ll_hub_channel.specs.Channel.{IsChannel, is_of, parked_for, ticket_at};
ghost use Rattle.ll_hub_channel.specs.Section as spec;
ghost use Rattle.ll_hub_channel.specs.Told.{IsAccepted, IsReadingRefused, IsStanding, IsTotalOf};
ghost use Rattle.ll_record.specs.Chunk.{IsChunk, IsFaithful, emptied};
ghost use Rattle.ll_record.specs.Recording.{GoesOn, IsRecorded, of_channel};
ghost use Rattle.ll_room.specs.RoomValue.{among, room_value, less, tickets};
ghost use Rattle.ll_room.specs.declared.stamped.Stamp.TheVariants as stamp;
ghost use Rattle.ll_verdict.specs.Events.{Event, Ask, Clock, Publish};
ghost use Rattle.ll_verdict.specs.State.{state_of};

use crate::fault::{HubFault, RoomFault};
use crate::same::is_entry;
use crate::total::Total;
use ll_directive::Want;
use ll_item::Item;
use ll_record::{Chunk, Recorder};
use ll_room::{Asked, Closed, Collected, Parked, Stamped, Stored};
use ll_settings::Settings;
use ll_verdict::{ClockFault, Entry, Reply, Standing};
use std::alloc::{AllocError, Global};
use std::collections::VecDeque;
use std::marker::Model;

/// A channel as a caller knows it.
#[derive(Clone, Copy)]
pub struct Known<'a> {
    /// The place of the channel, which is its room's number.
    pub place: usize,
    /// Its settings.
    pub settings: &'a Settings,
    /// The number of items that the caller has seen of it.
    pub seen: u64,
}

/// The result of a request of a channel.
pub enum AtOnce {
    /// Its reply.
    Now(Stamped<Reply>),
    /// The request, because it is held.
    Held(Entry),
}

/// The result of asking for the reply of a held request.
pub enum Tried {
    /// Its reply.
    Got(Stamped<Reply>),
    /// It is still held.
    Still,
    /// It isn't held here.
    Stranger,
}

/// A channel's room with the record of its events, and the values that stand for its open requests.
pub struct Channel {
    recorder: Recorder,
    parked: VecDeque<Stored>,
}

impl Model for Channel {
    ghost use Rattle.ll_record.specs.Recording.{Recording};
    ghost use Rattle.ll_hub_channel.specs.Channel.{IsChannel};

    ghost Value = { Recording };

    ghost view = { λ c. c.recorder };

    ghost invariant = { λ c. IsChannel c.recorder c.parked.items };
}

impl Channel {
    /// Returns the channel at place `place`, to which nothing has happened.
    pub fn new(alloc: Global, place: usize, settings: Settings) -> Result<Channel, AllocError>
        ensures new { IfOk result (λ c. c ≡ record { room = room_value place settings (state_of settings []); at = 0; lines = []; calls = 0 }) }
        ensures recorded { IfOk result (λ c. IsRecorded c []) }
    {
        Ok(Channel {
            recorder: Recorder::new(alloc, place as u64, settings)?,
            parked: VecDeque::new(alloc),
        })
    }

    /// Returns how many replies are there that weren't collected.
    pub fn ready(&self) -> usize
        ensures { result ≡ length (filter waiting.is_ready self.now.room.slots) }
    {
        self.recorder.room().ready()
    }

    /// Keeps those of `tickets` whose requests are open and have their reply.
    pub fn keep_ready(&self, tickets: &mut Vec<u64>)
        ensures { tickets.new.items ≡ filter (spec.has_reply self.now.room.slots) tickets.old.items }
    {
        let room = self.recorder.room();
        tickets.retain(
            |ticket: &u64| -> bool
                ensures { result ≡ spec.has_reply room.entry.now.slots ticket.now }
            { room.ready_at(*ticket).is_some() },
        );
    }

    /// Returns whether this is the channel that the caller knows.
    pub fn is_at(&self, known: Known<'_>) -> bool
        ensures { Decides result (spec.IsAt self.now known.entry.place known.entry.settings.now) }
    {
        is_known(&self.recorder, known)
    }

    /// Tests whether this is the channel that the caller knows, and has what the caller has seen. If not, it is Stranger or WentBack, in
    /// this order.
    pub fn meet(&self, known: Known<'_>) -> Result<(), HubFault>
        ensures met { OnOk result (spec.IsMet self.now known.entry.place known.entry.settings.now known.entry.seen) }
        ensures unmet { IfErr result (λ f. spec.IsUnmetBy self.now known.entry.place known.entry.settings.now known.entry.seen f) }
    {
        if !is_known(&self.recorder, known) {
            return Err(HubFault::Stranger);
        }
        let found = self.recorder.room().count();
        if found < known.seen {
            return Err(HubFault::WentBack {
                seen: known.seen,
                found,
            });
        }
        Ok(())
    }

    /// Returns where the rendition at index `rendition` stands; `None` if the channel has no such rendition. It is no event.
    pub fn standing(&self, rendition: usize) -> Option<Standing>
        ensures { (events : List Event) → IsRecorded self.now events
            → MatchOption result (length self.now.room.settings.renditions ≤ rendition) (IsStanding self.now.room.settings events rendition self.now.room.count) }
    {
        self.recorder.room().standing(rendition)
    }

    /// Publishes `item` in the channel, which is the one that the caller knows.
    pub fn publish(&mut self, known: Known<'_>, item: Item) -> Result<Stamped<u64>, HubFault>
        requires { spec.IsMet self.old known.place known.settings.now known.seen }
        ensures room { IfOk result (λ n. (n.room ≡ known.entry.place) × (n.stamp ≡ stamp.Publish item)) }
        ensures accepted { (events : List Event) → IsRecorded self.old events → IfOk result (λ n. IsAccepted known.entry.settings.now events item known.entry.seen n.value) }
        ensures count { IfOk result (λ n. n.value ≡ self.old.room.count + 1) }
        ensures recorded { (events : List Event) → IsRecorded self.old events → OnOk result (IsRecorded self.new (events ++ Publish item ∷ [])) }
        ensures goes_on { GoesOn self.old self.new }
        ensures refused { (events : List Event) → IsRecorded self.old events
            → IfErr result (λ f. spec.IsPublishFaultBy self.old known.entry.place known.entry.settings.now events known.entry.seen item f) }
        ensures counted { OnOk result (spec.HasPublished self.old self.new) }
        ensures unchanged { OnErr result (self.new ≡ self.old) }
    {
        let count = match self.recorder.publish(item) {
            Ok(count) => count,
            Err(fault) => return Err(known.refuses(RoomFault::Publish(fault))),
        };
        Ok(count)
    }

    /// Takes the reading `ms` of the clock, in milliseconds, and then the request `want` of the channel, which is the one that the caller knows.
    /// Memory for the value that stands for the request is reserved first.
    pub fn ask(&mut self, known: Known<'_>, ms: u64, want: Want) -> Result<AtOnce, HubFault>
        requires { spec.IsMet self.old known.place known.settings.now known.seen }
        ensures asked { (events : List Event) → IsRecorded self.old events
            → IfOk result (λ a. spec.IsAskedBy known.entry.place known.entry.settings.now (events ++ Clock ms ∷ []) known.entry.seen want a) }
        ensures recorded { (events : List Event) → IsRecorded self.old events
            → OnOk result (IsRecorded self.new (events ++ Clock ms ∷ Ask (of_channel known.entry.settings.now want) ∷ [])) }
        ensures goes_on { GoesOn self.old self.new }
        ensures refused { IfErr result (λ f. spec.IsAskFaultBy self.old self.new known.entry.place ms f) }
        ensures counted { OnOk result (spec.HasAsked self.old self.new) }
        ensures uncounted { OnErr result (spec.IsAsCounted self.old self.new) }
    {
        if self.parked.reserve(1).is_err() {
            return Err(HubFault::Memory);
        }
        match self.recorder.clock(ms) {
            Ok(()) => {}
            Err(fault) => return Err(known.refuses(RoomFault::Clock(fault))),
        }
        match self.recorder.ask(want) {
            Ok(Asked::Now(reply)) => Ok(AtOnce::Now(reply)),
            Ok(Asked::Held(one)) => Ok(AtOnce::Held(hold(&self.recorder, &mut self.parked, one))),
            Err(fault) => Err(known.refuses(RoomFault::Ask(fault))),
        }
    }

    /// Hands out the reply to the held request `entry`, if it is there.
    pub fn collect(&mut self, known: Known<'_>, entry: Entry) -> Tried
        ensures tried { spec.IsTriedBy self.old self.new known.entry.place known.entry.settings.now entry result }
        ensures counts { spec.IsAsCounted self.old self.new }
        ensures goes_on { GoesOn self.old self.new }
    {
        if !is_here(&self.recorder, known, entry) {
            return Tried::Stranger;
        }
        if !is_ready(&self.recorder, entry) {
            return Tried::Still;
        }
        let Some(parked) = take(&self.recorder, &mut self.parked, entry.ticket) else {
            unreachable!();
        };
        match self.recorder.collect(parked) {
            Collected::Got(reply) => Tried::Got(reply),
            Collected::Still(_parked) => unreachable!(),
            Collected::Stranger(_parked) => unreachable!(),
        }
    }

    /// Closes the held request `entry`: it gets no reply. Returns whether it was held here.
    pub fn close(&mut self, known: Known<'_>, entry: Entry) -> bool
        ensures counts { spec.IsAsCounted self.old self.new }
        ensures closed { MatchBool result (spec.IsClosed self.old self.new known.entry.place known.entry.settings.now entry)
            (spec.IsNotOpen self.old self.new known.entry.place known.entry.settings.now entry) }
        ensures goes_on { GoesOn self.old self.new }
    {
        if !is_here(&self.recorder, known, entry) {
            return false;
        }
        let Some(parked) = take(&self.recorder, &mut self.parked, entry.ticket) else {
            unreachable!();
        };
        match self.recorder.close(parked) {
            Closed::Done => true,
            Closed::Stranger(_parked) => unreachable!(),
        }
    }

    /// Passes a reading of the clock to the channel, in milliseconds.
    pub fn tick(&mut self, ms: u64) -> Result<(), ClockFault>
        ensures counts { spec.IsAsCounted self.old self.new }
        ensures told { (events : List Event) → IsRecorded self.old events → OnOk result (IsRecorded self.new (events ++ Clock ms ∷ [])) }
        ensures goes_on { GoesOn self.old self.new }
        ensures refused { IfErr result (λ f. IsReadingRefused (spec.is_filled self.old) ms f) }
        ensures unchanged { OnErr result (self.new ≡ self.old) }
    {
        self.recorder.clock(ms)
    }

    /// Hands out the record of the channel, and begins another.
    pub fn rotate(&mut self, known: Known<'_>) -> Result<Chunk, HubFault>
        ensures known { OnOk result (spec.IsAt self.old known.entry.place known.entry.settings.now) }
        ensures chunk { IfOk result (λ k. IsChunk self.old k) }
        ensures faithful { (events : List Event) → IsRecorded self.old events → IfOk result (λ k. IsFaithful self.old events k) }
        ensures recorded { (events : List Event) → IsRecorded self.old events → OnOk result (IsRecorded self.new events) }
        ensures emptied { OnOk result (self.new ≡ emptied self.old) }
        ensures refused { IfErr result (λ f. spec.IsRotateFault self.old known.entry.place known.entry.settings.now f) }
        ensures unchanged { OnErr result (self.new ≡ self.old) }
        ensures same { self.new.room ≡ self.old.room }
    {
        if !is_known(&self.recorder, known) {
            return Err(HubFault::Stranger);
        }
        let Ok(chunk) = self.recorder.rotate() else {
            return Err(HubFault::Memory);
        };
        Ok(chunk)
    }

    /// Closes all held requests, and returns the channel's total.
    pub fn finish(self) -> Total
        ensures publishes { result.publishes ≡ self.room.count }
        ensures asks { result.asks ≡ self.room.asks }
        ensures held { result.held ≡ length self.room.slots }
        ensures of { (events : List Event) → IsRecorded self events → IsTotalOf self.room.settings events result }
    {
        let Channel { recorder, parked } = self;
        let room = recorder.room();
        let ended = Total {
            publishes: room.count(),
            asks: room.asks(),
            held: parked.len() as u64,
        };
        close_each(recorder, parked);
        ended
    }
}

/// Keeps the value `one`, which stands for a request that the room holds, in memory reserved for it. Returns the request.
fn hold(recorder: &Recorder, parked: &mut VecDeque<Stored>, one: Parked) -> Entry
    requires place { deque_len parked.old < deque_capacity parked.old }
    requires held { found one.ticket recorder.now.room.slots ≢ None }
    ensures entry { Some result ≡ found one.ticket recorder.now.room.slots }
    ensures kept { parked.new.items ≡ parked.old.items ++ one ∷ [] }
{
    let ticket = one.ticket();
    parked.push_back_reserved(one.store());
    match opened(recorder, ticket) {
        Some(entry) => entry,
        None => unreachable!(),
    }
}

/// Closes all held requests of a channel.
fn close_each(recorder: Recorder, parked: VecDeque<Stored>)
    requires { IsChannel recorder parked.items }
{
    let mut recorder = recorder;
    let mut left = parked;
    while let Some(one) = left.pop_back() {
        match recorder.close(one.into_parked()) {
            Closed::Done => {}
            Closed::Stranger(_one) => unreachable!(),
        }
    }
    left.destroy_empty();
}

/// Returns the open request with this ticket.
fn opened(recorder: &Recorder, ticket: u64) -> Option<Entry>
    ensures { result ≡ found ticket recorder.now.room.slots }
{
    recorder.room().open(ticket)
}

/// Returns whether this is the channel that the caller knows.
fn is_known(recorder: &Recorder, known: Known<'_>) -> bool
    ensures { Decides result (spec.IsAt recorder.now known.entry.place known.entry.settings.now) }
{
    let room = recorder.room();
    room.channel() == known.place as u64 && is_same(room.settings(), known.settings)
}

/// Returns whether `entry` is open in the channel that the caller knows.
fn is_here(recorder: &Recorder, known: Known<'_>, entry: Entry) -> bool
    ensures { Decides result (spec.IsOpenAt recorder.now known.entry.place known.entry.settings.now entry) }
{
    is_known(recorder, known) && is_open(recorder, entry)
}

/// Returns whether `entry` is open.
fn is_open(recorder: &Recorder, entry: Entry) -> bool
    ensures { Decides result (found entry.ticket recorder.now.room.slots ≡ Some entry) }
{
    is_entry(opened(recorder, entry.ticket), entry)
}

/// Returns whether the reply to `entry` is there.
fn is_ready(recorder: &Recorder, entry: Entry) -> bool
    ensures { Decides result (spec.IsReady recorder.now entry) }
{
    is_entry(recorder.room().ready_at(entry.ticket), entry)
}

/// Returns whether two settings are equal.
#[tactic(auto, using(ll_settings::proofs::SameLemmas::settings_decided))]
fn is_same(a: &Settings, b: &Settings) -> bool
    ensures { Decides result (a.now ≡ b.now) }
{
    a == b
}

/// Takes the value that stands for the open request with this ticket. Requests are mostly collected in the order in which they were made,
/// so this value is near the front.
fn take(recorder: &Recorder, parked: &mut VecDeque<Stored>, ticket: u64) -> Option<Parked>
    requires { IsChannel recorder.now parked.old.items }
    ensures value { result ≡ (if among ticket (tickets recorder.now.room) then Some (ticket_at recorder.now.room.channel ticket) else None) }
    ensures left { parked.new.items ≡ parked_for recorder.now.room.channel (less ticket (tickets recorder.now.room)) }
{
    let place = place_of(recorder, parked, ticket)?;
    let Some(one) = parked.remove(place) else {
        unreachable!();
    };
    Some(one.into_parked())
}

/// Returns the index in `parked` of the value that stands for the open request with this ticket.
fn place_of(recorder: &Recorder, parked: &VecDeque<Stored>, ticket: u64) -> Option<usize>
    requires { IsChannel recorder.now parked.now.items }
    ensures { result ≡ position (is_of ticket) parked.now.items }
{
    // Serves the proof alone: the tickets of open requests rise, as this call says.
    let _open = recorder.room().open_requests();
    parked
        .binary_search_by_key(&ticket, |one| one.ticket())
        .ok()
}

impl Known<'_> {
    /// Returns the fault of a call that the channel's room refuses with `fault`.
    fn refuses(self, fault: RoomFault) -> HubFault
        ensures { result ≡ HubFault.Room self.entry.place fault }
    {
        HubFault::Room {
            channel: self.place,
            fault,
        }
    }
}
