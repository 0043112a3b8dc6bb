//! What lies under a channel's lock: the channel, all that was done to it, and its shares of what was counted. Each method is one locked section.
ghost use Rattle.std.specs.Prelude.{◌≡◌, ◌+◌, ◌<◌, ◌≤◌, ◌++◌, ◌∷◌, [], IfErr, IfOk, IsTrue, List, MatchBool, MatchOption, OnErr, OnOk, filter, length};
ghost use mathlib.Core.List.{IsPrefix};
ghost use Rattle.ll_history.specs.History.{IsAddedTo, deeds_at};
ghost use Rattle.ll_history.specs.declared.deed.Deed.TheVariants.{Clock};
ghost use Rattle.ll_hub_channel.specs.Deeds.{IsRecordOf, events_of};
ghost use Rattle.ll_hub_channel.specs.Section as spec;
ghost use Rattle.ll_hub_channel.specs.Told.{IsTotalOf};
ghost use Rattle.ll_ledger.specs.Ledgers.{blank, with_ask, with_publish};
ghost use Rattle.ll_ledger.specs.Sections as has;
ghost use Rattle.ll_room.specs.RoomValue.{room_value};
ghost use Rattle.ll_room.specs.declared.stamped.Stamp.TheVariants as stamp;
ghost use Rattle.ll_verdict.specs.State.{state_of};
ghost use Rattle.ll_verdict.specs.Waiting as waiting;

use crate::clock::Clock;
use crate::ledgers::{Asks, ChannelCounts, Ledgers, PassCounts, Publishes};
use crate::tally::Tally;
use ll_directive::Want;
use ll_history::{ChannelHistory, Deed, Named, Past};
use ll_hub_channel::{AtOnce, Channel, HubFault, Known, RoomFault, Total, Tried};
use ll_item::Item;
use ll_record::{Chunk, Sink};
use ll_room::Stamped;
use ll_settings::Settings;
use ll_verdict::{ClockFault, Entry, Standing};
use std::alloc::{AllocError, Global};
use std::marker::Model;
use std::sync::ledger::{Ledger, Share};
use std::sync::{Mutex, Wait};

/// A channel with all that was done to it, and its counts of accepted items and of requests. Contracts see its recorder.
///
/// No proof sees what lies under a lock, so each call first finds out whether this is the channel that its caller knows. It always is.
pub struct CountedChannel<L: Ledgers> {
    channel: Channel,
    history: ChannelHistory<L>,
    counts: ChannelCounts<L>,
}

impl<L: Ledgers> Model for CountedChannel<L> {
    ghost use Rattle.std.specs.Prelude.{◌≡◌};
    ghost use Rattle.ll_hub_channel.specs.Deeds.{IsRecordOf};
    ghost use Rattle.ll_record.specs.Recording.{Recording};

    ghost Value = { Recording };

    ghost view = { λ c. c.channel };

    ghost invariant = { λ c. (c.counts ≡ record { parts = 1; publishes = c.channel.room.count; asks = c.channel.room.asks })
        × IsRecordOf c.channel c.history.deeds × (c.history.place ≡ c.channel.room.channel) };
}

impl<L: Ledgers> CountedChannel<L> {
    /// Returns the channel of these `settings`, to which nothing was done.
    pub fn new(
        alloc: Global,
        place: usize,
        settings: Settings,
        history: ChannelHistory<L>,
        counts: ChannelCounts<L>,
    ) -> Result<CountedChannel<L>, AllocError>
        requires history { history ≡ record { place = place; deeds = [] } }
        requires counts { counts ≡ blank 1 }
        ensures new { IfOk result (λ c. c ≡ record { room = room_value place settings (state_of settings []); at = 0; lines = []; calls = 0 }) }
    {
        Ok(CountedChannel {
            channel: Channel::new(alloc, place, settings)?,
            history,
            counts,
        })
    }

    /// Returns how many replies are there that weren't collected.
    pub fn ready(&self) -> usize
        ensures { result ≡ length (filter waiting.is_ready self.now.room.slots) }
    {
        self.channel.ready()
    }

    /// Keeps those of `tickets` whose requests are open and have their reply.
    pub fn keep_ready(&self, tickets: &mut Vec<u64>)
        ensures { tickets.new.items ≡ filter (spec.has_reply self.now.room.slots) tickets.old.items }
    {
        self.channel.keep_ready(tickets);
    }

    /// Returns whether this is the channel that the caller knows, and has what the caller has seen.
    pub fn is_met(&self, known: Known<'_>) -> bool
        ensures { IsTrue result → spec.IsMet self.now known.entry.place known.entry.settings.now known.entry.seen }
    {
        self.channel.meet(known).is_ok()
    }

    /// Returns where the rendition at index `rendition` stands; `None` if the channel has no such rendition. Nothing is counted.
    pub fn standing<R: Wait>(
        &self,
        rt: &R,
        known: Known<'_>,
        rendition: usize,
        past: &mut Past<L>,
    ) -> Result<Option<Standing>, HubFault>
        ensures standing { IfOk result (λ s. MatchOption s (length known.entry.settings.now.renditions ≤ rendition)
            (has.HasStanding past.old past.new known.entry.place known.entry.settings.now known.entry.seen rendition)) }
        ensures grows { IsPrefix past.old past.new }
        ensures unmet { IfErr result (λ f. spec.IsUnmetBy self.now known.entry.place known.entry.settings.now known.entry.seen f) }
        ensures unseen { OnErr result (past.new ≡ past.old) }
    {
        match self.channel.meet(known) {
            Ok(()) => {
                self.history.show(rt, past);
                Ok(self.channel.standing(rendition))
            }
            Err(fault) => Err(fault),
        }
    }

    /// Counts `item`, and publishes it. An item that is refused isn't counted.
    pub fn publish<R: Wait>(
        &mut self,
        rt: &R,
        known: Known<'_>,
        item: Item,
        tally: &Mutex<Publishes<L>>,
        theirs: &mut PassCounts<L>,
        past: &mut Past<L>,
    ) -> Result<Stamped<u64>, HubFault>
        requires { theirs.old.parts ≡ 1 }
        ensures mark { IfOk result (λ n. (n.room ≡ known.entry.place) × (n.stamp ≡ stamp.Publish item)) }
        ensures accepted { IfOk result (λ n. has.HasAccepted past.old past.new known.entry.place known.entry.settings.now known.entry.seen item n.value) }
        ensures refused { IfErr result (λ f. has.IsUnpublishedBy self.old past.old past.new known.entry.place known.entry.settings.now known.entry.seen item f) }
        ensures grows { IsPrefix past.old past.new }
        ensures counted { OnOk result (theirs.new ≡ with_publish theirs.old) }
        ensures uncounted { OnErr result (theirs.new ≡ theirs.old) }
        ensures unchanged { OnErr result (self.new ≡ self.old) }
    {
        let mine = &mut self.counts.publishes;
        count_met(rt, &self.channel, known, tally, mine, &mut theirs.publishes)?;
        let told = publish_in(rt, &mut self.channel, &mut self.history, known, item, past);
        if told.is_err() {
            take_back(rt, tally, mine, &mut theirs.publishes);
        }
        told
    }

    /// Counts a request, reads the clock and makes the request `want`. A request that is refused isn't counted.
    pub fn ask<C: Clock, R: Wait>(
        &mut self,
        rt: &R,
        known: Known<'_>,
        clock: &C,
        want: Want,
        tally: &Mutex<Asks<L>>,
        theirs: &mut PassCounts<L>,
        past: &mut Past<L>,
    ) -> Result<AtOnce, HubFault>
        requires { theirs.old.parts ≡ 1 }
        ensures asked { IfOk result (λ a. has.IsAskedBy (C.shows clock.now) past.old past.new known.entry.place known.entry.settings.now known.entry.seen want a) }
        ensures refused { IfErr result (λ f. has.IsUnaskedBy (C.shows clock.now) self.old past.old past.new known.entry.place known.entry.settings.now known.entry.seen f) }
        ensures grows { IsPrefix past.old past.new }
        ensures counted { OnOk result (theirs.new ≡ with_ask theirs.old) }
        ensures uncounted { OnErr result (theirs.new ≡ theirs.old) }
    {
        let mine = &mut self.counts.asks;
        count_met(rt, &self.channel, known, tally, mine, &mut theirs.asks)?;
        let told = ask_in(
            rt,
            &mut self.channel,
            &mut self.history,
            known,
            clock,
            want,
            past,
        );
        if told.is_err() {
            take_back(rt, tally, mine, &mut theirs.asks);
        }
        told
    }

    /// Hands out the reply to the held request `entry`, if it is there.
    pub fn collect<R: Wait>(
        &mut self,
        rt: &R,
        known: Known<'_>,
        entry: Entry,
        past: &mut Past<L>,
    ) -> Tried
        ensures tried { has.IsTriedBy past.old past.new known.entry.place known.entry.settings.now entry result }
        ensures grows { IsPrefix past.old past.new }
    {
        find_home(rt, &self.channel, known);
        match self.channel.collect(known, entry) {
            Tried::Got(reply) => {
                let draft = past.draft(Deed::Collect(entry.ticket));
                self.history.add(rt, draft, past);
                Tried::Got(reply)
            }
            Tried::Still => Tried::Still,
            Tried::Stranger => {
                self.history.show(rt, past);
                Tried::Stranger
            }
        }
    }

    /// Closes the held request `entry`: it gets no reply. Returns whether it was held here.
    pub fn close<R: Wait>(
        &mut self,
        rt: &R,
        known: Known<'_>,
        entry: Entry,
        past: &mut Past<L>,
    ) -> bool
        ensures closed { MatchBool result (has.HasClosed past.old past.new known.entry.place known.entry.settings.now entry)
            (has.HasNone past.old past.new known.entry.place known.entry.settings.now entry) }
    {
        find_home(rt, &self.channel, known);
        if !self.channel.close(known, entry) {
            self.history.show(rt, past);
            return false;
        }
        let draft = past.draft(Deed::Close(entry.ticket));
        self.history.add(rt, draft, past);
        true
    }

    /// Passes a reading of the clock to the channel, in milliseconds.
    pub fn tick<R: Wait>(
        &mut self,
        rt: &R,
        known: Known<'_>,
        ms: u64,
        past: &mut Past<L>,
    ) -> Result<(), ClockFault>
        ensures ticked { OnOk result (has.HasTicked past.old past.new known.entry.place ms) }
        ensures refused { IfErr result (λ f. has.HasNotTicked past.old past.new known.entry.place known.entry.settings.now ms f) }
        ensures unchanged { OnErr result (self.new ≡ self.old) }
    {
        find_home(rt, &self.channel, known);
        match self.channel.tick(ms) {
            Ok(()) => {
                add_reading(rt, &mut self.history, ms, past);
                Ok(())
            }
            Err(fault) => {
                self.history.show(rt, past);
                Err(fault)
            }
        }
    }

    /// Hands out the record of the channel, and begins another.
    pub fn rotate<R: Wait>(
        &mut self,
        rt: &R,
        known: Known<'_>,
        past: &mut Past<L>,
    ) -> Result<Chunk, AllocError>
        ensures handed_out { IfOk result (λ k. has.HasHandedOut past.old past.new known.entry.place known.entry.settings.now k) }
        ensures unchanged { OnErr result ((self.new ≡ self.old) × (past.new ≡ past.old)) }
    {
        find_home(rt, &self.channel, known);
        let Ok(chunk) = self.channel.rotate(known) else {
            return Err(AllocError);
        };
        let draft = past.draft(Deed::HandOut);
        self.history.add(rt, draft, past);
        Ok(chunk)
    }

    /// Closes all held requests, and returns the channel's total and its shares, and whether `past` has seen all that was done to it.
    pub fn finish(self, past: &mut Past<L>) -> (Total, ChannelCounts<L>, bool)
        ensures shares { result.1 ≡ record { parts = 1; publishes = result.0.publishes; asks = result.0.asks } }
        ensures grows { IsPrefix past.old past.new }
        ensures total { IsTrue result.2 → IsTotalOf self.room.settings (events_of self.room.settings (deeds_at self.room.channel past.new)) result.0 }
    {
        let CountedChannel {
            channel,
            history,
            counts,
        } = self;
        let seen = history.look(past);
        (channel.finish(), counts, seen)
    }
}

/// Publishes `item` in `channel`, which is the one that the caller knows, and to which `history` was done.
fn publish_in<L: Named, R: Wait>(
    rt: &R,
    channel: &mut Channel,
    history: &mut ChannelHistory<L>,
    known: Known<'_>,
    item: Item,
    past: &mut Past<L>,
) -> Result<Stamped<u64>, HubFault>
    requires met { spec.IsMet channel.old known.place known.settings.now known.seen }
    requires record_of { IsRecordOf channel.old history.old.deeds }
    requires place { history.old.place ≡ channel.old.room.channel }
    ensures record_of { IsRecordOf channel.new history.new.deeds }
    ensures place { history.new.place ≡ channel.new.room.channel }
    ensures mark { IfOk result (λ n. (n.room ≡ known.entry.place) × (n.stamp ≡ stamp.Publish item)) }
    ensures accepted { IfOk result (λ n. has.HasAccepted past.old past.new known.entry.place known.entry.settings.now known.entry.seen item n.value) }
    ensures refused { IfErr result (λ f. has.IsUnpublishedBy channel.old past.old past.new known.entry.place known.entry.settings.now known.entry.seen item f) }
    ensures grows { IsPrefix past.old past.new }
    ensures counted { OnOk result (spec.HasPublished channel.old channel.new) }
    ensures unchanged { OnErr result (channel.new ≡ channel.old) }
{
    let draft = past.draft_item(&item);
    match channel.publish(known, item) {
        Ok(count) => {
            history.add(rt, draft, past);
            Ok(count)
        }
        Err(fault) => {
            history.show(rt, past);
            Err(fault)
        }
    }
}

/// Reads the clock and makes the request `want` of `channel`, which is the one that the caller knows, and to which `history` was done.
fn ask_in<L: Named, C: Clock, R: Wait>(
    rt: &R,
    channel: &mut Channel,
    history: &mut ChannelHistory<L>,
    known: Known<'_>,
    clock: &C,
    want: Want,
    past: &mut Past<L>,
) -> Result<AtOnce, HubFault>
    requires met { spec.IsMet channel.old known.place known.settings.now known.seen }
    requires record_of { IsRecordOf channel.old history.old.deeds }
    requires place { history.old.place ≡ channel.old.room.channel }
    ensures record_of { IsRecordOf channel.new history.new.deeds }
    ensures place { history.new.place ≡ channel.new.room.channel }
    ensures asked { IfOk result (λ a. has.IsAskedBy (C.shows clock.now) past.old past.new known.entry.place known.entry.settings.now known.entry.seen want a) }
    ensures refused { IfErr result (λ f. has.IsUnaskedBy (C.shows clock.now) channel.old past.old past.new known.entry.place known.entry.settings.now known.entry.seen f) }
    ensures grows { IsPrefix past.old past.new }
    ensures counted { OnOk result (spec.HasAsked channel.old channel.new) }
    ensures uncounted { OnErr result (spec.IsAsCounted channel.old channel.new) }
{
    let (ms, draft) = (clock.now(), past.draft_request(&want));
    match channel.ask(known, ms, want) {
        Ok(answer) => {
            add_reading(rt, history, ms, past);
            history.add(rt, draft, past);
            Ok(answer)
        }
        Err(fault) => {
            note_refusal(rt, history, ms, fault, past);
            Err(fault)
        }
    }
}

/// Waits forever unless `channel` is the one that the caller knows.
fn find_home<R: Wait>(rt: &R, channel: &Channel, known: Known<'_>)
    ensures { spec.IsAt channel.now known.entry.place known.entry.settings.now }
{
    if !channel.is_at(known) {
        for _ in rt.forever() {}
        unreachable!();
    }
}

/// Adds the reading `ms` of the clock to the history.
fn add_reading<L: Named, R: Wait>(
    rt: &R,
    history: &mut ChannelHistory<L>,
    ms: u64,
    past: &mut Past<L>,
)
    ensures added { IsAddedTo history.old (Clock ms) past.old past.new }
    ensures deeds { history.new ≡ record history.old { deeds = history.old.deeds ++ Clock ms ∷ [] } }
{
    let draft = past.draft(Deed::Clock(ms));
    history.add(rt, draft, past);
}

/// Shows the caller of a refused request why: a reading before the request that is refused itself stands in the history.
fn note_refusal<L: Named, R: Wait>(
    rt: &R,
    history: &mut ChannelHistory<L>,
    ms: u64,
    fault: HubFault,
    past: &mut Past<L>,
)
    ensures { has.IsNoted history.old history.new ms fault past.old past.new }
{
    match fault {
        HubFault::Room {
            fault: RoomFault::Ask(_),
            ..
        } => add_reading(rt, history, ms, past),
        HubFault::Room {
            fault: RoomFault::Clock(_) | RoomFault::Publish(_),
            ..
        } => history.show(rt, past),
        _ => {}
    }
}

/// Checks that `channel` is `known`, and counts one for it and for the pass. If it fails, nothing is counted.
fn count_met<C: Ledger, P: Ledger, R: Wait>(
    rt: &R,
    channel: &Channel,
    known: Known<'_>,
    tally: &Mutex<Tally<C, P>>,
    mine: &mut Share<C>,
    theirs: &mut Share<P>,
) -> Result<(), HubFault>
    requires { (0 < mine.old.parts) × (0 < theirs.old.parts) }
    ensures met { OnOk result (spec.IsMet channel.now known.entry.place known.entry.settings.now known.entry.seen) }
    ensures refused { IfErr result (λ f. has.IsUncountedBy channel.now known.entry.place known.entry.settings.now known.entry.seen f) }
    ensures counted { OnOk result ((mine.new.amount ≡ mine.old.amount + 1) × (theirs.new.amount ≡ theirs.old.amount + 1)) }
    ensures uncounted { OnErr result ((mine.new.amount ≡ mine.old.amount) × (theirs.new.amount ≡ theirs.old.amount)) }
    ensures parts { (mine.new.parts ≡ mine.old.parts) × (theirs.new.parts ≡ theirs.old.parts) }
{
    channel.meet(known)?;
    if tally.lock(rt).count_one(mine, theirs) {
        Ok(())
    } else {
        Err(HubFault::Short)
    }
}

/// Takes back one count of a channel and of a pass.
fn take_back<C: Ledger, P: Ledger, R: Wait>(
    rt: &R,
    tally: &Mutex<Tally<C, P>>,
    mine: &mut Share<C>,
    theirs: &mut Share<P>,
)
    requires { (0 < mine.old.amount) × (0 < theirs.old.amount) }
    ensures mine { mine.new.amount + 1 ≡ mine.old.amount }
    ensures theirs { theirs.new.amount + 1 ≡ theirs.old.amount }
    ensures parts { (mine.new.parts ≡ mine.old.parts) × (theirs.new.parts ≡ theirs.old.parts) }
{
    tally.lock(rt).undo(mine, theirs);
}
