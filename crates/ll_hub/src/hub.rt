//! The hub: a lock for each channel, and the totals of what its callers count.
ghost use Rattle.std.specs.Prelude.{◌≡◌, ◌⊎◌, ◌+◌, ◌<◌, ◌≤◌, ℕ, [], None, Some, IfErr, IfOk, MatchBool, MatchOption, OnErr, OnOk, length, map, slice_get, sum, vec_capacity};
ghost use mathlib.Core.List.{IsPrefix};
ghost use Rattle.ll_settings.specs.Channels.{channel_of_name};
ghost use Rattle.ll_hub.specs.Calls as calls;
ghost use Rattle.ll_hub.specs.Passes.{PassValue, new_pass};
ghost use Rattle.ll_hub.specs.Rung.{IsRung, IsRungBy, IsRungFrom, IsRungTo};
ghost use Rattle.ll_ledger.specs.Ledgers.{IsRest, all_parts, blank};
ghost use Rattle.ll_ledger.specs.Sections.{HasNotTicked, HasTicked};
ghost use Rattle.ll_settings.specs.Settings.{Configuration};

use crate::bell::Bell;
use crate::claim::Claim;
use crate::locks::{ChannelLocks, lock_each};
use crate::pass::Pass;
use crate::totals::Totals;
use ll_directive::Want;
use ll_history::Past;
use ll_hub_channel::{AtOnce, HubFault, RoomFault, Total};
use ll_item::Item;
use ll_ledger::{
    Asks, Blanks, ChannelCounts, Clock, Ledgers, Opened, PassCounts, Publishes, Seats,
};
use ll_record::{Chunk, Sink};
use ll_room::Stamped;
use ll_settings::Settings;
use ll_verdict::{ClockFault, Reply, Standing};
use std::alloc::{AllocError, Global};
use std::marker::Model;
use std::sync::{Mutex, Wait};
use std::time::{self, Duration};

/// The result of a request.
pub enum HubAsked {
    /// Its reply.
    Now(Stamped<Reply>),
    /// The claim to its reply, because it is held.
    Held(Claim),
}

/// The result of waiting with a limit.
pub enum Waited {
    /// The reply.
    Reply(Stamped<Reply>),
    /// The claim again, because the request is still held.
    Still(Claim),
}

/// Channels, each under its own lock: a call on one channel waits for a call on another no longer than it takes to count. It must be spent
/// by [`Hub::finish`].
///
/// All that is done to the channels stands in one history, which all threads share; a pass has seen a beginning of it. Each call adds its own deed
/// after all that its pass had seen, and its result is right by what stands before that; or it does nothing, and its result is right by all that was
/// done, which the pass has then seen.
///
/// Each accepted item and each request is counted twice: by its channel, and by the pass with which it was made. So in the end the totals
/// of the channels are those of the passes.
pub struct Hub<L: Ledgers> {
    pub(crate) locks: ChannelLocks<L>,
    past: Past<L>,
    seats: Mutex<Seats<L>>,
    publishes: Mutex<Publishes<L>>,
    asks: Mutex<Asks<L>>,
}

impl<L: Ledgers> Model for Hub<L> {
    ghost use Rattle.std.specs.Prelude.{◌≡◌, List, [], length};
    ghost use Rattle.ll_settings.specs.Settings.{Configuration};

    ghost Value = { List Configuration };

    ghost view = { λ h. h.locks };

    ghost invariant = { λ h. (length h.locks ≡ L.channels) × (h.past ≡ []) };
}

/// Only a hub without channels may be dropped: a leak is a failed proof.
impl<L: Ledgers> Drop for Hub<L> {
    ghost use Rattle.std.specs.Prelude.{◌≡◌, []};

    fn drop(self)
        requires { self ≡ [] }
    {
        let Hub {
            locks: _locks,
            past: _past,
            seats: _seats,
            publishes: _publishes,
            asks: _asks,
        } = self;
    }
}

impl<L: Ledgers> Hub<L> {
    /// Returns a hub of `channels`, to which nothing has happened. Of channels with one name, the first is found by it.
    pub fn new(alloc: Global, channels: Vec<Settings>, blanks: Blanks) -> Result<Hub<L>, AllocError>
        requires some { 1 ≤ length channels.items }
        requires most { length channels.items ≤ 1024 }
        requires names { blanks ≡ L.names }
        requires channels { L.channels ≡ length channels.items }
        ensures { IfOk result (λ h. h ≡ channels.items) }
    {
        let Opened {
            past,
            mut places,
            channels: mut rest,
            passes,
            publishes,
            asks,
        } = blanks.open::<L>();
        Ok(Hub {
            locks: lock_each(alloc, channels, &mut places, &mut rest)?,
            past,
            seats: Mutex::new(Seats::new(rest, passes)),
            publishes: Mutex::new(publishes),
            asks: Mutex::new(asks),
        })
    }

    /// Returns the place of the channel named `name`, and its settings.
    pub fn find(&self, name: &str) -> Option<(usize, &Settings)>
        ensures { MatchOption result (channel_of_name self.now 0 name.now ≡ None)
            (λ f. channel_of_name self.now 0 name.now ≡ Some (f.0, f.1.now)) }
    {
        self.locks.find(name)
    }

    /// Returns a pass for one caller, who has seen nothing yet. It may be dropped; but [`Hub::finish`] returns totals only if every pass
    /// that was given comes back.
    ///
    /// 1. Out of memory: Memory.
    /// 2. 65,536 passes were given: Short.
    pub fn seat<R: Wait>(&self, rt: &R) -> Result<Pass<L>, HubFault>
        ensures seated { IfOk result (λ p. p ≡ new_pass (length self.now)) }
        ensures refused { IfErr result (λ f. calls.IsSeatFault f) }
    {
        let Ok(seen) = vec![in self.locks.alloc(); 0; self.locks.len()] else {
            return Err(HubFault::Memory);
        };
        match self.seats.lock(rt).take() {
            Some(counts) => Ok(Pass::new(seen, counts, self.past.again())),
            None => Err(HubFault::Short),
        }
    }

    /// Returns a beginning of the hub's history, of which nothing was seen yet, for a caller who needs no pass.
    pub fn past(&self) -> Past<L>
        ensures { result ≡ [] }
    {
        self.past.again()
    }

    /// Publishes `item` in the channel at place `channel`, and returns how many items the channel has accepted with it. The pass counts it.
    /// The first of these that applies refuses it:
    ///
    /// 1. There is no channel at that place: UnknownChannel.
    /// 2. The pass is another hub's: Stranger, or WentBack.
    /// 3. 2^60 publishes of the hub's channels were counted: Short.
    /// 4. The channel's room refuses the item.
    pub fn publish<B: Bell, R: Wait>(
        &self,
        rt: &R,
        bell: &mut B,
        pass: &mut Pass<L>,
        channel: usize,
        item: Item,
    ) -> Result<Stamped<u64>, HubFault>
        ensures published { IfOk result (λ n. calls.IsPublished self.now channel item pass.old pass.new n) }
        ensures rung { OnOk result (IsRung channel (B.rung bell.old) (B.rung bell.new)) }
        ensures refused { IfErr result (λ f. calls.IsPublishFault self.now channel item pass.old pass.new f) }
        ensures seen { OnErr result (calls.HasSeen pass.old pass.new) }
        ensures unrung { OnErr result (B.rung bell.new ≡ B.rung bell.old) }
    {
        let (channel_lock, known) = self.locks.reach(channel, pass.seen(channel))?;
        let mut section = channel_lock.enter(rt);
        let told = section.state.publish(
            rt,
            known,
            item,
            &self.publishes,
            &mut pass.counts,
            &mut pass.past,
        );
        match told {
            Ok(count) => {
                section.leave(bell, channel);
                pass.note(channel, *count.get());
                Ok(count)
            }
            Err(fault) => {
                section.leave_unchanged();
                Err(fault)
            }
        }
    }

    /// Returns where the rendition at index `rendition` of the channel at place `channel` stands; `None` if the channel has no such
    /// rendition. It is no event, and isn't counted. The first of these that applies refuses it:
    ///
    /// 1. There is no channel at that place: UnknownChannel.
    /// 2. The pass is another hub's: Stranger, or WentBack.
    pub fn standing<R: Wait>(
        &self,
        rt: &R,
        pass: &mut Pass<L>,
        channel: usize,
        rendition: usize,
    ) -> Result<Option<Standing>, HubFault>
        ensures standing { IfOk result (λ s. calls.IsPlaced self.now channel rendition pass.old pass.new s) }
        ensures refused { IfErr result (λ f. calls.IsUnplaced self.now pass.old.seen channel f) }
        ensures unchanged { OnErr result (pass.new ≡ pass.old) }
    {
        let (channel_lock, known) = self.locks.reach(channel, pass.seen(channel))?;
        let standing = channel_lock
            .lock(rt)
            .standing(rt, known, rendition, &mut pass.past)?;
        if let Some(standing) = standing {
            pass.note(channel, standing.count);
        }
        Ok(standing)
    }

    /// Makes the request `want` of the channel at place `channel`, after a reading of the clock that is made while the channel is locked.
    /// It is answered at once, or it is held. The pass counts it. The first of these that applies refuses it:
    ///
    /// 1. There is no channel at that place: UnknownChannel.
    /// 2. The pass is another hub's: Stranger, or WentBack.
    /// 3. 2^60 requests of the hub's channels were counted: Short.
    /// 4. Out of memory: Memory.
    /// 5. The channel's room refuses the reading of the clock, or the request.
    pub fn ask<C: Clock, B: Bell, R: Wait>(
        &self,
        rt: &R,
        clock: &C,
        bell: &mut B,
        pass: &mut Pass<L>,
        channel: usize,
        want: Want,
    ) -> Result<HubAsked, HubFault>
        ensures asked { IfOk result (λ a. calls.IsAskedOf (C.shows clock.now) self.now channel want pass.old pass.new a) }
        ensures rung { OnOk result (IsRung channel (B.rung bell.old) (B.rung bell.new)) }
        ensures refused { IfErr result (λ f. calls.IsAskFault (C.shows clock.now) self.now channel pass.old pass.new f) }
        ensures rung_too { IfErr result (λ f. IsRungBy f channel (B.rung bell.old) (B.rung bell.new)) }
        ensures seen { OnErr result (calls.HasSeen pass.old pass.new) }
    {
        match self.ask_there(rt, clock, bell, pass, channel, want)? {
            AtOnce::Now(reply) => {
                pass.note_reply(channel, reply.get());
                Ok(HubAsked::Now(reply))
            }
            AtOnce::Held(entry) => Ok(HubAsked::Held(Claim::new(channel, entry))),
        }
    }

    /// Does that, but doesn't note which items the pass has seen.
    fn ask_there<C: Clock, B: Bell, R: Wait>(
        &self,
        rt: &R,
        clock: &C,
        bell: &mut B,
        pass: &mut Pass<L>,
        channel: usize,
        want: Want,
    ) -> Result<AtOnce, HubFault>
        ensures asked { IfOk result (λ a. calls.IsAskedThere (C.shows clock.now) self.now channel want pass.old pass.new a) }
        ensures rung { OnOk result (IsRung channel (B.rung bell.old) (B.rung bell.new)) }
        ensures refused { IfErr result (λ f. calls.IsAskFault (C.shows clock.now) self.now channel pass.old pass.new f) }
        ensures rung_too { IfErr result (λ f. IsRungBy f channel (B.rung bell.old) (B.rung bell.new)) }
        ensures seen { OnErr result (calls.HasSeen pass.old pass.new) }
    {
        let (channel_lock, known) = self.locks.reach(channel, pass.seen(channel))?;
        let mut section = channel_lock.enter(rt);
        let answer = section.state.ask(
            rt,
            known,
            clock,
            want,
            &self.asks,
            &mut pass.counts,
            &mut pass.past,
        );
        section.leave(bell, channel);
        answer
    }

    /// Passes a reading of the clock, in milliseconds, to each channel in order, up to the first that refuses it.
    pub fn tick<B: Bell, R: Wait>(
        &self,
        rt: &R,
        bell: &mut B,
        past: &mut Past<L>,
        ms: u64,
    ) -> Result<(), HubFault>
        ensures ticked { OnOk result (calls.AreTicked past.old past.new 0 (length self.now) ms) }
        ensures refused { IfErr result (λ f. calls.IsTickFault self.now 0 ms past.old past.new f) }
        ensures grows { IsPrefix past.old past.new }
        ensures rung { OnOk result (IsRungFrom 0 (length self.now) (B.rung bell.old) (B.rung bell.new)) }
    {
        self.tick_from(rt, bell, past, 0, ms)
    }

    /// Passes a reading of the clock, in milliseconds, to each channel from place `first` on, in order, up to the first that refuses it.
    pub fn tick_from<B: Bell, R: Wait>(
        &self,
        rt: &R,
        bell: &mut B,
        past: &mut Past<L>,
        first: usize,
        ms: u64,
    ) -> Result<(), HubFault>
        ensures ticked { OnOk result (calls.AreTicked past.old past.new first (length self.now) ms) }
        ensures refused { IfErr result (λ f. calls.IsTickFault self.now first ms past.old past.new f) }
        ensures grows { IsPrefix past.old past.new }
        ensures rung { OnOk result (first ≤ length self.now → IsRungFrom first (length self.now) (B.rung bell.old) (B.rung bell.new)) }
        ensures rung_to { IfErr result (λ f. IsRungTo first f (B.rung bell.old) (B.rung bell.new)) }
    {
        for channel in first..self.locks.len() {
            if let Err(fault) = self.tick_one(rt, bell, past, channel, ms) {
                return Err(HubFault::Room {
                    channel,
                    fault: RoomFault::Clock(fault),
                });
            }
        }
        Ok(())
    }

    /// Passes a reading of the clock, in milliseconds, to the channel at place `channel`.
    fn tick_one<B: Bell, R: Wait>(
        &self,
        rt: &R,
        bell: &mut B,
        past: &mut Past<L>,
        channel: usize,
        ms: u64,
    ) -> Result<(), ClockFault>
        requires { channel < length self.now }
        ensures ticked { OnOk result (HasTicked past.old past.new channel ms) }
        ensures refused { IfErr result (λ f. (settings : Configuration) × (slice_get self.now channel ≡ Some settings)
            × HasNotTicked past.old past.new channel settings ms f) }
        ensures rung { IsRung channel (B.rung bell.old) (B.rung bell.new) }
    {
        let Ok((channel_lock, known)) = self.locks.reach(channel, Some(0)) else {
            unreachable!();
        };
        channel_lock.tick(rt, bell, known, ms, past)
    }

    /// Hands out the record of the channel at place `channel`, and begins another. No reply changes by it. The first of these that applies
    /// refuses it:
    ///
    /// 1. There is no channel at that place: UnknownChannel.
    /// 2. Out of memory: Memory.
    pub fn rotate<R: Wait>(
        &self,
        rt: &R,
        past: &mut Past<L>,
        channel: usize,
    ) -> Result<Chunk, HubFault>
        ensures handed_out { IfOk result (λ k. calls.IsRotated self.now channel past.old past.new k) }
        ensures refused { IfErr result (λ f. calls.IsRotateFault self.now channel f) }
        ensures unseen { OnErr result (past.new ≡ past.old) }
    {
        let (channel_lock, known) = self.locks.reach(channel, Some(0))?;
        match channel_lock.lock(rt).rotate(rt, known, past) {
            Ok(chunk) => Ok(chunk),
            Err(AllocError) => Err(HubFault::Memory),
        }
    }

    /// Hands the record of the channel at place `channel` to `sink`, once, as [`Hub::rotate`] hands it out. The channel stays locked until
    /// the sink has taken it.
    pub fn rotate_to<K: Sink, R: Wait>(
        &self,
        rt: &R,
        past: &mut Past<L>,
        channel: usize,
        sink: &mut K,
    ) -> Result<(), HubFault>
        ensures taken { OnOk result (calls.IsHandedTo self.now channel past.old past.new (K.taken sink.old) (K.taken sink.new)) }
        ensures refused { IfErr result (λ f. calls.IsRotateFault self.now channel f) }
        ensures untaken { OnErr result (K.taken sink.new ≡ K.taken sink.old) }
        ensures unseen { OnErr result (past.new ≡ past.old) }
    {
        let (channel_lock, known) = self.locks.reach(channel, Some(0))?;
        match channel_lock.rotate_to(rt, known, sink, past) {
            Ok(()) => Ok(()),
            Err(AllocError) => Err(HubFault::Memory),
        }
    }

    /// Closes all held requests, and spends the hub and the passes, even if it fails. The channels have accepted as many items, and were
    /// asked as often, as the passes have counted. The first of these that applies refuses it:
    ///
    /// 1. Out of memory: Memory.
    /// 2. Fewer passes come back than were given; there are never more: Short.
    pub fn finish(self, passes: Vec<Pass<L>>) -> Result<Totals, HubFault>
        ensures totals { IfOk result (λ t. calls.IsFinished self passes.items t.channels.items) }
        ensures each { IfOk result (λ t. length t.channels.items ≡ length self) }
        ensures publishes { IfOk result (λ t. sum (map (λ c. c.publishes) t.channels.items) ≡ sum (map (λ p. p.publishes) passes.items)) }
        ensures asks { IfOk result (λ t. sum (map (λ c. c.asks) t.channels.items) ≡ sum (map (λ p. p.asks) passes.items)) }
        ensures refused { IfErr result (λ f. calls.IsFinishFault (length passes.items) f) }
    {
        let Ok(mut channels) = Vec::with_capacity(self.locks.alloc(), self.locks.len()) else {
            self.end();
            return Err(HubFault::Memory);
        };
        self.settle(passes, &mut channels)?;
        Ok(Totals { channels })
    }

    /// Closes all held requests, adds each channel's total to `channels`, and spends the hub and the passes, even if it fails. If fewer
    /// passes come back than were given, it fails: Short.
    fn settle(self, passes: Vec<Pass<L>>, channels: &mut Vec<Total>) -> Result<(), HubFault>
        requires none { channels.old.items ≡ [] }
        requires room { length self ≤ vec_capacity channels.old }
        ensures totals { OnOk result (calls.IsFinished self passes.items channels.new.items) }
        ensures each { length channels.new.items ≡ length self }
        ensures publishes { OnOk result (sum (map (λ c. c.publishes) channels.new.items) ≡ sum (map (λ p. p.publishes) passes.items)) }
        ensures asks { OnOk result (sum (map (λ c. c.asks) channels.new.items) ≡ sum (map (λ p. p.asks) passes.items)) }
        ensures refused { IfErr result (λ f. calls.IsFinishFault (length passes.items) f) }
    {
        let Hub {
            locks,
            mut past,
            seats,
            publishes,
            asks,
        } = self;
        let Seats {
            channels: mut all,
            passes: rest,
            given,
        } = seats.into_inner();
        let returned = passes.len() as u64;
        let mut both = gather(rest, passes, &mut past);
        let at_home = locks.finish(channels, &mut all, &mut past);
        if returned != given {
            return Err(HubFault::Short);
        }
        // Never so: a channel stays where it was put.
        if !at_home {
            return Err(HubFault::Memory);
        }
        publishes
            .into_inner()
            .compare(&mut all.publishes, &mut both.publishes);
        asks.into_inner().compare(&mut all.asks, &mut both.asks);
        Ok(())
    }

    /// Closes all held requests, and spends the hub.
    fn end(self) {
        let Hub {
            locks,
            mut past,
            seats: _seats,
            publishes: _publishes,
            asks: _asks,
        } = self;
        locks.end(&mut past);
    }
}

/// Returns the shares of all `passes`, merged into `rest`. `past` sees what they have seen.
fn gather<L: Ledgers>(
    rest: PassCounts<L>,
    passes: Vec<Pass<L>>,
    past: &mut Past<L>,
) -> PassCounts<L>
    requires { rest.parts ≤ 65537 }
    ensures parts { result.parts ≡ rest.parts + length passes.items }
    ensures most { result.parts ≤ 65537 }
    ensures publishes { result.publishes ≡ rest.publishes + sum (map (λ p. p.publishes) passes.items) }
    ensures asks { result.asks ≡ rest.asks + sum (map (λ p. p.asks) passes.items) }
    ensures seen { (place : ℕ) (pass : PassValue) → slice_get passes.items place ≡ Some pass → IsPrefix pass.history past.new }
{
    let mut all = rest;
    for pass in passes {
        all.merge(pass.into_counts(past));
    }
    all
}
