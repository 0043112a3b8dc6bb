//! The channels of a hub, each under its own lock.
ghost use Rattle.std.specs.Prelude.{◌≡◌, ◌+◌, ◌<◌, ◌≤◌, ◌++◌, ◌∷◌, [], None, Some, IfErr, IfOk, IsTrue, MatchOption, OnErr, OnOk, length, map, slice_get, sum, vec_capacity, vec_len};
ghost use Rattle.ll_hub.specs.Calls as calls;
ghost use mathlib.Core.List.{IsPrefix};
ghost use Rattle.ll_hub.specs.Rung.{IsRung};
ghost use Rattle.ll_ledger.specs.Ledgers.{IsRest, all_parts, blank};
ghost use Rattle.ll_settings.specs.Channels.{channel_of_name};
ghost use Rattle.ll_room.specs.RoomValue.{room_value};
ghost use Rattle.ll_verdict.specs.State.{state_of};

use crate::lock::ChannelLock;
use ll_history::{ChannelHistory, Past, Places};
use ll_hub_channel::{HubFault, Known, Total};
use ll_ledger::{ChannelCounts, CountedChannel, Ledgers};
use ll_settings::{Channels, Settings};
use std::alloc::{AllocError, Global};
use std::marker::Model;

/// Channels, each under its own lock, found by name and by place.
pub(crate) struct ChannelLocks<L: Ledgers> {
    alloc: Global,
    channels: Channels,
    locks: Vec<ChannelLock<L>>,
}

impl<L: Ledgers> Model for ChannelLocks<L> {
    ghost use Rattle.std.specs.Prelude.{◌≡◌, List, length, vec_len};
    ghost use Rattle.ll_settings.specs.Settings.{Configuration};

    ghost Value = { List Configuration };

    ghost view = { λ s. s.channels };

    ghost invariant = { λ s. vec_len s.locks ≡ length s.channels };
}

/// Only an empty list may be dropped: a leak is a failed proof.
impl<L: Ledgers> Drop for ChannelLocks<L> {
    ghost use Rattle.std.specs.Prelude.{◌≡◌, []};

    fn drop(self)
        requires { self ≡ [] }
    {
        let ChannelLocks {
            alloc: _,
            channels: _declared,
            locks,
        } = self;
        locks.destroy_empty();
    }
}

impl<L: Ledgers> ChannelLocks<L> {
    /// Returns an empty list.
    pub(crate) fn new(alloc: Global) -> ChannelLocks<L>
        ensures { result ≡ [] }
    {
        ChannelLocks {
            alloc,
            channels: Channels::new(alloc),
            locks: Vec::new(alloc),
        }
    }

    /// Returns the allocator of the list.
    pub(crate) fn alloc(&self) -> Global {
        self.alloc
    }

    /// Returns the number of channels.
    pub(crate) fn len(&self) -> usize
        ensures { result ≡ length self.now }
    {
        self.locks.len()
    }

    /// Adds a channel with `settings` after the others, with its place in the history.
    pub(crate) fn add(
        &mut self,
        settings: Settings,
        history: ChannelHistory<L>,
        counts: ChannelCounts<L>,
    ) -> Result<(), AllocError>
        requires history { history ≡ record { place = length self.old; deeds = [] } }
        requires counts { counts ≡ blank 1 }
        ensures added { OnOk result (self.new ≡ self.old ++ settings ∷ []) }
        ensures unchanged { OnErr result (self.new ≡ self.old) }
    {
        let mut past = history.past().again();
        let channel = new_channel(self.alloc, &mut self.locks, &settings, history, counts)?;
        match self.channels.add(self.alloc, settings) {
            Ok(()) => {}
            Err(AllocError) => {
                channel.finish(&mut past);
                return Err(AllocError);
            }
        }
        self.locks.push_reserved(ChannelLock::new(channel));
        Ok(())
    }

    /// Returns the place of the channel named `name`, and its settings.
    pub(crate) fn find(&self, name: &str) -> Option<(usize, &Settings)>
        ensures { MatchOption result (channel_of_name self.now 0 name.now ≡ None)
            (λ f. channel_of_name self.now 0 name.now ≡ Some (f.0, f.1.now)) }
    {
        self.channels.find(name)
    }

    /// Returns the lock of the channel at place `channel`, and the channel as a caller knows it who has seen `seen` of its items.
    pub(crate) fn reach(
        &self,
        channel: usize,
        seen: Option<u64>,
    ) -> Result<(&ChannelLock<L>, Known<'_>), HubFault>
        ensures known { IfOk result (λ k. (k.1.place ≡ channel) × (slice_get self.now channel ≡ Some k.1.settings.now) × (seen ≡ Some k.1.seen)) }
        ensures unknown { IfErr result (λ f. calls.IsUnreached self.now channel seen f) }
    {
        let (Some(channel_lock), Some(settings)) = (
            self.locks.get(channel),
            self.channels.get(channel),
        ) else {
            return Err(HubFault::UnknownChannel);
        };
        let Some(seen) = seen else {
            return Err(HubFault::Stranger);
        };
        Ok((
            channel_lock,
            Known {
                place: channel,
                settings,
                seen,
            },
        ))
    }

    /// Closes all held requests, adds each channel's total to `found`, and merges their shares into `all`. `past` sees all that was done. It takes
    /// no memory. Returns whether each channel was found at its place, with all that was done to it, as it always is: no proof sees what lies under a
    /// lock, so this is checked.
    pub(crate) fn finish(
        self,
        found: &mut Vec<Total>,
        all: &mut ChannelCounts<L>,
        past: &mut Past<L>,
    ) -> bool
        requires none { found.old.items ≡ [] }
        requires room { length self ≤ vec_capacity found.old }
        ensures totals { IsTrue result → calls.AreTotals self past.old past.new found.new.items }
        ensures grows { IsPrefix past.old past.new }
        ensures each { length found.new.items ≡ length self }
        ensures parts { all.new.parts ≡ all.old.parts + length self }
        ensures publishes { all.new.publishes ≡ all.old.publishes + sum (map (λ t. t.publishes) found.new.items) }
        ensures asks { all.new.asks ≡ all.old.asks + sum (map (λ t. t.asks) found.new.items) }
    {
        let ChannelLocks {
            alloc: _,
            channels,
            locks: mut left,
        } = self;
        left.reverse();
        let mut at_home = true;
        while let Some(channel_lock) = left.pop() {
            let (total, counts) = channel_lock.finish(&channels, found.len(), past, &mut at_home);
            found.push_reserved(total);
            all.merge(counts);
        }
        left.destroy_empty();
        at_home
    }

    /// Closes all held requests.
    pub(crate) fn end(self, past: &mut Past<L>) {
        let ChannelLocks {
            alloc: _,
            channels: _declared,
            locks: mut left,
        } = self;
        while let Some(channel_lock) = left.pop() {
            channel_lock.end(past);
        }
        left.destroy_empty();
    }
}

/// Returns a channel for the place after `locks`, to which nothing was done, and reserves memory for its lock.
fn new_channel<L: Ledgers>(
    alloc: Global,
    locks: &mut Vec<ChannelLock<L>>,
    settings: &Settings,
    history: ChannelHistory<L>,
    counts: ChannelCounts<L>,
) -> Result<CountedChannel<L>, AllocError>
    requires history { history ≡ record { place = vec_len locks.old; deeds = [] } }
    requires counts { counts ≡ blank 1 }
    ensures new { IfOk result (λ c. c ≡ record { room = room_value (vec_len locks.old) settings.now (state_of settings.now []); at = 0; lines = []; calls = 0 }) }
    ensures room { OnOk result (vec_len locks.new < vec_capacity locks.new) }
    ensures len { vec_len locks.new ≡ vec_len locks.old }
{
    let own = settings.copy(alloc)?;
    locks.reserve(1)?;
    CountedChannel::new(alloc, locks.len(), own, history, counts)
}

/// Returns `channels`, to which nothing was done, each under its own lock, at its place in the history, and with its shares of `rest`.
pub(crate) fn lock_each<L: Ledgers>(
    alloc: Global,
    channels: Vec<Settings>,
    places: &mut Places<L>,
    rest: &mut ChannelCounts<L>,
) -> Result<ChannelLocks<L>, AllocError>
    requires most { length channels.items ≤ 1024 }
    requires places { places.old ≡ 0 }
    requires rest { rest.old ≡ blank all_parts }
    ensures locks { IfOk result (λ l. l ≡ channels.items) }
    ensures rest { OnOk result (IsRest rest.new (length channels.items)) }
{
    let mut locks = ChannelLocks::new(alloc);
    for settings in channels {
        let history = places.take();
        let mut past = history.past().again();
        if locks.add(settings, history, rest.give()).is_err() {
            locks.end(&mut past);
            return Err(AllocError);
        }
    }
    Ok(locks)
}
