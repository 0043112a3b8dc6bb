//! The lock of one channel, and how those that wait for its replies are woken.
ghost use Rattle.std.specs.Prelude.{◌≡◌, ◌-◌, ◌&&◌, ◌+◌, Some, IfErr, IfOk, IfSome, IsTrue, MatchBool, MatchOption, OnErr, OnOk, filter, length, slice_get};
ghost use Rattle.std.specs.Sync.Mutex.{mutex_guard_value};
ghost use mathlib.Core.List.{IsPrefix};
ghost use Rattle.ll_history.specs.History.{deeds_at};
ghost use Rattle.ll_hub.specs.Rung.{IsRung, Rings};
ghost use Rattle.ll_hub_channel.specs.Deeds.{events_of};
ghost use Rattle.ll_hub_channel.specs.Section.{IsAt};
ghost use Rattle.ll_hub_channel.specs.Told.{IsTotalOf};
ghost use Rattle.ll_ledger.specs.Sections as has;
ghost use Rattle.ll_record.specs.Chunk.{ChunkValue};
ghost use Rattle.ll_record.specs.Taken.{Takes};
ghost use Rattle.ll_settings.specs.Settings.{Configuration};
ghost use Rattle.ll_room.specs.declared.stamped.Stamp.TheVariants as stamp;
ghost use Rattle.ll_verdict.specs.Waiting.{is_ready};

use crate::bell::Bell;
use ll_history::Past;
use ll_hub_channel::{HubFault, Known, Total, Tried};
use ll_ledger::{ChannelCounts, CountedChannel, Ledgers};
use ll_record::{Chunk, Sink};
use ll_room::Stamped;
use ll_settings::Channels;
use ll_verdict::{ClockFault, Entry, Reply};
use std::alloc::AllocError;
use std::sync::atomic::{AtomicU64, AtomicUsize, Ordering};
use std::sync::{Condvar, Mutex, MutexGuard, Wait};
use std::time::{Clock, Duration, Instant};

/// How often a held lock is tried before its caller sleeps until it is free: for longer than some sections take, unless the system has
/// stopped the thread inside. A section is much shorter than falling asleep and being woken.
const TRIES: usize = 128;

/// The most waiters that are woken when replies come. Each of them wakes another, so few at a time ask for the lock.
const WOKEN: usize = 64;

/// One channel's lock, and what wakes those that wait for replies.
pub(crate) struct ChannelLock<L: Ledgers> {
    state: Mutex<CountedChannel<L>>,
    changed: Condvar,
    /// The number of callers that wait for replies.
    waiters: AtomicUsize,
    /// The number of times that replies came.
    releases: AtomicU64,
}

/// A channel's lock that is held for a call that can make replies ready, and how many of its replies were ready before. It must be consumed:
/// there is no way to let go of the lock and to ring for nobody.
pub(crate) struct Section<'a, L: Ledgers> {
    channel_lock: &'a ChannelLock<L>,
    pub(crate) state: MutexGuard<'a, CountedChannel<L>>,
    ready: usize,
}

impl<L: Ledgers> ChannelLock<L> {
    pub(crate) fn new(channel: CountedChannel<L>) -> ChannelLock<L> {
        ChannelLock {
            state: Mutex::new(channel),
            changed: Condvar::new(),
            waiters: AtomicUsize::new(0),
            releases: AtomicU64::new(0),
        }
    }

    /// Takes the lock.
    pub(crate) fn lock<R: Wait>(&self, rt: &R) -> MutexGuard<'_, CountedChannel<L>> {
        for _ in 0..TRIES {
            if let Some(state) = self.state.try_lock() {
                return state;
            }
        }
        self.state.lock(rt)
    }

    /// Takes the lock for a call that can make replies ready.
    pub(crate) fn enter<R: Wait>(&self, rt: &R) -> Section<'_, L>
        ensures { result.ready ≡ length (filter is_ready (mutex_guard_value result.state).room.slots) }
    {
        let state = self.lock(rt);
        let ready = state.ready();
        Section {
            channel_lock: self,
            state,
            ready,
        }
    }

    /// Returns whether a waiter that was woken is to wake another: if replies are there that weren't collected, and it has woken none since
    /// replies last came. Waiters are woken in the order in which they began to wait, so one that is woken again comes after all whose
    /// replies are there.
    fn wakes_another(&self, state: &CountedChannel<L>, woken: &mut u64) -> bool {
        let releases = self.releases.load(Ordering::SeqCst);
        let wakes = *woken < releases && state.ready() > 0;
        *woken = releases;
        wakes
    }

    /// Releases the lock, and then wakes another waiter if `wakes`, so that it finds the lock free.
    fn unlock(&self, state: MutexGuard<'_, CountedChannel<L>>, wakes: bool) {
        drop(state);
        if wakes {
            self.changed.notify_one();
        }
    }

    /// Passes a reading of the clock, in milliseconds, to the channel.
    pub(crate) fn tick<B: Bell, R: Wait>(
        &self,
        rt: &R,
        bell: &mut B,
        known: Known<'_>,
        ms: u64,
        past: &mut Past<L>,
    ) -> Result<(), ClockFault>
        ensures ticked { OnOk result (has.HasTicked past.old past.new known.entry.place ms) }
        ensures refused { IfErr result (λ f. has.HasNotTicked past.old past.new known.entry.place known.entry.settings.now ms f) }
        ensures rung { IsRung known.entry.place (B.rung bell.old) (B.rung bell.new) }
    {
        let mut section = self.enter(rt);
        let told = section.state.tick(rt, known, ms, past);
        section.leave(bell, known.place);
        told
    }

    /// Keeps those of `tickets` whose requests are open and have their reply.
    pub(crate) fn keep_ready<R: Wait>(&self, rt: &R, tickets: &mut Vec<u64>) {
        self.lock(rt).keep_ready(tickets);
    }

    /// Hands the record of the channel to `sink`, and begins another. The channel stays locked until the sink has taken it.
    pub(crate) fn rotate_to<K: Sink, R: Wait>(
        &self,
        rt: &R,
        known: Known<'_>,
        sink: &mut K,
        past: &mut Past<L>,
    ) -> Result<(), AllocError>
        ensures taken { OnOk result ((chunk : ChunkValue) × has.HasHandedOut past.old past.new known.entry.place known.entry.settings.now chunk
            × Takes (K.taken sink.old) (K.taken sink.new) known.entry.place chunk) }
        ensures unchanged { OnErr result ((past.new ≡ past.old) × (K.taken sink.new ≡ K.taken sink.old)) }
    {
        let mut state = self.lock(rt);
        match state.rotate(rt, known, past) {
            Ok(chunk) => {
                sink.take(known.place, chunk);
                Ok(())
            }
            Err(AllocError) => Err(AllocError),
        }
    }

    /// Returns the reply to the held request `entry`; `None` if it isn't there yet.
    pub(crate) fn collect<R: Wait>(
        &self,
        rt: &R,
        known: Known<'_>,
        entry: Entry,
        past: &mut Past<L>,
    ) -> Result<Option<Stamped<Reply>>, HubFault>
        ensures replied { IfOk result (λ o. IfSome o (λ r. (r.room ≡ known.entry.place) × (r.stamp ≡ stamp.Collect entry.ticket))) }
        ensures decided { IfOk result (λ o. MatchOption o (past.new ≡ past.old) (λ r. has.HasDecided past.old past.new known.entry.place known.entry.settings.now entry r.value)) }
        ensures stranger { IfErr result (λ f. (f ≡ HubFault.Stranger) × has.HasNone past.old past.new known.entry.place known.entry.settings.now entry) }
    {
        match self.lock(rt).collect(rt, known, entry, past) {
            Tried::Got(reply) => Ok(Some(reply)),
            Tried::Still => Ok(None),
            Tried::Stranger => Err(HubFault::Stranger),
        }
    }

    /// Looks for the reply to the held request `entry`, under the lock `state`. Returns the lock if the reply isn't there yet; otherwise
    /// releases it, and fails with the reply, or with why there is none. Wakes another waiter, if it is to.
    fn look<'a, R: Wait>(
        &'a self,
        rt: &R,
        mut state: MutexGuard<'a, CountedChannel<L>>,
        known: Known<'_>,
        entry: Entry,
        past: &mut Past<L>,
        woken: &mut u64,
    ) -> Result<MutexGuard<'a, CountedChannel<L>>, Result<Stamped<Reply>, HubFault>>
        ensures still { OnOk result (past.new ≡ past.old) }
        ensures replied { IfErr result (λ told. IfOk told (λ r. (r.room ≡ known.entry.place) × (r.stamp ≡ stamp.Collect entry.ticket))) }
        ensures decided { IfErr result (λ told. IfOk told (λ r. has.HasDecided past.old past.new known.entry.place known.entry.settings.now entry r.value)) }
        ensures stranger { IfErr result (λ told. IfErr told (λ f. (f ≡ HubFault.Stranger) × has.HasNone past.old past.new known.entry.place known.entry.settings.now entry)) }
    {
        let tried = state.collect(rt, known, entry, past);
        let wakes = self.wakes_another(&state, woken);
        let told = match tried {
            Tried::Got(reply) => Ok(reply),
            Tried::Stranger => Err(HubFault::Stranger),
            Tried::Still => {
                if wakes {
                    self.changed.notify_one();
                }
                return Ok(state);
            }
        };
        self.unlock(state, wakes);
        Err(told)
    }

    /// Waits for the reply to the held request `entry`.
    pub(crate) fn wait<R: Wait>(
        &self,
        rt: &R,
        known: Known<'_>,
        entry: Entry,
        past: &mut Past<L>,
    ) -> Result<Stamped<Reply>, HubFault>
        ensures replied { IfOk result (λ r. (r.room ≡ known.entry.place) × (r.stamp ≡ stamp.Collect entry.ticket)) }
        ensures decided { IfOk result (λ r. has.HasDecided past.old past.new known.entry.place known.entry.settings.now entry r.value) }
        ensures stranger { IfErr result (λ f. (f ≡ HubFault.Stranger) × has.HasNone past.old past.new known.entry.place known.entry.settings.now entry) }
    {
        let mut state = self.lock(rt);
        let mut woken = self.releases.load(Ordering::SeqCst);
        for _ in rt.forever() {
            state = match self.look(rt, state, known, entry, past, &mut woken) {
                Ok(state) => state,
                Err(told) => return told,
            };
            self.waiters.fetch_add(1, Ordering::SeqCst);
            state = self.changed.wait(rt, state);
            self.waiters.fetch_sub(1, Ordering::SeqCst);
        }
        unreachable!()
    }

    /// Waits for the reply to the held request `entry`; returns `None` once `limit` is over.
    pub(crate) fn wait_within<R: Wait + Clock>(
        &self,
        rt: &R,
        known: Known<'_>,
        entry: Entry,
        limit: Duration,
        past: &mut Past<L>,
    ) -> Result<Option<Stamped<Reply>>, HubFault>
        ensures replied { IfOk result (λ o. IfSome o (λ r. (r.room ≡ known.entry.place) × (r.stamp ≡ stamp.Collect entry.ticket))) }
        ensures decided { IfOk result (λ o. MatchOption o (past.new ≡ past.old) (λ r. has.HasDecided past.old past.new known.entry.place known.entry.settings.now entry r.value)) }
        ensures stranger { IfErr result (λ f. (f ≡ HubFault.Stranger) × has.HasNone past.old past.new known.entry.place known.entry.settings.now entry) }
    {
        let start = Instant::now(rt).ok();
        let mut state = self.lock(rt);
        let mut woken = self.releases.load(Ordering::SeqCst);
        for _ in rt.forever() {
            state = match self.look(rt, state, known, entry, past, &mut woken) {
                Ok(state) => state,
                Err(Ok(reply)) => return Ok(Some(reply)),
                Err(Err(fault)) => return Err(fault),
            };
            let Some(left) = left(rt, start, limit) else {
                return Ok(None);
            };
            self.waiters.fetch_add(1, Ordering::SeqCst);
            state = self.changed.wait_timeout(rt, state, left).0;
            self.waiters.fetch_sub(1, Ordering::SeqCst);
        }
        unreachable!()
    }

    /// Closes all held requests, and returns the channel's total and its shares. Sets `at_home` to false if it isn't the channel at
    /// `place`, or if `past` hasn't seen all that was done to it then.
    pub(crate) fn finish(
        self,
        channels: &Channels,
        place: usize,
        past: &mut Past<L>,
        at_home: &mut bool,
    ) -> (Total, ChannelCounts<L>)
        ensures shares { result.1 ≡ record { parts = 1; publishes = result.0.publishes; asks = result.0.asks } }
        ensures grows { IsPrefix past.old past.new }
        ensures total { (settings : Configuration) → IsTrue at_home.new → slice_get channels.now place ≡ Some settings
            → IsTotalOf settings (events_of settings (deeds_at place past.new)) result.0 }
        ensures noted { IsTrue at_home.new → IsTrue at_home.old }
    {
        let ChannelLock {
            state,
            changed: _,
            waiters: _,
            releases: _,
        } = self;
        let channel = state.into_inner();
        let here = is_at(&channel, channels, place);
        let (total, counts, seen) = channel.finish(past);
        *at_home &= here & seen;
        (total, counts)
    }

    /// Closes all held requests.
    pub(crate) fn end(self, past: &mut Past<L>) {
        let ChannelLock {
            state,
            changed: _,
            waiters: _,
            releases: _,
        } = self;
        state.into_inner().finish(past);
    }
}

impl<'a, L: Ledgers> Section<'a, L> {
    /// Releases the lock of the channel, which is the one at place `place`, and rings `bell` for the replies that became ready. If there are
    /// any, wakes some of those that wait, and they wake the others.
    pub(crate) fn leave<B: Bell>(self, bell: &mut B, place: usize)
        ensures { Rings (B.rung bell.old) (B.rung bell.new) place (length (filter is_ready (mutex_guard_value self.entry.state).room.slots) - self.entry.ready) }
    {
        let Section {
            channel_lock,
            state,
            ready,
        } = self;
        let more = state.ready().saturating_sub(ready);
        if more > 0 {
            channel_lock.releases.fetch_add(1, Ordering::SeqCst);
        }
        let waiters = channel_lock.waiters.load(Ordering::SeqCst);
        drop(state);
        for _ in 0..more.min(WOKEN).min(waiters) {
            channel_lock.changed.notify_one();
        }
        bell.ring(place, more);
    }

    /// Releases the lock after a call that was refused: no reply became ready.
    pub(crate) fn leave_unchanged(self)
        requires { length (filter is_ready (mutex_guard_value self.state).room.slots) ≡ self.ready }
    {
        let Section {
            channel_lock: _,
            state,
            ready: _,
        } = self;
        drop(state);
    }
}

/// Returns what is left of `limit`, which runs from `start`; `None` if it is over, or if the clock can't be read.
fn left<R: Clock>(rt: &R, start: Option<Instant>, limit: Duration) -> Option<Duration> {
    let left = limit.checked_sub(start?.elapsed(rt).ok()?)?;
    if left.is_zero() { None } else { Some(left) }
}

/// Returns whether `channel` is the one at `place`.
fn is_at<L: Ledgers>(channel: &CountedChannel<L>, channels: &Channels, place: usize) -> bool
    ensures { (settings : Configuration) → IsTrue result → slice_get channels.now place ≡ Some settings → IsAt channel.now place settings }
{
    match channels.get(place) {
        Some(settings) => channel.is_met(Known {
            place,
            settings,
            seen: 0,
        }),
        None => false,
    }
}
