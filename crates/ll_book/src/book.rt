//! The open requests of one channel: they are held, settled by a release or by time, and taken out.
ghost use Rattle.std.specs.Prelude.{◌≡◌, ◌≤◌, ◌<◌, ◌+◌, ◌^◌, ◌++◌, ◌∷◌, ℕ, [], None, Some, false, true, cond, IfNone, IfOk, IfSome, IsErrOf, OnErr, OnOk, filter, find, is_some, length, map, nat_le, option_map};
ghost use Rattle.std.specs.BTreeMap.{is_at};
ghost use Rattle.std.specs.List.{list_any};
ghost use Rattle.std.specs.Ordering.{is_gt, nat_cmp};
ghost use Rattle.ll_book.specs.Numbers.{changed};
ghost use Rattle.ll_book.specs.Places.{place_cmp};
ghost use Rattle.ll_verdict.specs.State.{is_waiting, waiting_in};
ghost use Rattle.ll_verdict.specs.Verdict.{waiting_limit};
ghost use Rattle.ll_book.specs.Release.{AreThose, expired, frees, holders_of, is_over, released, takes};
ghost use Rattle.ll_book.specs.Orders.{IsNextTaken, IsWaiting, NoneTaken, holder_at, is_passed, reply_under, settle_with};
ghost use Rattle.ll_book.specs.Orders as spec;
ghost use Rattle.ll_verdict.specs.Waiting.{AreBelow, IsRising, entry_in, found, has_ticket, is_ready, is_ready_at, first_ready, reply_at, ticket_in, without, without_ready};

use crate::holders::{Holders, given};
use crate::next_part::NextPart;
use crate::order::Order;
use crate::place::OrderKey;
use crate::places::{FIRST, covers, start, time_of, want_of};
use crate::ready::Ready;
use crate::release::Release;
use crate::slots::Slots;
use ll_page_cache::{Pages, Rendered};
use ll_verdict::{Entry, Settled, Slot};
use std::alloc::{AllocError, Global};
use std::collections::BTreeMap;
use std::marker::Model;

/// The number of requests of a channel that can wait at one time.
const WAITING_LIMIT: usize = 65_536;

/// Why a request can't be held.
#[derive(Clone, Copy, PartialEq, Eq)]
pub enum ParkFault {
    /// As many requests of the channel wait as are allowed.
    Busy,
    /// Out of memory.
    Memory,
}

impl From<AllocError> for ParkFault {
    ghost use Rattle.std.specs.Prelude.{◌≡◌};
    ghost use Rattle.ll_book.specs.declared.book.ParkFault.TheVariants.{Memory};

    ghost from_gives = { λ error fault. fault ≡ Memory };

    fn from(_error: AllocError) -> ParkFault {
        ParkFault::Memory
    }
}

/// The effect of a change of the waiting requests.
#[derive(Clone, Copy)]
pub struct Released {
    /// The number of requests that it released.
    pub released: usize,
    /// The number of open requests that it looked at.
    pub looked: usize,
}

/// The open requests of a channel, in order of their tickets: each waits, or has its reply. Those that wait also stand in two orders, by what they
/// await and by their deadlines, so that a release or a reading of the clock looks at one more request than it settles, at most.
#[derive(Drop)]
pub struct Book {
    slots: Slots,
    wants: Order,
    times: Order,
    ready: Ready,
}

impl Model for Book {
    ghost use Rattle.std.specs.Prelude.{List};
    ghost use Rattle.ll_verdict.specs.declared.entry.Slot.{Slot};
    ghost use Rattle.ll_book.specs.Orders.{IsBook};

    ghost Value = { List Slot };

    ghost view = { λ b. b.slots };

    ghost invariant = { λ b. IsBook b.slots b.wants b.times b.ready.tickets b.ready.memory };
}

impl Book {
    /// Returns a book without requests.
    pub fn new(alloc: Global) -> Book
        ensures { result ≡ [] }
    {
        Book {
            slots: Slots::new(alloc),
            wants: Order::new(alloc),
            times: Order::new(alloc),
            ready: Ready::new(alloc),
        }
    }

    /// Adds a request that waits, and the place for its reply. Its ticket is above all earlier ones. Fails with `Busy` if 65,536 requests wait, and
    /// with `Memory`.
    pub fn park(&mut self, entry: Entry) -> Result<(), ParkFault>
        requires first { 0 < entry.ticket }
        requires newest { AreBelow entry.ticket self.old }
        ensures parked { OnOk result ((waiting_in self.old < waiting_limit) × (self.new ≡ self.old ++ record { entry = entry; settled = None } ∷ [])) }
        ensures busy { IsErrOf result ParkFault.Busy → waiting_limit ≤ waiting_in self.old }
        ensures memory { IsErrOf result ParkFault.Memory → waiting_in self.old < waiting_limit }
        ensures unchanged { OnErr result (self.new ≡ self.old) }
    {
        if self.is_busy() {
            return Err(ParkFault::Busy);
        }
        match self.hold(entry) {
            Ok(()) => Ok(()),
            Err(AllocError) => Err(ParkFault::Memory),
        }
    }

    /// Adds a request that waits, however many do.
    fn hold(&mut self, entry: Entry) -> Result<(), AllocError>
        requires first { 0 < entry.ticket }
        requires newest { AreBelow entry.ticket self.old }
        ensures held { OnOk result (self.new ≡ self.old ++ record { entry = entry; settled = None } ∷ []) }
        ensures unchanged { OnErr result (self.new ≡ self.old) }
    {
        self.ready.reserve(self.wants.len() + 1)?;
        self.wants.add(want_of(&entry))?;
        if let Err(error) = self.times.add(time_of(&entry)) {
            self.wants.remove(want_of(&entry));
            return Err(error);
        }
        let slot = Slot {
            entry,
            settled: None,
        };
        if let Err(error) = self.slots.push(slot) {
            self.times.remove(time_of(&entry));
            self.wants.remove(want_of(&entry));
            return Err(error);
        }
        Ok(())
    }

    /// Returns how many requests are open. Their tickets rise.
    pub fn len(&self) -> usize
        ensures value { result ≡ length self.now }
        ensures rising { IsRising 0 self.now }
    {
        self.slots.len()
    }

    /// Returns whether 65,536 requests wait.
    pub fn is_busy(&self) -> bool
        ensures { result ≡ nat_le waiting_limit (waiting_in self.now) }
    {
        // Serves the proof alone.
        let _ = &self.slots;
        self.wants.len() >= WAITING_LIMIT
    }

    /// Returns the open request `ticket`.
    pub fn find(&self, ticket: u64) -> Option<Entry>
        ensures { result ≡ found ticket self.now }
    {
        let slot = self.slots.get(ticket)?;
        Some(slot.entry)
    }

    /// Returns the open request `ticket` if its reply is there, else `None`.
    pub fn find_ready(&self, ticket: u64) -> Option<Entry>
        ensures { result ≡ option_map entry_in (find (is_ready_at ticket) self.now) }
    {
        match self.slots.get(ticket) {
            Some(slot) if slot.settled.is_some() => Some(slot.entry),
            _ => None,
        }
    }

    /// Returns how many open requests have their reply.
    pub fn ready(&self) -> usize
        ensures { result ≡ length (filter is_ready self.now) }
    {
        self.ready.len()
    }

    /// Returns the smallest ticket of an open request that has its reply.
    pub fn first_ready(&self) -> Option<u64>
        ensures { result ≡ first_ready self.now }
    {
        self.ready.first()
    }

    /// Hands out the reply to request `ticket`, which is then no longer open. Returns `None` and changes nothing if no reply to it is there.
    pub fn take(&mut self, ticket: u64) -> Option<Settled>
        ensures reply { result ≡ reply_at ticket self.old }
        ensures left { self.new ≡ without_ready ticket self.old }
        ensures alone { is_some result ≡ true → self.new ≡ without ticket self.old }
    {
        // Serves the proof alone.
        let _ = &self.slots;
        match self.find_ready(ticket) {
            Some(_) => self.leave(ticket),
            None => None,
        }
    }

    /// Takes out request `ticket`, whose reply is there, and returns that.
    fn leave(&mut self, ticket: u64) -> Option<Settled>
        requires { is_passed is_ready (find (has_ticket ticket) self.old) ≡ true }
        ensures reply { result ≡ reply_at ticket self.old }
        ensures left { self.new ≡ without ticket self.old }
    {
        self.ready.remove(ticket);
        let Slot { entry: _, settled } = self.slots.remove(ticket)?;
        settled
    }

    /// Returns whether the release `which` would take any request.
    pub fn takes_any(&self, which: Release) -> bool
        ensures { result ≡ list_any (takes which) self.now }
    {
        let mut looked = 0;
        self.first_taken(which, &mut looked).is_some()
    }

    /// Returns the first request that `which` takes, in the order of what is awaited. Adds 1 to `looked`.
    fn first_taken(&self, which: Release, looked: &mut usize) -> Option<Entry>
        requires { looked.old < 2 ^ 63 }
        ensures some { IfSome result (λ e. IsWaiting e self.now × (frees which e.wanted ≡ true)) }
        ensures none { IfNone result (filter (takes which) self.now ≡ []) }
        ensures looked { looked.new ≡ looked.old + 1 }
    {
        // Serves the proof alone.
        let _ = &self.slots;
        let place = self.next_taken(which, start(which), looked)?;
        self.find(place.number)
    }

    /// Returns the place of the first request after the place `after` that `which` takes, in the order of what is awaited. Adds 1 to `looked`.
    fn next_taken(&self, which: Release, after: OrderKey, looked: &mut usize) -> Option<OrderKey>
        requires few { looked.old < 2 ^ 63 }
        requires started { is_gt (place_cmp (spec.start which) after) ≡ false }
        ensures some { IfSome result (λ place. IsNextTaken which after place self.now) }
        ensures none { IfNone result (NoneTaken which after self.now) }
        ensures looked { looked.new ≡ looked.old + 1 }
    {
        // Serves the proof alone.
        let _ = &self.slots;
        let place = self.wants.first_after(after, looked)?;
        if !covers(which, place) {
            return None;
        }
        Some(place)
    }

    /// Makes the reply for each request that the release `which` will take, in order of their tickets: from `pages`, those of its rendition, which
    /// share what was rendered `before`, and from `part`, the part that comes, if one does.
    pub fn holders(
        &self,
        alloc: Global,
        which: Release,
        pages: &mut Pages,
        before: Rendered<'_>,
        part: &Option<NextPart>,
    ) -> Result<Holders, AllocError>
        ensures holders { IfOk result (λ h. h.holders ≡ holders_of (record { pages = pages.old; part = part.now }) which self.now) }
        ensures looked { IfOk result (λ h. h.looked ≤ length (filter (takes which) self.now) + 1) }
        ensures pages { pages.new ≡ pages.old }
    {
        let mut holders = BTreeMap::new(alloc);
        let mut looked = 0;
        let mut after = start(which);
        // Serves the proof alone.
        self.slots.len();
        while let Some(place) = self.next_taken(which, after, &mut looked) {
            self.add_holder(alloc, place.number, pages, before, part, &mut holders)?;
            after = place;
        }
        // Serves the proof alone.
        holders.len();
        Ok(Holders {
            replies: holders,
            looked,
        })
    }

    /// Adds the reply for request `ticket` to `holders`.
    fn add_holder(
        &self,
        alloc: Global,
        ticket: u64,
        pages: &mut Pages,
        before: Rendered<'_>,
        part: &Option<NextPart>,
        holders: &mut BTreeMap<u64, Settled>,
    ) -> Result<(), AllocError>
        requires { is_some (found ticket self.now) ≡ true }
        ensures added { OnOk result ((t : ℕ) → reply_under holders.new.entries t
            ≡ cond (is_at (nat_cmp ticket) t) (holder_at (record { pages = pages.old; part = part.now }) self.now ticket) (reply_under holders.old.entries t)) }
        ensures pages { pages.new ≡ pages.old }
    {
        let Some(entry) = self.find(ticket) else {
            unreachable!();
        };
        let settled = given(alloc, pages, before, part, &entry.wanted)?;
        holders.insert(ticket, settled)?;
        Ok(())
    }

    /// Releases the requests of `rendition` that await part `part` of segment `msn`, or an earlier one. [`Book::holders`] made `holders` for this
    /// release.
    pub fn release_part(
        &mut self,
        rendition: usize,
        msn: u64,
        part: u64,
        holders: Holders,
    ) -> Released
        requires those { AreThose (Release.Part rendition msn part) holders.holders self.old }
        ensures slots { self.new ≡ released (Release.Part rendition msn part) holders.holders self.old }
        ensures count { result.released ≡ length (filter (takes (Release.Part rendition msn part)) self.old) }
        ensures looked { result.looked ≤ result.released + 1 }
    {
        self.release(Release::Part(rendition, msn, part), holders)
    }

    /// Releases the requests of `rendition` that await segment `msn`, which is finished, or an earlier one. [`Book::holders`] made `holders` for this
    /// release.
    pub fn release_segment(&mut self, rendition: usize, msn: u64, holders: Holders) -> Released
        requires those { AreThose (Release.Segment rendition msn) holders.holders self.old }
        ensures slots { self.new ≡ released (Release.Segment rendition msn) holders.holders self.old }
        ensures count { result.released ≡ length (filter (takes (Release.Segment rendition msn)) self.old) }
        ensures looked { result.looked ≤ result.released + 1 }
    {
        self.release(Release::Segment(rendition, msn), holders)
    }

    /// Releases all requests of `rendition`, which has ended. [`Book::holders`] made `holders` for this release.
    pub fn release_all(&mut self, rendition: usize, holders: Holders) -> Released
        requires those { AreThose (Release.All rendition) holders.holders self.old }
        ensures slots { self.new ≡ released (Release.All rendition) holders.holders self.old }
        ensures count { result.released ≡ length (filter (takes (Release.All rendition)) self.old) }
        ensures looked { result.looked ≤ result.released + 1 }
    {
        self.release(Release::All(rendition), holders)
    }

    /// Gives each request that `which` takes its reply from `holders`.
    fn release(&mut self, which: Release, holders: Holders) -> Released
        requires those { AreThose which holders.holders self.old }
        ensures slots { self.new ≡ released which holders.holders self.old }
        ensures count { result.released ≡ length (filter (takes which) self.old) }
        ensures looked { result.looked ≤ result.released + 1 }
    {
        let Holders {
            mut replies,
            looked: _,
        } = holders;
        // Serves the proof alone.
        self.slots.len();
        let (mut count, mut looked) = (0, 0);
        while let Some(entry) = self.first_taken(which, &mut looked) {
            let Some(reply) = replies.remove(&entry.ticket) else {
                unreachable!();
            };
            self.settle(entry, reply);
            count += 1;
        }
        Released {
            released: count,
            looked,
        }
    }

    /// Settles each waiting request whose deadline is at most `now`, in milliseconds, with a timeout.
    pub fn expire(&mut self, now: u64) -> Released
        ensures slots { self.new ≡ map (expired now) self.old }
        ensures count { result.released ≡ length (filter (is_over now) self.old) }
        ensures looked { result.looked ≤ result.released + 1 }
    {
        // Serves the proof alone.
        self.slots.len();
        let (mut count, mut looked) = (0, 0);
        while let Some(entry) = self.first_over(now, &mut looked) {
            self.settle(entry, Settled::Timeout);
            count += 1;
        }
        Released {
            released: count,
            looked,
        }
    }

    /// Returns the waiting request with the earliest deadline, if that is at most `now`. Adds 1 to `looked`.
    fn first_over(&self, now: u64, looked: &mut usize) -> Option<Entry>
        requires { looked.old < 2 ^ 63 }
        ensures some { IfSome result (λ e. IsWaiting e self.now × (e.deadline ≤ now)) }
        ensures none { IfNone result (filter (is_over now) self.now ≡ []) }
        ensures looked { looked.new ≡ looked.old + 1 }
    {
        // Serves the proof alone.
        let _ = &self.slots;
        let place = self.times.first_after(FIRST, looked)?;
        if now < place.rank {
            return None;
        }
        self.find(place.number)
    }

    /// Gives a waiting request its reply. It takes no memory.
    fn settle(&mut self, entry: Entry, settled: Settled)
        requires { IsWaiting entry self.old }
        ensures { self.new ≡ changed ticket_in entry.ticket (settle_with settled) self.old }
    {
        self.wants.remove(want_of(&entry));
        self.times.remove(time_of(&entry));
        self.ready.put(entry.ticket);
        self.slots.settle(entry.ticket, settled);
    }

    /// Removes the open request `ticket`, if there is one. It is found by its ticket, so no other is looked at.
    pub fn drop_ticket(&mut self, ticket: u64) -> Released
        ensures slots { self.new ≡ without ticket self.old }
        ensures count { result.released ≡ length (filter (has_ticket ticket) self.old) }
        ensures looked { result.looked ≡ 0 }
    {
        // Serves the proof alone.
        let _ = &self.slots;
        match self.find(ticket) {
            Some(entry) => {
                self.forget(entry);
                Released {
                    released: 1,
                    looked: 0,
                }
            }
            None => Released {
                released: 0,
                looked: 0,
            },
        }
    }

    /// Removes an open request.
    fn forget(&mut self, entry: Entry)
        requires { found entry.ticket self.old ≡ Some entry }
        ensures { self.new ≡ without entry.ticket self.old }
    {
        self.wants.remove(want_of(&entry));
        self.times.remove(time_of(&entry));
        self.ready.remove(entry.ticket);
        self.slots.remove(entry.ticket);
    }
}
