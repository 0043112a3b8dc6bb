//! What a room keeps of its channel, and what can be read of it.
ghost use Rattle.std.specs.Prelude.{◌≡◌, ◌<◌, ◌≤◌, ◌^◌, [], IfOk, List, MatchOption, filter, find, length, option_map};
ghost use Rattle.ll_verdict.specs.Waiting as waiting;
ghost use Rattle.ll_verdict.specs.State.{state_of};
ghost use Rattle.ll_room.specs.Answers.{is_open};
ghost use Rattle.ll_verdict.specs.Full.{is_full};
ghost use Rattle.ll_room.specs.RoomValue.{Stands, room_value};
ghost use Rattle.ll_verdict.specs.Events.{Event, items};
ghost use Rattle.ll_verdict.specs.Standing.{standing};

use ll_book::Book;
use ll_presentation::Presentation;
use ll_settings::Settings;
use ll_verdict::{Entry, Standing};
use std::alloc::{AllocError, Global};
use std::marker::Model;

/// The number of events after which a channel takes no more.
pub(crate) const EVENT_END: u64 = 1 << 60;

/// What is kept of one channel in place of its events: its presentation, its time, and its open requests.
pub struct Room {
    pub(crate) alloc: Global,
    pub(crate) channel: u64,
    pub(crate) presentation: Presentation,
    pub(crate) time: u64,
    pub(crate) asks: u64,
    pub(crate) book: Book,
    pub(crate) events: u64,
}

/// Crates that drop a room prove nothing of what is in it.
impl Drop for Room {
    fn drop(self) {
        let Room {
            alloc: _,
            channel: _,
            presentation: _presentation,
            time: _,
            asks: _,
            book: _book,
            events: _,
        } = self;
    }
}

impl Model for Room {
    ghost use Rattle.ll_room.specs.RoomValue.{RoomValue};
    ghost use Rattle.ll_room.specs.Kept.{IsKept};

    ghost Value = { RoomValue };

    ghost view = { λ r. record {
      channel = r.channel;
      settings = r.presentation.settings;
      renditions = r.presentation.renditions;
      stores = r.presentation.stores;
      count = r.presentation.count;
      time = r.time;
      asks = r.asks;
      slots = r.book;
      events = r.events;
    } };

    ghost invariant = { λ r. IsKept (record {
      channel = r.channel;
      settings = r.presentation.settings;
      renditions = r.presentation.renditions;
      stores = r.presentation.stores;
      count = r.presentation.count;
      time = r.time;
      asks = r.asks;
      slots = r.book;
      events = r.events;
    }) };
}

impl Room {
    /// Returns room `channel` for a channel of `settings`, to which nothing has happened.
    pub fn new(alloc: Global, channel: u64, settings: Settings) -> Result<Room, AllocError>
        ensures { IfOk result (λ r. r ≡ room_value channel settings (state_of settings [])) }
    {
        // Serves the proof alone: no request is due when it is made, and the last finished segment is in the window.
        prove!(settings.target() >= 1);
        settings.within_limits();
        Ok(Room {
            alloc,
            channel,
            presentation: Presentation::new(alloc, settings)?,
            time: 0,
            asks: 0,
            book: Book::new(alloc),
            events: 0,
        })
    }

    /// Returns the number of the room.
    pub fn channel(&self) -> u64
        ensures { result ≡ self.now.channel }
    {
        self.channel
    }

    /// Returns the settings of the channel.
    pub fn settings(&self) -> &Settings
        ensures { result.now ≡ self.now.settings }
    {
        self.presentation.settings()
    }

    /// Returns how many items the channel has accepted.
    pub fn count(&self) -> u64
        ensures { result ≡ self.now.count }
    {
        self.presentation.count()
    }

    /// Returns how many requests there were.
    pub fn asks(&self) -> u64
        ensures value { result ≡ self.now.asks }
        ensures few { result ≤ 2 ^ 61 }
    {
        self.asks
    }

    /// Returns how many events there were.
    pub fn events(&self) -> u64
        ensures value { result ≡ self.now.events }
        ensures few { result ≤ 2 ^ 61 }
    {
        self.events
    }

    /// Returns how many requests are open. Their tickets rise.
    pub fn open_requests(&self) -> usize
        ensures value { result ≡ length self.now.slots }
        ensures few { result ≤ 2 ^ 61 }
        ensures rising { waiting.IsRising 0 self.now.slots }
    {
        self.book.len()
    }

    /// Returns where the rendition of index `rendition` stands, or `None` if the channel has no such rendition. It is no event.
    pub fn standing(&self, rendition: usize) -> Option<Standing>
        ensures { (events : List Event) → Stands self.now events
            → MatchOption result (length self.now.settings.renditions ≤ rendition)
            (λ s. (rendition < length self.now.settings.renditions) × (s ≡ standing self.now.settings (items self.now.settings events) rendition)) }
    {
        self.presentation.standing(rendition)
    }

    /// Returns whether the channel has taken 2^60 events.
    pub fn is_full(&self) -> bool
        ensures { result ≡ is_full self.now.events }
    {
        self.events >= EVENT_END
    }

    /// Returns the open request `ticket` if its reply is there and can be collected, else `None`.
    pub fn ready_at(&self, ticket: u64) -> Option<Entry>
        ensures { result ≡ option_map waiting.entry_in (find (waiting.is_ready_at ticket) self.now.slots) }
    {
        self.book.find_ready(ticket)
    }

    /// Returns how many open requests have their reply.
    pub fn ready(&self) -> usize
        ensures { result ≡ length (filter waiting.is_ready self.now.slots) }
    {
        self.book.ready()
    }

    /// Returns the open request `ticket`, with its reply or without, or `None` if it isn't open.
    pub fn open(&self, ticket: u64) -> Option<Entry>
        ensures { result ≡ waiting.found ticket self.now.slots }
    {
        self.book.find(ticket)
    }

    /// Returns the smallest ticket of an open request that has its reply.
    pub fn next_ready(&self) -> Option<u64>
        ensures { result ≡ waiting.first_ready self.now.slots }
    {
        self.book.first_ready()
    }

    /// Returns whether request `ticket` is open.
    pub fn is_open(&self, ticket: u64) -> bool
        ensures { result ≡ is_open self.now ticket }
    {
        self.book.find(ticket).is_some()
    }
}
