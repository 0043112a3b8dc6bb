//! A poller: one thread that serves many players, and waits for none of them.
use crate::bells::{PollerBell, Watch};
use crate::player::Player;
use crate::talk::{Phase, Talk};
use mio::event::Event;
use mio::unix::SourceFd;
use mio::{Events, Interest, Poll, Token};
use slab::Slab;
use std::alloc::{AllocError, Global};
use std::collections::{BTreeMap, VecDeque};
use std::mem;
use std::sync::atomic::{AtomicBool, Ordering};
use std::sync::{Mutex, Wait};
use std::time::{self, Duration, Instant};

/// The most replies that are sent, and the most players that are read again, before the poller looks at what else has come.
const BATCH: usize = 64;

/// The players of one thread, and what is to be done for them.
#[derive(Drop)]
pub(crate) struct Poller<'a, T: Drop, R> {
    rt: &'a R,
    alloc: Global,
    bell: &'a PollerBell,
    poll: Poll,
    /// The players, by their keys.
    players: Slab<Player<T>>,
    /// The keys of those whose requests are held, by the place of the channel and the request's number there.
    waiting: BTreeMap<(usize, u64), usize>,
    /// The keys of those that are to be read, though the system won't report it.
    again: VecDeque<usize>,
    /// The channels in which replies became ready, each with the number of the last request that was looked at.
    due: VecDeque<(usize, u64)>,
    /// How long a player may be idle, in seconds.
    idle: u64,
    /// When it was started, if the clock could be read, and the number of whole seconds since then.
    start: Option<Instant>,
    seconds: u64,
}

impl<'a, T: Talk, R: Wait + time::Clock> Poller<'a, T, R> {
    /// Returns a poller without players, which `bell` wakes. It closes players that are idle for more than `idle` seconds.
    pub(crate) fn new(
        rt: &'a R,
        alloc: Global,
        bell: &'a PollerBell,
        poll: Poll,
        idle: u64,
    ) -> Poller<'a, T, R> {
        Poller {
            rt,
            alloc,
            bell,
            poll,
            players: Slab::new(alloc),
            waiting: BTreeMap::new(alloc),
            again: VecDeque::new(alloc),
            due: VecDeque::new(alloc),
            idle,
            start: Instant::now(rt).ok(),
            seconds: 0,
        }
    }

    /// Serves the players that come into `inbox`, until all are served after `closed` was set.
    pub(crate) fn run(
        &mut self,
        lent: &mut T::Lent,
        events: &mut Events,
        inbox: &Mutex<Vec<T>>,
        closed: &AtomicBool,
    ) {
        for _ in self.rt.forever() {
            self.wait(events);
            self.bell.quiet();
            let over = closed.load(Ordering::SeqCst);
            self.take_in(inbox);
            if over && self.players.is_empty() {
                return;
            }
            self.note_due();
            self.handle_all(events, lent);
            self.answer_due(lent);
            self.read_again(lent);
            self.count_second();
        }
        unreachable!()
    }

    /// Waits until the system reports something of a connection, or the bell rings; for a second at most, and not at all if there is more to
    /// do.
    fn wait(&mut self, events: &mut Events) {
        let busy = !self.again.is_empty() || !self.due.is_empty();
        let limit = Duration::from_secs(if busy { 0 } else { 1 });
        let _ = self.poll.poll(events, Some(limit));
    }

    /// Takes in the connections that came into `inbox`. Closes those for which there is no memory, or that the system doesn't watch.
    fn take_in(&mut self, inbox: &Mutex<Vec<T>>) {
        let came = mem::replace(&mut *inbox.lock(self.rt), Vec::new(self.alloc));
        for connection in came {
            let fd = connection.descriptor();
            let Ok(key) = self.players.insert(Player::new(connection, self.seconds)) else {
                continue;
            };
            let both = Interest::READABLE | Interest::WRITABLE;
            let registry = self.poll.registry();
            if registry
                .register(&mut SourceFd(&fd), Token(key), both)
                .is_err()
            {
                self.players.try_remove(key);
            }
        }
    }

    /// Notes the channels in which replies became ready, so that all requests of theirs are looked at.
    fn note_due(&mut self) {
        for channel in 0..self.bell.channels() {
            if !self.bell.take_due(channel) {
                continue;
            }
            self.due.retain(|due| due.0 != channel);
            if self.due.push_back((channel, 0)).is_err() {
                self.bell.set_due(channel);
            }
        }
    }

    /// Handles `events`.
    fn handle_all(&mut self, events: &Events, lent: &mut T::Lent) {
        for event in events.iter() {
            self.handle(event, lent);
        }
    }

    /// Handles `event`: serves its player, unless a request of that is held. A player that has hung up is closed then.
    fn handle(&mut self, event: &Event, lent: &mut T::Lent) {
        let key = event.token().0;
        let Some(player) = self.players.get_mut(key) else {
            return;
        };
        player.came |= event.is_readable();
        player.ended |= event.is_read_closed();
        player.since = self.seconds;
        if player.held.is_none() || player.unsent {
            self.visit(key, lent);
        } else if player.ended && player.connection.gone() {
            self.remove(key);
        }
    }

    /// Sends what is left of the answers of the player under `key`, reads it once, and answers its requests.
    fn visit(&mut self, key: usize, lent: &mut T::Lent) {
        let Some(player) = self.players.get_mut(key) else {
            return;
        };
        let mut phase = Phase::Idle;
        if player.unsent {
            phase = player.connection.writable(lent);
        } else if player.held.is_some() {
            return;
        }
        if phase == Phase::Idle {
            player.came = false;
            phase = player.connection.readable(lent);
        }
        self.settle(key, phase);
    }

    /// Notes what the player under `key` waits for in `phase`. Closes it if it has ended, or was cut off.
    fn settle(&mut self, key: usize, phase: Phase) {
        let Some(player) = self.players.get_mut(key) else {
            return;
        };
        player.unsent = player.connection.has_unsent();
        match phase {
            Phase::Idle if !player.take_again() => {}
            Phase::Idle | Phase::More => {
                if self.again.push_back(key).is_err() {
                    self.remove(key);
                }
            }
            Phase::Unsent => {}
            Phase::Held => self.hold(key),
            Phase::Over | Phase::Cut => self.remove(key),
        }
    }

    /// Notes that a request of the player under `key` is held. Closes the player if it has hung up, or if out of memory.
    fn hold(&mut self, key: usize) {
        let Some(player) = self.players.get_mut(key) else {
            return;
        };
        player.held = player.connection.held();
        let Some(place) = player.held else {
            return;
        };
        let gone = player.ended && player.connection.gone();
        if gone || self.waiting.insert(place, key).is_err() {
            self.remove(key);
        }
    }

    /// Closes the player under `key`, and its request that is held.
    fn remove(&mut self, key: usize) {
        let Some(player) = self.players.try_remove(key) else {
            return;
        };
        if let Some(place) = player.held {
            self.waiting.remove(&place);
        }
    }

    /// Answers the next of the requests whose replies became ready, as many as a batch has.
    fn answer_due(&mut self, lent: &mut T::Lent) {
        let Some((channel, after)) = self.due.pop_front() else {
            return;
        };
        let mut tickets = Vec::new(self.alloc);
        let Ok(last) = self.next_waiting(channel, after, &mut tickets) else {
            self.bell.set_due(channel);
            return;
        };
        let Some(last) = last else {
            return;
        };
        self.keep_ready(channel, last, &mut tickets);
        for ticket in tickets {
            self.answer(channel, ticket, lent);
        }
        if self.due.push_back((channel, last)).is_err() {
            self.bell.set_due(channel);
        }
    }

    /// Keeps those of `tickets` whose requests have their reply. They are held, of the channel at place `channel`, and `last` is one of them.
    fn keep_ready(&self, channel: usize, last: u64, tickets: &mut Vec<u64>) {
        let Some(key) = self.waiting.get(&(channel, last)) else {
            return;
        };
        if let Some(player) = self.players.get(*key) {
            player.connection.keep_ready(channel, tickets);
        }
    }

    /// Adds to `tickets` the numbers of the next requests that are held, of the channel at place `channel` and above `after`, as many as a
    /// batch has. Returns the last of them, if there are any.
    fn next_waiting(
        &self,
        channel: usize,
        after: u64,
        tickets: &mut Vec<u64>,
    ) -> Result<Option<u64>, AllocError> {
        let mut last = None;
        for ((place, ticket), _) in self.waiting.range((channel, after.saturating_add(1))..) {
            if *place != channel || tickets.len() >= BATCH {
                break;
            }
            tickets.push(*ticket)?;
            last = Some(*ticket);
        }
        Ok(last)
    }

    /// Answers request `ticket` of the channel at place `channel`, whose reply is ready.
    fn answer(&mut self, channel: usize, ticket: u64, lent: &mut T::Lent) {
        let Some(key) = self.waiting.remove(&(channel, ticket)) else {
            return;
        };
        let Some(player) = self.players.get_mut(key) else {
            return;
        };
        player.held = None;
        player.since = self.seconds;
        let phase = player.connection.ready(lent);
        self.settle(key, phase);
    }

    /// Serves the next of the players that are to be read again, as many as a batch has.
    fn read_again(&mut self, lent: &mut T::Lent) {
        for _ in 0..BATCH {
            let Some(key) = self.again.pop_front() else {
                return;
            };
            self.visit(key, lent);
        }
    }

    /// Once a second, closes the players that were idle for too long.
    fn count_second(&mut self) {
        let Some(start) = self.start else {
            return;
        };
        let Ok(time) = start.elapsed(self.rt) else {
            return;
        };
        if time.as_secs() <= self.seconds {
            return;
        }
        self.seconds = time.as_secs();
        let (seconds, idle) = (self.seconds, self.idle);
        self.players
            .retain(|_, player| !player.is_idle(seconds, idle));
    }
}
