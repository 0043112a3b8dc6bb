//! The bells that wake pollers: when replies became ready, and when connections come.
ghost use Rattle.std.specs.Prelude.{◌≡◌, ◌≤◌, IfOk};

use ll_device::Failed;
use mio::{Events, Poll, Token, Waker};
use std::alloc::Global;
use std::marker::Model;
use std::net::Net;
use std::sync::atomic::{AtomicBool, Ordering};
use std::sync::{Mutex, Wait};

/// The token of a poller's bell. Its connections have their keys for tokens, which are smaller.
const BELL: Token = Token(usize::MAX);

/// The most events that a poller takes at once.
const EVENTS: usize = 64;

/// The bells of several pollers. Whoever makes replies ready in a channel of a hub rings them all, and each poller looks for replies to
/// requests of its own.
#[derive(Drop)]
pub struct Bells {
    each: Vec<PollerBell>,
}

/// Contracts see the number of bells, of which there is one at least.
impl Model for Bells {
    ghost use Rattle.std.specs.Prelude.{◌≤◌, ℕ, vec_len};

    ghost Value = { ℕ };

    ghost view = { λ b. vec_len b.each };

    ghost invariant = { λ b. 1 ≤ vec_len b.each };
}

/// The bell of one poller.
#[derive(Drop)]
pub(crate) struct PollerBell {
    waker: Waker,
    /// What the poller waits with, until its thread takes it.
    watch: Mutex<Option<Watch>>,
    /// Whether the poller was woken, and has not looked since.
    rung: AtomicBool,
    /// For each channel, whether replies became ready in it since the poller last looked.
    due: Vec<AtomicBool>,
}

/// The connections that the system watches for a poller, and the events that it reports.
#[derive(Drop)]
pub(crate) struct Watch {
    pub(crate) poll: Poll,
    pub(crate) events: Events,
}

impl Bells {
    /// Returns the bells of `pollers` pollers, for a hub of `channels` channels. Fails if out of memory, or if the system refuses it.
    pub fn new<R: Net>(
        rt: &R,
        alloc: Global,
        pollers: usize,
        channels: usize,
    ) -> Result<Bells, Failed>
        requires { 1 ≤ pollers }
        ensures { IfOk result (λ b. b ≡ pollers) }
    {
        let mut each = Vec::new(alloc);
        for _ in 0..pollers {
            if each.push(PollerBell::new(rt, alloc, channels)?).is_err() {
                return Err(Failed);
            }
        }
        Ok(Bells { each })
    }

    /// Returns the number of pollers.
    pub fn len(&self) -> usize
        ensures value { result ≡ self.now }
        ensures some { 1 ≤ self.now }
    {
        self.each.len()
    }

    /// Returns the bell of the poller at index `number`.
    pub(crate) fn get(&self, number: usize) -> Option<&PollerBell> {
        self.each.get(number)
    }

    /// Wakes all pollers, to look for replies in the channel at place `channel`, of which `more` became ready; none if that is 0.
    pub fn ring(&self, channel: usize, more: usize) {
        if more == 0 {
            return;
        }
        for bell in &self.each {
            bell.set_due(channel);
            bell.wake();
        }
    }

    /// Wakes all pollers.
    pub(crate) fn wake_all(&self) {
        for bell in &self.each {
            bell.wake();
        }
    }
}

impl PollerBell {
    /// Returns a bell for a hub of `channels` channels.
    fn new<R: Net>(rt: &R, alloc: Global, channels: usize) -> Result<PollerBell, Failed> {
        let (Ok(poll), Ok(events)) = (Poll::new(rt), Events::with_capacity(alloc, EVENTS)) else {
            return Err(Failed);
        };
        let Ok(waker) = Waker::new(poll.registry(), BELL) else {
            return Err(Failed);
        };
        let mut due = Vec::new(alloc);
        for _ in 0..channels {
            if due.push(AtomicBool::new(false)).is_err() {
                return Err(Failed);
            }
        }
        Ok(PollerBell {
            waker,
            watch: Mutex::new(Some(Watch { poll, events })),
            rung: AtomicBool::new(false),
            due,
        })
    }

    /// Wakes the poller, unless it was woken and has not looked since.
    pub(crate) fn wake(&self) {
        if !self.rung.swap(true, Ordering::SeqCst) && self.waker.wake().is_err() {
            self.rung.store(false, Ordering::SeqCst);
        }
    }

    /// Notes that the poller looks now: what becomes ready from here on wakes it again.
    pub(crate) fn quiet(&self) {
        self.rung.store(false, Ordering::SeqCst);
    }

    /// Returns the number of channels.
    pub(crate) fn channels(&self) -> usize {
        self.due.len()
    }

    /// Notes that replies became ready in the channel at place `channel`.
    pub(crate) fn set_due(&self, channel: usize) {
        if let Some(due) = self.due.get(channel) {
            due.store(true, Ordering::SeqCst);
        }
    }

    /// Returns whether replies became ready in the channel at place `channel` since this was last asked.
    pub(crate) fn take_due(&self, channel: usize) -> bool {
        match self.due.get(channel) {
            Some(due) => due.load(Ordering::SeqCst) && due.swap(false, Ordering::SeqCst),
            None => false,
        }
    }

    /// Returns what the poller waits with; `None` if it was taken.
    pub(crate) fn take_watch<R: Wait>(&self, rt: &R) -> Option<Watch> {
        self.watch.lock(rt).take()
    }
}
