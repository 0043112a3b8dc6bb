//! What several threads share: the messages that wait for each of several origins, under one lock.
ghost use Rattle.std.specs.Prelude.{Option, None, List};
ghost use Rattle.ll_announce.specs.Messages.{MessageValue};

use crate::coming::{Coming, First};
use crate::lanes::Lanes;
use crate::shared::Shared;
use ll_announce::Message;
use std::alloc::{AllocError, Global};
use std::sync::{Condvar, Mutex, Wait};

/// The messages that wait for each of several origins. One thread gives them, and one of each origin takes them.
#[derive(Drop)]
pub struct Pair {
    alloc: Global,
    /// The most bytes that wait for an origin.
    keep: usize,
    lanes: Mutex<Lanes>,
    changed: Condvar,
}

impl Pair {
    /// Returns a pair, or more, of `count` origins for which no message waits. For each at most `keep` bytes wait.
    pub fn new(alloc: Global, count: usize, keep: usize) -> Result<Pair, AllocError> {
        Ok(Pair {
            alloc,
            keep,
            lanes: Mutex::new(Lanes::new(alloc, count)?),
            changed: Condvar::new(),
        })
    }

    /// Gives `message` to each origin that isn't left, once one of them has accepted all before it. One for which too many bytes wait then is
    /// left. Returns false if all are left.
    pub fn give<R: Wait>(&self, rt: &R, message: Message) -> Result<bool, AllocError> {
        let message = Shared::new(self.alloc, message)?;
        let lanes = self.lanes.lock(rt);
        let mut lanes = self.changed.wait_while(rt, lanes, |lanes| lanes.is_held());
        if lanes.are_left() {
            return Ok(false);
        }
        lanes.give(self.keep, &message)?;
        self.changed.notify_all();
        Ok(true)
    }

    /// Ends the messages: no more come.
    pub fn end<R: Wait>(&self, rt: &R) {
        self.lanes.lock(rt).ended = true;
        self.changed.notify_all();
    }

    /// Leaves the origin `number`, for which no message waits then. Returns whether it wasn't left before.
    pub fn leave<R: Wait>(&self, rt: &R, number: usize) -> bool {
        let mut lanes = self.lanes.lock(rt);
        let before = lanes.behind(number);
        lanes.leave(number);
        self.changed.notify_all();
        before.is_some()
    }

    /// Returns how many bytes wait for the origin `number`, or `None` if it is left.
    pub fn behind<R: Wait>(&self, rt: &R, number: usize) -> Option<usize> {
        self.lanes.lock(rt).behind(number)
    }
}

/// What comes for one origin, which a thread of its own takes.
#[derive(Drop)]
pub struct Taker<'a, R> {
    rt: &'a R,
    pair: &'a Pair,
    number: usize,
}

impl<'a, R> Taker<'a, R> {
    /// Returns what comes for the origin `number` of `pair`.
    pub fn new(rt: &'a R, pair: &'a Pair, number: usize) -> Taker<'a, R> {
        Taker { rt, pair, number }
    }
}

impl<R: Wait> Coming for Taker<'_, R> {
    ghost coming = { λ _. None };

    fn first(&mut self) -> Result<First, AllocError> {
        let lanes = self.pair.lanes.lock(self.rt);
        let number = self.number;
        let lanes = self
            .pair
            .changed
            .wait_while(self.rt, lanes, |lanes| lanes.is_idle(number));
        lanes.first(number)
    }

    fn let_go(&mut self) {
        self.pair.lanes.lock(self.rt).let_go(self.number);
        self.pair.changed.notify_all();
    }
}
