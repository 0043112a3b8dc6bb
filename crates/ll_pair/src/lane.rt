//! The messages that wait for one origin.
ghost use Rattle.std.specs.Prelude.{◌≡◌, ◌+◌, [], IfOk, MatchOption, OnErr, false, length, true};
ghost use Rattle.ll_pair.specs.Queues as spec;
ghost use Rattle.ll_pair.specs.Queues.{IsFront, IsNext, bytes_of, left_lane, size, without_first};

use crate::coming::First;
use crate::shared::Shared;
use std::alloc::{AllocError, Global};
use std::collections::VecDeque;
use std::marker::Model;

/// The messages that wait for one origin, and whether it is left.
#[derive(Drop)]
pub(crate) struct Lane {
    /// The messages that the origin isn't known to have accepted, the first at the front.
    waiting: VecDeque<Shared>,
    /// The number of their bytes.
    bytes: usize,
    /// Whether the origin is left: it gets no more.
    left: bool,
}

impl Model for Lane {
    ghost use Rattle.std.specs.Prelude.{◌≡◌};
    ghost use Rattle.ll_pair.specs.Queues.{LaneValue, bytes_of};

    ghost Value = { LaneValue };

    ghost view = { λ l. record { waiting = l.waiting.items; left = l.left } };

    ghost invariant = { λ l. l.bytes ≡ bytes_of l.waiting.items };
}

impl Lane {
    /// Returns the lane of an origin for which no message waits.
    pub(crate) fn new(alloc: Global) -> Lane
        ensures { result ≡ record { waiting = []; left = false } }
    {
        Lane {
            waiting: VecDeque::new(alloc),
            bytes: 0,
            left: false,
        }
    }

    /// Adds `message` as the last. If more than `keep` bytes would wait, and not this message alone, the origin is left.
    pub(crate) fn give(&mut self, keep: usize, message: &Shared) -> Result<(), AllocError>
        ensures given { IfOk result (λ _. self.new ≡ spec.given keep message.now self.old) }
        ensures unchanged { OnErr result (self.new ≡ self.old) }
    {
        if self.left {
            return Ok(());
        }
        let Some(bytes) = self.bytes_with(keep, message) else {
            self.leave();
            return Ok(());
        };
        match self.waiting.push_back(message.again()?) {
            Ok(()) => {
                self.bytes = bytes;
                Ok(())
            }
            Err(_) => Err(AllocError),
        }
    }

    /// Returns how many bytes wait with `message`, or `None` if that can't wait too: only it alone may be more than `keep` bytes.
    fn bytes_with(&self, keep: usize, message: &Shared) -> Option<usize>
        ensures { MatchOption result (spec.takes keep message.now self.now.waiting ≡ false)
            (λ bytes. (spec.takes keep message.now self.now.waiting ≡ true) × (bytes ≡ bytes_of self.now.waiting + size message.now)) }
    {
        let more = message.message().bytes().len();
        if self.waiting.is_empty() {
            return Some(more);
        }
        let bytes = self.bytes.checked_add(more)?;
        if bytes <= keep { Some(bytes) } else { None }
    }

    /// Leaves the origin: lets go of the messages that wait for it.
    pub(crate) fn leave(&mut self)
        ensures { self.new ≡ left_lane }
    {
        self.waiting.clear();
        self.bytes = 0;
        self.left = true;
    }

    /// Returns what comes first, if no more messages come than these.
    pub(crate) fn first(&self) -> Result<First, AllocError>
        ensures { IfOk result (IsNext self.now) }
    {
        if self.left {
            return Ok(First::Left);
        }
        first_of(&self.waiting)
    }

    /// Lets go of the first message, which the origin has accepted.
    pub(crate) fn let_go(&mut self)
        ensures { self.new ≡ record self.old { waiting = without_first self.old.waiting } }
    {
        let Some(message) = self.waiting.pop_front() else {
            return;
        };
        self.bytes = self.bytes.saturating_sub(message.message().bytes().len());
    }

    /// Returns whether the origin isn't left and has accepted everything.
    pub(crate) fn is_ready(&self) -> bool
        ensures { result ≡ spec.is_ready self.now }
    {
        !self.left && self.waiting.is_empty()
    }

    /// Returns whether the origin is left.
    pub(crate) fn is_left(&self) -> bool
        ensures { result ≡ spec.is_left self.now }
    {
        self.left
    }

    /// Returns how many bytes wait.
    pub(crate) fn bytes(&self) -> usize
        ensures { result ≡ spec.bytes_of self.now.waiting }
    {
        self.bytes
    }
}

/// Returns what comes first of `waiting`.
#[tactic(auto, using(crate::proofs::QueueLemmas::first_of))]
fn first_of(waiting: &VecDeque<Shared>) -> Result<First, AllocError>
    ensures { IfOk result (IsFront waiting.now.items) }
{
    match waiting.front() {
        Some(message) => Ok(First::Message(message.again()?)),
        None => Ok(First::End),
    }
}
