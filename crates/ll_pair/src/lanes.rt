//! The messages that wait for each of several origins.
ghost use Rattle.std.specs.Prelude.{◌≡◌, IfOk};
ghost use Rattle.ll_pair.specs.Queues as spec;
ghost use Rattle.ll_pair.specs.Queues.{AreGiven};

use crate::coming::First;
use crate::lane::Lane;
use crate::shared::Shared;
use std::alloc::{AllocError, Global};
use std::marker::Model;

/// The messages that wait for each of several origins.
#[derive(Drop)]
pub(crate) struct Lanes {
    lanes: Vec<Lane>,
    /// Whether no more messages come.
    pub(crate) ended: bool,
}

impl Model for Lanes {
    ghost use Rattle.std.specs.Prelude.{List};
    ghost use Rattle.ll_pair.specs.Queues.{LaneValue};

    ghost Value = { List LaneValue };

    ghost view = { λ l. l.lanes.items };
}

impl Lanes {
    /// Returns the lanes of `count` origins for which no message waits.
    pub(crate) fn new(alloc: Global, count: usize) -> Result<Lanes, AllocError> {
        let mut lanes = Vec::new(alloc);
        for _ in 0..count {
            if lanes.push(Lane::new(alloc)).is_err() {
                return Err(AllocError);
            }
        }
        Ok(Lanes {
            lanes,
            ended: false,
        })
    }

    /// Gives `message` to each origin that isn't left: it waits as the last, or, if with it more than `keep` bytes would wait, that origin is
    /// left.
    pub(crate) fn give(&mut self, keep: usize, message: &Shared) -> Result<(), AllocError>
        ensures { IfOk result (λ _. AreGiven keep message.now self.old self.new) }
    {
        give_each(&mut self.lanes, keep, message)
    }

    /// Returns whether a further message has to wait: each origin that isn't left has one to accept, and not all are left.
    pub(crate) fn is_held(&self) -> bool
        ensures { result ≡ spec.is_held self.now }
    {
        !self.has_ready() && !self.are_left()
    }

    /// Returns whether an origin that isn't left has accepted everything.
    fn has_ready(&self) -> bool
        ensures { result ≡ spec.has_ready self.now }
    {
        self.lanes.iter().any(|lane| lane.is_ready())
    }

    /// Returns whether all origins are left.
    pub(crate) fn are_left(&self) -> bool
        ensures { result ≡ spec.are_left self.now }
    {
        self.lanes.iter().all(|lane| lane.is_left())
    }

    /// Returns whether the origin `number` has to wait for what comes next.
    pub(crate) fn is_idle(&self, number: usize) -> bool {
        match self.lanes.get(number) {
            Some(lane) => !self.ended && lane.is_ready(),
            None => false,
        }
    }

    /// Returns what comes first for the origin `number`.
    pub(crate) fn first(&self, number: usize) -> Result<First, AllocError> {
        match self.lanes.get(number) {
            Some(lane) => lane.first(),
            None => Ok(First::Left),
        }
    }

    /// Lets go of the first message of the origin `number`, which has accepted it.
    pub(crate) fn let_go(&mut self, number: usize) {
        if let Some(lane) = self.lanes.get_mut(number) {
            lane.let_go();
        }
    }

    /// Leaves the origin `number`.
    pub(crate) fn leave(&mut self, number: usize) {
        if let Some(lane) = self.lanes.get_mut(number) {
            lane.leave();
        }
    }

    /// Returns how many bytes wait for the origin `number`, or `None` if it is left.
    pub(crate) fn behind(&self, number: usize) -> Option<usize> {
        let lane = self.lanes.get(number)?;
        if lane.is_left() {
            None
        } else {
            Some(lane.bytes())
        }
    }
}

/// Gives `message` to each of `lanes`.
fn give_each(lanes: &mut [Lane], keep: usize, message: &Shared) -> Result<(), AllocError>
    ensures { IfOk result (λ _. AreGiven keep message.now lanes.old lanes.new) }
{
    let Some((lane, rest)) = lanes.split_first_mut() else {
        return Ok(());
    };
    lane.give(keep, message)?;
    give_each(rest, keep, message)
}
