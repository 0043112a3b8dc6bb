//! The values that stand for held requests.
ghost use Rattle.std.specs.Prelude.{◌≡◌, IfErr, OnOk, false, true};
ghost use Rattle.ll_room.specs.Answers.{is_open};

use crate::room::Room;
use std::marker::Model;

/// The one value that stands for an open request of a room: who holds it is owed the reply. It can't be copied or dropped. It is spent when its reply
/// is collected, when its request is closed, or when it is returned to its room and its request is no longer open there.
pub struct Parked {
    channel: u64,
    ticket: u64,
}

impl Model for Parked {
    ghost use Rattle.ll_room.specs.Ticket.{Ticket};

    ghost Value = { Ticket };

    ghost view = { λ p. record { channel = p.channel; ticket = p.ticket } };
}

/// Can't be called, since tickets count from 1: a dropped value is a failed proof.
impl Drop for Parked {
    fn drop(self)
        requires { self.ticket ≡ 0 }
    {
        let Parked {
            channel: _,
            ticket: _,
        } = self;
    }
}

impl Parked {
    /// Returns the value for request `ticket` of room `channel`.
    pub(crate) fn new(channel: u64, ticket: u64) -> Parked
        ensures { result ≡ record { channel = channel; ticket = ticket } }
    {
        Parked { channel, ticket }
    }

    /// Returns the number of its room.
    pub fn channel(&self) -> u64
        ensures { result ≡ self.now.channel }
    {
        self.channel
    }

    /// Returns the number of the request in its room, from 1.
    pub fn ticket(&self) -> u64
        ensures { result ≡ self.now.ticket }
    {
        self.ticket
    }

    /// Spends the value of a request that is no longer open.
    pub(crate) fn spend(self) {
        let Parked {
            channel: _,
            ticket: _,
        } = self;
    }

    /// Converts it to a form that can lie under a lock.
    pub fn store(self) -> Stored
        ensures { result ≡ self }
    {
        let Parked { channel, ticket } = self;
        Stored {
            room: channel,
            number: ticket,
        }
    }

    /// Gives it back to `room`. Fails with the value itself if `room` isn't its room, or if its request is still open there.
    pub fn return_to(self, room: &Room) -> Result<(), Parked>
        ensures spent { OnOk result ((self.channel ≡ room.now.channel) × (is_open room.now self.ticket ≡ false)) }
        ensures handed_back { IfErr result (λ p. (p ≡ self) × (p.channel ≡ room.now.channel → is_open room.now p.ticket ≡ true)) }
    {
        if self.channel != room.channel() || room.is_open(self.ticket) {
            return Err(self);
        }
        self.spend();
        Ok(())
    }
}

/// A [`Parked`] in a form that can lie under a lock: a guard takes no value whose drop has a precondition. It has no drop at all, so that the
/// compiler refuses a leak, and becomes a [`Parked`] again before it is used.
pub struct Stored {
    room: u64,
    number: u64,
}

impl Model for Stored {
    ghost use Rattle.ll_room.specs.Ticket.{Ticket};

    ghost Value = { Ticket };

    ghost view = { λ p. record { channel = p.room; ticket = p.number } };
}

impl Stored {
    /// Returns the number of the request in its room, from 1.
    pub fn ticket(&self) -> u64
        ensures { result ≡ self.now.ticket }
    {
        self.number
    }

    /// Converts it back to the value with which its request is collected or closed.
    pub fn into_parked(self) -> Parked
        ensures { result ≡ self }
    {
        let Stored { room, number } = self;
        Parked::new(room, number)
    }
}
