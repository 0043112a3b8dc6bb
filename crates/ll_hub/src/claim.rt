//! The claim to the reply of a held request.
ghost use Rattle.std.specs.Prelude.{◌≡◌};

use ll_verdict::Entry;
use std::marker::Model;

/// The claim to the reply of a request that a hub holds. It can't be copied or dropped: it is spent when the reply is waited for, or when
/// the request is closed.
pub struct Claim {
    channel: usize,
    entry: Entry,
}

impl Model for Claim {
    ghost use Rattle.ll_hub.specs.Claim.{ClaimValue};

    ghost Value = { ClaimValue };

    ghost view = { λ c. record { channel = c.channel; entry = c.entry } };
}

/// None may be dropped, because requests are numbered from 1: a leak is a failed proof.
impl Drop for Claim {
    fn drop(self)
        requires { self.entry.ticket ≡ 0 }
    {
        let Claim {
            channel: _,
            entry: _,
        } = self;
    }
}

impl Claim {
    /// Returns the claim to the reply of `entry`, a request of the channel at place `channel`.
    pub(crate) fn new(channel: usize, entry: Entry) -> Claim
        ensures { result ≡ record { channel = channel; entry = entry } }
    {
        Claim { channel, entry }
    }

    /// Returns the place of its channel.
    pub fn channel(&self) -> usize
        ensures { result ≡ self.now.channel }
    {
        self.channel
    }

    /// Returns the number of the request in its channel, from 1.
    pub fn ticket(&self) -> u64
        ensures { result ≡ self.now.entry.ticket }
    {
        self.entry.ticket
    }

    /// Spends the claim, and returns the request.
    pub(crate) fn spend(self) -> Entry
        ensures { result ≡ self.entry }
    {
        let Claim { channel: _, entry } = self;
        entry
    }
}
