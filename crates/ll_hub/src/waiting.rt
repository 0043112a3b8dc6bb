//! Held requests: their replies are waited for and collected, or they are closed.
ghost use Rattle.std.specs.Prelude.{◌≡◌, ◌⊎◌, [], None, IfErr, IfOk, MatchBool, OnErr, slice_get};
ghost use Rattle.ll_hub.specs.Calls as calls;

use crate::claim::Claim;
use crate::hub::{Hub, Waited};
use crate::pass::Pass;
use ll_history::Past;
use ll_hub_channel::HubFault;
use ll_ledger::Ledgers;
use ll_room::Stamped;
use ll_verdict::Reply;
use std::sync::Wait;
use std::time::{self, Duration};

impl<L: Ledgers> Hub<L> {
    /// Waits for the reply to a held request. The claim is spent, even if the hub doesn't hold the request.
    pub fn wait<R: Wait>(
        &self,
        rt: &R,
        pass: &mut Pass<L>,
        claim: Claim,
    ) -> Result<Stamped<Reply>, HubFault>
        ensures replied { IfOk result (λ r. calls.IsReplied self.now claim pass.old pass.new r) }
        ensures refused { IfErr result (λ f. calls.IsWaitFault self.now claim pass.old.history pass.new.history f) }
        ensures seen { OnErr result (calls.HasSeen pass.old pass.new) }
    {
        let channel = claim.channel();
        let entry = claim.spend();
        let (channel_lock, known) = self.locks.reach(channel, Some(0))?;
        let reply = channel_lock.wait(rt, known, entry, &mut pass.past)?;
        pass.note_reply(channel, reply.get());
        Ok(reply)
    }

    /// Waits for the reply to a held request, no longer than about `limit`. Takes the channel's lock at first, and once more after each
    /// wake-up. If the clock can't be read, the limit counts as over. The claim is spent, even if the hub doesn't hold the request, unless
    /// it is returned.
    pub fn wait_within<R: Wait + time::Clock>(
        &self,
        rt: &R,
        pass: &mut Pass<L>,
        claim: Claim,
        limit: Duration,
    ) -> Result<Waited, HubFault>
        ensures waited { IfOk result (λ w. calls.IsWaited self.now claim pass.old pass.new w) }
        ensures refused { IfErr result (λ f. calls.IsWaitFault self.now claim pass.old.history pass.new.history f) }
        ensures seen { OnErr result (calls.HasSeen pass.old pass.new) }
    {
        let channel = claim.channel();
        let entry = claim.spend();
        let (channel_lock, known) = self.locks.reach(channel, Some(0))?;
        match channel_lock.wait_within(rt, known, entry, limit, &mut pass.past)? {
            Some(reply) => {
                pass.note_reply(channel, reply.get());
                Ok(Waited::Reply(reply))
            }
            None => Ok(Waited::Still(Claim::new(channel, entry))),
        }
    }

    /// Returns the reply to a held request if it is there, and else the claim. The claim is spent, even if the hub doesn't hold the request,
    /// unless it is returned.
    pub fn collect<R: Wait>(
        &self,
        rt: &R,
        pass: &mut Pass<L>,
        claim: Claim,
    ) -> Result<Waited, HubFault>
        ensures waited { IfOk result (λ w. calls.IsWaited self.now claim pass.old pass.new w) }
        ensures refused { IfErr result (λ f. calls.IsWaitFault self.now claim pass.old.history pass.new.history f) }
        ensures seen { OnErr result (calls.HasSeen pass.old pass.new) }
    {
        let channel = claim.channel();
        let entry = claim.spend();
        let (channel_lock, known) = self.locks.reach(channel, Some(0))?;
        match channel_lock.collect(rt, known, entry, &mut pass.past)? {
            Some(reply) => {
                pass.note_reply(channel, reply.get());
                Ok(Waited::Reply(reply))
            }
            None => Ok(Waited::Still(Claim::new(channel, entry))),
        }
    }

    /// Keeps those of `tickets` that are held requests of the channel at place `channel` and have their reply, so that a caller who holds
    /// many claims knows which to collect. If there is no such channel, none is kept.
    pub fn keep_ready<R: Wait>(&self, rt: &R, channel: usize, tickets: &mut Vec<u64>)
        ensures { slice_get self.now channel ≡ None → tickets.new.items ≡ [] }
    {
        match self.locks.reach(channel, Some(0)) {
            Ok((channel_lock, _)) => channel_lock.keep_ready(rt, tickets),
            Err(_) => tickets.clear(),
        }
    }

    /// Closes a held request: it gets no reply. The claim is spent; returns whether the hub held the request.
    pub fn close<R: Wait>(&self, rt: &R, past: &mut Past<L>, claim: Claim) -> bool
        ensures { MatchBool result (calls.IsClosed self.now claim past.old past.new)
            (calls.IsOfNoChannel self.now claim past.old past.new ⊎ calls.IsNoneOf self.now claim past.old past.new) }
    {
        let channel = claim.channel();
        let entry = claim.spend();
        match self.locks.reach(channel, Some(0)) {
            Ok((channel_lock, known)) => channel_lock.lock(rt).close(rt, known, entry, past),
            Err(_) => false,
        }
    }
}
