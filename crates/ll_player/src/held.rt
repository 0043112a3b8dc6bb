//! A player's request that is held.
ghost use Rattle.std.specs.Prelude.{◌≡◌, IfErr, IfOk, OnErr};
ghost use Rattle.ll_hub.specs.Calls.{HasSeen, IsWaited};
ghost use Rattle.ll_hub.specs.Claim.{ClaimValue};
ghost use Rattle.ll_hub.specs.Passes.{PassValue};
ghost use Rattle.ll_player.specs.Asking.{IsReplyTo};
ghost use Rattle.ll_service.specs.Faults.{IsOwn};

use ll_counts::Gate;
use ll_hub::{Claim, Hub, HubFault, Ledgers, Pass, Waited};
use ll_service::{LinkFault, Service};
use ll_wire::Answer;
use std::sync::Wait;
use std::time::{self, Duration};

/// The answer to a held request, or the request again if its reply isn't there yet.
pub(crate) type Waiting<'a, L, G, R> = Result<Result<Answer, Held<'a, L, G, R>>, LinkFault>;

/// A player's request that is held. It is closed when this is dropped.
pub(crate) struct Held<'a, L: Ledgers, G: Gate, R: Wait> {
    rt: &'a R,
    gate: &'a G,
    hub: &'a Hub<L>,
    pub(crate) claim: Claim,
}

impl<L: Ledgers, G: Gate, R: Wait> Drop for Held<'_, L, G, R> {
    fn drop(self) {
        let Held {
            rt,
            gate,
            hub,
            claim,
        } = self;
        let channel = claim.channel();
        hub.close(rt, &mut hub.past(), claim);
        gate.freed(channel);
    }
}

impl<'a, L: Ledgers, G: Gate, R: Wait> Held<'a, L, G, R> {
    /// Returns the held request that `claim` stands for.
    pub(crate) fn new<C, K, D, B>(
        service: &Service<'a, L, C, G, K, D, B, R>,
        claim: Claim,
    ) -> Held<'a, L, G, R>
        ensures claim { result.claim ≡ claim }
        ensures hub { result.hub.now ≡ service.now.hub.now }
    {
        service.gate.held(claim.channel());
        Held {
            rt: service.rt,
            gate: service.gate,
            hub: service.hub,
            claim,
        }
    }

    /// Returns the place of its channel, and its number there.
    pub(crate) fn place(&self) -> (usize, u64)
        ensures { (result.0 ≡ self.now.claim.channel) × (result.1 ≡ self.now.claim.entry.ticket) }
    {
        (self.claim.channel(), self.claim.ticket())
    }

    /// Returns its answer, or itself if its reply isn't there yet.
    pub(crate) fn collect(self, pass: &mut Pass<L>) -> Waiting<'a, L, G, R>
        ensures own { IsOwn result }
        ensures answer { IfOk result (λ told. IfOk told (IsReplyTo self.entry.hub.now self.entry.claim pass.old pass.new)) }
        ensures still { IfOk result (λ told. IfErr told (λ held. (held.claim ≡ self.entry.claim) × (held.hub.now ≡ self.entry.hub.now) × (pass.new ≡ pass.old))) }
        ensures lost { OnErr result (HasSeen pass.old pass.new) }
    {
        let Held {
            rt,
            gate,
            hub,
            claim,
        } = self;
        let channel = claim.channel();
        let waited = hub.collect(rt, pass, claim);
        after(rt, gate, hub, channel, waited)
    }
}

impl<'a, L: Ledgers, G: Gate, R: Wait + time::Clock> Held<'a, L, G, R> {
    /// Waits for its answer, no longer than about `limit`. Returns itself if the reply isn't there by then.
    pub(crate) fn wait(self, pass: &mut Pass<L>, limit: Duration) -> Waiting<'a, L, G, R>
        ensures own { IsOwn result }
        ensures answer { IfOk result (λ told. IfOk told (IsReplyTo self.entry.hub.now self.entry.claim pass.old pass.new)) }
        ensures still { IfOk result (λ told. IfErr told (λ held. (held.claim ≡ self.entry.claim) × (held.hub.now ≡ self.entry.hub.now) × (pass.new ≡ pass.old))) }
        ensures lost { OnErr result (HasSeen pass.old pass.new) }
    {
        let Held {
            rt,
            gate,
            hub,
            claim,
        } = self;
        let channel = claim.channel();
        let waited = hub.wait_within(rt, pass, claim, limit);
        after(rt, gate, hub, channel, waited)
    }
}

/// Returns the answer that `waited` brought, or the request again if it is still held. It no longer waits otherwise, which `gate` learns.
fn after<'a, L: Ledgers, G: Gate, R: Wait>(
    rt: &'a R,
    gate: &'a G,
    hub: &'a Hub<L>,
    channel: usize,
    waited: Result<Waited, HubFault>,
) -> Waiting<'a, L, G, R>
    ensures own { IsOwn result }
    ensures answer { (claim : ClaimValue) (before after : PassValue) → IfOk waited (IsWaited hub.now claim before after)
        → IfOk result (λ told. IfOk told (IsReplyTo hub.now claim before after)) }
    ensures still { (claim : ClaimValue) (before after : PassValue) → IfOk waited (IsWaited hub.now claim before after)
        → IfOk result (λ told. IfErr told (λ held. (held.claim ≡ claim) × (held.hub.now ≡ hub.now) × (after ≡ before))) }
    ensures lost { (before after : PassValue) → OnErr waited (HasSeen before after) → OnErr result (HasSeen before after) }
{
    match waited {
        Ok(Waited::Reply(reply)) => {
            let answer = Answer::Reply(reply.into_inner());
            gate.freed(channel);
            gate.answered(channel, &answer);
            Ok(Ok(answer))
        }
        Ok(Waited::Still(claim)) => Ok(Err(Held {
            rt,
            gate,
            hub,
            claim,
        })),
        Err(_) => {
            gate.freed(channel);
            Err(LinkFault::Hub)
        }
    }
}
