//! A player's request, as the hub answers it.
ghost use Rattle.std.specs.Prelude.{◌≡◌, ◌≢◌, Err, IfErr, IfOk, MatchResult, None, OnErr, Some};
ghost use Rattle.ll_hub.specs.Calls.{HasSeen, IsAskedOf};
ghost use Rattle.ll_player.specs.Asking.{IsHeldNow, IsToldNow, IsUnmade, unavailable_by};
ghost use Rattle.ll_service.specs.Faults.{IsOwn};
ghost use Rattle.ll_settings.specs.Channels.{channel_of_name};

use crate::held::{Held, Waiting};
use ll_counts::Gate;
use ll_directive::{TargetFault, Want};
use ll_hub::{Bell, Clock, HubAsked, HubFault, Ledgers, Pass, RoomFault, Sink};
use ll_room::AskFault;
use ll_service::{HandedOut, LinkFault, Service};
use ll_verdict::ClockFault;
use ll_wire::Answer;
use std::sync::Wait;

/// What the hub makes of a request, or why it can't take it.
type Told = Result<HubAsked, AskFault>;

/// Makes the request `want`, and returns its answer, or the request if it is held. If the record of its channel is full, hands that out and
/// makes the request once more.
#[tactic(auto, using(crate::proofs::AskLemmas::told_unknown, crate::proofs::AskLemmas::told_found, crate::proofs::AskLemmas::held_found))]
pub(crate) fn ask<'a, L: Ledgers, C: Clock, G: Gate, K: Sink, D, B: Bell, R: Wait>(
    service: &Service<'a, L, C, G, K, D, B, R>,
    pass: &mut Pass<L>,
    want: Want,
) -> Waiting<'a, L, G, R>
    ensures own { IsOwn result }
    ensures right { IfOk result (λ told. MatchResult told (IsToldNow (C.shows service.now.clock.now) service.now.hub.now want pass.old pass.new)
        (λ held. IsHeldNow (C.shows service.now.clock.now) service.now.hub.now want pass.old pass.new held.claim)) }
    ensures hub { IfOk result (λ told. IfErr told (λ held. held.hub.now ≡ service.now.hub.now)) }
    ensures unasked { OnErr result (HasSeen pass.old pass.new) }
    ensures known { OnErr result (channel_of_name service.now.hub.now 0 want.channel ≢ None) }
{
    let Some((channel, _)) = service.hub.find(want.channel()) else {
        return Ok(Ok(Answer::Target(TargetFault::NotFound)));
    };
    let Ok(again) = want.copy() else {
        return Ok(Ok(Answer::Unavailable(AskFault::Memory)));
    };
    let (told, _handed) = ask_in(service, pass, channel, want, again)?;
    let answer = match told {
        Ok(HubAsked::Now(reply)) => Answer::Reply(reply.into_inner()),
        Ok(HubAsked::Held(claim)) => return Ok(Err(Held::new(service, claim))),
        Err(reason) => Answer::Unavailable(reason),
    };
    service.gate.answered(channel, &answer);
    Ok(Ok(answer))
}

/// Makes the request `want` of the channel at place `channel`. If the record of the channel is full, hands that out and makes the request
/// `again`, a copy of `want`. Returns what the hub makes of the last one, and whether the record was handed out.
fn ask_in<L: Ledgers, C: Clock, G: Gate, K: Sink, D, B: Bell, R: Wait>(
    service: &Service<'_, L, C, G, K, D, B, R>,
    pass: &mut Pass<L>,
    channel: usize,
    want: Want,
    again: Want,
) -> Result<(Told, Option<HandedOut>), LinkFault>
    ensures own { IsOwn result }
    ensures full { IfOk result (λ told. told.0 ≡ Err AskFault.RecordFull → told.1 ≡ Some channel) }
    ensures told { want ≡ again → IfOk result (λ told. IfOk told.0 (IsAskedOf (C.shows service.now.clock.now) service.now.hub.now channel want pass.old pass.new)) }
    ensures unmade { IfOk result (λ told. IfErr told.0 (IsUnmade (C.shows service.now.clock.now) service.now.hub.now channel pass.old pass.new)) }
    ensures unasked { OnErr result (HasSeen pass.old pass.new) }
{
    match ask_once(service, pass, channel, want)? {
        Err(AskFault::RecordFull) => {
            let handed = service.hand_out(pass, channel)?;
            let told = ask_once(service, pass, channel, again)?;
            Ok((told, Some(handed)))
        }
        told => Ok((told, None)),
    }
}

/// Makes the request `want` of the channel at place `channel`.
fn ask_once<L: Ledgers, C: Clock, G, K, D, B: Bell, R: Wait>(
    service: &Service<'_, L, C, G, K, D, B, R>,
    pass: &mut Pass<L>,
    channel: usize,
    want: Want,
) -> Result<Told, LinkFault>
    ensures own { IsOwn result }
    ensures told { IfOk result (λ told. IfOk told (IsAskedOf (C.shows service.now.clock.now) service.now.hub.now channel want pass.old pass.new)) }
    ensures unmade { IfOk result (λ told. IfErr told (IsUnmade (C.shows service.now.clock.now) service.now.hub.now channel pass.old pass.new)) }
    ensures unasked { OnErr result (HasSeen pass.old pass.new) }
{
    let mut bell = *service.bell;
    match service
        .hub
        .ask(service.rt, service.clock, &mut bell, pass, channel, want)
    {
        Ok(asked) => Ok(Ok(asked)),
        Err(fault) => Ok(Err(unavailable(fault)?)),
    }
}

/// Returns why a request is unavailable that the hub refused with `fault`, or [`LinkFault::Hub`] if that ends the connection.
fn unavailable(fault: HubFault) -> Result<AskFault, LinkFault>
    ensures own { IsOwn result }
    ensures reason { result ≡ unavailable_by fault }
{
    match fault {
        HubFault::Room {
            fault: RoomFault::Ask(fault),
            ..
        } => Ok(fault),
        HubFault::Room {
            fault: RoomFault::Clock(ClockFault::RecordFull),
            ..
        } => Ok(AskFault::RecordFull),
        HubFault::Memory
        | HubFault::Room {
            fault: RoomFault::Clock(ClockFault::Memory),
            ..
        } => Ok(AskFault::Memory),
        _ => Err(LinkFault::Hub),
    }
}
