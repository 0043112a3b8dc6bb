//! A player's requests, one after another: each is asked, and its answer is sent.
ghost use Rattle.std.specs.Prelude.{◌≡◌, ◌≢◌, [], IfErr, IfOk, IfSome, IsSome, None, OnErr, OnOk, false, is_some, option_map, true};
ghost use Rattle.ll_player.specs.Playing.{moment};
ghost use Rattle.ll_player.specs.Steps.{BreaksOff, PlaysOn, IsHalfTurn, IsTurn};
ghost use Rattle.ll_service.specs.Faults.{IsOwn, IsTrue};
ghost use Rattle.ll_session.specs.Requests.{requests};
ghost use Rattle.ll_session.specs.Talk.{replied};

use crate::asking::ask;
use crate::held::Held;
use crate::mode::Mode;
use crate::sending::{Begun, send};
use ll_counts::Gate;
use ll_device::Link;
use ll_hub::{Bell, Clock, Ledgers, Pass, Sink};
use ll_service::{LinkFault, Service};
use ll_session::Session;
use ll_wire::Answer;
use std::alloc::AllocError;
use std::sync::Wait;

/// Sends what was put out and answers the whole requests that came, one after another, as far as `link` takes the answers in this `mode`.
/// Returns the request that is held; without one, the session has shut, or answers are left to be sent, or no whole request is left.
pub(crate) fn go_on<
    'a,
    L: Ledgers,
    P: Link,
    M: Mode<P>,
    C: Clock,
    G: Gate,
    K: Sink,
    D,
    B: Bell,
    R: Wait,
>(
    service: &Service<'a, L, C, G, K, D, B, R>,
    mode: &M,
    link: &mut P,
    pass: &mut Pass<L>,
    session: &mut Session,
    begun: &mut Begun,
) -> Result<Option<Held<'a, L, G, R>>, LinkFault>
    ensures faults { IsTrue result (P.failures link.old) (P.failures link.new) }
    ensures unread { P.inward link.new ≡ P.inward link.old }
    ensures other { IfErr result (λ fault. fault ≢ LinkFault.Endless) }
    ensures hub { IfOk result (λ held. IfSome held (λ h. h.hub.now ≡ service.now.hub.now)) }
    ensures plays { IfOk result (λ held. PlaysOn (C.shows service.now.clock.now) service.now.hub.now
        (moment (P.inward link.old) (P.written link.old) session.old None pass.old)
        (moment (P.inward link.new) (P.written link.new) session.new (option_map (λ h. h.claim) held) pass.new)) }
    ensures breaks { OnErr result (BreaksOff (C.shows service.now.clock.now) service.now.hub.now
        (moment (P.inward link.old) (P.written link.old) session.old None pass.old) (P.inward link.new) (P.written link.new) pass.new) }
    ensures drained { IfOk result (λ held. is_some held ≡ false → session.new.answers ≡ [] → session.new.shut ≡ false → session.new.out ≡ None
        → requests session.new.unread ≡ []) }
    ensures out { IfOk result (λ held. is_some held ≡ true → IsSome session.new.out) }
{
    for _ in service.rt.forever() {
        if !send(service.rt, service.gate, mode, link, session, begun)? {
            return Ok(None);
        }
        let held = answer_next(service, pass, session)?;
        if held.is_some() {
            send(service.rt, service.gate, mode, link, session, begun)?;
            return Ok(held);
        }
        if session.first_answer().is_none() {
            return Ok(None);
        }
    }
    unreachable!()
}

/// Takes the next request of `session`, and puts out its answer, after those of requests before it that are refused. Returns the request if
/// it is held; if too many bytes came after it, closes it: the session has shut.
fn answer_next<'a, L: Ledgers, C: Clock, G: Gate, K: Sink, D, B: Bell, R: Wait>(
    service: &Service<'a, L, C, G, K, D, B, R>,
    pass: &mut Pass<L>,
    session: &mut Session,
) -> Result<Option<Held<'a, L, G, R>>, LinkFault>
    ensures own { IsOwn result }
    ensures hub { IfOk result (λ held. IfSome held (λ h. h.hub.now ≡ service.now.hub.now)) }
    ensures turn { IfOk result (λ held. IsTurn (C.shows service.now.clock.now) service.now.hub.now pass.old pass.new session.old session.new (option_map (λ h. h.claim) held)) }
    ensures half { OnErr result (IsHalfTurn pass.old pass.new session.old session.new) }
{
    let Some(want) = session.next_want()? else {
        return Ok(None);
    };
    match ask(service, pass, want)? {
        Ok(answer) => {
            put_out(session, &answer)?;
            Ok(None)
        }
        Err(held) => {
            session.feed(&[])?;
            if session.shut() {
                return Ok(None);
            }
            Ok(Some(held))
        }
    }
}

/// Puts out `answer` to the want that is out, if one is.
pub(crate) fn put_out(session: &mut Session, answer: &Answer) -> Result<(), AllocError>
    ensures put { OnOk result (session.new ≡ replied session.old answer.now) }
    ensures unchanged { OnErr result (session.new ≡ session.old) }
{
    if session.waiting() {
        session.answered(answer)?;
    }
    Ok(())
}
