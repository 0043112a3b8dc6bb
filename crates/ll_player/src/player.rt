//! A player's connection that has its thread to itself: it is read, and its requests are answered one after another.
ghost use Rattle.std.specs.Prelude.{◌≡◌, ◌≢◌, [], IfErr, IfOk, IfSome, IsErrOf, None, OnErr, OnOk, false, is_some, true};
ghost use Rattle.ll_device.specs.Inward.{looked_at};
ghost use Rattle.ll_hub.specs.Calls.{HasSeen};
ghost use Rattle.ll_player.specs.Asking.{IsReplyTo};
ghost use Rattle.ll_player.specs.Playing.{IsCutShort, IsPlayed, moment};
ghost use Rattle.ll_player.specs.Reading.{HasCome, IsDrained, stays_or_ends};
ghost use Rattle.ll_player.specs.Steps.{BreaksOff, PlaysOn};
ghost use Rattle.ll_service.specs.Faults.{IsTrue};
ghost use Rattle.ll_service.specs.Reads.{HasEnded, IsReadOnce, IsReadThrough, IsReadWithin};

use crate::answering::{go_on, put_out};
use crate::held::Held;
use crate::mode::Blocking;
use crate::sending::Begun;
use ll_counts::Gate;
use ll_device::Link;
use ll_hub::{Bell, Clock, Ledgers, Pass, Sink};
use ll_service::{LinkFault, Service};
use ll_session::Session;
use ll_wire::Answer;
use std::sync::Wait;
use std::time::{self, Duration};

/// The most bytes that one read takes.
pub(crate) const PIECE: usize = 1_024;

/// The time between two looks at whether the player of a held request has hung up, in seconds.
const LOOK: u64 = 1;

/// Answers a player's requests, one after another, and returns the number of answers. Fails after `reads` reads.
pub fn serve<L: Ledgers, P: Link, C: Clock, G: Gate, K: Sink, D, B: Bell, R: Wait + time::Clock>(
    service: &Service<'_, L, C, G, K, D, B, R>,
    link: &mut P,
    pass: &mut Pass<L>,
    reads: u64,
) -> Result<u64, LinkFault>
    ensures faults { IsTrue result (P.failures link.old) (P.failures link.new) }
    ensures few { IsReadWithin (P.inward link.old) (P.inward link.new) reads }
    ensures endless { IsErrOf result LinkFault.Endless → IsReadThrough (P.inward link.old) (P.inward link.new) reads }
    ensures played { OnOk result (IsPlayed (C.shows service.now.clock.now) service.now.hub.now pass.old pass.new (P.inward link.old) (P.inward link.new) (P.written link.old) (P.written link.new)) }
    ensures cut_short { OnErr result (IsCutShort (C.shows service.now.clock.now) service.now.hub.now true
        (record { pass = pass.old; inward = P.inward link.old; written = P.written link.old }) (P.inward link.new) (P.written link.new) pass.new) }
{
    let mut session = Session::new(service.alloc);
    let served = converse(service, link, pass, &mut session, reads);
    session.end();
    served
}

/// Reads and answers until either side ends the connection, and returns the number of answers. Fails after `reads` reads.
fn converse<L: Ledgers, P: Link, C: Clock, G: Gate, K: Sink, D, B: Bell, R: Wait + time::Clock>(
    service: &Service<'_, L, C, G, K, D, B, R>,
    link: &mut P,
    pass: &mut Pass<L>,
    session: &mut Session,
    reads: u64,
) -> Result<u64, LinkFault>
    ensures faults { IsTrue result (P.failures link.old) (P.failures link.new) }
    ensures few { IsReadWithin (P.inward link.old) (P.inward link.new) reads }
    ensures endless { IsErrOf result LinkFault.Endless → IsReadThrough (P.inward link.old) (P.inward link.new) reads }
    ensures ended { OnOk result (session.new.shut ≡ false → HasEnded (P.inward link.old) (P.inward link.new)) }
    ensures plays { session.old.shut ≡ false → OnOk result (PlaysOn (C.shows service.now.clock.now) service.now.hub.now
        (moment (P.inward link.old) (P.written link.old) session.old None pass.old)
        (moment (P.inward link.new) (P.written link.new) session.new None pass.new)) }
    ensures breaks { session.old.shut ≡ false → OnErr result (BreaksOff (C.shows service.now.clock.now) service.now.hub.now
        (moment (P.inward link.old) (P.written link.old) session.old None pass.old) (P.inward link.new) (P.written link.new) pass.new) }
    ensures drained { IsDrained session.old → OnOk result (IsDrained session.new) }
{
    let mut begun = Begun::none();
    for _ in 0..reads {
        if !turn(service, link, pass, session, &mut begun)? {
            return Ok(begun.answers);
        }
    }
    Err(LinkFault::Endless)
}

/// Reads once, and answers all whole requests that came. Returns whether the connection stays: false if either side has ended it.
fn turn<L: Ledgers, P: Link, C: Clock, G: Gate, K: Sink, D, B: Bell, R: Wait + time::Clock>(
    service: &Service<'_, L, C, G, K, D, B, R>,
    link: &mut P,
    pass: &mut Pass<L>,
    session: &mut Session,
    begun: &mut Begun,
) -> Result<bool, LinkFault>
    ensures faults { IsTrue result (P.failures link.old) (P.failures link.new) }
    ensures once { IsReadOnce (P.inward link.old) (P.inward link.new) }
    ensures stays { IfOk result (λ stays. stays ≡ true → IsReadThrough (P.inward link.old) (P.inward link.new) 1) }
    ensures ended { IfOk result (λ stays. stays ≡ false → session.new.shut ≡ false → HasEnded (P.inward link.old) (P.inward link.new)) }
    ensures other { IfErr result (λ fault. fault ≢ LinkFault.Endless) }
    ensures plays { session.old.shut ≡ false → OnOk result (PlaysOn (C.shows service.now.clock.now) service.now.hub.now
        (moment (P.inward link.old) (P.written link.old) session.old None pass.old)
        (moment (P.inward link.new) (P.written link.new) session.new None pass.new)) }
    ensures breaks { session.old.shut ≡ false → OnErr result (BreaksOff (C.shows service.now.clock.now) service.now.hub.now
        (moment (P.inward link.old) (P.written link.old) session.old None pass.old) (P.inward link.new) (P.written link.new) pass.new) }
    ensures drained { IsDrained session.old → OnOk result (IsDrained session.new) }
    ensures unshut { IfOk result (λ stays. stays ≡ true → session.new.shut ≡ false) }
{
    if !receive(link, session)? {
        return Ok(false);
    }
    let stays = answer(service, link, pass, session, begun)?;
    Ok(stays && !session.shut())
}

/// Reads once. Returns whether bytes came: false at the end of the connection.
// Not inlined, so that its buffer is on no stack while a request is held.
#[inline(never)]
fn receive<P: Link>(link: &mut P, session: &mut Session) -> Result<bool, LinkFault>
    ensures faults { IsTrue result (P.failures link.old) (P.failures link.new) }
    ensures more { IfOk result (λ came. came ≡ true → IsReadThrough (P.inward link.old) (P.inward link.new) 1) }
    ensures end { IfOk result (λ came. came ≡ false → P.inward link.new ≡ looked_at 1 1 [] (P.inward link.old)) }
    ensures cut { OnErr result ((session.new ≡ session.old) × IsReadThrough (P.inward link.old) (P.inward link.new) 1) }
    ensures other { IfErr result (λ fault. fault ≢ LinkFault.Endless) }
    ensures fed { IfOk result (λ came. HasCome came (P.inward link.old) (P.inward link.new) session.old session.new) }
    ensures unwritten { P.written link.new ≡ P.written link.old }
{
    let mut piece = [0; PIECE];
    let Ok(count) = link.read(&mut piece) else {
        return Err(LinkFault::Read);
    };
    if count == 0 {
        return Ok(false);
    }
    session.feed(&piece[..count])?;
    Ok(true)
}

/// Answers all whole requests that came. Returns whether the player stays: false if it hung up while one was held.
fn answer<L: Ledgers, P: Link, C: Clock, G: Gate, K: Sink, D, B: Bell, R: Wait + time::Clock>(
    service: &Service<'_, L, C, G, K, D, B, R>,
    link: &mut P,
    pass: &mut Pass<L>,
    session: &mut Session,
    begun: &mut Begun,
) -> Result<bool, LinkFault>
    ensures faults { IsTrue result (P.failures link.old) (P.failures link.new) }
    ensures looked { IfOk result (λ stays. P.inward link.new ≡ stays_or_ends stays (P.inward link.old)) }
    ensures unread { OnErr result (P.inward link.new ≡ P.inward link.old) }
    ensures other { IfErr result (λ fault. fault ≢ LinkFault.Endless) }
    ensures plays { OnOk result (PlaysOn (C.shows service.now.clock.now) service.now.hub.now
        (moment (P.inward link.old) (P.written link.old) session.old None pass.old)
        (moment (P.inward link.new) (P.written link.new) session.new None pass.new)) }
    ensures breaks { OnErr result (BreaksOff (C.shows service.now.clock.now) service.now.hub.now
        (moment (P.inward link.old) (P.written link.old) session.old None pass.old) (P.inward link.new) (P.written link.new) pass.new) }
    ensures drained { OnOk result (IsDrained session.new) }
{
    for _ in service.rt.forever() {
        if let Some(held) = go_on(service, &Blocking, link, pass, session, begun)? {
            let Some(answer) = wait(service, link, pass, held)? else {
                return Ok(false);
            };
            put_out(session, &answer)?;
        } else if session.first_answer().is_none() {
            return Ok(true);
        }
    }
    unreachable!()
}

/// Waits for the answer to a held request. If its player hangs up, closes it and returns `None`.
fn wait<'a, L: Ledgers, P: Link, C, G: Gate, K, D, B, R: Wait + time::Clock>(
    service: &Service<'a, L, C, G, K, D, B, R>,
    link: &mut P,
    pass: &mut Pass<L>,
    held: Held<'a, L, G, R>,
) -> Result<Option<Answer>, LinkFault>
    ensures faults { IsTrue result (P.failures link.old) (P.failures link.new) }
    ensures looked { IfOk result (λ answer. P.inward link.new ≡ stays_or_ends (is_some answer) (P.inward link.old)) }
    ensures unread { OnErr result (P.inward link.new ≡ P.inward link.old) }
    ensures other { IfErr result (λ fault. fault ≢ LinkFault.Endless) }
    ensures answer { IfOk result (λ answer. IfSome answer (IsReplyTo held.entry.hub.now held.entry.claim pass.old pass.new)) }
    ensures gone { IfOk result (λ answer. answer ≡ None → pass.new ≡ pass.old) }
    ensures lost { OnErr result (HasSeen pass.old pass.new) }
    ensures unwritten { P.written link.new ≡ P.written link.old }
{
    let limit = Duration::from_secs(LOOK);
    let mut held = held;
    for _ in service.rt.forever() {
        held = match held.wait(pass, limit)? {
            Ok(answer) => return Ok(Some(answer)),
            Err(still) => still,
        };
        if link.gone() {
            return Ok(None);
        }
    }
    unreachable!()
}
