//! A player's connection that takes no thread while it waits: it is served in steps, none of which waits for its link or for a reply.
ghost use Rattle.std.specs.Prelude.{◌≡◌, ◌≢◌, ◌⊎◌, [], IfErr, IfOk, IfSome, IsSome, MatchOption, None, OnErr, OnOk, Some, false, true};
ghost use Rattle.ll_device.specs.Inward.{looked_at};
ghost use Rattle.ll_player.specs.Connections.{Fails, HasCollected, HasLost, IsCaughtUp, IsOn, Steps, WaitsFor};
ghost use Rattle.ll_service.specs.Faults.{IsTrue};
ghost use Rattle.ll_player.specs.Reading.{IsFed};
ghost use Rattle.ll_service.specs.Reads.{HasEnded, IsReadOnce};
ghost use Rattle.ll_session.specs.Talk.{fresh};

use crate::answering::{go_on, put_out};
use crate::held::Held;
use crate::mode::Nonblocking;
use crate::player::PIECE;
use crate::sending::{Begun, send};
use ll_counts::Gate;
use ll_device::TryLink;
use ll_hub::{Bell, Clock, Ledgers, Pass, Sink};
use ll_service::{LinkFault, Service};
use ll_session::Session;
use std::alloc::Global;
use std::marker::Model;
use std::os::fd::RawFd;
use std::sync::Wait;

/// What a connection waits for after a step.
#[derive(Clone, Copy, PartialEq, Eq)]
pub enum Step {
    /// More bytes from its player.
    Idle,
    /// Nothing: more bytes have come, perhaps.
    More,
    /// The link, to take what is left of its answers.
    Unsent,
    /// The reply to its request that is held.
    Held,
    /// It has ended.
    Over,
}

/// A session that is ended when it is dropped.
struct Talk {
    session: Session,
}

impl Drop for Talk {
    fn drop(self) {
        let Talk { session } = self;
        session.end();
    }
}

/// A player's connection. When it is dropped, its request that is held is closed.
#[derive(Drop)]
pub struct Connection<'a, L: Ledgers, P: TryLink, G: Gate, R: Wait> {
    link: P,
    talk: Talk,
    begun: Begun,
    held: Option<Held<'a, L, G, R>>,
    /// Whether the last read filled its buffer, so that more may be there.
    more: bool,
}

impl<'a, L: Ledgers, P: TryLink, G: Gate, R: Wait> Model for Connection<'a, L, P, G, R> {
    ghost use Rattle.std.specs.Prelude.{option_map};
    ghost use Rattle.ll_player.specs.Connections.{ConnectionValue};

    ghost Value = { ConnectionValue };

    ghost view = { λ c. record { inward = P.inward c.link; written = P.written c.link; failures = P.failures c.link; session = c.talk.session; claim = option_map (λ h. (h.claim, h.hub.now)) c.held } };
}

impl<'a, L: Ledgers, P: TryLink, G: Gate, R: Wait> Connection<'a, L, P, G, R> {
    /// Returns a connection over `link`, from which nothing was read.
    pub fn new(alloc: Global, link: P) -> Connection<'a, L, P, G, R>
        ensures { result ≡ record { inward = P.inward link; written = P.written link; failures = P.failures link; session = fresh; claim = None } }
    {
        Connection {
            link,
            talk: Talk {
                session: Session::new(alloc),
            },
            begun: Begun::none(),
            held: None,
            more: false,
        }
    }

    /// Returns the descriptor of its link.
    pub fn descriptor(&self) -> RawFd {
        self.link.descriptor()
    }

    /// Returns the place of the channel of its request that is held, and the request's number there; `None` if none is held.
    pub fn held(&self) -> Option<(usize, u64)>
        ensures { MatchOption result (self.now.claim ≡ None) (λ held. IfSome self.now.claim (λ claim. (held.0 ≡ claim.0.channel) × (held.1 ≡ claim.0.entry.ticket))) }
    {
        match &self.held {
            Some(held) => Some(held.place()),
            None => None,
        }
    }

    /// Returns whether some of its answers are left to be sent.
    pub fn has_unsent(&self) -> bool
        ensures some { result ≡ true → self.now.session.answers ≢ [] }
        ensures none { result ≡ false → self.now.session.answers ≡ [] }
    {
        self.talk.session.first_answer().is_some()
    }

    /// Returns whether its player has hung up while a request is held, which is closed then.
    pub fn gone(&mut self) -> bool
        ensures steady { (self.new.failures ≡ self.old.failures) × (self.new.written ≡ self.old.written) × (self.new.session ≡ self.old.session) }
        ensures there { result ≡ false → self.new ≡ self.old }
        ensures hung_up { result ≡ true → self.new ≡ record self.old { inward = looked_at 0 1 [] self.old.inward; claim = None } }
    {
        if self.held.is_none() || !self.link.gone() {
            return false;
        }
        self.held = None;
        true
    }

    /// Reads once, and answers the whole requests that came. Does nothing while a request is held or an answer is left to be sent, nor once
    /// the session has shut.
    pub fn readable<C: Clock, K: Sink, D, B: Bell>(
        &mut self,
        service: &Service<'a, L, C, G, K, D, B, R>,
        pass: &mut Pass<L>,
    ) -> Result<Step, LinkFault>
        ensures faults { IsTrue result self.old.failures self.new.failures }
        ensures once { (self.new.inward ≡ self.old.inward) ⊎ IsReadOnce self.old.inward self.new.inward }
        ensures ended { IfOk result (λ step. step ≡ Step.Over → self.new.session.shut ≡ false → HasEnded self.old.inward self.new.inward) }
        ensures waits { IfOk result (λ step. WaitsFor self.new step ⊎ ((step ≡ Step.Over) × HasEnded self.old.inward self.new.inward)) }
        ensures caught_up { IfOk result (λ step. step ≢ Step.Over → IsCaughtUp self.new) }
        ensures other { IfErr result (λ fault. fault ≢ LinkFault.Endless) }
        ensures plays { IsOn service.now.hub.now self.old → OnOk result (Steps (C.shows service.now.clock.now) service.now.hub.now pass.old pass.new self.old self.new) }
        ensures fails { IsOn service.now.hub.now self.old → OnErr result (Fails (C.shows service.now.clock.now) service.now.hub.now pass.old pass.new self.old self.new) }
    {
        if self.held.is_some() || self.has_unsent() || self.talk.session.shut() {
            return Ok(self.step());
        }
        let came = receive(&mut self.link, &mut self.talk.session)?;
        if came == Some(0) {
            return Ok(Step::Over);
        }
        self.more = came == Some(PIECE);
        self.answer(service, pass)?;
        Ok(self.step())
    }

    /// Sends what is left of its answers, as far as the link takes them, and then answers the whole requests that came.
    pub fn writable<C: Clock, K: Sink, D, B: Bell>(
        &mut self,
        service: &Service<'a, L, C, G, K, D, B, R>,
        pass: &mut Pass<L>,
    ) -> Result<Step, LinkFault>
        ensures faults { IsTrue result self.old.failures self.new.failures }
        ensures unread { self.new.inward ≡ self.old.inward }
        ensures waits { IfOk result (WaitsFor self.new) }
        ensures caught_up { OnOk result (IsCaughtUp self.new) }
        ensures other { IfErr result (λ fault. fault ≢ LinkFault.Endless) }
        ensures plays { IsOn service.now.hub.now self.old → OnOk result (Steps (C.shows service.now.clock.now) service.now.hub.now pass.old pass.new self.old self.new) }
        ensures fails { IsOn service.now.hub.now self.old → OnErr result (Fails (C.shows service.now.clock.now) service.now.hub.now pass.old pass.new self.old self.new) }
    {
        if self.held.is_some() {
            let session = &mut self.talk.session;
            let begun = &mut self.begun;
            send(
                service.rt,
                service.gate,
                &Nonblocking,
                &mut self.link,
                session,
                begun,
            )?;
            return Ok(self.step());
        }
        self.answer(service, pass)?;
        Ok(self.step())
    }

    /// Collects the reply to its request that is held, if it is there; then answers that, and the whole requests that came after it.
    pub fn ready<C: Clock, K: Sink, D, B: Bell>(
        &mut self,
        service: &Service<'a, L, C, G, K, D, B, R>,
        pass: &mut Pass<L>,
    ) -> Result<Step, LinkFault>
        ensures faults { IsTrue result self.old.failures self.new.failures }
        ensures unread { self.new.inward ≡ self.old.inward }
        ensures waits { IfOk result (WaitsFor self.new) }
        ensures caught_up { OnOk result (IsSome self.old.claim → IsCaughtUp self.new) }
        ensures other { IfErr result (λ fault. fault ≢ LinkFault.Endless) }
        ensures plays { IsOn service.now.hub.now self.old → OnOk result (Steps (C.shows service.now.clock.now) service.now.hub.now pass.old pass.new self.old self.new) }
        ensures fails { IsOn service.now.hub.now self.old → OnErr result (Fails (C.shows service.now.clock.now) service.now.hub.now pass.old pass.new self.old self.new) }
    {
        if !self.collect(pass)? {
            return Ok(self.step());
        }
        self.answer(service, pass)?;
        Ok(self.step())
    }

    /// Collects the reply to its request that is held, and puts it out. Returns whether it was there.
    fn collect(&mut self, pass: &mut Pass<L>) -> Result<bool, LinkFault>
        ensures faults { IsTrue result self.old.failures self.new.failures }
        ensures other { IfErr result (λ fault. fault ≢ LinkFault.Endless) }
        ensures link { (self.new.inward ≡ self.old.inward) × (self.new.written ≡ self.old.written) × (self.new.failures ≡ self.old.failures) }
        ensures collected { IfOk result (λ there. there ≡ true → HasCollected pass.old pass.new self.old self.new) }
        ensures still { IfOk result (λ there. there ≡ false → (self.new ≡ self.old) × (pass.new ≡ pass.old)) }
        ensures lost { OnErr result (HasLost pass.old pass.new self.old self.new) }
    {
        let Some(held) = self.held.take() else {
            return Ok(false);
        };
        match held.collect(pass)? {
            Ok(answer) => {
                put_out(&mut self.talk.session, &answer)?;
                Ok(true)
            }
            Err(still) => {
                self.held = Some(still);
                Ok(false)
            }
        }
    }

    /// Answers the whole requests that came, as far as the link takes the answers, up to one that is held. None is held before.
    fn answer<C: Clock, K: Sink, D, B: Bell>(
        &mut self,
        service: &Service<'a, L, C, G, K, D, B, R>,
        pass: &mut Pass<L>,
    ) -> Result<(), LinkFault>
        ensures faults { IsTrue result self.old.failures self.new.failures }
        ensures unread { self.new.inward ≡ self.old.inward }
        ensures other { IfErr result (λ fault. fault ≢ LinkFault.Endless) }
        ensures caught_up { OnOk result (IsCaughtUp self.new) }
        ensures plays { self.old.claim ≡ None → OnOk result (Steps (C.shows service.now.clock.now) service.now.hub.now pass.old pass.new self.old self.new) }
        ensures fails { self.old.claim ≡ None → OnErr result (Fails (C.shows service.now.clock.now) service.now.hub.now pass.old pass.new self.old self.new) }
    {
        let session = &mut self.talk.session;
        let begun = &mut self.begun;
        self.held = go_on(service, &Nonblocking, &mut self.link, pass, session, begun)?;
        Ok(())
    }

    /// Returns what it waits for.
    fn step(&self) -> Step
        ensures { WaitsFor self.now result }
    {
        if self.held.is_some() {
            Step::Held
        } else if self.has_unsent() {
            Step::Unsent
        } else if self.talk.session.shut() {
            Step::Over
        } else if self.more {
            Step::More
        } else {
            Step::Idle
        }
    }
}

/// Reads once, unless that would have to wait. Returns how many bytes came: 0 at the end of the connection.
// Not inlined, so that its buffer is on no stack while answers are made.
#[inline(never)]
fn receive<P: TryLink>(link: &mut P, session: &mut Session) -> Result<Option<usize>, LinkFault>
    ensures faults { IsTrue result (P.failures link.old) (P.failures link.new) }
    ensures once { (P.inward link.new ≡ P.inward link.old) ⊎ IsReadOnce (P.inward link.old) (P.inward link.new) }
    ensures end { IfOk result (λ came. came ≡ Some 0 → P.inward link.new ≡ looked_at 1 1 [] (P.inward link.old)) }
    ensures fed { IfOk result (λ came. IfSome came (λ n. IsFed n (P.inward link.old) (P.inward link.new) session.old session.new)) }
    ensures nothing { IfOk result (λ came. came ≡ None → (P.inward link.new ≡ P.inward link.old) × (session.new ≡ session.old)) }
    ensures cut { OnErr result ((session.new ≡ session.old) × IsReadOnce (P.inward link.old) (P.inward link.new)) }
    ensures unwritten { P.written link.new ≡ P.written link.old }
    ensures other { IfErr result (λ fault. fault ≢ LinkFault.Endless) }
{
    let mut piece = [0; PIECE];
    let Ok(came) = link.try_read(&mut piece) else {
        return Err(LinkFault::Read);
    };
    if let Some(count) = came {
        session.feed(&piece[..count])?;
    }
    Ok(came)
}
