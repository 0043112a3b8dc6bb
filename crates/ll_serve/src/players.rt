//! Players, each served by one of a few pollers from its first byte to its last.
ghost use Rattle.std.specs.Prelude.{◌≡◌, ◌<◌, ◌≤◌, IfErr, IfOk, IsErr, Ok, length};
ghost use Rattle.std.specs.List.{All};
ghost use Rattle.ll_hub.specs.Passes.{new_pass};
ghost use Rattle.ll_player.specs.Connections.{ConnectionValue, WaitsFor};
ghost use Rattle.ll_serve.specs.Phases.{IsPhase};

use ll_device::{Source, TryLink};
use ll_hub::{Bell, Clock, Hub, HubFault, Ledgers, Pass, Sink};
use ll_player::{Connection, Step};
use ll_pollers::{Arrivals, Bells, Hall, Phase, Talk, share_out};
use ll_service::{Gate, LinkFault, Service, seats};
use std::alloc::Global;
use std::os::fd::RawFd;
use std::sync::Wait;
use std::thread::Threads;
use std::time;

/// Serves the connections of players that `source` gives, until it gives no more and all are served. A connection's fault ends that
/// connection alone. Returns the pollers' passes, which [`ll_hub::Hub::finish`] takes.
///
/// There is a poller for each of `bells`, which is also the bell of `service`. A connection belongs to one poller, which never waits for it:
/// not for its bytes, not for the reply to its request that is held, and not for its player to take an answer. One that is idle for more
/// than `idle` seconds is closed; one whose request is held isn't idle.
///
/// All passes are taken before the first connection. Pollers are started when the first connection comes. If the system starts no thread, it
/// is tried again when the next one comes, and a connection is closed if there is no poller.
///
/// If it fails, it has taken no connection. It returns the passes that it has taken, fewer than there are bells, each of which has seen and
/// counted nothing, and the reason:
///
/// 1. The hub has no more passes: Short.
/// 2. Out of memory, also before the first pass was taken: Memory.
pub fn serve_players<
    L: Ledgers + Send + Sync,
    P: TryLink + Send,
    S: Source<Peer = P> + Send,
    C: Clock + Sync,
    G: Gate + Sync,
    K: Sink + Sync,
    D: Send,
    B: Bell + Sync,
    R: Threads + Wait + time::Clock + Sync,
>(
    service: &Service<'_, L, C, G, K, D, B, R>,
    source: &mut S,
    bells: &Bells,
    idle: u64,
) -> Result<Vec<Pass<L>>, (Vec<Pass<L>>, HubFault)>
    ensures all { IfOk result (λ passes. length passes.items ≡ bells.now) }
    ensures fewer { IfErr result (λ e. length e.0.items < bells.now) }
    ensures untouched { IfErr result (λ e. All (λ p. p ≡ new_pass (length service.now.hub.now)) e.0.items) }
{
    let mut guests = Guests { service, source };
    serve_guests(
        service.rt,
        service.alloc,
        service.hub,
        &mut guests,
        bells,
        idle,
    )
}

/// Does what [`serve_players`] does, with the players that come from `guests`.
fn serve_guests<
    L: Ledgers + Send + Sync,
    T: Talk<Lent = Pass<L>> + Send,
    N: Arrivals<T>,
    R: Threads + Wait + time::Clock + Sync,
>(
    rt: &R,
    alloc: Global,
    hub: &Hub<L>,
    guests: &mut N,
    bells: &Bells,
    idle: u64,
) -> Result<Vec<Pass<L>>, (Vec<Pass<L>>, HubFault)>
    ensures all { IfOk result (λ passes. length passes.items ≡ bells.now) }
    ensures fewer { IfErr result (λ e. length e.0.items < bells.now) }
    ensures untouched { IfErr result (λ e. All (λ p. p ≡ new_pass (length hub.now)) e.0.items) }
{
    let pollers = bells.len();
    let Ok(hall) = Hall::<T, R>::new(rt, alloc, bells, idle) else {
        return Err((Vec::new(alloc), HubFault::Memory));
    };
    let passes = seats(rt, alloc, pollers, hub)?;
    Ok(share_out(&hall, guests, passes))
}

/// The players of `source`, which `service` serves.
#[derive(Drop)]
struct Guests<'a, 's, L: Ledgers, S, C, G, K, D, B, R> {
    service: &'a Service<'a, L, C, G, K, D, B, R>,
    source: &'s mut S,
}

impl<'a, L: Ledgers, P: TryLink, S: Source<Peer = P>, C, G: Gate, K, D, B, R: Wait> Arrivals<
    Served<'a, L, P, C, G, K, D, B, R>,
> for Guests<'a, '_, L, S, C, G, K, D, B, R> {
    fn next(&mut self) -> Option<Served<'a, L, P, C, G, K, D, B, R>> {
        let link = self.source.next()?;
        Some(Served {
            service: self.service,
            connection: Connection::new(self.service.alloc, link),
        })
    }
}

/// A player's connection that `service` serves.
#[derive(Drop)]
struct Served<'a, L: Ledgers, P: TryLink, C, G: Gate, K, D, B, R: Wait> {
    service: &'a Service<'a, L, C, G, K, D, B, R>,
    connection: Connection<'a, L, P, G, R>,
}

impl<L: Ledgers, P: TryLink, C: Clock, G: Gate, K: Sink, D, B: Bell, R: Wait> Talk
    for Served<'_, L, P, C, G, K, D, B, R> {
    type Lent = Pass<L>;

    fn descriptor(&self) -> RawFd {
        self.connection.descriptor()
    }

    fn held(&self) -> Option<(usize, u64)> {
        self.connection.held()
    }

    fn keep_ready(&self, channel: usize, tickets: &mut Vec<u64>) {
        let service = self.service;
        service.hub.keep_ready(service.rt, channel, tickets);
    }

    fn has_unsent(&self) -> bool {
        self.connection.has_unsent()
    }

    fn gone(&mut self) -> bool {
        self.connection.gone()
    }

    fn readable(&mut self, pass: &mut Pass<L>) -> Phase {
        phase_after(&self.connection.readable(self.service, pass))
    }

    fn writable(&mut self, pass: &mut Pass<L>) -> Phase {
        phase_after(&self.connection.writable(self.service, pass))
    }

    fn ready(&mut self, pass: &mut Pass<L>) -> Phase {
        phase_after(&self.connection.ready(self.service, pass))
    }
}

/// Returns what a connection waits for after a step of it, as a poller says it; `step` is its result.
fn phase_after(step: &Result<Step, LinkFault>) -> Phase
    ensures waits { IfOk step.now (λ step. (c : ConnectionValue) → WaitsFor c step → IsPhase c result) }
    ensures over { step.now ≡ Ok Step.Over → result ≡ Phase.Over }
    ensures cut { (result ≡ Phase.Cut → IsErr step.now) × (IsErr step.now → result ≡ Phase.Cut) }
{
    match step {
        Ok(Step::Idle) => Phase::Idle,
        Ok(Step::More) => Phase::More,
        Ok(Step::Unsent) => Phase::Unsent,
        Ok(Step::Held) => Phase::Held,
        Ok(Step::Over) => Phase::Over,
        Err(_) => Phase::Cut,
    }
}

/// The bell of a hub that rings those of pollers.
#[derive(Clone, Copy)]
pub struct HubBell<'a> {
    /// The pollers' bells.
    pub bells: &'a Bells,
}

impl Bell for HubBell<'_> {
    fn ring(&mut self, channel: usize, more: usize) {
        self.bells.ring(channel, more);
    }
}
