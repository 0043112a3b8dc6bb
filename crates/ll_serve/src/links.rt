//! Workers, each of which serves one connection at a time.
ghost use denote.Param.Send.{IsSend, IsSync};
ghost use Rattle.std.specs.Prelude.{◌≡◌, ◌<◌, ◌≤◌, IfErr, IfOk, length};
ghost use Rattle.std.specs.List.{All};
ghost use Rattle.ll_hub.specs.Passes.{new_pass};

use crate::serve::serve_link;
use crossbeam_channel::{Receiver, Sender};
use ll_device::{CountedLink, Link, Role, Source};
use ll_hub::{Bell, Clock, Hub, HubFault, Ledgers, Pass, Sink};
use ll_notes::{Addressed, EndReason, NotedGate, Notes};
use ll_service::{Gate, LinkFault, Service, seats};
use ll_spool::Disk;
use std::alloc::Global;
use std::marker::Brand;
use std::slice::IterMut;
use std::sync::atomic::{AtomicU64, Ordering};
use std::sync::ledger::{Blank, Ledger};
use std::sync::{Mutex, Wait};
use std::thread::Threads;
use std::{thread, time};

/// Serves the connections of `source` by `workers` workers, each of which serves one at a time, until `source` gives no more and all are
/// served. A connection's fault ends that connection alone. What becomes of publishers' connections goes to `notes`, if there are some.
/// Returns the workers' passes, which [`Hub::finish`] takes.
///
/// All passes are taken before the first connection. A worker is started when a connection comes while each started worker has one to
/// serve, until all are started; it stays to the end. If the system starts no thread, the connection is served by the next worker that is
/// free, or is closed if there is none, and the next such connection tries to start one again.
///
/// If it fails, it has taken no connection. It returns the passes that it has taken, fewer than `workers`, each of which has seen and
/// counted nothing, and the reason:
///
/// 1. The hub has no more passes: Short.
/// 2. Out of memory, also before the first pass was taken: Memory.
pub fn serve_links<
    L: Ledgers + Send + Sync,
    P: Link + Addressed + Send,
    S: Source<Peer = P> + Send,
    C: Clock + Sync,
    G: Gate + Sync,
    K: Sink + Sync,
    D: Disk + Send,
    B: Bell + Sync,
    R: Threads + Wait + time::Clock + Sync,
>(
    service: &Service<'_, L, C, G, K, D, B, R>,
    notes: Option<&Notes<'_, R>>,
    role: Role,
    source: &mut S,
    workers: usize,
) -> Result<Vec<Pass<L>>, (Vec<Pass<L>>, HubFault)>
    requires some { 1 ≤ workers }
    requires most { workers ≤ 4096 }
    ensures all { IfOk result (λ passes. length passes.items ≡ workers) }
    ensures fewer { IfErr result (λ e. length e.0.items < workers) }
    ensures untouched { IfErr result (λ e. All (λ p. p ≡ new_pass (length service.now.hub.now)) e.0.items) }
{
    let alloc = service.alloc;
    let Ok((to, from)) = crossbeam_channel::unbounded::<P, Global>(alloc) else {
        return Err((Vec::new(alloc), HubFault::Memory));
    };
    let passes = seats(service.rt, alloc, workers, service.hub)?;
    let server = Noting {
        service,
        notes,
        role,
    };
    let pool = WorkerPool {
        rt: service.rt,
        server: &server,
        links: from,
        open: AtomicU64::new(0),
    };
    Ok(share_out(&pool, to, source, passes))
}

/// What serves the connections of workers.
trait Serves<L: Ledgers, P> {
    /// Serves `link` to its end, with `pass`.
    fn serve(&self, link: P, pass: &mut Pass<L>);
}

/// What serves connections of one role, and notes what becomes of them.
#[derive(Drop)]
struct Noting<'a, L: Ledgers, C, G, K, D, B, R> {
    service: &'a Service<'a, L, C, G, K, D, B, R>,
    notes: Option<&'a Notes<'a, R>>,
    role: Role,
}

impl<
    L: Ledgers,
    P: Link + Addressed,
    C: Clock,
    G: Gate,
    K: Sink,
    D: Disk,
    B: Bell,
    R: Wait + time::Clock,
> Serves<L, P> for Noting<'_, L, C, G, K, D, B, R> {
    fn serve(&self, link: P, pass: &mut Pass<L>) {
        serve_counted::<L, Brand, P, C, G, K, D, B, R>(self, link, pass, Blank::new(2));
    }
}

/// What the workers of a source share.
#[derive(Drop)]
struct WorkerPool<'a, P: Drop, W, R> {
    rt: &'a R,
    server: &'a W,
    links: Receiver<P>,
    /// The number of connections that were handed out and aren't served to their end.
    open: AtomicU64,
}

impl<P: Link, W, R: Wait> WorkerPool<'_, P, W, R> {
    /// Returns whether each of `started` workers has a connection to serve, or one that waits for it.
    fn is_busy(&self, started: u64) -> bool {
        self.open.load(Ordering::SeqCst) >= started
    }

    /// Hands `link` to the workers, of which `started` were started. Closes it if that is none, or if out of memory.
    fn hand_over(&self, to: &Sender<P>, link: P, started: u64) {
        if started == 0 {
            return;
        }
        self.open.fetch_add(1, Ordering::SeqCst);
        if to.send(self.rt, link).is_err() {
            self.open.fetch_sub(1, Ordering::SeqCst);
        }
    }
}

/// Serves the connections of `source` by at most one worker for each pass of `given`, and returns the passes.
fn share_out<
    L: Ledgers + Send + Sync,
    P: Link + Send,
    S: Source<Peer = P>,
    W: Serves<L, P> + Sync,
    R: Threads + Wait + Sync,
>(
    pool: &WorkerPool<'_, P, W, R>,
    to: Sender<P>,
    source: &mut S,
    given: Vec<Pass<L>>,
) -> Vec<Pass<L>>
    ensures { length result.items ≡ length given.items }
{
    let mut passes = given;
    let workers = passes.len() as u64;
    let seats = Mutex::new(passes.iter_mut());
    feed(pool, to, source, &seats, workers);
    drop(seats);
    passes
}

/// Hands out the connections of `source`, and starts up to `workers` workers for them. Then drops the sender, and returns when all workers
/// have ended.
fn feed<
    L: Ledgers + Send + Sync,
    P: Link + Send,
    S: Source<Peer = P>,
    W: Serves<L, P> + Sync,
    R: Threads + Wait + Sync,
>(
    pool: &WorkerPool<'_, P, W, R>,
    to: Sender<P>,
    source: &mut S,
    seats: &Mutex<IterMut<'_, Pass<L>>>,
    workers: u64,
) {
    thread::scope(
        thread::scope_env(),
        pool.rt,
        |scope|
            requires { IsSync R.row × IsSync W.row × IsSync L.row × IsSend L.row × IsSend P.row }
        {
            let to = to;
            let mut started = 0;
            for _ in pool.rt.forever() {
                let Some(link) = source.next() else {
                    return;
                };
                let lacks = started < workers && pool.is_busy(started);
                if lacks && scope.spawn(move || work(pool, seats)).is_ok() {
                    started = started.saturating_add(1);
                }
                pool.hand_over(&to, link, started);
            }
            unreachable!()
        },
    );
}

/// Takes a pass, and serves one connection after another, until no more come.
// It takes its pass itself: one that was moved into the closure of a thread would be lost if the thread isn't started.
fn work<L: Ledgers, P: Link, W: Serves<L, P>, R: Wait>(
    pool: &WorkerPool<'_, P, W, R>,
    seats: &Mutex<IterMut<'_, Pass<L>>>,
) {
    let seat = seats.lock(pool.rt).next();
    let Some(pass) = seat else {
        return;
    };
    for _ in pool.rt.forever() {
        let Ok(link) = pool.links.recv(pool.rt) else {
            return;
        };
        pool.server.serve(link, pass);
        pool.open.fetch_sub(1, Ordering::SeqCst);
    }
    unreachable!()
}

/// Serves `link` to its end, and counts how it is read. Its fault is noted, and dropped.
// Not inlined, so that a worker has touched little of its stack until it has a connection.
#[inline(never)]
fn serve_counted<
    L: Ledgers,
    M: Ledger,
    P: Link + Addressed,
    C: Clock,
    G: Gate,
    K: Sink,
    D: Disk,
    B: Bell,
    R: Wait + time::Clock,
>(noting: &Noting<'_, L, C, G, K, D, B, R>, link: P, pass: &mut Pass<L>, blank: Blank)
    requires name { blank.name ≡ M.name }
    requires parts { blank.parts ≡ M.parts }
    requires two { blank.parts ≡ 2 }
{
    let service = noting.service;
    let gate = NotedGate::new(service.rt, service.gate, noting.notes, link.remote());
    let service = with_gate(service, &gate);
    let mut counted: CountedLink<P, M> = CountedLink::new(link, blank);
    let served = serve_link(&service, noting.role, &mut counted, pass);
    gate.ended(ending_of(&served));
}

/// Returns `service` with the gate `gate` in place of its own.
fn with_gate<'a, L: Ledgers, C, G, H, K, D, B, R>(
    service: &Service<'a, L, C, G, K, D, B, R>,
    gate: &'a H,
) -> Service<'a, L, C, H, K, D, B, R>
    ensures rt { result.rt.now ≡ service.now.rt.now }
    ensures alloc { result.alloc ≡ service.now.alloc }
    ensures clock { result.clock.now ≡ service.now.clock.now }
    ensures gate { result.gate.now ≡ gate.now }
    ensures sink { result.sink.now ≡ service.now.sink.now }
    ensures bell { result.bell.now ≡ service.now.bell.now }
    ensures hub { result.hub.now ≡ service.now.hub.now }
    ensures spools { result.spools ≡ service.now.spools }
    ensures secrets { result.secrets.now ≡ service.now.secrets.now }
{
    Service {
        rt: service.rt,
        alloc: service.alloc,
        clock: service.clock,
        gate,
        sink: service.sink,
        bell: service.bell,
        hub: service.hub,
        spools: service.spools.again(),
        secrets: service.secrets,
    }
}

/// Returns why a connection has ended; `served` is the result of serving it.
fn ending_of(served: &Result<u64, LinkFault>) -> EndReason {
    match served {
        Ok(_) => EndReason::Closed,
        Err(LinkFault::Read) => EndReason::Read,
        Err(LinkFault::Write) => EndReason::Write,
        Err(LinkFault::Hub) => EndReason::Hub,
        Err(LinkFault::Memory) => EndReason::Memory,
        Err(LinkFault::Endless) => EndReason::Endless,
    }
}
