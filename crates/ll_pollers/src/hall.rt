//! Players, each served by one of a few pollers from its first byte to its last.
ghost use denote.Param.Send.{IsSend, IsSync};
ghost use Rattle.std.specs.Prelude.{◌≡◌, length};

use crate::bells::{Bells, Watch};
use crate::poller::Poller;
use crate::talk::{Arrivals, Talk};
use std::alloc::{AllocError, Global};
use std::slice::IterMut;
use std::sync::atomic::{AtomicBool, AtomicUsize, Ordering};
use std::sync::{Mutex, Wait};
use std::thread::Threads;
use std::{thread, time};

/// What the pollers of some players share.
#[derive(Drop)]
pub struct Hall<'a, T: Drop, R> {
    rt: &'a R,
    alloc: Global,
    bells: &'a Bells,
    /// For each poller, the connections that it has not taken in yet.
    inboxes: Vec<Mutex<Vec<T>>>,
    /// The number of pollers whose threads run.
    started: AtomicUsize,
    /// Whether no more connections come.
    closed: AtomicBool,
    idle: u64,
}

impl<'a, T: Drop, R> Hall<'a, T, R> {
    /// Returns what a poller for each of `bells` shares with the others. A connection that is idle for more than `idle` seconds is closed.
    pub fn new(
        rt: &'a R,
        alloc: Global,
        bells: &'a Bells,
        idle: u64,
    ) -> Result<Hall<'a, T, R>, AllocError> {
        let inboxes = inboxes_of::<T>(alloc, bells.len())?;
        Ok(Hall {
            rt,
            alloc,
            bells,
            inboxes,
            started: AtomicUsize::new(0),
            closed: AtomicBool::new(false),
            idle,
        })
    }
}

impl<T: Drop, R: Wait> Hall<'_, T, R> {
    /// Hands `connection`, which came after `came` others, to one of the `started` pollers. Closes it if there is none, or if out of memory.
    fn hand_over(&self, connection: T, came: usize, started: usize) {
        let Some(number) = came.checked_rem(started) else {
            return;
        };
        if let (Some(inbox), Some(bell)) = (self.inboxes.get(number), self.bells.get(number)) {
            let _ = inbox.lock(self.rt).push(connection);
            bell.wake();
        }
    }

    /// Notes that no more connections come.
    fn close(&self) {
        self.closed.store(true, Ordering::SeqCst);
        self.bells.wake_all();
    }
}

/// Returns `count` empty inboxes.
fn inboxes_of<T: Drop>(alloc: Global, count: usize) -> Result<Vec<Mutex<Vec<T>>>, AllocError> {
    let mut inboxes = Vec::new(alloc);
    for _ in 0..count {
        inboxes.push(Mutex::new(Vec::new(alloc)))?;
    }
    Ok(inboxes)
}

/// Serves the connections of `guests` until no more come and all are served, by at most one poller for each item of `given`, which it lends to
/// its connections. Returns the items.
///
/// A connection belongs to one poller, which never waits for it. One whose request is held isn't idle. Pollers are started when the first
/// connection comes. If the system starts no thread, it is tried again when the next one comes, and a connection is closed if there is no
/// poller.
pub fn share_out<
    S: Send,
    T: Talk<Lent = S> + Send,
    N: Arrivals<T>,
    R: Threads + Wait + time::Clock + Sync,
>(hall: &Hall<'_, T, R>, guests: &mut N, given: Vec<S>) -> Vec<S>
    ensures { length result.items ≡ length given.items }
{
    let mut items = given;
    let pollers = items.len();
    let seats = Mutex::new(items.iter_mut());
    admit(hall, guests, &seats, pollers);
    drop(seats);
    items
}

/// Hands out the connections of `guests`, and starts `pollers` pollers for them. Returns when all have ended.
fn admit<S: Send, T: Talk<Lent = S> + Send, N: Arrivals<T>, R: Threads + Wait + time::Clock + Sync>(
    hall: &Hall<'_, T, R>,
    guests: &mut N,
    seats: &Mutex<IterMut<'_, S>>,
    pollers: usize,
) {
    let rt = hall.rt;
    thread::scope(
        thread::scope_env(),
        rt,
        |scope|
            requires { IsSync R.row × IsSend S.row × IsSend T.row }
        {
            let (mut started, mut came) = (0, 0);
            for _ in rt.forever() {
                let Some(connection) = guests.next() else {
                    hall.close();
                    return;
                };
                for _ in started..pollers {
                    if scope.spawn(move || work(hall, seats)).is_err() {
                        break;
                    }
                    started = started.saturating_add(1);
                }
                hall.hand_over(connection, came, started);
                came = came.wrapping_add(1);
            }
            unreachable!()
        },
    );
}

/// Takes an item of `seats` and the next bell, and serves the connections that come to its poller.
// It takes its item itself: one that was moved into the closure of a thread would be lost if the thread isn't started.
fn work<S, T: Talk<Lent = S>, R: Wait + time::Clock>(
    hall: &Hall<'_, T, R>,
    seats: &Mutex<IterMut<'_, S>>,
) {
    let rt = hall.rt;
    let seat = seats.lock(rt).next();
    let Some(lent) = seat else {
        return;
    };
    let number = hall.started.fetch_add(1, Ordering::SeqCst);
    let (Some(bell), Some(inbox)) = (hall.bells.get(number), hall.inboxes.get(number)) else {
        return;
    };
    let Some(Watch { poll, mut events }) = bell.take_watch(rt) else {
        return;
    };
    let mut poller = Poller::new(rt, hall.alloc, bell, poll, hall.idle);
    poller.run(lent, &mut events, inbox, &hall.closed);
}
