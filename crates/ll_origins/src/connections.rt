//! The connections to one of several origins.
use crate::origins::Job;
use ll_device::Source;
use ll_pair::Pair;
use ll_socket::{Address, Connector, Socket};
use std::net::{Net, TcpListener, TcpStream};
use std::sync::Wait;
use std::thread;
use std::time::{Clock, Duration, Instant};

/// The pause between two attempts to reach an origin, in milliseconds.
const PAUSE: u64 = 500;

/// The connections to one origin, which are tried for `retry`, also the first.
#[derive(Drop)]
pub(crate) struct Connections<'a, R> {
    rt: &'a R,
    pair: &'a Pair,
    number: usize,
    connector: Connector<'a, R>,
    retry: Duration,
}

impl<'a, R: Net<Listener = TcpListener, Stream = TcpStream>> Connections<'a, R> {
    /// Returns the connections to the origin `number` of `pair`, at `address`, for `job`.
    pub(crate) fn new(
        rt: &'a R,
        pair: &'a Pair,
        number: usize,
        address: &'a Address,
        job: &'a Job,
    ) -> Connections<'a, R> {
        let retry = job.plan.retry;
        let each = Duration::from_secs(retry.min(1));
        Connections {
            rt,
            pair,
            number,
            connector: Connector::new(rt, address, job.greeting(), each),
            retry: Duration::from_secs(retry),
        }
    }
}

impl<R: Net<Listener = TcpListener, Stream = TcpStream> + Clock + Wait> Source
    for Connections<'_, R> {
    type Peer = Socket;

    /// Tries until `retry` has gone by, or the origin is left, with a pause between two attempts.
    fn next(&mut self) -> Option<Socket> {
        let start = Instant::now(self.rt).ok()?;
        for _ in 0..u64::MAX {
            self.pair.behind(self.rt, self.number)?;
            if let Some(socket) = self.connector.next() {
                return Some(socket);
            }
            if start.elapsed(self.rt).ok()? >= self.retry {
                return None;
            }
            thread::sleep(self.rt, Duration::from_millis(PAUSE));
        }
        None
    }
}
