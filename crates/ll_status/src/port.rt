//! The status port, and the thread that serves it.
use crate::peer::{LIMIT, Peer};
use libc::net::POLLIN;
use libc::types::pollfd;
use ll_counts::Numbers;
use std::alloc::Global;
use std::collections::VecDeque;
use std::io::ErrorKind;
use std::net::{Net, SocketAddr, TcpListener, TcpStream};
use std::os::fd::AsRawFd;
use std::sync::Wait;
use std::time::{Clock, Duration};
use std::{io, thread};

/// The most connections at once.
const MOST: usize = 64;

/// The most connections that wait to be accepted.
const BACKLOG: i32 = 4_096;

/// How long to wait after a connection couldn't be accepted, in milliseconds.
const PAUSE: u64 = 50;

/// The status port. It serves no more than 64 connections at once, each for 5 seconds at most.
#[derive(Drop)]
pub struct StatusPort<'a, R> {
    rt: &'a R,
    alloc: Global,
    listener: TcpListener,
    address: SocketAddr,
    /// Its connections, in the order in which they were accepted.
    peers: VecDeque<Peer>,
    /// Whether a failure to accept was already reported on stderr.
    told: bool,
}

impl<'a, R: Net<Listener = TcpListener, Stream = TcpStream>> StatusPort<'a, R> {
    /// Listens at `address`. Fails if the system refuses it.
    pub fn open(rt: &'a R, alloc: Global, address: SocketAddr) -> io::Result<StatusPort<'a, R>> {
        let listener = TcpListener::bind(rt, address)?;
        listener.set_nonblocking(true)?;
        let _ = libc::net::listen(listener.as_raw_fd(), BACKLOG);
        Ok(StatusPort {
            rt,
            alloc,
            address: listener.local_addr()?,
            listener,
            peers: VecDeque::new(alloc),
            told: false,
        })
    }
}

impl<R> StatusPort<'_, R> {
    /// Returns the address that it listens at.
    pub fn address(&self) -> SocketAddr {
        self.address
    }
}

impl<R: Clock + Eprint + Wait> StatusPort<'_, R> {
    /// Answers who connects, from `numbers`.
    pub fn serve(&mut self, numbers: &Numbers<'_, R>) {
        for _ in self.rt.forever() {
            self.turn(numbers);
        }
    }

    /// Waits until the system reports something, or the time of the first connection is over. Then serves those of which something was
    /// reported, and accepts another one if it has come.
    fn turn(&mut self, numbers: &Numbers<'_, R>) {
        let now = numbers.now();
        self.peers.retain(|peer| !peer.is_over(now));
        let mut asked = [self.asked(); MOST + 1];
        self.ask(&mut asked[1..]);
        let count = self.peers.len().min(MOST) + 1;
        if libc::net::poll(&mut asked[..count], self.patience(now)) < 0 {
            self.pause();
        }
        self.step(&asked[1..], numbers);
        if asked[0].revents != 0 {
            self.accept(numbers.now());
        }
    }

    /// Returns what the system has to report of the port: a connection that can be accepted.
    fn asked(&self) -> pollfd {
        pollfd {
            fd: self.listener.as_raw_fd(),
            events: POLLIN,
            revents: 0,
        }
    }

    /// Sets `places` to what the system has to report of each connection.
    fn ask(&self, places: &mut [pollfd]) {
        for (place, peer) in places.iter_mut().zip(self.peers.iter()) {
            *place = peer.asked();
        }
    }

    /// Serves each connection of which something was reported in its place of `places`.
    fn step(&mut self, places: &[pollfd], numbers: &Numbers<'_, R>) {
        for (place, peer) in places.iter().zip(self.peers.iter_mut()) {
            if place.revents != 0 {
                peer.step(self.alloc, numbers);
            }
        }
    }

    /// Returns how long to wait at `now` for the end of the first connection's time, in milliseconds; -1 if there is none.
    fn patience(&self, now: u64) -> i32 {
        match self.peers.front() {
            Some(peer) => peer.left(now).min(LIMIT) as i32,
            None => -1,
        }
    }

    /// Accepts a connection at `now`, in milliseconds since the server's start. If all places are taken, first closes the connection that is
    /// there longest. If none can be accepted, waits, so that the thread doesn't turn in vain.
    fn accept(&mut self, now: u64) {
        if self.peers.len() >= MOST {
            self.peers.pop_front();
        }
        match self.listener.accept() {
            Ok((stream, _)) => {
                let _ = self.peers.push_back(Peer::new(self.alloc, stream, now));
            }
            Err(error) => match error.kind() {
                ErrorKind::WouldBlock | ErrorKind::Interrupted | ErrorKind::ConnectionAborted => {}
                _ => {
                    self.report(error);
                    self.pause();
                }
            },
        }
    }

    /// Says once on standard error why a connection couldn't be accepted.
    fn report(&mut self, error: io::Error) {
        if !self.told {
            self.told = true;
            let _ = eprintln!(self.rt; "llhls: a connection could not be accepted: {error}");
        }
    }

    fn pause(&self) {
        thread::sleep(self.rt, Duration::from_millis(PAUSE));
    }
}
