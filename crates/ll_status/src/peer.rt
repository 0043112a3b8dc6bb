//! One connection of the status port: a request, its answer, and the end.
use crate::answer::answer;
use libc::net::{POLLIN, POLLOUT};
use libc::types::pollfd;
use ll_counts::Numbers;
use std::alloc::Global;
use std::io;
use std::io::{ErrorKind, Read, Write};
use std::net::{Shutdown, TcpStream};
use std::os::fd::AsRawFd;
use std::time::Clock;

/// How long a connection lasts at most, in milliseconds.
pub(crate) const LIMIT: u64 = 5_000;

/// The most bytes of a request's head, and of one read.
const PIECE: usize = 8_192;

/// How far a connection has come.
#[derive(Drop)]
enum State {
    /// These bytes of its request have come, which are less than a head.
    Asking(Vec<u8>),
    /// It gets this answer, of which that many bytes were sent.
    Answered(Vec<u8>, usize),
    /// Its answer was sent. What it still sends is read until its end: to close it earlier could take the answer away from it.
    Ending,
    /// It has ended, or failed.
    Over,
}

/// One connection.
#[derive(Drop)]
pub(crate) struct Peer {
    stream: TcpStream,
    /// When it was accepted, in milliseconds since the server's start.
    since: u64,
    state: State,
}

impl Peer {
    /// Returns the connection `stream`, which was accepted at `since`, in milliseconds since the server's start.
    pub(crate) fn new(alloc: Global, stream: TcpStream, since: u64) -> Peer {
        let state = match stream.set_nonblocking(true) {
            Ok(()) => State::Asking(Vec::new(alloc)),
            Err(_) => State::Over,
        };
        Peer {
            stream,
            since,
            state,
        }
    }

    /// Returns how long it still lasts at `now`, both in milliseconds.
    pub(crate) fn left(&self, now: u64) -> u64 {
        LIMIT.saturating_sub(now.saturating_sub(self.since))
    }

    /// Returns whether it is to be closed at `now`, in milliseconds since the server's start.
    pub(crate) fn is_over(&self, now: u64) -> bool {
        matches!(self.state, State::Over) || self.left(now) == 0
    }

    /// Returns what the system has to report of it.
    pub(crate) fn asked(&self) -> pollfd {
        let events = match self.state {
            State::Answered(..) => POLLOUT,
            _ => POLLIN,
        };
        pollfd {
            fd: self.stream.as_raw_fd(),
            events,
            revents: 0,
        }
    }

    /// Does what can be done now without waiting.
    pub(crate) fn step<R: Clock>(&mut self, alloc: Global, numbers: &Numbers<'_, R>) {
        match self.state {
            State::Asking(_) => self.read_on(alloc, numbers),
            State::Answered(..) => self.write_on(),
            State::Ending => self.read_out(),
            State::Over => {}
        }
    }

    /// Reads more of its request, and makes the answer once the head is whole. Ends it if out of memory.
    fn read_on<R: Clock>(&mut self, alloc: Global, numbers: &Numbers<'_, R>) {
        let State::Asking(bytes) = &mut self.state else {
            return;
        };
        let mut piece = [0; PIECE];
        let room = PIECE.saturating_sub(bytes.len());
        match done(self.stream.read(&mut piece[..room])) {
            Some(0) => self.state = State::Over,
            Some(count) => {
                let came = piece.get(..count).unwrap_or(&[]);
                if bytes.extend_from_slice(came).is_err() {
                    self.state = State::Over;
                    return;
                }
                match answer(alloc, numbers, bytes) {
                    Ok(Some(text)) => self.state = State::Answered(text, 0),
                    Ok(None) => {}
                    Err(_) => self.state = State::Over,
                }
            }
            None => {}
        }
    }

    /// Sends more of its answer. Once that is sent, says that no more will come.
    fn write_on(&mut self) {
        let State::Answered(text, sent) = &mut self.state else {
            return;
        };
        let rest = text.get(*sent..).unwrap_or(&[]);
        match done(self.stream.write(rest)) {
            Some(0) => self.state = State::Over,
            Some(count) => {
                *sent = sent.saturating_add(count);
                if text.len() <= *sent {
                    let _ = self.stream.shutdown(Shutdown::Write);
                    self.state = State::Ending;
                }
            }
            None => {}
        }
    }

    /// Reads what it still sends, and ends it at the end of that.
    fn read_out(&mut self) {
        let mut piece = [0; PIECE];
        if done(self.stream.read(&mut piece)) == Some(0) {
            self.state = State::Over;
        }
    }
}

/// Returns the count of a system call, 0 if it failed, or `None` if it would have to wait.
fn done(call: io::Result<usize>) -> Option<usize> {
    match call {
        Ok(count) => Some(count),
        Err(error) => match error.kind() {
            ErrorKind::WouldBlock | ErrorKind::Interrupted => None,
            _ => Some(0),
        },
    }
}
