//! Connects to an address, again and again.
ghost use Rattle.std.specs.Prelude.{◌≡◌, OnOk};
ghost use Rattle.std.specs.Io.KnownBytes.{Appends};

use crate::address::Address;
use crate::socket::Socket;
use crate::unix;
use ll_device::{Failed, Link, Source, write_all};
use std::io::{Error, ErrorKind};
use std::net::{Net, SocketAddr, TcpListener, TcpStream, ToSocketAddrs};
use std::time::{Clock, Duration, Instant};
use std::{io, thread};

/// How long one attempt to connect takes at most, and a read of a connection, in seconds.
const LIMIT: u64 = 30;

/// How long to wait before each further attempt, in milliseconds.
const PAUSE: u64 = 500;

/// Why a connection fails that ends before its greeting is answered.
const UNGREETED: &str = "the connection was made, but its first line was not answered";

/// The most bytes of the line that answers a greeting.
const ANSWER: usize = 4_096;

/// A source of connections to one address.
#[derive(Drop)]
pub struct Connector<'a, R> {
    rt: &'a R,
    address: &'a Address,
    /// The line that is sent first on each connection, if there is one. It may hold a secret.
    greeting: Option<&'a [u8]>,
    /// How long each connection after the first one is tried.
    retry: Duration,
    /// Whether the first connection was made.
    made: bool,
    /// Why the last attempt to connect failed, if one has.
    failure: Option<Error>,
}

impl<'a, R: Net<Listener = TcpListener, Stream = TcpStream>> Connector<'a, R> {
    /// Returns a source that has made no connection yet. On each connection it sends `greeting`, if there is one, and reads the line that
    /// answers it. Each connection after the first one is tried for `retry`.
    pub fn new(
        rt: &'a R,
        address: &'a Address,
        greeting: Option<&'a [u8]>,
        retry: Duration,
    ) -> Connector<'a, R> {
        Connector {
            rt,
            address,
            greeting,
            retry,
            made: false,
            failure: None,
        }
    }

    /// Returns why the last attempt to connect failed, if one has.
    pub fn failure(&self) -> Option<Error> {
        self.failure
    }

    /// Tries once to connect, and keeps why that fails.
    fn attempt(&mut self) -> Option<Socket> {
        match self.connect() {
            Ok(socket) => Some(socket),
            Err(error) => {
                self.failure = Some(error);
                None
            }
        }
    }

    /// Tries once to connect, for 30 seconds at most, and to greet. A read or a write of the connection fails if it waits for longer than 30
    /// seconds.
    fn connect(&self) -> io::Result<Socket> {
        let limit = Duration::from_secs(LIMIT);
        let stream = match self.address {
            Address::Ip(address) => TcpStream::connect_timeout(self.rt, address, limit)?,
            Address::Host(name) => self.connect_to_host(name.as_str(), limit)?,
            Address::Unix(path) => TcpStream::from(unix::connect(self.rt, path.as_str())?),
        };
        // A socket file's connection has no such setting, and no need of it.
        let _ = stream.set_nodelay(true);
        let mut socket = Socket::new(stream, Some(limit));
        if let Some(line) = self.greeting
            && greet(&mut socket, line).is_err()
        {
            return Err(Error::new(ErrorKind::ConnectionAborted, UNGREETED));
        }
        Ok(socket)
    }

    /// Looks the host's name of `name` up, and tries each of its addresses in turn, for the same share of `limit`. Fails as the last of them.
    fn connect_to_host(&self, name: &str, limit: Duration) -> io::Result<TcpStream> {
        let addresses = name.to_socket_addrs(self.rt)?;
        let share = limit / addresses.len().max(1) as u32;
        let mut failure = Error::new(ErrorKind::NotFound, "the host's name has no address");
        for address in addresses {
            match TcpStream::connect_timeout(self.rt, &address, share) {
                Ok(stream) => return Ok(stream),
                Err(error) => failure = error,
            }
        }
        Err(failure)
    }
}

/// Sends `line`, and reads the line that answers it, whatever that says.
fn greet<L: Link>(link: &mut L, line: &[u8]) -> Result<(), Failed>
    ensures { OnOk result (Appends (L.written link.old) (L.written link.new) line.now) }
{
    write_all(link, line)?;
    skip_line(link)
}

/// Reads a line, and no byte after it. Fails if it is longer than 4,096 bytes, or doesn't end.
fn skip_line<L: Link>(link: &mut L) -> Result<(), Failed>
    ensures { L.written link.new ≡ L.written link.old }
{
    let mut byte = [0];
    for _ in 0..ANSWER {
        if link.read(&mut byte)? == 0 {
            return Err(Failed);
        }
        if byte[0] == b'\n' {
            return Ok(());
        }
    }
    Err(Failed)
}

impl<R: Net<Listener = TcpListener, Stream = TcpStream> + Clock> Connector<'_, R> {
    /// Makes a further connection: pauses and tries, again and again, and returns `None` once `retry` has gone by.
    fn connect_again(&mut self) -> Option<Socket> {
        let start = Instant::now(self.rt).ok()?;
        for _ in 0..u64::MAX {
            if start.elapsed(self.rt).ok()? >= self.retry {
                return None;
            }
            thread::sleep(self.rt, Duration::from_millis(PAUSE));
            if let Some(socket) = self.attempt() {
                return Some(socket);
            }
        }
        None
    }
}

impl<R: Net<Listener = TcpListener, Stream = TcpStream> + Clock> Source for Connector<'_, R> {
    type Peer = Socket;

    /// Tries the first connection once, and each later one until `retry` has gone by, with a pause before each attempt.
    fn next(&mut self) -> Option<Socket> {
        if self.made {
            return self.connect_again();
        }
        let socket = self.attempt()?;
        self.made = true;
        Some(socket)
    }
}
