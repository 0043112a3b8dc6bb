//! Connections by TCP or a socket file as links.
ghost use Rattle.std.specs.Prelude.{◌≡◌, is_err};

use crate::stream;
use crate::stream::Stream;
use libc::EINTR;
use libc::net::POLLRDHUP;
use libc::types::pollfd;
use ll_device::{Failed, Link, TryLink, Writer};
use std::io;
use std::io::IoSlice;
use std::net::TcpStream;
use std::os::fd::{AsRawFd, RawFd};
use std::time::Duration;

/// How long a write waits at most, in milliseconds.
const LIMIT: i32 = 30_000;

/// The limit of a wait that lasts forever.
const ENDLESS: i32 = -1;

/// A connection by TCP or a socket file: std's `TcpStream` reads and writes either alike. Once a read or a write has failed, each read returns the end, and each write takes all bytes without sending them.
/// Its contracts don't say which bytes come and go, because those of std's `TcpStream` don't; the functions of `stream.rt`, by which it
/// reads and writes, say it of any stream.
#[derive(Drop)]
pub struct Socket {
    stream: TcpStream,
    /// How long a read waits at most, in milliseconds, or -1: forever.
    patience: i32,
    failed: bool,
}

impl Socket {
    /// Returns a connection whose reads fail if nothing comes within `patience`, or wait forever.
    pub(crate) fn new(stream: TcpStream, patience: Option<Duration>) -> Socket {
        let _ = stream.set_nonblocking(true);
        let patience = match patience {
            Some(time) => i32::try_from(time.as_millis()).unwrap_or(i32::MAX),
            None => ENDLESS,
        };
        Socket {
            stream,
            patience,
            failed: false,
        }
    }

    /// Keeps whether `call`, a use of its stream, has failed, and returns it.
    fn used<T>(&mut self, call: Result<T, Failed>) -> Result<T, Failed>
        ensures value { result ≡ call }
        ensures failed { self.new.failed ≡ is_err call }
    {
        self.failed = call.is_err();
        call
    }
}

impl Stream for TcpStream {
    fn write_both(&mut self, first: &[u8], second: &[u8]) -> io::Result<usize> {
        let both = [IoSlice::new(first), IoSlice::new(second)];
        self.write_vectored(&both)
    }

    /// Returns whether the system reports one of `events` within `limit` milliseconds; -1 waits forever. If a signal interrupts the wait, it
    /// begins anew.
    fn is_told(&self, events: i16, limit: i32) -> bool {
        let mut asked = [pollfd {
            fd: self.as_raw_fd(),
            events,
            revents: 0,
        }];
        for _ in 0..u64::MAX {
            let told = libc::net::poll(&mut asked, limit);
            if told >= 0 || os::errno() != EINTR {
                return told > 0;
            }
        }
        false
    }
}

impl Writer for Socket {
    ghost use Rattle.std.specs.Prelude.{None, if◌then◌else◌};

    ghost written = { λ s. None };

    ghost failures = { λ s. if s.failed then 1 else 0 };

    fn write(&mut self, text: &[u8]) -> Result<usize, Failed> {
        if self.failed {
            return Ok(text.len());
        }
        let call = stream::write(&mut self.stream, text, LIMIT);
        self.used(call)
    }

    fn write_two(&mut self, first: &[u8], second: &[u8]) -> Result<usize, Failed> {
        if self.failed {
            return Ok(first.len() + second.len());
        }
        let call = stream::write_two(&mut self.stream, first, second, LIMIT);
        self.used(call)
    }
}

impl Link for Socket {
    fn read(&mut self, buf: &mut [u8]) -> Result<usize, Failed> {
        if self.failed {
            return Ok(0);
        }
        let call = stream::read(&mut self.stream, buf, self.patience);
        self.used(call)
    }

    /// Returns whether the peer has ended what it sends, even if bytes that it sent before weren't read, or whether the connection is
    /// broken.
    fn gone(&mut self) -> bool {
        self.failed || self.stream.is_told(POLLRDHUP, 0)
    }
}

impl TryLink for Socket {
    fn descriptor(&self) -> RawFd {
        self.stream.as_raw_fd()
    }

    fn try_read(&mut self, buf: &mut [u8]) -> Result<Option<usize>, Failed> {
        if self.failed {
            return Ok(Some(0));
        }
        let call = stream::receive(&mut self.stream, buf);
        self.used(call)
    }

    fn try_write(&mut self, text: &[u8]) -> Result<Option<usize>, Failed> {
        if self.failed {
            return Ok(Some(text.len()));
        }
        let call = stream::send(&mut self.stream, text);
        self.used(call)
    }

    fn try_write_two(&mut self, first: &[u8], second: &[u8]) -> Result<Option<usize>, Failed> {
        if self.failed {
            return Ok(Some(first.len() + second.len()));
        }
        let call = stream::send_two(&mut self.stream, first, second);
        self.used(call)
    }
}
