//! A listening port or socket file, where connections come in.
use crate::socket::Socket;
use crate::unix;
use libc::net::{SO_KEEPALIVE, SOL_SOCKET};
use ll_attr::Text;
use ll_device::{Role, Source};
use std::alloc::Global;
use std::io::{Error, ErrorKind};
use std::net::{Net, SocketAddr, TcpListener, TcpStream};
use std::os::fd::{AsRawFd, OwnedFd};
use std::os::unix::net::UnixListener;
use std::rt::Files;
use std::time::{Clock, Duration};
use std::{fmt, io, thread};

/// The most connections that wait to be accepted.
const BACKLOG: i32 = 4_096;

/// How long to wait after a connection couldn't be accepted, in milliseconds.
const PAUSE: u64 = 50;

/// Has the system probe, while nothing comes, whether the peer is still there. A failure to set this is ignored.
fn keep_alive(stream: &TcpStream) {
    let on = [1, 0, 0, 0, 0, 0, 0, 0, 0, 0, 0, 0, 0, 0, 0, 0];
    let fd = stream.as_raw_fd();
    let _ = unsafe { libc::net::setsockopt(fd, SOL_SOCKET, SO_KEEPALIVE, &on, 4) };
}

/// What the system takes connections by.
#[derive(Drop)]
enum Port {
    Tcp(TcpListener),
    /// A socket file with its path.
    Unix(UnixListener, Text),
}

/// Where a listener listens.
#[derive(Clone, Copy)]
pub enum BindAddress<'a> {
    /// At an IP address and a port.
    Ip(SocketAddr),
    /// At the socket file of this path.
    Unix(&'a str),
}

impl fmt::Display for BindAddress<'_> {
    fn fmt<W: fmt::Write>(&self, f: &mut fmt::Formatter<W>) -> fmt::Result {
        match self {
            BindAddress::Ip(address) => write!(f, "{address}"),
            BindAddress::Unix(path) => write!(f, "unix:{path}"),
        }
    }
}

/// A listening port, or a socket file, for connections of one role.
#[derive(Drop)]
pub struct Listener<'a, R> {
    rt: &'a R,
    role: Role,
    port: Port,
    /// How long a read of a connection waits at most; without it forever.
    patience: Option<Duration>,
    /// Whether a failure to accept was already reported on stderr.
    told: bool,
}

impl<'a, R: Net<Listener = TcpListener, Stream = TcpStream>> Listener<'a, R> {
    /// Listens at `address` for connections whose reads fail if nothing comes within `patience`, or wait forever. Fails if the system refuses
    /// the address.
    pub fn open(
        rt: &'a R,
        address: SocketAddr,
        role: Role,
        patience: Option<Duration>,
    ) -> io::Result<Listener<'a, R>> {
        let listener = TcpListener::bind(rt, address)?;
        if libc::net::listen(listener.as_raw_fd(), BACKLOG) != 0 {
            return Err(unix::last_error());
        }
        Ok(Listener {
            rt,
            role,
            port: Port::Tcp(listener),
            patience,
            told: false,
        })
    }

    /// Listens at the socket file `path` for publishers' connections whose reads fail if nothing comes within `patience`, or wait forever.
    /// Only the file's owner and group may use it. It replaces a socket file at which nobody listens, and fails at any other file.
    pub fn open_unix(
        rt: &'a R,
        alloc: Global,
        path: &str,
        patience: Option<Duration>,
    ) -> io::Result<Listener<'a, R>>
    where
        R: Files,
    {
        let Ok(text) = Text::from_str(alloc, path) else {
            return Err(Error::from(ErrorKind::OutOfMemory));
        };
        let listener = unix::listen(rt, alloc, path, BACKLOG)?;
        Ok(Listener {
            rt,
            role: Role::Publisher,
            port: Port::Unix(listener, text),
            patience,
            told: false,
        })
    }

    /// Returns the role of those who connect.
    pub fn role(&self) -> Role {
        self.role
    }

    /// Returns where it listens. Fails if the system doesn't return that.
    pub fn place(&self) -> io::Result<BindAddress<'_>> {
        match &self.port {
            Port::Unix(_, path) => Ok(BindAddress::Unix(path.as_str())),
            Port::Tcp(listener) => Ok(BindAddress::Ip(listener.local_addr()?)),
        }
    }

    /// Accepts the next connection. While nothing comes of a publisher, the system probes whether it is still there.
    fn accept(&self) -> io::Result<Socket> {
        let stream = self.port.accept()?;
        if matches!(self.role, Role::Publisher) {
            keep_alive(&stream);
        }
        Ok(Socket::new(stream, self.patience))
    }
}

impl Port {
    /// Accepts the next connection.
    fn accept(&self) -> io::Result<TcpStream> {
        match self {
            Port::Tcp(listener) => {
                let (stream, _) = listener.accept()?;
                let _ = stream.set_nodelay(true);
                Ok(stream)
            }
            Port::Unix(listener, _) => {
                let (stream, _) = listener.accept()?;
                Ok(TcpStream::from(OwnedFd::from(stream)))
            }
        }
    }
}

impl<R: Net<Listener = TcpListener, Stream = TcpStream> + Eprint + Clock> Source
    for Listener<'_, R> {
    type Peer = Socket;

    fn next(&mut self) -> Option<Socket> {
        for _ in 0..u64::MAX {
            match self.accept() {
                Ok(socket) => return Some(socket),
                Err(error) => {
                    if !self.told {
                        self.told = true;
                        let _ = eprintln!(self.rt;
                            "llhls: a connection could not be accepted: {error}"
                        );
                    }
                    thread::sleep(self.rt, Duration::from_millis(PAUSE));
                }
            }
        }
        None
    }
}
