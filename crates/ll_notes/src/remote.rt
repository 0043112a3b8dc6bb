//! Where connections come from.
use libc::net::{AF_INET, AF_INET6, AF_UNIX};
use ll_device::TryLink;
use ll_socket::Socket;
use std::fmt;
use std::net::{Ipv4Addr, Ipv6Addr, SocketAddr, SocketAddrV4, SocketAddrV6};

/// The length of the system's form of an address, in bytes.
const LENGTH: usize = 128;

/// Where a connection comes from.
#[derive(Clone, Copy)]
pub enum Remote {
    /// An IP address and a port.
    Ip(SocketAddr),
    /// A socket file of this machine.
    Unix,
    /// The system doesn't say it.
    Unknown,
}

impl fmt::Display for Remote {
    fn fmt<W: fmt::Write>(&self, f: &mut fmt::Formatter<W>) -> fmt::Result {
        match self {
            Remote::Ip(address) => write!(f, "{address}"),
            Remote::Unix => f.write_str("unix"),
            Remote::Unknown => f.write_str("-"),
        }
    }
}

/// A connection that may know where it comes from.
pub trait Addressed {
    /// Returns where it comes from.
    fn remote(&self) -> Remote {
        Remote::Unknown
    }
}

impl Addressed for Socket {
    fn remote(&self) -> Remote {
        let mut bytes = [0; LENGTH];
        let mut length = LENGTH as u32;
        let status = unsafe { libc::net::getpeername(self.descriptor(), &mut bytes, &mut length) };
        if status < 0 {
            return Remote::Unknown;
        }
        remote_in(&bytes)
    }
}

/// Returns the address in `bytes`, which are a `sockaddr_in`, a `sockaddr_in6` or any other `sockaddr`.
fn remote_in(bytes: &[u8; LENGTH]) -> Remote {
    let family = i32::from(u16::from_ne_bytes([bytes[0], bytes[1]]));
    let port = u16::from_be_bytes([bytes[2], bytes[3]]);
    if family == AF_UNIX {
        Remote::Unix
    } else if family == AF_INET {
        let ip = Ipv4Addr::new(bytes[4], bytes[5], bytes[6], bytes[7]);
        Remote::Ip(SocketAddr::V4(SocketAddrV4::new(ip, port)))
    } else if family == AF_INET6 {
        Remote::Ip(SocketAddr::V6(address_in(bytes, port)))
    } else {
        Remote::Unknown
    }
}

/// Returns the IPv6 address in `bytes`, which are a `sockaddr_in6`, with this `port`.
fn address_in(bytes: &[u8; LENGTH], port: u16) -> SocketAddrV6 {
    let mut octets = [0; 16];
    octets.copy_from_slice(&bytes[8..24]);
    let scope = u32::from_ne_bytes([bytes[24], bytes[25], bytes[26], bytes[27]]);
    SocketAddrV6::new(Ipv6Addr::from_octets(octets), port, 0, scope)
}
