//! Where an origin listens for publishers.
use ll_attr::{Text, after};
use std::alloc::{AllocError, Global};
use std::fmt;
use std::net::SocketAddr;

/// Where an origin listens for publishers.
#[derive(PartialEq, Eq)]
pub enum Address {
    /// At an IP address and a port.
    Ip(SocketAddr),
    /// At a host's name, a colon and a port.
    Host(Text),
    /// At the socket file of this path.
    Unix(Text),
}

impl Drop for Address {
    fn drop(self) {
        match self {
            Address::Ip(_one) => {}
            Address::Host(_one) => {}
            Address::Unix(_one) => {}
        }
    }
}

impl Address {
    /// Parses `unix:` and a path, or an IP address or a host's name with a colon and a port. Returns `None` for any other text.
    pub fn parse(alloc: Global, text: &str) -> Result<Option<Address>, AllocError> {
        if let Some(path) = after(text, "unix:") {
            return if path.is_empty() {
                Ok(None)
            } else {
                Ok(Some(Address::Unix(Text::from_str(alloc, path)?)))
            };
        }
        if let Ok(address) = text.parse::<SocketAddr>() {
            return Ok(Some(Address::Ip(address)));
        }
        if is_host_and_port(text) {
            Ok(Some(Address::Host(Text::from_str(alloc, text)?)))
        } else {
            Ok(None)
        }
    }
}

impl fmt::Display for Address {
    fn fmt<W: fmt::Write>(&self, f: &mut fmt::Formatter<W>) -> fmt::Result {
        match self {
            Address::Ip(address) => write!(f, "{address}"),
            Address::Host(text) => write!(f, "{text}"),
            Address::Unix(path) => write!(f, "unix:{path}"),
        }
    }
}

/// Returns whether `text` is a host's name, a colon and a port.
fn is_host_and_port(text: &str) -> bool {
    let Some((host, port)) = text.rsplit_once(':') else {
        return false;
    };
    is_name(host) && is_port(port)
}

/// Returns whether `host` is like a host's name: letters, digits, hyphens, points and low lines, one or more. One whose last label has
/// digits alone is none, but an IP address that is wrong.
fn is_name(host: &str) -> bool {
    let last = match host.rsplit_once('.') {
        Some((_, last)) => last,
        None => host,
    };
    host.bytes().all(is_in_name) && last.bytes().any(|byte| !byte.is_ascii_digit())
}

/// Returns whether `byte` is allowed in a host's name.
fn is_in_name(byte: u8) -> bool {
    byte.is_ascii_alphanumeric() || byte == b'-' || byte == b'.' || byte == b'_'
}

/// Returns whether `port` is a decimal number up to 65,535.
fn is_port(port: &str) -> bool {
    port.bytes().all(|byte| byte.is_ascii_digit()) && port.parse::<u16>().is_ok()
}
