//! Where publishers connect, and addresses in general.
ghost use Rattle.std.specs.Prelude.{◌≡◌, IfOk, option_map};
ghost use Rattle.ll_config.specs.Doors.{door_of};
ghost use Rattle.ll_config.specs.Config as spec;

use ll_attr::{Text, after};
use std::alloc::{AllocError, Global};
use std::net::{SocketAddr, SocketAddrV4, SocketAddrV6};

/// Where publishers connect.
#[derive(Drop)]
pub enum Door {
    /// `ADDRESS:PORT`, or `[ADDRESS]:PORT` if it is an IPv6 address.
    Ip(SocketAddr),
    /// `unix:PATH`: a Unix socket with this path.
    Unix(Text),
}

/// A door whose path stands in its settings file.
#[derive(Clone, Copy)]
pub(crate) enum DoorText<'a> {
    Ip(SocketAddr),
    Unix(&'a str),
}

impl DoorText<'_> {
    /// Returns the door with a path of its own.
    pub(crate) fn door(self, alloc: Global) -> Result<Door, AllocError>
        ensures { IfOk result (λ door. door ≡ door_of self.entry) }
    {
        match self {
            DoorText::Ip(address) => Ok(Door::Ip(address)),
            DoorText::Unix(path) => Ok(Door::Unix(Text::from_str(alloc, path)?)),
        }
    }
}

/// Parses an address and a port.
pub(crate) fn address_in(text: &str) -> Option<SocketAddr>
    ensures { result ≡ spec.address_in text.now }
{
    if let Some(address) = v4_in(text) {
        return Some(SocketAddr::V4(address));
    }
    Some(SocketAddr::V6(v6_in(text)?))
}

/// Parses an IPv4 address and a port.
#[tactic(auto, using(crate::proofs::Addresses::v4_parsed))]
fn v4_in(text: &str) -> Option<SocketAddrV4>
    ensures { result ≡ spec.v4_in text.now }
{
    text.parse::<SocketAddrV4>().ok()
}

/// Parses an IPv6 address in brackets and a port.
#[tactic(auto, using(crate::proofs::Addresses::v6_parsed))]
fn v6_in(text: &str) -> Option<SocketAddrV6>
    ensures { result ≡ spec.v6_in text.now }
{
    text.parse::<SocketAddrV6>().ok()
}

/// Parses the path of a Unix socket after `unix:`, or an address.
pub(crate) fn door_in(text: &str) -> Option<DoorText<'_>>
    ensures { option_map door_of result ≡ spec.door_in text.now }
{
    match after(text, "unix:") {
        Some("") => None,
        Some(path) => Some(DoorText::Unix(path)),
        None => Some(DoorText::Ip(address_in(text)?)),
    }
}
