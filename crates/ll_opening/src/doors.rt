//! Where those connect whom a server serves, and who of them may publish.
use crate::status::{open_status, say_status};
use crate::stop::{Stop, listening};
use ll_config::Door;
use ll_device::Role;
use ll_door::Digest;
use ll_socket::{BindAddress, Listener};
use ll_status::StatusPort;
use std::alloc::Global;
use std::io;
use std::net::{Net, SocketAddr, TcpListener, TcpStream};
use std::rt::Files;
use std::time::Duration;

/// Whom the players' port is for, in messages.
const PLAYERS: &str = "players";

/// How long a player may be idle before its connection is closed, in seconds.
pub const IDLE: u64 = 30;

/// Where players, publishers and those who watch the server connect, and who may publish.
#[derive(Drop)]
pub struct Doors {
    pub players: SocketAddr,
    pub publishers: Door,
    /// How long a publisher may send nothing before its connection is closed, in seconds; without it forever.
    pub idle: Option<u64>,
    /// The status port.
    pub status: Option<SocketAddr>,
    /// The digest of each channel's secret, if it has one.
    pub secrets: Vec<Option<Digest>>,
}

/// The ports of players, of publishers and of those who watch the server.
#[derive(Drop)]
pub struct Listeners<'a, R> {
    pub players: Listener<'a, R>,
    pub publishers: Listener<'a, R>,
    pub status: Option<StatusPort<'a, R>>,
}

impl<R: Net<Listener = TcpListener, Stream = TcpStream> + Eprint> Listeners<'_, R> {
    /// Says on standard error where the ports are.
    fn say(&self, rt: &R) -> io::Result<()> {
        let (players, publishers) = (self.players.place()?, self.publishers.place()?);
        let _ = eprintln!(rt; "llhls: players on {players}");
        let _ = eprintln!(rt; "llhls: publishers on {publishers}");
        say_status(rt, &self.status);
        Ok(())
    }
}

impl Doors {
    /// Listens at all of these, and says on standard error where. Publishers are the last, since their socket file would be left if another
    /// port failed after it.
    pub fn open<'a, R: Net<Listener = TcpListener, Stream = TcpStream> + Files + Eprint>(
        &self,
        rt: &'a R,
        alloc: Global,
    ) -> Result<Listeners<'a, R>, Stop> {
        let listeners = Listeners {
            players: self.listen_to_players(rt, alloc)?,
            status: open_status(rt, alloc, self.status)?,
            publishers: self.listen_to_publishers(rt, alloc)?,
        };
        listening(alloc, listeners.say(rt), self.players, PLAYERS)?;
        Ok(listeners)
    }

    /// Listens for players.
    fn listen_to_players<'a, R: Net<Listener = TcpListener, Stream = TcpStream>>(
        &self,
        rt: &'a R,
        alloc: Global,
    ) -> Result<Listener<'a, R>, Stop> {
        let patience = Some(Duration::from_secs(IDLE));
        let done = Listener::open(rt, self.players, Role::Player, patience);
        listening(alloc, done, self.players, PLAYERS)
    }

    /// Listens for publishers.
    fn listen_to_publishers<'a, R: Net<Listener = TcpListener, Stream = TcpStream> + Files>(
        &self,
        rt: &'a R,
        alloc: Global,
    ) -> Result<Listener<'a, R>, Stop> {
        let patience = self.idle.map(Duration::from_secs);
        let (done, place) = match &self.publishers {
            Door::Ip(address) => (
                Listener::open(rt, *address, Role::Publisher, patience),
                BindAddress::Ip(*address),
            ),
            Door::Unix(path) => (
                Listener::open_unix(rt, alloc, path.as_str(), patience),
                BindAddress::Unix(path.as_str()),
            ),
        };
        listening(alloc, done, place, "publishers")
    }
}
