//! All connections of a script, by number.
ghost use Rattle.std.specs.Prelude.{List, ◌≡◌, ◌++◌, ◌==◌, [], None, Some, IfOk, OnOk, if◌then◌else◌};
ghost use Rattle.std.specs.Map.{set_value};
ghost use Rattle.ll_script_rooms.specs.Kept.{kept_world};
ghost use Rattle.ll_script_rooms.specs.World.{World, all_settings};
ghost use Rattle.ll_connection.specs.Turn as turn;
ghost use Rattle.ll_connection.specs.Visit.{Luck};
ghost use Rattle.ll_connection.specs.Stands.{IsTurn, open_in, opened};

use crate::open::Open;
use crate::sent::Sent;
use indexmap::IndexMap;
use ll_script::push_shut;
use ll_script_rooms::{Owner, Rooms};
use ll_session::Session;
use ll_settings::Channels;
use ll_verdict::Reply;
use std::alloc::{AllocError, AllocFailed, Global};
use std::marker::Model;

/// The connections of a script by number, in order of opening; of one that has ended, the number alone. It must be consumed by
/// [`Connections::finish`].
pub struct Connections {
    alloc: Global,
    sessions: IndexMap<u64, Option<Session>>,
}

impl Model for Connections {
    ghost use Rattle.ll_connection.specs.Turn as turn;

    ghost Value = { turn.Connections };

    ghost view = { λ c. c.sessions.entries };
}

/// Only an empty collection can be dropped, so forgetting a session in it is a failed proof.
impl Drop for Connections {
    fn drop(self)
        requires { self ≡ [] }
    {
        let Connections { alloc: _, sessions } = self;
        sessions.destroy_empty();
    }
}

impl Connections {
    /// Returns an empty collection.
    pub fn new(alloc: Global) -> Connections
        ensures { result ≡ [] }
    {
        Connections {
            alloc,
            sessions: IndexMap::new(alloc),
        }
    }

    /// Adds the bytes `piece` to connection `number`, which they open if it is new, and hands in its requests, up to one that waits. A
    /// connection that has ended takes no bytes. Returns what is written: the answers, in order, and whether the connection has shut.
    pub fn bytes(
        &mut self,
        rooms: &mut Rooms,
        declared: &Channels,
        number: u64,
        piece: &[u8],
    ) -> Result<Sent, AllocError>
        ensures { (w : World) → rooms.old ≡ kept_world w → declared.now ≡ all_settings w
            → IfOk result (λ sent. (lucks : List Luck) × IsTurn self.new rooms.new sent (turn.bytes lucks number piece.now self.old w)) }
    {
        let Some(session) = self.take_or_open(number) else {
            return Ok(Sent::nothing(self.alloc));
        };
        let mut sent = Sent::nothing(self.alloc);
        let mut open = Open { number, session };
        match open.arrive(rooms, declared, piece, &mut sent) {
            Ok(()) => {}
            Err(AllocError) => return Err(open.fail()),
        }
        let sent = self.put_back(open, sent)?;
        Ok(sent)
    }

    /// Ends connection `number`, and closes its request if one waits. Does nothing if it isn't there or has ended.
    pub fn end(&mut self, rooms: &mut Rooms, number: u64)
        ensures { (w : World) → rooms.old ≡ kept_world w
            → (self.new ≡ (turn.end number self.old w).connections) × (rooms.new ≡ kept_world (turn.end number self.old w).rooms) }
    {
        let Some(session) = self.take(number) else {
            return;
        };
        session.end();
        rooms.close(Owner::Connection(number));
    }

    /// Answers the request of connection `number` that waited with `reply`, and hands in its next requests, up to one that waits. Returns
    /// what is written, which is nothing if the connection isn't there or has ended.
    pub fn reply(
        &mut self,
        rooms: &mut Rooms,
        declared: &Channels,
        number: u64,
        reply: Reply,
    ) -> Result<Sent, AllocError>
        ensures { (w : World) → rooms.old ≡ kept_world w → declared.now ≡ all_settings w
            → IfOk result (λ sent. (lucks : List Luck) × IsTurn self.new rooms.new sent (turn.reply lucks number reply self.old w)) }
    {
        let Some(session) = self.take(number) else {
            return Ok(Sent::nothing(self.alloc));
        };
        let mut sent = Sent::nothing(self.alloc);
        let mut open = Open { number, session };
        match open.release(rooms, declared, reply, &mut sent) {
            Ok(()) => {}
            Err(AllocError) => return Err(open.fail()),
        }
        let sent = self.put_back(open, sent)?;
        Ok(sent)
    }

    /// Ends all connections, and writes nothing. Their requests that wait stay in the rooms.
    pub fn finish(self) {
        let Connections {
            alloc: _,
            mut sessions,
        } = self;
        while let Some((_, slot)) = sessions.pop() {
            spend(slot);
        }
        sessions.destroy_empty();
    }

    /// Takes the session of `number` out, or opens one if the number is new. Returns `None` if it has ended.
    fn take_or_open(&mut self, number: u64) -> Option<Session>
        ensures session { result ≡ opened (turn.session_of number self.old) }
        ensures left { self.new ≡ set_value (λ m. number == m) self.old None }
    {
        if !self.sessions.contains_key(&number) {
            return Some(Session::new(self.alloc));
        }
        self.take(number)
    }

    /// Takes the session of `number` out, if it is open.
    fn take(&mut self, number: u64) -> Option<Session>
        ensures session { result ≡ open_in (turn.session_of number self.old) }
        ensures left { self.new ≡ set_value (λ m. number == m) self.old None }
    {
        self.sessions.get_mut(&number)?.take()
    }

    /// Puts a session without answers back under its number. One that has shut is ended, and that is written.
    fn put_back(&mut self, connection: Open, mut sent: Sent) -> Result<Sent, AllocError>
        ensures kept { OnOk result (self.new ≡ turn.with_session connection.number (if connection.session.shut then None else Some connection.session) self.old) }
        ensures text { IfOk result (λ all. all.text.items ≡ sent.text.items ++ turn.shut_text connection.session.shut connection.number) }
        ensures replies { IfOk result (λ all. all.replies ≡ sent.replies) }
    {
        let Open { number, session } = connection;
        if !session.shut() {
            self.put(number, Some(session))?;
            return Ok(sent);
        }
        session.end();
        self.put(number, None)?;
        push_shut(&mut sent.text, number)?;
        Ok(sent)
    }

    /// Puts `slot` under `number`, in place of what is there.
    fn put(&mut self, number: u64, slot: Option<Session>) -> Result<(), AllocError>
        ensures { OnOk result (self.new ≡ turn.with_session number slot self.old) }
    {
        let old = match self.sessions.insert(number, slot) {
            Ok(old) => old,
            Err(AllocFailed { value: (_, slot) }) => {
                spend(slot);
                return Err(AllocError);
            }
        };
        if let Some(slot) = old {
            spend(slot);
        }
        Ok(())
    }
}

/// Ends the session, if there is one.
fn spend(slot: Option<Session>) {
    if let Some(session) = slot {
        session.end();
    }
}
