//! How held requests end, each with its line.
ghost use Rattle.std.specs.Prelude.{◌≡◌, ◌++◌, ◌∷◌, [], List, false, true};
ghost use Rattle.ll_record.specs.Recording.{GoesOn, IsRecorded};
ghost use Rattle.ll_room.specs.Answers as answers;
ghost use Rattle.ll_room.specs.RoomValue.{less, tickets};
ghost use Rattle.ll_verdict.specs.Events.{Event, Close, Collect};

use crate::recorder::Recorder;
use ll_entry::{close_line, collect_line};
use ll_room::{Closed, Collected, Parked};

impl Recorder {
    /// Hands out the reply to a held request, as [`ll_room::Room::collect`] does. It takes no memory.
    pub fn collect(&mut self, parked: Parked) -> Collected
        ensures answer { result ≡ answers.collected self.old.room parked }
        ensures handed { answers.is_got result ≡ true → (events : List Event) → IsRecorded self.old events
            → IsRecorded self.new (events ++ Collect parked.ticket ∷ []) }
        ensures fewer { answers.is_got result ≡ true → tickets self.new.room ≡ less parked.ticket (tickets self.old.room) }
        ensures goes_on { GoesOn self.old self.new }
        ensures nothing { answers.is_got result ≡ false → self.new ≡ self.old }
    {
        let Recorder {
            alloc: _,
            room,
            lines,
            at: _,
            calls: _,
        } = self;
        // Serves the proof alone.
        room.settings().within_limits();
        let ticket = parked.ticket();
        let reply = match room.collect(parked) {
            Collected::Got(reply) => reply,
            Collected::Still(parked) => return Collected::Still(parked),
            Collected::Stranger(parked) => return Collected::Stranger(parked),
        };
        lines.put(collect_line(ticket, reply.get().outcome()).as_str());
        Collected::Got(reply)
    }

    /// Closes a held request, as [`ll_room::Room::close`] does. It takes no memory.
    pub fn close(&mut self, parked: Parked) -> Closed
        ensures answer { result ≡ answers.closed self.old.room parked }
        ensures given_up { answers.is_done result ≡ true → (events : List Event) → IsRecorded self.old events
            → IsRecorded self.new (events ++ Close parked.ticket ∷ []) }
        ensures fewer { answers.is_done result ≡ true → tickets self.new.room ≡ less parked.ticket (tickets self.old.room) }
        ensures goes_on { GoesOn self.old self.new }
        ensures nothing { answers.is_done result ≡ false → self.new ≡ self.old }
    {
        let Recorder {
            alloc: _,
            room,
            lines,
            at: _,
            calls: _,
        } = self;
        // Serves the proof alone.
        room.settings().within_limits();
        let ticket = parked.ticket();
        match room.close(parked) {
            Closed::Done => {}
            Closed::Stranger(parked) => return Closed::Stranger(parked),
        }
        lines.put(close_line(ticket).as_str());
        Closed::Done
    }
}
