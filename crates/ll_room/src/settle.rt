//! How held requests end: their replies are collected, they are closed, or they time out.
ghost use Rattle.std.specs.Prelude.{◌≡◌, ◌≢◌, ◌≤◌, ◌<◌, ◌^◌, ◌++◌, ◌∷◌, [], List, true, false, IsErrOf, OnOk, OnErr, Err, Some, None};
ghost use Rattle.ll_verdict.specs.Events.{Event, Collect, Close, Clock};
ghost use Rattle.ll_room.specs.Answers as answers;
ghost use Rattle.ll_verdict.specs.Full.{event_end};
ghost use Rattle.ll_room.specs.RoomValue.{IsSame, Stands, less, tickets};

use crate::asked::{Closed, Collected};
use crate::parked::Parked;
use crate::room::{EVENT_END, Room};
use crate::stamped::{Stamp, Stamped};
use ll_verdict::{ClockFault, LAST_TIME, Reply};

impl Room {
    /// Hands out the reply to a held request, which is then no longer open. If it has no reply yet, or isn't open here, `parked` is handed back. It
    /// takes no memory.
    pub fn collect(&mut self, parked: Parked) -> Collected
        ensures answer { result ≡ answers.collected self.old parked }
        ensures handed { answers.is_got result ≡ true → (events : List Event) → Stands self.old events → Stands self.new (events ++ Collect parked.ticket ∷ []) }
        ensures fewer { answers.is_got result ≡ true → tickets self.new ≡ less parked.ticket (tickets self.old) }
        ensures same { IsSame self.old self.new }
        ensures nothing { answers.is_got result ≡ false → self.new ≡ self.old }
    {
        let ticket = parked.ticket();
        if parked.channel() != self.channel {
            return Collected::Stranger(parked);
        }
        if let Some(settled) = self.book.take(ticket) {
            parked.spend();
            self.events += 1;
            return Collected::Got(Stamped::new(
                self.channel,
                Stamp::Collect(ticket),
                Reply::from(settled),
            ));
        }
        match self.book.find(ticket) {
            Some(_) => Collected::Still(parked),
            None => Collected::Stranger(parked),
        }
    }

    /// Closes a held request, whether its reply is there or not: it gets none. If it isn't open here, `parked` is handed back. It takes no memory.
    pub fn close(&mut self, parked: Parked) -> Closed
        ensures answer { result ≡ answers.closed self.old parked }
        ensures given_up { answers.is_done result ≡ true → (events : List Event) → Stands self.old events → Stands self.new (events ++ Close parked.ticket ∷ []) }
        ensures fewer { answers.is_done result ≡ true → tickets self.new ≡ less parked.ticket (tickets self.old) }
        ensures same { IsSame self.old self.new }
        ensures nothing { answers.is_done result ≡ false → self.new ≡ self.old }
    {
        let ticket = parked.ticket();
        if parked.channel() != self.channel {
            return Closed::Stranger(parked);
        }
        if self.book.find(ticket).is_none() {
            return Closed::Stranger(parked);
        }
        self.book.drop_ticket(ticket);
        self.events += 1;
        parked.spend();
        Closed::Done
    }

    /// Takes a reading of the clock, `ms`, in milliseconds. The channel's time is the largest so far: a smaller reading leaves it as it is. Requests
    /// that have waited for three target durations then time out. Fails with `ClockRange` if `ms` is above 2^60, else with `RecordFull` if the
    /// channel has taken 2^60 events, and never with `Memory`.
    pub fn clock(&mut self, ms: u64) -> Result<(), ClockFault>
        ensures passed { (events : List Event) → Stands self.old events → OnOk result (Stands self.new (events ++ Clock ms ∷ [])) }
        ensures within { OnOk result ((ms ≤ 2 ^ 60) × (self.old.events < event_end)) }
        ensures range { IsErrOf result ClockFault.ClockRange → 2 ^ 60 < ms }
        ensures full { IsErrOf result ClockFault.RecordFull → (ms ≤ 2 ^ 60) × (event_end ≤ self.old.events) }
        ensures memory { result ≢ Err ClockFault.Memory }
        ensures still_open { tickets self.new ≡ tickets self.old }
        ensures same { IsSame self.old self.new }
        ensures unchanged { OnErr result (self.new ≡ self.old) }
    {
        if ms > LAST_TIME {
            return Err(ClockFault::ClockRange);
        }
        if self.events >= EVENT_END {
            return Err(ClockFault::RecordFull);
        }
        let now = self.time.max(ms);
        self.time = now;
        self.book.expire(now);
        self.events += 1;
        Ok(())
    }
}
