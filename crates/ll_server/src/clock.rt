//! What a server does as time goes by: it passes the channels the time, and hands out their records.
use crate::server::{Server, Serving};
use ll_config::CHANNELS;
use ll_hub::{Clock, HubFault, Ledgers};
use std::sync::Wait;
use std::time::Duration;
use std::{thread, time};

/// The time between two readings of the clock that the channels take, in milliseconds.
const TICK: u64 = 250;

/// The number of readings after which the records are handed out, if they are kept: every 10 seconds. What wasn't handed out when the
/// server stops is lost.
const TICKS: u64 = 40;

impl<R: Eprint + time::Clock + Wait> Server<'_, R> {
    /// Passes the channels the time, again and again. Hands out their records now and then, if these are kept.
    pub(crate) fn keep_time<L: Ledgers>(&self, service: &Serving<'_, '_, L, R>) {
        for _ in self.rt.forever() {
            self.tick(service);
            self.hand_out(service);
        }
    }

    /// Passes the channels the time as often as that is done between two hand-outs of the records.
    fn tick<L: Ledgers>(&self, service: &Serving<'_, '_, L, R>) {
        for _ in 0..TICKS {
            self.tell(service);
            thread::sleep(self.rt, Duration::from_millis(TICK));
        }
    }

    /// Passes the channels the time once. If one refuses it, because its record is full or it is out of memory, hands out its record and
    /// passes it the time again; if it refuses again, goes on with those after it.
    fn tell<L: Ledgers>(&self, service: &Serving<'_, '_, L, R>) {
        let (hub, ms) = (service.hub, self.watch.now());
        let (mut bell, mut past) = (*service.bell, hub.past());
        let (mut first, mut again) = (0, None);
        for _ in 0..2 * CHANNELS {
            let told = hub.tick_from(self.rt, &mut bell, &mut past, first, ms);
            let Err(HubFault::Room { channel, .. }) = told else {
                return;
            };
            let mut sink = *service.sink;
            let is_first = again != Some(channel);
            if is_first
                && hub
                    .rotate_to(self.rt, &mut past, channel, &mut sink)
                    .is_ok()
            {
                again = Some(channel);
                first = channel;
            } else {
                first = channel.saturating_add(1);
            }
        }
    }

    /// Hands out the record of each channel, if records are kept.
    fn hand_out<L: Ledgers>(&self, service: &Serving<'_, '_, L, R>) {
        let mut past = service.hub.past();
        for channel in 0..self.records.len() {
            let mut sink = *service.sink;
            let _ = service
                .hub
                .rotate_to(self.rt, &mut past, channel, &mut sink);
        }
    }
}
