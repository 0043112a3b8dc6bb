//! The lines that a server writes to its log: what becomes of publishers' connections, and the numbers of its channels.
use crate::server::Server;
use ll_notes::{Notes, time_of_day};
use std::sync::Wait;
use std::thread;
use std::time::{Clock, Duration};

/// The time between two looks at what was noted of publishers, in milliseconds.
const PAUSE: u64 = 250;

/// The number of looks after which the numbers of the channels are written: every minute.
const LOOKS: u64 = 240;

impl<R: Clock + Eprint + Wait> Server<'_, R> {
    /// Writes the log, if it is kept, again and again.
    pub(crate) fn keep_log(&self) {
        let Some(notes) = &self.notes else {
            return;
        };
        for _ in self.rt.forever() {
            self.write_notes(notes);
            self.write_numbers();
        }
    }

    /// Writes the lines of `notes`, as often as that is done between two lines of numbers.
    fn write_notes(&self, notes: &Notes<'_, R>) {
        for _ in 0..LOOKS {
            thread::sleep(self.rt, Duration::from_millis(PAUSE));
            let lines = notes.lines(self.alloc);
            if !lines.is_empty() {
                self.log.add(lines.as_str());
            }
        }
    }

    /// Writes the numbers of all channels. Leaves them out if out of memory, or if the clock can't be read.
    fn write_numbers(&self) {
        let Some(time) = time_of_day(self.rt) else {
            return;
        };
        if let Ok(lines) = self.numbers.lines(self.alloc, time) {
            self.log.add(lines.as_str());
        }
    }
}
