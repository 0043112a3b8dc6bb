//! The notes of publishers' connections that the log hasn't got yet.
use crate::note::{Note, Noted};
use crate::remote::Remote;
use ll_attr::Text;
use ll_format::UtcTime;
use ll_settings::Settings;
use std::alloc::{AllocError, Global};
use std::collections::VecDeque;
use std::sync::atomic::{AtomicU64, Ordering};
use std::sync::{Mutex, Wait};
use std::time::{Clock, SystemTime, UNIX_EPOCH};

/// The most notes of one second.
const EACH: u64 = 10;

/// The most notes that wait.
const MOST: usize = 1_000;

/// Returns the time of day, or `None` if the clock can't be read.
pub fn time_of_day<R: Clock>(rt: &R) -> Option<UtcTime> {
    UtcTime::at(millis(rt)?)
}

/// Returns the milliseconds since 1970-01-01T00:00:00Z, or `None` if the clock can't be read.
fn millis<R: Clock>(rt: &R) -> Option<u64> {
    let now = SystemTime::now(rt).ok()?;
    let since = now.duration_since(UNIX_EPOCH).ok()?;
    u64::try_from(since.as_millis()).ok()
}

/// What lies under the lock of [`Notes`]: the notes that wait, the first at the front.
#[derive(Drop)]
struct Waiting {
    notes: VecDeque<Note>,
    /// The second of the last note, counted from 1970 on.
    second: u64,
    /// The number of notes of that second.
    count: u64,
    /// The number of notes that were left out, and of which no note says it.
    left_out: u64,
}

impl Waiting {
    /// Begins the second of `ms`, in milliseconds since 1970, if it is another one. If notes were left out, notes how many.
    fn begin(&mut self, ms: u64) {
        if self.second == ms / 1_000 {
            return;
        }
        self.second = ms / 1_000;
        self.count = 0;
        let Some(time) = UtcTime::at(ms) else {
            return;
        };
        if self.left_out > 0 && self.put(Note::LeftOut(time, self.left_out)) {
            self.left_out = 0;
        }
    }

    /// Adds `note` as the last, unless its second has as many as are allowed, or too many wait. Returns whether it did.
    fn put(&mut self, note: Note) -> bool {
        let is_full = self.count >= EACH || self.notes.len() >= MOST;
        if is_full || self.notes.push_back(note).is_err() {
            return false;
        }
        self.count = self.count.saturating_add(1);
        true
    }

    /// Counts `note` as left out.
    fn leave_out(&mut self, note: &Note) {
        self.left_out = self.left_out.saturating_add(note.count());
    }
}

/// The notes of publishers' connections that the log hasn't got yet. Connections add to them, and one thread takes them: their lock is held
/// for one of these steps at a time, so no connection waits for the log's file.
#[derive(Drop)]
pub struct Notes<'a, R> {
    rt: &'a R,
    /// The names of the channels, in their order.
    channels: Vec<Text>,
    /// The number of publishers' connections since the server's start.
    joined: AtomicU64,
    waiting: Mutex<Waiting>,
}

impl<'a, R> Notes<'a, R> {
    /// Returns no notes of connections to `channels`, with memory for all that can wait.
    pub fn new(
        rt: &'a R,
        alloc: Global,
        channels: &[Settings],
    ) -> Result<Notes<'a, R>, AllocError> {
        let mut names = Vec::with_capacity(alloc, channels.len())?;
        for settings in channels {
            names.push(Text::from_str(alloc, settings.channel())?)?;
        }
        let waiting = Waiting {
            notes: VecDeque::with_capacity(alloc, MOST)?,
            second: 0,
            count: 0,
            left_out: 0,
        };
        Ok(Notes {
            rt,
            channels: names,
            joined: AtomicU64::new(0),
            waiting: Mutex::new(waiting),
        })
    }

    /// Returns the number of a further connection, from 1.
    pub(crate) fn next_number(&self) -> u64 {
        self.joined.fetch_add(1, Ordering::SeqCst).saturating_add(1)
    }

    /// Returns the line of `note`.
    fn line_of(&self, alloc: Global, note: &Note) -> Result<String, AllocError> {
        let channel = note.channel().and_then(|place| self.channels.get(place));
        note.line(alloc, channel.map_or("-", |name| name.as_str()))
    }
}

impl<R: Clock + Wait> Notes<'_, R> {
    /// Adds `noted` of the connection with the number `number`, which comes from `remote`, or counts it as left out. Adds nothing while the
    /// clock can't be read.
    // The clock is read under the lock, so that notes are in the order of their times.
    pub(crate) fn add(&self, number: u64, remote: Remote, noted: Noted) {
        let mut waiting = self.waiting.lock(self.rt);
        let waiting = &mut *waiting;
        let Some(ms) = millis(self.rt) else {
            return;
        };
        let Some(time) = UtcTime::at(ms) else {
            return;
        };
        waiting.begin(ms);
        let note = Note::Of(time, number, remote, noted);
        if !waiting.put(note) {
            waiting.leave_out(&note);
        }
    }

    /// Takes the first note, or returns `None` if there is none.
    fn take(&self) -> Option<Note> {
        let mut waiting = self.waiting.lock(self.rt);
        let waiting = &mut *waiting;
        if let Some(ms) = millis(self.rt) {
            waiting.begin(ms);
        }
        waiting.notes.pop_front()
    }

    /// Takes the notes that wait, and returns their lines. One for which there is no memory is counted as left out.
    pub fn lines(&self, alloc: Global) -> String {
        let mut text = String::new(alloc);
        for _ in 0..MOST {
            let Some(note) = self.take() else {
                return text;
            };
            let added = match self.line_of(alloc, &note) {
                Ok(line) => text.push_str(line.as_str()),
                Err(AllocError) => Err(AllocError),
            };
            if added.is_err() {
                self.waiting.lock(self.rt).leave_out(&note);
                return text;
            }
        }
        text
    }
}
