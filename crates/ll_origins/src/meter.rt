//! Shows on standard error what was published.
use ll_announce::{Said, Standing};
use ll_push::Watch;
use std::time::{Clock, Duration, Instant, SystemTime, UNIX_EPOCH};

/// What was published so far, and when that was last shown.
#[derive(Drop)]
pub struct Meter<'a, R> {
    rt: &'a R,
    /// Whether it is shown.
    shown: bool,
    parts: u64,
    segments: u64,
    /// The total duration of the parts, in microseconds.
    micros: u64,
    /// The rendition's time after what was accepted last, in microseconds since 1970, once it is known.
    time: Option<u64>,
    /// The number of bytes since it was last shown.
    bytes: u64,
    /// When it was last shown; at first when it began.
    last: Option<Instant>,
    /// Whether the cursor stands at the end of what was shown.
    after: bool,
    /// Whether it was said that an item couldn't be kept.
    unkept: bool,
}

impl<'a, R: Eprint + Clock> Meter<'a, R> {
    /// Returns a meter of a stream of which nothing was published yet.
    pub fn new(rt: &'a R, shown: bool) -> Meter<'a, R> {
        Meter {
            rt,
            shown,
            parts: 0,
            segments: 0,
            micros: 0,
            time: None,
            bytes: 0,
            last: Instant::now(rt).ok(),
            after: false,
            unkept: false,
        }
    }

    /// Counts what a message announces.
    fn count(&mut self, said: Said) {
        match said {
            Said::Part { duration, finishes } => {
                self.parts = self.parts.saturating_add(1);
                self.segments = self.segments.saturating_add(u64::from(finishes));
                self.micros = self.micros.saturating_add(duration);
                self.time = self.time.map(|time| time.saturating_add(duration));
            }
            Said::Finish => self.segments = self.segments.saturating_add(1),
            Said::Break { time: Some(ms) } => self.time = Some(ms.saturating_mul(1_000)),
            Said::Init | Said::Break { time: None } | Said::End => {}
        }
    }

    /// Counts a message of `bytes` bytes that announces `said`, and shows what was published, if it is shown and a second has gone by since it
    /// last was. Returns whether it was shown.
    pub(crate) fn add(&mut self, said: Said, bytes: usize) -> bool {
        self.bytes = self.bytes.saturating_add(bytes as u64);
        self.count(said);
        let Some(last) = self.last else { return false };
        match last.elapsed(self.rt) {
            Ok(time) if self.shown && time >= Duration::from_secs(1) => {
                self.show(time);
                true
            }
            _ => false,
        }
    }

    /// Shows what was published, and the rate in the `time` since that was last shown.
    fn show(&mut self, time: Duration) {
        let rate = u128::from(self.bytes) / time.as_millis().max(1);
        let (seconds, millis) = (self.micros / 1_000_000, self.micros / 1_000 % 1_000);
        let delay = self.delay();
        let (late, part) = (delay / 1_000, delay % 1_000);
        let _ = eprint!(self.rt;
            "\rllhls: {} parts, {} segments, {seconds}.{millis:03} s, {rate} kB/s, {late}.{part:03} s behind  ",
            self.parts, self.segments
        );
        self.after = true;
        self.bytes = 0;
        self.last = Instant::now(self.rt).ok();
    }

    /// Returns how many milliseconds ago the last part that was accepted ended, by its program time, or 0 if that lies ahead.
    fn delay(&self) -> u64 {
        let Some(time) = self.time else { return 0 };
        millis(self.rt).unwrap_or(0).saturating_sub(time / 1_000)
    }

    /// Ends the line that was shown, if there is one, so that what follows has a line of its own.
    pub fn end_line(&mut self) {
        if self.after {
            self.after = false;
            let _ = eprintln!(self.rt;);
        }
    }
}

/// Returns the milliseconds since 1970, or `None` if the clock can't be read.
pub fn millis<R: Clock>(rt: &R) -> Option<u64> {
    let since = SystemTime::now(rt).ok()?.duration_since(UNIX_EPOCH).ok()?;
    u64::try_from(since.as_millis()).ok()
}

impl<R: Eprint + Clock> Watch for Meter<'_, R> {
    fn stands(&mut self, standing: &Standing) {
        if self.time.is_none() {
            self.time = Some(standing.time.saturating_mul(1_000));
        }
    }

    fn not_kept(&mut self) {
        if !self.unkept {
            self.unkept = true;
            self.end_line();
            let _ = eprintln!(self.rt;
                "llhls: the origin has accepted an item that it can't keep on disk: NotKept"
            );
        }
    }

    fn accepted(&mut self, said: Said, bytes: usize) {
        self.add(said, bytes);
    }

    fn lost(&mut self) {
        self.end_line();
        let _ = eprintln!(self.rt; "llhls: the connection is lost, and tried again");
    }
}
