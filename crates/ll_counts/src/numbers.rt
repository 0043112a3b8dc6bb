//! The numbers of all channels, which connections count as they are served.
use crate::counter::Counter;
use crate::counts::Counts;
use crate::gate::Gate;
use ll_format::UtcTime;
use ll_item::Item;
use ll_publish::Refusal;
use ll_settings::Settings;
use ll_wire::Answer;
use std::alloc::{AllocError, Global};
use std::time::{Clock, Instant};

/// What was counted of each channel since the server's start. Connections count it as they are served.
#[derive(Drop)]
pub struct Numbers<'a, R> {
    rt: &'a R,
    /// The server's start.
    start: Instant,
    pub(crate) channels: Vec<Counts>,
    /// The number of publishers' connections that are served now.
    pub(crate) publishers: Counter,
}

/// Whether the parts of a channel come, for whoever watches it.
#[derive(Drop)]
pub enum Health {
    /// There is no such channel.
    Unknown,
    /// Each of its renditions has ended, or had a part within three target durations.
    Well,
    /// The names of the renditions that haven't ended and had no part within three target durations, a line each.
    Silent(String),
}

impl<'a, R> Numbers<'a, R> {
    /// Returns counts of 0 for `channels`; the server's start is `start`.
    pub fn new(
        rt: &'a R,
        alloc: Global,
        start: Instant,
        channels: &[Settings],
    ) -> Result<Numbers<'a, R>, AllocError> {
        let mut counts = Vec::with_capacity(alloc, channels.len())?;
        for settings in channels {
            counts.push(Counts::new(alloc, settings)?)?;
        }
        Ok(Numbers {
            rt,
            start,
            channels: counts,
            publishers: Counter::new(),
        })
    }

    /// Returns a line of the present numbers for each channel; `time` stands at its front.
    pub fn lines(&self, alloc: Global, time: UtcTime) -> Result<String, AllocError> {
        let mut text = String::new(alloc);
        for counts in &self.channels {
            counts.push_line(&mut text, time)?;
        }
        Ok(text)
    }
}

impl<R: Clock> Numbers<'_, R> {
    /// Returns the milliseconds since the server's start, or 0 if the clock can't be read.
    pub fn now(&self) -> u64 {
        match self.start.elapsed(self.rt) {
            Ok(time) => time.as_millis().min(u64::MAX as u128) as u64,
            Err(_) => 0,
        }
    }

    /// Notes `item`, which a start published again in the channel at place `channel`: its rendition had a part now, or has ended.
    pub fn restored(&self, channel: usize, item: &Item) {
        if let Some(counts) = self.channels.get(channel) {
            counts.restored(item, self.now());
        }
    }

    /// Returns whether the parts of the channel named `name` come.
    pub fn health(&self, alloc: Global, name: &str) -> Result<Health, AllocError> {
        let now = self.now();
        for counts in &self.channels {
            if counts.name.as_str() == name {
                return counts.health(alloc, now);
            }
        }
        Ok(Health::Unknown)
    }
}

impl<R: Clock> Gate for Numbers<'_, R> {
    fn before_answer(&self, _call: u64) {}

    fn answered(&self, channel: usize, answer: &Answer) {
        if let Some(counts) = self.channels.get(channel) {
            counts.answered(answer);
        }
    }

    fn held(&self, channel: usize) {
        if let Some(counts) = self.channels.get(channel) {
            counts.held();
        }
    }

    fn freed(&self, channel: usize) {
        if let Some(counts) = self.channels.get(channel) {
            counts.freed();
        }
    }

    fn published(&self, channel: usize, told: Result<&Item, Refusal>) {
        let Some(counts) = self.channels.get(channel) else {
            return;
        };
        match told {
            Ok(item) => counts.accepted(item, self.now()),
            Err(refusal) => counts.refused(refusal),
        }
    }

    fn filled(&self, channel: usize) {
        if let Some(counts) = self.channels.get(channel) {
            counts.filled();
        }
    }

    fn joined(&self) {
        self.publishers.add();
    }

    fn left(&self) {
        self.publishers.take_away();
    }
}
