//! The numbers in the text format of Prometheus, version 0.0.4.
use crate::counts::{Counts, REFUSALS};
use crate::numbers::Numbers;
use crate::pulse::Pulse;
use std::alloc::{AllocError, Global};
use std::fmt;
use std::time::Clock;

/// A family of numbers that each channel has.
#[derive(Clone, Copy)]
enum Family {
    Age,
    Ended,
    Items,
    Received,
    Sent,
    Held,
    Answers,
    Refused,
    FullRecords,
    Target,
}

/// All families that channels have, in their order.
const FAMILIES: [Family; 10] = [
    Family::Age,
    Family::Ended,
    Family::Items,
    Family::Received,
    Family::Sent,
    Family::Held,
    Family::Answers,
    Family::Refused,
    Family::FullRecords,
    Family::Target,
];

/// The number that no channel has.
const PUBLISHERS: &str = "llhls_publishers_connected";

impl Family {
    fn name(self) -> &'static str {
        match self {
            Family::Age => "llhls_last_part_age_seconds",
            Family::Ended => "llhls_rendition_ended",
            Family::Items => "llhls_items_total",
            Family::Received => "llhls_received_bytes_total",
            Family::Sent => "llhls_sent_bytes_total",
            Family::Held => "llhls_requests_held",
            Family::Answers => "llhls_answers_total",
            Family::Refused => "llhls_refused_items_total",
            Family::FullRecords => "llhls_full_records_total",
            Family::Target => "llhls_target_duration_seconds",
        }
    }

    fn help(self) -> &'static str {
        match self {
            Family::Age => "Seconds since the last part of a rendition.",
            Family::Ended => "1 if a rendition has ended, else 0.",
            Family::Items => "Items that were accepted.",
            Family::Received => "Bytes of parts and sections that were accepted.",
            Family::Sent => "Bytes of playlists and media that players got.",
            Family::Held => "Requests that wait now.",
            Family::Answers => "Answers to players by kind.",
            Family::Refused => "Items that were refused, by reason.",
            Family::FullRecords => "Records that were handed out because they were full.",
            Family::Target => "The target duration of a channel.",
        }
    }

    fn kind(self) -> &'static str {
        match self {
            Family::Age | Family::Ended | Family::Held | Family::Target => "gauge",
            _ => "counter",
        }
    }
}

/// A number of milliseconds, which is written in seconds.
#[derive(Clone, Copy)]
struct Millis(u64);

impl fmt::Display for Millis {
    fn fmt<W: fmt::Write>(&self, f: &mut fmt::Formatter<W>) -> fmt::Result {
        let Millis(count) = *self;
        let (whole, tenths) = (count / 1000, count / 100 % 10);
        let (hundredths, thousandths) = (count / 10 % 10, count % 10);
        write!(f, "{whole}.{tenths}{hundredths}{thousandths}")
    }
}

impl<R: Clock> Numbers<'_, R> {
    /// Returns all numbers in the text format of Prometheus.
    pub fn metrics(&self, alloc: Global) -> Result<String, AllocError> {
        let (mut text, now) = (String::new(alloc), self.now());
        for family in FAMILIES {
            push_head(&mut text, family.name(), family.help(), family.kind())?;
            self.push_family(&mut text, family, now)?;
        }
        push_head(
            &mut text,
            PUBLISHERS,
            "Connections of publishers that are served now.",
            "gauge",
        )?;
        let connected = self.publishers.now();
        write!(text, "{PUBLISHERS} {connected}\n")?;
        Ok(text)
    }

    /// Adds the samples of `family` at `now`, in milliseconds since the server's start, to `text`.
    fn push_family(&self, text: &mut String, family: Family, now: u64) -> Result<(), AllocError> {
        for counts in &self.channels {
            counts.push_samples(text, family, now)?;
        }
        Ok(())
    }
}

/// Adds the lines before the samples of the family `name` to `text`: what it is, and of which kind.
fn push_head(text: &mut String, name: &str, help: &str, kind: &str) -> Result<(), AllocError> {
    write!(text, "# HELP {name} {help}\n# TYPE {name} {kind}\n")
}

impl Counts {
    /// Adds the samples of `family` at `now`, in milliseconds since the server's start, to `text`.
    fn push_samples(&self, text: &mut String, family: Family, now: u64) -> Result<(), AllocError> {
        match family {
            Family::Answers => self.push_answers(text),
            Family::Refused => self.push_refusals(text),
            Family::Sent => self.push_sample(text, family, self.sent.now()),
            Family::Held => self.push_sample(text, family, self.held.now()),
            Family::FullRecords => self.push_sample(text, family, self.full_records.now()),
            Family::Target => self.push_sample(text, family, self.target),
            Family::Age | Family::Ended | Family::Items | Family::Received => {
                self.push_renditions(text, family, now)
            }
        }
    }

    /// Adds a sample with no label but the channel.
    fn push_sample(&self, text: &mut String, family: Family, value: u64) -> Result<(), AllocError> {
        push_front(text, family, self.name.as_str())?;
        write!(text, "}} {value}\n")
    }

    /// Adds a sample for each kind of answer.
    fn push_answers(&self, text: &mut String) -> Result<(), AllocError> {
        for (kind, counter) in [
            ("playlist", &self.playlists),
            ("update", &self.updates),
            ("media", &self.media),
            ("NotFound", &self.not_found),
            ("TooFar", &self.too_far),
            ("Busy", &self.busy),
            ("Timeout", &self.timeouts),
            ("RecordFull", &self.record_full),
            ("Memory", &self.memory),
        ] {
            push_front(text, Family::Answers, self.name.as_str())?;
            push_rest(text, "kind", kind, counter.now())?;
        }
        Ok(())
    }

    /// Adds a sample for each reason of a refusal.
    fn push_refusals(&self, text: &mut String) -> Result<(), AllocError> {
        for (counter, refusal) in self.refused.iter().zip(REFUSALS.iter()) {
            push_front(text, Family::Refused, self.name.as_str())?;
            push_rest(text, "reason", refusal.name(), counter.now())?;
        }
        Ok(())
    }

    /// Adds a sample for each rendition; for the age of its last part, if there is one.
    fn push_renditions(
        &self,
        text: &mut String,
        family: Family,
        now: u64,
    ) -> Result<(), AllocError> {
        for pulse in &self.renditions {
            let name = pulse.name.as_str();
            match family {
                Family::Age => self.push_age(text, pulse, now)?,
                Family::Ended => self.push_rendition(text, family, name, pulse.has_ended() as u64)?,
                Family::Items => self.push_rendition(text, family, name, pulse.items.now())?,
                _ => self.push_rendition(text, family, name, pulse.received.now())?,
            }
        }
        Ok(())
    }

    /// Adds the age of the last part of a rendition, if there is one.
    fn push_age(&self, text: &mut String, pulse: &Pulse, now: u64) -> Result<(), AllocError> {
        match pulse.age(now) {
            Some(age) => self.push_rendition(text, Family::Age, pulse.name.as_str(), Millis(age)),
            None => Ok(()),
        }
    }

    /// Adds the sample `value` of the rendition `name`.
    fn push_rendition<V: fmt::Display + Drop>(
        &self,
        text: &mut String,
        family: Family,
        name: &str,
        value: V,
    ) -> Result<(), AllocError> {
        push_front(text, family, self.name.as_str())?;
        push_rest(text, "rendition", name, value)
    }
}

/// Adds what stands before the second label of a sample of the channel `channel` to `text`.
fn push_front(text: &mut String, family: Family, channel: &str) -> Result<(), AllocError> {
    let name = family.name();
    write!(text, "{name}{{channel=\"{channel}\"")
}

/// Adds the label `label`, whose value is `name`, and the sample `value` to `text`. Names have no character that has to be escaped.
fn push_rest<V: fmt::Display + Drop>(
    text: &mut String,
    label: &str,
    name: &str,
    value: V,
) -> Result<(), AllocError> {
    write!(text, ",{label}=\"{name}\"}} {value}\n")
}
