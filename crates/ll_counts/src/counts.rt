//! What is counted of one channel, and the line of numbers that is written of it.
use crate::counter::Counter;
use crate::numbers::Health;
use crate::pulse::Pulse;
use ll_attr::Text;
use ll_format::UtcTime;
use ll_item::Item;
use ll_publish::Refusal;
use ll_settings::Settings;
use ll_verdict::{AskFault, PublishFault, Reply};
use ll_wire::Answer;
use std::alloc::{AllocError, Global};
use std::fmt;

/// For how many milliseconds, for each second of the target duration, a rendition may have no part while its channel's health is good.
const SILENCE: u64 = 3_000;

/// Why an item is refused once its channel is known, in the order of the line of numbers.
pub(crate) const REFUSALS: [Refusal; 16] = [
    Refusal::Rule(PublishFault::NoRendition),
    Refusal::Rule(PublishFault::Ended),
    Refusal::Rule(PublishFault::BadDuration),
    Refusal::Rule(PublishFault::TooLong),
    Refusal::Rule(PublishFault::OpenSegment),
    Refusal::Rule(PublishFault::CountEnd),
    Refusal::Rule(PublishFault::TimeEnd),
    Refusal::Rule(PublishFault::IdTaken),
    Refusal::Rule(PublishFault::BadAttribute),
    Refusal::Rule(PublishFault::IdUnknown),
    Refusal::Rule(PublishFault::RecordFull),
    Refusal::Rule(PublishFault::Memory),
    Refusal::BadLine,
    Refusal::Rule(PublishFault::NoSegment),
    Refusal::Rule(PublishFault::TimeBack),
    Refusal::NotAllowed,
];

/// What is counted of one channel.
#[derive(Drop)]
pub(crate) struct Counts {
    /// The channel's name.
    pub(crate) name: Text,
    /// Its target duration in seconds.
    pub(crate) target: u64,
    /// The number of requests that wait now.
    pub(crate) held: Counter,
    pub(crate) playlists: Counter,
    pub(crate) updates: Counter,
    pub(crate) media: Counter,
    pub(crate) not_found: Counter,
    pub(crate) too_far: Counter,
    pub(crate) busy: Counter,
    pub(crate) timeouts: Counter,
    /// The number of requests that its full record had no place for.
    pub(crate) record_full: Counter,
    /// The number of requests that failed out of memory.
    pub(crate) memory: Counter,
    /// The number of bytes of playlists and media that players got.
    pub(crate) sent: Counter,
    /// The number of items that were accepted.
    items: Counter,
    /// The number of items that were refused for each of [`REFUSALS`].
    pub(crate) refused: Vec<Counter>,
    /// How often its record was handed out because it was full.
    pub(crate) full_records: Counter,
    /// Its renditions, in their order.
    pub(crate) renditions: Vec<Pulse>,
}

impl Counts {
    /// Returns counts of 0 for the channel with these settings.
    pub(crate) fn new(alloc: Global, settings: &Settings) -> Result<Counts, AllocError> {
        let mut refused = Vec::with_capacity(alloc, REFUSALS.len())?;
        for _ in 0..REFUSALS.len() {
            refused.push(Counter::new())?;
        }
        Ok(Counts {
            name: Text::from_str(alloc, settings.channel())?,
            target: settings.target(),
            held: Counter::new(),
            playlists: Counter::new(),
            updates: Counter::new(),
            media: Counter::new(),
            not_found: Counter::new(),
            too_far: Counter::new(),
            busy: Counter::new(),
            timeouts: Counter::new(),
            record_full: Counter::new(),
            memory: Counter::new(),
            sent: Counter::new(),
            items: Counter::new(),
            refused,
            full_records: Counter::new(),
            renditions: pulses(alloc, settings.renditions())?,
        })
    }

    /// Counts a request that begins to wait.
    pub(crate) fn held(&self) {
        self.held.add();
    }

    /// Counts a request that no longer waits.
    pub(crate) fn freed(&self) {
        self.held.take_away();
    }

    /// Counts a record that was full.
    pub(crate) fn filled(&self) {
        self.full_records.add();
    }

    /// Counts a request by its answer. Answers that no channel gives aren't counted.
    pub(crate) fn answered(&self, answer: &Answer) {
        match answer {
            Answer::Reply(reply) => self.replied(reply),
            Answer::Unavailable(AskFault::RecordFull) => self.record_full.add(),
            Answer::Unavailable(AskFault::Memory) => self.memory.add(),
            Answer::Target(_) | Answer::Head(_) => {}
        }
    }

    fn replied(&self, reply: &Reply) {
        self.sent.add_all(bytes_of(reply));
        let counter = match reply {
            Reply::Text(page) => match page.update() {
                Some(_) => &self.updates,
                None => &self.playlists,
            },
            Reply::Media(_) => &self.media,
            Reply::NotFound => &self.not_found,
            Reply::TooFar => &self.too_far,
            Reply::Busy => &self.busy,
            Reply::Timeout => &self.timeouts,
        };
        counter.add();
    }

    /// Counts `item`, which was accepted at `now`, in milliseconds since the server's start.
    pub(crate) fn accepted(&self, item: &Item, now: u64) {
        self.items.add();
        if let Some(pulse) = self.renditions.get(item.rendition()) {
            pulse.accepted(item, now);
        }
    }

    /// Notes `item`, which a start published again at `now`, in milliseconds since the server's start. Doesn't count it.
    pub(crate) fn restored(&self, item: &Item, now: u64) {
        if let Some(pulse) = self.renditions.get(item.rendition()) {
            pulse.note(item, now);
        }
    }

    /// Counts an item that was refused for `refusal`.
    pub(crate) fn refused(&self, refusal: Refusal) {
        for (counter, each) in self.refused.iter().zip(REFUSALS.iter()) {
            if *each == refusal {
                counter.add();
            }
        }
    }

    /// Returns whether its parts come; `now` is in milliseconds since the server's start.
    pub(crate) fn health(&self, alloc: Global, now: u64) -> Result<Health, AllocError> {
        let most = self.target.saturating_mul(SILENCE);
        let mut silent = String::new(alloc);
        for pulse in &self.renditions {
            if pulse.is_silent(now, most) {
                let name = &pulse.name;
                write!(silent, "{name}\n")?;
            }
        }
        if silent.is_empty() {
            Ok(Health::Well)
        } else {
            Ok(Health::Silent(silent))
        }
    }

    /// Adds the channel's line of numbers to `text`, with its LF; `time` stands at its front.
    pub(crate) fn push_line(&self, text: &mut String, time: UtcTime) -> Result<(), AllocError> {
        let name = &self.name;
        write!(text, "{time} {name}{self}")?;
        for (counter, refusal) in self.refused.iter().zip(REFUSALS.iter()) {
            push_refused(text, counter.now(), refusal.name())?;
        }
        text.push_str("\n")
    }
}

/// Returns counts of 0 for the renditions of these names.
fn pulses(alloc: Global, names: &[Text]) -> Result<Vec<Pulse>, AllocError> {
    let mut pulses = Vec::with_capacity(alloc, names.len())?;
    for name in names {
        pulses.push(Pulse::new(alloc, name.as_str())?)?;
    }
    Ok(pulses)
}

/// Returns the number of bytes of the playlist or the media of a reply.
fn bytes_of(reply: &Reply) -> u64 {
    match reply {
        Reply::Text(page) => page.text().len() as u64,
        Reply::Media(piece) => piece.bytes.len(),
        _ => 0,
    }
}

/// Adds to `text` how many items were refused for a reason, if any were.
fn push_refused(text: &mut String, count: u64, name: &str) -> Result<(), AllocError> {
    if count == 0 {
        return Ok(());
    }
    write!(text, " no-{name}={count}")
}

/// Writes each number but those of refused items, with its name before it.
impl fmt::Display for Counts {
    fn fmt<W: fmt::Write>(&self, f: &mut fmt::Formatter<W>) -> fmt::Result {
        for (name, counter) in [
            ("held", &self.held),
            ("playlists", &self.playlists),
            ("updates", &self.updates),
            ("media", &self.media),
            ("NotFound", &self.not_found),
            ("TooFar", &self.too_far),
            ("Busy", &self.busy),
            ("Timeout", &self.timeouts),
            ("RecordFull", &self.record_full),
            ("Memory", &self.memory),
            ("items", &self.items),
            ("full-records", &self.full_records),
        ] {
            let count = counter.now();
            write!(f, " {name}={count}")?;
        }
        Ok(())
    }
}
