//! The gate of one publisher's connection.
use crate::note::{EndReason, Noted};
use crate::notes::Notes;
use crate::remote::Remote;
use ll_counts::{Gate, bytes_of};
use ll_item::Item;
use ll_publish::{Refusal, Success};
use ll_wire::Answer;
use std::cell::Cell;
use std::sync::Wait;
use std::thread;
use std::time::{Clock, Duration};

/// The time after which a line is answered whose channel has a secret that its connection hasn't given, in milliseconds: a stranger who
/// tries many of them gets few answers, and takes little of the machine.
const PAUSE: u64 = 100;

/// The gate of one connection. It passes each call on to the gate of all, notes what becomes of the connection if publishers' lines are
/// read from it, and has strangers wait.
#[derive(Drop)]
pub struct NotedGate<'a, G, R> {
    rt: &'a R,
    gate: &'a G,
    notes: Option<&'a Notes<'a, R>>,
    remote: Remote,
    /// The connection's number, if it is noted.
    number: Cell<Option<u64>>,
    /// The channel that let it in.
    channel: Cell<Option<usize>>,
    /// Whether a line of it was refused.
    refused: Cell<bool>,
    /// The number of its items that were accepted.
    items: Cell<u64>,
    /// The number of bytes of these items.
    bytes: Cell<u64>,
}

impl<'a, G, R: Clock + Wait> NotedGate<'a, G, R> {
    /// Returns the gate of a connection from `remote`, which passes its calls on to `gate`, and adds to `notes`, if there are some.
    pub fn new(
        rt: &'a R,
        gate: &'a G,
        notes: Option<&'a Notes<'a, R>>,
        remote: Remote,
    ) -> NotedGate<'a, G, R> {
        NotedGate {
            rt,
            gate,
            notes,
            remote,
            number: Cell::new(None),
            channel: Cell::new(None),
            refused: Cell::new(false),
            items: Cell::new(0),
            bytes: Cell::new(0),
        }
    }

    /// Notes that the connection has ended, and why.
    pub fn ended(&self, ending: EndReason) {
        self.note(Noted::Ended {
            channel: self.channel.get(),
            items: self.items.get(),
            bytes: self.bytes.get(),
            ending,
        });
    }

    /// Notes that it begins to be served.
    fn begin(&self) {
        if let Some(notes) = self.notes {
            self.number.set(Some(notes.next_number()));
            self.note(Noted::Connected);
        }
    }

    fn note(&self, noted: Noted) {
        if let (Some(notes), Some(number)) = (self.notes, self.number.get()) {
            notes.add(number, self.remote, noted);
        }
    }

    /// Notes that the channel at place `channel` lets it in, if it is the first.
    fn let_in(&self, channel: usize) {
        if self.channel.get().is_none() {
            self.channel.set(Some(channel));
            self.note(Noted::LetIn(channel));
        }
    }

    /// Notes that a line of it was refused, if it is the first.
    fn refuse(&self, channel: Option<usize>, refusal: Refusal) {
        if !self.refused.replace(true) {
            self.note(Noted::Refused(channel, refusal));
        }
    }

    /// Counts `item`, which was accepted.
    fn count(&self, item: &Item) {
        self.items.set(self.items.get().saturating_add(1));
        self.bytes
            .set(self.bytes.get().saturating_add(bytes_of(item)));
    }
}

impl<G: Gate, R: Clock + Wait> Gate for NotedGate<'_, G, R> {
    fn before_answer(&self, call: u64) {
        self.gate.before_answer(call);
    }

    fn answered(&self, channel: usize, answer: &Answer) {
        self.gate.answered(channel, answer);
    }

    fn held(&self, channel: usize) {
        self.gate.held(channel);
    }

    fn freed(&self, channel: usize) {
        self.gate.freed(channel);
    }

    fn published(&self, channel: usize, told: Result<&Item, Refusal>) {
        match told {
            Ok(item) => {
                self.count(item);
                self.let_in(channel);
            }
            Err(refusal) => self.refuse(Some(channel), refusal),
        }
        self.gate.published(channel, told);
    }

    fn opened(&self, channel: usize) {
        self.let_in(channel);
        self.gate.opened(channel);
    }

    fn told(&self, told: &Result<Success, Refusal>) {
        if let Err(refusal) = told {
            self.refuse(None, *refusal);
            if *refusal == Refusal::NotAllowed {
                thread::sleep(self.rt, Duration::from_millis(PAUSE));
            }
        }
        self.gate.told(told);
    }

    fn filled(&self, channel: usize) {
        self.gate.filled(channel);
    }

    fn joined(&self) {
        self.begin();
        self.gate.joined();
    }

    fn left(&self) {
        self.gate.left();
    }
}
