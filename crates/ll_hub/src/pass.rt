//! A caller's pass: what it has seen of each channel, and what it has counted.
ghost use Rattle.std.specs.Prelude.{◌≡◌, slice_get};
ghost use Rattle.ll_ledger.specs.Ledgers.{blank};
ghost use mathlib.Core.List.{IsPrefix};
ghost use Rattle.ll_hub.specs.Passes.{noted, noted_reply};

use ll_history::Past;
use ll_ledger::{Ledgers, PassCounts};
use ll_verdict::Reply;
use std::marker::Model;

/// What one caller of a hub has seen: the hub's history so far, and how many items each channel has accepted at least. No answer that the caller gets
/// is older. It also counts the caller's items that were accepted, and the requests that it made.
pub struct Pass<L: Ledgers> {
    seen: Vec<u64>,
    pub(crate) counts: PassCounts<L>,
    pub(crate) past: Past<L>,
}

impl<L: Ledgers> Drop for Pass<L> {
    fn drop(self) {
        let Pass {
            seen: _seen,
            counts: _counts,
            past: _past,
        } = self;
    }
}

impl<L: Ledgers> Model for Pass<L> {
    ghost use Rattle.std.specs.Prelude.{◌≡◌};
    ghost use mathlib.Core.List.{IsPrefix};
    ghost use Rattle.ll_hub.specs.Passes.{PassValue};

    ghost Value = { PassValue };

    ghost view = { λ p. record { seen = p.seen.items; publishes = p.counts.publishes; asks = p.counts.asks; history = p.past } };

    ghost invariant = { λ p. p.counts.parts ≡ 1 };
}

impl<L: Ledgers> Pass<L> {
    /// Returns a pass that has seen `seen[i]` items of the channel at place `i`, and of the history what `past` has, and has counted nothing.
    pub(crate) fn new(seen: Vec<u64>, counts: PassCounts<L>, past: Past<L>) -> Pass<L>
        requires { counts ≡ blank 1 }
        ensures { result ≡ record { seen = seen.items; publishes = 0; asks = 0; history = past } }
    {
        Pass { seen, counts, past }
    }

    /// Returns how many items it has seen of the channel at place `channel`; `None` if there is no such channel.
    pub fn seen(&self, channel: usize) -> Option<u64>
        ensures { result ≡ slice_get self.now.seen channel }
    {
        self.seen.get(channel).copied()
    }

    /// Returns what it has seen of the history.
    pub fn past(&self) -> Past<L>
        ensures { result ≡ self.now.history }
    {
        self.past.again()
    }

    /// Sees what `past` has seen of the history, too.
    pub fn learn(&mut self, past: &Past<L>)
        ensures same { self.new ≡ record self.old { history = self.new.history } }
        ensures own { IsPrefix self.old.history self.new.history }
        ensures other { IsPrefix past.now self.new.history }
    {
        self.past.learn(past);
    }

    /// Notes that it has seen `count` items of the channel at place `channel`.
    pub(crate) fn note(&mut self, channel: usize, count: u64)
        ensures { self.new ≡ record self.old { seen = noted self.old.seen channel count } }
    {
        if let Some(seen) = self.seen.get_mut(channel) {
            *seen = (*seen).max(count);
        }
    }

    /// Notes that it has seen `reply` of the channel at place `channel`.
    pub(crate) fn note_reply(&mut self, channel: usize, reply: &Reply)
        ensures { self.new ≡ record self.old { seen = noted_reply self.old.seen channel reply.now } }
    {
        match reply {
            Reply::Text(page) => self.note(channel, page.number()),
            Reply::Media(piece) => self.note(channel, piece.number),
            Reply::NotFound | Reply::TooFar | Reply::Busy | Reply::Timeout => {}
        }
    }

    /// Shows `past` what it has seen, and returns what it has counted.
    pub(crate) fn into_counts(self, past: &mut Past<L>) -> PassCounts<L>
        ensures counts { result ≡ record { parts = 1; publishes = self.publishes; asks = self.asks } }
        ensures grows { IsPrefix past.old past.new }
        ensures seen { IsPrefix self.history past.new }
    {
        let Pass {
            seen: _,
            counts,
            past: own,
        } = self;
        past.learn(&own);
        counts
    }
}
