//! What is known of a channel's history under its lock.
ghost use Rattle.std.specs.Prelude.{◌≡◌, ◌<◌, ◌++◌, ◌∷◌, [], IsTrue};
ghost use mathlib.Core.List.{IsPrefix};
ghost use Rattle.ll_history.specs.History.{IsAddedTo, deeds_at};
ghost use Rattle.ll_history.specs.Rules.{all_places, word_of};

use crate::deed::{Deed, Logged};
use crate::draft::Draft;
use crate::law::{Add, Law, Look, Nothing};
use crate::names::Named;
use crate::past::Past;
use logbook::Word;
use std::marker::Model;
use std::sync::Wait;

/// All that was done to one channel. Who holds it, alone, adds to it, so it is kept under the channel's lock.
///
/// No proof sees that nobody else adds: the word could have been changed by another. Then what is known here wouldn't be all, and the call waits
/// forever.
pub struct ChannelHistory<L: Named> {
    /// The number of deeds, which anybody may read.
    word: Word<Logged, u64, Law>,
    /// The number of deeds that are known here: all of them.
    count: u64,
    past: Past<L>,
}

impl<L: Named> Drop for ChannelHistory<L> {
    fn drop(self) {
        let ChannelHistory {
            word: _word,
            count: _,
            past: _past,
        } = self;
    }
}

impl<L: Named> Model for ChannelHistory<L> {
    ghost use Rattle.std.specs.Prelude.{◌≡◌, ◌<◌, length};
    ghost use Rattle.ll_history.specs.History.{ChannelDeeds, deeds_at};
    ghost use Rattle.ll_history.specs.Rules.{all_places, word_of};

    ghost Value = { ChannelDeeds };

    ghost view = { λ h. record { place = h.word.key; deeds = deeds_at h.word.key h.past } };

    ghost invariant = { λ h. (h.word ≡ word_of L.names.book h.word.key) × (h.word.key < all_places) × (h.count ≡ length (deeds_at h.word.key h.past)) };
}

impl<L: Named> ChannelHistory<L> {
    /// Returns what is known of a channel to which nothing was done.
    pub(crate) fn new(word: Word<Logged, u64, Law>, past: Past<L>) -> ChannelHistory<L>
        requires word { (word ≡ word_of L.names.book word.key) × (word.key < all_places) }
        requires past { past ≡ [] }
        ensures { result ≡ record { place = word.key; deeds = [] } }
    {
        ChannelHistory {
            word,
            count: 0,
            past,
        }
    }

    /// Returns what its holder has seen of the whole history.
    pub fn past(&self) -> &Past<L> {
        &self.past
    }

    /// Adds the deed `draft` to the history, after all that `past` had seen, which has then seen it.
    pub fn add<R: Wait>(&mut self, rt: &R, draft: Draft, past: &mut Past<L>)
        ensures added { IsAddedTo self.old draft past.old past.new }
        ensures deeds { self.new ≡ record self.old { deeds = self.old.deeds ++ draft ∷ [] } }
    {
        if !self.try_add(draft, past) {
            for _ in rt.forever() {}
            unreachable!();
        }
    }

    fn try_add(&mut self, draft: Draft, past: &mut Past<L>) -> bool
        ensures added { IsTrue result → IsAddedTo self.old draft past.old past.new }
        ensures deeds { IsTrue result → self.new ≡ record self.old { deeds = self.old.deeds ++ draft ∷ [] } }
    {
        let Some(next) = self.count.checked_add(1) else {
            return false;
        };
        past.learn(&self.past);
        let mut offer = draft.offer;
        let mut pen = past.seen.no_pen();
        let found = self
            .word
            .compare_exchange::<Add, Nothing>(
                self.count,
                next,
                &mut past.seen,
                &mut offer,
                &mut pen,
            );
        if found != self.count {
            return false;
        }
        self.count = next;
        self.past = past.again();
        true
    }

    /// Shows `past` all that was done to the channel.
    pub fn show<R: Wait>(&self, rt: &R, past: &mut Past<L>)
        ensures grows { IsPrefix past.old past.new }
        ensures all { deeds_at self.now.place past.new ≡ self.now.deeds }
    {
        if !self.look(past) {
            for _ in rt.forever() {}
            unreachable!();
        }
    }

    /// Shows `past` the history so far, and returns whether all that was done to the channel in it is known here, as it always is.
    pub fn look(&self, past: &mut Past<L>) -> bool
        ensures grows { IsPrefix past.old past.new }
        ensures all { IsTrue result → deeds_at self.now.place past.new ≡ self.now.deeds }
    {
        past.learn(&self.past);
        let mut offer = past.draft(Deed::HandOut).offer;
        let found = self.word.load::<Look, Nothing>(&mut past.seen, &mut offer);
        found == self.count
    }
}
