//! A history before anything was done.
ghost use Rattle.std.specs.Prelude.{◌≡◌, ◌+◌, ◌<◌, []};
ghost use Rattle.ll_history.specs.Rules.{all_places};

use crate::channel::ChannelHistory;
use crate::deed::Logged;
use crate::law::Law;
use crate::names::Named;
use crate::past::Past;
use logbook::{Pens, Seen, Start, Word};
use std::marker::{Model, PhantomData};

/// The most channels of a history.
const PLACES: usize = 1024;

/// A history without deeds, for which no type stands yet.
#[derive(Drop)]
pub struct BlankHistory {
    seen: Seen<Logged, u64, Law>,
    pens: Pens,
}

impl Model for BlankHistory {
    ghost use Rattle.std.specs.Prelude.{◌≡◌, []};
    ghost use Rattle.logbook.specs.Pages.{Book};
    ghost use Rattle.ll_history.specs.Rules.{all_places};

    ghost Value = { Book };

    ghost view = { λ b. b.seen.book };

    ghost invariant = { λ b. (b.seen.log ≡ []) × (b.seen.names ≡ []) × (b.pens.book ≡ b.seen.book) × (b.pens.next ≡ 0) × (b.pens.left ≡ all_places) };
}

impl BlankHistory {
    /// Returns a new history.
    pub fn new() -> BlankHistory {
        let (seen, pens) = Seen::open_row::<(), Law>(&(), Start::alone(), PLACES);
        BlankHistory { seen, pens }
    }

    /// Opens it as the one that `L` names: what was seen of it, and the places of its channels.
    pub fn open<L: Named>(self) -> (Past<L>, Places<L>)
        requires { self ≡ L.names.book }
        ensures past { result.0 ≡ [] }
        ensures places { result.1 ≡ 0 }
    {
        let BlankHistory { seen, pens } = self;
        let past = Past::new(seen);
        let places = Places {
            past: past.again(),
            pens,
        };
        (past, places)
    }
}

/// The places of a history's channels that were not taken yet. Contracts see the first of these.
#[derive(Drop)]
pub struct Places<L: Named> {
    past: Past<L>,
    pens: Pens,
}

impl<L: Named> Model for Places<L> {
    ghost use Rattle.std.specs.Prelude.{◌≡◌, ◌+◌, ℕ, []};
    ghost use Rattle.ll_history.specs.Rules.{all_places};

    ghost Value = { ℕ };

    ghost view = { λ p. p.pens.next };

    ghost invariant = { λ p. (p.past ≡ []) × (p.pens.book ≡ L.names.book) × (p.pens.next + p.pens.left ≡ all_places) };
}

impl<L: Named> Places<L> {
    /// Takes the next place.
    pub fn take(&mut self) -> ChannelHistory<L>
        requires { self.old < all_places }
        ensures channel { result ≡ record { place = self.old; deeds = [] } }
        ensures next { self.new ≡ self.old + 1 }
    {
        let mut pen = self.pens.take();
        ChannelHistory::new(Word::tracked(0, &mut pen), self.past.again())
    }
}
