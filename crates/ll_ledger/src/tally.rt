//! The totals of one quantity, as the channels and as the passes have counted it.
ghost use Rattle.std.specs.Prelude.{◌≡◌, ◌+◌, ◌<◌, ◌^◌, ◌↔◌, IsFalse, MatchBool};

use std::marker::Model;
use std::sync::ledger::{Book, Ledger, Share};

/// The largest count of a quantity.
const MOST: u64 = 1 << 60;

/// The totals of both ledgers of one quantity, which are equal.
#[derive(Drop)]
pub struct Tally<C: Ledger, P: Ledger> {
    channels: Book<C>,
    passes: Book<P>,
    count: u64,
}

impl<C: Ledger, P: Ledger> Model for Tally<C, P> {
    ghost use Rattle.std.specs.Prelude.{◌≡◌, ◌≤◌, ◌^◌, ℕ};

    ghost Value = { ℕ };

    ghost view = { λ t. t.count };

    ghost invariant = { λ t. (t.count ≡ t.channels.total) × (t.count ≡ t.passes.total) × (t.count ≤ 2 ^ 60) };
}

impl<C: Ledger, P: Ledger> Tally<C, P> {
    /// Returns the totals of two ledgers in which nothing was counted.
    pub fn new(channels: Book<C>, passes: Book<P>) -> Tally<C, P>
        requires { (channels.total ≡ 0) × (passes.total ≡ 0) }
        ensures { result ≡ 0 }
    {
        Tally {
            channels,
            passes,
            count: 0,
        }
    }

    /// Adds 1 to a channel's share and to a pass's, and returns true; returns false if the count is 2^60 already.
    pub fn count_one(&mut self, mine: &mut Share<C>, theirs: &mut Share<P>) -> bool
        requires { (0 < mine.old.parts) × (0 < theirs.old.parts) }
        ensures short { IsFalse result ↔ (self.old ≡ 2 ^ 60) }
        ensures total { MatchBool result (self.new ≡ self.old + 1) (self.new ≡ self.old) }
        ensures counted { MatchBool result ((mine.new.amount ≡ mine.old.amount + 1) × (theirs.new.amount ≡ theirs.old.amount + 1))
            ((mine.new.amount ≡ mine.old.amount) × (theirs.new.amount ≡ theirs.old.amount)) }
        ensures parts { (mine.new.parts ≡ mine.old.parts) × (theirs.new.parts ≡ theirs.old.parts) }
    {
        if self.count >= MOST {
            return false;
        }
        let Tally {
            channels,
            passes,
            count,
        } = self;
        channels.add(mine, 1);
        passes.add(theirs, 1);
        *count += 1;
        true
    }

    /// Takes back what [`Tally::count_one`] added.
    pub fn undo(&mut self, mine: &mut Share<C>, theirs: &mut Share<P>)
        requires { (0 < mine.old.amount) × (0 < theirs.old.amount) }
        ensures total { self.new + 1 ≡ self.old }
        ensures mine { mine.new.amount + 1 ≡ mine.old.amount }
        ensures theirs { theirs.new.amount + 1 ≡ theirs.old.amount }
        ensures parts { (mine.new.parts ≡ mine.old.parts) × (theirs.new.parts ≡ theirs.old.parts) }
    {
        let Tally {
            channels,
            passes,
            count,
        } = self;
        // Serves the proof alone: no share has more than the total.
        channels.audit(mine);
        channels.sub(mine, 1);
        passes.sub(theirs, 1);
        *count -= 1;
    }

    /// Shows that shares with all parts have equal amounts, which are the total. Serves the proof alone.
    pub fn compare(&mut self, all: &mut Share<C>, both: &mut Share<P>)
        requires { (all.old.parts ≡ C.parts) × (both.old.parts ≡ P.parts) }
        ensures equal { all.old.amount ≡ both.old.amount }
        ensures total { self.old ≡ all.old.amount }
        ensures same { (all.new.amount ≡ all.old.amount) × (both.new.amount ≡ both.old.amount) }
        ensures unchanged { self.new ≡ self.old }
    {
        self.channels.audit(all);
        self.passes.audit(both);
    }
}
