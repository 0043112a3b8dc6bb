//! Counts that only proofs see.
ghost use Rattle.std.specs.Prelude.{◌≡◌, ◌+◌};

use std::marker::Model;
use std::sync::ledger::{Blank, Book, Ledger, Share};

/// How often two things happened, kept by readers, writers and links. It takes no bytes when the program runs.
#[derive(Drop)]
pub struct TwoCounts<L: Ledger> {
    all: Book<L>,
    first: Share<L>,
    second: Share<L>,
}

impl<L: Ledger> Model for TwoCounts<L> {
    ghost use Rattle.std.specs.Prelude.{◌<◌};
    ghost use Rattle.ll_device.specs.Counts.{Counts};

    ghost Value = { Counts };

    ghost view = { λ c. record { first = c.first.amount; second = c.second.amount } };

    ghost invariant = { λ c. (0 < c.first.parts) × (0 < c.second.parts) };
}

impl<L: Ledger> TwoCounts<L> {
    /// Returns two counts of 0. `blank` has two parts, one for each.
    pub fn new(blank: Blank) -> TwoCounts<L>
        requires name { blank.name ≡ L.name }
        requires parts { blank.parts ≡ L.parts }
        requires two { blank.parts ≡ 2 }
        ensures { result ≡ record { first = 0; second = 0 } }
    {
        let (all, mut first) = blank.open::<L>();
        let second = first.split_off(1, 0);
        TwoCounts { all, first, second }
    }

    /// Adds 1 to the first count.
    pub fn add_first(&mut self)
        ensures { self.new ≡ record { first = self.old.first + 1; second = self.old.second } }
    {
        self.all.add(&mut self.first, 1);
    }

    /// Adds 1 to the second count.
    pub fn add_second(&mut self)
        ensures { self.new ≡ record { first = self.old.first; second = self.old.second + 1 } }
    {
        self.all.add(&mut self.second, 1);
    }
}
