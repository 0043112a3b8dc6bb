//! Shares of what was counted.
ghost use Rattle.std.specs.Prelude.{◌≡◌, ◌+◌, ◌<◌, ◌≤◌};
ghost use Rattle.ll_ledger.specs.Ledgers.{blank, both};

use std::marker::Model;
use std::sync::ledger::{Ledger, Share};

/// A share of publishes and a share of asks, with the same number of parts.
#[derive(Drop)]
pub struct Counts<P: Ledger, A: Ledger> {
    pub publishes: Share<P>,
    pub asks: Share<A>,
}

impl<P: Ledger, A: Ledger> Model for Counts<P, A> {
    ghost use Rattle.std.specs.Prelude.{◌≡◌};
    ghost use Rattle.ll_ledger.specs.Ledgers.{Amounts};

    ghost Value = { Amounts };

    ghost view = { λ c. record { parts = c.publishes.parts; publishes = c.publishes.amount; asks = c.asks.amount } };

    ghost invariant = { λ c. c.asks.parts ≡ c.publishes.parts };
}

impl<P: Ledger, A: Ledger> Counts<P, A> {
    /// Joins two shares.
    pub fn new(publishes: Share<P>, asks: Share<A>) -> Counts<P, A>
        requires { asks.parts ≡ publishes.parts }
        ensures { result ≡ record { parts = publishes.parts; publishes = publishes.amount; asks = asks.amount } }
    {
        Counts { publishes, asks }
    }

    /// Splits off one part of each share, with nothing counted on it.
    pub fn give(&mut self) -> Counts<P, A>
        requires { 1 < self.old.parts }
        ensures given { result ≡ blank 1 }
        ensures left { self.old.parts ≡ self.new.parts + 1 }
        ensures amounts { (self.new.publishes ≡ self.old.publishes) × (self.new.asks ≡ self.old.asks) }
    {
        Counts {
            publishes: self.publishes.split_off(1, 0),
            asks: self.asks.split_off(1, 0),
        }
    }

    /// Adds the shares of `other`.
    pub fn merge(&mut self, other: Counts<P, A>)
        ensures sum { self.new ≡ both self.old other }
        ensures most { self.new.parts ≤ P.parts }
    {
        let Counts { publishes, asks } = other;
        self.publishes.merge(publishes);
        self.asks.merge(asks);
    }
}
