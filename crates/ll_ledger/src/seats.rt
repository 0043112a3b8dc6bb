//! The passes that a hub gives.
ghost use Rattle.std.specs.Prelude.{◌≡◌, ◌+◌, ◌≤◌, ◌↔◌, IfSome, MatchOption, None};
ghost use Rattle.ll_ledger.specs.Ledgers.{IsRest, blank};

use crate::ledgers::{ChannelCounts, Ledgers, PASSES, PassCounts};

/// The shares of the ledgers that neither a channel nor a pass has, and the number of passes that were given.
#[derive(Drop)]
pub struct Seats<L: Ledgers> {
    pub channels: ChannelCounts<L>,
    pub passes: PassCounts<L>,
    pub given: u64,
    ghost channels_rest: { IsRest channels L.channels },
    ghost passes_rest: { IsRest passes given },
    ghost most: { given ≤ 65536 },
}

impl<L: Ledgers> Seats<L> {
    /// Returns seats of which no pass was given yet.
    pub fn new(channels: ChannelCounts<L>, passes: PassCounts<L>) -> Seats<L>
        requires channels { IsRest channels L.channels }
        requires passes { IsRest passes 0 }
        ensures { result.given ≡ 0 }
    {
        Seats {
            channels,
            passes,
            given: 0,
        }
    }

    /// Returns the shares of one more pass; `None` if 65,536 were given.
    pub fn take(&mut self) -> Option<PassCounts<L>>
        ensures short { (result ≡ None) ↔ (self.old.given ≡ 65536) }
        ensures seat { IfSome result (λ c. c ≡ blank 1) }
        ensures counted { MatchOption result (self.new.given ≡ self.old.given) (λ c. self.new.given ≡ self.old.given + 1) }
    {
        if self.given >= PASSES {
            return None;
        }
        let Seats {
            channels: _,
            passes,
            given,
        } = self;
        *given += 1;
        Some(passes.give())
    }
}
