//! What is kept of the chains of a record while they are checked.
ghost use Rattle.std.specs.Prelude.{◌≡◌, ◌+◌, ◌≤◌, ◌^◌, Option};
ghost use Rattle.ll_check.specs.Found as found;
ghost use Rattle.ll_check.specs.Found.{AreKept, IsOf};
ghost use Rattle.ll_entry.specs.Chain as spec;

use ll_entry::Version;
use ll_room::Replayer;
use ll_settings::Settings;
use std::marker::Model;

/// The most entries of the chains before one: far more than any file holds.
pub(crate) const MOST_EARLIER: u64 = 1 << 62;

/// A chain, as far as it was checked.
#[derive(Drop)]
pub(crate) struct Chain {
    pub(crate) replayer: Replayer,
    /// The format of its last chunk.
    pub(crate) version: Version,
    /// The number of entries of the chains before it.
    pub(crate) earlier: u64,
    /// Whether the last line of its last chunk is still to come.
    pub(crate) inside: bool,
}

impl Model for Chain {
    ghost use Rattle.std.specs.Prelude.{◌≤◌, ◌^◌};
    ghost use Rattle.ll_check.specs.Found.{ChainValue};

    ghost Value = { ChainValue };

    ghost view = { λ c. record { room = c.replayer; version = c.version; earlier = c.earlier; inside = c.inside } };

    ghost invariant = { λ c. c.earlier ≤ 2 ^ 62 };
}

impl Chain {
    /// Returns the number of its entries and of those of the chains before it.
    pub(crate) fn entries(&self) -> u64
        ensures value { result ≡ self.now.earlier + self.now.room.events }
        ensures few { result ≤ 2 ^ 63 }
    {
        self.earlier + self.replayer.room().events()
    }

    /// Returns the settings of its channel.
    pub(crate) fn settings(&self) -> &Settings
        ensures { result.now ≡ self.now.room.settings }
    {
        self.replayer.room().settings()
    }
}

/// Returns the number of entries of all chains so far.
pub(crate) fn entries_of(chain: &Option<Chain>) -> u64
    ensures value { (before : Option spec.Chain) → AreKept chain.now before → result ≡ spec.entries before }
    ensures few { result ≤ 2 ^ 63 }
{
    match chain {
        Some(chain) => chain.entries(),
        None => 0,
    }
}

/// Returns whether the next line is inside a chunk.
pub(crate) fn is_inside(chain: &Option<Chain>) -> bool
    ensures { result ≡ found.is_inside chain.now }
{
    match chain {
        Some(chain) => chain.inside,
        None => false,
    }
}

/// Returns whether `settings` are of the channel of the chains so far.
pub(crate) fn is_channel(chain: &Option<Chain>, settings: &Settings) -> bool
    ensures { (before : Option spec.Chain) → AreKept chain.now before → result ≡ spec.is_channel before settings.now }
{
    match chain {
        Some(chain) => chain.settings().channel() == settings.channel(),
        None => true,
    }
}
