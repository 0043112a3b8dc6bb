//! The clock of a hub's requests.
ghost use Rattle.std.specs.Prelude.{ℕ};

/// A clock that requests read.
pub trait Clock {
    /// The readings that this clock can show, in milliseconds.
    ghost shows: { Self → ℕ → Type 0 };

    /// Returns the time, in milliseconds. A reading may be earlier than one before it: a channel's time is its largest reading.
    fn now(&self) -> u64
        ensures { shows self.now result };
}
