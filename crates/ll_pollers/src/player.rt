//! A player of a poller: its connection, and what was reported of it.
ghost use Rattle.std.specs.Prelude.{◌≡◌, ◌<◌, ◌+◌, None};
ghost use Rattle.std.specs.Bool.{Decides};

/// A player's connection in a poller.
pub(crate) struct Player<T: Drop> {
    pub(crate) connection: T,
    /// Its request that is held: the place of its channel, and its number there.
    pub(crate) held: Option<(usize, u64)>,
    /// Whether some of its answers are left to be sent.
    pub(crate) unsent: bool,
    /// Whether the system has reported, since it was last read, that more can be read.
    pub(crate) came: bool,
    /// Whether the system has reported that the player will send no more.
    pub(crate) ended: bool,
    /// The second in which the system last reported something of it, or in which it was last answered.
    pub(crate) since: u64,
}

impl<T: Drop> Drop for Player<T> {
    fn drop(self) {
        let Player {
            connection: _connection,
            held: _held,
            unsent: _,
            came: _,
            ended: _,
            since: _,
        } = self;
    }
}

impl<T: Drop> Player<T> {
    /// Returns the player at the other end of `connection`, which came in second `since`.
    pub(crate) fn new(connection: T, since: u64) -> Player<T> {
        Player {
            connection,
            held: None,
            unsent: false,
            came: false,
            ended: false,
            since,
        }
    }

    /// Returns whether it was idle for more than `limit` seconds before second `now`. One whose request is held isn't idle.
    pub(crate) fn is_idle(&self, now: u64, limit: u64) -> bool
        ensures { Decides result ((self.now.held ≡ None) × (self.now.since + limit < now)) }
    {
        self.held.is_none() && now.saturating_sub(self.since) > limit
    }

    /// Returns whether it is to be read again, though the system won't report it.
    pub(crate) fn take_again(&mut self) -> bool {
        let again = self.came || self.ended;
        self.came = false;
        self.ended = false;
        again
    }
}
