//! Who gets the reply to a request of a script.
ghost use Rattle.std.specs.Prelude.{◌≡◌};
ghost use Rattle.ll_script_rooms.specs.Book.{id_of, kind_of};
ghost use Rattle.ll_script_rooms.specs.Waits.{is_same};

/// The recipient of the reply to a request.
#[derive(Clone, Copy)]
pub enum Owner {
    /// The `get` line with this number.
    Get(u64),
    /// The connection with this number.
    Connection(u64),
}

impl Owner {
    /// Returns whether `self` and `other` are the same.
    pub fn is(self, other: Owner) -> bool
        ensures { result ≡ is_same self other }
    {
        match (self, other) {
            (Owner::Get(a), Owner::Get(b)) => a == b,
            (Owner::Connection(a), Owner::Connection(b)) => a == b,
            _ => false,
        }
    }

    /// Returns the kind of owner, 0 for a `get` line and 1 for a connection, and its number.
    pub(crate) fn key(self) -> (u64, u64)
        ensures { result ≡ (kind_of self, id_of self) }
    {
        match self {
            Owner::Get(id) => (0, id),
            Owner::Connection(id) => (1, id),
        }
    }
}
