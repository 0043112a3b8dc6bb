//! Bytes that a script says have come on a connection.
ghost use Rattle.std.specs.Prelude.{◌≡◌};

use std::marker::Model;

/// Bytes that came on a connection.
#[derive(Drop)]
pub struct Received {
    bytes: Vec<u8>,
}

impl Model for Received {
    ghost use Rattle.std.specs.Prelude.{List, ℕ};

    ghost Value = { List ℕ };

    ghost view = { λ p. p.bytes.items };
}

impl Received {
    /// Wraps `bytes`.
    pub(crate) fn new(bytes: Vec<u8>) -> Received
        ensures { result ≡ bytes.items }
    {
        Received { bytes }
    }

    /// Returns the bytes.
    pub fn as_slice(&self) -> &[u8]
        ensures { result.now ≡ self.now }
    {
        self.bytes.as_slice()
    }
}
