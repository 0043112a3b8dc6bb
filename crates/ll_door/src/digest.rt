//! What is kept of a secret.
ghost use Rattle.std.specs.Prelude.{◌≡◌, bytes_eq};
ghost use Rattle.ll_door.specs.Doors.{digest_in, opens};

use hex::FromHex;
use sha2::{Digest as _, Sha256};
use std::marker::Model;

/// The SHA-256 of a channel's secret.
#[derive(Drop)]
pub struct Digest {
    bytes: [u8; 32],
}

impl Model for Digest {
    ghost use Rattle.std.specs.Prelude.{ℕ, List};

    ghost Value = { List ℕ };

    ghost view = { λ d. d.bytes };
}

impl Digest {
    /// Parses 64 hexadecimal digits, of either case.
    pub fn read(text: &str) -> Option<Digest>
        ensures { result ≡ digest_in text.now }
    {
        match <[u8; 32] as FromHex>::from_hex(text) {
            Ok(bytes) => Some(Digest { bytes }),
            Err(_) => None,
        }
    }

    /// Returns whether `word` is the secret.
    pub fn is_of(&self, word: &str) -> bool
        ensures { result ≡ opens self.now word.now }
    {
        let given = Sha256::digest(word);
        is_same(&given, &self.bytes)
    }
}

/// Returns whether two digests are the same. It looks at each byte of both, so how long it takes doesn't depend on where they differ; what
/// a compiler makes of that is not in its contract.
fn is_same(one: &[u8; 32], other: &[u8; 32]) -> bool
    ensures { result ≡ bytes_eq one.now other.now }
{
    let mut same = true;
    for place in 0..32 {
        same = same & (one[place] == other[place]);
    }
    same
}
