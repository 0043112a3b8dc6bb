//! What is written for a connection of a script.
ghost use Rattle.std.specs.Prelude.{◌≡◌, []};

use std::alloc::Global;

/// The answers that are written for a connection at once.
#[derive(Drop)]
pub struct Sent {
    /// Each answer after its length in bytes, and then whether the connection has shut.
    pub text: Vec<u8>,
    /// The number of these answers, which stays at 2^64 - 1 once it is there.
    pub replies: u64,
}

impl Sent {
    /// Returns a value without answers.
    pub(crate) fn nothing(alloc: Global) -> Sent
        ensures text { result.text.items ≡ [] }
        ensures replies { result.replies ≡ 0 }
    {
        Sent {
            text: Vec::new(alloc),
            replies: 0,
        }
    }
}
