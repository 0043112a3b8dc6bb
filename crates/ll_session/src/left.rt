//! A response and how much of it was sent.
ghost use Rattle.std.specs.Prelude.{◌≡◌, ◌≤◌, drop, length};
ghost use Rattle.ll_wire.specs.Parts.{bytes_of};

use ll_wire::{Response, Slices};
use std::marker::Model;

/// The bytes of a response that weren't sent yet.
pub(crate) struct Left {
    response: Response,
    sent: usize,
}

impl Drop for Left {
    fn drop(self) {
        let Left {
            response: _response,
            sent: _,
        } = self;
    }
}

impl Model for Left {
    ghost use Rattle.std.specs.Prelude.{◌≤◌, ℕ, List, drop, length};
    ghost use Rattle.ll_wire.specs.Parts.{bytes_of};

    ghost Value = { List ℕ };

    ghost view = { λ l. drop l.sent (bytes_of l.response) };

    ghost invariant = { λ l. l.sent ≤ length (bytes_of l.response) };
}

impl Left {
    /// Returns all bytes of `response`.
    pub(crate) fn new(response: Response) -> Left
        ensures { result ≡ bytes_of response }
    {
        Left { response, sent: 0 }
    }

    /// Returns the bytes that are left.
    pub(crate) fn slices(&self) -> Slices<'_>
        ensures { result ≡ self.now }
    {
        self.response.after(self.sent)
    }

    /// Returns the number of bytes that are left.
    pub(crate) fn len(&self) -> usize
        ensures { result ≡ length self.now }
    {
        self.response.len() - self.sent
    }

    /// Drops the first `n` bytes, which were sent.
    pub(crate) fn advance(&mut self, n: usize)
        requires { n ≤ length self.old }
        ensures { self.new ≡ drop n self.old }
    {
        // Serves the proof alone.
        let whole = self.response.len();
        prove!(self.sent <= whole && n <= whole - self.sent);
        self.sent += n;
    }
}
