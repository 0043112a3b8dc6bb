//! The bytes that a publisher sends, and the lines that are taken out of them.
ghost use Rattle.std.specs.Prelude.{◌≡◌, OnErr, OnOk, option_map};
ghost use Rattle.std.specs.Borrow.{sem};
ghost use Rattle.std.specs.Io.BufRead.{Rests};
ghost use Rattle.ll_publish.specs.Lines as spec;
ghost use Rattle.ll_publish.specs.Lines.{fresh, front, settled, with_bytes};
ghost use Rattle.ll_publish.specs.Meaning.{meant};
ghost use Rattle.ll_publish.specs.contracts.feed.Feed.{the_row};

use crate::line::Line;
use crate::look::{end_of, look, missing};
use std::alloc::{AllocError, Global};
use std::marker::Model;

/// The bytes of a publisher that haven't been taken out as lines yet. They come in any pieces.
pub struct Feed {
    bytes: Vec<u8>,
    /// The number of bytes at the front that were taken out.
    at: usize,
    /// While a line is being passed over, the number of bytes before its end is searched for.
    passing: Option<u64>,
}

impl Drop for Feed {
    fn drop(self) {
        let Feed {
            bytes: _bytes,
            at: _,
            passing: _,
        } = self;
    }
}

impl Model for Feed {
    ghost use Rattle.std.specs.Prelude.{◌≤◌, drop, length};
    ghost use Rattle.ll_publish.specs.Lines.{FeedValue};

    ghost Value = { FeedValue };

    ghost view = { λ f. record { unread = drop f.at f.bytes.items; passing = f.passing } };

    ghost invariant = { λ f. f.at ≤ length f.bytes.items };
}

impl Feed {
    /// Returns an empty feed.
    pub fn new(alloc: Global) -> Feed
        ensures { result ≡ fresh }
    {
        Feed {
            bytes: Vec::new(alloc),
            at: 0,
            passing: None,
        }
    }

    /// Takes in `bytes` that came. If this fails, nothing has changed. Reserves memory for all of an item's bytes at once, so that the
    /// buffer doesn't grow while they come.
    pub fn take(&mut self, bytes: &[u8]) -> Result<(), AllocError>
        ensures ok { OnOk result (self.new ≡ with_bytes self.old bytes.now) }
        ensures err { OnErr result (self.new ≡ self.old) }
    {
        self.forget_taken();
        let missing = missing(&self.bytes[self.at..]);
        self.bytes.reserve_exact(missing.max(bytes.len()))?;
        self.bytes.extend_from_slice(bytes)
    }

    /// Takes out the front line and returns it, or returns `None` if that line or its item's bytes haven't ended, and it isn't too long
    /// yet. A line that is too long, or whose item has too many bytes, is returned once, as soon as that is known; the rest of it is
    /// passed over.
    pub fn next(&mut self) -> Option<Line<'_>>
        ensures* left { sem 𝓛 (Rests the_row self.entry (λ f. f ≡ (front self.old).1)) }
        ensures line { option_map meant result ≡ (front self.old).0 }
    {
        self.settle();
        if self.passing.is_some() {
            return None;
        }
        let seen = look(&self.bytes[self.at..])?;
        self.at += seen.taken;
        self.passing = seen.passing;
        Some(seen.line)
    }

    /// Drops the bytes that were taken out, once they are more than half of all: so fewer bytes are moved than dropped.
    fn forget_taken(&mut self)
        ensures { self.new ≡ self.old }
    {
        if self.at > self.bytes.len() / 2 {
            self.bytes.drain(..self.at);
            self.at = 0;
        }
    }

    /// Drops the bytes that are passed over, as far as they have come.
    fn settle(&mut self)
        ensures { self.new ≡ settled self.old }
    {
        let Some(count) = self.passing else {
            return;
        };
        let unread = (self.bytes.len() - self.at) as u64;
        if unread < count {
            self.at = self.bytes.len();
            self.passing = Some(count - unread);
            return;
        }
        self.at += count as usize;
        self.pass_line();
    }

    /// Drops the rest of a line, as far as it has come.
    fn pass_line(&mut self)
        ensures { self.new ≡ spec.past_end self.old.unread }
    {
        match end_of(&self.bytes[self.at..]) {
            Some(end) => {
                self.at += end + 1;
                self.passing = None;
            }
            None => {
                self.at = self.bytes.len();
                self.passing = Some(0);
            }
        }
    }
}
