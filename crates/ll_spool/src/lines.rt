//! How a spool's text is cut into lines.
ghost use Rattle.std.specs.Prelude.{◌≡◌, ◌+◌, ◌++◌, ◌<◌, ◌^◌, ◌∷◌, [], IfSome, MatchOption, None, length};
ghost use Rattle.ll_entry.specs.Leads.{with_end};
ghost use Rattle.ll_spool.specs.Spooled.{lines_in};

use memchr::memchr;
use std::marker::Model;

/// The lines of the items of a spool that weren't read yet, and the number of those that were.
#[derive(Drop)]
pub(crate) struct Lines<'a> {
    rest: &'a [u8],
    count: u64,
}

impl<'a> Model for Lines<'a> {
    ghost use Rattle.std.specs.Prelude.{◌+◌, ◌<◌, ◌^◌, length};
    ghost use Rattle.ll_spool.specs.Spooled.{lines_in};
    ghost use Rattle.ll_spool.specs.Restored.{Left};

    ghost Value = { Left };

    ghost view = { λ l. record { lines = lines_in l.rest.now; count = l.count; text = l.rest.now } };

    ghost invariant = { λ l. l.count + length l.rest.now < 2 ^ 63 };
}

impl<'a> Lines<'a> {
    /// Returns the lines of `text`.
    pub(crate) fn of(text: &'a [u8]) -> Lines<'a>
        ensures { result ≡ record { lines = lines_in text.now; count = 0; text = text.now } }
    {
        Lines {
            rest: text,
            count: 0,
        }
    }

    /// Returns the number of lines that were read.
    pub(crate) fn count(&self) -> u64
        ensures { result ≡ self.now.count }
    {
        self.count
    }

    /// Returns the number of bytes after the lines that were read.
    pub(crate) fn rest_len(&self) -> usize
        ensures { result ≡ length self.now.text }
    {
        self.rest.len()
    }

    /// Reads the next line. Returns its number, from 1, and its text without its end; `None` if no whole line is left.
    pub(crate) fn next(&mut self) -> Option<(u64, &'a [u8])>
        ensures line { MatchOption result (self.old.lines ≡ []) (λ l. self.old.lines ≡ l.1.now ∷ self.new.lines) }
        ensures text { IfSome result (λ l. self.old.text ≡ with_end l.1.now ++ self.new.text) }
        ensures none { result ≡ None → self.new ≡ self.old }
        ensures number { IfSome result (λ l. (l.0 ≡ self.old.count + 1) × (self.new.count ≡ self.old.count + 1)) }
        ensures fewer { IfSome result (λ _. length self.new.lines < length self.old.lines) }
        ensures few { IfSome result (λ l. l.0 < 2 ^ 63) }
    {
        let (line, rest) = cut_line(self.rest)?;
        self.rest = rest;
        self.count += 1;
        Some((self.count, line))
    }
}

/// Returns the first line of `text`, without its end, and what follows it; `None` if no line ends.
pub(crate) fn cut_line(text: &[u8]) -> Option<(&[u8], &[u8])>
    ensures lines { MatchOption result (lines_in text.now ≡ []) (λ c. lines_in text.now ≡ c.0.now ∷ lines_in c.1.now) }
    ensures text { IfSome result (λ c. text.now ≡ with_end c.0.now ++ c.1.now) }
    ensures shorter { IfSome result (λ c. length c.1.now < length text.now) }
{
    let end = memchr(b'\n', text)?;
    Some((&text[..end], &text[end + 1..]))
}
