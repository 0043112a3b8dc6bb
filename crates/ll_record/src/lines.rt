//! The lines of a record, in memory that is reserved before an event and not after it.
ghost use Rattle.std.specs.Prelude.{◌≡◌, ◌≤◌, ◌+◌, ◌*◌, ◌++◌, [], OnOk, length, string_bytes, true};
ghost use Rattle.std.specs.Str.{is_utf8};
ghost use Rattle.ll_record.specs.Kept.{spare};
ghost use Rattle.ll_entry.specs.Leads.{with_end};

use std::alloc::{AllocError, Global};
use std::marker::Model;

/// The bytes that are reserved, for each open request, for the line that hands its reply out or closes it, with its end.
const SPARE: usize = 80;

/// Lines, each with its end.
pub(crate) struct Lines {
    text: Vec<u8>,
}

impl Drop for Lines {
    fn drop(self) {
        let Lines { text: _text } = self;
    }
}

impl Model for Lines {
    ghost use Rattle.std.specs.Prelude.{◌-◌, vec_capacity, vec_len};
    ghost use Rattle.ll_record.specs.Kept.{Buffer};

    ghost Value = { Buffer };

    ghost view = { λ l. record { lines = l.text.items; free = vec_capacity l.text - vec_len l.text } };
}

impl Lines {
    /// Returns no lines, without memory.
    pub(crate) fn new(alloc: Global) -> Lines
        ensures { result.lines ≡ [] }
    {
        Lines {
            text: Vec::new(alloc),
        }
    }

    /// Reserves memory for a line of `line` bytes and its end, and for the last line of each of `requests` open requests.
    pub(crate) fn reserve(&mut self, line: usize, requests: usize) -> Result<(), AllocError>
        ensures free { OnOk result (line + 1 + spare * requests ≤ self.new.free) }
        ensures no_less { self.old.free ≤ self.new.free }
        ensures lines { self.new.lines ≡ self.old.lines }
    {
        let kept = SPARE.checked_mul(requests).ok_or(AllocError)?;
        let bytes = kept.checked_add(line).ok_or(AllocError)?;
        self.text.reserve(bytes.checked_add(1).ok_or(AllocError)?)
    }

    /// Adds `line` and its end, in reserved memory.
    #[tactic(auto, using(crate::proofs::Texts::is_text))]
    pub(crate) fn put(&mut self, line: &str)
        requires { length line.now + 1 ≤ self.old.free }
        ensures lines { self.new.lines ≡ self.old.lines ++ with_end line.now }
        ensures text { is_utf8 line.now ≡ true }
        ensures free { self.old.free ≤ self.new.free + (length line.now + 1) }
    {
        if self.text.extend_from_slice(line.as_bytes()).is_err() {
            unreachable!();
        }
        self.text.push_reserved(b'\n');
    }

    /// Adds `line` and its end, in reserved memory. Frees the line, so that the caller need not keep it to its end.
    pub(crate) fn put_line(&mut self, line: String)
        requires { length (string_bytes line) + 1 ≤ self.old.free }
        ensures lines { self.new.lines ≡ self.old.lines ++ with_end (string_bytes line) }
        ensures text { is_utf8 (string_bytes line) ≡ true }
        ensures free { self.old.free ≤ self.new.free + (length (string_bytes line) + 1) }
    {
        self.put(line.as_str());
    }

    /// Returns the lines.
    pub(crate) fn text(&self) -> &[u8]
        ensures { result.now ≡ self.now.lines }
    {
        &self.text
    }

    /// Removes the lines, and keeps their memory for others.
    pub(crate) fn clear(&mut self)
        ensures lines { self.new.lines ≡ [] }
        ensures no_less { self.old.free ≤ self.new.free }
    {
        self.text.clear();
    }
}
