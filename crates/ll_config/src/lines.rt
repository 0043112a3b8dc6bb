//! Reads a settings file line by line.
ghost use Rattle.std.specs.Prelude.{◌≡◌, ◌==◌, ◌<◌, ◌+◌, ◌∷◌, ℕ, IfErr, IfOk, OnOk, Ok, length};
ghost use Rattle.std.specs.Str.Lines.{strip_carriage_return};
ghost use Rattle.ll_config.specs.Config as spec;
ghost use Rattle.ll_config.specs.Config.{all_left, file_lines, next_text};
ghost use Rattle.ll_config.specs.Faults.{IsFault};

use crate::fault::ConfigFault;
use memchr::memchr;
use std::marker::Model;
use std::str;

/// The lines of a settings file that weren't read yet.
#[derive(Drop)]
pub(crate) struct Lines<'a> {
    rest: &'a [u8],
    /// The number of lines that were read.
    count: u64,
}

impl<'a> Model for Lines<'a> {
    ghost use Rattle.std.specs.Prelude.{◌+◌, ◌<◌, ◌^◌, length};
    ghost use Rattle.ll_config.specs.Config.{Left, file_lines};

    ghost Value = { Left };

    ghost view = { λ l. record { lines = file_lines l.rest.now; number = l.count + 1 } };

    ghost invariant = { λ l. l.count + length l.rest.now < 2 ^ 63 };
}

impl<'a> Lines<'a> {
    /// Returns the lines of the file `bytes`.
    pub(crate) fn of(bytes: &'a [u8]) -> Lines<'a>
        ensures { result ≡ all_left bytes.now }
    {
        Lines {
            rest: bytes,
            count: 0,
        }
    }

    /// Returns whether no line is left.
    pub(crate) fn is_over(&self) -> bool
        ensures { result ≡ (length self.now.lines == 0) }
    {
        self.rest.is_empty()
    }

    /// Reads the next line, and returns it without its end.
    ///
    /// # Errors
    ///
    /// `BadLine` with its number if there is none, or if it isn't UTF-8.
    pub(crate) fn text(&mut self) -> Result<&'a str, ConfigFault>
        ensures value { IfOk result (λ line. next_text self.old ≡ Ok (line.now, self.new)) }
        ensures number { OnOk result (self.new.number ≡ self.old.number + 1) }
        ensures fewer { OnOk result (length self.new.lines < length self.old.lines) }
        ensures bad { IfErr result (λ fault. IsFault fault (next_text self.old) ⊥) }
    {
        let number = self.count + 1;
        if self.rest.is_empty() {
            return Err(ConfigFault::BadLine(number));
        }
        let (line, rest) = cut_line(self.rest);
        match str::from_utf8(line) {
            Ok(text) => {
                self.rest = rest;
                self.count = number;
                Ok(text)
            }
            Err(_) => Err(ConfigFault::BadLine(number)),
        }
    }

    /// Returns whether the next line begins with `keyword`.
    pub(crate) fn begins(&self, keyword: &str) -> bool
        ensures { result ≡ spec.begins keyword.now self.now.lines }
    {
        !self.rest.is_empty() && cut_line(self.rest).0.starts_with(keyword.as_bytes())
    }

    /// Returns the fault of the line that was read last.
    pub(crate) fn bad(&self) -> ConfigFault
        ensures { (number : ℕ) → self.now.number ≡ number + 1 → result ≡ ConfigFault.BadLine number }
    {
        ConfigFault::BadLine(self.count)
    }

    /// Returns the fault of the next line, which is missing.
    pub(crate) fn missing(&self) -> ConfigFault
        ensures { result ≡ ConfigFault.BadLine self.now.number }
    {
        ConfigFault::BadLine(self.count + 1)
    }
}

/// Returns the first line of `bytes`, without its end, and what stands after it.
fn cut_line(bytes: &[u8]) -> (&[u8], &[u8])
    requires { 0 < length bytes.now }
    ensures lines { file_lines bytes.now ≡ result.0.now ∷ file_lines result.1.now }
    ensures shorter { length result.1.now < length bytes.now }
{
    match memchr(b'\n', bytes) {
        Some(end) => (without_return(&bytes[..end]), &bytes[end + 1..]),
        None => (without_return(bytes), &[]),
    }
}

/// Returns `line` without the CR at its end.
fn without_return(line: &[u8]) -> &[u8]
    ensures { result.now ≡ strip_carriage_return line.now }
{
    match line {
        [text @ .., b'\r'] => text,
        _ => line,
    }
}
