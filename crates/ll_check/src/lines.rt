//! How a text is cut into lines. What comes after the text changes none of the lines that end in it.
ghost use Rattle.std.specs.Prelude.{◌≡◌, ◌≤◌, ◌++◌, ◌∷◌, ℕ, List, [], IfErr, IfOk, IfSome, MatchOption, Some, length, option_map};
ghost use Rattle.ll_attr.specs.Words.{pieces_at};
ghost use Rattle.ll_entry.specs.Chain as spec;
ghost use Rattle.ll_check.specs.Lines.{IsBehind, IsLast, IsText};
ghost use Rattle.ll_entry.specs.Chain.{Inside, checked_from, wrong};

use ll_entry::{CheckKind, LAST_LINE};
use memchr::memchr;
use std::str;

/// The first three lines of a text, without their ends.
#[derive(Clone, Copy)]
pub(crate) struct FirstLines<'a> {
    pub(crate) first: &'a [u8],
    pub(crate) settings: &'a [u8],
    pub(crate) at: &'a [u8],
    /// What follows them.
    pub(crate) rest: &'a [u8],
}

/// Returns the first line without its end, and what follows it; `None` if no line ends.
pub(crate) fn cut_line(bytes: &[u8]) -> Option<(&[u8], &[u8])>
    ensures parts { MatchOption result (pieces_at 10 bytes.now ≡ bytes.now ∷ [])
        (λ c. (more : List ℕ) → pieces_at 10 (bytes.now ++ more) ≡ c.0.now ∷ pieces_at 10 (c.1.now ++ more)) }
    ensures behind { IfSome result (λ c. IsBehind c.1.now bytes.now) }
{
    let end = memchr(b'\n', bytes)?;
    Some((&bytes[..end], &bytes[end + 1..]))
}

/// Returns the first three lines; `None` if fewer end.
pub(crate) fn cut_three(bytes: &[u8]) -> Option<FirstLines<'_>>
    ensures parts { MatchOption result (length (pieces_at 10 bytes.now) ≤ 3)
        (λ c. (more : List ℕ) → pieces_at 10 (bytes.now ++ more) ≡ c.first.now ∷ c.settings.now ∷ c.at.now ∷ pieces_at 10 (c.rest.now ++ more)) }
    ensures behind { IfSome result (λ c. IsBehind c.rest.now bytes.now) }
{
    let (first, rest) = cut_line(bytes)?;
    let (settings, rest) = cut_line(rest)?;
    let (at, rest) = cut_line(rest)?;
    Some(FirstLines {
        first,
        settings,
        at,
        rest,
    })
}

/// Returns the text of a line of a chunk after its first three; `None` for its last line.
pub(crate) fn chunk_line(line: &[u8]) -> Result<Option<&str>, CheckKind>
    ensures right { (rest : List (List ℕ)) → IfOk result (λ r. MatchOption r (IsLast (line.now ∷ rest) rest) (λ text. IsText text.now (line.now ∷ rest) rest)) }
    ensures wrong { (ch : spec.Chain) (rest : List ℕ) → IfErr result (λ k. checked_from (Inside ch) (line.now ∷ pieces_at 10 rest) ≡ wrong (Some ch) k) }
{
    if line == LAST_LINE.as_bytes() {
        return Ok(None);
    }
    match text_in(line) {
        Some(text) => Ok(Some(text)),
        None => Err(CheckKind::BadChunk),
    }
}

/// Returns a line as text; `None` if it isn't UTF-8.
pub(crate) fn text_in(line: &[u8]) -> Option<&str>
    ensures { option_map (λ t. t.now) result ≡ spec.text_in line.now }
{
    match str::from_utf8(line) {
        Ok(text) => Some(text),
        Err(_) => None,
    }
}
