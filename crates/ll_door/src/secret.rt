//! The line by which a publisher gives a channel's secret.
ghost use Rattle.std.specs.Prelude.{◌≡◌, MatchOption, None, Some};
ghost use Rattle.std.specs.List.{list_all};
ghost use Rattle.ll_door.specs.Doors as spec;

use ll_attr::after;

/// The most bytes of a secret.
const LIMIT: usize = 256;

/// Returns the secret that the line `secret WORD` gives: 1 to 256 bytes of 0x21 to 0x7E. `None` for any other line.
pub fn secret_in(line: &str) -> Option<&str>
    ensures { MatchOption result (spec.secret_in line.now ≡ None) (λ word. spec.secret_in line.now ≡ Some word.now) }
{
    match after(line, "secret ") {
        Some(word) if is_secret(word) => Some(word),
        _ => None,
    }
}

/// Returns whether `word` can be a secret.
fn is_secret(word: &str) -> bool
    ensures { result ≡ spec.is_secret word.now }
{
    !word.is_empty() && word.len() <= LIMIT && is_graphic(word)
}

/// Returns whether all bytes of `word` are 0x21 to 0x7E.
fn is_graphic(word: &str) -> bool
    ensures { result ≡ list_all spec.is_graphic word.now }
{
    word.bytes().all(|b| 0x21 <= b && b <= 0x7e)
}
