//! Cuts a text at a separator or after a key. Nothing here takes memory.
ghost use Rattle.std.specs.Prelude.{◌≡◌, ◌<◌, ◌∷◌, [], ℕ, List, IfSome, None, Some, MatchOption, length};
ghost use Rattle.ll_attr.specs.Words.{pieces_at, words};
ghost use Rattle.ll_attr.specs.Words as spec;

/// Returns what is before the first `separator`, an ASCII character, and what follows it, or `None` if `text`
/// has none.
pub fn cut(text: &str, separator: char) -> Option<(&str, &str)>
    requires { separator < 128 }
    ensures parts { MatchOption result (pieces_at separator text.now ≡ text.now ∷ [])
        (λ c. pieces_at separator text.now ≡ c.0.now ∷ pieces_at separator c.1.now) }
    ensures shorter { IfSome result (λ c. length c.1.now < length text.now) }
{
    text.split_once(separator)
}

/// Returns `text` if it is one word, which holds no space.
pub fn one_word(text: &str) -> Option<&str>
    ensures { MatchOption result ((first : List ℕ) × (second : List ℕ) × (more : List (List ℕ)) × (words text.now ≡ first ∷ second ∷ more))
        (λ word. words text.now ≡ word.now ∷ []) }
{
    match cut(text, ' ') {
        Some(_) => None,
        None => Some(text),
    }
}

/// Returns what follows `key`, if `text` begins with it.
pub fn after<'a>(text: &'a str, key: &str) -> Option<&'a str>
    ensures { MatchOption result (spec.after key.now text.now ≡ None) (λ rest. spec.after key.now text.now ≡ Some rest.now) }
{
    text.strip_prefix(key)
}
