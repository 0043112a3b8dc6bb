//! The path of a target.
ghost use Rattle.std.specs.Prelude.{◌≡◌, ◌==◌, ◌<◌, None, Some, MatchOption};
ghost use Rattle.std.specs.List.{before_first, after_first};
ghost use Rattle.ll_attr.specs.Words.{pieces_at};
ghost use Rattle.ll_directive.specs.Targets as spec;

use crate::file::file_in;
use ll_attr::{after, cut};
use ll_item::What;
use ll_settings::is_name;

/// Returns what precedes the first `separator`, or the whole text, and what follows it, or nothing.
pub(crate) fn split(text: &str, separator: char) -> (&str, &str)
    requires { separator < 128 }
    ensures before { result.0.now ≡ before_first (λ b. b == separator) text.now }
    ensures after { result.1.now ≡ after_first (λ b. b == separator) text.now }
{
    match text.split_once(separator) {
        Some((before, after)) => (before, after),
        None => (text, ""),
    }
}

/// Returns the path without its first slash, or `None` if there is none. `front` is what precedes a target's first question mark.
pub(crate) fn path_of(front: &str) -> Option<&str>
    ensures { MatchOption result (spec.path_of front.now ≡ None) (λ path. spec.path_of front.now ≡ Some path.now) }
{
    if let Some(path) = after(front, "/") {
        return Some(path);
    }
    let (authority, path) = split(after_scheme(front)?, '/');
    if authority.is_empty() {
        None
    } else {
        Some(path)
    }
}

/// Returns what follows `http://` or `https://`.
fn after_scheme(front: &str) -> Option<&str>
    ensures { MatchOption result (spec.after_scheme front.now ≡ None) (λ rest. spec.after_scheme front.now ≡ Some rest.now) }
{
    let (scheme, rest) = split(front, ':');
    if is_scheme(scheme) {
        after(rest, "//")
    } else {
        None
    }
}

/// Returns whether a text is `http` or `https`, each letter in either case.
fn is_scheme(text: &str) -> bool
    ensures { result ≡ spec.is_scheme text.now }
{
    text.eq_ignore_ascii_case("http") || text.eq_ignore_ascii_case("https")
}

/// Parses `CHANNEL/RENDITION/FILE`: the names of the channel and the rendition, and the file.
#[tactic(auto, using(crate::proofs::Pieces::more_names))]
pub(crate) fn names_in(path: &str) -> Option<(&str, &str, What)>
    ensures { MatchOption result (spec.names_in (pieces_at 47 path.now) ≡ None)
        (λ names. spec.names_in (pieces_at 47 path.now) ≡ Some (names.0.now, (names.1.now, names.2))) }
{
    let (channel, rest) = cut(path, '/')?;
    let (rendition, file) = cut(rest, '/')?;
    if cut(file, '/').is_some() {
        return None;
    }
    if !is_name(channel) || !is_name(rendition) {
        return None;
    }
    Some((channel, rendition, file_in(file)?))
}
