//! The words of an entry, read without memory.
ghost use Rattle.std.specs.Prelude.{◌≡◌};
ghost use Rattle.ll_entry.specs.Replies as spec;

use crate::version::Version;
use ll_attr::after;
use ll_directive::Awaited;
use ll_format::{number, until};
use ll_item::SkipKind;
use ll_verdict::Outcome;

/// Parses a number below 2^64 without leading zeros.
pub(crate) fn count(text: &str) -> Option<u64>
    ensures { result ≡ spec.count.read text.now }
{
    number(text, u64::MAX)
}

/// Parses a number, or `-` for none.
pub(crate) fn or_dash(text: &str) -> Option<Option<u64>>
    ensures { result ≡ (spec.or_dash spec.count).read text.now }
{
    if text == "-" {
        return Some(None);
    }
    Some(Some(count(text)?))
}

/// Parses a kind of delta update, `YES` or `v2`, or `-` for a full playlist.
pub(crate) fn update(text: &str) -> Option<Option<SkipKind>>
    ensures { result ≡ spec.update.read text.now }
{
    if text == "-" {
        Some(None)
    } else if text == "YES" {
        Some(Some(SkipKind::Yes))
    } else if text == "v2" {
        Some(Some(SkipKind::V2))
    } else {
        None
    }
}

/// Parses how many items a playlist comes after, and which delta update it is, which format 1 doesn't say.
fn playlist(version: Version, text: &str) -> Option<(u64, Option<SkipKind>)>
    ensures { result ≡ (spec.playlist version).read text.now }
{
    match version {
        Version::One => Some((count(text)?, None)),
        Version::Two => {
            let (word, rest) = until(text, ' ');
            let count = count(word)?;
            Some((count, update(after(rest, " ")?)?))
        }
    }
}

/// Parses the outcome of a reply.
pub(crate) fn outcome(version: Version, text: &str) -> Option<Outcome>
    ensures { result ≡ (spec.outcome version).read text.now }
{
    if text == "notfound" {
        Some(Outcome::NotFound)
    } else if text == "bad TooFar" {
        Some(Outcome::TooFar)
    } else if text == "busy" {
        Some(Outcome::Busy)
    } else if text == "timeout" {
        Some(Outcome::Timeout)
    } else {
        counted_reply(version, text)
    }
}

/// Parses `text N`, `text N UPDATE`, or `media N LENGTH`.
fn counted_reply(version: Version, text: &str) -> Option<Outcome>
    ensures { result ≡ spec.counted_reply version text.now }
{
    if let Some(rest) = after(text, "text ") {
        let (count, update) = playlist(version, rest)?;
        return Some(Outcome::Text(count, update));
    }
    let (count, length) = counts(version, after(text, "media ")?)?;
    Some(Outcome::Media(count, length))
}

/// Parses how many items media comes after, and its length in bytes. Format 1 has no media.
fn counts(version: Version, text: &str) -> Option<(u64, u64)>
    ensures { result ≡ (spec.counts version).read text.now }
{
    match version {
        Version::One => None,
        Version::Two => {
            let (word, rest) = until(text, ' ');
            let items = count(word)?;
            Some((items, count(after(rest, " ")?)?))
        }
    }
}

/// Parses the outcome of a request at once, or `held` for none.
pub(crate) fn or_held(version: Version, text: &str) -> Option<Option<Outcome>>
    ensures { result ≡ (spec.or_held version).read text.now }
{
    if text == "held" {
        return Some(None);
    }
    Some(Some(outcome(version, text)?))
}

/// Returns what a request with these numbers awaits; `None` for a part without a segment.
pub(crate) fn awaited(msn: Option<u64>, part: Option<u64>) -> Option<Awaited>
    ensures { result ≡ spec.awaited_of msn part }
{
    match (msn, part) {
        (None, None) => Some(Awaited::Nothing),
        (None, Some(_)) => None,
        (Some(msn), None) => Some(Awaited::Segment(msn)),
        (Some(msn), Some(part)) => Some(Awaited::Part(msn, part)),
    }
}
