//! Parses how an encoder's output is published.
ghost use Rattle.std.specs.Prelude.{◌≡◌, codes, option_map};
ghost use Rattle.ll_command.specs.Commands as spec;

use ll_attr::{Text, after};
use ll_format::number;
use ll_parts::Lengths;

/// How long a lost connection is tried again by default, in seconds.
const RETRY: u64 = 60;

/// How many bytes wait for one of several origins at most by default: 64 MiB.
const KEEP: u64 = 1 << 26;

/// How an encoder's output is published.
#[derive(Clone, Copy)]
pub struct Plan {
    /// The durations of parts and segments.
    pub lengths: Lengths,
    /// How long a lost connection is tried again, in seconds.
    pub retry: u64,
    /// How many bytes wait at most for one of several origins, while another takes more.
    pub keep: u64,
    /// Whether the rendition is ended after the input's last part.
    pub ends: bool,
}

impl Plan {
    /// Parses a plan: `part=` and `segment=` with a number of microseconds, and then the options `most=` with such a number, `ahead=no`,
    /// `retry=` with a number of seconds, `keep=` with a number of bytes, and `end`, in this order. `secret=` with a path may stand before
    /// `end` or after it: returns the path beside the plan. Returns `None` for other words, or if a part has no duration, or `most` is shorter than a part.
    pub(crate) fn of<'a>(
        part: &Text,
        segment: &Text,
        words: &'a [Text],
    ) -> Option<(Plan, Option<&'a str>)>
        ensures { option_map (λ p. (p.0, option_map (λ s. s.now) p.1)) result ≡ spec.plan part.now segment.now words.now }
    {
        let part = setting("part=", part.as_str())?;
        let segment = setting("segment=", segment.as_str())?;
        let (most, words) = numbered("most=", words);
        let (hasty, words) = flagged("ahead=no", words);
        let (retry, words) = numbered("retry=", words);
        let (keep, words) = numbered("keep=", words);
        let (early, words) = secret(words);
        let (ends, words) = flagged("end", words);
        let (secret, words) = match early {
            Some(_) => (early, words),
            None => secret(words),
        };
        if !words.is_empty() {
            return None;
        }
        let most = most.unwrap_or(usual_most(part, segment));
        if part < 1 || most < part {
            return None;
        }
        let lengths = Lengths {
            part,
            segment,
            most,
            ahead: !hasty,
        };
        let plan = Plan {
            lengths,
            retry: retry.unwrap_or(RETRY),
            keep: keep.unwrap_or(KEEP),
            ends,
        };
        Some((plan, secret))
    }
}

/// Returns the longest duration of a segment by default: half as long again as `segment`, and no less than `part`.
fn usual_most(part: u64, segment: u64) -> u64
    ensures { result ≡ spec.usual_most part segment }
{
    part.max(segment.saturating_add(segment / 2))
}

/// Returns the number after `key`, if the first word has one, and the words that are left.
fn numbered<'a>(key: &str, words: &'a [Text]) -> (Option<u64>, &'a [Text])
    ensures { (result.0, result.1.now) ≡ spec.numbered key.now words.now }
{
    let Some((word, later)) = words.split_first() else {
        return (None, words);
    };
    match setting(key, word.as_str()) {
        Some(number) => (Some(number), later),
        None => (None, words),
    }
}

/// Returns the path after `secret=`, if the first word has one, and the words that are left.
fn secret(words: &[Text]) -> (Option<&str>, &[Text])
    ensures { (option_map (λ s. s.now) result.0, result.1.now) ≡ spec.secret words.now }
{
    let Some((word, later)) = words.split_first() else {
        return (None, words);
    };
    match after(word.as_str(), "secret=") {
        Some(path) if !path.is_empty() => (Some(path), later),
        _ => (None, words),
    }
}

/// Returns whether the first word is `flag`, and the words that are left.
fn flagged<'a>(flag: &str, words: &'a [Text]) -> (bool, &'a [Text])
    ensures { (result.0, result.1.now) ≡ spec.flagged flag.now words.now }
{
    match words.split_first() {
        Some((word, later)) if word.as_str() == flag => (true, later),
        _ => (false, words),
    }
}

/// Returns the number in `word` after `key`.
fn setting(key: &str, word: &str) -> Option<u64>
    ensures { result ≡ spec.setting key.now word.now }
{
    number(after(word, key)?, u64::MAX)
}
