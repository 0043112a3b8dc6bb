//! Why the words of `llhls push` are wrong.
use ll_attr::{Text, after};
use ll_format::number;
use ll_settings::is_name;
use std::fmt;

/// Why the words after `push` are wrong: the first of them that is, if one is wrong by itself.
#[derive(Clone, Copy)]
pub enum PushReason<'a> {
    /// The words end before this one, which is followed by what it is.
    Missing(&'static str),
    /// This is no name of a channel or a rendition.
    NoName(&'a str),
    /// A word that begins with the first of these, and a number after it, is expected where the second stands.
    NoNumber(&'static str, &'a str),
    /// The word `secret=` has no file's name after it.
    NoFile,
    /// This is no option.
    NoOption(&'a str),
    /// The first of these options stands after the second, which has to follow it, or is the same again.
    Late(&'a str, &'a str),
    /// The words are right each by itself, but `part=` is 0.
    NoPart,
    /// The words are right each by itself, but `most=` is less than `part=`.
    Short,
}

impl<'a> PushReason<'a> {
    /// Returns why `words` are wrong, those after `push`.
    pub fn of(words: &'a [Text]) -> PushReason<'a> {
        let [_address, channel, rendition, part, segment, options @ ..] = words else {
            return PushReason::Missing(missing(words.len()));
        };
        let (part, segment) = (part.as_str(), segment.as_str());
        if let Some(name) = no_name(channel.as_str(), rendition.as_str()) {
            PushReason::NoName(name)
        } else if !has_number("part=", part) {
            PushReason::NoNumber("part=", part)
        } else if !has_number("segment=", segment) {
            PushReason::NoNumber("segment=", segment)
        } else if let Some(reason) = wrong_option(options) {
            reason
        } else if part == "part=0" {
            PushReason::NoPart
        } else {
            PushReason::Short
        }
    }
}

/// Returns which word is missing after the first `count`.
fn missing(count: usize) -> &'static str {
    match count {
        0 => "ADDRESS is missing: where a server listens for publishers, as 127.0.0.1:8081",
        1 => "CHANNEL is missing: the channel's name",
        2 => "RENDITION is missing: the name of one of the channel's renditions",
        3 => "part= is missing: the duration of a part in microseconds, as part=500000",
        _ =>
            "segment= is missing: the least duration of a segment in microseconds, as segment=2000000",
    }
}

/// Returns the first of these that is no name.
fn no_name<'a>(channel: &'a str, rendition: &'a str) -> Option<&'a str> {
    if !is_name(channel) {
        Some(channel)
    } else if !is_name(rendition) {
        Some(rendition)
    } else {
        None
    }
}

/// Returns whether `word` is `key` and a number.
fn has_number(key: &str, word: &str) -> bool {
    match after(word, key) {
        Some(digits) => number(digits, u64::MAX).is_some(),
        None => false,
    }
}

/// Returns what is wrong with `options`, if one is wrong by itself, or in its place.
fn wrong_option(options: &[Text]) -> Option<PushReason<'_>> {
    let mut last = "";
    for word in options {
        let word = word.as_str();
        let rank = rank_of(word);
        if word == "secret=" {
            return Some(PushReason::NoFile);
        }
        if rank == 0 {
            return Some(PushReason::NoOption(word));
        }
        if rank <= rank_of(last) && !(rank == 5 && last == "end") {
            return Some(PushReason::Late(word, last));
        }
        if let Some(key) = numbered(rank)
            && !has_number(key, word)
        {
            return Some(PushReason::NoNumber(key, word));
        }
        last = word;
    }
    None
}

/// Returns the place of the option `word` among the options, from 1, or 0 if it is none.
fn rank_of(word: &str) -> u8 {
    if word.starts_with("most=") {
        1
    } else if word == "ahead=no" {
        2
    } else if word.starts_with("retry=") {
        3
    } else if word.starts_with("keep=") {
        4
    } else if word.starts_with("secret=") {
        5
    } else if word == "end" {
        6
    } else {
        0
    }
}

/// Returns what the option in the place `rank` begins with, if a number follows.
fn numbered(rank: u8) -> Option<&'static str> {
    match rank {
        1 => Some("most="),
        3 => Some("retry="),
        4 => Some("keep="),
        _ => None,
    }
}

/// Returns what comes after `key`.
fn form_of(key: &str) -> &'static str {
    match key {
        "part=" => "a whole number of microseconds, as part=500000",
        "segment=" => "a whole number of microseconds, as segment=2000000",
        "most=" => "a whole number of microseconds, as most=3000000",
        "retry=" => "a whole number of seconds, as retry=60",
        _ => "a whole number of bytes, as keep=67108864",
    }
}

/// The options, in their order.
const ORDER: &str = "most= ahead=no retry= keep= secret= end";

impl fmt::Display for PushReason<'_> {
    fn fmt<W: fmt::Write>(&self, f: &mut fmt::Formatter<W>) -> fmt::Result {
        match self {
            PushReason::Missing(word) => f.write_str(word),
            PushReason::NoName(name) => write!(
                f,
                "`{name}` is no name of a channel or a rendition, which has 1 to 32 of the characters a-z, 0-9, - and _"
            ),
            PushReason::NoNumber(key, word) => write!(
                f,
                "`{word}` stands where `{key}` has to be, and after it {}",
                form_of(key)
            ),
            PushReason::NoFile => f.write_str("`secret=` has no file's name after it"),
            PushReason::NoOption(word) => {
                write!(
                    f,
                    "`{word}` is no option: the options are, in this order, {ORDER}"
                )
            }
            PushReason::Late(word, last) => {
                write!(
                    f,
                    "`{word}` stands after `{last}`: the options' order is {ORDER}, each once"
                )
            }
            PushReason::NoPart => f.write_str(
                "`part=0`: a part has to last for a microsecond or more",
            ),
            PushReason::Short => f.write_str("`most=` is less than `part=`"),
        }
    }
}
