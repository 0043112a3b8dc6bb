//! A line of a publisher, and how it is parsed.
ghost use Rattle.std.specs.Prelude.{◌≡◌, MatchOption, None, Some};
ghost use Rattle.ll_publish.specs.Lines.{asked_in, line_alone, line_of, parts, word_alone};
ghost use Rattle.ll_publish.specs.Meaning.{meant};

use ll_attr::after;
use ll_item::lacks_length;
use std::str;

/// The most bytes of a publisher's line, without its end.
pub(crate) const LINE_LIMIT: usize = 4_096;

/// A line of a publisher, with its item's bytes, which follow it.
#[derive(Clone, Copy)]
pub enum Line<'a> {
    /// The name of a channel, the line of an item for it without the number of the item's bytes, and these bytes, perhaps none. None of
    /// them is checked.
    Item(&'a str, &'a str, &'a [u8]),
    /// The question where a rendition stands: the names of its channel and of the rendition. Neither is checked.
    At(&'a str, &'a str),
    /// A line that isn't UTF-8, has no space, is that of an initialization section without its length, or whose item's bytes no LF follows.
    Bad,
    /// A line of more than 4,096 bytes. The rest of it is passed over.
    TooLong,
    /// A line whose item has more than 1,048,576 bytes. They are passed over.
    MediaTooLong,
}

impl<'a> Line<'a> {
    /// Parses `text`, a line of any length without its end, that no item's bytes follow.
    pub fn of(text: &'a [u8]) -> Line<'a>
        ensures { meant result ≡ line_of text.now }
    {
        match parts_of(text) {
            Some((channel, item)) => Line::alone(channel, item),
            None => Line::Bad,
        }
    }

    /// Returns the line of `channel` and `item` that no bytes follow: a question, or an item. That of an initialization section is bad,
    /// because it has to say its number of bytes.
    pub(crate) fn alone(channel: &'a str, item: &'a str) -> Line<'a>
        ensures { meant result ≡ line_alone channel.now item.now }
    {
        if lacks_length(item) {
            return Line::Bad;
        }
        match asked(item) {
            Some(rendition) => Line::At(channel, rendition),
            None => Line::Item(channel, item, &[]),
        }
    }
}

/// Returns the name of the rendition that is asked about, if `item` is `at RENDITION`.
fn asked(item: &str) -> Option<&str>
    ensures { MatchOption result (asked_in item.now ≡ None) (λ name. asked_in item.now ≡ Some name.now) }
{
    match after(item, "at ") {
        Some(name) => one_word(name),
        None => None,
    }
}

/// Returns `text` if it has no space.
fn one_word(text: &str) -> Option<&str>
    ensures { MatchOption result (word_alone (Some text.now) ≡ None) (λ word. word_alone (Some text.now) ≡ Some word.now) }
{
    match text.split_once(' ') {
        Some(_) => None,
        None => Some(text),
    }
}

/// Returns the channel's name and the item's line, or `None` if `text` isn't UTF-8 or has no space.
pub(crate) fn parts_of(text: &[u8]) -> Option<(&str, &str)>
    ensures { MatchOption result (parts text.now ≡ None) (λ p. parts text.now ≡ Some (p.0.now, p.1.now)) }
{
    match str::from_utf8(text) {
        Ok(text) => text.split_once(' '),
        Err(_) => None,
    }
}
