//! Why the words of a command are wrong, but for those of `push`.
use ll_attr::Text;
use ll_command::Topic;
use std::fmt;

/// Why the words of a command are wrong.
#[derive(Clone, Copy)]
pub enum WordsReason<'a> {
    /// The words end before this one.
    Missing(&'static str),
    /// This word stands after the last one.
    Further(&'a str),
    /// This is no entry's number.
    NoEntry(&'a str),
}

impl<'a> WordsReason<'a> {
    /// Returns why `words` are wrong, those after the name of the command of `topic`.
    pub fn of(topic: Topic, words: &'a [Text]) -> WordsReason<'a> {
        let (required, most) = wanted(topic);
        if let Some(name) = required.get(words.len()) {
            return WordsReason::Missing(name);
        }
        match (words.get(most), words.last()) {
            (Some(word), _) => WordsReason::Further(word.as_str()),
            (None, Some(word)) => WordsReason::NoEntry(word.as_str()),
            (None, None) => WordsReason::Missing(""),
        }
    }
}

/// Returns the words that the command of `topic` needs, and how many it has at most.
fn wanted(topic: Topic) -> (&'static [&'static str], usize) {
    match topic {
        Topic::Serve => (&["SETTINGS"], 1),
        Topic::Check | Topic::Upgrade => (&["RECORD"], 1),
        Topic::Explain => (&["RECORD"], 2),
        Topic::Apply => (&["BASE", "DELTA"], 2),
        Topic::Multivariant => (&["RECORD", "NAME=INIT"], usize::MAX),
        Topic::Program | Topic::Push | Topic::Replay | Topic::Version => (&[], 0),
    }
}

impl fmt::Display for WordsReason<'_> {
    fn fmt<W: fmt::Write>(&self, f: &mut fmt::Formatter<W>) -> fmt::Result {
        match self {
            WordsReason::Missing(name) => write!(f, "{name} is missing"),
            WordsReason::Further(word) => write!(f, "`{word}` is a word too many"),
            WordsReason::NoEntry(word) => write!(
                f,
                "`{word}` is no entry's number, which is 1, 2 and so on, without leading zeros"
            ),
        }
    }
}
